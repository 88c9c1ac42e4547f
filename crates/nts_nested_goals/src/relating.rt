//! Values that are related, and the goals that this leaves.
ghost use Rattle.std.specs.Prelude.{◌≡◌, ◌≢◌, Err, IfOk, OnOk, OnErr};
ghost use Rattle.nts_terms.specs.Signatures.{variances_in};
ghost use Rattle.nts_table.specs.Tables.{IsTable, IsSide};
ghost use Rattle.nts_solver_relating.specs.Sides.{ArePlainIn, AreUnrelatedIn, RefusesIn};
ghost use Rattle.nts_meaning.specs.Evaluation.{Runs};
ghost use Rattle.nts_adding.specs.Adding.{ArePosedIn};
ghost use Rattle.nts_nested_goals.specs.Related.{IsEnvOf, RelatesAdding, LeavesNothing, AddsRelated, AreEquatedIn, KeepsState};

use crate::adding::push_added;
use crate::state::EvalState;
use nts_adding::goals_to_add;
use nts_certainty::GoalSource;
use nts_model::Variance;
use nts_search::CurrentGoalKind;
use nts_solver_relating::{Relate, RelateExt};
use nts_store::EvalError;
use nts_table::InferCtxt;
use nts_terms::{Cx, Goal, ParamEnv, Span};

/// Relates two values of a table, and answers what stands for the goals that are left. After an error the table may have changed.
fn relate_and_stand<T: Relate>(
    table: &mut InferCtxt,
    cx: &mut Cx,
    env: ParamEnv,
    lhs: T,
    variance: Variance,
    rhs: T,
    span: Span,
) -> Result<Vec<(GoalSource, Goal)>, EvalError>
    requires table { IsTable cx.old.nodes table.old }
    requires env { IsEnvOf cx.old table.old env }
    requires left { IsSide T.place cx.old.nodes table.old (T.id lhs) }
    requires right { IsSide T.place cx.old.nodes table.old (T.id rhs) }
    ensures runs { Runs cx.old cx.new table.old table.new }
    ensures heads { OnOk result (T.head lhs ≡ T.head rhs) }
    ensures related { IfOk result (λ v. RelatesAdding cx.old cx.new table.old.entries
        table.new.entries env variance (T.id lhs) (T.id rhs) v.items) }
    ensures equal { ArePlainIn variance cx.old.nodes table.old.entries (T.id lhs) (T.id rhs) →
        IfOk result (λ v. LeavesNothing cx.old cx.new table.old.entries table.new.entries
        (T.id lhs) (T.id rhs) v.items) }
    ensures posed { IfOk result (λ v. ArePosedIn cx.new.nodes table.new v.items) }
    ensures no { result ≡ Err EvalError.NoSolution → T.head lhs ≡ T.head rhs → RefusesIn
        (variances_in cx.old.declarations) cx.old.nodes table.old.entries variance
        (T.id lhs) (T.id rhs) }
    ensures unequal { ArePlainIn variance cx.old.nodes table.old.entries (T.id lhs) (T.id rhs) →
        result ≡ Err EvalError.NoSolution → T.head lhs ≡ T.head rhs →
        AreUnrelatedIn cx.old.nodes table.old.entries (T.id lhs) (T.id rhs) }
    ensures full { result ≢ Err EvalError.Full }
{
    let goals = table.relate(cx, env, lhs, variance, rhs, span)?;
    goals_to_add(
        table,
        cx,
        CurrentGoalKind::Misc,
        GoalSource::TypeRelating,
        &goals,
    )
}

/// Relates two values of a table, and puts what stands for the goals that are left behind those of the state. After an error both are
/// as before.
pub fn relate_and_push<T: Relate>(
    table: &mut InferCtxt,
    cx: &mut Cx,
    state: &mut EvalState,
    env: ParamEnv,
    lhs: T,
    variance: Variance,
    rhs: T,
) -> Result<(), EvalError>
    requires table { IsTable cx.old.nodes table.old }
    requires before { ArePosedIn cx.old.nodes table.old state.old.nested_goals.items }
    requires env { IsEnvOf cx.old table.old env }
    requires left { IsSide T.place cx.old.nodes table.old (T.id lhs) }
    requires right { IsSide T.place cx.old.nodes table.old (T.id rhs) }
    ensures runs { Runs cx.old cx.new table.old table.new }
    ensures heads { OnOk result (T.head lhs ≡ T.head rhs) }
    ensures related { OnOk result (AddsRelated cx.old cx.new table.old table.new state.old state.new
        env variance (T.id lhs) (T.id rhs)) }
    ensures equal { ArePlainIn variance cx.old.nodes table.old.entries (T.id lhs) (T.id rhs) →
        OnOk result (AreEquatedIn cx.old cx.new table.old table.new state.old state.new
        (T.id lhs) (T.id rhs)) }
    ensures posed { ArePosedIn cx.new.nodes table.new state.new.nested_goals.items }
    ensures no { result ≡ Err EvalError.NoSolution → T.head lhs ≡ T.head rhs → RefusesIn
        (variances_in cx.old.declarations) cx.old.nodes table.old.entries variance
        (T.id lhs) (T.id rhs) }
    ensures unequal { ArePlainIn variance cx.old.nodes table.old.entries (T.id lhs) (T.id rhs) →
        result ≡ Err EvalError.NoSolution → T.head lhs ≡ T.head rhs →
        AreUnrelatedIn cx.old.nodes table.old.entries (T.id lhs) (T.id rhs) }
    ensures full { result ≢ Err EvalError.Full }
    ensures goals { OnErr result (state.new.nested_goals.items ≡ state.old.nested_goals.items) }
    ensures err { OnErr result (table.new ≡ table.old) }
    ensures kept { KeepsState state.old state.new }
{
    let span = state.span;
    let snapshot = table.start_snapshot()?;
    let added = relate_and_stand(table, cx, env, lhs, variance, rhs, span);
    let pushed = push_added(state, added);
    table.commit_if_ok(snapshot, pushed)
}
