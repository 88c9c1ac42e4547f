//! What is added to the goals of a context.
ghost use Rattle.std.specs.Prelude.{◌≡◌, ◌≢◌, ◌++◌, All, Err, IfOk, IfErr, OnOk, OnErr};
ghost use Rattle.nts_table.specs.Tables.{IsTable};
ghost use Rattle.nts_meaning.specs.Evaluation.{Runs, IsPosed};
ghost use Rattle.nts_adding.specs.Adding.{ArePosedIn};
ghost use Rattle.nts_nested_goals.specs.Related.{AddsTo, KeepsState};

use crate::state::EvalState;
use nts_adding::goals_to_add;
use nts_certainty::GoalSource;
use nts_search::CurrentGoalKind;
use nts_store::EvalError;
use nts_table::InferCtxt;
use nts_terms::{Cx, Goal};

/// Puts goals behind those of the state, all or none of them. What was refused is refused.
pub(crate) fn push_added(
    state: &mut EvalState,
    added: Result<Vec<(GoalSource, Goal)>, EvalError>,
) -> Result<(), EvalError>
    ensures ok { IfOk added (λ v. OnOk result
        (state.new.nested_goals.items ≡ state.old.nested_goals.items ++ v.items)) }
    ensures refused { IfErr added (λ e. result ≡ Err e) }
    ensures no { result ≡ Err EvalError.NoSolution → added ≡ Err EvalError.NoSolution }
    ensures full { result ≡ Err EvalError.Full → added ≡ Err EvalError.Full }
    ensures err { OnErr result (state.new.nested_goals.items ≡ state.old.nested_goals.items) }
    ensures kept { KeepsState state.old state.new }
{
    match added {
        Err(error) => Err(error),
        Ok(added) => match state.append(added) {
            Err(error) => Err(error.into()),
            Ok(()) => Ok(()),
        },
    }
}

/// Adds what stands for goals. After an error the table and the goals are as before.
pub fn add_all(
    table: &mut InferCtxt,
    cx: &mut Cx,
    state: &mut EvalState,
    source: GoalSource,
    goals: &[Goal],
) -> Result<(), EvalError>
    requires table { IsTable cx.old.nodes table.old }
    requires before { ArePosedIn cx.old.nodes table.old state.old.nested_goals.items }
    requires posed { All (IsPosed cx.old.nodes table.old) goals.now }
    ensures runs { Runs cx.old cx.new table.old table.new }
    ensures adds { OnOk result (AddsTo cx.old cx.new table.old table.new source goals.now
        state.old.nested_goals.items state.new.nested_goals.items) }
    ensures posed { ArePosedIn cx.new.nodes table.new state.new.nested_goals.items }
    ensures goals { OnErr result (state.new.nested_goals.items ≡ state.old.nested_goals.items) }
    ensures err { OnErr result (table.new ≡ table.old) }
    ensures no { result ≢ Err EvalError.NoSolution }
    ensures full { result ≢ Err EvalError.Full }
    ensures kept { KeepsState state.old state.new }
{
    let snapshot = table.start_snapshot()?;
    let added = goals_to_add(table, cx, CurrentGoalKind::Misc, source, goals);
    let pushed = push_added(state, added);
    table.commit_if_ok(snapshot, pushed)
}
