//! A context: two types are made one, and then a goal is asked for in a probe.
ghost use Rattle.std.specs.Prelude.{◌≡◌, OnOk};
ghost use Rattle.nts_model.specs.Terms.Trees.{any_argument};
ghost use Rattle.nts_terms.specs.Handles.{HoldsGoal};
ghost use Rattle.nts_delegate.specs.Clauses.{AreClausesReady};
ghost use Rattle.nts_table.specs.Tables.{IsTable, IsSide};
ghost use Rattle.nts_meaning.specs.Evaluation.{Runs, IsPosed};
ghost use Rattle.nts_contexts.specs.Contexts.{IsContextReady, KeepsContext, IsGoalOfContext};

use crate::asking::{goal_of, rules_of, traits_of};
use nts_certainty::GoalSource;
use nts_contexts::EvalCtxt;
use nts_delegate::Clauses;
use nts_evaluation::goal_is_admitted;
use nts_fault_rows::{Called, content_of};
use nts_fixtures::Fixture;
use nts_model::UintTy;
use nts_store::EvalError;
use nts_table::InferCtxt;
use nts_terms::{Cx, GenericArg, Goal, Span};

/// Makes the two types one, and evaluates the goal in a probe.
#[tactic(auto, using(nts_contexts::proofs::Handed::handed, nts_contexts::proofs::Frames::keeps_then))]
fn enter(
    table: &mut InferCtxt,
    cx: &mut Cx,
    rules: &Clauses,
    lhs: GenericArg,
    rhs: GenericArg,
    goal: Goal,
) -> Result<(), EvalError>
    requires table { IsTable cx.old.nodes table.old }
    requires ready { AreClausesReady cx.old.nodes rules.now }
    requires left { IsSide any_argument cx.old.nodes table.old lhs.node }
    requires right { IsSide any_argument cx.old.nodes table.old rhs.node }
    requires goal { IsPosed cx.old.nodes table.old goal }
    ensures runs { Runs cx.old cx.new table.old table.new }
{
    let depth = cx.recursion_limit();
    EvalCtxt::enter_root(
        table,
        cx,
        rules,
        depth,
        Span(0),
        |ecx: &mut EvalCtxt<'_, Clauses>| -> Result<(), EvalError>
            requires ready { IsContextReady AreClausesReady ecx.old }
            requires left { IsSide any_argument ecx.old.cx.now.nodes ecx.old.table.now lhs.node }
            requires right { IsSide any_argument ecx.old.cx.now.nodes ecx.old.table.now rhs.node }
            requires goal { IsGoalOfContext ecx.old goal }
            ensures keeps { KeepsContext AreClausesReady ecx.old ecx.new }
            ensures goals { OnOk result
                (ecx.new.state.now.nested_goals.items ≡ ecx.old.state.now.nested_goals.items) }
        {
            ecx.eq_structurally_relating_aliases(goal.param_env, lhs, rhs)?;
            ecx.probe(
                |probe: &mut EvalCtxt<'_, Clauses>| -> Result<(), EvalError>
                    requires ready { IsContextReady AreClausesReady probe.old }
                    requires goal { IsGoalOfContext probe.old goal }
                    ensures keeps { KeepsContext AreClausesReady probe.old probe.new }
                {
                    probe.add_goal(GoalSource::Misc, goal)?;
                    probe.try_evaluate_added_goals()?;
                    Ok(())
                },
            )
        },
    )
}

/// Does so, where the goal may be asked and the types are of the table.
#[tactic(auto, using(nts_asking::proofs::Asking::asking))]
fn try_enter(
    fixture: &mut Fixture,
    rules: &Clauses,
    lhs: GenericArg,
    rhs: GenericArg,
    goal: Goal,
) -> Result<Called, EvalError>
    requires table { IsTable fixture.old.cx.nodes fixture.old.table }
    requires ready { AreClausesReady fixture.old.cx.nodes rules.now }
    requires goal { HoldsGoal fixture.old.cx.nodes goal }
    ensures table { OnOk result (IsTable fixture.new.cx.nodes fixture.new.table) }
{
    if !goal_is_admitted(&fixture.table, &mut fixture.cx, goal)? {
        return Err(EvalError::NoSolution);
    }
    fixture.seen(lhs)?;
    fixture.seen(rhs)?;
    let before = content_of(fixture)?;
    let (cx, table) = (&mut fixture.cx, &mut fixture.table);
    let answer = enter(table, cx, rules, lhs, rhs, goal);
    Ok(Called { before, answer })
}

/// Makes the constructor over a variable and over `u32` one, and asks for a goal about that type.
#[tactic(auto, using(nts_asking::proofs::Asking::asking, nts_terms::proofs::Moved::growth))]
pub fn context(fixture: &mut Fixture) -> Result<Called, EvalError>
    requires { IsTable fixture.old.cx.nodes fixture.old.table }
    ensures { OnOk result (IsTable fixture.new.cx.nodes fixture.new.table) }
{
    let traits = traits_of(fixture)?;
    let variable = fixture.ty_var()?;
    let lhs = fixture.wrap(variable)?;
    let word = fixture.uint(UintTy::U32)?;
    let rhs = fixture.wrap(word)?;
    let goal = goal_of(&mut fixture.cx, traits.over, lhs)?;
    let rules = rules_of(&mut fixture.cx, traits, fixture.one)?;
    try_enter(fixture, &rules, lhs, rhs, goal)
}
