//! A candidate's goals as they are posed.
ghost use Rattle.std.specs.Prelude.{◌≡◌, ◌≢◌, ◌↔◌, All, IfOk, OnOk, Err, IsTrue};
ghost use Rattle.nts_model.specs.Derivations.Rules.{coherence, IsHandlers, statement_of};
ghost use Rattle.nts_store.specs.Growth.{tree_at};
ghost use Rattle.nts_terms.specs.Handles.{HoldsGoal, HoldsPredicate};
ghost use Rattle.nts_terms.specs.Modes.{mode_of};
ghost use Rattle.nts_table.specs.Tables.{IsTable};
ghost use Rattle.nts_theory.specs.AskedGoals.{all_asked};
ghost use Rattle.nts_meaning.specs.Evaluation.{Runs, IsPosed, goals_at};
ghost use Rattle.nts_trying.specs.Stepping.{ArePosed};
ghost use Rattle.nts_posing.specs.Posed.{PosesBehind, PosesGoals, PosesFor, PosesAsked};

use nts_adding::add_goal;
use nts_certainty::{Certainty, GoalSource};
use nts_meaning::nts_search::CurrentGoalKind;
use nts_store::EvalError;
use nts_table::InferCtxt;
use nts_terms::{ClauseKind, Cx, Goal, PredicateKind, TypingMode};
use nts_trying::{asks, asks_all, keep_asked};

/// Puts behind the goals that are posed what stands for one more: itself if it is asked as it stands, and else what is added for it.
fn pose_one(
    table: &mut InferCtxt,
    cx: &mut Cx,
    posed: &mut Vec<(GoalSource, Goal)>,
    kind: CurrentGoalKind,
    given: (GoalSource, Goal),
) -> Result<(), EvalError>
    requires posed { IsPosed cx.old.nodes table.old given.1 }
    ensures runs { Runs cx.old cx.new table.old table.new }
    ensures poses { OnOk result (PosesBehind kind cx.old.nodes cx.new.nodes table.old table.new
        given posed.old.items posed.new.items) }
    ensures no { result ≢ Err EvalError.NoSolution }
    ensures full { result ≢ Err EvalError.Full }
{
    if asks(cx, &TypingMode::Coherence, given.1) {
        posed.push(given)?;
        return Ok(());
    }
    cx.terms_are_formed();
    add_goal(table, cx, posed, kind, given.0, given.1)?;
    cx.terms_are_formed();
    Ok(())
}

/// What stands for a candidate's goals in coherence, one after the other: a goal of the rules of a handler in which an alias stands
/// gives place to itself with new variables in the places of its aliases, and before it to the goals that these are equal.
fn pose_goals(
    table: &mut InferCtxt,
    cx: &mut Cx,
    kind: CurrentGoalKind,
    goals: &[(GoalSource, Goal)],
) -> Result<Vec<(GoalSource, Goal)>, EvalError>
    requires table { IsTable cx.old.nodes table.old }
    requires posed { ArePosed cx.old.nodes table.old goals.now }
    ensures runs { Runs cx.old cx.new table.old table.new }
    ensures poses { IfOk result (λ v. PosesGoals kind cx.old.nodes cx.new.nodes table.old table.new
        goals.now v.items) }
    ensures no { result ≢ Err EvalError.NoSolution }
    ensures full { result ≢ Err EvalError.Full }
{
    let mut posed = Vec::new(cx.alloc);
    for given in goals {
        pose_one(table, cx, &mut posed, kind, *given)?;
    }
    Ok(posed)
}

/// Whether rules of a handler are about what a goal says.
fn is_handlers(cx: &Cx, goal: Goal) -> bool
    requires { HoldsPredicate cx.now.nodes goal.predicate }
    ensures { IsTrue result ↔ IsHandlers (statement_of (tree_at cx.now.nodes goal.predicate.node)) }
{
    match goal.predicate.kind(cx).value {
        PredicateKind::Clause(ClauseKind::Trait(_)) => true,
        PredicateKind::Clause(ClauseKind::HostEffect(_)) => true,
        PredicateKind::Clause(ClauseKind::Projection { .. }) => true,
        PredicateKind::NormalizesTo { .. } => true,
        _ => false,
    }
}

/// Makes of a candidate's goals those that are posed in the table's mode, for a goal of that kind: in coherence what stands for them,
/// where the goal is one of the rules of a handler, and else themselves. It is `Memory` where a growth was refused; then variables may
/// be left in the table, and nothing else.
fn pose(
    table: &mut InferCtxt,
    cx: &mut Cx,
    goal: Goal,
    kind: CurrentGoalKind,
    goals: &mut Vec<(GoalSource, Goal)>,
) -> Result<(), EvalError>
    requires goal { HoldsPredicate cx.old.nodes goal.predicate }
    requires table { IsTable cx.old.nodes table.old }
    requires posed { ArePosed cx.old.nodes table.old goals.old.items }
    ensures runs { Runs cx.old cx.new table.old table.new }
    ensures poses { OnOk result (PosesFor kind (tree_at cx.old.nodes goal.predicate.node)
        cx.old.nodes cx.new.nodes table.old table.new goals.old.items goals.new.items) }
    ensures no { result ≢ Err EvalError.NoSolution }
    ensures full { result ≢ Err EvalError.Full }
{
    if asks_all(cx, table.typing_mode(), goals) {
        return Ok(());
    }
    if !is_handlers(cx, goal) {
        return Ok(());
    }
    *goals = pose_goals(table, cx, kind, goals)?;
    Ok(())
}

/// Makes of a candidate's goals those that are asked in the table's mode, for a goal of that kind: of those that are posed in it the
/// ones that are asked as they stand. The answer is yes where each of them is; else it is ambiguous, whatever the others are answered.
/// It is `Memory` where a growth was refused; then variables may be left in the table, and nothing else.
// The evaluation calls it while it nests: its frame is not to be a part of what a nested goal takes of the machine's stack.
#[inline(never)]
pub fn pose_asked(
    table: &mut InferCtxt,
    cx: &mut Cx,
    goal: Goal,
    kind: CurrentGoalKind,
    goals: &mut Vec<(GoalSource, Goal)>,
) -> Result<Certainty, EvalError>
    requires goal { HoldsPredicate cx.old.nodes goal.predicate }
    requires table { IsTable cx.old.nodes table.old }
    requires posed { ArePosed cx.old.nodes table.old goals.old.items }
    ensures runs { Runs cx.old cx.new table.old table.new }
    ensures asks { IfOk result (PosesAsked kind (tree_at cx.old.nodes goal.predicate.node)
        cx.old.nodes cx.new.nodes table.old table.new goals.old.items goals.new.items) }
    ensures no { result ≢ Err EvalError.NoSolution }
    ensures full { result ≢ Err EvalError.Full }
{
    pose(table, cx, goal, kind, goals)?;
    Ok(keep_asked(cx, table.typing_mode(), goals)?)
}
