//! What stands for a goal that is added.
ghost use Rattle.std.specs.Prelude.{◌≡◌, ◌≢◌, ◌↔◌, IfOk, OnOk, Err, IsTrue, All, map};
ghost use Rattle.nts_model.specs.Derivations.Rules.{KeepsAliases, statement_of};
ghost use Rattle.nts_store.specs.Growth.{tree_at};
ghost use Rattle.nts_terms.specs.Handles.{HoldsPredicate};
ghost use Rattle.nts_table.specs.Tables.{IsTable};
ghost use Rattle.nts_meaning.specs.Evaluation.{Runs, IsPosed};
ghost use Rattle.nts_adding.specs.Replacing.{StandFor};
ghost use Rattle.nts_adding.specs.Adding.{AddsBehind, AddsEach, ArePosedIn};

use crate::putting::put_variables;
use nts_certainty::GoalSource;
use nts_meaning::nts_search::{CurrentGoalKind, step_kind_for_source};
use nts_solver_relating::goals_of;
use nts_store::EvalError;
use nts_table::InferCtxt;
use nts_terms::{ClauseKind, Cx, Goal, Predicate, PredicateKind};
use std::alloc::{AllocError, Global};

/// Whether the aliases of a predicate stand as they are.
fn keeps_aliases(cx: &Cx, predicate: Predicate) -> bool
    requires { HoldsPredicate cx.now.nodes predicate }
    ensures { IsTrue result ↔ KeepsAliases (statement_of (tree_at cx.now.nodes predicate.node)) }
{
    match predicate.kind(cx).value {
        PredicateKind::Clause(ClauseKind::WellFormed(_)) => true,
        PredicateKind::Clause(ClauseKind::UnstableFeature(_)) => true,
        PredicateKind::AliasRelate(_, _, _) => true,
        PredicateKind::NormalizesTo { .. } => true,
        _ => false,
    }
}

/// What stands for a goal that is added: the goal with a new variable in the place of each outermost alias from which no bound
/// variable escapes, and before it, for each of these aliases, in order, the goal that it is equal to its variable. Goals that say of
/// a term that it is well formed, that relate or normalize an alias, or that ask for an unstable feature, stand as they are.
///
/// It is `Memory` where a growth was refused; then variables may be left in the table, and nothing else.
pub fn replace_aliases(
    table: &mut InferCtxt,
    cx: &mut Cx,
    goal: Goal,
) -> Result<(Vec<Goal>, Goal), EvalError>
    requires posed { IsPosed cx.old.nodes table.old goal }
    ensures runs { Runs cx.old cx.new table.old table.new }
    ensures stand { IfOk result (λ r. StandFor cx.old.nodes cx.new.nodes table.old.entries
        table.new.entries goal r.0.items r.1) }
    ensures posed { IfOk result (λ r. All (IsPosed cx.new.nodes table.new) r.0.items) }
    ensures last { IfOk result (λ r. IsPosed cx.new.nodes table.new r.1) }
    ensures no { result ≢ Err EvalError.NoSolution }
    ensures full { result ≢ Err EvalError.Full }
{
    if keeps_aliases(cx, goal.predicate) {
        return Ok((Vec::new(cx.alloc), goal));
    }
    let (predicate, pairs) = put_variables(table, cx, goal.predicate)?;
    let goals = goals_of(cx.alloc, &mut cx.nodes, goal.param_env, &pairs)?;
    let left = Goal {
        param_env: goal.param_env,
        predicate,
    };
    Ok((goals, left))
}

/// Goals, each with that source.
fn with_source(
    alloc: Global,
    source: GoalSource,
    goals: &[Goal],
) -> Result<Vec<(GoalSource, Goal)>, AllocError>
    ensures { IfOk result (λ v. v.items ≡ map (λ g. (source, g)) goals.now) }
{
    let mut added = Vec::with_capacity(alloc, goals.len())?;
    for goal in goals {
        added.push((source, *goal))?;
    }
    Ok(added)
}

/// Puts what stands for a goal behind what was added before, for a goal of that kind that asks for it from that source. It is `Memory`
/// where a growth was refused; then variables may be left in the table, and a part of it behind what was added.
pub fn add_goal(
    table: &mut InferCtxt,
    cx: &mut Cx,
    added: &mut Vec<(GoalSource, Goal)>,
    kind: CurrentGoalKind,
    source: GoalSource,
    goal: Goal,
) -> Result<(), EvalError>
    requires posed { IsPosed cx.old.nodes table.old goal }
    ensures runs { Runs cx.old cx.new table.old table.new }
    ensures adds { OnOk result (AddsBehind cx.old.nodes cx.new.nodes table.old table.new kind source
        goal added.old.items added.new.items) }
    ensures no { result ≢ Err EvalError.NoSolution }
    ensures full { result ≢ Err EvalError.Full }
{
    let (relations, last) = replace_aliases(table, cx, goal)?;
    let step = GoalSource::NormalizeGoal(step_kind_for_source(kind, source));
    let mut first = with_source(cx.alloc, step, &relations)?;
    added.append(&mut first)?;
    added.push((source, last))?;
    Ok(())
}

/// What is added where goals are to hold that a goal of that kind asks for from that source: what stands for each of them, in
/// order, the goals of its aliases with a source of their own, which says by what step they are asked. It is `Memory` where a growth
/// was refused; then variables may be left in the table, and nothing else.
pub fn goals_to_add(
    table: &mut InferCtxt,
    cx: &mut Cx,
    kind: CurrentGoalKind,
    source: GoalSource,
    goals: &[Goal],
) -> Result<Vec<(GoalSource, Goal)>, EvalError>
    requires table { IsTable cx.old.nodes table.old }
    requires posed { All (IsPosed cx.old.nodes table.old) goals.now }
    ensures runs { Runs cx.old cx.new table.old table.new }
    ensures adds { IfOk result (λ v. AddsEach cx.old.nodes cx.new.nodes table.old.entries
        table.new.entries kind source goals.now v.items) }
    ensures posed { IfOk result (λ v. ArePosedIn cx.new.nodes table.new v.items) }
    ensures no { result ≢ Err EvalError.NoSolution }
    ensures full { result ≢ Err EvalError.Full }
{
    let mut added = Vec::new(cx.alloc);
    for goal in goals {
        add_goal(table, cx, &mut added, kind, source, *goal)?;
    }
    Ok(added)
}
