//! Goals that were added, in steps.
ghost use Rattle.std.specs.Prelude.{◌+◌};
ghost use Rattle.nts_meaning.specs.Searching.{IsSearch};
ghost use Rattle.nts_trying.specs.Stepping.{ArePosed, bound_of};
ghost use Rattle.nts_meaning.specs.Evaluation.{IsPosed};
ghost use Rattle.nts_table.specs.Tables.{IsTable};
ghost use Rattle.nts_meaning.specs.Meant.{rules_of};
ghost use Rattle.nts_evaluation.specs.Promises.{AsksAdded, StepsGoals, StepsOnce};

use super::queries::evaluate_goal;
use nts_certainty::{Certainty, GoalSource, HasChanged, PathKind};
use nts_delegate::GoalHandler;
use nts_meaning::{Evaluated, resolve_goal};
use nts_search::{CurrentGoalKind, SearchGraph, step_kind_for_source};
use nts_store::EvalError;
use nts_table::InferCtxt;
use nts_terms::{Cx, Goal};
use nts_trying::{AvailableDepth, Step, fast_answer};

/// Evaluates the goals of a goal of that kind in steps, until a step finds nothing out, or as often as the store's limit says:
/// then it is an overflow. The goals that are not proved are left. It counts the steps.
#[cycle(evaluate)]
pub fn try_evaluate_goals<H: GoalHandler>(
    table: &mut InferCtxt,
    cx: &mut Cx,
    handler: &H,
    graph: &mut SearchGraph,
    goals: &mut Vec<(GoalSource, Goal)>,
    kind: CurrentGoalKind,
    depth: AvailableDepth,
    last_steps: &mut usize,
) -> Result<Certainty, EvalError>
    requires table { IsTable cx.old.nodes table.old }
    requires posed { ArePosed cx.old.nodes table.old goals.old.items }
    requires ready { H.ready cx.old.nodes handler.now }
    requires search { IsSearch cx.old graph.old (bound_of depth) }
    ensures { StepsGoals (rules_of H.ready H.handler handler.now) cx.old cx.new graph.old graph.new
        table.old table.new goals.old.items goals.new.items kind depth last_steps.new result }
{
    *last_steps = 0;
    for step in 0..cx.step_limit() {
        *last_steps = step + 1;
        let stepped = evaluate_step(table, cx, handler, graph, goals, kind, depth)?;
        *goals = stepped.left;
        if !stepped.has_changed {
            return Ok(stepped.certainty);
        }
    }
    Ok(Certainty::overflow(false))
}

/// Asks each of the goals once, in order.
#[cycle(evaluate)]
fn evaluate_step<H: GoalHandler>(
    table: &mut InferCtxt,
    cx: &mut Cx,
    handler: &H,
    graph: &mut SearchGraph,
    goals: &[(GoalSource, Goal)],
    kind: CurrentGoalKind,
    depth: AvailableDepth,
) -> Result<Step, EvalError>
    requires table { IsTable cx.old.nodes table.old }
    requires posed { ArePosed cx.old.nodes table.old goals.now }
    requires ready { H.ready cx.old.nodes handler.now }
    requires search { IsSearch cx.old graph.old (bound_of depth) }
    ensures { StepsOnce (rules_of H.ready H.handler handler.now) cx.old cx.new graph.old graph.new
        table.old table.new goals.now kind depth result }
{
    let mut step = Step::new(cx.alloc);
    for added in goals {
        let kind = step_kind_for_source(kind, added.0);
        let answer = evaluate_added(table, cx, handler, graph, added.1, kind, depth)?;
        step.note(*added, answer)?;
    }
    Ok(step)
}

/// Asks a goal as the table knows it, unless the handler answers it at once, or it is nested too deep.
#[cycle(evaluate)]
fn evaluate_added<H: GoalHandler>(
    table: &mut InferCtxt,
    cx: &mut Cx,
    handler: &H,
    graph: &mut SearchGraph,
    goal: Goal,
    step: PathKind,
    depth: AvailableDepth,
) -> Result<Evaluated, EvalError>
    requires posed { IsPosed cx.old.nodes table.old goal }
    requires ready { H.ready cx.old.nodes handler.now }
    requires search { IsSearch cx.old graph.old (bound_of depth) }
    ensures { AsksAdded (rules_of H.ready H.handler handler.now) cx.old cx.new graph.old graph.new
        table.old table.new goal step depth result }
{
    cx.terms_are_formed();
    let asked = resolve_goal(table, cx, goal)?;
    if let Some(certainty) = fast_answer(cx, handler, asked) {
        return Ok(Evaluated {
            certainty,
            has_changed: HasChanged::No,
        });
    }
    match depth.next(graph.has_overflowed, cx.depth_division()) {
        None => {
            graph.has_overflowed = true;
            Ok(Evaluated {
                certainty: Certainty::overflow(true),
                has_changed: HasChanged::No,
            })
        }
        Some(below) => evaluate_goal(table, cx, handler, graph, asked, step, below),
    }
}
