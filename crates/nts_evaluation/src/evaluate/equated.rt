//! A goal that an alias is equal to a term, or that the one is a subtype of the other.
ghost use Rattle.std.specs.Prelude.{All, IfSome};
ghost use Rattle.nts_canonical.specs.Building.{IsArgOf};
ghost use Rattle.nts_meaning.specs.Searching.{IsSearch};
ghost use Rattle.nts_meaning.specs.Evaluation.{IsPosed};
ghost use Rattle.nts_trying.specs.Aliasing.{IsEquatedGoal, LesserIn};
ghost use Rattle.nts_meaning.specs.Meant.{rules_of};
ghost use Rattle.nts_terms.specs.Modes.{mode_of};
ghost use Rattle.nts_theory.specs.Telling.{IsOpenToNormalizing};
ghost use Rattle.nts_store.specs.Growth.{tree_at};
ghost use Rattle.nts_evaluation.specs.Promises.{AnswersEquated, AnswersWay, TriesWay};

use super::steps::try_evaluate_goals;
use nts_asking::keeps_constraints;
use nts_certainty::Certainty;
use nts_delegate::GoalHandler;
use nts_meaning::boxed_response;
use nts_response::CanonicalResponse;
use nts_search::{CurrentGoalKind, SearchGraph};
use nts_store::EvalError;
use nts_table::InferCtxt;
use nts_terms::{Cx, GenericArg, Goal};
use nts_trying::{AvailableDepth, EquatedAlias, TypePair, way_goals};

/// Answers a goal that an alias is equal to a term, or that the one is a subtype of the other: of a subtype it is asked first whether
/// what they normalize to is one; and where it is none, and else, whether the alias and the term are one.
#[cycle(evaluate)]
#[inline(never)]
pub(crate) fn evaluate_equated<H: GoalHandler>(
    table: &mut InferCtxt,
    cx: &mut Cx,
    handler: &H,
    graph: &mut SearchGraph,
    goal: Goal,
    equated: EquatedAlias,
    values: &[GenericArg],
    depth: usize,
) -> Result<Box<CanonicalResponse>, EvalError>
    requires posed { IsPosed cx.old.nodes table.old goal }
    requires equated { IsEquatedGoal cx.old.nodes goal equated }
    requires normal { IsOpenToNormalizing (mode_of table.old.mode) (tree_at cx.old.nodes
        goal.predicate.node) }
    requires ready { H.ready cx.old.nodes handler.now }
    requires values { All (IsArgOf cx.old.nodes table.old.entries) values.now }
    requires search { IsSearch cx.old graph.old (depth) }
    ensures { AnswersEquated (rules_of H.ready H.handler handler.now) cx.old cx.new graph.old
        graph.new table.old goal values.now result }
{
    cx.terms_are_formed();
    if let Some(types) = equated.types {
        let way = Some(types);
        let lesser = evaluate_way(table, cx, handler, graph, goal, equated, way, values, depth);
        cx.terms_are_formed();
        if !matches!(lesser, Err(EvalError::NoSolution)) {
            return lesser;
        }
        return evaluate_way(
            table, cx, handler, graph, goal, equated, None, values, depth,
        );
    }
    evaluate_way(
        table, cx, handler, graph, goal, equated, None, values, depth,
    )
}

/// Answers such a goal by a way: asks the goals that are left of it then, and answers what was found out. The table is as before.
#[cycle(evaluate)]
#[inline(never)]
fn evaluate_way<H: GoalHandler>(
    table: &mut InferCtxt,
    cx: &mut Cx,
    handler: &H,
    graph: &mut SearchGraph,
    goal: Goal,
    equated: EquatedAlias,
    way: Option<TypePair>,
    values: &[GenericArg],
    depth: usize,
) -> Result<Box<CanonicalResponse>, EvalError>
    requires posed { IsPosed cx.old.nodes table.old goal }
    requires equated { IsEquatedGoal cx.old.nodes goal equated }
    requires way { IfSome way (LesserIn cx.old.nodes goal) }
    requires normal { IsOpenToNormalizing (mode_of table.old.mode) (tree_at cx.old.nodes
        goal.predicate.node) }
    requires ready { H.ready cx.old.nodes handler.now }
    requires values { All (IsArgOf cx.old.nodes table.old.entries) values.now }
    requires search { IsSearch cx.old graph.old (depth) }
    ensures { AnswersWay (rules_of H.ready H.handler handler.now) way cx.old cx.new graph.old
        graph.new table.old table.new goal values.now result }
{
    let snapshot = table.start_snapshot()?;
    let certainty = match try_way(table, cx, handler, graph, goal, equated, way, depth) {
        Ok(certainty) => certainty,
        Err(error) => {
            table.rollback_to(snapshot);
            return Err(error);
        }
    };
    cx.terms_are_formed();
    if keeps_constraints(certainty) {
        let response = boxed_response(table, cx, values, certainty);
        table.rollback_to(snapshot);
        return Ok(response?);
    }
    table.rollback_to(snapshot);
    let response = boxed_response(table, cx, values, certainty)?;
    Ok(response)
}

/// Asks in steps the goals that are left of such a goal by a way.
#[cycle(evaluate)]
fn try_way<H: GoalHandler>(
    table: &mut InferCtxt,
    cx: &mut Cx,
    handler: &H,
    graph: &mut SearchGraph,
    goal: Goal,
    equated: EquatedAlias,
    way: Option<TypePair>,
    depth: usize,
) -> Result<Certainty, EvalError>
    requires posed { IsPosed cx.old.nodes table.old goal }
    requires equated { IsEquatedGoal cx.old.nodes goal equated }
    requires way { IfSome way (LesserIn cx.old.nodes goal) }
    requires normal { IsOpenToNormalizing (mode_of table.old.mode) (tree_at cx.old.nodes
        goal.predicate.node) }
    requires ready { H.ready cx.old.nodes handler.now }
    requires search { IsSearch cx.old graph.old (depth) }
    ensures { TriesWay (rules_of H.ready H.handler handler.now) way cx.old cx.new graph.old
        graph.new table.old table.new goal result }
{
    let mut goals = way_goals(table, cx, goal, equated, way)?;
    let mut last_steps = 0;
    let certainty = try_evaluate_goals(
        table,
        cx,
        handler,
        graph,
        &mut goals,
        CurrentGoalKind::Misc,
        AvailableDepth::Below(depth),
        &mut last_steps,
    )?;
    cx.terms_are_formed();
    Ok(certainty)
}
