//! A query's goal by its kind.
ghost use Rattle.std.specs.Prelude.{All};
ghost use Rattle.nts_canonical.specs.Building.{IsArgOf};
ghost use Rattle.nts_delegate.specs.Candidates.{IsAskedIn};
ghost use Rattle.nts_meaning.specs.Searching.{IsSearch};
ghost use Rattle.nts_meaning.specs.Evaluation.{IsPosed};
ghost use Rattle.nts_trying.specs.Owning.{IsOwnGoal};
ghost use Rattle.nts_trying.specs.Subtyping.{IsSubtypeGoal};
ghost use Rattle.nts_meaning.specs.Meant.{rules_of};
ghost use Rattle.nts_evaluation.specs.Promises.{AnswersGoal, AnswersOwn, AnswersSubtype, AnswersAlias};

use super::candidates::{evaluate_candidates, probe_candidate};
use super::equated::evaluate_equated;
use super::steps::try_evaluate_goals;
use nts_asking::keeps_constraints;
use nts_certainty::Certainty;
use nts_delegate::GoalHandler;
use nts_meaning::boxed_response;
use nts_response::CanonicalResponse;
use nts_search::{CurrentGoalKind, SearchGraph};
use nts_store::EvalError;
use nts_table::InferCtxt;
use nts_terms::{Cx, GenericArg, Goal};
use nts_trying::{
    AvailableDepth, GoalRow, Judged, OwnGoal, TypePair, answer_outlives, enter_forall, goal_row,
    is_open_to_normalizing, judge, relate_types, relevant_candidates,
};

/// Answers a goal by its kind, with placeholders in place of what it binds, for the terms that stand for the positions of its
/// query. Kinds and terms that are not there yet are ambiguous.
#[cycle(evaluate)]
pub(crate) fn compute_goal<H: GoalHandler>(
    table: &mut InferCtxt,
    cx: &mut Cx,
    handler: &H,
    graph: &mut SearchGraph,
    goal: Goal,
    values: &[GenericArg],
    depth: usize,
) -> Result<Box<CanonicalResponse>, EvalError>
    requires posed { IsPosed cx.old.nodes table.old goal }
    requires ready { H.ready cx.old.nodes handler.now }
    requires values { All (IsArgOf cx.old.nodes table.old.entries) values.now }
    requires search { IsSearch cx.old graph.old (depth) }
    ensures { AnswersGoal (rules_of H.ready H.handler handler.now) cx.old cx.new graph.old graph.new
        table.old goal values.now depth result }
{
    let opened = enter_forall(table, cx, goal)?;
    cx.terms_are_formed();
    let opened = match goal_row(cx, opened) {
        GoalRow::Unopened => {
            let response = boxed_response(table, cx, values, Certainty::AMBIGUOUS)?;
            return Ok(response);
        }
        GoalRow::Unanswered(_) => {
            let response = boxed_response(table, cx, values, Certainty::AMBIGUOUS)?;
            return Ok(response);
        }
        GoalRow::Outlives(opened, outlives) => {
            let response = answer_outlives(table, cx, opened, outlives, values)?;
            return Ok(response);
        }
        GoalRow::Own(opened, own) => {
            let response = evaluate_own(table, cx, handler, graph, opened, own, values, depth);
            cx.terms_are_formed();
            return response;
        }
        GoalRow::Subtype(opened, types) => {
            let response = evaluate_subtype(
                table, cx, handler, graph, opened, types, values, depth,
            );
            cx.terms_are_formed();
            return response;
        }
        GoalRow::Alias(opened) => {
            let response = evaluate_alias(table, cx, handler, graph, opened, values, depth);
            cx.terms_are_formed();
            return response;
        }
        GoalRow::Equated(opened, equated) => {
            if !is_open_to_normalizing(cx, table.typing_mode(), goal, opened, equated) {
                let doubt = boxed_response(table, cx, values, Certainty::AMBIGUOUS)?;
                return Ok(doubt);
            }
            let response = evaluate_equated(
                table, cx, handler, graph, opened, equated, values, depth,
            );
            cx.terms_are_formed();
            return response;
        }
        GoalRow::Candidates(opened) => opened,
    };
    let candidates = relevant_candidates(cx, handler, table.typing_mode(), opened)?;
    let response = evaluate_candidates(
        table,
        cx,
        handler,
        graph,
        opened,
        &candidates,
        values,
        depth,
    );
    cx.terms_are_formed();
    response
}

/// Answers a goal of the engine's own kinds: at once, by what is known of it, or by the one way in which it may hold. The table is
/// as before.
#[cycle(evaluate)]
#[inline(never)]
fn evaluate_own<H: GoalHandler>(
    table: &mut InferCtxt,
    cx: &mut Cx,
    handler: &H,
    graph: &mut SearchGraph,
    goal: Goal,
    own: OwnGoal,
    values: &[GenericArg],
    depth: usize,
) -> Result<Box<CanonicalResponse>, EvalError>
    requires posed { IsPosed cx.old.nodes table.old goal }
    requires own { IsOwnGoal cx.old.nodes goal own }
    requires ready { H.ready cx.old.nodes handler.now }
    requires values { All (IsArgOf cx.old.nodes table.old.entries) values.now }
    requires search { IsSearch cx.old graph.old (depth) }
    ensures { AnswersOwn (rules_of H.ready H.handler handler.now) cx.old cx.new graph.old graph.new
        table.old goal values.now depth result }
{
    let judged = judge(cx, handler, goal, own)?;
    cx.terms_are_formed();
    match judged {
        Judged::Yes => {
            let response = boxed_response(table, cx, values, Certainty::Yes)?;
            Ok(response)
        }
        Judged::No => Err(EvalError::NoSolution),
        Judged::Unknown => {
            let response = boxed_response(table, cx, values, Certainty::AMBIGUOUS)?;
            Ok(response)
        }
        Judged::Way(way) => {
            let response = probe_candidate(table, cx, handler, graph, goal, &way, values, depth);
            cx.terms_are_formed();
            response
        }
    }
}

/// Answers a goal that one type is a subtype of another: relates the two, asks the goals that this leaves, and answers what was found
/// out. Where the goal is in doubt as it is, nothing is asked.
#[cycle(evaluate)]
#[inline(never)]
fn evaluate_subtype<H: GoalHandler>(
    table: &mut InferCtxt,
    cx: &mut Cx,
    handler: &H,
    graph: &mut SearchGraph,
    goal: Goal,
    types: TypePair,
    values: &[GenericArg],
    depth: usize,
) -> Result<Box<CanonicalResponse>, EvalError>
    requires posed { IsPosed cx.old.nodes table.old goal }
    requires types { IsSubtypeGoal cx.old.nodes goal types }
    requires ready { H.ready cx.old.nodes handler.now }
    requires values { All (IsArgOf cx.old.nodes table.old.entries) values.now }
    requires search { IsSearch cx.old graph.old (depth) }
    ensures { AnswersSubtype (rules_of H.ready H.handler handler.now) cx.old cx.new graph.old
        graph.new table.old goal types values.now result }
{
    let snapshot = table.start_snapshot()?;
    let left = relate_types(table, cx, goal, types)?;
    cx.terms_are_formed();
    let Some(mut goals) = left else {
        let joined = boxed_response(table, cx, values, Certainty::AMBIGUOUS)?;
        return Ok(joined);
    };
    let mut last_steps = 0;
    let certainty = try_evaluate_goals(
        table,
        cx,
        handler,
        graph,
        &mut goals,
        CurrentGoalKind::Misc,
        AvailableDepth::Below(depth),
        &mut last_steps,
    )?;
    cx.terms_are_formed();
    if keeps_constraints(certainty) {
        let response = boxed_response(table, cx, values, certainty)?;
        return Ok(response);
    }
    table.rollback_to(snapshot);
    let response = boxed_response(table, cx, values, certainty)?;
    Ok(response)
}

/// Answers a goal about an alias, or one in which an alias stands, by the candidates of the handler.
#[cycle(evaluate)]
#[inline(never)]
fn evaluate_alias<H: GoalHandler>(
    table: &mut InferCtxt,
    cx: &mut Cx,
    handler: &H,
    graph: &mut SearchGraph,
    goal: Goal,
    values: &[GenericArg],
    depth: usize,
) -> Result<Box<CanonicalResponse>, EvalError>
    requires posed { IsPosed cx.old.nodes table.old goal }
    requires asked { IsAskedIn cx.old.nodes goal }
    requires ready { H.ready cx.old.nodes handler.now }
    requires values { All (IsArgOf cx.old.nodes table.old.entries) values.now }
    requires search { IsSearch cx.old graph.old (depth) }
    ensures { AnswersAlias (rules_of H.ready H.handler handler.now) cx.old cx.new graph.old
        graph.new table.old goal values.now result }
{
    let candidates = relevant_candidates(cx, handler, table.typing_mode(), goal)?;
    evaluate_candidates(table, cx, handler, graph, goal, &candidates, values, depth)
}
