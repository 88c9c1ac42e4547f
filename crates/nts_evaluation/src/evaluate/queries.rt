//! A goal in a query of its own, and a query in rounds.
ghost use Rattle.std.specs.Prelude.{◌+◌, ◌<◌};
ghost use Rattle.nts_canonical.specs.Building.{kinds_of};
ghost use Rattle.nts_meaning.specs.Searching.{IsSearch, IsHeadAnswer};
ghost use Rattle.nts_asking.specs.Rounds.{rounds_before};
ghost use Rattle.nts_meaning.specs.Answering.{IsQueryInput};
ghost use Rattle.nts_meaning.specs.Evaluation.{IsPosed};
ghost use Rattle.nts_meaning.specs.Meant.{rules_of};
ghost use Rattle.nts_evaluation.specs.Promises.{AnswersQuery, AsksGoal, EndsRound};

use super::rows::compute_goal;
use nts_asking::{
    Ended, Round, answer_cycle, apply_answer, boxed_query, end_round, first_round, last_answer,
    next_round, overflow_answer, push_query, query_table,
};
use nts_canonical::CanonicalInput;
use nts_certainty::PathKind;
use nts_delegate::GoalHandler;
use nts_meaning::Evaluated;
use nts_response::CanonicalResponse;
use nts_search::{SearchGraph, round_is_last};
use nts_store::EvalError;
use nts_table::InferCtxt;
use nts_terms::{Cx, Goal};

/// Evaluates a goal in a query of its own: its leaves give place to positions, the search answers the query, and the response is
/// applied to the leaves. Nothing else is added to the table.
#[cycle(evaluate)]
pub(crate) fn evaluate_goal<H: GoalHandler>(
    table: &mut InferCtxt,
    cx: &mut Cx,
    handler: &H,
    graph: &mut SearchGraph,
    goal: Goal,
    step: PathKind,
    depth: usize,
) -> Result<Evaluated, EvalError>
    requires posed { IsPosed cx.old.nodes table.old goal }
    requires ready { H.ready cx.old.nodes handler.now }
    requires search { IsSearch cx.old graph.old (depth + 1) }
    ensures { AsksGoal (rules_of H.ready H.handler handler.now) cx.old cx.new graph.old graph.new
        table.old table.new goal step depth result }
{
    let (originals, input) = boxed_query(table, cx, goal)?;
    let answer = search(cx, handler, graph, input, step, depth)?;
    let evaluated = apply_answer(table, cx, goal.param_env, &originals, &answer);
    cx.terms_are_formed();
    evaluated
}

/// Answers a query. Where its input is being evaluated above, this is a cycle. Else its goal is evaluated in rounds.
#[cycle(evaluate)]
pub(crate) fn search<H: GoalHandler>(
    cx: &mut Cx,
    handler: &H,
    graph: &mut SearchGraph,
    input: Box<CanonicalInput>,
    step: PathKind,
    depth: usize,
) -> Result<Box<CanonicalResponse>, EvalError>
    requires input { IsQueryInput cx.old.nodes input.value }
    requires ready { H.ready cx.old.nodes handler.now }
    requires search { IsSearch cx.old graph.old (depth + 1) }
    ensures { AnswersQuery (rules_of H.ready H.handler handler.now) cx.old cx.new
        graph.old graph.new input.value step depth result }
{
    if let Some(head) = graph.find(cx, &input) {
        return answer_cycle(cx, graph, head, &input, step);
    }
    let above = graph.has_overflowed;
    graph.has_overflowed = false;
    let answer = evaluate_rounds(cx, handler, graph, input, step, depth);
    graph.has_overflowed = graph.has_overflowed || above;
    answer
}

/// Evaluates a query in rounds, until one is the last, or as often as the store's limit says: then it is an overflow. What a
/// round answers is what a cycle back to the query is answered in the next one.
#[cycle(evaluate)]
fn evaluate_rounds<H: GoalHandler>(
    cx: &mut Cx,
    handler: &H,
    graph: &mut SearchGraph,
    input: Box<CanonicalInput>,
    step: PathKind,
    depth: usize,
) -> Result<Box<CanonicalResponse>, EvalError>
    requires input { IsQueryInput cx.old.nodes input.value }
    requires ready { H.ready cx.old.nodes handler.now }
    requires search { IsSearch cx.old graph.old (depth + 1) }
    ensures { AnswersQuery (rules_of H.ready H.handler handler.now) cx.old cx.new
        graph.old graph.new input.value step depth result }
{
    let mut asked = first_round(cx, input)?;
    for round in 0..cx.round_limit() {
        let ended = evaluate_round(cx, handler, graph, asked, step, depth)?;
        if round_is_last(cx, &ended.entry, &ended.answer) {
            return last_answer(cx.alloc, ended);
        }
        asked = next_round(cx.alloc, ended)?;
    }
    let answer = overflow_answer(cx, &asked)?;
    Ok(answer)
}

/// One round: evaluates the goal of a canonical input in a table that is made for it, and answers what that table found out, or
/// that there is no solution. Meanwhile the input stands on the stack.
#[cycle(evaluate)]
fn evaluate_round<H: GoalHandler>(
    cx: &mut Cx,
    handler: &H,
    graph: &mut SearchGraph,
    asked: Box<Round>,
    step: PathKind,
    depth: usize,
) -> Result<Box<Ended>, EvalError>
    requires input { IsQueryInput cx.old.nodes asked.value.input }
    requires provisional { IsHeadAnswer cx.old.nodes (kinds_of asked.value.input)
        asked.value.provisional }
    requires limit { rounds_before asked.value < cx.old.round_limit }
    requires ready { H.ready cx.old.nodes handler.now }
    requires search { IsSearch cx.old graph.old (depth + 1) }
    ensures { EndsRound (rules_of H.ready H.handler handler.now) cx.old cx.new graph.old graph.new
        asked.value step depth result }
{
    let (mut table, goal, values) = query_table(cx, &asked.input)?;
    push_query(cx, graph, asked, step)?;
    let response = compute_goal(&mut table, cx, handler, graph, goal, &values, depth);
    cx.terms_are_formed();
    end_round(cx.alloc, graph, response)
}
