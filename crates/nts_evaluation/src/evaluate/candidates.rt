//! A goal's candidates, each tried to its end in a probe.
ghost use Rattle.std.specs.Prelude.{All};
ghost use Rattle.nts_canonical.specs.Building.{IsArgOf};
ghost use Rattle.nts_delegate.specs.Candidates.{IsCandidate, AreCandidates};
ghost use Rattle.nts_meaning.specs.Searching.{IsSearch};
ghost use Rattle.nts_meaning.specs.Evaluation.{IsPosed};
ghost use Rattle.nts_meaning.specs.Meant.{rules_of};
ghost use Rattle.nts_candidates.specs.Offered.{candidate_of};
ghost use Rattle.nts_theory.specs.RelatingCandidates.{HasPlainEquations};
ghost use Rattle.nts_evaluation.specs.Promises.{TriesEach, TriesOne, RunsOne};

use super::steps::try_evaluate_goals;
use nts_asking::keeps_constraints;
use nts_certainty::Certainty;
use nts_delegate::{CandidateData, GoalHandler};
use nts_meaning::boxed_response;
use nts_posing::pose_asked;
use nts_response::CanonicalResponse;
use nts_search::SearchGraph;
use nts_store::EvalError;
use nts_table::InferCtxt;
use nts_terms::{Cx, GenericArg, Goal};
use nts_trying::{
    AvailableDepth, Trial, begin_relating, check_leaks, equate, goal_kind, keep_response, may_ask,
    merge_responses, needs_relating, record_constraints,
};

/// Asks each candidate to its end. Those that fail are dropped, and one response stands for those of the others; where none does,
/// it is ambiguous. The table is as before.
#[cycle(evaluate)]
pub(crate) fn evaluate_candidates<H: GoalHandler>(
    table: &mut InferCtxt,
    cx: &mut Cx,
    handler: &H,
    graph: &mut SearchGraph,
    goal: Goal,
    candidates: &[CandidateData],
    values: &[GenericArg],
    depth: usize,
) -> Result<Box<CanonicalResponse>, EvalError>
    requires posed { IsPosed cx.old.nodes table.old goal }
    requires ready { H.ready cx.old.nodes handler.now }
    requires candidates { AreCandidates cx.old.nodes goal candidates.now }
    requires values { All (IsArgOf cx.old.nodes table.old.entries) values.now }
    requires search { IsSearch cx.old graph.old (depth) }
    ensures { TriesEach (rules_of H.ready H.handler handler.now) cx.old cx.new graph.old graph.new
        table.old table.new goal values.now candidates.now depth result }
{
    let mut responses = Vec::new(cx.alloc);
    for candidate in candidates {
        let answer = probe_candidate(table, cx, handler, graph, goal, candidate, values, depth);
        keep_response(&mut responses, answer)?;
    }
    cx.terms_are_formed();
    merge_responses(table, cx, values, responses)
}

/// Runs a candidate in a probe, and answers what its table found out. The table is as before.
#[cycle(evaluate)]
pub(crate) fn probe_candidate<H: GoalHandler>(
    table: &mut InferCtxt,
    cx: &mut Cx,
    handler: &H,
    graph: &mut SearchGraph,
    goal: Goal,
    candidate: &CandidateData,
    values: &[GenericArg],
    depth: usize,
) -> Result<Box<CanonicalResponse>, EvalError>
    requires posed { IsPosed cx.old.nodes table.old goal }
    requires ready { H.ready cx.old.nodes handler.now }
    requires candidate { IsCandidate cx.old.nodes goal candidate.now }
    requires values { All (IsArgOf cx.old.nodes table.old.entries) values.now }
    requires search { IsSearch cx.old graph.old (depth) }
    ensures { TriesOne (rules_of H.ready H.handler handler.now) cx.old cx.new graph.old graph.new
        table.old table.new goal values.now candidate.now depth result }
{
    let snapshot = table.start_snapshot()?;
    let certainty = match run_candidate(table, cx, handler, graph, goal, candidate, depth) {
        Ok(certainty) => certainty,
        Err(error) => {
            table.rollback_to(snapshot);
            return Err(error);
        }
    };
    cx.terms_are_formed();
    if keeps_constraints(certainty) {
        let response = boxed_response(table, cx, values, certainty);
        table.rollback_to(snapshot);
        return Ok(response?);
    }
    table.rollback_to(snapshot);
    let response = boxed_response(table, cx, values, certainty)?;
    Ok(response)
}

/// Runs a candidate: it is tried, and then the handler's leak check may say that what was found can't be.
#[cycle(evaluate)]
fn run_candidate<H: GoalHandler>(
    table: &mut InferCtxt,
    cx: &mut Cx,
    handler: &H,
    graph: &mut SearchGraph,
    goal: Goal,
    candidate: &CandidateData,
    depth: usize,
) -> Result<Certainty, EvalError>
    requires posed { IsPosed cx.old.nodes table.old goal }
    requires ready { H.ready cx.old.nodes handler.now }
    requires candidate { IsCandidate cx.old.nodes goal candidate.now }
    requires search { IsSearch cx.old graph.old (depth) }
    ensures { RunsOne (rules_of H.ready H.handler handler.now) cx.old cx.new graph.old graph.new
        table.old table.new goal candidate.now depth result }
{
    let tried = try_candidate(table, cx, handler, graph, goal, candidate, depth);
    check_leaks(table, cx, handler, tried)
}

/// Tries a candidate: its equations, its region constraints, and its goals in steps.
#[cycle(evaluate)]
fn try_candidate<H: GoalHandler>(
    table: &mut InferCtxt,
    cx: &mut Cx,
    handler: &H,
    graph: &mut SearchGraph,
    goal: Goal,
    candidate: &CandidateData,
    depth: usize,
) -> Result<Certainty, EvalError>
    requires posed { IsPosed cx.old.nodes table.old goal }
    requires ready { H.ready cx.old.nodes handler.now }
    requires candidate { IsCandidate cx.old.nodes goal candidate.now }
    requires search { IsSearch cx.old graph.old (depth) }
    ensures { RunsOne (rules_of H.ready H.handler handler.now) cx.old cx.new graph.old graph.new
        table.old table.new goal candidate.now depth result }
{
    if needs_relating(cx, goal, candidate) {
        return try_relating(table, cx, handler, graph, goal, candidate, depth);
    }
    let kind = goal_kind(cx, handler, goal);
    let values = equate(table, cx, goal, candidate)?;
    let trial = Trial {
        goal,
        fresh: &candidate.fresh,
        values: &values,
    };
    record_constraints(table, cx, trial, &candidate.region_constraints)?;
    let goals = trial.added_goals(table, cx, &candidate.goals)?;
    // They are not kept while the goals below are asked.
    drop(values);
    cx.terms_are_formed();
    let mut asked = goals;
    let kept = pose_asked(table, cx, goal, kind, &mut asked)?;
    cx.terms_are_formed();
    let mut last_steps = 0;
    let certainty = try_evaluate_goals(
        table,
        cx,
        handler,
        graph,
        &mut asked,
        kind,
        AvailableDepth::Below(depth),
        &mut last_steps,
    )?;
    cx.terms_are_formed();
    Ok(candidate.certainty.and(certainty.and(kept)))
}

/// Tries a candidate of whose equations some relate aliases: relating these leaves goals, which are asked with its own in steps. In
/// coherence it is in doubt if one of them says something else than that an alias is equal to a term without aliases, or to another alias.
#[cycle(evaluate)]
fn try_relating<H: GoalHandler>(
    table: &mut InferCtxt,
    cx: &mut Cx,
    handler: &H,
    graph: &mut SearchGraph,
    goal: Goal,
    candidate: &CandidateData,
    depth: usize,
) -> Result<Certainty, EvalError>
    requires posed { IsPosed cx.old.nodes table.old goal }
    requires ready { H.ready cx.old.nodes handler.now }
    requires candidate { IsCandidate cx.old.nodes goal candidate.now }
    requires some { HasPlainEquations (candidate_of cx.old.nodes candidate.now) → ⊥ }
    requires search { IsSearch cx.old graph.old (depth) }
    ensures { RunsOne (rules_of H.ready H.handler handler.now) cx.old cx.new graph.old graph.new
        table.old table.new goal candidate.now depth result }
{
    let kind = goal_kind(cx, handler, goal);
    let begun = begin_relating(table, cx, goal, candidate)?;
    cx.terms_are_formed();
    if !may_ask(table.typing_mode(), begun.equalities) {
        return Ok(Certainty::AMBIGUOUS);
    }
    let mut asked = begun.goals;
    let kept = pose_asked(table, cx, goal, kind, &mut asked)?;
    cx.terms_are_formed();
    let mut last_steps = 0;
    let certainty = try_evaluate_goals(
        table,
        cx,
        handler,
        graph,
        &mut asked,
        kind,
        AvailableDepth::Below(depth),
        &mut last_steps,
    )?;
    cx.terms_are_formed();
    Ok(candidate.certainty.and(certainty.and(kept)))
}
