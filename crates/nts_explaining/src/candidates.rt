//! Why a goal is not answered yes.
ghost use Rattle.std.specs.Prelude.{◌≡◌, ◌<◌, true, length, All, Ok, IfOk, IfSome, IsNone};
ghost use Rattle.nts_model.specs.Refutation.Choosing.{IsCandidateMet};
ghost use Rattle.nts_store.specs.Growth.{tree_at};
ghost use Rattle.nts_terms.specs.Modes.{mode_of};
ghost use Rattle.nts_terms.specs.Signatures.{variances_in};
ghost use Rattle.nts_unify.specs.Reading.{content_of};
ghost use Rattle.nts_table.specs.Tables.{IsTable};
ghost use Rattle.nts_delegate.specs.Candidates.{IsAskedIn, IsCandidate, AreCandidates};
ghost use Rattle.nts_candidates.specs.Offered.{candidate_of, candidates_of};
ghost use Rattle.nts_evaluation.specs.nts_meaning.specs.Evaluation.{IsAdmitted, IsPosed, Goes, Runs};
ghost use Rattle.nts_evaluation.specs.nts_trying.specs.Stepping.{ArePosed};
ghost use Rattle.nts_terms.specs.Rest.{Grows};
ghost use Rattle.nts_explaining.specs.Explaining.{Explains, ExplainsPlainly, ExplainsEach, GivesReasons};
ghost use Rattle.nts_candidates.specs.HeldReasons.{HoldsReason};
ghost use Rattle.nts_explaining.specs.Asking.{IsWithin, IsReasonOf};
ghost use Rattle.nts_candidates.specs.declared.reasons.Reason.TheVariants.{Condition};

use crate::conditions::{Outcome, ask_conditions};
use crate::equations::unmet_equation;
use crate::explained::is_explained;
use crate::related::related_reason;
use nts_certainty::{Certainty, GoalSource};
use nts_delegate::{CandidateData, GoalHandler, Reason};
use nts_evaluation::nts_meaning::resolve_goal;
use nts_evaluation::nts_trying::{
    Trial, enter_forall, equate, goal_kind, needs_relating, record_constraints,
};
use nts_store::EvalError;
use nts_table::InferCtxt;
use nts_terms::{Cx, Goal};

/// What each candidate that the handler offers for a goal comes to, in their order: why the goal is not answered yes, one level
/// deep. A goal that binds variables is opened first. There is no reason where the goal does not say that a trait holds. The table is as
/// before, also after an error, which is want of memory, or `Full` where a universe above the greatest is asked for.
pub fn explain<H: GoalHandler>(
    table: &mut InferCtxt,
    cx: &mut Cx,
    handler: &H,
    goal: Goal,
) -> Result<Vec<Reason>, EvalError>
    requires table { IsTable cx.old.nodes table.old }
    requires ready { H.ready cx.old.nodes handler.now }
    requires admitted { IsAdmitted cx.old.nodes table.old goal }
    ensures same { table.new ≡ table.old }
    ensures grows { Grows cx.old cx.new }
    ensures reasons { IfOk result (λ rs. GivesReasons (H.handler cx.old.nodes handler.now)
        (variances_in cx.old.declarations) table.old.mode cx.old.nodes table.old goal rs.items) }
    ensures holds { IfOk result (λ rs. All (HoldsReason cx.new.nodes) rs.items) }
{
    cx.terms_are_formed();
    let snapshot = table.start_snapshot()?;
    let reasons = explain_here(table, cx, handler, goal);
    table.rollback_to(snapshot);
    reasons
}

/// The same, in a table in which the goal is opened.
fn explain_here<H: GoalHandler>(
    table: &mut InferCtxt,
    cx: &mut Cx,
    handler: &H,
    goal: Goal,
) -> Result<Vec<Reason>, EvalError>
    requires posed { IsPosed cx.old.nodes table.old goal }
    requires ready { H.ready cx.old.nodes handler.now }
    ensures goes { Goes cx.old.nodes cx.new.nodes table.old table.new }
    ensures grows { Grows cx.old cx.new }
    ensures reasons { IfOk result (λ rs. GivesReasons (H.handler cx.old.nodes handler.now)
        (variances_in cx.old.declarations) table.old.mode cx.old.nodes table.old goal rs.items) }
    ensures holds { IfOk result (λ rs. All (HoldsReason cx.new.nodes) rs.items) }
{
    let Some(opened) = enter_forall(table, cx, goal)? else {
        return Ok(Vec::new(cx.alloc));
    };
    if !is_explained(table, cx, opened) {
        return Ok(Vec::new(cx.alloc));
    }
    let candidates = handler.candidates(cx, table.typing_mode(), opened)?;
    reasons_of(table, cx, handler, opened, &candidates)
}

/// What each of the candidates comes to, in order. The table is as before.
fn reasons_of<H: GoalHandler>(
    table: &mut InferCtxt,
    cx: &mut Cx,
    handler: &H,
    goal: Goal,
    candidates: &[CandidateData],
) -> Result<Vec<Reason>, EvalError>
    requires posed { IsPosed cx.old.nodes table.old goal }
    requires asked { IsAskedIn cx.old.nodes goal }
    requires ready { H.ready cx.old.nodes handler.now }
    requires candidates { AreCandidates cx.old.nodes goal candidates.now }
    ensures same { table.new ≡ table.old }
    ensures grows { Grows cx.old cx.new }
    ensures each { IfOk result (λ rs. ExplainsEach (variances_in cx.old.declarations)
        (mode_of table.old.mode) (content_of cx.old.nodes table.old.entries)
        (tree_at cx.old.nodes goal.param_env.node)
        (candidates_of cx.old.nodes candidates.now) rs.items) }
    ensures holds { IfOk result (λ rs. All (HoldsReason cx.new.nodes) rs.items) }
{
    let mut reasons = Vec::new(cx.alloc);
    for candidate in candidates {
        let reason = reason_of(table, cx, handler, goal, candidate)?;
        reasons.push(reason)?;
    }
    Ok(reasons)
}

/// What a candidate comes to. The table is as before.
fn reason_of<H: GoalHandler>(
    table: &mut InferCtxt,
    cx: &mut Cx,
    handler: &H,
    goal: Goal,
    candidate: &CandidateData,
) -> Result<Reason, EvalError>
    requires posed { IsPosed cx.old.nodes table.old goal }
    requires asked { IsAskedIn cx.old.nodes goal }
    requires ready { H.ready cx.old.nodes handler.now }
    requires candidate { IsCandidate cx.old.nodes goal candidate.now }
    ensures same { table.new ≡ table.old }
    ensures grows { Grows cx.old cx.new }
    ensures explains { IfOk result (Explains (variances_in cx.old.declarations)
        (mode_of table.old.mode) (content_of cx.old.nodes table.old.entries)
        (tree_at cx.old.nodes goal.param_env.node) (candidate_of cx.old.nodes candidate.now)) }
    ensures holds { IfOk result (HoldsReason cx.new.nodes) }
{
    if needs_relating(cx, goal, candidate) {
        return related_reason(table, cx, handler, goal, candidate);
    }
    plain_reason(table, cx, handler, goal, candidate)
}

/// .. of one none of whose equations relates aliases.
fn plain_reason<H: GoalHandler>(
    table: &mut InferCtxt,
    cx: &mut Cx,
    handler: &H,
    goal: Goal,
    candidate: &CandidateData,
) -> Result<Reason, EvalError>
    requires posed { IsPosed cx.old.nodes table.old goal }
    requires asked { IsAskedIn cx.old.nodes goal }
    requires ready { H.ready cx.old.nodes handler.now }
    requires candidate { IsCandidate cx.old.nodes goal candidate.now }
    ensures same { table.new ≡ table.old }
    ensures grows { Grows cx.old cx.new }
    ensures explains { IfOk result (ExplainsPlainly (content_of cx.old.nodes table.old.entries)
        (candidate_of cx.old.nodes candidate.now)) }
    ensures holds { IfOk result (HoldsReason cx.new.nodes) }
{
    cx.terms_are_formed();
    let snapshot = table.start_snapshot()?;
    let tried = try_candidate(table, cx, handler, goal, candidate);
    table.rollback_to(snapshot);
    if let Some(reason) = tried? {
        return Ok(reason);
    }
    let number = unmet_equation(table, cx, goal, candidate)?;
    Ok(Reason::Equation(number))
}

/// What a candidate comes to, or `None` where its equations can't be met. What it did stays in the table.
fn try_candidate<H: GoalHandler>(
    table: &mut InferCtxt,
    cx: &mut Cx,
    handler: &H,
    goal: Goal,
    candidate: &CandidateData,
) -> Result<Option<Reason>, EvalError>
    requires posed { IsPosed cx.old.nodes table.old goal }
    requires asked { IsAskedIn cx.old.nodes goal }
    requires ready { H.ready cx.old.nodes handler.now }
    requires candidate { IsCandidate cx.old.nodes goal candidate.now }
    ensures runs { Runs cx.old cx.new table.old table.new }
    ensures unmet { IfOk result (λ o. IsNone o → IsCandidateMet
        (content_of cx.old.nodes table.old.entries) (candidate_of cx.old.nodes candidate.now) →
        ⊥) }
    ensures explains { IfOk result (λ o. IfSome o (ExplainsPlainly
        (content_of cx.old.nodes table.old.entries) (candidate_of cx.old.nodes candidate.now))) }
    ensures holds { IfOk result (λ o. IfSome o (HoldsReason cx.new.nodes)) }
{
    let kind = goal_kind(cx, handler, goal);
    cx.terms_are_formed();
    let values = match equate(table, cx, goal, candidate) {
        Ok(values) => values,
        Err(EvalError::NoSolution) => return Ok(None),
        Err(error) => return Err(error),
    };
    let trial = Trial {
        goal,
        fresh: &candidate.fresh,
        values: &values,
    };
    record_constraints(table, cx, trial, &candidate.region_constraints)?;
    let goals = trial.added_goals(table, cx, &candidate.goals)?;
    let outcome = ask_conditions(table, cx, handler, kind, &goals)?;
    let reason = checked(table, cx, handler, &goals, candidate.certainty, outcome)?;
    Ok(Some(reason))
}

/// What asking the conditions came to, as a reason: the handler's leak check comes before a doubt.
pub(crate) fn checked<H: GoalHandler>(
    table: &InferCtxt,
    cx: &mut Cx,
    handler: &H,
    goals: &[(GoalSource, Goal)],
    certainty: Certainty,
    outcome: Outcome,
) -> Result<Reason, EvalError>
    requires table { IsTable cx.old.nodes table.now }
    requires posed { ArePosed cx.old.nodes table.now goals.now }
    requires ready { H.ready cx.old.nodes handler.now }
    requires within { IsWithin (length goals.now) outcome }
    ensures grows { Grows cx.old cx.new }
    ensures is { IfOk result (IsReasonOf certainty outcome) }
    ensures holds { IfOk result (HoldsReason cx.new.nodes) }
{
    match outcome {
        Outcome::Refused(number) => condition(table, cx, goals, number, None),
        Outcome::Doubtful(number, doubt) => {
            if leaks(table, cx, handler)? {
                return Ok(Reason::Leak);
            }
            condition(table, cx, goals, number, Some(doubt))
        }
        Outcome::Certain => {
            if leaks(table, cx, handler)? {
                return Ok(Reason::Leak);
            }
            Ok(Reason::Holds(certainty))
        }
    }
}

/// Whether the handler's leak check says that what was found can't be.
fn leaks<H: GoalHandler>(table: &InferCtxt, cx: &mut Cx, handler: &H) -> Result<bool, EvalError>
    requires table { IsTable cx.old.nodes table.now }
    requires ready { H.ready cx.old.nodes handler.now }
    ensures leaks { result ≡ Ok true →
        (H.handler cx.old.nodes handler.now).leaks (content_of cx.old.nodes table.now.entries) 0 }
    ensures grows { Grows cx.old cx.new }
{
    match handler.leak_check(cx, table, 0) {
        Ok(()) => Ok(false),
        Err(EvalError::NoSolution) => Ok(true),
        Err(error) => Err(error),
    }
}

/// The condition of this number, as the table knows it.
fn condition(
    table: &InferCtxt,
    cx: &mut Cx,
    goals: &[(GoalSource, Goal)],
    number: usize,
    certainty: Option<Certainty>,
) -> Result<Reason, EvalError>
    requires posed { ArePosed cx.old.nodes table.now goals.now }
    requires within { number < length goals.now }
    ensures grows { Grows cx.old cx.new }
    ensures is { IfOk result (λ r. (g : Goal) × (r ≡ Condition number g certainty)) }
    ensures holds { IfOk result (HoldsReason cx.new.nodes) }
{
    let goal = resolve_goal(table, cx, goals[number].1)?;
    Ok(Reason::Condition {
        number,
        goal,
        certainty,
    })
}
