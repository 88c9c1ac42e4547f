//! What candidates come to of whose equations some relate aliases.
ghost use Rattle.std.specs.Prelude.{◌≡◌, ◌≤◌, length, take, Ok, IfOk, IfSome, IsNone, [], true, false};
ghost use Rattle.nts_store.specs.Growth.{tree_at};
ghost use Rattle.nts_terms.specs.Modes.{mode_of};
ghost use Rattle.nts_terms.specs.Rest.{Grows};
ghost use Rattle.nts_terms.specs.Signatures.{variances_in};
ghost use Rattle.nts_theory.specs.RelatingCandidates.{HasPlainEquations};
ghost use Rattle.nts_unify.specs.Reading.{content_of};
ghost use Rattle.nts_certainty.specs.declared.reruns.RerunCondition.TheVariants.{Never};
ghost use Rattle.nts_certainty.specs.declared.certainty.Certainty.TheVariants as certainty;
ghost use Rattle.nts_delegate.specs.Candidates.{IsCandidate};
ghost use Rattle.nts_candidates.specs.HeldReasons.{HoldsReason};
ghost use Rattle.nts_candidates.specs.Offered.{candidate_of};
ghost use Rattle.nts_evaluation.specs.nts_meaning.specs.Evaluation.{IsPosed, Runs};
ghost use Rattle.nts_explaining.specs.Explaining.{CannotBegin, IsBegunSo, ExplainsRelated, StopsAtRelating, first_part};

use crate::candidates::checked;
use crate::conditions::ask_conditions;
use nts_certainty::{Certainty, RerunCondition};
use nts_delegate::{CandidateData, GoalHandler, Reason};
use nts_evaluation::nts_trying::{begin_relating, equate, goal_kind, may_ask, needs_relating};
use nts_store::EvalError;
use nts_table::InferCtxt;
use nts_terms::{Cx, Goal};
use std::alloc::{AllocError, Global};

/// What a candidate comes to of whose equations some relate aliases. The table is as before.
pub(crate) fn related_reason<H: GoalHandler>(
    table: &mut InferCtxt,
    cx: &mut Cx,
    handler: &H,
    goal: Goal,
    candidate: &CandidateData,
) -> Result<Reason, EvalError>
    requires posed { IsPosed cx.old.nodes table.old goal }
    requires ready { H.ready cx.old.nodes handler.now }
    requires candidate { IsCandidate cx.old.nodes goal candidate.now }
    requires some { HasPlainEquations (candidate_of cx.old.nodes candidate.now) → ⊥ }
    ensures same { table.new ≡ table.old }
    ensures grows { Grows cx.old cx.new }
    ensures explains { IfOk result (ExplainsRelated (variances_in cx.old.declarations)
        (mode_of table.old.mode) (content_of cx.old.nodes table.old.entries)
        (tree_at cx.old.nodes goal.param_env.node) (candidate_of cx.old.nodes candidate.now)) }
    ensures holds { IfOk result (HoldsReason cx.new.nodes) }
{
    let snapshot = table.start_snapshot()?;
    let tried = try_relating(table, cx, handler, goal, candidate);
    table.rollback_to(snapshot);
    if let Some(reason) = tried? {
        return Ok(reason);
    }
    let number = unrelated_equation(table, cx, goal, candidate)?;
    Ok(Reason::Equation(number))
}

/// What it comes to, or `None` where it can't be begun. What it did stays in the table.
fn try_relating<H: GoalHandler>(
    table: &mut InferCtxt,
    cx: &mut Cx,
    handler: &H,
    goal: Goal,
    candidate: &CandidateData,
) -> Result<Option<Reason>, EvalError>
    requires posed { IsPosed cx.old.nodes table.old goal }
    requires ready { H.ready cx.old.nodes handler.now }
    requires candidate { IsCandidate cx.old.nodes goal candidate.now }
    requires some { HasPlainEquations (candidate_of cx.old.nodes candidate.now) → ⊥ }
    ensures runs { Runs cx.old cx.new table.old table.new }
    ensures unbegun { IfOk result (λ o. IsNone o → CannotBegin (variances_in cx.old.declarations)
        (content_of cx.old.nodes table.old.entries) (candidate_of cx.old.nodes candidate.now)) }
    ensures explains { IfOk result (λ o. IfSome o (ExplainsRelated
        (variances_in cx.old.declarations) (mode_of table.old.mode)
        (content_of cx.old.nodes table.old.entries) (tree_at cx.old.nodes goal.param_env.node)
        (candidate_of cx.old.nodes candidate.now))) }
    ensures holds { IfOk result (λ o. IfSome o (HoldsReason cx.new.nodes)) }
{
    let kind = goal_kind(cx, handler, goal);
    let begun = match begin_relating(table, cx, goal, candidate) {
        Ok(begun) => begun,
        Err(EvalError::NoSolution) => return Ok(None),
        Err(error) => return Err(error),
    };
    if !may_ask(table.typing_mode(), begun.equalities) {
        return Ok(Some(Reason::Holds(Certainty::AMBIGUOUS)));
    }
    let goals = begun.goals;
    let outcome = ask_conditions(table, cx, handler, kind, &goals)?;
    let reason = checked(table, cx, handler, &goals, candidate.certainty, outcome)?;
    Ok(Some(reason))
}

/// Of a candidate that can't be begun, the first equation with which, and with those before it, it can't. The table is as before.
fn unrelated_equation(
    table: &mut InferCtxt,
    cx: &mut Cx,
    goal: Goal,
    candidate: &CandidateData,
) -> Result<usize, EvalError>
    requires posed { IsPosed cx.old.nodes table.old goal }
    requires candidate { IsCandidate cx.old.nodes goal candidate.now }
    requires unbegun { CannotBegin (variances_in cx.old.declarations)
        (content_of cx.old.nodes table.old.entries) (candidate_of cx.old.nodes candidate.now) }
    ensures same { table.new ≡ table.old }
    ensures grows { Grows cx.old cx.new }
    ensures first { IfOk result (λ n. StopsAtRelating (variances_in cx.old.declarations) n
        (content_of cx.old.nodes table.old.entries) (tree_at cx.old.nodes goal.param_env.node)
        (candidate_of cx.old.nodes candidate.now)) }
{
    let all = candidate.equations.len();
    for count in 1..all {
        if !is_begun(table, cx, goal, candidate, count)? {
            return Ok(count - 1);
        }
    }
    Ok(all.saturating_sub(1))
}

/// Whether a candidate is begun with its first equations alone, so many. The table is as before.
fn is_begun(
    table: &mut InferCtxt,
    cx: &mut Cx,
    goal: Goal,
    candidate: &CandidateData,
    count: usize,
) -> Result<bool, EvalError>
    requires posed { IsPosed cx.old.nodes table.old goal }
    requires candidate { IsCandidate cx.old.nodes goal candidate.now }
    requires within { count ≤ length candidate.now.equations.items }
    ensures same { table.new ≡ table.old }
    ensures grows { Grows cx.old cx.new }
    ensures yes { result ≡ Ok true → IsBegunSo (variances_in cx.old.declarations)
        (content_of cx.old.nodes table.old.entries) (tree_at cx.old.nodes goal.param_env.node)
        (first_part count (candidate_of cx.old.nodes candidate.now)) }
    ensures no { result ≡ Ok false → CannotBegin (variances_in cx.old.declarations)
        (content_of cx.old.nodes table.old.entries)
        (first_part count (candidate_of cx.old.nodes candidate.now)) }
{
    let part = part_of(cx.alloc, candidate, count)?;
    let snapshot = table.start_snapshot()?;
    let tried = begins(table, cx, goal, &part);
    table.rollback_to(snapshot);
    tried
}

/// Whether a candidate can be begun. What it did stays in the table.
fn begins(
    table: &mut InferCtxt,
    cx: &mut Cx,
    goal: Goal,
    candidate: &CandidateData,
) -> Result<bool, EvalError>
    requires posed { IsPosed cx.old.nodes table.old goal }
    requires candidate { IsCandidate cx.old.nodes goal candidate.now }
    ensures runs { Runs cx.old cx.new table.old table.new }
    ensures yes { result ≡ Ok true → IsBegunSo (variances_in cx.old.declarations)
        (content_of cx.old.nodes table.old.entries) (tree_at cx.old.nodes goal.param_env.node)
        (candidate_of cx.old.nodes candidate.now) }
    ensures no { result ≡ Ok false → CannotBegin (variances_in cx.old.declarations)
        (content_of cx.old.nodes table.old.entries) (candidate_of cx.old.nodes candidate.now) }
{
    cx.terms_are_formed();
    if needs_relating(cx, goal, candidate) {
        return match begin_relating(table, cx, goal, candidate) {
            Ok(_) => Ok(true),
            Err(EvalError::NoSolution) => Ok(false),
            Err(error) => Err(error),
        };
    }
    match equate(table, cx, goal, candidate) {
        Ok(_) => Ok(true),
        Err(EvalError::NoSolution) => Ok(false),
        Err(error) => Err(error),
    }
}

/// A candidate with the first equations of another one, so many, and its region constraints, which asks for no goals.
fn part_of(
    alloc: Global,
    candidate: &CandidateData,
    count: usize,
) -> Result<CandidateData, AllocError>
    requires { count ≤ length candidate.now.equations.items }
    ensures fresh { IfOk result (λ x. x.fresh.items ≡ candidate.now.fresh.items) }
    ensures equations { IfOk result (λ x. x.equations.items ≡
        take count candidate.now.equations.items) }
    ensures constraints { IfOk result (λ x. x.region_constraints.items ≡
        candidate.now.region_constraints.items) }
    ensures hidden { IfOk result (λ x. x.hidden_types.items ≡ []) }
    ensures goals { IfOk result (λ x. x.goals.items ≡ []) }
    ensures accesses { IfOk result (λ x. x.accesses ≡ Never) }
    ensures certainty { IfOk result (λ x. x.certainty ≡ certainty.Yes) }
{
    let fresh = Vec::from_slice(alloc, &candidate.fresh)?;
    let equations = Vec::from_slice(alloc, &candidate.equations[..count])?;
    let region_constraints = Vec::from_slice(alloc, &candidate.region_constraints)?;
    Ok(CandidateData {
        fresh,
        equations,
        region_constraints,
        hidden_types: Vec::new(alloc),
        goals: Vec::new(alloc),
        certainty: Certainty::Yes,
        accesses: RerunCondition::Never,
    })
}
