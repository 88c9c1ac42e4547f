//! Which equation of a candidate can't be met.
ghost use Rattle.std.specs.Prelude.{◌≡◌, ◌↔◌, ◌≤◌, [], length, take, IsTrue, IfOk, IsOkUnless};
ghost use Rattle.nts_model.specs.Refutation.Choosing.{IsCandidateMet};
ghost use Rattle.nts_unify.specs.Reading.{content_of};
ghost use Rattle.nts_certainty.specs.declared.reruns.RerunCondition.TheVariants.{Never};
ghost use Rattle.nts_delegate.specs.Candidates.{IsCandidate};
ghost use Rattle.nts_candidates.specs.Offered.{candidate_of};
ghost use Rattle.nts_evaluation.specs.nts_meaning.specs.Evaluation.{IsPosed};
ghost use Rattle.nts_terms.specs.Rest.{Grows};
ghost use Rattle.nts_explaining.specs.Explaining.{MeetsFirst, StopsAtEquation};

use nts_certainty::{Certainty, RerunCondition};
use nts_delegate::CandidateData;
use nts_evaluation::nts_trying::equate;
use nts_store::EvalError;
use nts_table::InferCtxt;
use nts_terms::{Cx, Goal};
use std::alloc::{AllocError, Global};

/// Of a candidate whose equations can't be met, the first that can't be met together with those before it. The table is as before.
pub(crate) fn unmet_equation(
    table: &mut InferCtxt,
    cx: &mut Cx,
    goal: Goal,
    candidate: &CandidateData,
) -> Result<usize, EvalError>
    requires posed { IsPosed cx.old.nodes table.old goal }
    requires candidate { IsCandidate cx.old.nodes goal candidate.now }
    requires unmet { IsCandidateMet (content_of cx.old.nodes table.old.entries)
        (candidate_of cx.old.nodes candidate.now) → ⊥ }
    ensures same { table.new ≡ table.old }
    ensures grows { Grows cx.old cx.new }
    ensures first { IfOk result (λ n. StopsAtEquation n (content_of cx.old.nodes table.old.entries)
        (candidate_of cx.old.nodes candidate.now)) }
    ensures memory { IsOkUnless result EvalError.Memory }
{
    let all = candidate.equations.len();
    for count in 1..all {
        if !are_met(table, cx, goal, candidate, count)? {
            return Ok(count - 1);
        }
    }
    Ok(all.saturating_sub(1))
}

/// Whether some world of the table meets the first equations of a candidate, so many. The table is as before.
fn are_met(
    table: &mut InferCtxt,
    cx: &mut Cx,
    goal: Goal,
    candidate: &CandidateData,
    count: usize,
) -> Result<bool, EvalError>
    requires posed { IsPosed cx.old.nodes table.old goal }
    requires candidate { IsCandidate cx.old.nodes goal candidate.now }
    requires within { count ≤ length candidate.now.equations.items }
    ensures same { table.new ≡ table.old }
    ensures grows { Grows cx.old cx.new }
    ensures met { IfOk result (λ b. IsTrue b ↔ MeetsFirst count
        (content_of cx.old.nodes table.old.entries) (candidate_of cx.old.nodes candidate.now)) }
    ensures memory { IsOkUnless result EvalError.Memory }
{
    cx.terms_are_formed();
    let part = first_equations(cx.alloc, candidate, count)?;
    let snapshot = table.start_snapshot()?;
    let tried = equate(table, cx, goal, &part);
    table.rollback_to(snapshot);
    match tried {
        Ok(_) => Ok(true),
        Err(EvalError::NoSolution) => Ok(false),
        Err(error) => Err(error),
    }
}

/// A candidate that asks for the first equations of another one, so many, and for nothing else.
fn first_equations(
    alloc: Global,
    candidate: &CandidateData,
    count: usize,
) -> Result<CandidateData, AllocError>
    requires { count ≤ length candidate.now.equations.items }
    ensures fresh { IfOk result (λ x. x.fresh.items ≡ candidate.now.fresh.items) }
    ensures equations { IfOk result (λ x. x.equations.items ≡
        take count candidate.now.equations.items) }
    ensures constraints { IfOk result (λ x. x.region_constraints.items ≡ []) }
    ensures hidden { IfOk result (λ x. x.hidden_types.items ≡ []) }
    ensures goals { IfOk result (λ x. x.goals.items ≡ []) }
    ensures accesses { IfOk result (λ x. x.accesses ≡ Never) }
{
    let fresh = Vec::from_slice(alloc, &candidate.fresh)?;
    let equations = Vec::from_slice(alloc, &candidate.equations[..count])?;
    Ok(CandidateData {
        fresh,
        equations,
        region_constraints: Vec::new(alloc),
        hidden_types: Vec::new(alloc),
        goals: Vec::new(alloc),
        certainty: Certainty::Yes,
        accesses: RerunCondition::Never,
    })
}
