//! What is answered where responses can't be merged.
ghost use Rattle.std.specs.Prelude.{◌≡◌, ◌↔◌, [], map, IfOk, IsOkUnless, Err};
ghost use Rattle.nts_response.specs.nts_canonical.specs.Forms.{kind_of_var};
ghost use Rattle.nts_response.specs.Forms.{HoldsResponse, response_at};
ghost use Rattle.nts_model.specs.Searching.Driving.{unconstrained};
ghost use Rattle.nts_terms.specs.Rest.{Grows};
ghost use Rattle.nts_search.specs.Merging.{doubt_of};

use nts_certainty::Certainty;
use nts_response::nts_canonical::CanonicalVarKind;
use nts_response::{CanonicalResponse, response_no_constraints_raw};
use nts_store::{EvalError, Fault};
use nts_terms::{Cx, UniverseIndex};

/// What is answered to an input of positions of these kinds where no response stands for those of its candidates: no solution
/// where there are no candidates, and else a doubt.
pub fn flounder(
    cx: &mut Cx,
    candidates: &[CanonicalResponse],
    max_universe: UniverseIndex,
    var_kinds: Vec<CanonicalVarKind>,
) -> Result<CanonicalResponse, EvalError>
    ensures response { IfOk result (λ r. response_at cx.new.nodes r ≡ record (unconstrained
        (map kind_of_var var_kinds.items)) { max_universe = max_universe }) }
    ensures certainty { IfOk result (λ r. r.value.certainty ≡ doubt_of
        (map (λ c. c.value.certainty) candidates.now)) }
    ensures holds { IfOk result (λ r. HoldsResponse cx.new.nodes r.value) }
    ensures grows { Grows cx.old cx.new }
    ensures no { (result ≡ Err EvalError.NoSolution) ↔ (candidates.now ≡ []) }
    ensures full { result ≡ Err EvalError.Full → ⊥ }
{
    if candidates.is_empty() {
        return Err(EvalError::NoSolution);
    }
    let response = bail_with_ambiguity(cx, candidates, max_universe, var_kinds)?;
    Ok(response)
}

/// The response that found nothing out, to an input of positions of these kinds: ambiguity, joined with what the candidates
/// leave in doubt.
pub fn bail_with_ambiguity(
    cx: &mut Cx,
    candidates: &[CanonicalResponse],
    max_universe: UniverseIndex,
    var_kinds: Vec<CanonicalVarKind>,
) -> Result<CanonicalResponse, Fault>
    ensures response { IfOk result (λ r. response_at cx.new.nodes r ≡ record (unconstrained
        (map kind_of_var var_kinds.items)) { max_universe = max_universe }) }
    ensures certainty { IfOk result (λ r. r.value.certainty ≡ doubt_of
        (map (λ c. c.value.certainty) candidates.now)) }
    ensures holds { IfOk result (λ r. HoldsResponse cx.new.nodes r.value) }
    ensures grows { Grows cx.old cx.new }
    ensures memory { IsOkUnless result Fault.Memory }
{
    let certainty = join_doubts(candidates);
    response_no_constraints_raw(cx, max_universe, var_kinds, certainty)
}

/// Ambiguity, joined with how sure those of the candidates are that are not certain.
pub fn join_doubts(candidates: &[CanonicalResponse]) -> Certainty
    ensures { result ≡ doubt_of (map (λ c. c.value.certainty) candidates.now) }
{
    let mut doubt = Certainty::AMBIGUOUS;
    let mut at = candidates.len();
    while at > 0 {
        at -= 1;
        let certainty = candidates[at].value.certainty;
        if certainty != Certainty::Yes {
            doubt = certainty.or(doubt);
        }
    }
    doubt
}
