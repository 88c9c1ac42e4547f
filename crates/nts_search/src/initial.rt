//! What an input is answered before its first round ends.
ghost use Rattle.std.specs.Prelude.{◌≡◌, ◌≢◌, ◌↔◌, false, map, IfOk, IfSome, IsNone, IsOkUnless};
ghost use Rattle.nts_model.specs.Derivations.Rules.{coherence};
ghost use Rattle.nts_model.specs.Searching.Driving.{unconstrained};
ghost use Rattle.nts_certainty.specs.Certainties.{overflowing};
ghost use Rattle.nts_terms.specs.Modes.{mode_of};
ghost use Rattle.nts_terms.specs.Rest.{Grows};
ghost use Rattle.nts_response.specs.nts_canonical.specs.Forms.{kind_of_var};
ghost use Rattle.nts_response.specs.Forms.{response_at, HoldsResponse, FoundNothing};
ghost use Rattle.nts_search.specs.Initial.{first_certainty};

use nts_certainty::{Certainty, PathKind};
use nts_response::nts_canonical::CanonicalInput;
use nts_response::{CanonicalResponse, response_no_constraints_raw};
use nts_store::Fault;
use nts_terms::{Cx, TypingMode};

/// What an input is answered at first where it stands on the stack, by the kind of the path back to it. `None` is no
/// solution: an inductive cycle, unless impls may be added. A coinductive cycle is a Yes, and any other one a doubt, that
/// says nothing.
pub fn initial_provisional_result(
    cx: &mut Cx,
    kind: PathKind,
    input: &CanonicalInput,
) -> Result<Option<CanonicalResponse>, Fault>
    ensures none { IfOk result (λ o. IsNone o ↔ ((kind ≡ PathKind.Inductive) ×
        (mode_of input.now.typing_mode ≢ coherence))) }
    ensures yes { IfOk result (λ o. IfSome o (λ r.
        (r.value.certainty ≡ Certainty.Yes) ↔ (kind ≡ PathKind.Coinductive))) }
    ensures doubt { IfOk result (λ o. IfSome o (λ r. kind ≢ PathKind.Coinductive →
        r.value.certainty ≡ overflowing false)) }
    ensures response { IfOk result (λ o. IfSome o (λ r. response_at cx.new.nodes r ≡ record
        (unconstrained (map kind_of_var input.now.canonical.var_kinds.items)) {
          max_universe =
              input.now.canonical.max_universe;
        })) }
    ensures holds { IfOk result (λ o. IfSome o (λ r. HoldsResponse cx.new.nodes r.value)) }
    ensures nothing { IfOk result (λ o. IfSome o (λ r. FoundNothing r.value.external_constraints)) }
    ensures grows { Grows cx.old cx.new }
    ensures memory { IsOkUnless result Fault.Memory }
{
    let Some(certainty) = certainty_at_first(kind, &input.typing_mode) else {
        return Ok(None);
    };
    let var_kinds = input.canonical.var_kinds.clone()?;
    let max_universe = input.canonical.max_universe;
    let response = response_no_constraints_raw(cx, max_universe, var_kinds, certainty)?;
    Ok(Some(response))
}

/// How sure the first answer is. `None`: there is no solution.
fn certainty_at_first(kind: PathKind, mode: &TypingMode) -> Option<Certainty>
    ensures { result ≡ first_certainty kind (mode_of mode.now) }
{
    match (kind, mode) {
        (PathKind::Coinductive, _) => Some(Certainty::Yes),
        (PathKind::Inductive, TypingMode::Coherence) => Some(Certainty::overflow(false)),
        (PathKind::Inductive, _) => None,
        (PathKind::Unknown, _) => Some(Certainty::overflow(false)),
        (PathKind::ForcedAmbiguity, _) => Some(Certainty::overflow(false)),
    }
}
