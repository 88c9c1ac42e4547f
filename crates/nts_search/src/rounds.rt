//! When the rounds of a head end.
ghost use Rattle.std.specs.Prelude.{◌≡◌, ◌↔◌, ◌⊎◌, false, IsTrue};
ghost use Rattle.nts_search.specs.Searching.{HoldsAnswer, HoldsEntry};
ghost use Rattle.nts_search.specs.Ending.{AreOneAnswer, IsVague};

use crate::stack::StackEntry;
use nts_certainty::Certainty;
use nts_response::{CanonicalResponse, has_no_inference_or_external_constraints, same_response};
use nts_terms::Cx;

/// Whether a round ends its head: its provisional answer was not read, or the answer is the provisional one again, or is
/// a doubt that says nothing.
#[inline(never)]
pub fn round_is_last(cx: &Cx, entry: &StackEntry, answer: &Option<CanonicalResponse>) -> bool
    requires entry { HoldsEntry cx.now.nodes entry.now }
    requires answer { HoldsAnswer cx.now.nodes answer.now }
    ensures { IsTrue result ↔ ((entry.now.is_read ≡ false) ⊎
        (AreOneAnswer cx.now.nodes entry.now.provisional answer.now ⊎
        IsVague cx.now.nodes answer.now)) }
{
    !entry.is_read || same_answer(cx, &entry.provisional, answer) || is_vague(cx, answer)
}

/// Whether two answers are one.
fn same_answer(cx: &Cx, a: &Option<CanonicalResponse>, b: &Option<CanonicalResponse>) -> bool
    requires left { HoldsAnswer cx.now.nodes a.now }
    requires right { HoldsAnswer cx.now.nodes b.now }
    ensures { IsTrue result ↔ AreOneAnswer cx.now.nodes a.now b.now }
{
    match (a, b) {
        (Some(a), Some(b)) => same_response(cx, a, b),
        (None, None) => true,
        _ => false,
    }
}

/// Whether an answer is a doubt that says nothing.
fn is_vague(cx: &Cx, answer: &Option<CanonicalResponse>) -> bool
    requires { HoldsAnswer cx.now.nodes answer.now }
    ensures { IsTrue result ↔ IsVague cx.now.nodes answer.now }
{
    match answer {
        Some(r) => {
            r.value.certainty != Certainty::Yes && has_no_inference_or_external_constraints(cx, r)
        }
        None => false,
    }
}
