//! One response for several.
ghost use Rattle.std.specs.Prelude.{◌≡◌, ◌↔◌, All, IfSome, IsTrue, length, get_or, MatchOption};
ghost use Rattle.nts_response.specs.Forms.{HoldsResponse};
ghost use Rattle.nts_response.specs.Same.{AreOneResponse};
ghost use Rattle.nts_search.specs.Merging.{AppliesAlways, IsFirstSuch, HasNone, AreAllOne, Merges};

use nts_certainty::Certainty;
use nts_response::{CanonicalResponse, has_no_inference_or_external_constraints, same_response};
use nts_terms::Cx;

/// Why one response stands for those of all candidates.
#[derive(Clone, Copy, PartialEq, Eq, Debug)]
pub enum MergeCandidateInfo {
    /// The candidate at this place is certain, whatever the variables are.
    AlwaysApplicable(usize),
    /// All responses are equal.
    EqualResponse,
}

/// The response that stands for those of all candidates, if there is one: the first that is certain and neither
/// constrains variables nor asks for anything, or else the one that all of them are. It takes no memory.
pub fn try_merge_candidates<'a>(
    cx: &Cx,
    candidates: &'a [CanonicalResponse],
) -> Option<(&'a CanonicalResponse, MergeCandidateInfo)>
    requires holds { All (λ r. HoldsResponse cx.now.nodes r.value) candidates.now }
    ensures merges { MatchOption result (Merges cx.now.nodes candidates.now None) (λ m.
        Merges cx.now.nodes candidates.now (Some (m.0.now, m.1))) }
{
    if let Some(i) = first_that_applies_always(cx, candidates) {
        return Some((&candidates[i], MergeCandidateInfo::AlwaysApplicable(i)));
    }
    if !are_all_one(cx, candidates) {
        return None;
    }
    Some((&candidates[0], MergeCandidateInfo::EqualResponse))
}

/// The place of the first response that is certain, with neither inference nor external constraints.
fn first_that_applies_always(cx: &Cx, candidates: &[CanonicalResponse]) -> Option<usize>
    requires { All (λ r. HoldsResponse cx.now.nodes r.value) candidates.now }
    ensures { MatchOption result (HasNone (AppliesAlways cx.now.nodes) candidates.now) (IsFirstSuch
        (AppliesAlways cx.now.nodes) candidates.now) }
{
    for i in 0..candidates.len() {
        if applies_always(cx, &candidates[i]) {
            return Some(i);
        }
    }
    None
}

/// Whether a response is certain, with neither inference nor external constraints.
fn applies_always(cx: &Cx, response: &CanonicalResponse) -> bool
    requires { HoldsResponse cx.now.nodes response.now.value }
    ensures { IsTrue result ↔ AppliesAlways cx.now.nodes response.now }
{
    response.value.certainty == Certainty::Yes
        && has_no_inference_or_external_constraints(cx, response)
}

/// Whether there are responses, and all of them are one.
fn are_all_one(cx: &Cx, candidates: &[CanonicalResponse]) -> bool
    requires { All (λ r. HoldsResponse cx.now.nodes r.value) candidates.now }
    ensures { IsTrue result ↔ AreAllOne cx.now.nodes candidates.now }
{
    if candidates.is_empty() {
        return false;
    }
    for i in 1..candidates.len() {
        if !same_response(cx, &candidates[0], &candidates[i]) {
            return false;
        }
    }
    true
}
