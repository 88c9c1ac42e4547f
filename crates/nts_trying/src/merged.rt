//! One response for those of the candidates.
ghost use Rattle.std.specs.Prelude.{◌≡◌, ◌≢◌, ◌↔◌, ◌<◌, ℕ, [], length, get_or, All, ◌⊎◌, OnOk, OnErr, IfErr, IsNone, IfSome, IsTrue, Ok};
ghost use Rattle.nts_canonical.specs.Building.{IsArgOf};
ghost use Rattle.nts_canonical.specs.declared.types.Canonical.{Canonical};
ghost use Rattle.nts_response.specs.declared.types.Response.{Response};
ghost use Rattle.nts_response.specs.Forms.{HoldsResponse};
ghost use Rattle.nts_table.specs.Tables.{IsTable};
ghost use Rattle.nts_terms.specs.Rest.{Grows};
ghost use Rattle.nts_model.specs.declared.labels.Label.TheVariants as label_variants;
ghost use Rattle.nts_model.specs.declared.labels.Leaf.TheVariants as leaf;
ghost use Rattle.nts_canonical.specs.Forms.{kind_of_var};
ghost use Rattle.nts_terms.specs.Handles.{HoldsArg};
ghost use Rattle.nts_theory.specs.Telling.{IsLabelOfKind};
ghost use Rattle.nts_trying.specs.Found.{IsMerged, IsOverTerms, StandsForThem, kept_after};
ghost use Rattle.nts_meaning.specs.Answering.{IfAnswered};

use nts_canonical::CanonicalVarKind;
use nts_meaning::boxed_response;
use nts_meaning::nts_search::{MergeCandidateInfo, join_doubts, try_merge_candidates};
use nts_model::{Constant, FreeRegion, Label, Leaf, VariableKind};
use nts_response::CanonicalResponse;
use nts_store::EvalError;
use nts_table::InferCtxt;
use nts_terms::{Cx, GenericArg};

/// Keeps a response, and drops that a candidate has no solution. Other errors are answered.
#[inline(never)]
pub fn keep_response(
    responses: &mut Vec<CanonicalResponse>,
    answer: Result<Box<CanonicalResponse>, EvalError>,
) -> Result<(), EvalError>
    ensures kept { OnOk result (responses.new.items ≡ kept_after responses.old.items answer) }
    ensures dropped { OnOk result (OnErr answer (answer ≡ Err EvalError.NoSolution)) }
    ensures no { result ≢ Err EvalError.NoSolution }
    ensures err { IfErr result (λ e. e ≡ EvalError.Memory ⊎ answer ≡ Err e) }
{
    match answer {
        Ok(response) => {
            responses.push(Box::into_inner(response))?;
            Ok(())
        }
        Err(EvalError::NoSolution) => Ok(()),
        Err(error) => Err(error),
    }
}

/// The place of the response that stands for all, if there is one: what they merge to, but one that changes nothing only if it is
/// over the terms of the query.
fn merged_place(cx: &Cx, values: &[GenericArg], responses: &[CanonicalResponse]) -> Option<usize>
    requires values { All (HoldsArg cx.now.nodes) values.now }
    requires holds { All (λ r. HoldsResponse cx.now.nodes r.value) responses.now }
    ensures none { IsNone result → (r : Canonical Response) →
        StandsForThem cx.now.nodes values.now responses.now r → ⊥ }
    ensures some { IfSome result (λ i. (i < length responses.now) × ((d : Canonical Response) →
        StandsForThem cx.now.nodes values.now responses.now (get_or responses.now i d))) }
{
    match try_merge_candidates(cx, responses) {
        None => None,
        Some((_, MergeCandidateInfo::AlwaysApplicable(i))) => {
            if is_over_terms(cx, values, &responses[i]) {
                return Some(i);
            }
            None
        }
        Some((_, MergeCandidateInfo::EqualResponse)) => Some(0),
    }
}

/// Whether these terms stand for the positions of a response: variables of their kinds, or the placeholders.
fn is_over_terms(cx: &Cx, values: &[GenericArg], response: &CanonicalResponse) -> bool
    requires { All (HoldsArg cx.now.nodes) values.now }
    ensures { IsTrue result ↔ IsOverTerms cx.now.nodes values.now response.now }
{
    let kinds = &response.var_kinds;
    if values.len() != kinds.len() {
        return false;
    }
    for i in 0..values.len() {
        if !is_of_kind(cx.nodes.label(values[i].node), kinds[i]) {
            return false;
        }
    }
    true
}

/// Whether a label may stand for a position of that kind: a variable of the kind, or the placeholder.
fn is_of_kind(label: Label, kind: CanonicalVarKind) -> bool
    ensures { IsTrue result ↔ IsLabelOfKind (kind_of_var kind) label }
{
    match kind {
        CanonicalVarKind::Ty { .. } => is_variable(label, VariableKind::Ty),
        CanonicalVarKind::Int => is_variable(label, VariableKind::Int),
        CanonicalVarKind::Float => is_variable(label, VariableKind::Float),
        CanonicalVarKind::Const(_) => is_variable(label, VariableKind::Const),
        CanonicalVarKind::Region(_) => is_variable(label, VariableKind::Region),
        CanonicalVarKind::PlaceholderTy(p) => match label {
            Label::Leaf(Leaf::TyConstant(Constant::Placeholder(u, n))) => {
                u == p.universe && n == p.bound.var
            }
            _ => false,
        },
        CanonicalVarKind::PlaceholderRegion(p) => match label {
            Label::Leaf(Leaf::Region(FreeRegion::Placeholder(u, n))) => {
                u == p.universe && n == p.bound.var
            }
            _ => false,
        },
        CanonicalVarKind::PlaceholderConst(p) => match label {
            Label::Leaf(Leaf::ConstConstant(Constant::Placeholder(u, n))) => {
                u == p.universe && n == p.bound.var
            }
            _ => false,
        },
    }
}

/// Whether a label is a variable of that kind.
fn is_variable(label: Label, kind: VariableKind) -> bool
    ensures { IsTrue result ↔ ((n : ℕ) × (label ≡ label_variants.Leaf (leaf.Variable kind n))) }
{
    match label {
        Label::Leaf(Leaf::Variable(found, _)) => found == kind,
        _ => false,
    }
}

/// The response that stands for those of all candidates: one of them, or what the table knew, in doubt as they are. Where there
/// is none, no candidate holds.
#[inline(never)]
pub fn merge_responses(
    table: &InferCtxt,
    cx: &mut Cx,
    values: &[GenericArg],
    responses: Vec<CanonicalResponse>,
) -> Result<Box<CanonicalResponse>, EvalError>
    requires table { IsTable cx.old.nodes table.now }
    requires values { All (IsArgOf cx.old.nodes table.now.entries) values.now }
    requires holds { All (λ r. HoldsResponse cx.old.nodes r.value) responses.items }
    ensures merged { IfAnswered result (IsMerged cx.old.nodes cx.new.nodes table.now values.now
        responses.items) }
    ensures no { (result ≡ Err EvalError.NoSolution) ↔ (responses.items ≡ []) }
    ensures grows { Grows cx.old cx.new }
{
    if responses.is_empty() {
        return Err(EvalError::NoSolution);
    }
    if let Some(i) = merged_place(cx, values, &responses) {
        let mut responses = responses;
        let response = Box::new(cx.alloc, responses.swap_remove(i))?;
        return Ok(response);
    }
    let response = boxed_response(table, cx, values, join_doubts(&responses))?;
    Ok(response)
}
