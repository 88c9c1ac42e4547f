//! The table of conditions and modes.
ghost use Rattle.std.specs.Prelude.{◌≡◌, ◌↔◌, [], All, IsTrue};
ghost use Rattle.nts_terms.specs.nts_model.specs.Derivations.Handlers.{never};
ghost use Rattle.nts_theory.specs.Erased.Accessing.{is_in, is_stored, again_if, decides};
ghost use Rattle.nts_terms.specs.nts_store.specs.Growth.{tree_at};
ghost use Rattle.nts_terms.specs.Handles.{HoldsTy};
ghost use Rattle.nts_terms.specs.Modes.{mode_of, numbers_of};
ghost use Rattle.nts_certainty.specs.Accesses.{access_of};
ghost use Rattle.nts_certainty.specs.Deciding.{decision_of, key_before, keys_of, of_keys, parents_of, is_open, has_open, names_ids, rests_on_open, rests_on_stored};

use crate::reruns::{RerunCondition, is_listed};
use nts_terms::nts_model::{Label, Leaf, VariableKind};
use nts_terms::{AliasDefId, AliasId, AliasTerm, Cx, Ty, TypingMode};

/// What an answer rests on of hidden types.
#[derive(Drop)]
pub struct AccessedOpaques {
    pub rerun: RerunCondition,
}

impl AccessedOpaques {
    /// Nothing.
    pub fn new() -> Self
        ensures { access_of result.rerun ≡ never }
    {
        AccessedOpaques {
            rerun: RerunCondition::Never,
        }
    }
}

/// Whether a goal that was answered in the erased mode is asked again in its own.
#[derive(Clone, Copy, PartialEq, Eq, Debug)]
pub enum RerunDecision {
    Yes,
    /// The answer stands.
    No,
    /// The goal above is of the erased mode itself: the answer stands there, and what it rests on is what that goal rests
    /// on.
    EagerlyPropagateToParent,
}

/// Whether a goal of this mode is asked again, once it was answered in the erased mode and the answer rests on these
/// accesses. The hidden types are those of the goal above, resolved: each with the alias that it is hidden behind. It takes no
/// memory.
///
/// An id is stored if the mode lists it or a hidden type is behind it. A condition that names ids asks again where one is
/// stored, and after the analysis in any case; one that asks for type variables among the hidden types does so in the
/// analysis alone; and in coherence every condition but `Never` does. In the erased mode each of these is handed on.
pub fn should_rerun_after_erased_canonicalization(
    cx: &Cx,
    accessed: &AccessedOpaques,
    mode: &TypingMode,
    parent_opaque_types: &[(AliasTerm, Ty)],
) -> RerunDecision
    requires { All (λ p. HoldsTy cx.now.nodes p.1) parent_opaque_types.now }
    ensures { decision_of result ≡ decides (mode_of mode.now) (parents_of cx.now.nodes
        parent_opaque_types.now) (access_of accessed.now.rerun) }
{
    let rerun = &accessed.rerun;
    let parents = parent_opaque_types;
    if rests_on_nothing(rerun) {
        return RerunDecision::No;
    }
    match mode {
        TypingMode::Coherence => RerunDecision::Yes,
        TypingMode::ErasedNotCoherence => RerunDecision::EagerlyPropagateToParent,
        TypingMode::PostAnalysis => yes_if(names_ids(rerun)),
        TypingMode::Analysis {
            defining_opaque_types_and_generators: listed,
        } => yes_if(
            rests_on_stored(rerun, listed, parents)
                || (rests_on_open(rerun) && has_open(cx, parents)),
        ),
        TypingMode::Borrowck {
            defining_opaque_types: listed,
        }
        | TypingMode::PostBorrowckAnalysis {
            defined_opaque_types: listed,
        } => yes_if(rests_on_stored(rerun, listed, parents)),
    }
}

fn yes_if(again: bool) -> RerunDecision
    ensures { decision_of result ≡ again_if again }
{
    if again {
        RerunDecision::Yes
    } else {
        RerunDecision::No
    }
}

fn rests_on_nothing(rerun: &RerunCondition) -> bool
    ensures { IsTrue result ↔ (access_of rerun.now ≡ never) }
{
    matches!(rerun, RerunCondition::Never)
}

/// Whether the condition names ids, or asks again in any case.
fn names_ids(rerun: &RerunCondition) -> bool
    ensures { result ≡ names_ids (access_of rerun.now) }
{
    !matches!(
        rerun,
        RerunCondition::Never | RerunCondition::AnyOpaqueHasInferAsHidden
    )
}

/// Whether the condition asks for type variables among the hidden types.
fn rests_on_open(rerun: &RerunCondition) -> bool
    ensures { result ≡ rests_on_open (access_of rerun.now) }
{
    matches!(
        rerun,
        RerunCondition::AnyOpaqueHasInferAsHidden
            | RerunCondition::OpaqueInStorageOrAnyOpaqueHasInferAsHidden(_)
    )
}

/// Whether the condition names an id that is stored, or asks again in any case.
fn rests_on_stored(rerun: &RerunCondition, listed: &[AliasId], parents: &[(AliasTerm, Ty)]) -> bool
    ensures { result ≡ rests_on_stored (numbers_of listed.now) (keys_of parents.now)
        (access_of rerun.now) }
{
    match rerun {
        RerunCondition::Never | RerunCondition::AnyOpaqueHasInferAsHidden => false,
        RerunCondition::OpaqueInStorage(ids)
        | RerunCondition::OpaqueInStorageOrAnyOpaqueHasInferAsHidden(ids) => {
            are_stored(ids, listed, parents)
        }
        RerunCondition::Always => true,
    }
}

/// Whether one of these is stored.
fn are_stored(ids: &[AliasId], listed: &[AliasId], parents: &[(AliasTerm, Ty)]) -> bool
    ensures { result ≡ is_stored (numbers_of listed.now) (of_keys (keys_of parents.now))
        (numbers_of ids.now) }
{
    for i in 0..ids.len() {
        if is_listed(listed, ids[i]) || is_key(parents, ids[i]) {
            return true;
        }
    }
    false
}

/// Whether a hidden type is behind the alias.
fn is_key(parents: &[(AliasTerm, Ty)], id: AliasId) -> bool
    ensures { result ≡ is_in (keys_of parents.now) id.number }
{
    for i in 0..parents.len() {
        if is_alias(parents[i].0, id) {
            return true;
        }
    }
    false
}

fn is_alias(alias: AliasTerm, id: AliasId) -> bool
    ensures { result ≡ is_in (key_before alias.def_id []) id.number }
{
    match alias.def_id {
        AliasDefId::Ty(own) => own.number == id.number,
        AliasDefId::Const(_) => false,
    }
}

/// Whether a hidden type is a type variable.
fn has_open(cx: &Cx, parents: &[(AliasTerm, Ty)]) -> bool
    requires { All (λ p. HoldsTy cx.now.nodes p.1) parents.now }
    ensures { result ≡ has_open cx.now.nodes parents.now }
{
    for i in 0..parents.len() {
        if is_open(cx, parents[i].1) {
            return true;
        }
    }
    false
}

fn is_open(cx: &Cx, ty: Ty) -> bool
    requires { HoldsTy cx.now.nodes ty }
    ensures { result ≡ is_open (tree_at cx.now.nodes ty.node) }
{
    matches!(
        cx.nodes.label(ty.node),
        Label::Leaf(Leaf::Variable(VariableKind::Ty, _))
    )
}
