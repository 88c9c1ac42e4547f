//! Which originals are guessed for the positions of a response.
ghost use Rattle.std.specs.Prelude.{◌≡◌, true, All, length, IfOk, IfSome};
ghost use Rattle.nts_model.specs.Terms.Trees.{variable_of};
ghost use Rattle.nts_model.specs.Tables.Levels.{AreCurrent};
ghost use Rattle.nts_store.specs.Growth.{tree_at, IsIn};
ghost use Rattle.nts_terms.specs.Handles.{HoldsArg};
ghost use Rattle.nts_unify.specs.Knowing.{HasNamed};
ghost use Rattle.nts_canonical.specs.Forms.{kind_of_var, trees_of};
ghost use Rattle.nts_response.specs.Applied.{content_within, IsOriginal, IsPosition, IsRootVariable, IsClosedConst, MayStand, AreGuesses};

use nts_canonical::CanonicalVarKind;
use nts_model::{BoundVarIndexKind, Label, Sort, VariableKind};
use nts_store::{NodeId, sort_of};
use nts_table::InferCtxt;
use nts_terms::{Cx, GenericArg, UniverseIndex};
use nts_unify::{named_variable, names_free_region};
use std::alloc::AllocError;

/// For each position the original whose value is just this position, if one may stand for it: no variable is made for
/// it then. Of several the last is taken. `universe` is the table's before those of the response were made.
pub(crate) fn guesses(
    table: &InferCtxt,
    cx: &Cx,
    universe: UniverseIndex,
    kinds: &[CanonicalVarKind],
    values: &[GenericArg],
    originals: &[GenericArg],
) -> Result<Vec<Option<GenericArg>>, AllocError>
    requires values { All (HoldsArg cx.now.nodes) values.now }
    requires originals { All (IsOriginal cx.now.nodes (content_within cx.now.nodes table.now.entries
        universe)) originals.now }
    requires current { AreCurrent (content_within cx.now.nodes table.now.entries universe) }
    requires long { length originals.now ≡ length values.now }
    ensures { IfOk result (λ g. AreGuesses cx.now.nodes
        (content_within cx.now.nodes table.now.entries universe) (trees_of cx.now.nodes values.now)
        (trees_of cx.now.nodes originals.now) kinds.now g.items) }
{
    let mut guessed = vec![in cx.alloc; None; kinds.len()]?;
    for i in 0..values.len() {
        if let Some(b) = position_at(cx, values[i].node) {
            if b < kinds.len() && may_stand(table, cx, universe, kinds[b], originals[i]) {
                guessed[b] = Some(originals[i]);
            }
        }
    }
    Ok(guessed)
}

/// The position that a term is, if it is one.
fn position_at(cx: &Cx, t: NodeId) -> Option<usize>
    requires { IsIn cx.now.nodes t }
    ensures { IfSome result (IsPosition (tree_at cx.now.nodes t)) }
{
    match cx.nodes.label(t) {
        Label::Bound(_, BoundVarIndexKind::Canonical, b) => Some(b),
        _ => None,
    }
}

/// Whether an original may stand for a position of that kind: for a variable of the root of the response that is no type,
/// a term of its kind that the universe of the variable names.
fn may_stand(
    table: &InferCtxt,
    cx: &Cx,
    universe: UniverseIndex,
    kind: CanonicalVarKind,
    original: GenericArg,
) -> bool
    requires original { IsOriginal cx.now.nodes (content_within cx.now.nodes table.now.entries
        universe) original }
    requires current { AreCurrent (content_within cx.now.nodes table.now.entries universe) }
    ensures { result ≡ true → MayStand (content_within cx.now.nodes table.now.entries universe)
        (kind_of_var kind) (tree_at cx.now.nodes original.node) }
{
    cx.terms_are_formed();
    let label = cx.nodes.label(original.node);
    match kind {
        CanonicalVarKind::Int => is_root_variable(table, label, VariableKind::Int),
        CanonicalVarKind::Float => is_root_variable(table, label, VariableKind::Float),
        CanonicalVarKind::Const(ui) => ui == 0 && is_closed_const(cx, original.node),
        CanonicalVarKind::Region(ui) => ui == 0 && names_free_region(label),
        _ => false,
    }
}

/// Whether the label is a variable of that kind, of the root universe.
fn is_root_variable(table: &InferCtxt, label: Label, kind: VariableKind) -> bool
    requires { HasNamed table.now.entries (variable_of label) }
    ensures { result ≡ true → IsRootVariable table.now.entries label kind }
{
    match named_variable(label) {
        Some((found, n)) => found == kind && table.variable(n).universe == 0,
        None => false,
    }
}

/// Whether a term is a const without escaping bound variables.
fn is_closed_const(cx: &Cx, t: NodeId) -> bool
    requires { IsIn cx.now.nodes t }
    ensures { result ≡ true → IsClosedConst (tree_at cx.now.nodes t) }
{
    match sort_of(cx.nodes.label(t)) {
        Some(Sort::Const) => cx.nodes.flags(t).escaping.is_none(),
        _ => false,
    }
}
