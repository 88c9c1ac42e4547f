//! Whether a response says anything of what was asked.
ghost use Rattle.std.specs.Prelude.{◌≡◌, ◌↔◌, Some, All, IsTrue};
ghost use Rattle.nts_model.specs.declared.labels.Sort.TheVariants as sorts;
ghost use Rattle.nts_model.specs.Terms.Trees.{kind_of, of_sort};
ghost use Rattle.nts_model.specs.Answers.Responses.{IsIdentity};
ghost use Rattle.nts_store.specs.Growth.{tree_at, IsIn};
ghost use Rattle.nts_terms.specs.Handles.{HoldsArg};
ghost use Rattle.nts_canonical.specs.Forms.{trees_of};
ghost use Rattle.nts_response.specs.Applied.{IsPosition};
ghost use Rattle.nts_response.specs.Forms.{HoldsResponse, ArePositions, FoundNothing, HasOnlyRegionConstraints};

use crate::types::CanonicalResponse;
use nts_model::{BoundVarIndexKind, Label, Sort};
use nts_store::{NodeId, sort_of};
use nts_terms::{Cx, GenericArg};

/// Whether each value is the position of its own number: then they say nothing of the query's positions.
pub fn is_identity(cx: &Cx, values: &[GenericArg]) -> bool
    requires { All (HoldsArg cx.now.nodes) values.now }
    ensures { IsTrue result ↔ ArePositions (trees_of cx.now.nodes values.now) }
{
    for i in 0..values.len() {
        if !is_position(cx, values[i].node, i) {
            return false;
        }
    }
    true
}

/// Whether the values are the positions in order, where a region that is not the next position is passed over: then they say
/// nothing of types and consts.
pub fn is_identity_modulo_regions(cx: &Cx, values: &[GenericArg]) -> bool
    requires { All (HoldsArg cx.now.nodes) values.now }
    ensures { IsTrue result ↔ IsIdentity 0 (trees_of cx.now.nodes values.now) }
{
    let mut next = 0;
    for i in 0..values.len() {
        if is_position(cx, values[i].node, next) {
            next += 1;
        } else if !is_region(cx, values[i].node) {
            return false;
        }
    }
    true
}

/// Whether a term is a region.
fn is_region(cx: &Cx, t: NodeId) -> bool
    requires { IsIn cx.now.nodes t }
    ensures { IsTrue result ↔ (kind_of (tree_at cx.now.nodes t) ≡ Some (of_sort sorts.Region)) }
{
    sort_of(cx.nodes.label(t)) == Some(Sort::Region)
}

/// Whether a response tells no more than region constraints: its values say nothing of types and consts, and there are no
/// hidden types and no open goals.
pub fn has_only_region_constraints(cx: &Cx, response: &CanonicalResponse) -> bool
    requires { HoldsResponse cx.now.nodes response.now.value }
    ensures { IsTrue result ↔ HasOnlyRegionConstraints cx.now.nodes response.now }
{
    let value = &response.value;
    let found = &value.external_constraints;
    is_identity_modulo_regions(cx, &value.var_values)
        && found.opaque_types.is_empty()
        && found.normalization_nested_goals.is_empty()
}

/// Whether a term is the position of that number.
fn is_position(cx: &Cx, t: NodeId, number: usize) -> bool
    requires { IsIn cx.now.nodes t }
    ensures { IsTrue result ↔ IsPosition (tree_at cx.now.nodes t) number }
{
    match cx.nodes.label(t) {
        Label::Bound(_, BoundVarIndexKind::Canonical, b) => b == number,
        _ => false,
    }
}

/// Whether a response has neither inference constraints nor external ones: its values are the positions in order, and
/// there are no region constraints, hidden types and open goals.
pub fn has_no_inference_or_external_constraints(cx: &Cx, response: &CanonicalResponse) -> bool
    requires { HoldsResponse cx.now.nodes response.now.value }
    ensures { IsTrue result ↔ (ArePositions
        (trees_of cx.now.nodes response.now.value.var_values.items) ×
        FoundNothing response.now.value.external_constraints) }
{
    let value = &response.value;
    is_identity(cx, &value.var_values) && value.external_constraints.is_empty()
}
