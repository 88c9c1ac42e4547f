//! Placeholders closed to bound variables.
ghost use Rattle.std.specs.Prelude.{◌≡◌, ◌<◌, ◌^◌, ℕ, Option, Some, IfOk, IsOkUnless};
ghost use Rattle.nts_model.specs.Tables.Resolving.{Knows, deeply_resolved};
ghost use Rattle.nts_store.specs.Growth.{tree_at, IsIn, Extends};
ghost use Rattle.nts_terms.specs.Handles.{Holds};
ghost use Rattle.nts_terms.specs.Rest.{Grows};
ghost use Rattle.nts_unify.specs.Reading.{content_of};
ghost use Rattle.nts_table.specs.Tables.{IsTable};
ghost use Rattle.nts_placeholder.specs.Closing.{mapped, placeholder_of, closed_label, closed_by};
ghost use Rattle.nts_placeholder.specs.ClosingLaws.{Closing, CanClose, closing_of, closing_of-empty, closing_of-more, CanClose-more, closing_of-kind};

use crate::maps::{Placeholder, PlaceholderMaps};
use crate::universes::entry_of_universe;
use nts_model::{BoundVarIndexKind, Constant, FreeRegion, Label, Leaf, Sort};
use nts_replacing::{Place, ReplacerUnder, replace_under};
use nts_store::{Fault, NodeId, Nodes};
use nts_table::{InferCtxt, resolve_nodes};
use nts_terms::{Cx, Stored, UniverseIndex};
use std::alloc::{AllocError, Global};

/// Closes the placeholders of values.
pub struct PlaceholderReplacer;

impl PlaceholderReplacer {
    /// The value, with values and roots in place of variables, and with bound variables in place of the
    /// placeholders that the maps list and whose universe is listed. The last entry of the list is that
    /// of the innermost binder around the value.
    pub fn replace_placeholders<T: Stored>(
        table: &InferCtxt,
        cx: &mut Cx,
        maps: &PlaceholderMaps,
        universe_indices: &[Option<UniverseIndex>],
        value: T,
    ) -> Result<T, Fault>
        requires table { IsTable cx.old.nodes table.now }
        requires holds { Holds T.place cx.old.nodes (T.id value) }
        requires knows { Knows (content_of cx.old.nodes table.now.entries) (tree_at cx.old.nodes
            (T.id value)) }
        ensures tree { IfOk result (λ r. tree_at cx.new.nodes (T.id r) ≡ closed_by (mapped maps.now)
            universe_indices.now 0 (deeply_resolved (content_of cx.old.nodes table.now.entries)
            (tree_at cx.old.nodes (T.id value)))) }
        ensures holds { IfOk result (λ r. Holds T.place cx.new.nodes (T.id r)) }
        ensures knows { IfOk result (λ r. Knows (content_of cx.new.nodes table.now.entries)
            (tree_at cx.new.nodes (T.id r))) }
        ensures grows { Grows cx.old cx.new }
        ensures memory { IsOkUnless result Fault.Memory }
    {
        let known = resolve_nodes(cx.alloc, &mut cx.nodes, table, value.node(), true)?;
        let node = close_nodes(cx.alloc, &mut cx.nodes, maps, universe_indices, known)?;
        Ok(T::from_node(node))
    }
}

/// The term with bound variables in place of the placeholders that the maps list.
fn close_nodes(
    alloc: Global,
    nodes: &mut Nodes,
    maps: &PlaceholderMaps,
    universes: &[Option<UniverseIndex>],
    t: NodeId,
) -> Result<NodeId, AllocError>
    requires within { IsIn nodes.old t }
    ensures extends { Extends nodes.old nodes.new }
    ensures within { IfOk result (IsIn nodes.new) }
    ensures tree { IfOk result (λ r. tree_at nodes.new r ≡ closed_by (mapped maps.now) universes.now
        0 (tree_at nodes.old t)) }
{
    replace_under(alloc, nodes, &Closer { maps, universes }, t)
}

#[derive(Drop)]
struct Closer<'a> {
    maps: &'a PlaceholderMaps,
    universes: &'a [Option<UniverseIndex>],
}

impl ReplacerUnder for Closer<'_> {
    ghost Meaning = { Closing };

    ghost meaning = { λ s. record { maps = mapped s.maps.now; universes = s.universes.now } };

    ghost covers = { CanClose };

    ghost image = { closing_of };

    ghost image_empty = { closing_of-empty };

    ghost image_more = { closing_of-more };

    ghost covers_more = { CanClose-more };

    ghost kind_kept = { closing_of-kind };

    fn step(&self, nodes: &mut Nodes, place: Place) -> Result<Option<NodeId>, AllocError> {
        if !nodes.flags(place.node).has_placeholder {
            return Ok(Some(place.node));
        }
        let label = nodes.label(place.node);
        match placeholder_of_label(label) {
            None => Ok(None),
            Some((sort, placeholder)) => {
                let closed = self.close(label, sort, placeholder, place.depth);
                Ok(Some(nodes.make(closed, &[])?))
            }
        }
    }
}

impl Closer<'_> {
    /// What the label of a placeholder closes to, under so many binders.
    fn close(&self, label: Label, sort: Sort, placeholder: Placeholder, depth: usize) -> Label
        requires is { placeholder_of label ≡ Some (sort, placeholder) }
        requires shallow { depth < 2 ^ 63 }
        ensures { result ≡ closed_label (mapped self.now.maps.now) self.now.universes.now depth
            label }
    {
        let entry = entry_of_universe(self.universes, placeholder.universe);
        match (self.maps.bound_var(sort, placeholder), entry) {
            (Some(bound), Some(entry)) => {
                let level = self.universes.len() - entry + depth - 1;
                Label::Bound(sort, BoundVarIndexKind::Bound(level), bound.var)
            }
            _ => label,
        }
    }
}

/// The placeholder that a label is, with its sort.
fn placeholder_of_label(label: Label) -> Option<(Sort, Placeholder)>
    ensures { result ≡ placeholder_of label }
{
    let (sort, universe, var) = match label {
        Label::Leaf(Leaf::TyConstant(Constant::Placeholder(u, n))) => (Sort::Ty, u, n),
        Label::Leaf(Leaf::ConstConstant(Constant::Placeholder(u, n))) => (Sort::Const, u, n),
        Label::Leaf(Leaf::Region(FreeRegion::Placeholder(u, n))) => (Sort::Region, u, n),
        _ => return None,
    };
    Some((sort, Placeholder { universe, var }))
}
