//! Bound variables opened with placeholders.
ghost use Rattle.std.specs.Prelude.{◌≡◌, ◌↔◌, IsTrue, ◌+◌, ◌<◌, ◌^◌, List, Option, ℕ, Some, true, Err, length, IfOk, OnOk, OnErr};
ghost use Rattle.nts_model.specs.declared.labels.Sort.{Sort};
ghost use Rattle.nts_model.specs.declared.labels.BoundVarIndexKind.TheVariants as index;
ghost use Rattle.nts_model.specs.declared.labels.Label.TheVariants as label;
ghost use Rattle.nts_model.specs.Terms.Trees.{Tree, node, empty, IsClosedUnder};
ghost use Rattle.nts_store.specs.Growth.{tree_at, IsIn, Extends};
ghost use Rattle.nts_terms.specs.Handles.{Holds};
ghost use Rattle.nts_terms.specs.Rest.{Grows};
ghost use Rattle.nts_table.specs.Frames.{ChangesEntries};
ghost use Rattle.nts_table.specs.Tables.{IsTable};
ghost use Rattle.nts_placeholder.specs.declared.maps.BoundVar.{BoundVar};
ghost use Rattle.nts_placeholder.specs.Closing.{mapped};
ghost use Rattle.nts_placeholder.specs.Escaping.{escapes, is_among};
ghost use Rattle.nts_placeholder.specs.Knowing.{NamesListed, IsKnownAfter};
ghost use Rattle.nts_placeholder.specs.Opening.{opened_by, AreMapsOf, placeholder_label};
ghost use Rattle.nts_placeholder.specs.Universes.{AreFilled, RunsOut};
ghost use Rattle.nts_placeholder.specs.OpeningLaws.{CanOpen, opened_by-empty, opened_by-more, CanOpen-more, opened_by-kind};

use crate::escaping::{Escaping, escaping_variables, is_closed_under};
use crate::maps::{Placeholder, PlaceholderMaps};
use crate::universes::{Filled, fill, reach_of, universe_of_entry};
use nts_model::{BoundVarIndexKind, Constant, FreeRegion, Label, Leaf, Sort};
use nts_replacing::{Place, ReplacerUnder, replace_under};
use nts_store::{Fault, NodeId, Nodes};
use nts_table::InferCtxt;
use nts_terms::{Cx, Stored, UniverseIndex};
use std::alloc::{AllocError, Global};

/// Opens the bound variables of values.
pub struct BoundVarReplacer;

impl BoundVarReplacer {
    /// Whether no level of a bound variable passes the binders of the value and the listed universes.
    pub fn may_replace<T: Stored>(
        cx: &Cx,
        universe_indices: &[Option<UniverseIndex>],
        value: T,
    ) -> bool
        requires { IsIn cx.now.nodes (T.id value) }
        ensures { IsTrue result ↔ IsClosedUnder (length universe_indices.now) (tree_at cx.now.nodes
            (T.id value)) }
    {
        is_closed_under(&cx.nodes, universe_indices.len(), value.node())
    }

    /// The value with placeholders in place of its escaping bound variables, and which bound variable
    /// each was made for. The last entry of the list is that of the innermost binder around the value.
    /// Where an entry that is named has no universe, new ones are made for each open entry up to it,
    /// outer ones first. After a refusal list and table are as before.
    pub fn replace_bound_vars<T: Stored>(
        table: &mut InferCtxt,
        cx: &mut Cx,
        universe_indices: &mut Vec<Option<UniverseIndex>>,
        value: T,
    ) -> Result<(T, PlaceholderMaps), Fault>
        requires holds { Holds T.place cx.old.nodes (T.id value) }
        requires levels { IsClosedUnder (length universe_indices.old.items) (tree_at cx.old.nodes
            (T.id value)) }
        ensures tree { IfOk result (λ r. tree_at cx.new.nodes (T.id r.0) ≡
            opened_by universe_indices.new.items 0 (tree_at cx.old.nodes (T.id value))) }
        ensures holds { IfOk result (λ r. Holds T.place cx.new.nodes (T.id r.0)) }
        ensures maps { IfOk result (λ r. AreMapsOf universe_indices.new.items
            (escapes (tree_at cx.old.nodes (T.id value))) (mapped r.1)) }
        ensures universes { OnOk result (AreFilled (escapes (tree_at cx.old.nodes (T.id value)))
            universe_indices.old.items universe_indices.new.items table.old.entries table.new.entries) }
        ensures knows { IfOk result (λ r. IsTable cx.old.nodes table.old → NamesListed
            table.old.entries.universe universe_indices.old.items → IsKnownAfter cx.old.nodes cx.new.nodes
            table.old table.new (tree_at cx.old.nodes (T.id value)) (tree_at cx.new.nodes (T.id r.0))) }
        ensures changes { ChangesEntries table.old table.new }
        ensures table { (ts : List Tree) → IsTable ts table.old → IsTable ts table.new }
        ensures grows { Grows cx.old cx.new }
        ensures list_err { OnErr result (universe_indices.new.items ≡ universe_indices.old.items) }
        ensures table_err { OnErr result (table.new ≡ table.old) }
        ensures full { result ≡ Err Fault.Full →
            RunsOut (escapes (tree_at cx.old.nodes (T.id value)))
            universe_indices.old.items table.old.entries.universe u32.MAX }
        ensures enough { OnOk result (RunsOut (escapes (tree_at cx.old.nodes (T.id value)))
            universe_indices.old.items table.old.entries.universe u32.MAX → ⊥) }
    {
        let found = escaping_variables(cx.alloc, &cx.nodes, value.node())?;
        let end = reach_of(universe_indices, &found);
        let filled = match fill(cx.alloc, universe_indices, end, table.universe()) {
            Ok(filled) => filled,
            Err(fault) => return Err(fault),
        };
        let Filled { universes, count } = filled;
        let maps = maps_of(cx.alloc, &found, &universes)?;
        let node = open_nodes(cx.alloc, &mut cx.nodes, &universes, value.node())?;
        match table.create_universes(count) {
            Ok(()) => {}
            Err(fault) => return Err(fault),
        }
        *universe_indices = universes;
        Ok((T::from_node(node), maps))
    }
}

/// The placeholders of bound variables, with these.
fn maps_of(
    alloc: Global,
    found: &[Escaping],
    universes: &[Option<UniverseIndex>],
) -> Result<PlaceholderMaps, AllocError>
    requires { (s : Sort) (b : BoundVar) → is_among found.now s b ≡ true →
        b.level < length universes.now }
    ensures { IfOk result (λ maps. AreMapsOf universes.now (is_among found.now) (mapped maps)) }
{
    let mut maps = PlaceholderMaps::new(alloc);
    for i in 0..found.len() {
        let bound = found[i].bound;
        let universe = universe_of_entry(universes, universes.len() - bound.level - 1);
        let var = bound.var;
        maps.insert(found[i].sort, Placeholder { universe, var }, bound)?;
    }
    Ok(maps)
}

/// The term with placeholders of listed universes in place of its escaping bound variables.
fn open_nodes(
    alloc: Global,
    nodes: &mut Nodes,
    universes: &[Option<UniverseIndex>],
    t: NodeId,
) -> Result<NodeId, AllocError>
    requires within { IsIn nodes.old t }
    requires levels { IsClosedUnder (length universes.now) (tree_at nodes.old t) }
    ensures extends { Extends nodes.old nodes.new }
    ensures within { IfOk result (IsIn nodes.new) }
    ensures tree { IfOk result (λ r. tree_at nodes.new r ≡ opened_by universes.now 0
        (tree_at nodes.old t)) }
{
    replace_under(alloc, nodes, &Opener { universes }, t)
}

#[derive(Drop)]
struct Opener<'a> {
    universes: &'a [Option<UniverseIndex>],
}

impl ReplacerUnder for Opener<'_> {
    ghost Meaning = { List (Option ℕ) };

    ghost meaning = { λ s. s.universes.now };

    ghost covers = { CanOpen };

    ghost image = { opened_by };

    ghost image_empty = { opened_by-empty };

    ghost image_more = { opened_by-more };

    ghost covers_more = { CanOpen-more };

    ghost kind_kept = { opened_by-kind };

    fn step(&self, nodes: &mut Nodes, place: Place) -> Result<Option<NodeId>, AllocError> {
        match nodes.label(place.node) {
            Label::Bound(sort, BoundVarIndexKind::Bound(d), var) if d >= place.depth => {
                let entry = self.universes.len() - (d - place.depth) - 1;
                let universe = universe_of_entry(self.universes, entry);
                let label = label_of_placeholder(sort, Placeholder { universe, var });
                Ok(Some(nodes.make(label, &[])?))
            }
            _ if is_closed_under(nodes, place.depth, place.node) => Ok(Some(place.node)),
            _ => Ok(None),
        }
    }
}

/// The label of a placeholder of a sort.
fn label_of_placeholder(sort: Sort, placeholder: Placeholder) -> Label
    ensures { result ≡ placeholder_label sort placeholder }
{
    let Placeholder { universe, var } = placeholder;
    match sort {
        Sort::Ty => Label::Leaf(Leaf::TyConstant(Constant::Placeholder(universe, var))),
        Sort::Region => Label::Leaf(Leaf::Region(FreeRegion::Placeholder(universe, var))),
        Sort::Const => Label::Leaf(Leaf::ConstConstant(Constant::Placeholder(universe, var))),
    }
}
