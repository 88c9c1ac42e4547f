//! The bound variables of a value whose binders stand outside of it.
ghost use Rattle.std.specs.Prelude.{◌≡◌, ◌↔◌, ◌≤◌, ◌||◌, IfOk, IsTrue, OnOk, length};
ghost use Rattle.nts_model.specs.declared.labels.Sort.{Sort};
ghost use Rattle.nts_model.specs.Terms.Trees.{IsClosedUnder};
ghost use Rattle.nts_store.specs.Growth.{tree_at, IsIn};
ghost use Rattle.nts_store.specs.Levels.{above};
ghost use Rattle.nts_placeholder.specs.declared.maps.BoundVar.{BoundVar};
ghost use Rattle.nts_placeholder.specs.Escaping.{is_bound, escapes, is_among, IsDeeper};

use crate::maps::BoundVar;
use nts_model::{BoundVarIndexKind, Label, Sort};
use nts_store::{NodeId, Nodes, binders_of};
use std::alloc::{AllocError, Global};
use std::collections::BTreeSet;

/// A bound variable that escapes from a value. Its level is counted outside of the value.
#[derive(Clone, Copy)]
pub struct Escaping {
    pub sort: Sort,
    pub bound: BoundVar,
}

/// The bound variables that escape from a value.
pub(crate) fn escaping_variables(
    alloc: Global,
    nodes: &Nodes,
    t: NodeId,
) -> Result<Vec<Escaping>, AllocError>
    requires within { IsIn nodes.now t }
    ensures found { IfOk result (λ xs. (s : Sort) (b : BoundVar) →
        is_among xs.items s b ≡ escapes (tree_at nodes.now t) s b) }
{
    let mut found = Vec::new(alloc);
    let mut here = BTreeSet::new(alloc);
    here.insert(t.number)?;
    let count = nodes.len();
    for level in 0..count {
        if here.is_empty() {
            return Ok(found);
        }
        here = next_level(alloc, nodes, level, &mut here, &mut found)?;
    }
    Ok(found)
}

/// The terms one binder deeper that are left to visit, once what escapes from these is noted.
fn next_level(
    alloc: Global,
    nodes: &Nodes,
    level: usize,
    here: &mut BTreeSet<usize>,
    found: &mut Vec<Escaping>,
) -> Result<BTreeSet<usize>, AllocError>
    requires within { above here.old.keys ≤ length nodes.now }
    ensures deeper { IfOk result (λ deeper. IsDeeper level nodes.now here.old.keys deeper.keys
        found.old.items found.new.items) }
{
    // Equal terms have one number, and children stand before their parents. So where the last number
    // comes first, each node is visited once at each level, however often the value has it.
    let mut deeper = BTreeSet::new(alloc);
    while let Some(number) = here.pop_last() {
        let term = NodeId { number };
        if is_closed_under(nodes, level, term) {
            continue;
        }
        let label = nodes.label(term);
        note(found, level, label)?;
        let binds = binders_of(label) > 0;
        for i in 0..nodes.child_count(term) {
            let child = nodes.child(term, i).number;
            if binds {
                deeper.insert(child)?;
            } else {
                here.insert(child)?;
            }
        }
    }
    Ok(deeper)
}

/// Notes the bound variable that a label is, if its binder is outside.
fn note(found: &mut Vec<Escaping>, level: usize, label: Label) -> Result<(), AllocError>
    ensures noted { OnOk result ((s : Sort) (b : BoundVar) →
        is_among found.new.items s b ≡ (is_among found.old.items s b || is_bound s b level label)) }
{
    if let Label::Bound(sort, index, var) = label {
        match index {
            BoundVarIndexKind::Bound(d) if d >= level => {
                let level = d - level;
                let bound = BoundVar { level, var };
                found.push(Escaping { sort, bound })?;
            }
            _ => {}
        }
    }
    Ok(())
}

/// Whether no bound variable of that level or above escapes.
pub(crate) fn is_closed_under(nodes: &Nodes, level: usize, t: NodeId) -> bool
    requires { IsIn nodes.now t }
    ensures { IsTrue result ↔ IsClosedUnder level (tree_at nodes.now t) }
{
    match nodes.flags(t).escaping {
        None => true,
        Some(d) => d < level,
    }
}
