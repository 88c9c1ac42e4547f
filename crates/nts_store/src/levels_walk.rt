//! Whether what a binder binds is of its list.
ghost use Rattle.std.specs.Prelude.{◌≡◌, ◌↔◌, ◌≤◌, true, false, [], IfOk, IsTrue, length};
ghost use Rattle.nts_model.specs.declared.labels.Label.TheVariants as labels;
ghost use Rattle.nts_model.specs.declared.labels.ListHead.TheVariants as lists;
ghost use Rattle.nts_model.specs.Terms.Trees.{children, IsClosedUnder};
ghost use Rattle.nts_model.specs.Terms.Scoping.{HasSortAt, IsListed, AllListed};
ghost use Rattle.nts_store.specs.Growth.{tree_at, IsIn};
ghost use Rattle.nts_store.specs.Levels.{above, AllListedAt, IsNextLevel};

use crate::nodes::{NodeId, Nodes};
use crate::type_flags::binders_of;
use nts_model::{BoundVarIndexKind, Label, ListHead, Sort};
use std::alloc::{AllocError, Global};
use std::collections::BTreeSet;

/// Whether a bound variable of a term around which a binder stands, if it is that binder's, is of the
/// binder's list.
pub(crate) fn all_listed(
    alloc: Global,
    nodes: &Nodes,
    sorts: NodeId,
    t: NodeId,
) -> Result<bool, AllocError>
    requires sorts { IsIn nodes.now sorts }
    requires within { IsIn nodes.now t }
    ensures { IfOk result (λ b. IsTrue b ↔ AllListed (children (tree_at nodes.now sorts)) 0
        (tree_at nodes.now t)) }
{
    // Most terms hold no bound variable that escapes, and are left alone without a walk.
    if is_closed_under(nodes, 0, t) {
        return Ok(true);
    }
    let mut here = BTreeSet::new(alloc);
    here.insert(t.number)?;
    let count = nodes.len();
    for level in 0..count {
        if here.is_empty() {
            return Ok(true);
        }
        let mut deeper = BTreeSet::new(alloc);
        if !next_level(nodes, sorts, level, &mut here, &mut deeper)? {
            return Ok(false);
        }
        here = deeper;
    }
    Ok(true)
}

/// Puts the terms one binder deeper that are left to visit into `deeper`, and says whether all variables are of the list: if one
/// is not, nothing more is looked at.
fn next_level(
    nodes: &Nodes,
    sorts: NodeId,
    level: usize,
    here: &mut BTreeSet<usize>,
    deeper: &mut BTreeSet<usize>,
) -> Result<bool, AllocError>
    requires sorts { IsIn nodes.now sorts }
    requires within { above here.old.keys ≤ length nodes.now }
    requires empty { deeper.old.keys ≡ [] }
    ensures next { IfOk result (λ b. b ≡ true → IsNextLevel (children (tree_at nodes.now sorts))
        level nodes.now here.old.keys deeper.new.keys) }
    ensures none { IfOk result (λ b. b ≡ false → AllListedAt (children (tree_at nodes.now sorts))
        level nodes.now here.old.keys → ⊥) }
{
    // Equal terms have one number, and children stand before their parents. So where the last number
    // comes first, each node is visited once at each level, however often the tree has it.
    while let Some(number) = here.pop_last() {
        let term = NodeId { number };
        if is_closed_under(nodes, level, term) {
            continue;
        }
        let label = nodes.label(term);
        if !is_listed(nodes, sorts, level, label) {
            return Ok(false);
        }
        let binds = binders_of(label) > 0;
        for i in 0..nodes.child_count(term) {
            let child = nodes.child(term, i).number;
            if binds {
                deeper.insert(child)?;
            } else {
                here.insert(child)?;
            }
        }
    }
    Ok(true)
}

/// Whether no bound variable of that level or above escapes.
pub fn is_closed_under(nodes: &Nodes, level: usize, t: NodeId) -> bool
    requires { IsIn nodes.now t }
    ensures { result ≡ true → IsClosedUnder level (tree_at nodes.now t) }
{
    match nodes.flags(t).escaping {
        None => true,
        Some(d) => d < level,
    }
}

/// Whether the label, if it is a variable of the binder that far out, is of the binder's list.
fn is_listed(nodes: &Nodes, sorts: NodeId, level: usize, label: Label) -> bool
    requires { IsIn nodes.now sorts }
    ensures { IsTrue result ↔ IsListed (children (tree_at nodes.now sorts)) level label }
{
    match label {
        Label::Bound(sort, BoundVarIndexKind::Bound(d), n) => {
            d != level || has_sort_at(nodes, sorts, n, sort)
        }
        _ => true,
    }
}

/// Whether the list has that sort at a place.
fn has_sort_at(nodes: &Nodes, sorts: NodeId, n: usize, sort: Sort) -> bool
    requires { IsIn nodes.now sorts }
    ensures { IsTrue result ↔ HasSortAt (children (tree_at nodes.now sorts)) n sort }
{
    if n < nodes.child_count(sorts) {
        is_sort(nodes.label(nodes.child(sorts, n)), sort)
    } else {
        false
    }
}

/// Whether a label is that sort in a list of sorts.
fn is_sort(label: Label, sort: Sort) -> bool
    ensures { IsTrue result ↔ (label ≡ labels.List (lists.Sort sort)) }
{
    match label {
        Label::List(ListHead::Sort(listed)) => listed == sort,
        _ => false,
    }
}
