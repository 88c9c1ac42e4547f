//! The leaves of terms in the order of first sight.
ghost use Rattle.std.specs.Prelude.{◌≡◌, ◌++◌, ◌∷◌, [], OnOk};
ghost use Rattle.nts_model.specs.Canonical.Numbered.{seen};
ghost use Rattle.nts_model.specs.Terms.Trees.{children, IsRow};
ghost use Rattle.nts_store.specs.Growth.{tree_at, IsIn};
ghost use Rattle.nts_canonicalizer.specs.declared.collecting.Task.TheVariants.{Enter, Finish};
ghost use Rattle.nts_canonicalizer.specs.Collecting.{stays_where, after_leaf, TasksIn, jobs, entered, IsReading, WalkGoesOn};

use crate::leaves::Leaves;
use indexmap::IndexSet;
use nts_model::{FreeRegion, Label, Leaf};
use nts_store::{NodeId, Nodes};
use std::alloc::{AllocError, Global};

/// What is left to do. A term may be nested very deep, so this stands on the heap.
#[derive(Clone, Copy)]
pub enum Task {
    /// Read a term.
    Enter(NodeId),
    /// All that stands below this term is read.
    Finish(NodeId),
}

/// Which leaves stay as they are, and have no position.
#[derive(Clone, Copy)]
pub enum Staying {
    /// None, as in the predicate and the hidden types of an input.
    Nothing,
    /// 'static, as in the environment of an input.
    Static,
    /// 'static, the erased and the error region, as in a response.
    FixedRegions,
}

/// Whether the leaf stays as it is, and is not seen.
pub(crate) fn stays(staying: Staying, leaf: Leaf) -> bool
    ensures { result ≡ stays_where staying leaf }
{
    match staying {
        Staying::Nothing => false,
        Staying::Static => matches!(leaf, Leaf::Region(FreeRegion::Static)),
        Staying::FixedRegions => matches!(
            leaf,
            Leaf::Region(FreeRegion::Static | FreeRegion::Erased | FreeRegion::Error)
        ),
    }
}

/// Adds the leaves of a term that were not seen before. A node that the term has at several places is
/// read once, and one without leaves is not read.
pub fn collect(
    alloc: Global,
    nodes: &Nodes,
    staying: Staying,
    leaves: &mut Leaves,
    t: NodeId,
) -> Result<(), AllocError>
    requires { IsIn nodes.now t }
    ensures { OnOk result (leaves.new ≡ seen (stays_where staying) leaves.old
        (tree_at nodes.now t)) }
{
    // Many terms have no leaf, and then nothing is allocated for a walk.
    if !nodes.flags(t).has_leaf {
        return Ok(());
    }
    let mut finished = IndexSet::new(alloc);
    let mut tasks = Vec::new(alloc);
    walk(nodes, staying, leaves, &mut finished, &mut tasks, t)
}

/// Reads a term, with nothing to do and nothing finished yet.
fn walk(
    nodes: &Nodes,
    staying: Staying,
    leaves: &mut Leaves,
    finished: &mut IndexSet<usize>,
    tasks: &mut Vec<Task>,
    t: NodeId,
) -> Result<(), AllocError>
    requires within { IsIn nodes.now t }
    requires idle { tasks.old.items ≡ [] }
    requires unread { finished.old.keys ≡ [] }
    ensures { OnOk result (leaves.new ≡ seen (stays_where staying) leaves.old
        (tree_at nodes.now t)) }
{
    tasks.push(Task::Enter(t))?;
    while let Some(task) = tasks.pop() {
        match task {
            Task::Enter(term) => enter(nodes, finished, staying, leaves, tasks, term)?,
            Task::Finish(term) => {
                finished.insert(term.number)?;
            }
        }
    }
    Ok(())
}

fn enter(
    nodes: &Nodes,
    finished: &IndexSet<usize>,
    staying: Staying,
    leaves: &mut Leaves,
    tasks: &mut Vec<Task>,
    term: NodeId,
) -> Result<(), AllocError>
    requires { IsReading (stays_where staying) nodes.now (tasks.old.items ++ Enter term ∷ [])
        leaves.old finished.now.keys }
    ensures { OnOk result (WalkGoesOn (stays_where staying) nodes.now
        (tasks.old.items ++ Enter term ∷ []) leaves.old finished.now.keys tasks.new.items
        leaves.new finished.now.keys) }
{
    if let Label::Leaf(leaf) = nodes.label(term) {
        return see(staying, leaves, leaf);
    }
    if finished.contains(&term.number) {
        return Ok(());
    }
    if !nodes.flags(term).has_leaf {
        return Ok(());
    }
    tasks.push(Task::Finish(term))?;
    push_children(nodes, term, tasks)
}

fn see(staying: Staying, leaves: &mut Leaves, leaf: Leaf) -> Result<(), AllocError>
    ensures { OnOk result (leaves.new ≡ after_leaf (stays_where staying) leaves.old
        leaf) }
{
    if stays(staying, leaf) {
        return Ok(());
    }
    leaves.add(leaf)?;
    Ok(())
}

/// The children are to be read from left to right.
fn push_children(nodes: &Nodes, term: NodeId, tasks: &mut Vec<Task>) -> Result<(), AllocError>
    requires within { IsIn nodes.now term }
    requires tasks { TasksIn nodes.now tasks.old.items }
    ensures row { IsRow (children (tree_at nodes.now term)) }
    ensures within { OnOk result (TasksIn nodes.now tasks.new.items) }
    ensures jobs { OnOk result (jobs nodes.now tasks.new.items ≡ jobs nodes.now
        tasks.old.items ++ entered (children (tree_at nodes.now term))) }
{
    let mut i = nodes.child_count(term);
    while i > 0 {
        i -= 1;
        tasks.push(Task::Enter(nodes.child(term, i)))?;
    }
    Ok(())
}
