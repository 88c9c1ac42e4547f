//! One walk that replaces parts of a term by how many binders stand around them.
ghost use Rattle.std.specs.Prelude.{◌≡◌, ◌++◌, ◌^◌, ◌<◌, ◌≤◌, [], ℕ, None, length, IfOk, OnOk};
ghost use Rattle.std.specs.HashMap.{get};
ghost use Rattle.nts_replacing.specs.declared.under.Place.{Place};
ghost use Rattle.nts_store.specs.nts_model.specs.Terms.Trees.{Tree, empty, more, kind_of};
ghost use Rattle.nts_store.specs.Growth.{tree_at, IsIn, Extends};
ghost use Rattle.nts_replacing.specs.Replacement.{IsFormedNode};
ghost use Rattle.nts_replacing.specs.Under.{IsStepUnder, jobs, AreTasksUnder, building};

use nts_store::nts_model::Label;
use nts_store::{NodeId, Nodes, binders_of};
use std::alloc::{AllocError, Global};
use std::collections::HashMap;

/// A term, and how many binders stand around it.
#[derive(Clone, Copy, PartialEq, Eq, Hash)]
pub struct Place {
    pub node: NodeId,
    pub depth: usize,
}

/// A way to replace parts of terms that goes by how many binders stand around them.
pub trait ReplacerUnder {
    /// What the replacer stands for.
    ghost Meaning: { Type 0 };

    ghost meaning: { Self → Meaning };

    /// The trees that it is for, under so many binders.
    ghost covers: { Meaning → ℕ → Tree → Type 0 };

    /// What stands for a tree under so many binders.
    ghost image: { Meaning → ℕ → Tree → Tree };

    /// What stands for a term under so many binders, or nothing where its children are to be replaced.
    fn step(&self, nodes: &mut Nodes, place: Place) -> Result<Option<NodeId>, AllocError>
        requires within { IsIn nodes.old place.node }
        requires shallow { place.depth < 2 ^ 63 }
        requires covers { covers (meaning self.now) place.depth (tree_at nodes.old place.node) }
        ensures extends { Extends nodes.old nodes.new }
        ensures step { IfOk result (IsStepUnder (covers (meaning self.now))
            (image (meaning self.now)) place.depth nodes.new (tree_at nodes.old place.node)) };

    ghost image_empty: { (m : Meaning) (d : ℕ) → image m d empty ≡ empty };

    ghost image_more: { (m : Meaning) (d : ℕ) (a b : Tree) → image m d (more a b) ≡ more (image m d a) (image m d b) };

    ghost covers_more: { (m : Meaning) (d : ℕ) (a b : Tree) → covers m d (more a b) → covers m d a × covers m d b };

    ghost kind_kept: { (m : Meaning) (d : ℕ) (t : Tree) → covers m d t → kind_of (image m d t) ≡ kind_of t };
}

/// What is left to do. A term may be nested very deep, so this stands on the heap.
#[derive(Clone, Copy)]
pub enum Task {
    /// Find what stands for a term.
    Enter(Place),
    /// Make this node again, with its label over as many of the last terms found.
    Build(Place, Label, usize),
}

/// The term with what the replacer puts in place of its parts.
pub fn replace_under<R: ReplacerUnder>(
    alloc: Global,
    nodes: &mut Nodes,
    replacer: &R,
    t: NodeId,
) -> Result<NodeId, AllocError>
    requires within { IsIn nodes.old t }
    requires covers { R.covers (R.meaning replacer.now) 0 (tree_at nodes.old t) }
    ensures extends { Extends nodes.old nodes.new }
    ensures within { IfOk result (IsIn nodes.new) }
    ensures tree { IfOk result (λ r. tree_at nodes.new r ≡ R.image (R.meaning replacer.now) 0
        (tree_at nodes.old t)) }
{
    let mut tasks = Vec::new(alloc);
    let mut found = Vec::new(alloc);
    let mut known = HashMap::new(alloc);
    walk(nodes, replacer, t, &mut tasks, &mut found, &mut known)
}

/// Replaces the parts of a term, with nothing to do, found or known yet.
///
/// Equal terms have one number. So a term is entered once under as many binders, however often the
/// tree has it.
fn walk<R: ReplacerUnder>(
    nodes: &mut Nodes,
    replacer: &R,
    t: NodeId,
    tasks: &mut Vec<Task>,
    found: &mut Vec<NodeId>,
    known: &mut HashMap<Place, NodeId>,
) -> Result<NodeId, AllocError>
    requires within { IsIn nodes.old t }
    requires covers { R.covers (R.meaning replacer.now) 0 (tree_at nodes.old t) }
    requires idle { tasks.old.items ≡ [] }
    requires empty { found.old.items ≡ [] }
    requires unknown { (k : Place) → get ⟦<Place as PartialEq>⟧.eq known.old k ≡ None }
    ensures extends { Extends nodes.old nodes.new }
    ensures within { IfOk result (IsIn nodes.new) }
    ensures tree { IfOk result (λ r. tree_at nodes.new r ≡ R.image (R.meaning replacer.now) 0
        (tree_at nodes.old t)) }
{
    tasks.push(Task::Enter(Place { node: t, depth: 0 }))?;
    while let Some(task) = tasks.pop() {
        match task {
            Task::Enter(place) => match known.get(&place) {
                Some(result) => found.push(*result)?,
                None => match replacer.step(nodes, place)? {
                    Some(result) => found.push(result)?,
                    None => push_node(nodes, place, tasks)?,
                },
            },
            Task::Build(place, label, count) => {
                let first = found.len().saturating_sub(count);
                let made = nodes.make(label, &found[first..])?;
                known.insert(place, made)?;
                found.truncate(first);
                found.push(made)?;
            }
        }
    }
    Ok(found[0])
}

/// What is left to do for a node: first its children from left to right, and then the node.
fn push_node(nodes: &Nodes, place: Place, tasks: &mut Vec<Task>) -> Result<(), AllocError>
    requires within { IsIn nodes.now place.node }
    requires depth { place.depth ≤ length tasks.old.items }
    requires tasks { AreTasksUnder nodes.now tasks.old.items }
    ensures tasks { OnOk result (AreTasksUnder nodes.now tasks.new.items) }
    ensures formed { IsFormedNode (tree_at nodes.now place.node) }
    ensures jobs { OnOk result (jobs nodes.now tasks.new.items ≡ jobs nodes.now
        tasks.old.items ++ building place.depth (tree_at nodes.now place.node)) }
{
    let label = nodes.label(place.node);
    let depth = place.depth + binders_of(label);
    let count = nodes.child_count(place.node);
    tasks.push(Task::Build(place, label, count))?;
    let mut i = count;
    while i > 0 {
        i -= 1;
        let node = nodes.child(place.node, i);
        tasks.push(Task::Enter(Place { node, depth }))?;
    }
    Ok(())
}
