//! One walk that replaces parts of a term, for all kinds of replacement.
ghost use Rattle.std.specs.Prelude.{◌≡◌, ◌++◌, ◌∷◌, [], ℕ, List, None, nat_eq, IfOk, IfSome, OnOk};
ghost use Rattle.std.specs.HashMap.{get};
ghost use Rattle.nts_store.specs.nts_model.specs.Terms.Trees.{Tree, empty, more, kind_of};
ghost use Rattle.nts_store.specs.Growth.{tree_at, IsIn, Extends};
ghost use Rattle.nts_replacing.specs.Replacement.{IsStep, IsImage, jobs, TasksIn, building, IsFormedNode, MayHold};

use nts_store::nts_model::Label;
use nts_store::{NodeId, Nodes};
use std::alloc::{AllocError, Global};
use std::collections::HashMap;

/// What a replacer makes of a term.
#[derive(Clone, Copy)]
pub enum Step {
    /// This term stands for it.
    Done(NodeId),
    /// This node stands for it, with what stands for the node's children in place of them.
    Down(NodeId),
}

/// A way to replace parts of terms.
pub trait Replacer {
    /// What the replacer stands for, whatever store its terms are in.
    ghost Meaning: { Type 0 };

    ghost meaning: { List Tree → Self → Meaning };

    /// The replacer may be used with a store of these trees.
    ghost ready: { List Tree → Self → Type 0 };

    /// The trees that it is for.
    ghost covers: { Meaning → Tree → Type 0 };

    /// What stands for a tree.
    ghost image: { Meaning → Tree → Tree };

    /// What stands for a term, or the node whose children are to be replaced for it.
    fn step(&self, nodes: &mut Nodes, t: NodeId) -> Result<Step, AllocError>
        requires within { IsIn nodes.old t }
        requires ready { ready nodes.old self.now }
        requires covers { covers (meaning nodes.old self.now) (tree_at nodes.old t) }
        ensures extends { Extends nodes.old nodes.new }
        ensures step { IfOk result (IsStep (covers (meaning nodes.old self.now))
            (image (meaning nodes.old self.now)) nodes.new (tree_at nodes.old t)) };

    ghost ready_kept: { (a b : List Tree) (s : Self) → ready a s → Extends a b → ready b s };

    ghost meaning_kept: { (a b : List Tree) (s : Self) → ready a s → Extends a b → meaning b s ≡ meaning a s };

    ghost image_empty: { (m : Meaning) → image m empty ≡ empty };

    ghost image_more: { (m : Meaning) (a b : Tree) → image m (more a b) ≡ more (image m a) (image m b) };

    ghost covers_more: { (m : Meaning) (a b : Tree) → covers m (more a b) → covers m a × covers m b };

    ghost kind_kept: { (m : Meaning) (t : Tree) → covers m t → kind_of (image m t) ≡ kind_of t };
}

/// What is left to do. A term may be nested very deep, so this stands on the heap.
#[derive(Clone, Copy)]
pub enum Task {
    /// Find what stands for a term.
    Enter(NodeId),
    /// Make this node again, with its label over as many of the last terms found.
    Build(NodeId, Label, usize),
}

/// The term with what the replacer puts in place of its parts.
pub fn replace<R: Replacer>(
    alloc: Global,
    nodes: &mut Nodes,
    replacer: &R,
    t: NodeId,
) -> Result<NodeId, AllocError>
    requires within { IsIn nodes.old t }
    requires ready { R.ready nodes.old replacer.now }
    requires covers { R.covers (R.meaning nodes.old replacer.now) (tree_at nodes.old t) }
    ensures extends { Extends nodes.old nodes.new }
    ensures within { IfOk result (IsIn nodes.new) }
    ensures tree { IfOk result (λ r. tree_at nodes.new r ≡ R.image
        (R.meaning nodes.old replacer.now) (tree_at nodes.old t)) }
{
    if let Some(result) = replace_small(nodes, replacer, t, SMALL)? {
        return Ok(result);
    }
    let mut tasks = Vec::new(alloc);
    let mut found = Vec::new(alloc);
    let mut known = HashMap::new(alloc);
    walk(nodes, replacer, t, &mut tasks, &mut found, &mut known)
}

/// So deep a term is replaced without a walk.
const SMALL: usize = 6;

/// What stands for a term, if it is found by going down no deeper than this, through nodes of one child or two. Most terms are so
/// small, and need no lists of what is left to do.
fn replace_small<R: Replacer>(
    nodes: &mut Nodes,
    replacer: &R,
    t: NodeId,
    depth: usize,
) -> Result<Option<NodeId>, AllocError>
    requires within { IsIn nodes.old t }
    requires ready { R.ready nodes.old replacer.now }
    requires covers { R.covers (R.meaning nodes.old replacer.now) (tree_at nodes.old t) }
    ensures extends { Extends nodes.old nodes.new }
    ensures made { IfOk result (λ o. IfSome o (IsImage
        (R.image (R.meaning nodes.old replacer.now)) (tree_at nodes.old t) nodes.new)) }
{
    let node = match replacer.step(nodes, t)? {
        Step::Done(result) => return Ok(Some(result)),
        Step::Down(node) => node,
    };
    let count = nodes.child_count(node);
    if depth == 0 || count == 0 || count > 2 {
        return Ok(None);
    }
    let label = nodes.label(node);
    let first = nodes.child(node, 0);
    let Some(first) = replace_small(nodes, replacer, first, depth - 1)? else {
        return Ok(None);
    };
    if count == 1 {
        return Ok(Some(nodes.make(label, &[first])?));
    }
    let second = nodes.child(node, 1);
    let Some(second) = replace_small(nodes, replacer, second, depth - 1)? else {
        return Ok(None);
    };
    Ok(Some(nodes.make(label, &[first, second])?))
}

/// Replaces the parts of a term, with nothing to do, found or known yet.
///
/// Equal terms have one number. So the children of a node are replaced once, however often a tree
/// has it.
fn walk<R: Replacer>(
    nodes: &mut Nodes,
    replacer: &R,
    t: NodeId,
    tasks: &mut Vec<Task>,
    found: &mut Vec<NodeId>,
    known: &mut HashMap<usize, NodeId>,
) -> Result<NodeId, AllocError>
    requires within { IsIn nodes.old t }
    requires ready { R.ready nodes.old replacer.now }
    requires covers { R.covers (R.meaning nodes.old replacer.now) (tree_at nodes.old t) }
    requires idle { tasks.old.items ≡ [] }
    requires empty { found.old.items ≡ [] }
    requires unknown { (k : ℕ) → get nat_eq known.old k ≡ None }
    ensures extends { Extends nodes.old nodes.new }
    ensures within { IfOk result (IsIn nodes.new) }
    ensures tree { IfOk result (λ r. tree_at nodes.new r ≡ R.image
        (R.meaning nodes.old replacer.now) (tree_at nodes.old t)) }
{
    // How many terms are still to be entered.
    let mut waiting: usize = 1;
    tasks.push(Task::Enter(t))?;
    while let Some(task) = tasks.pop() {
        match task {
            Task::Enter(term) => {
                waiting = waiting.saturating_sub(1);
                match replacer.step(nodes, term)? {
                    Step::Done(result) => found.push(result)?,
                    Step::Down(node) => match known.get(&node.number) {
                        Some(result) => found.push(*result)?,
                        None => {
                            waiting = waiting.saturating_add(nodes.child_count(node));
                            push_node(nodes, node, tasks)?;
                        }
                    },
                }
            }
            Task::Build(node, label, count) => {
                let first = found.len().saturating_sub(count);
                let made = nodes.make(label, &found[first..])?;
                remember(known, node, made, waiting)?;
                found.truncate(first);
                found.push(made)?;
            }
        }
    }
    Ok(found[0])
}

/// Notes what stands for a node, if that node may come again.
///
/// What is made while no term waits to be entered can't come again, so it costs no memory.
fn remember(
    known: &mut HashMap<usize, NodeId>,
    node: NodeId,
    made: NodeId,
    waiting: usize,
) -> Result<(), AllocError>
    ensures held { OnOk result (MayHold (get nat_eq known.old) (get nat_eq known.new)
        node.number made) }
{
    if waiting > 0 {
        known.insert(node.number, made)?;
    }
    Ok(())
}

/// What is left to do for a node: first its children from left to right, and then the node.
pub fn push_node(nodes: &Nodes, node: NodeId, tasks: &mut Vec<Task>) -> Result<(), AllocError>
    requires within { IsIn nodes.now node }
    requires tasks { TasksIn nodes.now tasks.old.items }
    ensures within { OnOk result (TasksIn nodes.now tasks.new.items) }
    ensures formed { IsFormedNode (tree_at nodes.now node) }
    ensures jobs { OnOk result (jobs nodes.now tasks.new.items ≡ jobs nodes.now
        tasks.old.items ++ building (tree_at nodes.now node)) }
{
    let label = nodes.label(node);
    let count = nodes.child_count(node);
    tasks.push(Task::Build(node, label, count))?;
    let mut i = count;
    while i > 0 {
        i -= 1;
        tasks.push(Task::Enter(nodes.child(node, i)))?;
    }
    Ok(())
}
