//! The walk that makes the value of a variable.
ghost use Rattle.std.specs.Prelude.{◌≡◌, ◌≢◌, ◌+◌, ◌++◌, ◌∷◌, [], ◌^◌, ◌<◌, ◌≤◌, length, OnOk, IfOk, Some, Err};
ghost use Rattle.nts_model.specs.declared.labels.VariableKind.TheVariants as kind;
ghost use Rattle.nts_model.specs.Tables.Contents.{kind_at};
ghost use Rattle.nts_model.specs.Terms.Trees.{children};
ghost use Rattle.nts_model.specs.Tables.Resolving.{Knows};
ghost use Rattle.nts_store.specs.Growth.{tree_at, IsIn, Extends};
ghost use Rattle.nts_relating.specs.declared.value_walk.Task.TheVariants as task;
ghost use Rattle.nts_unify.specs.Reading.{content_of, IsLawful};
ghost use Rattle.nts_relating.specs.Relating.{Generalized, Blocks};
ghost use Rattle.nts_relating.specs.Parts.{IsGeneralizingLook, IsEntered, IsGeneralizingWalk, IsGeneralizingTurn, Has, made_at, inner};
ghost use Rattle.nts_unify.specs.Entries.{KeepsHidden};

use crate::value_leaves::{Target, is_allowed, is_settled, name_region, name_variable};
use indexmap::IndexSet;
use nts_store::{EvalError, NodeId, Nodes, binders_of};
use nts_unify::{InferCtxtInner, infer_number, names_free_region};
use std::alloc::Global;
use std::collections::HashMap;

/// A part of the term that a value is made for, and how many binders stand around it.
#[derive(Clone, Copy, PartialEq, Eq, Hash)]
pub struct Part {
    pub term: NodeId,
    pub binders: usize,
}

/// What is left to do. A term may be nested very deep, so this stands on the heap.
#[derive(Clone, Copy)]
pub enum Task {
    /// Find what stands for a part.
    Enter(Part),
    /// Make the node again over what stands for its children.
    Build(Part),
    /// What stands for this value of the variable stands for the variable.
    Pass(Part, NodeId),
}

/// What a part is.
#[derive(Clone, Copy)]
pub enum Look {
    /// This term stands for it.
    Made(NodeId),
    /// A variable with this value.
    Value(NodeId),
    /// A node that is to be made again.
    Node,
}

/// A walk under way: the part that it began with, what is left to do, what stands for the parts so
/// far, and the variables that came down to the target's universe.
#[derive(Drop)]
pub struct Walk {
    pub root: Part,
    pub tasks: Vec<Task>,
    pub made: HashMap<Part, NodeId>,
    pub moved: IndexSet<usize>,
}

/// What a part is, with a term for it where it is a leaf or is its own value.
fn look_at(
    nodes: &mut Nodes,
    table: &mut InferCtxtInner,
    moved: &mut IndexSet<usize>,
    target: Target,
    t: NodeId,
) -> Result<Look, EvalError>
    requires within { IsIn nodes.old t }
    requires knows { Knows (content_of nodes.old table.old.entries) (tree_at nodes.old t) }
    requires lawful { IsLawful nodes.old table.old.entries }
    requires known { target.variable < length table.old.entries.variables }
    requires named { target.universe ≤ table.old.entries.universe }
    requires no_region { kind_at (content_of nodes.old table.old.entries) target.variable ≢ Some
        kind.Region }
    ensures extends { Extends nodes.old nodes.new }
    ensures changes { KeepsHidden table.old table.new }
    ensures lawful { OnOk result (IsLawful nodes.new table.new.entries) }
    ensures look { IfOk result (IsGeneralizingLook nodes.old nodes.new table.old.entries
        table.new.entries target.variable target.universe target.binders t) }
    ensures full { result ≢ Err EvalError.Full }
    ensures no { result ≡ Err EvalError.NoSolution →
        Blocks (content_of nodes.old table.old.entries) target.variable target.universe
        target.binders (tree_at nodes.old t) }
{
    let label = nodes.label(t);
    if let Some(n) = infer_number(label) {
        match table.probe_variable(n) {
            Ok(value) => return Ok(Look::Value(value)),
            Err(root) => {
                if root == target.variable {
                    return Err(EvalError::NoSolution);
                }
                let made = name_variable(nodes, table, moved, target, t, root)?;
                return Ok(Look::Made(made));
            }
        }
    }
    if is_settled(nodes.flags(t), target.binders) {
        return Ok(Look::Made(t));
    }
    if names_free_region(label) {
        let made = name_region(nodes, table, moved, target, t)?;
        return Ok(Look::Made(made));
    }
    if !is_allowed(target, label) {
        return Err(EvalError::NoSolution);
    }
    Ok(Look::Node)
}

/// What is left to do for a node: first its children from left to right, and then the node.
fn push_node(nodes: &Nodes, tasks: &mut Vec<Task>, part: Part) -> Result<(), EvalError>
    requires within { IsIn nodes.now part.term }
    requires room { part.binders + part.term.number < 2 ^ 64 }
    ensures entered { OnOk result (IsEntered nodes.now (children (tree_at nodes.now part.term))
        (inner part.binders (tree_at nodes.now part.term)) part.term.number 0
        (tasks.old.items ++ task.Build part ∷ []) tasks.new.items) }
    ensures full { result ≢ Err EvalError.Full }
    ensures no { result ≢ Err EvalError.NoSolution }
{
    let label = nodes.label(part.term);
    tasks.push(Task::Build(part))?;
    let mut i = nodes.child_count(part.term);
    while i > 0 {
        i -= 1;
        let term = nodes.child(part.term, i);
        let binders = part.binders + binders_of(label);
        tasks.push(Task::Enter(Part { term, binders }))?;
    }
    Ok(())
}

/// Finds what stands for a part, or leaves what it stands on to be found first.
fn enter(
    nodes: &mut Nodes,
    table: &mut InferCtxtInner,
    walk: &mut Walk,
    target: Target,
    part: Part,
) -> Result<(), EvalError>
    requires walk { IsGeneralizingWalk nodes.old table.old.entries target.variable target.universe
        walk.old.root (walk.old.tasks.items ++ task.Enter part ∷ []) (made_at walk.old.made) }
    ensures extends { Extends nodes.old nodes.new }
    ensures changes { KeepsHidden table.old table.new }
    ensures root { walk.new.root ≡ walk.old.root }
    ensures turn { OnOk result (IsGeneralizingTurn nodes.old nodes.new table.old.entries
        table.new.entries target.variable target.universe walk.old.root
        (walk.old.tasks.items ++ task.Enter part ∷ []) walk.new.tasks.items
        (made_at walk.new.made)) }
    ensures full { result ≢ Err EvalError.Full }
    ensures no { result ≡ Err EvalError.NoSolution →
        Blocks (content_of nodes.old table.old.entries) target.variable target.universe
        walk.old.root.binders (tree_at nodes.old walk.old.root.term) }
{
    // Equal terms have one number. So a node is entered once under as many binders, however often
    // the term has it.
    if walk.made.contains_key(&part) {
        return Ok(());
    }
    let target = Target {
        binders: part.binders,
        ..target
    };
    match look_at(nodes, table, &mut walk.moved, target, part.term) {
        Err(error) => Err(error),
        Ok(Look::Made(made)) => {
            walk.made.insert(part, made)?;
            Ok(())
        }
        Ok(Look::Value(value)) => {
            walk.tasks.push(Task::Pass(part, value))?;
            let term = value;
            walk.tasks.push(Task::Enter(Part { term, binders: 0 }))?;
            Ok(())
        }
        Ok(Look::Node) => push_node(nodes, &mut walk.tasks, part),
    }
}

/// What stands for a part.
fn made_for(made: &HashMap<Part, NodeId>, part: Part) -> NodeId
    requires { Has (made_at made.now) part }
    ensures { made_at made.now part ≡ Some result }
{
    match made.get(&part) {
        Some(found) => *found,
        None => unreachable!(),
    }
}

/// Makes a node again over what stands for its children. The table stays as it is.
fn build(
    alloc: Global,
    nodes: &mut Nodes,
    table: &InferCtxtInner,
    walk: &mut Walk,
    target: Target,
    part: Part,
) -> Result<(), EvalError>
    requires walk { IsGeneralizingWalk nodes.old table.now.entries target.variable target.universe
        walk.old.root (walk.old.tasks.items ++ task.Build part ∷ []) (made_at walk.old.made) }
    ensures extends { Extends nodes.old nodes.new }
    ensures root { walk.new.root ≡ walk.old.root }
    ensures turn { OnOk result (IsGeneralizingTurn nodes.old nodes.new table.now.entries
        table.now.entries target.variable target.universe walk.old.root
        (walk.old.tasks.items ++ task.Build part ∷ []) walk.new.tasks.items
        (made_at walk.new.made)) }
    ensures full { result ≢ Err EvalError.Full }
    ensures no { result ≢ Err EvalError.NoSolution }
{
    // Equal terms have one number, so what was made for a child is found by the child's number.
    nodes.terms_are_formed();
    let label = nodes.label(part.term);
    let mut children = Vec::new(alloc);
    for i in 0..nodes.child_count(part.term) {
        let term = nodes.child(part.term, i);
        let binders = part.binders + binders_of(label);
        children.push(made_for(&walk.made, Part { term, binders }))?;
    }
    let made = nodes.make(label, &children)?;
    walk.made.insert(part, made)?;
    Ok(())
}

/// Does one task.
fn step(
    alloc: Global,
    nodes: &mut Nodes,
    table: &mut InferCtxtInner,
    walk: &mut Walk,
    target: Target,
    task: Task,
) -> Result<(), EvalError>
    requires walk { IsGeneralizingWalk nodes.old table.old.entries target.variable target.universe
        walk.old.root (walk.old.tasks.items ++ task ∷ []) (made_at walk.old.made) }
    ensures extends { Extends nodes.old nodes.new }
    ensures changes { KeepsHidden table.old table.new }
    ensures root { walk.new.root ≡ walk.old.root }
    ensures turn { OnOk result (IsGeneralizingTurn nodes.old nodes.new table.old.entries
        table.new.entries target.variable target.universe walk.old.root
        (walk.old.tasks.items ++ task ∷ []) walk.new.tasks.items (made_at walk.new.made)) }
    ensures full { result ≢ Err EvalError.Full }
    ensures no { result ≡ Err EvalError.NoSolution →
        Blocks (content_of nodes.old table.old.entries) target.variable target.universe
        walk.old.root.binders (tree_at nodes.old walk.old.root.term) }
{
    match task {
        Task::Enter(part) => enter(nodes, table, walk, target, part),
        Task::Build(part) => build(alloc, nodes, table, walk, target, part),
        Task::Pass(part, value) => {
            let made = made_for(
                &walk.made,
                Part {
                    term: value,
                    binders: 0,
                },
            );
            walk.made.insert(part, made)?;
            Ok(())
        }
    }
}

/// A value for the target's variable that stands for the term, where the variable is to be bound to
/// it, as `bind` does, or to a term that is made of it. In the value are leaves that the target's
/// universe names alone, and not the variable: a variable or a placeholder region that the universe
/// cannot name has a fresh variable in its place, which is joined with it or recorded as equal to it.
///
/// Afterwards the table has the solutions that it had in which the universe names the term, and no
/// others but such as it had. Where the universe names each region of the term under the table, the
/// value is one with the term, and else one up to regions that the table holds equal.
///
/// It is `NoSolution` where the variable occurs in the term, or a placeholder that is no region and
/// that the universe cannot name, or a bound variable that passes the binders: so in each solution in
/// which the universe names the term and the binders close it, the variable is smaller than the term,
/// or no larger where the term is a variable. It is `Memory` where a growth was refused. After an
/// error the table may have grown: the caller goes back to a snapshot.
pub fn generalize(
    alloc: Global,
    nodes: &mut Nodes,
    table: &mut InferCtxtInner,
    target: Target,
    t: NodeId,
) -> Result<NodeId, EvalError>
    requires within { IsIn nodes.old t }
    requires knows { Knows (content_of nodes.old table.old.entries) (tree_at nodes.old t) }
    requires lawful { IsLawful nodes.old table.old.entries }
    requires known { target.variable < length table.old.entries.variables }
    requires named { target.universe ≤ table.old.entries.universe }
    requires no_region { kind_at (content_of nodes.old table.old.entries) target.variable ≢ Some
        kind.Region }
    requires room { target.binders + t.number < 2 ^ 64 }
    ensures extends { Extends nodes.old nodes.new }
    ensures changes { KeepsHidden table.old table.new }
    ensures within { IfOk result (λ r. IsIn nodes.new r) }
    ensures lawful { OnOk result (IsLawful nodes.new table.new.entries) }
    ensures generalized { IfOk result (λ r. Generalized (content_of nodes.old table.old.entries)
        (content_of nodes.new table.new.entries) target.variable target.universe target.binders
        (tree_at nodes.old t) (tree_at nodes.new r)) }
    ensures full { result ≢ Err EvalError.Full }
    ensures no { result ≡ Err EvalError.NoSolution →
        Blocks (content_of nodes.old table.old.entries) target.variable target.universe
        target.binders (tree_at nodes.old t) }
{
    // Many terms are their own values, and then nothing is allocated for a walk.
    if is_settled(nodes.flags(t), target.binders) {
        return Ok(t);
    }
    let root = Part {
        term: t,
        binders: target.binders,
    };
    let mut walk = Walk {
        root,
        tasks: Vec::new(alloc),
        made: HashMap::new(alloc),
        moved: IndexSet::new(alloc),
    };
    walk.tasks.push(Task::Enter(root))?;
    while let Some(task) = walk.tasks.pop() {
        match step(alloc, nodes, table, &mut walk, target, task) {
            Err(error) => return Err(error),
            Ok(()) => {}
        }
    }
    Ok(made_for(&walk.made, root))
}
