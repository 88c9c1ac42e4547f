//! Two terms made equal under a table.
ghost use Rattle.std.specs.Prelude.{◌≡◌, ◌≢◌, ◌⊎◌, ℕ, ◌+◌, ◌++◌, ◌∷◌, [], ◌<◌, IsTrue, length, List, OnOk, OnErr, IfOk, Some, None, Ok, Err, true, false};
ghost use Rattle.nts_model.specs.Terms.Trees.{Tree, IsRow, row_length, children};
ghost use Rattle.nts_model.specs.Tables.Resolving.{Knows};
ghost use Rattle.nts_model.specs.Tables.Equations.{Reduces, Refuses, AreRelated, AreUnrelated};
ghost use Rattle.nts_model.specs.Tables.Passing.{BringsLabelsOf};
ghost use Rattle.nts_model.specs.Tables.Tying.{TiesNew};
ghost use Rattle.nts_store.specs.Growth.{tree_at, IsIn, Extends};
ghost use Rattle.nts_unify.specs.Entries.{Entries};
ghost use Rattle.nts_unify.specs.Reading.{content_of, IsLawful, LinksDescend};
ghost use Rattle.nts_unify.specs.Changing.{region_variable, is_free_region, IsLater};
ghost use Rattle.nts_unify.specs.Joining.{IsBindable};
ghost use Rattle.nts_relating.specs.Relating.{IsHeadOfTree, IsClosedHead, IsRegionOf, RegionsRelate, IsSet, Forbids, KeepsApart, AreMadeOne, VariablesRelate, CanTake, IsValid, IsPairStep, IsPairRun, PairsBring, IsMemo, IsNoted, IsPlainIn, KeepsPlain, Pushed, all_sides_at};
ghost use Rattle.nts_store.specs.declared.fault.EvalError.TheVariants.{NoSolution};
ghost use Rattle.nts_unify.specs.Entries.{KeepsHidden};

use crate::value_leaves::{Target, name_variable};
use crate::value_walk::generalize;
use indexmap::IndexSet;
use nts_model::{Label, Leaf, Relation};
use nts_store::{EvalError, NodeId, Nodes};
use nts_unify::{
    Constraint, InferCtxtInner, State, Variable, fits, infer_number, is_same, is_same_kind, join,
    join_regions, names_free_region, region_number, takes_variable,
};
use std::alloc::{AllocError, Global};

/// Two terms that are to be equal.
#[derive(Clone, Copy, PartialEq, Eq, Hash)]
pub struct Pair {
    pub left: NodeId,
    pub right: NodeId,
}

/// What a term is under a table: an inference variable that is no region and has no value, or
/// another node, which is no such variable.
#[derive(Clone, Copy)]
pub enum Head {
    Open(usize),
    Closed(NodeId),
}

/// What a term is under the table's values: for calls that relate terms pair by pair. For a variable it
/// is the root or the value, and for each other term the term itself. A type variable's value may be a
/// variable of integers or floats, which may have a value too.
///
/// An open head is a variable that can be bound. The term and its head stand for one tree.
pub fn head_of(nodes: &Nodes, table: &InferCtxtInner, t: NodeId) -> Head
    requires within { IsIn nodes.now t }
    requires knows { Knows (content_of nodes.now table.now.entries) (tree_at nodes.now t) }
    requires lawful { IsLawful nodes.now table.now.entries }
    ensures { IsHeadOfTree nodes.now table.now.entries (tree_at nodes.now t) result }
{
    let Some(n) = infer_number(nodes.label(t)) else {
        return Head::Closed(t);
    };
    match table.probe_variable(n) {
        Ok(value) => head_of(nodes, table, value),
        Err(root) => Head::Open(root),
    }
}

/// Makes two free regions equal: two variables are joined, and else it is recorded.
fn relate_regions(
    nodes: &Nodes,
    table: &mut InferCtxtInner,
    a: NodeId,
    b: NodeId,
) -> Result<(), EvalError>
    requires lawful { IsLawful nodes.now table.old.entries }
    requires left { IsRegionOf nodes.now table.old.entries a }
    requires right { IsRegionOf nodes.now table.old.entries b }
    ensures changes { KeepsHidden table.old table.new }
    ensures lawful { OnOk result (IsLawful nodes.now table.new.entries) }
    ensures related { OnOk result (RegionsRelate (content_of nodes.now table.old.entries)
        (content_of nodes.now table.new.entries) (tree_at nodes.now a) (tree_at nodes.now b)) }
    ensures no { result ≢ Err NoSolution }
    ensures full { result ≢ Err EvalError.Full }
{
    if let Some(x) = region_number(nodes.label(a)) {
        if let Some(y) = region_number(nodes.label(b)) {
            let x = table.root(x);
            let y = table.root(y);
            if x != y {
                join_regions(table, x, y)?;
            }
            return Ok(());
        }
    }
    table.constrain(Constraint {
        relation: Relation::Equal,
        left: a,
        right: b,
        is_visible: true,
    })?;
    Ok(())
}

/// Makes two variables without values equal, and says whether they were two: for calls that relate terms
/// and come to variables on both sides.
///
/// Variables of one kind are joined, and a type variable gets one of integers or floats as its value.
/// Afterwards one variable fewer has no value, and the table has the solutions that it had and in which
/// the two are one. It is `NoSolution` where neither can stand for the other, and `Memory` where a growth
/// was refused. After an error the table may have grown: the caller goes back to a snapshot.
pub fn relate_variables(
    alloc: Global,
    nodes: &mut Nodes,
    table: &mut InferCtxtInner,
    x: usize,
    y: usize,
) -> Result<bool, EvalError>
    requires lawful { IsLawful nodes.old table.old.entries }
    requires left { IsBindable table.old.entries x }
    requires right { IsBindable table.old.entries y }
    ensures extends { Extends nodes.old nodes.new }
    ensures changes { KeepsHidden table.old table.new }
    ensures related { IfOk result (VariablesRelate nodes.old nodes.new table.old.entries
        table.new.entries x y) }
    ensures no { result ≡ Err NoSolution → KeepsApart (content_of nodes.old table.old.entries) x y }
    ensures full { result ≢ Err EvalError.Full }
{
    if x == y {
        return Ok(false);
    }
    let left = table.variable(x).kind;
    let right = table.variable(y).kind;
    if is_same_kind(left, right) {
        join(table, x, y)?;
        return Ok(true);
    }
    if takes_variable(left, right) {
        bind_variable(alloc, nodes, table, x, y)?;
        return Ok(true);
    }
    if takes_variable(right, left) {
        bind_variable(alloc, nodes, table, y, x)?;
        return Ok(true);
    }
    Err(EvalError::NoSolution)
}

/// Gives a type variable without value another variable as its value, one of integers or of floats.
fn bind_variable(
    alloc: Global,
    nodes: &mut Nodes,
    table: &mut InferCtxtInner,
    x: usize,
    y: usize,
) -> Result<(), EvalError>
    requires lawful { IsLawful nodes.old table.old.entries }
    requires can { CanTake table.old.entries x y }
    ensures extends { Extends nodes.old nodes.new }
    ensures changes { KeepsHidden table.old table.new }
    ensures lawful { OnOk result (IsLawful nodes.new table.new.entries) }
    ensures made { OnOk result (AreMadeOne (content_of nodes.old table.old.entries)
        (content_of nodes.new table.new.entries) x y) }
    ensures no { result ≢ Err NoSolution }
    ensures full { result ≢ Err EvalError.Full }
{
    let target = Target {
        variable: x,
        universe: table.variable(x).universe,
        binders: 0,
    };
    let kind = table.variable(y).kind;
    let t = nodes.make(Label::Leaf(Leaf::Variable(kind, y)), &[])?;
    let mut moved = IndexSet::new(alloc);
    match name_variable(nodes, table, &mut moved, target, t, y) {
        Err(error) => Err(error),
        Ok(value) => {
            nodes.terms_are_formed();
            let variable = table.variable(x);
            let state = State::Known(value);
            table.bind(x, Variable { state, ..variable })?;
            Ok(())
        }
    }
}

/// Gives a variable that has no value, and is no region, a value that stands for the term: for calls
/// that relate terms and come to a variable on one side. The term is no inference variable, but may be
/// a region's: in place of a variable the caller passes what it stands for.
///
/// Afterwards the table has the solutions that it had and in which the variable and the term are
/// equal. Under the table they are one where the variable's universe names each region of the term,
/// and else one up to regions that the table holds equal. It is `NoSolution` where no solution makes
/// them equal: the kinds differ, the variable occurs in the term, or the term has a placeholder that
/// the universe cannot name; and it is `Memory` where a growth was refused. After an error the table
/// may have grown: the caller goes back to a snapshot.
pub fn bind(
    alloc: Global,
    nodes: &mut Nodes,
    table: &mut InferCtxtInner,
    x: usize,
    t: NodeId,
) -> Result<(), EvalError>
    requires within { IsIn nodes.old t }
    requires closed { IsClosedHead (content_of nodes.old table.old.entries) (tree_at nodes.old t)
        (tree_at nodes.old t) }
    requires lawful { IsLawful nodes.old table.old.entries }
    requires open { IsBindable table.old.entries x }
    ensures extends { Extends nodes.old nodes.new }
    ensures changes { KeepsHidden table.old table.new }
    ensures lawful { OnOk result (IsLawful nodes.new table.new.entries) }
    ensures set { OnOk result (IsSet (content_of nodes.old table.old.entries)
        (content_of nodes.new table.new.entries) x (tree_at nodes.old t)) }
    ensures no { result ≡ Err NoSolution → Forbids (content_of nodes.old table.old.entries) x
        (tree_at nodes.old t) }
    ensures full { result ≢ Err EvalError.Full }
{
    let variable = table.variable(x);
    if !fits(variable.kind, nodes.label(t)) {
        return Err(EvalError::NoSolution);
    }
    let target = Target {
        variable: x,
        universe: variable.universe,
        binders: 0,
    };
    match generalize(alloc, nodes, table, target, t) {
        Err(error) => Err(error),
        Ok(value) => {
            nodes.terms_are_formed();
            let variable = table.variable(x);
            let state = State::Known(value);
            table.bind(x, Variable { state, ..variable })?;
            Ok(())
        }
    }
}

/// Pushes the children of two nodes, so that the first ones are related first.
fn push_children(
    nodes: &Nodes,
    pairs: &mut Vec<Pair>,
    a: NodeId,
    b: NodeId,
) -> Result<(), EvalError>
    requires left { IsIn nodes.now a }
    requires right { IsIn nodes.now b }
    requires row { IsRow (children (tree_at nodes.now b)) }
    requires long { row_length (children (tree_at nodes.now a)) ≡ row_length
        (children (tree_at nodes.now b)) }
    ensures pushed { OnOk result (Pushed nodes.now pairs.old.items pairs.new.items
        (children (tree_at nodes.now a)) (children (tree_at nodes.now b)) 0) }
    ensures no { result ≢ Err NoSolution }
    ensures full { result ≢ Err EvalError.Full }
{
    let mut i = nodes.child_count(a);
    while i > 0 {
        i -= 1;
        pairs.push(Pair {
            left: nodes.child(a, i),
            right: nodes.child(b, i),
        })?;
    }
    Ok(())
}

/// Notes a pair whose children are to be related, and says whether it was not met before.
///
/// While no other pair is left, one can't come again, so it costs no memory.
fn note(pairs: &[Pair], met: &mut IndexSet<Pair>, pair: Pair) -> Result<bool, AllocError>
    ensures { IfOk result (λ is_new. IsNoted met.old.keys met.new.keys pair is_new) }
{
    if pairs.is_empty() {
        return Ok(true);
    }
    Ok(met.insert(pair)?)
}

/// Relates two nodes that are no inference variables: two free regions, or one label twice, and then
/// the children are left, once in a call.
fn relate_heads(
    nodes: &Nodes,
    table: &mut InferCtxtInner,
    pairs: &mut Vec<Pair>,
    met: &mut IndexSet<Pair>,
    pair: Pair,
    a: NodeId,
    b: NodeId,
) -> Result<(), EvalError>
    requires valid { IsValid nodes.now table.old.entries (pairs.old.items ++ pair ∷ []) }
    requires memo { IsMemo nodes.now table.old.entries (pairs.old.items ++ pair ∷ []) met.old.keys }
    requires left_in { IsIn nodes.now a }
    requires right_in { IsIn nodes.now b }
    requires left { IsClosedHead (content_of nodes.now table.old.entries)
        (tree_at nodes.now pair.left) (tree_at nodes.now a) }
    requires right { IsClosedHead (content_of nodes.now table.old.entries)
        (tree_at nodes.now pair.right) (tree_at nodes.now b) }
    ensures changes { KeepsHidden table.old table.new }
    ensures valid { OnOk result (IsValid nodes.now table.new.entries pairs.new.items) }
    ensures memo { OnOk result (IsMemo nodes.now table.new.entries pairs.new.items met.new.keys) }
    ensures step { OnOk result (IsPairStep (content_of nodes.now table.old.entries)
        (content_of nodes.now table.new.entries) (all_sides_at nodes.now
        (pairs.old.items ++ pair ∷ [])) (all_sides_at nodes.now pairs.new.items) false) }
    ensures no { result ≡ Err NoSolution →
        Refuses (content_of nodes.now table.old.entries) (all_sides_at nodes.now
        (pairs.old.items ++ pair ∷ [])) }
    ensures full { result ≢ Err EvalError.Full }
{
    if a.number == b.number {
        return Ok(());
    }
    let left = nodes.label(a);
    let right = nodes.label(b);
    if names_free_region(left) && names_free_region(right) {
        relate_regions(nodes, table, a, b)?;
        return Ok(());
    }
    if !is_same(left, right) {
        return Err(EvalError::NoSolution);
    }
    let left_count = nodes.child_count(a);
    let right_count = nodes.child_count(b);
    if left_count != right_count {
        return Err(EvalError::NoSolution);
    }
    // What was met before is one as soon as the pairs left are: its children are among those, or were
    // made one. So a pair that the terms share is not related once for each of its occurrences.
    if !note(pairs, met, Pair { left: a, right: b })? {
        return Ok(());
    }
    push_children(nodes, pairs, a, b)?;
    Ok(())
}

/// Relates one pair, and says whether a variable got a value.
fn step(
    alloc: Global,
    nodes: &mut Nodes,
    table: &mut InferCtxtInner,
    pairs: &mut Vec<Pair>,
    met: &mut IndexSet<Pair>,
    pair: Pair,
) -> Result<bool, EvalError>
    requires valid { IsValid nodes.old table.old.entries (pairs.old.items ++ pair ∷ []) }
    requires memo { IsMemo nodes.old table.old.entries (pairs.old.items ++ pair ∷ []) met.old.keys }
    ensures extends { Extends nodes.old nodes.new }
    ensures changes { KeepsHidden table.old table.new }
    ensures valid { OnOk result (IsValid nodes.new table.new.entries pairs.new.items) }
    ensures memo { OnOk result (IsMemo nodes.new table.new.entries pairs.new.items met.new.keys) }
    ensures step { IfOk result (λ bound. IsPairStep (content_of nodes.old table.old.entries)
        (content_of nodes.new table.new.entries) (all_sides_at nodes.old
        (pairs.old.items ++ pair ∷ [])) (all_sides_at nodes.new pairs.new.items) bound) }
    ensures no { result ≡ Err NoSolution →
        Refuses (content_of nodes.old table.old.entries) (all_sides_at nodes.old
        (pairs.old.items ++ pair ∷ [])) }
    ensures full { result ≢ Err EvalError.Full }
{
    let left = head_of(nodes, table, pair.left);
    let right = head_of(nodes, table, pair.right);
    match left {
        Head::Open(x) => match right {
            Head::Open(y) => relate_variables(alloc, nodes, table, x, y),
            Head::Closed(b) => match bind(alloc, nodes, table, x, b) {
                Err(error) => Err(error),
                Ok(()) => Ok(true),
            },
        },
        Head::Closed(a) => match right {
            Head::Open(y) => match bind(alloc, nodes, table, y, a) {
                Err(error) => Err(error),
                Ok(()) => Ok(true),
            },
            Head::Closed(b) => match relate_heads(nodes, table, pairs, met, pair, a, b) {
                Err(error) => Err(error),
                Ok(()) => Ok(false),
            },
        },
    }
}

/// Relates pairs until a variable gets a value or none is left, and says whether one did.
fn run(
    alloc: Global,
    nodes: &mut Nodes,
    table: &mut InferCtxtInner,
    pairs: &mut Vec<Pair>,
    met: &mut IndexSet<Pair>,
) -> Result<bool, EvalError>
    requires valid { IsValid nodes.old table.old.entries pairs.old.items }
    requires memo { IsMemo nodes.old table.old.entries pairs.old.items met.old.keys }
    ensures extends { Extends nodes.old nodes.new }
    ensures changes { KeepsHidden table.old table.new }
    ensures valid { OnOk result (IsValid nodes.new table.new.entries pairs.new.items) }
    ensures memo { OnOk result (IsMemo nodes.new table.new.entries pairs.new.items met.new.keys) }
    ensures run { IfOk result (λ bound. IsPairRun (content_of nodes.old table.old.entries)
        (content_of nodes.new table.new.entries) (all_sides_at nodes.old pairs.old.items)
        (all_sides_at nodes.new pairs.new.items) bound) }
    ensures no { result ≡ Err NoSolution →
        Refuses (content_of nodes.old table.old.entries) (all_sides_at nodes.old pairs.old.items) }
    ensures full { result ≢ Err EvalError.Full }
{
    while let Some(pair) = pairs.pop() {
        match step(alloc, nodes, table, pairs, met, pair) {
            Err(error) => return Err(error),
            Ok(bound) => {
                if bound {
                    return Ok(true);
                }
            }
        }
    }
    Ok(false)
}

/// Relates all pairs.
fn run_all(
    alloc: Global,
    nodes: &mut Nodes,
    table: &mut InferCtxtInner,
    pairs: &mut Vec<Pair>,
    met: &mut IndexSet<Pair>,
) -> Result<(), EvalError>
    requires valid { IsValid nodes.old table.old.entries pairs.old.items }
    requires memo { IsMemo nodes.old table.old.entries pairs.old.items met.old.keys }
    ensures extends { Extends nodes.old nodes.new }
    ensures changes { KeepsHidden table.old table.new }
    ensures lawful { OnOk result (IsLawful nodes.new table.new.entries) }
    ensures later { OnOk result (IsLater (content_of nodes.old table.old.entries)
        (content_of nodes.new table.new.entries)) }
    ensures reduces { OnOk result (Reduces (content_of nodes.old table.old.entries)
        (content_of nodes.new table.new.entries) (all_sides_at nodes.old pairs.old.items) []) }
    ensures brings { OnOk result (PairsBring (content_of nodes.old table.old.entries)
        (content_of nodes.new table.new.entries) (all_sides_at nodes.old pairs.old.items) []) }
    ensures ties { OnOk result (TiesNew (content_of nodes.old table.old.entries)
        (content_of nodes.new table.new.entries)) }
    ensures no { result ≡ Err NoSolution →
        Refuses (content_of nodes.old table.old.entries) (all_sides_at nodes.old pairs.old.items) }
    ensures full { result ≢ Err EvalError.Full }
{
    loop {
        match run(alloc, nodes, table, pairs, met) {
            Err(error) => return Err(error),
            Ok(bound) => {
                if !bound {
                    return Ok(());
                }
            }
        }
    }
}

/// Makes two terms equal: afterwards the table has the solutions that it had before and that make
/// them equal, no labels but its own, those of the terms and variables, and no new variables but
/// those of regions and those that are one with older ones; after an error it is as before. Where no
/// alias stands in the two, none stands afterwards in a term that had none.
pub fn relate_nodes(
    alloc: Global,
    nodes: &mut Nodes,
    table: &mut InferCtxtInner,
    a: NodeId,
    b: NodeId,
) -> Result<(), EvalError>
    requires lawful { IsLawful nodes.old table.old.entries }
    requires left_in { IsIn nodes.old a }
    requires left_known { Knows (content_of nodes.old table.old.entries) (tree_at nodes.old a) }
    requires right_in { IsIn nodes.old b }
    requires right_known { Knows (content_of nodes.old table.old.entries) (tree_at nodes.old b) }
    ensures extends { Extends nodes.old nodes.new }
    ensures lawful { IsLawful nodes.new table.new.entries }
    ensures changes { KeepsHidden table.old table.new }
    ensures later { IsLater (content_of nodes.old table.old.entries)
        (content_of nodes.new table.new.entries) }
    ensures related { OnOk result (AreRelated (content_of nodes.old table.old.entries)
        (content_of nodes.new table.new.entries) (tree_at nodes.old a) (tree_at nodes.old b)) }
    ensures labels { OnOk result (BringsLabelsOf (content_of nodes.old table.old.entries)
        (content_of nodes.new table.new.entries) (tree_at nodes.old a) (tree_at nodes.old b)) }
    ensures plain { OnOk result (IsPlainIn (content_of nodes.old table.old.entries)
        (tree_at nodes.old a) → IsPlainIn (content_of nodes.old table.old.entries)
        (tree_at nodes.old b) → KeepsPlain (content_of nodes.old table.old.entries)
        (content_of nodes.new table.new.entries)) }
    ensures ties { OnOk result (TiesNew (content_of nodes.old table.old.entries)
        (content_of nodes.new table.new.entries)) }
    ensures err { OnErr result (table.new ≡ table.old) }
    ensures no { result ≡ Err NoSolution → AreUnrelated (content_of nodes.old table.old.entries)
        (tree_at nodes.old a) (tree_at nodes.old b) }
    ensures full { result ≢ Err EvalError.Full }
{
    let mut pairs = Vec::new(alloc);
    pairs.push(Pair { left: a, right: b })?;
    let mut met = IndexSet::new(alloc);
    let snapshot = table.start_snapshot()?;
    let related = run_all(alloc, nodes, table, &mut pairs, &mut met);
    table.commit_if_ok(snapshot, related)
}
