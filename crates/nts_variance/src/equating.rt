//! Two terms related by a variance, with goals alone left: the pairs that are to be made equal are taken by the heads of their sides.
ghost use Rattle.std.specs.Prelude.{◌≡◌, ◌≢◌, ◌++◌, ℕ, List, ◌∷◌, [], true, false, OnOk, OnErr, IfOk, Err};
ghost use Rattle.nts_variance_model.specs.Variances.Leaving.{Refuses};
ghost use Rattle.nts_model.specs.declared.labels.Variance.{Variance};
ghost use Rattle.nts_model.specs.Tables.Contents.{Content};
ghost use Rattle.nts_model.specs.Tables.Resolving.{IsInfer};
ghost use Rattle.nts_store.specs.Growth.{tree_at, Extends};
ghost use Rattle.nts_terms.specs.Signatures.{variances_in};
ghost use Rattle.nts_unify.specs.Entries.{KeepsHidden};
ghost use Rattle.nts_unify.specs.Reading.{content_of, IsLawful};
ghost use Rattle.nts_relating.specs.Relating.{IsOpen};
ghost use Rattle.nts_variance.specs.Terms.{pair_at};
ghost use Rattle.nts_variance.specs.Taking.{IsPairSide, IsPair, IsTaken, IsPaid, AreDueSince};
ghost use Rattle.nts_variance.specs.Equating.{OwesAliases, AreToBeOne, AreHeads, AreInvariant, ArePairsReady, IsOn, IsEqualStep, IsEqualRun, AreRefused, GoalsRelate};

use crate::along::{Relating, Side};
use crate::heads_equal::{at_heads, bind_head, is_loose, join_variables};
use crate::splitting::{Left, Taken, push_pairs, relate_along};
use crate::taking::{owe, take_heads};
use crate::variance::opposite;
use indexmap::IndexSet;
use nts_model::Variance;
use nts_relating::Head;
use nts_store::{EvalError, NodeId, Nodes};
use nts_terms::Declarations;
use nts_unify::InferCtxtInner;
use std::alloc::Global;

/// A pair of heads: each side is a variable without a value, or another node.
#[derive(Clone, Copy)]
pub struct Heads {
    pub pair: Relating,
    pub left: Head,
    pub right: Head,
}

/// Takes a pair of two nodes: what has a closed alias on a side is left as a goal.
fn take_nodes(nodes: &Nodes, table: &mut InferCtxtInner, pair: Relating) -> Result<Taken, EvalError>
    requires lawful { IsLawful nodes.now table.old.entries }
    requires pair { IsPair nodes.now (content_of nodes.now table.old.entries) pair }
    requires left_node { IsInfer (tree_at nodes.now pair.left) → ⊥ }
    requires right_node { IsInfer (tree_at nodes.now pair.right) → ⊥ }
    ensures changes { KeepsHidden table.old table.new }
    ensures taken { (declared : ℕ → List Variance) →
        IfOk result (IsTaken declared nodes.now nodes.now table.old.entries table.new.entries
        pair) }
    ensures paid { IfOk result (IsPaid (content_of nodes.now table.old.entries)
        (content_of nodes.now table.new.entries) (pair_at nodes.now pair)) }
    ensures due { IfOk result (OwesAliases nodes.now (pair_at nodes.now pair)) }
    ensures full { result ≢ Err EvalError.Full }
    ensures no { (declared : ℕ → List Variance) → result ≡ Err EvalError.NoSolution →
        Refuses declared (content_of nodes.now table.old.entries) (pair_at nodes.now pair ∷ []) }
{
    // The nodes of a store are formed.
    nodes.terms_are_formed();
    if nodes.same(pair.left, pair.right) && !nodes.flags(pair.left).has_alias {
        return Ok(Taken::Done);
    }
    if is_loose(nodes, pair.left) {
        return owe(nodes, pair);
    }
    if is_loose(nodes, pair.right) {
        return owe(nodes, pair);
    }
    take_heads(nodes, table, pair)
}

/// Takes a pair of a variable without a value on the left and another node. A closed alias is left as a goal.
fn take_left(
    alloc: Global,
    nodes: &mut Nodes,
    declarations: &Declarations,
    table: &mut InferCtxtInner,
    pair: Relating,
    x: usize,
) -> Result<Taken, EvalError>
    requires lawful { IsLawful nodes.old table.old.entries }
    requires pair { IsPair nodes.old (content_of nodes.old table.old.entries) pair }
    requires open { IsOpen nodes.old table.old.entries (tree_at nodes.old pair.left) x }
    requires node { IsInfer (tree_at nodes.old pair.right) → ⊥ }
    ensures extends { Extends nodes.old nodes.new }
    ensures changes { KeepsHidden table.old table.new }
    ensures taken { IfOk result (IsTaken (variances_in declarations.now) nodes.old nodes.new
        table.old.entries table.new.entries pair) }
    ensures paid { IfOk result (IsPaid (content_of nodes.old table.old.entries)
        (content_of nodes.new table.new.entries) (pair_at nodes.old pair)) }
    ensures due { AreToBeOne (content_of nodes.old table.old.entries) pair.variance
        (tree_at nodes.old pair.left) (tree_at nodes.old pair.right) → IfOk result
        (OwesAliases nodes.new (pair_at nodes.old pair)) }
    ensures full { result ≢ Err EvalError.Full }
    ensures no { result ≡ Err EvalError.NoSolution →
        Refuses (variances_in declarations.now) (content_of nodes.old table.old.entries)
        (pair_at nodes.old pair ∷ []) }
{
    // The nodes of a store are formed.
    nodes.terms_are_formed();
    let Relating {
        variance,
        left,
        right,
    } = pair;
    if is_loose(nodes, right) {
        return owe(nodes, pair);
    }
    let side = Side {
        variable: x,
        is_turned: false,
    };
    bind_head(
        alloc,
        nodes,
        declarations,
        table,
        side,
        variance,
        left,
        right,
    )
}

/// The same where the variable stands on the right.
fn take_right(
    alloc: Global,
    nodes: &mut Nodes,
    declarations: &Declarations,
    table: &mut InferCtxtInner,
    pair: Relating,
    y: usize,
) -> Result<Taken, EvalError>
    requires lawful { IsLawful nodes.old table.old.entries }
    requires pair { IsPair nodes.old (content_of nodes.old table.old.entries) pair }
    requires open { IsOpen nodes.old table.old.entries (tree_at nodes.old pair.right) y }
    requires node { IsInfer (tree_at nodes.old pair.left) → ⊥ }
    ensures extends { Extends nodes.old nodes.new }
    ensures changes { KeepsHidden table.old table.new }
    ensures taken { IfOk result (IsTaken (variances_in declarations.now) nodes.old nodes.new
        table.old.entries table.new.entries pair) }
    ensures paid { IfOk result (IsPaid (content_of nodes.old table.old.entries)
        (content_of nodes.new table.new.entries) (pair_at nodes.old pair)) }
    ensures due { AreToBeOne (content_of nodes.old table.old.entries) pair.variance
        (tree_at nodes.old pair.left) (tree_at nodes.old pair.right) → IfOk result
        (OwesAliases nodes.new (pair_at nodes.old pair)) }
    ensures full { result ≢ Err EvalError.Full }
    ensures no { result ≡ Err EvalError.NoSolution →
        Refuses (variances_in declarations.now) (content_of nodes.old table.old.entries)
        (pair_at nodes.old pair ∷ []) }
{
    // The nodes of a store are formed.
    nodes.terms_are_formed();
    let Relating {
        variance,
        left,
        right,
    } = pair;
    if is_loose(nodes, left) {
        return owe(nodes, pair);
    }
    let side = Side {
        variable: y,
        is_turned: true,
    };
    let turned = opposite(variance);
    bind_head(alloc, nodes, declarations, table, side, turned, right, left)
}

/// Takes a pair of heads by the first row that fits it.
fn take_equal(
    alloc: Global,
    nodes: &mut Nodes,
    declarations: &Declarations,
    table: &mut InferCtxtInner,
    heads: Heads,
) -> Result<Taken, EvalError>
    requires lawful { IsLawful nodes.old table.old.entries }
    requires heads { AreHeads nodes.old table.old.entries heads }
    requires one { AreToBeOne (content_of nodes.old table.old.entries) heads.pair.variance
        (tree_at nodes.old heads.pair.left) (tree_at nodes.old heads.pair.right) }
    ensures extends { Extends nodes.old nodes.new }
    ensures changes { KeepsHidden table.old table.new }
    ensures taken { IfOk result (IsTaken (variances_in declarations.now) nodes.old nodes.new
        table.old.entries table.new.entries heads.pair) }
    ensures paid { IfOk result (IsPaid (content_of nodes.old table.old.entries)
        (content_of nodes.new table.new.entries) (pair_at nodes.old heads.pair)) }
    ensures due { IfOk result (OwesAliases nodes.new (pair_at nodes.old heads.pair)) }
    ensures full { result ≢ Err EvalError.Full }
    ensures no { result ≡ Err EvalError.NoSolution →
        Refuses (variances_in declarations.now) (content_of nodes.old table.old.entries)
        (pair_at nodes.old heads.pair ∷ []) }
{
    let Heads { pair, left, right } = heads;
    match left {
        Head::Open(x) => match right {
            Head::Open(y) => join_variables(alloc, nodes, table, pair, x, y),
            Head::Closed(_) => take_left(alloc, nodes, declarations, table, pair, x),
        },
        Head::Closed(_) => match right {
            Head::Open(y) => take_right(alloc, nodes, declarations, table, pair, y),
            Head::Closed(_) => take_nodes(nodes, table, pair),
        },
    }
}

/// A call under way: the pairs that are to be made equal, the newest last, those whose parts were pushed or that became goals, and the
/// goals that are left.
#[derive(Drop)]
pub struct Equals {
    pub pairs: Vec<Relating>,
    pub met: IndexSet<Relating>,
    pub goals: Vec<Relating>,
}

/// Takes one pair, and says whether a variable got a value. The parts of two nodes are pushed once in a call, and a pair becomes a
/// goal once.
fn step(
    alloc: Global,
    nodes: &mut Nodes,
    declarations: &Declarations,
    table: &mut InferCtxtInner,
    call: &mut Equals,
    pair: Relating,
) -> Result<bool, EvalError>
    requires ready { ArePairsReady nodes.old table.old.entries (call.old.pairs.items ++ pair ∷ []) }
    requires one { AreToBeOne (content_of nodes.old table.old.entries) pair.variance
        (tree_at nodes.old pair.left) (tree_at nodes.old pair.right) }
    ensures extends { Extends nodes.old nodes.new }
    ensures changes { KeepsHidden table.old table.new }
    ensures step { IfOk result (IsEqualStep (variances_in declarations.now) nodes.old nodes.new
        table.old.entries table.new.entries call.old.pairs.items pair call.new.pairs.items
        call.old.met.keys call.new.met.keys call.old.goals.items call.new.goals.items) }
    ensures due { (c : Content) →
        AreDueSince c nodes.old table.old.entries [] call.old.goals.items → OnOk result
        (AreDueSince c nodes.new table.new.entries [] call.new.goals.items) }
    ensures full { result ≢ Err EvalError.Full }
    ensures no { result ≡ Err EvalError.NoSolution →
        Refuses (variances_in declarations.now) (content_of nodes.old table.old.entries)
        (pair_at nodes.old pair ∷ []) }
{
    let heads = at_heads(nodes, table, pair);
    let pair = heads.pair;
    match take_equal(alloc, nodes, declarations, table, heads) {
        Err(error) => Err(error),
        Ok(Taken::Done) => Ok(false),
        Ok(Taken::Equal) => Ok(false),
        Ok(Taken::Owed) => {
            if !call.met.insert(pair)? {
                return Ok(false);
            }
            call.goals.push(pair)?;
            Ok(false)
        }
        Ok(Taken::Bound(goals)) => {
            call.goals.extend_from_slice(&goals)?;
            Ok(true)
        }
        Ok(Taken::Parts) => {
            if !call.met.insert(pair)? {
                return Ok(false);
            }
            push_pairs(nodes, declarations, &mut call.pairs, pair)?;
            Ok(false)
        }
    }
}

/// Takes pairs until a variable gets a value or none is left, and says whether one did.
fn run(
    alloc: Global,
    nodes: &mut Nodes,
    declarations: &Declarations,
    table: &mut InferCtxtInner,
    call: &mut Equals,
) -> Result<bool, EvalError>
    requires ready { ArePairsReady nodes.old table.old.entries call.old.pairs.items }
    requires invariant { AreInvariant call.old.pairs.items }
    ensures extends { Extends nodes.old nodes.new }
    ensures changes { KeepsHidden table.old table.new }
    ensures run { IfOk result (IsEqualRun (variances_in declarations.now) nodes.old nodes.new
        table.old.entries table.new.entries call.old.pairs.items call.new.pairs.items
        call.old.met.keys call.new.met.keys call.old.goals.items call.new.goals.items) }
    ensures due { (c : Content) →
        AreDueSince c nodes.old table.old.entries [] call.old.goals.items → OnOk result
        (AreDueSince c nodes.new table.new.entries [] call.new.goals.items) }
    ensures full { result ≢ Err EvalError.Full }
    ensures no { result ≡ Err EvalError.NoSolution →
        AreRefused (variances_in declarations.now) nodes.old table.old.entries call.old.pairs.items
        call.old.met.keys call.old.goals.items }
{
    while let Some(pair) = call.pairs.pop() {
        match step(alloc, nodes, declarations, table, call, pair) {
            Err(error) => return Err(error),
            Ok(bound) => {
                if bound {
                    return Ok(true);
                }
            }
        }
    }
    Ok(false)
}

/// Takes all pairs.
fn run_all(
    alloc: Global,
    nodes: &mut Nodes,
    declarations: &Declarations,
    table: &mut InferCtxtInner,
    call: &mut Equals,
) -> Result<(), EvalError>
    requires ready { ArePairsReady nodes.old table.old.entries call.old.pairs.items }
    requires invariant { AreInvariant call.old.pairs.items }
    ensures extends { Extends nodes.old nodes.new }
    ensures changes { KeepsHidden table.old table.new }
    ensures all { OnOk result (IsOn (variances_in declarations.now) nodes.old nodes.new
        table.old.entries table.new.entries call.old.pairs.items [] call.old.met.keys
        call.new.met.keys call.old.goals.items call.new.goals.items) }
    ensures due { (c : Content) →
        AreDueSince c nodes.old table.old.entries [] call.old.goals.items → OnOk result
        (AreDueSince c nodes.new table.new.entries [] call.new.goals.items) }
    ensures full { result ≢ Err EvalError.Full }
    ensures no { result ≡ Err EvalError.NoSolution →
        AreRefused (variances_in declarations.now) nodes.old table.old.entries call.old.pairs.items
        call.old.met.keys call.old.goals.items }
{
    loop {
        match run(alloc, nodes, declarations, table, call) {
            Err(error) => return Err(error),
            Ok(bound) => {
                if !bound {
                    return Ok(());
                }
            }
        }
    }
}

/// Relates a pair until goals alone are left. After an error the table may have grown.
pub fn relate_pair(
    alloc: Global,
    nodes: &mut Nodes,
    declarations: &Declarations,
    table: &mut InferCtxtInner,
    root: Relating,
) -> Result<Vec<Relating>, EvalError>
    requires lawful { IsLawful nodes.old table.old.entries }
    requires pair { IsPair nodes.old (content_of nodes.old table.old.entries) root }
    ensures extends { Extends nodes.old nodes.new }
    ensures changes { KeepsHidden table.old table.new }
    ensures lawful { OnOk result (IsLawful nodes.new table.new.entries) }
    ensures related { IfOk result (λ gs. GoalsRelate (variances_in declarations.now) nodes.old
        nodes.new table.old.entries table.new.entries root gs.items) }
    ensures full { result ≢ Err EvalError.Full }
    ensures no { result ≡ Err EvalError.NoSolution →
        Refuses (variances_in declarations.now) (content_of nodes.old table.old.entries)
        (pair_at nodes.old root ∷ []) }
{
    let Relating {
        variance,
        left,
        right,
    } = root;
    let Left { mut equal, goals } = match relate_along(
        alloc,
        nodes,
        declarations,
        table,
        variance,
        left,
        right,
    ) {
        Err(error) => return Err(error),
        Ok(left) => left,
    };
    let mut call = Equals {
        pairs: Vec::new(alloc),
        met: IndexSet::new(alloc),
        goals,
    };
    // Each pair is taken once by the variance that it has; its parts are invariant.
    while let Some(pair) = equal.pop() {
        match step(alloc, nodes, declarations, table, &mut call, pair) {
            Err(error) => return Err(error),
            Ok(_) => {}
        }
        call.met.clear();
    }
    match run_all(alloc, nodes, declarations, table, &mut call) {
        Err(error) => return Err(error),
        Ok(()) => {}
    }
    let Equals { goals, .. } = call;
    Ok(goals)
}

/// Relates two terms by a variance, each a type, a region or a const of the store and the table: what rests on aliases without
/// escaping bound variables, and on type variables that have a value or stand on both sides of a pair that is not invariant, is left
/// as goals, and all else is done. Where no variable of the two had a value, a goal is left for a variable that got its value since.
///
/// Under each later table in which the goals are answered the two are related; and each settled solution in which they settle goes
/// on to one of the table in which the goals settle. It is `NoSolution` where they settle in none, and `Memory` where a growth was
/// refused. After an error the table is as before.
pub fn relate_terms(
    alloc: Global,
    nodes: &mut Nodes,
    declarations: &Declarations,
    table: &mut InferCtxtInner,
    variance: Variance,
    left: NodeId,
    right: NodeId,
) -> Result<Vec<Relating>, EvalError>
    requires lawful { IsLawful nodes.old table.old.entries }
    requires left { IsPairSide nodes.old (content_of nodes.old table.old.entries) left }
    requires right { IsPairSide nodes.old (content_of nodes.old table.old.entries) right }
    ensures extends { Extends nodes.old nodes.new }
    ensures changes { KeepsHidden table.old table.new }
    ensures lawful { IsLawful nodes.new table.new.entries }
    ensures related { IfOk result (λ gs. GoalsRelate (variances_in declarations.now) nodes.old
        nodes.new table.old.entries table.new.entries
        (record { variance = variance; left = left; right = right }) gs.items) }
    ensures err { OnErr result (table.new ≡ table.old) }
    ensures full { result ≢ Err EvalError.Full }
    ensures no { result ≡ Err EvalError.NoSolution →
        Refuses (variances_in declarations.now) (content_of nodes.old table.old.entries)
        (pair_at nodes.old (record { variance = variance; left = left; right = right }) ∷ []) }
{
    let root = Relating {
        variance,
        left,
        right,
    };
    let snapshot = table.start_snapshot()?;
    let related = relate_pair(alloc, nodes, declarations, table, root);
    table.commit_if_ok(snapshot, related)
}
