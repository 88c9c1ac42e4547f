//! Two terms related by a variance, pair by pair: what rests on aliases, or on type variables that may vary, is left.
ghost use Rattle.std.specs.Prelude.{◌≡◌, ◌≢◌, ◌<◌, ◌++◌, List, ◌∷◌, [], true, false, OnOk, OnErr, IfOk, Some, Err};
ghost use Rattle.nts_variance_model.specs.Variances.Leaving.{Refuses};
ghost use Rattle.nts_model.specs.declared.labels.Variance.TheVariants as variances;
ghost use Rattle.nts_model.specs.declared.labels.Variance.{Variance};
ghost use Rattle.nts_model.specs.Terms.Trees.{Tree, any_label, is_alias};
ghost use Rattle.nts_model.specs.Tables.Contents.{Content};
ghost use Rattle.nts_store.specs.Growth.{tree_at, IsIn, Extends};
ghost use Rattle.nts_terms.specs.Signatures.{variances_in};
ghost use Rattle.nts_unify.specs.Entries.{Entries, KeepsHidden};
ghost use Rattle.nts_unify.specs.Reading.{content_of, IsLawful};
ghost use Rattle.nts_variance.specs.Steps.{stacked};
ghost use Rattle.nts_variance.specs.Terms.{pair_at};
ghost use Rattle.nts_variance.specs.Taking.{left_sizes, IsPairSide, IsPair, IsTaken, AreOfOneForm, ArePairsLeft, AreDueSince, ArePartsPaired, IsLeft, IsCall};

use crate::along::{Relating, Side};
use crate::parts::{holder, variance_of_part};
use crate::taking::{equate, is_owed, owe, take_heads, take_variable, take_variables};
use crate::variance::{opposite, times};
use indexmap::IndexSet;
use nts_model::Variance;
use nts_store::{EvalError, NodeId, Nodes};
use nts_terms::Declarations;
use nts_unify::{InferCtxtInner, infer_number};
use std::alloc::Global;

/// What relating two terms by a variance leaves: pairs that are to be made equal, and goals. A pair is left where it is invariant and
/// a side has aliases, or both have inference variables, whose values might; and where a variable of a const or a number stands
/// on a side. By whatever variance it has, its sides are to be one.
#[derive(Drop)]
pub struct Left {
    pub equal: Vec<Relating>,
    pub goals: Vec<Relating>,
}

/// How a pair is taken.
#[derive(Drop)]
pub enum Taken {
    /// Nothing is left of it.
    Done,
    /// It is left for later.
    Equal,
    /// It is left as a goal.
    Owed,
    /// A variable was made one with what stands for the other side, and these goals are left.
    Bound(Vec<Relating>),
    /// The pairs of the parts are left.
    Parts,
}

/// Takes a pair by the first row that fits it.
fn take(
    alloc: Global,
    nodes: &mut Nodes,
    declarations: &Declarations,
    table: &mut InferCtxtInner,
    pair: Relating,
) -> Result<Taken, EvalError>
    requires lawful { IsLawful nodes.old table.old.entries }
    requires pair { IsPair nodes.old (content_of nodes.old table.old.entries) pair }
    ensures extends { Extends nodes.old nodes.new }
    ensures changes { KeepsHidden table.old table.new }
    ensures taken { IfOk result (IsTaken (variances_in declarations.now) nodes.old nodes.new
        table.old.entries table.new.entries pair) }
    ensures full { result ≢ Err EvalError.Full }
    ensures no { result ≡ Err EvalError.NoSolution →
        Refuses (variances_in declarations.now) (content_of nodes.old table.old.entries)
        (pair_at nodes.old pair ∷ []) }
{
    if nodes.same(pair.left, pair.right) && !nodes.flags(pair.left).has_alias {
        return Ok(Taken::Done);
    }
    if pair.variance == Variance::Invariant {
        return equate(alloc, nodes, table, pair);
    }
    take_varying(alloc, nodes, declarations, table, pair)
}

/// Takes a pair that is not invariant: two terms, or one that has aliases.
fn take_varying(
    alloc: Global,
    nodes: &mut Nodes,
    declarations: &Declarations,
    table: &mut InferCtxtInner,
    pair: Relating,
) -> Result<Taken, EvalError>
    requires lawful { IsLawful nodes.old table.old.entries }
    requires pair { IsPair nodes.old (content_of nodes.old table.old.entries) pair }
    requires varies { pair.variance ≢ variances.Invariant }
    ensures extends { Extends nodes.old nodes.new }
    ensures changes { KeepsHidden table.old table.new }
    ensures taken { (tree_at nodes.old pair.left ≡ tree_at nodes.old pair.right →
        any_label is_alias (tree_at nodes.old pair.left) ≡ true) →
        IfOk result (IsTaken (variances_in declarations.now) nodes.old nodes.new
        table.old.entries table.new.entries pair) }
    ensures full { result ≢ Err EvalError.Full }
    ensures no { result ≡ Err EvalError.NoSolution →
        Refuses (variances_in declarations.now) (content_of nodes.old table.old.entries)
        (pair_at nodes.old pair ∷ []) }
{
    // The nodes of a store are formed.
    nodes.terms_are_formed();
    let Relating {
        variance,
        left,
        right,
    } = pair;
    if is_owed(nodes, table, left) {
        return owe(nodes, pair);
    }
    if is_owed(nodes, table, right) {
        return owe(nodes, pair);
    }
    match infer_number(nodes.label(left)) {
        Some(x) => match infer_number(nodes.label(right)) {
            Some(_) => Ok(take_variables(nodes, table, pair)),
            None => {
                let side = Side {
                    variable: x,
                    is_turned: false,
                };
                take_variable(
                    alloc,
                    nodes,
                    declarations,
                    table,
                    pair,
                    side,
                    variance,
                    left,
                    right,
                )
            }
        },
        None => match infer_number(nodes.label(right)) {
            Some(y) => {
                let side = Side {
                    variable: y,
                    is_turned: true,
                };
                let turned = opposite(variance);
                take_variable(
                    alloc,
                    nodes,
                    declarations,
                    table,
                    pair,
                    side,
                    turned,
                    right,
                    left,
                )
            }
            None => take_heads(nodes, table, pair),
        },
    }
}

/// Pushes the pairs of the parts of two nodes, so that the first ones are taken first.
pub fn push_pairs(
    nodes: &Nodes,
    declarations: &Declarations,
    pairs: &mut Vec<Relating>,
    pair: Relating,
) -> Result<(), EvalError>
    requires left { IsIn nodes.now pair.left }
    requires right { IsIn nodes.now pair.right }
    requires form { AreOfOneForm (tree_at nodes.now pair.left) (tree_at nodes.now pair.right) }
    ensures pushed { OnOk result (ArePartsPaired (variances_in declarations.now) nodes.now pair
        pairs.old.items pairs.new.items) }
    ensures full { result ≢ Err EvalError.Full }
    ensures no { result ≢ Err EvalError.NoSolution }
{
    let label = nodes.label(pair.left);
    let left = holder(nodes, pair.left);
    let right = holder(nodes, pair.right);
    let count = nodes.child_count(left);
    let mut i = count;
    while i > 0 {
        i -= 1;
        let argument = variance_of_part(declarations, label, i, count);
        pairs.push(Relating {
            variance: times(pair.variance, argument),
            left: nodes.child(left, i),
            right: nodes.child(right, i),
        })?;
    }
    Ok(())
}

/// A call under way: the pairs that are to be taken, the newest last, those whose parts were pushed or that are left, and what is
/// left.
#[derive(Drop)]
pub struct Call {
    pub pairs: Vec<Relating>,
    pub met: IndexSet<Relating>,
    pub equal: Vec<Relating>,
    pub goals: Vec<Relating>,
}

/// Takes one pair. The parts of two nodes are pushed once in a call, and a pair is left once: what was met before is related as soon
/// as what is left is.
fn step(
    alloc: Global,
    nodes: &mut Nodes,
    declarations: &Declarations,
    table: &mut InferCtxtInner,
    call: &mut Call,
    pair: Relating,
) -> Result<(), EvalError>
    requires lawful { IsLawful nodes.old table.old.entries }
    requires pairs { ArePairsLeft nodes.old (content_of nodes.old table.old.entries)
        (call.old.pairs.items ++ pair ∷ []) }
    ensures extends { Extends nodes.old nodes.new }
    ensures changes { KeepsHidden table.old table.new }
    ensures call { (ts : List Tree) (e : Entries) (p : Relating) →
        IsCall (variances_in declarations.now) ts nodes.old e table.old.entries p
        (call.old.pairs.items ++ pair ∷ []) call.old.met.keys call.old.equal.items
        call.old.goals.items →
        OnOk result (IsCall (variances_in declarations.now) ts nodes.new e table.new.entries p
        call.new.pairs.items call.new.met.keys call.new.equal.items call.new.goals.items) }
    ensures due { (c : Content) → AreDueSince c nodes.old table.old.entries (call.old.pairs.items
        ++ pair ∷ []) call.old.goals.items → OnOk result (AreDueSince c nodes.new
        table.new.entries call.new.pairs.items call.new.goals.items) }
    ensures less { OnOk result (left_sizes
        (stacked (pair_at nodes.new) call.new.pairs.items) < left_sizes (stacked (pair_at nodes.old)
        (call.old.pairs.items ++ pair ∷ []))) }
    ensures full { result ≢ Err EvalError.Full }
    ensures no { result ≡ Err EvalError.NoSolution →
        Refuses (variances_in declarations.now) (content_of nodes.old table.old.entries)
        (pair_at nodes.old pair ∷ []) }
{
    match take(alloc, nodes, declarations, table, pair) {
        Err(error) => Err(error),
        Ok(Taken::Done) => Ok(()),
        Ok(Taken::Equal) => {
            if !call.met.insert(pair)? {
                return Ok(());
            }
            call.equal.push(pair)?;
            Ok(())
        }
        Ok(Taken::Owed) => {
            if !call.met.insert(pair)? {
                return Ok(());
            }
            call.goals.push(pair)?;
            Ok(())
        }
        Ok(Taken::Bound(goals)) => {
            call.goals.extend_from_slice(&goals)?;
            Ok(())
        }
        Ok(Taken::Parts) => {
            if !call.met.insert(pair)? {
                return Ok(());
            }
            push_pairs(nodes, declarations, &mut call.pairs, pair)
        }
    }
}

/// Takes pairs until none is left to take. After an error the table may have grown.
fn run(
    alloc: Global,
    nodes: &mut Nodes,
    declarations: &Declarations,
    table: &mut InferCtxtInner,
    root: Relating,
) -> Result<Left, EvalError>
    requires lawful { IsLawful nodes.old table.old.entries }
    requires pair { IsPair nodes.old (content_of nodes.old table.old.entries) root }
    ensures extends { Extends nodes.old nodes.new }
    ensures changes { KeepsHidden table.old table.new }
    ensures lawful { OnOk result (IsLawful nodes.new table.new.entries) }
    ensures left { IfOk result (λ r. IsLeft (variances_in declarations.now) nodes.old nodes.new
        table.old.entries table.new.entries root r.equal.items r.goals.items) }
    ensures full { result ≢ Err EvalError.Full }
    ensures no { result ≡ Err EvalError.NoSolution →
        Refuses (variances_in declarations.now) (content_of nodes.old table.old.entries)
        (pair_at nodes.old root ∷ []) }
{
    let mut call = Call {
        pairs: Vec::new(alloc),
        met: IndexSet::new(alloc),
        equal: Vec::new(alloc),
        goals: Vec::new(alloc),
    };
    call.pairs.push(root)?;
    while let Some(pair) = call.pairs.pop() {
        match step(alloc, nodes, declarations, table, &mut call, pair) {
            Err(error) => return Err(error),
            Ok(()) => {}
        }
    }
    let Call { equal, goals, .. } = call;
    Ok(Left { equal, goals })
}

/// Relates two terms by a variance, each a type, a region or a const of the store and the table: their parts are related one by one,
/// a variable without a value is made one with what stands for the other side, and regions are constrained. What rests on aliases
/// without escaping bound variables, and on type variables that have a value or stand on both sides, is left as goals; and some
/// pairs are left that are to be made equal.
///
/// Under each later table in which the goals are answered, and what is left is related, the two are related; and each settled
/// solution in which they settle goes on to one of the table in which all that is left settles. It is `NoSolution` where they settle
/// in none, and `Memory` where a growth was refused. After an error the table is as before.
pub fn relate_along(
    alloc: Global,
    nodes: &mut Nodes,
    declarations: &Declarations,
    table: &mut InferCtxtInner,
    variance: Variance,
    left: NodeId,
    right: NodeId,
) -> Result<Left, EvalError>
    requires lawful { IsLawful nodes.old table.old.entries }
    requires left { IsPairSide nodes.old (content_of nodes.old table.old.entries) left }
    requires right { IsPairSide nodes.old (content_of nodes.old table.old.entries) right }
    ensures extends { Extends nodes.old nodes.new }
    ensures changes { KeepsHidden table.old table.new }
    ensures lawful { IsLawful nodes.new table.new.entries }
    ensures left { IfOk result (λ r. IsLeft (variances_in declarations.now) nodes.old nodes.new
        table.old.entries table.new.entries
        (record { variance = variance; left = left; right = right }) r.equal.items r.goals.items) }
    ensures err { OnErr result (table.new ≡ table.old) }
    ensures full { result ≢ Err EvalError.Full }
    ensures no { result ≡ Err EvalError.NoSolution →
        Refuses (variances_in declarations.now) (content_of nodes.old table.old.entries)
        (pair_at nodes.old (record { variance = variance; left = left; right = right }) ∷ []) }
{
    let root = Relating {
        variance,
        left,
        right,
    };
    let snapshot = table.start_snapshot()?;
    let related = run(alloc, nodes, declarations, table, root);
    table.commit_if_ok(snapshot, related)
}
