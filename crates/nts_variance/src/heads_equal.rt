//! The heads of a pair that is to be equal: variables made one, and a variable that gets a value.
ghost use Rattle.std.specs.Prelude.{◌≡◌, ◌≢◌, ℕ, List, ◌∷◌, [], true, false, IfOk, Err};
ghost use Rattle.nts_variance_model.specs.Variances.Leaving.{Refuses};
ghost use Rattle.nts_model.specs.declared.labels.Variance.{Variance};
ghost use Rattle.nts_model.specs.Derivations.Related.{IsAlias};
ghost use Rattle.nts_model.specs.Tables.Resolving.{IsInfer};
ghost use Rattle.nts_store.specs.Growth.{tree_at, IsIn, Extends};
ghost use Rattle.nts_terms.specs.Signatures.{variances_in};
ghost use Rattle.nts_unify.specs.Entries.{KeepsHidden};
ghost use Rattle.nts_unify.specs.Reading.{content_of, IsLawful};
ghost use Rattle.nts_relating.specs.Relating.{IsOpen};
ghost use Rattle.nts_variance.specs.Terms.{pair_at};
ghost use Rattle.nts_variance.specs.Varying.{pair_in};
ghost use Rattle.nts_variance.specs.Taking.{IsPairSide, IsPair, IsTaken, IsPaid};
ghost use Rattle.nts_variance.specs.Equating.{node_in, OwesAliases, AreToBeOne, ArePairHeads};

use crate::along::{Relating, Side, bind_along};
use crate::equating::Heads;
use crate::splitting::Taken;
use crate::vary_walk::is_closed_alias;
use nts_model::Variance;
use nts_relating::{Head, head_of, relate_variables};
use nts_store::{EvalError, NodeId, Nodes};
use nts_terms::Declarations;
use nts_unify::InferCtxtInner;
use std::alloc::Global;

/// The node of a head; a variable without a value keeps its own.
fn node_of(head: Head, t: NodeId) -> NodeId
    ensures { result ≡ node_in head t }
{
    match head {
        Head::Open(_) => t,
        Head::Closed(value) => value,
    }
}

/// The pair of the heads of both sides.
pub fn at_heads(nodes: &Nodes, table: &InferCtxtInner, pair: Relating) -> Heads
    requires lawful { IsLawful nodes.now table.now.entries }
    requires pair { IsPair nodes.now (content_of nodes.now table.now.entries) pair }
    ensures { ArePairHeads nodes.now table.now.entries pair result }
{
    let left = head_of(nodes, table, pair.left);
    let right = head_of(nodes, table, pair.right);
    let pair = Relating {
        variance: pair.variance,
        left: node_of(left, pair.left),
        right: node_of(right, pair.right),
    };
    Heads { pair, left, right }
}

/// Takes a pair of two variables without values: they are made one, unless they are.
pub fn join_variables(
    alloc: Global,
    nodes: &mut Nodes,
    table: &mut InferCtxtInner,
    pair: Relating,
    x: usize,
    y: usize,
) -> Result<Taken, EvalError>
    requires lawful { IsLawful nodes.old table.old.entries }
    requires pair { IsPair nodes.old (content_of nodes.old table.old.entries) pair }
    requires left { IsOpen nodes.old table.old.entries (tree_at nodes.old pair.left) x }
    requires right { IsOpen nodes.old table.old.entries (tree_at nodes.old pair.right) y }
    requires one { AreToBeOne (content_of nodes.old table.old.entries) pair.variance
        (tree_at nodes.old pair.left) (tree_at nodes.old pair.right) }
    ensures extends { Extends nodes.old nodes.new }
    ensures changes { KeepsHidden table.old table.new }
    ensures taken { (declared : ℕ → List Variance) →
        IfOk result (IsTaken declared nodes.old nodes.new table.old.entries table.new.entries
        pair) }
    ensures paid { IfOk result (IsPaid (content_of nodes.old table.old.entries)
        (content_of nodes.new table.new.entries) (pair_at nodes.old pair)) }
    ensures due { IfOk result (OwesAliases nodes.new (pair_at nodes.old pair)) }
    ensures full { result ≢ Err EvalError.Full }
    ensures no { (declared : ℕ → List Variance) → result ≡ Err EvalError.NoSolution →
        Refuses declared (content_of nodes.old table.old.entries) (pair_at nodes.old pair ∷ []) }
{
    match relate_variables(alloc, nodes, table, x, y) {
        Err(error) => Err(error),
        Ok(made) => {
            if made {
                return Ok(Taken::Bound(Vec::new(alloc)));
            }
            Ok(Taken::Done)
        }
    }
}

/// Takes a pair of a variable without a value and another node, which is no alias without escaping bound variables: the variable is
/// made one with what stands for the node.
pub fn bind_head(
    alloc: Global,
    nodes: &mut Nodes,
    declarations: &Declarations,
    table: &mut InferCtxtInner,
    side: Side,
    variance: Variance,
    own: NodeId,
    term: NodeId,
) -> Result<Taken, EvalError>
    requires lawful { IsLawful nodes.old table.old.entries }
    requires own { IsPairSide nodes.old (content_of nodes.old table.old.entries) own }
    requires term { IsPairSide nodes.old (content_of nodes.old table.old.entries) term }
    requires open { IsOpen nodes.old table.old.entries (tree_at nodes.old own) side.variable }
    requires node { IsInfer (tree_at nodes.old term) → ⊥ }
    requires rigid { IsAlias (tree_at nodes.old term) → ⊥ }
    ensures extends { Extends nodes.old nodes.new }
    ensures changes { KeepsHidden table.old table.new }
    ensures taken { IfOk result (IsTaken (variances_in declarations.now) nodes.old nodes.new
        table.old.entries table.new.entries (pair_in side.is_turned variance own term)) }
    ensures paid { IfOk result (IsPaid (content_of nodes.old table.old.entries)
        (content_of nodes.new table.new.entries) (pair_at nodes.old
        (pair_in side.is_turned variance own term))) }
    ensures due { AreToBeOne (content_of nodes.old table.old.entries) variance (tree_at nodes.old
        own) (tree_at nodes.old term) → IfOk result (OwesAliases nodes.new (pair_at nodes.old
        (pair_in side.is_turned variance own term))) }
    ensures full { result ≢ Err EvalError.Full }
    ensures no { result ≡ Err EvalError.NoSolution →
        Refuses (variances_in declarations.now) (content_of nodes.old table.old.entries)
        (pair_at nodes.old (pair_in side.is_turned variance own term) ∷ []) }
{
    // The nodes of a store are formed.
    nodes.terms_are_formed();
    match bind_along(alloc, nodes, declarations, table, side, variance, term) {
        Err(error) => Err(error),
        Ok(goals) => Ok(Taken::Bound(goals)),
    }
}

/// Whether a side is an alias without escaping bound variables.
pub fn is_loose(nodes: &Nodes, t: NodeId) -> bool
    requires within { IsIn nodes.now t }
    ensures yes { result ≡ true → IsAlias (tree_at nodes.now t) }
    ensures no { result ≡ false → IsAlias (tree_at nodes.now t) → ⊥ }
{
    // The nodes of a store are formed.
    nodes.terms_are_formed();
    is_closed_alias(nodes.label(t), nodes.flags(t))
}
