//! The goals that relating leaves, as predicates.
ghost use Rattle.std.specs.Prelude.{◌≡◌, ◌≢◌, IfOk, Err};
ghost use Rattle.nts_store.specs.Growth.{tree_at, IsIn, Extends};
ghost use Rattle.nts_variance.specs.Terms.{pair_at, IsGoal};
ghost use Rattle.nts_variance.specs.Goals.{goal_of, goal_head, ordered, is_alias_node};

use crate::along::Relating;
use nts_model::{
    AliasRelationDirection, ConstHead, Label, ListHead, PredicateHead, TyHead, Variance,
};
use nts_store::{EvalError, NodeId, Nodes};

/// Whether the node is an alias.
fn is_alias(nodes: &Nodes, t: NodeId) -> bool
    requires within { IsIn nodes.now t }
    ensures { result ≡ is_alias_node (tree_at nodes.now t) }
{
    matches!(
        nodes.label(t),
        Label::Ty(TyHead::Alias(_)) | Label::Const(ConstHead::Unevaluated(_))
    )
}

/// What the predicate of a pair says.
fn head_of_pair(nodes: &Nodes, pair: Relating) -> PredicateHead
    requires left { IsIn nodes.now pair.left }
    requires right { IsIn nodes.now pair.right }
    ensures { result ≡ goal_head (pair_at nodes.now pair) }
{
    if is_alias(nodes, pair.left) || is_alias(nodes, pair.right) {
        let direction = match pair.variance {
            Variance::Invariant => AliasRelationDirection::Equate,
            _ => AliasRelationDirection::Subtype,
        };
        return PredicateHead::AliasRelate(direction);
    }
    PredicateHead::Subtype(pair.variance != Variance::Contravariant)
}

/// The sides in the order of the goal.
fn lesser_first(pair: Relating) -> Relating
    ensures { result ≡ ordered pair }
{
    match pair.variance {
        Variance::Contravariant => Relating {
            left: pair.right,
            right: pair.left,
            ..pair
        },
        _ => pair,
    }
}

/// The predicate of a goal that relating leaves, for calls that ask such goals: where a side is an alias, that the two sides stand
/// for one another, equal or by a subtype, and else that one is a subtype of the other. The lesser side stands first, and nothing
/// is bound. The table stays as it is; it is `Memory` where a growth was refused.
pub fn predicate_of(nodes: &mut Nodes, pair: Relating) -> Result<NodeId, EvalError>
    requires left { IsIn nodes.old pair.left }
    requires right { IsIn nodes.old pair.right }
    requires goal { IsGoal (pair_at nodes.old pair) }
    ensures extends { Extends nodes.old nodes.new }
    ensures within { IfOk result (λ r. IsIn nodes.new r) }
    ensures tree { IfOk result (λ r. tree_at nodes.new r ≡ goal_of (pair_at nodes.old pair)) }
    ensures full { result ≢ Err EvalError.Full }
    ensures no { result ≢ Err EvalError.NoSolution }
{
    let head = head_of_pair(nodes, pair);
    let ordered = lesser_first(pair);
    let sorts = nodes.make(Label::List(ListHead::Sorts), &[])?;
    let statement = nodes.make(Label::Predicate(head), &[ordered.left, ordered.right])?;
    Ok(nodes.make(Label::List(ListHead::Binder), &[sorts, statement])?)
}
