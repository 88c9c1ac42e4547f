//! The parts of a node that are related one by one.
ghost use Rattle.std.specs.Prelude.{◌≡◌, ◌<◌, ◌≤◌, true};
ghost use Rattle.nts_model.specs.Terms.Trees.{children, IsRow};
ghost use Rattle.nts_store.specs.Growth.{tree_at, IsIn};
ghost use Rattle.nts_terms.specs.Signatures.{variances_in};
ghost use Rattle.nts_variance.specs.Parts.{has_parts as label_has_parts, parts_of, variance_in, IsNodeWithParts};

use nts_model::{ConstHead, Label, TyHead, Variance};
use nts_store::{NodeId, Nodes};
use nts_terms::{CtorId, Declarations};

/// Whether a node with that label has parts: a constructor, a function pointer, an alias and a const value do.
pub fn has_parts(label: Label) -> bool
    ensures { result ≡ label_has_parts label }
{
    match label {
        Label::Ty(TyHead::Ctor(_)) => true,
        Label::Ty(TyHead::FnPtr) => true,
        Label::Ty(TyHead::Alias(_)) => true,
        Label::Const(ConstHead::Unevaluated(_)) => true,
        Label::Const(ConstHead::Value(_)) => true,
        _ => false,
    }
}

/// The node whose children the parts are: the list of the arguments, or a const value itself.
pub fn holder(nodes: &Nodes, t: NodeId) -> NodeId
    requires within { IsIn nodes.now t }
    requires parts { IsNodeWithParts (tree_at nodes.now t) }
    ensures within { IsIn nodes.now result }
    ensures before { result.number ≤ t.number }
    ensures parts { children (tree_at nodes.now result) ≡ parts_of (tree_at nodes.now t) }
    ensures row { IsRow (parts_of (tree_at nodes.now t)) }
{
    let label = nodes.label(t);
    if let Label::Const(ConstHead::Value(_)) = label {
        return t;
    }
    if let Label::Ty(TyHead::FnPtr) = label {
        return nodes.child(t, 1);
    }
    nodes.child(t, 0)
}

/// How the part at a place varies with the whole, where there are so many parts.
pub fn variance_of_part(
    declarations: &Declarations,
    label: Label,
    place: usize,
    count: usize,
) -> Variance
    requires { place < count }
    ensures { result ≡ variance_in (variances_in declarations.now) label place count }
{
    match label {
        Label::Ty(TyHead::Ctor(number)) => declarations.variance_of(CtorId { number }, place),
        Label::Ty(TyHead::FnPtr) => {
            if place + 1 == count {
                Variance::Covariant
            } else {
                Variance::Contravariant
            }
        }
        _ => Variance::Invariant,
    }
}
