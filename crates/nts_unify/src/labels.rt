//! What labels say about variables and regions.
ghost use Rattle.std.specs.Prelude.{◌≡◌, ◌≢◌, ◌↔◌, IsTrue, true, false, None};
ghost use Rattle.nts_model.specs.declared.labels.VariableKind.TheVariants as kinds;
ghost use Rattle.nts_model.specs.Terms.Fitting.{Fits};
ghost use Rattle.nts_model.specs.Terms.Trees.{Tree, node, infer_of};
ghost use Rattle.nts_unify.specs.Joining.{TakesVariable};
ghost use Rattle.nts_unify.specs.Changing.{region_variable, is_free_region};

use nts_model::{Label, Leaf, Sort, TyHead, VariableKind};

/// The number of an inference variable that is no region.
pub fn infer_number(label: Label) -> Option<usize>
    ensures { result ≡ infer_of label }
{
    match label {
        Label::Leaf(Leaf::Variable(VariableKind::Region, _)) => None,
        Label::Leaf(Leaf::Variable(_, n)) => Some(n),
        _ => None,
    }
}

/// The number of a region variable.
pub fn region_number(label: Label) -> Option<usize>
    ensures { result ≡ region_variable label }
{
    match label {
        Label::Leaf(Leaf::Variable(VariableKind::Region, n)) => Some(n),
        _ => None,
    }
}

/// Whether the label is a region that is not bound.
pub fn names_free_region(label: Label) -> bool
    ensures { result ≡ is_free_region label }
{
    match label {
        Label::Leaf(Leaf::Variable(VariableKind::Region, _)) => true,
        Label::Leaf(Leaf::Region(_)) => true,
        _ => false,
    }
}

/// Whether two labels are one.
pub fn is_same(a: Label, b: Label) -> bool
    ensures yes { result ≡ true → a ≡ b }
    ensures no { result ≡ false → a ≡ b → ⊥ }
{
    a == b
}

/// Whether two kinds of variables are one.
pub fn is_same_kind(a: VariableKind, b: VariableKind) -> bool
    ensures yes { result ≡ true → a ≡ b }
    ensures no { result ≡ false → a ≡ b → ⊥ }
{
    a == b
}

/// Whether a variable of the first kind can have one of the second kind as its value.
pub fn takes_variable(kind: VariableKind, other: VariableKind) -> bool
    ensures { IsTrue result ↔ TakesVariable kind other }
{
    match kind {
        VariableKind::Ty => matches!(other, VariableKind::Int | VariableKind::Float),
        _ => false,
    }
}

/// Whether a variable of the kind can have a value with the label, which is no variable.
pub fn fits(kind: VariableKind, label: Label) -> bool
    ensures yes { result ≡ true → (c : Tree) → Fits kind (node label c) }
    ensures no { result ≡ false → kind ≢ kinds.Region → infer_of label ≡ None → (c : Tree) →
        Fits kind (node label c) → ⊥ }
{
    match kind {
        VariableKind::Ty => match label {
            Label::Ty(_) => true,
            Label::Leaf(Leaf::TyConstant(_)) => true,
            Label::Bound(Sort::Ty, _, _) => true,
            _ => false,
        },
        VariableKind::Const => match label {
            Label::Const(_) => true,
            Label::Leaf(Leaf::ConstConstant(_)) => true,
            Label::Bound(Sort::Const, _, _) => true,
            _ => false,
        },
        VariableKind::Int => match label {
            Label::Ty(TyHead::Int(_)) => true,
            Label::Ty(TyHead::Uint(_)) => true,
            _ => false,
        },
        VariableKind::Float => matches!(label, Label::Ty(TyHead::Float(_))),
        VariableKind::Region => false,
    }
}
