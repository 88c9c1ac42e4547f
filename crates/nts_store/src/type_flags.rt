//! What a node keeps of its tree, so that walks can stop early.
ghost use Rattle.std.specs.Prelude.{◌≡◌};
ghost use Rattle.nts_model.specs.Terms.Trees.{is_infer, is_region_infer, is_placeholder, is_alias, is_canonical, binders};
ghost use Rattle.nts_store.specs.TypeFlags.{higher, past_binders, level_of, joined, labelled, no_flags, is_leaf, varies};

use nts_model::{
    BoundVarIndexKind, ConstHead, Constant, FreeRegion, Label, Leaf, ListHead, TyHead, VariableKind,
};

/// What is known of a whole tree.
#[derive(Clone, Copy, PartialEq, Eq, Hash)]
pub struct TypeFlags {
    /// It has an inference variable that is no region.
    pub has_infer: bool,
    /// It has a region variable.
    pub has_region_infer: bool,
    /// It has a placeholder of a type, a const or a region.
    pub has_placeholder: bool,
    /// It has an alias, or a const that is to be evaluated.
    pub has_alias: bool,
    /// It has a bound variable that names a position of a canonical value.
    pub has_canonical: bool,
    /// It has a leaf: a variable, a free region, or a parameter or placeholder of a type or a const.
    pub has_leaf: bool,
    /// It has a free region that may vary: a region variable, or any other but the erased and the error region.
    pub has_free_region: bool,
    /// The greatest level at which a bound variable escapes, if one does.
    pub escaping: Option<usize>,
}

impl TypeFlags {
    /// What is known of no tree at all.
    pub(crate) fn new() -> TypeFlags
        ensures { result ≡ no_flags }
    {
        TypeFlags {
            has_infer: false,
            has_region_infer: false,
            has_placeholder: false,
            has_alias: false,
            has_canonical: false,
            has_leaf: false,
            has_free_region: false,
            escaping: None,
        }
    }

    /// What is known of two trees together.
    pub(crate) fn join(self, other: TypeFlags) -> TypeFlags
        ensures { result ≡ joined self other }
    {
        TypeFlags {
            has_infer: self.has_infer || other.has_infer,
            has_region_infer: self.has_region_infer || other.has_region_infer,
            has_placeholder: self.has_placeholder || other.has_placeholder,
            has_alias: self.has_alias || other.has_alias,
            has_canonical: self.has_canonical || other.has_canonical,
            has_leaf: self.has_leaf || other.has_leaf,
            has_free_region: self.has_free_region || other.has_free_region,
            escaping: higher_level(self.escaping, other.escaping),
        }
    }

    /// What is known of a node with this label, where this is what is known of its children.
    pub(crate) fn under(self, label: Label) -> TypeFlags
        ensures { result ≡ labelled label self }
    {
        TypeFlags {
            has_infer: is_infer_label(label) || self.has_infer,
            has_region_infer: is_region_infer_label(label) || self.has_region_infer,
            has_placeholder: is_placeholder_label(label) || self.has_placeholder,
            has_alias: is_alias_label(label) || self.has_alias,
            has_canonical: is_canonical_label(label) || self.has_canonical,
            has_leaf: is_leaf_label(label) || self.has_leaf,
            has_free_region: may_vary(label) || self.has_free_region,
            escaping: higher_level(
                bound_level(label),
                past_binders_of(binders_of(label), self.escaping),
            ),
        }
    }
}

fn higher_level(a: Option<usize>, b: Option<usize>) -> Option<usize>
    ensures { result ≡ higher a b }
{
    match (a, b) {
        (None, other) => other,
        (one, None) => one,
        (Some(one), Some(other)) => Some(one.max(other)),
    }
}

fn past_binders_of(binders: usize, level: Option<usize>) -> Option<usize>
    ensures { result ≡ past_binders binders level }
{
    match level {
        None => None,
        Some(d) => { if d < binders { None } else { Some(d - binders) } }
    }
}

/// How many binders a node is.
pub fn binders_of(label: Label) -> usize
    ensures { result ≡ binders label }
{
    match label {
        Label::Ty(TyHead::FnPtr) => 1,
        Label::List(ListHead::Binder) => 1,
        _ => 0,
    }
}

fn bound_level(label: Label) -> Option<usize>
    ensures { result ≡ level_of label }
{
    match label {
        Label::Bound(_, BoundVarIndexKind::Bound(d), _) => Some(d),
        _ => None,
    }
}

fn is_infer_label(label: Label) -> bool
    ensures { result ≡ is_infer label }
{
    match label {
        Label::Leaf(Leaf::Variable(VariableKind::Region, _)) => false,
        Label::Leaf(Leaf::Variable(_, _)) => true,
        _ => false,
    }
}

fn is_region_infer_label(label: Label) -> bool
    ensures { result ≡ is_region_infer label }
{
    matches!(label, Label::Leaf(Leaf::Variable(VariableKind::Region, _)))
}

fn is_placeholder_label(label: Label) -> bool
    ensures { result ≡ is_placeholder label }
{
    match label {
        Label::Leaf(Leaf::Region(FreeRegion::Placeholder(_, _))) => true,
        Label::Leaf(Leaf::TyConstant(Constant::Placeholder(_, _))) => true,
        Label::Leaf(Leaf::ConstConstant(Constant::Placeholder(_, _))) => true,
        _ => false,
    }
}

fn is_alias_label(label: Label) -> bool
    ensures { result ≡ is_alias label }
{
    match label {
        Label::Ty(TyHead::Alias(_)) => true,
        Label::Const(ConstHead::Unevaluated(_)) => true,
        _ => false,
    }
}

fn is_canonical_label(label: Label) -> bool
    ensures { result ≡ is_canonical label }
{
    matches!(label, Label::Bound(_, BoundVarIndexKind::Canonical, _))
}

fn is_leaf_label(label: Label) -> bool
    ensures { result ≡ is_leaf label }
{
    matches!(label, Label::Leaf(_))
}

/// Whether the label is a free region's that may vary: the erased and the error region stay themselves.
pub fn may_vary(label: Label) -> bool
    ensures { result ≡ varies label }
{
    match label {
        Label::Leaf(Leaf::Region(FreeRegion::Erased)) => false,
        Label::Leaf(Leaf::Region(FreeRegion::Error)) => false,
        Label::Leaf(Leaf::Region(_)) => true,
        Label::Leaf(Leaf::Variable(VariableKind::Region, _)) => true,
        _ => false,
    }
}
