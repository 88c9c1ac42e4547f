//! Which handles a node may have.
ghost use Rattle.std.specs.Prelude.{◌≡◌};
ghost use Rattle.nts_model.specs.Terms.Trees.{kind_of_label, sort_of_leaf};
ghost use Rattle.nts_store.specs.Sorts.{sort_of_kind};

use nts_model::{Label, Leaf, Sort, VariableKind};

/// The sort of a node with this label, if it is a type, a region or a const.
pub fn sort_of(label: Label) -> Option<Sort>
    ensures { result ≡ sort_of_kind (kind_of_label label) }
{
    match label {
        Label::Leaf(leaf) => Some(leaf_sort(leaf)),
        Label::Bound(sort, _, _) => Some(sort),
        Label::Ty(_) => Some(Sort::Ty),
        Label::Const(_) => Some(Sort::Const),
        _ => None,
    }
}

fn leaf_sort(leaf: Leaf) -> Sort
    ensures { result ≡ sort_of_leaf leaf }
{
    match leaf {
        Leaf::Variable(VariableKind::Const, _) => Sort::Const,
        Leaf::Variable(VariableKind::Region, _) => Sort::Region,
        Leaf::Variable(_, _) => Sort::Ty,
        Leaf::Region(_) => Sort::Region,
        Leaf::TyConstant(_) => Sort::Ty,
        Leaf::ConstConstant(_) => Sort::Const,
    }
}
