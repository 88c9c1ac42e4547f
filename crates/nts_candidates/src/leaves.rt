//! What the leaves and positions of a candidate's terms may be.
ghost use Rattle.std.specs.Prelude.{◌≡◌, ◌↔◌, IsTrue, slice_get};
ghost use Rattle.nts_certainty.specs.nts_model.specs.Terms.Trees.{of_sort};
ghost use Rattle.nts_certainty.specs.nts_model.specs.Terms.Substitutions.{position_of};
ghost use Rattle.nts_certainty.specs.nts_model.specs.Derivations.Handlers.{IsOfSort, NamesAt};
ghost use Rattle.nts_candidates.specs.Foreign.{is_foreign_leaf};

use nts_certainty::nts_model::{BoundVarIndexKind, FreeRegion, Label, Leaf, Sort};

/// Whether the position that a label names, if it is one, is among the variables of these sorts, and of its sort.
pub fn names_fresh(fresh: &[Sort], label: Label) -> bool
    ensures { IsTrue result ↔ NamesAt fresh.now (position_of label) label }
{
    match label {
        Label::Bound(sort, BoundVarIndexKind::Canonical, position) => is_sort_at(
            fresh, position, sort,
        ),
        Label::Bound(_, BoundVarIndexKind::Bound(_), _) => true,
        Label::Leaf(_) => true,
        Label::Ty(_) => true,
        Label::Const(_) => true,
        Label::Clause(_) => true,
        Label::Predicate(_) => true,
        Label::List(_) => true,
    }
}

fn is_sort_at(fresh: &[Sort], position: usize, sort: Sort) -> bool
    ensures { IsTrue result ↔ IsOfSort (slice_get fresh.now position) (of_sort sort) }
{
    match fresh.get(position) {
        Some(its_sort) => *its_sort == sort,
        None => false,
    }
}

/// Whether a leaf stands for something else elsewhere: all do but 'static, the erased and the error region.
pub fn is_foreign_leaf_of(leaf: Leaf) -> bool
    ensures { result ≡ is_foreign_leaf leaf }
{
    match leaf {
        Leaf::Region(FreeRegion::Static) => false,
        Leaf::Region(FreeRegion::Erased) => false,
        Leaf::Region(FreeRegion::Error) => false,
        _ => true,
    }
}
