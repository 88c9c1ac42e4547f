//! What the positions of a canonical input stand for.
ghost use Rattle.std.specs.Prelude.{◌≡◌, List, map, IfOk};
ghost use Rattle.std.specs.List.{position_or_len};
ghost use Rattle.nts_model.specs.declared.labels.Leaf.{Leaf};
ghost use Rattle.nts_model.specs.Terms.Substitutions.{leaf_sort};
ghost use Rattle.nts_model.specs.Canonical.Numbered.{AreDistinct};
ghost use Rattle.nts_model.specs.Canonical.Inputs.{sub_root_of, are_one, position_kind_at, position_kind};
ghost use Rattle.nts_unify.specs.Reading.{LinksDescend};
ghost use Rattle.nts_canonical.specs.SubRoots.{sub_root_in};
ghost use Rattle.nts_canonical.specs.Owned.{IsOwned, AreOwned};
ghost use Rattle.nts_canonical.specs.Forms.{kind_of_var};

use crate::types::CanonicalVarKind;
use nts_model::{Leaf, VariableKind};
use nts_table::InferCtxt;
use nts_terms::{
    BoundConst, BoundRegion, BoundTy, PlaceholderConst, PlaceholderRegion, PlaceholderType,
};
use std::alloc::{AllocError, Global};

/// The kind of each position, where these are the leaves in the order of positions. All universes are
/// the root, and a region is a placeholder, a region variable too.
pub fn kinds_of(
    alloc: Global,
    table: &InferCtxt,
    leaves: &[Leaf],
) -> Result<Vec<CanonicalVarKind>, AllocError>
    requires descends { LinksDescend table.now.entries }
    requires owned { AreOwned table.now.entries leaves.now }
    requires distinct { AreDistinct leaves.now }
    ensures { IfOk result (λ v. map kind_of_var v.items ≡ map (position_kind
        (sub_root_in table.now.entries) leaves.now) leaves.now) }
{
    let roots = sub_roots(alloc, table, leaves)?;
    let mut kinds = Vec::with_capacity(alloc, leaves.len())?;
    for i in 0..leaves.len() {
        let first = first_of(&roots, sub_root_of(table, leaves[i]));
        kinds.push(kind_at(leaves[i], first, i))?;
    }
    Ok(kinds)
}

/// The root of the sub-unification class of each type variable.
pub fn sub_roots(
    alloc: Global,
    table: &InferCtxt,
    leaves: &[Leaf],
) -> Result<Vec<Option<usize>>, AllocError>
    requires descends { LinksDescend table.now.entries }
    requires owned { AreOwned table.now.entries leaves.now }
    ensures { IfOk result (λ v. v.items ≡ map (sub_root_of (sub_root_in table.now.entries))
        leaves.now) }
{
    let mut roots = Vec::with_capacity(alloc, leaves.len())?;
    for i in 0..leaves.len() {
        roots.push(sub_root_of(table, leaves[i]))?;
    }
    Ok(roots)
}

/// The variable that stands for those which a leaf was made a subtype of, or a supertype, if the leaf is a type variable.
pub fn sub_root_of(table: &InferCtxt, leaf: Leaf) -> Option<usize>
    requires descends { LinksDescend table.now.entries }
    requires owned { IsOwned table.now.entries leaf }
    ensures { result ≡ sub_root_of (sub_root_in table.now.entries) leaf }
{
    match leaf {
        Leaf::Variable(VariableKind::Ty, n) => Some(table.sub_unification_table_root_var(n)),
        _ => None,
    }
}

/// The first place of a root, or the length.
pub fn first_of(roots: &[Option<usize>], root: Option<usize>) -> usize
    ensures { result ≡ position_or_len (are_one root) roots.now }
{
    for i in 0..roots.len() {
        if are_one(root, roots[i]) {
            return i;
        }
    }
    roots.len()
}

fn are_one(a: Option<usize>, b: Option<usize>) -> bool
    ensures { result ≡ are_one a b }
{
    match (a, b) {
        (Some(one), Some(other)) => one == other,
        _ => false,
    }
}

/// The kind of the position of a leaf, where the first of its sub root is at `first`.
fn kind_at(leaf: Leaf, first: usize, number: usize) -> CanonicalVarKind
    ensures { kind_of_var result ≡ position_kind_at (leaf_sort leaf) first number }
{
    match leaf {
        Leaf::Variable(VariableKind::Ty, _) => CanonicalVarKind::Ty {
            ui: 0,
            sub_root: first,
        },
        Leaf::Variable(VariableKind::Int, _) => CanonicalVarKind::Int,
        Leaf::Variable(VariableKind::Float, _) => CanonicalVarKind::Float,
        Leaf::Variable(VariableKind::Const, _) => CanonicalVarKind::Const(0),
        Leaf::Variable(VariableKind::Region, _) => region_at(number),
        Leaf::Region(_) => region_at(number),
        Leaf::TyConstant(_) => CanonicalVarKind::PlaceholderTy(PlaceholderType {
            universe: 0,
            bound: BoundTy { var: number },
        }),
        Leaf::ConstConstant(_) => CanonicalVarKind::PlaceholderConst(PlaceholderConst {
            universe: 0,
            bound: BoundConst { var: number },
        }),
    }
}

fn region_at(number: usize) -> CanonicalVarKind
    ensures { result ≡ CanonicalVarKind.PlaceholderRegion
        (record { universe = 0; bound = record { var = number } }) }
{
    CanonicalVarKind::PlaceholderRegion(PlaceholderRegion {
        universe: 0,
        bound: BoundRegion { var: number },
    })
}
