//! What the positions of a response stand for.
ghost use Rattle.std.specs.Prelude.{◌≡◌, List, map, IfOk};
ghost use Rattle.nts_model.specs.declared.labels.Sort.{Sort};
ghost use Rattle.nts_model.specs.declared.labels.Sort.TheVariants as sort;
ghost use Rattle.nts_model.specs.Terms.Trees.{Tree};
ghost use Rattle.nts_model.specs.Answers.Responses.{answer_kind, answer_kinds, constant_kind, region_kind, universe_of_kind, greatest};
ghost use Rattle.nts_model.specs.Canonical.Inputs.{placeholder};
ghost use Rattle.nts_unify.specs.Reading.{content_of, LinksDescend};
ghost use Rattle.nts_response.specs.nts_canonical.specs.SubRoots.{sub_root_in};
ghost use Rattle.nts_response.specs.nts_canonical.specs.Owned.{IsOwned, AreOwned};
ghost use Rattle.nts_response.specs.nts_canonical.specs.Forms.{kind_of_var};
ghost use Rattle.nts_answering.specs.Kinds.{kind_in};

use nts_model::{Constant, FreeRegion, Leaf, VariableKind};
use nts_response::nts_canonical::{
    CanonicalVarKind, first_of, sub_root_of, sub_roots, universe_of,
};
use nts_response::nts_table::InferCtxt;
use nts_terms::{
    BoundConst, BoundRegion, BoundTy, PlaceholderConst, PlaceholderRegion, PlaceholderType,
    UniverseIndex,
};
use std::alloc::{AllocError, Global};

/// The kind of each position, where these are the leaves in the order of positions: variables in their
/// universes, and the placeholders themselves, counted from the greatest universe of the input.
pub(crate) fn answer_kinds(
    alloc: Global,
    table: &InferCtxt,
    max_input_universe: UniverseIndex,
    leaves: &[Leaf],
) -> Result<Vec<CanonicalVarKind>, AllocError>
    requires descends { LinksDescend table.now.entries }
    requires owned { AreOwned table.now.entries leaves.now }
    ensures { (ts : List Tree) →
        IfOk result (λ v. map kind_of_var v.items ≡ answer_kinds (content_of ts table.now.entries)
        (sub_root_in table.now.entries) max_input_universe leaves.now) }
{
    let roots = sub_roots(alloc, table, leaves)?;
    let mut kinds = Vec::with_capacity(alloc, leaves.len())?;
    for i in 0..leaves.len() {
        let first = first_of(&roots, sub_root_of(table, leaves[i]));
        kinds.push(answer_kind(table, max_input_universe, leaves[i], first))?;
    }
    Ok(kinds)
}

/// The kind of the position of a leaf, where the first of its sub root is at `first`.
fn answer_kind(
    table: &InferCtxt,
    max_input_universe: UniverseIndex,
    leaf: Leaf,
    first: usize,
) -> CanonicalVarKind
    requires { IsOwned table.now.entries leaf }
    ensures { (ts : List Tree) →
        kind_of_var result ≡ answer_kind (content_of ts table.now.entries) max_input_universe first
        leaf }
{
    match leaf {
        Leaf::Variable(kind, n) => {
            let ui = table
                .variable(n)
                .universe
                .saturating_sub(max_input_universe);
            variable_kind(kind, ui, first)
        }
        Leaf::Region(region) => region_kind(max_input_universe, region),
        Leaf::TyConstant(constant) => ty_kind(max_input_universe, constant),
        Leaf::ConstConstant(constant) => const_kind(max_input_universe, constant),
    }
}

fn variable_kind(kind: VariableKind, ui: UniverseIndex, first: usize) -> CanonicalVarKind
    ensures { kind_of_var result ≡ kind_in kind ui first }
{
    match kind {
        VariableKind::Ty => CanonicalVarKind::Ty {
            ui,
            sub_root: first,
        },
        VariableKind::Int => CanonicalVarKind::Int,
        VariableKind::Float => CanonicalVarKind::Float,
        VariableKind::Const => CanonicalVarKind::Const(ui),
        VariableKind::Region => CanonicalVarKind::Region(ui),
    }
}

/// A region that is no placeholder has no position; it would be one of the root.
fn region_kind(max_input_universe: UniverseIndex, region: FreeRegion) -> CanonicalVarKind
    ensures { kind_of_var result ≡ region_kind max_input_universe region }
{
    let (universe, var) = match region {
        FreeRegion::Placeholder(universe, var) => (
            universe.saturating_sub(max_input_universe),
            var,
        ),
        _ => (0, 0),
    };
    CanonicalVarKind::PlaceholderRegion(PlaceholderRegion {
        universe,
        bound: BoundRegion { var },
    })
}

fn ty_kind(max_input_universe: UniverseIndex, constant: Constant) -> CanonicalVarKind
    ensures { kind_of_var result ≡ constant_kind max_input_universe sort.Ty constant }
{
    let (universe, var) = placeholder_of(max_input_universe, constant);
    CanonicalVarKind::PlaceholderTy(PlaceholderType {
        universe,
        bound: BoundTy { var },
    })
}

fn const_kind(max_input_universe: UniverseIndex, constant: Constant) -> CanonicalVarKind
    ensures { kind_of_var result ≡ constant_kind max_input_universe sort.Const constant }
{
    let (universe, var) = placeholder_of(max_input_universe, constant);
    CanonicalVarKind::PlaceholderConst(PlaceholderConst {
        universe,
        bound: BoundConst { var },
    })
}

/// The placeholder that a constant is in a response. A parameter, which no query has, is one of the root.
fn placeholder_of(max_input_universe: UniverseIndex, constant: Constant) -> (UniverseIndex, usize)
    ensures { (s : Sort) →
        placeholder s result.0 result.1 ≡ constant_kind max_input_universe s constant }
{
    match constant {
        Constant::Placeholder(universe, var) => (universe.saturating_sub(max_input_universe), var),
        Constant::Param(n) => (0, n as usize),
    }
}

/// The greatest universe of the kinds.
pub(crate) fn greatest(kinds: &[CanonicalVarKind]) -> UniverseIndex
    ensures { result ≡ greatest (map kind_of_var kinds.now) }
{
    let mut max = 0;
    for i in 0..kinds.len() {
        let universe = universe_of(kinds[i]);
        if universe > max {
            max = universe;
        }
    }
    max
}
