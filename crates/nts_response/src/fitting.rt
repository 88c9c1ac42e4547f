//! Whether a response can be applied to originals.
ghost use Rattle.std.specs.Prelude.{◌≡◌, ◌↔◌, ◌≤◌, ◌++◌, List, map, drop, length, All, IsTrue, IfOk, IsOkUnless};
ghost use Rattle.nts_model.specs.declared.labels.Sort.{Sort};
ghost use Rattle.nts_model.specs.Canonical.Inputs.{placeholder};
ghost use Rattle.nts_model.specs.Terms.Trees.{Tree};
ghost use Rattle.nts_model.specs.Searching.Driving.{sort_at};
ghost use Rattle.nts_store.specs.Growth.{IsIn};
ghost use Rattle.nts_terms.specs.Handles.{Holds, HoldsArg};
ghost use Rattle.nts_canonical.specs.Forms.{kind_of_var, trees_of};
ghost use Rattle.nts_response.specs.Applied.{NamesOriginal};
ghost use Rattle.nts_response.specs.Applicable.{IsOverSorts, left_place, IsKindFor, IsApplicable};
ghost use Rattle.nts_response.specs.Instantiated.{IsInstantiable};
ghost use Rattle.nts_response.specs.OverSorts.{is_moved, MayStay, IsArgIn, IsConstraintIn, IsHiddenIn, IsGoalIn, IsValueOver};

use crate::types::{CanonicalResponse, CanonicalState, Response};
use crate::unconstrained::sort_of_kind;
use nts_candidates::nts_certainty::GoalSource;
use nts_candidates::{RegionConstraint, is_foreign_leaf_of, names_fresh};
use nts_canonical::{CanonicalVarKind, universe_of};
use nts_model::{Label, Relation, Sort};
use nts_store::{Fault, LabelTest, NodeId, all_labels, sort_of};
use nts_terms::{
    AliasDefId, AliasTerm, Cx, GenericArg, Goal, Region, Stored, Ty, UniverseIndex,
    VisibleForLeakCheck,
};
use std::alloc::{AllocError, Global};

/// What the labels of a response's terms are to be, over positions of these sorts.
#[derive(Drop)]
struct PositionLabels<'a> {
    sorts: &'a [Sort],
}

impl LabelTest for PositionLabels<'_> {
    ghost passes = { λ s l. MayStay s.sorts.now l };

    fn test(&self, label: Label) -> bool {
        names_fresh(self.sorts, label) && !is_moved(label)
    }
}

/// Whether the label is a leaf, other than of a region that stays itself.
fn is_moved(label: Label) -> bool
    ensures { result ≡ is_moved label }
{
    match label {
        Label::Leaf(leaf) => is_foreign_leaf_of(leaf),
        _ => false,
    }
}

/// An entry of a list of a response.
trait Entry: Copy {
    ghost is_over: { List Tree → List Sort → Self → Type 0 };

    /// Whether the terms of the entry are of the store, and closed terms over positions of these sorts.
    fn fits(self, cx: &Cx, sorts: &[Sort]) -> Result<bool, AllocError>
        ensures { IfOk result (λ b. IsTrue b ↔ is_over cx.now.nodes sorts.now self) };
}

impl Entry for GenericArg {
    ghost is_over = { IsArgIn };

    fn fits(self, cx: &Cx, sorts: &[Sort]) -> Result<bool, AllocError> {
        term_fits(cx, sorts, self)
    }
}

impl Entry for (RegionConstraint, VisibleForLeakCheck) {
    ghost is_over = { IsConstraintIn };

    fn fits(self, cx: &Cx, sorts: &[Sort]) -> Result<bool, AllocError> {
        let (constraint, _) = self;
        if !may_stand_left(cx, constraint.relation, constraint.left.node) {
            return Ok(false);
        }
        if !term_fits(cx, sorts, constraint.left)? {
            return Ok(false);
        }
        term_fits(cx, sorts, constraint.right)
    }
}

impl Entry for (AliasTerm, Ty) {
    ghost is_over = { IsHiddenIn };

    fn fits(self, cx: &Cx, sorts: &[Sort]) -> Result<bool, AllocError> {
        let (alias, ty) = self;
        let AliasDefId::Ty(_) = alias.def_id else {
            return Ok(false);
        };
        if !term_fits(cx, sorts, alias.args)? {
            return Ok(false);
        }
        term_fits(cx, sorts, ty)
    }
}

impl Entry for (GoalSource, Goal) {
    ghost is_over = { IsGoalIn };

    fn fits(self, cx: &Cx, sorts: &[Sort]) -> Result<bool, AllocError> {
        let (_, goal) = self;
        if !term_fits(cx, sorts, goal.param_env)? {
            return Ok(false);
        }
        term_fits(cx, sorts, goal.predicate)
    }
}

/// Whether a response can be applied to these originals: its terms are of the store, and are closed ones over positions
/// of its kinds, whose other leaves are regions that stay themselves; on the left of a constraint stands a type where a
/// type outlives, and else a region; the universe of each kind is at most the greatest; a placeholder of the root names
/// an original of its sort; and there are as many values as originals.
pub fn response_fits(
    cx: &Cx,
    originals: &[GenericArg],
    response: &CanonicalResponse,
) -> Result<bool, Fault>
    requires originals { All (HoldsArg cx.now.nodes) originals.now }
    ensures fits { IfOk result (λ b. IsTrue b ↔ IsApplicable cx.now.nodes
        (trees_of cx.now.nodes originals.now) response.now) }
    ensures memory { IsOkUnless result Fault.Memory }
{
    if originals.len() != response.value.var_values.len() {
        return Ok(false);
    }
    if !kinds_fit(cx, originals, response.max_universe, &response.var_kinds) {
        return Ok(false);
    }
    let sorts = sorts_of(cx.alloc, &response.var_kinds)?;
    Ok(value_fits(cx, &sorts, &response.value)?)
}

/// Whether the values of a state can be applied to these originals, whatever its payload is: they are of the store, and are
/// closed terms over positions of its kinds, whose other leaves are regions that stay themselves; there are at least as many
/// as originals; the universe of each kind is at most the greatest; and a placeholder of the root names an original of its
/// sort, or a value that has no original.
pub fn state_fits<T>(
    cx: &Cx,
    originals: &[GenericArg],
    state: &CanonicalState<T>,
) -> Result<bool, Fault>
    requires originals { All (HoldsArg cx.now.nodes) originals.now }
    ensures fits { IfOk result (λ b. IsTrue b ↔ IsInstantiable cx.now.nodes
        (trees_of cx.now.nodes originals.now) state.now) }
    ensures memory { IsOkUnless result Fault.Memory }
{
    let values: &[GenericArg] = &state.value.var_values;
    if originals.len() > values.len() {
        return Ok(false);
    }
    let sorts = sorts_of(cx.alloc, &state.var_kinds)?;
    if !all_fit(cx, &sorts, values)? {
        return Ok(false);
    }
    let named = lengthened(cx.alloc, originals, values)?;
    Ok(kinds_fit(cx, &named, state.max_universe, &state.var_kinds))
}

/// The originals, and behind them the values that have none.
fn lengthened(
    alloc: Global,
    originals: &[GenericArg],
    values: &[GenericArg],
) -> Result<Vec<GenericArg>, AllocError>
    requires { length originals.now ≤ length values.now }
    ensures { IfOk result (λ v. v.items ≡ originals.now ++ drop (length originals.now) values.now) }
{
    let mut all = originals.to_vec(alloc)?;
    all.extend_from_slice(&values[originals.len()..])?;
    Ok(all)
}

/// Whether each entry of the lists of a response fits.
fn value_fits(cx: &Cx, sorts: &[Sort], value: &Response) -> Result<bool, AllocError>
    ensures { IfOk result (λ b. IsTrue b ↔ IsValueOver cx.now.nodes sorts.now value.now) }
{
    let found = &value.external_constraints;
    if !all_fit(cx, sorts, &value.var_values)? {
        return Ok(false);
    }
    if !all_fit(cx, sorts, &found.region_constraints)? {
        return Ok(false);
    }
    if !all_fit(cx, sorts, &found.opaque_types)? {
        return Ok(false);
    }
    all_fit(cx, sorts, &found.normalization_nested_goals)
}

/// Whether each entry of a list fits.
fn all_fit<E: Entry>(cx: &Cx, sorts: &[Sort], entries: &[E]) -> Result<bool, AllocError>
    ensures { IfOk result (λ b. IsTrue b ↔ All (E.is_over cx.now.nodes sorts.now) entries.now) }
{
    for i in 0..entries.len() {
        if !entries[i].fits(cx, sorts)? {
            return Ok(false);
        }
    }
    Ok(true)
}

/// Whether a handle is of the store, and its term a closed one over positions of these sorts.
fn term_fits<T: Stored>(cx: &Cx, sorts: &[Sort], x: T) -> Result<bool, AllocError>
    ensures { IfOk result (λ b. IsTrue b ↔ (Holds T.place cx.now.nodes (T.id x) ×
        IsOverSorts cx.now.nodes sorts.now (T.id x))) }
{
    if !cx.holds(x) {
        return Ok(false);
    }
    is_over_sorts(cx, sorts, x.node())
}

/// Whether a term is a closed one over positions of these sorts, whose binders list what they bind.
fn is_over_sorts(cx: &Cx, sorts: &[Sort], t: NodeId) -> Result<bool, AllocError>
    requires { IsIn cx.now.nodes t }
    ensures { IfOk result (λ b. IsTrue b ↔ IsOverSorts cx.now.nodes sorts.now t) }
{
    if cx.nodes.flags(t).escaping.is_some() {
        return Ok(false);
    }
    if !cx.nodes.is_well_bound(t) {
        return Ok(false);
    }
    all_labels(cx.alloc, &cx.nodes, t, &PositionLabels { sorts })
}

/// Whether the term may stand on the left of such a constraint.
fn may_stand_left(cx: &Cx, relation: Relation, t: NodeId) -> bool
    ensures { IsTrue result ↔ Holds (left_place relation) cx.now.nodes t }
{
    match relation {
        Relation::TypeOutlives => cx.holds(Ty { node: t }),
        Relation::RegionOutlives => cx.holds(Region { node: t }),
        Relation::Equal => cx.holds(Region { node: t }),
    }
}

/// Whether kinds may be those of a response to the originals whose greatest universe this is.
fn kinds_fit(
    cx: &Cx,
    originals: &[GenericArg],
    max_universe: UniverseIndex,
    kinds: &[CanonicalVarKind],
) -> bool
    requires { All (HoldsArg cx.now.nodes) originals.now }
    ensures { IsTrue result ↔ All (λ k. IsKindFor max_universe (trees_of cx.now.nodes originals.now)
        (kind_of_var k)) kinds.now }
{
    for i in 0..kinds.len() {
        if !kind_fits(cx, originals, max_universe, kinds[i]) {
            return false;
        }
    }
    true
}

/// Whether the universe of a kind is at most the greatest, and a placeholder of the root names an original of its sort.
fn kind_fits(
    cx: &Cx,
    originals: &[GenericArg],
    max_universe: UniverseIndex,
    kind: CanonicalVarKind,
) -> bool
    requires { All (HoldsArg cx.now.nodes) originals.now }
    ensures { IsTrue result ↔ IsKindFor max_universe (trees_of cx.now.nodes originals.now)
        (kind_of_var kind) }
{
    universe_of(kind) <= max_universe && names_original(cx, originals, kind)
}

/// Whether the kind is no placeholder of the root, or one that names an original of its sort.
fn names_original(cx: &Cx, originals: &[GenericArg], kind: CanonicalVarKind) -> bool
    requires { All (HoldsArg cx.now.nodes) originals.now }
    ensures { IsTrue result ↔ NamesOriginal (trees_of cx.now.nodes originals.now)
        (kind_of_var kind) }
{
    match kind {
        CanonicalVarKind::PlaceholderTy(p) => {
            names_in_root(cx, originals, Sort::Ty, p.universe, p.bound.var)
        }
        CanonicalVarKind::PlaceholderRegion(p) => {
            names_in_root(cx, originals, Sort::Region, p.universe, p.bound.var)
        }
        CanonicalVarKind::PlaceholderConst(p) => {
            names_in_root(cx, originals, Sort::Const, p.universe, p.bound.var)
        }
        _ => true,
    }
}

/// Whether the universe is not the root, or the original at the position is of that sort.
fn names_in_root(
    cx: &Cx,
    originals: &[GenericArg],
    sort: Sort,
    universe: UniverseIndex,
    position: usize,
) -> bool
    requires { All (HoldsArg cx.now.nodes) originals.now }
    ensures { IsTrue result ↔ NamesOriginal (trees_of cx.now.nodes originals.now)
        (placeholder sort universe position) }
{
    if universe != 0 {
        return true;
    }
    match originals.get(position) {
        Some(original) => sort_of(cx.nodes.label(original.node)) == Some(sort),
        None => false,
    }
}

/// The sorts of the positions of these kinds.
fn sorts_of(alloc: Global, kinds: &[CanonicalVarKind]) -> Result<Vec<Sort>, AllocError>
    ensures { IfOk result (λ v. v.items ≡ map (λ k. sort_at (kind_of_var k)) kinds.now) }
{
    kinds.iter().map(|kind| sort_of_kind(*kind)).collect(alloc)
}
