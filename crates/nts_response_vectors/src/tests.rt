//! Responses as canonical values, case by case.
ghost use Rattle.std.specs.Prelude.{◌≡◌, ◌∷◌, []};
ghost use Rattle.nts_model.specs.Tables.Resolving.{Knows};
ghost use Rattle.nts_store.specs.Growth.{tree_at};
ghost use Rattle.nts_terms.specs.Handles.{Holds};
ghost use Rattle.nts_terms.specs.declared.modes.VisibleForLeakCheck.TheVariants as visible;
ghost use Rattle.nts_unify.specs.Reading.{content_of};
ghost use Rattle.nts_table.specs.Tables.{IsTable};
ghost use Rattle.nts_response.specs.Forms.{findings_at, HoldsResponse, KnowsFindings};

use crate::fixture::certain;
use nts_answering::canonicalize_response;
use nts_canonical::CanonicalVarKind;
use nts_certainty::{Certainty, GoalSource};
use nts_delegate::RegionConstraint;
use nts_fixtures::{Fixture, table_in};
use nts_model::{BoundVarIndexKind, Relation, VariableKind};
use nts_response::{
    CanonicalResponse, ExternalConstraintsData, Response, clone_response,
    has_no_inference_or_external_constraints, is_identity, response_no_constraints_raw,
};
use nts_store::EvalError;
use nts_table::InferCtxt;
use nts_terms::{
    BoundRegion, BoundTy, Cx, GenericArg, Goal, PlaceholderRegion, Predicate, Region, RegionKind,
    Stored, TyKind, VisibleForLeakCheck,
};
use std::alloc::Global;
use std::process::Abort;
use std::test::Fail;

/// The response to an input whose greatest universe is 2, which found these two values and this constraint.
fn response(
    rt: &impl Abort,
    table: &InferCtxt,
    cx: &mut Cx,
    first: GenericArg,
    second: GenericArg,
    constraint: RegionConstraint,
) -> CanonicalResponse
    requires { IsTable cx.old.nodes table.now }
    ensures { IsTable cx.new.nodes table.now }
{
    let value = found(rt, table, cx, first, second, constraint);
    canonicalize_response(table, cx, 2, value).expect(rt, "memory")
}

/// What was found: these two values and this constraint.
fn found(
    rt: &impl Abort,
    table: &InferCtxt,
    cx: &Cx,
    first: GenericArg,
    second: GenericArg,
    constraint: RegionConstraint,
) -> Response
    ensures holds { HoldsResponse cx.now.nodes result }
    ensures knows { KnowsFindings (content_of cx.now.nodes table.now.entries)
        (findings_at cx.now.nodes result) }
{
    is_known(rt, table, cx, first);
    is_known(rt, table, cx, second);
    is_known(rt, table, cx, constraint.left);
    is_known(rt, table, cx, constraint.right);
    let external_constraints = ExternalConstraintsData {
        region_constraints: constraints_of(rt, cx.alloc, constraint),
        opaque_types: Vec::new(cx.alloc),
        normalization_nested_goals: Vec::new(cx.alloc),
    };
    Response {
        certainty: Certainty::Yes,
        var_values: values_of(rt, cx.alloc, first, second),
        external_constraints,
    }
}

/// Sees that a term is of the store and of the table.
fn is_known<T: Stored>(rt: &impl Abort, table: &InferCtxt, cx: &Cx, x: T)
    ensures holds { Holds T.place cx.now.nodes (T.id x) }
    ensures known { Knows (content_of cx.now.nodes table.now.entries)
        (tree_at cx.now.nodes (T.id x)) }
{
    assert!(rt; cx.holds(x));
    assert!(rt; table.knows(cx, x).expect(rt, "memory"));
}

fn values_of(
    rt: &impl Abort,
    alloc: Global,
    first: GenericArg,
    second: GenericArg,
) -> Vec<GenericArg>
    ensures { result.items ≡ first ∷ second ∷ [] }
{
    let mut values = Vec::new(alloc);
    values.push(first).expect(rt, "memory");
    values.push(second).expect(rt, "memory");
    values
}

/// The constraint, which the leak check does not see.
fn constraints_of(
    rt: &impl Abort,
    alloc: Global,
    constraint: RegionConstraint,
) -> Vec<(RegionConstraint, VisibleForLeakCheck)>
    ensures { result.items ≡ (constraint, visible.No) ∷ [] }
{
    let mut constraints = Vec::new(alloc);
    constraints
        .push((constraint, VisibleForLeakCheck::No))
        .expect(rt, "memory");
    constraints
}

fn region(rt: &impl Abort, cx: &mut Cx, table: &InferCtxt, kind: RegionKind) -> Region
    requires { IsTable cx.old.nodes table.now }
    ensures { IsTable cx.new.nodes table.now }
{
    cx.mk_region(kind).expect(rt, "memory")
}

/// The position of a type.
fn position(rt: &impl Abort, cx: &mut Cx, var: usize) -> GenericArg {
    let kind = TyKind::Bound(BoundVarIndexKind::Canonical, BoundTy { var });
    cx.mk_ty(kind).expect(rt, "memory").into()
}

/// The position of a region.
fn region_position(rt: &impl Abort, cx: &mut Cx, var: usize) -> GenericArg {
    let kind = RegionKind::ReBound(BoundVarIndexKind::Canonical, BoundRegion { var });
    cx.mk_region(kind).expect(rt, "memory").into()
}

/// The response has these two values, which are types.
fn has_positions(rt: &impl Abort, cx: &mut Cx, response: &CanonicalResponse, positions: &[usize]) {
    let values = &response.value.var_values;
    assert!(rt; values.len() == positions.len());
    for i in 0..positions.len() {
        let position = position(rt, cx, positions[i]);
        assert!(rt; values.get(i) == Some(&position));
    }
}

#[test]
fn universes_are_counted_from_the_greatest_of_the_input(rt: HostRuntime) {
    let mut cx = Cx::new(rt.alloc());
    let mut table = table_in(&cx, 3).expect(&rt, "memory");
    see_universes(&rt, &mut cx, &mut table);
}

fn see_universes(rt: &impl Abort, cx: &mut Cx, table: &mut InferCtxt)
    requires { IsTable cx.old.nodes table.old }
{
    let far = ty_var(rt, cx, table, 3);
    let near = ty_var(rt, cx, table, 1);
    let fixed = region(rt, cx, table, RegionKind::ReStatic);
    let trivial = RegionConstraint {
        relation: Relation::RegionOutlives,
        left: fixed.into(),
        right: fixed,
    };
    let found = response(rt, table, cx, far, near, trivial);
    has_positions(rt, cx, &found, &[0, 1]);
    see_far_and_near(rt, &found);
}

/// A type variable of that universe.
fn ty_var(rt: &impl Abort, cx: &mut Cx, table: &mut InferCtxt, universe: u32) -> GenericArg
    requires { IsTable cx.old.nodes table.old }
    ensures { IsTable cx.new.nodes table.new }
{
    assert!(rt; universe <= table.universe());
    table
        .variable_in_universe(cx, VariableKind::Ty, universe, None)
        .expect(rt, "memory")
}

/// The far variable is of the universe after the greatest of the input, and the near one of the root.
fn see_far_and_near(rt: &impl Abort, found: &CanonicalResponse) {
    assert!(rt; found.max_universe == 1);
    assert!(rt; found.var_kinds.len() == 2);
    assert!(rt;
        matches!(
            found.var_kinds[0],
            CanonicalVarKind::Ty { ui: 1, sub_root: 0 }
        )
    );
    assert!(rt;
        matches!(
            found.var_kinds[1],
            CanonicalVarKind::Ty { ui: 0, sub_root: 1 }
        )
    );
    assert!(rt; matches!(found.value.certainty, Certainty::Yes));
}

#[test]
fn equal_leaves_have_one_position_and_static_has_none(rt: HostRuntime) {
    let mut cx = Cx::new(rt.alloc());
    let mut table = table_in(&cx, 3).expect(&rt, "memory");
    see_equal_leaves(&rt, &mut cx, &mut table);
}

fn see_equal_leaves(rt: &impl Abort, cx: &mut Cx, table: &mut InferCtxt)
    requires { IsTable cx.old.nodes table.old }
{
    let x = ty_var(rt, cx, table, 0);
    let placeholder = PlaceholderRegion {
        universe: 3,
        bound: BoundRegion { var: 7 },
    };
    let a = region(rt, cx, table, RegionKind::RePlaceholder(placeholder));
    let fixed = region(rt, cx, table, RegionKind::ReStatic);
    let outlives = RegionConstraint {
        relation: Relation::RegionOutlives,
        left: a.into(),
        right: fixed,
    };
    let found = response(rt, table, cx, x, x, outlives);
    has_positions(rt, cx, &found, &[0, 0]);
    see_placeholder(rt, &found);
    see_outlives(rt, cx, &found, fixed);
}

/// The second position is the placeholder, of the universe after the greatest of the input.
fn see_placeholder(rt: &impl Abort, found: &CanonicalResponse) {
    assert!(rt; found.max_universe == 1);
    assert!(rt; found.var_kinds.len() == 2);
    match found.var_kinds[1] {
        CanonicalVarKind::PlaceholderRegion(p) => {
            assert!(rt; p.universe == 1);
            assert!(rt; p.bound.var == 7);
        }
        _ => assert!(rt; false),
    }
}

/// The second position outlives this region, which the leak check does not see.
fn see_outlives(rt: &impl Abort, cx: &mut Cx, found: &CanonicalResponse, fixed: Region) {
    let constraints = &found.value.external_constraints.region_constraints;
    assert!(rt; constraints.len() == 1);
    assert!(rt; !found.value.external_constraints.is_empty());
    let (constraint, visible) = constraints[0];
    assert!(rt; constraint.left == region_position(rt, cx, 1));
    assert!(rt; constraint.right == fixed);
    assert!(rt; matches!(constraint.relation, Relation::RegionOutlives));
    assert!(rt; matches!(visible, VisibleForLeakCheck::No));
}

#[test]
fn what_found_nothing_out_has_its_positions_as_values(rt: HostRuntime) {
    const KINDS: &[CanonicalVarKind] = &[
        CanonicalVarKind::Ty { ui: 0, sub_root: 0 },
        CanonicalVarKind::Int,
        CanonicalVarKind::Region(2),
    ];
    let mut cx = Cx::new(rt.alloc());
    let kinds = KINDS.to_vec(rt.alloc()).expect(&rt, "memory");
    let certainty = Certainty::overflow(true);
    let found = response_no_constraints_raw(&mut cx, 2, kinds, certainty);
    see_nothing_found(&rt, &mut cx, &found.expect(&rt, "memory"));
}

fn see_nothing_found(rt: &impl Abort, cx: &mut Cx, found: &CanonicalResponse)
    requires { HoldsResponse cx.old.nodes found.now.value }
{
    assert!(rt; has_no_inference_or_external_constraints(cx, found));
    assert!(rt; found.value.external_constraints.is_empty());
    assert!(rt; found.max_universe == 2);
    assert!(rt; found.var_kinds.len() == 3);
    assert!(rt; matches!(found.value.certainty, Certainty::Maybe(_)));
    see_second_and_third(rt, cx, &found.value.var_values);
}

/// The second and the third of three values are the positions of a type and of a region.
fn see_second_and_third(rt: &impl Abort, cx: &mut Cx, values: &[GenericArg]) {
    assert!(rt; values.len() == 3);
    assert!(rt; values[1] == position(rt, cx, 1));
    assert!(rt; values[2] == region_position(rt, cx, 2));
}

#[test]
fn values_in_another_order_are_no_identity(rt: HostRuntime) -> Result<(), Fail> {
    let mut fixture = Fixture::new(rt.alloc())?;
    let (first, second) = (fixture.position(0)?, fixture.position(1)?);
    see_orders(&rt, &fixture.cx, first, second);
    Ok(())
}

/// Two positions in their order, in the other one, and one of them twice.
fn see_orders(rt: &impl Abort, cx: &Cx, first: GenericArg, second: GenericArg) {
    assert!(rt; cx.holds(first));
    assert!(rt; cx.holds(second));
    assert!(rt; is_identity(cx, &[first, second]));
    assert!(rt; !is_identity(cx, &[second, first]));
    assert!(rt; !is_identity(cx, &[first, first]));
}

#[test]
fn a_clone_has_what_its_source_has(rt: HostRuntime) {
    let mut fixture = Fixture::new(rt.alloc()).expect(&rt, "memory");
    let copy = cloned(&mut fixture).expect(&rt, "memory");
    see_clone(&rt, &copy);
}

/// A clone of a response with a goal.
fn cloned(fixture: &mut Fixture) -> Result<CanonicalResponse, EvalError>
    requires { IsTable fixture.old.cx.nodes fixture.old.table }
{
    let first = fixture.position(0)?;
    let kind = CanonicalVarKind::Ty { ui: 3, sub_root: 0 };
    let mut response = certain(fixture.cx.alloc, 5, &[kind], &[first, first])?;
    let goal = Goal {
        param_env: fixture.env,
        predicate: Predicate { node: first.node },
    };
    let goals = &mut response
        .value
        .external_constraints
        .normalization_nested_goals;
    goals.push((GoalSource::Misc, goal))?;
    Ok(clone_response(&response)?)
}

fn see_clone(rt: &impl Abort, copy: &CanonicalResponse) {
    assert!(rt; copy.max_universe == 5);
    assert!(rt; copy.var_kinds.len() == 1);
    assert!(rt; copy.value.var_values.len() == 2);
    assert!(rt; matches!(copy.value.certainty, Certainty::Yes));
    see_one_goal(rt, &copy.value.external_constraints);
}

/// One goal alone was found.
fn see_one_goal(rt: &impl Abort, found: &ExternalConstraintsData) {
    assert!(rt; found.region_constraints.is_empty());
    assert!(rt; found.opaque_types.is_empty());
    assert!(rt; found.normalization_nested_goals.len() == 1);
}
