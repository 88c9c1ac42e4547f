//! Responses applied to tables, case by case.
ghost use Rattle.nts_table.specs.Tables.{IsTable};

use crate::fixture::{applies, certain, region_at};
use crate::steps::Step::{
    Alike, Applies, InUniverse, Let, Refuses, Resolves, Shares, Universes, Variables,
};
use crate::steps::{Certain, Step, plays};
use nts_canonical::CanonicalVarKind;
use nts_canonical::CanonicalVarKind::{Const, Int, PlaceholderTy};
use nts_delegate::RegionConstraint;
use nts_fixtures::Make::{ConstPosition, RootVar, Type};
use nts_fixtures::Type::Position;
use nts_fixtures::{BYTE, Fixture, WORD};
use nts_model::{Relation, Sort, UintTy, VariableKind};
use nts_store::EvalError;
use nts_store::EvalError::{Full, NoSolution};
use nts_table::InferCtxt;
use nts_terms::{
    AliasDefId, AliasId, AliasKind, AliasTerm, BoundTy, GenericArg, PlaceholderType, Region, Ty,
    VisibleForLeakCheck,
};
use std::process::Abort;

/// The kind of a type variable of the root, whose sub root is the first position.
const FIRST: CanonicalVarKind = CanonicalVarKind::Ty { ui: 0, sub_root: 0 };

#[test]
fn a_position_twice_makes_two_variables_one(rt: HostRuntime) {
    const STEPS: &[Step] = &[
        Let("x", RootVar(VariableKind::Ty)),
        Let("y", RootVar(VariableKind::Ty)),
        Let("z", RootVar(VariableKind::Ty)),
        Let("position", Type(Position(0))),
        Applies(&["x", "y"], Certain(0, &[FIRST], &["position", "position"])),
        Alike("x", "y"),
        Resolves("z", "z"),
    ];
    plays(&rt, rt.alloc(), STEPS);
}

#[test]
fn kinds_without_values_and_odd_sub_roots(rt: HostRuntime) {
    const SECOND: CanonicalVarKind = CanonicalVarKind::Ty { ui: 0, sub_root: 1 };
    const EIGHTH: CanonicalVarKind = CanonicalVarKind::Ty { ui: 0, sub_root: 7 };
    const STEPS: &[Step] = &[
        Let("x", RootVar(VariableKind::Ty)),
        Let("byte", BYTE),
        Applies(&["x"], Certain(0, &[FIRST, EIGHTH, Int, SECOND], &["byte"])),
        Resolves("x", "byte"),
        Variables(5),
    ];
    plays(&rt, rt.alloc(), STEPS);
}

#[test]
fn variables_of_one_sub_root_are_of_one_class(rt: HostRuntime) {
    const THIRD: CanonicalVarKind = CanonicalVarKind::Ty { ui: 0, sub_root: 2 };
    const STEPS: &[Step] = &[
        Let("x", RootVar(VariableKind::Ty)),
        Let("y", RootVar(VariableKind::Ty)),
        Let("z", RootVar(VariableKind::Ty)),
        Let("first", Type(Position(0))),
        Let("second", Type(Position(1))),
        Let("third", Type(Position(2))),
        Applies(
            &["x", "y", "z"],
            Certain(0, &[FIRST, FIRST, THIRD], &["first", "second", "third"]),
        ),
        Shares(0, 1, true),
        Shares(0, 2, false),
        Resolves("x", "x"),
        Resolves("y", "y"),
    ];
    plays(&rt, rt.alloc(), STEPS);
}

#[test]
fn an_original_of_the_kind_is_guessed(rt: HostRuntime) {
    const STEPS: &[Step] = &[
        Let("x", RootVar(VariableKind::Int)),
        Let("position", Type(Position(0))),
        Applies(&["x"], Certain(0, &[Int], &["position"])),
        Variables(1),
    ];
    plays(&rt, rt.alloc(), STEPS);
}

#[test]
fn a_placeholder_that_the_original_cannot_name(rt: HostRuntime) {
    const PLACEHOLDER: PlaceholderType = PlaceholderType {
        universe: 1,
        bound: BoundTy { var: 0 },
    };
    const STEPS: &[Step] = &[
        Let("x", RootVar(VariableKind::Ty)),
        Let("position", Type(Position(0))),
        Refuses(
            &["x"],
            Certain(1, &[PlaceholderTy(PLACEHOLDER)], &["position"]),
            NoSolution,
        ),
        InUniverse(0),
        Resolves("x", "x"),
    ];
    plays(&rt, rt.alloc(), STEPS);
}

#[test]
fn more_universes_than_there_are(rt: HostRuntime) {
    const STEPS: &[Step] = &[
        Universes(1),
        Refuses(&[], Certain(4_294_967_295, &[], &[]), Full),
        InUniverse(1),
        Applies(&[], Certain(4_294_967_294, &[], &[])),
        InUniverse(4_294_967_295),
    ];
    plays(&rt, rt.alloc(), STEPS);
}

#[test]
fn a_last_value_that_does_not_match(rt: HostRuntime) {
    const STEPS: &[Step] = &[
        Let("x", RootVar(VariableKind::Ty)),
        Let("byte", BYTE),
        Let("word", WORD),
        Refuses(
            &["x", "word"],
            Certain(0, &[FIRST], &["byte", "byte"]),
            NoSolution,
        ),
        Resolves("x", "x"),
        Variables(1),
    ];
    plays(&rt, rt.alloc(), STEPS);
}

#[test]
fn a_position_of_another_sort(rt: HostRuntime) {
    const STEPS: &[Step] = &[
        Let("x", RootVar(VariableKind::Ty)),
        Let("position", ConstPosition(0)),
        Refuses(&["x"], Certain(0, &[Const(0)], &["position"]), NoSolution),
        Resolves("x", "x"),
    ];
    plays(&rt, rt.alloc(), STEPS);
}

#[test]
fn the_leak_check_sees_what_the_query_showed(rt: HostRuntime) {
    let mut fixture = Fixture::new(rt.alloc()).expect(&rt, "memory");
    see_the_leak_check(&rt, &mut fixture).expect(&rt, "memory");
}

fn see_the_leak_check(rt: &impl Abort, fixture: &mut Fixture) -> Result<(), EvalError>
    requires { IsTable fixture.old.cx.nodes fixture.old.table }
{
    let a = fixture.root_var(VariableKind::Region)?;
    let b = fixture.root_var(VariableKind::Region)?;
    let outlives = first_outlives_second(fixture)?;
    apply_outlives(rt, fixture, &[a, b], outlives)?;
    see_recorded(rt, &fixture.table, a, b);
    Ok(())
}

/// The constraint that the first position outlives the second one.
fn first_outlives_second(fixture: &mut Fixture) -> Result<RegionConstraint, EvalError>
    requires { IsTable fixture.old.cx.nodes fixture.old.table }
    ensures { IsTable fixture.new.cx.nodes fixture.new.table }
{
    let left = region_at(fixture, 0)?;
    let right = region_at(fixture, 1)?;
    Ok(RegionConstraint {
        relation: Relation::RegionOutlives,
        left,
        right: Region { node: right.node },
    })
}

/// Applies the response to two regions that one outlives the other, which the leak check does not see.
fn apply_outlives(
    rt: &impl Abort,
    fixture: &mut Fixture,
    originals: &[GenericArg],
    outlives: RegionConstraint,
) -> Result<(), EvalError>
    requires { IsTable fixture.old.cx.nodes fixture.old.table }
    ensures { IsTable fixture.new.cx.nodes fixture.new.table }
{
    let alloc = fixture.cx.alloc;
    let kinds = [CanonicalVarKind::Region(0), CanonicalVarKind::Region(0)];
    let values = [outlives.left, GenericArg::from(outlives.right)];
    let mut response = certain(alloc, 0, &kinds, &values)?;
    let constraints = &mut response.value.external_constraints.region_constraints;
    constraints.push((outlives, VisibleForLeakCheck::No))?;
    applies(rt, fixture, originals, &response)
}

/// The one constraint of a table of two variables, which the leak check does not see.
fn see_recorded(rt: &impl Abort, table: &InferCtxt, left: GenericArg, right: GenericArg) {
    assert!(rt; table.variable_count() == 2);
    assert!(rt; table.constraint_count() == 1);
    let recorded = table.constraint(0);
    assert!(rt; recorded.left == left.node);
    assert!(rt; recorded.right == right.node);
    assert!(rt; !recorded.is_visible);
}

#[test]
fn a_hidden_type_that_gives_place_becomes_a_duplicate(rt: HostRuntime) {
    let mut fixture = Fixture::new(rt.alloc()).expect(&rt, "memory");
    see_a_duplicate(&rt, &mut fixture).expect(&rt, "memory");
}

fn see_a_duplicate(rt: &impl Abort, fixture: &mut Fixture) -> Result<(), EvalError>
    requires { IsTable fixture.old.cx.nodes fixture.old.table }
{
    let alias = fixture.declare_alias(&[Sort::Ty], AliasKind::Opaque)?;
    let a = fixture.root_var(VariableKind::Ty)?;
    let word = fixture.uint(UintTy::U32)?;
    let older = fixture.hide(alias, &[word], Ty { node: a.node })?;
    assert!(rt; older.is_none());
    see_the_newer(rt, fixture, alias, word, a)
}

/// Another hidden type of the alias over a type comes, and the older one becomes a duplicate.
fn see_the_newer(
    rt: &impl Abort,
    fixture: &mut Fixture,
    alias: AliasId,
    of: GenericArg,
    older: GenericArg,
) -> Result<(), EvalError>
    requires { IsTable fixture.old.cx.nodes fixture.old.table }
{
    let byte = fixture.uint(UintTy::U8)?;
    let args = fixture.args(&[of])?;
    let def_id = AliasDefId::Ty(alias);
    let ty = Ty { node: byte.node };
    apply_hidden(rt, fixture, AliasTerm { def_id, args }, ty)?;
    see_hidden(rt, &fixture.table, byte, older);
    Ok(())
}

/// Applies the response, to nothing, that an alias hides a type.
fn apply_hidden(
    rt: &impl Abort,
    fixture: &mut Fixture,
    alias: AliasTerm,
    ty: Ty,
) -> Result<(), EvalError>
    requires { IsTable fixture.old.cx.nodes fixture.old.table }
    ensures { IsTable fixture.new.cx.nodes fixture.new.table }
{
    let alloc = fixture.cx.alloc;
    let mut response = certain(alloc, 0, &[], &[])?;
    let hidden = &mut response.value.external_constraints.opaque_types;
    hidden.push((alias, ty))?;
    applies(rt, fixture, &[], &response)
}

/// The one hidden type of a table, and its one duplicate.
fn see_hidden(rt: &impl Abort, table: &InferCtxt, hidden: GenericArg, duplicate: GenericArg) {
    assert!(rt; table.num_opaque_types() == 1);
    assert!(rt; table.hidden_type(0).ty.node == hidden.node);
    let duplicates = table.clone_duplicate_opaque_types().expect(rt, "memory");
    assert!(rt; duplicates.len() == 1 && duplicates[0].1.node == duplicate.node);
}
