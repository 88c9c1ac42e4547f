//! Canonical inputs of goals, case by case.
ghost use Rattle.std.specs.Prelude.{◌<◌};
ghost use Rattle.nts_table.specs.Tables.{IsTable};

use crate::inputs::{canonical, declare, join, rebuilt, trait_holds, with_hidden};
use crate::steps::Seen::{
    Asks, Greatest, In, Originals, PlaceholderRegion, Positions, Same, SameAsCopy,
};
use crate::steps::Step::{
    AnotherTable, Env, GivesBack, Holds, Input, InputIn, Is, IsLast, Joins, LeadsTo, Let, Of,
    Trait, Universes, Value, Variables,
};
use crate::steps::{Seen, Step, plays};
use nts_canonical::{Canonical, CanonicalInput, CanonicalVarKind, instantiate_canonical};
use nts_fixtures::Fixture;
use nts_fixtures::Make::{Region, Type, Var, Wrap};
use nts_fixtures::Type::{Placeholder, Position};
use nts_model::VariableKind::Ty;
use nts_model::{BoundVarIndexKind, Sort, UintTy, VariableKind};
use nts_store::EvalError;
use nts_terms::RegionKind::{ReEarlyParam, RePlaceholder, ReStatic};
use nts_terms::{
    AliasDefId, AliasKind, AliasTerm, BoundRegion, BoundTy, Cx, GenericArg, PlaceholderType, TyKind,
};
use std::process::Abort;

#[test]
fn equal_variables_have_one_position(rt: HostRuntime) {
    const STEPS: &[Step] = &[
        Trait(&[Sort::Ty, Sort::Ty, Sort::Ty]),
        Let("a", Var(Ty)),
        Let("b", Var(Ty)),
        Holds("goal", 0, &["a", "b", "a"]),
        Input("input", "goal"),
        Of("input", Originals(&["a", "b"])),
        Let("first", Type(Position(0))),
        Let("second", Type(Position(1))),
        Holds("wanted", 0, &["first", "second", "first"]),
        Of("input", Asks("wanted", true)),
        Of("input", Greatest(0)),
        Of("input", Positions(2)),
        Of("input", Seen::Ty(0, 0)),
        Of("input", Seen::Ty(1, 1)),
    ];
    plays(&rt, rt.alloc(), STEPS);
}

#[test]
fn one_sub_root(rt: HostRuntime) {
    const STEPS: &[Step] = &[
        Trait(&[Sort::Ty, Sort::Ty]),
        Let("a", Var(Ty)),
        Let("b", Var(Ty)),
        Holds("goal", 0, &["a", "b"]),
        Input("apart", "goal"),
        Joins(0, 1),
        Input("joined", "goal"),
        Of("joined", Seen::Ty(0, 0)),
        Of("joined", Seen::Ty(1, 0)),
        Of("apart", Same("joined", false)),
        Of("joined", Same("joined", true)),
    ];
    plays(&rt, rt.alloc(), STEPS);
}

#[test]
fn static_of_an_environment_stays(rt: HostRuntime) {
    const STEPS: &[Step] = &[
        Trait(&[Sort::Region]),
        Let("region", Region(ReStatic)),
        Holds("goal", 0, &["region"]),
        Env("env", "goal"),
        InputIn("input", "env", "goal"),
        Of("input", Originals(&["region"])),
        Of("input", In("env")),
        Of("input", Asks("goal", false)),
        Of("input", Positions(1)),
        Of("input", PlaceholderRegion(0, 0)),
    ];
    plays(&rt, rt.alloc(), STEPS);
}

/// Sees the numbers of so many variables, and of the first and the last of them again.
fn see_both_ends(
    rt: &impl Abort,
    fixture: &mut Fixture,
    count: usize,
    sorts: &[Sort],
) -> Result<(), EvalError>
    requires table { IsTable fixture.old.cx.nodes fixture.old.table }
    requires some { 0 < count }
{
    let alloc = fixture.cx.alloc;
    let id = declare(fixture, sorts)?;
    let mut variables = Vec::new(alloc);
    let mut positions = Vec::new(alloc);
    for i in 0..count {
        variables.push(fixture.ty_var()?)?;
        positions.push(fixture.position(i)?)?;
    }
    let mut again = variables.clone()?;
    again.push(variables[0])?;
    again.push(variables[count - 1])?;
    positions.push(positions[0])?;
    positions.push(positions[count - 1])?;
    let predicate = trait_holds(rt, fixture, id, &again)?;
    let env = fixture.env;
    let (originals, input) = canonical(fixture, env, predicate)?;
    assert!(rt; originals == variables);
    let wanted = trait_holds(rt, fixture, id, &positions)?;
    assert!(rt; input.canonical.value.goal.predicate == wanted);
    assert_eq!(rt; input.canonical.var_kinds.len(), count);
    Ok(())
}

/// So many are searched in a list.
#[test]
fn sixteen_variables_and_both_ends_again(rt: HostRuntime) {
    let mut fixture = Fixture::new(rt.alloc()).expect(&rt, "memory");
    see_both_ends(&rt, &mut fixture, 16, &[Sort::Ty; 18]).expect(&rt, "memory");
}

/// The last of these is the first that is put into a table.
#[test]
fn seventeen_variables_and_both_ends_again(rt: HostRuntime) {
    let mut fixture = Fixture::new(rt.alloc()).expect(&rt, "memory");
    see_both_ends(&rt, &mut fixture, 17, &[Sort::Ty; 19]).expect(&rt, "memory");
}

#[test]
fn eighteen_variables_and_both_ends_again(rt: HostRuntime) {
    let mut fixture = Fixture::new(rt.alloc()).expect(&rt, "memory");
    see_both_ends(&rt, &mut fixture, 18, &[Sort::Ty; 20]).expect(&rt, "memory");
}

#[test]
fn variables_of_two_tables(rt: HostRuntime) {
    const STEPS: &[Step] = &[
        Trait(&[Sort::Ty, Sort::Ty]),
        Let("a", Var(Ty)),
        Let("b", Var(Ty)),
        Let("inside", Wrap("b")),
        Holds("goal", 0, &["a", "inside"]),
        Input("first", "goal"),
        Let("its own", Wrap("a")),
        Holds("goal of one", 0, &["a", "its own"]),
        Input("other", "goal of one"),
        AnotherTable,
        Let("unused", Var(Ty)),
        Let("d", Var(Ty)),
        Let("c", Var(Ty)),
        Let("inside", Wrap("d")),
        Holds("goal", 0, &["c", "inside"]),
        Input("second", "goal"),
        Of("first", Same("second", true)),
        Of("first", Same("other", false)),
    ];
    plays(&rt, rt.alloc(), STEPS);
}

#[test]
fn placeholders(rt: HostRuntime) {
    const STEPS: &[Step] = &[
        Universes(1),
        Trait(&[Sort::Ty, Sort::Ty]),
        Let("a", Type(Placeholder(1, 3))),
        Let("b", Type(Placeholder(1, 5))),
        Holds("one twice", 0, &["a", "a"]),
        Holds("a and b", 0, &["a", "b"]),
        Holds("b and a", 0, &["b", "a"]),
        Input("twice", "one twice"),
        Input("one way", "a and b"),
        Input("other way", "b and a"),
        Of("twice", Same("one way", false)),
        Of("one way", Same("other way", true)),
    ];
    plays(&rt, rt.alloc(), STEPS);
}

#[test]
fn static_is_a_leaf_outside_of_an_environment(rt: HostRuntime) {
    const STEPS: &[Step] = &[
        Trait(&[Sort::Region]),
        Trait(&[]),
        Let("fixed", Region(ReStatic)),
        Let("param", Region(ReEarlyParam(0))),
        Holds("of fixed", 0, &["fixed"]),
        Holds("of param", 0, &["param"]),
        Input("first", "of fixed"),
        Input("second", "of param"),
        Of("first", Same("second", true)),
        Holds("bare", 1, &[]),
        Env("env of fixed", "of fixed"),
        Env("env of param", "of param"),
        InputIn("in the first", "env of fixed", "bare"),
        InputIn("in the second", "env of param", "bare"),
        Of("in the first", Same("in the second", false)),
    ];
    plays(&rt, rt.alloc(), STEPS);
}

#[test]
fn a_copy_is_the_same(rt: HostRuntime) {
    const STEPS: &[Step] = &[
        Trait(&[Sort::Ty]),
        Let("a", Var(Ty)),
        Holds("goal", 0, &["a"]),
        Input("input", "goal"),
        Of("input", SameAsCopy),
    ];
    plays(&rt, rt.alloc(), STEPS);
}

#[test]
fn originals_give_a_goal_back(rt: HostRuntime) {
    const STEPS: &[Step] = &[
        Trait(&[Sort::Ty, Sort::Ty]),
        Let("a", Var(Ty)),
        Let("inside", Wrap("a")),
        Holds("goal", 0, &["inside", "a"]),
        Env("env", "goal"),
        GivesBack("env", "goal"),
    ];
    plays(&rt, rt.alloc(), STEPS);
}

#[test]
fn hidden_types_are_part_of_an_input(rt: HostRuntime) {
    let mut fixture = Fixture::new(rt.alloc()).expect(&rt, "memory");
    see_hidden_types(&rt, &mut fixture).expect(&rt, "memory");
}

fn see_hidden_types(rt: &impl Abort, fixture: &mut Fixture) -> Result<(), EvalError>
    requires { IsTable fixture.old.cx.nodes fixture.old.table }
{
    let bare = declare(fixture, &[])?;
    let a = fixture.ty_var()?;
    let b = fixture.ty_var()?;
    let first = fixture.position(0)?;
    let second = fixture.position(1)?;
    let wanted = fixture.args(&[first])?;
    let predicate = trait_holds(rt, fixture, bare, &[])?;
    let id = fixture.declare_alias(&[Sort::Ty], AliasKind::Opaque)?;
    let (originals, input) = with_hidden(fixture, predicate, id, b, a)?;
    assert!(rt; originals.as_slice() == [b, a].as_slice());
    see_hidden(
        rt,
        &input,
        AliasTerm {
            def_id: AliasDefId::Ty(id),
            args: wanted,
        },
        second,
    );
    Ok(())
}

/// The first hidden type of an input, and its alias.
fn see_hidden(rt: &impl Abort, input: &CanonicalInput, wanted: AliasTerm, hidden: GenericArg) {
    match input.canonical.value.predefined_opaques_in_body.get(0) {
        Some((alias, ty)) => {
            assert!(rt; alias.def_id == wanted.def_id);
            assert!(rt; alias.args == wanted.args);
            assert!(rt; GenericArg::from(*ty) == hidden);
        }
        None => assert!(rt; false),
    }
}

#[test]
fn a_table_that_is_made_has_the_input_again(rt: HostRuntime) {
    let mut fixture = Fixture::new(rt.alloc()).expect(&rt, "memory");
    see_the_input_again(&rt, &mut fixture).expect(&rt, "memory");
}

fn see_the_input_again(rt: &impl Abort, fixture: &mut Fixture) -> Result<(), EvalError>
    requires { IsTable fixture.old.cx.nodes fixture.old.table }
{
    fixture.universe()?;
    let id = declare(fixture, &[Sort::Ty, Sort::Ty, Sort::Ty, Sort::Ty])?;
    let a = fixture.ty_var()?;
    let b = fixture.ty_var()?;
    let c = fixture.ty_var()?;
    join(rt, fixture, 0, 2);
    let held = fixture.placeholder(1, 7)?;
    let inside = fixture.wrap(b)?;
    let predicate = trait_holds(rt, fixture, id, &[held, a, inside, c])?;
    let alias = fixture.declare_alias(&[Sort::Ty], AliasKind::Opaque)?;
    let (values, originals, same) = rebuilt(fixture, predicate, alias, b, [a, c])?;
    assert!(rt; same && values == originals);
    see_rebuilt(rt, fixture, &values);
    Ok(())
}

/// The table that was made, and the values of the positions.
fn see_rebuilt(rt: &impl Abort, fixture: &Fixture, values: &[GenericArg]) {
    let table = &fixture.table;
    assert_eq!(rt; values.len(), 4);
    assert_eq!(rt; table.variable_count(), 3);
    assert!(rt; table.variable(0).sub_link == None);
    assert!(rt; table.variable(1).sub_link == None);
    assert!(rt; table.variable(2).sub_link == Some(0));
    assert_eq!(rt; table.num_opaque_types(), 1);
    assert!(rt; GenericArg::from(table.hidden_type(0).ty) == values[3]);
}

#[test]
fn values_of_kinds(rt: HostRuntime) {
    const TY: CanonicalVarKind = CanonicalVarKind::Ty { ui: 4, sub_root: 0 };
    const STEPS: &[Step] = &[
        Universes(7),
        Value("first", TY, &[]),
        IsLast(VariableKind::Ty, 5),
        Value("second", TY, &["first"]),
        IsLast(VariableKind::Ty, 5),
        LeadsTo(1, 0),
        Value("third", TY, &["second"]),
        LeadsTo(2, 0),
        Value("integer", CanonicalVarKind::Int, &["first", "third"]),
        IsLast(VariableKind::Int, 0),
        Value("float", CanonicalVarKind::Float, &[]),
        IsLast(VariableKind::Float, 0),
        Value("const", CanonicalVarKind::Const(0), &[]),
        IsLast(VariableKind::Const, 1),
        Value("region", CanonicalVarKind::Region(2), &[]),
        IsLast(VariableKind::Region, 3),
    ];
    plays(&rt, rt.alloc(), STEPS);
}

#[test]
fn placeholders_are_moved_into_universes(rt: HostRuntime) {
    const TY: PlaceholderType = PlaceholderType {
        universe: 0,
        bound: BoundTy { var: 3 },
    };
    const REGION: nts_terms::PlaceholderRegion = nts_terms::PlaceholderRegion {
        universe: 6,
        bound: BoundRegion { var: 2 },
    };
    const MOVED: nts_terms::PlaceholderRegion = nts_terms::PlaceholderRegion {
        universe: 7,
        bound: BoundRegion { var: 2 },
    };
    const STEPS: &[Step] = &[
        Universes(7),
        Value("type", CanonicalVarKind::PlaceholderTy(TY), &[]),
        Let("wanted type", Type(Placeholder(1, 3))),
        Is("type", "wanted type", true),
        Value("region", CanonicalVarKind::PlaceholderRegion(REGION), &[]),
        Let("wanted region", Region(RePlaceholder(MOVED))),
        Is("region", "wanted region", true),
        Variables(0),
    ];
    plays(&rt, rt.alloc(), STEPS);
}

#[test]
fn instantiates_a_list_of_types(rt: HostRuntime) {
    let mut cx = Cx::new(rt.alloc());
    see_a_list(&rt, &mut cx);
}

fn see_a_list(rt: &impl Abort, cx: &mut Cx) {
    let alloc = cx.alloc;
    let position = cx
        .mk_ty(TyKind::Bound(BoundVarIndexKind::Canonical, BoundTy { var: 0 }))
        .expect(rt, "memory");
    let word = cx.mk_ty(TyKind::Uint(UintTy::U32)).expect(rt, "memory");
    let canonical = Canonical {
        value: vec![in alloc; position, word, position].expect(rt, "memory"),
        max_universe: 0,
        var_kinds: Vec::new(alloc),
    };
    let found = instantiate_canonical(cx, canonical, &[word.into()]).expect(rt, "memory");
    assert!(rt; found.as_slice() == [word, word, word].as_slice());
}
