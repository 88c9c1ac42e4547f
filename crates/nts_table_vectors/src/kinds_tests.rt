//! Variables of integers, floats and consts, and hidden types.
ghost use Rattle.nts_table.specs.Tables.{IsTable};

use crate::fixture::{duplicates, hidden, hidden_since, hide_beside, uint};
use crate::steps::Step::{
    Known, Let, Link, OpenIn, Refuses, Relates, Resolves, Root, RootNumber, StaysConst, StaysType,
    Universe, Unset,
};
use crate::steps::{Step, plays};
use nts_fixtures::Make::{ConstParam, Type, Var, Wrap};
use nts_fixtures::Type::{Float, Int};
use nts_fixtures::{BYTE, Fixture, WORD};
use nts_model::{FloatTy, IntTy, UintTy, VariableKind};
use nts_store::EvalError;
use nts_table::InferCtxt;
use nts_terms::{AliasDefId, AliasId, AliasKind, Ty};
use std::process::Abort;

#[test]
fn integers(rt: HostRuntime) {
    const STEPS: &[Step] = &[
        Universe,
        Let("number", Var(VariableKind::Int)),
        Unset(0, 0),
        Let("byte", BYTE),
        Let("signed", Type(Int(IntTy::I64))),
        Let("real", Type(Float(FloatTy::F32))),
        Let("bytes", Wrap("byte")),
        Refuses("number", "real"),
        Refuses("number", "bytes"),
        Relates("number", "byte"),
        Known(0, 0, "byte"),
        Refuses("signed", "number"),
    ];
    plays(&rt, rt.alloc(), STEPS);
}

#[test]
fn floats(rt: HostRuntime) {
    const STEPS: &[Step] = &[
        Let("first", Var(VariableKind::Float)),
        Let("second", Var(VariableKind::Float)),
        Let("number", Var(VariableKind::Int)),
        Let("byte", BYTE),
        Let("real", Type(Float(FloatTy::F64))),
        Refuses("first", "byte"),
        Refuses("first", "number"),
        Relates("second", "first"),
        Link(1, 0, 0),
        Relates("second", "real"),
        Known(0, 0, "real"),
    ];
    plays(&rt, rt.alloc(), STEPS);
}

#[test]
fn a_variable_for_a_type(rt: HostRuntime) {
    const STEPS: &[Step] = &[
        Let("hole", Var(VariableKind::Ty)),
        Let("number", Var(VariableKind::Int)),
        Let("real", Var(VariableKind::Float)),
        Let("word", WORD),
        Relates("number", "hole"),
        Known(0, 0, "number"),
        Unset(1, 0),
        Refuses("hole", "real"),
        Resolves("hole", "number"),
        Relates("hole", "word"),
        Known(1, 0, "word"),
        Resolves("hole", "word"),
    ];
    plays(&rt, rt.alloc(), STEPS);
}

#[test]
fn integers_of_two_types(rt: HostRuntime) {
    const STEPS: &[Step] = &[
        Let("left", Var(VariableKind::Ty)),
        Let("right", Var(VariableKind::Ty)),
        Let("first", Var(VariableKind::Int)),
        Let("second", Var(VariableKind::Int)),
        Relates("left", "first"),
        Relates("right", "second"),
        Relates("left", "right"),
        Link(3, 0, 2),
        Resolves("right", "first"),
    ];
    plays(&rt, rt.alloc(), STEPS);
}

#[test]
fn consts(rt: HostRuntime) {
    const STEPS: &[Step] = &[
        Let("size", Var(VariableKind::Const)),
        Let("param", ConstParam(0)),
        Let("hole", Var(VariableKind::Ty)),
        Refuses("hole", "size"),
        Relates("size", "param"),
        Known(0, 0, "param"),
    ];
    plays(&rt, rt.alloc(), STEPS);
}

/// Variables of four kinds, each of which stands for itself.
#[test]
fn shallow(rt: HostRuntime) {
    const STEPS: &[Step] = &[
        Let("hole", Var(VariableKind::Ty)),
        StaysType("hole"),
        Let("number", Var(VariableKind::Int)),
        Root(VariableKind::Int, 1, "number"),
        Let("real", Var(VariableKind::Float)),
        Root(VariableKind::Float, 2, "real"),
        Let("size", Var(VariableKind::Const)),
        RootNumber(VariableKind::Const, 3, 3),
        OpenIn(VariableKind::Const, 3, 0),
        Root(VariableKind::Const, 3, "size"),
        StaysConst("size"),
    ];
    plays(&rt, rt.alloc(), STEPS);
}

/// An opaque alias without arguments, and the types of two kinds of integers.
fn alias_and_types(fixture: &mut Fixture) -> Result<(AliasId, Ty, Ty), EvalError>
    requires { IsTable fixture.old.cx.nodes fixture.old.table }
    ensures { IsTable fixture.new.cx.nodes fixture.new.table }
{
    let alias = fixture.declare_alias(&[], AliasKind::Opaque)?;
    let byte = uint(fixture, UintTy::U8)?;
    let word = uint(fixture, UintTy::U32)?;
    Ok((alias, byte, word))
}

/// Registers a hidden type of an alias, of which this was the older one.
fn hides(
    rt: &impl Abort,
    fixture: &mut Fixture,
    alias: AliasId,
    ty: Ty,
    older: Option<Ty>,
) -> Result<(), EvalError>
    requires { IsTable fixture.old.cx.nodes fixture.old.table }
    ensures { IsTable fixture.new.cx.nodes fixture.new.table }
{
    assert!(rt; fixture.hide(alias, &[], ty)? == older);
    Ok(())
}

#[test]
fn hidden_types(rt: HostRuntime) {
    let mut fixture = Fixture::new(rt.alloc()).expect(&rt, "memory");
    see_hidden(&rt, &mut fixture).expect(&rt, "memory");
}

fn see_hidden(rt: &impl Abort, fixture: &mut Fixture) -> Result<(), EvalError>
    requires { IsTable fixture.old.cx.nodes fixture.old.table }
{
    let (alias, byte, word) = alias_and_types(fixture)?;
    hidden(rt, fixture, &[]);
    hides(rt, fixture, alias, byte, None)?;
    hidden(rt, fixture, &[byte]);
    hides(rt, fixture, alias, word, Some(byte))?;
    hidden(rt, fixture, &[word]);
    Ok(())
}

#[test]
fn duplicates_of_hidden_types(rt: HostRuntime) {
    let mut fixture = Fixture::new(rt.alloc()).expect(&rt, "memory");
    see_duplicates(&rt, &mut fixture).expect(&rt, "memory");
}

fn see_duplicates(rt: &impl Abort, fixture: &mut Fixture) -> Result<(), EvalError>
    requires { IsTable fixture.old.cx.nodes fixture.old.table }
{
    let (alias, byte, word) = alias_and_types(fixture)?;
    hides(rt, fixture, alias, byte, None)?;
    hide_beside(fixture, alias, word)?;
    let snapshot = fixture.table.start_snapshot()?;
    hide_beside(fixture, alias, byte)?;
    duplicates(rt, fixture, &[word, byte]);
    fixture.table.rollback_to(snapshot);
    duplicates(rt, fixture, &[word]);
    Ok(())
}

#[test]
fn lists_of_hidden_types(rt: HostRuntime) {
    let mut fixture = Fixture::new(rt.alloc()).expect(&rt, "memory");
    see_lists(&rt, &mut fixture).expect(&rt, "memory");
}

fn see_lists(rt: &impl Abort, fixture: &mut Fixture) -> Result<(), EvalError>
    requires { IsTable fixture.old.cx.nodes fixture.old.table }
{
    let (alias, byte, word) = alias_and_types(fixture)?;
    hides(rt, fixture, alias, byte, None)?;
    hide_beside(fixture, alias, word)?;
    see_lookup(rt, &fixture.table, alias, byte);
    hidden_since(rt, fixture, 0, &[byte]);
    hidden_since(rt, fixture, 1, &[]);
    hidden_since(rt, fixture, 7, &[]);
    Ok(())
}

/// The one hidden type of a table, with its alias.
fn see_lookup(rt: &impl Abort, table: &InferCtxt, alias: AliasId, ty: Ty) {
    let lookup = table.clone_opaque_types_lookup_table().expect(rt, "memory");
    assert!(rt; lookup.len() == 1);
    assert!(rt; lookup[0].0.def_id == AliasDefId::Ty(alias) && lookup[0].1 == ty);
}
