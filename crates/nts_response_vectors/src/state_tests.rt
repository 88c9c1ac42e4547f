//! States put into tables and made from them, case by case.
ghost use Rattle.nts_table.specs.Tables.{IsTable};

use crate::fixture::{instantiate, state};
use nts_canonical::CanonicalVarKind;
use nts_fixtures::Fixture;
use nts_model::{UintTy, VariableKind};
use nts_store::EvalError;
use nts_table::InferCtxt;
use nts_terms::GenericArg;
use std::process::Abort;

/// The kind of a type variable of the root.
const TY: CanonicalVarKind = CanonicalVarKind::Ty { ui: 0, sub_root: 0 };

#[test]
fn a_value_without_an_original_gets_one(rt: HostRuntime) {
    let mut fixture = Fixture::new(rt.alloc()).expect(&rt, "memory");
    let mut originals = Vec::new(rt.alloc());
    see_a_new_original(&rt, &mut fixture, &mut originals).expect(&rt, "memory");
}

fn see_a_new_original(
    rt: &impl Abort,
    fixture: &mut Fixture,
    originals: &mut Vec<GenericArg>,
) -> Result<(), EvalError>
    requires { IsTable fixture.old.cx.nodes fixture.old.table }
{
    let word = fixture.uint(UintTy::U32)?;
    let position = fixture.position(0)?;
    originals.push(word)?;
    let payload = instantiate(rt, fixture, originals, &[TY], &[word, position], 1)?;
    see_payload(rt, fixture, originals, payload)
}

/// The payload has the value of the second original.
fn see_payload(
    rt: &impl Abort,
    fixture: &mut Fixture,
    originals: &[GenericArg],
    payload: GenericArg,
) -> Result<(), EvalError>
    requires { IsTable fixture.old.cx.nodes fixture.old.table }
{
    let word = fixture.uint(UintTy::U32)?;
    let made = second(rt, originals, word);
    let value = fixture.resolved(payload)?;
    assert!(rt; fixture.resolved(made)? == value);
    Ok(())
}

/// The second of two originals, which is not the first one.
fn second(rt: &impl Abort, originals: &[GenericArg], first: GenericArg) -> GenericArg {
    assert!(rt; originals.len() == 2);
    assert!(rt; originals[0] == first);
    assert!(rt; originals[1] != first);
    originals[1]
}

#[test]
fn a_refused_state_leaves_all_as_before(rt: HostRuntime) {
    let mut fixture = Fixture::new(rt.alloc()).expect(&rt, "memory");
    let mut originals = Vec::new(rt.alloc());
    see_a_refusal(&rt, &mut fixture, &mut originals).expect(&rt, "memory");
}

fn see_a_refusal(
    rt: &impl Abort,
    fixture: &mut Fixture,
    originals: &mut Vec<GenericArg>,
) -> Result<(), EvalError>
    requires { IsTable fixture.old.cx.nodes fixture.old.table }
{
    let byte = fixture.uint(UintTy::U8)?;
    let word = fixture.uint(UintTy::U32)?;
    let position = fixture.position(0)?;
    originals.push(byte)?;
    let refused = instantiate(rt, fixture, originals, &[TY], &[word, position], 1);
    assert!(rt; matches!(refused, Err(EvalError::NoSolution)));
    assert!(rt; originals.as_slice() == [byte].as_slice());
    see_nothing_made(rt, &fixture.table);
    Ok(())
}

/// A table without variables and with the root universe alone.
fn see_nothing_made(rt: &impl Abort, table: &InferCtxt) {
    assert!(rt; table.variable_count() == 0);
    assert!(rt; table.universe() == 0);
}

#[test]
fn equal_leaves_of_a_state_are_one_position(rt: HostRuntime) {
    let mut fixture = Fixture::new(rt.alloc()).expect(&rt, "memory");
    see_positions(&rt, &mut fixture).expect(&rt, "memory");
}

fn see_positions(rt: &impl Abort, fixture: &mut Fixture) -> Result<(), EvalError>
    requires { IsTable fixture.old.cx.nodes fixture.old.table }
{
    let x = fixture.root_var(VariableKind::Ty)?;
    let first = fixture.position(0)?;
    let second = fixture.position(1)?;
    see_state(rt, fixture, [x, x], first, 1)?;
    let y = fixture.root_var(VariableKind::Ty)?;
    see_state(rt, fixture, [x, y], second, 2)
}

/// Sees the payload of the state of a value and a payload, and how many kinds it has.
fn see_state(
    rt: &impl Abort,
    fixture: &mut Fixture,
    of: [GenericArg; 2],
    payload: GenericArg,
    kinds: usize,
) -> Result<(), EvalError>
    requires { IsTable fixture.old.cx.nodes fixture.old.table }
    ensures { IsTable fixture.new.cx.nodes fixture.new.table }
{
    let state = state(fixture, of[0], of[1])?;
    assert!(rt; state.value.payload == payload);
    assert!(rt; state.var_kinds.len() == kinds);
    Ok(())
}
