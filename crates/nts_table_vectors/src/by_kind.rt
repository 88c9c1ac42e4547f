//! Variables as a table is asked for them by their kinds.
ghost use Rattle.std.specs.Prelude.{◌≡◌, Some, OnOk};
ghost use Rattle.nts_model.specs.Tables.Contents.{kind_at};
ghost use Rattle.nts_unify.specs.Reading.{content_of};
ghost use Rattle.nts_table.specs.Tables.{IsTable};

use nts_fixtures::Fixture;
use nts_model::VariableKind;
use nts_store::EvalError;
use nts_terms::{Const, GenericArg, Ty, UniverseIndex};

/// Tests that a variable is of a kind.
#[tactic(auto, using(crate::proofs::Conditions::kind_of_entry))]
fn is_of(fixture: &Fixture, n: usize, kind: VariableKind) -> Result<(), EvalError>
    ensures { OnOk result (kind_at
        (content_of fixture.now.cx.nodes fixture.now.table.entries) n ≡ Some kind) }
{
    if n < fixture.table.variable_count() && fixture.table.variable(n).kind == kind {
        return Ok(());
    }
    Err(EvalError::NoSolution)
}

/// The root of a variable of that kind, or its value.
pub fn root_of(fixture: &mut Fixture, kind: VariableKind, n: usize) -> Result<GenericArg, EvalError>
    requires { IsTable fixture.old.cx.nodes fixture.old.table }
    ensures { IsTable fixture.new.cx.nodes fixture.new.table }
{
    match kind {
        VariableKind::Ty => root_of_type(fixture, n),
        VariableKind::Int => root_of_integer(fixture, n),
        VariableKind::Float => root_of_float(fixture, n),
        VariableKind::Const => root_of_const(fixture, n),
        VariableKind::Region => root_of_region(fixture, n),
    }
}

fn root_of_type(fixture: &mut Fixture, n: usize) -> Result<GenericArg, EvalError>
    requires { IsTable fixture.old.cx.nodes fixture.old.table }
    ensures { IsTable fixture.new.cx.nodes fixture.new.table }
{
    is_of(fixture, n, VariableKind::Ty)?;
    let (cx, table) = (&mut fixture.cx, &fixture.table);
    let root = table.opportunistic_resolve_ty_var(cx, n)?;
    Ok(GenericArg { node: root.node })
}

fn root_of_integer(fixture: &mut Fixture, n: usize) -> Result<GenericArg, EvalError>
    requires { IsTable fixture.old.cx.nodes fixture.old.table }
    ensures { IsTable fixture.new.cx.nodes fixture.new.table }
{
    is_of(fixture, n, VariableKind::Int)?;
    let (cx, table) = (&mut fixture.cx, &fixture.table);
    let root = table.opportunistic_resolve_int_var(cx, n)?;
    Ok(GenericArg { node: root.node })
}

fn root_of_float(fixture: &mut Fixture, n: usize) -> Result<GenericArg, EvalError>
    requires { IsTable fixture.old.cx.nodes fixture.old.table }
    ensures { IsTable fixture.new.cx.nodes fixture.new.table }
{
    is_of(fixture, n, VariableKind::Float)?;
    let (cx, table) = (&mut fixture.cx, &fixture.table);
    let root = table.opportunistic_resolve_float_var(cx, n)?;
    Ok(GenericArg { node: root.node })
}

fn root_of_const(fixture: &mut Fixture, n: usize) -> Result<GenericArg, EvalError>
    requires { IsTable fixture.old.cx.nodes fixture.old.table }
    ensures { IsTable fixture.new.cx.nodes fixture.new.table }
{
    is_of(fixture, n, VariableKind::Const)?;
    let (cx, table) = (&mut fixture.cx, &fixture.table);
    let root = table.opportunistic_resolve_ct_var(cx, n)?;
    Ok(GenericArg { node: root.node })
}

fn root_of_region(fixture: &mut Fixture, n: usize) -> Result<GenericArg, EvalError>
    requires { IsTable fixture.old.cx.nodes fixture.old.table }
    ensures { IsTable fixture.new.cx.nodes fixture.new.table }
{
    is_of(fixture, n, VariableKind::Region)?;
    let (cx, table) = (&mut fixture.cx, &fixture.table);
    let root = table.opportunistic_resolve_lt_var(cx, n)?;
    Ok(GenericArg { node: root.node })
}

/// The number of the root of a variable of that kind.
pub fn root_number(fixture: &Fixture, kind: VariableKind, n: usize) -> Option<usize>
    requires { IsTable fixture.now.cx.nodes fixture.now.table }
{
    let table = &fixture.table;
    if n >= table.variable_count() {
        return None;
    }
    match kind {
        VariableKind::Ty => Some(table.root_ty_var(n)),
        VariableKind::Const => Some(table.root_const_var(n)),
        _ => Some(table.root(n)),
    }
}

/// The universe of a variable of that kind, if it has no value.
pub fn universe_of(fixture: &Fixture, kind: VariableKind, n: usize) -> Option<UniverseIndex>
    requires { IsTable fixture.now.cx.nodes fixture.now.table }
{
    let table = &fixture.table;
    if n >= table.variable_count() {
        return None;
    }
    match kind {
        VariableKind::Region => table.universe_of_lt(n),
        VariableKind::Const => table.universe_of_ct(n),
        _ => table.universe_of_ty(n),
    }
}

/// Whether a type that is looked up, also with values in place of its variables, is itself.
pub fn stays_type(fixture: &mut Fixture, x: GenericArg) -> Result<bool, EvalError>
    requires { IsTable fixture.old.cx.nodes fixture.old.table }
    ensures { IsTable fixture.new.cx.nodes fixture.new.table }
{
    let ty = Ty { node: x.node };
    Ok(looked_up(fixture, ty)? == ty && resolved(fixture, ty)? == ty)
}

fn looked_up(fixture: &mut Fixture, ty: Ty) -> Result<Ty, EvalError>
    requires { IsTable fixture.old.cx.nodes fixture.old.table }
    ensures { IsTable fixture.new.cx.nodes fixture.new.table }
{
    fixture.seen(ty)?;
    Ok(fixture.table.shallow_resolve(&mut fixture.cx, ty)?)
}

fn resolved(fixture: &mut Fixture, ty: Ty) -> Result<Ty, EvalError>
    requires { IsTable fixture.old.cx.nodes fixture.old.table }
    ensures { IsTable fixture.new.cx.nodes fixture.new.table }
{
    fixture.seen(ty)?;
    Ok(fixture.table.resolve_vars_if_possible(&mut fixture.cx, ty)?)
}

/// Whether a const that is looked up is itself.
pub fn stays_const(fixture: &mut Fixture, x: GenericArg) -> Result<bool, EvalError>
    requires { IsTable fixture.old.cx.nodes fixture.old.table }
    ensures { IsTable fixture.new.cx.nodes fixture.new.table }
{
    let size = Const { node: x.node };
    fixture.seen(size)?;
    let (cx, table) = (&mut fixture.cx, &fixture.table);
    Ok(table.shallow_resolve_const(cx, size)? == size)
}
