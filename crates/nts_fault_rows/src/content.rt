//! What can be read of a table, and a table with something of each part.
ghost use Rattle.std.specs.Prelude.{OnOk};
ghost use Rattle.nts_table.specs.Tables.{IsTable};

use nts_fixtures::Fixture;
use nts_model::{Sort, VariableKind};
use nts_solver_relating::RelateExt;
use nts_store::EvalError;
use nts_terms::{
    AliasDefId, AliasId, AliasKind, AliasTerm, GenericArg, Region, Span, Ty, UniverseIndex,
    VisibleForLeakCheck,
};
use nts_unify::{Constraint, HiddenType, Variable};
use std::alloc::Global;

/// What can be read of a table: its variables with their universes, values and links, the roots of their classes, the
/// region constraints, the hidden types and their duplicates, and the universe.
#[derive(PartialEq, Eq, Drop)]
pub struct Content {
    variables: Vec<Variable>,
    roots: Vec<usize>,
    sub_roots: Vec<usize>,
    constraints: Vec<Constraint>,
    hidden: Vec<HiddenType>,
    duplicates: Vec<HiddenType>,
    universe: UniverseIndex,
}

/// Nothing read.
fn no_content(alloc: Global) -> Content {
    Content {
        variables: Vec::new(alloc),
        roots: Vec::new(alloc),
        sub_roots: Vec::new(alloc),
        constraints: Vec::new(alloc),
        hidden: Vec::new(alloc),
        duplicates: Vec::new(alloc),
        universe: 0,
    }
}

/// Reads what the table knows.
fn read(content: &mut Content, fixture: &Fixture) -> Result<(), EvalError>
    requires { IsTable fixture.now.cx.nodes fixture.now.table }
{
    let table = &fixture.table;
    for n in 0..table.variable_count() {
        content.variables.push(table.variable(n))?;
        content.roots.push(table.root(n))?;
        content
            .sub_roots
            .push(table.sub_unification_table_root_var(n))?;
    }
    for n in 0..table.constraint_count() {
        content.constraints.push(table.constraint(n))?;
    }
    content
        .hidden
        .extend_from_slice(table.inner.hidden_types())?;
    content
        .duplicates
        .extend_from_slice(table.inner.duplicates())?;
    content.universe = table.universe();
    Ok(())
}

/// What can be read of the table now. Its lists are owned here and in no function that reads one of them, and so they are
/// given up at one place.
pub fn content_of(fixture: &Fixture) -> Result<Content, EvalError>
    requires { IsTable fixture.now.cx.nodes fixture.now.table }
{
    let mut content = no_content(fixture.cx.alloc);
    read(&mut content, fixture)?;
    Ok(content)
}

/// Puts something of each part into the table, and answers an opaque alias of a type that hides one.
pub fn fill(fixture: &mut Fixture) -> Result<AliasId, EvalError>
    requires { IsTable fixture.old.cx.nodes fixture.old.table }
    ensures { OnOk result (IsTable fixture.new.cx.nodes fixture.new.table) }
{
    let x = fixture.ty_var()?;
    let y = fixture.ty_var()?;
    let z = fixture.root_var(VariableKind::Int)?;
    equate(fixture, x, y)?;
    fixture.universe()?;
    let u = fixture.ty_var()?;
    let v = fixture.ty_var()?;
    let wrapped = fixture.wrap(v)?;
    equate(fixture, u, wrapped)?;
    join(fixture, 0, 4)?;
    let a = fixture.root_var(VariableKind::Region)?;
    let b = fixture.root_var(VariableKind::Region)?;
    outlives(fixture, Region { node: a.node }, Region { node: b.node })?;
    let alias = fixture.declare_alias(&[Sort::Ty], AliasKind::Opaque)?;
    let (ty, other) = (Ty { node: z.node }, Ty { node: v.node });
    fixture.hide(alias, &[x], ty)?;
    hide_beside(fixture, alias, y, other)?;
    Ok(alias)
}

/// Makes two arguments one.
fn equate(fixture: &mut Fixture, x: GenericArg, y: GenericArg) -> Result<(), EvalError>
    requires { IsTable fixture.old.cx.nodes fixture.old.table }
    ensures { IsTable fixture.new.cx.nodes fixture.new.table }
{
    fixture.seen(x)?;
    fixture.seen(y)?;
    let (cx, table) = (&mut fixture.cx, &mut fixture.table);
    table.eq_structurally_relating_aliases(cx, fixture.env, x, y, Span(0))
}

/// Makes one sub-unification class of those of two variables.
fn join(fixture: &mut Fixture, x: usize, y: usize) -> Result<(), EvalError>
    requires { IsTable fixture.old.cx.nodes fixture.old.table }
    ensures { IsTable fixture.new.cx.nodes fixture.new.table }
{
    let count = fixture.table.variable_count();
    if x >= count || y >= count {
        return Err(EvalError::NoSolution);
    }
    fixture.table.sub_unify_ty_vids_raw(x, y)?;
    Ok(())
}

/// Records that one region outlives another.
fn outlives(fixture: &mut Fixture, a: Region, b: Region) -> Result<(), EvalError>
    requires { IsTable fixture.old.cx.nodes fixture.old.table }
    ensures { IsTable fixture.new.cx.nodes fixture.new.table }
{
    fixture.seen(a)?;
    fixture.seen(b)?;
    let (cx, table) = (&fixture.cx, &mut fixture.table);
    table.sub_regions(cx, b, a, VisibleForLeakCheck::Yes, Span(0))?;
    Ok(())
}

/// Adds a duplicate of a hidden type of an alias over a type.
fn hide_beside(
    fixture: &mut Fixture,
    alias: AliasId,
    of: GenericArg,
    ty: Ty,
) -> Result<(), EvalError>
    requires { IsTable fixture.old.cx.nodes fixture.old.table }
    ensures { IsTable fixture.new.cx.nodes fixture.new.table }
{
    let args = fixture.args(&[of])?;
    fixture.seen(args)?;
    fixture.seen(ty)?;
    let def_id = AliasDefId::Ty(alias);
    let key = AliasTerm { def_id, args };
    let (cx, table) = (&fixture.cx, &mut fixture.table);
    table.add_duplicate_opaque_type(cx, key, ty, Span(0))?;
    Ok(())
}
