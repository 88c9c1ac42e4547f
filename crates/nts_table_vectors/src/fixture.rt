//! Calls of a table with each condition tested by a public function, and what can be seen of it afterwards.
ghost use Rattle.std.specs.Prelude.{◌≡◌, OnOk, IfOk};
ghost use Rattle.nts_model.specs.Terms.Trees.{any_label, is_alias};
ghost use Rattle.nts_model.specs.Tables.Resolving.{Knows, resolved};
ghost use Rattle.nts_store.specs.Growth.{tree_at, Extends, IsIn};
ghost use Rattle.nts_terms.specs.Handles.{HoldsArg};
ghost use Rattle.nts_unify.specs.Reading.{content_of};
ghost use Rattle.nts_table.specs.Frames.{ChangesEntries};
ghost use Rattle.nts_table.specs.Tables.{IsTable};

use nts_fixtures::Fixture;
use nts_model::{UintTy, Variance};
use nts_solver_relating::RelateExt;
use nts_store::EvalError;
use nts_table::InferCtxt;
use nts_terms::{
    AliasDefId, AliasId, AliasTerm, Const, Cx, GenericArg, Region, Span, Stored, Term, Ty,
    TypingMode,
};
use nts_unify::{Constraint, State, Variable};
use std::process::Abort;

/// Whether a table without variables knows a term.
pub fn empty_knows<T: Stored>(cx: &Cx, x: T) -> Result<bool, EvalError>
    requires { IsIn cx.now.nodes (T.id x) }
{
    let table = InferCtxt::new(cx.alloc, TypingMode::PostAnalysis);
    Ok(table.knows(cx, x)?)
}

/// Sees that the hidden types, without their aliases, are the expected ones.
fn same_types(rt: &impl Abort, found: &[(AliasTerm, Ty)], expected: &[Ty]) {
    assert!(rt; found.len() == expected.len());
    for n in 0..found.len() {
        assert!(rt; Some(&found[n].1) == expected.get(n));
    }
}

/// A type of integers without a sign.
pub fn uint(fixture: &mut Fixture, kind: UintTy) -> Result<Ty, EvalError>
    requires { IsTable fixture.old.cx.nodes fixture.old.table }
    ensures { IsTable fixture.new.cx.nodes fixture.new.table }
{
    let ty = fixture.uint(kind)?;
    Ok(Ty { node: ty.node })
}

/// Adds a duplicate of a hidden type of an alias over nothing.
pub fn hide_beside(fixture: &mut Fixture, alias: AliasId, ty: Ty) -> Result<(), EvalError>
    requires { IsTable fixture.old.cx.nodes fixture.old.table }
    ensures table { IsTable fixture.new.cx.nodes fixture.new.table }
    ensures changes { OnOk result (ChangesEntries fixture.old.table fixture.new.table) }
{
    let args = fixture.args(&[])?;
    fixture.seen(args)?;
    fixture.seen(ty)?;
    let def_id = AliasDefId::Ty(alias);
    let key = AliasTerm { def_id, args };
    let (cx, table) = (&fixture.cx, &mut fixture.table);
    table.add_duplicate_opaque_type(cx, key, ty, Span(0))?;
    Ok(())
}

/// Sees that these are the hidden types that are registered.
pub fn hidden(rt: &impl Abort, fixture: &Fixture, expected: &[Ty]) {
    assert!(rt; fixture.table.num_opaque_types() == expected.len());
    for n in 0..fixture.table.num_opaque_types() {
        assert!(rt; Some(&fixture.table.hidden_type(n).ty) == expected.get(n));
    }
}

/// Sees that these are the duplicates.
pub fn duplicates(rt: &impl Abort, fixture: &Fixture, expected: &[Ty]) {
    let found = fixture.table.clone_duplicate_opaque_types();
    same_types(rt, &found.expect(rt, "memory"), expected);
}

/// Sees that these are the hidden types from that place on.
pub fn hidden_since(rt: &impl Abort, fixture: &Fixture, entries: usize, expected: &[Ty]) {
    let found = fixture.table.clone_opaque_types_added_since(entries);
    same_types(rt, &found.expect(rt, "memory"), expected);
}

/// Whether an alias stands in the term.
pub fn has_alias(fixture: &mut Fixture, x: GenericArg) -> Result<bool, EvalError>
    requires { IsTable fixture.old.cx.nodes fixture.old.table }
    ensures table { IsTable fixture.new.cx.nodes fixture.new.table }
    ensures kept { fixture.new.table ≡ fixture.old.table }
    ensures extends { OnOk result (Extends fixture.old.cx.nodes fixture.new.cx.nodes) }
    ensures holds { OnOk result (HoldsArg fixture.new.cx.nodes x) }
    ensures known { OnOk result (Knows (content_of fixture.new.cx.nodes fixture.new.table.entries)
        (tree_at fixture.new.cx.nodes x.node)) }
    ensures answer { IfOk result (λ r. r ≡ any_label is_alias (resolved
        (content_of fixture.new.cx.nodes fixture.new.table.entries)
        (tree_at fixture.new.cx.nodes x.node))) }
{
    fixture.seen(x)?;
    Ok(fixture.table.has_alias(&mut fixture.cx, x)?)
}

/// Whether a variable has got a value or another root, or has not, as is expected.
pub fn is_changed(fixture: &Fixture, x: GenericArg, expected: bool) -> Result<bool, EvalError> {
    if !fixture.cx.holds(x) {
        return Err(EvalError::NoSolution);
    }
    Ok(fixture.table.is_changed_arg(&fixture.cx, x) == expected)
}

/// Whether a table without variables does not know a term that the table knows.
pub fn is_foreign(fixture: &Fixture, x: GenericArg) -> Result<bool, EvalError> {
    fixture.seen(x)?;
    Ok(!empty_knows(&fixture.cx, x)?)
}

/// Makes two arguments one, with aliases as they stand.
pub fn equates(fixture: &mut Fixture, x: GenericArg, y: GenericArg) -> Result<bool, EvalError>
    requires { IsTable fixture.old.cx.nodes fixture.old.table }
    ensures { IsTable fixture.new.cx.nodes fixture.new.table }
{
    fixture.seen(x)?;
    fixture.seen(y)?;
    let (cx, table) = (&mut fixture.cx, &mut fixture.table);
    table.eq_structurally_relating_aliases(cx, fixture.env, x, y, Span(0))?;
    Ok(true)
}

/// Makes a region one with itself.
pub fn equates_region(fixture: &mut Fixture, x: GenericArg) -> Result<bool, EvalError>
    requires { IsTable fixture.old.cx.nodes fixture.old.table }
    ensures { IsTable fixture.new.cx.nodes fixture.new.table }
{
    let x = Region { node: x.node };
    fixture.seen(x)?;
    let (cx, table) = (&mut fixture.cx, &mut fixture.table);
    table.eq_structurally_relating_aliases(cx, fixture.env, x, x, Span(0))?;
    Ok(true)
}

/// Makes a const one with itself.
pub fn equates_const(fixture: &mut Fixture, x: GenericArg) -> Result<bool, EvalError>
    requires { IsTable fixture.old.cx.nodes fixture.old.table }
    ensures { IsTable fixture.new.cx.nodes fixture.new.table }
{
    let x = Const { node: x.node };
    fixture.seen(x)?;
    let (cx, table) = (&mut fixture.cx, &mut fixture.table);
    table.eq_structurally_relating_aliases(cx, fixture.env, x, x, Span(0))?;
    Ok(true)
}

/// Makes a type or a const one with itself, as a term.
pub fn equates_term(fixture: &mut Fixture, x: GenericArg) -> Result<bool, EvalError>
    requires { IsTable fixture.old.cx.nodes fixture.old.table }
    ensures { IsTable fixture.new.cx.nodes fixture.new.table }
{
    let x = Term { node: x.node };
    fixture.seen(x)?;
    let (cx, table) = (&mut fixture.cx, &mut fixture.table);
    table.eq_structurally_relating_aliases(cx, fixture.env, x, x, Span(0))?;
    Ok(true)
}

/// Relates two arguments without aliases, and says whether they were made one. No goals are left.
#[tactic(auto, using(crate::proofs::Conditions::conditions))]
pub fn relates(fixture: &mut Fixture, x: GenericArg, y: GenericArg) -> Result<bool, EvalError>
    requires { IsTable fixture.old.cx.nodes fixture.old.table }
    ensures { IsTable fixture.new.cx.nodes fixture.new.table }
{
    if has_alias(fixture, x)? || has_alias(fixture, y)? {
        return Err(EvalError::NoSolution);
    }
    let (cx, table) = (&mut fixture.cx, &mut fixture.table);
    match table.relate(cx, fixture.env, x, Variance::Invariant, y, Span(0)) {
        Ok(goals) if goals.is_empty() => Ok(true),
        Ok(_) => Err(EvalError::Full),
        Err(EvalError::NoSolution) => Ok(false),
        Err(error) => Err(error),
    }
}

/// Relates two types, as types, and says whether they were made one without a goal that is left.
pub fn relates_types(fixture: &mut Fixture, x: GenericArg, y: GenericArg) -> Result<bool, EvalError>
    requires { IsTable fixture.old.cx.nodes fixture.old.table }
    ensures { IsTable fixture.new.cx.nodes fixture.new.table }
{
    let (x, y) = (Ty { node: x.node }, Ty { node: y.node });
    fixture.seen(x)?;
    fixture.seen(y)?;
    let (cx, table) = (&mut fixture.cx, &mut fixture.table);
    let goals = table.relate(cx, fixture.env, x, Variance::Invariant, y, Span(0))?;
    Ok(goals.is_empty())
}

/// Makes one sub-unification class of those of two variables.
pub fn joins(fixture: &mut Fixture, a: usize, b: usize) -> Result<bool, EvalError>
    requires { IsTable fixture.old.cx.nodes fixture.old.table }
    ensures { IsTable fixture.new.cx.nodes fixture.new.table }
{
    let count = fixture.table.variable_count();
    if a >= count || b >= count {
        return Ok(false);
    }
    fixture.table.sub_unify_ty_vids_raw(a, b)?;
    Ok(true)
}

/// Whether that is the sub-unification root of a variable.
pub fn sub_root_is(fixture: &Fixture, n: usize, root: usize) -> bool
    requires { IsTable fixture.now.cx.nodes fixture.now.table }
{
    let table = &fixture.table;
    n < table.variable_count() && table.sub_unification_table_root_var(n) == root
}

/// What can be read of a table: its variables with their roots, its constraints, and its universe.
#[derive(PartialEq, Eq, Drop)]
struct Shown {
    variables: Vec<(Variable, usize)>,
    constraints: Vec<Constraint>,
    universe: u32,
}

/// Whether two arguments are refused, from either side, and the table is as before.
pub fn refuses(fixture: &mut Fixture, x: GenericArg, y: GenericArg) -> Result<bool, EvalError>
    requires { IsTable fixture.old.cx.nodes fixture.old.table }
    ensures { IsTable fixture.new.cx.nodes fixture.new.table }
{
    let before = show(fixture)?;
    let refused = refuses_both_ways(fixture, x, y)?;
    let after = show(fixture)?;
    Ok(refused && before == after)
}

fn refuses_both_ways(fixture: &mut Fixture, x: GenericArg, y: GenericArg) -> Result<bool, EvalError>
    requires { IsTable fixture.old.cx.nodes fixture.old.table }
    ensures { IsTable fixture.new.cx.nodes fixture.new.table }
{
    Ok(!relates(fixture, x, y)? && !relates(fixture, y, x)?)
}

fn show(fixture: &Fixture) -> Result<Shown, EvalError>
    requires { IsTable fixture.now.cx.nodes fixture.now.table }
{
    let variables = show_variables(fixture)?;
    let constraints = show_constraints(fixture)?;
    Ok(Shown {
        variables,
        constraints,
        universe: fixture.table.universe(),
    })
}

fn show_variables(fixture: &Fixture) -> Result<Vec<(Variable, usize)>, EvalError>
    requires { IsTable fixture.now.cx.nodes fixture.now.table }
{
    let table = &fixture.table;
    let mut variables = Vec::new(fixture.cx.alloc);
    for n in 0..table.variable_count() {
        variables.push((table.variable(n), table.root(n)))?;
    }
    Ok(variables)
}

fn show_constraints(fixture: &Fixture) -> Result<Vec<Constraint>, EvalError> {
    let table = &fixture.table;
    let mut constraints = Vec::new(fixture.cx.alloc);
    for n in 0..table.constraint_count() {
        constraints.push(table.constraint(n))?;
    }
    Ok(constraints)
}

/// Whether a variable has that state and universe.
pub fn has(fixture: &Fixture, n: usize, universe: u32, state: State) -> bool {
    if n >= fixture.table.variable_count() {
        return false;
    }
    let variable = fixture.table.variable(n);
    variable.state == state && variable.universe == universe
}
