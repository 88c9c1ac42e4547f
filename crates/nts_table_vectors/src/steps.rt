//! Tests as lists of steps, each of which makes something of a table or sees what became of it.
ghost use Rattle.nts_table.specs.Tables.{IsTable};

use crate::by_kind::{root_number, root_of, stays_const, stays_type, universe_of};
use crate::fixture::{
    equates, equates_const, equates_region, equates_term, has, has_alias, is_changed, is_foreign,
    joins, refuses, relates, relates_types, sub_root_is,
};
use crate::regions::{equates_regions, outlives, tells, type_outlives};
use nts_fixtures::{Fixture, Make, Name, Names};
use nts_model::{Relation, VariableKind};
use nts_store::{EvalError, Fault};
use nts_terms::{AliasKind, GenericArg, UniverseIndex, VisibleForLeakCheck};
use nts_unify::{Constraint, State};
use std::alloc::Global;
use std::process::Abort;

/// A step of a test. A variable and a constraint are named by their numbers, and a term by its name.
pub enum Step {
    /// Makes a term, and gives it a name.
    Let(Name, Make),
    /// Gives a name to the left side of a constraint.
    LetLeft(Name, usize),
    /// Declares an alias without arguments, and gives its type a name.
    LetAlias(Name),
    /// Makes one more universe, and answers it.
    Universe,
    /// Makes so many universes more.
    Universes(UniverseIndex),
    /// So many universes more are refused.
    TooMany(UniverseIndex),
    /// Makes two terms one, without a goal that is left.
    Relates(Name, Name),
    /// Makes two types one, as types, without a goal that is left.
    RelatesTypes(Name, Name),
    /// Two terms can't be made one, from either side, and the table is as before.
    Refuses(Name, Name),
    /// Makes two terms one, with aliases as they stand.
    Equates(Name, Name),
    /// Makes a region one with itself, as a region.
    EquatesRegion(Name),
    /// Makes a const one with itself, as a const.
    EquatesConst(Name),
    /// Makes a const one with itself, as a term.
    EquatesTerm(Name),
    /// Makes two regions equal, of which none is bound.
    EquatesRegions(Name, Name, VisibleForLeakCheck),
    /// Records that the first region outlives the second one.
    Outlives(Name, Name, VisibleForLeakCheck),
    /// Records that a type outlives a region.
    TypeOutlives(Name, Name),
    /// Makes one sub-unification class of those of two variables.
    Joins(usize, usize),
    /// The table has so many variables and constraints.
    Counts(usize, usize),
    /// The table is in this universe.
    InUniverse(UniverseIndex),
    /// A variable of this universe has no value.
    Unset(usize, UniverseIndex),
    /// A variable of this universe leads to another one.
    Link(usize, UniverseIndex, usize),
    /// A variable of this universe has this value.
    Known(usize, UniverseIndex, Name),
    /// The number of the root of a variable of this kind.
    RootNumber(VariableKind, usize, usize),
    /// The root of a variable of this kind is this term.
    Root(VariableKind, usize, Name),
    /// The universe of a variable of this kind without a value.
    OpenIn(VariableKind, usize, UniverseIndex),
    /// Whether two variables are of one sub-unification class.
    Shares(usize, usize, bool),
    /// The sub-unification root of a variable.
    SubRoot(usize, usize),
    /// A constraint says that two regions are equal, as the leak check sees it.
    Equal(usize, Name, Name),
    /// The constraints, each once, are that the first region outlives the second one, which the leak check does not see.
    Tells(Name, Name),
    /// The first term, with values in place of its variables, is the second one.
    Resolves(Name, Name),
    /// A type that is looked up, also with values in place of its variables, is itself.
    StaysType(Name),
    /// A const that is looked up is itself.
    StaysConst(Name),
    /// Whether a variable has got a value or another root.
    Changed(Name, bool),
    /// Whether an alias stands in the term.
    HasAlias(Name, bool),
    /// A table without variables does not know the term.
    IsForeign(Name),
}

/// Plays the steps one after the other, in a new table.
pub fn plays(rt: &impl Abort, alloc: Global, steps: &[Step]) {
    let mut fixture = Fixture::new(alloc).expect(rt, "memory");
    let mut names = Names::new(alloc);
    play_all(rt, &mut fixture, &mut names, steps);
}

fn play_all(rt: &impl Abort, fixture: &mut Fixture, names: &mut Names, steps: &[Step])
    requires { IsTable fixture.old.cx.nodes fixture.old.table }
{
    for n in 0..steps.len() {
        let played = play(fixture, names, &steps[n]);
        assert!(rt; matches!(played, Ok(true)), "step {n}");
    }
}

/// Makes something, or relates terms, or sees what is there.
fn play(fixture: &mut Fixture, names: &mut Names, step: &Step) -> Result<bool, EvalError>
    requires { IsTable fixture.old.cx.nodes fixture.old.table }
    ensures { IsTable fixture.new.cx.nodes fixture.new.table }
{
    match step {
        Step::Let(name, make) => gives_name(fixture, names, *name, *make),
        Step::LetLeft(name, n) => gives_left(fixture, names, *name, *n),
        Step::LetAlias(name) => gives_alias(fixture, names, *name),
        Step::Universe => gives_universe(fixture),
        Step::Universes(count) => gives_universes(fixture, *count),
        Step::TooMany(count) => Ok(refuses_universes(fixture, *count)),
        Step::Joins(a, b) => joins(fixture, *a, *b),
        _ => play_terms(fixture, names, step),
    }
}

/// Does something with the terms of a step.
fn play_terms(fixture: &mut Fixture, names: &Names, step: &Step) -> Result<bool, EvalError>
    requires { IsTable fixture.old.cx.nodes fixture.old.table }
    ensures { IsTable fixture.new.cx.nodes fixture.new.table }
{
    match sides(names, step) {
        Ok((x, y)) => relates_sides(fixture, x, y, step),
        Err(_) => Ok(is_seen(fixture, step)),
    }
}

/// The first term and the last one that a step names.
fn sides(names: &Names, step: &Step) -> Result<(GenericArg, GenericArg), EvalError> {
    match step {
        Step::Relates(x, y)
        | Step::RelatesTypes(x, y)
        | Step::Refuses(x, y)
        | Step::Equates(x, y)
        | Step::EquatesRegions(x, y, _)
        | Step::Outlives(x, y, _)
        | Step::TypeOutlives(x, y)
        | Step::Equal(_, x, y)
        | Step::Tells(x, y)
        | Step::Resolves(x, y) => both(names, x, y),
        Step::EquatesRegion(x)
        | Step::EquatesConst(x)
        | Step::EquatesTerm(x)
        | Step::Known(_, _, x)
        | Step::Root(_, _, x)
        | Step::StaysType(x)
        | Step::StaysConst(x)
        | Step::Changed(x, _)
        | Step::HasAlias(x, _)
        | Step::IsForeign(x) => both(names, x, x),
        _ => Err(EvalError::NoSolution),
    }
}

fn both(names: &Names, x: &str, y: &str) -> Result<(GenericArg, GenericArg), EvalError> {
    Ok((names.term(x)?, names.term(y)?))
}

/// Relates two terms, as the step says, or sees something of them.
fn relates_sides(
    fixture: &mut Fixture,
    x: GenericArg,
    y: GenericArg,
    step: &Step,
) -> Result<bool, EvalError>
    requires { IsTable fixture.old.cx.nodes fixture.old.table }
    ensures { IsTable fixture.new.cx.nodes fixture.new.table }
{
    match step {
        Step::Relates(..) => relates(fixture, x, y),
        Step::RelatesTypes(..) => relates_types(fixture, x, y),
        Step::Refuses(..) => refuses(fixture, x, y),
        Step::Equates(..) => equates(fixture, x, y),
        Step::EquatesRegion(_) => equates_region(fixture, x),
        Step::EquatesConst(_) => equates_const(fixture, x),
        Step::EquatesTerm(_) => equates_term(fixture, x),
        _ => compares_regions(fixture, x, y, step),
    }
}

/// Records something of two regions, as the step says, or sees something of two terms.
fn compares_regions(
    fixture: &mut Fixture,
    x: GenericArg,
    y: GenericArg,
    step: &Step,
) -> Result<bool, EvalError>
    requires { IsTable fixture.old.cx.nodes fixture.old.table }
    ensures { IsTable fixture.new.cx.nodes fixture.new.table }
{
    match step {
        Step::EquatesRegions(_, _, visible) => equates_regions(fixture, x, y, *visible),
        Step::Outlives(_, _, visible) => outlives(fixture, x, y, *visible),
        Step::TypeOutlives(..) => type_outlives(fixture, x, y),
        Step::Tells(..) => tells(fixture, x, y),
        Step::Root(kind, n, _) => root_is(fixture, *kind, *n, x),
        Step::Resolves(..) => resolves(fixture, x, y),
        _ => looks_up(fixture, x, y, step),
    }
}

/// Looks a term up, as the step says, or sees something of two terms.
fn looks_up(
    fixture: &mut Fixture,
    x: GenericArg,
    y: GenericArg,
    step: &Step,
) -> Result<bool, EvalError>
    requires { IsTable fixture.old.cx.nodes fixture.old.table }
    ensures { IsTable fixture.new.cx.nodes fixture.new.table }
{
    match step {
        Step::StaysType(_) => stays_type(fixture, x),
        Step::StaysConst(_) => stays_const(fixture, x),
        Step::HasAlias(_, answer) => alias_is(fixture, x, *answer),
        Step::Changed(_, answer) => is_changed(fixture, x, *answer),
        Step::IsForeign(_) => is_foreign(fixture, x),
        Step::Known(n, universe, _) => Ok(has(fixture, *n, *universe, State::Known(x.node))),
        Step::Equal(n, _, _) => Ok(are_equal(fixture, *n, x, y)),
        _ => Ok(false),
    }
}

/// Sees what can be read without a term.
fn is_seen(fixture: &Fixture, step: &Step) -> bool
    requires { IsTable fixture.now.cx.nodes fixture.now.table }
{
    match step {
        Step::Counts(variables, constraints) => fixture.counts() == (*variables, *constraints),
        Step::InUniverse(universe) => fixture.table.universe() == *universe,
        Step::Unset(n, universe) => has(fixture, *n, *universe, State::Unset),
        Step::Link(n, universe, root) => has(fixture, *n, *universe, State::Link(*root)),
        _ => is_classed(fixture, step),
    }
}

/// Sees the classes of variables.
fn is_classed(fixture: &Fixture, step: &Step) -> bool
    requires { IsTable fixture.now.cx.nodes fixture.now.table }
{
    match step {
        Step::RootNumber(kind, n, root) => root_number(fixture, *kind, *n) == Some(*root),
        Step::OpenIn(kind, n, universe) => universe_of(fixture, *kind, *n) == Some(*universe),
        Step::Shares(a, b, answer) => fixture.shares(*a, *b) == Some(*answer),
        Step::SubRoot(n, root) => sub_root_is(fixture, *n, *root),
        _ => false,
    }
}

fn gives_name(
    fixture: &mut Fixture,
    names: &mut Names,
    name: Name,
    make: Make,
) -> Result<bool, EvalError>
    requires { IsTable fixture.old.cx.nodes fixture.old.table }
    ensures { IsTable fixture.new.cx.nodes fixture.new.table }
{
    fixture.name(names, name, make)?;
    Ok(true)
}

/// Gives a name to the left side of a constraint.
fn gives_left(
    fixture: &Fixture,
    names: &mut Names,
    name: Name,
    n: usize,
) -> Result<bool, EvalError> {
    match fixture.constraint(n) {
        Some(Constraint { left: node, .. }) => {
            names.give(name, GenericArg { node })?;
            Ok(true)
        }
        None => Ok(false),
    }
}

/// Gives a name to the type of a new alias without arguments.
fn gives_alias(fixture: &mut Fixture, names: &mut Names, name: Name) -> Result<bool, EvalError>
    requires { IsTable fixture.old.cx.nodes fixture.old.table }
    ensures { IsTable fixture.new.cx.nodes fixture.new.table }
{
    let item = fixture.declare_alias(&[], AliasKind::Projection)?;
    names.give(name, fixture.alias(item, &[])?)?;
    Ok(true)
}

/// Makes one more universe, and sees that it is the one that is answered.
fn gives_universe(fixture: &mut Fixture) -> Result<bool, EvalError>
    requires { IsTable fixture.old.cx.nodes fixture.old.table }
    ensures { IsTable fixture.new.cx.nodes fixture.new.table }
{
    let universe = fixture.universe()?;
    Ok(fixture.table.universe() == universe)
}

fn gives_universes(fixture: &mut Fixture, count: UniverseIndex) -> Result<bool, EvalError>
    requires { IsTable fixture.old.cx.nodes fixture.old.table }
    ensures { IsTable fixture.new.cx.nodes fixture.new.table }
{
    fixture.table.create_universes(count)?;
    Ok(true)
}

fn refuses_universes(fixture: &mut Fixture, count: UniverseIndex) -> bool
    requires { IsTable fixture.old.cx.nodes fixture.old.table }
    ensures { IsTable fixture.new.cx.nodes fixture.new.table }
{
    let refused = fixture.table.create_universes(count);
    matches!(refused, Err(Fault::Full))
}

fn resolves(fixture: &mut Fixture, x: GenericArg, y: GenericArg) -> Result<bool, EvalError>
    requires { IsTable fixture.old.cx.nodes fixture.old.table }
    ensures { IsTable fixture.new.cx.nodes fixture.new.table }
{
    Ok(fixture.resolved(x)? == y)
}

fn root_is(
    fixture: &mut Fixture,
    kind: VariableKind,
    n: usize,
    root: GenericArg,
) -> Result<bool, EvalError>
    requires { IsTable fixture.old.cx.nodes fixture.old.table }
    ensures { IsTable fixture.new.cx.nodes fixture.new.table }
{
    Ok(root_of(fixture, kind, n)? == root)
}

fn alias_is(fixture: &mut Fixture, x: GenericArg, answer: bool) -> Result<bool, EvalError>
    requires { IsTable fixture.old.cx.nodes fixture.old.table }
    ensures { IsTable fixture.new.cx.nodes fixture.new.table }
{
    Ok(has_alias(fixture, x)? == answer)
}

/// Whether a constraint says that two regions are equal, as the leak check sees it.
fn are_equal(fixture: &Fixture, n: usize, left: GenericArg, right: GenericArg) -> bool {
    let equal = Constraint {
        relation: Relation::Equal,
        left: left.node,
        right: right.node,
        is_visible: true,
    };
    fixture.constraint(n) == Some(equal)
}
