//! Tests as lists of steps, each of which makes a term, a goal or its canonical input, or sees what it is.
ghost use Rattle.nts_table.specs.Tables.{IsTable};

use crate::inputs::{
    another_table, canonical, declare, env_of, equate, join, resolved, same, there_and_back,
    trait_holds, value_of,
};
use nts_canonical::{CanonicalInput, CanonicalVarKind};
use nts_fixtures::{Fixture, Make, Name, Names};
use nts_model::{Sort, VariableKind};
use nts_store::EvalError;
use nts_terms::{GenericArg, ParamEnv, Predicate, TraitId, UniverseIndex};
use nts_unify::State;
use std::alloc::Global;
use std::process::Abort;

/// A step of a test. A variable, a trait and a position are named by their numbers, and a term, a predicate, an environment and
/// a canonical input by its name.
pub enum Step {
    /// Makes a term, and gives it a name.
    Let(Name, Make),
    /// Makes so many universes more.
    Universes(UniverseIndex),
    /// Declares a trait of arguments of these sorts.
    Trait(&'static [Sort]),
    /// Names the predicate that a trait holds for these arguments.
    Holds(Name, usize, &'static [Name]),
    /// Names the environment of one predicate.
    Env(Name, Name),
    /// Names the empty environment.
    NoEnv(Name),
    /// Names the canonical input of a predicate, in the empty environment.
    Input(Name, Name),
    /// Names the canonical input of a predicate, in an environment.
    InputIn(Name, Name, Name),
    /// Names the value of a kind, where the positions have these values.
    Value(Name, CanonicalVarKind, &'static [Name]),
    /// Makes one sub-unification class of those of two variables.
    Joins(usize, usize),
    /// Makes two terms one.
    Equates(Name, Name),
    /// Puts a new table in the place of this one.
    AnotherTable,
    /// What the canonical input of a predicate in an environment is filled with gives both back.
    GivesBack(Name, Name),
    /// The first term, with values in place of its variables, is the second one.
    Resolves(Name, Name),
    /// Whether two names are of one term, predicate or environment.
    Is(Name, Name, bool),
    /// The last variable is of this kind and universe, and has no value.
    IsLast(VariableKind, UniverseIndex),
    /// A variable is linked to that sub root.
    LeadsTo(usize, usize),
    /// The table has so many variables.
    Variables(usize),
    /// A canonical input.
    Of(Name, Seen),
}

/// What is seen of a canonical input.
pub enum Seen {
    /// Its originals.
    Originals(&'static [Name]),
    /// Whether it is that of this predicate.
    Asks(Name, bool),
    /// It is in this environment.
    In(Name),
    /// Its greatest universe.
    Greatest(UniverseIndex),
    /// How many positions it has.
    Positions(usize),
    /// A position stands for a type variable of the root universe with that sub root.
    Ty(usize, usize),
    /// A position stands for a region placeholder of the root universe of this number.
    PlaceholderRegion(usize, usize),
    /// Whether it is the same as another one.
    Same(Name, bool),
    /// Its copy is the same.
    SameAsCopy,
}

/// A canonical input and the originals of its positions.
#[derive(Drop)]
pub struct Kept {
    name: Name,
    originals: Vec<GenericArg>,
    input: CanonicalInput,
}

/// Plays the steps one after the other, in a new table.
pub fn plays(rt: &impl Abort, alloc: Global, steps: &[Step]) {
    let mut fixture = Fixture::new(alloc).expect(rt, "memory");
    let mut names = Names::new(alloc);
    let mut inputs = Vec::new(alloc);
    play_all(rt, &mut fixture, &mut names, &mut inputs, steps);
}

fn play_all(
    rt: &impl Abort,
    fixture: &mut Fixture,
    names: &mut Names,
    inputs: &mut Vec<Kept>,
    steps: &[Step],
)
    requires { IsTable fixture.old.cx.nodes fixture.old.table }
{
    for n in 0..steps.len() {
        let played = play(rt, fixture, names, inputs, &steps[n]);
        assert!(rt; matches!(played, Ok(true)), "step {n}");
    }
}

fn play(
    rt: &impl Abort,
    fixture: &mut Fixture,
    names: &mut Names,
    inputs: &mut Vec<Kept>,
    step: &Step,
) -> Result<bool, EvalError>
    requires { IsTable fixture.old.cx.nodes fixture.old.table }
    ensures { IsTable fixture.new.cx.nodes fixture.new.table }
{
    match step {
        Step::Let(name, make) => fixture.name(names, *name, *make)?,
        Step::Holds(name, id, args) => name_holds(rt, fixture, names, *name, *id, args)?,
        Step::Env(name, predicate) => name_env(rt, fixture, names, *name, predicate)?,
        Step::NoEnv(name) => {
            let node = fixture.env.node;
            names.give(*name, GenericArg { node })?;
        }
        Step::Value(name, kind, values) => name_value(fixture, names, *name, *kind, values)?,
        Step::Input(name, predicate) => {
            let env = fixture.env;
            keep(fixture, names, inputs, *name, env, predicate)?;
        }
        Step::InputIn(name, env, predicate) => {
            let env = named_env(names, env)?;
            keep(fixture, names, inputs, *name, env, predicate)?;
        }
        Step::GivesBack(env, predicate) => return gives_back(fixture, names, env, predicate),
        Step::Resolves(x, y) => return Ok(resolved(fixture, names.term(x)?)? == names.term(y)?),
        Step::Of(name, seen) => return sees(rt, fixture, names, inputs, name, seen),
        other => return changes(rt, fixture, names, other),
    }
    Ok(true)
}

/// Changes the table or the store, or sees what became of them.
fn changes(
    rt: &impl Abort,
    fixture: &mut Fixture,
    names: &Names,
    step: &Step,
) -> Result<bool, EvalError>
    requires { IsTable fixture.old.cx.nodes fixture.old.table }
    ensures { IsTable fixture.new.cx.nodes fixture.new.table }
{
    match step {
        Step::Universes(count) => fixture.table.create_universes(*count)?,
        Step::Trait(sorts) => {
            declare(fixture, sorts)?;
        }
        Step::Joins(a, b) => join(rt, fixture, *a, *b),
        Step::Equates(x, y) => equate(fixture, names.term(x)?, names.term(y)?)?,
        Step::AnotherTable => another_table(fixture),
        Step::Is(x, y, answer) => return Ok((names.term(x)? == names.term(y)?) == *answer),
        Step::IsLast(kind, universe) => return Ok(is_last(fixture, *kind, *universe)),
        Step::LeadsTo(n, root) => return Ok(leads_to(fixture, *n, *root)),
        Step::Variables(count) => return Ok(fixture.table.variable_count() == *count),
        _ => return Ok(false),
    }
    Ok(true)
}

/// Sees what a canonical input is.
fn sees(
    rt: &impl Abort,
    fixture: &Fixture,
    names: &Names,
    inputs: &[Kept],
    name: &str,
    seen: &Seen,
) -> Result<bool, EvalError> {
    let kept = find(inputs, name)?;
    let canonical = &kept.input.canonical;
    match seen {
        Seen::Originals(originals) => Ok(kept.originals == names.terms(originals)?),
        Seen::Asks(x, answer) => {
            Ok((canonical.value.goal.predicate == named_predicate(names, x)?) == *answer)
        }
        Seen::In(env) => Ok(canonical.value.goal.param_env == named_env(names, env)?),
        Seen::Greatest(universe) => Ok(canonical.max_universe == *universe),
        Seen::Positions(count) => Ok(canonical.var_kinds.len() == *count),
        Seen::Ty(position, root) => Ok(is_ty(&kept.input, *position, *root)),
        Seen::PlaceholderRegion(position, var) => {
            Ok(is_placeholder(&kept.input, *position, *var))
        }
        Seen::Same(other, answer) => {
            let other = find(inputs, other)?;
            Ok(same(rt, &fixture.cx, &kept.input, &other.input) == *answer)
        }
        Seen::SameAsCopy => {
            let copy = kept.input.clone()?;
            Ok(same(rt, &fixture.cx, &kept.input, &copy))
        }
    }
}

/// The canonical input of that name.
fn find<'a>(inputs: &'a [Kept], name: &str) -> Result<&'a Kept, EvalError> {
    for kept in inputs {
        if kept.name == name {
            return Ok(kept);
        }
    }
    Err(EvalError::NoSolution)
}

fn named_env(names: &Names, name: &str) -> Result<ParamEnv, EvalError> {
    let node = names.term(name)?.node;
    Ok(ParamEnv { node })
}

fn named_predicate(names: &Names, name: &str) -> Result<Predicate, EvalError> {
    let node = names.term(name)?.node;
    Ok(Predicate { node })
}

fn name_holds(
    rt: &impl Abort,
    fixture: &mut Fixture,
    names: &mut Names,
    name: Name,
    id: usize,
    args: &[Name],
) -> Result<(), EvalError>
    requires { IsTable fixture.old.cx.nodes fixture.old.table }
    ensures { IsTable fixture.new.cx.nodes fixture.new.table }
{
    let args = names.terms(args)?;
    let node = trait_holds(rt, fixture, TraitId { number: id }, &args)?.node;
    Ok(names.give(name, GenericArg { node })?)
}

fn name_env(
    rt: &impl Abort,
    fixture: &mut Fixture,
    names: &mut Names,
    name: Name,
    predicate: &str,
) -> Result<(), EvalError>
    requires { IsTable fixture.old.cx.nodes fixture.old.table }
    ensures { IsTable fixture.new.cx.nodes fixture.new.table }
{
    let node = env_of(rt, fixture, named_predicate(names, predicate)?)?.node;
    Ok(names.give(name, GenericArg { node })?)
}

fn name_value(
    fixture: &mut Fixture,
    names: &mut Names,
    name: Name,
    kind: CanonicalVarKind,
    values: &[Name],
) -> Result<(), EvalError>
    requires { IsTable fixture.old.cx.nodes fixture.old.table }
    ensures { IsTable fixture.new.cx.nodes fixture.new.table }
{
    let values = names.terms(values)?;
    let value = value_of(fixture, kind, &values)?;
    Ok(names.give(name, value)?)
}

/// Keeps the canonical input of a predicate in an environment.
fn keep(
    fixture: &mut Fixture,
    names: &Names,
    inputs: &mut Vec<Kept>,
    name: Name,
    env: ParamEnv,
    predicate: &str,
) -> Result<(), EvalError>
    requires { IsTable fixture.old.cx.nodes fixture.old.table }
    ensures { IsTable fixture.new.cx.nodes fixture.new.table }
{
    let predicate = named_predicate(names, predicate)?;
    let (originals, input) = canonical(fixture, env, predicate)?;
    inputs.push(Kept {
        name,
        originals,
        input,
    })?;
    Ok(())
}

fn gives_back(
    fixture: &mut Fixture,
    names: &Names,
    env: &str,
    predicate: &str,
) -> Result<bool, EvalError>
    requires { IsTable fixture.old.cx.nodes fixture.old.table }
    ensures { IsTable fixture.new.cx.nodes fixture.new.table }
{
    let env = named_env(names, env)?;
    let predicate = named_predicate(names, predicate)?;
    let goal = there_and_back(fixture, env, predicate)?;
    Ok(goal.param_env == env && goal.predicate == predicate)
}

/// Whether a position stands for a type variable of the root universe with that sub root.
fn is_ty(input: &CanonicalInput, position: usize, root: usize) -> bool {
    match input.canonical.var_kinds.get(position) {
        Some(CanonicalVarKind::Ty { ui, sub_root }) => *ui == 0 && *sub_root == root,
        _ => false,
    }
}

/// Whether a position stands for a region placeholder of the root universe of that number.
fn is_placeholder(input: &CanonicalInput, position: usize, var: usize) -> bool {
    match input.canonical.var_kinds.get(position) {
        Some(CanonicalVarKind::PlaceholderRegion(p)) => p.universe == 0 && p.bound.var == var,
        _ => false,
    }
}

/// Whether the last variable of the table is of that kind and universe, and has no value.
fn is_last(fixture: &Fixture, kind: VariableKind, universe: UniverseIndex) -> bool {
    let count = fixture.table.variable_count();
    if count == 0 {
        return false;
    }
    let variable = fixture.table.variable(count - 1);
    variable.kind == kind && variable.universe == universe && variable.state == State::Unset
}

/// Whether a variable is linked to that sub root.
fn leads_to(fixture: &Fixture, n: usize, root: usize) -> bool {
    n < fixture.table.variable_count() && fixture.table.variable(n).sub_link == Some(root)
}
