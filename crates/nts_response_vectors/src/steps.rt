//! Tests as lists of steps, each of which makes a term, applies a response, or sees what became of the table.
ghost use Rattle.nts_table.specs.Tables.{IsTable};

use crate::fixture::{apply, certain};
use nts_canonical::CanonicalVarKind;
use nts_fixtures::{Fixture, Make, Name, Names};
use nts_response::CanonicalResponse;
use nts_store::EvalError;
use nts_terms::UniverseIndex;
use std::alloc::Global;
use std::process::Abort;

/// A step of a test. A variable is named by its number, and a term by its name.
pub enum Step {
    /// Makes a term, and gives it a name.
    Let(Name, Make),
    /// Makes so many universes more.
    Universes(UniverseIndex),
    /// Applies a response to these originals, which leaves no goals.
    Applies(&'static [Name], Certain),
    /// A response to these originals is refused so.
    Refuses(&'static [Name], Certain, EvalError),
    /// The first term, with values in place of its variables, is the second one.
    Resolves(Name, Name),
    /// Two terms are one, with values in place of their variables.
    Alike(Name, Name),
    /// The table has so many variables.
    Variables(usize),
    /// The table is in this universe.
    InUniverse(UniverseIndex),
    /// Whether two variables are of one sub-unification class.
    Shares(usize, usize, bool),
}

/// A certain response: its greatest universe, the kinds of its positions, and its values.
#[derive(Clone, Copy)]
pub struct Certain(
    pub UniverseIndex,
    pub &'static [CanonicalVarKind],
    pub &'static [Name],
);

/// Plays the steps one after the other, in a new table.
pub fn plays(rt: &impl Abort, alloc: Global, steps: &[Step]) {
    let mut fixture = Fixture::new(alloc).expect(rt, "memory");
    let mut names = Names::new(alloc);
    play_all(rt, &mut fixture, &mut names, steps);
}

fn play_all(rt: &impl Abort, fixture: &mut Fixture, names: &mut Names, steps: &[Step])
    requires { IsTable fixture.old.cx.nodes fixture.old.table }
{
    for n in 0..steps.len() {
        let played = play(rt, fixture, names, &steps[n]);
        assert!(rt; matches!(played, Ok(true)), "step {n}");
    }
}

fn play(
    rt: &impl Abort,
    fixture: &mut Fixture,
    names: &mut Names,
    step: &Step,
) -> Result<bool, EvalError>
    requires { IsTable fixture.old.cx.nodes fixture.old.table }
    ensures { IsTable fixture.new.cx.nodes fixture.new.table }
{
    match step {
        Step::Let(name, make) => makes(fixture, names, *name, *make),
        Step::Universes(count) => makes_universes(fixture, *count),
        Step::Applies(originals, certain) => applies(rt, fixture, names, originals, *certain),
        Step::Refuses(originals, certain, error) => {
            refuses(rt, fixture, names, originals, *certain, *error)
        }
        Step::Resolves(x, y) => resolves(fixture, names, x, y),
        Step::Alike(x, y) => are_alike(fixture, names, x, y),
        _ => Ok(has(fixture, step)),
    }
}

/// Sees what can be read of the table.
fn has(fixture: &Fixture, step: &Step) -> bool
    requires { IsTable fixture.now.cx.nodes fixture.now.table }
{
    match step {
        Step::Variables(count) => fixture.table.variable_count() == *count,
        Step::InUniverse(universe) => fixture.table.universe() == *universe,
        Step::Shares(a, b, answer) => fixture.shares(*a, *b) == Some(*answer),
        _ => false,
    }
}

fn makes(
    fixture: &mut Fixture,
    names: &mut Names,
    name: Name,
    make: Make,
) -> Result<bool, EvalError>
    requires { IsTable fixture.old.cx.nodes fixture.old.table }
    ensures { IsTable fixture.new.cx.nodes fixture.new.table }
{
    fixture.name(names, name, make)?;
    Ok(true)
}

fn makes_universes(fixture: &mut Fixture, count: UniverseIndex) -> Result<bool, EvalError>
    requires { IsTable fixture.old.cx.nodes fixture.old.table }
    ensures { IsTable fixture.new.cx.nodes fixture.new.table }
{
    fixture.table.create_universes(count)?;
    Ok(true)
}

fn resolves(fixture: &mut Fixture, names: &Names, x: &str, y: &str) -> Result<bool, EvalError>
    requires { IsTable fixture.old.cx.nodes fixture.old.table }
    ensures { IsTable fixture.new.cx.nodes fixture.new.table }
{
    let wanted = names.term(y)?;
    Ok(fixture.resolved(names.term(x)?)? == wanted)
}

fn are_alike(fixture: &mut Fixture, names: &Names, x: &str, y: &str) -> Result<bool, EvalError>
    requires { IsTable fixture.old.cx.nodes fixture.old.table }
    ensures { IsTable fixture.new.cx.nodes fixture.new.table }
{
    let value = fixture.resolved(names.term(x)?)?;
    Ok(fixture.resolved(names.term(y)?)? == value)
}

fn applies(
    rt: &impl Abort,
    fixture: &mut Fixture,
    names: &Names,
    originals: &[Name],
    response: Certain,
) -> Result<bool, EvalError>
    requires { IsTable fixture.old.cx.nodes fixture.old.table }
    ensures { IsTable fixture.new.cx.nodes fixture.new.table }
{
    let originals = names.terms(originals)?;
    let response = written(fixture.cx.alloc, names, response)?;
    let goals = apply(rt, fixture, &originals, &response)?;
    Ok(goals.is_empty())
}

fn refuses(
    rt: &impl Abort,
    fixture: &mut Fixture,
    names: &Names,
    originals: &[Name],
    response: Certain,
    error: EvalError,
) -> Result<bool, EvalError>
    requires { IsTable fixture.old.cx.nodes fixture.old.table }
    ensures { IsTable fixture.new.cx.nodes fixture.new.table }
{
    let originals = names.terms(originals)?;
    let response = written(fixture.cx.alloc, names, response)?;
    let goals = apply(rt, fixture, &originals, &response);
    Ok(goals.err() == Some(error))
}

fn written(
    alloc: Global,
    names: &Names,
    response: Certain,
) -> Result<CanonicalResponse, EvalError> {
    let Certain(max_universe, kinds, values) = response;
    let values = names.terms(values)?;
    certain(alloc, max_universe, kinds, &values)
}
