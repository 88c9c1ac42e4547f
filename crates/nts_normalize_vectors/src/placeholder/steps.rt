//! Tests as lists of steps, each of which makes a term, opens or closes one, or sees what became of the binders.
ghost use Rattle.nts_table.specs.Tables.{IsTable};

use crate::placeholder::fixture::{close, declare_mixed, open};
use nts_fixtures::{Fixture, Make, Name, Names, table_in};
use nts_model::Sort;
use nts_placeholder::{BoundVar, Placeholder, PlaceholderMaps};
use nts_store::{EvalError, Fault};
use nts_table::InferCtxt;
use nts_terms::{CtorId, GenericArg, UniverseIndex};
use std::alloc::Global;
use std::process::Abort;

/// A step of a test. A term is named by its name.
pub enum Step {
    /// Makes a term, and gives it a name.
    Let(Name, Make),
    /// Names the type of a constructor of a region, a type and a const.
    LetMixed(Name, &'static [Name]),
    /// Opens the second term, and gives what it becomes the first name.
    LetOpened(Name, Name),
    /// Opens the first term, which gives the second one.
    Opens(Name, Name),
    /// No universe is left to open the term.
    IsFull(Name),
    /// Closes the first term, by what was kept when the last one was opened, which gives the second one.
    Closes(Name, Name),
    /// Whether two names are of one term.
    Is(Name, Name, bool),
    /// The binders have these universes.
    Binders(&'static [Option<UniverseIndex>]),
    /// The table is in this universe.
    InUniverse(UniverseIndex),
    /// So many regions, types and consts were kept.
    Keeps(usize, usize, usize),
    /// What was kept for a placeholder of that sort, universe and number: a level and a number.
    Kept(Sort, UniverseIndex, usize, Option<(usize, usize)>),
}

/// What is opened and closed in: a table, binders, and what was kept when the last term was opened.
#[derive(Drop)]
pub struct Opening {
    table: InferCtxt,
    list: Vec<Option<UniverseIndex>>,
    maps: Option<PlaceholderMaps>,
    mixed: CtorId,
}

/// Plays the steps one after the other, in a table of that universe, with those binders.
pub fn plays(
    rt: &impl Abort,
    alloc: Global,
    universe: UniverseIndex,
    binders: &[Option<UniverseIndex>],
    steps: &[Step],
) {
    let mut fixture = Fixture::new(alloc).expect(rt, "memory");
    let mut names = Names::new(alloc);
    let opening = start(&mut fixture, universe, binders);
    play_all(
        rt,
        &mut fixture,
        &mut names,
        &mut opening.expect(rt, "memory"),
        steps,
    );
}

fn start(
    fixture: &mut Fixture,
    universe: UniverseIndex,
    binders: &[Option<UniverseIndex>],
) -> Result<Opening, EvalError>
    requires { IsTable fixture.old.cx.nodes fixture.old.table }
    ensures { IsTable fixture.new.cx.nodes fixture.new.table }
{
    let mixed = declare_mixed(fixture)?;
    let list = binders.to_vec(fixture.cx.alloc)?;
    let table = table_in(&fixture.cx, universe)?;
    Ok(Opening {
        table,
        list,
        maps: None,
        mixed,
    })
}

fn play_all(
    rt: &impl Abort,
    fixture: &mut Fixture,
    names: &mut Names,
    opening: &mut Opening,
    steps: &[Step],
)
    requires { IsTable fixture.old.cx.nodes fixture.old.table }
{
    for n in 0..steps.len() {
        let played = play(rt, fixture, names, opening, &steps[n]);
        assert!(rt; matches!(played, Ok(true)), "step {n}");
    }
}

fn play(
    rt: &impl Abort,
    fixture: &mut Fixture,
    names: &mut Names,
    opening: &mut Opening,
    step: &Step,
) -> Result<bool, EvalError>
    requires { IsTable fixture.old.cx.nodes fixture.old.table }
    ensures { IsTable fixture.new.cx.nodes fixture.new.table }
{
    match step {
        Step::Let(name, make) => {
            fixture.name(names, *name, *make)?;
            Ok(true)
        }
        Step::LetMixed(name, parts) => {
            let parts = names.terms(parts)?;
            names.give(*name, fixture.apply(opening.mixed, &parts)?)?;
            Ok(true)
        }
        Step::LetOpened(name, x) => {
            names.give(*name, opened(rt, fixture, names, opening, x)?)?;
            Ok(true)
        }
        Step::Opens(x, y) => Ok(opened(rt, fixture, names, opening, x)? == names.term(y)?),
        Step::IsFull(x) => is_full(rt, fixture, names, opening, x),
        Step::Closes(x, y) => closes(rt, fixture, names, opening, x, y),
        seen => sees(names, opening, seen),
    }
}

/// Opens a term, and keeps what closes it.
fn opened(
    rt: &impl Abort,
    fixture: &mut Fixture,
    names: &Names,
    opening: &mut Opening,
    x: &str,
) -> Result<GenericArg, EvalError>
    requires { IsTable fixture.old.cx.nodes fixture.old.table }
    ensures { IsTable fixture.new.cx.nodes fixture.new.table }
{
    let (table, list) = (&mut opening.table, &mut opening.list);
    let (opened, maps) = open(rt, fixture, table, list, names.term(x)?)?;
    opening.maps = Some(maps);
    Ok(opened)
}

fn is_full(
    rt: &impl Abort,
    fixture: &mut Fixture,
    names: &Names,
    opening: &mut Opening,
    x: &str,
) -> Result<bool, EvalError>
    requires { IsTable fixture.old.cx.nodes fixture.old.table }
    ensures { IsTable fixture.new.cx.nodes fixture.new.table }
{
    let (table, list) = (&mut opening.table, &mut opening.list);
    let refused = open(rt, fixture, table, list, names.term(x)?);
    Ok(matches!(refused, Err(Fault::Full)))
}

fn closes(
    rt: &impl Abort,
    fixture: &mut Fixture,
    names: &Names,
    opening: &Opening,
    x: &str,
    y: &str,
) -> Result<bool, EvalError>
    requires { IsTable fixture.old.cx.nodes fixture.old.table }
    ensures { IsTable fixture.new.cx.nodes fixture.new.table }
{
    let Some(maps) = &opening.maps else {
        return Ok(false);
    };
    let closed = close(rt, fixture, maps, &opening.list, names.term(x)?)?;
    Ok(closed == names.term(y)?)
}

/// Sees what became of the binders, and what was kept.
fn sees(names: &Names, opening: &Opening, step: &Step) -> Result<bool, EvalError> {
    match step {
        Step::Is(x, y, answer) => Ok((names.term(x)? == names.term(y)?) == *answer),
        Step::Binders(list) => Ok(opening.list.as_slice() == *list),
        Step::InUniverse(universe) => Ok(opening.table.universe() == *universe),
        other => Ok(keeps(opening, other)),
    }
}

/// Sees what was kept when the last term was opened.
fn keeps(opening: &Opening, step: &Step) -> bool {
    match (&opening.maps, step) {
        (Some(maps), Step::Keeps(regions, types, consts)) => {
            maps.regions.len() == *regions
                && maps.types.len() == *types
                && maps.consts.len() == *consts
        }
        (Some(maps), Step::Kept(sort, universe, var, kept)) => {
            let placeholder = Placeholder {
                universe: *universe,
                var: *var,
            };
            let kept = kept.map(|(level, var)| BoundVar { level, var });
            maps.bound_var(*sort, placeholder) == kept
        }
        _ => false,
    }
}
