//! Tests as lists of steps, each of which makes a term, or folds one and sees what it gives.
ghost use Rattle.nts_table.specs.Tables.{IsTable};

use crate::fixture::{ambiguous, fold};
use crate::scripts::Script;
use nts_fixtures::{Fixture, Make, Name, Names};
use nts_store::EvalError;
use nts_terms::{Ty, UniverseIndex};
use std::alloc::Global;
use std::process::Abort;

/// A step of a test. A term is named by its name.
pub enum Step {
    /// Makes a term, and gives it a name.
    Let(Name, Make),
    /// A term, with these answers to its aliases, becomes another one. So many goals are collected, and the table is in that
    /// universe then.
    Folds(Name, Answer, Name, usize, UniverseIndex),
    /// Folding the term is refused so, in a table that is in this universe.
    Refuses(UniverseIndex, Name, Answer, EvalError),
    /// Where it is refused, the same folder makes another term of it by other answers. The table is in that universe then.
    FoldsAfterRefusal(Name, Answer, Name, UniverseIndex),
}

/// What is answered to an alias.
#[derive(Clone, Copy)]
pub enum Answer {
    /// `u8`.
    Byte,
    /// The constructor of a type over the arguments of the alias.
    Wrapped,
    /// A variable that is made for the answer, and a goal.
    Fresh,
    /// This type, and a goal.
    Known(Name),
}

/// Plays the steps one after the other, in a new table.
pub fn plays(rt: &impl Abort, alloc: Global, steps: &[Step]) {
    let mut fixture = Fixture::new(alloc).expect(rt, "memory");
    let mut names = Names::new(alloc);
    play_all(rt, &mut fixture, &mut names, steps);
}

fn play_all(rt: &impl Abort, fixture: &mut Fixture, names: &mut Names, steps: &[Step])
    requires { IsTable fixture.old.cx.nodes fixture.old.table }
{
    for n in 0..steps.len() {
        let played = play(rt, fixture, names, &steps[n]);
        assert!(rt; matches!(played, Ok(true)), "step {n}");
    }
}

fn play(
    rt: &impl Abort,
    fixture: &mut Fixture,
    names: &mut Names,
    step: &Step,
) -> Result<bool, EvalError>
    requires { IsTable fixture.old.cx.nodes fixture.old.table }
    ensures { IsTable fixture.new.cx.nodes fixture.new.table }
{
    match step {
        Step::Let(name, make) => {
            fixture.name(names, *name, *make)?;
            Ok(true)
        }
        Step::Folds(x, answer, becomes, goals, universe) => {
            let script = script(fixture, names, *answer)?;
            let folded = fold(rt, fixture, 0, script, None, names.term(x)?)?;
            let becomes = folded.first == Ok(names.term(becomes)?);
            Ok(becomes && folded.goals.len() == *goals && folded.universe == *universe)
        }
        Step::Refuses(universe, x, answer, error) => {
            let script = script(fixture, names, *answer)?;
            let folded = fold(rt, fixture, *universe, script, None, names.term(x)?)?;
            Ok(folded.first == Err(*error))
        }
        Step::FoldsAfterRefusal(x, answer, becomes, universe) => {
            let then = Some(script(fixture, names, *answer)?);
            let folded = fold(rt, fixture, 0, Script::Refuse, then, names.term(x)?)?;
            let refused = folded.first == Err(EvalError::NoSolution);
            let becomes = folded.again == Some(Ok(names.term(becomes)?));
            Ok(refused && becomes && folded.universe == *universe)
        }
    }
}

/// The script of an answer. Its goals are ambiguous.
fn script(fixture: &mut Fixture, names: &Names, answer: Answer) -> Result<Script, EvalError>
    requires { IsTable fixture.old.cx.nodes fixture.old.table }
    ensures { IsTable fixture.new.cx.nodes fixture.new.table }
{
    match answer {
        Answer::Byte => Ok(Script::Word),
        Answer::Wrapped => Ok(Script::Wrapped(fixture.one)),
        Answer::Fresh => Ok(Script::Fresh(ambiguous(fixture)?)),
        Answer::Known(x) => {
            let node = names.term(x)?.node;
            Ok(Script::Known(Ty { node }, ambiguous(fixture)?))
        }
    }
}
