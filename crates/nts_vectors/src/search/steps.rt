//! Tests as lists of steps, each of which changes a stack or sees what it answers.
ghost use Rattle.nts_search.specs.Searching.{IsStack};

use crate::search::fixture::{Answer, Fixture};
use nts_certainty::PathKind;
use nts_model::Sort;
use nts_terms::TypingMode;
use std::alloc::Global;
use std::process::Abort;

/// A step of a test. An input is told by what its predicate binds and by its mode.
pub enum Step {
    /// Puts an input on the stack, which is reached by such a step and answered so at first.
    Push(&'static [Sort], Mode, PathKind, Answer),
    /// .. in that round.
    PushIn(usize, &'static [Sort], Mode, PathKind, Answer),
    /// Takes the newest input off.
    Pop,
    /// Reads the answer of an entry.
    Read(usize),
    /// The place of an input on the stack, if it is there.
    Finds(&'static [Sort], Mode, Option<usize>),
    /// The path from an entry to such a step is of that kind.
    Path(usize, PathKind, PathKind),
    /// Whether a round with this answer is the last one of the oldest entry.
    Ends(Answer, bool),
    /// So many inputs were on the stack at most.
    MostInputs(usize),
    /// An input took so many rounds at most.
    MostRounds(usize),
}

/// A mode without hidden types.
#[derive(Clone, Copy)]
pub enum Mode {
    PostAnalysis,
    Coherence,
    Erased,
}

impl Mode {
    fn typing_mode(self) -> TypingMode {
        match self {
            Mode::PostAnalysis => TypingMode::PostAnalysis,
            Mode::Coherence => TypingMode::Coherence,
            Mode::Erased => TypingMode::ErasedNotCoherence,
        }
    }
}

/// Plays the steps one after the other, on an empty stack.
pub fn plays(rt: &impl Abort, alloc: Global, steps: &[Step]) {
    let mut fixture = Fixture::new(alloc);
    play_all(rt, &mut fixture, steps);
}

fn play_all(rt: &impl Abort, fixture: &mut Fixture, steps: &[Step])
    requires { IsStack fixture.old.cx.nodes fixture.old.graph }
{
    for n in 0..steps.len() {
        assert!(rt; play(rt, fixture, &steps[n]), "step {n}");
    }
}

fn play(rt: &impl Abort, fixture: &mut Fixture, step: &Step) -> bool
    requires { IsStack fixture.old.cx.nodes fixture.old.graph }
    ensures { IsStack fixture.new.cx.nodes fixture.new.graph }
{
    match step {
        Step::Push(sorts, mode, kind, answer) => {
            fixture.push(rt, sorts, mode.typing_mode(), *kind, *answer, 1);
            true
        }
        Step::PushIn(round, sorts, mode, kind, answer) => {
            fixture.push(rt, sorts, mode.typing_mode(), *kind, *answer, *round);
            true
        }
        Step::Pop => {
            fixture.pop(rt);
            true
        }
        Step::Read(head) => {
            fixture.read(rt, *head);
            true
        }
        Step::Finds(sorts, mode, place) => fixture.find(rt, sorts, mode.typing_mode()) == *place,
        Step::Path(head, step, kind) => fixture.path(rt, *head, *step) == *kind,
        Step::Ends(answer, ends) => fixture.ends(rt, *answer) == *ends,
        Step::MostInputs(count) => fixture.graph.most_inputs() == *count,
        Step::MostRounds(count) => fixture.graph.most_rounds() == *count,
    }
}
