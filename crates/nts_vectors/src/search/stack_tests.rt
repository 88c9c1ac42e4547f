//! Inputs on a stack, paths between them and rounds of them.
use crate::search::fixture::{Answer, Fixture};
use crate::search::steps::Mode::{Coherence, Erased, PostAnalysis};
use crate::search::steps::Step::{
    Ends, Finds, MostInputs, MostRounds, Path, Pop, Push, PushIn, Read,
};
use crate::search::steps::{Step, plays};
use nts_certainty::Certainty;
use nts_certainty::PathKind::{Coinductive, ForcedAmbiguity, Inductive, Unknown};
use nts_model::Sort;

const YES: Answer = Answer::SaysNothing(Certainty::Yes);

#[test]
fn an_input_is_found_while_it_is_evaluated(rt: HostRuntime) {
    const STEPS: &[Step] = &[
        Finds(&[], PostAnalysis, None),
        Push(&[], PostAnalysis, Unknown, YES),
        Push(&[Sort::Ty], PostAnalysis, Unknown, YES),
        Finds(&[], PostAnalysis, Some(0)),
        Finds(&[Sort::Ty], PostAnalysis, Some(1)),
        Finds(&[Sort::Region], PostAnalysis, None),
        Pop,
        Finds(&[Sort::Ty], PostAnalysis, None),
        Finds(&[], PostAnalysis, Some(0)),
    ];
    plays(&rt, rt.alloc(), STEPS);
}

#[test]
fn inputs_of_the_same_terms_are_told_by_their_modes(rt: HostRuntime) {
    const STEPS: &[Step] = &[
        Push(&[], PostAnalysis, Unknown, YES),
        Push(&[Sort::Ty], PostAnalysis, Unknown, YES),
        Push(&[], Coherence, Unknown, YES),
        Finds(&[], Coherence, Some(2)),
        Finds(&[], PostAnalysis, Some(0)),
        Finds(&[], Erased, None),
        Pop,
        Finds(&[], Coherence, None),
        Finds(&[], PostAnalysis, Some(0)),
        MostInputs(3),
    ];
    plays(&rt, rt.alloc(), STEPS);
}

/// The newest entry's own step is not of a path back to it.
#[test]
fn the_strongest_step_of_a_path_decides(rt: HostRuntime) {
    const STEPS: &[Step] = &[
        Push(&[], PostAnalysis, Coinductive, YES),
        Push(&[Sort::Ty], PostAnalysis, Inductive, YES),
        Push(&[Sort::Region], PostAnalysis, Unknown, YES),
        Path(2, Inductive, Inductive),
        Path(1, Inductive, Unknown),
        Path(0, Inductive, Unknown),
        Path(0, Coinductive, Coinductive),
        Path(0, ForcedAmbiguity, ForcedAmbiguity),
    ];
    plays(&rt, rt.alloc(), STEPS);
}

#[test]
fn a_round_is_the_last_one_if_nothing_read_it(rt: HostRuntime) {
    const STEPS: &[Step] = &[
        Push(&[], PostAnalysis, Unknown, YES),
        Ends(Answer::NoSolution, true),
        Read(0),
        Ends(Answer::NoSolution, false),
        Ends(YES, true),
        Ends(Answer::SaysType(Certainty::Yes), false),
        Ends(Answer::SaysNothing(Certainty::AMBIGUOUS), true),
        Ends(Answer::SaysType(Certainty::AMBIGUOUS), false),
    ];
    plays(&rt, rt.alloc(), STEPS);
}

#[test]
fn no_solution_twice_ends_the_rounds(rt: HostRuntime) {
    const STEPS: &[Step] = &[
        Push(&[], PostAnalysis, Inductive, Answer::NoSolution),
        Read(0),
        Ends(Answer::NoSolution, true),
        Ends(YES, false),
    ];
    plays(&rt, rt.alloc(), STEPS);
}

#[test]
fn the_most_rounds_are_kept(rt: HostRuntime) {
    const STEPS: &[Step] = &[
        Push(&[], PostAnalysis, Unknown, YES),
        MostRounds(1),
        Pop,
        PushIn(3, &[], PostAnalysis, Unknown, YES),
        Pop,
        PushIn(2, &[Sort::Ty], PostAnalysis, Unknown, YES),
        MostRounds(3),
        MostInputs(1),
    ];
    plays(&rt, rt.alloc(), STEPS);
}
