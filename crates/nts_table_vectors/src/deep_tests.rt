//! Terms that are nested very deep, and terms that share very much.
use crate::steps::Step::{
    Counts, Equates, IsForeign, Known, Let, Link, Refuses, Relates, Resolves, Universe,
};
use crate::steps::{Step, plays};
use nts_fixtures::Make::{Ladder, Nested, Var};
use nts_fixtures::{BYTE, WORD};
use nts_model::VariableKind::Ty;

#[test]
fn variables_of_a_ladder(rt: HostRuntime) {
    const STEPS: &[Step] = &[
        Let("hole", Var(Ty)),
        Let("tall", Ladder("hole", 60)),
        IsForeign("tall"),
    ];
    plays(&rt, rt.alloc(), STEPS);
}

/// Two ladders over two variables: each pair of their nodes is related once.
#[test]
fn two_ladders(rt: HostRuntime) {
    const STEPS: &[Step] = &[
        Let("first", Var(Ty)),
        Let("second", Var(Ty)),
        Let("left", Ladder("first", 60)),
        Let("right", Ladder("second", 60)),
        Relates("left", "right"),
        Link(1, 0, 0),
        Resolves("right", "left"),
    ];
    plays(&rt, rt.alloc(), STEPS);
}

/// What was met before stays met when a variable gets a value.
#[test]
fn a_ladder_of_a_type(rt: HostRuntime) {
    const STEPS: &[Step] = &[
        Let("hole", Var(Ty)),
        Let("byte", BYTE),
        Let("word", WORD),
        Let("left", Ladder("hole", 60)),
        Let("right", Ladder("byte", 60)),
        Let("other", Ladder("word", 60)),
        Relates("left", "right"),
        Known(0, 0, "byte"),
        Refuses("left", "other"),
        Refuses("right", "other"),
    ];
    plays(&rt, rt.alloc(), STEPS);
}

/// A ladder as the value of a variable: each of its nodes is made once.
#[test]
fn a_ladder_for_a_variable(rt: HostRuntime) {
    const STEPS: &[Step] = &[
        Let("low", Var(Ty)),
        Universe,
        Let("high", Var(Ty)),
        Let("tall", Ladder("high", 60)),
        Relates("low", "tall"),
        Counts(3, 0),
        Resolves("low", "tall"),
        Refuses("high", "tall"),
    ];
    plays(&rt, rt.alloc(), STEPS);
}

/// A term that is nested very deep, as the value of a variable.
#[test]
fn a_deep_term_for_a_variable(rt: HostRuntime) {
    const STEPS: &[Step] = &[
        Let("low", Var(Ty)),
        Universe,
        Let("high", Var(Ty)),
        Let("deep", Nested("high", 100_000)),
        Equates("low", "deep"),
        Counts(3, 0),
        Link(2, 0, 1),
    ];
    plays(&rt, rt.alloc(), STEPS);
}
