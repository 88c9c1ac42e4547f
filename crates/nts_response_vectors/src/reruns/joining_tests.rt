//! Conditions joined.
use crate::reruns::conditions::Condition::{Always, Ids, IdsOrOpen, Never, Open};
use crate::reruns::conditions::{Condition, condition_of, is};
use nts_certainty::RerunCondition;
use nts_store::EvalError;
use std::alloc::Global;
use std::process::Abort;

/// A step of a test, which starts with no condition.
enum Step {
    /// What there is is joined to this condition, which takes its place.
    JoinedTo(Condition),
    /// This condition is joined to what there is.
    Joins(Condition),
    /// What there is is this condition.
    Is(Condition),
}

use Step::{Is, JoinedTo, Joins};

fn plays(rt: &impl Abort, alloc: Global, steps: &[Step]) {
    let mut condition = RerunCondition::Never;
    for n in 0..steps.len() {
        let played = play(alloc, &mut condition, &steps[n]);
        assert!(rt; matches!(played, Ok(true)), "step {n}");
    }
}

fn play(alloc: Global, condition: &mut RerunCondition, step: &Step) -> Result<bool, EvalError> {
    match step {
        Step::JoinedTo(first) => {
            let mut first = condition_of(alloc, *first)?;
            first.join(condition)?;
            *condition = first;
            Ok(true)
        }
        Step::Joins(other) => {
            condition.join(&condition_of(alloc, *other)?)?;
            Ok(true)
        }
        Step::Is(wanted) => Ok(is(condition, *wanted)),
    }
}

#[test]
fn ids_are_united(rt: HostRuntime) {
    const STEPS: &[Step] = &[
        JoinedTo(Ids(&[1, 2])),
        Joins(Ids(&[2, 3, 1])),
        Is(Ids(&[1, 2, 3])),
    ];
    plays(&rt, rt.alloc(), STEPS);
}

#[test]
fn ids_behind_open_types(rt: HostRuntime) {
    const STEPS: &[Step] = &[JoinedTo(Open), Joins(Ids(&[4])), Is(IdsOrOpen(&[4]))];
    plays(&rt, rt.alloc(), STEPS);
}

#[test]
fn open_types_behind_ids(rt: HostRuntime) {
    const STEPS: &[Step] = &[
        JoinedTo(Ids(&[4])),
        Joins(Open),
        JoinedTo(Ids(&[6])),
        Is(IdsOrOpen(&[6, 4])),
    ];
    plays(&rt, rt.alloc(), STEPS);
}

#[test]
fn nothing_and_always(rt: HostRuntime) {
    const STEPS: &[Step] = &[
        JoinedTo(Ids(&[7])),
        Joins(Never),
        JoinedTo(Never),
        Is(Ids(&[7])),
        Joins(Always),
        Is(Always),
    ];
    plays(&rt, rt.alloc(), STEPS);
}
