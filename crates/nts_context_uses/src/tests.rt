//! What rules in a context answer.
use crate::count::goals_of_vec;
use crate::errors::{Known, errors_of_probes};
use crate::related::{Left, goals_of_alias, goals_of_variables};
use crate::rule::rule_of_vec;
use next_trait_solver::ty::{Certainty, EvalError, Variance};
use std::alloc::Global;
use std::process::Abort;

#[test]
fn a_rule_of_vec_holds(rt: HostRuntime) {
    let found = rule_of_vec(rt.alloc()).expect(&rt, "memory");
    assert!(rt; matches!(found, Some(Certainty::Yes)));
}

#[test]
fn one_of_two_goals_is_left(rt: HostRuntime) {
    let found = goals_of_vec(rt.alloc()).expect(&rt, "memory");
    assert!(rt; matches!(found, Some((0, 1))));
}

/// So many goals are left, and nothing is known of them.
fn is_left(found: Option<Left>, answered: usize, added: usize) -> bool {
    match found {
        Some(left) => {
            left.answered == answered
                && left.added == added
                && matches!(left.certainty, Certainty::Maybe(_))
        }
        None => false,
    }
}

/// That an alias is equal to a type, or a subtype of it, is left as a goal, which has no solution where no clause says what the alias is.
#[test]
fn an_alias_leaves_a_goal(rt: HostRuntime) {
    let alloc = rt.alloc();
    let equal = goals_of_alias(alloc, Variance::Invariant);
    assert!(rt; matches!(equal, Err(EvalError::NoSolution)));
    let lesser = goals_of_alias(alloc, Variance::Covariant);
    assert!(rt; matches!(lesser, Err(EvalError::NoSolution)));
}

#[test]
fn two_variables_leave_a_goal_where_they_may_vary(rt: HostRuntime) {
    let alloc = rt.alloc();
    let equal = goals_of_variables(alloc, Variance::Invariant).expect(&rt, "memory");
    assert!(rt;
        matches!(
            equal,
            Some(Left {
                answered: 0,
                added: 0,
                certainty: Certainty::Yes
            })
        )
    );
    let lesser = goals_of_variables(alloc, Variance::Covariant).expect(&rt, "memory");
    assert!(rt; is_left(lesser, 0, 1));
}

/// What an error of a probe in a probe and one of the context come to, and what is known of a variable then.
fn check(
    rt: &impl Abort,
    alloc: Global,
    inner: Option<EvalError>,
    outer: Option<EvalError>,
    answer: Result<(), EvalError>,
    known: Known,
) {
    let found = errors_of_probes(alloc, inner, outer).expect(rt, "memory");
    assert!(rt; found == Some((answer, known)));
}

#[test]
fn a_probe_that_has_no_solution(rt: HostRuntime) {
    let alloc = rt.alloc();
    let no = Some(EvalError::NoSolution);
    check(&rt, alloc, None, None, Ok(()), Known::Made);
    check(&rt, alloc, no, None, Ok(()), Known::Made);
}

#[test]
fn a_context_that_ends_by_an_error(rt: HostRuntime) {
    let alloc = rt.alloc();
    let no = Some(EvalError::NoSolution);
    check(
        &rt,
        alloc,
        None,
        no,
        Err(EvalError::NoSolution),
        Known::Nothing,
    );
    check(
        &rt,
        alloc,
        no,
        no,
        Err(EvalError::NoSolution),
        Known::Nothing,
    );
    check(
        &rt,
        alloc,
        no,
        Some(EvalError::Full),
        Err(EvalError::Full),
        Known::Nothing,
    );
}

/// A fault of a probe in a probe is answered to the later calls, and stays the first one.
#[test]
fn a_fault_in_a_probe(rt: HostRuntime) {
    let alloc = rt.alloc();
    let no = Some(EvalError::NoSolution);
    let full = Some(EvalError::Full);
    let memory = Some(EvalError::Memory);
    check(&rt, alloc, full, None, Err(EvalError::Full), Known::Nothing);
    check(
        &rt,
        alloc,
        memory,
        None,
        Err(EvalError::Memory),
        Known::Nothing,
    );
    check(&rt, alloc, full, no, Err(EvalError::Full), Known::Nothing);
    check(
        &rt,
        alloc,
        full,
        memory,
        Err(EvalError::Full),
        Known::Nothing,
    );
    check(
        &rt,
        alloc,
        memory,
        full,
        Err(EvalError::Memory),
        Known::Nothing,
    );
}
