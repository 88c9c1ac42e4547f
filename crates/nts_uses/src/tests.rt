//! What the example answers.
use crate::clone::clone_of_vec;
use crate::cycle::{Counted, growing_answer};
use crate::own::clone_of_sized;
use next_trait_solver::ty::Certainty;

#[test]
fn vec_of_u32_is_clone(rt: HostRuntime) {
    let found = clone_of_vec(rt.alloc()).expect(&rt, "memory");
    assert!(rt; matches!(found, Some(Certainty::Yes)));
}

/// A rule of a handler of one's own serves a condition of a clause.
#[test]
fn two_handlers_are_one(rt: HostRuntime) {
    let found = clone_of_sized(rt.alloc()).expect(&rt, "memory");
    assert!(rt; matches!(found, Some(Certainty::Yes)));
}

/// Each of eight rounds answers one `Vec` more, and then it is given up.
#[test]
fn an_answer_grows_for_eight_rounds(rt: HostRuntime) {
    let found = growing_answer(rt.alloc()).expect(&rt, "memory");
    assert!(rt;
        matches!(
            found,
            Some(Counted {
                certainty: Some(Certainty::Maybe(_)),
                most_inputs: 1,
                most_rounds: 8
            })
        )
    );
}
