//! Normalizing by examples.
use crate::steps::Answer::{Byte, Fresh, Known, Wrapped};
use crate::steps::Step::{Folds, FoldsAfterRefusal, Let, Refuses};
use crate::steps::{Step, plays};
use nts_fixtures::Make::{AliasOf, Ladder, Maker, Nested, Type, Wrap};
use nts_fixtures::Type::{Bound, Infer};
use nts_fixtures::{BYTE, WORD};
use nts_store::EvalError;
use nts_terms::InferTy::TyVar;

#[test]
fn an_alias_gives_place(rt: HostRuntime) {
    const STEPS: &[Step] = &[
        Let("word", WORD),
        Let("alias", AliasOf("word")),
        Let("value", Wrap("alias")),
        Let("byte", BYTE),
        Let("bytes", Wrap("byte")),
        Folds("value", Byte, "bytes", 0, 1),
    ];
    plays(&rt, rt.alloc(), STEPS);
}

#[test]
fn arguments_come_first(rt: HostRuntime) {
    const STEPS: &[Step] = &[
        Let("word", WORD),
        Let("inner", AliasOf("word")),
        Let("outer", AliasOf("inner")),
        Let("once", Wrap("word")),
        Let("twice", Wrap("once")),
        Folds("outer", Wrapped, "twice", 0, 2),
    ];
    plays(&rt, rt.alloc(), STEPS);
}

#[test]
fn under_a_binder(rt: HostRuntime) {
    const STEPS: &[Step] = &[
        Let("bound", Type(Bound(0, 0))),
        Let("alias", AliasOf("bound")),
        Let("value", Maker("alias")),
        Let("wrapped", Wrap("bound")),
        Let("wanted", Maker("wrapped")),
        Folds("value", Wrapped, "wanted", 0, 2),
    ];
    plays(&rt, rt.alloc(), STEPS);
}

#[test]
fn a_variable_made_for_the_answer(rt: HostRuntime) {
    const STEPS: &[Step] = &[
        Let("bound", Type(Bound(0, 0))),
        Let("alias", AliasOf("bound")),
        Let("value", Maker("alias")),
        Folds("value", Fresh, "value", 0, 2),
    ];
    plays(&rt, rt.alloc(), STEPS);
}

#[test]
fn a_variable_of_before(rt: HostRuntime) {
    const STEPS: &[Step] = &[
        Let("bound", Type(Bound(0, 0))),
        Let("alias", AliasOf("bound")),
        Let("value", Maker("alias")),
        Let("variable", Type(Infer(TyVar(0)))),
        Let("wanted", Maker("variable")),
        Folds("value", Known("variable"), "wanted", 1, 2),
    ];
    plays(&rt, rt.alloc(), STEPS);
}

#[test]
fn a_refusal_and_then_an_answer(rt: HostRuntime) {
    const STEPS: &[Step] = &[
        Let("bound", Type(Bound(0, 0))),
        Let("alias", AliasOf("bound")),
        Let("value", Maker("alias")),
        Let("wrapped", Wrap("bound")),
        Let("wanted", Maker("wrapped")),
        FoldsAfterRefusal("value", Wrapped, "wanted", 4),
    ];
    plays(&rt, rt.alloc(), STEPS);
}

#[test]
fn no_universe_is_left(rt: HostRuntime) {
    const STEPS: &[Step] = &[
        Let("word", WORD),
        Let("alias", AliasOf("word")),
        Refuses(4_294_967_295, "alias", Byte, EvalError::Full),
    ];
    plays(&rt, rt.alloc(), STEPS);
}

#[test]
fn a_ladder_without_aliases(rt: HostRuntime) {
    const STEPS: &[Step] = &[
        Let("bound", Type(Bound(0, 0))),
        Let("value", Ladder("bound", 60)),
        Folds("value", Byte, "value", 0, 0),
    ];
    plays(&rt, rt.alloc(), STEPS);
}

#[test]
fn a_deep_value(rt: HostRuntime) {
    const STEPS: &[Step] = &[
        Let("word", WORD),
        Let("alias", AliasOf("word")),
        Let("byte", BYTE),
        Let("value", Nested("alias", 100_000)),
        Let("wanted", Nested("byte", 100_000)),
        Folds("value", Byte, "wanted", 0, 1),
    ];
    plays(&rt, rt.alloc(), STEPS);
}
