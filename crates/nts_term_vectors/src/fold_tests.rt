//! What folders with a state make of terms, where one gives up, and what one meets.
use crate::folding::Fold::{Applied, Bound, List, Nodes, Pair};
use crate::named::Make;
use crate::named::Make::{Args, Nested, Pointer, Type, Under, Vars};
use crate::named::Statement::Coerce;
use crate::steps::Step::{Alias, Counts, Ctor, Folds, Is, Let, Refuses, Trait};
use crate::steps::{Step, plays};
use nts_model::BoundVarIndexKind::{Bound as Inner, Canonical};
use nts_model::Sort;
use nts_terms::InferTy::TyVar;
use nts_terms::{AliasId, BoundTy, CtorId, TraitId, TyKind};

const A: Make = Type(TyKind::Infer(TyVar(7)));

const B: Make = Type(TyKind::Infer(TyVar(2)));

const FIRST: Make = Type(TyKind::Bound(Canonical, BoundTy { var: 0 }));

const SECOND: Make = Type(TyKind::Bound(Canonical, BoundTy { var: 1 }));

/// The last fold has a binder around the first arguments, and none around the second ones.
#[test]
fn numbers_variables_at_first_sight(rt: HostRuntime) {
    const STEPS: &[Step] = &[
        Let("a", A),
        Let("b", B),
        Let("first", FIRST),
        Let("second", SECOND),
        Let("three", Args(&["a", "b", "a"])),
        Let("turned", Args(&["first", "second", "first"])),
        Folds(Pair, ("three", "b"), ("turned", "second"), 2),
        Folds(List, ("a", "b"), ("second", "first"), 2),
        Alias(AliasId { number: 0 }, &[Sort::Ty]),
        Trait(TraitId { number: 0 }, &[Sort::Ty]),
        Let("args", Args(&["a"])),
        Let("folded", Args(&["first"])),
        Folds(Applied, ("args", "args"), ("folded", "folded"), 1),
        Let("vars", Vars(&[Sort::Ty, Sort::Region])),
        Let("inside", Args(&["second"])),
        Folds(Bound, ("args", "vars"), ("inside", "folded"), 1),
    ];
    plays(&rt, rt.alloc(), STEPS);
}

#[test]
fn folds_a_deep_type(rt: HostRuntime) {
    const STEPS: &[Step] = &[
        Ctor(CtorId { number: 0 }),
        Let("a", A),
        Let("deep", Nested("a", 100_000)),
        Let("first", FIRST),
        Let("folded", Nested("first", 100_000)),
        Is("deep", "folded", false),
        Folds(Nodes, ("deep", "a"), ("folded", "first"), 1),
    ];
    plays(&rt, rt.alloc(), STEPS);
}

#[test]
fn ends_at_a_refusal_and_goes_through_binders(rt: HostRuntime) {
    const STEPS: &[Step] = &[
        Let("parameter", Type(TyKind::Param(0))),
        Let("a", A),
        Let("b", B),
        Let("c", Type(TyKind::Infer(TyVar(5)))),
        Let("d", Type(TyKind::Infer(TyVar(9)))),
        Let("args", Args(&["parameter", "a", "b", "a", "c", "d"])),
        Refuses("args", 5, 5),
        Let("vars", Vars(&[Sort::Ty])),
        Let("bound", Type(TyKind::Bound(Inner(0), BoundTy { var: 0 }))),
        Let("output", Args(&["bound"])),
        Let("pointer", Pointer("vars", "output")),
        Let("predicate", Under("vars", Coerce("pointer"))),
        Counts("predicate", 3, 4),
    ];
    plays(&rt, rt.alloc(), STEPS);
}
