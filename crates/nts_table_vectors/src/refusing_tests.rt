//! What relating refuses, each with the table as before.
use crate::steps::Step::{
    Counts, Equates, HasAlias, IsForeign, Let, LetAlias, Refuses, Relates, Resolves, Universe,
};
use crate::steps::{Step, plays};
use nts_fixtures::Make::{ConstParam, Maker, Pair, Reference, Region, Turner, Type, Var, Wrap};
use nts_fixtures::Type::{Bound, Param, Placeholder};
use nts_fixtures::{BYTE, WORD};
use nts_model::VariableKind::Ty;
use nts_model::{BoundVarIndexKind, Sort, VariableKind};
use nts_terms::RegionKind::{ReBound, ReEarlyParam, ReStatic};
use nts_terms::{BoundRegion, Cx, InferTy, TyKind};
use std::test::Fail;

#[test]
fn occurs(rt: HostRuntime) {
    const STEPS: &[Step] = &[
        Let("first", Var(Ty)),
        Let("second", Var(Ty)),
        Let("own", Wrap("first")),
        Refuses("first", "own"),
        Let("other", Wrap("second")),
        Relates("first", "other"),
        Refuses("second", "own"),
        Refuses("second", "other"),
    ];
    plays(&rt, rt.alloc(), STEPS);
}

#[test]
fn other_constructors(rt: HostRuntime) {
    const STEPS: &[Step] = &[
        Let("hole", Var(Ty)),
        Let("byte", BYTE),
        Let("word", WORD),
        Refuses("byte", "word"),
        Let("one", Wrap("hole")),
        Let("two", Pair("hole", "hole")),
        Refuses("one", "two"),
        Let("left", Pair("hole", "word")),
        Let("right", Pair("byte", "byte")),
        Refuses("left", "right"),
    ];
    plays(&rt, rt.alloc(), STEPS);
}

#[test]
fn other_constants(rt: HostRuntime) {
    const STEPS: &[Step] = &[
        Let("first", Type(Param(0))),
        Let("second", Type(Param(1))),
        Refuses("first", "second"),
        Let("size", ConstParam(0)),
        Let("length", ConstParam(1)),
        Refuses("size", "length"),
    ];
    plays(&rt, rt.alloc(), STEPS);
}

#[test]
fn other_sorts(rt: HostRuntime) {
    const STEPS: &[Step] = &[
        Let("hole", Var(Ty)),
        Let("gap", Var(VariableKind::Const)),
        Let("region", Var(VariableKind::Region)),
        Let("size", ConstParam(0)),
        Refuses("hole", "gap"),
        Refuses("hole", "region"),
        Refuses("hole", "size"),
        Refuses("size", "region"),
    ];
    plays(&rt, rt.alloc(), STEPS);
}

#[test]
fn placeholders(rt: HostRuntime) {
    const STEPS: &[Step] = &[
        Let("low", Var(Ty)),
        Universe,
        Let("high", Var(Ty)),
        Let("placeholder", Type(Placeholder(1, 0))),
        Refuses("low", "placeholder"),
        Let("wrapped", Wrap("placeholder")),
        Refuses("low", "wrapped"),
        Relates("high", "wrapped"),
        Refuses("high", "low"),
    ];
    plays(&rt, rt.alloc(), STEPS);
}

#[test]
fn what_was_made_before_the_refusal(rt: HostRuntime) {
    const STEPS: &[Step] = &[
        Let("low", Var(Ty)),
        Universe,
        Let("high", Var(Ty)),
        Let("wrapped", Wrap("high")),
        Let("byte", BYTE),
        Let("word", WORD),
        Let("left", Pair("low", "byte")),
        Let("right", Pair("wrapped", "word")),
        Refuses("left", "right"),
    ];
    plays(&rt, rt.alloc(), STEPS);
}

#[test]
fn equalities_before_the_refusal(rt: HostRuntime) {
    const STEPS: &[Step] = &[
        Let("fixed", Region(ReStatic)),
        Let("named", Region(ReEarlyParam(0))),
        Let("byte", BYTE),
        Let("word", WORD),
        Let("left", Reference("fixed", "byte")),
        Let("right", Reference("named", "word")),
        Refuses("left", "right"),
    ];
    plays(&rt, rt.alloc(), STEPS);
}

#[test]
fn numbers_of_arguments(rt: HostRuntime) {
    const STEPS: &[Step] = &[
        Let("hole", Var(Ty)),
        Let("byte", BYTE),
        Let("one", Maker("hole")),
        Let("two", Turner(Sort::Ty, "byte", "byte")),
        Refuses("one", "two"),
    ];
    plays(&rt, rt.alloc(), STEPS);
}

#[test]
fn a_bound_region_and_a_free_one(rt: HostRuntime) {
    const STEPS: &[Step] = &[
        Let("byte", BYTE),
        Let(
            "bound",
            Region(ReBound(BoundVarIndexKind::Bound(0), BoundRegion { var: 0 })),
        ),
        Let("free", Region(ReEarlyParam(0))),
        Let("borrow of each", Reference("bound", "byte")),
        Let("of each", Turner(Sort::Region, "borrow of each", "byte")),
        Let("borrow of one", Reference("free", "byte")),
        Let("of one", Turner(Sort::Region, "borrow of one", "byte")),
        Refuses("of each", "of one"),
        Relates("of each", "of each"),
        Counts(0, 0),
    ];
    plays(&rt, rt.alloc(), STEPS);
}

#[test]
fn escaping_variables(rt: HostRuntime) {
    const STEPS: &[Step] = &[
        Let("hole", Var(Ty)),
        Let("inner", Type(Bound(0, 0))),
        Refuses("hole", "inner"),
        Let("outer", Type(Bound(1, 0))),
        Let("open", Maker("outer")),
        Refuses("hole", "open"),
        Let("closed", Maker("inner")),
        Relates("hole", "closed"),
        Resolves("hole", "closed"),
    ];
    plays(&rt, rt.alloc(), STEPS);
}

#[test]
fn a_variable_of_another_table(rt: HostRuntime) {
    const STEPS: &[Step] = &[Let("hole", Var(Ty)), IsForeign("hole")];
    plays(&rt, rt.alloc(), STEPS);
}

#[test]
fn a_term_of_another_store(rt: HostRuntime) -> Result<(), Fail> {
    let mut cx = Cx::new(rt.alloc());
    let hole = cx.mk_ty(TyKind::Infer(InferTy::TyVar(0)))?;
    assert!(rt; !Cx::new(rt.alloc()).holds(hole));
    Ok(())
}

#[test]
fn aliases(rt: HostRuntime) {
    const STEPS: &[Step] = &[
        Let("hole", Var(Ty)),
        LetAlias("alias"),
        HasAlias("hole", false),
        HasAlias("alias", true),
        Equates("hole", "alias"),
        HasAlias("hole", true),
        Resolves("hole", "alias"),
    ];
    plays(&rt, rt.alloc(), STEPS);
}
