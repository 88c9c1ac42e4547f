//! The store, limits, declarations, types, regions and consts; and certainties.
use crate::named::Make;
use crate::named::Make::{Args, Pointer, Region, Type, Unevaluated, Value, Vars};
use crate::steps::Step::{
    Argument, Arity, Binds, Count, Ctor, Fits, Flags, Handle, Is, IsConstType, Let, Lists,
    NoErrors, Part, Shows, Size, SortAt, Variances,
};
use crate::steps::{Step, plays};
use nts_certainty::{Certainty, MaybeCause, MaybeInfo, OpaqueTypesJank};
use nts_model::BoundVarIndexKind::{Bound, Canonical};
use nts_model::Sort::Ty;
use nts_model::Variance::{Contravariant, Covariant, Invariant};
use nts_model::{ConstHead, FreeRegion, Label, Leaf, ListHead, Sort, TyHead, UintTy, VariableKind};
use nts_store::{EvalError, Fault};
use nts_terms::{
    AliasDefId, AliasId, BoundRegion, BoundTy, ConstId, ConstKind, CtorId, Cx, DefId, InferTy,
    PlaceholderRegion, RegionKind, TraitId, TyKind,
};
use std::process::Abort;

const BYTE: Make = Type(TyKind::Uint(UintTy::U8));

const ERROR: Make = Type(TyKind::Error);

const ERASED: Make = Region(RegionKind::ReErased);

const UNKNOWN: Make = Make::Const(ConstKind::Infer(0));

const VEC: CtorId = CtorId { number: 0 };

const ITEM: AliasId = AliasId { number: 0 };

const LENGTH: ConstId = ConstId { number: 0 };

#[test]
fn limits(rt: HostRuntime) {
    let mut cx = Cx::new(rt.alloc());
    see_limits(&rt, &mut cx);
}

fn see_limits(rt: &impl Abort, cx: &mut Cx) {
    assert!(rt; has_limits(cx, 128, 8, 8, 4));
    assert!(rt; !cx.disable_trait_solver_fast_paths());
    set_limits(cx);
    assert!(rt; has_limits(cx, 3, 64, 1, 16));
    assert!(rt; cx.disable_trait_solver_fast_paths());
}

fn set_limits(cx: &mut Cx) {
    cx.set_recursion_limit(3);
    cx.set_disable_fast_paths(true);
    cx.set_step_limit(64);
    cx.set_round_limit(1);
    cx.set_depth_division(16);
}

/// Whether these are the limits of depth, steps and rounds, and what a depth is divided by.
fn has_limits(cx: &Cx, depth: usize, steps: usize, rounds: usize, division: usize) -> bool {
    cx.recursion_limit() == depth
        && cx.step_limit() == steps
        && cx.round_limit() == rounds
        && cx.depth_division() == division
}

#[test]
fn nodes(rt: HostRuntime) {
    const STEPS: &[Step] = &[
        Let("error", ERROR),
        Let("args", Args(&["error", "error"])),
        Size(2),
        Count("args", 2),
        Part("args", 1, "error"),
        Lists("args", Label::List(ListHead::Args)),
        Flags("args", false, false, false),
        Binds("args", 0),
        Handle("error"),
        Let("byte", BYTE),
        Let("good", Args(&["byte", "byte"])),
        Let("bad", Args(&["byte", "error"])),
        NoErrors("good", true),
        NoErrors("bad", false),
        Let("word", Type(TyKind::Uint(UintTy::U32))),
        Let("same word", Type(TyKind::Uint(UintTy::U32))),
        Is("word", "same word", true),
        Is("word", "byte", false),
        Let("region", ERASED),
        Let("same region", ERASED),
        Is("region", "same region", true),
        Let("unknown", UNKNOWN),
        Let("same unknown", UNKNOWN),
        Is("unknown", "same unknown", true),
        Size(8),
    ];
    plays(&rt, rt.alloc(), STEPS);
}

/// A pointer to a function of some variables closes the region that is the first of them.
#[test]
fn binders_and_consts(rt: HostRuntime) {
    const FIRST: BoundRegion = BoundRegion { var: 0 };
    const STEPS: &[Step] = &[
        Let("vars", Vars(&[Sort::Region])),
        Count("vars", 1),
        SortAt("vars", 0, Sort::Region),
        Let("region", Region(RegionKind::ReBound(Bound(0), FIRST))),
        Flags("region", true, false, false),
        Shows("region", Label::Bound(Sort::Region, Bound(0), 0)),
        Argument("region", Sort::Region),
        Let("args", Args(&["region"])),
        Let("pointer", Pointer("vars", "args")),
        Flags("pointer", false, false, false),
        Shows("pointer", Label::Ty(TyHead::FnPtr)),
        Binds("pointer", 1),
        Let("size", Type(TyKind::Uint(UintTy::Usize))),
        Let("three", Value("size", 3)),
        Shows("three", Label::Const(ConstHead::Value(3))),
        Step::Term("three", Sort::Const),
        Step::Term("size", Ty),
        Let("unknown", UNKNOWN),
        Flags("unknown", false, false, true),
        Shows(
            "unknown",
            Label::Leaf(Leaf::Variable(VariableKind::Const, 0)),
        ),
    ];
    plays(&rt, rt.alloc(), STEPS);
}

#[test]
fn declarations(rt: HostRuntime) {
    const PLACEHOLDER: PlaceholderRegion = PlaceholderRegion {
        universe: 2,
        bound: BoundRegion { var: 1 },
    };
    const STEPS: &[Step] = &[
        Step::Trait(TraitId { number: 0 }, &[]),
        Step::Trait(TraitId { number: 1 }, &[Ty, Sort::Const]),
        Arity(DefId::Trait(TraitId { number: 1 }), Some(2)),
        Arity(DefId::Trait(TraitId { number: 2 }), None),
        Ctor(VEC),
        Let("byte", BYTE),
        Let("args", Args(&["byte"])),
        Let("none", Args(&[])),
        Fits(DefId::Ctor(VEC), "none", false),
        Fits(DefId::Ctor(VEC), "args", true),
        Let("bytes", Make::Ctor(VEC, "args")),
        Shows("bytes", Label::Ty(TyHead::Ctor(0))),
        Count("args", 1),
        Part("args", 0, "byte"),
        Argument("byte", Ty),
        Step::Alias(ITEM, &[Sort::Region]),
        Let("region", Region(RegionKind::RePlaceholder(PLACEHOLDER))),
        Shows(
            "region",
            Label::Leaf(Leaf::Region(FreeRegion::Placeholder(2, 1))),
        ),
        Let("place", Args(&["region"])),
        Fits(DefId::Alias(AliasDefId::Ty(ITEM)), "place", true),
        Let("alias", Make::Alias(ITEM, "place")),
        Shows("alias", Label::Ty(TyHead::Alias(0))),
    ];
    plays(&rt, rt.alloc(), STEPS);
}

#[test]
fn types_of_consts(rt: HostRuntime) {
    const STEPS: &[Step] = &[
        Let("parameter", Type(TyKind::Param(0))),
        IsConstType(&[Ty], "parameter", false),
        Let("variable", Type(TyKind::Infer(InferTy::TyVar(0)))),
        IsConstType(&[Ty], "variable", false),
        Let("bound", Type(TyKind::Bound(Bound(0), BoundTy { var: 0 }))),
        IsConstType(&[Ty], "bound", false),
        Let("byte", BYTE),
        IsConstType(&[], "byte", true),
        Ctor(VEC),
        Let("first", Type(TyKind::Bound(Canonical, BoundTy { var: 0 }))),
        Let("args", Args(&["first"])),
        Let("list", Make::Ctor(VEC, "args")),
        IsConstType(&[Sort::Const], "list", false),
        IsConstType(&[], "list", false),
        IsConstType(&[Ty], "list", true),
        Step::Const(LENGTH, &[Ty], "list"),
        Let("none", Args(&[])),
        Fits(DefId::Alias(AliasDefId::Const(LENGTH)), "none", false),
        Fits(DefId::Alias(AliasDefId::Const(LENGTH)), "args", true),
        Let("length", Unevaluated(LENGTH, "args")),
        Shows("length", Label::Const(ConstHead::Unevaluated(0))),
    ];
    plays(&rt, rt.alloc(), STEPS);
}

#[test]
fn consts_do_not_vary(rt: HostRuntime) {
    const STEPS: &[Step] = &[
        Variances(&[], &[], true),
        Variances(&[Ty, Sort::Region], &[Covariant, Contravariant], true),
        Variances(&[Ty, Sort::Const], &[Covariant, Invariant], true),
        Variances(&[Ty, Sort::Const], &[Invariant, Covariant], false),
        Variances(&[Sort::Const], &[Contravariant], false),
        Variances(&[Ty], &[Covariant, Covariant], false),
        Variances(&[Ty, Sort::Region], &[Covariant], false),
    ];
    plays(&rt, rt.alloc(), STEPS);
}

const OVERFLOW: Certainty = Certainty::Maybe(MaybeInfo {
    cause: MaybeCause::Overflow {
        suggest_increasing_limit: true,
        keep_constraints: false,
    },
    opaque_types_jank: OpaqueTypesJank::AllGood,
});

const KEPT: Certainty = Certainty::Maybe(MaybeInfo {
    cause: MaybeCause::Overflow {
        suggest_increasing_limit: true,
        keep_constraints: true,
    },
    opaque_types_jank: OpaqueTypesJank::AllGood,
});

/// A certainty, what it and an overflow are together, and what one of them is.
const JOINED: &[(Certainty, Certainty, Certainty)] = &[
    (Certainty::Yes, OVERFLOW, Certainty::Yes),
    (Certainty::AMBIGUOUS, OVERFLOW, KEPT),
];

#[test]
fn certainties(rt: HostRuntime) {
    assert!(rt; Certainty::overflow(true) == OVERFLOW);
    assert!(rt; are_joined(JOINED));
    assert!(rt; EvalError::from(Fault::Full) == EvalError::Full);
}

fn are_joined(cases: &[(Certainty, Certainty, Certainty)]) -> bool {
    for (certainty, both, either) in cases {
        if !joins(*certainty, *both, *either) {
            return false;
        }
    }
    true
}

fn joins(certainty: Certainty, both: Certainty, either: Certainty) -> bool {
    let overflow = Certainty::overflow(true);
    certainty.and(overflow) == both && certainty.or(overflow) == either
}
