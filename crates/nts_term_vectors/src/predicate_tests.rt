//! Predicates, environments, and what aliases of types and consts become.
use crate::named::Make::{
    Args, EmptyEnv, Env, Region, TraitOf, Type, Under, Unevaluated, Value, Vars,
};
use crate::named::Statement::{NormalizesTo, Projection, Unstable};
use crate::named::{Make, Statement};
use crate::steps::Step::{
    Alias, Argument, Const, Count, Flags, Is, Let, NoTrait, Part, Shows, Trait,
};
use crate::steps::{Step, plays};
use nts_model::BoundVarIndexKind::Canonical;
use nts_model::{ConstHead, Label, ListHead, Sort, TyHead, UintTy};
use nts_terms::{AliasDefId, AliasId, BoundTy, ConstId, ConstKind, RegionKind, TraitId, TyKind};

const BYTE: Make = Type(TyKind::Uint(UintTy::U8));

const CLONE: TraitId = TraitId { number: 0 };

const ITEM: AliasId = AliasId { number: 0 };

const LENGTH: ConstId = ConstId { number: 0 };

const OF_TYPES: AliasDefId = AliasDefId::Ty(ITEM);

const OF_CONSTS: AliasDefId = AliasDefId::Const(LENGTH);

const GOAL: Statement = NormalizesTo(OF_CONSTS, "none", "three");

const FACT: Statement = Projection(OF_CONSTS, "none", "three");

const FIRST: Statement = NormalizesTo(OF_TYPES, "none", "byte");

const SECOND: Statement = NormalizesTo(OF_CONSTS, "none", "failed");

const BINDER: Label = Label::List(ListHead::Binder);

#[test]
fn predicates(rt: HostRuntime) {
    const STEPS: &[Step] = &[
        Let("unbound", Vars(&[])),
        Let("unstable", Under("unbound", Unstable(3))),
        Let("again", Under("unbound", Unstable(3))),
        Let("other", Under("unbound", Unstable(4))),
        Is("unstable", "again", true),
        Is("unstable", "other", false),
        Shows("unstable", BINDER),
        Let("env", Env("unstable")),
        Let("empty", EmptyEnv),
        Let("same", Env("again")),
        Is("env", "same", true),
        Is("env", "empty", false),
        Count("env", 1),
        Count("empty", 0),
        Part("env", 0, "unstable"),
        Trait(CLONE, &[Sort::Ty]),
        Let("first", Type(TyKind::Bound(Canonical, BoundTy { var: 0 }))),
        Let("position", Args(&["first"])),
        Let(
            "predicate",
            Under("unbound", Statement::Trait(CLONE, "position")),
        ),
        Flags("predicate", false, true, false),
        Shows("predicate", BINDER),
        Let("longer", Env("predicate")),
        Part("longer", 0, "predicate"),
    ];
    plays(&rt, rt.alloc(), STEPS);
}

#[test]
fn trait_predicates(rt: HostRuntime) {
    const STEPS: &[Step] = &[
        Trait(CLONE, &[Sort::Ty]),
        Let("byte", BYTE),
        Let("made", TraitOf(CLONE, "byte")),
        Let("unbound", Vars(&[])),
        Let("args", Args(&["byte"])),
        Let("again", Under("unbound", Statement::Trait(CLONE, "args"))),
        Is("made", "again", true),
        Shows("made", BINDER),
        Count("args", 1),
        Part("args", 0, "byte"),
        NoTrait(CLONE, None),
        NoTrait(TraitId { number: 1 }, Some("byte")),
        NoTrait(TraitId { number: 1 }, None),
        Let("region", Region(RegionKind::ReErased)),
        NoTrait(CLONE, Some("region")),
    ];
    plays(&rt, rt.alloc(), STEPS);
}

/// An alias of types and a const that have one number are told apart, also where they become something.
#[test]
fn aliases_of_one_number(rt: HostRuntime) {
    const STEPS: &[Step] = &[
        Let("byte", BYTE),
        Const(LENGTH, &[], "byte"),
        Alias(ITEM, &[]),
        Let("none", Args(&[])),
        Let("type", Make::Alias(ITEM, "none")),
        Let("const", Unevaluated(LENGTH, "none")),
        Is("type", "const", false),
        Shows("type", Label::Ty(TyHead::Alias(0))),
        Shows("const", Label::Const(ConstHead::Unevaluated(0))),
        Argument("type", Sort::Ty),
        Argument("const", Sort::Const),
        Let("unbound", Vars(&[])),
        Let("three", Value("byte", 3)),
        Step::Term("three", Sort::Const),
        Let("goal", Under("unbound", GOAL)),
        Shows("goal", BINDER),
        Let("fact", Under("unbound", FACT)),
        Shows("fact", BINDER),
        Is("goal", "fact", false),
        Let("first", Under("unbound", FIRST)),
        Shows("first", BINDER),
        Let("failed", Make::Const(ConstKind::Error)),
        Let("second", Under("unbound", SECOND)),
        Is("first", "second", false),
    ];
    plays(&rt, rt.alloc(), STEPS);
    assert!(rt; OF_TYPES != OF_CONSTS);
}
