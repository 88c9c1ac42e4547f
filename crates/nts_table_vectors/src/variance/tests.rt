//! What relating by a variance makes of a table, case by case, and the goals that it leaves.
use crate::variance::steps::Left::{AliasRelate, Subtype, SubtypeOfExpected};
use crate::variance::steps::Step::{Counts, Leaves, Let, Outlives, Refuses, Resolves, Shares};
use crate::variance::steps::{Step, plays};
use nts_fixtures::Make::{
    AliasOf, Ladder, Maker, Pair, Reference, Region, Turner, Type, Var, Wrap,
};
use nts_fixtures::Type::{Bound, Infer};
use nts_fixtures::WORD;
use nts_model::AliasRelationDirection::Equate;
use nts_model::VariableKind::Ty;
use nts_model::Variance::{Contravariant, Covariant, Invariant};
use nts_model::{AliasRelationDirection, Sort};
use nts_terms::InferTy::TyVar;
use nts_terms::RegionKind::{ReEarlyParam, ReVar};

#[test]
fn variable_with_a_reference(rt: HostRuntime) {
    const STEPS: &[Step] = &[
        Let("hole", Var(Ty)),
        Let("named", Region(ReEarlyParam(1))),
        Let("word", WORD),
        Let("reference", Reference("named", "word")),
        Leaves("hole", Covariant, "reference", &[]),
        Counts(2, 1),
        Let("fresh", Region(ReVar(1))),
        Outlives(0, "fresh", "named"),
        Let("value", Reference("fresh", "word")),
        Resolves("hole", "value"),
        Let("other", Var(Ty)),
        Leaves("other", Invariant, "reference", &[]),
        Counts(3, 1),
        Resolves("other", "reference"),
    ];
    plays(&rt, rt.alloc(), STEPS);
}

#[test]
fn variable_with_a_reference_to_a_variable(rt: HostRuntime) {
    const STEPS: &[Step] = &[
        Let("hole", Var(Ty)),
        Let("inner", Var(Ty)),
        Let("named", Region(ReEarlyParam(1))),
        Let("reference", Reference("named", "inner")),
        Let("fresh type", Type(Infer(TyVar(3)))),
        Leaves(
            "hole",
            Covariant,
            "reference",
            &[Subtype("fresh type", "inner")],
        ),
        Counts(4, 1),
        Shares(1, 3, true),
        Let("fresh", Region(ReVar(2))),
        Outlives(0, "fresh", "named"),
        Let("value", Reference("fresh", "fresh type")),
        Resolves("hole", "value"),
    ];
    plays(&rt, rt.alloc(), STEPS);
}

#[test]
fn reference_to_a_variable_with_a_variable(rt: HostRuntime) {
    const STEPS: &[Step] = &[
        Let("hole", Var(Ty)),
        Let("inner", Var(Ty)),
        Let("named", Region(ReEarlyParam(1))),
        Let("reference", Reference("named", "inner")),
        Let("fresh type", Type(Infer(TyVar(3)))),
        Leaves(
            "reference",
            Covariant,
            "hole",
            &[Subtype("inner", "fresh type")],
        ),
        Let("fresh", Region(ReVar(2))),
        Outlives(0, "named", "fresh"),
    ];
    plays(&rt, rt.alloc(), STEPS);
}

#[test]
fn variable_in_its_own_value(rt: HostRuntime) {
    const STEPS: &[Step] = &[
        Let("hole", Var(Ty)),
        Let("own", Wrap("hole")),
        Refuses("hole", Invariant, "own"),
        Let("alias", AliasOf("hole")),
        Let("around", Wrap("alias")),
        Let("fresh", Type(Infer(TyVar(1)))),
        Leaves(
            "hole",
            Invariant,
            "around",
            &[AliasRelate("fresh", "alias", Equate)],
        ),
        Let("value", Wrap("fresh")),
        Resolves("hole", "value"),
    ];
    plays(&rt, rt.alloc(), STEPS);
}

#[test]
fn two_variables(rt: HostRuntime) {
    const STEPS: &[Step] = &[
        Let("first", Var(Ty)),
        Let("second", Var(Ty)),
        Leaves("first", Covariant, "second", &[Subtype("first", "second")]),
        Shares(0, 1, false),
        Leaves("first", Invariant, "second", &[]),
        Resolves("second", "first"),
        Shares(0, 1, true),
    ];
    plays(&rt, rt.alloc(), STEPS);
}

#[test]
fn alias_with_a_type(rt: HostRuntime) {
    const BELOW: AliasRelationDirection = AliasRelationDirection::Subtype;
    const STEPS: &[Step] = &[
        Let("word", WORD),
        Let("alias", AliasOf("word")),
        Leaves(
            "alias",
            Invariant,
            "word",
            &[AliasRelate("alias", "word", Equate)],
        ),
        Leaves(
            "word",
            Invariant,
            "alias",
            &[AliasRelate("word", "alias", Equate)],
        ),
        Leaves(
            "alias",
            Covariant,
            "word",
            &[AliasRelate("alias", "word", BELOW)],
        ),
        Leaves(
            "alias",
            Contravariant,
            "word",
            &[AliasRelate("word", "alias", BELOW)],
        ),
    ];
    plays(&rt, rt.alloc(), STEPS);
}

#[test]
fn two_functions(rt: HostRuntime) {
    const STEPS: &[Step] = &[
        Let("first", Region(ReEarlyParam(1))),
        Let("second", Region(ReEarlyParam(2))),
        Let("word", WORD),
        Let("x", Reference("first", "word")),
        Let("y", Reference("second", "word")),
        Let("left", Turner(Sort::Ty, "x", "x")),
        Let("right", Turner(Sort::Ty, "y", "y")),
        Leaves("left", Covariant, "right", &[]),
        Counts(0, 2),
        Outlives(0, "second", "first"),
        Outlives(1, "first", "second"),
    ];
    plays(&rt, rt.alloc(), STEPS);
}

#[test]
fn variable_met_again(rt: HostRuntime) {
    const STEPS: &[Step] = &[
        Let("hole", Var(Ty)),
        Let("named", Region(ReEarlyParam(1))),
        Let("word", WORD),
        Let("reference", Reference("named", "word")),
        Let("twice", Pair("hole", "hole")),
        Let("both", Pair("reference", "reference")),
        Leaves("twice", Covariant, "both", &[Subtype("hole", "reference")]),
        Counts(2, 1),
    ];
    plays(&rt, rt.alloc(), STEPS);
}

#[test]
fn goal_once_for_a_pair_met_again(rt: HostRuntime) {
    const STEPS: &[Step] = &[
        Let("first", Var(Ty)),
        Let("second", Var(Ty)),
        Let("left", Ladder("first", 60)),
        Let("right", Ladder("second", 60)),
        Leaves("left", Covariant, "right", &[Subtype("first", "second")]),
        Counts(2, 0),
        Leaves(
            "left",
            Contravariant,
            "right",
            &[SubtypeOfExpected("second", "first")],
        ),
        Let("word", WORD),
        Let("alias", AliasOf("word")),
        Let("aliases", Ladder("alias", 60)),
        Let("words", Ladder("word", 60)),
        Leaves(
            "aliases",
            Invariant,
            "words",
            &[AliasRelate("alias", "word", Equate)],
        ),
        Leaves("left", Invariant, "right", &[]),
        Resolves("second", "first"),
    ];
    plays(&rt, rt.alloc(), STEPS);
}

/// What is invariant and shares much is made at once beside an alias, over a variable without a value and over one with a value.
#[test]
fn ladder_beside_an_alias(rt: HostRuntime) {
    const STEPS: &[Step] = &[
        Let("hole", Var(Ty)),
        Let("inner", Var(Ty)),
        Let("word", WORD),
        Let("alias", AliasOf("word")),
        Let("tall", Ladder("inner", 60)),
        Let("both", Pair("alias", "tall")),
        Let("fresh", Type(Infer(TyVar(2)))),
        Leaves(
            "hole",
            Invariant,
            "both",
            &[AliasRelate("fresh", "alias", Equate)],
        ),
        Let("value", Pair("fresh", "tall")),
        Resolves("hole", "value"),
        Leaves("inner", Invariant, "word", &[]),
        Let("other", Var(Ty)),
        Let("newer", Type(Infer(TyVar(4)))),
        Leaves(
            "other",
            Invariant,
            "both",
            &[AliasRelate("newer", "alias", Equate)],
        ),
    ];
    plays(&rt, rt.alloc(), STEPS);
}

#[test]
fn variable_with_a_value(rt: HostRuntime) {
    const STEPS: &[Step] = &[
        Let("hole", Var(Ty)),
        Let("word", WORD),
        Leaves("hole", Invariant, "word", &[]),
        Let("holes", Wrap("hole")),
        Let("words", Wrap("word")),
        Leaves("holes", Covariant, "words", &[]),
        Leaves("words", Contravariant, "holes", &[]),
        Counts(1, 0),
    ];
    plays(&rt, rt.alloc(), STEPS);
}

#[test]
fn bound_variable_with_a_part_of_an_alias(rt: HostRuntime) {
    const STEPS: &[Step] = &[
        Let("bound", Type(Bound(0, 0))),
        Let("word", WORD),
        Let("alias", AliasOf("word")),
        Let("left", Maker("bound")),
        Let("right", Maker("alias")),
        Refuses("left", Invariant, "right"),
        Refuses("left", Covariant, "right"),
    ];
    plays(&rt, rt.alloc(), STEPS);
}
