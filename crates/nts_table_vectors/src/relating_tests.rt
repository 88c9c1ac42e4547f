//! What relating makes of a table, case by case.
use crate::steps::Step::{
    Counts, Equal, EquatesConst, EquatesRegion, EquatesTerm, InUniverse, Known, Let, LetLeft, Link,
    Relates, Resolves, Shares, Universe, Unset,
};
use crate::steps::{Step, plays};
use nts_fixtures::BYTE;
use nts_fixtures::Make::{ConstParam, Pair, Reference, Region, RootVar, Type, Var, Wrap};
use nts_fixtures::Type::Param;
use nts_model::VariableKind;
use nts_model::VariableKind::{Const, Ty};
use nts_terms::RegionKind::{ReEarlyParam, RePlaceholder, ReStatic};
use nts_terms::{BoundRegion, PlaceholderRegion};

#[test]
fn one_node(rt: HostRuntime) {
    const STEPS: &[Step] = &[
        Let("byte", BYTE),
        Let("bytes", Wrap("byte")),
        Relates("bytes", "bytes"),
        Counts(0, 0),
        Let("hole", Var(Ty)),
        Relates("hole", "hole"),
        Unset(0, 0),
        Counts(1, 0),
    ];
    plays(&rt, rt.alloc(), STEPS);
}

#[test]
fn constants(rt: HostRuntime) {
    const STEPS: &[Step] = &[
        Let("param", Type(Param(0))),
        Relates("param", "param"),
        Let("size", ConstParam(1)),
        Let("hole", Var(Const)),
        Relates("size", "hole"),
        Known(0, 0, "size"),
        Relates("size", "hole"),
        Counts(1, 0),
    ];
    plays(&rt, rt.alloc(), STEPS);
}

#[test]
fn equal_arguments(rt: HostRuntime) {
    const STEPS: &[Step] = &[
        Let("byte", BYTE),
        Let("hole", Var(Ty)),
        Let("twice", Pair("hole", "hole")),
        Let("bytes", Pair("byte", "byte")),
        Relates("twice", "bytes"),
        Known(0, 0, "byte"),
        Counts(1, 0),
        Relates("bytes", "twice"),
        Counts(1, 0),
    ];
    plays(&rt, rt.alloc(), STEPS);
}

#[test]
fn value_of_a_variable(rt: HostRuntime) {
    const STEPS: &[Step] = &[
        Let("first", Var(Ty)),
        Let("second", Var(Ty)),
        Let("byte", BYTE),
        Let("bytes", Wrap("byte")),
        Relates("second", "bytes"),
        Unset(0, 0),
        Known(1, 0, "bytes"),
        Relates("byte", "first"),
        Known(0, 0, "byte"),
        Counts(2, 0),
    ];
    plays(&rt, rt.alloc(), STEPS);
}

#[test]
fn two_variables(rt: HostRuntime) {
    const STEPS: &[Step] = &[
        Let("low", Var(Ty)),
        Universe,
        Let("high", Var(Ty)),
        Relates("high", "low"),
        Unset(0, 0),
        Link(1, 1, 0),
        Counts(2, 0),
        Let("byte", BYTE),
        Relates("high", "byte"),
        Known(0, 0, "byte"),
        Link(1, 1, 0),
    ];
    plays(&rt, rt.alloc(), STEPS);
}

#[test]
fn lowered_universe(rt: HostRuntime) {
    const STEPS: &[Step] = &[
        Universe,
        Let("first", Var(Ty)),
        Let("second", RootVar(Ty)),
        Unset(0, 1),
        Relates("first", "second"),
        Unset(0, 0),
        Link(1, 0, 0),
    ];
    plays(&rt, rt.alloc(), STEPS);
}

#[test]
fn free_regions(rt: HostRuntime) {
    const STEPS: &[Step] = &[
        Let("fixed", Region(ReStatic)),
        Let("named", Region(ReEarlyParam(0))),
        Relates("fixed", "fixed"),
        Counts(0, 0),
        Relates("fixed", "named"),
        Counts(0, 1),
        Equal(0, "fixed", "named"),
    ];
    plays(&rt, rt.alloc(), STEPS);
}

#[test]
fn region_variables(rt: HostRuntime) {
    const STEPS: &[Step] = &[
        Let("low", Var(VariableKind::Region)),
        Universe,
        Let("high", Var(VariableKind::Region)),
        Relates("high", "low"),
        Unset(0, 0),
        Link(1, 1, 0),
        Counts(2, 0),
        Relates("low", "high"),
        Counts(2, 0),
        Let("fixed", Region(ReStatic)),
        Relates("high", "fixed"),
        Unset(0, 0),
        Counts(2, 1),
        Equal(0, "high", "fixed"),
    ];
    plays(&rt, rt.alloc(), STEPS);
}

#[test]
fn generalized_variable(rt: HostRuntime) {
    const STEPS: &[Step] = &[
        Let("low", Var(Ty)),
        Universe,
        Let("high", Var(Ty)),
        Let("value", Pair("high", "high")),
        Relates("low", "value"),
        Counts(3, 0),
        Unset(1, 0),
        Link(2, 0, 1),
        Resolves("low", "value"),
    ];
    plays(&rt, rt.alloc(), STEPS);
}

#[test]
fn sub_roots(rt: HostRuntime) {
    const STEPS: &[Step] = &[
        Let("low", Var(Ty)),
        Universe,
        Let("high", Var(Ty)),
        Let("other", Var(Ty)),
        Let("value", Wrap("high")),
        Relates("low", "value"),
        Counts(4, 0),
        Shares(1, 3, true),
        Shares(0, 1, false),
        Shares(1, 2, false),
        Relates("other", "high"),
        Shares(1, 2, true),
        Shares(2, 3, true),
        Shares(0, 2, false),
        InUniverse(1),
    ];
    plays(&rt, rt.alloc(), STEPS);
}

#[test]
fn generalized_region(rt: HostRuntime) {
    const PLACEHOLDER: PlaceholderRegion = PlaceholderRegion {
        universe: 1,
        bound: BoundRegion { var: 0 },
    };
    const STEPS: &[Step] = &[
        Let("low", Var(Ty)),
        Universe,
        Let("region", Region(RePlaceholder(PLACEHOLDER))),
        Let("byte", BYTE),
        Let("value", Reference("region", "byte")),
        Relates("value", "low"),
        Counts(2, 1),
        Unset(1, 0),
        LetLeft("fresh", 0),
        Equal(0, "fresh", "region"),
        Let("named", Reference("fresh", "byte")),
        Known(0, 0, "named"),
    ];
    plays(&rt, rt.alloc(), STEPS);
}

#[test]
fn nested_arguments(rt: HostRuntime) {
    const STEPS: &[Step] = &[
        Let("first", Var(Ty)),
        Let("second", Var(Ty)),
        Let("byte", BYTE),
        Let("bytes", Wrap("byte")),
        Let("wrapped", Wrap("first")),
        Let("left", Pair("wrapped", "second")),
        Let("right", Pair("bytes", "first")),
        Relates("left", "right"),
        Counts(2, 0),
        Known(0, 0, "byte"),
        Known(1, 0, "byte"),
        Let("expected", Pair("bytes", "byte")),
        Resolves("left", "expected"),
        Resolves("right", "expected"),
    ];
    plays(&rt, rt.alloc(), STEPS);
}

#[test]
fn regions_alone(rt: HostRuntime) {
    const STEPS: &[Step] = &[Let("region", Region(ReStatic)), EquatesRegion("region")];
    plays(&rt, rt.alloc(), STEPS);
}

#[test]
fn consts_alone(rt: HostRuntime) {
    const STEPS: &[Step] = &[Let("size", ConstParam(0)), EquatesConst("size")];
    plays(&rt, rt.alloc(), STEPS);
}

#[test]
fn terms_alone(rt: HostRuntime) {
    const STEPS: &[Step] = &[Let("size", ConstParam(0)), EquatesTerm("size")];
    plays(&rt, rt.alloc(), STEPS);
}
