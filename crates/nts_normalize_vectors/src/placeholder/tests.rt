//! Opening and closing by examples.
use crate::placeholder::steps::Step::{
    Binders, Closes, InUniverse, Is, IsFull, Keeps, Kept, Let, LetMixed, LetOpened, Opens,
};
use crate::placeholder::steps::{Step, plays};
use nts_fixtures::Make::{ConstBound, ConstPlaceholder, Ladder, Maker, Nested, Region, Type};
use nts_fixtures::Type::{Bound, Placeholder};
use nts_model::{BoundVarIndexKind, Sort};
use nts_terms::RegionKind::{ReBound, RePlaceholder};
use nts_terms::{BoundRegion, PlaceholderRegion};

#[test]
fn the_innermost_binder(rt: HostRuntime) {
    const STEPS: &[Step] = &[
        Let("inner", Type(Bound(0, 3))),
        Let("opened", Type(Placeholder(2, 3))),
        Opens("inner", "opened"),
        Binders(&[Some(1), Some(2)]),
        InUniverse(2),
        Kept(Sort::Ty, 2, 3, Some((0, 3))),
        Keeps(0, 1, 0),
        Closes("opened", "inner"),
    ];
    plays(&rt, rt.alloc(), 0, &[None, None], STEPS);
}

#[test]
fn an_outer_binder(rt: HostRuntime) {
    const STEPS: &[Step] = &[
        Let("outer", Type(Bound(1, 0))),
        Let("opened", Type(Placeholder(1, 0))),
        Opens("outer", "opened"),
        Binders(&[Some(1), None]),
        InUniverse(1),
        Closes("opened", "outer"),
    ];
    plays(&rt, rt.alloc(), 0, &[None, None], STEPS);
}

#[test]
fn under_one_binder(rt: HostRuntime) {
    const STEPS: &[Step] = &[
        Let("outer", Type(Bound(2, 0))),
        Let("value", Maker("outer")),
        Let("placeholder", Type(Placeholder(1, 0))),
        Let("opened", Maker("placeholder")),
        Opens("value", "opened"),
        Closes("opened", "value"),
    ];
    plays(&rt, rt.alloc(), 0, &[None, None], STEPS);
}

#[test]
fn a_ladder(rt: HostRuntime) {
    const STEPS: &[Step] = &[
        Let("bound", Type(Bound(0, 0))),
        Let("placeholder", Type(Placeholder(1, 0))),
        Let("value", Ladder("bound", 60)),
        Let("opened", Ladder("placeholder", 60)),
        Opens("value", "opened"),
        Closes("opened", "value"),
    ];
    plays(&rt, rt.alloc(), 0, &[None], STEPS);
}

#[test]
fn a_deep_value(rt: HostRuntime) {
    const STEPS: &[Step] = &[
        Let("bound", Type(Bound(0, 0))),
        Let("value", Nested("bound", 100_000)),
        LetOpened("opened", "value"),
        Is("opened", "value", false),
        Closes("opened", "value"),
    ];
    plays(&rt, rt.alloc(), 0, &[None], STEPS);
}

#[test]
fn no_universe_is_left(rt: HostRuntime) {
    const STEPS: &[Step] = &[
        Let("outer", Type(Bound(1, 0))),
        Let("inner", Type(Bound(0, 0))),
        IsFull("outer"),
        Binders(&[None, Some(7)]),
        InUniverse(4_294_967_295),
        Let("opened", Type(Placeholder(7, 0))),
        Opens("inner", "opened"),
        InUniverse(4_294_967_295),
    ];
    plays(&rt, rt.alloc(), 4_294_967_295, &[None, Some(7)], STEPS);
}

#[test]
fn each_sort_has_its_map(rt: HostRuntime) {
    const INNER: BoundVarIndexKind = BoundVarIndexKind::Bound(0);
    const REGION: PlaceholderRegion = PlaceholderRegion {
        universe: 5,
        bound: BoundRegion { var: 2 },
    };
    const STEPS: &[Step] = &[
        Let("region", Region(ReBound(INNER, BoundRegion { var: 2 }))),
        Let("type", Type(Bound(0, 0))),
        Let("const", ConstBound(1)),
        LetMixed("value", &["region", "type", "const"]),
        Let("region", Region(RePlaceholder(REGION))),
        Let("type", Type(Placeholder(5, 0))),
        Let("const", ConstPlaceholder(5, 1)),
        LetMixed("opened", &["region", "type", "const"]),
        Opens("value", "opened"),
        Keeps(1, 1, 1),
        Kept(Sort::Region, 5, 2, Some((0, 2))),
        Kept(Sort::Ty, 5, 2, None),
        Closes("opened", "value"),
    ];
    plays(&rt, rt.alloc(), 4, &[None], STEPS);
}
