//! Goals that are added, with aliases in them.
use crate::adding::Said::{Equal, Holds, WellFormed};
use crate::adding::{Added, FIRST, SECOND, adds};
use nts_fixtures::{BYTE, Make, Name, Type};

/// Types with an alias in them, and the variables that a table gets.
const TYPES: &[(Name, Make)] = &[
    ("byte", BYTE),
    ("item", Make::AliasOf("byte")),
    ("outer", Make::AliasOf("item")),
    ("two", Make::Pair("item", "item")),
    ("v0", FIRST),
    ("v1", SECOND),
    ("v0 and v1", Make::Pair("v0", "v1")),
];

/// A type without aliases stands as it is.
#[test]
fn without_aliases(rt: HostRuntime) {
    adds(
        &rt,
        rt.alloc(),
        &Added(TYPES, Holds("byte"), &[], Holds("byte")),
    );
}

#[test]
fn an_alias_gives_place_to_a_variable(rt: HostRuntime) {
    const ITEM: &[(Name, Name)] = &[("item", "v0")];
    adds(
        &rt,
        rt.alloc(),
        &Added(TYPES, Holds("item"), ITEM, Holds("v0")),
    );
}

/// Two occurrences of one alias have a variable each.
#[test]
fn each_occurrence_has_its_own(rt: HostRuntime) {
    const BOTH: &[(Name, Name)] = &[("item", "v0"), ("item", "v1")];
    adds(
        &rt,
        rt.alloc(),
        &Added(TYPES, Holds("two"), BOTH, Holds("v0 and v1")),
    );
}

/// An alias in an alias stands as it is in the goal of the outer one.
#[test]
fn the_outermost_alias_gives_place(rt: HostRuntime) {
    const OUTER: &[(Name, Name)] = &[("outer", "v0")];
    adds(
        &rt,
        rt.alloc(),
        &Added(TYPES, Holds("outer"), OUTER, Holds("v0")),
    );
}

/// An alias of a type that is bound outside of it stays; one in it, or beside it, that names none does not.
#[test]
fn an_alias_of_a_bound_type_stays(rt: HostRuntime) {
    const BOUND: &[(Name, Make)] = &[
        ("byte", BYTE),
        ("item", Make::AliasOf("byte")),
        ("bound", Make::Type(Type::Bound(0, 0))),
        ("item and bound", Make::Pair("item", "bound")),
        ("open", Make::AliasOf("item and bound")),
        ("maker", Make::Maker("open")),
        ("v0", FIRST),
        ("v0 and bound", Make::Pair("v0", "bound")),
        ("open of v0", Make::AliasOf("v0 and bound")),
        ("maker of v0", Make::Maker("open of v0")),
    ];
    const ITEM: &[(Name, Name)] = &[("item", "v0")];
    adds(
        &rt,
        rt.alloc(),
        &Added(BOUND, Holds("maker"), ITEM, Holds("maker of v0")),
    );
}

/// What is said of a type as it stands, or of an alias itself, keeps its aliases.
#[test]
fn goals_that_keep_their_aliases(rt: HostRuntime) {
    adds(
        &rt,
        rt.alloc(),
        &Added(TYPES, WellFormed("item"), &[], WellFormed("item")),
    );
    adds(
        &rt,
        rt.alloc(),
        &Added(TYPES, Equal("item", "byte"), &[], Equal("item", "byte")),
    );
}
