//! Goals that one type is a subtype of another, or can be coerced to it: what is recorded, what is asked, refused, and left in doubt.
use crate::asking::Answer::{Is, Refused};
use crate::asking::Asked::{self, Constraints, Constructs, Goal, Resolves, SubRoot, Variables};
use crate::asking::Wanted::{Coerce, Subtype};
use crate::asking::{DOUBT, TOO_DEEP};
use crate::steps::Given::{Depth, Let};
use crate::steps::{By, Given, Part, plays};
use nts_certainty::{Certainty, HasChanged};
use nts_fixtures::{BYTE, Make, WORD};
use nts_model::VariableKind;
use nts_terms::{RegionKind, TypingMode};

const YES: Certainty = Certainty::Yes;

const REFERENCES: &[Given] = &[
    Let("static", Make::Region(RegionKind::ReStatic)),
    Let("r", Make::Var(VariableKind::Region)),
    Let("byte", BYTE),
    Let("word", WORD),
    Let("long", Make::Reference("static", "byte")),
    Let("short", Make::Reference("r", "byte")),
    Let("wide", Make::Reference("r", "word")),
    Let("alias", Make::AliasOf("byte")),
    Let("x", Make::Var(VariableKind::Ty)),
    Let("y", Make::Var(VariableKind::Ty)),
];

/// What outlives what is recorded for the caller, and no type is a subtype of one with another constructor.
#[test]
fn references_are_related_by_their_regions(rt: HostRuntime) {
    const ASKED: &[Asked] = &[
        Goal(Subtype("byte", "byte"), Is(YES, HasChanged::No)),
        Constraints(0),
        Goal(Subtype("long", "short"), Is(YES, HasChanged::No)),
        Constraints(1),
        Goal(Coerce("short", "long"), Is(YES, HasChanged::No)),
        Constraints(2),
        Goal(Subtype("long", "wide"), Refused),
        Goal(Coerce("byte", "word"), Refused),
        Constraints(2),
    ];
    const PARTS: &[Part] = &[Part(By::Clauses, &[], ASKED)];
    plays(&rt, rt.alloc(), TypingMode::PostAnalysis, REFERENCES, PARTS);
}

/// A type variable gets the other type as its value, with regions of its own.
#[test]
fn a_variable_becomes_a_subtype(rt: HostRuntime) {
    const ASKED: &[Asked] = &[
        Goal(Subtype("byte", "x"), Is(YES, HasChanged::Yes)),
        Resolves("x", "byte"),
        Goal(Subtype("byte", "x"), Is(YES, HasChanged::No)),
        Constraints(0),
        Goal(Subtype("y", "long"), Is(YES, HasChanged::Yes)),
        Constructs("y"),
        Goal(Subtype("y", "wide"), Refused),
    ];
    const PARTS: &[Part] = &[Part(By::Clauses, &[], ASKED)];
    plays(&rt, rt.alloc(), TypingMode::PostAnalysis, REFERENCES, PARTS);
}

/// Of two type variables nothing is known. They are of one sub-unification class then, and still two variables.
#[test]
fn two_variables_are_joined(rt: HostRuntime) {
    const ASKED: &[Asked] = &[
        SubRoot(1, 1),
        SubRoot(2, 2),
        Goal(Subtype("x", "x"), Is(DOUBT, HasChanged::No)),
        SubRoot(2, 2),
        Goal(Subtype("x", "y"), Is(DOUBT, HasChanged::No)),
        SubRoot(1, 1),
        SubRoot(2, 1),
        Resolves("x", "x"),
        Resolves("y", "y"),
        Constraints(0),
    ];
    const PARTS: &[Part] = &[Part(By::Clauses, &[], ASKED)];
    plays(&rt, rt.alloc(), TypingMode::PostAnalysis, REFERENCES, PARTS);
}

const PAIRS: &[Given] = &[
    Let("static", Make::Region(RegionKind::ReStatic)),
    Let("x", Make::Var(VariableKind::Ty)),
    Let("y", Make::Var(VariableKind::Ty)),
    Let("byte", BYTE),
    Let("word", WORD),
    Let("long", Make::Reference("static", "byte")),
    Let("wide", Make::Reference("static", "word")),
    Let("alias", Make::AliasOf("byte")),
    Let("some", Make::Wrap("x")),
    Let("other", Make::Wrap("y")),
    Let("twice", Make::Pair("x", "x")),
    Let("open", Make::Pair("y", "long")),
    Let("left", Make::Pair("twice", "y")),
    Let("right", Make::Pair("open", "wide")),
];

/// Relating pairs leaves the goal that one variable is a subtype of the other. It is asked when the second parts have told what the
/// one is, and tells what the other is.
#[test]
fn what_is_left_of_two_types_is_asked(rt: HostRuntime) {
    const ASKED: &[Asked] = &[
        Goal(Subtype("twice", "open"), Is(YES, HasChanged::Yes)),
        Constructs("x"),
        Constructs("y"),
        Goal(Subtype("twice", "open"), Is(YES, HasChanged::No)),
    ];
    const PARTS: &[Part] = &[Part(By::Clauses, &[], ASKED)];
    plays(&rt, rt.alloc(), TypingMode::PostAnalysis, PAIRS, PARTS);
}

/// Types of which a goal is left that has no solution are not related, and the table is as before.
#[test]
fn what_is_left_of_two_types_is_refused(rt: HostRuntime) {
    const ASKED: &[Asked] = &[
        Goal(Subtype("left", "right"), Refused),
        Resolves("x", "x"),
        Resolves("y", "y"),
        SubRoot(0, 0),
        SubRoot(1, 1),
        Constraints(0),
        Variables(2),
    ];
    const PARTS: &[Part] = &[Part(By::Clauses, &[], ASKED)];
    plays(&rt, rt.alloc(), TypingMode::PostAnalysis, PAIRS, PARTS);
}

/// What is left of two types is in doubt where it is of two variables, and is refused of an alias of which nothing is said.
#[test]
fn what_is_left_of_two_types_is_in_doubt(rt: HostRuntime) {
    const ASKED: &[Asked] = &[
        Goal(Subtype("some", "other"), Is(DOUBT, HasChanged::No)),
        SubRoot(0, 0),
        SubRoot(1, 0),
        Resolves("x", "x"),
        Resolves("y", "y"),
        Goal(Subtype("alias", "byte"), Refused),
        Constraints(0),
    ];
    const PARTS: &[Part] = &[Part(By::Clauses, &[], ASKED)];
    plays(&rt, rt.alloc(), TypingMode::PostAnalysis, PAIRS, PARTS);
}

/// In types with aliases what stands beside these may be apart. An alias of which nothing is said is no subtype, not even of itself.
#[test]
fn types_with_aliases_are_related(rt: HostRuntime) {
    const GIVEN: &[Given] = &[
        Let("byte", BYTE),
        Let("word", WORD),
        Let("alias", Make::AliasOf("byte")),
        Let("one", Make::Pair("alias", "byte")),
        Let("other", Make::Pair("alias", "word")),
    ];
    const ASKED: &[Asked] = &[
        Goal(Subtype("alias", "alias"), Refused),
        Goal(Subtype("one", "one"), Refused),
        Goal(Subtype("one", "other"), Refused),
        Goal(Coerce("other", "one"), Refused),
        Constraints(0),
    ];
    const PARTS: &[Part] = &[Part(By::Clauses, &[], ASKED)];
    plays(&rt, rt.alloc(), TypingMode::PostAnalysis, GIVEN, PARTS);
}

/// Goals that are left are nested below the one that left them. Where no depth is left for them, what relating found out is taken
/// back; two variables need no depth.
#[test]
fn what_is_left_of_two_types_needs_depth(rt: HostRuntime) {
    const SHALLOW: &[Given] = &[
        Depth(0),
        Let("static", Make::Region(RegionKind::ReStatic)),
        Let("x", Make::Var(VariableKind::Ty)),
        Let("y", Make::Var(VariableKind::Ty)),
        Let("byte", BYTE),
        Let("long", Make::Reference("static", "byte")),
        Let("twice", Make::Pair("x", "x")),
        Let("open", Make::Pair("y", "long")),
    ];
    const ASKED: &[Asked] = &[
        Goal(Subtype("twice", "open"), Is(TOO_DEEP, HasChanged::No)),
        Resolves("x", "x"),
        Resolves("y", "y"),
        SubRoot(1, 1),
        Constraints(0),
        Goal(Coerce("x", "y"), Is(DOUBT, HasChanged::No)),
        SubRoot(1, 0),
    ];
    const PARTS: &[Part] = &[Part(By::Clauses, &[], ASKED)];
    plays(&rt, rt.alloc(), TypingMode::PostAnalysis, SHALLOW, PARTS);
}

/// In coherence two types are not related.
#[test]
fn types_are_not_related_in_coherence(rt: HostRuntime) {
    const ASKED: &[Asked] = &[
        Goal(Subtype("byte", "byte"), Is(DOUBT, HasChanged::No)),
        Goal(Subtype("byte", "word"), Is(DOUBT, HasChanged::No)),
        Constraints(0),
    ];
    const PARTS: &[Part] = &[Part(By::Clauses, &[], ASKED)];
    plays(&rt, rt.alloc(), TypingMode::Coherence, REFERENCES, PARTS);
}
