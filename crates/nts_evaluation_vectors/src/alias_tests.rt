//! Goals about aliases: what clauses normalize an alias to, what is refused, and what is left in doubt.
use crate::aliases::Aliased::{Equal, Normalizes, Projects};
use crate::aliases::Norm;
use crate::asking::Answer::{Is, NotAdmitted, Refused};
use crate::asking::Asked::{self, Constraints, Constructs, Goal, Resolves};
use crate::asking::DOUBT;
use crate::asking::Wanted::{Alias, Plain, Subtype};
use crate::steps::Condition::{AliasIs, Holds};
use crate::steps::Given::{self, Let, Trait};
use crate::steps::{By, Of, Part, Rule, plays};
use nts_certainty::{Certainty, HasChanged};
use nts_fixtures::{BYTE, Make, Type, WORD};
use nts_model::{Sort, VariableKind};
use nts_terms::{RegionKind, TypingMode};
use std::alloc::Global;
use std::process::Abort;

const YES: Certainty = Certainty::Yes;

const GIVEN: &[Given] = &[
    Trait(&[Sort::Ty]),
    Let("byte", BYTE),
    Let("word", WORD),
    Let("alias", Make::AliasOf("byte")),
    Let("x", Make::Var(VariableKind::Ty)),
    Let("y", Make::Var(VariableKind::Ty)),
];

/// .. and another alias.
const PAIR: &[Given] = &[
    Trait(&[Sort::Ty]),
    Let("byte", BYTE),
    Let("word", WORD),
    Let("alias", Make::AliasOf("byte")),
    Let("other", Make::AliasOf("word")),
    Let("x", Make::Var(VariableKind::Ty)),
];

/// A goal may not be asked what an alias normalizes to, but what it is equal to.
#[test]
fn what_an_alias_normalizes_to_is_not_asked(rt: HostRuntime) {
    const NORMS: &[Norm] = &[Norm(&[], "byte", "word", None)];
    const ASKED: &[Asked] = &[
        Goal(Alias(Normalizes("byte", "word")), NotAdmitted),
        Goal(Alias(Equal("alias", "word")), Is(YES, HasChanged::No)),
    ];
    const PARTS: &[Part] = &[Part(By::Aliases(NORMS), &[], ASKED)];
    plays(&rt, rt.alloc(), TypingMode::PostAnalysis, GIVEN, PARTS);
}

/// A clause normalizes the alias of each type that it is for, and no other alias.
#[test]
fn an_alias_normalizes_to_what_a_clause_says(rt: HostRuntime) {
    const GENERAL: &[Given] = &[
        Let("any", Make::Type(Type::Position(0))),
        Let("word", WORD),
        Let("some", Make::Wrap("any")),
        Let("wrapped", Make::Wrap("word")),
        Let("alias", Make::AliasOf("wrapped")),
        Let("other", Make::AliasOf("word")),
        Let("x", Make::Var(VariableKind::Ty)),
    ];
    const NORMS: &[Norm] = &[Norm(&[Sort::Ty], "some", "any", None)];
    const ASKED: &[Asked] = &[
        Goal(Alias(Equal("other", "word")), Refused),
        Goal(Alias(Equal("alias", "wrapped")), Refused),
        Goal(Alias(Equal("alias", "x")), Is(YES, HasChanged::Yes)),
        Resolves("x", "word"),
        Goal(Alias(Projects("wrapped", "x")), Is(YES, HasChanged::No)),
    ];
    const PARTS: &[Part] = &[Part(By::Aliases(NORMS), &[], ASKED)];
    plays(&rt, rt.alloc(), TypingMode::PostAnalysis, GENERAL, PARTS);
}

/// An alias is equal to what it normalizes to, on either side, and is a projection that is this.
#[test]
fn an_alias_is_what_it_normalizes_to(rt: HostRuntime) {
    const NORMS: &[Norm] = &[Norm(&[], "byte", "word", None)];
    const ASKED: &[Asked] = &[
        Goal(Alias(Equal("alias", "word")), Is(YES, HasChanged::No)),
        Goal(Alias(Equal("word", "alias")), Is(YES, HasChanged::No)),
        Goal(Alias(Equal("alias", "byte")), Refused),
        Goal(Alias(Projects("byte", "word")), Is(YES, HasChanged::No)),
        Goal(Alias(Projects("byte", "byte")), Refused),
        Goal(Alias(Equal("x", "alias")), Is(YES, HasChanged::Yes)),
        Resolves("x", "word"),
        Goal(Alias(Projects("byte", "y")), Is(YES, HasChanged::Yes)),
        Resolves("y", "word"),
    ];
    const PARTS: &[Part] = &[Part(By::Aliases(NORMS), &[], ASKED)];
    plays(&rt, rt.alloc(), TypingMode::PostAnalysis, GIVEN, PARTS);
}

/// A clause serves where its condition holds. Where two serve, the goal is in doubt.
#[test]
fn a_clause_of_an_alias_has_a_condition(rt: HostRuntime) {
    const HOLDS: &[Rule] = &[Rule(&[], Of(0, &["byte"]), None)];
    const ONE: &[Norm] = &[
        Norm(&[], "byte", "word", Some(Holds(Of(0, &["byte"])))),
        Norm(&[], "byte", "byte", Some(Holds(Of(0, &["word"])))),
    ];
    const BOTH: &[Norm] = &[
        Norm(&[], "byte", "word", Some(Holds(Of(0, &["byte"])))),
        Norm(&[], "byte", "byte", Some(Holds(Of(0, &["byte"])))),
    ];
    const REFUSED: &[Asked] = &[Goal(Alias(Equal("alias", "word")), Refused)];
    const DOUBTED: &[Asked] = &[
        Goal(Alias(Equal("alias", "x")), Is(DOUBT, HasChanged::No)),
        Resolves("x", "x"),
    ];
    const FOUND: &[Asked] = &[
        Goal(Alias(Equal("alias", "byte")), Refused),
        Goal(Alias(Equal("alias", "x")), Is(YES, HasChanged::Yes)),
        Resolves("x", "word"),
    ];
    const PARTS: &[Part] = &[
        Part(By::Aliases(ONE), &[], REFUSED),
        Part(By::Aliases(BOTH), HOLDS, DOUBTED),
        Part(By::Aliases(ONE), HOLDS, FOUND),
    ];
    plays(&rt, rt.alloc(), TypingMode::PostAnalysis, GIVEN, PARTS);
}

/// .. which may say what another alias is. Where that is a position of the rule alone, it gets its value from there.
#[test]
fn a_condition_may_say_what_an_alias_is(rt: HostRuntime) {
    conditions_on_aliases(&rt, rt.alloc(), TypingMode::PostAnalysis);
}

#[test]
fn a_condition_may_say_so_in_coherence(rt: HostRuntime) {
    conditions_on_aliases(&rt, rt.alloc(), TypingMode::Coherence);
}

fn conditions_on_aliases(rt: &impl Abort, alloc: Global, mode: TypingMode) {
    const GIVEN: &[Given] = &[
        Trait(&[Sort::Ty]),
        Let("any", Make::Type(Type::Position(0))),
        Let("result", Make::Type(Type::Position(1))),
        Let("some", Make::Wrap("any")),
        Let("byte", BYTE),
        Let("word", WORD),
        Let("wrapped", Make::Wrap("byte")),
        Let("alias", Make::AliasOf("wrapped")),
        Let("x", Make::Var(VariableKind::Ty)),
    ];
    const RULES: &[Rule] = &[Rule(&[Sort::Ty], Of(0, &["any"]), Some(AliasIs("any", "word")))];
    const NORMS: &[Norm] = &[
        Norm(&[], "byte", "word", None),
        Norm(&[], "word", "byte", None),
        Norm(
            &[Sort::Ty, Sort::Ty],
            "some",
            "result",
            Some(AliasIs("any", "result")),
        ),
    ];
    const ASKED: &[Asked] = &[
        Goal(Plain(Of(0, &["byte"])), Is(YES, HasChanged::No)),
        Goal(Plain(Of(0, &["wrapped"])), Is(YES, HasChanged::No)),
        Goal(Plain(Of(0, &["word"])), Refused),
        Goal(Alias(Equal("alias", "byte")), Refused),
        Goal(Alias(Equal("alias", "x")), Is(YES, HasChanged::Yes)),
        Resolves("x", "word"),
    ];
    const PARTS: &[Part] = &[Part(By::Aliases(NORMS), RULES, ASKED)];
    plays(rt, alloc, mode, GIVEN, PARTS);
}

/// What an alias normalizes to may be another alias, which is normalized in its turn. Two aliases are equal where both normalize to one
/// type.
#[test]
fn an_alias_may_normalize_to_another(rt: HostRuntime) {
    const NORMS: &[Norm] = &[
        Norm(&[], "word", "alias", None),
        Norm(&[], "byte", "word", None),
    ];
    const ASKED: &[Asked] = &[
        Goal(Alias(Projects("word", "word")), Is(YES, HasChanged::No)),
        Goal(Alias(Projects("word", "byte")), Refused),
        Goal(Alias(Equal("alias", "alias")), Is(YES, HasChanged::No)),
        Goal(Alias(Equal("alias", "other")), Is(YES, HasChanged::No)),
        Goal(Alias(Projects("word", "x")), Is(YES, HasChanged::Yes)),
        Resolves("x", "word"),
    ];
    const PARTS: &[Part] = &[Part(By::Aliases(NORMS), &[], ASKED)];
    plays(&rt, rt.alloc(), TypingMode::PostAnalysis, PAIR, PARTS);
}

/// Two aliases that normalize to two types are not equal, nor is one that normalizes to nothing.
#[test]
fn two_aliases_have_to_normalize_to_one_type(rt: HostRuntime) {
    const APART: &[Norm] = &[
        Norm(&[], "byte", "word", None),
        Norm(&[], "word", "byte", None),
    ];
    const ONE: &[Norm] = &[Norm(&[], "byte", "word", None)];
    const ASKED: &[Asked] = &[Goal(Alias(Equal("alias", "other")), Refused)];
    const PARTS: &[Part] = &[
        Part(By::Aliases(APART), &[], ASKED),
        Part(By::Aliases(ONE), &[], ASKED),
    ];
    plays(&rt, rt.alloc(), TypingMode::PostAnalysis, PAIR, PARTS);
}

/// A trait holds of an alias where it holds of what the alias normalizes to.
#[test]
fn a_trait_holds_of_an_alias_by_its_type(rt: HostRuntime) {
    const NORMS: &[Norm] = &[Norm(&[], "byte", "word", None)];
    const FOR_WORD: &[Rule] = &[Rule(&[], Of(0, &["word"]), None)];
    const FOR_BYTE: &[Rule] = &[Rule(&[], Of(0, &["byte"]), None)];
    const HOLDS: &[Asked] = &[Goal(Plain(Of(0, &["alias"])), Is(YES, HasChanged::No))];
    const FAILS: &[Asked] = &[Goal(Plain(Of(0, &["alias"])), Refused)];
    const PARTS: &[Part] = &[
        Part(By::Aliases(NORMS), FOR_WORD, HOLDS),
        Part(By::Aliases(NORMS), FOR_BYTE, FAILS),
        Part(By::Aliases(&[]), FOR_WORD, FAILS),
    ];
    plays(&rt, rt.alloc(), TypingMode::PostAnalysis, PAIR, PARTS);
}

/// .. and so it does where the rule is for an alias, and the goal for its type.
#[test]
fn a_rule_for_an_alias_serves_its_type(rt: HostRuntime) {
    const NORMS: &[Norm] = &[Norm(&[], "byte", "word", None)];
    const FOR_ALIAS: &[Rule] = &[Rule(&[], Of(0, &["alias"]), None)];
    const ASKED: &[Asked] = &[
        Goal(Plain(Of(0, &["word"])), Is(YES, HasChanged::No)),
        Goal(Plain(Of(0, &["alias"])), Is(YES, HasChanged::No)),
        Goal(Plain(Of(0, &["byte"])), Refused),
    ];
    const PARTS: &[Part] = &[Part(By::Aliases(NORMS), FOR_ALIAS, ASKED)];
    plays(&rt, rt.alloc(), TypingMode::PostAnalysis, PAIR, PARTS);
}

/// In coherence such a rule serves what the alias normalizes to, and nothing else. A type for which no clause says so is refused.
#[test]
fn a_rule_for_an_alias_serves_its_type_in_coherence(rt: HostRuntime) {
    const NORMS: &[Norm] = &[Norm(&[], "byte", "word", None)];
    const TO_ALIAS: &[Norm] = &[
        Norm(&[], "byte", "word", None),
        Norm(&[], "word", "alias", None),
    ];
    const FOR_ALIAS: &[Rule] = &[Rule(&[], Of(0, &["alias"]), None)];
    const FOR_OTHER: &[Rule] = &[Rule(&[], Of(0, &["other"]), None)];
    const FOR_WORD: &[Rule] = &[Rule(&[], Of(0, &["word"]), None)];
    const KNOWN: &[Asked] = &[
        Goal(Plain(Of(0, &["word"])), Is(YES, HasChanged::No)),
        Goal(Plain(Of(0, &["byte"])), Refused),
    ];
    const PARTS: &[Part] = &[
        Part(By::Aliases(NORMS), FOR_ALIAS, KNOWN),
        Part(By::Aliases(NORMS), FOR_WORD, KNOWN),
        Part(By::Aliases(TO_ALIAS), FOR_OTHER, KNOWN),
    ];
    plays(&rt, rt.alloc(), TypingMode::Coherence, PAIR, PARTS);
}

/// In coherence too two aliases are equal by the one type that both normalize to, and refused where there is none.
#[test]
fn two_aliases_are_equal_by_one_type_in_coherence(rt: HostRuntime) {
    const TO_ONE: &[Norm] = &[
        Norm(&[], "byte", "word", None),
        Norm(&[], "word", "word", None),
    ];
    const APART: &[Norm] = &[
        Norm(&[], "byte", "word", None),
        Norm(&[], "word", "byte", None),
    ];
    const ONLY_ONE: &[Norm] = &[Norm(&[], "byte", "word", None)];
    const EQUAL: &[Asked] = &[Goal(Alias(Equal("alias", "other")), Is(YES, HasChanged::No))];
    const UNEQUAL: &[Asked] = &[Goal(Alias(Equal("alias", "other")), Refused)];
    const PARTS: &[Part] = &[
        Part(By::Aliases(TO_ONE), &[], EQUAL),
        Part(By::Aliases(APART), &[], UNEQUAL),
        Part(By::Aliases(ONLY_ONE), &[], UNEQUAL),
    ];
    plays(&rt, rt.alloc(), TypingMode::Coherence, PAIR, PARTS);
}

/// In coherence an alias projects to another, or to itself, where both are one type. Subtypes of an alias are in doubt.
#[test]
fn an_alias_projects_to_an_alias_in_coherence(rt: HostRuntime) {
    const NORMS: &[Norm] = &[Norm(&[], "byte", "word", None)];
    const ASKED: &[Asked] = &[
        Goal(Alias(Projects("byte", "alias")), Is(YES, HasChanged::No)),
        Goal(Alias(Projects("word", "alias")), Refused),
        Goal(Subtype("alias", "word"), Is(DOUBT, HasChanged::No)),
    ];
    const PARTS: &[Part] = &[Part(By::Aliases(NORMS), &[], ASKED)];
    plays(&rt, rt.alloc(), TypingMode::Coherence, PAIR, PARTS);
}

/// In coherence what an alias of an alias is is answered by the clauses, and so is what trait an alias has.
#[test]
fn aliases_in_terms_are_answered_in_coherence(rt: HostRuntime) {
    const NORMS: &[Norm] = &[Norm(&[], "byte", "word", None)];
    const ASKED: &[Asked] = &[
        Goal(Alias(Projects("alias", "word")), Refused),
        Goal(Plain(Of(0, &["alias"])), Refused),
    ];
    const PARTS: &[Part] = &[Part(By::Aliases(NORMS), &[], ASKED)];
    plays(&rt, rt.alloc(), TypingMode::Coherence, PAIR, PARTS);
}

/// In coherence a goal that an alias is a term, or is equal to one, is answered by the clauses for the alias, if no alias stands in the
/// term, nor in the arguments.
#[test]
fn what_an_alias_is_equal_to_is_answered_in_coherence(rt: HostRuntime) {
    const NORMS: &[Norm] = &[Norm(&[], "byte", "word", None)];
    const ASKED: &[Asked] = &[
        Goal(Alias(Projects("byte", "word")), Is(YES, HasChanged::No)),
        Goal(Alias(Projects("byte", "byte")), Refused),
        Goal(Alias(Projects("word", "word")), Refused),
        Goal(Alias(Equal("alias", "word")), Is(YES, HasChanged::No)),
        Goal(Alias(Equal("word", "alias")), Is(YES, HasChanged::No)),
        Goal(Alias(Equal("alias", "byte")), Refused),
        Goal(Alias(Projects("byte", "x")), Is(YES, HasChanged::Yes)),
        Resolves("x", "word"),
        Goal(Alias(Equal("y", "alias")), Is(YES, HasChanged::Yes)),
        Resolves("y", "word"),
    ];
    const TO_ALIAS: &[Norm] = &[
        Norm(&[], "byte", "word", None),
        Norm(&[], "word", "alias", None),
    ];
    const THROUGH: &[Asked] = &[
        Goal(Alias(Projects("word", "word")), Is(YES, HasChanged::No)),
        Goal(Alias(Projects("word", "byte")), Refused),
    ];
    const CONDITION: &[Norm] = &[Norm(&[], "byte", "word", Some(Holds(Of(0, &["byte"]))))];
    const FAILED: &[Asked] = &[Goal(Alias(Projects("byte", "word")), Refused)];
    const PARTS: &[Part] = &[
        Part(By::Aliases(NORMS), &[], ASKED),
        Part(By::Aliases(TO_ALIAS), &[], THROUGH),
        Part(By::Aliases(CONDITION), &[], FAILED),
    ];
    plays(&rt, rt.alloc(), TypingMode::Coherence, GIVEN, PARTS);
}

const LIVES: &[Given] = &[
    Let("static", Make::Region(RegionKind::ReStatic)),
    Let("r", Make::Var(VariableKind::Region)),
    Let("byte", BYTE),
    Let("word", WORD),
    Let("long", Make::Reference("static", "byte")),
    Let("hard", Make::Reference("static", "word")),
    Let("short", Make::Reference("r", "byte")),
    Let("wide", Make::Reference("r", "word")),
    Let("alias", Make::AliasOf("byte")),
    Let("other", Make::AliasOf("word")),
    Let("x", Make::Var(VariableKind::Ty)),
    Let("of_x", Make::AliasOf("x")),
    Let("one", Make::Pair("alias", "byte")),
    Let("two", Make::Pair("short", "byte")),
    Let("deep", Make::Reference("static", "alias")),
    Let("lent", Make::Reference("r", "short")),
    Let("takes", Make::Turner(Sort::Region, "short", "byte")),
    Let("taken", Make::Turner(Sort::Region, "alias", "byte")),
    Let("gives", Make::Turner(Sort::Region, "byte", "alias")),
    Let("given", Make::Turner(Sort::Region, "byte", "wide")),
];

/// An alias is a subtype of what its type is a subtype of: what outlives what is recorded, as for the type.
#[test]
fn an_alias_is_a_subtype_by_its_type(rt: HostRuntime) {
    const NORMS: &[Norm] = &[
        Norm(&[], "byte", "long", None),
        Norm(&[], "word", "long", None),
    ];
    const ASKED: &[Asked] = &[
        Goal(Subtype("alias", "long"), Is(YES, HasChanged::No)),
        Constraints(0),
        Goal(Subtype("alias", "short"), Is(YES, HasChanged::No)),
        Constraints(1),
        Goal(Subtype("alias", "other"), Is(YES, HasChanged::No)),
        Goal(Subtype("one", "two"), Is(YES, HasChanged::No)),
        Constraints(2),
        Goal(Subtype("short", "alias"), Is(YES, HasChanged::No)),
        Constraints(3),
        Goal(Subtype("alias", "wide"), Refused),
        Goal(Subtype("byte", "alias"), Refused),
        Goal(Subtype("alias", "x"), Is(YES, HasChanged::Yes)),
        Constructs("x"),
    ];
    const PARTS: &[Part] = &[Part(By::Aliases(NORMS), &[], ASKED)];
    plays(&rt, rt.alloc(), TypingMode::PostAnalysis, LIVES, PARTS);
}

/// A rigid alias is a subtype of itself alone, and a variable becomes it.
#[test]
fn a_rigid_alias_is_a_subtype_of_itself(rt: HostRuntime) {
    const ASKED: &[Asked] = &[
        Goal(Subtype("alias", "alias"), Is(YES, HasChanged::No)),
        Goal(Subtype("alias", "other"), Refused),
        Goal(Subtype("alias", "byte"), Refused),
        Goal(Subtype("long", "alias"), Refused),
        Goal(Subtype("of_x", "alias"), Is(YES, HasChanged::Yes)),
        Resolves("x", "byte"),
        Constraints(0),
    ];
    const BECOMES: &[Asked] = &[
        Goal(Subtype("alias", "x"), Is(YES, HasChanged::Yes)),
        Resolves("x", "alias"),
    ];
    const PARTS: &[Part] = &[Part(By::Rigid, &[], ASKED)];
    const OTHERS: &[Part] = &[Part(By::Rigid, &[], BECOMES)];
    plays(&rt, rt.alloc(), TypingMode::PostAnalysis, LIVES, PARTS);
    plays(&rt, rt.alloc(), TypingMode::PostAnalysis, LIVES, OTHERS);
}

/// What a function takes varies the other way.
#[test]
fn an_alias_may_stand_deep_in_a_subtype(rt: HostRuntime) {
    const NORMS: &[Norm] = &[Norm(&[], "byte", "long", None)];
    const ASKED: &[Asked] = &[
        Goal(Subtype("deep", "lent"), Is(YES, HasChanged::No)),
        Constraints(2),
        Goal(Subtype("takes", "taken"), Is(YES, HasChanged::No)),
        Constraints(3),
        Goal(Subtype("gives", "given"), Refused),
        Goal(Subtype("lent", "deep"), Is(YES, HasChanged::No)),
        Constraints(5),
    ];
    const PARTS: &[Part] = &[Part(By::Aliases(NORMS), &[], ASKED)];
    plays(&rt, rt.alloc(), TypingMode::PostAnalysis, LIVES, PARTS);
}

/// Of an alias of a type that is not known yet nothing is known, and one that normalizes to nothing is no subtype.
#[test]
fn an_alias_of_a_variable_is_in_doubt_as_a_subtype(rt: HostRuntime) {
    const NORMS: &[Norm] = &[
        Norm(&[], "byte", "long", None),
        Norm(&[], "word", "hard", None),
    ];
    const ONE: &[Norm] = &[Norm(&[], "byte", "long", None)];
    const DOUBTED: &[Asked] = &[Goal(Subtype("of_x", "short"), Is(YES, HasChanged::Yes))];
    const OPEN: &[Asked] = &[
        Goal(Subtype("of_x", "x"), Is(DOUBT, HasChanged::No)),
        Constraints(0),
    ];
    const NOTHING: &[Asked] = &[Goal(Subtype("other", "byte"), Refused)];
    const FIRST: &[Part] = &[Part(By::Aliases(NORMS), &[], DOUBTED)];
    const SECOND: &[Part] = &[Part(By::Aliases(NORMS), &[], OPEN)];
    const THIRD: &[Part] = &[Part(By::Aliases(ONE), &[], NOTHING)];
    plays(&rt, rt.alloc(), TypingMode::PostAnalysis, LIVES, FIRST);
    plays(&rt, rt.alloc(), TypingMode::PostAnalysis, LIVES, SECOND);
    plays(&rt, rt.alloc(), TypingMode::PostAnalysis, LIVES, THIRD);
}
