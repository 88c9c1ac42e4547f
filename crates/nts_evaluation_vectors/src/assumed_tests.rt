//! What is assumed of aliases.
use crate::aliases::Aliased::{Equal, Projects};
use crate::asking::Answer::{Is, Refused};
use crate::asking::Asked::{self, Constraints, Goal, Resolves};
use crate::asking::DOUBT;
use crate::asking::Wanted::{Alias, AliasWhereIs, OutlivesWhereIs, Plain, WhereIs};
use crate::steps::Given::{self, Let, Trait};
use crate::steps::{By, Of, Part, Rule, plays};
use nts_certainty::{Certainty, HasChanged};
use nts_fixtures::{BYTE, Make, WORD};
use nts_model::{Sort, VariableKind};
use nts_terms::TypingMode;

const YES: Certainty = Certainty::Yes;

const GIVEN: &[Given] = &[
    Trait(&[Sort::Ty]),
    Let("byte", BYTE),
    Let("word", WORD),
    Let("alias", Make::AliasOf("byte")),
    Let("other", Make::AliasOf("word")),
    Let("r", Make::Var(VariableKind::Region)),
    Let("x", Make::Var(VariableKind::Ty)),
];

const RULES: &[Rule] = &[Rule(&[], Of(0, &["word"]), None)];

/// What an alias is assumed to be it is by an assembly, and no other alias is. Clauses alone take no notice of it.
#[test]
fn what_an_alias_is_assumed_to_be_it_is(rt: HostRuntime) {
    const IGNORED: &[Asked] = &[Goal(WhereIs("byte", "word", Of(0, &["alias"])), Refused)];
    const ASKED: &[Asked] = &[
        Goal(
            WhereIs("byte", "word", Of(0, &["alias"])),
            Is(YES, HasChanged::No),
        ),
        Goal(WhereIs("byte", "word", Of(0, &["other"])), Refused),
        Goal(WhereIs("byte", "byte", Of(0, &["alias"])), Refused),
        Goal(
            WhereIs("byte", "word", Of(0, &["word"])),
            Is(YES, HasChanged::No),
        ),
        Goal(Plain(Of(0, &["alias"])), Refused),
    ];
    const PARTS: &[Part] = &[
        Part(By::Clauses, RULES, IGNORED),
        Part(By::Assembly, RULES, ASKED),
    ];
    plays(&rt, rt.alloc(), TypingMode::PostAnalysis, GIVEN, PARTS);
}

/// In coherence an alias is equal to what it is assumed to be, and to nothing else. Clauses alone take no notice of it.
#[test]
fn what_an_alias_is_assumed_to_be_it_is_in_coherence(rt: HostRuntime) {
    const IGNORED: &[Asked] = &[Goal(
        AliasWhereIs("byte", "word", Projects("byte", "word")),
        Refused,
    )];
    const ASKED: &[Asked] = &[
        Goal(
            AliasWhereIs("byte", "word", Projects("byte", "word")),
            Is(YES, HasChanged::No),
        ),
        Goal(
            AliasWhereIs("byte", "word", Projects("byte", "byte")),
            Refused,
        ),
        Goal(
            AliasWhereIs("byte", "word", Projects("word", "word")),
            Refused,
        ),
        Goal(
            AliasWhereIs("byte", "word", Equal("alias", "word")),
            Is(YES, HasChanged::No),
        ),
        Goal(
            AliasWhereIs("byte", "word", Equal("alias", "byte")),
            Refused,
        ),
        Goal(Alias(Equal("alias", "word")), Refused),
        Goal(
            AliasWhereIs("byte", "word", Projects("byte", "x")),
            Is(YES, HasChanged::Yes),
        ),
        Resolves("x", "word"),
    ];
    const PARTS: &[Part] = &[
        Part(By::Clauses, &[], IGNORED),
        Part(By::Assembly, &[], ASKED),
    ];
    plays(&rt, rt.alloc(), TypingMode::Coherence, GIVEN, PARTS);
}

/// In coherence a trait holds of an alias by what the alias is assumed to be. Goals without aliases are answered likewise, and so is what
/// an alias is that is assumed to be an alias.
#[test]
fn traits_of_aliases_are_answered_in_coherence(rt: HostRuntime) {
    const ASKED: &[Asked] = &[
        Goal(
            WhereIs("byte", "word", Of(0, &["alias"])),
            Is(YES, HasChanged::No),
        ),
        Goal(
            AliasWhereIs("byte", "other", Projects("byte", "word")),
            Refused,
        ),
        Goal(WhereIs("byte", "word", Of(0, &["byte"])), Refused),
        Goal(
            WhereIs("byte", "word", Of(0, &["word"])),
            Is(YES, HasChanged::No),
        ),
    ];
    const PARTS: &[Part] = &[Part(By::Assembly, RULES, ASKED)];
    plays(&rt, rt.alloc(), TypingMode::Coherence, GIVEN, PARTS);
}

/// What outlives a region is recorded where aliases stand in the environment, and is in doubt where one stands in the goal.
#[test]
fn what_outlives_a_region_is_asked_beside_aliases(rt: HostRuntime) {
    const ASKED: &[Asked] = &[
        Goal(
            OutlivesWhereIs("word", "alias", "word", "r"),
            Is(YES, HasChanged::No),
        ),
        Constraints(1),
        Goal(
            OutlivesWhereIs("word", "alias", "alias", "r"),
            Is(DOUBT, HasChanged::No),
        ),
        Constraints(1),
    ];
    const PARTS: &[Part] = &[Part(By::Assembly, RULES, ASKED)];
    plays(&rt, rt.alloc(), TypingMode::PostAnalysis, GIVEN, PARTS);
}
