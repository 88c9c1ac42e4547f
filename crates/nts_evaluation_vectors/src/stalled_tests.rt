//! Goals that stalled, asked again at the root.
use crate::asking::Answer::{AskedAgain, Is, Skipped, Stalls};
use crate::asking::Asked::{self, Goal, Joins};
use crate::asking::Wanted::Plain;
use crate::steps::Given::{Let, NoFastPaths};
use crate::steps::{By, Given, Of, Part, Rule, plays};
use nts_certainty::{Certainty, HasChanged};
use nts_fixtures::{BYTE, Make, WORD};
use nts_model::{Sort, VariableKind};
use nts_terms::TypingMode;

const VAR: Make = Make::Var(VariableKind::Ty);

const GIVEN: &[Given] = &[
    Given::Trait(&[Sort::Ty]),
    Let("byte", BYTE),
    Let("word", WORD),
    Let("other", VAR),
    Let("x", VAR),
];

const FACT: Rule = Rule(&[], Of(0, &["byte"]), None);

/// A trait that holds for two types.
const FACTS: &[Rule] = &[FACT, Rule(&[], Of(0, &["word"]), None)];

/// A goal that stalls, and what is kept of it waits for its variable.
const STALLS: Part = Part(By::Clauses, FACTS, &[Goal(Plain(Of(0, &["x"])), Stalls)]);

/// A goal is skipped as often as it is asked: without rules it would be refused, were it asked.
#[test]
fn a_goal_is_skipped_while_nothing_changes(rt: HostRuntime) {
    const AGAIN: &[Asked] = &[
        Goal(Plain(Of(0, &["x"])), Skipped),
        Goal(Plain(Of(0, &["x"])), Skipped),
    ];
    const PARTS: &[Part] = &[STALLS, Part(By::Clauses, &[], AGAIN)];
    plays(&rt, rt.alloc(), TypingMode::PostAnalysis, GIVEN, PARTS);
}

#[test]
fn without_short_cuts_it_is_asked(rt: HostRuntime) {
    const SLOWLY: &[Given] = &[
        NoFastPaths,
        Given::Trait(&[Sort::Ty]),
        Let("byte", BYTE),
        Let("word", WORD),
        Let("x", VAR),
    ];
    const AGAIN: &[Asked] = &[Goal(Plain(Of(0, &["x"])), AskedAgain)];
    const PARTS: &[Part] = &[STALLS, Part(By::Clauses, &[], AGAIN)];
    plays(&rt, rt.alloc(), TypingMode::PostAnalysis, SLOWLY, PARTS);
}

/// Another goal, for which there is one fact alone, gives the variable a value.
#[test]
fn once_its_variable_has_a_value_it_is_asked(rt: HostRuntime) {
    const OTHER: &[Given] = &[
        Given::Trait(&[Sort::Ty]),
        Given::Trait(&[Sort::Ty]),
        Let("byte", BYTE),
        Let("word", WORD),
        Let("x", VAR),
    ];
    const RULES: &[Rule] = &[
        FACT,
        Rule(&[], Of(0, &["word"]), None),
        Rule(&[], Of(1, &["byte"]), None),
    ];
    const ASKED: &[Asked] = &[
        Goal(Plain(Of(1, &["x"])), Is(Certainty::Yes, HasChanged::Yes)),
        Goal(Plain(Of(0, &["x"])), AskedAgain),
    ];
    const PARTS: &[Part] = &[STALLS, Part(By::Clauses, RULES, ASKED)];
    plays(&rt, rt.alloc(), TypingMode::PostAnalysis, OTHER, PARTS);
}

#[test]
fn once_its_sub_root_was_joined_it_is_asked(rt: HostRuntime) {
    const AGAIN: &[Asked] = &[Joins(0, 1), Goal(Plain(Of(0, &["x"])), AskedAgain)];
    const PARTS: &[Part] = &[STALLS, Part(By::Clauses, &[], AGAIN)];
    plays(&rt, rt.alloc(), TypingMode::PostAnalysis, GIVEN, PARTS);
}

#[test]
fn of_a_yes_nothing_is_kept(rt: HostRuntime) {
    const ASKED: &[Asked] = &[Goal(Plain(Of(0, &["byte"])), Is(Certainty::Yes, HasChanged::No))];
    const PARTS: &[Part] = &[Part(By::Clauses, FACTS, ASKED)];
    plays(&rt, rt.alloc(), TypingMode::PostAnalysis, GIVEN, PARTS);
}
