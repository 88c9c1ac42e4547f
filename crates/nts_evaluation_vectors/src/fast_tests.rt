//! Goals that are answered at once.
use crate::asking::Answer::Is;
use crate::asking::Asked::{self, Goal};
use crate::asking::Wanted::Plain;
use crate::asking::{DOUBT, TOO_DEEP};
use crate::steps::Condition::Holds;
use crate::steps::Given::{Depth, Let, NoFastPaths, Trait};
use crate::steps::{By, Given, Of, Part, Rule, plays};
use nts_certainty::{Certainty, HasChanged};
use nts_fixtures::{BYTE, Make, Type};
use nts_model::{Sort, VariableKind};
use nts_terms::TypingMode;

const YES: Certainty = Certainty::Yes;

/// The second trait holds of what the first one does, which is answered at once.
const RULES: &[Rule] = &[Rule(
    &[Sort::Ty],
    Of(1, &["position"]),
    Some(Holds(Of(0, &["position"]))),
)];

/// A goal that is answered at once is not asked, so it needs no depth. Where the store has no fast paths it is nested too deep.
#[test]
fn what_is_answered_at_once_needs_no_depth(rt: HostRuntime) {
    const FAST: &[Given] = &[
        Trait(&[Sort::Ty]),
        Trait(&[Sort::Ty]),
        Let("position", Make::Type(Type::Position(0))),
        Let("byte", BYTE),
        Depth(0),
    ];
    const SLOW: &[Given] = &[
        NoFastPaths,
        Trait(&[Sort::Ty]),
        Trait(&[Sort::Ty]),
        Let("position", Make::Type(Type::Position(0))),
        Let("byte", BYTE),
        Depth(0),
    ];
    const AT_ONCE: &[Asked] = &[Goal(Plain(Of(1, &["byte"])), Is(YES, HasChanged::No))];
    const DEEP: &[Asked] = &[Goal(Plain(Of(1, &["byte"])), Is(TOO_DEEP, HasChanged::No))];
    const PARTS: &[Part] = &[Part(By::AtOnce, RULES, AT_ONCE)];
    const NONE: &[Part] = &[Part(By::AtOnce, RULES, DEEP)];
    plays(&rt, rt.alloc(), TypingMode::Coherence, FAST, PARTS);
    plays(&rt, rt.alloc(), TypingMode::PostAnalysis, FAST, PARTS);
    plays(&rt, rt.alloc(), TypingMode::PostAnalysis, SLOW, NONE);
}

/// A goal that a fast path leaves in doubt waits for its variable; without fast paths the rules are asked. At the root they are
/// asked in any case.
#[test]
fn what_is_in_doubt_at_once_waits(rt: HostRuntime) {
    const FAST: &[Given] = &[
        Trait(&[Sort::Ty]),
        Trait(&[Sort::Ty]),
        Let("position", Make::Type(Type::Position(0))),
        Let("x", Make::Var(VariableKind::Ty)),
    ];
    const SLOW: &[Given] = &[
        NoFastPaths,
        Trait(&[Sort::Ty]),
        Trait(&[Sort::Ty]),
        Let("position", Make::Type(Type::Position(0))),
        Let("x", Make::Var(VariableKind::Ty)),
    ];
    const WAITS: &[Asked] = &[
        Goal(Plain(Of(1, &["x"])), Is(DOUBT, HasChanged::No)),
        Goal(Plain(Of(0, &["x"])), Is(YES, HasChanged::No)),
    ];
    const HOLDS: &[Asked] = &[Goal(Plain(Of(1, &["x"])), Is(YES, HasChanged::No))];
    const PARTS: &[Part] = &[Part(By::AtOnce, RULES, WAITS)];
    const RUNS: &[Part] = &[Part(By::AtOnce, RULES, HOLDS)];
    plays(&rt, rt.alloc(), TypingMode::Coherence, FAST, PARTS);
    plays(&rt, rt.alloc(), TypingMode::PostAnalysis, SLOW, RUNS);
}
