//! Goals that a type or a region outlives a region: what is recorded, and what is left in doubt.
use crate::asking::Answer::{Is, MayHold};
use crate::asking::Asked::{self, Constraints, Goal};
use crate::asking::DOUBT;
use crate::asking::Wanted::Outlives;
use crate::steps::Given::Let;
use crate::steps::{By, Given, Part, plays};
use nts_certainty::{Certainty, HasChanged};
use nts_fixtures::{BYTE, Make, Type};
use nts_model::VariableKind;
use nts_terms::{RegionKind, TypingMode};

const YES: Certainty = Certainty::Yes;

/// Each answer is a constraint more in the table; whoever asks for a solution of the regions has them there. A goal that is only
/// tried leaves none.
#[test]
fn what_outlives_is_recorded(rt: HostRuntime) {
    const GIVEN: &[Given] = &[
        Let("static", Make::Region(RegionKind::ReStatic)),
        Let("byte", BYTE),
        Let("t", Make::Type(Type::Param(0))),
        Let("r", Make::Var(VariableKind::Region)),
        Let("x", Make::Var(VariableKind::Ty)),
    ];
    const ASKED: &[Asked] = &[
        Goal(Outlives("byte", "static"), MayHold(128, true, true)),
        Constraints(0),
        Goal(Outlives("byte", "static"), Is(YES, HasChanged::No)),
        Constraints(1),
        Goal(Outlives("t", "r"), Is(YES, HasChanged::No)),
        Constraints(2),
        Goal(Outlives("r", "static"), Is(YES, HasChanged::No)),
        Constraints(3),
        Goal(Outlives("x", "r"), Is(YES, HasChanged::No)),
        Constraints(4),
    ];
    const PARTS: &[Part] = &[Part(By::Clauses, &[], ASKED)];
    plays(&rt, rt.alloc(), TypingMode::Coherence, GIVEN, PARTS);
    plays(&rt, rt.alloc(), TypingMode::PostAnalysis, GIVEN, PARTS);
}

/// What an alias outlives follows from what it stands for, which isn't asked yet: that is in doubt, and nothing is recorded.
#[test]
fn what_an_alias_outlives_is_in_doubt(rt: HostRuntime) {
    const GIVEN: &[Given] = &[
        Let("static", Make::Region(RegionKind::ReStatic)),
        Let("byte", BYTE),
        Let("alias", Make::AliasOf("byte")),
    ];
    const ASKED: &[Asked] = &[
        Goal(Outlives("alias", "static"), Is(DOUBT, HasChanged::No)),
        Constraints(0),
    ];
    const PARTS: &[Part] = &[Part(By::Clauses, &[], ASKED)];
    plays(&rt, rt.alloc(), TypingMode::PostAnalysis, GIVEN, PARTS);
}
