//! Ladders: a type of 60 levels has its lowest type 2^60 times, and the store has it once.
use crate::steps::Seen::{Originals, Positions};
use crate::steps::Step::{Equates, GivesBack, Holds, Input, Is, Let, NoEnv, Of, Resolves, Trait};
use crate::steps::{Step, plays};
use nts_fixtures::Make::{Ladder, Var};
use nts_fixtures::WORD;
use nts_model::Sort;
use nts_model::VariableKind::Ty;

#[test]
fn resolves_a_ladder(rt: HostRuntime) {
    const STEPS: &[Step] = &[
        Let("hole", Var(Ty)),
        Let("word", WORD),
        Let("open", Ladder("hole", 60)),
        Equates("hole", "word"),
        Let("wanted", Ladder("word", 60)),
        Is("open", "wanted", false),
        Resolves("open", "wanted"),
    ];
    plays(&rt, rt.alloc(), STEPS);
}

/// Its one variable is the one position of the input, and what is put there stands below all levels.
#[test]
fn instantiates_a_ladder(rt: HostRuntime) {
    const STEPS: &[Step] = &[
        Trait(&[Sort::Ty]),
        Let("hole", Var(Ty)),
        Let("open", Ladder("hole", 60)),
        Holds("goal", 0, &["open"]),
        Input("input", "goal"),
        Of("input", Originals(&["hole"])),
        Of("input", Positions(1)),
        NoEnv("env"),
        GivesBack("env", "goal"),
    ];
    plays(&rt, rt.alloc(), STEPS);
}
