//! Goals of the kinds that the engine answers by itself, and by what the handler judges.
use crate::asking::Answer::{Is, Refused};
use crate::asking::Asked::{self, Goal};
use crate::asking::DOUBT;
use crate::asking::Wanted::Says;
use crate::own::Konst::{Error, Named, Unevaluated, Value};
use crate::own::Own::{Evaluatable, Feature, HasType, HostEffect, Objects, WellFormed};
use crate::steps::Given::{Const, Let, Trait, Universe};
use crate::steps::{By, Given, Of, Part, plays};
use nts_certainty::{Certainty, HasChanged};
use nts_fixtures::{BYTE, Make, WORD};
use nts_model::{Sort, VariableKind};
use nts_terms::TypingMode;

const YES: Certainty = Certainty::Yes;

/// A value has the type that its own type can be equated with: so a variable comes to stand for that. An error has each type, an
/// alias too. Of a parameter, a placeholder or a const that is not evaluated nothing is known, nor of a value where the type is an alias.
#[test]
fn the_type_of_a_const(rt: HostRuntime) {
    const GIVEN: &[Given] = &[
        Let("byte", BYTE),
        Let("word", WORD),
        Let("x", Make::Var(VariableKind::Ty)),
        Let("n", Make::ConstParam(0)),
        Universe,
        Let("p", Make::ConstPlaceholder(1, 0)),
        Const("byte"),
        Let("alias", Make::AliasOf("byte")),
    ];
    const ASKED: &[Asked] = &[
        Goal(
            Says(HasType(Value("byte", 3), "byte")),
            Is(YES, HasChanged::No),
        ),
        Goal(Says(HasType(Value("byte", 3), "word")), Refused),
        Goal(Says(HasType(Error, "word")), Is(YES, HasChanged::No)),
        Goal(Says(HasType(Error, "alias")), Is(YES, HasChanged::No)),
        Goal(
            Says(HasType(Value("byte", 3), "alias")),
            Is(DOUBT, HasChanged::No),
        ),
        Goal(Says(HasType(Named("n"), "byte")), Is(DOUBT, HasChanged::No)),
        Goal(Says(HasType(Named("p"), "byte")), Is(DOUBT, HasChanged::No)),
        Goal(
            Says(HasType(Unevaluated(0), "byte")),
            Is(DOUBT, HasChanged::No),
        ),
        Goal(
            Says(HasType(Value("byte", 3), "x")),
            Is(YES, HasChanged::Yes),
        ),
        Asked::Resolves("x", "byte"),
    ];
    const PARTS: &[Part] = &[Part(By::Clauses, &[], ASKED)];
    plays(&rt, rt.alloc(), TypingMode::Coherence, GIVEN, PARTS);
    plays(&rt, rt.alloc(), TypingMode::PostAnalysis, GIVEN, PARTS);
}

/// What is a value, a parameter, a placeholder or an error can be evaluated, and so can what the handler evaluates. Of a variable, and
/// of what it does not, nothing is known.
#[test]
fn what_can_be_evaluated(rt: HostRuntime) {
    const GIVEN: &[Given] = &[
        Let("byte", BYTE),
        Let("n", Make::ConstParam(0)),
        Let("c", Make::Var(VariableKind::Const)),
        Universe,
        Let("p", Make::ConstPlaceholder(1, 0)),
        Const("byte"),
        Const("byte"),
    ];
    const ASKED: &[Asked] = &[
        Goal(Says(Evaluatable(Value("byte", 3))), Is(YES, HasChanged::No)),
        Goal(Says(Evaluatable(Named("n"))), Is(YES, HasChanged::No)),
        Goal(Says(Evaluatable(Named("p"))), Is(YES, HasChanged::No)),
        Goal(Says(Evaluatable(Error)), Is(YES, HasChanged::No)),
        Goal(Says(Evaluatable(Named("c"))), Is(DOUBT, HasChanged::No)),
        Goal(Says(Evaluatable(Unevaluated(0))), Is(DOUBT, HasChanged::No)),
    ];
    const EVALUATES: &[Asked] = &[
        Goal(Says(Evaluatable(Unevaluated(0))), Is(YES, HasChanged::No)),
        Goal(Says(Evaluatable(Unevaluated(1))), Is(DOUBT, HasChanged::No)),
    ];
    const PARTS: &[Part] = &[
        Part(By::Clauses, &[], ASKED),
        Part(By::Judge(7), &[], EVALUATES),
    ];
    plays(&rt, rt.alloc(), TypingMode::Coherence, GIVEN, PARTS);
}

/// By a list of clauses objects can be made of each trait, and nothing else is judged. By a trait that holds of everything they can
/// be made of none.
#[test]
fn what_rules_judge(rt: HostRuntime) {
    const GIVEN: &[Given] = &[Let("byte", BYTE), Trait(&[Sort::Ty])];
    const CLAUSES: &[Asked] = &[
        Goal(Says(Objects(Of(0, &["byte"]))), Is(YES, HasChanged::No)),
        Goal(Says(Feature(7)), Is(DOUBT, HasChanged::No)),
        Goal(Says(WellFormed("byte")), Is(DOUBT, HasChanged::No)),
        Goal(Says(HostEffect(Of(0, &["byte"]))), Refused),
    ];
    const MARKER: &[Asked] = &[Goal(Says(Objects(Of(0, &["byte"]))), Refused)];
    const PARTS: &[Part] = &[
        Part(By::Clauses, &[], CLAUSES),
        Part(By::Marker(YES), &[], MARKER),
    ];
    plays(&rt, rt.alloc(), TypingMode::Coherence, GIVEN, PARTS);
    plays(&rt, rt.alloc(), TypingMode::PostAnalysis, GIVEN, PARTS);
}

/// A handler that judges: of one trait objects can be made, and of another one not; it allows one feature, and of others nothing is
/// known; and a type is well formed where the feature is allowed that it needs.
#[test]
fn what_a_handler_judges(rt: HostRuntime) {
    const GIVEN: &[Given] = &[
        Let("byte", BYTE),
        Let("wrapped", Make::Wrap("byte")),
        Trait(&[Sort::Ty]),
        Trait(&[]),
    ];
    const ALLOWED: &[Asked] = &[
        Goal(Says(Objects(Of(0, &["byte"]))), Is(YES, HasChanged::No)),
        Goal(Says(Objects(Of(1, &[]))), Refused),
        Goal(Says(Feature(7)), Is(YES, HasChanged::No)),
        Goal(Says(Feature(8)), Is(DOUBT, HasChanged::No)),
        Goal(Says(WellFormed("wrapped")), Is(YES, HasChanged::No)),
        Goal(Says(WellFormed("byte")), Is(DOUBT, HasChanged::No)),
    ];
    const NOT_ALLOWED: &[Asked] = &[Goal(Says(WellFormed("wrapped")), Is(DOUBT, HasChanged::No))];
    const PARTS: &[Part] = &[
        Part(By::Judge(7), &[], ALLOWED),
        Part(By::Judge(8), &[], NOT_ALLOWED),
    ];
    plays(&rt, rt.alloc(), TypingMode::PostAnalysis, GIVEN, PARTS);
}
