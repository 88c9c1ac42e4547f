//! Goals asked of the library: what is answered, and what the table has afterwards.
use crate::asking::Answer::{Is, MayHold, NotAdmitted, Refused};
use crate::asking::Asked::{self, Constructs, Goal, Resolves, Variables};
use crate::asking::DOUBT;
use crate::asking::Wanted::{Assumed, EachRegion, Plain};
use crate::steps::Condition::Holds;
use crate::steps::Given::{Let, Universe};
use crate::steps::{By, Given, Of, Part, Rule, plays};
use nts_certainty::{Certainty, HasChanged, MaybeCause, MaybeInfo, OpaqueTypesJank};
use nts_delegate::{Clauses, GoalHandler};
use nts_fixtures::{BYTE, Make, Type, WORD};
use nts_model::{BoundVarIndexKind, Sort, VariableKind};
use nts_terms::{BoundRegion, RegionKind, TraitId, TypingMode};

const ANY: Make = Make::Type(Type::Position(0));

const VAR: Make = Make::Var(VariableKind::Ty);

const YES: Certainty = Certainty::Yes;

/// Two types.
const TWO: &[Sort] = &[Sort::Ty, Sort::Ty];
/// One type.
const ONE: &[Sort] = &[Sort::Ty];

/// A trait that holds between each type and itself.
const SAME: &[Rule] = &[Rule(ONE, Of(0, &["any", "any"]), None)];

#[test]
fn two_variables_become_one(rt: HostRuntime) {
    const GIVEN: &[Given] = &[
        Given::Trait(TWO),
        Let("any", ANY),
        Let("x", VAR),
        Let("y", VAR),
    ];
    const ASKED: &[Asked] = &[
        Goal(Plain(Of(0, &["x", "y"])), Is(YES, HasChanged::Yes)),
        Goal(Plain(Of(0, &["x", "y"])), Is(YES, HasChanged::No)),
    ];
    const PARTS: &[Part] = &[Part(By::Clauses, SAME, ASKED)];
    plays(&rt, rt.alloc(), TypingMode::Coherence, GIVEN, PARTS);
}

/// The query itself holds, but the variable cannot name what it would be.
#[test]
fn a_placeholder_that_the_variable_cannot_name(rt: HostRuntime) {
    const GIVEN: &[Given] = &[
        Given::Trait(TWO),
        Let("any", ANY),
        Let("x", VAR),
        Universe,
        Let("p", Make::Type(Type::Placeholder(1, 0))),
    ];
    const ASKED: &[Asked] = &[
        Goal(Plain(Of(0, &["x", "p"])), MayHold(128, false, false)),
        Goal(Plain(Of(0, &["x", "p"])), Refused),
        Variables(1),
    ];
    const PARTS: &[Part] = &[Part(By::Clauses, SAME, ASKED)];
    plays(&rt, rt.alloc(), TypingMode::Coherence, GIVEN, PARTS);
}

/// An open variable is its root, and a position of a rule is in no goal.
#[test]
fn what_is_asked_is_of_the_table(rt: HostRuntime) {
    const GIVEN: &[Given] = &[Given::Trait(ONE), Let("any", ANY), Let("x", VAR)];
    const ASKED: &[Asked] = &[
        Resolves("x", "x"),
        Goal(Plain(Of(0, &["any"])), NotAdmitted),
    ];
    const PARTS: &[Part] = &[Part(By::Clauses, &[], ASKED)];
    plays(&rt, rt.alloc(), TypingMode::PostAnalysis, GIVEN, PARTS);
}

/// Whether a type holds for two types isn't known, but whatever it holds for is constructed: the value is left, and the doubt.
#[test]
fn what_holds_of_each_solution_is_left(rt: HostRuntime) {
    const GIVEN: &[Given] = &[
        Given::Trait(ONE),
        Given::Trait(ONE),
        Let("byte", BYTE),
        Let("word", WORD),
        Let("any", ANY),
        Let("over", Make::Wrap("any")),
        Let("x", VAR),
    ];
    const RULES: &[Rule] = &[
        Rule(&[], Of(1, &["byte"]), None),
        Rule(&[], Of(1, &["word"]), None),
        Rule(ONE, Of(0, &["over"]), Some(Holds(Of(1, &["any"])))),
    ];
    const ASKED: &[Asked] = &[
        Goal(Plain(Of(0, &["x"])), Is(DOUBT, HasChanged::Yes)),
        Constructs("x"),
        Goal(Plain(Of(0, &["x"])), Is(DOUBT, HasChanged::No)),
    ];
    const PARTS: &[Part] = &[Part(By::Clauses, RULES, ASKED)];
    plays(&rt, rt.alloc(), TypingMode::Coherence, GIVEN, PARTS);
}

/// What is assumed of a parameter holds by an assembly, and not by the clauses alone, which take no notice of it.
#[test]
fn what_is_assumed_holds(rt: HostRuntime) {
    const GIVEN: &[Given] = &[Given::Trait(ONE), Let("t", Make::Type(Type::Param(0)))];
    const IGNORED: &[Asked] = &[Goal(Assumed(Of(0, &["t"])), Refused)];
    const ASKED: &[Asked] = &[
        Goal(Assumed(Of(0, &["t"])), Is(YES, HasChanged::No)),
        Goal(Plain(Of(0, &["t"])), Refused),
    ];
    const PARTS: &[Part] = &[
        Part(By::Clauses, &[], IGNORED),
        Part(By::Assembly, &[], ASKED),
    ];
    plays(&rt, rt.alloc(), TypingMode::PostAnalysis, GIVEN, PARTS);
}

/// That a trait holds for each region does not follow from `impl T('static)`, where leaks are looked for. Without that it may:
/// the equality of the two regions is left to who asked. A region that the caller leaves open may be `'static`.
#[test]
fn not_each_region_is_static(rt: HostRuntime) {
    const BOUND: RegionKind = RegionKind::ReBound(
        BoundVarIndexKind::Bound(0),
        BoundRegion { var: 0 },
    );
    const GIVEN: &[Given] = &[
        Given::Trait(&[Sort::Region]),
        Let("static", Make::Region(RegionKind::ReStatic)),
        Let("bound", Make::Region(BOUND)),
        Let("open", Make::Var(VariableKind::Region)),
    ];
    const RULES: &[Rule] = &[Rule(&[], Of(0, &["static"]), None)];
    const PLAIN: &[Asked] = &[Goal(EachRegion(Of(0, &["bound"])), MayHold(128, true, true))];
    const CHECKED: &[Asked] = &[
        Goal(EachRegion(Of(0, &["bound"])), MayHold(128, false, false)),
        Goal(Plain(Of(0, &["open"])), MayHold(128, true, true)),
    ];
    const PARTS: &[Part] = &[
        Part(By::Clauses, RULES, PLAIN),
        Part(By::LeakChecked, RULES, CHECKED),
    ];
    plays(&rt, rt.alloc(), TypingMode::Coherence, GIVEN, PARTS);
}

/// A fact may hold. Without one no candidate is offered, so no depth helps. A doubt is no refusal: two facts stand for a variable.
#[test]
fn what_may_hold(rt: HostRuntime) {
    const GIVEN: &[Given] = &[
        Given::Trait(ONE),
        Let("byte", BYTE),
        Let("word", WORD),
        Let("x", VAR),
    ];
    const FACTS: &[Rule] = &[
        Rule(&[], Of(0, &["byte"]), None),
        Rule(&[], Of(0, &["word"]), None),
    ];
    const ASKED: &[Asked] = &[
        Goal(Plain(Of(0, &["word"])), MayHold(128, true, true)),
        Goal(Plain(Of(0, &["x"])), MayHold(0, true, true)),
        Variables(1),
    ];
    const NOTHING: &[Asked] = &[Goal(Plain(Of(0, &["word"])), MayHold(128, false, false))];
    const PARTS: &[Part] = &[
        Part(By::Clauses, FACTS, ASKED),
        Part(By::Clauses, &[], NOTHING),
    ];
    plays(&rt, rt.alloc(), TypingMode::Coherence, GIVEN, PARTS);
}

/// A candidate that is in doubt for an opaque type is no refusal, but the second call takes it for one.
#[test]
fn what_may_be_an_error_for_an_opaque_type(rt: HostRuntime) {
    const GIVEN: &[Given] = &[Given::Trait(ONE), Let("byte", BYTE)];
    const JANK: MaybeInfo = MaybeInfo {
        cause: MaybeCause::Ambiguity,
        opaque_types_jank: OpaqueTypesJank::ErrorIfRigidSelfTy,
    };
    const ASKED: &[Asked] = &[Goal(Plain(Of(0, &["byte"])), MayHold(128, true, false))];
    const PARTS: &[Part] = &[Part(By::Marker(Certainty::Maybe(JANK)), &[], ASKED)];
    plays(&rt, rt.alloc(), TypingMode::PostAnalysis, GIVEN, PARTS);
}

const BYTES: &[Given] = &[Given::Trait(ONE), Let("byte", BYTE)];

/// A goal that asks for itself by an inductive step is a cycle. In coherence that is in doubt: what is refused there has no proof,
/// and of a cycle that isn't known.
#[test]
fn an_inductive_cycle_may_hold_in_coherence(rt: HostRuntime) {
    const ASKED: &[Asked] = &[Goal(Plain(Of(0, &["byte"])), MayHold(128, true, true))];
    const PARTS: &[Part] = &[Part(By::Circular, &[], ASKED)];
    plays(&rt, rt.alloc(), TypingMode::Coherence, BYTES, PARTS);
}

/// Elsewhere it has no solution.
#[test]
fn an_inductive_cycle_does_not_hold_elsewhere(rt: HostRuntime) {
    const ASKED: &[Asked] = &[Goal(Plain(Of(0, &["byte"])), MayHold(128, false, false))];
    const PARTS: &[Part] = &[Part(By::Circular, &[], ASKED)];
    plays(&rt, rt.alloc(), TypingMode::PostAnalysis, BYTES, PARTS);
}

#[test]
fn coinductive_traits(rt: HostRuntime) {
    let mut handler = Clauses::new(rt.alloc());
    let send = TraitId { number: 3 };
    assert!(rt; !handler.trait_is_coinductive(send));
    handler.set_coinductive(send).expect(&rt, "memory");
    assert!(rt; handler.trait_is_coinductive(send));
    assert!(rt; !handler.trait_is_coinductive(TraitId { number: 2 }));
}
