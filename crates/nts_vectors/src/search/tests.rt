//! Steps and first answers, case by case.
use crate::search::fixture::input_of;
use nts_certainty::{Certainty, GoalSource, PathKind};
use nts_response::CanonicalResponse;
use nts_search::{CurrentGoalKind, initial_provisional_result, step_kind_for_source};
use nts_terms::{Cx, TypingMode};
use std::process::Abort;

#[test]
fn a_condition_counts_as_its_goal_does(rt: HostRuntime) {
    let source = GoalSource::ImplWhereBound;
    let of_trait = step_kind_for_source(CurrentGoalKind::CoinductiveTrait, source);
    assert!(rt; of_trait == PathKind::Coinductive);
    let of_alias = step_kind_for_source(CurrentGoalKind::NormalizesTo, source);
    assert!(rt; of_alias == PathKind::Inductive);
    let of_other = step_kind_for_source(CurrentGoalKind::Misc, source);
    assert!(rt; of_other == PathKind::Unknown);
}

#[test]
fn other_sources_count_alike_below_each_goal(rt: HostRuntime) {
    let kind = CurrentGoalKind::CoinductiveTrait;
    assert!(rt; step_kind_for_source(kind, GoalSource::TypeRelating) == PathKind::Inductive);
    assert!(rt; step_kind_for_source(kind, GoalSource::Misc) == PathKind::Unknown);
    assert!(rt; step_kind_for_source(kind, GoalSource::AliasWellFormed) == PathKind::Unknown);
    let condition = GoalSource::AliasBoundConstCondition;
    assert!(rt; step_kind_for_source(kind, condition) == PathKind::Unknown);
    let normalizing = GoalSource::NormalizeGoal(PathKind::Inductive);
    assert!(rt; step_kind_for_source(kind, normalizing) == PathKind::Inductive);
    let forced = GoalSource::NormalizeGoal(PathKind::ForcedAmbiguity);
    assert!(rt; step_kind_for_source(kind, forced) == PathKind::ForcedAmbiguity);
}

#[test]
fn a_coinductive_cycle_holds_at_first(rt: HostRuntime) {
    let mut cx = Cx::new(rt.alloc());
    let input = input_of(&mut cx, &rt, &[], TypingMode::Coherence);
    let first = initial_provisional_result(&mut cx, PathKind::Coinductive, &input);
    let response = first.expect(&rt, "memory").expect(&rt, "an answer");
    see_a_yes(&rt, &response);
}

fn see_a_yes(rt: &impl Abort, response: &CanonicalResponse) {
    assert!(rt; response.value.certainty == Certainty::Yes);
    assert!(rt; response.value.var_values.len() == 1);
    assert!(rt; response.value.external_constraints.is_empty());
}

#[test]
fn an_inductive_cycle_is_refuted_where_nothing_is_added(rt: HostRuntime) {
    let mut cx = Cx::new(rt.alloc());
    let input = input_of(&mut cx, &rt, &[], TypingMode::PostAnalysis);
    let first = initial_provisional_result(&mut cx, PathKind::Inductive, &input);
    assert!(rt; first.expect(&rt, "memory").is_none());
}

#[test]
fn an_unknown_cycle_is_a_doubt(rt: HostRuntime) {
    let mut cx = Cx::new(rt.alloc());
    let input = input_of(&mut cx, &rt, &[], TypingMode::PostAnalysis);
    let first = initial_provisional_result(&mut cx, PathKind::Unknown, &input);
    let response = first.expect(&rt, "memory").expect(&rt, "an answer");
    assert!(rt; response.value.certainty == Certainty::overflow(false));
}

#[test]
fn an_inductive_cycle_is_a_doubt_in_coherence(rt: HostRuntime) {
    let mut cx = Cx::new(rt.alloc());
    let input = input_of(&mut cx, &rt, &[], TypingMode::Coherence);
    let first = initial_provisional_result(&mut cx, PathKind::Inductive, &input);
    let response = first.expect(&rt, "memory").expect(&rt, "an answer");
    assert!(rt; response.value.certainty == Certainty::overflow(false));
}
