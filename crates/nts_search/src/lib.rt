//! The stack of goals that are being evaluated, what a cycle through them answers, and one response for those of several
//! candidates.
#![tactic(auto)]

mod floundering;
mod initial;
mod kinds;
mod merging;
mod rounds;
mod stack;
mod terms;

pub use floundering::{bail_with_ambiguity, flounder, join_doubts};
pub use initial::initial_provisional_result;
pub use kinds::{CurrentGoalKind, step_kind_for_source};
pub use merging::{MergeCandidateInfo, try_merge_candidates};
pub use rounds::round_is_last;
pub use stack::{SearchGraph, StackEntry};
pub use terms::GoalTerms;
