//! The evaluation of goals, the contexts in which rules are written, and what steps and cycles count as.
pub use nts_certainty::{
    AccessedOpaques, Certainty, GoalSource, HasChanged, MaybeCause, MaybeInfo, OpaqueTypesJank,
    PathKind, RerunCondition, RerunDecision, opaque_type_is_rigid,
    should_rerun_after_erased_canonicalization,
};
pub use nts_contexts::{EvalCtxt, EvalState};
pub use nts_explaining::nts_asking::is_still_stalled;
pub use nts_explaining::nts_evaluation::{
    GoalEvaluation, GoalStalledOn, evaluate_root_goal, goal_is_admitted,
};
pub use nts_may_hold::{root_goal_may_hold_opaque_types_jank, root_goal_may_hold_with_depth};
pub use nts_search::{
    CurrentGoalKind, MergeCandidateInfo, bail_with_ambiguity, flounder, initial_provisional_result,
    step_kind_for_source, try_merge_candidates,
};
pub use nts_terms::{TypingMode, VisibleForLeakCheck};
