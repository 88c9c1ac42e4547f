//! Whether a goal may hold, asked without a trace in the table.
#![tactic(auto)]

mod may_hold;

pub use may_hold::{root_goal_may_hold_opaque_types_jank, root_goal_may_hold_with_depth};
