//! The evaluation of goals by the candidates of a handler.
#![tactic(auto)]

mod evaluate;
mod root;
mod solve;

pub use evaluate::try_evaluate_goals;
pub use nts_asking;
pub use nts_asking::GoalStalledOn;
pub use nts_meaning;
pub use nts_meaning::{nts_answering, nts_applying};
pub use nts_search;
pub use nts_trying;
pub use root::evaluate_input;
pub use solve::{GoalEvaluation, evaluate_root, evaluate_root_goal, goal_is_admitted};
