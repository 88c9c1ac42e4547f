//! The recursion over nested goals. Its functions stand on the stack once for each goal above, so what
//! they call and is not of the recursion is kept out of their frames, by `inline(never)`, and what is large stands behind boxes.

mod candidates;
mod equated;
mod queries;
mod rows;
mod steps;

pub(crate) use queries::{evaluate_goal, search};
pub use steps::try_evaluate_goals;
