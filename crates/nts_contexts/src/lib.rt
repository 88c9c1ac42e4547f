//! The context in which rules are written: goals are added to it, values are related in it, and what it does can be
//! tried out.
#![tactic(auto, using(crate::proofs::Frames::keeps_then))]

mod context;
mod evaluating;
mod goals;
mod modes;
mod normalizing;
mod relating;
mod rigid;
mod unconstrained;

pub use context::EvalCtxt;
pub use nts_nested_goals::EvalState;
pub use nts_solver_relating;
