//! What a context keeps of its own, and what is added to its goals: what stands for goals, and for what relating values leaves. No
//! goal is asked here, so that it does not wait for the evaluation.
#![tactic(auto)]

mod adding;
mod normalizing;
mod relating;
mod rigid;
mod state;
mod unconstrained;

pub use adding::add_all;
pub use normalizing::{add_equal, resolved};
pub use relating::relate_and_push;
pub use rigid::relate_rigid_and_push;
pub use state::EvalState;
pub use unconstrained::is_fully_unconstrained;
