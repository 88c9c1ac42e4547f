//! Candidates as data: what a handler offers, what it may name, and why one does not serve.
#![tactic(auto)]

mod data;
mod leaves;
mod reasons;

pub use data::{CandidateData, CandidateGoal, Equation, EquationKind, RegionConstraint};
pub use leaves::{is_foreign_leaf_of, names_fresh};
pub use nts_certainty;
pub use reasons::Reason;
