//! The clauses of a goal's environment as rules, before the rules of another handler.
#![tactic(auto)]

mod assembly;
mod assumptions;
mod projections;

pub use assembly::Assembly;
pub use assumptions::Assumptions;
pub use projections::AssumedProjections;
