//! Handlers of one page: a trait that holds of everything, whatever its arguments are, or of which that is not known; one that
//! holds where it holds; one without rules, that judges; and one that is answered at once. They are models for handlers of one's own, which are put beside a list
//! of clauses by `Both`.
#![tactic(auto)]

mod at_once;
mod circular;
mod judge;
mod marker;

pub use at_once::AtOnce;
pub use circular::Circular;
pub use judge::Judge;
pub use marker::Marker;
