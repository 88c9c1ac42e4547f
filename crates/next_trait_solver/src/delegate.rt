//! What offers the rules of traits.
pub use nts_assembly::{Assembly, AssumedProjections, Assumptions};
pub use nts_delegate::{
    Both, CandidateData, CandidateGoal, Clause, Clauses, Equation, EquationKind,
    FetchEligibleAssocItemResponse, GoalHandler, RegionConstraint,
};
pub use nts_leak_check::LeakChecked;
