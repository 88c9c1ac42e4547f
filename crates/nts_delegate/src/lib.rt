//! What offers the rules of traits: the handler and its laws, and a handler that is a list of clauses.
#![tactic(auto)]

mod alias_offers;
mod alias_table;
mod both;
mod clause_fits;
mod clauses;
mod delegate;
mod head_index;
mod lent;
mod norm_clauses;
mod offer;

pub use alias_table::NormClause;
pub use both::Both;
pub use clauses::{Clause, Clauses, trait_of_statement};
pub use delegate::{FetchEligibleAssocItemResponse, GoalHandler};
pub use nts_candidates::{
    CandidateData, CandidateGoal, Equation, EquationKind, Reason, RegionConstraint,
};
pub use offer::pairs_of;
