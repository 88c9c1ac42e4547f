//! Answering: what a table found, as a canonical response or a canonical state.
#![tactic(auto)]

mod answer_kinds;
mod canonicalize;
mod leaves;
mod numbered;
mod states;

pub use canonicalize::canonicalize_response;
pub use nts_canonicalizer;
pub use states::make_canonical_state;
