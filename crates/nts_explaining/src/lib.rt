//! Explaining: why a goal is not answered yes, one level deep. Each candidate that the handler offers for it is tried in a probe,
//! and what it comes to is told as data.
#![tactic(auto)]

mod candidates;
mod conditions;
mod equations;
mod explained;
mod related;

pub use candidates::explain;
pub use nts_delegate::Reason;
pub use nts_evaluation;
pub use nts_evaluation::{nts_answering, nts_applying, nts_asking};
