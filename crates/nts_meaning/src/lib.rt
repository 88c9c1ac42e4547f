//! What an evaluation promises: what goals of a table mean, what their queries are told and refuted by, and the lemmas on these.
//! Beside it stand the terms and the responses of a table that are asked and told.
#![tactic(auto)]

mod response;
mod terms;

pub use nts_answering;
pub use nts_answering::nts_canonicalizer;
pub use nts_applying;
pub use nts_applying::nts_equating;
pub use nts_response;
pub use nts_search;
pub use response::{Evaluated, boxed_response, make_response};
pub use terms::{resolve_goal, resolve_term};
