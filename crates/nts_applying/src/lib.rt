//! Applying: a response, or a state, put into a table.
#![tactic(auto)]

mod applying;
mod choosing;
mod equating;
mod guessing;
mod instantiating;
mod opening;
mod recording;
mod registering;

pub use applying::instantiate_and_apply_query_response;
pub use instantiating::instantiate_canonical_state;
pub use nts_equating;
