//! Canonicalizing: the goal of a table as a query, with positions in place of its leaves, in the order of first sight.
#![tactic(auto)]

mod canonicalize;
mod collecting;
mod folding;
mod leaves;
mod numbering;

pub use canonicalize::canonicalize_goal;
pub use collecting::{Staying, collect};
pub use folding::{leaves_of_value, position_value, resolve_value};
pub use leaves::Leaves;
pub use numbering::numbered;
