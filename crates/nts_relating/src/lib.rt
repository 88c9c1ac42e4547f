//! Relating: two nodes of a store made equal under a table.
//!
//! Rows of pairs are related by a loop; a variable that meets a term gets a value that is made for it
//! (`value_walk`), with its occurs check and its universes. Calls that relate terms in another way make
//! such a value by `generalize`, bind a variable by `bind`, and make two of them one by
//! `relate_variables`; `head_of` tells them what a term is under the table.
#![tactic(auto)]

mod relate;
mod value_leaves;
mod value_walk;

pub use relate::{Head, bind, head_of, relate_nodes, relate_variables};
pub use value_leaves::Target;
pub use value_walk::generalize;
