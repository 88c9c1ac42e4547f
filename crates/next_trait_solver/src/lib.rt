//! A trait solver whose answers are proved.
//!
//! A store of terms ([`ty::Cx`]), a table of inference variables ([`ty::InferCtxt`]) and a handler that
//! offers the rules of traits as data ([`delegate::GoalHandler`]) go in; a certainty comes out, and the
//! values of the variables are left in the table. This crate gives the parts of the library their names.
#![tactic(auto)]

pub mod canonical;
pub mod clauses;
pub mod delegate;
pub mod explain;
pub mod normalize;
pub mod placeholder;
pub mod resolve;
pub mod search_graph;
pub mod solve;
pub mod ty;
