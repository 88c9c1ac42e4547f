//! The table of inference variables.
#![tactic(auto)]

mod changed;
mod classes;
mod constraints;
mod deduplicated;
mod eager;
mod equating;
mod fresh;
mod hidden;
mod infer_ctxt;
mod knowing;
mod probing;
mod resolver;
mod resolving;
mod shallow;
mod variables;

pub use eager::eager_resolve_vars;
pub use equating::is_unbound;
pub use infer_ctxt::InferCtxt;
pub use nts_replacing;
pub use nts_unify::{Constraint, HiddenType, Snapshot, State, Variable};
pub use resolver::resolve_nodes;
