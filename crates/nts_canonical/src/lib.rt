//! Canonical inputs: goals in which positions stand for leaves.
//!
//! Two goals that differ only in the names of their variables, parameters and placeholders have equal
//! canonical inputs, and only those (`nts_model::forms_tell_inputs`). So an answer to a canonical input
//! serves each goal that has it.
#![tactic(auto)]

mod alike;
mod build;
mod instantiate;
mod queries;
mod types;
mod var_kinds;

pub use alike::{same_input, same_kinds, same_pair};
pub use build::{build_with_canonical, instantiate_canonical_var, universe_of, value_in};
pub use instantiate::instantiate_canonical;
pub use nts_folding;
pub use nts_table;
pub use nts_table::nts_replacing;
pub use queries::{fill, fill_hidden, nodes_of};
pub use types::{Canonical, CanonicalInput, CanonicalVarKind, QueryInput};
pub use var_kinds::{first_of, kinds_of, sub_root_of, sub_roots};
