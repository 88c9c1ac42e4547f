//! Inference variables below all that has a sort: classes, values, snapshots and what undoes them.
//!
//! The typed table, `nts_table::InferCtxt`, stands above, and so does relating (`nts_relating`).
#![tactic(auto)]

mod adding;
mod contents;
mod inner;
mod joining;
mod labels;
mod named;
mod roots;

pub use adding::add_variable;
pub use contents::{Constraint, HiddenType, State, Variable};
pub use inner::{InferCtxtInner, Snapshot};
pub use joining::{join, join_regions};
pub use labels::{
    fits, infer_number, is_same, is_same_kind, names_free_region, region_number, takes_variable,
};
pub use named::{named_variable, placeholder_universe};
pub use nts_terms;
