//! The values of variables.
pub use nts_table::eager_resolve_vars;
