//! Terms made equal under a typed table.
#![tactic(auto)]

mod nodes;

pub use nodes::relate_nodes;
