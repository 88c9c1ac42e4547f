//! The store of nodes, below all that has a sort.
//!
//! A term is a number in a store, and stands for a finite tree. The store shares nodes: equal trees of
//! one store have one number. Here are the nodes, what is known of a whole tree, and the walk that
//! tests its labels. Typed handles stand above, in `nts_terms`, and beside them, in `nts_replacing`, the walks that replace parts
//! of a tree.
#![tactic(auto)]

mod children;
mod fault;
mod index;
mod labels_walk;
mod levels_walk;
mod nodes;
mod sorts;
mod type_flags;
mod words;

pub use fault::{EvalError, Fault};
pub use labels_walk::{LabelTest, all_labels};
pub use levels_walk::is_closed_under;
pub use nodes::{NodeId, Nodes};
pub use nts_model;
pub use sorts::sort_of;
pub use type_flags::{TypeFlags, binders_of, may_vary};
