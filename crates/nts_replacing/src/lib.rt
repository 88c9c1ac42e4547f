//! The walks that replace parts of a tree, also by the binders around them.
//!
//! A node that stands at many places is replaced once. What is left to do stands on the heap, however deep a term is nested.
#![tactic(auto)]

mod instantiate;
mod replacement;
mod under;

pub use instantiate::instantiate_canonical;
pub use replacement::{Replacer, Step, Task, push_node, replace};
pub use under::{Place, ReplacerUnder, replace_under};
