//! What can be read of a table, and calls on terms, each set up on its own: rows of the program `nts_faults` that need no
//! evaluation.
#![tactic(auto)]

mod content;
mod rows;

pub use content::{Content, content_of, fill};
pub use rows::{Called, apply, canonicalize, equate, hide, instantiate, open, relate};
