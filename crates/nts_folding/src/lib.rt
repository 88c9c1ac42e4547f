//! Folding: one walk over a term for every way of mapping it.
//!
//! A `TypeFolder` says what becomes of a type, a region or a const; a `TypeFoldable` is a value that can
//! be folded so.
#![tactic(auto)]

mod alike;
mod fold;
mod foldable;

pub use alike::TermFolder;
pub use fold::{TypeFolder, fold_node};
pub use foldable::TypeFoldable;
