//! Relating by a variance: two terms are related pair by pair, and a variable is made one with a term that stands for another. What
//! rests on aliases, or on type variables that may vary, is left as goals.
#![tactic(auto)]

mod along;
mod equating;
mod goals;
mod heads_equal;
mod hiding;
mod looking;
mod parts;
mod rows;
mod splitting;
mod taking;
mod variance;
mod vary_walk;

pub use along::{Relating, Side, bind_along};
pub use equating::relate_terms;
pub use goals::predicate_of;
pub use rows::relate_rows;
pub use splitting::{Left, relate_along};
pub use vary_walk::{Target, Varied, vary};
