//! Goals that are added: in each, an alias from which no bound variable escapes gives place to a variable, and a goal of its own
//! relates the two.
#![tactic(auto)]

mod equal;
mod goals;
mod putting;
mod rigid;

pub use equal::equal_to_new;
pub use goals::{add_goal, goals_to_add, replace_aliases};
pub use putting::is_closed_alias;
pub use rigid::relate_rigid_alias;
