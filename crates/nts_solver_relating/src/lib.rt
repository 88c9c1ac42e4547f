//! Relating by a variance as callers see it: two values of the table are related until goals alone are left, and these come as goals
//! that can be asked.
#![tactic(auto)]

mod nodes;
mod related;
mod values;

pub use nodes::{goals_of, relate_by};
pub use related::Relate;
pub use values::RelateExt;
