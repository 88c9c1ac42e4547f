//! Bound variables opened with placeholders of universes, and placeholders closed again.
#![tactic(auto)]

mod closing;
mod escaping;
mod laws;
mod maps;
mod opening;
mod universes;

pub use closing::PlaceholderReplacer;
pub use laws::{closing_gives_back, known_stays_known};
pub use maps::{BoundVar, Placeholder, PlaceholderMaps};
pub use nts_replacing::{Place, ReplacerUnder, replace_under};
pub use opening::BoundVarReplacer;
