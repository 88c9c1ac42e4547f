//! Bound variables opened with placeholders, and closed again.
pub use nts_placeholder::{
    BoundVar, BoundVarReplacer, Placeholder, PlaceholderMaps, PlaceholderReplacer,
};
