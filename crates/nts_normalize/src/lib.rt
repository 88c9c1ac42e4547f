//! The folder that normalizes: aliases give place to what a closure answers of them, under binders too.
#![tactic(auto)]

mod aliases;
mod folder;

pub use folder::NormalizationFolder;
