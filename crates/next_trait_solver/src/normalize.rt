//! The folder that normalizes.
pub use nts_normalize::NormalizationFolder;
