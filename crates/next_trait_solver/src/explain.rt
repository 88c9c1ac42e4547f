//! Why a goal is not answered yes, one level deep.
pub use nts_explaining::{Reason, explain};
