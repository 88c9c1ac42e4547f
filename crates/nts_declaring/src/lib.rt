//! What the lines of a run have said so far, what each line but a goal does to it, and how reasons are written.
//!
//! What a line may say is told in `docs/TEXT.md` of the repository. A line is read by `nts_text`, and its terms are made by
//! `nts_wording`. A goal is posed in a table of its own; it is answered in `nts_program`, which stands above the evaluation, as this
//! crate does not.
//!
//! Why a candidate does not serve a goal is told by `nts_delegate` as data. This crate keeps the number of the line of each impl, so
//! that a reason can name the line that its candidate comes from, and it words the reasons.
#![tactic(auto)]

mod impl_lines;
mod origins;
mod posing;
mod program;
mod wording;

pub use impl_lines::ImplLines;
pub use origins::{Origin, origin_of};
pub use posing::{Posed, pose};
pub use program::Program;
pub use wording::write_reasons;
