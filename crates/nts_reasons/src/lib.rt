//! The program `nts_why` but for its `main`: a run that answers lines as `nts` does, and behind each answer that is not yes tells
//! why no candidate made it yes.
//!
//! A line is obeyed by `nts_program`; what the candidates of a goal come to is found by `nts_explaining`, and worded by
//! `nts_declaring`. This crate notes the line of each impl, and asks for the reasons of a goal behind its answer.
#![tactic(auto)]

mod explainer;
mod running;

pub use explainer::{Asked, Explainer};
pub use running::run;
