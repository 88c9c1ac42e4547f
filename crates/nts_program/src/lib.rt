//! The program `nts` but for its `main`: a run over lines of text, and what each line does.
//!
//! What a line may say is told in `docs/TEXT.md` of the repository. A line is read by `nts_text`,
//! what it declares is kept by `nts_declaring`, and a goal is answered by `nts_evaluation`. This crate
//! stands above the three: it asks the goals, and goes over the lines.
#![tactic(auto)]

mod answer;
mod obeying;
mod running;

pub use answer::ask;
pub use nts_declaring;
pub use nts_declaring::Program;
pub use nts_evaluation;
pub use nts_wording::{Status, Stop};
pub use obeying::{follow, obey};
pub use running::run;
