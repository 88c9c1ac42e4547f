//! Terms from the words of a line, and words for an answer.
//!
//! The nodes of a line are made terms: those of the goal that it asks, or the rule that it adds.
//! What a table knows of a goal's variables is made an answer, and an answer is made text, as a refusal is. How a
//! goal is answered is not known here: the program asks between the two. Nothing here recurses over
//! the nesting of a type.
#![tactic(auto)]

mod answer;
mod build;
mod output;
mod printer;
mod sentences;
mod status;
mod variables;
mod words;

pub use answer::{Answer, Found, answer_of};
pub use build::{MISFIT, Terms};
pub use output::{put_answer, put_refusal};
pub use printer::write_answer;
pub use sentences::{clause_of, environment_of, goal_of, norm_clause_of};
pub use status::{Status, Stop};
pub use variables::LineVariables;
pub use words::{int_name, spelling, type_name, uint_name};
