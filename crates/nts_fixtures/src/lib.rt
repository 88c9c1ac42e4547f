//! A store and a table for the tests of the crates above.
//!
//! Each condition of a call is tested by a public function, and a term that does not meet it is answered
//! by `NoSolution`. The functions answer results, since only a test may end the process.
#![tactic(auto)]

mod fixture;
mod named;
mod tables;
mod terms;

pub use fixture::Fixture;
pub use named::{BYTE, Make, Name, Names, Type, WORD};
pub use tables::table_in;
