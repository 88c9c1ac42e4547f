//! Relating by a variance: what it makes of a table, and the goals that it leaves.
mod steps;
mod tests;
