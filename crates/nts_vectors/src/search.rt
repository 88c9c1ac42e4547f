//! The stack of a search, through the names that users of the library see.
mod fixture;
mod stack_tests;
mod steps;
mod tests;
