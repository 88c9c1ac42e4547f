//! Tests of canonical inputs and of responses that are merged, through the names that users of the library see.
#![tactic(auto)]

#[cfg(test)]
mod canonical_tests;
#[cfg(test)]
mod inputs;
#[cfg(test)]
mod merging_tests;
#[cfg(test)]
mod search;
#[cfg(test)]
mod sharing_tests;
#[cfg(test)]
mod steps;
