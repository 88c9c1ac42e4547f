//! Tests of the evaluation and of what may hold, and of goals that stalled, through the names that users of the library see.
#![tactic(auto)]

#[cfg(test)]
mod alias_tests;
#[cfg(test)]
mod aliases;
#[cfg(test)]
mod asking;
#[cfg(test)]
mod assumed_tests;
#[cfg(test)]
mod evaluation_tests;
#[cfg(test)]
mod fast_tests;
#[cfg(test)]
mod outlives_tests;
#[cfg(test)]
mod own;
#[cfg(test)]
mod own_tests;
#[cfg(test)]
mod stalled_tests;
#[cfg(test)]
mod stalling_tests;
#[cfg(test)]
mod steps;
#[cfg(test)]
mod subtype_tests;
