//! Tests of responses and of conditions on hidden types, through the names that users of the library see.
#![tactic(auto)]

#[cfg(test)]
mod applying_tests;
#[cfg(test)]
mod fixture;
#[cfg(test)]
mod reruns;
#[cfg(test)]
mod same_tests;
#[cfg(test)]
mod state_tests;
#[cfg(test)]
mod steps;
#[cfg(test)]
mod tests;
