//! Tests of normalizing: what gives place to what, which universes are made, and which goals are collected; and of what stands for
//! goals that are added.
#![tactic(auto)]

#[cfg(test)]
mod adding;
#[cfg(test)]
mod adding_tests;
#[cfg(test)]
mod fixture;
#[cfg(test)]
mod placeholder;
#[cfg(test)]
mod scripts;
#[cfg(test)]
mod steps;
#[cfg(test)]
mod tests;
