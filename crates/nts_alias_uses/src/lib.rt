//! What a context does with aliases, as a user sees it. All of it is read with the tests, which call it, and so is proved once.
#![tactic(auto)]

#[cfg(test)]
mod free;
#[cfg(test)]
mod free_tests;
#[cfg(test)]
mod normal;
#[cfg(test)]
mod normal_tests;
#[cfg(test)]
mod rigid;
#[cfg(test)]
mod rigid_tests;
