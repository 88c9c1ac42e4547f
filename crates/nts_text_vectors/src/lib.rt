//! Tests of the text of `nts`: what its lines ask for.
#![tactic(auto)]

#[cfg(test)]
mod tests;
