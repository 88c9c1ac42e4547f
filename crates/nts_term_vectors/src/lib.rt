//! Tests of the store, of terms, of folds and of certainties.
#![tactic(auto)]

#[cfg(test)]
mod fold_tests;
#[cfg(test)]
mod folders;
#[cfg(test)]
mod folding;
#[cfg(test)]
mod making;
#[cfg(test)]
mod named;
#[cfg(test)]
mod predicate_tests;
#[cfg(test)]
mod reading;
#[cfg(test)]
mod steps;
#[cfg(test)]
mod tests;
#[cfg(test)]
mod walk_tests;
