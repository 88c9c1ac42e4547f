//! Rules that are written in a context, as a user sees them. All of it is read with the tests, which call it, and so is proved once.
#![tactic(auto)]

#[cfg(test)]
mod count;
#[cfg(test)]
mod errors;
#[cfg(test)]
mod related;
#[cfg(test)]
mod rule;
#[cfg(test)]
mod terms;
#[cfg(test)]
mod tests;
