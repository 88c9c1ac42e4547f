//! Tests of the table: its calls, relating case by case, and what is refused.
#![tactic(auto)]

#[cfg(test)]
mod by_kind;
#[cfg(test)]
mod calls_tests;
#[cfg(test)]
mod deep_tests;
#[cfg(test)]
mod fixture;
#[cfg(test)]
mod kinds_tests;
#[cfg(test)]
mod refusing_tests;
#[cfg(test)]
mod regions;
#[cfg(test)]
mod relating_tests;
#[cfg(test)]
mod steps;
#[cfg(test)]
mod tests;
#[cfg(test)]
mod variance;
