//! The library as a user sees it: is `Vec(u32)` `Clone`, where `u32` is, and `Vec(T)` is for each `T` that is? All of it is read with
//! the tests, which call it, and so is proved once.
#![tactic(auto)]

#[cfg(test)]
mod clone;
#[cfg(test)]
mod cycle;
#[cfg(test)]
mod own;
#[cfg(test)]
mod tests;
