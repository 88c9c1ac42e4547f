//! Opening and closing: which entries get universes, levels, and values that are nested deep or share much.
mod fixture;
mod steps;
mod tests;
