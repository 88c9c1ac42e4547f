//! Goals that a finite tree of goals decides: definitions and theorems, no data.
#![tactic(auto)]
