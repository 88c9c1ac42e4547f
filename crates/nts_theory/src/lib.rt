//! Derivations, responses, the stack of a search, refutation, and what waits for later calls: theorems, no data.
#![tactic(auto)]
