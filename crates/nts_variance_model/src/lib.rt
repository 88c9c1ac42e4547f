//! Relating with aliases and variances: definitions and theorems, no data.
#![tactic(auto)]
