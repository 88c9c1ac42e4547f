//! What is asked of a candidate's goals: in coherence with new variables in the places of aliases.
#![tactic(auto)]

mod posing;

pub use posing::pose_asked;
