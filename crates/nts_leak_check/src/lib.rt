//! A leak check for any handler: regions of binders that were opened are not made one with others that stand for themselves.
#![tactic(auto)]

mod leak_checked;

pub use leak_checked::LeakChecked;
