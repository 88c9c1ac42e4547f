//! Conditions on hidden types, and what they decide.
mod conditions;
mod decision_tests;
mod joining_tests;
