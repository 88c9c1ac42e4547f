//! What terms, tables and answers mean.
//!
//! A term of the solver is a finite tree of labelled nodes. This crate declares the labels, and its
//! `specs/` hold the definitions that every other crate is proved against: trees, substitutions,
//! related trees, and what a table of inference variables holds. It has no data structure of the
//! program, so a change of code never touches it. A function without a body stands for a law: what it
//! ensures is true of the definitions.
#![tactic(auto)]

mod inputs;
mod labels;

pub use inputs::{forms_tell_inputs, making_gives_form, originals_give_input};
pub use labels::{
    AliasHead, AliasRelationDirection, BoundVarIndexKind, ClauseHead, ConstHead, Constant,
    DebruijnIndex, FloatTy, FreeRegion, IntTy, Label, Leaf, ListHead, PredicateHead, Relation,
    Sort, TyHead, UintTy, VariableKind, Variance,
};
