//! Terms and the store that holds them.
//!
//! Typed handles over the nodes of a store (`nts_store`), the kinds that a user matches on, what is
//! declared, and the limits of evaluations.
#![tactic(auto)]

mod const_types;
mod cx;
mod declarations;
mod fitting;
mod handles;
mod holding;
mod kinds;
mod lists;
mod making;
mod modes;
mod views;

pub use cx::Cx;
pub use declarations::{AliasKind, Declarations, are_variances};
pub use handles::{
    AliasDefId, AliasId, AliasTerm, Binder, BoundConst, BoundRegion, BoundTy, BoundVars, Const,
    ConstId, CtorId, DefId, FnSig, GenericArg, GenericArgs, Goal, ParamEnv, PlaceholderConst,
    PlaceholderRegion, PlaceholderType, Predicate, Region, Term, TraitId, TraitRef, Ty,
};
pub use holding::Stored;
pub use kinds::{
    ClauseKind, ConstKind, GenericArgKind, InferTy, PredicateKind, RegionKind, TermKind, TyKind,
};
pub use modes::{Span, TypingMode, UniverseIndex, VisibleForLeakCheck};
pub use nts_model;
pub use nts_store;
