//! Terms, their store, and the table of inference variables, under one name.
pub use nts_certainty::{
    Certainty, GoalSource, HasChanged, MaybeCause, MaybeInfo, OpaqueTypesJank, PathKind,
    RerunCondition,
};
pub use nts_contexts::nts_solver_relating::{Relate, RelateExt};
pub use nts_folding::{TermFolder, TypeFoldable, TypeFolder};
pub use nts_model::{
    AliasRelationDirection, BoundVarIndexKind, DebruijnIndex, FloatTy, IntTy, Relation, Sort,
    UintTy, VariableKind, Variance,
};
pub use nts_store::{EvalError, Fault, NodeId};
pub use nts_table::{InferCtxt, is_unbound};
pub use nts_terms::{
    AliasDefId, AliasId, AliasKind, AliasTerm, Binder, BoundConst, BoundRegion, BoundTy, BoundVars,
    ClauseKind, Const, ConstId, ConstKind, CtorId, Cx, DefId, FnSig, GenericArg, GenericArgKind,
    GenericArgs, Goal, InferTy, ParamEnv, PlaceholderConst, PlaceholderRegion, PlaceholderType,
    Predicate, PredicateKind, Region, RegionKind, Span, Stored, Term, TermKind, TraitId, TraitRef,
    Ty, TyKind, TypingMode, UniverseIndex, VisibleForLeakCheck, are_variances,
};
pub use nts_unify::{Constraint, HiddenType, Snapshot, State, Variable};
