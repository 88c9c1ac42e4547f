//! What a term is, as its node shows it.
use crate::handles::{
    AliasTerm, Binder, BoundConst, BoundRegion, BoundTy, Const, CtorId, FnSig, GenericArgs,
    PlaceholderConst, PlaceholderRegion, PlaceholderType, Region, Term, TraitId, TraitRef, Ty,
};
use nts_model::{AliasRelationDirection, BoundVarIndexKind, FloatTy, IntTy, UintTy};

/// A variable of a type that is to be found, by its number: of any type, of an integer type, or of a
/// float type.
#[derive(Clone, Copy)]
pub enum InferTy {
    TyVar(usize),
    IntVar(usize),
    FloatVar(usize),
}

/// What a type is.
#[derive(Clone, Copy)]
pub enum TyKind {
    Ctor(CtorId, GenericArgs),
    Int(IntTy),
    Uint(UintTy),
    Float(FloatTy),
    FnPtr(Binder<FnSig>),
    Alias(AliasTerm),
    Infer(InferTy),
    Param(u32),
    Placeholder(PlaceholderType),
    Bound(BoundVarIndexKind, BoundTy),
    Error,
}

/// What a region is.
#[derive(Clone, Copy)]
pub enum RegionKind {
    ReStatic,
    ReEarlyParam(u32),
    ReLateParam(u32),
    ReBound(BoundVarIndexKind, BoundRegion),
    ReVar(usize),
    RePlaceholder(PlaceholderRegion),
    ReErased,
    ReError,
}

/// What a const is.
#[derive(Clone, Copy)]
pub enum ConstKind {
    Param(u32),
    Infer(usize),
    Bound(BoundVarIndexKind, BoundConst),
    Placeholder(PlaceholderConst),
    Unevaluated(AliasTerm),
    Value { ty: Ty, bits: u128 },
    Error,
}

/// What a term is.
#[derive(Clone, Copy)]
pub enum TermKind {
    Ty(Ty),
    Const(Const),
}

/// What an argument is.
#[derive(Clone, Copy)]
pub enum GenericArgKind {
    Lifetime(Region),
    Type(Ty),
    Const(Const),
}

/// A statement that may stand in an environment.
#[derive(Clone, Copy)]
pub enum ClauseKind {
    Trait(TraitRef),
    HostEffect(TraitRef),
    Projection { alias: AliasTerm, term: Term },
    TypeOutlives(Ty, Region),
    RegionOutlives(Region, Region),
    ConstArgHasType(Const, Ty),
    WellFormed(Term),
    ConstEvaluatable(Const),
    UnstableFeature(u32),
}

/// What a predicate states.
#[derive(Clone, Copy)]
pub enum PredicateKind {
    Clause(ClauseKind),
    Subtype { a_is_expected: bool, a: Ty, b: Ty },
    Coerce { a: Ty, b: Ty },
    DynCompatible(TraitId),
    ConstEquate(Const, Const),
    NormalizesTo { alias: AliasTerm, term: Term },
    AliasRelate(Term, Term, AliasRelationDirection),
    Ambiguous,
}
