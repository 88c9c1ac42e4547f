//! The labels of the nodes of a term.

/// What an argument of a constructor, a trait or an alias is.
#[derive(Clone, Copy, PartialEq, Eq, Hash)]
pub enum Sort {
    Ty,
    Region,
    Const,
}

/// How an argument of a constructor varies with the whole.
#[derive(Clone, Copy, PartialEq, Eq, Hash)]
pub enum Variance {
    Covariant,
    Invariant,
    Contravariant,
}

/// How the two sides of a region constraint are related.
#[derive(Clone, Copy, PartialEq, Eq, Hash)]
pub enum Relation {
    /// The two regions are one.
    Equal,
    /// The left region outlives the right one.
    RegionOutlives,
    /// The left type outlives the right region.
    TypeOutlives,
}

/// Whether an alias is equal to a term, or a subtype of it.
#[derive(Clone, Copy, PartialEq, Eq, Hash)]
pub enum AliasRelationDirection {
    Equate,
    Subtype,
}

/// The signed integer types.
#[derive(Clone, Copy, PartialEq, Eq, Hash)]
pub enum IntTy {
    I8,
    I16,
    I32,
    I64,
    I128,
    Isize,
}

/// The unsigned integer types.
#[derive(Clone, Copy, PartialEq, Eq, Hash)]
pub enum UintTy {
    U8,
    U16,
    U32,
    U64,
    U128,
    Usize,
}

/// The float types: names only.
#[derive(Clone, Copy, PartialEq, Eq, Hash)]
pub enum FloatTy {
    F16,
    F32,
    F64,
    F128,
}

/// The kinds of inference variables. Each kind has values of its own sort, an integer or float
/// variable only types of that family.
#[derive(Clone, Copy, PartialEq, Eq, Hash)]
pub enum VariableKind {
    Ty,
    Int,
    Float,
    Const,
    Region,
}

/// A region that is neither bound nor an inference variable.
#[derive(Clone, Copy, PartialEq, Eq, Hash)]
pub enum FreeRegion {
    Static,
    EarlyParam(u32),
    LateParam(u32),
    Placeholder(u32, usize),
    Erased,
    Error,
}

/// A type or const that stands for itself: a parameter, or a placeholder of a universe.
#[derive(Clone, Copy, PartialEq, Eq, Hash)]
pub enum Constant {
    Param(u32),
    Placeholder(u32, usize),
}

/// What a substitution or a renaming may change: inference variables, free regions and constants.
#[derive(Clone, Copy, PartialEq, Eq, Hash)]
pub enum Leaf {
    Variable(VariableKind, usize),
    Region(FreeRegion),
    TyConstant(Constant),
    ConstConstant(Constant),
}

/// How many binders lie between a bound variable and its own binder.
pub type DebruijnIndex = usize;

/// How a bound variable is named: by its binder, or by its position in a canonical value.
#[derive(Clone, Copy, PartialEq, Eq, Hash)]
pub enum BoundVarIndexKind {
    Bound(DebruijnIndex),
    Canonical,
}

/// An alias by its declaration's number: one of a type, or a const that is to be evaluated.
#[derive(Clone, Copy, PartialEq, Eq, Hash)]
pub enum AliasHead {
    Ty(usize),
    Const(usize),
}

/// The types that are built from others. An alias has its declaration's number.
#[derive(Clone, Copy, PartialEq, Eq, Hash)]
pub enum TyHead {
    Ctor(usize),
    Int(IntTy),
    Uint(UintTy),
    Float(FloatTy),
    FnPtr,
    Alias(usize),
    Error,
}

/// The consts that are built from others.
#[derive(Clone, Copy, PartialEq, Eq, Hash)]
pub enum ConstHead {
    Unevaluated(usize),
    Value(u128),
    Error,
}

/// The predicates that may stand in an environment. A Projection says what its alias stands for.
#[derive(Clone, Copy, PartialEq, Eq, Hash)]
pub enum ClauseHead {
    Trait(usize),
    HostEffect(usize),
    Projection(AliasHead),
    TypeOutlives,
    RegionOutlives,
    ConstArgHasType,
    WellFormed,
    ConstEvaluatable,
    UnstableFeature(u32),
}

/// The predicates that are goals alone. A Subtype goal says which side is expected, which serves
/// diagnostics only.
#[derive(Clone, Copy, PartialEq, Eq, Hash)]
pub enum PredicateHead {
    Subtype(bool),
    Coerce,
    DynCompatible(usize),
    ConstEquate,
    NormalizesTo(AliasHead),
    AliasRelate(AliasRelationDirection),
    Ambiguous,
}

/// What holds terms together: arguments, environments, the sorts of a binder, and the binder.
#[derive(Clone, Copy, PartialEq, Eq, Hash)]
pub enum ListHead {
    Args,
    Env,
    Sorts,
    Sort(Sort),
    Binder,
}

/// The label of a node. Leaves and bound variables have no children.
#[derive(Clone, Copy, PartialEq, Eq, Hash)]
pub enum Label {
    Leaf(Leaf),
    Bound(Sort, BoundVarIndexKind, usize),
    Ty(TyHead),
    Const(ConstHead),
    Clause(ClauseHead),
    Predicate(PredicateHead),
    List(ListHead),
}
