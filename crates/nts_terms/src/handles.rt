//! Handles of the terms of a store, and plain data over them.
ghost use Rattle.std.specs.Prelude.{◌≡◌};
ghost use Rattle.nts_model.specs.Derivations.Related.{alias_label};
ghost use Rattle.nts_terms.specs.Handles.{alias_head};

use crate::modes::UniverseIndex;
use nts_model::{AliasHead, ConstHead, Label, TyHead};
use nts_store::NodeId;

/// A type.
#[derive(Clone, Copy, PartialEq, Eq, Hash, Debug)]
pub struct Ty {
    pub node: NodeId,
}

/// A region.
#[derive(Clone, Copy, PartialEq, Eq, Hash, Debug)]
pub struct Region {
    pub node: NodeId,
}

/// A const.
#[derive(Clone, Copy, PartialEq, Eq, Hash, Debug)]
pub struct Const {
    pub node: NodeId,
}

/// A type or a const.
#[derive(Clone, Copy, PartialEq, Eq, Hash, Debug)]
pub struct Term {
    pub node: NodeId,
}

/// A type, a region or a const.
#[derive(Clone, Copy, PartialEq, Eq, Hash, Debug)]
pub struct GenericArg {
    pub node: NodeId,
}

/// A list of arguments.
#[derive(Clone, Copy, PartialEq, Eq, Hash, Debug)]
pub struct GenericArgs {
    pub node: NodeId,
}

/// What may hold: a statement under a binder.
#[derive(Clone, Copy, PartialEq, Eq, Hash, Debug)]
pub struct Predicate {
    pub node: NodeId,
}

/// A list of predicates that are taken to hold.
#[derive(Clone, Copy, PartialEq, Eq, Hash, Debug)]
pub struct ParamEnv {
    pub node: NodeId,
}

/// The sorts of the variables of a binder.
#[derive(Clone, Copy, PartialEq, Eq, Hash, Debug)]
pub struct BoundVars {
    pub node: NodeId,
}

/// The number of a declared type constructor.
#[derive(Clone, Copy, PartialEq, Eq, Hash, Debug)]
pub struct CtorId {
    pub number: usize,
}

/// The number of a declared trait.
#[derive(Clone, Copy, PartialEq, Eq, Hash, Debug)]
pub struct TraitId {
    pub number: usize,
}

/// The number of a declared alias of types.
#[derive(Clone, Copy, PartialEq, Eq, Hash, Debug)]
pub struct AliasId {
    pub number: usize,
}

/// The number of a declared const.
#[derive(Clone, Copy, PartialEq, Eq, Hash, Debug)]
pub struct ConstId {
    pub number: usize,
}

/// What is declared as an alias: one of types, or a const, which is to be evaluated.
#[derive(Clone, Copy, PartialEq, Eq, Hash, Debug)]
pub enum AliasDefId {
    Ty(AliasId),
    Const(ConstId),
}

impl AliasDefId {
    /// The alias that a predicate names.
    pub(crate) fn of_head(head: AliasHead) -> AliasDefId
        ensures { alias_head result ≡ head }
    {
        match head {
            AliasHead::Ty(number) => AliasDefId::Ty(AliasId { number }),
            AliasHead::Const(number) => AliasDefId::Const(ConstId { number }),
        }
    }

    /// How a predicate names the alias.
    pub(crate) fn head(self) -> AliasHead
        ensures { result ≡ alias_head self }
    {
        match self {
            AliasDefId::Ty(alias) => AliasHead::Ty(alias.number),
            AliasDefId::Const(ct) => AliasHead::Const(ct.number),
        }
    }

    /// The label of a type or a const that is the alias.
    pub(crate) fn label(self) -> Label
        ensures { result ≡ alias_label (alias_head self) }
    {
        match self {
            AliasDefId::Ty(alias) => Label::Ty(TyHead::Alias(alias.number)),
            AliasDefId::Const(ct) => Label::Const(ConstHead::Unevaluated(ct.number)),
        }
    }
}

/// Something declared that takes arguments.
#[derive(Clone, Copy, PartialEq, Eq, Hash, Debug)]
pub enum DefId {
    Ctor(CtorId),
    Trait(TraitId),
    Alias(AliasDefId),
}

/// A value in which variables of these sorts are bound.
#[derive(Clone, Copy, Debug, Drop)]
pub struct Binder<T> {
    pub vars: BoundVars,
    pub value: T,
}

/// An alias of types, or a const that is to be evaluated, applied to arguments.
#[derive(Clone, Copy, Debug)]
pub struct AliasTerm {
    pub def_id: AliasDefId,
    pub args: GenericArgs,
}

/// A trait applied to arguments.
#[derive(Clone, Copy, Debug)]
pub struct TraitRef {
    pub def_id: TraitId,
    pub args: GenericArgs,
}

/// A predicate to be proved where those of the environment hold.
#[derive(Clone, Copy, Debug)]
pub struct Goal {
    pub param_env: ParamEnv,
    pub predicate: Predicate,
}

/// What a function pointer takes and gives.
#[derive(Clone, Copy, Debug)]
pub struct FnSig {
    /// The inputs, and the output as the last.
    pub inputs_and_output: GenericArgs,
}

/// Which type variable of its binder, or of its universe.
#[derive(Clone, Copy, Debug)]
pub struct BoundTy {
    pub var: usize,
}

/// Which region variable of its binder, or of its universe.
#[derive(Clone, Copy, Debug)]
pub struct BoundRegion {
    pub var: usize,
}

/// Which const variable of its binder, or of its universe.
#[derive(Clone, Copy, Debug)]
pub struct BoundConst {
    pub var: usize,
}

/// A type that stands for itself in a universe.
#[derive(Clone, Copy, Debug)]
pub struct PlaceholderType {
    pub universe: UniverseIndex,
    pub bound: BoundTy,
}

/// A region that stands for itself in a universe.
#[derive(Clone, Copy, Debug)]
pub struct PlaceholderRegion {
    pub universe: UniverseIndex,
    pub bound: BoundRegion,
}

/// A const that stands for itself in a universe.
#[derive(Clone, Copy, Debug)]
pub struct PlaceholderConst {
    pub universe: UniverseIndex,
    pub bound: BoundConst,
}

impl From<Ty> for Term {
    ghost from_gives = { λ t r. r.node ≡ t.node };

    fn from(t: Ty) -> Term {
        Term { node: t.node }
    }
}

impl From<Const> for Term {
    ghost from_gives = { λ c r. r.node ≡ c.node };

    fn from(c: Const) -> Term {
        Term { node: c.node }
    }
}

impl From<Ty> for GenericArg {
    ghost from_gives = { λ t r. r.node ≡ t.node };

    fn from(t: Ty) -> GenericArg {
        GenericArg { node: t.node }
    }
}

impl From<Region> for GenericArg {
    ghost from_gives = { λ t r. r.node ≡ t.node };

    fn from(t: Region) -> GenericArg {
        GenericArg { node: t.node }
    }
}

impl From<Const> for GenericArg {
    ghost from_gives = { λ c r. r.node ≡ c.node };

    fn from(c: Const) -> GenericArg {
        GenericArg { node: c.node }
    }
}

impl From<Term> for GenericArg {
    ghost from_gives = { λ t r. r.node ≡ t.node };

    fn from(t: Term) -> GenericArg {
        GenericArg { node: t.node }
    }
}
