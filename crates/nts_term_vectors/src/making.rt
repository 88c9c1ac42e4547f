//! Making terms, where what a call asks is tested before it: what does not meet it is answered by `NoSolution`.
ghost use Rattle.std.specs.Prelude.{IsTrue};
ghost use Rattle.nts_store.specs.Growth.{tree_at};
ghost use Rattle.nts_terms.specs.Handles.{HoldsArgs, HoldsResult};
ghost use Rattle.nts_terms.specs.declared.handles.DefId.TheVariants as def;
ghost use Rattle.nts_terms.specs.Kinds.{TyFits, ConstFits, StatementFits};
ghost use Rattle.nts_terms.specs.Signatures.{AreDeclared, TyIsDeclared, ConstIsDeclared, StatementIsDeclared};

use nts_model::Sort;
use nts_store::{EvalError, NodeId};
use nts_terms::{
    AliasDefId, AliasTerm, Binder, ClauseKind, Const, ConstKind, CtorId, Cx, DefId, GenericArg,
    GenericArgs, Predicate, PredicateKind, RegionKind, Term, TraitId, Ty, TyKind,
};

/// What a term is.
#[derive(Clone, Copy)]
pub enum Kind {
    Ty(TyKind),
    Region(RegionKind),
    Const(ConstKind),
    Predicate(Binder<PredicateKind>),
}

/// The term of that kind.
pub fn make(cx: &mut Cx, kind: Kind) -> Result<NodeId, EvalError> {
    match kind {
        Kind::Ty(kind) => make_ty(cx, kind),
        Kind::Region(kind) => make_region(cx, kind),
        Kind::Const(kind) => make_const(cx, kind),
        Kind::Predicate(predicate) => make_predicate(cx, predicate),
    }
}

fn make_ty(cx: &mut Cx, kind: TyKind) -> Result<NodeId, EvalError> {
    if !ty_fits(cx, kind) {
        return Err(EvalError::NoSolution);
    }
    Ok(cx.mk_ty(kind)?.node)
}

fn make_region(cx: &mut Cx, kind: RegionKind) -> Result<NodeId, EvalError> {
    Ok(cx.mk_region(kind)?.node)
}

fn make_const(cx: &mut Cx, kind: ConstKind) -> Result<NodeId, EvalError> {
    if !const_fits(cx, kind) {
        return Err(EvalError::NoSolution);
    }
    Ok(cx.mk_const(kind)?.node)
}

fn make_predicate(cx: &mut Cx, predicate: Binder<PredicateKind>) -> Result<NodeId, EvalError> {
    if !cx.holds(predicate.vars) || !statement_fits(cx, predicate.value) {
        return Err(EvalError::NoSolution);
    }
    Ok(cx.mk_predicate(predicate)?.node)
}

/// Whether arguments are of the store, and those that a declaration takes.
fn takes(cx: &Cx, def: DefId, args: GenericArgs) -> bool
    ensures holds { IsTrue result → HoldsArgs cx.now.nodes args }
    ensures declared { IsTrue result → AreDeclared cx.now.declarations def
        (tree_at cx.now.nodes args.node) }
{
    cx.holds(args) && cx.fits(def, args)
}

fn ty_fits(cx: &Cx, kind: TyKind) -> bool
    ensures parts { IsTrue result → TyFits cx.now.nodes kind }
    ensures declared { IsTrue result → TyIsDeclared cx.now.declarations cx.now.nodes kind }
{
    match kind {
        TyKind::Ctor(ctor, args) => takes(cx, DefId::Ctor(ctor), args),
        TyKind::FnPtr(it) => cx.holds(it.vars) && cx.holds(it.value.inputs_and_output),
        TyKind::Alias(it) => match it.def_id {
            AliasDefId::Ty(_) => takes(cx, DefId::Alias(it.def_id), it.args),
            AliasDefId::Const(_) => false,
        },
        _ => true,
    }
}

fn const_fits(cx: &Cx, kind: ConstKind) -> bool
    ensures parts { IsTrue result → ConstFits cx.now.nodes kind }
    ensures declared { IsTrue result → ConstIsDeclared cx.now.declarations cx.now.nodes kind }
{
    match kind {
        ConstKind::Value { ty, .. } => cx.holds(ty),
        ConstKind::Unevaluated(it) => match it.def_id {
            AliasDefId::Const(_) => takes(cx, DefId::Alias(it.def_id), it.args),
            AliasDefId::Ty(_) => false,
        },
        _ => true,
    }
}

/// Of the statements, those that the tests make.
fn statement_fits(cx: &Cx, kind: PredicateKind) -> bool
    ensures parts { IsTrue result → StatementFits cx.now.nodes kind }
    ensures declared { IsTrue result → StatementIsDeclared cx.now.declarations cx.now.nodes kind }
{
    match kind {
        PredicateKind::NormalizesTo { alias, term } => may_become(cx, alias, term),
        PredicateKind::Clause(ClauseKind::Projection { alias, term }) => {
            may_become(cx, alias, term)
        }
        PredicateKind::Clause(ClauseKind::Trait(it)) => {
            takes(cx, DefId::Trait(it.def_id), it.args)
        }
        PredicateKind::Clause(ClauseKind::UnstableFeature(_)) => true,
        PredicateKind::Coerce { a, b } => cx.holds(a) && cx.holds(b),
        _ => false,
    }
}

/// Whether an alias has the arguments that it takes, and the term is a type or a const as the alias is.
fn may_become(cx: &Cx, alias: AliasTerm, term: Term) -> bool
    ensures holds { IsTrue result → HoldsArgs cx.now.nodes alias.args }
    ensures declared { IsTrue result → AreDeclared cx.now.declarations (def.Alias alias.def_id)
        (tree_at cx.now.nodes alias.args.node) }
    ensures term { IsTrue result → HoldsResult cx.now.nodes alias term }
{
    takes(cx, DefId::Alias(alias.def_id), alias.args) && is_result(cx, alias, term)
}

fn is_result(cx: &Cx, alias: AliasTerm, term: Term) -> bool
    ensures { IsTrue result → HoldsResult cx.now.nodes alias term }
{
    let node = term.node;
    match alias.def_id {
        AliasDefId::Ty(_) => cx.holds(Ty { node }),
        AliasDefId::Const(_) => cx.holds(Const { node }),
    }
}

/// The list of these arguments.
pub fn make_args(cx: &mut Cx, args: &[GenericArg]) -> Result<NodeId, EvalError> {
    for arg in args {
        if !cx.holds(*arg) {
            return Err(EvalError::NoSolution);
        }
    }
    Ok(cx.mk_args(args)?.node)
}

/// The environment of one predicate.
pub fn make_env(cx: &mut Cx, predicate: Predicate) -> Result<NodeId, EvalError> {
    if !cx.holds(predicate) {
        return Err(EvalError::NoSolution);
    }
    Ok(cx.mk_env(&[predicate])?.node)
}

/// The environment of no predicate.
pub fn make_empty_env(cx: &mut Cx) -> Result<NodeId, EvalError> {
    Ok(cx.mk_env(&[])?.node)
}

/// The list of these sorts.
pub fn make_vars(cx: &mut Cx, sorts: &[Sort]) -> Result<NodeId, EvalError> {
    Ok(cx.mk_bound_vars(sorts)?.node)
}

/// That a trait holds for this argument, if it takes it.
pub fn make_trait(cx: &mut Cx, id: TraitId, node: NodeId) -> Result<Option<Predicate>, EvalError> {
    let arg = GenericArg { node };
    if !cx.holds(arg) {
        return Err(EvalError::NoSolution);
    }
    Ok(cx.trait_predicate(id, &[arg])?)
}

/// That a trait holds without arguments, if it takes none.
pub fn make_bare_trait(cx: &mut Cx, id: TraitId) -> Result<Option<Predicate>, EvalError> {
    Ok(cx.trait_predicate(id, &[])?)
}

/// A type under that many of the first constructor.
pub fn make_nested(cx: &mut Cx, bottom: NodeId, depth: u32) -> Result<NodeId, EvalError> {
    let mut node = bottom;
    for _ in 0..depth {
        node = make_wrapped(cx, node)?;
    }
    Ok(node)
}

fn make_wrapped(cx: &mut Cx, node: NodeId) -> Result<NodeId, EvalError> {
    let args = GenericArgs {
        node: make_args(cx, &[GenericArg { node }])?,
    };
    make_ty(cx, TyKind::Ctor(CtorId { number: 0 }, args))
}
