//! Statements of the kinds that the engine answers by itself.
ghost use Rattle.std.specs.Prelude.{IfOk, IsTrue};
ghost use Rattle.nts_terms.specs.Handles.{HoldsPredicate, HoldsTy};
ghost use Rattle.nts_terms.specs.Kinds.{ClauseFits};
ghost use Rattle.nts_terms.specs.Rest.{Grows};
ghost use Rattle.nts_terms.specs.Signatures.{ClauseIsDeclared};

use crate::steps::Of;
use nts_fixtures::{Name, Names};
use nts_store::EvalError;
use nts_terms::{
    AliasDefId, AliasTerm, Binder, ClauseKind, Const, ConstId, ConstKind, Cx, DefId, Predicate,
    PredicateKind, Term, TraitId, TraitRef, Ty,
};

/// What a goal says that the engine answers by itself, or by what the handler judges.
#[derive(Clone, Copy)]
pub enum Own {
    /// Objects can be made of a trait.
    Objects(Of),
    /// An unstable feature is allowed.
    Feature(u32),
    /// A const can be evaluated.
    Evaluatable(Konst),
    /// A const has the type.
    HasType(Konst, Name),
    /// A type is well formed.
    WellFormed(Name),
    /// A trait holds as an effect of the host.
    HostEffect(Of),
}

/// A const.
#[derive(Clone, Copy)]
pub enum Konst {
    /// The const of that name.
    Named(Name),
    /// A value of the type.
    Value(Name, u128),
    /// An error.
    Error,
    /// The const of that number, which takes no arguments, before it is evaluated.
    Unevaluated(usize),
}

/// The statement as a predicate that binds nothing.
pub fn own_of(cx: &mut Cx, names: &Names, own: Own) -> Result<Predicate, EvalError>
    ensures holds { IfOk result (HoldsPredicate cx.new.nodes) }
    ensures grows { Grows cx.old cx.new }
{
    if let Own::Objects(of) = own {
        return objects_of(cx, names, of);
    }
    let clause = clause_of(cx, names, own)?;
    let vars = cx.mk_bound_vars(&[])?;
    if !clause_fits(cx, clause) {
        return Err(EvalError::NoSolution);
    }
    let value = PredicateKind::Clause(clause);
    Ok(cx.mk_predicate(Binder { vars, value })?)
}

/// That objects can be made of a trait, which takes these arguments.
fn objects_of(cx: &mut Cx, names: &Names, of: Of) -> Result<Predicate, EvalError>
    ensures holds { IfOk result (HoldsPredicate cx.new.nodes) }
    ensures grows { Grows cx.old cx.new }
{
    let of = trait_of(cx, names, of)?;
    let vars = cx.mk_bound_vars(&[])?;
    if !cx.holds(of.args) || !cx.fits(DefId::Trait(of.def_id), of.args) {
        return Err(EvalError::NoSolution);
    }
    let value = PredicateKind::DynCompatible(of.def_id);
    Ok(cx.mk_predicate(Binder { vars, value })?)
}

fn trait_of(cx: &mut Cx, names: &Names, of: Of) -> Result<TraitRef, EvalError>
    ensures { Grows cx.old cx.new }
{
    let Of(number, args) = of;
    let args = names.terms(args)?;
    if !args.iter().all(|arg| cx.holds(*arg)) {
        return Err(EvalError::NoSolution);
    }
    let def_id = TraitId { number };
    let args = cx.mk_args(&args)?;
    Ok(TraitRef { def_id, args })
}

/// The statement as a clause: that objects can be made of a trait is none.
fn clause_of(cx: &mut Cx, names: &Names, own: Own) -> Result<ClauseKind, EvalError>
    ensures { Grows cx.old cx.new }
{
    let clause = match own {
        Own::Objects(_) => return Err(EvalError::NoSolution),
        Own::Feature(symbol) => ClauseKind::UnstableFeature(symbol),
        Own::Evaluatable(konst) => ClauseKind::ConstEvaluatable(const_of(cx, names, konst)?),
        Own::HasType(konst, name) => {
            let ct = const_of(cx, names, konst)?;
            ClauseKind::ConstArgHasType(ct, ty_of(cx, names, name)?)
        }
        Own::WellFormed(name) => {
            let ty = ty_of(cx, names, name)?;
            ClauseKind::WellFormed(Term { node: ty.node })
        }
        Own::HostEffect(of) => ClauseKind::HostEffect(trait_of(cx, names, of)?),
    };
    Ok(clause)
}

fn ty_of(cx: &Cx, names: &Names, name: &str) -> Result<Ty, EvalError>
    ensures { IfOk result (HoldsTy cx.now.nodes) }
{
    let arg = names.term(name)?;
    let ty = Ty { node: arg.node };
    if !cx.holds(ty) {
        return Err(EvalError::NoSolution);
    }
    Ok(ty)
}

fn const_of(cx: &mut Cx, names: &Names, konst: Konst) -> Result<Const, EvalError>
    ensures { Grows cx.old cx.new }
{
    match konst {
        Konst::Named(name) => {
            let arg = names.term(name)?;
            Ok(Const { node: arg.node })
        }
        Konst::Value(name, bits) => {
            let ty = ty_of(cx, names, name)?;
            Ok(cx.mk_const(ConstKind::Value { ty, bits })?)
        }
        Konst::Error => Ok(cx.mk_const(ConstKind::Error)?),
        Konst::Unevaluated(number) => unevaluated(cx, number),
    }
}

fn unevaluated(cx: &mut Cx, number: usize) -> Result<Const, EvalError>
    ensures { Grows cx.old cx.new }
{
    let def_id = AliasDefId::Const(ConstId { number });
    let args = cx.mk_args(&[])?;
    if !cx.fits(DefId::Alias(def_id), args) {
        return Err(EvalError::NoSolution);
    }
    Ok(cx.mk_const(ConstKind::Unevaluated(AliasTerm { def_id, args }))?)
}

/// Whether a clause is of this store, and a trait's arguments are of the sorts that were declared.
fn clause_fits(cx: &Cx, clause: ClauseKind) -> bool
    ensures parts { IsTrue result → ClauseFits cx.now.nodes clause }
    ensures declared { IsTrue result → ClauseIsDeclared cx.now.declarations cx.now.nodes clause }
{
    match clause {
        ClauseKind::UnstableFeature(_) => true,
        ClauseKind::ConstEvaluatable(ct) => cx.holds(ct),
        ClauseKind::ConstArgHasType(ct, ty) => cx.holds(ct) && cx.holds(ty),
        ClauseKind::WellFormed(term) => cx.holds(term),
        ClauseKind::HostEffect(of) => {
            cx.holds(of.args) && cx.fits(DefId::Trait(of.def_id), of.args)
        }
        _ => false,
    }
}
