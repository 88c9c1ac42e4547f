//! The type and the fact that rules in a context are tried with.
ghost use Rattle.std.specs.Prelude.{IfOk, IfSome, OnOk};
ghost use Rattle.nts_terms.specs.Handles.{HoldsArg, HoldsTy};
ghost use Rattle.nts_delegate.specs.Clauses.{AreClausesReady};
ghost use Rattle.nts_terms.specs.Rest.{Grows};

use next_trait_solver::clauses::{Clause, Clauses};
use next_trait_solver::ty::{CtorId, Cx, DefId, EvalError, GenericArg, TraitId, Ty, TyKind};

/// The type `Vec(argument)`, or nothing where `Vec` takes other arguments.
pub(crate) fn vec_of(
    cx: &mut Cx,
    vec: CtorId,
    argument: GenericArg,
) -> Result<Option<Ty>, EvalError>
    requires { HoldsArg cx.old.nodes argument }
    ensures holds { IfOk result (λ t. IfSome t (HoldsTy cx.new.nodes)) }
    ensures grows { Grows cx.old cx.new }
{
    let args = cx.mk_args(&[argument])?;
    if !cx.holds(args) || !cx.fits(DefId::Ctor(vec), args) {
        return Ok(None);
    }
    Ok(Some(cx.mk_ty(TyKind::Ctor(vec, args))?))
}

/// Adds the rule that a trait holds for a type. It answers whether the rule fits.
#[tactic(auto, using(nts_asking::proofs::Asking::asking))]
pub(crate) fn add_fact(
    cx: &mut Cx,
    rules: &mut Clauses,
    trait_id: TraitId,
    of: GenericArg,
) -> Result<bool, EvalError>
    requires argument { HoldsArg cx.old.nodes of }
    requires ready { AreClausesReady cx.old.nodes rules.old }
    ensures ready { OnOk result (AreClausesReady cx.new.nodes rules.new) }
    ensures grows { Grows cx.old cx.new }
{
    let head = cx.mk_args(&[of])?;
    let clause = Clause {
        fresh: Vec::new(cx.alloc),
        trait_id,
        head,
        body: Vec::new(cx.alloc),
    };
    if !Clauses::clause_fits(cx, &clause)? {
        return Ok(false);
    }
    rules.add_clause(cx, clause)?;
    Ok(true)
}
