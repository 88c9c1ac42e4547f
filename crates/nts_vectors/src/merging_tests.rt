//! Responses of candidates merged, case by case.
ghost use Rattle.std.specs.Prelude.{IfOk};
ghost use Rattle.nts_response.specs.Forms.{HoldsResponse};
ghost use Rattle.nts_terms.specs.Rest.{Grows};

use nts_canonical::CanonicalVarKind;
use nts_certainty::Certainty;
use nts_model::UintTy;
use nts_response::{CanonicalResponse, response_no_constraints_raw};
use nts_search::{bail_with_ambiguity, flounder, try_merge_candidates};
use nts_store::EvalError;
use nts_terms::{Cx, GenericArg, TyKind};
use std::process::Abort;

/// The kinds of an input with one type variable.
fn one_variable(cx: &Cx) -> Result<Vec<CanonicalVarKind>, EvalError> {
    Ok(vec![in cx.alloc; CanonicalVarKind::Ty { ui: 0, sub_root: 0 }]?)
}

/// The response that says nothing of one type variable.
fn open(cx: &mut Cx, certainty: Certainty) -> Result<CanonicalResponse, EvalError>
    ensures holds { IfOk result (λ r. HoldsResponse cx.new.nodes r.value) }
    ensures grows { Grows cx.old cx.new }
{
    let kinds = one_variable(cx)?;
    Ok(response_no_constraints_raw(cx, 0, kinds, certainty)?)
}

/// The certain response by which the type variable is this type.
fn says(cx: &mut Cx, int: UintTy) -> Result<CanonicalResponse, EvalError>
    ensures holds { IfOk result (λ r. HoldsResponse cx.new.nodes r.value) }
    ensures grows { Grows cx.old cx.new }
{
    let value: GenericArg = cx.mk_ty(TyKind::Uint(int))?.into();
    let mut response = open(cx, Certainty::Yes)?;
    response.value.var_values = vec![in cx.alloc; value]?;
    Ok(response)
}

/// What is certain leaves nothing in doubt.
#[test]
fn certain_responses_that_differ_are_ambiguous(rt: HostRuntime) {
    let mut cx = Cx::new(rt.alloc());
    let doubt = of_two_types(&mut cx).expect(&rt, "memory");
    see_a_doubt(&rt, &doubt);
}

/// What is left of two certain responses that differ.
fn of_two_types(cx: &mut Cx) -> Result<CanonicalResponse, EvalError> {
    let first = says(cx, UintTy::U8)?;
    let second = says(cx, UintTy::U16)?;
    let list = vec![in cx.alloc; first, second]?;
    let kinds = one_variable(cx)?;
    Ok(bail_with_ambiguity(cx, &list, 0, kinds)?)
}

fn see_a_doubt(rt: &impl Abort, doubt: &CanonicalResponse) {
    assert!(rt; doubt.value.certainty == Certainty::AMBIGUOUS);
    assert!(rt; doubt.var_kinds.len() == 1);
}

#[test]
fn without_candidates_nothing_holds(rt: HostRuntime) {
    let mut cx = Cx::new(rt.alloc());
    assert!(rt; try_merge_candidates(&cx, &[]).is_none());
    let kinds = one_variable(&cx).expect(&rt, "memory");
    let refused = flounder(&mut cx, &[], 0, kinds);
    assert!(rt; matches!(refused, Err(EvalError::NoSolution)));
}
