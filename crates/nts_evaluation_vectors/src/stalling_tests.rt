//! What is kept of goals that stalled, and whether it still stands.
use nts_asking::{GoalStalledOn, is_still_stalled};
use nts_certainty::Certainty;
use nts_store::EvalError;
use nts_table::InferCtxt;
use nts_terms::{Cx, GenericArg, InferTy, TyKind, TypingMode};
use std::alloc::Global;
use std::process::Abort;

/// A goal that stalled on a variable and a sub root, when the table had so many hidden types.
fn stalled(
    alloc: Global,
    opaques: usize,
    var: GenericArg,
    root: usize,
) -> Result<GoalStalledOn, EvalError> {
    let vars = vec![in alloc; var]?;
    let roots = vec![in alloc; root]?;
    match GoalStalledOn::new(opaques, vars, roots, Certainty::AMBIGUOUS) {
        Some(kept) => Ok(kept),
        None => Err(EvalError::NoSolution),
    }
}

fn stalls(
    table: &InferCtxt,
    cx: &Cx,
    opaques: usize,
    var: GenericArg,
    root: usize,
) -> Result<bool, EvalError> {
    let kept = stalled(cx.alloc, opaques, var, root)?;
    if !kept.is_of_store(cx) {
        return Err(EvalError::NoSolution);
    }
    Ok(is_still_stalled(table, cx, &kept))
}

#[test]
fn nothing_is_kept_of_a_yes(rt: HostRuntime) {
    let alloc = rt.alloc();
    let kept = GoalStalledOn::new(0, Vec::new(alloc), Vec::new(alloc), Certainty::Yes);
    assert!(rt; kept.is_none());
}

#[test]
fn a_goal_stalls_while_nothing_changes(rt: HostRuntime) {
    let mut cx = Cx::new(rt.alloc());
    let mut table = InferCtxt::new(rt.alloc(), TypingMode::PostAnalysis);
    let var = table.next_ty_infer(&mut cx).expect(&rt, "memory").into();
    see_changes(&rt, &cx, &table, var);
}

fn see_changes(rt: &impl Abort, cx: &Cx, table: &InferCtxt, var: GenericArg) {
    assert!(rt; stalls(table, cx, 0, var, 0).expect(rt, "memory"));
    assert!(rt; !stalls(table, cx, 5, var, 0).expect(rt, "memory"));
    assert!(rt; !stalls(table, cx, 0, var, 9).expect(rt, "memory"));
}

#[test]
fn what_the_table_lacks_has_changed(rt: HostRuntime) {
    let mut cx = Cx::new(rt.alloc());
    let mut table = InferCtxt::new(rt.alloc(), TypingMode::PostAnalysis);
    table.next_ty_infer(&mut cx).expect(&rt, "memory");
    let other = cx.mk_ty(TyKind::Infer(InferTy::TyVar(7)));
    let other = other.expect(&rt, "memory").into();
    assert!(rt; !stalls(&table, &cx, 0, other, 0).expect(&rt, "memory"));
}

#[test]
fn without_short_cuts_no_goal_stalls(rt: HostRuntime) {
    let mut cx = Cx::new(rt.alloc());
    cx.set_disable_fast_paths(true);
    let mut table = InferCtxt::new(rt.alloc(), TypingMode::PostAnalysis);
    let var = table.next_ty_infer(&mut cx).expect(&rt, "memory").into();
    assert!(rt; !stalls(&table, &cx, 0, var, 0).expect(&rt, "memory"));
}
