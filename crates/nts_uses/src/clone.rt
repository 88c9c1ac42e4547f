//! A store, two rules, and a goal.
ghost use Rattle.std.specs.Prelude.{IfOk, IfSome, OnOk};
ghost use Rattle.nts_store.specs.Growth.{Extends};
ghost use Rattle.nts_terms.specs.Handles.{HoldsArg, HoldsTy, HoldsGoal};
ghost use Rattle.nts_delegate.specs.Clauses.{AreClausesReady};
ghost use Rattle.nts_terms.specs.Rest.{Grows};

use next_trait_solver::clauses::{Clause, Clauses};
use next_trait_solver::delegate::GoalHandler;
use next_trait_solver::solve::{evaluate_root_goal, goal_is_admitted};
use next_trait_solver::ty::{
    BoundTy, BoundVarIndexKind, Certainty, CtorId, Cx, DefId, EvalError, GenericArg, Goal,
    InferCtxt, Predicate, Sort, Span, TraitId, Ty, TyKind, TypingMode, UintTy, Variance,
};
use std::alloc::Global;

/// Adds a rule: over variables of these sorts the trait holds for the argument where the conditions hold. It answers
/// whether the rule fits.
#[tactic(auto, using(nts_asking::proofs::Asking::asking))]
pub(crate) fn add_rule(
    cx: &mut Cx,
    rules: &mut Clauses,
    fresh: Vec<Sort>,
    trait_id: TraitId,
    argument: GenericArg,
    body: Vec<Predicate>,
) -> Result<bool, EvalError>
    requires argument { HoldsArg cx.old.nodes argument }
    requires ready { AreClausesReady cx.old.nodes rules.old }
    ensures ready { OnOk result (AreClausesReady cx.new.nodes rules.new) }
    ensures grows { Grows cx.old cx.new }
{
    let head = cx.mk_args(&[argument])?;
    let clause = Clause {
        fresh,
        trait_id,
        head,
        body,
    };
    if !Clauses::clause_fits(cx, &clause)? {
        return Ok(false);
    }
    rules.add_clause(cx, clause)?;
    Ok(true)
}

/// The type `Vec(argument)`, or nothing where `Vec` takes other arguments.
pub(crate) fn vec_of(
    cx: &mut Cx,
    vec: CtorId,
    argument: GenericArg,
) -> Result<Option<Ty>, EvalError>
    requires { HoldsArg cx.old.nodes argument }
    ensures holds { IfOk result (λ t. IfSome t (HoldsTy cx.new.nodes)) }
    ensures grows { Grows cx.old cx.new }
{
    let args = cx.mk_args(&[argument])?;
    if !cx.holds(args) || !cx.fits(DefId::Ctor(vec), args) {
        return Ok(None);
    }
    Ok(Some(cx.mk_ty(TyKind::Ctor(vec, args))?))
}

/// Adds the rule that `Vec(T)` is `Clone` for each `T` that is.
pub(crate) fn add_rule_of_vec(
    cx: &mut Cx,
    rules: &mut Clauses,
    clone: TraitId,
    vec: CtorId,
) -> Result<bool, EvalError>
    requires { AreClausesReady cx.old.nodes rules.old }
    ensures ready { OnOk result (AreClausesReady cx.new.nodes rules.new) }
    ensures grows { Grows cx.old cx.new }
{
    add_rule_where(cx, rules, clone, clone, vec)
}

/// Adds the rule that a trait holds for `Vec(T)` for each `T` for which the condition does. Its variable is the position 0.
#[tactic(auto, using(nts_asking::proofs::Asking::asking, nts_terms::proofs::Moved::growth))]
pub(crate) fn add_rule_where(
    cx: &mut Cx,
    rules: &mut Clauses,
    trait_id: TraitId,
    condition: TraitId,
    vec: CtorId,
) -> Result<bool, EvalError>
    requires { AreClausesReady cx.old.nodes rules.old }
    ensures ready { OnOk result (AreClausesReady cx.new.nodes rules.new) }
    ensures grows { Grows cx.old cx.new }
{
    let any = cx.mk_ty(TyKind::Bound(BoundVarIndexKind::Canonical, BoundTy { var: 0 }))?;
    let Some(condition) = cx.trait_predicate(condition, &[any.into()])? else {
        return Ok(false);
    };
    let Some(vec_of_any) = vec_of(cx, vec, any.into())? else {
        return Ok(false);
    };
    let mut fresh = Vec::new(cx.alloc);
    fresh.push(Sort::Ty)?;
    let mut body = Vec::new(cx.alloc);
    body.push(condition)?;
    add_rule(cx, rules, fresh, trait_id, vec_of_any.into(), body)
}

/// How sure it is that a goal holds by the rules, or nothing where it may not be asked.
#[tactic(auto, using(nts_asking::proofs::Asking::asking))]
pub(crate) fn ask<H: GoalHandler>(
    cx: &mut Cx,
    rules: &H,
    goal: Goal,
) -> Result<Option<Certainty>, EvalError>
    requires holds { HoldsGoal cx.old.nodes goal }
    requires ready { H.ready cx.old.nodes rules.now }
{
    let mut table = InferCtxt::new(cx.alloc, TypingMode::PostAnalysis);
    if !goal_is_admitted(&table, cx, goal)? {
        return Ok(None);
    }
    let evaluation = evaluate_root_goal(&mut table, cx, rules, goal, Span(0), None)?;
    Ok(Some(evaluation.certainty))
}

/// How sure it is that `Vec(u32)` is `Clone`: `Yes`. There is no answer where a rule does not fit, or the goal may
/// not be asked.
#[tactic(auto, using(nts_asking::proofs::Asking::asking, nts_terms::proofs::Moved::growth))]
pub fn clone_of_vec(alloc: Global) -> Result<Option<Certainty>, EvalError> {
    let mut cx = Cx::new(alloc);
    let clone = cx.declare_trait(&[Sort::Ty])?;
    let vec = cx.declare_ctor(&[Sort::Ty], &[Variance::Covariant])?;
    let word = cx.mk_ty(TyKind::Uint(UintTy::U32))?;

    let mut rules = Clauses::new(alloc);
    let none = Vec::new(alloc);
    if !add_rule(
        &mut cx,
        &mut rules,
        none,
        clone,
        word.into(),
        Vec::new(alloc),
    )? {
        return Ok(None);
    }
    if !add_rule_of_vec(&mut cx, &mut rules, clone, vec)? {
        return Ok(None);
    }

    let Some(vec_of_word) = vec_of(&mut cx, vec, word.into())? else {
        return Ok(None);
    };
    let Some(predicate) = cx.trait_predicate(clone, &[vec_of_word.into()])? else {
        return Ok(None);
    };
    let param_env = cx.mk_env(&[])?;
    let goal = Goal {
        param_env,
        predicate,
    };
    ask(&mut cx, &rules, goal)
}
