//! A rule that is written in a context: two types are made one, and a goal is asked for.
ghost use Rattle.std.specs.Prelude.{◌≡◌, true, IfOk, OnOk, OnErr};
ghost use Rattle.nts_model.specs.Terms.Trees.{any_argument};
ghost use Rattle.nts_delegate.specs.Clauses.{AreClausesReady};
ghost use Rattle.nts_table.specs.Tables.{IsTable, IsPlainSide};
ghost use Rattle.nts_terms.specs.Rest.{Grows};
ghost use Rattle.nts_meaning.specs.Evaluation.{IsPosed};
ghost use Rattle.nts_contexts.specs.Contexts.{IsContextReady, KeepsContext, IsGoalOfContext};

use crate::terms::{add_fact, vec_of};
use next_trait_solver::clauses::Clauses;
use next_trait_solver::solve::{EvalCtxt, goal_is_admitted};
use next_trait_solver::ty::{
    Certainty, CtorId, Cx, EvalError, GenericArg, Goal, GoalSource, InferCtxt, Sort, Span, TraitId,
    Ty, TyKind, TypingMode, UintTy, Variance,
};
use std::alloc::Global;

/// How sure a goal is, which is found out in a probe, since a root context is left without goals.
#[tactic(auto, using(nts_contexts::proofs::Handed::handed, nts_contexts::proofs::Frames::keeps_then))]
fn certainty_of(ecx: &mut EvalCtxt<'_, Clauses>, goal: Goal) -> Result<Certainty, EvalError>
    requires ready { IsContextReady AreClausesReady ecx.old }
    requires goal { IsGoalOfContext ecx.old goal }
    ensures keeps { KeepsContext AreClausesReady ecx.old ecx.new }
    ensures goals { ecx.new.state.now.nested_goals.items ≡ ecx.old.state.now.nested_goals.items }
{
    ecx.probe(
        |probe: &mut EvalCtxt<'_, Clauses>| -> Result<Certainty, EvalError>
            requires ready { IsContextReady AreClausesReady probe.old }
            requires goal { IsGoalOfContext probe.old goal }
            ensures keeps { KeepsContext AreClausesReady probe.old probe.new }
        {
            probe.add_goal(GoalSource::Misc, goal)?;
            let certainty = probe.try_evaluate_added_goals()?;
            let response = probe.evaluate_added_goals_and_make_canonical_response(certainty)?;
            Ok(response.value.certainty)
        },
    )
}

/// Makes two types one in the table, and answers how sure a rule about them is, which asks for a goal. Where the types cannot be made
/// one, or the goal has no solution, the table is as before.
#[tactic(auto, using(nts_contexts::proofs::Handed::handed, nts_contexts::proofs::Frames::keeps_then))]
pub fn use_rule(
    table: &mut InferCtxt,
    cx: &mut Cx,
    rules: &Clauses,
    lhs: GenericArg,
    rhs: GenericArg,
    goal: Goal,
) -> Result<Certainty, EvalError>
    requires table { IsTable cx.old.nodes table.old }
    requires ready { AreClausesReady cx.old.nodes rules.now }
    requires left { IsPlainSide any_argument cx.old.nodes table.old lhs.node }
    requires right { IsPlainSide any_argument cx.old.nodes table.old rhs.node }
    requires goal { IsPosed cx.old.nodes table.old goal }
    ensures err { OnErr result (table.new ≡ table.old) }
{
    let depth = cx.recursion_limit();
    EvalCtxt::enter_root(
        table,
        cx,
        rules,
        depth,
        Span(0),
        |ecx: &mut EvalCtxt<'_, Clauses>| -> Result<Certainty, EvalError>
            requires ready { IsContextReady AreClausesReady ecx.old }
            requires left { IsPlainSide any_argument ecx.old.cx.now.nodes ecx.old.table.now
                lhs.node }
            requires right { IsPlainSide any_argument ecx.old.cx.now.nodes ecx.old.table.now
                rhs.node }
            requires goal { IsGoalOfContext ecx.old goal }
            ensures keeps { KeepsContext AreClausesReady ecx.old ecx.new }
            ensures goals { OnOk result
                (ecx.new.state.now.nested_goals.items ≡ ecx.old.state.now.nested_goals.items) }
        {
            ecx.eq(goal.param_env, lhs, rhs)?;
            certainty_of(ecx, goal)
        },
    )
}

/// Whether an argument is of the table, and no alias stands in it.
pub(crate) fn is_plain(
    table: &InferCtxt,
    cx: &mut Cx,
    argument: GenericArg,
) -> Result<bool, EvalError>
    requires table { IsTable cx.old.nodes table.now }
    ensures plain { IfOk result (λ b. b ≡ true →
        IsPlainSide any_argument cx.new.nodes table.now argument.node) }
    ensures grows { Grows cx.old cx.new }
{
    if !cx.holds(argument) || !table.knows(cx, argument)? {
        return Ok(false);
    }
    let has_alias = table.has_alias(cx, argument)?;
    Ok(!has_alias)
}

/// The goal that a trait holds for a type.
pub(crate) fn goal_of(
    cx: &mut Cx,
    trait_id: TraitId,
    of: GenericArg,
) -> Result<Option<Goal>, EvalError>
    ensures { Grows cx.old cx.new }
{
    let param_env = cx.mk_env(&[])?;
    if !cx.holds(of) {
        return Ok(None);
    }
    match cx.trait_predicate(trait_id, &[of])? {
        Some(predicate) => Ok(Some(Goal {
            param_env,
            predicate,
        })),
        None => Ok(None),
    }
}

/// `Vec` of `u32` and of another type.
#[tactic(auto, using(nts_asking::proofs::Asking::asking, nts_terms::proofs::Moved::growth))]
pub(crate) fn vecs_of(
    cx: &mut Cx,
    vec: CtorId,
    element: GenericArg,
) -> Result<Option<(Ty, Ty)>, EvalError>
    ensures { Grows cx.old cx.new }
{
    let word = cx.mk_ty(TyKind::Uint(UintTy::U32))?;
    let Some(of_word) = vec_of(cx, vec, word.into())? else {
        return Ok(None);
    };
    if !cx.holds(element) {
        return Ok(None);
    }
    let Some(of_element) = vec_of(cx, vec, element)? else {
        return Ok(None);
    };
    Ok(Some((of_word, of_element)))
}

/// Uses the rule, where its types are of the table and no alias stands in them, and its goal may be asked.
#[tactic(auto, using(crate::proofs::Asked::asked))]
fn try_rule(
    table: &mut InferCtxt,
    cx: &mut Cx,
    rules: &Clauses,
    lhs: GenericArg,
    rhs: GenericArg,
    goal: Goal,
) -> Result<Option<Certainty>, EvalError>
    requires table { IsTable cx.old.nodes table.old }
    requires ready { AreClausesReady cx.old.nodes rules.now }
{
    if !cx.holds(goal.param_env) || !cx.holds(goal.predicate) {
        return Ok(None);
    }
    if !goal_is_admitted(table, cx, goal)? {
        return Ok(None);
    }
    if !is_plain(table, cx, lhs)? || !is_plain(table, cx, rhs)? {
        return Ok(None);
    }
    Ok(Some(use_rule(table, cx, rules, lhs, rhs, goal)?))
}

/// How sure the rule is for a new variable.
#[tactic(auto, using(nts_asking::proofs::Asking::asking, nts_terms::proofs::Moved::growth))]
fn use_rule_of_vec(
    table: &mut InferCtxt,
    cx: &mut Cx,
    rules: &mut Clauses,
) -> Result<Option<Certainty>, EvalError>
    requires table { IsTable cx.old.nodes table.old }
    requires ready { AreClausesReady cx.old.nodes rules.old }
{
    let clone = cx.declare_trait(&[Sort::Ty])?;
    let vec = cx.declare_ctor(&[Sort::Ty], &[Variance::Covariant])?;
    let element: GenericArg = table.next_ty_infer(cx)?.into();
    let Some((rhs, lhs)) = vecs_of(cx, vec, element)? else {
        return Ok(None);
    };
    let Some(goal) = goal_of(cx, clone, element)? else {
        return Ok(None);
    };
    let word = cx.mk_ty(TyKind::Uint(UintTy::U32))?;
    if !add_fact(cx, rules, clone, word.into())? {
        return Ok(None);
    }
    try_rule(table, cx, rules, lhs.into(), rhs.into(), goal)
}

/// How sure the rule is that makes `Vec(T)` and `Vec(u32)` one for an unknown `T`, which is to be `Clone`, where `u32` is: `Yes`. There
/// is no answer where a term does not fit.
pub fn rule_of_vec(alloc: Global) -> Result<Option<Certainty>, EvalError> {
    let mut cx = Cx::new(alloc);
    let mut table = InferCtxt::new(alloc, TypingMode::PostAnalysis);
    let mut rules = Clauses::new(alloc);
    use_rule_of_vec(&mut table, &mut cx, &mut rules)
}
