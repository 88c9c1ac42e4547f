//! A rule that relates two types and adds several goals.
ghost use Rattle.std.specs.Prelude.{◌≡◌, OnOk, OnErr};
ghost use Rattle.nts_model.specs.Terms.Trees.{any_argument};
ghost use Rattle.nts_delegate.specs.Clauses.{AreClausesReady};
ghost use Rattle.nts_table.specs.Tables.{IsTable, IsPlainSide};
ghost use Rattle.nts_terms.specs.Rest.{Grows};
ghost use Rattle.nts_meaning.specs.Evaluation.{IsPosed};
ghost use Rattle.nts_nested_goals.specs.Related.{IsEnvOf};
ghost use Rattle.nts_contexts.specs.Contexts.{IsContextReady, KeepsContext, IsGoalOfContext};

use crate::rule::{goal_of, is_plain, vecs_of};
use crate::terms::add_fact;
use next_trait_solver::clauses::Clauses;
use next_trait_solver::solve::{EvalCtxt, goal_is_admitted};
use next_trait_solver::ty::{
    Cx, EvalError, GenericArg, Goal, GoalSource, InferCtxt, ParamEnv, Sort, Span, TraitId, TyKind,
    TypingMode, UintTy, Variance,
};
use std::alloc::Global;

/// How many goals are left where two types are made one. It is found out in a probe.
#[tactic(auto, using(nts_contexts::proofs::Handed::handed, nts_contexts::proofs::Frames::keeps_then))]
fn count_equated(
    ecx: &mut EvalCtxt<'_, Clauses>,
    env: ParamEnv,
    lhs: GenericArg,
    rhs: GenericArg,
) -> Result<usize, EvalError>
    requires ready { IsContextReady AreClausesReady ecx.old }
    requires left { IsPlainSide any_argument ecx.old.cx.now.nodes ecx.old.table.now lhs.node }
    requires right { IsPlainSide any_argument ecx.old.cx.now.nodes ecx.old.table.now rhs.node }
    requires env { IsEnvOf ecx.old.cx.now ecx.old.table.now env }
    ensures keeps { KeepsContext AreClausesReady ecx.old ecx.new }
    ensures table { ecx.new.table.now ≡ ecx.old.table.now }
    ensures goals { ecx.new.state.now.nested_goals.items ≡ ecx.old.state.now.nested_goals.items }
{
    ecx.probe(
        |probe: &mut EvalCtxt<'_, Clauses>| -> Result<usize, EvalError>
            requires ready { IsContextReady AreClausesReady probe.old }
            requires left { IsPlainSide any_argument probe.old.cx.now.nodes
                probe.old.table.now lhs.node }
            requires right { IsPlainSide any_argument probe.old.cx.now.nodes
                probe.old.table.now rhs.node }
            requires env { IsEnvOf probe.old.cx.now probe.old.table.now env }
            ensures keeps { KeepsContext AreClausesReady probe.old probe.new }
        {
            let goals = probe.eq_and_get_goals(env, lhs, rhs)?;
            Ok(goals.len())
        },
    )
}

/// How many of two goals are left that are asked where the first type is made the lesser one. It is found out in a probe.
#[tactic(auto, using(nts_contexts::proofs::Handed::handed, nts_contexts::proofs::Frames::keeps_then))]
fn count_asked(
    ecx: &mut EvalCtxt<'_, Clauses>,
    lhs: GenericArg,
    rhs: GenericArg,
    first: Goal,
    second: Goal,
) -> Result<usize, EvalError>
    requires ready { IsContextReady AreClausesReady ecx.old }
    requires left { IsPlainSide any_argument ecx.old.cx.now.nodes ecx.old.table.now lhs.node }
    requires right { IsPlainSide any_argument ecx.old.cx.now.nodes ecx.old.table.now rhs.node }
    requires first { IsGoalOfContext ecx.old first }
    requires second { IsGoalOfContext ecx.old second }
    ensures keeps { KeepsContext AreClausesReady ecx.old ecx.new }
    ensures goals { ecx.new.state.now.nested_goals.items ≡ ecx.old.state.now.nested_goals.items }
{
    ecx.probe(
        |probe: &mut EvalCtxt<'_, Clauses>| -> Result<usize, EvalError>
            requires ready { IsContextReady AreClausesReady probe.old }
            requires left { IsPlainSide any_argument probe.old.cx.now.nodes
                probe.old.table.now lhs.node }
            requires right { IsPlainSide any_argument probe.old.cx.now.nodes
                probe.old.table.now rhs.node }
            requires first { IsGoalOfContext probe.old first }
            requires second { IsGoalOfContext probe.old second }
            ensures keeps { KeepsContext AreClausesReady probe.old probe.new }
        {
            probe.sub(first.param_env, lhs, rhs)?;
            probe.add_goals(GoalSource::Misc, &[first, second])?;
            probe.try_evaluate_added_goals()?;
            Ok(probe.state.nested_goals.len())
        },
    )
}

/// How many goals are left where two types are made one, and how many of two goals that are asked where the first type is made the
/// lesser one. Where the types cannot be related, or a goal has no solution, the table is as before.
#[tactic(auto, using(nts_contexts::proofs::Handed::handed, nts_contexts::proofs::Frames::keeps_then))]
pub fn count_goals(
    table: &mut InferCtxt,
    cx: &mut Cx,
    rules: &Clauses,
    lhs: GenericArg,
    rhs: GenericArg,
    first: Goal,
    second: Goal,
) -> Result<(usize, usize), EvalError>
    requires table { IsTable cx.old.nodes table.old }
    requires ready { AreClausesReady cx.old.nodes rules.now }
    requires left { IsPlainSide any_argument cx.old.nodes table.old lhs.node }
    requires right { IsPlainSide any_argument cx.old.nodes table.old rhs.node }
    requires first { IsPosed cx.old.nodes table.old first }
    requires second { IsPosed cx.old.nodes table.old second }
    ensures err { OnErr result (table.new ≡ table.old) }
{
    let depth = cx.recursion_limit();
    EvalCtxt::enter_root(
        table,
        cx,
        rules,
        depth,
        Span(0),
        |ecx: &mut EvalCtxt<'_, Clauses>| -> Result<(usize, usize), EvalError>
            requires ready { IsContextReady AreClausesReady ecx.old }
            requires left { IsPlainSide any_argument ecx.old.cx.now.nodes ecx.old.table.now
                lhs.node }
            requires right { IsPlainSide any_argument ecx.old.cx.now.nodes ecx.old.table.now
                rhs.node }
            requires first { IsGoalOfContext ecx.old first }
            requires second { IsGoalOfContext ecx.old second }
            ensures keeps { KeepsContext AreClausesReady ecx.old ecx.new }
            ensures goals { OnOk result
                (ecx.new.state.now.nested_goals.items ≡ ecx.old.state.now.nested_goals.items) }
        {
            let equated = count_equated(ecx, first.param_env, lhs, rhs)?;
            let asked = count_asked(ecx, lhs, rhs, first, second)?;
            Ok((equated, asked))
        },
    )
}

/// Counts the goals, where the types are of the table and no alias stands in them, and the goals may be asked.
#[tactic(auto, using(crate::proofs::Asked::asked))]
fn try_count(
    table: &mut InferCtxt,
    cx: &mut Cx,
    rules: &Clauses,
    lhs: GenericArg,
    rhs: GenericArg,
    first: Goal,
    second: Goal,
) -> Result<Option<(usize, usize)>, EvalError>
    requires table { IsTable cx.old.nodes table.old }
    requires ready { AreClausesReady cx.old.nodes rules.now }
{
    if !cx.holds(first.param_env) || !cx.holds(first.predicate) {
        return Ok(None);
    }
    if !cx.holds(second.param_env) || !cx.holds(second.predicate) {
        return Ok(None);
    }
    if !goal_is_admitted(table, cx, first)? || !goal_is_admitted(table, cx, second)? {
        return Ok(None);
    }
    if !is_plain(table, cx, lhs)? || !is_plain(table, cx, rhs)? {
        return Ok(None);
    }
    Ok(Some(count_goals(table, cx, rules, lhs, rhs, first, second)?))
}

/// Adds the rules that a trait holds for `u32` and for `u8`.
#[tactic(auto, using(nts_asking::proofs::Asking::asking, nts_terms::proofs::Moved::growth))]
fn add_facts(cx: &mut Cx, rules: &mut Clauses, trait_id: TraitId) -> Result<bool, EvalError>
    requires { AreClausesReady cx.old.nodes rules.old }
    ensures ready { OnOk result (AreClausesReady cx.new.nodes rules.new) }
    ensures grows { Grows cx.old cx.new }
{
    let word = cx.mk_ty(TyKind::Uint(UintTy::U32))?;
    if !add_fact(cx, rules, trait_id, word.into())? {
        return Ok(false);
    }
    let byte = cx.mk_ty(TyKind::Uint(UintTy::U8))?;
    add_fact(cx, rules, trait_id, byte.into())
}

/// Counts the goals that are left of a trait for two new variables.
#[tactic(auto, using(nts_asking::proofs::Asking::asking, nts_terms::proofs::Moved::growth))]
fn count_of_vec(
    table: &mut InferCtxt,
    cx: &mut Cx,
    rules: &mut Clauses,
) -> Result<Option<(usize, usize)>, EvalError>
    requires table { IsTable cx.old.nodes table.old }
    requires ready { AreClausesReady cx.old.nodes rules.old }
{
    let clone = cx.declare_trait(&[Sort::Ty])?;
    let vec = cx.declare_ctor(&[Sort::Ty], &[Variance::Covariant])?;
    let element: GenericArg = table.next_ty_infer(cx)?.into();
    let other: GenericArg = table.next_ty_infer(cx)?.into();
    let Some((rhs, lhs)) = vecs_of(cx, vec, element)? else {
        return Ok(None);
    };
    let Some(first) = goal_of(cx, clone, element)? else {
        return Ok(None);
    };
    let Some(second) = goal_of(cx, clone, other)? else {
        return Ok(None);
    };
    if !add_facts(cx, rules, clone)? {
        return Ok(None);
    }
    try_count(table, cx, rules, lhs.into(), rhs.into(), first, second)
}

/// How many goals are left where `Vec(T)` and `Vec(u32)` are made one for an unknown `T`, which is to be `Clone` as is another
/// unknown type, where `u32` and `u8` are: none, and then the second one. There is no answer where a term does not fit.
pub fn goals_of_vec(alloc: Global) -> Result<Option<(usize, usize)>, EvalError> {
    let mut cx = Cx::new(alloc);
    let mut table = InferCtxt::new(alloc, TypingMode::PostAnalysis);
    let mut rules = Clauses::new(alloc);
    count_of_vec(&mut table, &mut cx, &mut rules)
}
