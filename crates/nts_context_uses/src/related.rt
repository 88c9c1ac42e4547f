//! Types with an alias in them, or with variables that may vary, related in a context: what rests on these is left as goals.
ghost use Rattle.std.specs.Prelude.{◌≡◌, OnOk, OnErr};
ghost use Rattle.nts_model.specs.Terms.Trees.{any_argument};
ghost use Rattle.nts_delegate.specs.Clauses.{AreClausesReady};
ghost use Rattle.nts_table.specs.Tables.{IsTable, IsSide};
ghost use Rattle.nts_contexts.specs.Contexts.{IsContextReady, KeepsContext};
ghost use Rattle.nts_nested_goals.specs.Related.{IsEnvOf};

use crate::terms::vec_of;
use next_trait_solver::clauses::Clauses;
use next_trait_solver::solve::EvalCtxt;
use next_trait_solver::ty::{
    AliasDefId, AliasKind, AliasTerm, Certainty, Cx, DefId, EvalError, GenericArg, GoalSource,
    InferCtxt, ParamEnv, Sort, Span, Ty, TyKind, TypingMode, UintTy, Variance,
};
use std::alloc::Global;

/// What is left where two types are related.
#[derive(Clone, Copy, PartialEq, Eq)]
pub struct Left {
    /// How many goals making the two equal answers.
    pub answered: usize,
    /// How many goals a context has that related the two.
    pub added: usize,
    /// How sure these are.
    pub certainty: Certainty,
}

/// How many goals making two types equal answers. It is found out in a probe.
#[tactic(auto, using(nts_contexts::proofs::Handed::handed, nts_contexts::proofs::Frames::keeps_then))]
fn count_answered(
    ecx: &mut EvalCtxt<'_, Clauses>,
    env: ParamEnv,
    lhs: GenericArg,
    rhs: GenericArg,
) -> Result<usize, EvalError>
    requires ready { IsContextReady AreClausesReady ecx.old }
    requires env { IsEnvOf ecx.old.cx.now ecx.old.table.now env }
    requires left { IsSide any_argument ecx.old.cx.now.nodes ecx.old.table.now lhs.node }
    requires right { IsSide any_argument ecx.old.cx.now.nodes ecx.old.table.now rhs.node }
    ensures keeps { KeepsContext AreClausesReady ecx.old ecx.new }
    ensures goals { ecx.new.state.now.nested_goals.items ≡ ecx.old.state.now.nested_goals.items }
{
    ecx.probe(
        |probe: &mut EvalCtxt<'_, Clauses>| -> Result<usize, EvalError>
            requires ready { IsContextReady AreClausesReady probe.old }
            requires env { IsEnvOf probe.old.cx.now probe.old.table.now env }
            requires left { IsSide any_argument probe.old.cx.now.nodes probe.old.table.now
                lhs.node }
            requires right { IsSide any_argument probe.old.cx.now.nodes probe.old.table.now
                rhs.node }
            ensures keeps { KeepsContext AreClausesReady probe.old probe.new }
        {
            let goals = probe.eq_and_get_goals(env, lhs, rhs)?;
            probe.add_goals(GoalSource::TypeRelating, &goals)?;
            Ok(goals.len())
        },
    )
}

/// What is left where two types are related by a variance, which is found out in a probe, and where making them equal answers so
/// many goals.
#[tactic(auto, using(nts_contexts::proofs::Handed::handed, nts_contexts::proofs::Frames::keeps_then))]
fn left_of(
    ecx: &mut EvalCtxt<'_, Clauses>,
    env: ParamEnv,
    lhs: GenericArg,
    variance: Variance,
    rhs: GenericArg,
    answered: usize,
) -> Result<Left, EvalError>
    requires ready { IsContextReady AreClausesReady ecx.old }
    requires env { IsEnvOf ecx.old.cx.now ecx.old.table.now env }
    requires left { IsSide any_argument ecx.old.cx.now.nodes ecx.old.table.now lhs.node }
    requires right { IsSide any_argument ecx.old.cx.now.nodes ecx.old.table.now rhs.node }
    ensures keeps { KeepsContext AreClausesReady ecx.old ecx.new }
    ensures goals { ecx.new.state.now.nested_goals.items ≡ ecx.old.state.now.nested_goals.items }
{
    ecx.probe(
        |probe: &mut EvalCtxt<'_, Clauses>| -> Result<Left, EvalError>
            requires ready { IsContextReady AreClausesReady probe.old }
            requires env { IsEnvOf probe.old.cx.now probe.old.table.now env }
            requires left { IsSide any_argument probe.old.cx.now.nodes probe.old.table.now
                lhs.node }
            requires right { IsSide any_argument probe.old.cx.now.nodes probe.old.table.now
                rhs.node }
            ensures keeps { KeepsContext AreClausesReady probe.old probe.new }
        {
            probe.relate(env, lhs, variance, rhs)?;
            let added = probe.state.nested_goals.len();
            let certainty = probe.try_evaluate_added_goals()?;
            Ok(Left {
                answered,
                added,
                certainty,
            })
        },
    )
}

/// Makes two types equal in a probe, and relates them by a variance in another, and answers what is left in each.
#[tactic(auto, using(nts_contexts::proofs::Handed::handed, nts_contexts::proofs::Frames::keeps_then))]
pub fn relate_in_probes(
    table: &mut InferCtxt,
    cx: &mut Cx,
    rules: &Clauses,
    env: ParamEnv,
    lhs: GenericArg,
    variance: Variance,
    rhs: GenericArg,
) -> Result<Left, EvalError>
    requires table { IsTable cx.old.nodes table.old }
    requires ready { AreClausesReady cx.old.nodes rules.now }
    requires env { IsEnvOf cx.old table.old env }
    requires left { IsSide any_argument cx.old.nodes table.old lhs.node }
    requires right { IsSide any_argument cx.old.nodes table.old rhs.node }
    ensures err { OnErr result (table.new ≡ table.old) }
{
    let depth = cx.recursion_limit();
    EvalCtxt::enter_root(
        table,
        cx,
        rules,
        depth,
        Span(0),
        |ecx: &mut EvalCtxt<'_, Clauses>| -> Result<Left, EvalError>
            requires ready { IsContextReady AreClausesReady ecx.old }
            requires env { IsEnvOf ecx.old.cx.now ecx.old.table.now env }
            requires left { IsSide any_argument ecx.old.cx.now.nodes ecx.old.table.now lhs.node }
            requires right { IsSide any_argument ecx.old.cx.now.nodes ecx.old.table.now rhs.node }
            ensures keeps { KeepsContext AreClausesReady ecx.old ecx.new }
            ensures goals { OnOk result
                (ecx.new.state.now.nested_goals.items ≡ ecx.old.state.now.nested_goals.items) }
        {
            let answered = count_answered(ecx, env, lhs, rhs)?;
            left_of(ecx, env, lhs, variance, rhs, answered)
        },
    )
}

/// What is left, where the types are of the table.
fn try_relate(
    table: &mut InferCtxt,
    cx: &mut Cx,
    rules: &Clauses,
    lhs: GenericArg,
    variance: Variance,
    rhs: GenericArg,
) -> Result<Option<Left>, EvalError>
    requires table { IsTable cx.old.nodes table.old }
    requires ready { AreClausesReady cx.old.nodes rules.now }
{
    let env = cx.mk_env(&[])?;
    if !cx.holds(lhs) || !cx.holds(rhs) {
        return Ok(None);
    }
    if !table.knows(cx, env)? || !table.knows(cx, lhs)? || !table.knows(cx, rhs)? {
        return Ok(None);
    }
    Ok(Some(relate_in_probes(table, cx, rules, env, lhs, variance, rhs)?))
}

/// `Vec(Item(u8))` and `Vec(u32)`, where `Item` is an alias.
fn alias_and_word(cx: &mut Cx) -> Result<Option<(Ty, Ty)>, EvalError> {
    let vec = cx.declare_ctor(&[Sort::Ty], &[Variance::Covariant])?;
    let item = cx.declare_alias(&[Sort::Ty], AliasKind::Projection)?;
    let def_id = AliasDefId::Ty(item);
    let byte = cx.mk_ty(TyKind::Uint(UintTy::U8))?;
    let args = cx.mk_args(&[byte.into()])?;
    if !cx.fits(DefId::Alias(def_id), args) {
        return Ok(None);
    }
    let alias = cx.mk_ty(TyKind::Alias(AliasTerm { def_id, args }))?;
    let Some(of_alias) = vec_of(cx, vec, alias.into())? else {
        return Ok(None);
    };
    let word = cx.mk_ty(TyKind::Uint(UintTy::U32))?;
    match vec_of(cx, vec, word.into())? {
        Some(of_word) => Ok(Some((of_alias, of_word))),
        None => Ok(None),
    }
}

/// What is left between `Vec(Item(u8))` and `Vec(u32)`, where `Item` is an alias: a goal that relates `Item(u8)` with `u32`. It has
/// no solution if the two are to be equal, since no clause says what `Item` is. There is no answer where a term does not fit.
pub fn goals_of_alias(alloc: Global, variance: Variance) -> Result<Option<Left>, EvalError> {
    let mut cx = Cx::new(alloc);
    let Some((lhs, rhs)) = alias_and_word(&mut cx)? else {
        return Ok(None);
    };
    let mut table = InferCtxt::new(alloc, TypingMode::PostAnalysis);
    let rules = Clauses::new(alloc);
    try_relate(
        &mut table,
        &mut cx,
        &rules,
        lhs.into(),
        variance,
        rhs.into(),
    )
}

/// Two new type variables.
fn two_variables(table: &mut InferCtxt, cx: &mut Cx) -> Result<(Ty, Ty), EvalError>
    requires { IsTable cx.old.nodes table.old }
    ensures { IsTable cx.new.nodes table.new }
{
    let lhs = table.next_ty_infer(cx)?;
    let rhs = table.next_ty_infer(cx)?;
    Ok((lhs, rhs))
}

/// What is left between two type variables: nothing where they are made equal, and a goal where one may be a subtype of the other.
pub fn goals_of_variables(alloc: Global, variance: Variance) -> Result<Option<Left>, EvalError> {
    let mut cx = Cx::new(alloc);
    let mut table = InferCtxt::new(alloc, TypingMode::PostAnalysis);
    let (lhs, rhs) = two_variables(&mut table, &mut cx)?;
    let rules = Clauses::new(alloc);
    try_relate(
        &mut table,
        &mut cx,
        &rules,
        lhs.into(),
        variance,
        rhs.into(),
    )
}
