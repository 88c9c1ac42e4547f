//! What errors in a context and its probes leave behind.
ghost use Rattle.std.specs.Prelude.{◌≡◌, Err, IfSome, OnOk, OnErr};
ghost use Rattle.nts_model.specs.Terms.Trees.{any_argument};
ghost use Rattle.nts_delegate.specs.Clauses.{AreClausesReady};
ghost use Rattle.nts_table.specs.Tables.{IsTable, IsPlainSide};
ghost use Rattle.nts_meaning.specs.Evaluation.{Runs};
ghost use Rattle.nts_contexts.specs.Contexts.{IsContextReady, KeepsContext};

use crate::rule::is_plain;
use next_trait_solver::clauses::Clauses;
use next_trait_solver::resolve::eager_resolve_vars;
use next_trait_solver::solve::EvalCtxt;
use next_trait_solver::ty::{
    Cx, EvalError, GenericArg, InferCtxt, ParamEnv, Span, TyKind, TypingMode, UintTy,
};
use std::alloc::Global;

/// That error, if there is one.
fn answer_of(error: Option<EvalError>) -> Result<(), EvalError>
    ensures { IfSome error (λ e. result ≡ Err e) }
{
    match error {
        Some(error) => Err(error),
        None => Ok(()),
    }
}

/// Makes two types one in a probe of a probe, which then answers that error.
#[tactic(auto, using(nts_contexts::proofs::Handed::handed, nts_contexts::proofs::Frames::keeps_then))]
fn try_in_probes(
    ecx: &mut EvalCtxt<'_, Clauses>,
    env: ParamEnv,
    left: GenericArg,
    tried: GenericArg,
    error: Option<EvalError>,
) -> Result<(), EvalError>
    requires ready { IsContextReady AreClausesReady ecx.old }
    requires left { IsPlainSide any_argument ecx.old.cx.now.nodes ecx.old.table.now left.node }
    requires tried { IsPlainSide any_argument ecx.old.cx.now.nodes ecx.old.table.now tried.node }
    ensures keeps { KeepsContext AreClausesReady ecx.old ecx.new }
    ensures table { ecx.new.table.now ≡ ecx.old.table.now }
    ensures goals { ecx.new.state.now.nested_goals.items ≡ ecx.old.state.now.nested_goals.items }
{
    ecx.probe(
        |probe: &mut EvalCtxt<'_, Clauses>| -> Result<(), EvalError>
            requires ready { IsContextReady AreClausesReady probe.old }
            requires left { IsPlainSide any_argument probe.old.cx.now.nodes
                probe.old.table.now left.node }
            requires tried { IsPlainSide any_argument probe.old.cx.now.nodes
                probe.old.table.now tried.node }
            ensures keeps { KeepsContext AreClausesReady probe.old probe.new }
        {
            probe.probe(
                |deep: &mut EvalCtxt<'_, Clauses>| -> Result<(), EvalError>
                    requires ready { IsContextReady AreClausesReady deep.old }
                    requires left { IsPlainSide any_argument deep.old.cx.now.nodes
                        deep.old.table.now left.node }
                    requires tried { IsPlainSide any_argument deep.old.cx.now.nodes
                        deep.old.table.now tried.node }
                    ensures keeps { KeepsContext AreClausesReady deep.old deep.new }
                {
                    deep.eq_structurally_relating_aliases(env, left, tried)?;
                    answer_of(error)
                },
            )
        },
    )
}

/// Makes two types one in a probe of a probe, which then answers that error, and makes the first type and a third one the same in the
/// context itself, unless the context is to end by an error before. What the probes answer is passed over.
#[tactic(auto, using(nts_contexts::proofs::Handed::handed, nts_contexts::proofs::Frames::keeps_then))]
pub fn err_in_probes(
    table: &mut InferCtxt,
    cx: &mut Cx,
    rules: &Clauses,
    env: ParamEnv,
    sides: (GenericArg, GenericArg, GenericArg),
    inner: Option<EvalError>,
    outer: Option<EvalError>,
) -> Result<(), EvalError>
    requires table { IsTable cx.old.nodes table.old }
    requires ready { AreClausesReady cx.old.nodes rules.now }
    requires left { IsPlainSide any_argument cx.old.nodes table.old sides.0.node }
    requires tried { IsPlainSide any_argument cx.old.nodes table.old sides.1.node }
    requires right { IsPlainSide any_argument cx.old.nodes table.old sides.2.node }
    ensures runs { Runs cx.old cx.new table.old table.new }
    ensures err { OnErr result (table.new ≡ table.old) }
{
    let depth = cx.recursion_limit();
    let (left, tried, right) = sides;
    EvalCtxt::enter_root(
        table,
        cx,
        rules,
        depth,
        Span(0),
        |ecx: &mut EvalCtxt<'_, Clauses>| -> Result<(), EvalError>
            requires ready { IsContextReady AreClausesReady ecx.old }
            requires left { IsPlainSide any_argument ecx.old.cx.now.nodes ecx.old.table.now
                left.node }
            requires tried { IsPlainSide any_argument ecx.old.cx.now.nodes ecx.old.table.now
                tried.node }
            requires right { IsPlainSide any_argument ecx.old.cx.now.nodes ecx.old.table.now
                right.node }
            ensures keeps { KeepsContext AreClausesReady ecx.old ecx.new }
            ensures goals { OnOk result
                (ecx.new.state.now.nested_goals.items ≡ ecx.old.state.now.nested_goals.items) }
        {
            let _ = try_in_probes(ecx, env, left, tried, inner);
            answer_of(outer)?;
            ecx.eq_structurally_relating_aliases(env, left, right)
        },
    )
}

/// What a variable is known to be: nothing, the type that was tried in a probe, or the one that it was made the same as.
#[derive(Clone, Copy, PartialEq, Eq, Debug)]
pub enum Known {
    Nothing,
    Tried,
    Made,
}

/// What the table knows of a type that was a variable.
fn known_of(
    table: &InferCtxt,
    cx: &mut Cx,
    sides: (GenericArg, GenericArg, GenericArg),
) -> Result<Option<Known>, EvalError>
    requires { IsTable cx.old.nodes table.now }
{
    let (left, tried, right) = sides;
    if !cx.holds(left) || !table.knows(cx, left)? {
        return Ok(None);
    }
    let now = eager_resolve_vars(table, cx, left)?;
    if now == tried {
        return Ok(Some(Known::Tried));
    }
    if now == right {
        return Ok(Some(Known::Made));
    }
    Ok(Some(Known::Nothing))
}

/// What comes of such errors, and what is known then, where the types are of the table and no alias stands in them.
#[tactic(auto, using(crate::proofs::Asked::asked))]
fn try_errors(
    table: &mut InferCtxt,
    cx: &mut Cx,
    rules: &Clauses,
    sides: (GenericArg, GenericArg, GenericArg),
    inner: Option<EvalError>,
    outer: Option<EvalError>,
) -> Result<Option<(Result<(), EvalError>, Known)>, EvalError>
    requires table { IsTable cx.old.nodes table.old }
    requires ready { AreClausesReady cx.old.nodes rules.now }
{
    let (left, tried, right) = sides;
    let env = cx.mk_env(&[])?;
    if !is_plain(table, cx, left)? || !is_plain(table, cx, tried)? || !is_plain(table, cx, right)? {
        return Ok(None);
    }
    let answer = err_in_probes(table, cx, rules, env, sides, inner, outer);
    match known_of(table, cx, sides)? {
        Some(known) => Ok(Some((answer, known))),
        None => Ok(None),
    }
}

/// A new variable, `u32` and `u8`.
fn sides_of(
    table: &mut InferCtxt,
    cx: &mut Cx,
) -> Result<(GenericArg, GenericArg, GenericArg), EvalError>
    requires { IsTable cx.old.nodes table.old }
    ensures { IsTable cx.new.nodes table.new }
{
    let left = table.next_ty_infer(cx)?;
    let tried = cx.mk_ty(TyKind::Uint(UintTy::U32))?;
    let right = cx.mk_ty(TyKind::Uint(UintTy::U8))?;
    Ok((left.into(), tried.into(), right.into()))
}

/// A variable is made the same as `u32` in a probe of a probe, which answers the first error, and as `u8` in the context itself, unless
/// the second error ends it before. There is no answer where a term does not fit.
pub fn errors_of_probes(
    alloc: Global,
    inner: Option<EvalError>,
    outer: Option<EvalError>,
) -> Result<Option<(Result<(), EvalError>, Known)>, EvalError> {
    let mut cx = Cx::new(alloc);
    let mut table = InferCtxt::new(alloc, TypingMode::PostAnalysis);
    let sides = sides_of(&mut table, &mut cx)?;
    let rules = Clauses::new(alloc);
    try_errors(&mut table, &mut cx, &rules, sides, inner, outer)
}
