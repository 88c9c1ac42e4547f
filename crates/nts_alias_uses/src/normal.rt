//! A term that is normalized in a context, or is to be a subtype there, by the one clause of its alias.
ghost use Rattle.std.specs.Prelude.{◌≡◌, [], IfOk, OnOk};
ghost use Rattle.nts_model.specs.Terms.Trees.{any_term};
ghost use Rattle.nts_delegate.specs.Clauses.{AreClausesReady};
ghost use Rattle.nts_table.specs.Tables.{IsTable, IsSide};
ghost use Rattle.nts_terms.specs.Rest.{Grows};
ghost use Rattle.nts_contexts.specs.Contexts.{IsContextReady, KeepsContext};
ghost use Rattle.nts_nested_goals.specs.Related.{IsEnvOf};

use crate::rigid::declared_const;
use next_trait_solver::clauses::{Clauses, NormClause};
use next_trait_solver::solve::EvalCtxt;
use next_trait_solver::ty::{
    AliasDefId, AliasTerm, Const, ConstKind, Cx, DefId, EvalError, InferCtxt, ParamEnv, Span, Term,
    Ty, TyKind, UintTy,
};
use nts_fixtures::Fixture;
use std::alloc::Global;
use std::process::Abort;

/// The call that normalizes a term.
#[derive(Clone, Copy)]
pub enum Call {
    Term,
    Ty,
    Const,
    /// The term is to be a subtype of what its clause gives. That is answered where it holds.
    Sub,
}

/// An alias, and what its one clause gives: `u32` for the alias of `u8`, or the value 3 of type `u8` for a const over it.
#[derive(Clone, Copy)]
pub enum Given {
    Type,
    Value,
    /// No clause is given for the alias of `u8`.
    Nothing,
}

/// Sees what the call comes to: whether it answers what the clause gives, or why there is no answer.
pub fn sees(
    rt: &impl Abort,
    alloc: Global,
    given: Given,
    call: Call,
    outcome: Result<bool, EvalError>,
) {
    let found = outcome_of(alloc, given, call).expect(rt, "memory");
    assert!(rt; found == outcome);
}

fn outcome_of(
    alloc: Global,
    given: Given,
    call: Call,
) -> Result<Result<bool, EvalError>, EvalError> {
    let mut fixture = Fixture::new(alloc)?;
    let (alias, term, value) = terms_of(&mut fixture, given)?;
    let rules = rules_of(&fixture.cx, given, alias, value)?;
    fixture.seen(fixture.env)?;
    fixture.seen(term)?;
    fixture.seen(value)?;
    let found = normalize_in_root(
        &mut fixture.table,
        &mut fixture.cx,
        &rules,
        fixture.env,
        term,
        value,
        call,
    );
    Ok(match found {
        Ok(term) => Ok(term.node == value.node),
        Err(error) => Err(error),
    })
}

/// The alias, itself as a term, and what its clause gives.
fn terms_of(fixture: &mut Fixture, given: Given) -> Result<(AliasTerm, Term, Term), EvalError>
    requires { IsTable fixture.old.cx.nodes fixture.old.table }
    ensures { IsTable fixture.new.cx.nodes fixture.new.table }
{
    let alias = alias_of(fixture, given)?;
    let term = term_of(&mut fixture.cx, alias)?;
    let value = value_of(&mut fixture.cx, given)?;
    Ok((alias, term, value))
}

/// The alias of `u8`, or a const over it that is to be evaluated.
fn alias_of(fixture: &mut Fixture, given: Given) -> Result<AliasTerm, EvalError>
    requires { IsTable fixture.old.cx.nodes fixture.old.table }
    ensures { IsTable fixture.new.cx.nodes fixture.new.table }
{
    let byte = fixture.ty(TyKind::Uint(UintTy::U8))?;
    let args = fixture.args(&[byte])?;
    let def_id = match given {
        Given::Value => declared_const(fixture)?,
        _ => AliasDefId::Ty(fixture.item),
    };
    Ok(AliasTerm { def_id, args })
}

/// The alias as a term.
fn term_of(cx: &mut Cx, alias: AliasTerm) -> Result<Term, EvalError>
    ensures { Grows cx.old cx.new }
{
    if !cx.holds(alias.args) || !cx.fits(DefId::Alias(alias.def_id), alias.args) {
        return Err(EvalError::NoSolution);
    }
    match alias.def_id {
        AliasDefId::Ty(_) => Ok(cx.mk_ty(TyKind::Alias(alias))?.into()),
        AliasDefId::Const(_) => Ok(cx.mk_const(ConstKind::Unevaluated(alias))?.into()),
    }
}

/// What the clause gives.
fn value_of(cx: &mut Cx, given: Given) -> Result<Term, EvalError>
    ensures { Grows cx.old cx.new }
{
    match given {
        Given::Value => {
            let ty = cx.mk_ty(TyKind::Uint(UintTy::U8))?;
            Ok(cx.mk_const(ConstKind::Value { ty, bits: 3 })?.into())
        }
        _ => Ok(cx.mk_ty(TyKind::Uint(UintTy::U32))?.into()),
    }
}

/// The clause that the alias normalizes to the value, if one is given.
fn rules_of(cx: &Cx, given: Given, alias: AliasTerm, value: Term) -> Result<Clauses, EvalError>
    ensures { IfOk result (AreClausesReady cx.now.nodes) }
{
    let mut rules = Clauses::new(cx.alloc);
    if matches!(given, Given::Nothing) {
        return Ok(rules);
    }
    let clause = NormClause {
        fresh: Vec::new(cx.alloc),
        alias: alias.def_id,
        head: alias.args,
        result: value,
        body: Vec::new(cx.alloc),
    };
    if !Clauses::norm_clause_fits(cx, &clause)? || !rules.add_norm_clause(clause)? {
        return Err(EvalError::NoSolution);
    }
    Ok(rules)
}

/// Normalizes a term by a call that takes it, if it is of the kind that the call takes; or relates it with the value.
fn normalize(
    ecx: &mut EvalCtxt<'_, Clauses>,
    env: ParamEnv,
    term: Term,
    value: Term,
    call: Call,
) -> Result<Term, EvalError>
    requires ready { IsContextReady AreClausesReady ecx.old }
    requires env { IsEnvOf ecx.old.cx.now ecx.old.table.now env }
    requires term { IsSide any_term ecx.old.cx.now.nodes ecx.old.table.now term.node }
    requires value { IsSide any_term ecx.old.cx.now.nodes ecx.old.table.now value.node }
    ensures keeps { KeepsContext AreClausesReady ecx.old ecx.new }
{
    let node = term.node;
    match call {
        Call::Term => ecx.structurally_normalize_term(env, term),
        Call::Ty => {
            if !ecx.cx.holds(Ty { node }) {
                return Err(EvalError::NoSolution);
            }
            Ok(ecx.structurally_normalize_ty(env, Ty { node })?.into())
        }
        Call::Const => {
            if !ecx.cx.holds(Const { node }) {
                return Err(EvalError::NoSolution);
            }
            Ok(
                ecx.structurally_normalize_const(env, Const { node })?
                    .into(),
            )
        }
        Call::Sub => is_below(ecx, env, term, value),
    }
}

/// Asks whether a term is a subtype of another, which is then answered.
fn is_below(
    ecx: &mut EvalCtxt<'_, Clauses>,
    env: ParamEnv,
    term: Term,
    value: Term,
) -> Result<Term, EvalError>
    requires ready { IsContextReady AreClausesReady ecx.old }
    requires env { IsEnvOf ecx.old.cx.now ecx.old.table.now env }
    requires term { IsSide any_term ecx.old.cx.now.nodes ecx.old.table.now term.node }
    requires value { IsSide any_term ecx.old.cx.now.nodes ecx.old.table.now value.node }
    ensures keeps { KeepsContext AreClausesReady ecx.old ecx.new }
{
    ecx.sub(env, term, value)?;
    ecx.try_evaluate_added_goals()?;
    Ok(value)
}

/// Normalizes a term in a context, and answers nothing where goals are left.
#[tactic(auto, using(nts_contexts::proofs::Handed::handed, nts_contexts::proofs::Frames::keeps_then))]
fn normalize_in_root(
    table: &mut InferCtxt,
    cx: &mut Cx,
    rules: &Clauses,
    env: ParamEnv,
    term: Term,
    value: Term,
    call: Call,
) -> Result<Term, EvalError>
    requires table { IsTable cx.old.nodes table.old }
    requires ready { AreClausesReady cx.old.nodes rules.now }
    requires env { IsEnvOf cx.old table.old env }
    requires term { IsSide any_term cx.old.nodes table.old term.node }
    requires value { IsSide any_term cx.old.nodes table.old value.node }
{
    let depth = cx.recursion_limit();
    EvalCtxt::enter_root(
        table,
        cx,
        rules,
        depth,
        Span(0),
        |ecx: &mut EvalCtxt<'_, Clauses>| -> Result<Term, EvalError>
            requires ready { IsContextReady AreClausesReady ecx.old }
            requires env { IsEnvOf ecx.old.cx.now ecx.old.table.now env }
            requires term { IsSide any_term ecx.old.cx.now.nodes ecx.old.table.now term.node }
            requires value { IsSide any_term ecx.old.cx.now.nodes ecx.old.table.now value.node }
            ensures keeps { KeepsContext AreClausesReady ecx.old ecx.new }
            ensures goals { OnOk result (ecx.new.state.now.nested_goals.items ≡ []) }
        {
            let found = normalize(ecx, env, term, value, call)?;
            if !ecx.state.nested_goals.is_empty() {
                // a root context is left without goals
                return Err(EvalError::Full);
            }
            Ok(found)
        },
    )
}
