//! An alias that is related with a variable in a context.
ghost use Rattle.std.specs.Prelude.{◌≡◌, [], OnOk};
ghost use Rattle.nts_model.specs.Terms.Trees.{is, arguments, any_term};
ghost use Rattle.nts_delegate.specs.Clauses.{AreClausesReady};
ghost use Rattle.nts_table.specs.Tables.{IsTable, IsSide};
ghost use Rattle.nts_contexts.specs.Contexts.{IsContextReady, KeepsContext};
ghost use Rattle.nts_nested_goals.specs.Related.{IsEnvOf};

use crate::free::name_all;
use next_trait_solver::clauses::Clauses;
use next_trait_solver::solve::EvalCtxt;
use next_trait_solver::ty::{
    AliasDefId, AliasTerm, Cx, EvalError, InferCtxt, ParamEnv, Sort, Span, Term, TyKind, UintTy,
    Variance,
};
use nts_fixtures::{Fixture, Make, Name, Names};
use std::alloc::Global;
use std::process::Abort;

/// An alias of a type, and a term that it is related with.
#[derive(Drop)]
pub struct Related {
    pub given: &'static [(Name, Make)],
    /// Whether the alias is a const that is to be evaluated.
    pub is_const: bool,
    /// The alias's argument.
    pub of: Name,
    pub term: Name,
}

/// What relating the two comes to.
#[derive(Clone, Copy, PartialEq, Eq)]
pub struct Outcome {
    /// How many goals this adds, or why it does not.
    pub added: Result<usize, EvalError>,
    /// Whether the term is an alias, or has one in it, after a context that ends without goals.
    pub is_alias: bool,
    /// Whether the table has more variables then.
    pub has_grown: bool,
}

/// Sees what relating the two comes to.
pub fn sees(rt: &impl Abort, alloc: Global, related: &Related, outcome: Outcome) {
    let mut fixture = Fixture::new(alloc).expect(rt, "memory");
    let found = outcome_of(&mut fixture, related).expect(rt, "memory");
    assert!(rt; found == outcome);
}

fn outcome_of(fixture: &mut Fixture, related: &Related) -> Result<Outcome, EvalError>
    requires { IsTable fixture.old.cx.nodes fixture.old.table }
{
    let mut names = Names::new(fixture.cx.alloc);
    name_all(fixture, &mut names, related.given)?;
    let alias = alias_of(fixture, &names, related)?;
    let term = Term {
        node: names.term(related.term)?.node,
    };
    let before = fixture.table.variable_count();
    let added = try_out(fixture, alias, term);
    let _ = relate_alone(fixture, alias, term);
    fixture.seen(term)?;
    let is_alias = fixture.table.has_alias(&mut fixture.cx, term)?;
    Ok(Outcome {
        added,
        is_alias,
        has_grown: fixture.table.variable_count() != before,
    })
}

/// The alias of a type, or a const over a type that is to be evaluated.
fn alias_of(fixture: &mut Fixture, names: &Names, related: &Related) -> Result<AliasTerm, EvalError>
    requires { IsTable fixture.old.cx.nodes fixture.old.table }
    ensures { IsTable fixture.new.cx.nodes fixture.new.table }
{
    let args = fixture.args(&[names.term(related.of)?])?;
    let def_id = if related.is_const {
        declared_const(fixture)?
    } else {
        AliasDefId::Ty(fixture.item)
    };
    Ok(AliasTerm { def_id, args })
}

/// A const over a type, whose own type is `u8`.
pub(crate) fn declared_const(fixture: &mut Fixture) -> Result<AliasDefId, EvalError>
    requires { IsTable fixture.old.cx.nodes fixture.old.table }
    ensures { IsTable fixture.new.cx.nodes fixture.new.table }
{
    let byte = fixture.cx.mk_ty(TyKind::Uint(UintTy::U8))?;
    if !fixture.cx.is_const_type(&[Sort::Ty], byte)? {
        return Err(EvalError::NoSolution);
    }
    let id = fixture.cx.declare_const(&[Sort::Ty], byte)?;
    Ok(AliasDefId::Const(id))
}

/// How many goals relating the two adds, which is found out in a probe.
fn try_out(fixture: &mut Fixture, alias: AliasTerm, term: Term) -> Result<usize, EvalError>
    requires { IsTable fixture.old.cx.nodes fixture.old.table }
    ensures { IsTable fixture.new.cx.nodes fixture.new.table }
{
    fixture.seen(fixture.env)?;
    fixture.seen(alias.args)?;
    fixture.seen(term)?;
    let rules = Clauses::new(fixture.cx.alloc);
    count_added(
        &mut fixture.table,
        &mut fixture.cx,
        &rules,
        fixture.env,
        alias,
        term,
    )
}

/// Relates the two in a context that is to end without goals.
fn relate_alone(fixture: &mut Fixture, alias: AliasTerm, term: Term) -> Result<(), EvalError>
    requires { IsTable fixture.old.cx.nodes fixture.old.table }
    ensures { IsTable fixture.new.cx.nodes fixture.new.table }
{
    fixture.seen(fixture.env)?;
    fixture.seen(alias.args)?;
    fixture.seen(term)?;
    let rules = Clauses::new(fixture.cx.alloc);
    relate_in_root(
        &mut fixture.table,
        &mut fixture.cx,
        &rules,
        fixture.env,
        alias,
        term,
    )
}

/// How many goals relating an alias with a term adds to a context, in a probe.
#[tactic(auto, using(nts_contexts::proofs::Handed::handed, nts_contexts::proofs::Frames::keeps_then))]
fn count_in_probe(
    ecx: &mut EvalCtxt<'_, Clauses>,
    env: ParamEnv,
    alias: AliasTerm,
    term: Term,
) -> Result<usize, EvalError>
    requires ready { IsContextReady AreClausesReady ecx.old }
    requires env { IsEnvOf ecx.old.cx.now ecx.old.table.now env }
    requires alias { IsSide (is arguments) ecx.old.cx.now.nodes ecx.old.table.now alias.args.node }
    requires term { IsSide any_term ecx.old.cx.now.nodes ecx.old.table.now term.node }
    ensures keeps { KeepsContext AreClausesReady ecx.old ecx.new }
    ensures goals { ecx.new.state.now.nested_goals.items ≡ ecx.old.state.now.nested_goals.items }
{
    ecx.probe(
        |probe: &mut EvalCtxt<'_, Clauses>| -> Result<usize, EvalError>
            requires ready { IsContextReady AreClausesReady probe.old }
            requires env { IsEnvOf probe.old.cx.now probe.old.table.now env }
            requires alias { IsSide (is arguments) probe.old.cx.now.nodes probe.old.table.now
                alias.args.node }
            requires term { IsSide any_term probe.old.cx.now.nodes probe.old.table.now term.node }
            ensures keeps { KeepsContext AreClausesReady probe.old probe.new }
        {
            probe.relate_rigid_alias_non_alias(env, alias, Variance::Covariant, term)?;
            Ok(probe.state.nested_goals.len())
        },
    )
}

/// How many goals relating an alias with a term adds.
#[tactic(auto, using(nts_contexts::proofs::Handed::handed, nts_contexts::proofs::Frames::keeps_then))]
fn count_added(
    table: &mut InferCtxt,
    cx: &mut Cx,
    rules: &Clauses,
    env: ParamEnv,
    alias: AliasTerm,
    term: Term,
) -> Result<usize, EvalError>
    requires table { IsTable cx.old.nodes table.old }
    requires ready { AreClausesReady cx.old.nodes rules.now }
    requires env { IsEnvOf cx.old table.old env }
    requires alias { IsSide (is arguments) cx.old.nodes table.old alias.args.node }
    requires term { IsSide any_term cx.old.nodes table.old term.node }
    ensures { IsTable cx.new.nodes table.new }
{
    EvalCtxt::enter_root(
        table,
        cx,
        rules,
        1,
        Span(0),
        |ecx: &mut EvalCtxt<'_, Clauses>| -> Result<usize, EvalError>
            requires ready { IsContextReady AreClausesReady ecx.old }
            requires env { IsEnvOf ecx.old.cx.now ecx.old.table.now env }
            requires alias { IsSide (is arguments) ecx.old.cx.now.nodes ecx.old.table.now
                alias.args.node }
            requires term { IsSide any_term ecx.old.cx.now.nodes ecx.old.table.now term.node }
            ensures keeps { KeepsContext AreClausesReady ecx.old ecx.new }
            ensures goals { OnOk result
                (ecx.new.state.now.nested_goals.items ≡ ecx.old.state.now.nested_goals.items) }
        { count_in_probe(ecx, env, alias, term) },
    )
}

/// Relates an alias with a term in a context, and answers nothing where goals are left.
#[tactic(auto, using(nts_contexts::proofs::Handed::handed, nts_contexts::proofs::Frames::keeps_then))]
fn relate_in_root(
    table: &mut InferCtxt,
    cx: &mut Cx,
    rules: &Clauses,
    env: ParamEnv,
    alias: AliasTerm,
    term: Term,
) -> Result<(), EvalError>
    requires table { IsTable cx.old.nodes table.old }
    requires ready { AreClausesReady cx.old.nodes rules.now }
    requires env { IsEnvOf cx.old table.old env }
    requires alias { IsSide (is arguments) cx.old.nodes table.old alias.args.node }
    requires term { IsSide any_term cx.old.nodes table.old term.node }
    ensures { IsTable cx.new.nodes table.new }
{
    EvalCtxt::enter_root(
        table,
        cx,
        rules,
        1,
        Span(0),
        |ecx: &mut EvalCtxt<'_, Clauses>| -> Result<(), EvalError>
            requires ready { IsContextReady AreClausesReady ecx.old }
            requires env { IsEnvOf ecx.old.cx.now ecx.old.table.now env }
            requires alias { IsSide (is arguments) ecx.old.cx.now.nodes ecx.old.table.now
                alias.args.node }
            requires term { IsSide any_term ecx.old.cx.now.nodes ecx.old.table.now term.node }
            ensures keeps { KeepsContext AreClausesReady ecx.old ecx.new }
            ensures goals { OnOk result (ecx.new.state.now.nested_goals.items ≡ []) }
        {
            ecx.relate_rigid_alias_non_alias(env, alias, Variance::Covariant, term)?;
            if !ecx.state.nested_goals.is_empty() {
                return Err(EvalError::NoSolution);
            }
            Ok(())
        },
    )
}
