//! Whether a context's goal leaves open what an alias is normalized to.
ghost use Rattle.std.specs.Prelude.{◌≡◌, OnOk};
ghost use Rattle.nts_model.specs.Terms.Trees.{any_argument};
ghost use Rattle.nts_delegate.specs.Clauses.{AreClausesReady};
ghost use Rattle.nts_table.specs.Tables.{IsTable, IsSide};
ghost use Rattle.nts_meaning.specs.Evaluation.{IsPosed};
ghost use Rattle.nts_contexts.specs.Contexts.{IsContextReady, KeepsContext, IsGoalOfContext};

use next_trait_solver::clauses::Clauses;
use next_trait_solver::solve::EvalCtxt;
use next_trait_solver::ty::{
    AliasDefId, AliasTerm, ClauseKind, Cx, DefId, EvalError, GenericArg, Goal, InferCtxt, ParamEnv,
    Predicate, PredicateKind, Sort, Span, Term, TraitRef, Ty,
};
use nts_fixtures::{Fixture, Make, Name, Names};
use std::alloc::Global;
use std::process::Abort;

/// A goal that normalizes the alias of a type.
#[derive(Drop)]
pub struct Asked {
    /// Terms that are made in the root universe.
    pub given: &'static [(Name, Make)],
    /// Terms that are made in the next one.
    pub later: &'static [(Name, Make)],
    /// Two terms that are made equal.
    pub equal: (Name, Name),
    /// A type of which the environment says that a trait holds.
    pub assumed: Option<Name>,
    /// The alias's argument.
    pub of: Name,
    /// What the alias is normalized to.
    pub term: Name,
}

/// Sees whether the goal leaves open what its term is.
pub fn sees(rt: &impl Abort, alloc: Global, asked: &Asked, is_free: bool) {
    let mut fixture = Fixture::new(alloc).expect(rt, "memory");
    let found = is_left_open(&mut fixture, asked).expect(rt, "memory");
    assert!(rt; found == is_free);
}

fn is_left_open(fixture: &mut Fixture, asked: &Asked) -> Result<bool, EvalError>
    requires { IsTable fixture.old.cx.nodes fixture.old.table }
{
    let mut names = Names::new(fixture.cx.alloc);
    name_all(fixture, &mut names, asked.given)?;
    fixture.universe()?;
    name_all(fixture, &mut names, asked.later)?;
    let param_env = environment(fixture, &names, asked.assumed)?;
    let predicate = normalization(fixture, &names, asked)?;
    let (lhs, rhs) = (names.term(asked.equal.0)?, names.term(asked.equal.1)?);
    fixture.seen(param_env)?;
    fixture.seen(predicate)?;
    fixture.seen(lhs)?;
    fixture.seen(rhs)?;
    let goal = Goal {
        param_env,
        predicate,
    };
    let rules = Clauses::new(fixture.cx.alloc);
    ask(&mut fixture.table, &mut fixture.cx, &rules, lhs, rhs, goal)
}

/// Makes terms, and gives them their names.
pub(crate) fn name_all(
    fixture: &mut Fixture,
    names: &mut Names,
    made: &[(Name, Make)],
) -> Result<(), EvalError>
    requires { IsTable fixture.old.cx.nodes fixture.old.table }
    ensures { IsTable fixture.new.cx.nodes fixture.new.table }
{
    for n in 0..made.len() {
        fixture.name(names, made[n].0, made[n].1)?;
    }
    Ok(())
}

/// The environment that says of this type that a trait holds for it.
#[tactic(auto, using(crate::proofs::Tabled::tabled))]
fn environment(
    fixture: &mut Fixture,
    names: &Names,
    assumed: Option<Name>,
) -> Result<ParamEnv, EvalError>
    requires { IsTable fixture.old.cx.nodes fixture.old.table }
    ensures { IsTable fixture.new.cx.nodes fixture.new.table }
{
    let Some(name) = assumed else {
        return Ok(fixture.env);
    };
    let def_id = fixture.cx.declare_trait(&[Sort::Ty])?;
    let args = fixture.args(&[names.term(name)?])?;
    if !fixture.cx.fits(DefId::Trait(def_id), args) {
        return Err(EvalError::NoSolution);
    }
    let of = TraitRef { def_id, args };
    let held = fixture.statement(PredicateKind::Clause(ClauseKind::Trait(of)))?;
    fixture.seen(held)?;
    Ok(fixture.cx.mk_env(&[held])?)
}

/// That the alias of a type is normalized to a term.
fn normalization(
    fixture: &mut Fixture,
    names: &Names,
    asked: &Asked,
) -> Result<Predicate, EvalError>
    requires { IsTable fixture.old.cx.nodes fixture.old.table }
    ensures { IsTable fixture.new.cx.nodes fixture.new.table }
{
    let def_id = AliasDefId::Ty(fixture.item);
    let args = fixture.args(&[names.term(asked.of)?])?;
    let node = names.term(asked.term)?.node;
    if !fixture.cx.fits(DefId::Alias(def_id), args) || !fixture.cx.holds(Ty { node }) {
        return Err(EvalError::NoSolution);
    }
    let goal = PredicateKind::NormalizesTo {
        alias: AliasTerm { def_id, args },
        term: Term { node },
    };
    fixture.statement(goal)
}

/// Makes two terms equal in a context, and asks whether the goal leaves open what its term is.
#[tactic(auto, using(nts_contexts::proofs::Handed::handed, nts_contexts::proofs::Frames::keeps_then))]
fn ask(
    table: &mut InferCtxt,
    cx: &mut Cx,
    rules: &Clauses,
    lhs: GenericArg,
    rhs: GenericArg,
    goal: Goal,
) -> Result<bool, EvalError>
    requires table { IsTable cx.old.nodes table.old }
    requires ready { AreClausesReady cx.old.nodes rules.now }
    requires left { IsSide any_argument cx.old.nodes table.old lhs.node }
    requires right { IsSide any_argument cx.old.nodes table.old rhs.node }
    requires goal { IsPosed cx.old.nodes table.old goal }
{
    EvalCtxt::enter_root(
        table,
        cx,
        rules,
        1,
        Span(0),
        |ecx: &mut EvalCtxt<'_, Clauses>| -> Result<bool, EvalError>
            requires ready { IsContextReady AreClausesReady ecx.old }
            requires left { IsSide any_argument ecx.old.cx.now.nodes ecx.old.table.now lhs.node }
            requires right { IsSide any_argument ecx.old.cx.now.nodes ecx.old.table.now rhs.node }
            requires goal { IsGoalOfContext ecx.old goal }
            ensures keeps { KeepsContext AreClausesReady ecx.old ecx.new }
            ensures goals { OnOk result
                (ecx.new.state.now.nested_goals.items ≡ ecx.old.state.now.nested_goals.items) }
        {
            ecx.eq_structurally_relating_aliases(goal.param_env, lhs, rhs)?;
            ecx.term_is_fully_unconstrained(goal)
        },
    )
}
