//! Goals asked of two rules: the one trait holds for `u32` alone, and the other for the constructor over each type for
//! which the first one does. And one that no rule is for.
ghost use Rattle.std.specs.Prelude.{OnOk, IfOk};
ghost use Rattle.nts_terms.specs.Handles.{HoldsArg, HoldsGoal};
ghost use Rattle.nts_delegate.specs.Clauses.{AreClausesReady};
ghost use Rattle.nts_table.specs.Tables.{IsTable};
ghost use Rattle.nts_terms.specs.Rest.{Grows};

use nts_delegate::{Clause, Clauses};
use nts_evaluation::{evaluate_root_goal, goal_is_admitted};
use nts_fault_rows::{Called, content_of};
use nts_fixtures::Fixture;
use nts_model::{BoundVarIndexKind, Sort, UintTy};
use nts_store::EvalError;
use nts_terms::{
    Binder, BoundTy, ClauseKind, CtorId, Cx, DefId, GenericArg, GenericArgKind, Goal, Predicate,
    PredicateKind, RegionKind, Span, TraitId, TyKind,
};

/// The traits that goals are about.
#[derive(Clone, Copy)]
pub struct Traits {
    pub only: TraitId,
    pub over: TraitId,
}

/// Which rule a goal asks for.
#[derive(Clone, Copy, PartialEq, Eq)]
pub enum Rule {
    Fact,
    Condition,
}

/// Declares the traits.
pub fn traits_of(fixture: &mut Fixture) -> Result<Traits, EvalError>
    requires { IsTable fixture.old.cx.nodes fixture.old.table }
    ensures { IsTable fixture.new.cx.nodes fixture.new.table }
{
    let only = fixture.cx.declare_trait(&[Sort::Ty])?;
    let over = fixture.cx.declare_trait(&[Sort::Ty])?;
    Ok(Traits { only, over })
}

/// Adds a rule: over variables of these sorts the trait holds for the argument where the conditions hold.
#[tactic(auto, using(nts_asking::proofs::Asking::asking))]
fn add_rule(
    cx: &mut Cx,
    rules: &mut Clauses,
    fresh: Vec<Sort>,
    trait_id: TraitId,
    argument: GenericArg,
    body: Vec<Predicate>,
) -> Result<(), EvalError>
    requires argument { HoldsArg cx.old.nodes argument }
    requires ready { AreClausesReady cx.old.nodes rules.old }
    ensures ready { OnOk result (AreClausesReady cx.new.nodes rules.new) }
    ensures grows { Grows cx.old cx.new }
{
    let head = cx.mk_args(&[argument])?;
    let clause = Clause {
        fresh,
        trait_id,
        head,
        body,
    };
    if !Clauses::clause_fits(cx, &clause)? {
        return Err(EvalError::NoSolution);
    }
    rules.add_clause(cx, clause)?;
    Ok(())
}

/// Adds the rule with a condition.
#[tactic(auto, using(nts_asking::proofs::Asking::asking, nts_terms::proofs::Moved::growth))]
fn add_condition(
    cx: &mut Cx,
    rules: &mut Clauses,
    traits: Traits,
    one: CtorId,
) -> Result<(), EvalError>
    requires { AreClausesReady cx.old.nodes rules.old }
    ensures ready { OnOk result (AreClausesReady cx.new.nodes rules.new) }
    ensures grows { Grows cx.old cx.new }
{
    let any = cx.mk_ty(TyKind::Bound(BoundVarIndexKind::Canonical, BoundTy { var: 0 }))?;
    let Some(condition) = cx.trait_predicate(traits.only, &[any.into()])? else {
        return Err(EvalError::NoSolution);
    };
    let args = cx.mk_args(&[any.into()])?;
    if !cx.fits(DefId::Ctor(one), args) {
        return Err(EvalError::NoSolution);
    }
    let argument = cx.mk_ty(TyKind::Ctor(one, args))?;
    let mut fresh = Vec::new(cx.alloc);
    fresh.push(Sort::Ty)?;
    let mut body = Vec::new(cx.alloc);
    body.push(condition)?;
    add_rule(cx, rules, fresh, traits.over, argument.into(), body)
}

/// The two rules.
#[tactic(auto, using(nts_asking::proofs::Asking::asking, nts_terms::proofs::Moved::growth))]
pub fn rules_of(cx: &mut Cx, traits: Traits, one: CtorId) -> Result<Clauses, EvalError>
    ensures ready { IfOk result (AreClausesReady cx.new.nodes) }
    ensures grows { Grows cx.old cx.new }
{
    let mut rules = Clauses::new(cx.alloc);
    let word = cx.mk_ty(TyKind::Uint(UintTy::U32))?;
    let (none, nothing) = (Vec::new(cx.alloc), Vec::new(cx.alloc));
    add_rule(cx, &mut rules, none, traits.only, word.into(), nothing)?;
    add_condition(cx, &mut rules, traits, one)?;
    Ok(rules)
}

/// The goal that a trait holds for an argument.
pub fn goal_of(cx: &mut Cx, trait_id: TraitId, argument: GenericArg) -> Result<Goal, EvalError>
    ensures holds { IfOk result (HoldsGoal cx.new.nodes) }
    ensures grows { Grows cx.old cx.new }
{
    let param_env = cx.mk_env(&[])?;
    if !cx.holds(argument) {
        return Err(EvalError::NoSolution);
    }
    let Some(predicate) = cx.trait_predicate(trait_id, &[argument])? else {
        return Err(EvalError::NoSolution);
    };
    if !cx.holds(param_env) {
        return Err(EvalError::NoSolution);
    }
    Ok(Goal {
        param_env,
        predicate,
    })
}

/// The goal that a type outlives `'static`.
fn outlives_of(cx: &mut Cx, argument: GenericArg) -> Result<Goal, EvalError>
    ensures holds { IfOk result (λ g. HoldsGoal cx.new.nodes g) }
    ensures grows { Grows cx.old cx.new }
{
    let region = cx.mk_region(RegionKind::ReStatic)?;
    let vars = cx.mk_bound_vars(&[])?;
    let param_env = cx.mk_env(&[])?;
    if !cx.holds(argument) {
        return Err(EvalError::NoSolution);
    }
    let GenericArgKind::Type(ty) = argument.kind(cx) else {
        return Err(EvalError::NoSolution);
    };
    let value = PredicateKind::Clause(ClauseKind::TypeOutlives(ty, region));
    let predicate = cx.mk_predicate(Binder { vars, value })?;
    Ok(Goal {
        param_env,
        predicate,
    })
}

/// Evaluates a goal that may be asked.
#[tactic(auto, using(nts_asking::proofs::Asking::asking))]
fn evaluate(fixture: &mut Fixture, rules: &Clauses, goal: Goal) -> Result<Called, EvalError>
    requires table { IsTable fixture.old.cx.nodes fixture.old.table }
    requires ready { AreClausesReady fixture.old.cx.nodes rules.now }
    requires holds { HoldsGoal fixture.old.cx.nodes goal }
    ensures table { OnOk result (IsTable fixture.new.cx.nodes fixture.new.table) }
{
    if !goal_is_admitted(&fixture.table, &mut fixture.cx, goal)? {
        return Err(EvalError::NoSolution);
    }
    let before = content_of(fixture)?;
    let (cx, table) = (&mut fixture.cx, &mut fixture.table);
    let answer = match evaluate_root_goal(table, cx, rules, goal, Span(0), None) {
        Ok(_) => Ok(()),
        Err(error) => Err(error),
    };
    Ok(Called { before, answer })
}

/// Asks for a goal about an argument.
#[tactic(auto, using(nts_asking::proofs::Asking::asking, nts_terms::proofs::Moved::growth))]
pub fn ask(fixture: &mut Fixture, rule: Rule, argument: GenericArg) -> Result<Called, EvalError>
    requires { IsTable fixture.old.cx.nodes fixture.old.table }
    ensures { OnOk result (IsTable fixture.new.cx.nodes fixture.new.table) }
{
    let traits = traits_of(fixture)?;
    let asked = match rule {
        Rule::Fact => traits.only,
        Rule::Condition => traits.over,
    };
    let goal = goal_of(&mut fixture.cx, asked, argument)?;
    let rules = rules_of(&mut fixture.cx, traits, fixture.one)?;
    evaluate(fixture, &rules, goal)
}

/// Asks that a type outlives `'static`: the table gets a region constraint.
#[tactic(auto, using(nts_asking::proofs::Asking::asking))]
pub fn ask_outlives(fixture: &mut Fixture, argument: GenericArg) -> Result<Called, EvalError>
    requires { IsTable fixture.old.cx.nodes fixture.old.table }
    ensures { OnOk result (IsTable fixture.new.cx.nodes fixture.new.table) }
{
    let goal = outlives_of(&mut fixture.cx, argument)?;
    let rules = Clauses::new(fixture.cx.alloc);
    evaluate(fixture, &rules, goal)
}
