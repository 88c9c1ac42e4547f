//! What a whole line says: the goal that it asks, or the rule that it adds.
ghost use Rattle.std.specs.Prelude.{◌≡◌, All, IfOk, IsTrue, List};
ghost use Rattle.nts_model.specs.Terms.Trees.{Tree};
ghost use Rattle.nts_store.specs.Growth.{Extends, tree_at};
ghost use Rattle.nts_terms.specs.Handles.{HoldsEnv, HoldsGoal, HoldsPredicate};
ghost use Rattle.nts_terms.specs.Rest.{Grows};
ghost use Rattle.nts_terms.specs.Kinds.{tree_of_clause};
ghost use Rattle.nts_terms.specs.declared.kinds.ClauseKind.TheVariants as clause_kind;
ghost use Rattle.nts_delegate.specs.declared.clauses.Clause.{Clause};
ghost use Rattle.nts_wording.specs.Fitting.{HeadFits, IsDeclaredPredicate};
ghost use Rattle.nts_wording.specs.Meaning.{AreConditions, IsGivenEnvironment, IsEnvironmentFor, IsGoalFor, IsStatedRule, IsRuleFor, IsNormRuleFor};

use crate::build::{MISFIT, Terms, bound_clauses, clause_fits, positions, predicate_of};
use crate::status::Stop;
use crate::variables::LineVariables;
use nts_delegate::{Clause, NormClause};
use nts_model::Sort;
use nts_terms::{ClauseKind, Cx, Goal, ParamEnv, Predicate};
use nts_text::Resolved;

/// The goal that these nodes say, in this environment, or in the empty one.
#[tactic(auto, using(crate::proofs::Stores::growing))]
pub fn goal_of(
    cx: &mut Cx,
    env: Option<ParamEnv>,
    nodes: &[Resolved],
    terms: Terms<'_>,
) -> Result<Goal, Stop>
    ensures asks { IfOk result (IsGoalFor cx.new.nodes env terms.entry.variables.now
        terms.entry.values.now nodes.now) }
    ensures holds { IfOk result (λ g. HoldsGoal cx.new.nodes g) }
    ensures declared { IfOk result (λ g. IsDeclaredPredicate cx.new.declarations
        (tree_at cx.new.nodes g.predicate.node)) }
    ensures grows { Grows cx.old cx.new }
{
    let found = bound_clauses(cx, nodes, terms)?;
    let [bound] = found.as_slice() else {
        return Err(MISFIT);
    };
    let param_env = environment(cx, env)?;
    let predicate = predicate_of(cx, bound)?;
    Ok(Goal {
        param_env,
        predicate,
    })
}

/// This environment, or the empty one.
#[tactic(auto, using(crate::proofs::Stores::growing))]
fn environment(cx: &mut Cx, env: Option<ParamEnv>) -> Result<ParamEnv, Stop>
    ensures is { IfOk result (λ e. (us : List Tree) → Extends cx.new.nodes us →
        IsGivenEnvironment us env e) }
    ensures holds { IfOk result (λ e. HoldsEnv cx.new.nodes e) }
    ensures grows { Grows cx.old cx.new }
{
    let Some(env) = env else {
        let empty = cx.mk_env(&[])?;
        return Ok(empty);
    };
    if !cx.holds(env) {
        return Err(MISFIT);
    }
    Ok(env)
}

/// Whether all of these are predicates of this store.
fn are_held(cx: &Cx, predicates: &[Predicate]) -> bool
    ensures { IsTrue result → All (λ p. HoldsPredicate cx.now.nodes p) predicates.now }
{
    predicates.iter().all(|predicate| cx.holds(*predicate))
}

/// The environment that these nodes say, which name no variables.
#[tactic(auto, using(crate::proofs::Stores::growing))]
pub fn environment_of(cx: &mut Cx, nodes: &[Resolved]) -> Result<ParamEnv, Stop>
    ensures says { IfOk result (IsEnvironmentFor cx.new.nodes nodes.now) }
    ensures grows { Grows cx.old cx.new }
{
    let variables = LineVariables::new(cx.alloc);
    let terms = Terms {
        variables: &variables,
        values: &[],
    };
    let predicates = conditions(cx, nodes, terms)?;
    if !are_held(cx, &predicates) {
        return Err(MISFIT);
    }
    let env = cx.mk_env(&predicates)?;
    Ok(env)
}

/// What a line says of a trait or an alias, where its body holds.
#[derive(Drop)]
struct Rule {
    /// The sorts of its variables.
    fresh: Vec<Sort>,
    head: ClauseKind,
    body: Vec<Predicate>,
}

/// The rule that a line says.
#[tactic(auto, using(crate::proofs::Stores::growing))]
fn stated_rule(cx: &mut Cx, head: &[Resolved], body: &[Resolved]) -> Result<Rule, Stop>
    ensures rule { IfOk result (λ r. (us : List Tree) → Extends cx.new.nodes us → IsStatedRule us
        head.now body.now r.fresh.items (tree_of_clause us r.head) r.body.items) }
    ensures fits { IfOk result (λ r. (c : Clause) → r.head ≡ clause_kind.Trait
        (record { def_id = c.trait_id; args = c.head }) → HeadFits cx.new.declarations
        cx.new.nodes c.trait_id.number c) }
    ensures grows { Grows cx.old cx.new }
{
    let mut variables = LineVariables::new(cx.alloc);
    variables.see(head)?;
    variables.see(body)?;
    let values = positions(cx, &variables.sorts)?;
    let terms = Terms {
        variables: &variables,
        values: &values,
    };
    let heads = bound_clauses(cx, head, terms)?;
    let [head] = heads.as_slice() else {
        return Err(MISFIT);
    };
    if !head.binds.is_empty() {
        return Err(MISFIT);
    }
    if !clause_fits(cx, head.clause) {
        return Err(MISFIT);
    }
    let body = conditions(cx, body, terms)?;
    Ok(Rule {
        fresh: variables.sorts,
        head: head.clause,
        body,
    })
}

/// The rule of a trait that a line says: its head holds where its body does.
#[tactic(auto, using(crate::proofs::Stores::growing))]
pub fn clause_of(cx: &mut Cx, head: &[Resolved], body: &[Resolved]) -> Result<Clause, Stop>
    ensures rule { IfOk result (IsRuleFor cx.new.nodes head.now body.now) }
    ensures fits { IfOk result (λ c. HeadFits cx.new.declarations cx.new.nodes
        c.trait_id.number c) }
    ensures grows { Grows cx.old cx.new }
{
    let rule = stated_rule(cx, head, body)?;
    let ClauseKind::Trait(trait_ref) = rule.head else {
        return Err(MISFIT);
    };
    Ok(Clause {
        fresh: rule.fresh,
        trait_id: trait_ref.def_id,
        head: trait_ref.args,
        body: rule.body,
    })
}

/// What a line says that an alias normalizes to, where its body holds.
#[tactic(auto, using(crate::proofs::Stores::growing))]
pub fn norm_clause_of(cx: &mut Cx, head: &[Resolved], body: &[Resolved]) -> Result<NormClause, Stop>
    ensures rule { IfOk result (IsNormRuleFor cx.new.nodes head.now body.now) }
    ensures grows { Grows cx.old cx.new }
{
    let rule = stated_rule(cx, head, body)?;
    let ClauseKind::Projection { alias, term } = rule.head else {
        return Err(MISFIT);
    };
    Ok(NormClause {
        fresh: rule.fresh,
        alias: alias.def_id,
        head: alias.args,
        result: term,
        body: rule.body,
    })
}

/// The predicates that these nodes say.
#[tactic(auto, using(crate::proofs::Stores::growing))]
fn conditions(cx: &mut Cx, body: &[Resolved], terms: Terms<'_>) -> Result<Vec<Predicate>, Stop>
    ensures conditions { IfOk result (λ ps. AreConditions cx.new.nodes terms.entry.variables.now
        terms.entry.values.now body.now ps.items) }
    ensures grows { Grows cx.old cx.new }
{
    let found = bound_clauses(cx, body, terms)?;
    let mut predicates = Vec::new(cx.alloc);
    for bound in &found {
        predicates.push(predicate_of(cx, bound)?)?;
    }
    Ok(predicates)
}
