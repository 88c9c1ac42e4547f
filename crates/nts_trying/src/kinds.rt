//! Which goals the handler's candidates answer.
ghost use Rattle.std.specs.Prelude.{ℕ, ◌≡◌, ◌↔◌, IsTrue, IsNone, List, IfSome};
ghost use Rattle.nts_model.specs.declared.labels.Variance.{Variance};
ghost use Rattle.nts_model.specs.Terms.Trees.{Tree};
ghost use Rattle.nts_model.specs.Derivations.Rules.{goal_kind};
ghost use Rattle.nts_model.specs.Derivations.Handlers.{meaning};
ghost use Rattle.nts_meaning.specs.nts_search.specs.Kinds.{goal_kind_of};
ghost use Rattle.nts_model.specs.Derivations.Sequents.{HasClosedStatements};
ghost use Rattle.nts_store.specs.Growth.{tree_at};
ghost use Rattle.nts_meaning.specs.Evaluation.{IsAskedGoal, SaysOfTrait};
ghost use Rattle.nts_trying.specs.Rows.{IsRowOf};
ghost use Rattle.nts_terms.specs.Handles.{HoldsArgs, HoldsEnv, HoldsGoal};
ghost use Rattle.nts_terms.specs.Kinds.{StatementFits, tree_of_statement};
ghost use Rattle.nts_theory.specs.Telling.{IsTraitStatement};

use crate::aliases::is_alias_goal;
use crate::normal::{EquatedAlias, equated_in};
use crate::outlives::{Outlives, outlives_in};
use crate::own::{OwnGoal, own_goal_in};
use crate::subtypes::{TypePair, types_in};
use nts_delegate::GoalHandler;
use nts_meaning::nts_search::CurrentGoalKind;
use nts_terms::{ClauseKind, Cx, Goal, ParamEnv, PredicateKind, TraitRef};

/// Whether a goal is answered by the handler's candidates: a closed goal of a trait that binds nothing, and
/// that has neither aliases nor positions of a canonical value, and each bound variable of which is of the
/// list of its binder. In its environment, too, no bound variable names a binder that binds nothing.
#[inline(never)]
pub(crate) fn is_candidates_goal(cx: &Cx, goal: Goal) -> bool
    requires { HoldsGoal cx.now.nodes goal }
    ensures { IsTrue result ↔ IsAskedGoal cx.now.nodes goal }
{
    let env = cx.nodes.flags(goal.param_env.node);
    let flags = cx.nodes.flags(goal.predicate.node);
    if env.has_canonical || flags.has_canonical || flags.has_alias || env.has_alias {
        return false;
    }
    if !cx.nodes.is_well_bound(goal.param_env.node) {
        return false;
    }
    if !cx.nodes.is_well_bound(goal.predicate.node) {
        return false;
    }
    let predicate = goal.predicate.kind(cx);
    if env.escaping.is_some() || predicate.vars.len(cx) != 0 {
        return false;
    }
    if !statements_are_closed(cx, goal.param_env) {
        return false;
    }
    let Some(trait_ref) = trait_of(predicate.value) else {
        return false;
    };
    cx.terms_are_formed();
    let args = cx.nodes.flags(trait_ref.args.node);
    args.escaping.is_none()
}

/// The trait and its arguments, where a statement says of them that the trait holds, or that it holds as an effect of the host.
fn trait_of(statement: PredicateKind) -> Option<TraitRef>
    ensures is { IfSome result (λ r. (ts : List Tree) → SaysOfTrait ts r
        (tree_of_statement ts statement)) }
    ensures holds { IfSome result (λ r. (ts : List Tree) → StatementFits ts statement →
        HoldsArgs ts r.args) }
    ensures none { IsNone result → (ts : List Tree) → IsTraitStatement (tree_of_statement ts
        statement) → ⊥ }
{
    let PredicateKind::Clause(clause) = statement else {
        return None;
    };
    match clause {
        ClauseKind::Trait(trait_ref) => Some(trait_ref),
        ClauseKind::HostEffect(trait_ref) => Some(trait_ref),
        _ => None,
    }
}

/// Whether no bound variable names a binder of the environment that binds nothing.
#[inline(never)]
pub fn statements_are_closed(cx: &Cx, env: ParamEnv) -> bool
    requires { HoldsEnv cx.now.nodes env }
    ensures { IsTrue result ↔ HasClosedStatements (tree_at cx.now.nodes env.node) }
{
    for i in 0..env.len(cx) {
        if !env.get(cx, i).has_closed_statement(cx) {
            return false;
        }
    }
    true
}

/// By what a goal is answered.
#[derive(Clone, Copy)]
pub enum GoalRow {
    /// By the candidates of the handler.
    Candidates(Goal),
    /// By a region constraint: it says that a type or a region outlives a region.
    Outlives(Goal, Outlives),
    /// By the engine itself, and what the handler judges.
    Own(Goal, OwnGoal),
    /// By relating two types, of which it says that the first is a subtype of the second.
    Subtype(Goal, TypePair),
    /// By the candidates of the handler too: it says what an alias is.
    Alias(Goal),
    /// By normalizing an alias, of which it says that it is equal to a term.
    Equated(Goal, EquatedAlias),
    /// It is ambiguous: nothing answers a goal of its kind, or with its terms.
    Unanswered(Goal),
    /// It is ambiguous: it binds variables, and can't be opened.
    Unopened,
}

/// By what a goal is answered that was opened, or that could not be.
#[inline(never)]
pub fn goal_row(cx: &Cx, opened: Option<Goal>) -> GoalRow
    requires { IfSome opened (HoldsGoal cx.now.nodes) }
    ensures { IsRowOf cx.now.nodes opened result }
{
    match opened {
        Some(goal) => {
            if is_candidates_goal(cx, goal) {
                return GoalRow::Candidates(goal);
            }
            if let Some(outlives) = outlives_in(cx, goal) {
                return GoalRow::Outlives(goal, outlives);
            }
            if let Some(own) = own_goal_in(cx, goal) {
                return GoalRow::Own(goal, own);
            }
            if let Some(types) = types_in(cx, goal) {
                return GoalRow::Subtype(goal, types);
            }
            if is_alias_goal(cx, goal) {
                return GoalRow::Alias(goal);
            }
            if let Some(equated) = equated_in(cx, goal) {
                return GoalRow::Equated(goal, equated);
            }
            GoalRow::Unanswered(goal)
        }
        None => GoalRow::Unopened,
    }
}

/// What kind of goal it is, for the steps from it.
#[inline(never)]
pub fn goal_kind<H: GoalHandler>(cx: &Cx, handler: &H, goal: Goal) -> CurrentGoalKind
    requires { HoldsGoal cx.now.nodes goal }
    ensures kind { (ts : List Tree) (v : ℕ → List Variance) →
        goal_kind_of result ≡ goal_kind (meaning (H.handler ts handler.now) v)
        (tree_at cx.now.nodes goal.predicate.node) }
{
    match goal.predicate.kind(cx).value {
        PredicateKind::Clause(ClauseKind::Trait(trait_ref)) => {
            if handler.trait_is_coinductive(trait_ref.def_id) {
                return CurrentGoalKind::CoinductiveTrait;
            }
            CurrentGoalKind::Misc
        }
        PredicateKind::NormalizesTo { .. } => CurrentGoalKind::NormalizesTo,
        _ => CurrentGoalKind::Misc,
    }
}
