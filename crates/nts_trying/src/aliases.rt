//! Goals about an alias: that it is a term, or that it normalizes to one; and trait goals in which aliases stand.
ghost use Rattle.std.specs.Prelude.{◌≡◌, ◌↔◌, ◌⊎◌, IsTrue, true, false, List};
ghost use Rattle.nts_model.specs.Terms.Trees.{Tree, any_label, is_alias};
ghost use Rattle.nts_model.specs.Derivations.Related.{pair};
ghost use Rattle.nts_store.specs.Growth.{tree_at, IsIn};
ghost use Rattle.nts_variance.specs.Goals.{is_alias_node};
ghost use Rattle.nts_terms.specs.Kinds.{tree_of_statement};
ghost use Rattle.nts_terms.specs.Handles.{HoldsGoal};
ghost use Rattle.nts_terms.specs.Modes.{mode_of};
ghost use Rattle.nts_theory.specs.Aliasing.{SaysEqual};
ghost use Rattle.nts_theory.specs.RelatingCandidates.{IsCutIn};
ghost use Rattle.nts_trying.specs.Aliasing.{ConcernsAlias, AliasGoalIn, IsEquality, IsEquatedGoal};

use crate::normal::{EquatedAlias, is_alias_term};
use crate::outlives::is_closed_env;
use nts_model::AliasRelationDirection;
use nts_terms::{ClauseKind, Cx, Goal, PredicateKind, Term, TypingMode};

/// Whether a statement says of an alias that it is a term, or that it normalizes to one; or of a trait's arguments that the trait holds,
/// where an alias stands in the goal.
fn concerns_alias(statement: PredicateKind, has_alias: bool) -> bool
    ensures yes { result ≡ true → (ts : List Tree) → ConcernsAlias (tree_of_statement ts statement)
        has_alias }
    ensures no { result ≡ false → (ts : List Tree) → ConcernsAlias (tree_of_statement ts statement)
        has_alias → ⊥ }
{
    match statement {
        PredicateKind::NormalizesTo { .. } => true,
        PredicateKind::Clause(clause) => match clause {
            ClauseKind::Projection { .. } => true,
            ClauseKind::Trait(_) => has_alias,
            ClauseKind::HostEffect(_) => has_alias,
            _ => false,
        },
        _ => false,
    }
}

/// Whether an alias stands in a goal.
fn has_alias(cx: &Cx, goal: Goal) -> bool
    requires { HoldsGoal cx.now.nodes goal }
    ensures { result ≡ any_label is_alias (pair (tree_at cx.now.nodes goal.param_env.node)
        (tree_at cx.now.nodes goal.predicate.node)) }
{
    let env = cx.nodes.flags(goal.param_env.node);
    let says = cx.nodes.flags(goal.predicate.node);
    env.has_alias || says.has_alias
}

/// Whether a goal does, where it binds nothing, and neither its terms nor its environment have a bound variable that is without its
/// binder.
#[inline(never)]
pub(crate) fn is_alias_goal(cx: &Cx, goal: Goal) -> bool
    requires { HoldsGoal cx.now.nodes goal }
    ensures { IsTrue result ↔ AliasGoalIn cx.now.nodes goal }
{
    let predicate = goal.predicate.kind(cx);
    if !concerns_alias(predicate.value, has_alias(cx, goal)) {
        return false;
    }
    if predicate.vars.len(cx) != 0 {
        return false;
    }
    if !goal.predicate.has_closed_statement(cx) {
        return false;
    }
    cx.terms_are_formed();
    is_closed_env(cx, goal.param_env)
}

/// Whether aliases are normalized in that mode wherever they stand: in each but coherence.
fn is_outside(mode: &TypingMode) -> bool
    ensures { IsTrue result ↔ IsCutIn (mode_of mode.now) }
{
    !matches!(mode, TypingMode::Coherence)
}

/// Whether a statement says that two terms are equal, of which one may be an alias.
fn says_equal(statement: PredicateKind) -> bool
    ensures yes { result ≡ true → (ts : List Tree) → IsEquality (tree_of_statement ts statement) }
    ensures no { result ≡ false → (ts : List Tree) → IsEquality
        (tree_of_statement ts statement) → ⊥ }
{
    match statement {
        PredicateKind::AliasRelate(_, _, direction) => match direction {
            AliasRelationDirection::Equate => true,
            AliasRelationDirection::Subtype => false,
        },
        _ => false,
    }
}

/// Whether a term is an alias, or no alias stands in it.
fn is_alias_or_plain(cx: &Cx, t: Term) -> bool
    requires { IsIn cx.now.nodes t.node }
    ensures yes { result ≡ true → (is_alias_node (tree_at cx.now.nodes t.node) ≡ true) ⊎
        (any_label is_alias (tree_at cx.now.nodes t.node) ≡ false) }
    ensures no { result ≡ false → (is_alias_node (tree_at cx.now.nodes t.node) ≡ false) ×
        (any_label is_alias (tree_at cx.now.nodes t.node) ≡ true) }
{
    if is_alias_term(cx, t) {
        return true;
    }
    !cx.nodes.flags(t.node).has_alias
}

/// Whether a goal about an alias and a term says that the two are equal, and no alias stands in the term, or it is an alias.
#[inline(never)]
pub(crate) fn is_equality(cx: &Cx, goal: Goal, equated: EquatedAlias) -> bool
    requires holds { HoldsGoal cx.now.nodes goal }
    requires equated { IsEquatedGoal cx.now.nodes goal equated }
    ensures yes { result ≡ true → SaysEqual (tree_at cx.now.nodes goal.predicate.node) }
    ensures no { result ≡ false → SaysEqual (tree_at cx.now.nodes goal.predicate.node) → ⊥ }
{
    cx.terms_are_formed();
    if !is_alias_or_plain(cx, equated.term) {
        return false;
    }
    let predicate = goal.predicate.kind(cx);
    says_equal(predicate.value)
}

/// Whether a goal about an alias and a term, that was opened, is answered by what the alias normalizes to: outside of coherence each is,
/// and there one that says that the two are equal, if no alias stands in the term, or it is an alias, and the goal bound nothing.
#[inline(never)]
pub fn is_open_to_normalizing(
    cx: &Cx,
    mode: &TypingMode,
    goal: Goal,
    opened: Goal,
    equated: EquatedAlias,
) -> bool
    requires opened { HoldsGoal cx.now.nodes opened }
    requires equated { IsEquatedGoal cx.now.nodes opened equated }
    ensures open { result ≡ true → IsCutIn (mode_of mode.now) ⊎
        (goal.predicate ≡ opened.predicate) ×
        SaysEqual (tree_at cx.now.nodes opened.predicate.node) }
    ensures outside { IsCutIn (mode_of mode.now) → result ≡ true }
    ensures equal { goal.predicate ≡ opened.predicate →
        SaysEqual (tree_at cx.now.nodes opened.predicate.node) → result ≡ true }
{
    if is_outside(mode) {
        return true;
    }
    if goal.predicate != opened.predicate {
        return false;
    }
    is_equality(cx, opened, equated)
}
