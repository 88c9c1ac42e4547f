//! Which of the goals are asked that relating a candidate's equations with aliases leaves.
ghost use Rattle.std.specs.Prelude.{◌≡◌, ◌⊎◌, true, false, All};
ghost use Rattle.nts_model.specs.Derivations.Rules.{coherence};
ghost use Rattle.nts_store.specs.Growth.{tree_at};
ghost use Rattle.nts_terms.specs.Handles.{HoldsGoal};
ghost use Rattle.nts_terms.specs.Modes.{mode_of};
ghost use Rattle.nts_theory.specs.Aliasing.{SaysEqual};
ghost use Rattle.nts_theory.specs.RelatingCandidates.{IsCutIn};
ghost use Rattle.nts_trying.specs.Outliving.{IsClosedEnv};

use crate::aliases::is_equality;
use crate::normal::equated_in;
use nts_certainty::GoalSource;
use nts_terms::{Cx, Goal, TypingMode};

/// Whether the goals that relating left are asked in that mode: in each but coherence, and there if each of them says that an alias is
/// equal to a term in which no alias stands, or to another alias.
pub fn may_ask(mode: &TypingMode, equalities: bool) -> bool
    ensures yes { result ≡ true → IsCutIn (mode_of mode.now) ⊎ (equalities ≡ true) }
    ensures no { result ≡ false → mode_of mode.now ≡ coherence }
    ensures asked { mode_of mode.now ≡ coherence → result ≡ equalities }
{
    match mode {
        TypingMode::Coherence => equalities,
        TypingMode::Analysis { .. } => true,
        TypingMode::Borrowck { .. } => true,
        TypingMode::PostBorrowckAnalysis { .. } => true,
        TypingMode::PostAnalysis => true,
        TypingMode::ErasedNotCoherence => true,
    }
}

/// Whether a goal says that an alias is equal to a term in which no alias stands, or to another alias.
fn says_equality(cx: &Cx, goal: Goal) -> bool
    requires { HoldsGoal cx.now.nodes goal }
    ensures yes { result ≡ true → SaysEqual (tree_at cx.now.nodes goal.predicate.node) }
    ensures no { result ≡ false → IsClosedEnv (tree_at cx.now.nodes goal.param_env.node) →
        SaysEqual (tree_at cx.now.nodes goal.predicate.node) → ⊥ }
{
    let Some(equated) = equated_in(cx, goal) else {
        return false;
    };
    is_equality(cx, goal, equated)
}

/// Whether each of the goals does.
#[inline(never)]
pub(crate) fn are_equalities(cx: &Cx, goals: &[(GoalSource, Goal)]) -> bool
    requires { All (λ z. HoldsGoal cx.now.nodes z.1) goals.now }
    ensures yes { result ≡ true → All (λ z. SaysEqual (tree_at cx.now.nodes z.1.predicate.node))
        goals.now }
    ensures no { result ≡ false →
        All (λ z. IsClosedEnv (tree_at cx.now.nodes z.1.param_env.node)) goals.now →
        All (λ z. SaysEqual (tree_at cx.now.nodes z.1.predicate.node)) goals.now → ⊥ }
{
    for added in goals {
        if !says_equality(cx, added.1) {
            return false;
        }
    }
    true
}
