//! Which goals of a candidate are asked as they stand.
ghost use Rattle.std.specs.Prelude.{◌≡◌, true, false, All, IfOk, List};
ghost use Rattle.nts_model.specs.Terms.Trees.{Tree};
ghost use Rattle.nts_model.specs.Derivations.Rules.{coherence};
ghost use Rattle.nts_store.specs.Growth.{tree_at};
ghost use Rattle.nts_terms.specs.Kinds.{tree_of_statement};
ghost use Rattle.nts_terms.specs.Handles.{HoldsGoal};
ghost use Rattle.nts_terms.specs.Modes.{mode_of};
ghost use Rattle.nts_theory.specs.AskedGoals.{is_engines, is_asked, all_asked, asked_in};
ghost use Rattle.nts_meaning.specs.Evaluation.{goals_at};
ghost use Rattle.nts_trying.specs.Asking.{IsAskedIn, asked_data, KeepsAsked};

use nts_certainty::{Certainty, GoalSource};
use nts_terms::{ClauseKind, Cx, Goal, PredicateKind, TypingMode};
use std::alloc::AllocError;

/// Whether a statement is of one of the engine's own kinds, or one whose aliases stay.
fn is_engines(statement: PredicateKind) -> bool
    ensures { (ts : List Tree) → result ≡ is_engines (tree_of_statement ts statement) }
{
    match statement {
        PredicateKind::Clause(clause) => match clause {
            ClauseKind::Trait(_) => false,
            ClauseKind::HostEffect(_) => false,
            ClauseKind::Projection { .. } => false,
            _ => true,
        },
        _ => true,
    }
}

/// Whether a goal of a candidate is asked as it stands, in coherence too: what rules of a handler say of an alias is not.
fn is_asked(cx: &Cx, goal: Goal) -> bool
    requires { HoldsGoal cx.now.nodes goal }
    ensures { result ≡ is_asked (tree_at cx.now.nodes goal.predicate.node) }
{
    let predicate = goal.predicate.kind(cx);
    if is_engines(predicate.value) {
        return true;
    }
    !cx.nodes.flags(goal.predicate.node).has_alias
}

/// Whether each goal is.
fn are_asked(cx: &Cx, goals: &[(GoalSource, Goal)]) -> bool
    requires { All (λ z. HoldsGoal cx.now.nodes z.1) goals.now }
    ensures yes { result ≡ true → All (IsAskedIn cx.now.nodes) goals.now }
    ensures no { result ≡ false → All (IsAskedIn cx.now.nodes) goals.now → ⊥ }
{
    for added in goals {
        if !is_asked(cx, added.1) {
            return false;
        }
    }
    true
}

/// Whether a goal of a candidate is asked in that mode: each is in each mode but coherence, and there if it is asked as it stands.
pub fn asks(cx: &Cx, mode: &TypingMode, goal: Goal) -> bool
    requires { HoldsGoal cx.now.nodes goal }
    ensures inside { result ≡ false → mode_of mode.now ≡ coherence }
    ensures no { result ≡ false → is_asked (tree_at cx.now.nodes goal.predicate.node) ≡ false }
    ensures asked { mode_of mode.now ≡ coherence →
        result ≡ is_asked (tree_at cx.now.nodes goal.predicate.node) }
{
    match mode {
        TypingMode::Coherence => is_asked(cx, goal),
        TypingMode::Analysis { .. } => true,
        TypingMode::Borrowck { .. } => true,
        TypingMode::PostBorrowckAnalysis { .. } => true,
        TypingMode::PostAnalysis => true,
        TypingMode::ErasedNotCoherence => true,
    }
}

/// Whether all goals of a candidate are asked in that mode: in each but coherence, and there where each is asked as it stands.
pub fn asks_all(cx: &Cx, mode: &TypingMode, goals: &[(GoalSource, Goal)]) -> bool
    requires { All (λ z. HoldsGoal cx.now.nodes z.1) goals.now }
    ensures yes { result ≡ true → asked_in (mode_of mode.now) (goals_at cx.now.nodes goals.now)
        ≡ goals_at cx.now.nodes goals.now }
    ensures inside { result ≡ false → mode_of mode.now ≡ coherence }
    ensures no { result ≡ false → all_asked (goals_at cx.now.nodes goals.now) ≡ false }
{
    match mode {
        TypingMode::Coherence => are_asked(cx, goals),
        TypingMode::Analysis { .. } => true,
        TypingMode::Borrowck { .. } => true,
        TypingMode::PostBorrowckAnalysis { .. } => true,
        TypingMode::PostAnalysis => true,
        TypingMode::ErasedNotCoherence => true,
    }
}

/// The goals that are asked as they stand, in their order.
fn asked_of(cx: &Cx, goals: &[(GoalSource, Goal)]) -> Result<Vec<(GoalSource, Goal)>, AllocError>
    requires { All (λ z. HoldsGoal cx.now.nodes z.1) goals.now }
    ensures { IfOk result (λ v. v.items ≡ asked_data cx.now.nodes goals.now) }
{
    let mut asked = Vec::new(cx.alloc);
    for added in goals {
        if is_asked(cx, added.1) {
            asked.push(*added)?;
        }
    }
    Ok(asked)
}

/// Keeps of a candidate's goals those that are asked in that mode, in their order. The answer is yes where each is kept; in coherence
/// some may be left out, and then it is ambiguous, whatever those that are kept are answered.
// The evaluation calls it while it nests: its frame is not to be a part of what a nested goal takes of the machine's stack.
#[inline(never)]
pub fn keep_asked(
    cx: &Cx,
    mode: &TypingMode,
    goals: &mut Vec<(GoalSource, Goal)>,
) -> Result<Certainty, AllocError>
    requires { All (λ z. HoldsGoal cx.now.nodes z.1) goals.old.items }
    ensures { IfOk result (λ y. KeepsAsked cx.now.nodes (mode_of mode.now) goals.old.items
        goals.new.items y) }
{
    if asks_all(cx, mode, goals) {
        return Ok(Certainty::Yes);
    }
    *goals = asked_of(cx, goals)?;
    Ok(Certainty::AMBIGUOUS)
}
