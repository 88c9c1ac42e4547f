//! Of which goals reasons are told.
ghost use Rattle.std.specs.Prelude.{◌≡◌, ◌↔◌, IsTrue, true, false, List};
ghost use Rattle.nts_model.specs.Terms.Trees.{Tree};
ghost use Rattle.nts_theory.specs.Telling.{IsTraitStatement};
ghost use Rattle.nts_store.specs.Growth.{tree_at};
ghost use Rattle.nts_terms.specs.Kinds.{tree_of_statement};
ghost use Rattle.nts_terms.specs.Handles.{HoldsGoal};
ghost use Rattle.nts_model.specs.Derivations.Rules.{statement_of};
ghost use Rattle.nts_evaluation.specs.nts_meaning.specs.Evaluation.{IsPosed};
ghost use Rattle.nts_explaining.specs.Explaining.{IsExplained};

use nts_evaluation::nts_trying::{GoalRow, goal_row};
use nts_table::InferCtxt;
use nts_terms::{ClauseKind, Cx, Goal, PredicateKind};

/// Whether reasons are told of a goal of the table: it says of a trait that it holds.
pub(crate) fn is_explained(table: &InferCtxt, cx: &Cx, goal: Goal) -> bool
    requires { IsPosed cx.now.nodes table.now goal }
    ensures { IsTrue result ↔ IsExplained cx.now.nodes goal }
{
    let _ = table;
    cx.terms_are_formed();
    match goal_row(cx, Some(goal)) {
        GoalRow::Candidates(_) => true,
        GoalRow::Alias(_) => says_of_trait(cx, goal),
        GoalRow::Unopened => false,
        GoalRow::Outlives(_, _) => false,
        GoalRow::Own(_, _) => false,
        GoalRow::Subtype(_, _) => false,
        GoalRow::Equated(_, _) => false,
        GoalRow::Unanswered(_) => false,
    }
}

/// Whether a goal says that a trait holds.
fn says_of_trait(cx: &Cx, goal: Goal) -> bool
    requires { HoldsGoal cx.now.nodes goal }
    ensures { IsTrue result ↔
        IsTraitStatement (statement_of (tree_at cx.now.nodes goal.predicate.node)) }
{
    is_trait(goal.predicate.kind(cx).value)
}

/// Whether a statement says that a trait holds, as such or as an effect of the host.
fn is_trait(statement: PredicateKind) -> bool
    ensures yes { result ≡ true → (ts : List Tree) → IsTraitStatement (tree_of_statement ts
        statement) }
    ensures no { result ≡ false → (ts : List Tree) → IsTraitStatement (tree_of_statement ts
        statement) → ⊥ }
{
    match statement {
        PredicateKind::Clause(clause) => match clause {
            ClauseKind::Trait(_) => true,
            ClauseKind::HostEffect(_) => true,
            _ => false,
        },
        _ => false,
    }
}
