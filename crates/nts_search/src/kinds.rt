//! Kinds of steps, and of paths of steps.
ghost use Rattle.std.specs.Prelude.{◌≡◌};
ghost use Rattle.nts_model.specs.Derivations.Rules.{step_kind};
ghost use Rattle.nts_model.specs.Searching.Stacks.{stronger};
ghost use Rattle.nts_response.specs.nts_candidates.specs.Offered.{path_kind_of, source_of};
ghost use Rattle.nts_search.specs.Kinds.{goal_kind_of};

use nts_certainty::{GoalSource, PathKind};

/// What kind of goal stands above a step.
#[derive(Clone, Copy, PartialEq, Eq, Debug)]
pub enum CurrentGoalKind {
    Misc,
    /// A goal of a trait whose cycles through conditions of clauses hold.
    CoinductiveTrait,
    /// A goal that normalizes an alias.
    NormalizesTo,
}

/// The kind of a step to a goal of that source, from a goal of that kind. It takes no memory.
pub fn step_kind_for_source(kind: CurrentGoalKind, source: GoalSource) -> PathKind
    ensures { path_kind_of result ≡ step_kind (goal_kind_of kind) (source_of source) }
{
    match source {
        GoalSource::NormalizeGoal(path) => path,
        // Relating takes terms apart, which guards no cycle.
        GoalSource::TypeRelating => PathKind::Inductive,
        GoalSource::ImplWhereBound => match kind {
            CurrentGoalKind::CoinductiveTrait => PathKind::Coinductive,
            // The term is taken out of the clause again, so the clause guards nothing.
            CurrentGoalKind::NormalizesTo => PathKind::Inductive,
            CurrentGoalKind::Misc => PathKind::Unknown,
        },
        GoalSource::Misc => PathKind::Unknown,
        GoalSource::AliasBoundConstCondition => PathKind::Unknown,
        GoalSource::AliasWellFormed => PathKind::Unknown,
    }
}

/// The kind of a path of two parts: the stronger of theirs.
pub(crate) fn extend(path: PathKind, rest: PathKind) -> PathKind
    ensures { path_kind_of result ≡ stronger (path_kind_of path) (path_kind_of rest) }
{
    match (path, rest) {
        (PathKind::ForcedAmbiguity, _) => PathKind::ForcedAmbiguity,
        (_, PathKind::ForcedAmbiguity) => PathKind::ForcedAmbiguity,
        (PathKind::Coinductive, _) => PathKind::Coinductive,
        (_, PathKind::Coinductive) => PathKind::Coinductive,
        (PathKind::Unknown, _) => PathKind::Unknown,
        (_, PathKind::Unknown) => PathKind::Unknown,
        (PathKind::Inductive, PathKind::Inductive) => PathKind::Inductive,
    }
}
