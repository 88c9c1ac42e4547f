//! Where goals come from, and what changes.

/// How a cycle through a step counts.
#[derive(Clone, Copy, PartialEq, Eq)]
pub enum PathKind {
    Coinductive,
    Unknown,
    Inductive,
    ForcedAmbiguity,
}

/// Why a goal is asked below another one.
#[derive(Clone, Copy, PartialEq, Eq)]
pub enum GoalSource {
    Misc,
    /// Relating two terms left it.
    TypeRelating,
    /// It is a condition of the clause that is used.
    ImplWhereBound,
    AliasBoundConstCondition,
    AliasWellFormed,
    /// It normalizes an alias of a goal of that step kind.
    NormalizeGoal(PathKind),
}

/// Whether an evaluation found out something of the goal's variables.
#[derive(Clone, Copy, PartialEq, Eq, Hash, Debug)]
pub enum HasChanged {
    Yes,
    No,
}
