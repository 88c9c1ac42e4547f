//! What a candidate asks for.
use nts_certainty::nts_model::{Relation, Sort};
use nts_certainty::nts_terms::{AliasTerm, GenericArg, Goal, Region, Ty};
use nts_certainty::{Certainty, GoalSource, RerunCondition};

/// How the two sides of an equation are made equal.
#[derive(Clone, Copy)]
pub enum EquationKind {
    /// Aliases stand for what they normalize to.
    Related,
    /// Aliases are taken as they stand.
    Structural,
}

/// Two arguments that a candidate makes equal.
#[derive(Clone, Copy)]
pub struct Equation {
    pub kind: EquationKind,
    pub lhs: GenericArg,
    pub rhs: GenericArg,
}

/// A region constraint that a candidate asks for.
#[derive(Clone, Copy)]
pub struct RegionConstraint {
    pub relation: Relation,
    pub left: GenericArg,
    pub right: Region,
}

/// A goal that a candidate asks for.
#[derive(Clone, Copy)]
pub struct CandidateGoal {
    pub source: GoalSource,
    pub goal: Goal,
}

/// A way in which a goal may hold. Its terms name its fresh variables as canonical bound variables.
#[derive(Drop)]
pub struct CandidateData {
    /// The sorts of the fresh variables.
    pub fresh: Vec<Sort>,
    pub equations: Vec<Equation>,
    pub region_constraints: Vec<RegionConstraint>,
    /// Aliases, each with the type that it hides.
    pub hidden_types: Vec<(AliasTerm, Ty)>,
    pub goals: Vec<CandidateGoal>,
    /// How sure the candidate is where all that it asks for holds.
    pub certainty: Certainty,
    pub accesses: RerunCondition,
}
