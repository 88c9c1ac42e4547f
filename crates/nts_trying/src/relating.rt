//! Candidates whose equations have aliases: the other equations are made equal, and these are related.
ghost use Rattle.std.specs.Prelude.{◌≡◌, ◌≢◌, ◌⊎◌, map, true, false, IfOk, Err, IsOkUnless};
ghost use Rattle.nts_model.specs.Terms.Trees.{kind_of, any_argument, AllFit};
ghost use Rattle.nts_store.specs.Formed.{AreFormed};
ghost use Rattle.nts_store.specs.Growth.{tree_at, trees_at, IsIn, AllIn};
ghost use Rattle.nts_theory.specs.RelatingCandidates.{may_be_argument, relates_aliases, HasPlainEquations, IsUnrelated, plain_part, pairs_with, aliased_equations};
ghost use Rattle.nts_model.specs.Refutation.Choosing.{IsCandidateMet};
ghost use Rattle.nts_variance_model.specs.Variances.Leaving.{Refuses};
ghost use Rattle.nts_candidates.specs.Offered.{equation_of, candidate_of};
ghost use Rattle.nts_delegate.specs.Candidates.{IsOverIn, AreEquations, IsCandidate};
ghost use Rattle.nts_terms.specs.Handles.{HoldsGoal};
ghost use Rattle.nts_terms.specs.Rest.{Grows};
ghost use Rattle.nts_terms.specs.Signatures.{variances_in};
ghost use Rattle.nts_unify.specs.Reading.{content_of};
ghost use Rattle.nts_meaning.specs.Evaluation.{Runs, IsPosed, AreValues};
ghost use Rattle.nts_trying.specs.Instances.{HoldsValues, IsTermInstance};
ghost use Rattle.nts_trying.specs.Relating.{aliased_data, plain_data, left_node, right_node, list_of, left_list, right_list, IsPlainPart, RelatesEquations, BeginsByRelating};

use crate::candidate::{Trial, equate, record_constraints};
use crate::equalities::are_equalities;
use crate::subtypes::relating_goals;
use nts_certainty::{Certainty, GoalSource, RerunCondition};
use nts_delegate::{CandidateData, Equation, EquationKind};
use nts_model::{Label, ListHead, Variance};
use nts_solver_relating::relate_by;
use nts_store::{EvalError, Fault, NodeId, sort_of};
use nts_table::InferCtxt;
use nts_terms::{Cx, Goal};
use std::alloc::{AllocError, Global};

/// Whether a term is a type, a region or a const.
fn is_argument(cx: &Cx, t: NodeId) -> bool
    requires { IsIn cx.now.nodes t }
    ensures { result ≡ may_be_argument (kind_of (tree_at cx.now.nodes t)) }
{
    sort_of(cx.nodes.label(t)).is_some()
}

/// Whether an equation relates two arguments, and an alias stands in one of them.
fn relates(cx: &Cx, equation: Equation) -> bool
    requires left { IsIn cx.now.nodes equation.lhs.node }
    requires right { IsIn cx.now.nodes equation.rhs.node }
    ensures { result ≡ relates_aliases (equation_of cx.now.nodes equation) }
{
    if let EquationKind::Structural = equation.kind {
        return false;
    }
    if !is_argument(cx, equation.rhs.node) {
        return false;
    }
    let left = cx.nodes.flags(equation.lhs.node);
    let right = cx.nodes.flags(equation.rhs.node);
    left.has_alias || right.has_alias
}

/// Whether a candidate can't be begun by making its equations equal, since one of them relates aliases.
#[inline(never)]
pub fn needs_relating(cx: &Cx, goal: Goal, candidate: &CandidateData) -> bool
    requires { IsCandidate cx.now.nodes goal candidate.now }
    ensures yes { result ≡ true → HasPlainEquations (candidate_of cx.now.nodes candidate.now) → ⊥ }
    ensures no { result ≡ false → HasPlainEquations (candidate_of cx.now.nodes candidate.now) }
{
    for equation in &candidate.equations {
        if relates(cx, *equation) {
            return true;
        }
    }
    false
}

/// The equations of a candidate that do.
fn aliased_of(cx: &Cx, goal: Goal, candidate: &CandidateData) -> Result<Vec<Equation>, AllocError>
    requires { IsCandidate cx.now.nodes goal candidate.now }
    ensures { IfOk result (λ v. v.items ≡ aliased_data cx.now.nodes candidate.now.equations.items) }
{
    let mut chosen = Vec::new(cx.alloc);
    for equation in &candidate.equations {
        if relates(cx, *equation) {
            chosen.push(*equation)?;
        }
    }
    Ok(chosen)
}

/// .. and those that do not.
fn plain_of(cx: &Cx, goal: Goal, candidate: &CandidateData) -> Result<Vec<Equation>, AllocError>
    requires { IsCandidate cx.now.nodes goal candidate.now }
    ensures { IfOk result (λ v. v.items ≡ plain_data cx.now.nodes candidate.now.equations.items) }
{
    let mut chosen = Vec::new(cx.alloc);
    for equation in &candidate.equations {
        if !relates(cx, *equation) {
            chosen.push(*equation)?;
        }
    }
    Ok(chosen)
}

/// The variables and the plain equations of a candidate, as a candidate.
fn plain_part_of(
    cx: &Cx,
    goal: Goal,
    candidate: &CandidateData,
) -> Result<CandidateData, AllocError>
    requires { IsCandidate cx.now.nodes goal candidate.now }
    ensures { IfOk result (IsPlainPart cx.now.nodes goal candidate.now) }
{
    let equations = plain_of(cx, goal, candidate)?;
    let fresh = candidate.fresh.clone()?;
    Ok(CandidateData {
        fresh,
        equations,
        region_constraints: Vec::new(cx.alloc),
        hidden_types: Vec::new(cx.alloc),
        goals: Vec::new(cx.alloc),
        certainty: Certainty::Yes,
        accesses: RerunCondition::Never,
    })
}

/// The left sides of equations, and their right sides.
fn left_nodes(alloc: Global, equations: &[Equation]) -> Result<Vec<NodeId>, AllocError>
    ensures { IfOk result (λ v. v.items ≡ map left_node equations.now) }
{
    equations
        .iter()
        .map(|equation| equation.lhs.node)
        .collect(alloc)
}

fn right_nodes(alloc: Global, equations: &[Equation]) -> Result<Vec<NodeId>, AllocError>
    ensures { IfOk result (λ v. v.items ≡ map right_node equations.now) }
{
    equations
        .iter()
        .map(|equation| equation.rhs.node)
        .collect(alloc)
}

/// The list of these arguments.
fn make_list(cx: &mut Cx, nodes: &[NodeId]) -> Result<NodeId, AllocError>
    requires within { AllIn cx.old.nodes nodes.now }
    requires fits { AllFit any_argument (trees_at cx.old.nodes nodes.now) }
    ensures within { IfOk result (λ t. IsIn cx.new.nodes t) }
    ensures tree { IfOk result (λ t. tree_at cx.new.nodes t ≡ list_of (trees_at cx.old.nodes
        nodes.now)) }
    ensures grows { Grows cx.old cx.new }
{
    cx.nodes.make(Label::List(ListHead::Args), nodes)
}

/// The two lists of the sides of equations, with the values in place of the candidate's variables.
fn sides_of(
    cx: &mut Cx,
    trial: Trial<'_>,
    equations: &[Equation],
) -> Result<(NodeId, NodeId), Fault>
    requires holds { HoldsGoal cx.old.nodes trial.goal }
    requires equations { AreEquations cx.old.nodes trial.fresh.now trial.goal equations.now }
    requires fits { AllFit any_argument (trees_at cx.old.nodes (map right_node equations.now)) }
    requires values { HoldsValues cx.old.nodes trial.fresh.now trial.values.now }
    ensures first { IfOk result (λ r. IsIn cx.new.nodes r.0) }
    ensures second { IfOk result (λ r. IsIn cx.new.nodes r.1) }
    ensures formed { IfOk result (λ r. AreFormed cx.new.nodes) }
    ensures left { IfOk result (λ r. tree_at cx.new.nodes r.0 ≡ left_list cx.old.nodes
        trial.entry.values.now equations.now) }
    ensures right { IfOk result (λ r. tree_at cx.new.nodes r.1 ≡ right_list cx.old.nodes
        trial.entry.values.now equations.now) }
    ensures grows { Grows cx.old cx.new }
    ensures memory { IsOkUnless result Fault.Memory }
{
    let lefts = left_nodes(cx.alloc, equations)?;
    let rights = right_nodes(cx.alloc, equations)?;
    let left = make_list(cx, &lefts)?;
    let right = make_list(cx, &rights)?;
    trial.instantiate_both(cx, left, right)
}

/// Relates the sides of equations, with the values in place of the candidate's variables, and answers the goals that this leaves.
fn relate_equations(
    table: &mut InferCtxt,
    cx: &mut Cx,
    trial: Trial<'_>,
    equations: &[Equation],
) -> Result<Vec<(GoalSource, Goal)>, EvalError>
    requires posed { IsPosed cx.old.nodes table.old trial.goal }
    requires equations { AreEquations cx.old.nodes trial.fresh.now trial.goal equations.now }
    requires fits { AllFit any_argument (trees_at cx.old.nodes (map right_node equations.now)) }
    requires values { AreValues cx.old.nodes table.old trial.fresh.now trial.values.now }
    ensures runs { Runs cx.old cx.new table.old table.new }
    ensures relates { IfOk result (λ gs. RelatesEquations cx.old cx.new table.old table.new
        trial.entry.goal trial.entry.values.now equations.now gs.items) }
    ensures no { result ≡ Err EvalError.NoSolution → Refuses (variances_in cx.old.declarations)
        (content_of cx.old.nodes table.old.entries) (pairs_with (map (tree_at cx.old.nodes)
        trial.entry.values.now) (map (equation_of cx.old.nodes) equations.now)) }
    ensures full { result ≢ Err EvalError.Full }
{
    let (left, right) = sides_of(cx, trial, equations)?;
    let env = trial.goal.param_env;
    let goals = relate_by(
        cx.alloc,
        &mut cx.nodes,
        &cx.declarations,
        table,
        env,
        Variance::Invariant,
        left,
        right,
    )?;
    let left = relating_goals(cx.alloc, &goals)?;
    Ok(left)
}

/// What is left of a candidate that was begun by relating.
#[derive(Drop)]
pub struct Begun {
    /// The goals that relating left, and then the candidate's own.
    pub goals: Vec<(GoalSource, Goal)>,
    /// Whether each goal that relating left says that an alias is equal to a term in which no alias stands, or to another alias.
    pub equalities: bool,
}

/// Begins a candidate of whose equations some relate aliases: makes the others equal, records its region constraints, and relates these.
/// It answers what is left.
#[inline(never)]
pub fn begin_relating(
    table: &mut InferCtxt,
    cx: &mut Cx,
    goal: Goal,
    candidate: &CandidateData,
) -> Result<Begun, EvalError>
    requires posed { IsPosed cx.old.nodes table.old goal }
    requires candidate { IsCandidate cx.old.nodes goal candidate.now }
    requires some { HasPlainEquations (candidate_of cx.old.nodes candidate.now) → ⊥ }
    ensures runs { Runs cx.old cx.new table.old table.new }
    ensures begins { IfOk result (λ r. BeginsByRelating cx.old cx.new table.old table.new goal
        candidate.now r.goals.items r.equalities) }
    ensures no { result ≡ Err EvalError.NoSolution →
        (IsCandidateMet (content_of cx.old.nodes table.old.entries) (plain_part (candidate_of
        cx.old.nodes candidate.now)) → ⊥) ⊎ IsUnrelated (variances_in cx.old.declarations)
        (content_of cx.old.nodes table.old.entries) (candidate_of cx.old.nodes candidate.now) }
    ensures full { result ≢ Err EvalError.Full }
{
    let aliased = aliased_of(cx, goal, candidate)?;
    let plain = plain_part_of(cx, goal, candidate)?;
    let values = equate(table, cx, goal, &plain)?;
    let trial = Trial {
        goal,
        fresh: &candidate.fresh,
        values: &values,
    };
    record_constraints(table, cx, trial, &candidate.region_constraints)?;
    let mut goals = relate_equations(table, cx, trial, &aliased)?;
    let equalities = are_equalities(cx, &goals);
    let mut own = trial.added_goals(table, cx, &candidate.goals)?;
    goals.append(&mut own)?;
    Ok(Begun { goals, equalities })
}
