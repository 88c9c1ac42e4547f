//! Trying and running one candidate.
ghost use Rattle.std.specs.Prelude.{◌≡◌, ◌≢◌, ◌↔◌, Some, map, IfOk, OnOk, IsOkUnless};
ghost use Rattle.nts_model.specs.declared.labels.Sort.TheVariants as sort;
ghost use Rattle.nts_model.specs.declared.labels.Relation.TheVariants as relations;
ghost use Rattle.nts_model.specs.Terms.Trees.{kind_of, of_sort, IsClosed};
ghost use Rattle.nts_store.specs.Growth.{tree_at, IsIn};
ghost use Rattle.nts_model.specs.Answers.Applying.{IsNew};
ghost use Rattle.nts_model.specs.Tables.Recording.{left_kind};
ghost use Rattle.nts_unify.specs.Reading.{content_of};
ghost use Rattle.nts_table.specs.Tables.{IsTable};
ghost use Rattle.nts_delegate.specs.Candidates.{IsOverIn, IsEquation, IsNestedIn, AreNested, IsCandidate, IsRegionConstraint, AreRegionConstraints};
ghost use Rattle.nts_terms.specs.Handles.{HoldsGoal};
ghost use Rattle.nts_model.specs.Tables.Alike.{AreAlike};
ghost use Rattle.nts_model.specs.Tables.Equations.{AreRelated, AreUnrelated};
ghost use Rattle.nts_model.specs.Refutation.Choosing.{Freshens, IsCandidateMet};
ghost use Rattle.nts_model.specs.Tables.Passing.{BringsLabelsOf, BringsNoLabels, BringsOnly};
ghost use Rattle.nts_model.specs.Refutation.Forcing.{Adds, AddsBy, AddsAll};
ghost use Rattle.nts_model.specs.Terms.Substitutions.{filled};
ghost use Rattle.nts_model.specs.Derivations.Handlers.{constraint_by, kind_of_sort};
ghost use Rattle.nts_candidates.specs.Offered.{equation_of, constraint_of, candidate_of};
ghost use Rattle.nts_meaning.specs.Running.{Stays, HoldsOutlives, constraint_between, EquationHolds, ConstraintHolds, EquatesEach, Constrains};
ghost use Rattle.nts_meaning.specs.Evaluation.{Goes, Runs, IsPosed, AreValues, asked_terms, AsksOnly};
ghost use Rattle.nts_table.specs.Tables.{IsTermIn};
ghost use Rattle.nts_trying.specs.Instances.{HoldsValues, IsTermInstance, IsGoalInstance, instance_at};
ghost use Rattle.nts_trying.specs.Choices.{EquatesCandidate};
ghost use Rattle.nts_trying.specs.Adding.{AreAdded};
ghost use Rattle.nts_terms.specs.Rest.{Grows};

use nts_certainty::GoalSource;
use nts_delegate::{CandidateData, CandidateGoal, Equation, RegionConstraint};
use nts_meaning::nts_equating::relate_nodes;
use nts_model::{Relation, Sort};
use nts_replacing::instantiate_canonical;
use nts_store::{EvalError, Fault, NodeId};
use nts_table::InferCtxt;
use nts_terms::{Cx, Goal, ParamEnv, Predicate, Region, Span, Ty, VisibleForLeakCheck};

/// What a candidate is tried with.
#[derive(Clone, Copy)]
pub struct Trial<'a> {
    /// The goal that the candidate is for.
    pub goal: Goal,
    /// The sorts of the candidate's fresh variables.
    pub fresh: &'a [Sort],
    /// The variables that were made for them.
    pub values: &'a [NodeId],
}

impl Trial<'_> {
    /// A term of the candidate, with the values in place of its fresh variables.
    fn instantiate(self, cx: &mut Cx, t: NodeId) -> Result<NodeId, Fault>
        requires over { IsOverIn cx.old.nodes self.fresh.now self.goal t }
        requires values { HoldsValues cx.old.nodes self.fresh.now self.values.now }
        ensures grows { Grows cx.old cx.new }
        ensures instance { IfOk result
            (IsTermInstance cx.old.nodes cx.new.nodes self.entry.values.now
            t) }
        ensures memory { IsOkUnless result Fault.Memory }
    {
        cx.terms_are_formed();
        // Most terms name no position, and need no walk.
        if !cx.nodes.flags(t).has_canonical {
            return Ok(t);
        }
        let alloc = cx.alloc;
        let made = instantiate_canonical(alloc, &mut cx.nodes, self.values, t)?;
        cx.terms_are_formed();
        Ok(made)
    }

    /// Two terms of the candidate, likewise.
    pub(crate) fn instantiate_both(
        self,
        cx: &mut Cx,
        a: NodeId,
        b: NodeId,
    ) -> Result<(NodeId, NodeId), Fault>
        requires left { IsOverIn cx.old.nodes self.fresh.now self.goal a }
        requires right { IsOverIn cx.old.nodes self.fresh.now self.goal b }
        requires holds { HoldsGoal cx.old.nodes self.goal }
        requires values { HoldsValues cx.old.nodes self.fresh.now self.values.now }
        ensures grows { Grows cx.old cx.new }
        ensures left { IfOk result (λ r. IsTermInstance cx.old.nodes cx.new.nodes
            self.entry.values.now
            a r.0) }
        ensures right { IfOk result (λ r. IsTermInstance cx.old.nodes cx.new.nodes
            self.entry.values.now
            b r.1) }
        ensures memory { IsOkUnless result Fault.Memory }
    {
        let left = self.instantiate(cx, a)?;
        let right = self.instantiate(cx, b)?;
        Ok((left, right))
    }

    /// A goal of the candidate, with the values in place of its fresh variables.
    fn added_goal(self, table: &InferCtxt, cx: &mut Cx, nested: Goal) -> Result<Goal, Fault>
        requires posed { IsPosed cx.old.nodes table.now self.goal }
        requires nested { IsNestedIn cx.old.nodes self.fresh.now self.goal nested }
        requires values { AreValues cx.old.nodes table.now self.fresh.now self.values.now }
        ensures grows { Grows cx.old cx.new }
        ensures posed { IfOk result (λ g. IsPosed cx.new.nodes table.now g) }
        ensures goal { IfOk result (IsGoalInstance cx.old.nodes cx.new.nodes self.entry.values.now
            nested) }
        ensures labels { IfOk result (AsksOnly cx.old.nodes cx.new.nodes self.entry.goal) }
        ensures memory { IsOkUnless result Fault.Memory }
    {
        let env = nested.param_env.node;
        let predicate = nested.predicate.node;
        let (env, predicate) = self.instantiate_both(cx, env, predicate)?;
        Ok(Goal {
            param_env: ParamEnv { node: env },
            predicate: Predicate { node: predicate },
        })
    }

    /// The goals of the candidate, likewise, each with its source.
    #[inline(never)]
    pub fn added_goals(
        self,
        table: &InferCtxt,
        cx: &mut Cx,
        nested: &[CandidateGoal],
    ) -> Result<Vec<(GoalSource, Goal)>, Fault>
        requires posed { IsPosed cx.old.nodes table.now self.goal }
        requires nested { AreNested cx.old.nodes self.fresh.now self.goal nested.now }
        requires values { AreValues cx.old.nodes table.now self.fresh.now self.values.now }
        ensures grows { Grows cx.old cx.new }
        ensures added { IfOk result (λ gs. AreAdded cx.old.nodes cx.new.nodes table.now
            self.entry.goal self.entry.values.now nested.now gs.items) }
        ensures memory { IsOkUnless result Fault.Memory }
    {
        let mut added = Vec::with_capacity(cx.alloc, nested.len())?;
        for asked in nested {
            let goal = self.added_goal(table, cx, asked.goal)?;
            added.push((asked.source, goal))?;
        }
        Ok(added)
    }
}

/// New variables of these sorts.
fn fresh_values(table: &mut InferCtxt, cx: &mut Cx, fresh: &[Sort]) -> Result<Vec<NodeId>, Fault>
    requires { IsTable cx.old.nodes table.old }
    ensures runs { Runs cx.old cx.new table.old table.new }
    ensures values { IfOk result (λ vs. AreValues cx.new.nodes table.new fresh.now vs.items) }
    ensures fresh { IfOk result (λ vs. Freshens table.old.entries.universe fresh.now (map (tree_at
        cx.new.nodes) vs.items) (content_of cx.old.nodes table.old.entries) (content_of cx.new.nodes
        table.new.entries)) }
    ensures labels { OnOk result (BringsNoLabels (content_of cx.old.nodes table.old.entries)
        (content_of cx.new.nodes table.new.entries)) }
    ensures memory { IsOkUnless result Fault.Memory }
{
    match table.fresh_nodes(cx, fresh) {
        Ok(values) => Ok(values),
        Err(fault) => Err(fault),
    }
}

/// A new variable of this sort.
pub(crate) fn fresh_value(table: &mut InferCtxt, cx: &mut Cx, sort: Sort) -> Result<NodeId, Fault>
    requires { IsTable cx.old.nodes table.old }
    ensures runs { Runs cx.old cx.new table.old table.new }
    ensures within { IfOk result (λ v. IsIn cx.new.nodes v) }
    ensures kind { IfOk result (λ v. kind_of (tree_at cx.new.nodes v) ≡ Some (of_sort sort)) }
    ensures new { IfOk result (λ v. IsNew (content_of cx.old.nodes table.old.entries)
        (content_of cx.new.nodes table.new.entries) (kind_of_sort sort) table.old.entries.universe
        (tree_at cx.new.nodes v)) }
    ensures labels { OnOk result (BringsNoLabels (content_of cx.old.nodes table.old.entries)
        (content_of cx.new.nodes table.new.entries)) }
    ensures memory { IsOkUnless result Fault.Memory }
{
    let values = fresh_values(table, cx, &[sort])?;
    Ok(values[0])
}

/// Makes a candidate's fresh variables and equates its equations; answers the variables. Where an
/// equation fails, no world of the table meets all of them.
#[inline(never)]
pub fn equate(
    table: &mut InferCtxt,
    cx: &mut Cx,
    goal: Goal,
    candidate: &CandidateData,
) -> Result<Vec<NodeId>, EvalError>
    requires posed { IsPosed cx.old.nodes table.old goal }
    requires candidate { IsCandidate cx.old.nodes goal candidate.now }
    ensures runs { Runs cx.old cx.new table.old table.new }
    ensures values { IfOk result (λ vs. AreValues cx.new.nodes table.new candidate.now.fresh.items
        vs.items) }
    ensures equal { IfOk result (λ vs. EquatesEach cx.old.nodes cx.new.nodes table.new vs.items
        candidate.now.equations.items) }
    ensures equated { IfOk result (λ vs. EquatesCandidate cx.old.nodes cx.new.nodes table.old
        table.new
        candidate.now.fresh.items vs.items candidate.now.equations.items) }
    ensures labels { OnOk result (BringsOnly (asked_terms cx.old.nodes goal)
        (content_of cx.old.nodes table.old.entries) (content_of cx.new.nodes table.new.entries)) }
    ensures unmet { result ≡ Err EvalError.NoSolution → IsCandidateMet (content_of cx.old.nodes
        table.old.entries) (candidate_of cx.old.nodes candidate.now) → ⊥ }
    ensures full { result ≢ Err EvalError.Full }
{
    cx.terms_are_formed();
    let values = fresh_values(table, cx, &candidate.fresh)?;
    for equation in &candidate.equations {
        let trial = Trial {
            goal,
            fresh: &candidate.fresh,
            values: &values,
        };
        equate_one(table, cx, trial, *equation)?;
    }
    Ok(values)
}

/// Makes the two sides of an equation equal, with the values in place of the fresh variables.
fn equate_one(
    table: &mut InferCtxt,
    cx: &mut Cx,
    trial: Trial<'_>,
    equation: Equation,
) -> Result<(), EvalError>
    requires posed { IsPosed cx.old.nodes table.old trial.goal }
    requires equation { IsEquation cx.old.nodes trial.fresh.now trial.goal equation }
    requires values { AreValues cx.old.nodes table.old trial.fresh.now trial.values.now }
    ensures runs { Runs cx.old cx.new table.old table.new }
    ensures equal { OnOk result (Stays (content_of cx.new.nodes table.new.entries) (EquationHolds
        (map (tree_at cx.old.nodes) trial.entry.values.now) (equation_of cx.old.nodes equation))) }
    ensures related { OnOk result (AreRelated (content_of cx.old.nodes table.old.entries)
        (content_of
        cx.new.nodes table.new.entries) (instance_at cx.old.nodes trial.entry.values.now
        equation.lhs.node) (instance_at cx.old.nodes trial.entry.values.now equation.rhs.node)) }
    ensures labels { OnOk result (BringsOnly (asked_terms cx.old.nodes trial.entry.goal)
        (content_of cx.old.nodes table.old.entries) (content_of cx.new.nodes table.new.entries)) }
    ensures no { result ≡ Err EvalError.NoSolution → AreUnrelated (content_of cx.old.nodes
        table.old.entries) (instance_at cx.old.nodes trial.entry.values.now equation.lhs.node)
        (instance_at cx.old.nodes trial.entry.values.now equation.rhs.node) }
    ensures full { result ≢ Err EvalError.Full }
{
    let (lhs, rhs) = trial.instantiate_both(cx, equation.lhs.node, equation.rhs.node)?;
    relate_terms(table, cx, lhs, rhs)
}

/// Makes two terms of the table equal.
fn relate_terms(table: &mut InferCtxt, cx: &mut Cx, a: NodeId, b: NodeId) -> Result<(), EvalError>
    requires table { IsTable cx.old.nodes table.old }
    requires left { IsTermIn cx.old.nodes table.old a }
    requires right { IsTermIn cx.old.nodes table.old b }
    ensures runs { Runs cx.old cx.new table.old table.new }
    ensures equal { OnOk result (Stays (content_of cx.new.nodes table.new.entries) (λ d. AreAlike d
        (tree_at cx.old.nodes a) (tree_at cx.old.nodes b))) }
    ensures related { OnOk result (AreRelated (content_of cx.old.nodes table.old.entries)
        (content_of
        cx.new.nodes table.new.entries) (tree_at cx.old.nodes a) (tree_at cx.old.nodes b)) }
    ensures labels { OnOk result (BringsLabelsOf (content_of cx.old.nodes table.old.entries)
        (content_of cx.new.nodes table.new.entries) (tree_at cx.old.nodes a) (tree_at cx.old.nodes b)) }
    ensures no { result ≡ Err EvalError.NoSolution → AreUnrelated (content_of cx.old.nodes
        table.old.entries) (tree_at cx.old.nodes a) (tree_at cx.old.nodes b) }
    ensures full { result ≢ Err EvalError.Full }
{
    let alloc = cx.alloc;
    relate_nodes(alloc, &mut cx.nodes, table, a, b)
}

/// Records the region constraints of a candidate, with the values in place of its fresh variables. Any two regions can be one, so
/// it fails for want of memory alone.
#[inline(never)]
pub fn record_constraints(
    table: &mut InferCtxt,
    cx: &mut Cx,
    trial: Trial<'_>,
    constraints: &[RegionConstraint],
) -> Result<(), EvalError>
    requires posed { IsPosed cx.old.nodes table.old trial.goal }
    requires constraints { AreRegionConstraints cx.old.nodes trial.fresh.now trial.goal
        constraints.now }
    requires values { AreValues cx.old.nodes table.old trial.fresh.now trial.values.now }
    ensures runs { Runs cx.old cx.new table.old table.new }
    ensures held { OnOk result (Constrains cx.old.nodes cx.new.nodes table.new
        trial.entry.values.now constraints.now) }
    ensures added { OnOk result (AddsAll (map (tree_at cx.old.nodes) trial.entry.values.now) (map
        (constraint_of cx.old.nodes) constraints.now) (content_of cx.old.nodes table.old.entries)
        (content_of cx.new.nodes table.new.entries)) }
    ensures labels { OnOk result (BringsOnly (asked_terms cx.old.nodes trial.entry.goal)
        (content_of cx.old.nodes table.old.entries) (content_of cx.new.nodes table.new.entries)) }
    ensures memory { IsOkUnless result EvalError.Memory }
{
    for constraint in constraints {
        record_one(table, cx, trial, *constraint)?;
    }
    Ok(())
}

/// Records one region constraint. An equality relates its sides.
fn record_one(
    table: &mut InferCtxt,
    cx: &mut Cx,
    trial: Trial<'_>,
    constraint: RegionConstraint,
) -> Result<(), EvalError>
    requires posed { IsPosed cx.old.nodes table.old trial.goal }
    requires constraint { IsRegionConstraint cx.old.nodes trial.fresh.now trial.goal constraint }
    requires values { AreValues cx.old.nodes table.old trial.fresh.now trial.values.now }
    ensures runs { Runs cx.old cx.new table.old table.new }
    ensures held { OnOk result (Stays (content_of cx.new.nodes table.new.entries) (ConstraintHolds
        (map (tree_at cx.old.nodes) trial.entry.values.now)
        (constraint_of cx.old.nodes constraint))) }
    ensures added { OnOk result (Adds (constraint_by (filled (map (tree_at cx.old.nodes)
        trial.entry.values.now)) (constraint_of cx.old.nodes constraint)) (content_of cx.old.nodes
        table.old.entries) (content_of cx.new.nodes table.new.entries)) }
    ensures labels { OnOk result (BringsOnly (asked_terms cx.old.nodes trial.entry.goal)
        (content_of cx.old.nodes table.old.entries) (content_of cx.new.nodes table.new.entries)) }
    ensures memory { IsOkUnless result EvalError.Memory }
{
    let (left, right) = trial.instantiate_both(cx, constraint.left.node, constraint.right.node)?;
    if let Relation::Equal = constraint.relation {
        return relate_terms(table, cx, left, right);
    }
    record_outlives(table, cx, constraint.relation, left, right)?;
    Ok(())
}

/// The rules of a handler stand in no text of the user's.
pub(crate) const NO_PLACE: Span = Span(0);

/// Records that a region or a type outlives a region, for the leak check to see.
pub fn record_outlives(
    table: &mut InferCtxt,
    cx: &Cx,
    relation: Relation,
    left: NodeId,
    right: NodeId,
) -> Result<(), Fault>
    requires table { IsTable cx.now.nodes table.old }
    requires left { IsTermIn cx.now.nodes table.old left }
    requires right { IsTermIn cx.now.nodes table.old right }
    requires left_sort { kind_of (tree_at cx.now.nodes left) ≡ Some (left_kind relation) }
    requires right_sort { kind_of (tree_at cx.now.nodes right) ≡ Some (of_sort sort.Region) }
    requires outlives { relation ≢ relations.Equal }
    requires left_closed { IsClosed (tree_at cx.now.nodes left) }
    requires right_closed { IsClosed (tree_at cx.now.nodes right) }
    ensures goes { Goes cx.now.nodes cx.now.nodes table.old table.new }
    ensures held { OnOk result (Stays (content_of cx.now.nodes table.new.entries)
        (HoldsOutlives relation (tree_at cx.now.nodes left) (tree_at cx.now.nodes right))) }
    ensures added { OnOk result (AddsBy relation (constraint_between relation (tree_at cx.now.nodes
        left) (tree_at cx.now.nodes right)) (content_of cx.now.nodes table.old.entries) (content_of
        cx.now.nodes table.new.entries)) }
    ensures labels { OnOk result (BringsLabelsOf (content_of cx.now.nodes table.old.entries)
        (content_of
        cx.now.nodes table.new.entries) (tree_at cx.now.nodes left) (tree_at cx.now.nodes right)) }
    ensures memory { IsOkUnless result Fault.Memory }
{
    let region = Region { node: right };
    if let Relation::TypeOutlives = relation {
        return table.register_ty_outlives(cx, Ty { node: left }, region, NO_PLACE);
    }
    let outlives = Region { node: left };
    table.sub_regions(cx, region, outlives, VisibleForLeakCheck::Yes, NO_PLACE)
}
