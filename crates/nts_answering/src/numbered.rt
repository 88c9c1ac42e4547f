//! What a query found out, with positions in place of leaves.
ghost use Rattle.std.specs.Prelude.{◌≡◌, map, All, IfOk};
ghost use Rattle.nts_model.specs.Answers.Responses.{positioned, recorded_by};
ghost use Rattle.nts_model.specs.Derivations.Handlers.{hidden_by, premise_by};
ghost use Rattle.nts_store.specs.Growth.{tree_at, Extends};
ghost use Rattle.nts_terms.specs.Handles.{Holds, HoldsArg};
ghost use Rattle.nts_response.specs.nts_candidates.specs.Offered.{hidden_of};
ghost use Rattle.nts_response.specs.nts_canonical.specs.Forms.{IsHidden};
ghost use Rattle.nts_response.specs.Forms.{recorded_at, premise_at, StoreHoldsConstraint, HoldsOpen};
ghost use Rattle.nts_response.specs.Replacing.{ReplacesEach, argument_value};

use nts_canonicalizer::{Leaves, Staying, numbered};
use nts_response::nts_candidates::RegionConstraint;
use nts_response::nts_certainty::GoalSource;
use nts_store::Nodes;
use nts_terms::{AliasTerm, GenericArg, Goal, Stored, Ty, VisibleForLeakCheck};
use std::alloc::{AllocError, Global};

/// A term with positions in place of its leaves, which are among these.
fn position<T: Stored>(
    alloc: Global,
    nodes: &mut Nodes,
    leaves: &Leaves,
    x: T,
) -> Result<T, AllocError>
    requires { Holds T.place nodes.old (T.id x) }
    ensures extends { Extends nodes.old nodes.new }
    ensures holds { IfOk result (λ r. Holds T.place nodes.new (T.id r)) }
    ensures tree { IfOk result (λ r. tree_at nodes.new (T.id r) ≡ positioned leaves.now
        (tree_at nodes.old (T.id x))) }
{
    numbered(alloc, nodes, Staying::FixedRegions, leaves, x)
}

pub(crate) fn numbered_values(
    alloc: Global,
    nodes: &mut Nodes,
    leaves: &Leaves,
    values: &[GenericArg],
) -> Result<Vec<GenericArg>, AllocError>
    requires { All (HoldsArg nodes.old) values.now }
    ensures each { IfOk result (λ v. ReplacesEach HoldsArg argument_value
        (positioned leaves.now) nodes.old nodes.new values.now v.items) }
    ensures extends { Extends nodes.old nodes.new }
{
    let mut numbered = Vec::with_capacity(alloc, values.len())?;
    for i in 0..values.len() {
        let value = position(alloc, nodes, leaves, values[i])?;
        numbered.push(value)?;
    }
    Ok(numbered)
}

pub(crate) fn numbered_constraints(
    alloc: Global,
    nodes: &mut Nodes,
    leaves: &Leaves,
    constraints: &[(RegionConstraint, VisibleForLeakCheck)],
) -> Result<Vec<(RegionConstraint, VisibleForLeakCheck)>, AllocError>
    requires { All (StoreHoldsConstraint nodes.old) constraints.now }
    ensures each { IfOk result (λ v. ReplacesEach StoreHoldsConstraint recorded_at (recorded_by
        (positioned leaves.now)) nodes.old nodes.new constraints.now v.items) }
    ensures extends { Extends nodes.old nodes.new }
{
    let mut numbered = Vec::with_capacity(alloc, constraints.len())?;
    for i in 0..constraints.len() {
        let constraint = numbered_constraint(alloc, nodes, leaves, constraints[i])?;
        numbered.push(constraint)?;
    }
    Ok(numbered)
}

fn numbered_constraint(
    alloc: Global,
    nodes: &mut Nodes,
    leaves: &Leaves,
    constraint: (RegionConstraint, VisibleForLeakCheck),
) -> Result<(RegionConstraint, VisibleForLeakCheck), AllocError>
    requires { StoreHoldsConstraint nodes.old constraint }
    ensures holds { IfOk result (StoreHoldsConstraint nodes.new) }
    ensures replaced { IfOk result (λ r. recorded_at nodes.new r ≡ recorded_by
        (positioned leaves.now) (recorded_at nodes.old constraint)) }
    ensures extends { Extends nodes.old nodes.new }
{
    let (constraint, visible) = constraint;
    let left = position(alloc, nodes, leaves, constraint.left)?;
    let right = position(alloc, nodes, leaves, constraint.right)?;
    let numbered = RegionConstraint {
        relation: constraint.relation,
        left,
        right,
    };
    Ok((numbered, visible))
}

pub(crate) fn numbered_hidden(
    alloc: Global,
    nodes: &mut Nodes,
    leaves: &Leaves,
    hidden: &[(AliasTerm, Ty)],
) -> Result<Vec<(AliasTerm, Ty)>, AllocError>
    requires { All (IsHidden nodes.old) hidden.now }
    ensures each { IfOk result (λ v. ReplacesEach IsHidden hidden_of
        (hidden_by (positioned leaves.now)) nodes.old nodes.new hidden.now v.items) }
    ensures extends { Extends nodes.old nodes.new }
{
    let mut numbered = Vec::with_capacity(alloc, hidden.len())?;
    for i in 0..hidden.len() {
        let one = numbered_pair(alloc, nodes, leaves, hidden[i])?;
        numbered.push(one)?;
    }
    Ok(numbered)
}

fn numbered_pair(
    alloc: Global,
    nodes: &mut Nodes,
    leaves: &Leaves,
    hidden: (AliasTerm, Ty),
) -> Result<(AliasTerm, Ty), AllocError>
    requires { IsHidden nodes.old hidden }
    ensures holds { IfOk result (IsHidden nodes.new) }
    ensures replaced { IfOk result (λ r. hidden_of nodes.new r ≡ hidden_by
        (positioned leaves.now) (hidden_of nodes.old hidden)) }
    ensures extends { Extends nodes.old nodes.new }
{
    let (alias, ty) = hidden;
    let args = position(alloc, nodes, leaves, alias.args)?;
    let ty = position(alloc, nodes, leaves, ty)?;
    let alias = AliasTerm {
        def_id: alias.def_id,
        args,
    };
    Ok((alias, ty))
}

pub(crate) fn numbered_goals(
    alloc: Global,
    nodes: &mut Nodes,
    leaves: &Leaves,
    goals: &[(GoalSource, Goal)],
) -> Result<Vec<(GoalSource, Goal)>, AllocError>
    requires { All (HoldsOpen nodes.old) goals.now }
    ensures each { IfOk result (λ v. ReplacesEach HoldsOpen premise_at
        (premise_by (positioned leaves.now)) nodes.old nodes.new goals.now v.items) }
    ensures extends { Extends nodes.old nodes.new }
{
    let mut numbered = Vec::with_capacity(alloc, goals.len())?;
    for i in 0..goals.len() {
        let goal = numbered_goal(alloc, nodes, leaves, goals[i])?;
        numbered.push(goal)?;
    }
    Ok(numbered)
}

fn numbered_goal(
    alloc: Global,
    nodes: &mut Nodes,
    leaves: &Leaves,
    goal: (GoalSource, Goal),
) -> Result<(GoalSource, Goal), AllocError>
    requires { HoldsOpen nodes.old goal }
    ensures holds { IfOk result (HoldsOpen nodes.new) }
    ensures replaced { IfOk result (λ r. premise_at nodes.new r ≡ premise_by
        (positioned leaves.now) (premise_at nodes.old goal)) }
    ensures extends { Extends nodes.old nodes.new }
{
    let (source, goal) = goal;
    let param_env = position(alloc, nodes, leaves, goal.param_env)?;
    let predicate = position(alloc, nodes, leaves, goal.predicate)?;
    let goal = Goal {
        param_env,
        predicate,
    };
    Ok((source, goal))
}
