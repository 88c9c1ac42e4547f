//! The leaves of a response in the order of first sight.
ghost use Rattle.std.specs.Prelude.{◌≡◌, map, All, IfOk, OnOk};
ghost use Rattle.nts_model.specs.Terms.Trees.{empty};
ghost use Rattle.nts_model.specs.Canonical.Numbered.{seen};
ghost use Rattle.nts_model.specs.Answers.Responses.{is_fixed, own_leaves, value_row, constraint_row, hidden_row, goal_row};
ghost use Rattle.nts_store.specs.Growth.{tree_at, IsIn};
ghost use Rattle.nts_terms.specs.Handles.{HoldsArg};
ghost use Rattle.nts_response.specs.nts_candidates.specs.Offered.{hidden_of};
ghost use Rattle.nts_response.specs.nts_canonical.specs.Forms.{trees_of, IsHidden};
ghost use Rattle.nts_response.specs.Forms.{recorded_at, premise_at, findings_at, StoreHoldsConstraint, HoldsOpen, HoldsResponse};

use nts_canonicalizer::{Leaves, Staying, collect};
use nts_response::Response;
use nts_response::nts_candidates::RegionConstraint;
use nts_response::nts_certainty::GoalSource;
use nts_store::NodeId;
use nts_terms::{AliasTerm, Cx, GenericArg, Goal, Ty, VisibleForLeakCheck};
use std::alloc::AllocError;

/// The leaves of what a query found out: of the values, then of the region constraints, the hidden types and the open goals.
/// 'static, the erased and the error region are none.
pub(crate) fn leaves_of(cx: &Cx, value: &Response) -> Result<Leaves, AllocError>
    requires { HoldsResponse cx.now.nodes value.now }
    ensures { IfOk result (λ s. s ≡ own_leaves (findings_at cx.now.nodes value.now)) }
{
    let found = &value.external_constraints;
    let mut leaves = Leaves::new(cx.alloc);
    see_values(cx, &mut leaves, &value.var_values)?;
    see_constraints(cx, &mut leaves, &found.region_constraints)?;
    see_hidden(cx, &mut leaves, &found.opaque_types)?;
    see_goals(cx, &mut leaves, &found.normalization_nested_goals)?;
    Ok(leaves)
}

fn see(cx: &Cx, leaves: &mut Leaves, t: NodeId) -> Result<(), AllocError>
    requires { IsIn cx.now.nodes t }
    ensures { OnOk result (leaves.new ≡ seen is_fixed leaves.old
        (tree_at cx.now.nodes t)) }
{
    collect(cx.alloc, &cx.nodes, Staying::FixedRegions, leaves, t)
}

fn see_values(cx: &Cx, leaves: &mut Leaves, values: &[GenericArg]) -> Result<(), AllocError>
    requires { All (HoldsArg cx.now.nodes) values.now }
    ensures { OnOk result (leaves.new ≡ seen is_fixed leaves.old
        (value_row (trees_of cx.now.nodes values.now) empty)) }
{
    for i in 0..values.len() {
        see(cx, leaves, values[i].node)?;
    }
    Ok(())
}

fn see_constraints(
    cx: &Cx,
    leaves: &mut Leaves,
    constraints: &[(RegionConstraint, VisibleForLeakCheck)],
) -> Result<(), AllocError>
    requires { All (StoreHoldsConstraint cx.now.nodes) constraints.now }
    ensures { OnOk result (leaves.new ≡ seen is_fixed leaves.old (constraint_row
        (map (recorded_at cx.now.nodes) constraints.now) empty)) }
{
    for i in 0..constraints.len() {
        let (constraint, _) = constraints[i];
        see(cx, leaves, constraint.left.node)?;
        see(cx, leaves, constraint.right.node)?;
    }
    Ok(())
}

fn see_hidden(cx: &Cx, leaves: &mut Leaves, hidden: &[(AliasTerm, Ty)]) -> Result<(), AllocError>
    requires { All (IsHidden cx.now.nodes) hidden.now }
    ensures { OnOk result (leaves.new ≡ seen is_fixed leaves.old
        (hidden_row (map (hidden_of cx.now.nodes) hidden.now) empty)) }
{
    for i in 0..hidden.len() {
        let (alias, ty) = hidden[i];
        see(cx, leaves, alias.args.node)?;
        see(cx, leaves, ty.node)?;
    }
    Ok(())
}

fn see_goals(cx: &Cx, leaves: &mut Leaves, goals: &[(GoalSource, Goal)]) -> Result<(), AllocError>
    requires { All (HoldsOpen cx.now.nodes) goals.now }
    ensures { OnOk result (leaves.new ≡ seen is_fixed leaves.old
        (goal_row (map (premise_at cx.now.nodes) goals.now) empty)) }
{
    for i in 0..goals.len() {
        let (_, goal) = goals[i];
        see(cx, leaves, goal.param_env.node)?;
        see(cx, leaves, goal.predicate.node)?;
    }
    Ok(())
}
