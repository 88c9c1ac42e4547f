//! Open goals of a response, with what was chosen in place of the positions.
ghost use Rattle.std.specs.Prelude.{◌≡◌, map, All, IfOk};
ghost use Rattle.nts_model.specs.Terms.Substitutions.{filled};
ghost use Rattle.nts_model.specs.Derivations.Handlers.{premise_by};
ghost use Rattle.nts_store.specs.Growth.{tree_at, AllIn, Extends};
ghost use Rattle.nts_response.specs.Forms.{premise_at, HoldsOpen};
ghost use Rattle.nts_response.specs.Opened.{IsOpenable};
ghost use Rattle.nts_response.specs.Replacing.{ReplacesEach};

use nts_candidates::nts_certainty::GoalSource;
use nts_canonical::fill;
use nts_store::{NodeId, Nodes};
use nts_terms::Goal;
use std::alloc::{AllocError, Global};

/// The goals with what was chosen in place of their positions, in order, each with its source.
pub(crate) fn opened_goals(
    alloc: Global,
    nodes: &mut Nodes,
    chosen: &[NodeId],
    goals: &[(GoalSource, Goal)],
) -> Result<Vec<(GoalSource, Goal)>, AllocError>
    requires chosen { AllIn nodes.old chosen.now }
    requires goals { All (IsOpenable nodes.old (map (tree_at nodes.old) chosen.now)) goals.now }
    ensures each { IfOk result (λ v. ReplacesEach HoldsOpen premise_at
        (premise_by (filled (map (tree_at nodes.old) chosen.now))) nodes.old nodes.new goals.now
        v.items) }
    ensures extends { Extends nodes.old nodes.new }
{
    let mut opened = Vec::with_capacity(alloc, goals.len())?;
    for i in 0..goals.len() {
        let goal = opened_goal(alloc, nodes, chosen, goals[i])?;
        opened.push(goal)?;
    }
    Ok(opened)
}

fn opened_goal(
    alloc: Global,
    nodes: &mut Nodes,
    chosen: &[NodeId],
    goal: (GoalSource, Goal),
) -> Result<(GoalSource, Goal), AllocError>
    requires chosen { AllIn nodes.old chosen.now }
    requires goal { IsOpenable nodes.old (map (tree_at nodes.old) chosen.now) goal }
    ensures holds { IfOk result (HoldsOpen nodes.new) }
    ensures replaced { IfOk result (λ r. premise_at nodes.new r ≡ premise_by
        (filled (map (tree_at nodes.old) chosen.now)) (premise_at nodes.old goal)) }
    ensures extends { Extends nodes.old nodes.new }
{
    let (source, goal) = goal;
    let param_env = fill(alloc, nodes, chosen, goal.param_env)?;
    let predicate = fill(alloc, nodes, chosen, goal.predicate)?;
    let goal = Goal {
        param_env,
        predicate,
    };
    Ok((source, goal))
}
