//! What a clause offers.
ghost use Rattle.std.specs.Prelude.{◌≡◌, ◌++◌, map, IfOk, IsOkUnless};
ghost use Rattle.nts_model.specs.Terms.Trees.{row_length, children, IsRow};
ghost use Rattle.nts_store.specs.Growth.{tree_at};
ghost use Rattle.nts_terms.specs.Handles.{HoldsArgs};
ghost use Rattle.nts_delegate.specs.Offers.{IsOffer, AreArgumentPairs, asked_by};

use crate::clauses::Clause;
use nts_candidates::nts_certainty::{Certainty, GoalSource, RerunCondition};
use nts_candidates::{CandidateData, CandidateGoal, Equation, EquationKind};
use nts_store::Fault;
use nts_terms::{Cx, GenericArgs, Goal, Predicate};
use std::alloc::{AllocError, Global};

/// What a clause offers for a goal with these arguments: its head's arguments are the goal's, and its
/// body is to be proved.
pub(crate) fn offer_of(
    alloc: Global,
    cx: &Cx,
    clause: &Clause,
    goal: Goal,
    args: GenericArgs,
) -> Result<CandidateData, Fault>
    requires args { HoldsArgs cx.now.nodes args }
    requires head { HoldsArgs cx.now.nodes clause.now.head }
    requires row { IsRow (children (tree_at cx.now.nodes clause.now.head.node)) }
    requires long { row_length (children (tree_at cx.now.nodes args.node)) ≡ row_length (children
        (tree_at cx.now.nodes clause.now.head.node)) }
    ensures offer { IfOk result (IsOffer cx.now.nodes goal
        (tree_at cx.now.nodes args.node) clause.now) }
    ensures memory { IsOkUnless result Fault.Memory }
{
    Ok(CandidateData {
        fresh: Vec::from_slice(alloc, &clause.fresh)?,
        equations: pairs_of(alloc, cx, args, clause.head)?,
        region_constraints: Vec::new(alloc),
        hidden_types: Vec::new(alloc),
        goals: asked_of(alloc, goal, &clause.body)?,
        certainty: Certainty::Yes,
        accesses: RerunCondition::Never,
    })
}

/// Each argument with the one of the head at its position.
pub fn pairs_of(
    alloc: Global,
    cx: &Cx,
    args: GenericArgs,
    head: GenericArgs,
) -> Result<Vec<Equation>, AllocError>
    requires args { HoldsArgs cx.now.nodes args }
    requires head { HoldsArgs cx.now.nodes head }
    requires row { IsRow (children (tree_at cx.now.nodes head.node)) }
    requires long { row_length (children (tree_at cx.now.nodes args.node)) ≡ row_length (children
        (tree_at cx.now.nodes head.node)) }
    ensures { IfOk result (λ qs. AreArgumentPairs cx.now.nodes
        (children (tree_at cx.now.nodes args.node))
        (children (tree_at cx.now.nodes head.node)) qs.items) }
{
    let count = args.len(cx);
    let mut equations = Vec::with_capacity(alloc, count)?;
    for i in 0..count {
        equations.push(Equation {
            kind: EquationKind::Related,
            lhs: args.get(cx, i),
            rhs: head.get(cx, i),
        })?;
    }
    Ok(equations)
}

/// A clause's body as goals, in the environment of the goal.
pub(crate) fn asked_of(
    alloc: Global,
    goal: Goal,
    body: &[Predicate],
) -> Result<Vec<CandidateGoal>, AllocError>
    ensures { IfOk result (λ gs. gs.items ≡ map (asked_by goal) body.now) }
{
    body.iter()
        .map(|predicate| CandidateGoal {
            source: GoalSource::ImplWhereBound,
            goal: Goal {
                param_env: goal.param_env,
                predicate: *predicate,
            },
        })
        .collect(alloc)
}

/// The candidates of two handlers, in order. The first offers mostly none, and then the list of the second is the answer.
pub(crate) fn joined(
    first: Vec<CandidateData>,
    second: Vec<CandidateData>,
) -> Result<Vec<CandidateData>, AllocError>
    ensures { IfOk result (λ all. all.items ≡ first.items ++ second.items) }
{
    if first.is_empty() {
        return Ok(second);
    }
    let mut all = first;
    let mut more = second;
    all.append(&mut more)?;
    Ok(all)
}
