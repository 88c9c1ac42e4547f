//! The canonical input of a goal.
ghost use Rattle.std.specs.Prelude.{◌≡◌, [], IfOk, OnOk, IsOkUnless};
ghost use Rattle.nts_model.specs.Terms.Substitutions.{replace};
ghost use Rattle.nts_model.specs.Canonical.Numbered.{seen, numbered_leaf, no_leaf};
ghost use Rattle.nts_model.specs.Canonical.Inputs.{is_static, originals, whole};
ghost use Rattle.nts_model.specs.Tables.Resolving.{Knows};
ghost use Rattle.nts_store.specs.Growth.{tree_at, Extends};
ghost use Rattle.nts_terms.specs.Handles.{HoldsEnv, HoldsPredicate, HoldsGoal};
ghost use Rattle.nts_terms.specs.Rest.{Grows};
ghost use Rattle.nts_unify.specs.Reading.{content_of};
ghost use Rattle.nts_canonical.specs.nts_table.specs.Tables.{IsTable};
ghost use Rattle.nts_canonical.specs.Forms.{hidden_pairs, input_of, IsHidden, AreHidden, HoldsQuery};
ghost use Rattle.nts_canonical.specs.Building.{IsCanonicalOf, IsAskable};
ghost use Rattle.nts_canonical.specs.Replaced.{IsImage, AreImages, AreLeafArgs};

use crate::collecting::{Staying, collect};
use crate::leaves::Leaves;
use crate::numbering::numbered;
use nts_canonical::nts_table::InferCtxt;
use nts_canonical::{Canonical, CanonicalInput, QueryInput, kinds_of};
use nts_model::{Label, Leaf};
use nts_store::{Fault, Nodes};
use nts_terms::{AliasTerm, Cx, GenericArg, Goal, Ty, TypingMode};
use std::alloc::{AllocError, Global};

/// The originals and the canonical input of a goal that is asked in that mode with these hidden types. The
/// originals stand in the goal where the input has positions, and are values for these
/// (`instantiate_canonical`).
pub fn canonicalize_goal(
    table: &InferCtxt,
    cx: &mut Cx,
    goal: Goal,
    opaque_types: &[(AliasTerm, Ty)],
    mode: TypingMode,
) -> Result<(Vec<GenericArg>, CanonicalInput), Fault>
    requires table { IsTable cx.old.nodes table.now }
    requires goal { HoldsGoal cx.old.nodes goal }
    requires hidden { AreHidden cx.old.nodes opaque_types.now }
    requires knows { Knows (content_of cx.old.nodes table.now.entries)
        (whole (input_of cx.old.nodes table.now.entries goal opaque_types.now)) }
    ensures canonical { IfOk result (IsCanonicalOf cx.new.nodes
        (input_of cx.old.nodes table.now.entries goal opaque_types.now) mode) }
    ensures askable { IfOk result (IsAskable cx.new.nodes) }
    ensures grows { Grows cx.old cx.new }
    ensures memory { IsOkUnless result Fault.Memory }
{
    let leaves = leaves_of(cx, goal, opaque_types)?;
    canonicalize_over(table, cx, &leaves, goal, opaque_types, mode)
}

/// The originals and the canonical input, where these are the leaves.
fn canonicalize_over(
    table: &InferCtxt,
    cx: &mut Cx,
    leaves: &Leaves,
    goal: Goal,
    opaque_types: &[(AliasTerm, Ty)],
    mode: TypingMode,
) -> Result<(Vec<GenericArg>, CanonicalInput), Fault>
    requires table { IsTable cx.old.nodes table.now }
    requires leaves { leaves.now ≡ seen no_leaf (seen no_leaf (seen is_static []
        (tree_at cx.old.nodes goal.param_env.node)) (tree_at cx.old.nodes goal.predicate.node))
        (hidden_pairs cx.old.nodes opaque_types.now) }
    requires goal { HoldsGoal cx.old.nodes goal }
    requires hidden { AreHidden cx.old.nodes opaque_types.now }
    requires knows { Knows (content_of cx.old.nodes table.now.entries)
        (whole (input_of cx.old.nodes table.now.entries goal opaque_types.now)) }
    ensures canonical { IfOk result (IsCanonicalOf cx.new.nodes
        (input_of cx.old.nodes table.now.entries goal opaque_types.now) mode) }
    ensures askable { IfOk result (IsAskable cx.new.nodes) }
    ensures grows { Grows cx.old cx.new }
    ensures memory { IsOkUnless result Fault.Memory }
{
    let var_kinds = kinds_of(cx.alloc, table, leaves.as_slice())?;
    let originals = arguments(cx.alloc, &mut cx.nodes, leaves.as_slice())?;
    let value = numbered_query(cx.alloc, &mut cx.nodes, leaves, goal, opaque_types)?;
    let canonical = Canonical {
        value,
        max_universe: 0,
        var_kinds,
    };
    Ok((
        originals,
        CanonicalInput {
            canonical,
            typing_mode: mode,
        },
    ))
}

/// The leaves in the order of first sight. In the environment 'static is none.
fn leaves_of(cx: &Cx, goal: Goal, opaque_types: &[(AliasTerm, Ty)]) -> Result<Leaves, AllocError>
    requires environment { HoldsEnv cx.now.nodes goal.param_env }
    requires predicate { HoldsPredicate cx.now.nodes goal.predicate }
    requires hidden { AreHidden cx.now.nodes opaque_types.now }
    ensures { IfOk result (λ s. s ≡ seen no_leaf (seen no_leaf (seen is_static []
        (tree_at cx.now.nodes goal.param_env.node)) (tree_at cx.now.nodes goal.predicate.node))
        (hidden_pairs cx.now.nodes opaque_types.now)) }
{
    let mut leaves = Leaves::new(cx.alloc);
    collect_all(cx, &mut leaves, goal, opaque_types)?;
    Ok(leaves)
}

/// Adds the leaves of a goal and of the hidden types that were not seen before.
fn collect_all(
    cx: &Cx,
    leaves: &mut Leaves,
    goal: Goal,
    opaque_types: &[(AliasTerm, Ty)],
) -> Result<(), AllocError>
    requires environment { HoldsEnv cx.now.nodes goal.param_env }
    requires predicate { HoldsPredicate cx.now.nodes goal.predicate }
    requires hidden { AreHidden cx.now.nodes opaque_types.now }
    ensures { OnOk result (leaves.new ≡ seen no_leaf (seen no_leaf
        (seen is_static leaves.old (tree_at cx.now.nodes goal.param_env.node))
        (tree_at cx.now.nodes goal.predicate.node)) (hidden_pairs cx.now.nodes opaque_types.now)) }
{
    let env = goal.param_env.node;
    collect(cx.alloc, &cx.nodes, Staying::Static, leaves, env)?;
    collect(
        cx.alloc,
        &cx.nodes,
        Staying::Nothing,
        leaves,
        goal.predicate.node,
    )?;
    for i in 0..opaque_types.len() {
        let (alias, ty) = opaque_types[i];
        collect(
            cx.alloc,
            &cx.nodes,
            Staying::Nothing,
            leaves,
            alias.args.node,
        )?;
        collect(cx.alloc, &cx.nodes, Staying::Nothing, leaves, ty.node)?;
    }
    Ok(())
}

/// The leaves as arguments.
fn arguments(
    alloc: Global,
    nodes: &mut Nodes,
    leaves: &[Leaf],
) -> Result<Vec<GenericArg>, AllocError>
    ensures arguments { IfOk result (λ v. AreLeafArgs nodes.new v.items leaves.now) }
    ensures extends { Extends nodes.old nodes.new }
{
    let mut arguments = Vec::with_capacity(alloc, leaves.len())?;
    for i in 0..leaves.len() {
        let node = nodes.make(Label::Leaf(leaves[i]), &[])?;
        arguments.push(GenericArg { node })?;
    }
    Ok(arguments)
}

fn numbered_query(
    alloc: Global,
    nodes: &mut Nodes,
    leaves: &Leaves,
    goal: Goal,
    opaque_types: &[(AliasTerm, Ty)],
) -> Result<QueryInput, AllocError>
    requires environment { HoldsEnv nodes.old goal.param_env }
    requires predicate { HoldsPredicate nodes.old goal.predicate }
    requires hidden { AreHidden nodes.old opaque_types.now }
    ensures environment { IfOk result (λ q. tree_at nodes.new q.goal.param_env.node ≡ replace
        (numbered_leaf is_static leaves.now) (tree_at nodes.old goal.param_env.node)) }
    ensures predicate { IfOk result (λ q. tree_at nodes.new q.goal.predicate.node ≡ replace
        (numbered_leaf no_leaf leaves.now) (tree_at nodes.old goal.predicate.node)) }
    ensures hidden { IfOk result (λ q.
        hidden_pairs nodes.new q.predefined_opaques_in_body.items ≡ replace
        (numbered_leaf no_leaf leaves.now) (hidden_pairs nodes.old opaque_types.now)) }
    ensures holds { IfOk result (HoldsQuery nodes.new) }
    ensures extends { Extends nodes.old nodes.new }
{
    let param_env = numbered(alloc, nodes, Staying::Static, leaves, goal.param_env)?;
    let predicate = numbered(alloc, nodes, Staying::Nothing, leaves, goal.predicate)?;
    let hidden = numbered_hidden(alloc, nodes, leaves, opaque_types)?;
    Ok(QueryInput {
        goal: Goal {
            param_env,
            predicate,
        },
        predefined_opaques_in_body: hidden,
    })
}

fn numbered_hidden(
    alloc: Global,
    nodes: &mut Nodes,
    leaves: &Leaves,
    opaque_types: &[(AliasTerm, Ty)],
) -> Result<Vec<(AliasTerm, Ty)>, AllocError>
    requires { AreHidden nodes.old opaque_types.now }
    ensures images { IfOk result (λ v. AreImages (replace (numbered_leaf no_leaf leaves.now))
        nodes.old nodes.new opaque_types.now v.items) }
    ensures extends { Extends nodes.old nodes.new }
{
    let mut hidden = Vec::with_capacity(alloc, opaque_types.len())?;
    for i in 0..opaque_types.len() {
        let one = numbered_pair(alloc, nodes, leaves, opaque_types[i])?;
        hidden.push(one)?;
    }
    Ok(hidden)
}

#[tactic(auto, using(nts_canonical::proofs::PairLists::alias_replaced))]
fn numbered_pair(
    alloc: Global,
    nodes: &mut Nodes,
    leaves: &Leaves,
    hidden: (AliasTerm, Ty),
) -> Result<(AliasTerm, Ty), AllocError>
    requires { IsHidden nodes.old hidden }
    ensures image { IfOk result (IsImage (replace (numbered_leaf no_leaf leaves.now)) nodes.old
        nodes.new hidden) }
    ensures extends { Extends nodes.old nodes.new }
{
    let (alias, ty) = hidden;
    let args = numbered(alloc, nodes, Staying::Nothing, leaves, alias.args)?;
    let ty = numbered(alloc, nodes, Staying::Nothing, leaves, ty)?;
    let alias = AliasTerm {
        def_id: alias.def_id,
        args,
    };
    Ok((alias, ty))
}
