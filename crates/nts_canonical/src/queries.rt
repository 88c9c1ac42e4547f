//! Values in place of the positions of a query, by one walk that goes into a shared node once.
ghost use Rattle.std.specs.Prelude.{◌≡◌, All, map, IfOk, IsOkUnless};
ghost use Rattle.nts_model.specs.Terms.Substitutions.{filled};
ghost use Rattle.nts_store.specs.Growth.{tree_at, AllIn, Extends};
ghost use Rattle.nts_terms.specs.Handles.{Holds, HoldsArg};
ghost use Rattle.nts_store.specs.Filled.{HasValues};
ghost use Rattle.nts_canonical.specs.Forms.{hidden_pairs, query_tree, trees_of, IsHidden, AreHidden, HoldsQuery};
ghost use Rattle.nts_canonical.specs.Replaced.{IsImage, AreImages};
ghost use Rattle.nts_terms.specs.Rest.{Grows};

use crate::types::{Canonical, QueryInput};
use nts_store::{Fault, NodeId, Nodes};
use nts_terms::{AliasTerm, Cx, GenericArg, Goal, Stored, Ty};
use std::alloc::{AllocError, Global};

/// The query with value i in place of the bound variable that names position i. With the originals of a
/// goal as values it is the goal again (`nts_model::originals_give_input`).
pub(crate) fn instantiate_query(
    cx: &mut Cx,
    canonical: &Canonical<QueryInput>,
    values: &[GenericArg],
) -> Result<QueryInput, Fault>
    requires holds { HoldsQuery cx.old.nodes canonical.now.value }
    requires values { All (HoldsArg cx.old.nodes) values.now }
    requires positions { HasValues (trees_of cx.old.nodes values.now)
        (query_tree cx.old.nodes canonical.now.value) }
    ensures tree { IfOk result (λ q. query_tree cx.new.nodes q ≡ filled
        (trees_of cx.old.nodes values.now) (query_tree cx.old.nodes canonical.now.value)) }
    ensures holds { IfOk result (HoldsQuery cx.new.nodes) }
    ensures grows { Grows cx.old cx.new }
    ensures memory { IsOkUnless result Fault.Memory }
{
    let values = nodes_of(cx.alloc, values)?;
    let query = fill_query(cx.alloc, &mut cx.nodes, &values, &canonical.value)?;
    Ok(query)
}

/// The nodes of arguments.
pub fn nodes_of(alloc: Global, values: &[GenericArg]) -> Result<Vec<NodeId>, AllocError>
    ensures { IfOk result (λ v. v.items ≡ map (λ a. a.node) values.now) }
{
    values.iter().map(|value| value.node).collect(alloc)
}

fn fill_query(
    alloc: Global,
    nodes: &mut Nodes,
    values: &[NodeId],
    query: &QueryInput,
) -> Result<QueryInput, AllocError>
    requires holds { HoldsQuery nodes.old query.now }
    requires values { AllIn nodes.old values.now }
    requires positions { HasValues (map (tree_at nodes.old) values.now)
        (query_tree nodes.old query.now) }
    ensures tree { IfOk result (λ q. query_tree nodes.new q ≡ filled
        (map (tree_at nodes.old) values.now) (query_tree nodes.old query.now)) }
    ensures holds { IfOk result (HoldsQuery nodes.new) }
    ensures extends { Extends nodes.old nodes.new }
{
    let param_env = fill(alloc, nodes, values, query.goal.param_env)?;
    let predicate = fill(alloc, nodes, values, query.goal.predicate)?;
    let hidden = fill_hidden(alloc, nodes, values, &query.predefined_opaques_in_body)?;
    Ok(QueryInput {
        goal: Goal {
            param_env,
            predicate,
        },
        predefined_opaques_in_body: hidden,
    })
}

/// Hidden types with the values in place of their positions, in order.
pub fn fill_hidden(
    alloc: Global,
    nodes: &mut Nodes,
    values: &[NodeId],
    opaque_types: &[(AliasTerm, Ty)],
) -> Result<Vec<(AliasTerm, Ty)>, AllocError>
    requires holds { AreHidden nodes.old opaque_types.now }
    requires values { AllIn nodes.old values.now }
    requires positions { HasValues (map (tree_at nodes.old) values.now)
        (hidden_pairs nodes.old opaque_types.now) }
    ensures images { IfOk result (λ v. AreImages (filled (map (tree_at nodes.old) values.now))
        nodes.old nodes.new opaque_types.now v.items) }
    ensures extends { Extends nodes.old nodes.new }
{
    let mut hidden = Vec::with_capacity(alloc, opaque_types.len())?;
    for i in 0..opaque_types.len() {
        let one = fill_pair(alloc, nodes, values, opaque_types[i])?;
        hidden.push(one)?;
    }
    Ok(hidden)
}

fn fill_pair(
    alloc: Global,
    nodes: &mut Nodes,
    values: &[NodeId],
    hidden: (AliasTerm, Ty),
) -> Result<(AliasTerm, Ty), AllocError>
    requires holds { IsHidden nodes.old hidden }
    requires values { AllIn nodes.old values.now }
    requires alias_positions { HasValues (map (tree_at nodes.old) values.now)
        (tree_at nodes.old hidden.0.args.node) }
    requires positions { HasValues (map (tree_at nodes.old) values.now)
        (tree_at nodes.old hidden.1.node) }
    ensures image { IfOk result (IsImage (filled (map (tree_at nodes.old) values.now)) nodes.old
        nodes.new hidden) }
    ensures extends { Extends nodes.old nodes.new }
{
    let (alias, ty) = hidden;
    let args = fill(alloc, nodes, values, alias.args)?;
    let ty = fill(alloc, nodes, values, ty)?;
    let alias = AliasTerm {
        def_id: alias.def_id,
        args,
    };
    Ok((alias, ty))
}

/// The term with the values in place of its positions.
pub fn fill<T: Stored>(
    alloc: Global,
    nodes: &mut Nodes,
    values: &[NodeId],
    x: T,
) -> Result<T, AllocError>
    requires holds { Holds T.place nodes.old (T.id x) }
    requires values { AllIn nodes.old values.now }
    requires positions { HasValues (map (tree_at nodes.old) values.now) (tree_at nodes.old
        (T.id x)) }
    ensures extends { Extends nodes.old nodes.new }
    ensures holds { IfOk result (λ r. Holds T.place nodes.new (T.id r)) }
    ensures tree { IfOk result (λ r. tree_at nodes.new (T.id r) ≡ filled
        (map (tree_at nodes.old) values.now) (tree_at nodes.old (T.id x))) }
{
    let node = nts_table::nts_replacing::instantiate_canonical(alloc, nodes, values, x.node())?;
    Ok(T::from_node(node))
}
