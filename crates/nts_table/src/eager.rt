//! The values of variables.
ghost use Rattle.std.specs.Prelude.{◌≡◌, IfOk, IsOkUnless};
ghost use Rattle.nts_model.specs.Tables.Resolving.{Knows, deeply_resolved};
ghost use Rattle.nts_store.specs.Growth.{tree_at, Extends};
ghost use Rattle.nts_terms.specs.Handles.{Holds};
ghost use Rattle.nts_unify.specs.Reading.{content_of};
ghost use Rattle.nts_table.specs.Tables.{IsTable};
ghost use Rattle.nts_terms.specs.Rest.{Grows};

use crate::infer_ctxt::InferCtxt;
use crate::resolver::resolve_nodes;
use nts_store::Fault;
use nts_terms::{Cx, Stored};

/// A term with each variable replaced by its value, through values of values, or by the first
/// variable of its class where it has none. The answer is the same when this is done twice.
pub fn eager_resolve_vars<T: Stored>(table: &InferCtxt, cx: &mut Cx, value: T) -> Result<T, Fault>
    requires table { IsTable cx.old.nodes table.now }
    requires holds { Holds T.place cx.old.nodes (T.id value) }
    requires knows { Knows (content_of cx.old.nodes table.now.entries) (tree_at cx.old.nodes
        (T.id value)) }
    ensures grows { Grows cx.old cx.new }
    ensures holds { IfOk result (λ r. Holds T.place cx.new.nodes (T.id r)) }
    ensures knows { IfOk result (λ r. Knows (content_of cx.new.nodes table.now.entries)
        (tree_at cx.new.nodes (T.id r))) }
    ensures tree { IfOk result (λ r. tree_at cx.new.nodes (T.id r) ≡ deeply_resolved
        (content_of cx.old.nodes table.now.entries) (tree_at cx.old.nodes (T.id value))) }
    ensures twice { IfOk result (λ r. deeply_resolved (content_of cx.old.nodes table.now.entries)
        (tree_at cx.new.nodes (T.id r)) ≡ tree_at cx.new.nodes (T.id r)) }
    ensures memory { IsOkUnless result Fault.Memory }
{
    let node = resolve_nodes(cx.alloc, &mut cx.nodes, table, value.node(), true)?;
    Ok(T::from_node(node))
}
