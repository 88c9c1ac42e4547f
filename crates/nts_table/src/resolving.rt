//! Terms with their variables replaced by what is known of them.
ghost use Rattle.std.specs.Prelude.{◌≡◌, IfOk, IsOkUnless};
ghost use Rattle.nts_model.specs.Terms.Trees.{any_label, is_alias};
ghost use Rattle.nts_model.specs.Tables.Resolving.{Knows, resolved};
ghost use Rattle.nts_store.specs.Growth.{tree_at, IsIn, Extends};
ghost use Rattle.nts_terms.specs.Handles.{Holds};
ghost use Rattle.nts_unify.specs.Reading.{content_of};
ghost use Rattle.nts_table.specs.Tables.{IsTable};
ghost use Rattle.nts_terms.specs.Rest.{Grows};

use crate::infer_ctxt::InferCtxt;
use crate::resolver::resolve_nodes;
use nts_store::Fault;
use nts_terms::{Cx, Stored};

impl InferCtxt {
    /// The term with all variables but those of regions replaced by value or root.
    pub fn resolve_vars_if_possible<T: Stored>(&self, cx: &mut Cx, x: T) -> Result<T, Fault>
        requires table { IsTable cx.old.nodes self.now }
        requires holds { Holds T.place cx.old.nodes (T.id x) }
        requires knows { Knows (content_of cx.old.nodes self.now.entries) (tree_at cx.old.nodes
            (T.id x)) }
        ensures tree { IfOk result (λ r. tree_at cx.new.nodes (T.id r) ≡ resolved
            (content_of cx.old.nodes self.now.entries) (tree_at cx.old.nodes (T.id x))) }
        ensures holds { IfOk result (λ r. Holds T.place cx.new.nodes (T.id r)) }
        ensures grows { Grows cx.old cx.new }
        ensures memory { IsOkUnless result Fault.Memory }
    {
        let node = resolve_nodes(cx.alloc, &mut cx.nodes, self, x.node(), false)?;
        Ok(T::from_node(node))
    }

    /// Whether an alias stands in the term, with values in place of variables.
    pub fn has_alias<T: Stored>(&self, cx: &mut Cx, x: T) -> Result<bool, Fault>
        requires table { IsTable cx.old.nodes self.now }
        requires within { IsIn cx.old.nodes (T.id x) }
        requires knows { Knows (content_of cx.old.nodes self.now.entries) (tree_at cx.old.nodes
            (T.id x)) }
        ensures answer { IfOk result (λ b. b ≡ any_label is_alias
            (resolved (content_of cx.old.nodes self.now.entries) (tree_at cx.old.nodes (T.id x)))) }
        ensures grows { Grows cx.old cx.new }
        ensures memory { IsOkUnless result Fault.Memory }
    {
        let found = resolve_nodes(cx.alloc, &mut cx.nodes, self, x.node(), false)?;
        Ok(cx.nodes.flags(found).has_alias)
    }
}
