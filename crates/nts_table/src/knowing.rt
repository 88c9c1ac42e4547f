//! Whether a term's variables and universes are of a table, it has no positions of canonical values, and
//! what it binds is listed.
ghost use Rattle.std.specs.Prelude.{◌≡◌, ◌↔◌, IsTrue, true, false, IfOk, IsOkUnless};
ghost use Rattle.nts_model.specs.Terms.Trees.{variable_of};
ghost use Rattle.nts_model.specs.Tables.Resolving.{Knows};
ghost use Rattle.nts_model.specs.Terms.Placeholders.{CanName, leaf_level};
ghost use Rattle.nts_store.specs.Growth.{tree_at, IsIn};
ghost use Rattle.nts_unify.specs.Reading.{content_of};
ghost use Rattle.nts_unify.specs.Knowing.{HasNamed, IsNamed};

use crate::infer_ctxt::InferCtxt;
use nts_model::Label;
use nts_store::{Fault, LabelTest, NodeId, Nodes, all_labels};
use nts_terms::{Cx, Stored};
use nts_unify::{named_variable, placeholder_universe};
use std::alloc::{AllocError, Global};

/// A label names neither a variable nor a universe that the table lacks.
#[derive(Drop)]
struct Named<'a> {
    table: &'a InferCtxt,
}

impl LabelTest for Named<'_> {
    ghost passes = { λ s l. IsNamed s.table.now.entries l };

    fn test(&self, label: Label) -> bool {
        self.table.has_variable(label) && self.table.has_universe(label)
    }
}

impl InferCtxt {
    /// Whether all variables of a term are of this table, with their kinds, the current universe can name
    /// all its placeholders, none of its bound variables is a position of a canonical value, and each is
    /// of the list of its binder.
    pub fn knows<T: Stored>(&self, cx: &Cx, x: T) -> Result<bool, Fault>
        requires { IsIn cx.now.nodes (T.id x) }
        ensures answer { IfOk result (λ b. IsTrue b ↔ Knows
            (content_of cx.now.nodes self.now.entries) (tree_at cx.now.nodes (T.id x))) }
        ensures memory { IsOkUnless result Fault.Memory }
    {
        let answer = self.knows_node(cx.alloc, &cx.nodes, x.node())?;
        Ok(answer)
    }

    /// Each node is looked at once, however often and however deep the term has it.
    pub fn knows_node(&self, alloc: Global, nodes: &Nodes, t: NodeId) -> Result<bool, AllocError>
        requires { IsIn nodes.now t }
        ensures { IfOk result (λ b. IsTrue b ↔ Knows (content_of nodes.now self.now.entries)
            (tree_at nodes.now t)) }
    {
        // Positions and binders are told by what the node keeps. Most terms hold neither variables nor placeholders, and are not walked.
        let flags = nodes.flags(t);
        if flags.has_canonical {
            return Ok(false);
        }
        if !nodes.is_well_bound(t) {
            return Ok(false);
        }
        if !flags.has_infer && !flags.has_region_infer && !flags.has_placeholder {
            return Ok(true);
        }
        all_labels(alloc, nodes, t, &Named { table: self })
    }

    /// Whether the label names no variable that the table lacks.
    fn has_variable(&self, label: Label) -> bool
        ensures yes { result ≡ true → HasNamed self.now.entries (variable_of label) }
        ensures no { result ≡ false → HasNamed self.now.entries (variable_of label) → ⊥ }
    {
        match named_variable(label) {
            None => true,
            Some((kind, n)) => n < self.variable_count() && self.variable(n).kind == kind,
        }
    }

    /// Whether the label is no placeholder of a universe above the current one.
    fn has_universe(&self, label: Label) -> bool
        ensures yes { result ≡ true → CanName self.now.entries.universe (leaf_level label) }
        ensures no { result ≡ false → CanName self.now.entries.universe (leaf_level label) → ⊥ }
    {
        match placeholder_universe(label) {
            None => true,
            Some(universe) => universe <= self.universe(),
        }
    }
}
