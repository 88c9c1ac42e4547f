//! Terms under the values of a table.
ghost use Rattle.std.specs.Prelude.{◌≡◌, ◌≢◌, true, Some, IfOk};
ghost use Rattle.nts_model.specs.declared.labels.VariableKind.TheVariants as variable;
ghost use Rattle.nts_model.specs.Tables.Contents.{kind_at};
ghost use Rattle.nts_model.specs.Terms.Trees.{variable_tree};
ghost use Rattle.nts_model.specs.Tables.Resolving.{Knows};
ghost use Rattle.nts_store.specs.Growth.{tree_at, IsIn, Extends};
ghost use Rattle.nts_replacing.specs.Replacement.{IsStep};
ghost use Rattle.nts_unify.specs.Reading.{content_of};
ghost use Rattle.nts_table.specs.Tables.{IsTable};
ghost use Rattle.nts_table.specs.TableLaws.{IsTable-extended};
ghost use Rattle.nts_table.specs.Resolution.{Resolution, resolution, CanResolve, resolution_of, resolved_to, IsResolved, resolution-kept, resolution_of-empty, resolution_of-more, CanResolve-more, resolution_of-kind};

use crate::infer_ctxt::InferCtxt;
use nts_model::{Label, Leaf, VariableKind};
use nts_replacing::{Replacer, Step, replace};
use nts_store::{NodeId, Nodes};
use nts_unify::named_variable;
use std::alloc::{AllocError, Global};

#[derive(Drop)]
struct Resolver<'a> {
    table: &'a InferCtxt,
    regions: bool,
}

impl Replacer for Resolver<'_> {
    ghost Meaning = { Resolution };

    ghost meaning = { λ ts s. resolution ts s.table.now s.regions };

    ghost ready = { λ ts s. IsTable ts s.table.now };

    ghost covers = { CanResolve };

    ghost image = { resolution_of };

    ghost ready_kept = { λ a b s h e. IsTable-extended e h };

    ghost meaning_kept = { λ a b s h e. resolution-kept a b s.table.now s.regions h e };

    ghost image_empty = { resolution_of-empty };

    ghost image_more = { resolution_of-more };

    ghost covers_more = { CanResolve-more };

    ghost kind_kept = { resolution_of-kind };

    fn step(&self, nodes: &mut Nodes, t: NodeId) -> Result<Step, AllocError> {
        if self.leaves(nodes, t) {
            return Ok(Step::Done(t));
        }
        match named_variable(nodes.label(t)) {
            Some((VariableKind::Region, n)) => self.region_step(nodes, t, n),
            Some((kind, n)) => self.variable_step(nodes, t, kind, n),
            None => Ok(Step::Down(t)),
        }
    }
}

impl Resolver<'_> {
    /// Whether nothing of a term is replaced. Most terms need no walk.
    fn leaves(&self, nodes: &Nodes, t: NodeId) -> bool
        requires { IsIn nodes.now t }
        ensures { result ≡ true → IsResolved self.now.regions (tree_at nodes.now t) }
    {
        let flags = nodes.flags(t);
        !flags.has_infer && !(self.regions && flags.has_region_infer)
    }

    fn region_step(&self, nodes: &mut Nodes, t: NodeId, n: usize) -> Result<Step, AllocError>
        requires within { IsIn nodes.old t }
        requires table { IsTable nodes.old self.now.table.now }
        requires has { kind_at (content_of nodes.old self.now.table.now.entries) n ≡ Some
            variable.Region }
        requires variable { tree_at nodes.old t ≡ variable_tree variable.Region n }
        ensures extends { Extends nodes.old nodes.new }
        ensures step { IfOk result
            (IsStep (CanResolve (resolution nodes.old self.now.table.now self.now.regions))
            (resolution_of (resolution nodes.old self.now.table.now self.now.regions)) nodes.new
            (tree_at nodes.old t)) }
    {
        if !self.regions {
            return Ok(Step::Done(t));
        }
        let root = self.table.root(n);
        let label = Label::Leaf(Leaf::Variable(VariableKind::Region, root));
        Ok(Step::Done(nodes.make(label, &[])?))
    }

    fn variable_step(
        &self,
        nodes: &mut Nodes,
        t: NodeId,
        kind: VariableKind,
        n: usize,
    ) -> Result<Step, AllocError>
        requires within { IsIn nodes.old t }
        requires table { IsTable nodes.old self.now.table.now }
        requires has { kind_at (content_of nodes.old self.now.table.now.entries) n ≡ Some kind }
        requires variable { tree_at nodes.old t ≡ variable_tree kind n }
        requires no_region { kind ≢ variable.Region }
        ensures extends { Extends nodes.old nodes.new }
        ensures step { IfOk result
            (IsStep (CanResolve (resolution nodes.old self.now.table.now self.now.regions))
            (resolution_of (resolution nodes.old self.now.table.now self.now.regions)) nodes.new
            (tree_at nodes.old t)) }
    {
        let value = match self.table.probe_variable(n) {
            Ok(value) => value,
            Err(root) => {
                let label = Label::Leaf(Leaf::Variable(kind, root));
                return Ok(Step::Done(nodes.make(label, &[])?));
            }
        };
        if self.leaves(nodes, value) {
            return Ok(Step::Done(value));
        }
        // The value of a type variable may be a variable of integers or floats.
        match named_variable(nodes.label(value)) {
            Some((of_kind, m)) => self.variable_step(nodes, value, of_kind, m),
            None => Ok(Step::Down(value)),
        }
    }
}

/// The term with all variables replaced by value or root, but for those of regions, which are replaced
/// where that is asked for.
pub fn resolve_nodes(
    alloc: Global,
    nodes: &mut Nodes,
    table: &InferCtxt,
    t: NodeId,
    regions: bool,
) -> Result<NodeId, AllocError>
    requires within { IsIn nodes.old t }
    requires table { IsTable nodes.old table.now }
    requires knows { Knows (content_of nodes.old table.now.entries) (tree_at nodes.old t) }
    ensures extends { Extends nodes.old nodes.new }
    ensures within { IfOk result (IsIn nodes.new) }
    ensures tree { IfOk result (λ r. tree_at nodes.new r ≡ resolved_to regions
        (content_of nodes.old table.now.entries) (tree_at nodes.old t)) }
{
    replace(alloc, nodes, &Resolver { table, regions }, t)
}
