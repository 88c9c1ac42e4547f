//! The value or the root of a variable, as a term.
ghost use Rattle.std.specs.Prelude.{◌≡◌, Some, IfOk, OnErr, IsOkUnless};
ghost use Rattle.nts_model.specs.declared.labels.VariableKind.TheVariants as kinds;
ghost use Rattle.nts_model.specs.Terms.Trees.{kind_of, of_sort, sort_of_variable};
ghost use Rattle.nts_model.specs.Tables.Contents.{kind_at};
ghost use Rattle.nts_model.specs.Tables.Resolving.{Knows};
ghost use Rattle.nts_store.specs.Growth.{tree_at, IsIn, Extends};
ghost use Rattle.nts_terms.specs.Handles.{HoldsTy, HoldsConst, HoldsRegion};
ghost use Rattle.nts_unify.specs.Reading.{content_of};
ghost use Rattle.nts_table.specs.Tables.{IsTable};
ghost use Rattle.nts_table.specs.Classes.{shallow_variable, shallowly_resolved};
ghost use Rattle.nts_terms.specs.Rest.{Grows};

use crate::infer_ctxt::InferCtxt;
use nts_model::{Label, Leaf, VariableKind};
use nts_store::{Fault, NodeId, Nodes};
use nts_terms::{Const, Cx, Region, Ty};
use nts_unify::named_variable;
use std::alloc::AllocError;

impl InferCtxt {
    /// The value of a type variable, or else its root.
    pub fn opportunistic_resolve_ty_var(&self, cx: &mut Cx, vid: usize) -> Result<Ty, Fault>
        requires table { IsTable cx.old.nodes self.now }
        requires has { kind_at (content_of cx.old.nodes self.now.entries) vid ≡ Some kinds.Ty }
        ensures tree { IfOk result (λ t. tree_at cx.new.nodes t.node ≡ shallow_variable
            (content_of cx.old.nodes self.now.entries) kinds.Ty vid) }
        ensures holds { IfOk result (λ t. HoldsTy cx.new.nodes t) }
        ensures grows { Grows cx.old cx.new }
        ensures err { OnErr result (cx.new.nodes ≡ cx.old.nodes) }
        ensures memory { IsOkUnless result Fault.Memory }
    {
        let node = self.value_or_root(&mut cx.nodes, VariableKind::Ty, vid)?;
        Ok(Ty { node })
    }

    /// The value of a variable of integer types, or else its root.
    pub fn opportunistic_resolve_int_var(&self, cx: &mut Cx, vid: usize) -> Result<Ty, Fault>
        requires table { IsTable cx.old.nodes self.now }
        requires has { kind_at (content_of cx.old.nodes self.now.entries) vid ≡ Some kinds.Int }
        ensures tree { IfOk result (λ t. tree_at cx.new.nodes t.node ≡ shallow_variable
            (content_of cx.old.nodes self.now.entries) kinds.Int vid) }
        ensures holds { IfOk result (λ t. HoldsTy cx.new.nodes t) }
        ensures grows { Grows cx.old cx.new }
        ensures err { OnErr result (cx.new.nodes ≡ cx.old.nodes) }
        ensures memory { IsOkUnless result Fault.Memory }
    {
        let node = self.value_or_root(&mut cx.nodes, VariableKind::Int, vid)?;
        Ok(Ty { node })
    }

    /// The value of a variable of float types, or else its root.
    pub fn opportunistic_resolve_float_var(&self, cx: &mut Cx, vid: usize) -> Result<Ty, Fault>
        requires table { IsTable cx.old.nodes self.now }
        requires has { kind_at (content_of cx.old.nodes self.now.entries) vid ≡ Some kinds.Float }
        ensures tree { IfOk result (λ t. tree_at cx.new.nodes t.node ≡ shallow_variable
            (content_of cx.old.nodes self.now.entries) kinds.Float vid) }
        ensures holds { IfOk result (λ t. HoldsTy cx.new.nodes t) }
        ensures grows { Grows cx.old cx.new }
        ensures err { OnErr result (cx.new.nodes ≡ cx.old.nodes) }
        ensures memory { IsOkUnless result Fault.Memory }
    {
        let node = self.value_or_root(&mut cx.nodes, VariableKind::Float, vid)?;
        Ok(Ty { node })
    }

    /// The value of a const variable, or else its root.
    pub fn opportunistic_resolve_ct_var(&self, cx: &mut Cx, vid: usize) -> Result<Const, Fault>
        requires table { IsTable cx.old.nodes self.now }
        requires has { kind_at (content_of cx.old.nodes self.now.entries) vid ≡ Some kinds.Const }
        ensures tree { IfOk result (λ t. tree_at cx.new.nodes t.node ≡ shallow_variable
            (content_of cx.old.nodes self.now.entries) kinds.Const vid) }
        ensures holds { IfOk result (λ t. HoldsConst cx.new.nodes t) }
        ensures grows { Grows cx.old cx.new }
        ensures err { OnErr result (cx.new.nodes ≡ cx.old.nodes) }
        ensures memory { IsOkUnless result Fault.Memory }
    {
        let node = self.value_or_root(&mut cx.nodes, VariableKind::Const, vid)?;
        Ok(Const { node })
    }

    /// The root of a region variable.
    pub fn opportunistic_resolve_lt_var(&self, cx: &mut Cx, vid: usize) -> Result<Region, Fault>
        requires table { IsTable cx.old.nodes self.now }
        requires has { kind_at (content_of cx.old.nodes self.now.entries) vid ≡ Some kinds.Region }
        ensures tree { IfOk result (λ r. tree_at cx.new.nodes r.node ≡ shallow_variable
            (content_of cx.old.nodes self.now.entries) kinds.Region vid) }
        ensures holds { IfOk result (λ r. HoldsRegion cx.new.nodes r) }
        ensures grows { Grows cx.old cx.new }
        ensures err { OnErr result (cx.new.nodes ≡ cx.old.nodes) }
        ensures memory { IsOkUnless result Fault.Memory }
    {
        let node = self.value_or_root(&mut cx.nodes, VariableKind::Region, vid)?;
        Ok(Region { node })
    }

    /// The type, or its value or root where it is a variable. What is inside of the value stays.
    pub fn shallow_resolve(&self, cx: &mut Cx, ty: Ty) -> Result<Ty, Fault>
        requires table { IsTable cx.old.nodes self.now }
        requires holds { HoldsTy cx.old.nodes ty }
        requires knows { Knows (content_of cx.old.nodes self.now.entries)
            (tree_at cx.old.nodes ty.node) }
        ensures tree { IfOk result (λ t. tree_at cx.new.nodes t.node ≡ shallowly_resolved
            (content_of cx.old.nodes self.now.entries) (tree_at cx.old.nodes ty.node)) }
        ensures holds { IfOk result (λ t. HoldsTy cx.new.nodes t) }
        ensures grows { Grows cx.old cx.new }
        ensures err { OnErr result (cx.new.nodes ≡ cx.old.nodes) }
        ensures memory { IsOkUnless result Fault.Memory }
    {
        let node = self.look_up(&mut cx.nodes, ty.node)?;
        Ok(Ty { node })
    }

    /// The const, or its value or root where it is a variable. What is inside of the value stays.
    pub fn shallow_resolve_const(&self, cx: &mut Cx, ct: Const) -> Result<Const, Fault>
        requires table { IsTable cx.old.nodes self.now }
        requires holds { HoldsConst cx.old.nodes ct }
        requires knows { Knows (content_of cx.old.nodes self.now.entries)
            (tree_at cx.old.nodes ct.node) }
        ensures tree { IfOk result (λ t. tree_at cx.new.nodes t.node ≡ shallowly_resolved
            (content_of cx.old.nodes self.now.entries) (tree_at cx.old.nodes ct.node)) }
        ensures holds { IfOk result (λ t. HoldsConst cx.new.nodes t) }
        ensures grows { Grows cx.old cx.new }
        ensures err { OnErr result (cx.new.nodes ≡ cx.old.nodes) }
        ensures memory { IsOkUnless result Fault.Memory }
    {
        let node = self.look_up(&mut cx.nodes, ct.node)?;
        Ok(Const { node })
    }

    /// The term, or its value or root where it is a variable. The value of a type variable may be a
    /// variable of integers or floats, which is looked up too.
    fn look_up(&self, nodes: &mut Nodes, t: NodeId) -> Result<NodeId, AllocError>
        requires table { IsTable nodes.old self.now }
        requires within { IsIn nodes.old t }
        requires knows { Knows (content_of nodes.old self.now.entries) (tree_at nodes.old t) }
        ensures within { IfOk result (λ r. IsIn nodes.new r) }
        ensures tree { IfOk result (λ r. tree_at nodes.new r ≡ shallowly_resolved
            (content_of nodes.old self.now.entries) (tree_at nodes.old t)) }
        ensures sort { IfOk result (λ r. kind_of (tree_at nodes.new r) ≡ kind_of
            (tree_at nodes.old t)) }
        ensures extends { Extends nodes.old nodes.new }
        ensures err { OnErr result (nodes.new ≡ nodes.old) }
    {
        let Some((kind, n)) = named_variable(nodes.label(t)) else {
            return Ok(t);
        };
        match self.probe_variable(n) {
            Ok(value) => self.look_up(nodes, value),
            Err(root) => nodes.make(Label::Leaf(Leaf::Variable(kind, root)), &[]),
        }
    }

    fn value_or_root(
        &self,
        nodes: &mut Nodes,
        kind: VariableKind,
        n: usize,
    ) -> Result<NodeId, AllocError>
        requires table { IsTable nodes.old self.now }
        requires has { kind_at (content_of nodes.old self.now.entries) n ≡ Some kind }
        ensures within { IfOk result (λ r. IsIn nodes.new r) }
        ensures tree { IfOk result (λ r. tree_at nodes.new r ≡ shallow_variable
            (content_of nodes.old self.now.entries) kind n) }
        ensures sort { IfOk result (λ r. kind_of (tree_at nodes.new r) ≡ Some
            (of_sort (sort_of_variable kind))) }
        ensures extends { Extends nodes.old nodes.new }
        ensures err { OnErr result (nodes.new ≡ nodes.old) }
    {
        match self.probe_variable(n) {
            Ok(value) => Ok(value),
            Err(root) => nodes.make(Label::Leaf(Leaf::Variable(kind, root)), &[]),
        }
    }
}
