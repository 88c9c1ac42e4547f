//! Lists of arguments, of predicates and of the sorts of a binder.
ghost use Rattle.std.specs.Prelude.{◌≡◌, ◌<◌, List, All, map, IfOk, OnErr, IsOkUnless};
ghost use Rattle.nts_model.specs.declared.labels.Label.TheVariants as label;
ghost use Rattle.nts_model.specs.declared.labels.ListHead.TheVariants as list_head;
ghost use Rattle.nts_model.specs.Terms.Trees.{Tree, node, empty, children, row_length, row_at, IsRow, Place, is, one_sort};
ghost use Rattle.nts_store.specs.Growth.{tree_at, trees_at, IsIn, Extends, IsTheOne};
ghost use Rattle.nts_terms.specs.Handles.{Holds, HoldsArg, HoldsArgs, HoldsPredicate, HoldsEnv, HoldsVars};
ghost use Rattle.nts_terms.specs.Kinds.{tree_of_args, tree_of_env, tree_of_vars, tree_of_sort};
ghost use Rattle.nts_terms.specs.Rest.{Grows};

use crate::cx::Cx;
use crate::handles::{BoundVars, GenericArg, GenericArgs, ParamEnv, Predicate};
use crate::holding::Stored;
use nts_model::{Label, ListHead, Sort};
use nts_store::{Fault, NodeId};
use std::alloc::{AllocError, Global};

impl Cx {
    /// The list of these arguments.
    #[tactic(auto, using(crate::proofs::Standing::filled))]
    pub fn mk_args(&mut self, args: &[GenericArg]) -> Result<GenericArgs, Fault>
        requires { All (λ a. HoldsArg self.old.nodes a) args.now }
        ensures tree { IfOk result (λ l. tree_at self.new.nodes l.node ≡ tree_of_args self.old.nodes
            args.now) }
        ensures one { IfOk result (λ l. IsTheOne self.new.nodes l.node) }
        ensures holds { IfOk result (λ l. HoldsArgs self.new.nodes l) }
        ensures grows { Grows self.old self.new }
        ensures err { OnErr result (self.new.nodes ≡ self.old.nodes) }
        ensures memory { IsOkUnless result Fault.Memory }
    {
        let children = nodes_of(self.alloc, args)?;
        let node = self.nodes.make(Label::List(ListHead::Args), &children)?;
        Ok(GenericArgs { node })
    }

    /// The environment of these predicates.
    #[tactic(auto, using(crate::proofs::Standing::filled))]
    pub fn mk_env(&mut self, predicates: &[Predicate]) -> Result<ParamEnv, Fault>
        requires { All (λ p. HoldsPredicate self.old.nodes p) predicates.now }
        ensures tree { IfOk result (λ e. tree_at self.new.nodes e.node ≡ tree_of_env self.old.nodes
            predicates.now) }
        ensures one { IfOk result (λ e. IsTheOne self.new.nodes e.node) }
        ensures holds { IfOk result (λ e. HoldsEnv self.new.nodes e) }
        ensures grows { Grows self.old self.new }
        ensures err { OnErr result (self.new.nodes ≡ self.old.nodes) }
        ensures memory { IsOkUnless result Fault.Memory }
    {
        let children = nodes_of(self.alloc, predicates)?;
        let node = self.nodes.make(Label::List(ListHead::Env), &children)?;
        Ok(ParamEnv { node })
    }

    /// The list of these sorts, for a binder.
    pub fn mk_bound_vars(&mut self, sorts: &[Sort]) -> Result<BoundVars, Fault>
        ensures tree { IfOk result (λ v. tree_at self.new.nodes v.node ≡ tree_of_vars sorts.now) }
        ensures one { IfOk result (λ v. IsTheOne self.new.nodes v.node) }
        ensures holds { IfOk result (λ v. HoldsVars self.new.nodes v) }
        ensures grows { Grows self.old self.new }
        ensures memory { IsOkUnless result Fault.Memory }
    {
        let mut children = Vec::with_capacity(self.alloc, sorts.len())?;
        for sort in sorts {
            let node = self.nodes.make(Label::List(ListHead::Sort(*sort)), &[])?;
            children.push(node)?;
        }
        let node = self.nodes.make(Label::List(ListHead::Sorts), &children)?;
        Ok(BoundVars { node })
    }
}

/// The nodes of handles, in order.
fn nodes_of<T: Stored>(alloc: Global, handles: &[T]) -> Result<Vec<NodeId>, AllocError>
    ensures { IfOk result (λ v. v.items ≡ map T.id handles.now) }
{
    handles.iter().map(|handle| handle.node()).collect(alloc)
}

impl GenericArgs {
    /// How many arguments there are.
    pub fn len(self, cx: &Cx) -> usize
        requires { HoldsArgs cx.now.nodes self }
        ensures count { result ≡ row_length (children (tree_at cx.now.nodes self.node)) }
        ensures row { IsRow (children (tree_at cx.now.nodes self.node)) }
    {
        let args = self.node;
        cx.nodes.child_count(args)
    }

    /// The argument at a position.
    #[tactic(auto, using(crate::proofs::Standing::read))]
    pub fn get(self, cx: &Cx, i: usize) -> GenericArg
        requires holds { HoldsArgs cx.now.nodes self }
        requires index { i < row_length (children (tree_at cx.now.nodes self.node)) }
        ensures tree { tree_at cx.now.nodes result.node ≡ row_at
            (children (tree_at cx.now.nodes self.node)) i }
        ensures holds { HoldsArg cx.now.nodes result }
        ensures before { result.node.number < self.node.number }
    {
        let arg = cx.nodes.child(self.node, i);
        GenericArg { node: arg }
    }
}

impl ParamEnv {
    /// How many predicates there are.
    pub fn len(self, cx: &Cx) -> usize
        requires { HoldsEnv cx.now.nodes self }
        ensures count { result ≡ row_length (children (tree_at cx.now.nodes self.node)) }
        ensures row { IsRow (children (tree_at cx.now.nodes self.node)) }
    {
        let env = self.node;
        cx.nodes.child_count(env)
    }

    /// The predicate at a position.
    #[tactic(auto, using(crate::proofs::Standing::read))]
    pub fn get(self, cx: &Cx, i: usize) -> Predicate
        requires holds { HoldsEnv cx.now.nodes self }
        requires index { i < row_length (children (tree_at cx.now.nodes self.node)) }
        ensures tree { tree_at cx.now.nodes result.node ≡ row_at
            (children (tree_at cx.now.nodes self.node)) i }
        ensures holds { HoldsPredicate cx.now.nodes result }
        ensures before { result.node.number < self.node.number }
    {
        let predicate = cx.nodes.child(self.node, i);
        Predicate { node: predicate }
    }
}

impl BoundVars {
    /// How many variables there are.
    pub fn len(self, cx: &Cx) -> usize
        requires { HoldsVars cx.now.nodes self }
        ensures count { result ≡ row_length (children (tree_at cx.now.nodes self.node)) }
        ensures row { IsRow (children (tree_at cx.now.nodes self.node)) }
    {
        let vars = self.node;
        cx.nodes.child_count(vars)
    }

    /// The sort of the variable at a position.
    #[tactic(auto, using(crate::proofs::Standing::read))]
    pub fn get(self, cx: &Cx, i: usize) -> Sort
        requires holds { HoldsVars cx.now.nodes self }
        requires index { i < row_length (children (tree_at cx.now.nodes self.node)) }
        ensures { row_at (children (tree_at cx.now.nodes self.node)) i ≡ tree_of_sort result }
    {
        let sort = cx.nodes.child(self.node, i);
        sort_at(cx, sort)
    }
}

/// The sort that a node lists.
#[tactic(auto, using(crate::proofs::Places::places))]
fn sort_at(cx: &Cx, t: NodeId) -> Sort
    requires { Holds (is one_sort) cx.now.nodes t }
    ensures { tree_at cx.now.nodes t ≡ tree_of_sort result }
{
    match cx.nodes.label(t) {
        Label::List(ListHead::Sort(sort)) => sort,
        Label::List(ListHead::Args) => unreachable!(),
        Label::List(ListHead::Env) => unreachable!(),
        Label::List(ListHead::Sorts) => unreachable!(),
        Label::List(ListHead::Binder) => unreachable!(),
        Label::Leaf(_) => unreachable!(),
        Label::Bound(_, _, _) => unreachable!(),
        Label::Ty(_) => unreachable!(),
        Label::Const(_) => unreachable!(),
        Label::Clause(_) => unreachable!(),
        Label::Predicate(_) => unreachable!(),
    }
}
