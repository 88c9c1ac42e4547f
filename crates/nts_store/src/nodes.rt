//! The store of nodes.
ghost use Rattle.std.specs.Prelude.{◌≡◌, ◌↔◌, ◌<◌, ◌+◌, ◌++◌, ◌∷◌, [], length, drop, IsTrue, OnOk, OnErr, IfOk, Some, Option};
ghost use Rattle.nts_model.specs.Terms.Trees.{Tree, node, empty, more, label_of, children, row_length, row_at, IsRow, shape, Meets};
ghost use Rattle.nts_model.specs.Terms.Scoping.{IsWellBound};
ghost use Rattle.nts_store.specs.Growth.{tree_at, trees_at, IsIn, AllIn, AllBelow, Extends, AreApart, IsTheOne};
ghost use Rattle.nts_store.specs.Children.{listed};
ghost use Rattle.nts_store.specs.Formed.{AreFormed};
ghost use Rattle.nts_store.specs.TypeFlags.{flags_of};
ghost use Rattle.nts_store.specs.Sorts.{ChildrenFit};

use crate::children::Children;
use crate::index::{Index, Shape};
use crate::levels_walk::all_listed;
use crate::type_flags::{TypeFlags, binders_of};
use nts_model::Label;
use std::alloc::{AllocError, Global};
use std::marker::Model;

/// A place in a store.
#[derive(Clone, Copy, PartialEq, Eq, Hash, Debug)]
pub struct NodeId {
    pub number: usize,
}

#[derive(Drop)]
pub(crate) struct Node {
    pub label: Label,
    pub children: Children,
    pub flags: TypeFlags,
    /// Whether each bound variable of a binder in the tree is of that binder's list.
    pub is_well_bound: bool,
}

/// The nodes of all terms, each once. A caller sees the list of their trees.
#[derive(Drop)]
pub struct Nodes {
    alloc: Global,
    index: Index,
}

impl Model for Nodes {
    ghost use Rattle.std.specs.Prelude.{List};
    ghost use Rattle.nts_model.specs.Terms.Trees.{Tree};

    ghost Value = { List Tree };

    ghost use Rattle.std.specs.Coded.{coded_list};
    ghost use Rattle.nts_model.specs.Terms.Coding.{coded_tree};

    ghost coded = { coded_list coded_tree };

    ghost use Rattle.nts_store.specs.Store.{trees, IsShared};

    ghost view = { λ c. trees c.index.nodes.items };

    ghost use Rattle.nts_store.specs.Index.{IsIndex};

    ghost invariant = { λ c. IsShared c.index.nodes.items × IsIndex c.index };
}

impl Nodes {
    /// An empty store. It takes no memory.
    pub fn new(alloc: Global) -> Self
        ensures { result ≡ [] }
    {
        Nodes {
            alloc,
            index: Index::new(alloc),
        }
    }

    /// How many terms the store has.
    pub fn len(&self) -> usize
        ensures count { result ≡ length self.now }
    {
        self.index.nodes.len()
    }

    /// What the store keeps of its terms, for a proof that rests on it: no two of them have equal trees, and in each tree the nodes
    /// have the children of their labels. It does nothing.
    pub fn terms_are_formed(&self)
        ensures apart { AreApart self.now }
        ensures formed { AreFormed self.now }
    {
        let _ = self.index.nodes.len();
    }

    /// The term with that label and these children: the only one of the store with this tree. Every older term keeps its tree.
    pub fn make(&mut self, label: Label, children: &[NodeId]) -> Result<NodeId, AllocError>
        requires within { AllIn self.old children.now }
        requires formed { Meets (shape label) (trees_at self.old children.now) }
        ensures within { IfOk result (λ t. IsIn self.new t) }
        ensures tree { IfOk result (λ t. tree_at self.new t ≡ node label
            (trees_at self.old children.now)) }
        ensures one { IfOk result (λ t. IsTheOne self.new t) }
        ensures extends { Extends self.old self.new }
        ensures err { OnErr result (self.new ≡ self.old) }
    {
        let shape = Shape {
            label,
            children: Children::of(self.alloc, children)?,
        };
        if let Some(number) = self.index.find(&shape) {
            return Ok(NodeId { number });
        }
        let node = Node {
            label,
            children: Children::of(self.alloc, children)?,
            flags: self.flags_under(label, children),
            is_well_bound: self.is_well_bound_under(label, children)?,
        };
        let number = self.index.add(shape, node)?;
        Ok(NodeId { number })
    }

    fn flags_under(&self, label: Label, children: &[NodeId]) -> TypeFlags
        requires { AllIn self.now children.now }
        ensures { result ≡ flags_of (node label (trees_at self.now children.now)) }
    {
        let mut flags = TypeFlags::new();
        let mut i = children.len();
        while i > 0 {
            i -= 1;
            flags = self.flags(children[i]).join(flags);
        }
        flags.under(label)
    }

    /// Whether a node with this label, and each node below it, lists what it binds.
    fn is_well_bound_under(&self, label: Label, children: &[NodeId]) -> Result<bool, AllocError>
        requires within { AllIn self.now children.now }
        requires formed { Meets (shape label) (trees_at self.now children.now) }
        ensures { IfOk result (λ b. IsTrue b ↔ IsWellBound
            (node label (trees_at self.now children.now))) }
    {
        let binds = binders_of(label) > 0;
        let mut i = children.len();
        while i > 0 {
            i -= 1;
            if !self.node(children[i]).is_well_bound {
                return Ok(false);
            }
            if binds && !all_listed(self.alloc, self, children[0], children[i])? {
                return Ok(false);
            }
        }
        Ok(true)
    }

    fn node(&self, t: NodeId) -> &Node
        requires { IsIn self.now t }
        ensures is { tree_at self.now t ≡ node result.now.label
            (trees_at self.now (listed result.now.children)) }
        ensures all { AllIn self.now (listed result.now.children) }
        ensures before { AllBelow t.number (listed result.now.children) }
        ensures formed { Meets (shape result.now.label)
            (trees_at self.now (listed result.now.children)) }
        ensures flags { result.now.flags ≡ flags_of (tree_at self.now t) }
        ensures well_bound { IsTrue result.now.is_well_bound ↔ IsWellBound (tree_at self.now t) }
    {
        &self.index.nodes[t.number]
    }

    /// The label of a term's node. Its children fit the label.
    pub fn label(&self, t: NodeId) -> Label
        requires { IsIn self.now t }
        ensures is { tree_at self.now t ≡ node result (children (tree_at self.now t)) }
        ensures formed { Meets (shape result) (children (tree_at self.now t)) }
    {
        self.node(t).label
    }

    /// What is known of the whole tree of a term.
    pub fn flags(&self, t: NodeId) -> TypeFlags
        requires { IsIn self.now t }
        ensures { result ≡ flags_of (tree_at self.now t) }
    {
        self.node(t).flags
    }

    /// Whether each bound variable of a binder in a term is of that binder's list: it has the sort that
    /// stands at its index.
    pub fn is_well_bound(&self, t: NodeId) -> bool
        requires { IsIn self.now t }
        ensures { IsTrue result ↔ IsWellBound (tree_at self.now t) }
    {
        self.node(t).is_well_bound
    }

    /// How many children a term's node has.
    #[tactic(auto, using(crate::proofs::Reading::rows))]
    pub fn child_count(&self, t: NodeId) -> usize
        requires { IsIn self.now t }
        ensures count { result ≡ row_length (children (tree_at self.now t)) }
        ensures row { IsRow (children (tree_at self.now t)) }
    {
        self.node(t).children.as_slice().len()
    }

    /// One of the children, which always stands before its parent.
    #[tactic(auto, using(crate::proofs::Reading::rows))]
    pub fn child(&self, t: NodeId, i: usize) -> NodeId
        requires within { IsIn self.now t }
        requires index { i < row_length (children (tree_at self.now t)) }
        ensures within { IsIn self.now result }
        ensures before { result.number < t.number }
        ensures tree { tree_at self.now result ≡ row_at (children (tree_at self.now t)) i }
        ensures formed { ChildrenFit (tree_at self.now t) }
    {
        self.node(t).children.as_slice()[i]
    }

    /// Whether two terms have equal trees: exactly if they are one.
    pub fn same(&self, a: NodeId, b: NodeId) -> bool
        requires a_in { IsIn self.now a }
        requires b_in { IsIn self.now b }
        ensures tree { IsTrue result ↔ (tree_at self.now a ≡ tree_at self.now b) }
        ensures one { IsTrue result ↔ (a ≡ b) }
    {
        let _ = &self.index;
        a.number == b.number
    }

    /// Whether a number is a term of this store.
    pub fn contains(&self, t: NodeId) -> bool
        ensures { IsTrue result ↔ IsIn self.now t }
    {
        t.number < self.len()
    }
}
