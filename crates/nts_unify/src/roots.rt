//! Where the links of variables lead.
ghost use Rattle.std.specs.Prelude.{◌≡◌, ◌<◌, ℕ, length, Some, OnOk, OnErr, IfOk};
ghost use Rattle.std.specs.Result.{IfErr};
ghost use Rattle.nts_unify.specs.Entries.{Entries};
ghost use Rattle.nts_unify.specs.Reading.{LinksDescend};
ghost use Rattle.nts_unify.specs.Roots.{IsRoot, HasClass, IsSubRoot, SubRootsJoin};
ghost use Rattle.nts_unify.specs.Entries.{KeepsHidden};

use crate::contents::{State, Variable};
use crate::inner::InferCtxtInner;
use nts_terms::nts_store::NodeId;
use std::alloc::AllocError;

impl InferCtxtInner {
    /// The root of a variable's class, which has the class's value or none.
    pub fn root(&self, n: usize) -> usize
        requires within { n < length self.now.entries.variables }
        requires descends { LinksDescend self.now.entries }
        ensures { IsRoot self.now.entries n result }
    {
        let mut root = n;
        while let State::Link(next) = self.variable(root).state {
            root = next;
        }
        root
    }

    /// The value of a variable's class, or else the root.
    pub fn probe_variable(&self, n: usize) -> Result<NodeId, usize>
        requires within { n < length self.now.entries.variables }
        requires descends { LinksDescend self.now.entries }
        ensures value { IfOk result (λ t. (r : ℕ) × HasClass self.now.entries n r (State.Known t)) }
        ensures root { IfErr result (λ r. HasClass self.now.entries n r State.Unset) }
    {
        let root = self.root(n);
        match self.variable(root).state {
            State::Known(value) => Ok(value),
            _ => Err(root),
        }
    }

    /// The root of a variable's sub-unification class.
    pub fn sub_root(&self, n: usize) -> usize
        requires within { n < length self.now.entries.variables }
        requires descends { LinksDescend self.now.entries }
        ensures { IsSubRoot self.now.entries n result }
    {
        let mut root = n;
        while let Some(next) = self.variable(root).sub_link {
            root = next;
        }
        root
    }

    /// Makes one sub-unification class of two. Its root is the lower number.
    pub fn join_sub_roots(&mut self, x: usize, y: usize) -> Result<(), AllocError>
        requires within_x { x < length self.old.entries.variables }
        requires within_y { y < length self.old.entries.variables }
        requires descends { LinksDescend self.old.entries }
        ensures joined { OnOk result (SubRootsJoin self.old.entries self.new.entries x y) }
        ensures changes { KeepsHidden self.old self.new }
        ensures err { OnErr result (self.new ≡ self.old) }
    {
        let x_root = self.sub_root(x);
        let y_root = self.sub_root(y);
        if x_root == y_root {
            return Ok(());
        }
        let high = x_root.max(y_root);
        let variable = self.variable(high);
        self.set(
            high,
            Variable {
                sub_link: Some(x_root.min(y_root)),
                ..variable
            },
        )
    }
}
