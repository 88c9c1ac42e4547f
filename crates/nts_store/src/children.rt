//! The children of a node.
ghost use Rattle.std.specs.Prelude.{◌≡◌, IfOk};
ghost use Rattle.std.specs.Cmp.{nat_eq_equiv, partial_equiv_from_equiv, on_equiv, on_per};
ghost use Rattle.std.specs.Cmp.Lexicographic.{pointwise, lists_per, lists_equiv};
ghost use Rattle.nts_store.specs.Children.{listed};
ghost use Rattle.nts_store.specs.contracts.nodes.NodeIdPartialEq.TheImpl as id_eq;

use crate::nodes::NodeId;
use std::alloc::{AllocError, Global};

/// A list of terms. Most nodes have at most two children, and these take no memory of their own.
#[derive(Drop)]
pub(crate) enum Children {
    None([NodeId; 0]),
    One([NodeId; 1]),
    Two([NodeId; 2]),
    More(Vec<NodeId>),
}

impl Children {
    /// These terms, in their order.
    pub fn of(alloc: Global, terms: &[NodeId]) -> Result<Self, AllocError>
        ensures { IfOk result (λ c. listed c ≡ terms.now) }
    {
        match terms.len() {
            0 => Ok(Children::None([])),
            1 => Ok(Children::One([terms[0]])),
            2 => Ok(Children::Two([terms[0], terms[1]])),
            count => {
                let mut list = Vec::with_capacity(alloc, count)?;
                list.extend_from_slice(terms)?;
                Ok(Children::More(list))
            }
        }
    }

    /// The terms, in their order.
    pub fn as_slice(&self) -> &[NodeId]
        ensures { result.now ≡ listed self.now }
    {
        match self {
            Children::None(terms) => terms,
            Children::One(terms) => terms,
            Children::Two(terms) => terms,
            Children::More(terms) => terms.as_slice(),
        }
    }
}

impl PartialEq for Children {
    ghost eq = { λ v w. pointwise id_eq.ghosts.eq (listed v) (listed w) };

    ghost laws = { on_per listed (lists_per (on_per (λ t. t.number)
        (partial_equiv_from_equiv nat_eq_equiv))) };

    fn eq(&self, other: &Self) -> bool {
        self.as_slice() == other.as_slice()
    }
}

impl Eq for Children {
    ghost laws = { on_equiv listed (lists_equiv (on_equiv (λ t. t.number) nat_eq_equiv)) };
}
