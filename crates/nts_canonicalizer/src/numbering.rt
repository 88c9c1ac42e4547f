//! Positions in place of leaves.
ghost use Rattle.std.specs.Prelude.{◌≡◌, List, IfOk, refl};
ghost use Rattle.nts_model.specs.declared.labels.Leaf.{Leaf};
ghost use Rattle.nts_model.specs.Terms.Trees.{sort_of_leaf};
ghost use Rattle.nts_model.specs.Terms.Substitutions.{replace};
ghost use Rattle.nts_model.specs.Canonical.Numbered.{number, numbered_leaf};
ghost use Rattle.nts_store.specs.Growth.{tree_at, Extends};
ghost use Rattle.nts_terms.specs.Handles.{Holds};
ghost use Rattle.nts_canonicalizer.specs.declared.collecting.Staying.{Staying};
ghost use Rattle.nts_canonicalizer.specs.Collecting.{stays_where};
ghost use Rattle.nts_canonicalizer.specs.Positions.{kind_of-numbered};

use crate::collecting::{Staying, stays};
use crate::leaves::Leaves;
use nts_canonical::nts_replacing::{Replacer, Step, replace};
use nts_model::{BoundVarIndexKind, Label, Leaf, Sort, VariableKind};
use nts_store::{NodeId, Nodes};
use nts_terms::Stored;
use std::alloc::{AllocError, Global};

/// Puts a position in place of each leaf: its number among the leaves.
#[derive(Drop)]
struct Numberer<'a> {
    leaves: &'a Leaves,
    staying: Staying,
}

impl Replacer for Numberer<'_> {
    ghost Meaning = { Staying × List Leaf };

    ghost meaning = { λ ts s. (s.staying, s.leaves.now) };

    ghost ready = { λ ts s. Unit {0} };

    ghost covers = { λ m t. Unit {0} };

    ghost image = { λ m t. replace (numbered_leaf (stays_where m.0) m.1) t };

    ghost ready_kept = { λ a b s h e. tt };

    ghost meaning_kept = { λ a b s h e. refl };

    ghost image_empty = { λ m. refl };

    ghost image_more = { λ m a b. refl };

    ghost covers_more = { λ m a b h. (tt, tt) };

    ghost kind_kept = { λ m t h. kind_of-numbered (stays_where m.0) m.1 t };

    fn step(&self, nodes: &mut Nodes, t: NodeId) -> Result<Step, AllocError> {
        if !nodes.flags(t).has_leaf {
            return Ok(Step::Done(t));
        }
        let Label::Leaf(leaf) = nodes.label(t) else {
            return Ok(Step::Down(t));
        };
        if stays(self.staying, leaf) {
            return Ok(Step::Done(t));
        }
        let position = self.leaves.number(leaf);
        let label = Label::Bound(sort_of_leaf(leaf), BoundVarIndexKind::Canonical, position);
        Ok(Step::Done(nodes.make(label, &[])?))
    }
}

fn sort_of_leaf(leaf: Leaf) -> Sort
    ensures { result ≡ sort_of_leaf leaf }
{
    match leaf {
        Leaf::Variable(VariableKind::Const, _) => Sort::Const,
        Leaf::Variable(VariableKind::Region, _) => Sort::Region,
        Leaf::Variable(_, _) => Sort::Ty,
        Leaf::Region(_) => Sort::Region,
        Leaf::TyConstant(_) => Sort::Ty,
        Leaf::ConstConstant(_) => Sort::Const,
    }
}

/// The term with a position in place of each leaf but those that stay.
pub fn numbered<T: Stored>(
    alloc: Global,
    nodes: &mut Nodes,
    staying: Staying,
    leaves: &Leaves,
    x: T,
) -> Result<T, AllocError>
    requires { Holds T.place nodes.old (T.id x) }
    ensures extends { Extends nodes.old nodes.new }
    ensures holds { IfOk result (λ r. Holds T.place nodes.new (T.id r)) }
    ensures tree { IfOk result (λ r. tree_at nodes.new (T.id r) ≡ replace (numbered_leaf
        (stays_where staying) leaves.now) (tree_at nodes.old (T.id x))) }
{
    let node = x.node();
    // Many terms have no leaf, and then nothing is allocated for a walk.
    if !nodes.flags(node).has_leaf {
        return Ok(x);
    }
    let numberer = Numberer { leaves, staying };
    let node = replace(alloc, nodes, &numberer, node)?;
    Ok(T::from_node(node))
}
