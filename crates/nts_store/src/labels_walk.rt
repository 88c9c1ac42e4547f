//! One test of all labels of a term.
ghost use Rattle.std.specs.Prelude.{◌≡◌, ◌↔◌, IfOk, IsTrue};
ghost use Rattle.nts_model.specs.declared.labels.Label.{Label};
ghost use Rattle.nts_store.specs.Growth.{tree_at, IsIn};
ghost use Rattle.nts_model.specs.Tables.Passing.{AllLabels};

use crate::nodes::{NodeId, Nodes};
use nts_model::Label;
use std::alloc::{AllocError, Global};
use std::collections::BTreeSet;

/// A test of one label.
pub trait LabelTest {
    ghost passes: { Self → Label → Type 0 };

    fn test(&self, label: Label) -> bool
        ensures { IsTrue result ↔ passes self.now label };
}

/// Whether each label of a term passes the test.
pub fn all_labels<T: LabelTest>(
    alloc: Global,
    nodes: &Nodes,
    t: NodeId,
    test: &T,
) -> Result<bool, AllocError>
    requires { IsIn nodes.now t }
    ensures { IfOk result (λ b. IsTrue b ↔ AllLabels (T.passes test.now) (tree_at nodes.now t)) }
{
    // Equal terms have one number, and children stand before their parents. So where the last number
    // comes first, each node is visited once, however often the tree has it.
    let mut pending = BTreeSet::new(alloc);
    pending.insert(t.number)?;
    while let Some(number) = pending.pop_last() {
        let term = NodeId { number };
        if !test.test(nodes.label(term)) {
            return Ok(false);
        }
        for i in 0..nodes.child_count(term) {
            pending.insert(nodes.child(term, i).number)?;
        }
    }
    Ok(true)
}
