//! Whether an alias may hide behind the variables of a term.
ghost use Rattle.std.specs.Prelude.{◌≡◌, ◌↔◌, IsTrue, true, false, IfOk};
ghost use Rattle.nts_model.specs.Tables.Passing.{AllLabels};
ghost use Rattle.nts_model.specs.Tables.Resolving.{resolved};
ghost use Rattle.nts_model.specs.Terms.Trees.{any_label, is_alias, infer_of};
ghost use Rattle.nts_store.specs.Growth.{tree_at, IsIn};
ghost use Rattle.nts_unify.specs.Reading.{content_of, IsLawful};
ghost use Rattle.nts_variance.specs.Bare.{is_bare};

use nts_model::Label;
use nts_store::{LabelTest, NodeId, Nodes, all_labels};
use nts_unify::{InferCtxtInner, State, infer_number};
use std::alloc::{AllocError, Global};

/// A label is no inference variable that has a value, or that is one with another.
#[derive(Drop)]
struct Bare<'a> {
    table: &'a InferCtxtInner,
}

impl LabelTest for Bare<'_> {
    ghost passes = { λ s l. is_bare s.table.now.entries (infer_of l) ≡ true };

    fn test(&self, label: Label) -> bool {
        match infer_number(label) {
            None => true,
            Some(n) => {
                n < self.table.variable_count()
                    && matches!(self.table.variable(n).state, State::Unset)
            }
        }
    }
}

/// Whether no variable of a term has a value, or is one with another: where no alias stands in the term, none hides in it then. Each
/// node is looked at once, however often the term has it.
pub fn hides_nothing(
    alloc: Global,
    nodes: &Nodes,
    table: &InferCtxtInner,
    t: NodeId,
) -> Result<bool, AllocError>
    requires lawful { IsLawful nodes.now table.now.entries }
    requires within { IsIn nodes.now t }
    requires plain { any_label is_alias (tree_at nodes.now t) ≡ false }
    ensures exact { IfOk result (λ b. IsTrue b ↔ AllLabels (λ l. is_bare table.now.entries
        (infer_of l) ≡ true) (tree_at nodes.now t)) }
    ensures plain { IfOk result (λ b. b ≡ true →
        any_label is_alias (resolved (content_of nodes.now table.now.entries)
        (tree_at nodes.now t)) ≡ false) }
{
    all_labels(alloc, nodes, t, &Bare { table })
}
