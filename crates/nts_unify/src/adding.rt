//! New variables.
ghost use Rattle.std.specs.Prelude.{◌≡◌, ◌<◌, ◌≤◌, length, OnOk, OnErr, IfOk, IfSome};
ghost use Rattle.nts_model.specs.Terms.Trees.{variable_tree};
ghost use Rattle.nts_terms.specs.nts_store.specs.Growth.{tree_at, IsIn, Extends};
ghost use Rattle.nts_unify.specs.Entries.{added, KeepsHidden};
ghost use Rattle.nts_unify.specs.Reading.{IsLawful};

use crate::contents::{State, Variable};
use crate::inner::InferCtxtInner;
use nts_model::{Label, Leaf, VariableKind};
use nts_terms::UniverseIndex;
use nts_terms::nts_store::{NodeId, Nodes};
use std::alloc::AllocError;

/// Adds a variable of which nothing is known, of a universe of the table, and answers the leaf that names it. The leaf is made
/// first, so that after an error the table is as before.
pub fn add_variable(
    nodes: &mut Nodes,
    table: &mut InferCtxtInner,
    kind: VariableKind,
    universe: UniverseIndex,
    sub_link: Option<usize>,
) -> Result<NodeId, AllocError>
    requires named { universe ≤ table.old.entries.universe }
    requires linked { IfSome sub_link (λ m. m < length table.old.entries.variables) }
    ensures extends { Extends nodes.old nodes.new }
    ensures within { IfOk result (λ r. IsIn nodes.new r) }
    ensures tree { IfOk result (λ r. tree_at nodes.new r ≡ variable_tree kind
        (length table.old.entries.variables)) }
    ensures entries { OnOk result (table.new.entries ≡ added table.old.entries
        (record { kind = kind; universe = universe; state = State.Unset; sub_link = sub_link })) }
    ensures lawful { IsLawful nodes.old table.old.entries → IsLawful nodes.new table.new.entries }
    ensures changes { KeepsHidden table.old table.new }
    ensures err { OnErr result (table.new ≡ table.old) }
{
    let number = table.variable_count();
    let leaf = nodes.make(Label::Leaf(Leaf::Variable(kind, number)), &[])?;
    table.add(Variable {
        kind,
        universe,
        state: State::Unset,
        sub_link,
    })?;
    Ok(leaf)
}
