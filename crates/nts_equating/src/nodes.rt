//! Nodes of a store made equal under a table.
ghost use Rattle.std.specs.Prelude.{◌≡◌, ◌≢◌, OnOk, OnErr, Err};
ghost use Rattle.nts_model.specs.Tables.Equations.{AreRelated, AreUnrelated};
ghost use Rattle.nts_model.specs.Tables.Passing.{BringsLabelsOf};
ghost use Rattle.nts_store.specs.Growth.{tree_at, Extends};
ghost use Rattle.nts_table.specs.nts_unify.specs.Reading.{content_of};
ghost use Rattle.nts_table.specs.Tables.{IsTable, IsTermIn};
ghost use Rattle.nts_table.specs.nts_unify.specs.Changing.{IsLater};
ghost use Rattle.nts_store.specs.declared.fault.EvalError.TheVariants.{NoSolution};
ghost use Rattle.nts_table.specs.Frames.{ChangesVariables};

use nts_store::{EvalError, NodeId, Nodes};
use nts_table::InferCtxt;
use std::alloc::Global;

/// Makes two terms equal: afterwards the table has the solutions that it had before and that make
/// them equal, and no labels but its own, those of the terms and variables; after an error it is as
/// before.
pub fn relate_nodes(
    alloc: Global,
    nodes: &mut Nodes,
    table: &mut InferCtxt,
    a: NodeId,
    b: NodeId,
) -> Result<(), EvalError>
    requires table { IsTable nodes.old table.old }
    requires left { IsTermIn nodes.old table.old a }
    requires right { IsTermIn nodes.old table.old b }
    ensures extends { Extends nodes.old nodes.new }
    ensures table { IsTable nodes.new table.new }
    ensures changes { ChangesVariables table.old table.new }
    ensures later { IsLater (content_of nodes.old table.old.entries)
        (content_of nodes.new table.new.entries) }
    ensures related { OnOk result (AreRelated (content_of nodes.old table.old.entries)
        (content_of nodes.new table.new.entries) (tree_at nodes.old a) (tree_at nodes.old b)) }
    ensures labels { OnOk result (BringsLabelsOf (content_of nodes.old table.old.entries)
        (content_of nodes.new table.new.entries) (tree_at nodes.old a) (tree_at nodes.old b)) }
    ensures err { OnErr result (table.new ≡ table.old) }
    ensures no { result ≡ Err NoSolution → AreUnrelated (content_of nodes.old table.old.entries)
        (tree_at nodes.old a) (tree_at nodes.old b) }
    ensures full { result ≢ Err EvalError.Full }
{
    nts_relating::relate_nodes(alloc, nodes, &mut table.inner, a, b)
}
