//! Originals made equal to the values of a response.
ghost use Rattle.std.specs.Prelude.{◌≡◌, ◌≢◌, ◌++◌, Err, map, All, length, OnOk};
ghost use Rattle.nts_model.specs.Terms.Substitutions.{filled};
ghost use Rattle.nts_model.specs.Tables.Equations.{AreRelated, AreUnrelated};
ghost use Rattle.nts_model.specs.Answers.Applying.{MakesEqual};
ghost use Rattle.nts_model.specs.Tables.Passing.{BringsLabelsOf, BringsOnly};
ghost use Rattle.nts_theory.proofs.Responses.Applied.{FailsToEqual};
ghost use Rattle.nts_store.specs.Growth.{tree_at, AllIn};
ghost use Rattle.nts_store.specs.declared.fault.EvalError.TheVariants.{NoSolution};
ghost use Rattle.nts_unify.specs.Reading.{content_of};
ghost use Rattle.nts_unify.specs.Changing.{IsLater};
ghost use Rattle.nts_table.specs.Tables.{IsTable, IsTermIn};
ghost use Rattle.nts_canonical.specs.Forms.{trees_of};
ghost use Rattle.nts_canonical.specs.Building.{IsArgOf};
ghost use Rattle.nts_response.specs.Applied.{StepKeeps, IsFillable};

use nts_equating::relate_nodes;
use nts_replacing::instantiate_canonical;
use nts_store::{EvalError, NodeId};
use nts_table::InferCtxt;
use nts_terms::{Cx, GenericArg};

/// Makes each original equal to its value, with what was chosen in place of the positions, in order. Where one cannot
/// be, no solution of the table makes them all equal.
pub(crate) fn equate_values(
    table: &mut InferCtxt,
    cx: &mut Cx,
    chosen: &[NodeId],
    values: &[GenericArg],
    originals: &[GenericArg],
) -> Result<(), EvalError>
    requires table { IsTable cx.old.nodes table.old }
    requires chosen { AllIn cx.old.nodes chosen.now }
    requires values { All (λ v. IsFillable cx.old.nodes (content_of cx.old.nodes table.old.entries)
        (map (tree_at cx.old.nodes) chosen.now) v.node) values.now }
    requires originals { All (IsArgOf cx.old.nodes table.old.entries) originals.now }
    requires long { length originals.now ≡ length values.now }
    ensures equal { OnOk result (MakesEqual (map (tree_at cx.old.nodes) chosen.now)
        (trees_of cx.old.nodes values.now) (trees_of cx.old.nodes originals.now)
        (content_of cx.old.nodes table.old.entries) (content_of cx.new.nodes table.new.entries)) }
    ensures labels { OnOk result (BringsOnly (map (filled (map (tree_at cx.old.nodes) chosen.now))
        (trees_of cx.old.nodes values.now) ++ trees_of cx.old.nodes originals.now)
        (content_of cx.old.nodes table.old.entries) (content_of cx.new.nodes table.new.entries)) }
    ensures no { result ≡ Err NoSolution → FailsToEqual (map (tree_at cx.old.nodes) chosen.now)
        (trees_of cx.old.nodes values.now) (trees_of cx.old.nodes originals.now)
        (content_of cx.old.nodes table.old.entries) }
    ensures later { IsLater (content_of cx.old.nodes table.old.entries)
        (content_of cx.new.nodes table.new.entries) }
    ensures keeps { StepKeeps cx.old cx.new table.old table.new }
    ensures full { result ≢ Err EvalError.Full }
{
    for i in 0..values.len() {
        equate_one(table, cx, chosen, values[i].node, originals[i].node)?;
    }
    Ok(())
}

/// Makes an original equal to its value, with what was chosen in place of the positions.
fn equate_one(
    table: &mut InferCtxt,
    cx: &mut Cx,
    chosen: &[NodeId],
    value: NodeId,
    original: NodeId,
) -> Result<(), EvalError>
    requires table { IsTable cx.old.nodes table.old }
    requires chosen { AllIn cx.old.nodes chosen.now }
    requires value { IsFillable cx.old.nodes (content_of cx.old.nodes table.old.entries)
        (map (tree_at cx.old.nodes) chosen.now) value }
    requires original { IsTermIn cx.old.nodes table.old original }
    ensures related { OnOk result (AreRelated (content_of cx.old.nodes table.old.entries)
        (content_of cx.new.nodes table.new.entries) (filled (map (tree_at cx.old.nodes) chosen.now)
        (tree_at cx.old.nodes value)) (tree_at cx.old.nodes original)) }
    ensures labels { OnOk result (BringsLabelsOf (content_of cx.old.nodes table.old.entries)
        (content_of cx.new.nodes table.new.entries) (filled (map (tree_at cx.old.nodes) chosen.now)
        (tree_at cx.old.nodes value)) (tree_at cx.old.nodes original)) }
    ensures no { result ≡ Err NoSolution → AreUnrelated (content_of cx.old.nodes table.old.entries)
        (filled (map (tree_at cx.old.nodes) chosen.now) (tree_at cx.old.nodes value))
        (tree_at cx.old.nodes original) }
    ensures later { IsLater (content_of cx.old.nodes table.old.entries)
        (content_of cx.new.nodes table.new.entries) }
    ensures keeps { StepKeeps cx.old cx.new table.old table.new }
    ensures full { result ≢ Err EvalError.Full }
{
    let alloc = cx.alloc;
    let value = instantiate_canonical(alloc, &mut cx.nodes, chosen, value)?;
    relate_nodes(alloc, &mut cx.nodes, table, value, original)
}
