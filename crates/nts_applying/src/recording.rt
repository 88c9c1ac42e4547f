//! Region constraints of a response, recorded in a table.
ghost use Rattle.std.specs.Prelude.{◌≡◌, ◌&&◌, map, All, OnOk, OnErr, IsOkUnless};
ghost use Rattle.nts_model.specs.Terms.Trees.{IsClosed};
ghost use Rattle.nts_model.specs.Terms.Regions.{IsRegion};
ghost use Rattle.nts_model.specs.Terms.Substitutions.{filled};
ghost use Rattle.nts_model.specs.Answers.Responses.{recorded_by};
ghost use Rattle.nts_model.specs.Answers.Applying.{IsRecordedIn, Records};
ghost use Rattle.nts_model.specs.Tables.SubUnifying.{JoinsSubRoots};
ghost use Rattle.nts_model.specs.Tables.Passing.{BringsLabelsOf, BringsOnly};
ghost use Rattle.nts_store.specs.Growth.{tree_at, AllIn};
ghost use Rattle.nts_unify.specs.Reading.{content_of};
ghost use Rattle.nts_unify.specs.Recording.{is_visible};
ghost use Rattle.nts_table.specs.Tables.{IsTable, IsTermIn};
ghost use Rattle.nts_table.specs.Frames.{ChangesVariables};
ghost use Rattle.nts_response.specs.Forms.{recorded_at};
ghost use Rattle.nts_response.specs.Applied.{StepKeeps};
ghost use Rattle.nts_response.specs.Recorded.{sides_of, IsLeftSide, IsRecordable, AddsSeen, AddsAllSeen, seen_by_leak_check, seen_if};

use nts_candidates::RegionConstraint;
use nts_model::Relation;
use nts_replacing::instantiate_canonical;
use nts_store::{Fault, NodeId};
use nts_table::InferCtxt;
use nts_terms::{Cx, Region, Span, Ty, VisibleForLeakCheck};

/// Records region constraints, with what was chosen in place of the positions, in order. The leak check sees one between
/// regions if it saw it in the query and `visible` says so, and each one that a type outlives a region.
pub(crate) fn record_constraints(
    table: &mut InferCtxt,
    cx: &mut Cx,
    chosen: &[NodeId],
    constraints: &[(RegionConstraint, VisibleForLeakCheck)],
    visible: VisibleForLeakCheck,
    span: Span,
) -> Result<(), Fault>
    requires table { IsTable cx.old.nodes table.old }
    requires chosen { AllIn cx.old.nodes chosen.now }
    requires constraints { All (IsRecordable cx.old.nodes
        (content_of cx.old.nodes table.old.entries) (map (tree_at cx.old.nodes) chosen.now))
        constraints.now }
    ensures recorded { OnOk result (Records (map (tree_at cx.old.nodes) chosen.now)
        (map (recorded_at cx.old.nodes) constraints.now) (content_of cx.old.nodes table.old.entries)
        (content_of cx.new.nodes table.new.entries)) }
    ensures seen { OnOk result (AddsAllSeen (is_visible visible)
        (map (recorded_at cx.old.nodes) constraints.now)
        (content_of cx.old.nodes table.old.entries).constraints
        (content_of cx.new.nodes table.new.entries).constraints) }
    ensures labels { OnOk result (BringsOnly (map (filled (map (tree_at cx.old.nodes) chosen.now))
        (sides_of (map (recorded_at cx.old.nodes) constraints.now)))
        (content_of cx.old.nodes table.old.entries) (content_of cx.new.nodes table.new.entries)) }
    ensures joins { OnOk result (JoinsSubRoots (content_of cx.old.nodes table.old.entries)
        (content_of cx.new.nodes table.new.entries)) }
    ensures keeps { StepKeeps cx.old cx.new table.old table.new }
    ensures memory { IsOkUnless result Fault.Memory }
{
    for i in 0..constraints.len() {
        record_one(table, cx, chosen, constraints[i], visible, span)?;
    }
    Ok(())
}

/// Records one, likewise.
fn record_one(
    table: &mut InferCtxt,
    cx: &mut Cx,
    chosen: &[NodeId],
    constraint: (RegionConstraint, VisibleForLeakCheck),
    visible: VisibleForLeakCheck,
    span: Span,
) -> Result<(), Fault>
    requires table { IsTable cx.old.nodes table.old }
    requires chosen { AllIn cx.old.nodes chosen.now }
    requires constraint { IsRecordable cx.old.nodes (content_of cx.old.nodes table.old.entries)
        (map (tree_at cx.old.nodes) chosen.now) constraint }
    ensures recorded { OnOk result (IsRecordedIn (content_of cx.old.nodes table.old.entries)
        (content_of cx.new.nodes table.new.entries) (recorded_by
        (filled (map (tree_at cx.old.nodes) chosen.now)) (recorded_at cx.old.nodes constraint))) }
    ensures seen { OnOk result (AddsSeen (seen_if (is_visible visible)
        (recorded_at cx.old.nodes constraint))
        (content_of cx.old.nodes table.old.entries).constraints
        (content_of cx.new.nodes table.new.entries).constraints) }
    ensures labels { OnOk result (BringsLabelsOf (content_of cx.old.nodes table.old.entries)
        (content_of cx.new.nodes table.new.entries) (filled (map (tree_at cx.old.nodes) chosen.now)
        (tree_at cx.old.nodes constraint.0.left.node))
        (filled (map (tree_at cx.old.nodes) chosen.now)
        (tree_at cx.old.nodes constraint.0.right.node))) }
    ensures joins { OnOk result (JoinsSubRoots (content_of cx.old.nodes table.old.entries)
        (content_of cx.new.nodes table.new.entries)) }
    ensures keeps { StepKeeps cx.old cx.new table.old table.new }
    ensures memory { IsOkUnless result Fault.Memory }
{
    let (constraint, own) = constraint;
    let alloc = cx.alloc;
    let left = instantiate_canonical(alloc, &mut cx.nodes, chosen, constraint.left.node)?;
    let right = instantiate_canonical(alloc, &mut cx.nodes, chosen, constraint.right.node)?;
    let seen = seen_in_both(own, visible);
    record_between(table, cx, constraint.relation, left, right, seen, span)
}

/// Records that the two sides are one region, or that the left outlives the right.
fn record_between(
    table: &mut InferCtxt,
    cx: &Cx,
    relation: Relation,
    left: NodeId,
    right: NodeId,
    visible: VisibleForLeakCheck,
    span: Span,
) -> Result<(), Fault>
    requires table { IsTable cx.now.nodes table.old }
    requires left { IsTermIn cx.now.nodes table.old left }
    requires right { IsTermIn cx.now.nodes table.old right }
    requires left_side { IsLeftSide relation (tree_at cx.now.nodes left) }
    requires right_side { IsRegion (tree_at cx.now.nodes right) }
    requires closed { IsClosed (tree_at cx.now.nodes left) }
    ensures recorded { OnOk result (IsRecordedIn (content_of cx.now.nodes table.old.entries)
        (content_of cx.now.nodes table.new.entries)
        (record {
          relation = relation;
          left = tree_at cx.now.nodes left;
          right = tree_at
              cx.now.nodes right;
          is_visible = is_visible visible;
        })) }
    ensures seen { OnOk result (AddsSeen (seen_by_leak_check relation (is_visible visible))
        (content_of cx.now.nodes table.old.entries).constraints
        (content_of cx.now.nodes table.new.entries).constraints) }
    ensures labels { OnOk result (BringsLabelsOf (content_of cx.now.nodes table.old.entries)
        (content_of cx.now.nodes table.new.entries) (tree_at cx.now.nodes left)
        (tree_at cx.now.nodes right)) }
    ensures joins { OnOk result (JoinsSubRoots (content_of cx.now.nodes table.old.entries)
        (content_of cx.now.nodes table.new.entries)) }
    ensures changes { ChangesVariables table.old table.new }
    ensures table { IsTable cx.now.nodes table.new }
    ensures err { OnErr result (table.new ≡ table.old) }
    ensures memory { IsOkUnless result Fault.Memory }
{
    let region = Region { node: right };
    let outlives = Region { node: left };
    match relation {
        Relation::Equal => table.equate_regions(cx, outlives, region, visible, span),
        Relation::RegionOutlives => table.sub_regions(cx, region, outlives, visible, span),
        Relation::TypeOutlives => table.register_ty_outlives(cx, Ty { node: left }, region, span),
    }
}

/// Whether the leak check sees what is visible in both ways.
fn seen_in_both(a: VisibleForLeakCheck, b: VisibleForLeakCheck) -> VisibleForLeakCheck
    ensures { is_visible result ≡ is_visible a && is_visible b }
{
    match a {
        VisibleForLeakCheck::Yes => b,
        VisibleForLeakCheck::No => VisibleForLeakCheck::No,
    }
}
