//! Region constraints.
ghost use Rattle.std.specs.Prelude.{◌≡◌, true, OnOk, OnErr, IsOkUnless};
ghost use Rattle.nts_model.specs.declared.labels.Relation.TheVariants as relation;
ghost use Rattle.nts_model.specs.Tables.Resolving.{Knows};
ghost use Rattle.nts_model.specs.Tables.Passing.{BringsLabelsOf};
ghost use Rattle.nts_store.specs.Growth.{tree_at};
ghost use Rattle.nts_terms.specs.Handles.{HoldsTy, HoldsRegion};
ghost use Rattle.nts_unify.specs.Reading.{content_of, IsConstraint};
ghost use Rattle.nts_table.specs.Tables.{IsTable};
ghost use Rattle.nts_unify.specs.Recording.{Records, is_visible};
ghost use Rattle.nts_table.specs.Frames.{ChangesVariables};

use crate::infer_ctxt::InferCtxt;
use nts_model::Relation;
use nts_store::{Fault, Nodes};
use nts_terms::{Cx, Region, Span, Ty, VisibleForLeakCheck};
use nts_unify::Constraint;

impl InferCtxt {
    /// Records that `b` outlives `a`, unless they are one.
    pub fn sub_regions(
        &mut self,
        cx: &Cx,
        a: Region,
        b: Region,
        visible: VisibleForLeakCheck,
        _span: Span,
    ) -> Result<(), Fault>
        requires table { IsTable cx.now.nodes self.old }
        requires left { HoldsRegion cx.now.nodes a }
        requires right { HoldsRegion cx.now.nodes b }
        requires left_known { Knows (content_of cx.now.nodes self.old.entries)
            (tree_at cx.now.nodes a.node) }
        requires right_known { Knows (content_of cx.now.nodes self.old.entries)
            (tree_at cx.now.nodes b.node) }
        ensures recorded { OnOk result (Records cx.now.nodes self.old.entries self.new.entries
            (record {
              relation = relation.RegionOutlives;
              left = b.node;
              right = a.node;
              is_visible
                  = is_visible visible;
            })) }
        ensures labels { OnOk result (BringsLabelsOf (content_of cx.now.nodes self.old.entries)
            (content_of cx.now.nodes self.new.entries) (tree_at cx.now.nodes b.node)
            (tree_at cx.now.nodes a.node)) }
        ensures table { IsTable cx.now.nodes self.new }
        ensures changes { ChangesVariables self.old self.new }
        ensures err { OnErr result (self.new ≡ self.old) }
        ensures memory { IsOkUnless result Fault.Memory }
    {
        self.record(
            &cx.nodes,
            Constraint {
                relation: Relation::RegionOutlives,
                left: b.node,
                right: a.node,
                is_visible: is_seen(visible),
            },
        )
    }

    /// Records that a type outlives a region, for the leak check to see.
    pub fn register_ty_outlives(
        &mut self,
        cx: &Cx,
        ty: Ty,
        region: Region,
        _span: Span,
    ) -> Result<(), Fault>
        requires table { IsTable cx.now.nodes self.old }
        requires left { HoldsTy cx.now.nodes ty }
        requires right { HoldsRegion cx.now.nodes region }
        requires left_known { Knows (content_of cx.now.nodes self.old.entries)
            (tree_at cx.now.nodes ty.node) }
        requires right_known { Knows (content_of cx.now.nodes self.old.entries)
            (tree_at cx.now.nodes region.node) }
        ensures recorded { OnOk result (Records cx.now.nodes self.old.entries self.new.entries
            (record {
              relation = relation.TypeOutlives;
              left = ty.node;
              right = region.node;
              is_visible = true;
            })) }
        ensures labels { OnOk result (BringsLabelsOf (content_of cx.now.nodes self.old.entries)
            (content_of cx.now.nodes self.new.entries) (tree_at cx.now.nodes ty.node)
            (tree_at cx.now.nodes region.node)) }
        ensures table { IsTable cx.now.nodes self.new }
        ensures changes { ChangesVariables self.old self.new }
        ensures err { OnErr result (self.new ≡ self.old) }
        ensures memory { IsOkUnless result Fault.Memory }
    {
        self.record(
            &cx.nodes,
            Constraint {
                relation: Relation::TypeOutlives,
                left: ty.node,
                right: region.node,
                is_visible: true,
            },
        )
    }

    /// Records a constraint, unless its sides are one term.
    pub(crate) fn record(&mut self, nodes: &Nodes, constraint: Constraint) -> Result<(), Fault>
        requires table { IsTable nodes.now self.old }
        requires sides { IsConstraint nodes.now (content_of nodes.now self.old.entries) constraint }
        ensures recorded { OnOk result (Records nodes.now self.old.entries self.new.entries
            constraint) }
        ensures labels { OnOk result (BringsLabelsOf (content_of nodes.now self.old.entries)
            (content_of nodes.now self.new.entries) (tree_at nodes.now constraint.left)
            (tree_at nodes.now constraint.right)) }
        ensures table { IsTable nodes.now self.new }
        ensures changes { ChangesVariables self.old self.new }
        ensures err { OnErr result (self.new ≡ self.old) }
        ensures memory { IsOkUnless result Fault.Memory }
    {
        if nodes.same(constraint.left, constraint.right) {
            return Ok(());
        }
        self.inner.constrain(constraint)?;
        Ok(())
    }
}

/// Whether the leak check sees a constraint that is recorded so.
pub(crate) fn is_seen(visible: VisibleForLeakCheck) -> bool
    ensures { result ≡ is_visible visible }
{
    match visible {
        VisibleForLeakCheck::Yes => true,
        VisibleForLeakCheck::No => false,
    }
}
