//! Regions made equal.
ghost use Rattle.std.specs.Prelude.{◌≡◌, ◌⊎◌, ◌<◌, length, List, Some, OnOk, OnErr, IsOkUnless, true, false};
ghost use Rattle.nts_model.specs.declared.labels.VariableKind.TheVariants as kinds;
ghost use Rattle.nts_model.specs.Tables.Contents.{kind_at};
ghost use Rattle.nts_model.specs.Tables.Resolving.{Knows};
ghost use Rattle.nts_model.specs.Tables.Passing.{BringsLabelsOf};
ghost use Rattle.nts_model.specs.Terms.Regions.{IsRegion};
ghost use Rattle.nts_model.specs.Terms.Trees.{Tree};
ghost use Rattle.nts_store.specs.Growth.{tree_at, IsIn};
ghost use Rattle.nts_terms.specs.Handles.{HoldsRegion};
ghost use Rattle.nts_unify.specs.Reading.{content_of, LinksDescend};
ghost use Rattle.nts_table.specs.Tables.{IsTable};
ghost use Rattle.nts_unify.specs.Recording.{is_visible};
ghost use Rattle.nts_unify.specs.Equating.{Equated, RegionsJoined, RegionsLinked, region_of};
ghost use Rattle.nts_table.specs.Frames.{ChangesVariables};

use crate::constraints::is_seen;
use crate::infer_ctxt::InferCtxt;
use nts_model::Relation;
use nts_store::{Fault, NodeId, Nodes};
use nts_terms::{Cx, Region, Span, VisibleForLeakCheck};
use nts_unify::{Constraint, names_free_region, region_number};

impl InferCtxt {
    /// Makes two regions equal, which are no bound variables: two variables become one, and otherwise
    /// it is recorded, unless the regions are one already.
    pub fn equate_regions(
        &mut self,
        cx: &Cx,
        a: Region,
        b: Region,
        visible: VisibleForLeakCheck,
        _span: Span,
    ) -> Result<(), Fault>
        requires table { IsTable cx.now.nodes self.old }
        requires left { HoldsRegion cx.now.nodes a }
        requires right { HoldsRegion cx.now.nodes b }
        requires left_known { Knows (content_of cx.now.nodes self.old.entries)
            (tree_at cx.now.nodes a.node) }
        requires right_known { Knows (content_of cx.now.nodes self.old.entries)
            (tree_at cx.now.nodes b.node) }
        requires left_free { IsRegion (tree_at cx.now.nodes a.node) }
        requires right_free { IsRegion (tree_at cx.now.nodes b.node) }
        ensures equated { OnOk result (Equated cx.now.nodes self.old.entries self.new.entries a.node
            b.node (is_visible visible)) }
        ensures labels { OnOk result (BringsLabelsOf (content_of cx.now.nodes self.old.entries)
            (content_of cx.now.nodes self.new.entries) (tree_at cx.now.nodes a.node)
            (tree_at cx.now.nodes b.node)) }
        ensures table { IsTable cx.now.nodes self.new }
        ensures changes { ChangesVariables self.old self.new }
        ensures err { OnErr result (self.new ≡ self.old) }
        ensures memory { IsOkUnless result Fault.Memory }
    {
        match (region_at(&cx.nodes, a.node), region_at(&cx.nodes, b.node)) {
            (Some(x), Some(y)) => {
                self.join_regions_of(x, y)?;
                Ok(())
            }
            _ => self.record(
                &cx.nodes,
                Constraint {
                    relation: Relation::Equal,
                    left: a.node,
                    right: b.node,
                    is_visible: is_seen(visible),
                },
            ),
        }
    }

    /// Makes one class of those of two region variables.
    fn join_regions_of(&mut self, x: usize, y: usize) -> Result<(), Fault>
        requires within_x { x < length self.old.entries.variables }
        requires within_y { y < length self.old.entries.variables }
        requires descends { LinksDescend self.old.entries }
        ensures joined { OnOk result (RegionsJoined self.old.entries self.new.entries x y) }
        ensures changes { ChangesVariables self.old self.new }
        ensures err { OnErr result (self.new ≡ self.old) }
        ensures memory { IsOkUnless result Fault.Memory }
    {
        let x_root = self.root(x);
        let y_root = self.root(y);
        if x_root == y_root {
            return Ok(());
        }
        let snapshot = self.start_snapshot()?;
        let linked = self.inner.link_regions(x_root, y_root);
        self.commit_if_ok(snapshot, linked)?;
        Ok(())
    }
}

/// The number of a term that is a region variable.
fn region_at(nodes: &Nodes, t: NodeId) -> Option<usize>
    requires { IsIn nodes.now t }
    ensures { result ≡ region_of (tree_at nodes.now t) }
{
    region_number(nodes.label(t))
}

/// Whether a region is no bound variable, so that it can be made equal to others.
pub fn is_unbound(cx: &Cx, region: Region) -> bool
    requires { HoldsRegion cx.now.nodes region }
    ensures yes { result ≡ true → IsRegion (tree_at cx.now.nodes region.node) }
    ensures no { result ≡ false → IsRegion (tree_at cx.now.nodes region.node) → ⊥ }
{
    names_free_region(cx.nodes.label(region.node))
}
