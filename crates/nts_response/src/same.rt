//! Whether responses are one.
ghost use Rattle.std.specs.Prelude.{◌≡◌, ◌↔◌, List, All, IsTrue};
ghost use Rattle.nts_model.specs.Terms.Trees.{Tree};
ghost use Rattle.nts_store.specs.Growth.{tree_at};
ghost use Rattle.nts_terms.specs.Handles.{HoldsArg};
ghost use Rattle.nts_candidates.specs.Offered.{hidden_of};
ghost use Rattle.nts_canonical.specs.Forms.{IsHidden};
ghost use Rattle.nts_response.specs.Forms.{StoreHoldsConstraint, HoldsOpen, HoldsResponse, recorded_at, premise_at};
ghost use Rattle.nts_response.specs.Same.{AreOneEach, FoundOne, AreOneResponse};

use crate::types::{CanonicalResponse, Response};
use nts_candidates::RegionConstraint;
use nts_candidates::nts_certainty::GoalSource;
use nts_canonical::{same_kinds, same_pair};
use nts_store::Nodes;
use nts_terms::{AliasTerm, Cx, GenericArg, Goal, Ty, VisibleForLeakCheck};

/// An entry of a list of a response, that is told from another one of the store.
trait Told: Copy {
    ghost holds: { List Tree → Self → Type 0 };

    ghost are_one: { List Tree → Self → Self → Type 0 };

    /// Whether both stand for the same.
    fn same(self, nodes: &Nodes, other: Self) -> bool
        requires left { holds nodes.now self }
        requires right { holds nodes.now other }
        ensures { IsTrue result ↔ are_one nodes.now self other };
}

impl Told for GenericArg {
    ghost holds = { HoldsArg };

    ghost are_one = { λ ts x y. tree_at ts x.node ≡ tree_at ts y.node };

    fn same(self, nodes: &Nodes, other: GenericArg) -> bool {
        nodes.same(self.node, other.node)
    }
}

impl Told for (RegionConstraint, VisibleForLeakCheck) {
    ghost holds = { StoreHoldsConstraint };

    ghost are_one = { λ ts x y. recorded_at ts x ≡ recorded_at ts y };

    fn same(self, nodes: &Nodes, other: (RegionConstraint, VisibleForLeakCheck)) -> bool {
        let (a, seen) = self;
        let (b, other_seen) = other;
        if a.relation != b.relation || seen != other_seen {
            return false;
        }
        nodes.same(a.left.node, b.left.node) && nodes.same(a.right.node, b.right.node)
    }
}

impl Told for (AliasTerm, Ty) {
    ghost holds = { IsHidden };

    ghost are_one = { λ ts x y. hidden_of ts x ≡ hidden_of ts y };

    fn same(self, nodes: &Nodes, other: (AliasTerm, Ty)) -> bool {
        same_pair(nodes, self, other)
    }
}

impl Told for (GoalSource, Goal) {
    ghost holds = { HoldsOpen };

    ghost are_one = { λ ts x y. premise_at ts x ≡ premise_at ts y };

    fn same(self, nodes: &Nodes, other: (GoalSource, Goal)) -> bool {
        let (source, a) = self;
        let (other_source, b) = other;
        if source != other_source {
            return false;
        }
        nodes.same(a.param_env.node, b.param_env.node)
            && nodes.same(a.predicate.node, b.predicate.node)
    }
}

/// Whether two canonical responses of one store are one: as certain, and of the same values, constraints, hidden types,
/// open goals, kinds and greatest universe, each list in order.
pub fn same_response(cx: &Cx, a: &CanonicalResponse, b: &CanonicalResponse) -> bool
    requires left { HoldsResponse cx.now.nodes a.now.value }
    requires right { HoldsResponse cx.now.nodes b.now.value }
    ensures { IsTrue result ↔ AreOneResponse cx.now.nodes a.now b.now }
{
    if a.value.certainty != b.value.certainty || a.max_universe != b.max_universe {
        return false;
    }
    same_kinds(&a.var_kinds, &b.var_kinds) && same_findings(&cx.nodes, &a.value, &b.value)
}

/// Whether two responses found the same, entry by entry.
fn same_findings(nodes: &Nodes, a: &Response, b: &Response) -> bool
    requires left { HoldsResponse nodes.now a.now }
    requires right { HoldsResponse nodes.now b.now }
    ensures { IsTrue result ↔ FoundOne nodes.now a.now b.now }
{
    let found = &a.external_constraints;
    let other = &b.external_constraints;
    if !all_same(nodes, &a.var_values, &b.var_values) {
        return false;
    }
    if !all_same(nodes, &found.region_constraints, &other.region_constraints) {
        return false;
    }
    if !all_same(nodes, &found.opaque_types, &other.opaque_types) {
        return false;
    }
    all_same(
        nodes,
        &found.normalization_nested_goals,
        &other.normalization_nested_goals,
    )
}

/// Whether two lists stand for the same, in order.
fn all_same<E: Told>(nodes: &Nodes, a: &[E], b: &[E]) -> bool
    requires left { All (E.holds nodes.now) a.now }
    requires right { All (E.holds nodes.now) b.now }
    ensures { IsTrue result ↔ AreOneEach (E.are_one nodes.now) a.now b.now }
{
    if a.len() != b.len() {
        return false;
    }
    for i in 0..a.len() {
        if !a[i].same(nodes, b[i]) {
            return false;
        }
    }
    true
}
