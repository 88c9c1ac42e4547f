//! Responses that found nothing out.
ghost use Rattle.std.specs.Prelude.{◌≡◌, ◌↔◌, [], map, All, IsTrue, IfOk, IsOkUnless};
ghost use Rattle.nts_model.specs.Searching.Driving.{sort_at, positions_from, unconstrained};
ghost use Rattle.nts_store.specs.Growth.{tree_at, Extends};
ghost use Rattle.nts_terms.specs.Handles.{HoldsArg};
ghost use Rattle.nts_terms.specs.Rest.{Grows};
ghost use Rattle.nts_canonical.specs.Forms.{kind_of_var, trees_of};
ghost use Rattle.nts_response.specs.Forms.{findings_at, response_at, HoldsResponse, FoundNothing};

use crate::types::{CanonicalResponse, ExternalConstraintsData, Response};
use nts_candidates::nts_certainty::Certainty;
use nts_canonical::{Canonical, CanonicalVarKind};
use nts_model::{BoundVarIndexKind, Label, Sort};
use nts_store::{Fault, Nodes};
use nts_terms::{Cx, GenericArg, UniverseIndex};
use std::alloc::{AllocError, Global};

/// The response with that certainty, to an input of positions of these kinds, that found nothing out: each position is
/// its own value, and there are neither region constraints nor hidden types nor open goals.
pub fn response_no_constraints_raw(
    cx: &mut Cx,
    max_universe: UniverseIndex,
    var_kinds: Vec<CanonicalVarKind>,
    certainty: Certainty,
) -> Result<CanonicalResponse, Fault>
    ensures response { IfOk result (λ r. response_at cx.new.nodes r ≡ record (unconstrained
        (map kind_of_var var_kinds.items)) { max_universe = max_universe }) }
    ensures certainty { IfOk result (λ r. r.value.certainty ≡ certainty) }
    ensures holds { IfOk result (λ r. HoldsResponse cx.new.nodes r.value) }
    ensures grows { Grows cx.old cx.new }
    ensures memory { IsOkUnless result Fault.Memory }
{
    let alloc = cx.alloc;
    let var_values = positions(alloc, &mut cx.nodes, &var_kinds)?;
    let external_constraints = ExternalConstraintsData {
        region_constraints: Vec::new(alloc),
        opaque_types: Vec::new(alloc),
        normalization_nested_goals: Vec::new(alloc),
    };
    let value = Response {
        certainty,
        var_values,
        external_constraints,
    };
    Ok(Canonical {
        value,
        max_universe,
        var_kinds,
    })
}

/// The positions of these kinds, in order.
fn positions(
    alloc: Global,
    nodes: &mut Nodes,
    kinds: &[CanonicalVarKind],
) -> Result<Vec<GenericArg>, AllocError>
    ensures values { IfOk result (λ v. trees_of nodes.new v.items ≡ positions_from 0
        (map kind_of_var kinds.now)) }
    ensures holds { IfOk result (λ v. All (HoldsArg nodes.new) v.items) }
    ensures extends { Extends nodes.old nodes.new }
{
    let mut values = Vec::with_capacity(alloc, kinds.len())?;
    for i in 0..kinds.len() {
        let label = Label::Bound(sort_of_kind(kinds[i]), BoundVarIndexKind::Canonical, i);
        let node = nodes.make(label, &[])?;
        values.push(GenericArg { node })?;
    }
    Ok(values)
}

/// The sort of what a position stands for.
pub(crate) fn sort_of_kind(kind: CanonicalVarKind) -> Sort
    ensures { result ≡ sort_at (kind_of_var kind) }
{
    match kind {
        CanonicalVarKind::Ty { .. } => Sort::Ty,
        CanonicalVarKind::Int => Sort::Ty,
        CanonicalVarKind::Float => Sort::Ty,
        CanonicalVarKind::Const(_) => Sort::Const,
        CanonicalVarKind::Region(_) => Sort::Region,
        CanonicalVarKind::PlaceholderTy(_) => Sort::Ty,
        CanonicalVarKind::PlaceholderRegion(_) => Sort::Region,
        CanonicalVarKind::PlaceholderConst(_) => Sort::Const,
    }
}

impl ExternalConstraintsData {
    /// Whether there are neither region constraints nor hidden types nor open goals.
    pub fn is_empty(&self) -> bool
        ensures { IsTrue result ↔ FoundNothing self.now }
    {
        self.region_constraints.is_empty()
            && self.opaque_types.is_empty()
            && self.normalization_nested_goals.is_empty()
    }
}
