//! What a query's table answers.
ghost use Rattle.std.specs.Prelude.{◌≡◌, List, [], map, All, IfOk, IsOkUnless};
ghost use Rattle.nts_model.specs.Terms.Trees.{Tree};
ghost use Rattle.nts_model.specs.Tables.Resolving.{deeply_resolved};
ghost use Rattle.nts_store.specs.Growth.{tree_at};
ghost use Rattle.nts_terms.specs.Rest.{Grows};
ghost use Rattle.nts_unify.specs.Reading.{content_of, recorded_of};
ghost use Rattle.nts_table.specs.Tables.{IsTable};
ghost use Rattle.nts_canonical.specs.Forms.{trees_of};
ghost use Rattle.nts_canonical.specs.Building.{IsArgOf};
ghost use Rattle.nts_response.specs.Forms.{response_at, recorded_at, HoldsResponse, StoreHoldsConstraint};
ghost use Rattle.nts_theory.specs.Telling.{IsResponseOf};
ghost use Rattle.nts_meaning.specs.Answering.{told_in, AreTold, KnowsSides, IfAnswered};

use crate::terms::resolve_term;
use nts_answering::canonicalize_response;
use nts_certainty::{Certainty, HasChanged};
use nts_delegate::RegionConstraint;
use nts_response::{CanonicalResponse, ExternalConstraintsData, Response};
use nts_store::Fault;
use nts_table::{Constraint, InferCtxt};
use nts_terms::{Cx, GenericArg, Region, VisibleForLeakCheck};

/// What a goal that was asked in a query of its own was answered.
#[derive(Clone, Copy)]
pub struct Evaluated {
    pub certainty: Certainty,
    /// Whether the response says anything of the goal's variables.
    pub has_changed: HasChanged,
}

/// The response of a query's table: what it knows of the values of the positions and, where the answer is yes, its region
/// constraints, each once and none that is trivial.
#[inline(never)]
pub fn make_response(
    table: &InferCtxt,
    cx: &mut Cx,
    values: &[GenericArg],
    certainty: Certainty,
) -> Result<CanonicalResponse, Fault>
    requires table { IsTable cx.old.nodes table.now }
    requires values { All (IsArgOf cx.old.nodes table.now.entries) values.now }
    ensures says { IfOk result (λ r. IsResponseOf (told_in certainty
        (content_of cx.old.nodes table.now.entries)) (trees_of cx.old.nodes values.now)
        (response_at cx.new.nodes r)) }
    ensures certainty { IfOk result (λ r. r.value.certainty ≡ certainty) }
    ensures holds { IfOk result (λ r. HoldsResponse cx.new.nodes r.value) }
    ensures nothing { IfOk result (λ r. (r.value.external_constraints.opaque_types.items ≡ []) ×
        (r.value.external_constraints.normalization_nested_goals.items ≡ [])) }
    ensures grows { Grows cx.old cx.new }
    ensures memory { IsOkUnless result Fault.Memory }
{
    cx.terms_are_formed();
    let var_values = resolved_values(table, cx, values)?;
    let region_constraints = told_constraints(table, cx, certainty)?;
    let alloc = cx.alloc;
    let external_constraints = ExternalConstraintsData {
        region_constraints,
        opaque_types: Vec::new(alloc),
        normalization_nested_goals: Vec::new(alloc),
    };
    let value = Response {
        certainty,
        var_values,
        external_constraints,
    };
    canonicalize_response(table, cx, 0, value)
}

/// The same, behind a box.
#[inline(never)]
pub fn boxed_response(
    table: &InferCtxt,
    cx: &mut Cx,
    values: &[GenericArg],
    certainty: Certainty,
) -> Result<Box<CanonicalResponse>, Fault>
    requires table { IsTable cx.old.nodes table.now }
    requires values { All (IsArgOf cx.old.nodes table.now.entries) values.now }
    ensures says { IfAnswered result (λ r. IsResponseOf (told_in certainty
        (content_of cx.old.nodes table.now.entries)) (trees_of cx.old.nodes values.now)
        (response_at cx.new.nodes r)) }
    ensures certainty { IfAnswered result (λ r. r.value.certainty ≡ certainty) }
    ensures holds { IfAnswered result (λ r. HoldsResponse cx.new.nodes r.value) }
    ensures nothing { IfAnswered result (λ r.
        (r.value.external_constraints.opaque_types.items ≡ []) ×
        (r.value.external_constraints.normalization_nested_goals.items ≡ [])) }
    ensures grows { Grows cx.old cx.new }
    ensures memory { IsOkUnless result Fault.Memory }
{
    let response = make_response(table, cx, values, certainty)?;
    let response = Box::new(cx.alloc, response)?;
    Ok(response)
}

/// Values with their variables replaced by what the table knows of them.
fn resolved_values(
    table: &InferCtxt,
    cx: &mut Cx,
    values: &[GenericArg],
) -> Result<Vec<GenericArg>, Fault>
    requires table { IsTable cx.old.nodes table.now }
    requires values { All (IsArgOf cx.old.nodes table.now.entries) values.now }
    ensures trees { IfOk result (λ v. trees_of cx.new.nodes v.items ≡ map (deeply_resolved
        (content_of cx.old.nodes table.now.entries)) (trees_of cx.old.nodes values.now)) }
    ensures args { IfOk result (λ v. All (IsArgOf cx.new.nodes table.now.entries) v.items) }
    ensures grows { Grows cx.old cx.new }
    ensures memory { IsOkUnless result Fault.Memory }
{
    let mut resolved = Vec::with_capacity(cx.alloc, values.len())?;
    for i in 0..values.len() {
        let node = resolve_term(table, cx, values[i].node)?;
        resolved.push(GenericArg { node })?;
    }
    Ok(resolved)
}

/// The region constraints that an answer of that certainty tells.
fn told_constraints(
    table: &InferCtxt,
    cx: &mut Cx,
    certainty: Certainty,
) -> Result<Vec<(RegionConstraint, VisibleForLeakCheck)>, Fault>
    requires table { IsTable cx.old.nodes table.now }
    ensures told { IfOk result (λ v. AreTold (told_in certainty
        (content_of cx.old.nodes table.now.entries)) (map (recorded_at cx.new.nodes) v.items)) }
    ensures holds { IfOk result (λ v. All (StoreHoldsConstraint cx.new.nodes) v.items) }
    ensures known { IfOk result (λ v. KnowsSides (content_of cx.new.nodes table.now.entries)
        (map (recorded_at cx.new.nodes) v.items)) }
    ensures grows { Grows cx.old cx.new }
    ensures memory { IsOkUnless result Fault.Memory }
{
    let Certainty::Yes = certainty else {
        return Ok(Vec::new(cx.alloc));
    };
    let constraints = table.make_deduplicated_region_constraints(cx)?;
    let mut told = Vec::with_capacity(cx.alloc, constraints.len())?;
    for i in 0..constraints.len() {
        told.push(as_told(constraints[i]))?;
    }
    Ok(told)
}

/// A constraint as a response tells it.
fn as_told(constraint: Constraint) -> (RegionConstraint, VisibleForLeakCheck)
    ensures trees { (ts : List Tree) → recorded_at ts result ≡ recorded_of ts constraint }
    ensures left { result.0.left.node ≡ constraint.left }
    ensures right { result.0.right.node ≡ constraint.right }
    ensures relation { result.0.relation ≡ constraint.relation }
{
    let visible = if constraint.is_visible {
        VisibleForLeakCheck::Yes
    } else {
        VisibleForLeakCheck::No
    };
    let told = RegionConstraint {
        relation: constraint.relation,
        left: GenericArg {
            node: constraint.left,
        },
        right: Region {
            node: constraint.right,
        },
    };
    (told, visible)
}
