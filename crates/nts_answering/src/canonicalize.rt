//! Responses as canonical values.
ghost use Rattle.std.specs.Prelude.{◌≡◌, IfOk, IsOkUnless};
ghost use Rattle.nts_model.specs.Answers.Responses.{response_of, findings_by, positioned};
ghost use Rattle.nts_store.specs.Growth.{Extends};
ghost use Rattle.nts_terms.specs.Rest.{Grows};
ghost use Rattle.nts_unify.specs.Reading.{content_of};
ghost use Rattle.nts_response.specs.nts_table.specs.Tables.{IsTable};
ghost use Rattle.nts_response.specs.nts_canonical.specs.SubRoots.{sub_root_in};
ghost use Rattle.nts_response.specs.Forms.{findings_at, response_at, HoldsResponse, KnowsFindings};

use crate::answer_kinds::{answer_kinds, greatest};
use crate::leaves::leaves_of;
use crate::numbered::{numbered_constraints, numbered_goals, numbered_hidden, numbered_values};
use nts_canonicalizer::Leaves;
use nts_response::nts_canonical::Canonical;
use nts_response::nts_table::InferCtxt;
use nts_response::{CanonicalResponse, ExternalConstraintsData, Response};
use nts_store::{Fault, Nodes};
use nts_terms::{Cx, UniverseIndex};
use std::alloc::{AllocError, Global};

/// The response of a table to an input of that greatest universe, as a canonical value: each leaf gives place to a
/// position, which is numbered at first sight, and stands for the leaf; each universe is counted from the greatest of
/// the input. 'static, the erased and the error region stay. Values of variables are not looked up: hand in what is
/// resolved.
pub fn canonicalize_response(
    table: &InferCtxt,
    cx: &mut Cx,
    max_input_universe: UniverseIndex,
    value: Response,
) -> Result<CanonicalResponse, Fault>
    requires table { IsTable cx.old.nodes table.now }
    requires holds { HoldsResponse cx.old.nodes value }
    requires knows { KnowsFindings (content_of cx.old.nodes table.now.entries)
        (findings_at cx.old.nodes value) }
    ensures response { IfOk result (λ r. response_at cx.new.nodes r ≡ response_of
        (content_of cx.old.nodes table.now.entries) (sub_root_in table.now.entries)
        max_input_universe (findings_at cx.old.nodes value)) }
    ensures certainty { IfOk result (λ r. r.value.certainty ≡ value.certainty) }
    ensures holds { IfOk result (λ r. HoldsResponse cx.new.nodes r.value) }
    ensures grows { Grows cx.old cx.new }
    ensures memory { IsOkUnless result Fault.Memory }
{
    let leaves = leaves_of(cx, &value)?;
    let var_kinds = answer_kinds(cx.alloc, table, max_input_universe, leaves.as_slice())?;
    let max_universe = greatest(&var_kinds);
    let value = numbered_response(cx.alloc, &mut cx.nodes, &leaves, value)?;
    Ok(Canonical {
        value,
        max_universe,
        var_kinds,
    })
}

/// What was found out, with positions in place of its leaves.
fn numbered_response(
    alloc: Global,
    nodes: &mut Nodes,
    leaves: &Leaves,
    value: Response,
) -> Result<Response, AllocError>
    requires { HoldsResponse nodes.old value }
    ensures findings { IfOk result (λ r. findings_at nodes.new r ≡ findings_by
        (positioned leaves.now) (findings_at nodes.old value)) }
    ensures certainty { IfOk result (λ r. r.certainty ≡ value.certainty) }
    ensures holds { IfOk result (HoldsResponse nodes.new) }
    ensures extends { Extends nodes.old nodes.new }
{
    let found = &value.external_constraints;
    let var_values = numbered_values(alloc, nodes, leaves, &value.var_values)?;
    let region_constraints = numbered_constraints(alloc, nodes, leaves, &found.region_constraints)?;
    let opaque_types = numbered_hidden(alloc, nodes, leaves, &found.opaque_types)?;
    let normalization_nested_goals = numbered_goals(
        alloc,
        nodes,
        leaves,
        &found.normalization_nested_goals,
    )?;
    let external_constraints = ExternalConstraintsData {
        region_constraints,
        opaque_types,
        normalization_nested_goals,
    };
    Ok(Response {
        certainty: value.certainty,
        var_values,
        external_constraints,
    })
}
