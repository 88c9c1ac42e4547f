//! States: values and a payload of an evaluation, as canonical values.
ghost use Rattle.std.specs.Prelude.{◌≡◌, All, IfOk, IsOkUnless};
ghost use Rattle.nts_model.specs.Tables.Resolving.{Knows};
ghost use Rattle.nts_terms.specs.Handles.{HoldsArg};
ghost use Rattle.nts_terms.specs.Rest.{Grows};
ghost use Rattle.nts_unify.specs.Reading.{content_of};
ghost use Rattle.nts_response.specs.nts_table.specs.Tables.{IsTable};
ghost use Rattle.nts_response.specs.nts_canonical.specs.Forms.{trees_of};
ghost use Rattle.nts_response.specs.nts_canonical.specs.SubRoots.{sub_root_in};
ghost use Rattle.nts_response.specs.States.{state_at, resolved_state_of};
ghost use Rattle.nts_response.specs.StateTrees.{state_row};

use crate::answer_kinds::{answer_kinds, greatest};
use nts_canonicalizer::{leaves_of_value, position_value, resolve_value};
use nts_response::nts_canonical::Canonical;
use nts_response::nts_folding::TypeFoldable;
use nts_response::nts_table::InferCtxt;
use nts_response::{CanonicalState, State};
use nts_store::Fault;
use nts_terms::{Cx, GenericArg, UniverseIndex};

/// The values and the payload as they are now, as a canonical value: variables are replaced by what the table knows of
/// them, and then each leaf gives place to a position, as in a response. First the leaves of the values are numbered and then
/// those of the payload. Each universe is counted from the greatest of the input.
pub fn make_canonical_state<T: TypeFoldable>(
    table: &InferCtxt,
    cx: &mut Cx,
    var_values: &[GenericArg],
    max_input_universe: UniverseIndex,
    payload: T,
) -> Result<CanonicalState<T>, Fault>
    requires table { IsTable cx.old.nodes table.now }
    requires values { All (HoldsArg cx.old.nodes) var_values.now }
    requires payload { T.holds cx.old.nodes payload }
    requires knows { Knows (content_of cx.old.nodes table.now.entries)
        (state_row (trees_of cx.old.nodes var_values.now) (T.tree cx.old.nodes payload)) }
    ensures state { IfOk result (λ r. state_at T.tree cx.new.nodes r ≡ resolved_state_of
        (content_of cx.old.nodes table.now.entries) (sub_root_in table.now.entries)
        max_input_universe (trees_of cx.old.nodes var_values.now) (T.tree cx.old.nodes payload)) }
    ensures values { IfOk result (λ r. All (HoldsArg cx.new.nodes) r.value.var_values.items) }
    ensures payload { IfOk result (λ r. T.holds cx.new.nodes r.value.payload) }
    ensures grows { Grows cx.old cx.new }
    ensures memory { IsOkUnless result Fault.Memory }
{
    let var_values = var_values.to_vec(cx.alloc)?;
    let state = State {
        var_values,
        payload,
    };
    let state = resolve_value(table, cx, state)?;
    let (state, leaves) = leaves_of_value(cx, state)?;
    let var_kinds = answer_kinds(cx.alloc, table, max_input_universe, leaves.as_slice())?;
    let max_universe = greatest(&var_kinds);
    let value = position_value(cx, &leaves, state)?;
    Ok(Canonical {
        value,
        max_universe,
        var_kinds,
    })
}
