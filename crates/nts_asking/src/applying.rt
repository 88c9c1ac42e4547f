//! What the answer to a query changes.
ghost use Rattle.std.specs.Prelude.{◌≡◌, ◌↔◌, ◌<◌, ◌+◌, false, [], All, IfOk, OnOk, OnErr};
ghost use Rattle.nts_model.specs.Terms.Trees.{IsClosed};
ghost use Rattle.nts_model.specs.Tables.Passing.{BringsOnly};
ghost use Rattle.nts_model.specs.Answers.Responses.{RefusesResponse, IsIdentity};
ghost use Rattle.nts_certainty.specs.declared.sources.HasChanged.TheVariants as changes;
ghost use Rattle.nts_meaning.specs.Evaluation.{Runs};
ghost use Rattle.nts_meaning.specs.nts_response.specs.Applicable.{IsApplicable, IsResponseApplied};
ghost use Rattle.nts_store.specs.Growth.{tree_at};
ghost use Rattle.nts_unify.specs.Reading.{content_of};
ghost use Rattle.nts_table.specs.Tables.{IsTable};
ghost use Rattle.nts_canonical.specs.Forms.{trees_of};
ghost use Rattle.nts_canonical.specs.Building.{IsArgOf};
ghost use Rattle.nts_meaning.specs.nts_response.specs.Forms.{response_at};
ghost use Rattle.nts_meaning.specs.Answering.{TellsNoMore};

use nts_certainty::HasChanged;
use nts_meaning::Evaluated;
use nts_meaning::nts_applying::instantiate_and_apply_query_response;
use nts_meaning::nts_response::{CanonicalResponse, has_only_region_constraints};
use nts_store::EvalError;
use nts_table::InferCtxt;
use nts_terms::{Cx, GenericArg, ParamEnv, Span, VisibleForLeakCheck};

/// The rules of a handler stand in no text of the user's.
const NO_PLACE: Span = Span(0);

/// Applies the answer to a query to the leaves of its goal. The leak check sees no constraint between regions of it.
#[inline(never)]
pub fn apply_answer(
    table: &mut InferCtxt,
    cx: &mut Cx,
    param_env: ParamEnv,
    originals: &[GenericArg],
    answer: &CanonicalResponse,
) -> Result<Evaluated, EvalError>
    requires table { IsTable cx.old.nodes table.old }
    requires originals { All (IsArgOf cx.old.nodes table.old.entries) originals.now }
    requires closed { All (λ o. IsClosed (tree_at cx.old.nodes o.node)) originals.now }
    requires fits { IsApplicable cx.old.nodes (trees_of cx.old.nodes originals.now) answer.now }
    requires no_more { TellsNoMore answer.now }
    ensures runs { Runs cx.old cx.new table.old table.new }
    ensures err { OnErr result (table.new ≡ table.old) }
    ensures applied { OnOk result (IsResponseApplied cx.old.nodes cx.new.nodes table.old.entries
        table.new.entries (trees_of cx.old.nodes originals.now)
        (response_at cx.old.nodes answer.now) false []) }
    ensures labels { OnOk result (BringsOnly (trees_of cx.old.nodes originals.now)
        (content_of cx.old.nodes table.old.entries) (content_of cx.new.nodes table.new.entries)) }
    ensures certainty { IfOk result (λ e. e.certainty ≡ answer.now.value.certainty) }
    ensures changed { IfOk result (λ e. (e.has_changed ≡ changes.No) ↔ IsIdentity 0
        (trees_of cx.old.nodes answer.now.value.var_values.items)) }
    ensures no { result ≡ Err EvalError.NoSolution →
        RefusesResponse (content_of cx.old.nodes table.old.entries)
        (trees_of cx.old.nodes originals.now) (response_at cx.old.nodes answer.now) }
    ensures full { result ≡ Err EvalError.Full →
        u32.MAX < table.old.entries.universe + answer.now.max_universe }
{
    let has_changed = if has_only_region_constraints(cx, answer) {
        HasChanged::No
    } else {
        HasChanged::Yes
    };
    let (_, certainty) = instantiate_and_apply_query_response(
        table,
        cx,
        param_env,
        originals,
        answer,
        VisibleForLeakCheck::No,
        NO_PLACE,
    )?;
    Ok(Evaluated {
        certainty,
        has_changed,
    })
}
