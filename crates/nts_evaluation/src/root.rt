//! A canonical goal, asked at the root of a search.
ghost use Rattle.std.specs.Prelude.{◌≡◌, ◌<◌, ◌+◌, IfOk, IfSome, IsNone};
ghost use Rattle.nts_model.specs.Derivations.Handlers.{meaning};
ghost use Rattle.nts_certainty.specs.declared.certainty.Certainty.TheVariants as certainty;
ghost use Rattle.nts_terms.specs.Modes.{mode_of};
ghost use Rattle.nts_terms.specs.Signatures.{variances_in};
ghost use Rattle.nts_terms.specs.Rest.{Grows};
ghost use Rattle.nts_canonical.specs.Building.{kinds_of};
ghost use Rattle.nts_meaning.specs.Answering.{IsQueryInput, IsAnswerTo};
ghost use Rattle.nts_meaning.specs.Searching.{IsSearch, Searches};
ghost use Rattle.nts_meaning.specs.Meant.{ruling_in, IsInputProved, IsQueryTold, IsQueryRefuted};
ghost use Rattle.nts_canonical.specs.Forms.{form_of};
ghost use Rattle.nts_response.specs.Forms.{response_at};
ghost use Rattle.nts_search.specs.Searching.{counted_inputs, counted_rounds};
ghost use Rattle.nts_evaluation.specs.Solutions.{IsCoherence, ContainsEach, HasNoInputSolution};

use crate::evaluate::search;
use nts_canonical::CanonicalInput;
use nts_certainty::PathKind;
use nts_delegate::GoalHandler;
use nts_response::CanonicalResponse;
use nts_search::SearchGraph;
use nts_store::{EvalError, Fault};
use nts_terms::Cx;

/// Answers a canonical goal that a step of that kind asks, in a search whose stack is empty: at its root depth. `None` is no
/// solution: each candidate failed, or the engine's own way did; the handler denies the goal; the one type is no subtype of the
/// other; or a goal was refused that the subtype, or normalizing an alias, asks for. In coherence the answer contains each
/// solution of the input in which no alias is a value, and `None` says that it has none. A certain answer has a ranked proof of
/// what it says of the input. Afterwards the stack is empty again, no query took more rounds than the store's limit says, and the
/// counts of the search did not fall.
pub fn evaluate_input<H: GoalHandler>(
    graph: &mut SearchGraph,
    cx: &mut Cx,
    handler: &H,
    input: CanonicalInput,
    step_kind: PathKind,
) -> Result<Option<CanonicalResponse>, Fault>
    requires search { IsSearch cx.old graph.old (graph.old.root_depth + 1) }
    requires input { IsQueryInput cx.old.nodes input }
    requires ready { H.ready cx.old.nodes handler.now }
    ensures searches { Searches cx.old cx.new graph.old graph.new }
    ensures counted { IfOk result (λ _. 0 < cx.old.round_limit →
        (0 < counted_rounds graph.new) × (0 < counted_inputs graph.new)) }
    ensures grows { Grows cx.old cx.new }
    ensures fits { IfOk result (λ o. IfSome o (IsAnswerTo cx.new.nodes (kinds_of input))) }
    ensures proved { (let h = H.handler cx.old.nodes handler.now in IfOk result (λ o. IfSome o (λ r.
        r.value.certainty ≡ certainty.Yes → IsInputProved
        (meaning h (variances_in cx.old.declarations)) cx.old.nodes input cx.new.nodes r))) }
    ensures told { IfOk result (λ o. IfSome o (IsQueryTold (ruling_in H.handler cx.old handler.now)
        (mode_of input.typing_mode) cx.old.nodes input cx.new.nodes)) }
    ensures refuted { IfOk result (λ o. IsNone o → IsQueryRefuted
        (ruling_in H.handler cx.old handler.now) (mode_of input.typing_mode) cx.old.nodes input) }
    ensures contains { (let h = H.handler cx.old.nodes handler.now in IsCoherence
        input.typing_mode → IfOk result (λ o. IfSome o (λ r. ContainsEach h
        (form_of cx.old.nodes input) (response_at cx.new.nodes r)))) }
    ensures none { (let h = H.handler cx.old.nodes handler.now in IsCoherence
        input.typing_mode → IfOk result (λ o. IsNone o → HasNoInputSolution h
        (form_of cx.old.nodes input))) }
{
    cx.terms_are_formed();
    let depth = graph.root_depth;
    let input = Box::new(cx.alloc, input)?;
    match search(cx, handler, graph, input, step_kind, depth) {
        Ok(answer) => Ok(Some(Box::into_inner(answer))),
        Err(EvalError::NoSolution) => Ok(None),
        Err(EvalError::Memory) => Err(Fault::Memory),
        Err(EvalError::Full) => Err(Fault::Full),
    }
}
