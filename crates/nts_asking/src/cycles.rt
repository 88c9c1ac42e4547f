//! What a cycle is answered, and answers that say nothing.
ghost use Rattle.std.specs.Prelude.{ℕ, suc, ◌≡◌, ◌<◌, ◌+◌, ◌-◌, ◌≢◌, ◌⊎◌, length, get_or, Option, Some, None, IfOk, IsOkUnless};
ghost use Rattle.nts_model.specs.Derivations.Proofs.{passed};
ghost use Rattle.nts_model.specs.Derivations.Sequents.{coinductive};
ghost use Rattle.nts_model.specs.Searching.Stacks.{IsUsable, path_kind};
ghost use Rattle.nts_model.specs.Answers.Responses.{answer_sequent};
ghost use Rattle.nts_terms.specs.Rest.{Grows};
ghost use Rattle.nts_candidates.specs.Offered.{path_kind_of};
ghost use Rattle.nts_canonical.specs.Alike.{AreOneInput};
ghost use Rattle.nts_canonical.specs.Building.{kinds_of};
ghost use Rattle.nts_canonical.specs.Forms.{form_of};
ghost use Rattle.nts_model.specs.Searching.Driving.{unconstrained};
ghost use Rattle.nts_meaning.specs.nts_response.specs.Forms.{response_at, HoldsResponse};
ghost use Rattle.nts_meaning.specs.nts_search.specs.declared.stack.StackEntry.{StackEntry};
ghost use Rattle.nts_meaning.specs.nts_search.specs.Searching.{entries_at};
ghost use Rattle.nts_meaning.specs.Answering.{IsQueryInput, IsAnswerTo, IfCertain, IfAnswered};
ghost use Rattle.nts_meaning.specs.Rounds.{IsBoxed};
ghost use Rattle.nts_meaning.specs.Searching.{IsSearch, Searches, IsCut, IsCopiedAnswer, IsReadAt, HasNoneAt, assumed_in};
ghost use Rattle.nts_theory.specs.Telling.{SaysNothing};

use nts_canonical::CanonicalInput;
use nts_certainty::{Certainty, PathKind};
use nts_meaning::nts_response::{CanonicalResponse, clone_response, response_no_constraints_raw};
use nts_meaning::nts_search::{SearchGraph, initial_provisional_result};
use nts_store::{EvalError, Fault};
use nts_terms::Cx;
use std::alloc::Global;

/// The positions of an input, in order, as values.
pub(crate) fn identity_answer(
    cx: &mut Cx,
    input: &CanonicalInput,
    certainty: Certainty,
) -> Result<CanonicalResponse, Fault>
    ensures response { IfOk result (λ r. response_at cx.new.nodes r ≡ record (unconstrained
        (kinds_of input.now)) { max_universe = input.now.canonical.max_universe }) }
    ensures holds { IfOk result (λ r. HoldsResponse cx.new.nodes r.value) }
    ensures certainty { IfOk result (λ r. r.value.certainty ≡ certainty) }
    ensures grows { Grows cx.old cx.new }
    ensures memory { IsOkUnless result Fault.Memory }
{
    let kinds = input.canonical.var_kinds.clone()?;
    response_no_constraints_raw(cx, input.canonical.max_universe, kinds, certainty)
}

/// An answer behind a box, or the error that says that there is none.
#[inline(never)]
pub fn answer_of(
    alloc: Global,
    answer: Option<CanonicalResponse>,
) -> Result<Box<CanonicalResponse>, EvalError>
    ensures some { (r : _) → answer ≡ Some r → IsBoxed r result }
    ensures none { answer ≡ None → result ≡ Err EvalError.NoSolution }
    ensures full { result ≢ Err EvalError.Full }
{
    match answer {
        Some(answer) => {
            let answer = Box::new(alloc, answer)?;
            Ok(answer)
        }
        None => Err(EvalError::NoSolution),
    }
}

/// Answers an input that stands on the stack already: what its head found in the round before, if the path to it passes a
/// coinductive step. The head must then be evaluated again, unless it finds the same. Other cycles are in doubt, and inductive ones
/// have no solution, unless in coherence.
#[inline(never)]
pub fn answer_cycle(
    cx: &mut Cx,
    graph: &mut SearchGraph,
    head: usize,
    input: &CanonicalInput,
    step: PathKind,
) -> Result<Box<CanonicalResponse>, EvalError>
    requires input { IsQueryInput cx.old.nodes input.now }
    requires head { head < length graph.old.stack.items }
    requires same { (d : StackEntry) →
        AreOneInput cx.old.nodes (get_or graph.old.stack.items head d).input input.now }
    requires search { (n : ℕ) × IsSearch cx.old graph.old n }
    ensures grows { Grows cx.old cx.new }
    ensures searches { Searches cx.old cx.new graph.old graph.new }
    ensures fits { IfAnswered result (IsAnswerTo cx.new.nodes (kinds_of input.now)) }
    ensures usable { IfCertain result (λ r. IsUsable (passed (path_kind_of step)
        (assumed_in cx.new.nodes graph.new)) (answer_sequent (form_of cx.old.nodes input.now)
        (response_at cx.new.nodes r))) }
    ensures some { IfAnswered result (λ r. IsReadAt graph.old.stack.items head r ⊎
        SaysNothing (kinds_of input.now) (response_at cx.new.nodes r)) }
    ensures read { path_kind (entries_at cx.old.nodes graph.old) (length graph.old.stack.items -
        suc head) (path_kind_of step) ≡ coinductive → IfAnswered result
        (IsReadAt graph.old.stack.items head) }
    ensures none { result ≡ Err EvalError.NoSolution → HasNoneAt graph.old.stack.items head ⊎
        IsCut cx.old.nodes graph.old (form_of cx.old.nodes input.now)
        input.now.typing_mode step }
    ensures full { result ≢ Err EvalError.Full }
{
    let kind = graph.path_kind(head, step);
    if kind == PathKind::Coinductive {
        let answer = copy_answer(&graph.stack[head].provisional)?;
        graph.read(head);
        return answer_of(cx.alloc, answer);
    }
    let answer = initial_provisional_result(cx, kind, input)?;
    answer_of(cx.alloc, answer)
}

/// The same answer once more.
fn copy_answer(answer: &Option<CanonicalResponse>) -> Result<Option<CanonicalResponse>, Fault>
    ensures copied { IfOk result (IsCopiedAnswer answer.now) }
    ensures memory { IsOkUnless result Fault.Memory }
{
    match answer {
        Some(response) => {
            let response = clone_response(response)?;
            Ok(Some(response))
        }
        None => Ok(None),
    }
}
