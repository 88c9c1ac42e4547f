//! What a round of a query begins and ends with. It stands behind boxes, since a round stands on the machine's stack while the
//! goals below it are evaluated.
ghost use Rattle.std.specs.Prelude.{◌≡◌, ◌≢◌, ◌<◌, ◌≤◌, ◌+◌, ◌++◌, ◌∷◌, [], ℕ, false, List, Option, Some, None, length, ◌⊎◌, IfOk, IfErr, OnOk, OnErr, IsOkUnless};
ghost use Rattle.nts_model.specs.Terms.Trees.{Tree};
ghost use Rattle.nts_terms.specs.Rest.{Grows};
ghost use Rattle.nts_canonical.specs.Forms.{HoldsQuery};
ghost use Rattle.nts_meaning.specs.nts_search.specs.declared.stack.StackEntry.{StackEntry};
ghost use Rattle.nts_meaning.specs.nts_search.specs.Searching.{HoldsAnswer, IsStack, KeepsRestOfGraph, with_round};
ghost use Rattle.nts_certainty.specs.Certainties.{overflowing};
ghost use Rattle.nts_canonical.specs.Building.{kinds_of};
ghost use Rattle.nts_meaning.specs.nts_response.specs.Forms.{response_at};
ghost use Rattle.nts_meaning.specs.Answering.{IsQueryInput, IsAnswerTo, IfAnswered};
ghost use Rattle.nts_theory.specs.Telling.{SaysNothing};
ghost use Rattle.nts_meaning.specs.Rounds.{IsTakenOff, EndsWith, IsBoxed};
ghost use Rattle.nts_asking.specs.Rounds.{rounds_before, IsFirstRound, IsNextRound};

use crate::cycles::{answer_of, identity_answer};
use nts_canonical::CanonicalInput;
use nts_certainty::{Certainty, PathKind};
use nts_meaning::nts_response::CanonicalResponse;
use nts_meaning::nts_search::{SearchGraph, StackEntry};
use nts_store::{EvalError, Fault};
use nts_terms::Cx;
use std::alloc::{AllocError, Global};

/// A query before a round. How many rounds it had is written here alone.
#[derive(Drop)]
pub struct Round {
    pub input: CanonicalInput,
    /// What a cycle back to it is answered in the round. `None` is no solution.
    pub provisional: Option<CanonicalResponse>,
    /// How many rounds of it ended before.
    before: usize,
}

/// A query after a round.
#[derive(Drop)]
pub struct Ended {
    /// What the round found. `None` is no solution.
    pub answer: Option<CanonicalResponse>,
    /// The query's entry, as it was taken off the stack.
    pub entry: StackEntry,
}

/// A query before its first round: a cycle back to it is answered yes, and says nothing.
#[inline(never)]
pub fn first_round(cx: &mut Cx, input: Box<CanonicalInput>) -> Result<Box<Round>, Fault>
    requires { IsQueryInput cx.old.nodes input.value }
    ensures first { IfOk result (λ a. IsFirstRound cx.new.nodes input.value a.value) }
    ensures grows { Grows cx.old cx.new }
    ensures memory { IsOkUnless result Fault.Memory }
{
    let answer = identity_answer(cx, &input, Certainty::Yes)?;
    let asked = Round {
        input: Box::into_inner(input),
        provisional: Some(answer),
        before: 0,
    };
    let asked = Box::new(cx.alloc, asked)?;
    Ok(asked)
}

/// Puts a query on the stack, for one more round, which is counted: so there are no more rounds than the store allows. After an
/// error the stack is as before.
#[inline(never)]
pub fn push_query(
    cx: &Cx,
    graph: &mut SearchGraph,
    asked: Box<Round>,
    step: PathKind,
) -> Result<(), AllocError>
    requires room { length graph.old.stack.items ≤ graph.old.root_depth }
    requires limit { rounds_before asked.value < cx.now.round_limit }
    ensures pushed { OnOk result ((e : Option ℕ) ×
        (graph.new.stack.items ≡ graph.old.stack.items ++ record {
          input = asked.value.input;
          step_kind = step;
          provisional = asked.value.provisional;
          round = rounds_before asked.value + 1;
          is_read = false;
          earlier =
              e;
        } ∷ [])) }
    ensures kept { OnOk result ((ts : List Tree) → IsStack ts graph.old →
        HoldsQuery ts asked.value.input.canonical.value → HoldsAnswer ts asked.value.provisional →
        IsStack ts graph.new) }
    ensures err { OnErr result (graph.new.stack.items ≡ graph.old.stack.items) }
    ensures err_kept { OnErr result ((ts : List Tree) → IsStack ts graph.old →
        IsStack ts graph.new) }
    ensures rest { KeepsRestOfGraph (with_round graph.old (rounds_before asked.value + 1))
        graph.new }
{
    let Round {
        input,
        provisional,
        before,
    } = Box::into_inner(asked);
    prove!(before < cx.round_limit());
    graph.push(input, step, provisional, before + 1)
}

/// Takes the newest query off the stack, after a round in which its table answered that. An error other than that there is no
/// solution ends the query.
#[inline(never)]
pub fn end_round(
    alloc: Global,
    graph: &mut SearchGraph,
    response: Result<Box<CanonicalResponse>, EvalError>,
) -> Result<Box<Ended>, EvalError>
    requires { 0 < length graph.old.stack.items }
    ensures off { (x : StackEntry) × IsTakenOff graph.old graph.new x ×
        IfOk result (λ z. z.value.entry ≡ x) }
    ensures answer { IfOk result (λ z. EndsWith response z.value.answer) }
    ensures no { result ≢ Err EvalError.NoSolution }
    ensures err { IfErr result (λ e. e ≡ EvalError.Memory ⊎ response ≡ Err e) }
{
    let entry = graph.pop();
    let answer = match response {
        Ok(answer) => Some(Box::into_inner(answer)),
        Err(EvalError::NoSolution) => None,
        Err(error) => return Err(error),
    };
    let ended = Box::new(alloc, Ended { answer, entry })?;
    Ok(ended)
}

/// What the last round found.
#[inline(never)]
pub fn last_answer(alloc: Global, ended: Box<Ended>) -> Result<Box<CanonicalResponse>, EvalError>
    ensures some { (r : _) → ended.value.answer ≡ Some r → IsBoxed r result }
    ensures none { ended.value.answer ≡ None → result ≡ Err EvalError.NoSolution }
    ensures full { result ≢ Err EvalError.Full }
{
    let Ended { answer, entry: _ } = Box::into_inner(ended);
    answer_of(alloc, answer)
}

/// What a query is answered that had as many rounds as may be: an overflow, which finds nothing out of its variables.
#[inline(never)]
pub fn overflow_answer(cx: &mut Cx, asked: &Round) -> Result<Box<CanonicalResponse>, Fault>
    requires limit { cx.old.round_limit ≤ rounds_before asked.now }
    requires input { IsQueryInput cx.old.nodes asked.now.input }
    ensures fits { IfAnswered result (IsAnswerTo cx.new.nodes (kinds_of asked.now.input)) }
    ensures nothing { IfAnswered result (λ r. SaysNothing (kinds_of asked.now.input)
        (response_at cx.new.nodes r)) }
    ensures certainty { IfAnswered result (λ r. r.value.certainty ≡ overflowing false) }
    ensures grows { Grows cx.old cx.new }
    ensures memory { IsOkUnless result Fault.Memory }
{
    let answer = identity_answer(cx, &asked.input, Certainty::overflow(false))?;
    let answer = Box::new(cx.alloc, answer)?;
    Ok(answer)
}

/// A query before the next round: a cycle back to it is answered what this one found.
#[inline(never)]
pub fn next_round(alloc: Global, ended: Box<Ended>) -> Result<Box<Round>, AllocError>
    ensures { IfOk result (λ a. IsNextRound ended.value a.value) }
{
    let Ended { answer, entry } = Box::into_inner(ended);
    let StackEntry { input, round, .. } = entry;
    let asked = Round {
        input,
        provisional: answer,
        before: round,
    };
    let asked = Box::new(alloc, asked)?;
    Ok(asked)
}
