//! Whether a goal may hold, asked without a trace in the table.
ghost use Rattle.std.specs.Prelude.{◌≡◌, ◌≢◌, ◌⊎◌, ◌↔◌, Bool, IsTrue, true, false, Ok, Err, IfOk};
ghost use Rattle.nts_certainty.specs.declared.certainty.Certainty.{Certainty as Sure};
ghost use Rattle.nts_model.specs.Derivations.Handlers.{HasNoLeaks};
ghost use Rattle.nts_table.specs.Tables.{IsTable};
ghost use Rattle.nts_terms.specs.Rest.{Grows};
ghost use Rattle.nts_evaluation.specs.nts_meaning.specs.Evaluation.{IsAdmitted, IsPosed};
ghost use Rattle.nts_evaluation.specs.nts_meaning.specs.Meant.{rules_of, ruling_in, ruling_since, Always, IsRefusedUnder};
ghost use Rattle.nts_certainty.specs.declared.certainty.Certainty.TheVariants as certainty;
ghost use Rattle.nts_evaluation.specs.Deciding.{IsDeterminate, IsFact, IsOnlyFact, MayAnswer, IsAsDecided};
ghost use Rattle.nts_evaluation.specs.Solutions.{IsCoherence, HasNoSolutionUnder, WasEvaluated, IsAllGood};

use nts_certainty::{Certainty, OpaqueTypesJank};
use nts_delegate::GoalHandler;
use nts_evaluation::evaluate_root;
use nts_store::{EvalError, Fault};
use nts_table::InferCtxt;
use nts_terms::{Cx, Goal};

/// Whether a goal may hold, where goals may be nested so deep. It is false only where an evaluation refuses the goal, as
/// `evaluate_root_goal` says it. In coherence no solution of the table, with no alias as a value, has a proof of the goal then. A
/// goal that a finite tree of goals decides, no higher than that depth, gets true for a yes and false for a no. A goal with a fact does not get false, and gets true where no other candidate can
/// be met. The table is as before. A fault is want of memory, or `Full` where a universe above the greatest is asked for.
pub fn root_goal_may_hold_with_depth<H: GoalHandler>(
    table: &mut InferCtxt,
    cx: &mut Cx,
    handler: &H,
    root_depth: usize,
    goal: Goal,
) -> Result<bool, Fault>
    requires table { IsTable cx.old.nodes table.old }
    requires ready { H.ready cx.old.nodes handler.now }
    requires admitted { IsAdmitted cx.old.nodes table.old goal }
    ensures same { table.new ≡ table.old }
    ensures grows { Grows cx.old cx.new }
    ensures held { result ≡ Ok true → (c : Sure) × WasEvaluated
        (ruling_in H.handler cx.old handler.now) table.old.mode cx.old.nodes table.old goal c }
    ensures refuted { result ≡ Ok false → IsRefusedUnder
        (ruling_in H.handler cx.old handler.now) table.old.mode cx.old.nodes table.old goal }
    ensures none { result ≡ Ok false → IsCoherence table.old.mode → HasNoSolutionUnder
        (H.handler cx.old.nodes handler.now) cx.old.nodes table.old goal }
    ensures decided { (b : Bool) → IsDeterminate (H.handler cx.old.nodes handler.now) table.old.mode
        cx.old.nodes table.old goal root_depth b → MayAnswer
        (H.handler cx.old.nodes handler.now) cx.old → IfOk result (λ r. r ≡ b) }
    ensures fact { IsFact (H.handler cx.old.nodes handler.now) table.old.mode cx.old.nodes table.old
        goal → HasNoLeaks (H.handler cx.old.nodes handler.now) → result ≢ Ok false }
    ensures only_fact { IsOnlyFact (H.handler cx.old.nodes handler.now) table.old.mode cx.old.nodes
        table.old goal → MayAnswer (H.handler cx.old.nodes handler.now) cx.old →
        IfOk result (λ r. r ≡ true) }
{
    cx.terms_are_formed();
    match evaluate_and_roll_back(table, cx, handler, goal, root_depth) {
        Ok(_) => Ok(true),
        Err(EvalError::NoSolution) => Ok(false),
        Err(EvalError::Memory) => Err(Fault::Memory),
        Err(EvalError::Full) => Err(Fault::Full),
    }
}

/// Whether a goal may hold, and is not in doubt for an opaque type that may stand for itself. It is true for a yes, and for a
/// doubt with `OpaqueTypesJank::AllGood`. The goal is evaluated at the store's recursion limit; a goal that a finite tree of goals
/// decides, no higher than that, gets true for a yes and false for a no; one with a fact, where no other candidate can be met, gets
/// true. The table is as before.
pub fn root_goal_may_hold_opaque_types_jank<H: GoalHandler>(
    table: &mut InferCtxt,
    cx: &mut Cx,
    handler: &H,
    goal: Goal,
) -> Result<bool, Fault>
    requires table { IsTable cx.old.nodes table.old }
    requires ready { H.ready cx.old.nodes handler.now }
    requires admitted { IsAdmitted cx.old.nodes table.old goal }
    ensures same { table.new ≡ table.old }
    ensures grows { Grows cx.old cx.new }
    ensures held { result ≡ Ok true → (c : Sure) × IsAllGood c × WasEvaluated
        (ruling_in H.handler cx.old handler.now) table.old.mode cx.old.nodes table.old goal c }
    ensures refuted { result ≡ Ok false → IsRefusedUnder (ruling_in H.handler cx.old handler.now)
        table.old.mode cx.old.nodes table.old goal ⊎ ((c : Sure) × (IsAllGood c → ⊥) × WasEvaluated
        (ruling_in H.handler cx.old handler.now) table.old.mode cx.old.nodes table.old goal c) }
    ensures decided { (b : Bool) → IsDeterminate (H.handler cx.old.nodes handler.now) table.old.mode
        cx.old.nodes table.old goal cx.old.recursion_limit b → MayAnswer
        (H.handler cx.old.nodes handler.now) cx.old → IfOk result (λ r. r ≡ b) }
    ensures only_fact { IsOnlyFact (H.handler cx.old.nodes handler.now) table.old.mode cx.old.nodes
        table.old goal → MayAnswer (H.handler cx.old.nodes handler.now) cx.old →
        IfOk result (λ r. r ≡ true) }
{
    cx.terms_are_formed();
    let depth = cx.recursion_limit();
    match evaluate_and_roll_back(table, cx, handler, goal, depth) {
        Ok(certainty) => Ok(is_all_good(certainty)),
        Err(EvalError::NoSolution) => Ok(false),
        Err(EvalError::Memory) => Err(Fault::Memory),
        Err(EvalError::Full) => Err(Fault::Full),
    }
}

/// Whether a certainty is a yes, or a doubt without jank of opaque types.
fn is_all_good(certainty: Certainty) -> bool
    ensures { IsTrue result ↔ IsAllGood certainty }
{
    match certainty {
        Certainty::Yes => true,
        Certainty::Maybe(info) => info.opaque_types_jank == OpaqueTypesJank::AllGood,
    }
}

/// How sure a goal is, evaluated at that depth. What the evaluation did to the table is taken back.
fn evaluate_and_roll_back<H: GoalHandler>(
    table: &mut InferCtxt,
    cx: &mut Cx,
    handler: &H,
    goal: Goal,
    depth: usize,
) -> Result<Certainty, EvalError>
    requires posed { IsPosed cx.old.nodes table.old goal }
    requires ready { H.ready cx.old.nodes handler.now }
    ensures same { table.new ≡ table.old }
    ensures grows { Grows cx.old cx.new }
    ensures evaluated { Always (rules_of H.ready H.handler handler.now) cx.old (λ s.
        IfOk result (WasEvaluated (ruling_since (λ ts. H.handler ts handler.now) s) table.old.mode
        cx.old.nodes table.old goal)) }
    ensures refuted { Always (rules_of H.ready H.handler handler.now) cx.old (λ s.
        result ≡ Err EvalError.NoSolution → IsRefusedUnder
        (ruling_since (λ ts. H.handler ts handler.now) s) table.old.mode cx.old.nodes table.old
        goal) }
    ensures decided { Always (rules_of H.ready H.handler handler.now) cx.old (λ s. (b : Bool) →
        IsDeterminate (H.handler s.base handler.now) table.old.mode cx.old.nodes table.old goal
        depth b → MayAnswer (H.handler s.base handler.now) cx.old → IsAsDecided b result (λ c.
        c ≡ certainty.Yes)) }
    ensures only_fact { Always (rules_of H.ready H.handler handler.now) cx.old (λ s.
        IsOnlyFact (H.handler s.base handler.now) table.old.mode cx.old.nodes table.old goal →
        MayAnswer (H.handler s.base handler.now) cx.old → IsAsDecided true result (λ c.
        c ≡ certainty.Yes)) }
{
    let snapshot = table.start_snapshot()?;
    let evaluated = evaluate_root(table, cx, handler, goal, depth);
    table.rollback_to(snapshot);
    Ok(evaluated?.certainty)
}
