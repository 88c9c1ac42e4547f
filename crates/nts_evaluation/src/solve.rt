//! The evaluation of goals.
ghost use Rattle.std.specs.Prelude.{◌+◌, ◌≡◌, ◌≢◌, ◌↔◌, Bool, true, All, IsTrue, IfOk, IfSome, OnOk, OnErr, IsOkUnless};
ghost use Rattle.nts_model.specs.Derivations.Handlers.{meaning, HasNoCoinductiveTrait, HasNoLeaks};
ghost use Rattle.nts_store.specs.Growth.{Extends};
ghost use Rattle.nts_table.specs.Tables.{IsTable};
ghost use Rattle.nts_terms.specs.Modes.{mode_of};
ghost use Rattle.nts_terms.specs.Signatures.{variances_in};
ghost use Rattle.nts_meaning.specs.Running.{HasRankedProofIn, HasFallingProofIn};
ghost use Rattle.nts_terms.specs.Handles.{HoldsArg, HoldsGoal};
ghost use Rattle.nts_meaning.specs.Evaluation.{Runs, IsAdmitted, IsPosed, IsGoalUnder};
ghost use Rattle.nts_meaning.specs.Meant.{rules_of, ruling_in, ruling_since, Always, IsProvedSince, EvaluatesUnder, IsRefusedUnder};
ghost use Rattle.nts_certainty.specs.declared.certainty.Certainty.TheVariants as certainty;
ghost use Rattle.nts_terms.specs.Rest.{Grows};
ghost use Rattle.nts_asking.specs.Stalled.{StillStalls, IsNotStalled};
ghost use Rattle.nts_asking.specs.Stalling.{Keeps};
ghost use Rattle.nts_evaluation.specs.Skipping.{IsSkipped};
ghost use Rattle.nts_evaluation.specs.Deciding.{IsDeterminate, IsFact, IsOnlyFact, MayAnswer, IsAsDecided};
ghost use Rattle.nts_evaluation.specs.Solutions.{IsCoherence, HasNoSolutionUnder, KeepsSolutionsUnder};

use crate::evaluate::evaluate_goal;
use nts_asking::{
    GoalStalledOn, asked_goal, is_asked, is_root_term, is_settled_env, keep_stalled, still_stalled,
};
use nts_certainty::{Certainty, HasChanged, PathKind};
use nts_delegate::GoalHandler;
use nts_meaning::Evaluated;
use nts_search::SearchGraph;
use nts_store::{EvalError, Fault};
use nts_table::InferCtxt;
use nts_terms::{Cx, Goal, Span};

/// What an evaluation found out.
#[derive(Debug, Drop)]
pub struct GoalEvaluation {
    /// The goal as it was asked, its variables resolved. One that was skipped is as it was handed in.
    pub goal: Goal,
    pub certainty: Certainty,
    /// Whether the table knows more of the goal's variables than before.
    pub has_changed: HasChanged,
    /// What is kept of a goal in doubt of which nothing changed, so that it is asked again only where that can help.
    pub stalled_on: Option<GoalStalledOn>,
}

/// Whether a goal may be asked at the root.
pub fn goal_is_admitted(table: &InferCtxt, cx: &mut Cx, goal: Goal) -> Result<bool, Fault>
    requires table { IsTable cx.old.nodes table.now }
    requires holds { HoldsGoal cx.old.nodes goal }
    ensures admitted { IfOk result (λ b. IsTrue b ↔ IsAdmitted cx.old.nodes table.now goal) }
    ensures grows { Grows cx.old cx.new }
    ensures memory { IsOkUnless result Fault.Memory }
{
    let env = goal.param_env.node;
    let predicate = goal.predicate.node;
    if !is_root_term(table, cx, env)? || !is_root_term(table, cx, predicate)? {
        return Ok(false);
    }
    if !is_asked(cx, predicate)? {
        return Ok(false);
    }
    is_settled_env(table, cx, env)
}

/// Evaluates a goal in the table, with the store's recursion limit as depth. The goal, resolved, is asked in a query of its own,
/// and the response is applied to its leaves: nothing else is added to the table. The answer is certain exactly if the query's
/// is. Where it is yes, the goal has a ranked proof, whatever cycles were met: each of its steps leads to a lower rank, or is
/// coinductive. Each candidate is asked to its end: the response says nothing new, or it is the one that stands for those of
/// all candidates that did not fail. One that is in doubt leaves no region constraints. `NoSolution` says that each candidate, or
/// the engine's own way, failed: its equations can't be met, or a goal that it asks for was refused; that the handler denies the
/// goal; that the one type is no subtype of the other; that a goal was refused which the subtype, or normalizing an alias, asks
/// for; or that no solution of the table grants the response. A goal that a finite tree of goals decides, no higher than the recursion limit, is answered as it is decided, yes or
/// no, whatever the rules say of other goals. A goal with a fact, variables or not, is not refused, and where no other candidate
/// can be met it is answered yes: a candidate without goals is a fact if it is offered and a world of the table meets it. After an
/// error the table is as it was. A fault is want of memory, or `Full` where a universe above the greatest is asked for.
///
/// Where `stalled_on` has what an earlier answer kept of the goal, and by that it would only stall again, it is not asked but
/// skipped: the doubt that was kept is answered once more, nothing is touched, and no memory is taken. What is said of goals that
/// are asked is not said of it then.
pub fn evaluate_root_goal<H: GoalHandler>(
    table: &mut InferCtxt,
    cx: &mut Cx,
    handler: &H,
    goal: Goal,
    span: Span,
    stalled_on: Option<GoalStalledOn>,
) -> Result<GoalEvaluation, EvalError>
    requires table { IsTable cx.old.nodes table.old }
    requires ready { H.ready cx.old.nodes handler.now }
    requires admitted { IsAdmitted cx.old.nodes table.old goal }
    requires stalled { IfSome stalled_on (λ s. All (λ a. HoldsArg cx.old.nodes a)
        s.stalled_vars.items) }
    ensures runs { Runs cx.old cx.new table.old table.new }
    ensures skipped { IfSome stalled_on (λ s. StillStalls cx.old table.old s → IsSkipped cx.old
        cx.new table.old table.new goal s result) }
    ensures goal { IsNotStalled cx.old table.old stalled_on → IfOk result (λ e. IsGoalUnder
        cx.old.nodes cx.new.nodes table.old goal e.goal) }
    ensures evaluates { IsNotStalled cx.old table.old stalled_on → IfOk result (λ e. EvaluatesUnder
        (ruling_in H.handler cx.old handler.now) table.old.mode cx.old.nodes table.old cx.new.nodes
        table.new goal e.certainty e.has_changed) }
    ensures kept { IsNotStalled cx.old table.old stalled_on → IfOk result (λ e. Keeps cx.new.nodes
        table.new.entries e.goal e.certainty e.has_changed e.stalled_on) }
    ensures err { OnErr result (table.new ≡ table.old) }
    ensures proved { IfOk result (λ e. e.certainty ≡ certainty.Yes → HasRankedProofIn
        (meaning (H.handler cx.old.nodes handler.now) (variances_in cx.old.declarations))
        (mode_of table.old.mode) cx.new.nodes table.new goal) }
    ensures falls { (let h = H.handler cx.old.nodes handler.now in HasNoCoinductiveTrait h →
        IfOk result (λ e. e.certainty ≡ certainty.Yes → HasFallingProofIn (meaning h (variances_in
        cx.old.declarations)) (mode_of table.old.mode) cx.new.nodes table.new goal)) }
    ensures refuted { result ≡ Err EvalError.NoSolution → IsRefusedUnder
        (ruling_in H.handler cx.old handler.now) table.old.mode cx.old.nodes table.old goal }
    ensures none { result ≡ Err EvalError.NoSolution → IsCoherence table.old.mode →
        HasNoSolutionUnder (H.handler cx.old.nodes handler.now) cx.old.nodes table.old goal }
    ensures keeps { IsCoherence table.old.mode →
        OnOk result (KeepsSolutionsUnder (H.handler cx.old.nodes handler.now) cx.old.nodes table.old
        cx.new.nodes table.new goal) }
    ensures decided { IsNotStalled cx.old table.old stalled_on → (b : Bool) → IsDeterminate
        (H.handler cx.old.nodes handler.now) table.old.mode cx.old.nodes table.old goal
        cx.old.recursion_limit b → MayAnswer (H.handler cx.old.nodes handler.now) cx.old →
        IsAsDecided b result (λ e. e.certainty ≡ certainty.Yes) }
    ensures fact { IsFact (H.handler cx.old.nodes handler.now) table.old.mode cx.old.nodes table.old
        goal → HasNoLeaks (H.handler cx.old.nodes handler.now) → result ≢ Err EvalError.NoSolution }
    ensures only_fact { IsNotStalled cx.old table.old stalled_on → IsOnlyFact
        (H.handler cx.old.nodes handler.now) table.old.mode cx.old.nodes table.old goal → MayAnswer
        (H.handler cx.old.nodes handler.now) cx.old → IsAsDecided true result (λ e. e.certainty ≡
        certainty.Yes) }
{
    let _ = span;
    if let Some(kept) = still_stalled(table, cx, stalled_on) {
        return Ok(GoalEvaluation {
            goal,
            certainty: Certainty::Maybe(kept.stalled_certainty),
            has_changed: HasChanged::No,
            stalled_on: Some(kept),
        });
    }
    cx.terms_are_formed();
    let depth = cx.recursion_limit();
    let evaluated = evaluate_root(table, cx, handler, goal, depth);
    cx.terms_are_formed();
    evaluated
}

/// Evaluates a goal, resolved, at that depth, as `evaluate_root_goal` does at that of the store.
pub fn evaluate_root<H: GoalHandler>(
    table: &mut InferCtxt,
    cx: &mut Cx,
    handler: &H,
    goal: Goal,
    depth: usize,
) -> Result<GoalEvaluation, EvalError>
    requires posed { IsPosed cx.old.nodes table.old goal }
    requires ready { H.ready cx.old.nodes handler.now }
    ensures runs { Runs cx.old cx.new table.old table.new }
    ensures goal { IfOk result (λ e. IsGoalUnder cx.old.nodes cx.new.nodes table.old goal e.goal) }
    ensures evaluates { Always (rules_of H.ready H.handler handler.now) cx.old (λ s.
        IfOk result (λ e. EvaluatesUnder (ruling_since (λ ts. H.handler ts handler.now) s)
        table.old.mode cx.old.nodes table.old cx.new.nodes table.new goal e.certainty
        e.has_changed)) }
    ensures kept { IfOk result (λ e. Keeps cx.new.nodes table.new.entries e.goal e.certainty
        e.has_changed e.stalled_on) }
    ensures err { OnErr result (table.new ≡ table.old) }
    ensures proved { Always (rules_of H.ready H.handler handler.now) cx.old (λ s. IfOk result (λ e.
        e.certainty ≡ certainty.Yes → IsProvedSince (λ ts. H.handler ts handler.now) s
        table.old.mode cx.new.nodes table.new goal)) }
    ensures refuted { Always (rules_of H.ready H.handler handler.now) cx.old (λ s.
        result ≡ Err EvalError.NoSolution → IsRefusedUnder
        (ruling_since (λ ts. H.handler ts handler.now) s) table.old.mode cx.old.nodes table.old
        goal) }
    ensures decided { Always (rules_of H.ready H.handler handler.now) cx.old (λ s. (b : Bool) →
        IsDeterminate (H.handler s.base handler.now) table.old.mode cx.old.nodes table.old goal
        depth b → MayAnswer (H.handler s.base handler.now) cx.old → IsAsDecided b result (λ e.
        e.certainty ≡ certainty.Yes)) }
    ensures only_fact { Always (rules_of H.ready H.handler handler.now) cx.old (λ s.
        IsOnlyFact (H.handler s.base handler.now) table.old.mode cx.old.nodes table.old goal →
        MayAnswer (H.handler s.base handler.now) cx.old → IsAsDecided true result (λ e.
        e.certainty ≡ certainty.Yes)) }
{
    let asked = asked_goal(table, cx, goal)?;
    let resolved = asked.goal;
    let mut graph = SearchGraph::new(cx.alloc, depth);
    let evaluated = evaluate_goal(
        table,
        cx,
        handler,
        &mut graph,
        resolved,
        PathKind::Unknown,
        depth,
    )?;
    let Evaluated {
        certainty,
        has_changed,
    } = evaluated;
    let stalled_on = keep_stalled(table, asked, certainty, has_changed);
    Ok(GoalEvaluation {
        goal: resolved,
        certainty,
        has_changed,
        stalled_on,
    })
}
