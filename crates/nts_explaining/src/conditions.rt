//! Which condition of a candidate is in the way.
ghost use Rattle.std.specs.Prelude.{◌+◌, length, IfOk};
ghost use Rattle.nts_table.specs.Tables.{IsTable};
ghost use Rattle.nts_evaluation.specs.nts_meaning.specs.Evaluation.{IsPosed, Runs};
ghost use Rattle.nts_evaluation.specs.nts_trying.specs.Stepping.{ArePosed};
ghost use Rattle.nts_explaining.specs.Asking.{IsWithin};

use nts_certainty::{Certainty, GoalSource};
use nts_delegate::GoalHandler;
use nts_evaluation::nts_search::{CurrentGoalKind, SearchGraph};
use nts_evaluation::nts_trying::AvailableDepth;
use nts_evaluation::try_evaluate_goals;
use nts_posing::pose_asked;
use nts_store::EvalError;
use nts_table::InferCtxt;
use nts_terms::{Cx, Goal};

/// What asking the conditions of a candidate comes to.
#[derive(Clone, Copy)]
pub(crate) enum Outcome {
    /// Each is certain.
    Certain,
    /// The one of this number is the first in doubt.
    Doubtful(usize, Certainty),
    /// The one of this number has no solution.
    Refused(usize),
}

/// What a pass over the conditions comes to.
#[derive(Clone, Copy)]
struct Pass {
    outcome: Outcome,
    /// Whether something was found out of a variable.
    has_changed: bool,
}

/// Asks the conditions in order, and again as long as one is in doubt and something was found out of a variable, or as often as
/// the store's limit says. That one has no solution ends it.
pub(crate) fn ask_conditions<H: GoalHandler>(
    table: &mut InferCtxt,
    cx: &mut Cx,
    handler: &H,
    kind: CurrentGoalKind,
    goals: &[(GoalSource, Goal)],
) -> Result<Outcome, EvalError>
    requires table { IsTable cx.old.nodes table.old }
    requires posed { ArePosed cx.old.nodes table.old goals.now }
    requires ready { H.ready cx.old.nodes handler.now }
    ensures runs { Runs cx.old cx.new table.old table.new }
    ensures within { IfOk result (IsWithin (length goals.now)) }
{
    let mut pass = ask_each(table, cx, handler, kind, goals)?;
    for _ in 1..cx.step_limit() {
        if !goes_on(pass) {
            return Ok(pass.outcome);
        }
        pass = ask_each(table, cx, handler, kind, goals)?;
    }
    Ok(pass.outcome)
}

/// Whether another pass may come to more.
fn goes_on(pass: Pass) -> bool {
    match pass.outcome {
        Outcome::Doubtful(_, _) => pass.has_changed,
        _ => false,
    }
}

/// Asks each condition once, in order, until one has no solution.
fn ask_each<H: GoalHandler>(
    table: &mut InferCtxt,
    cx: &mut Cx,
    handler: &H,
    kind: CurrentGoalKind,
    goals: &[(GoalSource, Goal)],
) -> Result<Pass, EvalError>
    requires table { IsTable cx.old.nodes table.old }
    requires posed { ArePosed cx.old.nodes table.old goals.now }
    requires ready { H.ready cx.old.nodes handler.now }
    ensures runs { Runs cx.old cx.new table.old table.new }
    ensures within { IfOk result (λ p. IsWithin (length goals.now) p.outcome) }
{
    let mut pass = Pass {
        outcome: Outcome::Certain,
        has_changed: false,
    };
    for number in 0..goals.len() {
        let asked = ask(table, cx, handler, kind, goals[number])?;
        if asked.certainty.is_none() {
            return Ok(Pass {
                outcome: Outcome::Refused(number),
                has_changed: true,
            });
        }
        pass = after(pass, number, asked);
    }
    Ok(pass)
}

/// What a pass comes to once one more condition was asked. The first doubt stays.
fn after(pass: Pass, number: usize, asked: Asked) -> Pass
    requires { IsWithin number pass.outcome }
    ensures { IsWithin (number + 1) result.outcome }
{
    let has_changed = pass.has_changed || asked.has_changed;
    match (pass.outcome, asked.certainty) {
        (Outcome::Certain, Some(Certainty::Maybe(info))) => Pass {
            outcome: Outcome::Doubtful(number, Certainty::Maybe(info)),
            has_changed,
        },
        (outcome, _) => Pass {
            outcome,
            has_changed,
        },
    }
}

/// What asking one condition comes to.
#[derive(Clone, Copy)]
struct Asked {
    /// How certain it is, or nothing if it has no solution.
    certainty: Option<Certainty>,
    /// Whether something was found out of its variables.
    has_changed: bool,
}

/// Asks one condition, in a search of its own, as deep as the store's limit says: in coherence as what stands for it there, and in doubt
/// if an alias stays in it.
fn ask<H: GoalHandler>(
    table: &mut InferCtxt,
    cx: &mut Cx,
    handler: &H,
    kind: CurrentGoalKind,
    goal: (GoalSource, Goal),
) -> Result<Asked, EvalError>
    requires posed { IsPosed cx.old.nodes table.old goal.1 }
    requires ready { H.ready cx.old.nodes handler.now }
    ensures runs { Runs cx.old cx.new table.old table.new }
{
    let depth = cx.recursion_limit();
    let mut graph = SearchGraph::new(cx.alloc, depth);
    let mut goals = Vec::new(cx.alloc);
    goals.push(goal)?;
    let kept = pose_asked(table, cx, goal.1, kind, &mut goals)?;
    let mut steps = 0;
    let answer = try_evaluate_goals(
        table,
        cx,
        handler,
        &mut graph,
        &mut goals,
        kind,
        AvailableDepth::Below(depth),
        &mut steps,
    );
    match answer {
        Ok(certainty) => Ok(Asked {
            certainty: Some(certainty.and(kept)),
            has_changed: steps > 1,
        }),
        Err(EvalError::NoSolution) => Ok(Asked {
            certainty: None,
            has_changed: true,
        }),
        Err(error) => Err(error),
    }
}
