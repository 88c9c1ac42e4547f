//! Answering a goal.
ghost use Rattle.std.specs.Prelude.{◌≡◌, All, None, Some, IfOk, OnOk};
ghost use Rattle.nts_table.specs.Tables.{IsTable};
ghost use Rattle.nts_terms.specs.Handles.{HoldsGoal};
ghost use Rattle.nts_delegate.specs.Clauses.{AreClausesReady};
ghost use Rattle.nts_evaluation.specs.nts_meaning.specs.Evaluation.{IsAdmitted};
ghost use Rattle.nts_certainty.specs.declared.certainty.Certainty.TheVariants as certainty;
ghost use Rattle.nts_program.specs.Proving.{IsProvedGoal, IsJustifiedAnswer};
ghost use Rattle.nts_wording.specs.Found.{IsKnownValue};
ghost use Rattle.nts_terms.specs.Rest.{Grows};

use nts_assembly::Assembly;
use nts_certainty::{Certainty, MaybeCause};
use nts_declaring::pose;
use nts_delegate::Clauses;
use nts_evaluation::{evaluate_root_goal, goal_is_admitted};
use nts_store::EvalError;
use nts_table::InferCtxt;
use nts_terms::{Cx, GenericArg, Goal, ParamEnv, Span};
use nts_text::{Mode, Resolved};
use nts_wording::{Answer, MISFIT, Stop, answer_of};

/// Asks a goal in this environment, or in the empty one, with its clauses and these as the rules.
#[tactic(auto, using(crate::proofs::Asking::asking))]
pub fn ask(
    cx: &mut Cx,
    clauses: &Clauses,
    env: Option<ParamEnv>,
    mode: Mode,
    nodes: &[Resolved],
) -> Result<Answer, Stop>
    requires ready { AreClausesReady cx.old.nodes clauses.now }
    ensures yes { IfOk result (IsJustifiedAnswer mode env nodes.now cx.old cx.new.nodes
        clauses.now) }
    ensures grows { Grows cx.old cx.new }
{
    let posed = pose(cx, env, mode, nodes)?;
    let mut table = posed.table;
    let values = posed.values;
    match evaluated(&mut table, cx, clauses, posed.goal, &values)? {
        None => Ok(Answer::No),
        Some(Certainty::Yes) => answer_of(&table, cx, posed.variables, &values),
        Some(Certainty::Maybe(info)) => match info.cause {
            MaybeCause::Ambiguity => Ok(Answer::Ambiguity),
            MaybeCause::Overflow { .. } => Ok(Answer::Overflow),
        },
    }
}

/// How sure it is that a goal holds, or `None` if it has no solution. The table then still knows
/// the goal's variables.
#[tactic(auto, using(crate::proofs::Asking::asking))]
fn evaluated(
    table: &mut InferCtxt,
    cx: &mut Cx,
    clauses: &Clauses,
    goal: Goal,
    values: &[GenericArg],
) -> Result<Option<Certainty>, Stop>
    requires table { IsTable cx.old.nodes table.old }
    requires ready { AreClausesReady cx.old.nodes clauses.now }
    requires holds { HoldsGoal cx.old.nodes goal }
    requires values { All (λ v. IsKnownValue cx.old.nodes table.old v) values.now }
    ensures grows { Grows cx.old cx.new }
    ensures table { OnOk result (IsTable cx.new.nodes table.new) }
    ensures values { OnOk result (All (λ v. IsKnownValue cx.new.nodes table.new v) values.now) }
    ensures admitted { IfOk result (λ _. IsAdmitted cx.old.nodes table.old goal) }
    ensures proved { IfOk result (λ o. o ≡ Some certainty.Yes →
        IsProvedGoal cx.old cx.new.nodes clauses.now table.new goal) }
    ensures none { IfOk result (λ o. o ≡ None → table.new ≡ table.old) }
    ensures mode { OnOk result (table.new.mode ≡ table.old.mode) }
{
    let _ = values.len();
    let admitted = goal_is_admitted(table, cx, goal)?;
    if !admitted {
        return Err(MISFIT);
    }
    let rules = Assembly::new(clauses);
    match evaluate_root_goal(table, cx, &rules, goal, Span(0), None) {
        Ok(evaluation) => Ok(Some(evaluation.certainty)),
        Err(EvalError::NoSolution) => Ok(None),
        Err(EvalError::Memory | EvalError::Full) => Err(Stop::Memory),
    }
}
