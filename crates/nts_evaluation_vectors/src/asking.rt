//! Goals that are asked, and what is answered.
ghost use Rattle.std.specs.Prelude.{IfOk, OnOk, IfSome, IsTrue, All};
ghost use Rattle.nts_table.specs.Tables.{IsTable};
ghost use Rattle.nts_terms.specs.Handles.{HoldsArg, HoldsEnv, HoldsGoal, HoldsPredicate};
ghost use Rattle.nts_terms.specs.Rest.{Grows};

use crate::aliases::{Aliased, alias_statement};
use crate::own::{Own, own_of};
use crate::steps::{Of, outlives_of, predicate_of, types_of};
use nts_asking::GoalStalledOn;
use nts_certainty::{Certainty, HasChanged, MaybeCause, MaybeInfo, OpaqueTypesJank};
use nts_delegate::{Clauses, GoalHandler};
use nts_evaluation::{GoalEvaluation, evaluate_root_goal, goal_is_admitted};
use nts_fixtures::{Name, Names};
use nts_may_hold::{root_goal_may_hold_opaque_types_jank, root_goal_may_hold_with_depth};
use nts_model::Sort;
use nts_store::EvalError;
use nts_table::{InferCtxt, eager_resolve_vars};
use nts_terms::{Cx, GenericArg, GenericArgKind, Goal, ParamEnv, Predicate, Span, TyKind};
use std::process::Abort;

/// A goal.
#[derive(Clone, Copy)]
pub enum Wanted {
    /// That a trait holds, in an empty environment.
    Plain(Of),
    /// The same for each region, which the goal binds.
    EachRegion(Of),
    /// That a trait holds, where just that is assumed.
    Assumed(Of),
    /// That the first term outlives the second one, in an empty environment.
    Outlives(Name, Name),
    /// That the first type is a subtype of the second one, in an empty environment.
    Subtype(Name, Name),
    /// That the first type can be coerced to the second one, in an empty environment.
    Coerce(Name, Name),
    /// A statement of a kind that the engine answers by itself, in an empty environment.
    Says(Own),
    /// A statement about an alias, in an empty environment.
    Alias(Aliased),
    /// That a trait holds, where just that is assumed that the alias of the number 0 of the first type is the second one.
    WhereIs(Name, Name, Of),
    /// A statement about an alias, where just that is assumed of the alias of the first type and the second one.
    AliasWhereIs(Name, Name, Aliased),
    /// That the third term outlives the fourth one, where just that is assumed of the alias of the first type and the second one.
    OutlivesWhereIs(Name, Name, Name, Name),
}

/// What a goal is answered.
pub enum Answer {
    /// This certainty, and its variables changed or not. Something is kept of it exactly if it is in doubt, and nothing changed.
    Is(Certainty, HasChanged),
    /// It has no solution.
    Refused,
    /// Whether it may hold at this depth, and whether it is in no doubt for an opaque type.
    MayHold(usize, bool, bool),
    /// It is in doubt, and waits for one variable. What is kept of it is handed in when it is asked again.
    Stalls,
    /// It is skipped: what was kept of it is answered once more.
    Skipped,
    /// It is not skipped, and has no solution.
    AskedAgain,
    /// It may not be asked.
    NotAdmitted,
}

/// What is asked, and what is answered.
pub enum Asked {
    /// A goal is answered so.
    Goal(Wanted, Answer),
    /// Two variables of types come into one sub-unification class.
    Joins(usize, usize),
    /// The sub-unification class of the first variable has the second one as its root.
    SubRoot(usize, usize),
    /// The first term, with values and roots in place of its variables, is the second one.
    Resolves(Name, Name),
    /// The term's value is a constructor over arguments.
    Constructs(Name),
    /// The table has so many variables.
    Variables(usize),
    /// The table has so many region constraints.
    Constraints(usize),
}

/// A doubt that nothing else is known of.
pub const DOUBT: Certainty = Certainty::AMBIGUOUS;

/// That a goal is nested too deep.
pub const TOO_DEEP: Certainty = Certainty::Maybe(MaybeInfo {
    cause: MaybeCause::Overflow {
        suggest_increasing_limit: true,
        keep_constraints: false,
    },
    opaque_types_jank: OpaqueTypesJank::AllGood,
});

/// Asks one after the other.
#[tactic(auto, using(nts_asking::proofs::Asking::asking))]
pub fn ask_all<H: GoalHandler>(
    rt: &impl Abort,
    table: &mut InferCtxt,
    cx: &mut Cx,
    names: &Names,
    kept: &mut Option<GoalStalledOn>,
    handler: &H,
    asked: &[Asked],
)
    requires table { IsTable cx.old.nodes table.old }
    requires ready { H.ready cx.old.nodes handler.now }
    ensures table { IsTable cx.new.nodes table.new }
{
    for n in 0..asked.len() {
        let found = ask(table, cx, names, kept, handler, &asked[n]);
        assert!(rt; matches!(found, Ok(true)), "step {n}");
    }
}

#[tactic(auto, using(nts_asking::proofs::Asking::asking))]
fn ask<H: GoalHandler>(
    table: &mut InferCtxt,
    cx: &mut Cx,
    names: &Names,
    kept: &mut Option<GoalStalledOn>,
    handler: &H,
    asked: &Asked,
) -> Result<bool, EvalError>
    requires table { IsTable cx.old.nodes table.old }
    requires ready { H.ready cx.old.nodes handler.now }
    ensures table { OnOk result (IsTable cx.new.nodes table.new) }
    ensures ready { OnOk result (H.ready cx.new.nodes handler.now) }
{
    match asked {
        Asked::Goal(wanted, answer) => {
            let goal = goal_of(cx, names, *wanted)?;
            ask_goal(table, cx, handler, goal, kept, answer)
        }
        Asked::Joins(a, b) => joins(table, cx, *a, *b),
        Asked::SubRoot(a, root) => Ok(has_sub_root(table, cx, *a, *root)),
        Asked::Resolves(x, y) => resolves(table, cx, names, x, y),
        Asked::Constructs(x) => constructs(table, cx, names, x),
        Asked::Variables(count) => Ok(table.variable_count() == *count),
        Asked::Constraints(count) => Ok(table.constraint_count() == *count),
    }
}

/// Whether a goal is answered so.
fn ask_goal<H: GoalHandler>(
    table: &mut InferCtxt,
    cx: &mut Cx,
    handler: &H,
    goal: Goal,
    kept: &mut Option<GoalStalledOn>,
    answer: &Answer,
) -> Result<bool, EvalError>
    requires table { IsTable cx.old.nodes table.old }
    requires ready { H.ready cx.old.nodes handler.now }
    requires holds { HoldsGoal cx.old.nodes goal }
    ensures table { OnOk result (IsTable cx.new.nodes table.new) }
    ensures grows { Grows cx.old cx.new }
{
    match answer {
        Answer::Is(certainty, changed) => {
            answers(table, cx, handler, goal, Some((*certainty, *changed)))
        }
        Answer::Refused => answers(table, cx, handler, goal, None),
        Answer::MayHold(depth, deep, good) => {
            may_hold(table, cx, handler, goal, *depth, (*deep, *good))
        }
        Answer::Stalls => stalls(table, cx, handler, goal, kept),
        Answer::Skipped => again(table, cx, goal, kept, Some((DOUBT, HasChanged::No))),
        Answer::AskedAgain => again(table, cx, goal, kept, None),
        Answer::NotAdmitted => is_not_admitted(table, cx, goal),
    }
}

fn is_not_admitted(table: &InferCtxt, cx: &mut Cx, goal: Goal) -> Result<bool, EvalError>
    requires table { IsTable cx.old.nodes table.now }
    requires holds { HoldsGoal cx.old.nodes goal }
    ensures table { OnOk result (IsTable cx.new.nodes table.now) }
    ensures grows { Grows cx.old cx.new }
{
    Ok(!goal_is_admitted(table, cx, goal)?)
}

fn goal_of(cx: &mut Cx, names: &Names, wanted: Wanted) -> Result<Goal, EvalError>
    ensures holds { IfOk result (λ g. HoldsGoal cx.new.nodes g) }
    ensures grows { Grows cx.old cx.new }
{
    let predicate = predicate_wanted(cx, names, wanted)?;
    let param_env = env_wanted(cx, names, wanted, predicate)?;
    if !cx.holds(predicate) {
        return Err(EvalError::NoSolution);
    }
    Ok(Goal {
        param_env,
        predicate,
    })
}

/// What is assumed.
fn env_wanted(
    cx: &mut Cx,
    names: &Names,
    wanted: Wanted,
    predicate: Predicate,
) -> Result<ParamEnv, EvalError>
    requires { HoldsPredicate cx.old.nodes predicate }
    ensures holds { IfOk result (HoldsEnv cx.new.nodes) }
    ensures grows { Grows cx.old cx.new }
{
    match wanted {
        Wanted::Assumed(_) => Ok(cx.mk_env(&[predicate])?),
        Wanted::WhereIs(of, term, _)
        | Wanted::AliasWhereIs(of, term, _)
        | Wanted::OutlivesWhereIs(of, term, _, _) => {
            let assumed = alias_statement(cx, names, Aliased::Projects(of, term))?;
            Ok(cx.mk_env(&[assumed])?)
        }
        _ => Ok(cx.mk_env(&[])?),
    }
}

fn predicate_wanted(cx: &mut Cx, names: &Names, wanted: Wanted) -> Result<Predicate, EvalError>
    ensures holds { IfOk result (HoldsPredicate cx.new.nodes) }
    ensures grows { Grows cx.old cx.new }
{
    match wanted {
        Wanted::Plain(of) | Wanted::Assumed(of) | Wanted::WhereIs(_, _, of) => {
            predicate_of(cx, names, &[], of)
        }
        Wanted::EachRegion(of) => predicate_of(cx, names, &[Sort::Region], of),
        Wanted::Outlives(left, right) | Wanted::OutlivesWhereIs(_, _, left, right) => {
            outlives_of(cx, names, left, right)
        }
        Wanted::Subtype(a, b) => types_of(cx, names, false, a, b),
        Wanted::Coerce(a, b) => types_of(cx, names, true, a, b),
        Wanted::Says(own) => own_of(cx, names, own),
        Wanted::Alias(says) | Wanted::AliasWhereIs(_, _, says) => alias_statement(cx, names, says),
    }
}

/// What a goal is answered, with what was kept of it, or nothing where it has no solution.
#[tactic(auto, using(nts_asking::proofs::Asking::asking))]
fn evaluated<H: GoalHandler>(
    table: &mut InferCtxt,
    cx: &mut Cx,
    handler: &H,
    goal: Goal,
    kept: Option<GoalStalledOn>,
) -> Result<Option<GoalEvaluation>, EvalError>
    requires table { IsTable cx.old.nodes table.old }
    requires ready { H.ready cx.old.nodes handler.now }
    requires holds { HoldsGoal cx.old.nodes goal }
    ensures table { OnOk result (IsTable cx.new.nodes table.new) }
    ensures grows { Grows cx.old cx.new }
{
    if !goal_is_admitted(table, cx, goal)? || !is_of_store(cx, &kept) {
        return Err(EvalError::NoSolution);
    }
    match evaluate_root_goal(table, cx, handler, goal, Span(0), kept) {
        Ok(evaluation) => Ok(Some(evaluation)),
        Err(EvalError::NoSolution) => Ok(None),
        Err(error) => Err(error),
    }
}

/// Whether what was kept is of this store.
fn is_of_store(cx: &Cx, kept: &Option<GoalStalledOn>) -> bool
    ensures { IsTrue result → IfSome kept.now (λ s. All (λ a. HoldsArg cx.now.nodes a)
        s.stalled_vars.items) }
{
    match kept {
        None => true,
        Some(kept) => kept.is_of_store(cx),
    }
}

/// Whether a goal is answered so.
#[tactic(auto, using(nts_asking::proofs::Asking::asking))]
fn answers<H: GoalHandler>(
    table: &mut InferCtxt,
    cx: &mut Cx,
    handler: &H,
    goal: Goal,
    wanted: Option<(Certainty, HasChanged)>,
) -> Result<bool, EvalError>
    requires table { IsTable cx.old.nodes table.old }
    requires ready { H.ready cx.old.nodes handler.now }
    requires holds { HoldsGoal cx.old.nodes goal }
    ensures table { OnOk result (IsTable cx.new.nodes table.new) }
    ensures grows { Grows cx.old cx.new }
{
    let found = evaluated(table, cx, handler, goal, None)?;
    Ok(is_answer(&found, wanted))
}

/// Whether a goal is in doubt, and waits for one variable. What is kept of it takes the place of what was kept.
#[tactic(auto, using(nts_asking::proofs::Asking::asking))]
fn stalls<H: GoalHandler>(
    table: &mut InferCtxt,
    cx: &mut Cx,
    handler: &H,
    goal: Goal,
    kept: &mut Option<GoalStalledOn>,
) -> Result<bool, EvalError>
    requires table { IsTable cx.old.nodes table.old }
    requires ready { H.ready cx.old.nodes handler.now }
    requires holds { HoldsGoal cx.old.nodes goal }
    ensures table { OnOk result (IsTable cx.new.nodes table.new) }
    ensures grows { Grows cx.old cx.new }
{
    let found = evaluated(table, cx, handler, goal, None)?;
    let is_in_doubt = is_answer(&found, Some((DOUBT, HasChanged::No)));
    *kept = kept_of(found);
    Ok(is_in_doubt && waits_for_one(kept))
}

/// Whether a goal that is asked again, without rules, with what was kept of it, is answered so.
#[tactic(auto, using(nts_asking::proofs::Asking::asking))]
fn again(
    table: &mut InferCtxt,
    cx: &mut Cx,
    goal: Goal,
    kept: &mut Option<GoalStalledOn>,
    wanted: Option<(Certainty, HasChanged)>,
) -> Result<bool, EvalError>
    requires table { IsTable cx.old.nodes table.old }
    requires holds { HoldsGoal cx.old.nodes goal }
    ensures table { OnOk result (IsTable cx.new.nodes table.new) }
    ensures grows { Grows cx.old cx.new }
{
    let handler = Clauses::new(cx.alloc);
    let found = evaluated(table, cx, &handler, goal, kept.take())?;
    let is_wanted = is_answer(&found, wanted);
    *kept = kept_of(found);
    Ok(is_wanted)
}

/// Whether an answer is this one. Of a doubt something is kept, unless something changed.
fn is_answer(found: &Option<GoalEvaluation>, wanted: Option<(Certainty, HasChanged)>) -> bool {
    match (found, wanted) {
        (None, None) => true,
        (Some(found), Some((certainty, changed))) => {
            let stalls = certainty != Certainty::Yes && changed == HasChanged::No;
            found.certainty == certainty
                && found.has_changed == changed
                && found.stalled_on.is_some() == stalls
        }
        _ => false,
    }
}

fn kept_of(found: Option<GoalEvaluation>) -> Option<GoalStalledOn> {
    match found {
        Some(found) => found.stalled_on,
        None => None,
    }
}

/// Whether what is kept waits for one variable, which is its own sub root, and is in plain doubt.
fn waits_for_one(kept: &Option<GoalStalledOn>) -> bool {
    match kept {
        None => false,
        Some(kept) => {
            kept.num_opaques == 0
                && kept.stalled_vars.len() == 1
                && kept.sub_roots.len() == 1
                && Certainty::Maybe(kept.stalled_certainty) == DOUBT
        }
    }
}

/// Whether the two calls answer this: the first at that depth.
#[tactic(auto, using(nts_asking::proofs::Asking::asking))]
fn may_hold<H: GoalHandler>(
    table: &mut InferCtxt,
    cx: &mut Cx,
    handler: &H,
    goal: Goal,
    depth: usize,
    wanted: (bool, bool),
) -> Result<bool, EvalError>
    requires table { IsTable cx.old.nodes table.old }
    requires ready { H.ready cx.old.nodes handler.now }
    requires holds { HoldsGoal cx.old.nodes goal }
    ensures table { OnOk result (IsTable cx.new.nodes table.new) }
    ensures grows { Grows cx.old cx.new }
{
    if !goal_is_admitted(table, cx, goal)? {
        return Err(EvalError::NoSolution);
    }
    let deep = root_goal_may_hold_with_depth(table, cx, handler, depth, goal)?;
    if !goal_is_admitted(table, cx, goal)? {
        return Err(EvalError::NoSolution);
    }
    let good = root_goal_may_hold_opaque_types_jank(table, cx, handler, goal)?;
    Ok((deep, good) == wanted)
}

fn joins(table: &mut InferCtxt, cx: &Cx, a: usize, b: usize) -> Result<bool, EvalError>
    requires { IsTable cx.now.nodes table.old }
    ensures { OnOk result (IsTable cx.now.nodes table.new) }
{
    if a >= table.variable_count() || b >= table.variable_count() {
        return Ok(false);
    }
    table.sub_unify_ty_vids_raw(a, b)?;
    Ok(true)
}

fn has_sub_root(table: &InferCtxt, cx: &Cx, a: usize, root: usize) -> bool
    requires { IsTable cx.now.nodes table.now }
{
    a < table.variable_count() && table.sub_unification_table_root_var(a) == root
}

/// A term with values and roots in place of its variables.
fn value_of(table: &InferCtxt, cx: &mut Cx, names: &Names, x: &str) -> Result<GenericArg, EvalError>
    requires { IsTable cx.old.nodes table.now }
    ensures table { OnOk result (IsTable cx.new.nodes table.now) }
    ensures holds { IfOk result (HoldsArg cx.new.nodes) }
    ensures grows { Grows cx.old cx.new }
{
    let x = names.term(x)?;
    if !cx.holds(x) || !table.knows(cx, x)? {
        return Err(EvalError::NoSolution);
    }
    Ok(eager_resolve_vars(table, cx, x)?)
}

fn resolves(
    table: &InferCtxt,
    cx: &mut Cx,
    names: &Names,
    x: &str,
    y: &str,
) -> Result<bool, EvalError>
    requires { IsTable cx.old.nodes table.now }
    ensures table { OnOk result (IsTable cx.new.nodes table.now) }
    ensures grows { Grows cx.old cx.new }
{
    let value = value_of(table, cx, names, x)?;
    Ok(value == names.term(y)?)
}

fn constructs(table: &InferCtxt, cx: &mut Cx, names: &Names, x: &str) -> Result<bool, EvalError>
    requires { IsTable cx.old.nodes table.now }
    ensures table { OnOk result (IsTable cx.new.nodes table.now) }
    ensures grows { Grows cx.old cx.new }
{
    let value = value_of(table, cx, names, x)?;
    Ok(is_constructed(cx, value))
}

fn is_constructed(cx: &Cx, t: GenericArg) -> bool
    requires { HoldsArg cx.now.nodes t }
{
    match t.kind(cx) {
        GenericArgKind::Type(ty) => matches!(ty.kind(cx), TyKind::Ctor(_, _)),
        _ => false,
    }
}
