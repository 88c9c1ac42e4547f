//! A goal that is asked of a search of its own, which counts what it took.
ghost use Rattle.nts_table.specs.Tables.{IsTable};
ghost use Rattle.nts_terms.specs.Handles.{HoldsGoal};
ghost use Rattle.nts_delegate.specs.Clauses.{AreClausesReady};

use crate::clone::add_rule_of_vec;
use next_trait_solver::clauses::Clauses;
use next_trait_solver::search_graph::{SearchGraph, evaluate_goal, query_of};
use next_trait_solver::solve::goal_is_admitted;
use next_trait_solver::ty::{
    Certainty, Cx, EvalError, Goal, InferCtxt, PathKind, Sort, TypingMode, Variance,
};
use std::alloc::Global;

/// What a goal is answered, and what its search counted.
#[derive(Clone, Copy, Debug)]
pub struct Counted {
    /// `None` is no solution.
    pub certainty: Option<Certainty>,
    /// How many inputs stood on the stack at most.
    pub most_inputs: usize,
    /// How many rounds a query took at most.
    pub most_rounds: usize,
}

/// Asks a goal in a search with eight levels, or answers nothing where the goal may not be asked.
#[tactic(auto, using(nts_asking::proofs::Asking::asking))]
fn ask_in_a_search(
    cx: &mut Cx,
    rules: &Clauses,
    table: &InferCtxt,
    goal: Goal,
) -> Result<Option<Counted>, EvalError>
    requires table { IsTable cx.old.nodes table.now }
    requires holds { HoldsGoal cx.old.nodes goal }
    requires ready { AreClausesReady cx.old.nodes rules.now }
{
    if !goal_is_admitted(table, cx, goal)? {
        return Ok(None);
    }
    let (_, input) = query_of(table, cx, goal)?;
    let mut graph = SearchGraph::new(cx.alloc, 8);
    let answer = evaluate_goal(&mut graph, cx, rules, input, PathKind::Unknown)?;
    let certainty = match &answer {
        Some(response) => Some(response.value.certainty),
        None => None,
    };
    Ok(Some(Counted {
        certainty,
        most_inputs: graph.most_inputs(),
        most_rounds: graph.most_rounds(),
    }))
}

/// Asks whether a new variable is `Auto`.
#[tactic(auto, using(nts_asking::proofs::Asking::asking, nts_terms::proofs::Moved::growth))]
fn grow(
    table: &mut InferCtxt,
    cx: &mut Cx,
    rules: &mut Clauses,
) -> Result<Option<Counted>, EvalError>
    requires table { IsTable cx.old.nodes table.old }
    requires ready { AreClausesReady cx.old.nodes rules.old }
{
    let auto = cx.declare_trait(&[Sort::Ty])?;
    let vec = cx.declare_ctor(&[Sort::Ty], &[Variance::Covariant])?;
    rules.set_coinductive(auto)?;
    let any = table.next_ty_infer(cx)?;
    if !add_rule_of_vec(cx, rules, auto, vec)? {
        return Ok(None);
    }
    if !cx.holds(any) {
        return Ok(None);
    }
    let Some(predicate) = cx.trait_predicate(auto, &[any.into()])? else {
        return Ok(None);
    };
    let param_env = cx.mk_env(&[])?;
    let goal = Goal {
        param_env,
        predicate,
    };
    ask_in_a_search(cx, rules, table, goal)
}

/// Asks whether an unknown type is `Auto`, where `Vec(T)` is for each `T` that is, and cycles hold: each round answers one `Vec`
/// more than the one before.
pub fn growing_answer(alloc: Global) -> Result<Option<Counted>, EvalError> {
    let mut cx = Cx::new(alloc);
    let mut table = InferCtxt::new(alloc, TypingMode::PostAnalysis);
    let mut rules = Clauses::new(alloc);
    grow(&mut table, &mut cx, &mut rules)
}
