//! Goals of the engine's own kinds: what it answers by itself, and by what the handler judges.
ghost use Rattle.std.specs.Prelude.{◌≡◌, ◌↔◌, IsTrue, List, IfOk, IfSome, IsNone, IsOkUnless, map};
ghost use Rattle.nts_model.specs.Terms.Trees.{Tree};
ghost use Rattle.nts_model.specs.Derivations.Handlers.{Judgements};
ghost use Rattle.nts_terms.specs.Handles.{HoldsGoal};
ghost use Rattle.nts_terms.specs.Kinds.{StatementFits, ClauseFits, tree_of_statement, tree_of_clause};
ghost use Rattle.nts_terms.specs.Rest.{Grows};
ghost use Rattle.nts_trying.specs.declared.own.OwnGoal.TheVariants as owns;
ghost use Rattle.nts_trying.specs.Owning.{tree_of_own, OwnFits, IsOwnGoal, IsOwnStatement, SaysOwn, IsPlainGoal, IsPlainWay, misc_goal, IsJudgedBy, IsJudgedSo, IsAllJudged, IsAllJudgedSo};

use crate::outlives::is_closed_env;
use nts_certainty::{Certainty, GoalSource, RerunCondition};
use nts_delegate::{CandidateData, CandidateGoal, Equation, EquationKind, GoalHandler};
use nts_store::Fault;
use nts_terms::{
    ClauseKind, Const, ConstKind, Cx, GenericArg, Goal, PredicateKind, Term, TraitId, Ty,
};
use std::alloc::{AllocError, Global};

/// What a goal says that the engine answers by itself.
#[derive(Clone, Copy)]
pub enum OwnGoal {
    /// Objects of the trait can be made.
    DynCompatible(TraitId),
    /// The environment allows the unstable feature.
    UnstableFeature(u32),
    /// The const can be evaluated.
    ConstEvaluatable(Const),
    /// The const has the type.
    ConstArgHasType(Const, Ty),
    /// The type or const is well formed.
    WellFormed(Term),
}

/// What is known of such a goal.
#[derive(Drop)]
pub enum Judged {
    /// It holds.
    Yes,
    /// It does not.
    No,
    /// It holds where this candidate does, and in no other way.
    Way(Box<CandidateData>),
    /// Nothing: it is ambiguous.
    Unknown,
}

/// What a statement says that the engine answers by itself.
fn own_of(statement: PredicateKind) -> Option<OwnGoal>
    ensures found { IfSome result (λ o. (ts : List Tree) → tree_of_statement ts statement ≡
        tree_of_own ts o) }
    ensures fits { IfSome result (λ o. (ts : List Tree) → StatementFits ts statement →
        OwnFits ts o) }
    ensures none { IsNone result → (ts : List Tree) →
        IsOwnStatement (tree_of_statement ts statement) → ⊥ }
{
    match statement {
        PredicateKind::DynCompatible(id) => Some(OwnGoal::DynCompatible(id)),
        PredicateKind::Clause(clause) => own_of_clause(clause),
        _ => None,
    }
}

fn own_of_clause(clause: ClauseKind) -> Option<OwnGoal>
    ensures found { IfSome result (λ o. (ts : List Tree) → tree_of_clause ts clause ≡ tree_of_own ts
        o) }
    ensures fits { IfSome result (λ o. (ts : List Tree) → ClauseFits ts clause → OwnFits ts o) }
    ensures none { IsNone result → (ts : List Tree) →
        IsOwnStatement (tree_of_clause ts clause) → ⊥ }
{
    match clause {
        ClauseKind::UnstableFeature(symbol) => Some(OwnGoal::UnstableFeature(symbol)),
        ClauseKind::ConstEvaluatable(ct) => Some(OwnGoal::ConstEvaluatable(ct)),
        ClauseKind::ConstArgHasType(ct, ty) => Some(OwnGoal::ConstArgHasType(ct, ty)),
        ClauseKind::WellFormed(term) => Some(OwnGoal::WellFormed(term)),
        _ => None,
    }
}

/// What a goal says that the engine answers by itself, where it binds nothing, and neither it nor its environment has a bound
/// variable that is without its binder.
#[inline(never)]
pub fn own_goal_in(cx: &Cx, goal: Goal) -> Option<OwnGoal>
    requires { HoldsGoal cx.now.nodes goal }
    ensures { SaysOwn cx.now.nodes goal result }
{
    let predicate = goal.predicate.kind(cx);
    let own = own_of(predicate.value)?;
    if predicate.vars.len(cx) != 0 {
        return None;
    }
    if !goal.predicate.has_closed_statement(cx) {
        return None;
    }
    if !is_closed_env(cx, goal.param_env) {
        return None;
    }
    Some(own)
}

/// What is known of a goal of the engine's own kinds. The handler is asked of which traits objects can be made, what the
/// environment allows, how a const is evaluated, and by which goals a term is well formed. Where it affirms or denies the goal, that
/// is known; so is the one way of a goal that has one, where that relates no aliases.
#[inline(never)]
pub fn judge<H: GoalHandler>(
    cx: &mut Cx,
    handler: &H,
    goal: Goal,
    own: OwnGoal,
) -> Result<Judged, Fault>
    requires holds { HoldsGoal cx.old.nodes goal }
    requires plain { IsPlainGoal cx.old.nodes goal }
    requires own { IsOwnGoal cx.old.nodes goal own }
    requires ready { H.ready cx.old.nodes handler.now }
    ensures judged { IfOk result (IsJudgedSo (H.handler cx.new.nodes handler.now) cx.new.nodes
        goal) }
    ensures exact { IfOk result (IsAllJudgedSo (H.handler cx.new.nodes handler.now) cx.new.nodes
        goal) }
    ensures grows { Grows cx.old cx.new }
    ensures memory { IsOkUnless result Fault.Memory }
{
    cx.terms_are_formed();
    match own {
        OwnGoal::DynCompatible(id) => {
            if handler.trait_is_dyn_compatible(id) {
                return Ok(Judged::Yes);
            }
            Ok(Judged::No)
        }
        OwnGoal::UnstableFeature(symbol) => {
            if handler.may_use_unstable_feature(goal.param_env, symbol) {
                return Ok(Judged::Yes);
            }
            Ok(Judged::Unknown)
        }
        OwnGoal::ConstEvaluatable(ct) => judge_const(cx, handler, goal, ct),
        OwnGoal::ConstArgHasType(ct, ty) => judge_type(cx, goal, ct, ty),
        OwnGoal::WellFormed(term) => judge_term(cx, handler, goal, term),
    }
}

/// Whether a const can be evaluated: one that is none is, or needs not to be, and the handler says whether another one is.
fn judge_const<H: GoalHandler>(
    cx: &mut Cx,
    handler: &H,
    goal: Goal,
    ct: Const,
) -> Result<Judged, Fault>
    requires holds { HoldsGoal cx.old.nodes goal }
    requires own { IsOwnGoal cx.old.nodes goal (owns.ConstEvaluatable ct) }
    requires ready { H.ready cx.old.nodes handler.now }
    ensures judged { IfOk result (IsJudgedSo (H.handler cx.new.nodes handler.now) cx.new.nodes
        goal) }
    ensures exact { IfOk result (IsAllJudgedSo (H.handler cx.new.nodes handler.now) cx.new.nodes
        goal) }
    ensures grows { Grows cx.old cx.new }
    ensures memory { IsOkUnless result Fault.Memory }
{
    cx.terms_are_formed();
    match ct.kind(cx) {
        ConstKind::Param(_) => Ok(Judged::Yes),
        ConstKind::Placeholder(_) => Ok(Judged::Yes),
        ConstKind::Value { ty: _, bits: _ } => Ok(Judged::Yes),
        ConstKind::Error => Ok(Judged::Yes),
        ConstKind::Unevaluated(uv) => {
            let value = handler.evaluate_const(cx, goal.param_env, uv)?;
            if value.is_some() {
                return Ok(Judged::Yes);
            }
            Ok(Judged::Unknown)
        }
        _ => Ok(Judged::Unknown),
    }
}

/// Whether a const has a type: an error has each, and the type of a value has to be that one. Of other consts, and of values where an
/// alias stands in the goal, nothing is known.
fn judge_type(cx: &mut Cx, goal: Goal, ct: Const, ty: Ty) -> Result<Judged, Fault>
    requires holds { HoldsGoal cx.old.nodes goal }
    requires plain { IsPlainGoal cx.old.nodes goal }
    requires own { IsOwnGoal cx.old.nodes goal (owns.ConstArgHasType ct ty) }
    ensures judged { IfOk result (λ x. (j : Judgements) → IsJudgedBy j cx.new.nodes goal x) }
    ensures exact { IfOk result (λ x. (j : Judgements) → IsAllJudged j cx.new.nodes goal x) }
    ensures grows { Grows cx.old cx.new }
    ensures memory { IsOkUnless result Fault.Memory }
{
    cx.terms_are_formed();
    match ct.kind(cx) {
        ConstKind::Error => Ok(Judged::Yes),
        ConstKind::Value { ty: of, bits: _ } => {
            if cx.nodes.flags(goal.predicate.node).has_alias {
                return Ok(Judged::Unknown);
            }
            let mut equations = Vec::new(cx.alloc);
            equations.push(Equation {
                kind: EquationKind::Related,
                lhs: GenericArg { node: of.node },
                rhs: GenericArg { node: ty.node },
            })?;
            let way = plain_way(cx.alloc, equations, Vec::new(cx.alloc))?;
            Ok(Judged::Way(way))
        }
        _ => Ok(Judged::Unknown),
    }
}

/// Whether a term is well formed: the handler names the goals by which it is.
fn judge_term<H: GoalHandler>(
    cx: &mut Cx,
    handler: &H,
    goal: Goal,
    term: Term,
) -> Result<Judged, Fault>
    requires holds { HoldsGoal cx.old.nodes goal }
    requires plain { IsPlainGoal cx.old.nodes goal }
    requires own { IsOwnGoal cx.old.nodes goal (owns.WellFormed term) }
    requires ready { H.ready cx.old.nodes handler.now }
    ensures judged { IfOk result (IsJudgedSo (H.handler cx.new.nodes handler.now) cx.new.nodes
        goal) }
    ensures exact { IfOk result (IsAllJudgedSo (H.handler cx.new.nodes handler.now) cx.new.nodes
        goal) }
    ensures grows { Grows cx.old cx.new }
    ensures memory { IsOkUnless result Fault.Memory }
{
    let Some(named) = handler.well_formed_goals(cx, goal.param_env, term)? else {
        return Ok(Judged::Unknown);
    };
    cx.terms_are_formed();
    let goals = asked_plainly(cx.alloc, &named)?;
    let way = plain_way(cx.alloc, Vec::new(cx.alloc), goals)?;
    Ok(Judged::Way(way))
}

/// Goals that are asked for by their own sake.
fn asked_plainly(alloc: Global, goals: &[Goal]) -> Result<Vec<CandidateGoal>, AllocError>
    ensures { IfOk result (λ gs. gs.items ≡ map misc_goal goals.now) }
{
    goals
        .iter()
        .map(|goal| CandidateGoal {
            source: GoalSource::Misc,
            goal: *goal,
        })
        .collect(alloc)
}

/// A candidate that has no variables, and is certain where its equations and its goals hold.
fn plain_way(
    alloc: Global,
    equations: Vec<Equation>,
    goals: Vec<CandidateGoal>,
) -> Result<Box<CandidateData>, Fault>
    ensures plain { IfOk result (λ b. IsPlainWay b.value equations.items goals.items) }
    ensures memory { IsOkUnless result Fault.Memory }
{
    let way = CandidateData {
        fresh: Vec::new(alloc),
        equations,
        region_constraints: Vec::new(alloc),
        hidden_types: Vec::new(alloc),
        goals,
        certainty: Certainty::Yes,
        accesses: RerunCondition::Never,
    };
    let way = Box::new(alloc, way)?;
    Ok(way)
}
