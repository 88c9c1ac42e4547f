//! Goals that say that one type is a subtype of another, or can be coerced to it.
ghost use Rattle.std.specs.Prelude.{◌≡◌, ◌≢◌, Err, IfOk, IfSome, IsNone, IsOkUnless, List};
ghost use Rattle.nts_model.specs.Terms.Trees.{Tree};
ghost use Rattle.nts_model.specs.Tables.Resolving.{Knows};
ghost use Rattle.nts_store.specs.Growth.{tree_at};
ghost use Rattle.nts_terms.specs.Kinds.{StatementFits, tree_of_statement};
ghost use Rattle.nts_terms.specs.Handles.{HoldsGoal, HoldsTy};
ghost use Rattle.nts_terms.specs.Modes.{mode_of};
ghost use Rattle.nts_terms.specs.Rest.{Grows};
ghost use Rattle.nts_terms.specs.Signatures.{variances_in};
ghost use Rattle.nts_unify.specs.Reading.{content_of};
ghost use Rattle.nts_table.specs.Tables.{IsTable};
ghost use Rattle.nts_theory.specs.Subtyping.{SaysSubtype, IsNoSubtype};
ghost use Rattle.nts_theory.specs.RelatingCandidates.{IsCutIn};
ghost use Rattle.nts_meaning.specs.Evaluation.{Runs, IsPosed};
ghost use Rattle.nts_trying.specs.Subtyping.{AreTypesIn, SaysTypes, IsSubtypeGoal, IsTypeVariable, AreTypeVariables, with_source, RelatesTypes, JoinsTypes, AreLeftOfTypes};

use crate::candidate::NO_PLACE;
use crate::outlives::is_closed_env;
use nts_certainty::GoalSource;
use nts_model::Variance;
use nts_solver_relating::RelateExt;
use nts_store::{EvalError, Fault};
use nts_table::InferCtxt;
use nts_terms::{Cx, Goal, InferTy, PredicateKind, Ty, TyKind, TypingMode};
use std::alloc::{AllocError, Global};

/// Two types, of which the first is said to be a subtype of the second, or to be coerced to it.
#[derive(Clone, Copy)]
pub struct TypePair {
    pub sub: Ty,
    pub sup: Ty,
}

/// The types of which a statement says so.
fn types_of(statement: PredicateKind) -> Option<TypePair>
    ensures found { IfSome result (λ p. (ts : List Tree) → SaysSubtype (tree_at ts p.sub.node)
        (tree_at ts p.sup.node) (tree_of_statement ts statement)) }
    ensures none { IsNone result → (ts : List Tree) (a b : Tree) → SaysSubtype a b
        (tree_of_statement ts statement) → ⊥ }
    ensures fits { IfSome result (λ p. (ts : List Tree) → StatementFits ts statement →
        AreTypesIn ts p) }
{
    match statement {
        PredicateKind::Subtype { a, b, .. } => Some(TypePair { sub: a, sup: b }),
        PredicateKind::Coerce { a, b } => Some(TypePair { sub: a, sup: b }),
        _ => None,
    }
}

/// The types of which a goal says so, where it binds nothing, and neither it nor its environment has a bound variable that is
/// without its binder.
#[inline(never)]
pub fn types_in(cx: &Cx, goal: Goal) -> Option<TypePair>
    requires { HoldsGoal cx.now.nodes goal }
    ensures { SaysTypes cx.now.nodes goal result }
{
    let predicate = goal.predicate.kind(cx);
    let types = types_of(predicate.value)?;
    if predicate.vars.len(cx) != 0 {
        return None;
    }
    if !goal.predicate.has_closed_statement(cx) {
        return None;
    }
    if !is_closed_env(cx, goal.param_env) {
        return None;
    }
    cx.terms_are_formed();
    Some(types)
}

/// The number of a type variable, if the type is one.
fn variable_of(cx: &Cx, ty: Ty) -> Option<usize>
    requires { HoldsTy cx.now.nodes ty }
    ensures { IsTypeVariable (tree_at cx.now.nodes ty.node) result }
{
    match ty.kind(cx) {
        TyKind::Infer(InferTy::TyVar(n)) => Some(n),
        _ => None,
    }
}

/// The numbers of two type variables, if the types are such as the table knows them.
fn variables_of(
    table: &InferCtxt,
    cx: &mut Cx,
    types: TypePair,
) -> Result<Option<(usize, usize)>, Fault>
    requires table { IsTable cx.old.nodes table.now }
    requires types { AreTypesIn cx.old.nodes types }
    requires sub { Knows (content_of cx.old.nodes table.now.entries)
        (tree_at cx.old.nodes types.sub.node) }
    requires sup { Knows (content_of cx.old.nodes table.now.entries)
        (tree_at cx.old.nodes types.sup.node) }
    ensures variables { IfOk result (AreTypeVariables (content_of cx.old.nodes table.now.entries)
        (tree_at cx.old.nodes types.sub.node) (tree_at cx.old.nodes types.sup.node)) }
    ensures grows { Grows cx.old cx.new }
    ensures memory { IsOkUnless result Fault.Memory }
{
    let sub = table.shallow_resolve(cx, types.sub)?;
    let sup = table.shallow_resolve(cx, types.sup)?;
    let Some(a) = variable_of(cx, sub) else {
        return Ok(None);
    };
    let Some(b) = variable_of(cx, sup) else {
        return Ok(None);
    };
    Ok(Some((a, b)))
}

/// Goals that relating left, each with the source that tells so.
pub(crate) fn relating_goals(
    alloc: Global,
    goals: &[Goal],
) -> Result<Vec<(GoalSource, Goal)>, AllocError>
    ensures { IfOk result (λ v. v.items ≡ with_source goals.now) }
{
    let mut left = Vec::with_capacity(alloc, goals.len())?;
    for goal in goals {
        left.push((GoalSource::TypeRelating, *goal))?;
    }
    Ok(left)
}

/// Relates two types in the table so that the first is a subtype of the second, and answers the goals that this leaves.
fn relate_pair(
    table: &mut InferCtxt,
    cx: &mut Cx,
    goal: Goal,
    types: TypePair,
) -> Result<Vec<(GoalSource, Goal)>, EvalError>
    requires posed { IsPosed cx.old.nodes table.old goal }
    requires types { IsSubtypeGoal cx.old.nodes goal types }
    ensures runs { Runs cx.old cx.new table.old table.new }
    ensures relates { IfOk result (λ gs. RelatesTypes cx.old cx.new table.old table.new goal types
        gs.items) }
    ensures no { result ≡ Err EvalError.NoSolution → IsNoSubtype
        (variances_in cx.old.declarations) (content_of cx.old.nodes table.old.entries)
        (tree_at cx.old.nodes goal.predicate.node) }
    ensures full { result ≢ Err EvalError.Full }
{
    let env = goal.param_env;
    let left = table.relate(cx, env, types.sub, Variance::Covariant, types.sup, NO_PLACE)?;
    let goals = relating_goals(cx.alloc, &left)?;
    Ok(goals)
}

/// Makes one sub-unification class of the types of a goal, if both are type variables. Or it answers that they are not.
fn join_variables(
    table: &mut InferCtxt,
    cx: &mut Cx,
    goal: Goal,
    types: TypePair,
) -> Result<bool, Fault>
    requires posed { IsPosed cx.old.nodes table.old goal }
    requires types { IsSubtypeGoal cx.old.nodes goal types }
    ensures runs { Runs cx.old cx.new table.old table.new }
    ensures joins { IfOk result (JoinsTypes cx.old cx.new table.old table.new types) }
    ensures memory { IsOkUnless result Fault.Memory }
{
    let Some((a, b)) = variables_of(table, cx, types)? else {
        return Ok(false);
    };
    table.sub_unify_ty_vids_raw(a, b)?;
    Ok(true)
}

/// Relates the types of a goal in its table, so that the first is a subtype of the second, and answers the goals that this leaves:
/// the goal holds where they do. It answers nothing where the goal is in doubt as it is: of two type variables, of which it makes
/// one sub-unification class, and in coherence, where it does nothing.
#[inline(never)]
pub fn relate_types(
    table: &mut InferCtxt,
    cx: &mut Cx,
    goal: Goal,
    types: TypePair,
) -> Result<Option<Vec<(GoalSource, Goal)>>, EvalError>
    requires posed { IsPosed cx.old.nodes table.old goal }
    requires types { IsSubtypeGoal cx.old.nodes goal types }
    ensures runs { Runs cx.old cx.new table.old table.new }
    ensures left { IfOk result (AreLeftOfTypes cx.old cx.new table.old table.new goal types) }
    ensures no { result ≡ Err EvalError.NoSolution → IsCutIn (mode_of table.old.mode) × IsNoSubtype
        (variances_in cx.old.declarations) (content_of cx.old.nodes table.old.entries)
        (tree_at cx.old.nodes goal.predicate.node) }
    ensures full { result ≢ Err EvalError.Full }
{
    if matches!(table.typing_mode(), TypingMode::Coherence) {
        return Ok(None);
    }
    if join_variables(table, cx, goal, types)? {
        return Ok(None);
    }
    let goals = relate_pair(table, cx, goal, types)?;
    Ok(Some(goals))
}
