//! Goals that one type is a subtype of another, one of which is an alias: the results of the two are related.
ghost use Rattle.std.specs.Prelude.{◌≡◌, ◌++◌, [], ◌∷◌, true, Some, IfOk, IfSome, OnOk, IsOkUnless, Option};
ghost use Rattle.nts_model.specs.declared.labels.Variance.TheVariants as variance;
ghost use Rattle.nts_model.specs.Terms.Trees.{IsClosed};
ghost use Rattle.nts_model.specs.Tables.Passing.{BringsNoLabels};
ghost use Rattle.nts_model.specs.Derivations.Related.{subtype_goal};
ghost use Rattle.nts_model.specs.Tables.Resolving.{Knows};
ghost use Rattle.nts_store.specs.Growth.{tree_at};
ghost use Rattle.nts_certainty.specs.declared.sources.GoalSource.TheVariants as source;
ghost use Rattle.nts_terms.specs.Handles.{HoldsTy, HoldsPredicate};
ghost use Rattle.nts_terms.specs.Rest.{Grows};
ghost use Rattle.nts_unify.specs.Reading.{content_of};
ghost use Rattle.nts_meaning.specs.Evaluation.{Runs, IsPosed};
ghost use Rattle.nts_trying.specs.Aliasing.{normals, IsEquatedGoal, IsResultIn, MakesResult, LesserIn, BeginsNormalizing};

use crate::candidate::fresh_value;
use crate::normal::{EquatedAlias, is_alias_term, normal_goal, normal_goals};
use crate::subtypes::TypePair;
use nts_certainty::GoalSource;
use nts_model::{Label, ListHead, PredicateHead, Sort};
use nts_store::Fault;
use nts_table::InferCtxt;
use nts_terms::{Cx, Goal, Predicate, Term, Ty};
use std::alloc::{AllocError, Global};

/// What a type of such a goal is known to be: the type; or, if it is an alias, a new variable, with the goal that the alias normalizes
/// to it.
#[derive(Clone, Copy)]
pub(crate) struct Side {
    pub result: Ty,
    pub normal: Option<Goal>,
}

/// What a type of a goal is to be known as.
fn side_of(table: &mut InferCtxt, cx: &mut Cx, goal: Goal, ty: Ty) -> Result<Side, Fault>
    requires posed { IsPosed cx.old.nodes table.old goal }
    requires holds { HoldsTy cx.old.nodes ty }
    requires knows { Knows (content_of cx.old.nodes table.old.entries)
        (tree_at cx.old.nodes ty.node) }
    requires closed { IsClosed (tree_at cx.old.nodes ty.node) }
    ensures runs { Runs cx.old cx.new table.old table.new }
    ensures result { IfOk result (IsResultIn cx.old.nodes cx.new.nodes table.new goal
        (tree_at cx.old.nodes ty.node)) }
    ensures makes { IfOk result (λ s. MakesResult (content_of cx.old.nodes table.old.entries)
        (content_of cx.new.nodes table.new.entries) (tree_at cx.new.nodes s.result.node)
        s.normal) }
    ensures labels { OnOk result (BringsNoLabels (content_of cx.old.nodes table.old.entries)
        (content_of cx.new.nodes table.new.entries)) }
    ensures memory { IsOkUnless result Fault.Memory }
{
    cx.terms_are_formed();
    let term = Term { node: ty.node };
    if !is_alias_term(cx, term) {
        return Ok(Side {
            result: ty,
            normal: None,
        });
    }
    let variable = fresh_value(table, cx, Sort::Ty)?;
    let normal = normal_goal(cx, goal, term, Term { node: variable })?;
    Ok(Side {
        result: Ty { node: variable },
        normal: Some(normal),
    })
}

/// The goal, in the environment of another one, that the first type is a subtype of the second.
fn lesser_goal(cx: &mut Cx, goal: Goal, sub: Ty, sup: Ty) -> Result<Goal, Fault>
    requires sub { HoldsTy cx.old.nodes sub }
    requires sup { HoldsTy cx.old.nodes sup }
    ensures environment { IfOk result (λ g. g.param_env ≡ goal.param_env) }
    ensures holds { IfOk result (λ g. HoldsPredicate cx.new.nodes g.predicate) }
    ensures tree { IfOk result (λ g. tree_at cx.new.nodes g.predicate.node ≡
        subtype_goal true variance.Covariant (tree_at cx.old.nodes sub.node)
        (tree_at cx.old.nodes sup.node)) }
    ensures grows { Grows cx.old cx.new }
    ensures memory { IsOkUnless result Fault.Memory }
{
    let nodes = &mut cx.nodes;
    let sorts = nodes.make(Label::List(ListHead::Sorts), &[])?;
    let is_subtype = Label::Predicate(PredicateHead::Subtype(true));
    let statement = nodes.make(is_subtype, &[sub.node, sup.node])?;
    let node = nodes.make(Label::List(ListHead::Binder), &[sorts, statement])?;
    Ok(Goal {
        param_env: goal.param_env,
        predicate: Predicate { node },
    })
}

/// Adds the goal that an alias normalizes to its result, if there is one.
fn push_normal(goals: &mut Vec<(GoalSource, Goal)>, normal: Option<Goal>) -> Result<(), AllocError>
    ensures { IfOk result (λ v. goals.new.items ≡ goals.old.items ++ normals normal) }
{
    if let Some(goal) = normal {
        goals.push((GoalSource::TypeRelating, goal))?;
    }
    Ok(())
}

/// The goals that the sides normalize to their results, and the one about these.
fn listed(
    alloc: Global,
    sub: Option<Goal>,
    sup: Option<Goal>,
    lesser: Goal,
) -> Result<Vec<(GoalSource, Goal)>, AllocError>
    ensures { IfOk result (λ v. v.items ≡ normals sub ++ (normals sup ++
        ((source.TypeRelating, lesser) ∷ []))) }
{
    let mut goals = Vec::with_capacity(alloc, 3)?;
    push_normal(&mut goals, sub)?;
    push_normal(&mut goals, sup)?;
    goals.push((GoalSource::TypeRelating, lesser))?;
    Ok(goals)
}

/// What is left of a goal that one type is a subtype of another, one of which is an alias: that each that is an alias normalizes to a
/// new variable, and that the result of the one is a subtype of the result of the other.
fn lesser_goals(
    table: &mut InferCtxt,
    cx: &mut Cx,
    goal: Goal,
    types: TypePair,
) -> Result<Vec<(GoalSource, Goal)>, Fault>
    requires posed { IsPosed cx.old.nodes table.old goal }
    requires types { LesserIn cx.old.nodes goal types }
    ensures runs { Runs cx.old cx.new table.old table.new }
    ensures begins { IfOk result (λ gs. BeginsNormalizing (Some types) cx.old cx.new table.old
        table.new goal gs.items) }
    ensures memory { IsOkUnless result Fault.Memory }
{
    let sub = side_of(table, cx, goal, types.sub)?;
    let sup = side_of(table, cx, goal, types.sup)?;
    let lesser = lesser_goal(cx, goal, sub.result, sup.result)?;
    let goals = listed(cx.alloc, sub.normal, sup.normal, lesser)?;
    Ok(goals)
}

/// The goals that are left of a goal about an alias and a term, by a way: that of two types the result of the one is a subtype of the
/// result of the other; or else that the alias and the term are one.
#[inline(never)]
pub fn way_goals(
    table: &mut InferCtxt,
    cx: &mut Cx,
    goal: Goal,
    equated: EquatedAlias,
    way: Option<TypePair>,
) -> Result<Vec<(GoalSource, Goal)>, Fault>
    requires posed { IsPosed cx.old.nodes table.old goal }
    requires equated { IsEquatedGoal cx.old.nodes goal equated }
    requires way { IfSome way (LesserIn cx.old.nodes goal) }
    ensures runs { Runs cx.old cx.new table.old table.new }
    ensures begins { IfOk result (λ gs. BeginsNormalizing way cx.old cx.new table.old table.new
        goal gs.items) }
    ensures memory { IsOkUnless result Fault.Memory }
{
    match way {
        Some(types) => lesser_goals(table, cx, goal, types),
        None => normal_goals(table, cx, goal, equated),
    }
}
