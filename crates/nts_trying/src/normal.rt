//! Goals that an alias is equal to a term, or that the one is a subtype of the other.
ghost use Rattle.std.specs.Prelude.{◌≡◌, true, false, None, IfOk, IfSome, IsNone, IsOkUnless};
ghost use Rattle.nts_model.specs.Terms.Trees.{Tree, is_alias, kind_of};
ghost use Rattle.nts_model.specs.Derivations.Related.{alias_label, IsAlias};
ghost use Rattle.nts_model.specs.Derivations.Rules.{normalization_goal};
ghost use Rattle.nts_model.specs.declared.labels.AliasRelationDirection.{AliasRelationDirection};
ghost use Rattle.nts_terms.specs.declared.kinds.PredicateKind.TheVariants as statements;
ghost use Rattle.nts_terms.specs.declared.handles.Term.{Term};
ghost use Rattle.nts_store.specs.Growth.{tree_at, IsIn};
ghost use Rattle.nts_terms.specs.Handles.{HoldsGoal, HoldsPredicate, HoldsTerm};
ghost use Rattle.nts_terms.specs.Rest.{Grows};
ghost use Rattle.nts_meaning.specs.Evaluation.{Runs, IsPosed};
ghost use Rattle.nts_variance.specs.Goals.{is_alias_node};
ghost use Rattle.nts_trying.specs.Aliasing.{AreLesserTypes, EquatedIn, IsEquatedGoal, BeginsNormalizing};

use crate::candidate::fresh_value;
use crate::outlives::is_closed_env;
use crate::subtypes::TypePair;
use nts_certainty::GoalSource;
use nts_model::{
    AliasHead, AliasRelationDirection, ConstHead, Label, ListHead, PredicateHead, Sort, TyHead,
};
use nts_store::Fault;
use nts_table::InferCtxt;
use nts_terms::{Cx, Goal, Predicate, PredicateKind, Term, TermKind};

/// An alias, and the term that it is said to be equal to, or to be a subtype of, or of which that is one.
#[derive(Clone, Copy)]
pub struct EquatedAlias {
    pub alias: Term,
    pub term: Term,
    /// The two types, where the goal says that the first is a subtype of the second.
    pub types: Option<TypePair>,
}

/// The terms of which a statement says how they are related, where one may be an alias.
fn related_sides(statement: PredicateKind) -> Option<(Term, Term, AliasRelationDirection)>
    ensures found { IfSome result (λ r. statement ≡ statements.AliasRelate r.0 r.1 r.2) }
    ensures none { IsNone result → (a b : Term) (d : AliasRelationDirection) →
        statement ≡ statements.AliasRelate a b d → ⊥ }
{
    match statement {
        PredicateKind::AliasRelate(left, right, direction) => Some((left, right, direction)),
        _ => None,
    }
}

/// The two types, if they are types and the first is said to be a subtype of the second.
fn lesser_types(
    cx: &Cx,
    left: Term,
    right: Term,
    direction: AliasRelationDirection,
) -> Option<TypePair>
    requires left { HoldsTerm cx.now.nodes left }
    requires right { HoldsTerm cx.now.nodes right }
    ensures { AreLesserTypes cx.now.nodes left right direction result }
{
    match direction {
        AliasRelationDirection::Equate => None,
        AliasRelationDirection::Subtype => match (left.kind(cx), right.kind(cx)) {
            (TermKind::Ty(sub), TermKind::Ty(sup)) => Some(TypePair { sub, sup }),
            _ => None,
        },
    }
}

fn is_alias(label: Label) -> bool
    ensures { result ≡ is_alias label }
{
    matches!(
        label,
        Label::Ty(TyHead::Alias(_)) | Label::Const(ConstHead::Unevaluated(_))
    )
}

/// Whether a term is an alias.
pub(crate) fn is_alias_term(cx: &Cx, t: Term) -> bool
    requires { IsIn cx.now.nodes t.node }
    ensures { result ≡ is_alias_node (tree_at cx.now.nodes t.node) }
{
    is_alias(cx.nodes.label(t.node))
}

/// Whether both terms are types, or both are consts.
fn are_of_one_sort(cx: &Cx, left: Term, right: Term) -> bool
    requires left { HoldsTerm cx.now.nodes left }
    requires right { HoldsTerm cx.now.nodes right }
    ensures one { result ≡ true → kind_of (tree_at cx.now.nodes left.node) ≡
        kind_of (tree_at cx.now.nodes right.node) }
    ensures two { result ≡ false → kind_of (tree_at cx.now.nodes left.node) ≡
        kind_of (tree_at cx.now.nodes right.node) → ⊥ }
{
    match (left.kind(cx), right.kind(cx)) {
        (TermKind::Ty(_), TermKind::Ty(_)) => true,
        (TermKind::Const(_), TermKind::Const(_)) => true,
        _ => false,
    }
}

/// How a goal says that an alias and a term are related, where it binds nothing, and neither its terms nor its environment have a bound
/// variable that is without its binder. Of two aliases the left one is the alias.
#[inline(never)]
pub fn equated_in(cx: &Cx, goal: Goal) -> Option<EquatedAlias>
    requires { HoldsGoal cx.now.nodes goal }
    ensures found { IfSome result (IsEquatedGoal cx.now.nodes goal) }
    ensures none { IsNone result → (a t : Tree) → EquatedIn cx.now.nodes goal a t → ⊥ }
{
    let predicate = goal.predicate.kind(cx);
    let (left, right, direction) = related_sides(predicate.value)?;
    if predicate.vars.len(cx) != 0 {
        return None;
    }
    if !goal.predicate.has_closed_statement(cx) {
        return None;
    }
    if !is_closed_env(cx, goal.param_env) {
        return None;
    }
    if !are_of_one_sort(cx, left, right) {
        return None;
    }
    let types = lesser_types(cx, left, right, direction);
    cx.terms_are_formed();
    match (is_alias_term(cx, left), is_alias_term(cx, right)) {
        (true, false) => Some(EquatedAlias {
            alias: left,
            term: right,
            types,
        }),
        (false, true) => Some(EquatedAlias {
            alias: right,
            term: left,
            types,
        }),
        (true, true) => Some(EquatedAlias {
            alias: left,
            term: right,
            types,
        }),
        (false, false) => None,
    }
}

/// How a goal names the alias that a label is of.
fn head_of(label: Label) -> AliasHead
    requires { is_alias label ≡ true }
    ensures { label ≡ alias_label result }
{
    match label {
        Label::Ty(TyHead::Alias(alias)) => AliasHead::Ty(alias),
        Label::Const(ConstHead::Unevaluated(ct)) => AliasHead::Const(ct),
        _ => unreachable!(),
    }
}

/// The goal, in the environment of another one, that an alias normalizes to a term.
pub(crate) fn normal_goal(cx: &mut Cx, goal: Goal, alias: Term, term: Term) -> Result<Goal, Fault>
    requires alias { HoldsTerm cx.old.nodes alias }
    requires is { IsAlias (tree_at cx.old.nodes alias.node) }
    requires term { IsIn cx.old.nodes term.node }
    requires kind { kind_of (tree_at cx.old.nodes term.node) ≡
        kind_of (tree_at cx.old.nodes alias.node) }
    ensures environment { IfOk result (λ g. g.param_env ≡ goal.param_env) }
    ensures holds { IfOk result (λ g. HoldsPredicate cx.new.nodes g.predicate) }
    ensures tree { IfOk result (λ g. (x : IsAlias (tree_at cx.old.nodes alias.node)) →
        tree_at cx.new.nodes g.predicate.node ≡
        normalization_goal x.head x.parts (tree_at cx.old.nodes term.node)) }
    ensures grows { Grows cx.old cx.new }
    ensures memory { IsOkUnless result Fault.Memory }
{
    cx.terms_are_formed();
    let nodes = &mut cx.nodes;
    let head = head_of(nodes.label(alias.node));
    let args = nodes.child(alias.node, 0);
    let sorts = nodes.make(Label::List(ListHead::Sorts), &[])?;
    let normalizes = Label::Predicate(PredicateHead::NormalizesTo(head));
    let statement = nodes.make(normalizes, &[args, term.node])?;
    let node = nodes.make(Label::List(ListHead::Binder), &[sorts, statement])?;
    Ok(Goal {
        param_env: goal.param_env,
        predicate: Predicate { node },
    })
}

/// What is left of a goal by which an alias and a term that is none are one: that the alias normalizes to the term.
fn normalize_one(
    table: &InferCtxt,
    cx: &mut Cx,
    goal: Goal,
    equated: EquatedAlias,
) -> Result<Vec<(GoalSource, Goal)>, Fault>
    requires posed { IsPosed cx.old.nodes table.now goal }
    requires equated { IsEquatedGoal cx.old.nodes goal equated }
    requires plain { is_alias_node (tree_at cx.old.nodes equated.term.node) ≡ false }
    ensures begins { IfOk result (λ gs. BeginsNormalizing None cx.old cx.new table.now table.now
        goal gs.items) }
    ensures grows { Grows cx.old cx.new }
    ensures memory { IsOkUnless result Fault.Memory }
{
    let _ = table;
    let normal = normal_goal(cx, goal, equated.alias, equated.term)?;
    let mut goals = Vec::with_capacity(cx.alloc, 1)?;
    goals.push((GoalSource::TypeRelating, normal))?;
    cx.terms_are_formed();
    Ok(goals)
}

/// What is left of a goal by which two aliases are one: that each of them normalizes to one new variable.
fn normalize_both(
    table: &mut InferCtxt,
    cx: &mut Cx,
    goal: Goal,
    equated: EquatedAlias,
) -> Result<Vec<(GoalSource, Goal)>, Fault>
    requires posed { IsPosed cx.old.nodes table.old goal }
    requires equated { IsEquatedGoal cx.old.nodes goal equated }
    requires alias { is_alias_node (tree_at cx.old.nodes equated.term.node) ≡ true }
    ensures runs { Runs cx.old cx.new table.old table.new }
    ensures begins { IfOk result (λ gs. BeginsNormalizing None cx.old cx.new table.old table.new
        goal gs.items) }
    ensures memory { IsOkUnless result Fault.Memory }
{
    cx.terms_are_formed();
    let sort = match equated.alias.kind(cx) {
        TermKind::Ty(_) => Sort::Ty,
        TermKind::Const(_) => Sort::Const,
    };
    let variable = fresh_value(table, cx, sort)?;
    let term = Term { node: variable };
    let first = normal_goal(cx, goal, equated.alias, term)?;
    let second = normal_goal(cx, goal, equated.term, term)?;
    let mut goals = Vec::with_capacity(cx.alloc, 2)?;
    goals.push((GoalSource::TypeRelating, first))?;
    goals.push((GoalSource::TypeRelating, second))?;
    Ok(goals)
}

/// The goals that are left of a goal by which an alias and a term are one: that the alias normalizes to the term; or, of two aliases, that
/// both normalize to one new variable.
#[inline(never)]
pub(crate) fn normal_goals(
    table: &mut InferCtxt,
    cx: &mut Cx,
    goal: Goal,
    equated: EquatedAlias,
) -> Result<Vec<(GoalSource, Goal)>, Fault>
    requires posed { IsPosed cx.old.nodes table.old goal }
    requires equated { IsEquatedGoal cx.old.nodes goal equated }
    ensures runs { Runs cx.old cx.new table.old table.new }
    ensures begins { IfOk result (λ gs. BeginsNormalizing None cx.old cx.new table.old table.new
        goal gs.items) }
    ensures memory { IsOkUnless result Fault.Memory }
{
    if is_alias_term(cx, equated.term) {
        return normalize_both(table, cx, goal, equated);
    }
    normalize_one(table, cx, goal, equated)
}
