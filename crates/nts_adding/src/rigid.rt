//! A variable that is made an alias over new variables, with which the arguments of an alias of that head are related.
ghost use Rattle.std.specs.Prelude.{◌≡◌, ◌≢◌, ◌↔◌, length, Err, IsTrue, IsSome, IfOk, IfSome, OnOk, IsOkUnless};
ghost use Rattle.nts_model.specs.Terms.Trees.{is, arguments, any_term, sort_of_alias};
ghost use Rattle.nts_model.specs.Tables.Resolving.{Knows};
ghost use Rattle.nts_model.specs.Tables.Equations.{AreRelated, AreUnrelated};
ghost use Rattle.nts_model.specs.Tables.Tying.{TiesNew};
ghost use Rattle.nts_model.specs.Tables.Passing.{BringsLabelsOf};
ghost use Rattle.nts_store.specs.Growth.{tree_at, IsIn};
ghost use Rattle.nts_terms.specs.declared.handles.DefId.TheVariants as defs;
ghost use Rattle.nts_terms.specs.Handles.{HoldsArgs, HoldsEnv, alias_head};
ghost use Rattle.nts_terms.specs.Kinds.{tree_of_alias};
ghost use Rattle.nts_terms.specs.Rest.{Grows};
ghost use Rattle.nts_terms.specs.Signatures.{AreDeclared};
ghost use Rattle.nts_unify.specs.Reading.{content_of};
ghost use Rattle.nts_table.specs.Tables.{IsTable, IsTermIn, IsSide};
ghost use Rattle.nts_table.specs.Classes.{shallowly_resolved};
ghost use Rattle.nts_table.specs.Fresh.{variable_kind, with_fresh};
ghost use Rattle.nts_meaning.specs.Evaluation.{Runs};
ghost use Rattle.nts_adding.specs.Adding.{ArePosedIn};
ghost use Rattle.nts_adding.specs.Rigid.{MayBecome, TakesSorts, new_arguments, new_alias, IsNewAlias, BecomesAlias, RelatesRigidly, AddsRigidly, RefusesAlias, RefusesRigidly};

use crate::goals::goals_to_add;
use nts_certainty::GoalSource;
use nts_meaning::nts_search::CurrentGoalKind;
use nts_model::{Sort, VariableKind, Variance};
use nts_relating::relate_nodes;
use nts_solver_relating::RelateExt;
use nts_store::{EvalError, Fault, NodeId};
use nts_table::InferCtxt;
use nts_terms::{
    AliasDefId, AliasTerm, ConstKind, Cx, DefId, Goal, ParamEnv, Span, Term, TermKind, TyKind,
};
use nts_unify::named_variable;
use std::alloc::AllocError;

/// The term, or its value or root where it is a variable.
fn looked_up(table: &InferCtxt, cx: &mut Cx, term: Term) -> Result<NodeId, Fault>
    requires table { IsTable cx.old.nodes table.now }
    requires term { IsSide any_term cx.old.nodes table.now term.node }
    ensures tree { IfOk result (λ r. tree_at cx.new.nodes r ≡ shallowly_resolved
        (content_of cx.old.nodes table.now.entries) (tree_at cx.old.nodes term.node)) }
    ensures within { IfOk result (λ r. IsIn cx.new.nodes r) }
    ensures grows { Grows cx.old cx.new }
    ensures memory { IsOkUnless result Fault.Memory }
{
    match term.kind(cx) {
        TermKind::Ty(ty) => {
            let found = table.shallow_resolve(cx, ty)?;
            Ok(found.node)
        }
        TermKind::Const(ct) => {
            let found = table.shallow_resolve_const(cx, ct)?;
            Ok(found.node)
        }
    }
}

/// Whether variables of that kind have aliases of that head as their values.
fn takes_alias(kind: VariableKind, def_id: AliasDefId) -> bool
    ensures { IsTrue result ↔ (kind ≡ variable_kind (sort_of_alias (alias_head def_id))) }
{
    match def_id {
        AliasDefId::Ty(_) => matches!(kind, VariableKind::Ty),
        AliasDefId::Const(_) => matches!(kind, VariableKind::Const),
    }
}

/// Whether the term is a variable without a value that may become an alias of that head.
fn may_become(table: &InferCtxt, cx: &mut Cx, def_id: AliasDefId, term: Term) -> Result<bool, Fault>
    requires table { IsTable cx.old.nodes table.now }
    requires term { IsSide any_term cx.old.nodes table.now term.node }
    ensures answer { IfOk result (λ b. IsTrue b ↔ MayBecome
        (content_of cx.old.nodes table.now.entries) (alias_head def_id)
        (tree_at cx.old.nodes term.node)) }
    ensures grows { Grows cx.old cx.new }
    ensures memory { IsOkUnless result Fault.Memory }
{
    let found = looked_up(table, cx, term)?;
    match named_variable(cx.nodes.label(found)) {
        Some((kind, _)) => Ok(takes_alias(kind, def_id)),
        None => Ok(false),
    }
}

/// The sorts that an alias takes, or nothing where its arguments are not of them.
fn sorts_of(cx: &Cx, alias: AliasTerm) -> Result<Option<Vec<Sort>>, AllocError>
    requires holds { HoldsArgs cx.now.nodes alias.args }
    ensures takes { IfOk result (λ o. IfSome o (λ s.
        TakesSorts cx.now.declarations alias.def_id s.items)) }
    ensures declared { IfOk result (λ o. IsSome o ↔ AreDeclared cx.now.declarations
        (defs.Alias alias.def_id) (tree_at cx.now.nodes alias.args.node)) }
{
    let def = DefId::Alias(alias.def_id);
    if !cx.fits(def, alias.args) {
        return Ok(None);
    }
    match cx.declarations.sorts(def) {
        Some(sorts) => Ok(Some(sorts.to_vec(cx.alloc)?)),
        None => Ok(None),
    }
}

/// The type or the const that an alias is.
fn alias_node(cx: &mut Cx, alias: AliasTerm) -> Result<NodeId, Fault>
    requires holds { HoldsArgs cx.old.nodes alias.args }
    requires declared { AreDeclared cx.old.declarations (defs.Alias alias.def_id)
        (tree_at cx.old.nodes alias.args.node) }
    ensures tree { IfOk result (λ n. tree_at cx.new.nodes n ≡ tree_of_alias cx.old.nodes alias) }
    ensures within { IfOk result (λ n. IsIn cx.new.nodes n) }
    ensures grows { Grows cx.old cx.new }
    ensures memory { IsOkUnless result Fault.Memory }
{
    match alias.def_id {
        AliasDefId::Ty(_) => {
            let ty = cx.mk_ty(TyKind::Alias(alias))?;
            Ok(ty.node)
        }
        AliasDefId::Const(_) => {
            let ct = cx.mk_const(ConstKind::Unevaluated(alias))?;
            Ok(ct.node)
        }
    }
}

/// Makes two terms of the table equal, with aliases taken as they stand. After an error the table is as before.
fn equate(table: &mut InferCtxt, cx: &mut Cx, a: NodeId, b: NodeId) -> Result<(), EvalError>
    requires table { IsTable cx.old.nodes table.old }
    requires left { IsTermIn cx.old.nodes table.old a }
    requires right { IsTermIn cx.old.nodes table.old b }
    ensures runs { Runs cx.old cx.new table.old table.new }
    ensures related { OnOk result (AreRelated (content_of cx.old.nodes table.old.entries)
        (content_of cx.new.nodes table.new.entries) (tree_at cx.old.nodes a)
        (tree_at cx.old.nodes b)) }
    ensures ties { OnOk result (TiesNew (content_of cx.old.nodes table.old.entries)
        (content_of cx.new.nodes table.new.entries)) }
    ensures labels { OnOk result (BringsLabelsOf (content_of cx.old.nodes table.old.entries)
        (content_of cx.new.nodes table.new.entries) (tree_at cx.old.nodes a)
        (tree_at cx.old.nodes b)) }
    ensures no { result ≡ Err EvalError.NoSolution → AreUnrelated
        (content_of cx.old.nodes table.old.entries) (tree_at cx.old.nodes a)
        (tree_at cx.old.nodes b) }
    ensures full { result ≢ Err EvalError.Full }
{
    relate_nodes(cx.alloc, &mut cx.nodes, &mut table.inner, a, b)
}

/// Makes a term an alias over new variables of these sorts, and answers that alias. After an error the table may have changed.
fn make_rigid(
    table: &mut InferCtxt,
    cx: &mut Cx,
    def_id: AliasDefId,
    sorts: &[Sort],
    term: Term,
) -> Result<AliasTerm, EvalError>
    requires table { IsTable cx.old.nodes table.old }
    requires term { IsTermIn cx.old.nodes table.old term.node }
    requires takes { TakesSorts cx.old.declarations def_id sorts.now }
    ensures runs { Runs cx.old cx.new table.old table.new }
    ensures becomes { OnOk result (BecomesAlias cx.old.nodes cx.new.nodes table.old.entries
        table.new.entries (alias_head def_id) sorts.now (tree_at cx.old.nodes term.node)) }
    ensures id { IfOk result (λ a. a.def_id ≡ def_id) }
    ensures tree { IfOk result (λ a. tree_at cx.new.nodes a.args.node ≡ new_arguments
        (length table.old.entries.variables) sorts.now) }
    ensures side { IfOk result (λ a. IsSide (is arguments) cx.new.nodes table.new a.args.node) }
    ensures no { result ≡ Err EvalError.NoSolution → AreUnrelated
        (content_of cx.old.nodes (with_fresh table.old.entries sorts.now))
        (tree_at cx.old.nodes term.node)
        (new_alias (alias_head def_id) (length table.old.entries.variables) sorts.now) }
    ensures full { result ≢ Err EvalError.Full }
{
    let args = table.fresh_args_for_item(cx, sorts)?;
    let rigid = AliasTerm { def_id, args };
    let made = alias_node(cx, rigid)?;
    match equate(table, cx, term.node, made) {
        Err(error) => Err(error),
        Ok(()) => Ok(rigid),
    }
}

/// Makes a term an alias over new variables of these sorts, with which the arguments of an alias of that head are related, and answers
/// the goals that are left. After an error the table may have changed.
fn relate_with_new(
    table: &mut InferCtxt,
    cx: &mut Cx,
    env: ParamEnv,
    alias: AliasTerm,
    variance: Variance,
    sorts: &[Sort],
    term: Term,
    span: Span,
) -> Result<Vec<Goal>, EvalError>
    requires table { IsTable cx.old.nodes table.old }
    requires alias { IsSide (is arguments) cx.old.nodes table.old alias.args.node }
    requires term { IsTermIn cx.old.nodes table.old term.node }
    requires takes { TakesSorts cx.old.declarations alias.def_id sorts.now }
    requires declared { AreDeclared cx.old.declarations (defs.Alias alias.def_id)
        (tree_at cx.old.nodes alias.args.node) }
    ensures runs { Runs cx.old cx.new table.old table.new }
    ensures is { OnOk result (IsNewAlias cx.old.declarations alias.def_id table.old.entries
        (content_of cx.new.nodes table.new.entries) (tree_at cx.old.nodes term.node)) }
    ensures related { IfOk result (λ gs. RelatesRigidly cx.old.declarations cx.old.nodes
        cx.new.nodes table.old.entries table.new.entries env variance alias term.node gs.items) }
    ensures no { result ≡ Err EvalError.NoSolution → RefusesAlias cx.old.declarations cx.old.nodes
        table.old.entries alias term.node }
    ensures full { result ≢ Err EvalError.Full }
{
    match make_rigid(table, cx, alias.def_id, sorts, term) {
        Err(error) => Err(error),
        Ok(rigid) => table.relate(cx, env, alias, variance, rigid, span),
    }
}

/// Relates an alias, which stands left, with a type or const variable, and answers the goals that are left. After an error the table
/// may have changed.
fn relate_rigid(
    table: &mut InferCtxt,
    cx: &mut Cx,
    env: ParamEnv,
    alias: AliasTerm,
    variance: Variance,
    term: Term,
    span: Span,
) -> Result<Vec<Goal>, EvalError>
    requires table { IsTable cx.old.nodes table.old }
    requires alias { IsSide (is arguments) cx.old.nodes table.old alias.args.node }
    requires term { IsSide any_term cx.old.nodes table.old term.node }
    ensures runs { Runs cx.old cx.new table.old table.new }
    ensures declared { OnOk result (AreDeclared cx.old.declarations (defs.Alias alias.def_id)
        (tree_at cx.old.nodes alias.args.node)) }
    ensures was { OnOk result (MayBecome (content_of cx.old.nodes table.old.entries)
        (alias_head alias.def_id) (tree_at cx.old.nodes term.node)) }
    ensures is { OnOk result (IsNewAlias cx.old.declarations alias.def_id table.old.entries
        (content_of cx.new.nodes table.new.entries) (tree_at cx.old.nodes term.node)) }
    ensures related { IfOk result (λ gs. RelatesRigidly cx.old.declarations cx.old.nodes
        cx.new.nodes table.old.entries table.new.entries env variance alias term.node gs.items) }
    ensures no { result ≡ Err EvalError.NoSolution → RefusesRigidly cx.old.declarations
        cx.old.nodes table.old.entries alias term.node }
    ensures full { result ≢ Err EvalError.Full }
{
    if !may_become(table, cx, alias.def_id, term)? {
        return Err(EvalError::NoSolution);
    }
    match sorts_of(cx, alias)? {
        Some(sorts) => relate_with_new(table, cx, env, alias, variance, &sorts, term, span),
        None => Err(EvalError::NoSolution),
    }
}

/// Relates an alias, which stands left, with a type or const variable: the variable becomes an alias of the same head over new
/// variables, and the arguments of the two are related, without a goal for the alias itself. The arguments of an alias do not vary,
/// whatever the variance is. It answers what stands for the goals that are left. After an error the table may have changed.
///
/// It is `NoSolution` where the alias is not as declared, where the term is no variable without a value that may become such an alias,
/// and where no settled solution of the table relates the two.
pub fn relate_rigid_alias(
    table: &mut InferCtxt,
    cx: &mut Cx,
    env: ParamEnv,
    alias: AliasTerm,
    variance: Variance,
    term: Term,
    span: Span,
) -> Result<Vec<(GoalSource, Goal)>, EvalError>
    requires table { IsTable cx.old.nodes table.old }
    requires env { HoldsEnv cx.old.nodes env }
    requires env_known { Knows (content_of cx.old.nodes table.old.entries)
        (tree_at cx.old.nodes env.node) }
    requires alias { IsSide (is arguments) cx.old.nodes table.old alias.args.node }
    requires term { IsSide any_term cx.old.nodes table.old term.node }
    ensures runs { Runs cx.old cx.new table.old table.new }
    ensures declared { OnOk result (AreDeclared cx.old.declarations (defs.Alias alias.def_id)
        (tree_at cx.old.nodes alias.args.node)) }
    ensures was { OnOk result (MayBecome (content_of cx.old.nodes table.old.entries)
        (alias_head alias.def_id) (tree_at cx.old.nodes term.node)) }
    ensures is { OnOk result (IsNewAlias cx.old.declarations alias.def_id table.old.entries
        (content_of cx.new.nodes table.new.entries) (tree_at cx.old.nodes term.node)) }
    ensures adds { IfOk result (λ v. AddsRigidly cx.old cx.new table.old.entries table.new.entries
        env variance alias term.node v.items) }
    ensures posed { IfOk result (λ v. ArePosedIn cx.new.nodes table.new v.items) }
    ensures no { result ≡ Err EvalError.NoSolution → RefusesRigidly cx.old.declarations
        cx.old.nodes table.old.entries alias term.node }
    ensures full { result ≢ Err EvalError.Full }
{
    let goals = relate_rigid(table, cx, env, alias, variance, term, span)?;
    goals_to_add(
        table,
        cx,
        CurrentGoalKind::Misc,
        GoalSource::TypeRelating,
        &goals,
    )
}
