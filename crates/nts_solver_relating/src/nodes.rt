//! Nodes of a store related by a variance under a table, and the goals that this leaves.
ghost use Rattle.std.specs.Prelude.{◌≡◌, ◌≢◌, OnOk, OnErr, IfOk, Err, Some, true, false};
ghost use Rattle.nts_model.specs.declared.labels.Sort.TheVariants as sorts;
ghost use Rattle.nts_model.specs.declared.labels.Variance.TheVariants as variances;
ghost use Rattle.nts_model.specs.Terms.Trees.{kind_of, of_sort, any_label, is_alias};
ghost use Rattle.nts_model.specs.Tables.Resolving.{Knows, resolved};
ghost use Rattle.nts_relating.specs.Relating.{IsPlainIn};
ghost use Rattle.nts_store.specs.Growth.{tree_at, IsIn, Extends};
ghost use Rattle.nts_terms.specs.Signatures.{variances_in};
ghost use Rattle.nts_unify.specs.Entries.{KeepsHidden};
ghost use Rattle.nts_unify.specs.Reading.{content_of, IsLawful};
ghost use Rattle.nts_variance.specs.Terms.{pairs_at, AreGoals};
ghost use Rattle.nts_table.specs.Tables.{IsTable};
ghost use Rattle.nts_table.specs.Frames.{ChangesVariables};
ghost use Rattle.nts_solver_relating.specs.Promises.{RelatesSides};
ghost use Rattle.nts_solver_relating.specs.Sides.{is_list, variance_at, CanRelate, LeavesPairs, LeavesGoalsIn, AreWithin, AreMadeFor, IsRelatedIn, RefusesIn, ArePlainIn, AreMadeEqualIn, AreUnrelatedIn};

use nts_model::{Label, ListHead, Sort, Variance};
use nts_relating::relate_nodes;
use nts_store::{EvalError, NodeId, Nodes, sort_of};
use nts_table::{InferCtxt, resolve_nodes};
use nts_terms::{Declarations, Goal, ParamEnv, Predicate};
use nts_unify::InferCtxtInner;
use nts_variance::{Relating, predicate_of, relate_rows, relate_terms};
use std::alloc::{AllocError, Global};

/// Whether the node is a list of arguments.
fn is_list_node(nodes: &Nodes, t: NodeId) -> bool
    requires within { IsIn nodes.now t }
    ensures { result ≡ is_list (tree_at nodes.now t) }
{
    matches!(nodes.label(t), Label::List(ListHead::Args))
}

/// The variance by which a term is related: a const does not vary.
fn variance_for(nodes: &Nodes, t: NodeId, variance: Variance) -> Variance
    requires within { IsIn nodes.now t }
    ensures { result ≡ variance_at (tree_at nodes.now t) variance }
{
    match sort_of(nodes.label(t)) {
        Some(Sort::Const) => Variance::Invariant,
        _ => variance,
    }
}

/// Relates two terms, or the arguments of two lists, and leaves goals alone. After an error the table is as before.
fn relate_sides(
    alloc: Global,
    nodes: &mut Nodes,
    declarations: &Declarations,
    table: &mut InferCtxtInner,
    variance: Variance,
    left: NodeId,
    right: NodeId,
) -> Result<Vec<Relating>, EvalError>
    requires lawful { IsLawful nodes.old table.old.entries }
    requires sides { CanRelate nodes.old (content_of nodes.old table.old.entries) left right }
    ensures extends { Extends nodes.old nodes.new }
    ensures changes { KeepsHidden table.old table.new }
    ensures lawful { IsLawful nodes.new table.new.entries }
    ensures related { IfOk result (λ gs. LeavesPairs (variances_in declarations.now) nodes.old
        nodes.new table.old.entries table.new.entries variance (tree_at nodes.old left)
        (tree_at nodes.old right) gs.items) }
    ensures full { result ≢ Err EvalError.Full }
    ensures no { result ≡ Err EvalError.NoSolution →
        RefusesIn (variances_in declarations.now) nodes.old table.old.entries variance left right }
{
    if is_list_node(nodes, left) {
        return relate_rows(alloc, nodes, declarations, table, left, right);
    }
    let variance = variance_for(nodes, left, variance);
    relate_terms(alloc, nodes, declarations, table, variance, left, right)
}

/// The goals of pairs in an environment, in their order: an alias and what it is to be equal to, or two types of which one is to be
/// a subtype of the other. It is `Memory` where a growth was refused.
pub fn goals_of(
    alloc: Global,
    nodes: &mut Nodes,
    env: ParamEnv,
    pairs: &[Relating],
) -> Result<Vec<Goal>, EvalError>
    requires within { AreWithin nodes.old pairs.now }
    requires goals { AreGoals (pairs_at nodes.old pairs.now) }
    ensures extends { Extends nodes.old nodes.new }
    ensures made { IfOk result (λ gs. AreMadeFor nodes.old nodes.new env pairs.now gs.items) }
    ensures full { result ≢ Err EvalError.Full }
    ensures no { result ≢ Err EvalError.NoSolution }
{
    let mut made = Vec::new(alloc);
    for pair in pairs {
        let node = predicate_of(nodes, *pair)?;
        made.push(Goal {
            param_env: env,
            predicate: Predicate { node },
        })?;
    }
    Ok(made)
}

/// Relates two terms, or the arguments of two lists, and makes the goals that are left. After an error the table may have grown.
fn relate_for_goals(
    alloc: Global,
    nodes: &mut Nodes,
    declarations: &Declarations,
    table: &mut InferCtxtInner,
    env: ParamEnv,
    variance: Variance,
    left: NodeId,
    right: NodeId,
) -> Result<Vec<Goal>, EvalError>
    requires lawful { IsLawful nodes.old table.old.entries }
    requires sides { CanRelate nodes.old (content_of nodes.old table.old.entries) left right }
    ensures extends { Extends nodes.old nodes.new }
    ensures changes { KeepsHidden table.old table.new }
    ensures lawful { IsLawful nodes.new table.new.entries }
    ensures related { IfOk result (λ gs. LeavesGoalsIn (variances_in declarations.now) nodes.old
        nodes.new table.old.entries table.new.entries env variance left right gs.items) }
    ensures full { result ≢ Err EvalError.Full }
    ensures no { result ≡ Err EvalError.NoSolution →
        RefusesIn (variances_in declarations.now) nodes.old table.old.entries variance left right }
{
    match relate_sides(alloc, nodes, declarations, table, variance, left, right) {
        Err(error) => Err(error),
        Ok(pairs) => goals_of(alloc, nodes, env, &pairs),
    }
}

/// The same; after an error the table is as before.
fn relate_or_leave(
    alloc: Global,
    nodes: &mut Nodes,
    declarations: &Declarations,
    table: &mut InferCtxtInner,
    env: ParamEnv,
    variance: Variance,
    left: NodeId,
    right: NodeId,
) -> Result<Vec<Goal>, EvalError>
    requires lawful { IsLawful nodes.old table.old.entries }
    requires sides { CanRelate nodes.old (content_of nodes.old table.old.entries) left right }
    ensures extends { Extends nodes.old nodes.new }
    ensures changes { KeepsHidden table.old table.new }
    ensures lawful { IsLawful nodes.new table.new.entries }
    ensures related { IfOk result (λ gs. LeavesGoalsIn (variances_in declarations.now) nodes.old
        nodes.new table.old.entries table.new.entries env variance left right gs.items) }
    ensures err { OnErr result (table.new ≡ table.old) }
    ensures full { result ≢ Err EvalError.Full }
    ensures no { result ≡ Err EvalError.NoSolution →
        RefusesIn (variances_in declarations.now) nodes.old table.old.entries variance left right }
{
    let snapshot = table.start_snapshot()?;
    let related = relate_for_goals(
        alloc,
        nodes,
        declarations,
        table,
        env,
        variance,
        left,
        right,
    );
    table.commit_if_ok(snapshot, related)
}

/// Whether an alias stands in the term, with values in place of variables.
fn has_alias(
    alloc: Global,
    nodes: &mut Nodes,
    table: &InferCtxt,
    t: NodeId,
) -> Result<bool, AllocError>
    requires within { IsIn nodes.old t }
    requires table { IsTable nodes.old table.now }
    requires knows { Knows (content_of nodes.old table.now.entries) (tree_at nodes.old t) }
    ensures extends { Extends nodes.old nodes.new }
    ensures answer { IfOk result (λ b. b ≡ any_label is_alias
        (resolved (content_of nodes.old table.now.entries) (tree_at nodes.old t))) }
{
    let flags = nodes.flags(t);
    if !flags.has_infer {
        return Ok(flags.has_alias);
    }
    let found = resolve_nodes(alloc, nodes, table, t, false)?;
    Ok(nodes.flags(found).has_alias)
}

/// Makes two terms, or two lists of arguments, equal in which no alias stands. Nothing is left to be asked.
fn equate_plain(
    alloc: Global,
    nodes: &mut Nodes,
    declarations: &Declarations,
    table: &mut InferCtxtInner,
    env: ParamEnv,
    left: NodeId,
    right: NodeId,
) -> Result<Vec<Goal>, EvalError>
    requires lawful { IsLawful nodes.old table.old.entries }
    requires sides { CanRelate nodes.old (content_of nodes.old table.old.entries) left right }
    requires left { IsPlainIn (content_of nodes.old table.old.entries) (tree_at nodes.old left) }
    requires right { IsPlainIn (content_of nodes.old table.old.entries) (tree_at nodes.old right) }
    ensures extends { Extends nodes.old nodes.new }
    ensures changes { KeepsHidden table.old table.new }
    ensures lawful { IsLawful nodes.new table.new.entries }
    ensures related { IfOk result (λ gs. IsRelatedIn (variances_in declarations.now) nodes.old
        nodes.new table.old.entries table.new.entries env variances.Invariant left right gs.items) }
    ensures equal { IfOk result (λ gs. AreMadeEqualIn nodes.old nodes.new table.old.entries
        table.new.entries left right gs.items) }
    ensures err { OnErr result (table.new ≡ table.old) }
    ensures full { result ≢ Err EvalError.Full }
    ensures no { result ≡ Err EvalError.NoSolution →
        RefusesIn (variances_in declarations.now) nodes.old table.old.entries variances.Invariant
        left right }
    ensures unequal { result ≡ Err EvalError.NoSolution →
        AreUnrelatedIn nodes.old table.old.entries left right }
{
    // The nodes of a store are formed.
    nodes.terms_are_formed();
    let _ = declarations;
    let _ = env;
    match relate_nodes(alloc, nodes, table, left, right) {
        Err(error) => Err(error),
        Ok(()) => Ok(Vec::new(alloc)),
    }
}

/// Whether the node is a type.
fn is_type(nodes: &Nodes, t: NodeId) -> bool
    requires within { IsIn nodes.now t }
    ensures yes { result ≡ true → kind_of (tree_at nodes.now t) ≡ Some (of_sort sorts.Ty) }
    ensures no { result ≡ false → kind_of (tree_at nodes.now t) ≡ Some (of_sort sorts.Ty) → ⊥ }
{
    matches!(sort_of(nodes.label(t)), Some(Sort::Ty))
}

/// Relates two types with the values in place of the variables that have one, so that a goal is left only for a variable that gets
/// its value here, and so that what has no variables without values may be made at once. After an error the table is as before.
fn relate_resolved(
    alloc: Global,
    nodes: &mut Nodes,
    declarations: &Declarations,
    table: &mut InferCtxt,
    env: ParamEnv,
    variance: Variance,
    left: NodeId,
    right: NodeId,
) -> Result<Vec<Goal>, EvalError>
    requires table { IsTable nodes.old table.old }
    requires sides { CanRelate nodes.old (content_of nodes.old table.old.entries) left right }
    requires kind { kind_of (tree_at nodes.old left) ≡ Some (of_sort sorts.Ty) }
    ensures { RelatesSides (variances_in declarations.now) nodes.old nodes.new table.old table.new
        env variance left right result }
{
    let left = resolve_nodes(alloc, nodes, table, left, false)?;
    let right = resolve_nodes(alloc, nodes, table, right, false)?;
    relate_or_leave(
        alloc,
        nodes,
        declarations,
        &mut table.inner,
        env,
        variance,
        left,
        right,
    )
}

/// Relates two terms, or the arguments of two lists, by the variance that they have. After an error the table is as before.
fn relate_any(
    alloc: Global,
    nodes: &mut Nodes,
    declarations: &Declarations,
    table: &mut InferCtxt,
    env: ParamEnv,
    variance: Variance,
    left: NodeId,
    right: NodeId,
) -> Result<Vec<Goal>, EvalError>
    requires table { IsTable nodes.old table.old }
    requires sides { CanRelate nodes.old (content_of nodes.old table.old.entries) left right }
    ensures { RelatesSides (variances_in declarations.now) nodes.old nodes.new table.old table.new
        env variance left right result }
{
    if is_type(nodes, left) {
        return relate_resolved(
            alloc,
            nodes,
            declarations,
            table,
            env,
            variance,
            left,
            right,
        );
    }
    relate_or_leave(
        alloc,
        nodes,
        declarations,
        &mut table.inner,
        env,
        variance,
        left,
        right,
    )
}

/// Whether two sides are to be made equal, and no alias stands in them.
fn are_plain(
    alloc: Global,
    nodes: &mut Nodes,
    table: &InferCtxt,
    variance: Variance,
    left: NodeId,
    right: NodeId,
) -> Result<bool, AllocError>
    requires table { IsTable nodes.old table.now }
    requires sides { CanRelate nodes.old (content_of nodes.old table.now.entries) left right }
    ensures extends { Extends nodes.old nodes.new }
    ensures yes { IfOk result (λ b. b ≡ true →
        ArePlainIn variance nodes.old table.now.entries left right) }
    ensures no { IfOk result (λ b. b ≡ false →
        ArePlainIn variance nodes.old table.now.entries left right → ⊥) }
{
    if variance != Variance::Invariant {
        return Ok(false);
    }
    if has_alias(alloc, nodes, table, left)? {
        return Ok(false);
    }
    let found = has_alias(alloc, nodes, table, right)?;
    Ok(!found)
}

/// Relates two terms by a variance, or the arguments of two lists, and answers the goals that are left, in this environment: of
/// pairs with an alias without escaping bound variables, and of pairs that vary and have a type variable on both sides, or one that
/// got its value in this call. Consts and arguments of lists do not vary.
///
/// Under each later table in which these goals are answered the two are related; and each settled solution in which they settle goes
/// on to one of the table in which the goals settle. Invariantly, where no alias stands in the two, they are made equal, and no goal is
/// left. It is `NoSolution` where they settle in none, and `Memory` where a growth was refused. After an error the table is as before.
pub fn relate_by(
    alloc: Global,
    nodes: &mut Nodes,
    declarations: &Declarations,
    table: &mut InferCtxt,
    env: ParamEnv,
    variance: Variance,
    left: NodeId,
    right: NodeId,
) -> Result<Vec<Goal>, EvalError>
    requires table { IsTable nodes.old table.old }
    requires sides { CanRelate nodes.old (content_of nodes.old table.old.entries) left right }
    ensures extends { Extends nodes.old nodes.new }
    ensures table { IsTable nodes.new table.new }
    ensures changes { ChangesVariables table.old table.new }
    ensures related { IfOk result (λ gs. IsRelatedIn (variances_in declarations.now) nodes.old
        nodes.new table.old.entries table.new.entries env variance left right gs.items) }
    ensures equal { ArePlainIn variance nodes.old table.old.entries left right →
        IfOk result (λ gs. AreMadeEqualIn nodes.old nodes.new table.old.entries table.new.entries
        left right gs.items) }
    ensures err { OnErr result (table.new ≡ table.old) }
    ensures full { result ≢ Err EvalError.Full }
    ensures no { result ≡ Err EvalError.NoSolution →
        RefusesIn (variances_in declarations.now) nodes.old table.old.entries variance left right }
    ensures unequal { ArePlainIn variance nodes.old table.old.entries left right →
        result ≡ Err EvalError.NoSolution → AreUnrelatedIn nodes.old table.old.entries left right }
{
    if are_plain(alloc, nodes, table, variance, left, right)? {
        return equate_plain(
            alloc,
            nodes,
            declarations,
            &mut table.inner,
            env,
            left,
            right,
        );
    }
    relate_any(
        alloc,
        nodes,
        declarations,
        table,
        env,
        variance,
        left,
        right,
    )
}
