//! What is looked at of a piece of a term before it is made again.
ghost use Rattle.std.specs.Prelude.{◌≡◌, ◌≢◌, ◌⊎◌, ℕ, ◌<◌, ◌≤◌, length, List, IfOk, Some, None, Err, true, false};
ghost use Rattle.nts_model.specs.declared.labels.Leaf.TheVariants as leaves;
ghost use Rattle.nts_model.specs.declared.labels.Label.TheVariants as labels;
ghost use Rattle.nts_model.specs.declared.labels.VariableKind.TheVariants as kinds;
ghost use Rattle.nts_model.specs.Terms.Trees.{any_label, children, is_alias, label_of, node, IsFormed};
ghost use Rattle.nts_model.specs.Tables.Resolving.{resolved};
ghost use Rattle.nts_model.specs.declared.labels.Variance.TheVariants as variances;
ghost use Rattle.nts_store.specs.TypeFlags.{flags_of};
ghost use Rattle.nts_model.specs.Tables.Contents.{kind_at};
ghost use Rattle.nts_store.specs.Growth.{tree_at, IsIn, Extends};
ghost use Rattle.nts_unify.specs.Entries.{KeepsHidden};
ghost use Rattle.nts_unify.specs.Reading.{content_of, IsLawful};
ghost use Rattle.nts_variance.specs.Parts.{const_variable, number_of_type, StandsAlone};
ghost use Rattle.nts_variance.specs.Terms.{IsPart};
ghost use Rattle.nts_variance.specs.Varying.{IsLook, LookRefuses};

use crate::along::Relating;
use crate::hiding::hides_nothing;
use crate::parts::has_parts;
use crate::vary_walk::{Look, Spot, Target, is_closed_alias, make_fresh, make_region};
use nts_model::{Label, Leaf, VariableKind, Variance};
use nts_relating::{Target as ValueTarget, generalize};
use nts_store::{EvalError, Nodes, TypeFlags, may_vary};
use nts_unify::{InferCtxtInner, infer_number};
use std::alloc::{AllocError, Global};

/// What a type variable that may vary is: a fresh variable stands for it where it has no value.
fn look_at_variable(
    nodes: &mut Nodes,
    table: &mut InferCtxtInner,
    goals: &mut Vec<Relating>,
    target: Target,
    spot: Spot,
    n: usize,
) -> Result<Look, EvalError>
    requires lawful { IsLawful nodes.old table.old.entries }
    requires part { IsPart nodes.old (content_of nodes.old table.old.entries) spot }
    requires formed { IsFormed (tree_at nodes.old spot.term) }
    requires known { target.variable < length table.old.entries.variables }
    requires named { target.universe ≤ table.old.entries.universe }
    requires no_region { kind_at (content_of nodes.old table.old.entries) target.variable ≢ Some
        kinds.Region }
    requires is { label_of (tree_at nodes.old spot.term) ≡ Some (labels.Leaf
        (leaves.Variable kinds.Ty n)) }
    requires varies { spot.variance ≢ variances.Invariant }
    ensures extends { Extends nodes.old nodes.new }
    ensures changes { KeepsHidden table.old table.new }
    ensures look { (declared : ℕ → List Variance) →
        IfOk result (IsLook declared target.is_turned target.universe target.variable nodes.old
        nodes.new table.old.entries table.new.entries spot goals.old.items goals.new.items) }
    ensures full { result ≢ Err EvalError.Full }
    ensures no { result ≡ Err EvalError.NoSolution →
        LookRefuses (content_of nodes.old table.old.entries) target.variable target.universe spot
        (tree_at nodes.old spot.term) }
{
    match table.probe_variable(n) {
        Ok(value) => Ok(Look::Value(value)),
        Err(root) => {
            if root == target.variable {
                return Err(EvalError::NoSolution);
            }
            let made = make_fresh(
                nodes,
                table,
                goals,
                target,
                spot,
                VariableKind::Ty,
                Some(root),
            )?;
            Ok(Look::Made(made))
        }
    }
}

/// The number of a type variable.
pub fn type_number(label: Label) -> Option<usize>
    ensures { result ≡ number_of_type label }
{
    match label {
        Label::Leaf(Leaf::Variable(VariableKind::Ty, n)) => Some(n),
        _ => None,
    }
}

/// Whether the label is a const variable's.
fn is_const_variable(label: Label) -> bool
    ensures { result ≡ const_variable label }
{
    matches!(label, Label::Leaf(Leaf::Variable(VariableKind::Const, _)))
}

/// Whether a part without aliases stands as it is: it is related invariantly, a const variable, or nothing in it may vary.
fn stands_alone(variance: Variance, label: Label, flags: TypeFlags) -> bool
    ensures alone { result ≡ true → ((variance ≡ variances.Invariant) ⊎
        (const_variable label ≡ true)) ⊎ ((flags.has_infer ≡ false) ×
        (flags.has_free_region ≡ false)) }
    ensures varies { result ≡ false → variance ≢ variances.Invariant }
    ensures no_const { result ≡ false → const_variable label ≡ false }
{
    if variance == Variance::Invariant || is_const_variable(label) {
        return true;
    }
    !flags.has_infer && !flags.has_free_region
}

/// The value that stands for a part as it is.
fn look_at_value(
    alloc: Global,
    nodes: &mut Nodes,
    table: &mut InferCtxtInner,
    target: Target,
    spot: Spot,
) -> Result<Look, EvalError>
    requires lawful { IsLawful nodes.old table.old.entries }
    requires part { IsPart nodes.old (content_of nodes.old table.old.entries) spot }
    requires formed { IsFormed (tree_at nodes.old spot.term) }
    requires known { target.variable < length table.old.entries.variables }
    requires named { target.universe ≤ table.old.entries.universe }
    requires no_region { kind_at (content_of nodes.old table.old.entries) target.variable ≢ Some
        kinds.Region }
    requires alone { StandsAlone spot.variance (tree_at nodes.old spot.term) }
    requires plain { any_label is_alias (tree_at nodes.old spot.term) ≡ false }
    requires resolved { spot.is_quiet ≡ false →
        any_label is_alias (resolved (content_of nodes.old table.old.entries)
        (tree_at nodes.old spot.term)) ≡ false }
    ensures extends { Extends nodes.old nodes.new }
    ensures changes { KeepsHidden table.old table.new }
    ensures look { (declared : ℕ → List Variance) (gs : List Relating) →
        IfOk result (IsLook declared target.is_turned target.universe target.variable nodes.old
        nodes.new table.old.entries table.new.entries spot gs gs) }
    ensures full { result ≢ Err EvalError.Full }
    ensures no { result ≡ Err EvalError.NoSolution →
        LookRefuses (content_of nodes.old table.old.entries) target.variable target.universe spot
        (tree_at nodes.old spot.term) }
{
    let value_target = ValueTarget {
        variable: target.variable,
        universe: target.universe,
        binders: spot.binders,
    };
    match generalize(alloc, nodes, table, value_target, spot.term) {
        Err(error) => Err(error),
        Ok(made) => Ok(Look::Made(made)),
    }
}

/// Whether a part without aliases is seen to hide none behind its variables. Where a part may hide some, its parts are not searched
/// again, each of which would take as long.
fn is_seen_plain(
    alloc: Global,
    nodes: &Nodes,
    table: &InferCtxtInner,
    spot: Spot,
) -> Result<bool, AllocError>
    requires lawful { IsLawful nodes.now table.now.entries }
    requires within { IsIn nodes.now spot.term }
    requires plain { any_label is_alias (tree_at nodes.now spot.term) ≡ false }
    ensures { IfOk result (λ b. b ≡ true →
        any_label is_alias (resolved (content_of nodes.now table.now.entries)
        (tree_at nodes.now spot.term)) ≡ false) }
{
    if spot.is_searched {
        return Ok(false);
    }
    hides_nothing(alloc, nodes, table, spot.term)
}

/// What a part without aliases is that stands as it is: related invariantly, a const, or one in which nothing may vary. A variable's
/// value may have aliases.
fn look_at_piece(
    alloc: Global,
    nodes: &mut Nodes,
    table: &mut InferCtxtInner,
    target: Target,
    spot: Spot,
    label: Label,
    flags: TypeFlags,
) -> Result<Look, EvalError>
    requires lawful { IsLawful nodes.old table.old.entries }
    requires part { IsPart nodes.old (content_of nodes.old table.old.entries) spot }
    requires formed { IsFormed (tree_at nodes.old spot.term) }
    requires known { target.variable < length table.old.entries.variables }
    requires named { target.universe ≤ table.old.entries.universe }
    requires no_region { kind_at (content_of nodes.old table.old.entries) target.variable ≢ Some
        kinds.Region }
    requires alone { StandsAlone spot.variance (tree_at nodes.old spot.term) }
    requires plain { any_label is_alias (tree_at nodes.old spot.term) ≡ false }
    requires label { tree_at nodes.old spot.term ≡ node label
        (children (tree_at nodes.old spot.term)) }
    requires flags { flags ≡ flags_of (tree_at nodes.old spot.term) }
    ensures extends { Extends nodes.old nodes.new }
    ensures changes { KeepsHidden table.old table.new }
    ensures look { (declared : ℕ → List Variance) (gs : List Relating) →
        IfOk result (IsLook declared target.is_turned target.universe target.variable nodes.old
        nodes.new table.old.entries table.new.entries spot gs gs) }
    ensures full { result ≢ Err EvalError.Full }
    ensures no { result ≡ Err EvalError.NoSolution →
        LookRefuses (content_of nodes.old table.old.entries) target.variable target.universe spot
        (tree_at nodes.old spot.term) }
{
    if spot.is_quiet || !flags.has_infer {
        return look_at_value(alloc, nodes, table, target, spot);
    }
    if let Some(n) = infer_number(label) {
        if let Ok(value) = table.probe_variable(n) {
            return Ok(Look::Through(value));
        }
        return look_at_value(alloc, nodes, table, target, spot);
    }
    // Made at once, what the part has many times is made once.
    if is_seen_plain(alloc, nodes, table, spot)? {
        return look_at_value(alloc, nodes, table, target, spot);
    }
    Ok(Look::Node)
}

/// What a part is, with a term for it where it has no parts of its own to be gone through.
pub fn look_at(
    alloc: Global,
    nodes: &mut Nodes,
    table: &mut InferCtxtInner,
    goals: &mut Vec<Relating>,
    target: Target,
    spot: Spot,
) -> Result<Look, EvalError>
    requires lawful { IsLawful nodes.old table.old.entries }
    requires part { IsPart nodes.old (content_of nodes.old table.old.entries) spot }
    requires known { target.variable < length table.old.entries.variables }
    requires named { target.universe ≤ table.old.entries.universe }
    requires no_region { kind_at (content_of nodes.old table.old.entries) target.variable ≢ Some
        kinds.Region }
    ensures extends { Extends nodes.old nodes.new }
    ensures changes { KeepsHidden table.old table.new }
    ensures look { (declared : ℕ → List Variance) →
        IfOk result (IsLook declared target.is_turned target.universe target.variable nodes.old
        nodes.new table.old.entries table.new.entries spot goals.old.items goals.new.items) }
    ensures full { result ≢ Err EvalError.Full }
    ensures no { result ≡ Err EvalError.NoSolution →
        LookRefuses (content_of nodes.old table.old.entries) target.variable target.universe spot
        (tree_at nodes.old spot.term) }
{
    // The nodes of a store are formed.
    nodes.terms_are_formed();
    let label = nodes.label(spot.term);
    let flags = nodes.flags(spot.term);
    if !flags.has_alias && stands_alone(spot.variance, label, flags) {
        return look_at_piece(alloc, nodes, table, target, spot, label, flags);
    }
    if is_closed_alias(label, flags) {
        let kind = match label {
            Label::Const(_) => VariableKind::Const,
            _ => VariableKind::Ty,
        };
        let made = make_fresh(nodes, table, goals, target, spot, kind, None)?;
        return Ok(Look::Made(made));
    }
    if has_parts(label) {
        return Ok(Look::Node);
    }
    if let Some(n) = type_number(label) {
        return look_at_variable(nodes, table, goals, target, spot, n);
    }
    if may_vary(label) {
        let made = make_region(nodes, table, target, spot)?;
        return Ok(Look::Made(made));
    }
    Ok(Look::Made(spot.term))
}
