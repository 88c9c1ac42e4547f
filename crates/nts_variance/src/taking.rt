//! What a pair of terms by their heads comes to, one kind of pair a function.
ghost use Rattle.std.specs.Prelude.{◌≡◌, ◌≢◌, ◌⊎◌, ◌<◌, ℕ, List, ◌∷◌, [], true, false, OnOk, IfOk, Some, Err};
ghost use Rattle.nts_variance_model.specs.Variances.Leaving.{Refuses};
ghost use Rattle.nts_model.specs.declared.labels.Variance.TheVariants as variances;
ghost use Rattle.nts_model.specs.declared.labels.Variance.{Variance};
ghost use Rattle.nts_model.specs.Terms.Trees.{any_label, children, is_alias, is_infer, kind_of, node, of_sort, IsClosed};
ghost use Rattle.nts_model.specs.declared.labels.Sort.{Sort};
ghost use Rattle.nts_model.specs.Tables.Resolving.{IsInfer};
ghost use Rattle.nts_model.specs.Derivations.Related.{IsAlias};
ghost use Rattle.nts_store.specs.Growth.{tree_at, IsIn, Extends};
ghost use Rattle.nts_terms.specs.Signatures.{variances_in};
ghost use Rattle.nts_unify.specs.Entries.{KeepsHidden};
ghost use Rattle.nts_unify.specs.Reading.{content_of, IsLawful};
ghost use Rattle.nts_unify.specs.Changing.{KeepsKnowing};
ghost use Rattle.nts_relating.specs.Relating.{IsRegionOf};
ghost use Rattle.nts_variance.specs.Parts.{has_parts as label_has_parts, form_of_tree};
ghost use Rattle.nts_variance.specs.Terms.{pair_at};
ghost use Rattle.nts_variance.specs.Varying.{pair_in, IsMadeAgain};
ghost use Rattle.nts_variance.specs.Equating.{OwesAliases};
ghost use Rattle.nts_variance.specs.Taking.{number_at, IsPairSide, IsPair, IsTaken, IsPaid, SaysAllOwed, AreNoSides};

use crate::along::{Relating, Side, bind_along};
use crate::looking::type_number;
use crate::parts::{has_parts, holder};
use crate::splitting::Taken;
use crate::vary_walk::{is_closed_alias, record_regions};
use nts_model::{Label, TyHead, Variance};
use nts_relating::relate_nodes;
use nts_store::{EvalError, NodeId, Nodes, sort_of};
use nts_terms::Declarations;
use nts_unify::{InferCtxtInner, is_same, names_free_region, region_number};
use std::alloc::Global;

/// The pair as a goal, of which one side is closed: a goal's sides both are, and they are of one sort.
pub fn owe(nodes: &Nodes, pair: Relating) -> Result<Taken, EvalError>
    requires left { IsIn nodes.now pair.left }
    requires right { IsIn nodes.now pair.right }
    requires left_sort { (s : Sort) × (kind_of (tree_at nodes.now pair.left) ≡ Some (of_sort s)) }
    requires right_sort { (s : Sort) × (kind_of (tree_at nodes.now pair.right) ≡ Some (of_sort s)) }
    ensures owed { IfOk result (λ r. r ≡ Taken.Owed) }
    ensures closed { OnOk result (IsClosed (tree_at nodes.now pair.left) ×
        IsClosed (tree_at nodes.now pair.right)) }
    ensures kinds { OnOk result (kind_of (tree_at nodes.now pair.left) ≡ kind_of
        (tree_at nodes.now pair.right)) }
    ensures full { result ≢ Err EvalError.Full }
    ensures no { result ≡ Err EvalError.NoSolution →
        AreNoSides (tree_at nodes.now pair.left) (tree_at nodes.now pair.right) }
{
    if nodes.flags(pair.left).escaping.is_some() {
        return Err(EvalError::NoSolution);
    }
    if nodes.flags(pair.right).escaping.is_some() {
        return Err(EvalError::NoSolution);
    }
    if sort_of(nodes.label(pair.left)) != sort_of(nodes.label(pair.right)) {
        return Err(EvalError::NoSolution);
    }
    Ok(Taken::Owed)
}

/// Whether a goal is to say what a pair with this side owes: for an alias without escaping bound variables, or a type variable
/// with a value.
pub fn is_owed(nodes: &Nodes, table: &InferCtxtInner, t: NodeId) -> bool
    requires lawful { IsLawful nodes.now table.now.entries }
    requires side { IsPairSide nodes.now (content_of nodes.now table.now.entries) t }
    ensures yes { result ≡ true → SaysAllOwed table.now.entries (tree_at nodes.now t) }
    ensures no { result ≡ false → SaysAllOwed table.now.entries (tree_at nodes.now t) → ⊥ }
{
    // The nodes of a store are formed.
    nodes.terms_are_formed();
    let label = nodes.label(t);
    if let Some(n) = type_number(label) {
        return table.probe_variable(n).is_ok();
    }
    is_closed_alias(label, nodes.flags(t))
}

/// Whether an invariant pair may be made equal at once: no side has an alias, and one has no inference variable, whose value might.
fn is_plain(nodes: &Nodes, pair: Relating) -> bool
    requires left { IsIn nodes.now pair.left }
    requires right { IsIn nodes.now pair.right }
    ensures left { result ≡ true → any_label is_alias (tree_at nodes.now pair.left) ≡ false }
    ensures right { result ≡ true → any_label is_alias (tree_at nodes.now pair.right) ≡ false }
    ensures values { result ≡ true → (any_label is_infer (tree_at nodes.now pair.left) ≡ false) ⊎
        (any_label is_infer (tree_at nodes.now pair.right) ≡ false) }
{
    let left = nodes.flags(pair.left);
    let right = nodes.flags(pair.right);
    if left.has_alias {
        return false;
    }
    if right.has_alias {
        return false;
    }
    if left.has_infer {
        return !right.has_infer;
    }
    true
}

/// Makes the sides of an invariant pair equal, or leaves it.
pub fn equate(
    alloc: Global,
    nodes: &mut Nodes,
    table: &mut InferCtxtInner,
    pair: Relating,
) -> Result<Taken, EvalError>
    requires lawful { IsLawful nodes.old table.old.entries }
    requires pair { IsPair nodes.old (content_of nodes.old table.old.entries) pair }
    requires invariant { pair.variance ≡ variances.Invariant }
    ensures extends { Extends nodes.old nodes.new }
    ensures changes { KeepsHidden table.old table.new }
    ensures taken { (declared : ℕ → List Variance) →
        IfOk result (IsTaken declared nodes.old nodes.new table.old.entries table.new.entries
        pair) }
    ensures full { result ≢ Err EvalError.Full }
    ensures no { (declared : ℕ → List Variance) → result ≡ Err EvalError.NoSolution →
        Refuses declared (content_of nodes.old table.old.entries) (pair_at nodes.old pair ∷ []) }
{
    // The nodes of a store are formed.
    nodes.terms_are_formed();
    if !is_plain(nodes, pair) {
        return Ok(Taken::Equal);
    }
    match relate_nodes(alloc, nodes, table, pair.left, pair.right) {
        Err(error) => Err(error),
        Ok(()) => Ok(Taken::Done),
    }
}

/// Takes a pair of two inference variables. Two type variables stay two, unless they are one class.
pub fn take_variables(nodes: &Nodes, table: &InferCtxtInner, pair: Relating) -> Taken
    requires lawful { IsLawful nodes.now table.now.entries }
    requires pair { IsPair nodes.now (content_of nodes.now table.now.entries) pair }
    requires left { IsInfer (tree_at nodes.now pair.left) }
    requires right { IsInfer (tree_at nodes.now pair.right) }
    requires varies { pair.variance ≢ variances.Invariant }
    ensures { (declared : ℕ → List Variance) →
        IsTaken declared nodes.now nodes.now table.now.entries table.now.entries pair result }
{
    // The nodes of a store are formed.
    nodes.terms_are_formed();
    let Some(x) = type_number(nodes.label(pair.left)) else {
        return Taken::Equal;
    };
    let Some(y) = type_number(nodes.label(pair.right)) else {
        return Taken::Equal;
    };
    if table.root(x) == table.root(y) {
        return Taken::Done;
    }
    Taken::Owed
}

/// Takes a pair of an inference variable and another term, which is no alias without escaping bound variables: a variable without a
/// value is made one with what stands for the term, a type variable with a value has a goal, and one of a const or a number is left.
pub fn take_variable(
    alloc: Global,
    nodes: &mut Nodes,
    declarations: &Declarations,
    table: &mut InferCtxtInner,
    pair: Relating,
    side: Side,
    variance: Variance,
    own: NodeId,
    term: NodeId,
) -> Result<Taken, EvalError>
    requires lawful { IsLawful nodes.old table.old.entries }
    requires own { IsPairSide nodes.old (content_of nodes.old table.old.entries) own }
    requires term { IsPairSide nodes.old (content_of nodes.old table.old.entries) term }
    requires variable { number_at (tree_at nodes.old own) ≡ Some side.variable }
    requires node { IsInfer (tree_at nodes.old term) → ⊥ }
    requires rigid { IsAlias (tree_at nodes.old term) → ⊥ }
    requires pair { pair ≡ pair_in side.is_turned variance own term }
    requires varies { pair.variance ≢ variances.Invariant }
    ensures extends { Extends nodes.old nodes.new }
    ensures changes { KeepsHidden table.old table.new }
    ensures taken { IfOk result (IsTaken (variances_in declarations.now) nodes.old nodes.new
        table.old.entries table.new.entries pair) }
    ensures full { result ≢ Err EvalError.Full }
    ensures no { result ≡ Err EvalError.NoSolution →
        Refuses (variances_in declarations.now) (content_of nodes.old table.old.entries)
        (pair_at nodes.old pair ∷ []) }
{
    // The nodes of a store are formed.
    nodes.terms_are_formed();
    if type_number(nodes.label(own)).is_none() {
        return Ok(Taken::Equal);
    }
    match table.probe_variable(side.variable) {
        Ok(_) => owe(nodes, pair),
        Err(root) => {
            let side = Side {
                variable: root,
                is_turned: side.is_turned,
            };
            match bind_along(alloc, nodes, declarations, table, side, variance, term) {
                Err(error) => Err(error),
                Ok(goals) => Ok(Taken::Bound(goals)),
            }
        }
    }
}

/// Takes a pair of two free regions: what it says is recorded, unless they are variables of one class.
fn take_regions(
    nodes: &Nodes,
    table: &mut InferCtxtInner,
    pair: Relating,
) -> Result<Taken, EvalError>
    requires lawful { IsLawful nodes.now table.old.entries }
    requires left { IsRegionOf nodes.now table.old.entries pair.left }
    requires right { IsRegionOf nodes.now table.old.entries pair.right }
    ensures changes { KeepsHidden table.old table.new }
    ensures taken { (declared : ℕ → List Variance) →
        IfOk result (IsTaken declared nodes.now nodes.now table.old.entries table.new.entries
        pair) }
    ensures kept { OnOk result (KeepsKnowing (content_of nodes.now table.old.entries)
        (content_of nodes.now table.new.entries)) }
    ensures done { IfOk result (λ r. r ≡ Taken.Done) }
    ensures full { result ≢ Err EvalError.Full }
    ensures no { result ≢ Err EvalError.NoSolution }
{
    if let Some(x) = region_number(nodes.label(pair.left)) {
        if let Some(y) = region_number(nodes.label(pair.right)) {
            if table.root(x) == table.root(y) {
                return Ok(Taken::Done);
            }
        }
    }
    record_regions(table, pair)?;
    Ok(Taken::Done)
}

/// Whether two nodes of one label, which have parts, are of one form: function pointers that bind the same sorts.
fn binds_same(nodes: &Nodes, label: Label, pair: Relating) -> bool
    requires left { IsIn nodes.now pair.left }
    requires right { IsIn nodes.now pair.right }
    requires left_is { tree_at nodes.now pair.left ≡ node label
        (children (tree_at nodes.now pair.left)) }
    requires right_is { tree_at nodes.now pair.right ≡ node label
        (children (tree_at nodes.now pair.right)) }
    requires parts { label_has_parts label ≡ true }
    ensures yes { result ≡ true → form_of_tree (tree_at nodes.now pair.left) ≡ form_of_tree
        (tree_at nodes.now pair.right) }
    ensures no { result ≡ false → form_of_tree (tree_at nodes.now pair.left) ≡ form_of_tree
        (tree_at nodes.now pair.right) → ⊥ }
{
    // The nodes of a store are formed.
    nodes.terms_are_formed();
    if let Label::Ty(TyHead::FnPtr) = label {
        return nodes.same(nodes.child(pair.left, 0), nodes.child(pair.right, 0));
    }
    true
}

/// Takes a pair of two nodes that have parts: those of one form, with as many parts, are related where their parts are.
fn take_parts(
    nodes: &Nodes,
    table: &InferCtxtInner,
    label: Label,
    pair: Relating,
) -> Result<Taken, EvalError>
    requires pair { IsPair nodes.now (content_of nodes.now table.now.entries) pair }
    requires left { IsMadeAgain (tree_at nodes.now pair.left) }
    requires right { IsMadeAgain (tree_at nodes.now pair.right) }
    requires left_is { tree_at nodes.now pair.left ≡ node label
        (children (tree_at nodes.now pair.left)) }
    requires right_is { tree_at nodes.now pair.right ≡ node label
        (children (tree_at nodes.now pair.right)) }
    requires parts { label_has_parts label ≡ true }
    ensures taken { (declared : ℕ → List Variance) →
        IfOk result (IsTaken declared nodes.now nodes.now table.now.entries table.now.entries
        pair) }
    ensures parts { IfOk result (λ r. r ≡ Taken.Parts) }
    ensures full { result ≢ Err EvalError.Full }
    ensures no { (declared : ℕ → List Variance) → result ≡ Err EvalError.NoSolution →
        Refuses declared (content_of nodes.now table.now.entries) (pair_at nodes.now pair ∷ []) }
{
    if !binds_same(nodes, label, pair) {
        return Err(EvalError::NoSolution);
    }
    let left = holder(nodes, pair.left);
    let right = holder(nodes, pair.right);
    if nodes.child_count(left) != nodes.child_count(right) {
        return Err(EvalError::NoSolution);
    }
    Ok(Taken::Parts)
}

/// Takes a pair of two nodes that are neither inference variables nor aliases without escaping bound variables.
pub fn take_heads(
    nodes: &Nodes,
    table: &mut InferCtxtInner,
    pair: Relating,
) -> Result<Taken, EvalError>
    requires lawful { IsLawful nodes.now table.old.entries }
    requires pair { IsPair nodes.now (content_of nodes.now table.old.entries) pair }
    requires left_node { IsInfer (tree_at nodes.now pair.left) → ⊥ }
    requires right_node { IsInfer (tree_at nodes.now pair.right) → ⊥ }
    requires left_rigid { IsAlias (tree_at nodes.now pair.left) → ⊥ }
    requires right_rigid { IsAlias (tree_at nodes.now pair.right) → ⊥ }
    ensures changes { KeepsHidden table.old table.new }
    ensures taken { (declared : ℕ → List Variance) →
        IfOk result (IsTaken declared nodes.now nodes.now table.old.entries table.new.entries
        pair) }
    ensures paid { IfOk result (IsPaid (content_of nodes.now table.old.entries)
        (content_of nodes.now table.new.entries) (pair_at nodes.now pair)) }
    ensures due { IfOk result (OwesAliases nodes.now (pair_at nodes.now pair)) }
    ensures full { result ≢ Err EvalError.Full }
    ensures no { (declared : ℕ → List Variance) → result ≡ Err EvalError.NoSolution →
        Refuses declared (content_of nodes.now table.old.entries) (pair_at nodes.now pair ∷ []) }
{
    // The nodes of a store are formed.
    nodes.terms_are_formed();
    let left = nodes.label(pair.left);
    let right = nodes.label(pair.right);
    if names_free_region(left) && names_free_region(right) {
        return take_regions(nodes, table, pair);
    }
    if !is_same(left, right) {
        return Err(EvalError::NoSolution);
    }
    if !has_parts(left) {
        return Ok(Taken::Done);
    }
    take_parts(nodes, table, left, pair)
}
