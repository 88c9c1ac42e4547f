//! Whether a goal may be asked at the root.
ghost use Rattle.std.specs.Prelude.{◌≡◌, ◌↔◌, IsTrue, false, IfOk, IsOkUnless};
ghost use Rattle.nts_model.specs.Terms.Trees.{any_label};
ghost use Rattle.nts_model.specs.Tables.Resolving.{deeply_resolved};
ghost use Rattle.nts_store.specs.Growth.{tree_at, IsIn};
ghost use Rattle.nts_unify.specs.Reading.{content_of};
ghost use Rattle.nts_table.specs.Tables.{IsTable};
ghost use Rattle.nts_meaning.specs.Evaluation.{IsRootTerm, is_type_variable, is_internal};
ghost use Rattle.nts_table.specs.Tables.{IsTermIn};
ghost use Rattle.nts_terms.specs.Rest.{Grows};

use nts_meaning::resolve_term;
use nts_model::{Label, Leaf, PredicateHead, VariableKind};
use nts_store::{Fault, LabelTest, NodeId, all_labels};
use nts_table::InferCtxt;
use nts_terms::Cx;
use std::alloc::AllocError;

/// No label is a type variable.
#[derive(Drop)]
struct NoTypeVariable;

impl LabelTest for NoTypeVariable {
    ghost passes = { λ s l. is_type_variable l ≡ false };

    fn test(&self, label: Label) -> bool {
        !matches!(label, Label::Leaf(Leaf::Variable(VariableKind::Ty, _)))
    }
}

/// No label is a predicate that only an evaluation asks.
#[derive(Drop)]
struct NoInternalPredicate;

impl LabelTest for NoInternalPredicate {
    ghost passes = { λ s l. is_internal l ≡ false };

    fn test(&self, label: Label) -> bool {
        !names_internal(label)
    }
}

/// Whether a term may stand in a goal at the root: no bound variable escapes, and it is a term of the
/// table's.
pub fn is_root_term(table: &InferCtxt, cx: &Cx, t: NodeId) -> Result<bool, AllocError>
    requires { IsIn cx.now.nodes t }
    ensures { IfOk result (λ b. IsTrue b ↔ IsRootTerm cx.now.nodes table.now t) }
{
    let flags = cx.nodes.flags(t);
    if flags.escaping.is_some() {
        return Ok(false);
    }
    table.knows_node(cx.alloc, &cx.nodes, t)
}

/// Whether a predicate may be asked at the root.
pub fn is_asked(cx: &Cx, t: NodeId) -> Result<bool, AllocError>
    requires { IsIn cx.now.nodes t }
    ensures { IfOk result (λ b. IsTrue b ↔ (any_label is_internal
        (tree_at cx.now.nodes t) ≡ false)) }
{
    let label = cx.nodes.label(t);
    if cx.nodes.child_count(t) != 2 || names_internal(label) {
        return has_no_internal(cx, t);
    }
    // A binder, and what stands under it.
    if !has_no_internal(cx, cx.nodes.child(t, 0))? {
        return Ok(false);
    }
    let below = below_only_children(cx, cx.nodes.child(t, 1));
    has_no_internal(cx, below)
}

/// Whether no part of a term is a predicate that only an evaluation asks.
fn has_no_internal(cx: &Cx, t: NodeId) -> Result<bool, AllocError>
    requires { IsIn cx.now.nodes t }
    ensures { IfOk result (λ b. IsTrue b ↔ (any_label is_internal
        (tree_at cx.now.nodes t) ≡ false)) }
{
    all_labels(cx.alloc, &cx.nodes, t, &NoInternalPredicate)
}

fn names_internal(label: Label) -> bool
    ensures { result ≡ is_internal label }
{
    matches!(
        label,
        Label::Predicate(PredicateHead::ConstEquate | PredicateHead::NormalizesTo(_))
    )
}

/// The first node on the way down from a term that has more children than one, or none, or may not be asked. The way there needs no
/// list of what is left to be seen.
fn below_only_children(cx: &Cx, t: NodeId) -> NodeId
    requires { IsIn cx.now.nodes t }
    ensures within { IsIn cx.now.nodes result }
    ensures same { any_label is_internal (tree_at cx.now.nodes t) ≡ any_label is_internal
        (tree_at cx.now.nodes result) }
{
    let mut term = t;
    'down: while cx.nodes.child_count(term) == 1 && !names_internal(cx.nodes.label(term)) {
        term = cx.nodes.child(term, 0);
    }
    term
}

/// Whether an environment, resolved, has no type variable.
pub fn is_settled_env(table: &InferCtxt, cx: &mut Cx, t: NodeId) -> Result<bool, Fault>
    requires table { IsTable cx.old.nodes table.now }
    requires term { IsTermIn cx.old.nodes table.now t }
    ensures answer { IfOk result (λ b. IsTrue b ↔ (any_label is_type_variable (deeply_resolved
        (content_of cx.old.nodes table.now.entries) (tree_at cx.old.nodes t)) ≡ false)) }
    ensures grows { Grows cx.old cx.new }
    ensures memory { IsOkUnless result Fault.Memory }
{
    let resolved = resolve_term(table, cx, t)?;
    let settled = all_labels(cx.alloc, &cx.nodes, resolved, &NoTypeVariable)?;
    Ok(settled)
}
