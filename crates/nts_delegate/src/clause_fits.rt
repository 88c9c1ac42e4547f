//! Whether a clause may be added to a handler.
ghost use Rattle.std.specs.Prelude.{◌≡◌, ◌↔◌, IfOk, IsTrue, IsOkUnless};
ghost use Rattle.nts_store.specs.Growth.{IsIn};
ghost use Rattle.nts_terms.specs.Handles.{HoldsArgs, HoldsPredicate};
ghost use Rattle.nts_delegate.specs.Clauses.{MayHave, is_foreign, IsClauseTerm, AreBodies, HoldsClause};

use crate::clauses::{Clause, Clauses};
use nts_candidates::{is_foreign_leaf_of, names_fresh};
use nts_model::{Label, PredicateHead, Sort};
use nts_store::{Fault, LabelTest, NodeId, all_labels};
use nts_terms::{Cx, GenericArgs, Predicate};
use std::alloc::AllocError;

/// What the labels of a clause's terms are to be, over fresh variables of these sorts.
#[derive(Drop)]
struct ClauseLabels<'a> {
    fresh: &'a [Sort],
}

impl LabelTest for ClauseLabels<'_> {
    ghost passes = { λ s l. MayHave s.fresh.now l };

    fn test(&self, label: Label) -> bool {
        names_fresh(self.fresh, label) && !is_foreign_label(label)
    }
}

impl Clauses {
    /// Whether a clause may be added to the handlers of this store: it names only its own variables,
    /// has no leaf of a goal's, and its binders list what they bind.
    pub fn clause_fits(cx: &Cx, clause: &Clause) -> Result<bool, Fault>
        ensures fits { IfOk result (λ b. IsTrue b ↔ HoldsClause cx.now.nodes clause.now) }
        ensures memory { IsOkUnless result Fault.Memory }
    {
        if !head_fits(cx, &clause.fresh, clause.head)? {
            return Ok(false);
        }
        Ok(bodies_fit(cx, &clause.fresh, &clause.body)?)
    }
}

pub(crate) fn head_fits(cx: &Cx, fresh: &[Sort], head: GenericArgs) -> Result<bool, AllocError>
    ensures { IfOk result (λ b. IsTrue b ↔ (HoldsArgs cx.now.nodes head × IsClauseTerm cx.now.nodes
        fresh.now head.node)) }
{
    if !cx.holds(head) {
        return Ok(false);
    }
    is_clause_term(cx, fresh, head.node)
}

/// Whether each predicate may be a condition of a clause over fresh variables of these sorts.
pub(crate) fn bodies_fit(cx: &Cx, fresh: &[Sort], body: &[Predicate]) -> Result<bool, AllocError>
    ensures { IfOk result (λ b. IsTrue b ↔ AreBodies cx.now.nodes fresh.now body.now) }
{
    for predicate in body {
        if !body_fits(cx, fresh, *predicate)? {
            return Ok(false);
        }
    }
    Ok(true)
}

fn body_fits(cx: &Cx, fresh: &[Sort], predicate: Predicate) -> Result<bool, AllocError>
    ensures { IfOk result (λ b. IsTrue b ↔ (HoldsPredicate cx.now.nodes predicate × IsClauseTerm
        cx.now.nodes fresh.now predicate.node)) }
{
    if !cx.holds(predicate) {
        return Ok(false);
    }
    is_clause_term(cx, fresh, predicate.node)
}

pub(crate) fn is_clause_term(cx: &Cx, fresh: &[Sort], t: NodeId) -> Result<bool, AllocError>
    requires { IsIn cx.now.nodes t }
    ensures { IfOk result (λ b. IsTrue b ↔ IsClauseTerm cx.now.nodes fresh.now t) }
{
    if cx.nodes.flags(t).escaping.is_some() {
        return Ok(false);
    }
    if !cx.nodes.is_well_bound(t) {
        return Ok(false);
    }
    all_labels(cx.alloc, &cx.nodes, t, &ClauseLabels { fresh })
}

/// Whether a clause may not have the label, whatever it names.
fn is_foreign_label(label: Label) -> bool
    ensures { result ≡ is_foreign label }
{
    match label {
        Label::Leaf(leaf) => is_foreign_leaf_of(leaf),
        Label::Predicate(PredicateHead::ConstEquate) => true,
        Label::Predicate(PredicateHead::NormalizesTo(_)) => true,
        _ => false,
    }
}
