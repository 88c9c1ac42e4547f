//! Clauses of aliases in a handler.
ghost use Rattle.std.specs.Prelude.{◌≡◌, ◌↔◌, [], true, false, List, IfOk, IsTrue, OnErr, IsOkUnless, Ok};
ghost use Rattle.nts_model.specs.Terms.Trees.{Tree, a_result};
ghost use Rattle.nts_terms.specs.Handles.{Holds, alias_head};
ghost use Rattle.nts_delegate.specs.Clauses.{IsClauseTerm, HoldsNormClause};

use crate::alias_table::NormClause;
use crate::clause_fits::{bodies_fit, head_fits, is_clause_term};
use crate::clauses::Clauses;
use nts_model::Sort;
use nts_store::Fault;
use nts_terms::{AliasDefId, Const, Cx, Term, Ty};
use std::alloc::AllocError;

impl Clauses {
    ghost use Rattle.nts_delegate.specs.Clauses.{said_of, AreClausesReady};
    ghost use Rattle.nts_delegate.specs.Adding.{KeepsClauses, AddsNormClause, MakesRigid};

    /// One more clause, after all others of its alias, with terms of the store. A rigid alias gets none: then
    /// the answer is `false`, and nothing is changed.
    pub fn add_norm_clause(&mut self, clause: NormClause) -> Result<bool, Fault>
        ensures added { result ≡ Ok true → AddsNormClause self.old self.new clause }
        ensures refused { result ≡ Ok false → KeepsClauses self.old self.new }
        ensures loose { IfOk result (λ b. IsTrue b ↔ ((said_of self.old
            (alias_head clause.alias)).is_rigid ≡ false)) }
        ensures err { OnErr result (KeepsClauses self.old self.new) }
        ensures ready { (ts : List Tree) → AreClausesReady ts self.old →
            HoldsNormClause ts clause → AreClausesReady ts self.new }
        ensures memory { IsOkUnless result Fault.Memory }
    {
        self.aliases.add(self.alloc, clause)
    }

    /// Makes an alias rigid: it normalizes to itself alone. An alias that has clauses does not become so: then
    /// the answer is `false`, and nothing is changed.
    pub fn set_rigid(&mut self, alias: AliasDefId) -> Result<bool, Fault>
        ensures made { result ≡ Ok true → MakesRigid self.old self.new alias }
        ensures refused { result ≡ Ok false → KeepsClauses self.old self.new }
        ensures bare { IfOk result (λ b. IsTrue b ↔ ((said_of self.old
            (alias_head alias)).clauses ≡ [])) }
        ensures err { OnErr result (KeepsClauses self.old self.new) }
        ensures ready { (ts : List Tree) → AreClausesReady ts self.old →
            AreClausesReady ts self.new }
        ensures memory { IsOkUnless result Fault.Memory }
    {
        self.aliases.set_rigid(self.alloc, alias)
    }

    /// Whether a clause of an alias may be added to the handlers of this store: it names only its own variables,
    /// has no leaf of a goal's, its binders list what they bind, and its result is a type or a const, as the
    /// alias is.
    pub fn norm_clause_fits(cx: &Cx, clause: &NormClause) -> Result<bool, Fault>
        ensures fits { IfOk result (λ b. IsTrue b ↔ HoldsNormClause cx.now.nodes clause.now) }
        ensures memory { IsOkUnless result Fault.Memory }
    {
        if !head_fits(cx, &clause.fresh, clause.head)? {
            return Ok(false);
        }
        if !result_fits(cx, &clause.fresh, clause.alias, clause.result)? {
            return Ok(false);
        }
        Ok(bodies_fit(cx, &clause.fresh, &clause.body)?)
    }
}

/// Whether a term may be the result of a clause of the alias, over fresh variables of these sorts.
fn result_fits(cx: &Cx, fresh: &[Sort], alias: AliasDefId, term: Term) -> Result<bool, AllocError>
    ensures { IfOk result (λ b. IsTrue b ↔ (Holds (a_result (alias_head alias)) cx.now.nodes
        term.node × IsClauseTerm cx.now.nodes fresh.now term.node)) }
{
    let node = term.node;
    let holds = match alias {
        AliasDefId::Ty(_) => cx.holds(Ty { node }),
        AliasDefId::Const(_) => cx.holds(Const { node }),
    };
    if !holds {
        return Ok(false);
    }
    is_clause_term(cx, fresh, node)
}
