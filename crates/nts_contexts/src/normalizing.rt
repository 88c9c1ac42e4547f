//! Terms that are normalized in a context.
ghost use Rattle.std.specs.Prelude.{◌≡◌, None, Ok, Err, IfOk, IfSome};
ghost use Rattle.nts_model.specs.Terms.Trees.{a_const, a_type, any_term};
ghost use Rattle.nts_model.specs.Derivations.Related.{IsAlias};
ghost use Rattle.nts_store.specs.Errors.{error_of};
ghost use Rattle.nts_table.specs.Tables.{IsSide};
ghost use Rattle.nts_nested_goals.specs.Related.{IsEnvOf};
ghost use Rattle.nts_contexts.specs.Normalizing.{AreOfOneKind, Normalizes, RefusesNormal, rules_in};
ghost use Rattle.nts_nested_goals.specs.Faults.{fault_after, tainted_after};
ghost use Rattle.nts_contexts.specs.Contexts.{IsContextReady, KeepsContext, tree_in};

use crate::context::EvalCtxt;
use nts_adding::is_closed_alias;
use nts_delegate::GoalHandler;
use nts_nested_goals::{add_equal, resolved};
use nts_store::EvalError;
use nts_terms::{Const, ParamEnv, Term, Ty};

impl<H: GoalHandler> EvalCtxt<'_, H> {
    /// What a term is: the term itself, if it is no alias. Of an alias the goal that it is equal to a new variable is added, and all goals
    /// that were added are evaluated, as `try_evaluate_added_goals` does; then the answer is what the table knows of the variable, which is
    /// the variable itself where that is nothing. What is in doubt is left among the goals.
    ///
    /// It is `NoSolution` where one of the goals has none, and the context is tainted then. After an error more may be known in the table.
    pub fn structurally_normalize_term(
        &mut self,
        env: ParamEnv,
        term: Term,
    ) -> Result<Term, EvalError>
        requires ready { IsContextReady H.ready self.old }
        requires env { IsEnvOf self.old.cx.now self.old.table.now env }
        requires term { IsSide any_term self.old.cx.now.nodes self.old.table.now term.node }
        ensures keeps { KeepsContext H.ready self.old self.new }
        ensures itself { (IsAlias (tree_in self.old term.node) → ⊥) →
            self.old.state.now.fault ≡ None → result ≡ Ok term }
        ensures untouched { (IsAlias (tree_in self.old term.node) → ⊥) → self.new ≡ self.old }
        ensures normal { IsAlias (tree_in self.old term.node) → IfOk result (λ r.
            Normalizes H.ready (rules_in H.ready H.handler self.old) self.old self.new
            env term.node r.node) }
        ensures side { IfOk result (λ r.
            IsSide any_term self.new.cx.now.nodes self.new.table.now r.node) }
        ensures kind { IfOk result (λ r.
            AreOfOneKind (tree_in self.new r.node) (tree_in self.old term.node)) }
        ensures no { result ≡ Err EvalError.NoSolution → RefusesNormal H.ready
            (rules_in H.ready H.handler self.old) self.old env term.node }
        ensures taint { self.new.state.now.is_tainted
            ≡ tainted_after self.old.state.now.is_tainted result }
        ensures fault { self.new.state.now.fault ≡ fault_after self.old.state.now.fault result }
        ensures faulted { IfSome self.old.state.now.fault (λ f. result ≡ Err (error_of f)) }
    {
        self.state.check()?;
        if !is_closed_alias(self.cx, term.into()) {
            return Ok(term);
        }
        let begun = add_equal(self.table, self.cx, self.state, env, term);
        let variable = self.state.note(begun)?;
        self.try_evaluate_added_goals()?;
        let value = resolved(self.table, self.cx, variable);
        self.state.note(value)
    }

    /// `structurally_normalize_term` of a type.
    pub fn structurally_normalize_ty(&mut self, env: ParamEnv, ty: Ty) -> Result<Ty, EvalError>
        requires ready { IsContextReady H.ready self.old }
        requires env { IsEnvOf self.old.cx.now self.old.table.now env }
        requires ty { IsSide a_type self.old.cx.now.nodes self.old.table.now ty.node }
        ensures keeps { KeepsContext H.ready self.old self.new }
        ensures itself { (IsAlias (tree_in self.old ty.node) → ⊥) →
            self.old.state.now.fault ≡ None → result ≡ Ok ty }
        ensures untouched { (IsAlias (tree_in self.old ty.node) → ⊥) → self.new ≡ self.old }
        ensures normal { IsAlias (tree_in self.old ty.node) → IfOk result (λ r.
            Normalizes H.ready (rules_in H.ready H.handler self.old) self.old self.new
            env ty.node r.node) }
        ensures side { IfOk result (λ r.
            IsSide a_type self.new.cx.now.nodes self.new.table.now r.node) }
        ensures no { result ≡ Err EvalError.NoSolution → RefusesNormal H.ready
            (rules_in H.ready H.handler self.old) self.old env ty.node }
        ensures taint { self.new.state.now.is_tainted
            ≡ tainted_after self.old.state.now.is_tainted result }
        ensures fault { self.new.state.now.fault ≡ fault_after self.old.state.now.fault result }
        ensures faulted { IfSome self.old.state.now.fault (λ f. result ≡ Err (error_of f)) }
    {
        let term = self.structurally_normalize_term(env, ty.into())?;
        Ok(Ty { node: term.node })
    }

    /// `structurally_normalize_term` of a const.
    pub fn structurally_normalize_const(
        &mut self,
        env: ParamEnv,
        value: Const,
    ) -> Result<Const, EvalError>
        requires ready { IsContextReady H.ready self.old }
        requires env { IsEnvOf self.old.cx.now self.old.table.now env }
        requires value { IsSide a_const self.old.cx.now.nodes self.old.table.now value.node }
        ensures keeps { KeepsContext H.ready self.old self.new }
        ensures itself { (IsAlias (tree_in self.old value.node) → ⊥) →
            self.old.state.now.fault ≡ None → result ≡ Ok value }
        ensures untouched { (IsAlias (tree_in self.old value.node) → ⊥) → self.new ≡ self.old }
        ensures normal { IsAlias (tree_in self.old value.node) → IfOk result (λ r.
            Normalizes H.ready (rules_in H.ready H.handler self.old) self.old self.new
            env value.node r.node) }
        ensures side { IfOk result (λ r.
            IsSide a_const self.new.cx.now.nodes self.new.table.now r.node) }
        ensures no { result ≡ Err EvalError.NoSolution → RefusesNormal H.ready
            (rules_in H.ready H.handler self.old) self.old env value.node }
        ensures taint { self.new.state.now.is_tainted
            ≡ tainted_after self.old.state.now.is_tainted result }
        ensures fault { self.new.state.now.fault ≡ fault_after self.old.state.now.fault result }
        ensures faulted { IfSome self.old.state.now.fault (λ f. result ≡ Err (error_of f)) }
    {
        let term = self.structurally_normalize_term(env, value.into())?;
        Ok(Const { node: term.node })
    }
}
