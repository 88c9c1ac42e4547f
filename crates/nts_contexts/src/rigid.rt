//! An alias that is related with a variable in a context.
ghost use Rattle.std.specs.Prelude.{◌≡◌, ◌≢◌, None, Err, IfSome, OnOk, OnErr};
ghost use Rattle.nts_model.specs.Terms.Trees.{is, arguments, any_term};
ghost use Rattle.nts_store.specs.Errors.{error_of};
ghost use Rattle.nts_terms.specs.declared.handles.DefId.TheVariants as defs;
ghost use Rattle.nts_terms.specs.Handles.{alias_head};
ghost use Rattle.nts_terms.specs.Signatures.{AreDeclared};
ghost use Rattle.nts_table.specs.Tables.{IsSide};
ghost use Rattle.nts_adding.specs.Rigid.{MayBecome, IsNewAlias, RefusesRigidly};
ghost use Rattle.nts_nested_goals.specs.Related.{IsEnvOf, AddsRelatedRigidly};
ghost use Rattle.nts_nested_goals.specs.Faults.{fault_after};
ghost use Rattle.nts_contexts.specs.Contexts.{IsContextReady, KeepsContext, EvaluatedNothing, content_in, tree_in};

use crate::context::EvalCtxt;
use nts_delegate::GoalHandler;
use nts_model::Variance;
use nts_nested_goals::relate_rigid_and_push;
use nts_store::EvalError;
use nts_terms::{AliasTerm, ParamEnv, Term};

impl<H: GoalHandler> EvalCtxt<'_, H> {
    /// Relates an alias, which stands left, with a term that is a type or const variable: the variable is made an alias of the same head
    /// over new variables, with aliases taken as they stand, and the arguments of the two are related as `relate` does. The goals that
    /// this leaves are added; there is none for the alias itself. The arguments of an alias do not vary, whatever the variance is. After
    /// an error the table and the goals are as before.
    ///
    /// It is `NoSolution` where the alias is not as declared, where the term is no type variable without a value, for an alias of types,
    /// or no const variable, for a const that is to be evaluated, and where the two are related in no settled solution.
    pub fn relate_rigid_alias_non_alias(
        &mut self,
        env: ParamEnv,
        alias: AliasTerm,
        variance: Variance,
        term: Term,
    ) -> Result<(), EvalError>
        requires ready { IsContextReady H.ready self.old }
        requires env { IsEnvOf self.old.cx.now self.old.table.now env }
        requires alias { IsSide (is arguments) self.old.cx.now.nodes self.old.table.now
            alias.args.node }
        requires term { IsSide any_term self.old.cx.now.nodes self.old.table.now term.node }
        ensures keeps { KeepsContext H.ready self.old self.new }
        ensures declared { OnOk result (AreDeclared self.old.cx.now.declarations
            (defs.Alias alias.def_id) (tree_in self.old alias.args.node)) }
        ensures was { OnOk result (MayBecome (content_in self.old) (alias_head alias.def_id)
            (tree_in self.old term.node)) }
        ensures is { OnOk result (IsNewAlias self.old.cx.now.declarations alias.def_id
            self.old.table.now.entries (content_in self.new) (tree_in self.old term.node)) }
        ensures related { OnOk result (AddsRelatedRigidly self.old.cx.now self.new.cx.now
            self.old.table.now self.new.table.now self.old.state.now self.new.state.now env variance
            alias term.node) }
        ensures no { result ≡ Err EvalError.NoSolution → RefusesRigidly
            self.old.cx.now.declarations self.old.cx.now.nodes self.old.table.now.entries alias
            term.node }
        ensures full { self.old.state.now.fault ≡ None → result ≢ Err EvalError.Full }
        ensures goals { OnErr result (self.new.state.now.nested_goals.items ≡
            self.old.state.now.nested_goals.items) }
        ensures err { OnErr result (self.new.table.now ≡ self.old.table.now) }
        ensures nothing { EvaluatedNothing self.old.state.now self.new.state.now }
        ensures fault { self.new.state.now.fault ≡ fault_after self.old.state.now.fault result }
        ensures faulted { IfSome self.old.state.now.fault (λ f. result ≡ Err (error_of f)) }
    {
        self.state.check()?;
        let related = relate_rigid_and_push(
            self.table, self.cx, self.state, env, alias, variance, term,
        );
        self.state.note(related)
    }
}
