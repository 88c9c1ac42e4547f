//! Values that are related in a context.
ghost use Rattle.std.specs.Prelude.{◌≡◌, ◌≢◌, None, Err, IfSome, OnOk, OnErr};
ghost use Rattle.nts_model.specs.declared.labels.Variance.TheVariants as variances;
ghost use Rattle.nts_model.specs.Tables.Equations.{AreRelated, AreUnrelated};
ghost use Rattle.nts_model.specs.Tables.Passing.{BringsLabelsOf};
ghost use Rattle.nts_store.specs.Errors.{error_of};
ghost use Rattle.nts_table.specs.Tables.{IsSide};
ghost use Rattle.nts_nested_goals.specs.Related.{IsEnvOf};
ghost use Rattle.nts_nested_goals.specs.Faults.{fault_after};
ghost use Rattle.nts_contexts.specs.Contexts.{IsContextReady, KeepsContext, EvaluatedNothing, content_in, tree_in};
ghost use Rattle.nts_contexts.specs.Promises.{RelatesIn, EquatesIn};

use crate::context::EvalCtxt;
use nts_delegate::GoalHandler;
use nts_model::Variance;
use nts_nested_goals::relate_and_push;
use nts_solver_relating::{Relate, RelateExt};
use nts_store::EvalError;
use nts_terms::{Goal, ParamEnv};

impl<H: GoalHandler> EvalCtxt<'_, H> {
    /// Relates two values by a variance, and adds the goals that are left, as `add_goal` does: what rests on aliases without escaping
    /// bound variables, and on type variables that may vary. After an error the table and the goals are as before.
    ///
    /// Under each later table in which the goals are answered the two are related; and each settled solution in which they settle
    /// goes on to one of the table in which the goals settle. Invariantly, where no alias stands in the two, they are made equal, and
    /// no goal is left. It is `NoSolution` where they are of two aliases or traits, or where they settle in no settled solution.
    pub fn relate<T: Relate>(
        &mut self,
        env: ParamEnv,
        lhs: T,
        variance: Variance,
        rhs: T,
    ) -> Result<(), EvalError>
        requires ready { IsContextReady H.ready self.old }
        requires env { IsEnvOf self.old.cx.now self.old.table.now env }
        requires left { IsSide T.place self.old.cx.now.nodes self.old.table.now (T.id lhs) }
        requires right { IsSide T.place self.old.cx.now.nodes self.old.table.now (T.id rhs) }
        ensures { RelatesIn H.ready (T.head lhs ≡ T.head rhs) self.old self.new env variance
            (T.id lhs) (T.id rhs) result }
    {
        self.state.check()?;
        let related = relate_and_push(self.table, self.cx, self.state, env, lhs, variance, rhs);
        self.state.note(related)
    }

    /// Relates two values so that the first is the lesser one: as `relate` does by the covariant variance.
    pub fn sub<T: Relate>(&mut self, env: ParamEnv, sub: T, sup: T) -> Result<(), EvalError>
        requires ready { IsContextReady H.ready self.old }
        requires env { IsEnvOf self.old.cx.now self.old.table.now env }
        requires left { IsSide T.place self.old.cx.now.nodes self.old.table.now (T.id sub) }
        requires right { IsSide T.place self.old.cx.now.nodes self.old.table.now (T.id sup) }
        ensures { RelatesIn H.ready (T.head sub ≡ T.head sup) self.old self.new env
            variances.Covariant
            (T.id sub) (T.id sup) result }
    {
        self.relate(env, sub, Variance::Covariant, sup)
    }

    /// Makes two values equal, and adds the goals that are left: as `relate` does by the invariant variance. Where no alias stands in
    /// the two, none is left.
    pub fn eq<T: Relate>(&mut self, env: ParamEnv, lhs: T, rhs: T) -> Result<(), EvalError>
        requires ready { IsContextReady H.ready self.old }
        requires env { IsEnvOf self.old.cx.now self.old.table.now env }
        requires left { IsSide T.place self.old.cx.now.nodes self.old.table.now (T.id lhs) }
        requires right { IsSide T.place self.old.cx.now.nodes self.old.table.now (T.id rhs) }
        ensures { RelatesIn H.ready (T.head lhs ≡ T.head rhs) self.old self.new env
            variances.Invariant
            (T.id lhs) (T.id rhs) result }
    {
        self.relate(env, lhs, Variance::Invariant, rhs)
    }

    /// Makes two values equal, and answers the goals that are left, which are not added: they can be, or asked elsewhere. Where no
    /// alias stands in the two, none is left. After an error the table is as before.
    pub fn eq_and_get_goals<T: Relate>(
        &mut self,
        env: ParamEnv,
        lhs: T,
        rhs: T,
    ) -> Result<Vec<Goal>, EvalError>
        requires ready { IsContextReady H.ready self.old }
        requires env { IsEnvOf self.old.cx.now self.old.table.now env }
        requires left { IsSide T.place self.old.cx.now.nodes self.old.table.now (T.id lhs) }
        requires right { IsSide T.place self.old.cx.now.nodes self.old.table.now (T.id rhs) }
        ensures { EquatesIn H.ready (T.head lhs ≡ T.head rhs) self.old self.new env
            (T.id lhs) (T.id rhs) result }
    {
        self.state.check()?;
        let span = self.state.span;
        let related = self
            .table
            .relate(self.cx, env, lhs, Variance::Invariant, rhs, span);
        self.state.note(related)
    }

    /// Makes two values equal, with aliases taken as they stand. After a refusal the table is as before.
    pub fn eq_structurally_relating_aliases<T: Relate>(
        &mut self,
        env: ParamEnv,
        lhs: T,
        rhs: T,
    ) -> Result<(), EvalError>
        requires ready { IsContextReady H.ready self.old }
        requires left { IsSide T.place self.old.cx.now.nodes self.old.table.now (T.id lhs) }
        requires right { IsSide T.place self.old.cx.now.nodes self.old.table.now (T.id rhs) }
        ensures keeps { KeepsContext H.ready self.old self.new }
        ensures goals { self.new.state.now.nested_goals.items ≡
            self.old.state.now.nested_goals.items }
        ensures heads { OnOk result (T.head lhs ≡ T.head rhs) }
        ensures related { OnOk result (AreRelated (content_in self.old) (content_in self.new)
            (tree_in self.old (T.id lhs)) (tree_in self.old (T.id rhs))) }
        ensures labels { OnOk result (BringsLabelsOf (content_in self.old) (content_in self.new)
            (tree_in self.old (T.id lhs)) (tree_in self.old (T.id rhs))) }
        ensures no { result ≡ Err EvalError.NoSolution → T.head lhs ≡ T.head rhs →
            AreUnrelated (content_in self.old) (tree_in self.old (T.id lhs)) (tree_in self.old
            (T.id rhs)) }
        ensures full { self.old.state.now.fault ≡ None → result ≢ Err EvalError.Full }
        ensures err { OnErr result (self.new.table.now ≡ self.old.table.now) }
        ensures nothing { EvaluatedNothing self.old.state.now self.new.state.now }
        ensures fault { self.new.state.now.fault ≡ fault_after self.old.state.now.fault result }
        ensures faulted { IfSome self.old.state.now.fault (λ f. result ≡ Err (error_of f)) }
    {
        self.state.check()?;
        let related = self
            .table
            .eq_structurally_relating_aliases(self.cx, env, lhs, rhs, self.state.span);
        self.state.note(related)
    }
}
