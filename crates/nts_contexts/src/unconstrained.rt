//! Whether a goal that normalizes an alias leaves open what it is normalized to.
ghost use Rattle.std.specs.Prelude.{◌≡◌, ◌↔◌, None, Err, IsTrue, IfOk, IfSome, IsOkUnless};
ghost use Rattle.nts_model.specs.Tables.Resolving.{deeply_resolved};
ghost use Rattle.nts_store.specs.Errors.{error_of};
ghost use Rattle.nts_nested_goals.specs.Faults.{fault_after};
ghost use Rattle.nts_contexts.specs.Contexts.{IsContextReady, KeepsContext, IsGoalOfContext, EvaluatedNothing, content_in, tree_in};
ghost use Rattle.nts_nested_goals.specs.Unconstrained.{IsFullyUnconstrained};

use crate::context::EvalCtxt;
use nts_delegate::GoalHandler;
use nts_nested_goals::is_fully_unconstrained;
use nts_store::EvalError;
use nts_terms::Goal;

impl<H: GoalHandler> EvalCtxt<'_, H> {
    /// Whether a goal that normalizes an alias leaves open what it is normalized to: its term is a type or const variable without a
    /// value that stands neither in the alias nor in the environment, and whose universe names each type or const variable there,
    /// and each placeholder of a type or const. So whatever the alias is, the variable can be it. Of each other goal the answer is
    /// no. Table and goals are as before.
    pub fn term_is_fully_unconstrained(&mut self, goal: Goal) -> Result<bool, EvalError>
        requires ready { IsContextReady H.ready self.old }
        requires goal { IsGoalOfContext self.old goal }
        ensures keeps { KeepsContext H.ready self.old self.new }
        ensures answer { IfOk result (λ b. IsTrue b ↔ IsFullyUnconstrained (content_in self.old)
            (deeply_resolved (content_in self.old) (tree_in self.old goal.param_env.node))
            (deeply_resolved (content_in self.old) (tree_in self.old goal.predicate.node))) }
        ensures goals { self.new.state.now.nested_goals.items ≡
            self.old.state.now.nested_goals.items }
        ensures table { self.new.table.now ≡ self.old.table.now }
        ensures memory { self.old.state.now.fault ≡ None → IsOkUnless result EvalError.Memory }
        ensures nothing { EvaluatedNothing self.old.state.now self.new.state.now }
        ensures fault { self.new.state.now.fault ≡ fault_after self.old.state.now.fault result }
        ensures faulted { IfSome self.old.state.now.fault (λ f. result ≡ Err (error_of f)) }
    {
        self.state.check()?;
        let answer = is_fully_unconstrained(self.table, self.cx, goal);
        self.state.note(answer)
    }
}
