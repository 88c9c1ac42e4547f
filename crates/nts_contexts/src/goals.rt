//! Goals that are added to a context.
ghost use Rattle.std.specs.Prelude.{◌≡◌, ◌∷◌, [], All, Ok, None, Err, IfSome, OnOk, OnErr, IsOkUnless};
ghost use Rattle.nts_store.specs.Errors.{error_of};
ghost use Rattle.nts_nested_goals.specs.Faults.{fault_after};
ghost use Rattle.nts_contexts.specs.Contexts.{IsContextReady, KeepsContext, EvaluatedNothing, IsGoalOfContext};
ghost use Rattle.nts_contexts.specs.Promises.{AddsGoals};

use crate::context::EvalCtxt;
use nts_certainty::GoalSource;
use nts_delegate::GoalHandler;
use nts_nested_goals::add_all;
use nts_store::EvalError;
use nts_terms::Goal;

impl<H: GoalHandler> EvalCtxt<'_, H> {
    /// Adds a goal that is to hold, after those that were added before. In it a new variable stands for each outermost alias from
    /// which no bound variable escapes, and the goals that these aliases are equal to their variables are added first, as goals that
    /// are asked by the same step. Goals that say of a term that it is well formed, that relate or normalize an alias, or that ask for
    /// an unstable feature, are added as they are. After an error the table and the goals are as before.
    pub fn add_goal(&mut self, source: GoalSource, goal: Goal) -> Result<(), EvalError>
        requires ready { IsContextReady H.ready self.old }
        requires goal { IsGoalOfContext self.old goal }
        ensures keeps { KeepsContext H.ready self.old self.new }
        ensures adds { OnOk result (AddsGoals self.old self.new source (goal ∷ [])) }
        ensures goals { OnErr result (self.new.state.now.nested_goals.items ≡
            self.old.state.now.nested_goals.items) }
        ensures err { OnErr result (self.new.table.now ≡ self.old.table.now) }
        ensures memory { self.old.state.now.fault ≡ None → IsOkUnless result EvalError.Memory }
        ensures nothing { EvaluatedNothing self.old.state.now self.new.state.now }
        ensures fault { self.new.state.now.fault ≡ fault_after self.old.state.now.fault result }
        ensures faulted { IfSome self.old.state.now.fault (λ f. result ≡ Err (error_of f)) }
    {
        self.state.check()?;
        let added = add_all(self.table, self.cx, self.state, source, &[goal]);
        self.state.note(added)
    }

    /// Adds goals that are to hold, in order, all or none of them, each as `add_goal` does. Without goals it takes no memory.
    pub fn add_goals(&mut self, source: GoalSource, goals: &[Goal]) -> Result<(), EvalError>
        requires ready { IsContextReady H.ready self.old }
        requires goals { All (IsGoalOfContext self.old) goals.now }
        ensures keeps { KeepsContext H.ready self.old self.new }
        ensures adds { OnOk result (AddsGoals self.old self.new source goals.now) }
        ensures goals { OnErr result (self.new.state.now.nested_goals.items ≡
            self.old.state.now.nested_goals.items) }
        ensures err { OnErr result (self.new.table.now ≡ self.old.table.now) }
        ensures memory { self.old.state.now.fault ≡ None → IsOkUnless result EvalError.Memory }
        ensures nothing { EvaluatedNothing self.old.state.now self.new.state.now }
        ensures fault { self.new.state.now.fault ≡ fault_after self.old.state.now.fault result }
        ensures faulted { IfSome self.old.state.now.fault (λ f. result ≡ Err (error_of f)) }
        ensures empty { goals.now ≡ [] → self.old.state.now.fault ≡ None → result ≡ Ok tt }
    {
        self.state.check()?;
        if goals.is_empty() {
            return Ok(());
        }
        let added = add_all(self.table, self.cx, self.state, source, goals);
        self.state.note(added)
    }
}
