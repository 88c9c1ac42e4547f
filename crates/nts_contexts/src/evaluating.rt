//! Goals of a context are evaluated.
ghost use Rattle.std.specs.Prelude.{◌≡◌, ◌≤◌, ◌⊎◌, true, false, [], None, Ok, Err, IfOk};
ghost use Rattle.nts_table.specs.Tables.{IsTable};
ghost use Rattle.nts_terms.specs.Rest.{Grows};
ghost use Rattle.nts_unify.specs.Reading.{content_of};
ghost use Rattle.nts_certainty.specs.declared.certainty.Certainty.TheVariants as certainty;
ghost use Rattle.nts_response.specs.Forms.{response_at, HoldsResponse};
ghost use Rattle.nts_theory.specs.Telling.{IsResponseOf};
ghost use Rattle.nts_evaluation.specs.nts_meaning.specs.Answering.{told_in};
ghost use Rattle.nts_evaluation.specs.nts_meaning.specs.Meant.{rules_of, ruling_since, Always};
ghost use Rattle.nts_nested_goals.specs.Faults.{fault_after, tainted_after};
ghost use Rattle.nts_contexts.specs.Contexts.{IsContextReady, KeepsContext, content_in};
ghost use Rattle.nts_contexts.specs.Promises.{EvaluatesAdded, ReachesAdded, RefusesOneAdded, CountsAdded, CountsBefore, IsOfBoth};

use crate::context::EvalCtxt;
use nts_certainty::Certainty;
use nts_delegate::GoalHandler;
use nts_evaluation::nts_meaning::make_response;
use nts_evaluation::nts_trying::AvailableDepth;
use nts_evaluation::try_evaluate_goals;
use nts_response::CanonicalResponse;
use nts_search::{CurrentGoalKind, SearchGraph};
use nts_store::EvalError;
use nts_table::InferCtxt;
use nts_terms::Cx;

impl<H: GoalHandler> EvalCtxt<'_, H> {
    /// Evaluates the goals that were added, in steps, until a step finds nothing out, or as often as the store's limit says: then
    /// it is an overflow. The goals that are not proved are left. After `NoSolution` the context is tainted.
    pub fn try_evaluate_added_goals(&mut self) -> Result<Certainty, EvalError>
        requires ready { IsContextReady H.ready self.old }
        ensures keeps { KeepsContext H.ready self.old self.new }
        ensures evaluates { EvaluatesAdded (rules_of H.ready H.handler self.old.handler.now)
            self.old self.new result }
        ensures steps { self.old.state.now.fault ≡ None →
            self.new.state.now.last_steps ≤ self.old.cx.now.step_limit }
        ensures counts { Always (rules_of H.ready H.handler self.old.handler.now) self.old.cx.now
            (λ s. self.old.state.now.fault ≡ None →
            CountsAdded (ruling_since (λ ts. H.handler ts self.old.handler.now) s) self.old self.new
            result) }
        ensures sure { result ≡ Ok certainty.Yes → self.new.state.now.nested_goals.items ≡ [] }
        ensures told { Always (rules_of H.ready H.handler self.old.handler.now) self.old.cx.now
            (λ s. ReachesAdded (ruling_since (λ ts. H.handler ts self.old.handler.now) s) self.old
            self.new) }
        ensures refuted { Always (rules_of H.ready H.handler self.old.handler.now) self.old.cx.now
            (λ s. result ≡ Err EvalError.NoSolution →
            RefusesOneAdded (ruling_since (λ ts. H.handler ts self.old.handler.now) s) self.old) }
        ensures taint { self.new.state.now.is_tainted
            ≡ tainted_after self.old.state.now.is_tainted result }
        ensures fault { self.new.state.now.fault ≡ fault_after self.old.state.now.fault result }
    {
        self.state.check()?;
        let alloc = self.cx.alloc;
        let root_depth = self.state.root_depth;
        let mut goals = self.state.take_goals(alloc);
        let mut last_steps = 0;
        let mut graph = SearchGraph::new(alloc, root_depth);
        let evaluated = try_evaluate_goals(
            self.table,
            self.cx,
            self.handler,
            &mut graph,
            &mut goals,
            CurrentGoalKind::Misc,
            AvailableDepth::Root(root_depth),
            &mut last_steps,
        );
        self.state.end_steps(goals, last_steps, evaluated)
    }

    /// Evaluates the goals that were added, and answers what a context without values found out: its region constraints where all
    /// is certain, and how sure it is. A context that is tainted has no solution. Nor has one of which the handler's leak check says
    /// so, and it is tainted then.
    pub fn evaluate_added_goals_and_make_canonical_response(
        &mut self,
        shallow_certainty: Certainty,
    ) -> Result<CanonicalResponse, EvalError>
        requires ready { IsContextReady H.ready self.old }
        ensures keeps { KeepsContext H.ready self.old self.new }
        ensures evaluates { EvaluatesAdded (rules_of H.ready H.handler self.old.handler.now)
            self.old self.new result }
        ensures certain { IfOk result (λ r. r.value.certainty ≡ certainty.Yes →
            (shallow_certainty ≡ certainty.Yes) × (self.new.state.now.nested_goals.items ≡ [])) }
        ensures says { IfOk result (λ r. IsResponseOf
            (told_in r.value.certainty (content_in self.new)) []
            (response_at self.new.cx.now.nodes r)) }
        ensures holds { IfOk result (λ r. HoldsResponse self.new.cx.now.nodes r.value) }
        ensures tainted { self.old.state.now.fault ≡ None →
            self.old.state.now.is_tainted ≡ true → result ≡ Err EvalError.NoSolution }
        ensures steps { self.old.state.now.fault ≡ None → self.old.state.now.is_tainted ≡ false →
            self.new.state.now.last_steps ≤ self.old.cx.now.step_limit }
        ensures counts { Always (rules_of H.ready H.handler self.old.handler.now) self.old.cx.now
            (λ s. self.old.state.now.fault ≡ None → self.old.state.now.is_tainted ≡ false →
            CountsBefore (λ answer. IfOk result (λ r. IsOfBoth shallow_certainty answer
            r.value.certainty)) (ruling_since (λ ts. H.handler ts self.old.handler.now) s) self.old
            self.new) }
        ensures told { Always (rules_of H.ready H.handler self.old.handler.now) self.old.cx.now
            (λ s. ReachesAdded (ruling_since (λ ts. H.handler ts self.old.handler.now) s) self.old
            self.new) }
        ensures refuted { Always (rules_of H.ready H.handler self.old.handler.now) self.old.cx.now
            (λ s. self.old.state.now.is_tainted ≡ false → result ≡ Err EvalError.NoSolution →
            RefusesOneAdded (ruling_since (λ ts. H.handler ts self.old.handler.now) s) self.old ⊎
            (H.handler s.base self.old.handler.now).leaks (content_in self.new) 0) }
        ensures taint { self.new.state.now.is_tainted
            ≡ tainted_after self.old.state.now.is_tainted result }
        ensures fault { self.new.state.now.fault ≡ fault_after self.old.state.now.fault result }
    {
        self.state.check()?;
        if self.state.is_tainted {
            return Err(EvalError::NoSolution);
        }
        let goals_certainty = self.try_evaluate_added_goals()?;
        let certainty = shallow_certainty.and(goals_certainty);
        let response = checked_response(self.table, self.cx, self.handler, certainty);
        self.state.end_answer(response)
    }
}

/// A response of the table without values, unless the handler's leak check says that nothing which the root names meets the region
/// constraints.
fn checked_response<H: GoalHandler>(
    table: &InferCtxt,
    cx: &mut Cx,
    handler: &H,
    certainty: Certainty,
) -> Result<CanonicalResponse, EvalError>
    requires table { IsTable cx.old.nodes table.now }
    requires ready { H.ready cx.old.nodes handler.now }
    ensures certainty { IfOk result (λ r. r.value.certainty ≡ certainty) }
    ensures says { IfOk result (λ r. IsResponseOf (told_in certainty
        (content_of cx.old.nodes table.now.entries)) [] (response_at cx.new.nodes r)) }
    ensures holds { IfOk result (λ r. HoldsResponse cx.new.nodes r.value) }
    ensures leaks { result ≡ Err EvalError.NoSolution →
        (H.handler cx.old.nodes handler.now).leaks (content_of cx.old.nodes table.now.entries) 0 }
    ensures grows { Grows cx.old cx.new }
{
    handler.leak_check(cx, table, 0)?;
    let response = make_response(table, cx, &[], certainty)?;
    Ok(response)
}
