//! What a context keeps beside the table and the store.
ghost use Rattle.std.specs.Prelude.{◌≡◌, None, Some, Ok, IfOk, IfErr, IfSome, IsSome, OnOk, OnErr, ◌++◌};
ghost use Rattle.nts_store.specs.Errors.{error_of};
ghost use Rattle.nts_nested_goals.specs.Related.{KeepsState};
ghost use Rattle.nts_nested_goals.specs.Faults.{fault_of, fault_after, tainted_after};
ghost use Rattle.nts_nested_goals.specs.Probing.{IsCopy};

use nts_certainty::GoalSource;
use nts_store::{EvalError, Fault};
use nts_terms::{Goal, Span};
use std::alloc::{AllocError, Global};
use std::mem;

/// What a context keeps for itself.
#[derive(Drop)]
pub struct EvalState {
    /// The goals that were added and that are not proved yet, each with what it was added for.
    pub nested_goals: Vec<(GoalSource, Goal)>,
    /// Whether a goal that was added has no solution.
    pub is_tainted: bool,
    /// The first fault that a call met. Later calls answer it again.
    pub fault: Option<Fault>,
    /// How many times the last evaluation went over the goals.
    pub last_steps: usize,
    /// How deep goals may be nested.
    pub root_depth: usize,
    /// The place in the user's text that the rule is used at.
    pub span: Span,
}

/// The fault that an error is, if it is one.
fn fault_of(error: EvalError) -> Option<Fault>
    ensures { result ≡ fault_of error }
{
    match error {
        EvalError::NoSolution => None,
        EvalError::Memory => Some(Fault::Memory),
        EvalError::Full => Some(Fault::Full),
    }
}

impl EvalState {
    /// Answers the fault that was kept, if there is one.
    pub fn check(&self) -> Result<(), EvalError>
        ensures ok { OnOk result (self.now.fault ≡ None) }
        ensures sound { self.now.fault ≡ None → result ≡ Ok tt }
        ensures refused { IfErr result (λ e. IsSome (fault_of e)) }
        ensures faulted { IfSome self.now.fault (λ f. result ≡ Err (error_of f)) }
    {
        match self.fault {
            Some(fault) => Err(fault.into()),
            None => Ok(()),
        }
    }

    /// Keeps the fault that a call answered, if it is the first one, and hands the answer on.
    pub fn note<R>(&mut self, answer: Result<R, EvalError>) -> Result<R, EvalError>
        ensures same { result ≡ answer }
        ensures fault { self.new ≡ record self.old { fault = fault_after self.old.fault answer } }
    {
        if self.fault.is_none() {
            if let Err(error) = &answer {
                self.fault = fault_of(*error);
            }
        }
        answer
    }

    /// The answer, or the fault that was kept in its place.
    pub fn end<R: Drop>(&self, answer: Result<R, EvalError>) -> Result<R, EvalError>
        ensures sound { self.now.fault ≡ None → result ≡ answer }
        ensures faulted { IfSome self.now.fault (λ f. result ≡ Err (error_of f)) }
    {
        match self.fault {
            Some(fault) => Err(fault.into()),
            None => answer,
        }
    }

    /// Takes the goals out, so that they can be evaluated.
    pub fn take_goals(&mut self, alloc: Global) -> Vec<(GoalSource, Goal)>
        ensures goals { result.items ≡ self.old.nested_goals.items }
        ensures left { self.new ≡ record self.old { nested_goals = self.new.nested_goals } }
    {
        mem::replace(&mut self.nested_goals, Vec::new(alloc))
    }

    /// Puts back the goals that are left after so many steps, and hands on what the steps answered: a fault is kept if it is
    /// the first one, and that there is no solution taints the context.
    pub fn end_steps<R>(
        &mut self,
        goals: Vec<(GoalSource, Goal)>,
        last_steps: usize,
        answer: Result<R, EvalError>,
    ) -> Result<R, EvalError>
        ensures same { result ≡ answer }
        ensures state { self.new ≡ record self.old {
          nested_goals = goals;
          last_steps = last_steps;
          is_tainted = tainted_after self.old.is_tainted answer;
          fault = fault_after
              self.old.fault answer;
        } }
    {
        self.nested_goals = goals;
        self.last_steps = last_steps;
        self.end_answer(answer)
    }

    /// Hands on an answer: a fault is kept if it is the first one, and that there is no solution taints the context.
    pub fn end_answer<R>(&mut self, answer: Result<R, EvalError>) -> Result<R, EvalError>
        ensures same { result ≡ answer }
        ensures state { self.new ≡ record self.old {
          is_tainted = tainted_after self.old.is_tainted answer;
          fault = fault_after
              self.old.fault answer;
        } }
    {
        if let Err(EvalError::NoSolution) = &answer {
            self.is_tainted = true;
        }
        self.note(answer)
    }

    /// A state with the same goals and taint, for a probe.
    pub fn copy(&self, alloc: Global) -> Result<EvalState, AllocError>
        ensures { IfOk result (IsCopy self.now) }
    {
        let nested_goals = Vec::from_slice(alloc, &self.nested_goals)?;
        Ok(EvalState {
            nested_goals,
            is_tainted: self.is_tainted,
            fault: None,
            last_steps: self.last_steps,
            root_depth: self.root_depth,
            span: self.span,
        })
    }

    /// Puts goals behind those that there are, all or none of them.
    pub fn append(&mut self, added: Vec<(GoalSource, Goal)>) -> Result<(), AllocError>
        ensures ok { OnOk result
            (self.new.nested_goals.items ≡ self.old.nested_goals.items ++ added.items) }
        ensures err { OnErr result (self.new.nested_goals.items ≡ self.old.nested_goals.items) }
        ensures kept { KeepsState self.old self.new }
    {
        let mut added = added;
        self.nested_goals.append(&mut added)
    }
}
