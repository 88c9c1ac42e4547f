//! Contexts, and closures that work in them.
ghost use Rattle.std.specs.Prelude.{◌≡◌, ◌≢◌, ◌++◌, ◌∷◌, [], length, None, Ok, Err, IfOk, IfErr, IfSome, IsSome, OnOk, OnErr};
ghost use Rattle.std.specs.Borrow.{MutBor};
ghost use Rattle.nts_store.specs.Errors.{error_of};
ghost use Rattle.nts_table.specs.Tables.{IsTable};
ghost use Rattle.nts_evaluation.specs.nts_meaning.specs.Evaluation.{Runs};
ghost use Rattle.nts_nested_goals.specs.Faults.{fault_of, fault_in, fault_after, AnsweredNoFault};
ghost use Rattle.nts_contexts.specs.Contexts.{IsContextReady, KeepsContext, IsRootContext, IsProbe, IsContextRun, IsLeftByRoot, EvaluatedNothing, RanOutIn, WasAnswered};
ghost use Rattle.nts_nested_goals.specs.Probing.{IsOpened, IsCopy};

use nts_delegate::GoalHandler;
use nts_nested_goals::EvalState;
use nts_store::{EvalError, Fault};
use nts_table::{InferCtxt, Snapshot};
use nts_terms::{Cx, Span};

/// What a rule works on: a table, a store, a handler, and what the context keeps for itself.
#[derive(Drop)]
pub struct EvalCtxt<'a, H> {
    pub table: &'a mut InferCtxt,
    pub cx: &'a mut Cx,
    pub handler: &'a H,
    pub state: &'a mut EvalState,
}

impl<'a, H: GoalHandler> EvalCtxt<'a, H> {
    /// What `f` answers in a root context, at the end of which no goals are to be left. Where `f` answers an error, or the
    /// context has a fault, which is answered then, the table is as before. It is `Full` only where `f` ran out of universes.
    pub fn enter_root<R: Drop, F: FnOnce(&mut EvalCtxt<'_, H>) -> Result<R, EvalError>>(
        table: &mut InferCtxt,
        cx: &mut Cx,
        handler: &H,
        root_depth: usize,
        span: Span,
        f: F,
    ) -> Result<R, EvalError>
        requires table { IsTable cx.old.nodes table.old }
        requires ready { H.ready cx.old.nodes handler.now }
        requires callable { (before : MutBor (EvalCtxt H)) →
            IsRootContext H.ready table.old cx.old handler.now root_depth span before.now →
            F.pre f before }
        requires keeps { (before : _) (r : _) (after : _) → F.post f before r after →
            IsContextReady H.ready before.now → KeepsContext H.ready before.now after.now }
        requires no_goals { (before : _) (r : _) (after : _) → F.post f before r after →
            IsRootContext H.ready table.old cx.old handler.now root_depth span before.now →
            OnOk r (after.now.state.now.nested_goals.items ≡ []) }
        ensures runs { Runs cx.old cx.new table.old table.new }
        ensures err { OnErr result (table.new ≡ table.old) }
        ensures answers { AnsweredNoFault result → IsContextRun (λ b r a. F.post f b r a)
            (IsRootContext H.ready table.old cx.old handler.now root_depth span) result
            (IsLeftByRoot result table.new cx.new) }
        ensures full { result ≡ Err EvalError.Full → RanOutIn (λ b r a. F.post f b r a)
            (IsRootContext H.ready table.old cx.old handler.now root_depth span) }
    {
        let snapshot = table.start_snapshot()?;
        let mut state = EvalState {
            nested_goals: Vec::new(cx.alloc),
            is_tainted: false,
            fault: None,
            last_steps: 0,
            root_depth,
            span,
        };
        let mut ecx = EvalCtxt {
            table: &mut *table,
            cx: &mut *cx,
            handler,
            state: &mut state,
        };
        let answer = f(&mut ecx);
        let ended = ecx.state.end(answer);
        table.commit_if_ok(snapshot, ended)
    }

    /// How many times the last evaluation of goals went over them. It is 0 before the first one.
    pub fn last_steps(&self) -> usize
        ensures { result ≡ self.now.state.now.last_steps }
    {
        self.state.last_steps
    }

    /// What `f` answers in a context with the same goals. Afterwards the table, the goals and the taint are as before; a
    /// fault that `f` met is kept. In a context without a fault it is `Full` only where `f` answers that.
    #[tactic(auto, using(crate::proofs::Frames::keeps_then, crate::proofs::Begun::probe_begun))]
    pub fn probe<R: Drop, F: FnOnce(&mut EvalCtxt<'_, H>) -> Result<R, EvalError>>(
        &mut self,
        f: F,
    ) -> Result<R, EvalError>
        requires ready { IsContextReady H.ready self.old }
        requires callable { (before : MutBor (EvalCtxt H)) → IsProbe H.ready self.old before.now →
            F.pre f before }
        requires keeps { (before : _) (r : _) (after : _) → F.post f before r after →
            IsContextReady H.ready before.now → KeepsContext H.ready before.now after.now }
        ensures keeps { KeepsContext H.ready self.old self.new }
        ensures table { self.new.table.now ≡ self.old.table.now }
        ensures goals { self.new.state.now.nested_goals.items
            ≡ self.old.state.now.nested_goals.items }
        ensures nothing { EvaluatedNothing self.old.state.now self.new.state.now }
        ensures answers { AnsweredNoFault result → IsContextRun (λ b r a. F.post f b r a)
            (IsProbe H.ready self.old) result (λ c. c.state.now.fault ≡ self.new.state.now.fault) }
        ensures noted { IfSome (fault_in result) (λ f. IsSome self.new.state.now.fault) }
        ensures full { self.old.state.now.fault ≡ None → result ≡ Err EvalError.Full → WasAnswered
            (λ b r a. F.post f b r a) (IsProbe H.ready self.old) (Err EvalError.Full) }
        ensures faulted { IfSome self.old.state.now.fault (λ f. result ≡ Err (error_of f)) }
    {
        let (mut state, snapshot) = self.begin_probe()?;
        let mut inner = EvalCtxt {
            table: &mut *self.table,
            cx: &mut *self.cx,
            handler: self.handler,
            state: &mut state,
        };
        let answer = f(&mut inner);
        let fault = inner.state.fault;
        self.table.rollback_to(snapshot);
        self.state.fault = fault;
        self.state.note(answer)
    }

    /// A state with the same goals, and a snapshot of the table, for a probe.
    fn begin_probe(&mut self) -> Result<(EvalState, Snapshot), EvalError>
        ensures copy { IfOk result (λ p. IsCopy self.old.state.now p.0) }
        ensures opened { OnOk result (IsOpened self.old.table.now self.new.table.now) }
        ensures saved { IfOk result (λ p. p.1.depth ≡ length self.old.table.now.saved) }
        ensures sound { OnOk result (self.old.state.now.fault ≡ None) }
        ensures err { OnErr result (self.new.table.now ≡ self.old.table.now) }
        ensures table { self.new.table.ghost_name ≡ self.old.table.ghost_name }
        ensures cx { self.new.cx ≡ self.old.cx }
        ensures store { self.new.cx.now ≡ self.old.cx.now }
        ensures handler { self.new.handler ≡ self.old.handler }
        ensures state { self.new.state.ghost_name ≡ self.old.state.ghost_name }
        ensures left { self.new.state.now ≡ record self.old.state.now {
          fault = fault_after
              self.old.state.now.fault result;
        } }
        ensures refused { IfErr result (λ e. IsSome (fault_of e)) }
        ensures full { self.old.state.now.fault ≡ None → result ≢ Err EvalError.Full }
        ensures faulted { IfSome self.old.state.now.fault (λ f. result ≡ Err (error_of f)) }
    {
        self.state.check()?;
        let begun = self.copy_and_open().map_err(EvalError::from);
        self.state.note(begun)
    }

    /// A state with the same goals, and a snapshot of the table.
    fn copy_and_open(&mut self) -> Result<(EvalState, Snapshot), Fault>
        ensures copy { IfOk result (λ p. IsCopy self.old.state.now p.0) }
        ensures opened { OnOk result (IsOpened self.old.table.now self.new.table.now) }
        ensures saved { IfOk result (λ p. p.1.depth ≡ length self.old.table.now.saved) }
        ensures err { OnErr result (self.new.table.now ≡ self.old.table.now) }
        ensures table { self.new.table.ghost_name ≡ self.old.table.ghost_name }
        ensures cx { self.new.cx ≡ self.old.cx }
        ensures handler { self.new.handler ≡ self.old.handler }
        ensures state { self.new.state ≡ self.old.state }
        ensures full { result ≢ Err Fault.Full }
    {
        let state = self.state.copy(self.cx.alloc)?;
        let snapshot = self.table.start_snapshot()?;
        Ok((state, snapshot))
    }
}
