//! A store and a stack, with inputs that are told by what their predicates bind and by their modes.
ghost use Rattle.nts_canonical.specs.Forms.{HoldsQuery};
ghost use Rattle.nts_terms.specs.Rest.{Grows};
ghost use Rattle.nts_search.specs.Searching.{IsStack, HoldsAnswer};

use nts_canonical::{Canonical, CanonicalInput, CanonicalVarKind, QueryInput};
use nts_certainty::{Certainty, PathKind};
use nts_model::{Sort, UintTy};
use nts_response::{CanonicalResponse, response_no_constraints_raw};
use nts_search::{SearchGraph, round_is_last};
use nts_terms::{Binder, Cx, GenericArg, Goal, PredicateKind, TyKind, TypingMode};
use std::alloc::Global;
use std::process::Abort;

/// What an input of one type variable is answered.
#[derive(Clone, Copy)]
pub enum Answer {
    NoSolution,
    SaysNothing(Certainty),
    SaysType(Certainty),
}

/// An input whose predicate binds variables of these sorts.
#[tactic(auto, using(nts_terms::proofs::Moved::growth, nts_search::proofs::StackLater::later))]
pub fn input_of(
    cx: &mut Cx,
    rt: &impl Abort,
    sorts: &[Sort],
    typing_mode: TypingMode,
) -> CanonicalInput
    ensures holds { HoldsQuery cx.new.nodes result.canonical.value }
    ensures grows { Grows cx.old cx.new }
{
    let alloc = cx.alloc;
    let param_env = cx.mk_env(&[]).expect(rt, "memory");
    let vars = cx.mk_bound_vars(sorts).expect(rt, "memory");
    let value = PredicateKind::Ambiguous;
    let predicate = cx.mk_predicate(Binder { vars, value }).expect(rt, "memory");
    let goal = Goal {
        param_env,
        predicate,
    };
    let kind = CanonicalVarKind::Ty { ui: 0, sub_root: 0 };
    let value = QueryInput {
        goal,
        predefined_opaques_in_body: Vec::new(alloc),
    };
    let canonical = Canonical {
        value,
        max_universe: 0,
        var_kinds: vec![in alloc; kind].expect(rt, "memory"),
    };
    CanonicalInput {
        canonical,
        typing_mode,
    }
}

/// The response that says nothing of one type variable.
pub fn says_nothing(cx: &mut Cx, rt: &impl Abort, certainty: Certainty) -> CanonicalResponse
    ensures holds { HoldsAnswer cx.new.nodes (Some result) }
    ensures grows { Grows cx.old cx.new }
{
    let kind = CanonicalVarKind::Ty { ui: 0, sub_root: 0 };
    let kinds = vec![in cx.alloc; kind].expect(rt, "memory");
    response_no_constraints_raw(cx, 0, kinds, certainty).expect(rt, "memory")
}

/// The response by which the type variable is a type.
#[tactic(auto, using(nts_terms::proofs::Moved::growth, nts_search::proofs::StackLater::later))]
pub fn says_type(cx: &mut Cx, rt: &impl Abort, certainty: Certainty) -> CanonicalResponse
    ensures holds { HoldsAnswer cx.new.nodes (Some result) }
    ensures grows { Grows cx.old cx.new }
{
    let mut response = says_nothing(cx, rt, certainty);
    let ty = cx.mk_ty(TyKind::Uint(UintTy::U8)).expect(rt, "memory");
    let value: GenericArg = ty.into();
    response.value.var_values = vec![in cx.alloc; value].expect(rt, "memory");
    response
}

pub fn answer_of(cx: &mut Cx, rt: &impl Abort, answer: Answer) -> Option<CanonicalResponse>
    ensures holds { HoldsAnswer cx.new.nodes result }
    ensures grows { Grows cx.old cx.new }
{
    match answer {
        Answer::NoSolution => None,
        Answer::SaysNothing(certainty) => Some(says_nothing(cx, rt, certainty)),
        Answer::SaysType(certainty) => Some(says_type(cx, rt, certainty)),
    }
}

#[derive(Drop)]
pub struct Fixture {
    pub cx: Cx,
    pub graph: SearchGraph,
}

impl Fixture {
    /// An empty stack, on which goals may be nested three deep below the root.
    pub fn new(alloc: Global) -> Fixture
        ensures { IsStack result.cx.nodes result.graph }
    {
        Fixture {
            cx: Cx::new(alloc),
            graph: SearchGraph::new(alloc, 3),
        }
    }

    #[tactic(auto, using(nts_search::proofs::StackLater::later))]
    pub fn push(
        &mut self,
        rt: &impl Abort,
        sorts: &[Sort],
        mode: TypingMode,
        kind: PathKind,
        provisional: Answer,
        round: usize,
    )
        requires { IsStack self.old.cx.nodes self.old.graph }
        ensures { IsStack self.new.cx.nodes self.new.graph }
    {
        assert!(rt; self.graph.stack.len() <= self.graph.root_depth);
        let provisional = answer_of(&mut self.cx, rt, provisional);
        let input = input_of(&mut self.cx, rt, sorts, mode);
        let pushed = self.graph.push(input, kind, provisional, round);
        pushed.expect(rt, "memory");
    }

    pub fn pop(&mut self, rt: &impl Abort)
        requires { IsStack self.old.cx.nodes self.old.graph }
        ensures { IsStack self.new.cx.nodes self.new.graph }
    {
        assert!(rt; self.graph.stack.len() > 0);
        let _ = self.graph.pop();
    }

    pub fn read(&mut self, rt: &impl Abort, head: usize)
        requires { IsStack self.old.cx.nodes self.old.graph }
        ensures { IsStack self.new.cx.nodes self.new.graph }
    {
        assert!(rt; head < self.graph.stack.len());
        self.graph.read(head);
    }

    #[tactic(auto, using(nts_search::proofs::StackLater::later))]
    pub fn find(&mut self, rt: &impl Abort, sorts: &[Sort], mode: TypingMode) -> Option<usize>
        requires { IsStack self.old.cx.nodes self.old.graph }
        ensures { IsStack self.new.cx.nodes self.new.graph }
    {
        let input = input_of(&mut self.cx, rt, sorts, mode);
        self.graph.find(&self.cx, &input)
    }

    /// The kind of the path from an entry to a step.
    pub fn path(&self, rt: &impl Abort, head: usize, step: PathKind) -> PathKind {
        assert!(rt; head < self.graph.stack.len());
        self.graph.path_kind(head, step)
    }

    /// Whether a round with this answer is the last one of the oldest entry.
    #[tactic(auto, using(nts_search::proofs::StackLater::later))]
    pub fn ends(&mut self, rt: &impl Abort, answer: Answer) -> bool
        requires { IsStack self.old.cx.nodes self.old.graph }
        ensures { IsStack self.new.cx.nodes self.new.graph }
    {
        assert!(rt; self.graph.stack.len() > 0);
        let answer = answer_of(&mut self.cx, rt, answer);
        round_is_last(&self.cx, &self.graph.stack[0], &answer)
    }
}
