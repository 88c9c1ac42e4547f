//! The stack of inputs that are being evaluated.
ghost use Rattle.std.specs.Prelude.{◌≡◌, ◌-◌, ◌<◌, ◌≤◌, ◌++◌, ◌∷◌, [], ℕ, suc, max, false, List, Option, length, MatchOption, OnOk, OnErr, IsSome, if◌then◌else◌};
ghost use Rattle.nts_model.specs.Terms.Trees.{Tree};
ghost use Rattle.nts_model.specs.Searching.Stacks.{path_kind};
ghost use Rattle.nts_model.specs.Searching.Driving.{marked};
ghost use Rattle.nts_response.specs.nts_candidates.specs.Offered.{path_kind_of};
ghost use Rattle.nts_response.specs.nts_canonical.specs.Forms.{HoldsQuery};
ghost use Rattle.nts_search.specs.declared.terms.GoalTerms.{GoalTerms};
ghost use Rattle.nts_search.specs.Indexed.{led_to, same_terms};
ghost use Rattle.nts_search.specs.Searching.{entries_at, HoldsAnswer, HoldsEntry, IsStack, HasNoInput, IsInputAt, read_at, KeepsRestOfGraph, counted_inputs, counted_rounds, with_round};

use crate::kinds::extend;
use crate::terms::GoalTerms;
use nts_certainty::PathKind;
use nts_response::CanonicalResponse;
use nts_response::nts_canonical::{CanonicalInput, same_input};
use nts_terms::Cx;
use std::alloc::{AllocError, Global};
use std::collections::HashMap;

/// An input that is being evaluated.
#[derive(Drop)]
pub struct StackEntry {
    pub input: CanonicalInput,
    /// The kind of the step by which it was asked.
    pub step_kind: PathKind,
    /// What a cycle back to it is answered in this round. `None` is no solution.
    pub provisional: Option<CanonicalResponse>,
    /// Which round of the input this is, from one on.
    pub round: usize,
    /// Whether a cycle read that in this round.
    pub is_read: bool,
    /// The next older entry whose goal has the same terms.
    pub earlier: Option<usize>,
}

/// The inputs that are being evaluated, and what was counted.
pub struct SearchGraph {
    /// How deep goals may be nested.
    pub root_depth: usize,
    /// The oldest first.
    pub stack: Vec<StackEntry>,
    /// The newest entry whose goal has these terms.
    pub newest: HashMap<GoalTerms, usize>,
    /// Whether a goal below the newest entry was nested too deep.
    pub has_overflowed: bool,
    /// How many inputs stood on the stack at most. Only `push` counts.
    most_inputs: usize,
    /// How many rounds a head took at most. Only `push` counts.
    most_rounds: usize,
}

// Written out, it is a call where a graph is let go.
impl Drop for SearchGraph {
    fn drop(self) {
        let SearchGraph {
            root_depth: _,
            stack: _,
            newest: _,
            has_overflowed: _,
            most_inputs: _,
            most_rounds: _,
        } = self;
    }
}

impl SearchGraph {
    /// An empty stack. It takes no memory.
    pub fn new(alloc: Global, root_depth: usize) -> SearchGraph
        ensures stack { (ts : List Tree) → IsStack ts result }
        ensures empty { result.stack.items ≡ [] }
        ensures root_depth { result.root_depth ≡ root_depth }
        ensures overflowed { result.has_overflowed ≡ false }
        ensures inputs { counted_inputs result ≡ 0 }
        ensures rounds { counted_rounds result ≡ 0 }
    {
        SearchGraph {
            root_depth,
            stack: Vec::new(alloc),
            newest: HashMap::new(alloc),
            has_overflowed: false,
            most_inputs: 0,
            most_rounds: 0,
        }
    }

    /// Where an input is being evaluated.
    #[inline(never)]
    pub fn find(&self, cx: &Cx, input: &CanonicalInput) -> Option<usize>
        requires holds { IsStack cx.now.nodes self.now }
        requires input { HoldsQuery cx.now.nodes input.now.canonical.value }
        ensures found { MatchOption result (HasNoInput cx.now.nodes self.now input.now)
            (IsInputAt cx.now.nodes self.now input.now) }
    {
        // No two terms of a store have equal trees. So an entry of the same input has these terms.
        cx.nodes.terms_are_formed();
        let mut at = self.newest.get(&GoalTerms::of(input)).copied();
        while let Some(i) = at {
            let entry = &self.stack[i];
            if same_input(cx, &entry.input, input) {
                return Some(i);
            }
            at = entry.earlier;
        }
        None
    }

    /// The kind of the path from an entry to a step of that kind below the newest entry: of the steps above the entry's
    /// own.
    pub fn path_kind(&self, head: usize, step: PathKind) -> PathKind
        requires { head < length self.now.stack.items }
        ensures { (ts : List Tree) → path_kind_of result ≡ path_kind (entries_at ts self.now)
            (length self.now.stack.items - suc head) (path_kind_of step) }
    {
        let mut kind = step;
        let mut at = self.stack.len();
        while at > head + 1 {
            at -= 1;
            kind = extend(kind, self.stack[at].step_kind);
        }
        kind
    }

    /// Marks an entry as read: its provisional answer was the answer of a cycle.
    pub fn read(&mut self, head: usize)
        requires { head < length self.old.stack.items }
        ensures items { self.new.stack.items ≡ read_at self.old.stack.items head }
        ensures entries { (ts : List Tree) →
            entries_at ts self.new ≡ marked (entries_at ts self.old)
            (length self.old.stack.items - suc head) }
        ensures long { length self.new.stack.items ≡ length self.old.stack.items }
        ensures kept { (ts : List Tree) → IsStack ts self.old → IsStack ts self.new }
        ensures inputs { counted_inputs self.new ≡ counted_inputs self.old }
        ensures rest { KeepsRestOfGraph self.old self.new }
    {
        self.stack[head].is_read = true;
    }

    /// A new newest entry, which was not read, in that round of its input. The round and the inputs are counted. After an
    /// error the stack is as before.
    pub fn push(
        &mut self,
        input: CanonicalInput,
        step_kind: PathKind,
        provisional: Option<CanonicalResponse>,
        round: usize,
    ) -> Result<(), AllocError>
        requires room { length self.old.stack.items ≤ self.old.root_depth }
        ensures pushed { OnOk result ((e : Option ℕ) ×
            (self.new.stack.items ≡ self.old.stack.items ++ record {
              input = input;
              step_kind =
                  step_kind;
              provisional = provisional;
              round = round;
              is_read = false;
              earlier = e;
            } ∷ [])) }
        ensures kept { OnOk result ((ts : List Tree) → IsStack ts self.old →
            HoldsQuery ts input.canonical.value → HoldsAnswer ts provisional →
            IsStack ts self.new) }
        ensures inputs { OnOk result (counted_inputs self.new ≡ max (counted_inputs self.old)
            (length self.new.stack.items)) }
        ensures err { OnErr result (self.new.stack.items ≡ self.old.stack.items) }
        ensures err_kept { OnErr result ((ts : List Tree) → IsStack ts self.old →
            IsStack ts self.new) }
        ensures err_inputs { OnErr result (counted_inputs self.new ≡ counted_inputs self.old) }
        ensures rest { KeepsRestOfGraph (with_round self.old round) self.new }
    {
        self.most_rounds = self.most_rounds.max(round);
        let terms = GoalTerms::of(&input);
        let at = self.stack.len();
        let earlier = self.newest.get(&terms).copied();
        self.stack.reserve(1)?;
        self.newest.insert(terms, at)?;
        self.stack.push(StackEntry {
            input,
            step_kind,
            provisional,
            round,
            is_read: false,
            earlier,
        })?;
        let inputs = self.stack.len();
        self.most_inputs = self.most_inputs.max(inputs);
        Ok(())
    }

    /// Takes the newest entry off.
    pub fn pop(&mut self) -> StackEntry
        requires { 0 < length self.old.stack.items }
        ensures popped { self.old.stack.items ≡ self.new.stack.items ++ result ∷ [] }
        ensures kept { (ts : List Tree) → IsStack ts self.old → IsStack ts self.new ×
            HoldsEntry ts result }
        ensures inputs { counted_inputs self.new ≡ counted_inputs self.old }
        ensures rest { KeepsRestOfGraph self.old self.new }
    {
        let Some(entry) = self.stack.pop() else {
            unreachable!();
        };
        let earlier = entry.earlier;
        lead_back(&mut self.newest, GoalTerms::of(&entry.input), earlier);
        entry
    }

    /// How many inputs stood on the stack at most.
    pub fn most_inputs(&self) -> usize
        ensures { result ≡ counted_inputs self.now }
    {
        self.most_inputs
    }

    /// How many rounds a head took at most.
    pub fn most_rounds(&self) -> usize
        ensures { result ≡ counted_rounds self.now }
    {
        self.most_rounds
    }
}

/// Lets an index lead from these terms to an older entry, or no more.
fn lead_back(newest: &mut HashMap<GoalTerms, usize>, terms: GoalTerms, earlier: Option<usize>)
    ensures { IsSome (led_to newest.old terms) → (k : GoalTerms) →
        led_to newest.new k ≡ (if same_terms terms k then earlier else led_to newest.old k) }
{
    match earlier {
        Some(i) => {
            if let Some(place) = newest.get_mut(&terms) {
                *place = i;
            }
        }
        None => {
            let _ = newest.remove(&terms);
        }
    }
}
