//! The table of inference variables and its snapshots.
ghost use Rattle.std.specs.Prelude.{◌≡◌, ◌<◌, ◌+◌, ◌++◌, ◌∷◌, [], ℕ, List, length, slice_get, OnOk, OnErr, IfOk, IsOkUnless, Some};
ghost use Rattle.std.specs.Result.{IfErr};
ghost use Rattle.nts_model.specs.Terms.Trees.{Tree};
ghost use Rattle.nts_table.specs.Tables.{Table, IsTable};
ghost use Rattle.nts_unify.specs.Entries.{Entries, constrained, front};
ghost use Rattle.nts_unify.specs.Reading.{LinksDescend};
ghost use Rattle.nts_unify.specs.Roots.{IsRoot, HasClass};

use nts_store::{Fault, NodeId};
use nts_terms::{TypingMode, UniverseIndex};
use nts_unify::{Constraint, HiddenType, InferCtxtInner, Snapshot, State, Variable};
use std::alloc::Global;
use std::marker::Model;

/// The table of inference variables. A caller sees its entries, and the entries at the snapshots that
/// are open.
pub struct InferCtxt {
    mode: TypingMode,
    /// The entries, and what undoes them: for calls that work on nodes.
    pub inner: InferCtxtInner,
}

// Written out, as that of `Cx` is, and for the same reason.
impl Drop for InferCtxt {
    fn drop(self) {
        let InferCtxt { mode: _, inner: _ } = self;
    }
}

impl Model for InferCtxt {
    ghost use Rattle.nts_table.specs.Tables.{Table};

    ghost Value = { Table };

    ghost view = { λ t. record { entries = t.inner.entries; saved = t.inner.saved; mode = t.mode } };
}

impl InferCtxt {
    /// A table without variables, in the root universe. It takes no memory.
    pub fn new(alloc: Global, mode: TypingMode) -> Self
        ensures entries { result.entries ≡ record {
          variables = [];
          order = [];
          universe = 0;
          constraints = [];
          hidden = record { lookup = []; duplicates = [] };
        } }
        ensures saved { result.saved ≡ [] }
        ensures mode { result.mode ≡ mode }
        ensures table { (ts : List Tree) → IsTable ts result }
    {
        InferCtxt {
            mode,
            inner: InferCtxtInner::new(alloc),
        }
    }

    /// What goals may know of hidden types.
    pub fn typing_mode(&self) -> &TypingMode
        ensures { result.now ≡ self.now.mode }
    {
        &self.mode
    }

    /// How many variables there are. They are numbered from 0, in the order in which they came. It takes no memory.
    pub fn variable_count(&self) -> usize
        ensures { result ≡ length self.now.entries.variables }
    {
        self.inner.variable_count()
    }

    /// What is known of the variable of that number.
    pub fn variable(&self, n: usize) -> Variable
        requires { n < length self.now.entries.variables }
        ensures { slice_get self.now.entries.variables n ≡ Some result }
    {
        self.inner.variable(n)
    }

    /// How many region constraints there are. It takes no memory.
    pub fn constraint_count(&self) -> usize
        ensures { result ≡ length self.now.entries.constraints }
    {
        self.inner.constraint_count()
    }

    /// The region constraint at a position: the first one came first.
    pub fn constraint(&self, n: usize) -> Constraint
        requires { n < length self.now.entries.constraints }
        ensures { slice_get self.now.entries.constraints n ≡ Some result }
    {
        self.inner.constraint(n)
    }

    /// How many hidden types are registered. It takes no memory.
    pub fn num_opaque_types(&self) -> usize
        ensures { result ≡ length self.now.entries.hidden.lookup }
    {
        self.inner.num_opaque_types()
    }

    /// The hidden type at a position.
    pub fn hidden_type(&self, n: usize) -> HiddenType
        requires { n < length self.now.entries.hidden.lookup }
        ensures { slice_get self.now.entries.hidden.lookup n ≡ Some result }
    {
        self.inner.hidden_type(n)
    }

    /// The current universe.
    pub fn universe(&self) -> UniverseIndex
        ensures { result ≡ self.now.entries.universe }
    {
        self.inner.universe()
    }

    /// Opens a snapshot.
    pub fn start_snapshot(&mut self) -> Result<Snapshot, Fault>
        ensures entries { self.new.entries ≡ self.old.entries }
        ensures saved { OnOk result (self.new.saved ≡ self.old.saved ++ self.old.entries ∷ []) }
        ensures depth { IfOk result (λ s. s.depth ≡ length self.old.saved) }
        ensures mode { self.new.mode ≡ self.old.mode }
        ensures table { (ts : List Tree) → IsTable ts self.old → IsTable ts self.new }
        ensures err { OnErr result (self.new ≡ self.old) }
        ensures memory { IsOkUnless result Fault.Memory }
    {
        let snapshot = self.inner.start_snapshot()?;
        Ok(snapshot)
    }

    /// Closes the last snapshot and keeps what was done since. It takes no memory.
    pub fn commit(&mut self, snapshot: Snapshot)
        requires { length self.old.saved ≡ snapshot.depth + 1 }
        ensures entries { self.new.entries ≡ self.old.entries }
        ensures saved { (c : Entries) × (self.old.saved ≡ self.new.saved ++ c ∷ []) }
        ensures mode { self.new.mode ≡ self.old.mode }
        ensures table { (ts : List Tree) → IsTable ts self.old → IsTable ts self.new }
    {
        self.inner.commit(snapshot)
    }

    /// Closes the last snapshot and restores what stood when it was opened. It takes no memory.
    pub fn rollback_to(&mut self, snapshot: Snapshot)
        requires { length self.old.saved ≡ snapshot.depth + 1 }
        ensures saved { self.old.saved ≡ self.new.saved ++ self.new.entries ∷ [] }
        ensures mode { self.new.mode ≡ self.old.mode }
        ensures table { (ts : List Tree) → IsTable ts self.old → IsTable ts self.new }
    {
        self.inner.rollback_to(snapshot)
    }

    /// Ends the last snapshot by what was tried since, and hands that on: what succeeded stays, and after
    /// an error the entries are those of the snapshot. It takes no memory.
    pub fn commit_if_ok<T, E>(&mut self, snapshot: Snapshot, tried: Result<T, E>) -> Result<T, E>
        requires { length self.old.saved ≡ snapshot.depth + 1 }
        ensures same { result ≡ tried }
        ensures ok { OnOk result (self.new.entries ≡ self.old.entries) }
        ensures err { OnErr result (self.old.saved ≡ self.new.saved ++ self.new.entries ∷ []) }
        ensures saved { self.new.saved ≡ front self.old.saved }
        ensures mode { self.new.mode ≡ self.old.mode }
        ensures table { (ts : List Tree) → IsTable ts self.old → IsTable ts self.new }
    {
        self.inner.commit_if_ok(snapshot, tried)
    }

    /// The value of a variable's class, or else the root.
    pub(crate) fn probe_variable(&self, n: usize) -> Result<NodeId, usize>
        requires within { n < length self.now.entries.variables }
        requires descends { LinksDescend self.now.entries }
        ensures value { IfOk result (λ t. (r : ℕ) × HasClass self.now.entries n r (State.Known t)) }
        ensures root { IfErr result (λ r. HasClass self.now.entries n r State.Unset) }
    {
        self.inner.probe_variable(n)
    }

    /// The root of a variable's class, which has the class's value or none.
    pub fn root(&self, n: usize) -> usize
        requires within { n < length self.now.entries.variables }
        requires descends { LinksDescend self.now.entries }
        ensures { IsRoot self.now.entries n result }
    {
        self.inner.root(n)
    }
}
