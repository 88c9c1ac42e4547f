//! What can be undone of a table, and its snapshots.
ghost use Rattle.std.specs.Prelude.{◌≡◌, ◌<◌, ◌+◌, ◌++◌, ◌∷◌, [], length, slice_get, OnOk, OnErr, IfOk, Some};
ghost use Rattle.nts_unify.specs.Entries.{Entries, Inner, added, with_variable, bound, constrained, moved, registered, with_hidden, duplicated, front};

use crate::contents::{Constraint, Contents, HiddenType, UndoLog, Variable};
use nts_terms::UniverseIndex;
use std::alloc::{AllocError, Global};
use std::marker::Model;

/// The part of a table that snapshots restore: the entries, and the entries at the snapshots that are
/// open.
#[derive(Drop)]
pub struct InferCtxtInner {
    contents: Contents,
    log: Vec<UndoLog>,
    snapshots: Vec<usize>,
}

impl Model for InferCtxtInner {
    ghost use Rattle.nts_unify.specs.Entries.{Inner};

    ghost Value = { Inner };

    ghost use Rattle.std.specs.Prelude.{length};
    ghost use Rattle.nts_unify.specs.Saved.{saved_of, AreMarks};

    ghost view = { λ t. record { entries = t.contents; saved = saved_of t.contents t.log.items t.snapshots.items } };

    ghost invariant = { λ t. AreMarks (length t.log.items) t.snapshots.items };
}

/// A moment to which the table can go back. Snapshots end last first.
#[derive(Clone, Copy)]
pub struct Snapshot {
    pub depth: usize,
}

impl InferCtxtInner {
    /// No variables, in the root universe. It takes no memory.
    pub fn new(alloc: Global) -> Self
        ensures entries { result.entries ≡ record {
          variables = [];
          order = [];
          universe = 0;
          constraints = [];
          hidden = record { lookup = []; duplicates = [] };
        } }
        ensures saved { result.saved ≡ [] }
    {
        InferCtxtInner {
            contents: Contents::new(alloc),
            log: Vec::new(alloc),
            snapshots: Vec::new(alloc),
        }
    }

    /// How many variables there are. It takes no memory.
    pub fn variable_count(&self) -> usize
        ensures { result ≡ length self.now.entries.variables }
    {
        self.contents.len()
    }

    /// What is known of the variable of that number.
    pub fn variable(&self, n: usize) -> Variable
        requires { n < length self.now.entries.variables }
        ensures { slice_get self.now.entries.variables n ≡ Some result }
    {
        self.contents.variable(n)
    }

    /// How many region constraints there are. It takes no memory.
    pub fn constraint_count(&self) -> usize
        ensures { result ≡ length self.now.entries.constraints }
    {
        self.contents.constraint_count()
    }

    /// The region constraint at a position.
    pub fn constraint(&self, n: usize) -> Constraint
        requires { n < length self.now.entries.constraints }
        ensures { slice_get self.now.entries.constraints n ≡ Some result }
    {
        self.contents.constraint(n)
    }

    /// How many hidden types are registered. It takes no memory.
    pub fn num_opaque_types(&self) -> usize
        ensures { result ≡ length self.now.entries.hidden.lookup }
    {
        self.contents.hidden_count()
    }

    /// The hidden type at a position.
    pub fn hidden_type(&self, n: usize) -> HiddenType
        requires { n < length self.now.entries.hidden.lookup }
        ensures { slice_get self.now.entries.hidden.lookup n ≡ Some result }
    {
        self.contents.hidden_type(n)
    }

    /// The hidden types that are registered.
    pub fn hidden_types(&self) -> &[HiddenType]
        ensures { result.now ≡ self.now.entries.hidden.lookup }
    {
        self.contents.hidden_types()
    }

    /// The duplicates of hidden types.
    pub fn duplicates(&self) -> &[HiddenType]
        ensures { result.now ≡ self.now.entries.hidden.duplicates }
    {
        self.contents.duplicates()
    }

    /// Where the table's lists are.
    pub fn allocator(&self) -> Global {
        self.contents.allocator()
    }

    /// The current universe.
    pub fn universe(&self) -> UniverseIndex
        ensures { result ≡ self.now.entries.universe }
    {
        self.contents.universe()
    }

    /// Adds a variable behind the others, and answers its number. A snapshot that is open takes it back. After an error nothing has
    /// changed; so it is with each change of the table.
    pub fn add(&mut self, variable: Variable) -> Result<usize, AllocError>
        ensures number { IfOk result (λ v. v ≡ length self.old.entries.variables) }
        ensures entries { OnOk result (self.new.entries ≡ added self.old.entries variable) }
        ensures saved { self.new.saved ≡ self.old.saved }
        ensures err { OnErr result (self.new ≡ self.old) }
    {
        self.log.push(UndoLog::Added)?;
        match self.contents.add(variable) {
            Ok(v) => Ok(v),
            Err(error) => {
                self.log.pop();
                Err(error)
            }
        }
    }

    /// Puts what is known of a variable in the place of what was known.
    pub fn set(&mut self, n: usize, variable: Variable) -> Result<(), AllocError>
        requires { n < length self.old.entries.variables }
        ensures entries { OnOk result (self.new.entries ≡ with_variable self.old.entries n
            variable) }
        ensures saved { self.new.saved ≡ self.old.saved }
        ensures err { OnErr result (self.new ≡ self.old) }
    {
        let old = self.contents.variable(n);
        self.log.push(UndoLog::Changed(n, old))?;
        self.contents.set(n, variable);
        Ok(())
    }

    /// Likewise, and notes that this variable was bound last.
    pub fn bind(&mut self, n: usize, variable: Variable) -> Result<(), AllocError>
        requires { n < length self.old.entries.variables }
        ensures entries { OnOk result (self.new.entries ≡ bound self.old.entries n variable) }
        ensures saved { self.new.saved ≡ self.old.saved }
        ensures err { OnErr result (self.new ≡ self.old) }
    {
        let old = self.contents.variable(n);
        self.log.push(UndoLog::Bound(n, old))?;
        match self.contents.bind(n, variable) {
            Ok(()) => Ok(()),
            Err(error) => {
                self.log.pop();
                Err(error)
            }
        }
    }

    /// Makes a universe the current one.
    pub fn move_to(&mut self, universe: UniverseIndex) -> Result<(), AllocError>
        ensures entries { OnOk result (self.new.entries ≡ moved self.old.entries universe) }
        ensures saved { self.new.saved ≡ self.old.saved }
        ensures err { OnErr result (self.new ≡ self.old) }
    {
        let old = self.contents.universe();
        self.log.push(UndoLog::Moved(old))?;
        self.contents.move_to(universe);
        Ok(())
    }

    /// Adds a region constraint behind the others.
    pub fn constrain(&mut self, constraint: Constraint) -> Result<(), AllocError>
        ensures entries { OnOk result (self.new.entries ≡ constrained self.old.entries constraint) }
        ensures saved { self.new.saved ≡ self.old.saved }
        ensures err { OnErr result (self.new ≡ self.old) }
    {
        self.log.push(UndoLog::Constrained)?;
        match self.contents.constrain(constraint) {
            Ok(()) => Ok(()),
            Err(error) => {
                self.log.pop();
                Err(error)
            }
        }
    }

    /// Adds a hidden type behind the others.
    pub fn register(&mut self, hidden: HiddenType) -> Result<(), AllocError>
        ensures entries { OnOk result (self.new.entries ≡ registered self.old.entries hidden) }
        ensures saved { self.new.saved ≡ self.old.saved }
        ensures err { OnErr result (self.new ≡ self.old) }
    {
        self.log.push(UndoLog::Registered)?;
        match self.contents.register(hidden) {
            Ok(()) => Ok(()),
            Err(error) => {
                self.log.pop();
                Err(error)
            }
        }
    }

    /// Puts a hidden type in the place of the one at a position.
    pub fn replace(&mut self, n: usize, hidden: HiddenType) -> Result<(), AllocError>
        requires { n < length self.old.entries.hidden.lookup }
        ensures entries { OnOk result (self.new.entries ≡ with_hidden self.old.entries n hidden) }
        ensures saved { self.new.saved ≡ self.old.saved }
        ensures err { OnErr result (self.new ≡ self.old) }
    {
        let old = self.contents.hidden_type(n);
        self.log.push(UndoLog::Replaced(n, old))?;
        self.contents.replace(n, hidden);
        Ok(())
    }

    /// Adds a duplicate of a hidden type behind the others.
    pub fn add_duplicate(&mut self, hidden: HiddenType) -> Result<(), AllocError>
        ensures entries { OnOk result (self.new.entries ≡ duplicated self.old.entries hidden) }
        ensures saved { self.new.saved ≡ self.old.saved }
        ensures err { OnErr result (self.new ≡ self.old) }
    {
        self.log.push(UndoLog::Duplicated)?;
        match self.contents.add_duplicate(hidden) {
            Ok(()) => Ok(()),
            Err(error) => {
                self.log.pop();
                Err(error)
            }
        }
    }

    /// Opens a snapshot.
    pub fn start_snapshot(&mut self) -> Result<Snapshot, AllocError>
        ensures entries { self.new.entries ≡ self.old.entries }
        ensures saved { OnOk result (self.new.saved ≡ self.old.saved ++ self.old.entries ∷ []) }
        ensures depth { IfOk result (λ s. s.depth ≡ length self.old.saved) }
        ensures err { OnErr result (self.new ≡ self.old) }
    {
        let depth = self.snapshots.len();
        self.snapshots.push(self.log.len())?;
        Ok(Snapshot { depth })
    }

    /// Closes the last snapshot and keeps what was done since. It takes no memory.
    pub fn commit(&mut self, snapshot: Snapshot)
        requires { length self.old.saved ≡ snapshot.depth + 1 }
        ensures entries { self.new.entries ≡ self.old.entries }
        ensures saved { (c : Entries) × (self.old.saved ≡ self.new.saved ++ c ∷ []) }
    {
        self.snapshots.pop();
    }

    /// Closes the last snapshot and restores what stood when it was opened. It takes no memory.
    pub fn rollback_to(&mut self, snapshot: Snapshot)
        requires { length self.old.saved ≡ snapshot.depth + 1 }
        ensures saved { self.old.saved ≡ self.new.saved ++ self.new.entries ∷ [] }
    {
        if let Some(mark) = self.snapshots.pop() {
            while self.log.len() > mark {
                if let Some(change) = self.log.pop() {
                    self.contents.undo(change);
                }
            }
        }
    }

    /// Ends the last snapshot by what was tried since, and hands that on: what succeeded stays, and after
    /// an error the entries are those of the snapshot. It takes no memory.
    pub fn commit_if_ok<T, E>(&mut self, snapshot: Snapshot, tried: Result<T, E>) -> Result<T, E>
        requires { length self.old.saved ≡ snapshot.depth + 1 }
        ensures same { result ≡ tried }
        ensures ok { OnOk result (self.new.entries ≡ self.old.entries) }
        ensures err { OnErr result (self.old.saved ≡ self.new.saved ++ self.new.entries ∷ []) }
        ensures saved { self.new.saved ≡ front self.old.saved }
    {
        match tried {
            Ok(value) => {
                self.commit(snapshot);
                Ok(value)
            }
            Err(error) => {
                self.rollback_to(snapshot);
                Err(error)
            }
        }
    }
}
