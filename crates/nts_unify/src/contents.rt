//! The entries of a table, and how one change of them is undone.
ghost use Rattle.std.specs.Prelude.{◌≡◌, ◌<◌, ◌++◌, ◌∷◌, [], length, slice_set, slice_get, OnOk, OnErr, IfOk, Some};
ghost use Rattle.nts_unify.specs.Entries.{Entries, undone, added, with_variable, bound, constrained, moved, registered, with_hidden, duplicated};

use nts_model::{Relation, VariableKind};
use nts_terms::nts_store::NodeId;
use nts_terms::{AliasDefId, GenericArgs, Ty, UniverseIndex};
use std::alloc::{AllocError, Global};
use std::marker::Model;

/// What a variable is known to be.
#[derive(Clone, Copy, PartialEq, Eq)]
pub enum State {
    /// Nothing is known of it.
    Unset,
    /// It is one with the variable of a lower number.
    Link(usize),
    /// It stands for a term that is no variable of its kind.
    Known(NodeId),
}

/// An inference variable of a table.
#[derive(Clone, Copy, PartialEq, Eq)]
pub struct Variable {
    pub kind: VariableKind,
    /// The universe that bounds the leaves of its value.
    pub universe: UniverseIndex,
    pub state: State,
    /// The variable of a lower number with which its sub-unification class was joined.
    pub sub_link: Option<usize>,
}

/// A region constraint that was recorded.
#[derive(Clone, Copy, PartialEq, Eq)]
pub struct Constraint {
    pub relation: Relation,
    pub left: NodeId,
    pub right: NodeId,
    /// Whether the leak check sees it.
    pub is_visible: bool,
}

/// The type that an alias stands for where goals may not see it: a hidden type, with the alias that it
/// is hidden behind.
#[derive(Clone, Copy, PartialEq, Eq)]
pub struct HiddenType {
    pub alias: AliasDefId,
    pub args: GenericArgs,
    pub ty: Ty,
}

/// A change of a table, by what undoes it.
#[derive(Clone, Copy, PartialEq, Eq)]
pub enum UndoLog {
    /// A variable was added.
    Added,
    /// A variable was as given.
    Changed(usize, Variable),
    /// A variable was as given, and came last into the order of binding.
    Bound(usize, Variable),
    /// The current universe was as given.
    Moved(UniverseIndex),
    /// A constraint was recorded.
    Constrained,
    /// A hidden type was registered.
    Registered,
    /// A hidden type was as given.
    Replaced(usize, HiddenType),
    /// A duplicate was added.
    Duplicated,
}

/// What a rollback restores.
#[derive(Drop)]
pub struct Contents {
    variables: Vec<Variable>,
    order: Vec<usize>,
    universe: UniverseIndex,
    constraints: Vec<Constraint>,
    hidden: Vec<HiddenType>,
    duplicates: Vec<HiddenType>,
}

impl Model for Contents {
    ghost use Rattle.nts_unify.specs.Entries.{Entries};

    ghost Value = { Entries };

    ghost view = { λ c. record { variables = c.variables.items; order = c.order.items; universe = c.universe; constraints = c.constraints.items; hidden = record { lookup = c.hidden.items; duplicates = c.duplicates.items } } };
}

impl Contents {
    /// No variables, in the root universe. It takes no memory.
    pub fn new(alloc: Global) -> Self
        ensures { result ≡ record {
          variables = [];
          order = [];
          universe = 0;
          constraints = [];
          hidden = record { lookup = []; duplicates = [] };
        } }
    {
        Contents {
            variables: Vec::new(alloc),
            order: Vec::new(alloc),
            universe: 0,
            constraints: Vec::new(alloc),
            hidden: Vec::new(alloc),
            duplicates: Vec::new(alloc),
        }
    }

    /// How many variables there are.
    pub fn len(&self) -> usize
        ensures { result ≡ length self.now.variables }
    {
        self.variables.len()
    }

    /// The current universe.
    pub fn universe(&self) -> UniverseIndex
        ensures { result ≡ self.now.universe }
    {
        self.universe
    }

    /// What is known of the variable of that number.
    pub fn variable(&self, n: usize) -> Variable
        requires { n < length self.now.variables }
        ensures { slice_get self.now.variables n ≡ Some result }
    {
        self.variables[n]
    }

    /// The region constraint at a position.
    pub fn constraint(&self, n: usize) -> Constraint
        requires { n < length self.now.constraints }
        ensures { slice_get self.now.constraints n ≡ Some result }
    {
        self.constraints[n]
    }

    /// How many region constraints there are.
    pub fn constraint_count(&self) -> usize
        ensures { result ≡ length self.now.constraints }
    {
        self.constraints.len()
    }

    /// The hidden type at a position.
    pub fn hidden_type(&self, n: usize) -> HiddenType
        requires { n < length self.now.hidden.lookup }
        ensures { slice_get self.now.hidden.lookup n ≡ Some result }
    {
        self.hidden[n]
    }

    /// How many hidden types are registered.
    pub fn hidden_count(&self) -> usize
        ensures { result ≡ length self.now.hidden.lookup }
    {
        self.hidden.len()
    }

    /// The hidden types that are registered.
    pub fn hidden_types(&self) -> &[HiddenType]
        ensures { result.now ≡ self.now.hidden.lookup }
    {
        &self.hidden
    }

    /// The duplicates of hidden types.
    pub fn duplicates(&self) -> &[HiddenType]
        ensures { result.now ≡ self.now.hidden.duplicates }
    {
        &self.duplicates
    }

    /// Where the lists are.
    pub fn allocator(&self) -> Global {
        *self.hidden.allocator()
    }

    /// Adds a variable behind the others, and answers its number. After an error nothing has changed.
    pub fn add(&mut self, variable: Variable) -> Result<usize, AllocError>
        ensures number { IfOk result (λ v. v ≡ length self.old.variables) }
        ensures entries { OnOk result (self.new ≡ added self.old variable) }
        ensures err { OnErr result (self.new ≡ self.old) }
    {
        let number = self.variables.len();
        self.variables.push(variable)?;
        Ok(number)
    }

    /// Puts what is known of a variable in the place of what was known.
    pub fn set(&mut self, n: usize, variable: Variable)
        requires { n < length self.old.variables }
        ensures { self.new ≡ with_variable self.old n variable }
    {
        self.variables[n] = variable;
    }

    /// Likewise, and notes that this variable was bound last. After an error nothing has changed.
    pub fn bind(&mut self, n: usize, variable: Variable) -> Result<(), AllocError>
        requires { n < length self.old.variables }
        ensures entries { OnOk result (self.new ≡ bound self.old n variable) }
        ensures err { OnErr result (self.new ≡ self.old) }
    {
        self.order.push(n)?;
        self.variables[n] = variable;
        Ok(())
    }

    /// Makes a universe the current one.
    pub fn move_to(&mut self, universe: UniverseIndex)
        ensures { self.new ≡ moved self.old universe }
    {
        self.universe = universe;
    }

    /// Adds a region constraint behind the others. After an error nothing has changed.
    pub fn constrain(&mut self, constraint: Constraint) -> Result<(), AllocError>
        ensures entries { OnOk result (self.new ≡ constrained self.old constraint) }
        ensures err { OnErr result (self.new ≡ self.old) }
    {
        self.constraints.push(constraint)?;
        Ok(())
    }

    /// Adds a hidden type behind the others. After an error nothing has changed.
    pub fn register(&mut self, hidden: HiddenType) -> Result<(), AllocError>
        ensures entries { OnOk result (self.new ≡ registered self.old hidden) }
        ensures err { OnErr result (self.new ≡ self.old) }
    {
        self.hidden.push(hidden)?;
        Ok(())
    }

    /// Puts a hidden type in the place of the one at a position.
    pub fn replace(&mut self, n: usize, hidden: HiddenType)
        requires { n < length self.old.hidden.lookup }
        ensures { self.new ≡ with_hidden self.old n hidden }
    {
        self.hidden[n] = hidden;
    }

    /// Adds a duplicate of a hidden type behind the others. After an error nothing has changed.
    pub fn add_duplicate(&mut self, hidden: HiddenType) -> Result<(), AllocError>
        ensures entries { OnOk result (self.new ≡ duplicated self.old hidden) }
        ensures err { OnErr result (self.new ≡ self.old) }
    {
        self.duplicates.push(hidden)?;
        Ok(())
    }

    /// Undoes one change. It takes no memory.
    pub fn undo(&mut self, change: UndoLog)
        ensures { self.new ≡ undone change self.old }
    {
        match change {
            UndoLog::Added => {
                self.variables.pop();
            }
            UndoLog::Changed(n, variable) => {
                if n < self.variables.len() {
                    self.variables[n] = variable;
                }
            }
            UndoLog::Bound(n, variable) => {
                self.order.pop();
                if n < self.variables.len() {
                    self.variables[n] = variable;
                }
            }
            UndoLog::Moved(universe) => {
                self.universe = universe;
            }
            UndoLog::Constrained => {
                self.constraints.pop();
            }
            UndoLog::Registered => {
                self.hidden.pop();
            }
            UndoLog::Replaced(n, hidden) => {
                if n < self.hidden.len() {
                    self.hidden[n] = hidden;
                }
            }
            UndoLog::Duplicated => {
                self.duplicates.pop();
            }
        }
    }
}
