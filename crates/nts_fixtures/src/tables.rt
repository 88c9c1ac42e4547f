//! Variables of the table, and what can be read of it.
ghost use Rattle.std.specs.Prelude.{◌≡◌, OnOk, IfOk};
ghost use Rattle.nts_model.specs.Tables.Resolving.{Knows};
ghost use Rattle.nts_store.specs.Growth.{tree_at};
ghost use Rattle.nts_terms.specs.Handles.{Holds};
ghost use Rattle.nts_unify.specs.Reading.{content_of};
ghost use Rattle.nts_table.specs.Tables.{IsTable};

use crate::fixture::Fixture;
use nts_model::VariableKind;
use nts_store::EvalError;
use nts_table::InferCtxt;
use nts_terms::{
    AliasDefId, AliasId, AliasTerm, Cx, GenericArg, Span, Stored, Ty, TypingMode, UniverseIndex,
};
use nts_unify::Constraint;

/// A table without variables, in that universe.
pub fn table_in(cx: &Cx, universe: UniverseIndex) -> Result<InferCtxt, EvalError>
    ensures table { IfOk result (IsTable cx.now.nodes) }
    ensures universe { IfOk result (λ t. t.entries.universe ≡ universe) }
{
    let mut table = InferCtxt::new(cx.alloc, TypingMode::PostAnalysis);
    table.create_universes(universe)?;
    Ok(table)
}

impl Fixture {
    /// A new type variable.
    pub fn ty_var(&mut self) -> Result<GenericArg, EvalError>
        requires { IsTable self.old.cx.nodes self.old.table }
        ensures { IsTable self.new.cx.nodes self.new.table }
    {
        Ok(self.table.next_ty_infer(&mut self.cx)?.into())
    }

    /// A new variable of the root universe.
    pub fn root_var(&mut self, kind: VariableKind) -> Result<GenericArg, EvalError>
        requires { IsTable self.old.cx.nodes self.old.table }
        ensures { IsTable self.new.cx.nodes self.new.table }
    {
        let (cx, table) = (&mut self.cx, &mut self.table);
        Ok(table.variable_in_universe(cx, kind, 0, None)?)
    }

    /// One more universe.
    pub fn universe(&mut self) -> Result<UniverseIndex, EvalError>
        requires { IsTable self.old.cx.nodes self.old.table }
        ensures { IsTable self.new.cx.nodes self.new.table }
    {
        Ok(self.table.create_next_universe()?)
    }

    /// Registers a hidden type of an alias over these arguments, and answers what the older one was.
    pub fn hide(
        &mut self,
        id: AliasId,
        args: &[GenericArg],
        ty: Ty,
    ) -> Result<Option<Ty>, EvalError>
        requires { IsTable self.old.cx.nodes self.old.table }
        ensures { IsTable self.new.cx.nodes self.new.table }
    {
        let args = self.args(args)?;
        self.seen(args)?;
        self.seen(ty)?;
        let def_id = AliasDefId::Ty(id);
        let key = AliasTerm { def_id, args };
        let (cx, table) = (&mut self.cx, &mut self.table);
        Ok(table.register_hidden_type_in_storage(cx, key, ty, Span(0))?)
    }

    /// Tests that a term is of the store and of the table.
    pub fn seen<T: Stored>(&self, x: T) -> Result<(), EvalError>
        ensures holds { OnOk result (Holds T.place self.now.cx.nodes (T.id x)) }
        ensures known { OnOk result (Knows (content_of self.now.cx.nodes self.now.table.entries)
            (tree_at self.now.cx.nodes (T.id x))) }
    {
        if !self.cx.holds(x) || !self.table.knows(&self.cx, x)? {
            return Err(EvalError::NoSolution);
        }
        Ok(())
    }

    /// How many variables and constraints the table has.
    pub fn counts(&self) -> (usize, usize) {
        (self.table.variable_count(), self.table.constraint_count())
    }

    /// A constraint of the table.
    pub fn constraint(&self, n: usize) -> Option<Constraint> {
        if n < self.table.constraint_count() {
            Some(self.table.constraint(n))
        } else {
            None
        }
    }

    /// Whether two variables are of one sub-unification class.
    pub fn shares(&self, x: usize, y: usize) -> Option<bool>
        requires { IsTable self.now.cx.nodes self.now.table }
    {
        let count = self.table.variable_count();
        if x >= count || y >= count {
            return None;
        }
        let x_root = self.table.sub_unification_table_root_var(x);
        let y_root = self.table.sub_unification_table_root_var(y);
        Some(x_root == y_root)
    }

    /// An argument with values and roots in place of its variables.
    pub fn resolved(&mut self, x: GenericArg) -> Result<GenericArg, EvalError>
        requires { IsTable self.old.cx.nodes self.old.table }
        ensures { IsTable self.new.cx.nodes self.new.table }
    {
        self.seen(x)?;
        Ok(self.table.resolve_vars_if_possible(&mut self.cx, x)?)
    }
}
