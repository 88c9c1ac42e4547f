//! Terms of the store.
ghost use Rattle.std.specs.Prelude.{◌≡◌, IfOk};
ghost use Rattle.nts_terms.specs.Handles.{HoldsArgs};
ghost use Rattle.nts_terms.specs.Kinds.{TyFits, ConstFits, StatementFits};
ghost use Rattle.nts_terms.specs.Signatures.{TyIsDeclared, ConstIsDeclared, StatementIsDeclared};
ghost use Rattle.nts_table.specs.Tables.{IsTable};

use crate::fixture::Fixture;
use nts_model::{BoundVarIndexKind, Sort, UintTy};
use nts_store::EvalError;
use nts_terms::{
    AliasDefId, AliasId, AliasTerm, Binder, BoundTy, ConstKind, CtorId, DefId, FnSig, GenericArg,
    GenericArgs, PlaceholderType, Predicate, PredicateKind, RegionKind, TyKind, UniverseIndex,
};

impl Fixture {
    pub fn ty(&mut self, kind: TyKind) -> Result<GenericArg, EvalError>
        requires table { IsTable self.old.cx.nodes self.old.table }
        requires parts { TyFits self.old.cx.nodes kind }
        requires declared { TyIsDeclared self.old.cx.declarations self.old.cx.nodes kind }
        ensures { IsTable self.new.cx.nodes self.new.table }
    {
        Ok(self.cx.mk_ty(kind)?.into())
    }

    pub fn region(&mut self, kind: RegionKind) -> Result<GenericArg, EvalError>
        requires { IsTable self.old.cx.nodes self.old.table }
        ensures { IsTable self.new.cx.nodes self.new.table }
    {
        Ok(self.cx.mk_region(kind)?.into())
    }

    pub fn konst(&mut self, kind: ConstKind) -> Result<GenericArg, EvalError>
        requires table { IsTable self.old.cx.nodes self.old.table }
        requires parts { ConstFits self.old.cx.nodes kind }
        requires declared { ConstIsDeclared self.old.cx.declarations self.old.cx.nodes kind }
        ensures { IsTable self.new.cx.nodes self.new.table }
    {
        Ok(self.cx.mk_const(kind)?.into())
    }

    /// A predicate that binds nothing.
    pub fn statement(&mut self, value: PredicateKind) -> Result<Predicate, EvalError>
        requires table { IsTable self.old.cx.nodes self.old.table }
        requires parts { StatementFits self.old.cx.nodes value }
        requires declared { StatementIsDeclared self.old.cx.declarations self.old.cx.nodes value }
        ensures { IsTable self.new.cx.nodes self.new.table }
    {
        let vars = self.cx.mk_bound_vars(&[])?;
        Ok(self.cx.mk_predicate(Binder { vars, value })?)
    }

    /// A list of arguments.
    pub fn args(&mut self, args: &[GenericArg]) -> Result<GenericArgs, EvalError>
        requires { IsTable self.old.cx.nodes self.old.table }
        ensures table { IsTable self.new.cx.nodes self.new.table }
        ensures kept { self.new.table ≡ self.old.table }
        ensures holds { IfOk result (HoldsArgs self.new.cx.nodes) }
    {
        for arg in args {
            if !self.cx.holds(*arg) {
                return Err(EvalError::NoSolution);
            }
        }
        Ok(self.cx.mk_args(args)?)
    }

    /// A type of integers without a sign.
    pub fn uint(&mut self, kind: UintTy) -> Result<GenericArg, EvalError>
        requires { IsTable self.old.cx.nodes self.old.table }
        ensures { IsTable self.new.cx.nodes self.new.table }
    {
        self.ty(TyKind::Uint(kind))
    }

    /// The type variable of the binder that lies so many binders out.
    pub fn bound(&mut self, level: usize, var: usize) -> Result<GenericArg, EvalError>
        requires { IsTable self.old.cx.nodes self.old.table }
        ensures { IsTable self.new.cx.nodes self.new.table }
    {
        let index = BoundVarIndexKind::Bound(level);
        self.ty(TyKind::Bound(index, BoundTy { var }))
    }

    /// A position of a type.
    pub fn position(&mut self, var: usize) -> Result<GenericArg, EvalError>
        requires { IsTable self.old.cx.nodes self.old.table }
        ensures { IsTable self.new.cx.nodes self.new.table }
    {
        let index = BoundVarIndexKind::Canonical;
        self.ty(TyKind::Bound(index, BoundTy { var }))
    }

    /// A placeholder of a type.
    pub fn placeholder(
        &mut self,
        universe: UniverseIndex,
        var: usize,
    ) -> Result<GenericArg, EvalError>
        requires { IsTable self.old.cx.nodes self.old.table }
        ensures { IsTable self.new.cx.nodes self.new.table }
    {
        let bound = BoundTy { var };
        self.ty(TyKind::Placeholder(PlaceholderType { universe, bound }))
    }

    /// A constructor over arguments that it takes.
    pub fn apply(&mut self, ctor: CtorId, args: &[GenericArg]) -> Result<GenericArg, EvalError>
        requires { IsTable self.old.cx.nodes self.old.table }
        ensures { IsTable self.new.cx.nodes self.new.table }
    {
        let args = self.args(args)?;
        if !self.cx.fits(DefId::Ctor(ctor), args) {
            return Err(EvalError::NoSolution);
        }
        self.ty(TyKind::Ctor(ctor, args))
    }

    /// The constructor of a type.
    pub fn wrap(&mut self, x: GenericArg) -> Result<GenericArg, EvalError>
        requires { IsTable self.old.cx.nodes self.old.table }
        ensures { IsTable self.new.cx.nodes self.new.table }
    {
        self.apply(self.one, &[x])
    }

    /// The constructor of two types.
    pub fn pair(&mut self, x: GenericArg, y: GenericArg) -> Result<GenericArg, EvalError>
        requires { IsTable self.old.cx.nodes self.old.table }
        ensures { IsTable self.new.cx.nodes self.new.table }
    {
        self.apply(self.two, &[x, y])
    }

    /// The constructor of a region and a type.
    pub fn reference(&mut self, x: GenericArg, y: GenericArg) -> Result<GenericArg, EvalError>
        requires { IsTable self.old.cx.nodes self.old.table }
        ensures { IsTable self.new.cx.nodes self.new.table }
    {
        self.apply(self.borrow, &[x, y])
    }

    /// An alias over arguments that it takes.
    pub fn alias(&mut self, id: AliasId, args: &[GenericArg]) -> Result<GenericArg, EvalError>
        requires { IsTable self.old.cx.nodes self.old.table }
        ensures { IsTable self.new.cx.nodes self.new.table }
    {
        let args = self.args(args)?;
        let def_id = AliasDefId::Ty(id);
        if !self.cx.fits(DefId::Alias(def_id), args) {
            return Err(EvalError::NoSolution);
        }
        self.ty(TyKind::Alias(AliasTerm { def_id, args }))
    }

    /// The alias of a type.
    pub fn alias_of(&mut self, x: GenericArg) -> Result<GenericArg, EvalError>
        requires { IsTable self.old.cx.nodes self.old.table }
        ensures { IsTable self.new.cx.nodes self.new.table }
    {
        self.alias(self.item, &[x])
    }

    /// A pointer to functions that give such a type, which may name a type that is bound there.
    pub fn maker(&mut self, x: GenericArg) -> Result<GenericArg, EvalError>
        requires { IsTable self.old.cx.nodes self.old.table }
        ensures { IsTable self.new.cx.nodes self.new.table }
    {
        self.pointer(Sort::Ty, &[x])
    }

    /// A pointer to functions that take the first type and give the second one. They may name a
    /// variable of that sort that is bound there.
    pub fn turner(
        &mut self,
        sort: Sort,
        x: GenericArg,
        y: GenericArg,
    ) -> Result<GenericArg, EvalError>
        requires { IsTable self.old.cx.nodes self.old.table }
        ensures { IsTable self.new.cx.nodes self.new.table }
    {
        self.pointer(sort, &[x, y])
    }

    /// A pointer to functions, under a binder of one variable of that sort.
    fn pointer(&mut self, sort: Sort, args: &[GenericArg]) -> Result<GenericArg, EvalError>
        requires { IsTable self.old.cx.nodes self.old.table }
        ensures { IsTable self.new.cx.nodes self.new.table }
    {
        let vars = self.cx.mk_bound_vars(&[sort])?;
        let inputs_and_output = self.args(args)?;
        if !self.cx.holds(vars) {
            return Err(EvalError::NoSolution);
        }
        let value = FnSig { inputs_and_output };
        self.ty(TyKind::FnPtr(Binder { vars, value }))
    }

    /// A pair of pairs of pairs, with that many levels: its tree is of a size past all counting, and the
    /// store has a few nodes.
    pub fn ladder(&mut self, bottom: GenericArg, levels: u32) -> Result<GenericArg, EvalError>
        requires { IsTable self.old.cx.nodes self.old.table }
        ensures { IsTable self.new.cx.nodes self.new.table }
    {
        let mut term = bottom;
        for _ in 0..levels {
            term = self.pair(term, term)?;
        }
        Ok(term)
    }

    /// A type under that many constructors of one argument.
    pub fn nested(&mut self, bottom: GenericArg, depth: u32) -> Result<GenericArg, EvalError>
        requires { IsTable self.old.cx.nodes self.old.table }
        ensures { IsTable self.new.cx.nodes self.new.table }
    {
        let mut term = bottom;
        for _ in 0..depth {
            term = self.wrap(term)?;
        }
        Ok(term)
    }
}
