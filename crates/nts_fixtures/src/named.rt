//! Terms by names: how each is made is data, so that a test can be a list of what it makes and sees.
ghost use Rattle.nts_table.specs.Tables.{IsTable};

use crate::fixture::Fixture;
use nts_model::{BoundVarIndexKind, FloatTy, IntTy, Sort, UintTy, VariableKind};
use nts_store::EvalError;
use nts_terms::{
    BoundConst, ConstKind, GenericArg, InferTy, PlaceholderConst, RegionKind, TyKind, UniverseIndex,
};
use std::alloc::{AllocError, Global};

/// The name of a term.
pub type Name = &'static str;

/// How a term is made. The names are those of terms that were made before.
#[derive(Clone, Copy)]
pub enum Make {
    /// A new variable of this kind, of the table's universe.
    Var(VariableKind),
    /// A new variable of this kind, of the root universe.
    RootVar(VariableKind),
    /// A type without arguments.
    Type(Type),
    Region(RegionKind),
    /// The parameter of this number that stands for a const.
    ConstParam(u32),
    /// The position of this number, of a const.
    ConstPosition(usize),
    /// The const of this number that the innermost binder binds.
    ConstBound(usize),
    /// The placeholder of a const, of this universe and number.
    ConstPlaceholder(UniverseIndex, usize),
    /// The constructor of a type.
    Wrap(Name),
    /// The constructor of two types.
    Pair(Name, Name),
    /// The constructor of a region and a type.
    Reference(Name, Name),
    /// The alias of a type.
    AliasOf(Name),
    /// A pointer to functions that give such a type, under a binder of a type.
    Maker(Name),
    /// A pointer to functions that take the first type and give the second one, under a binder of that sort.
    Turner(Sort, Name, Name),
    /// A pair of pairs of pairs, with that many levels.
    Ladder(Name, u32),
    /// A type under that many constructors of one argument.
    Nested(Name, u32),
}

/// A type without arguments.
#[derive(Clone, Copy)]
pub enum Type {
    Int(IntTy),
    Uint(UintTy),
    Float(FloatTy),
    Param(u32),
    Infer(InferTy),
    /// The variable of the binder that lies so many binders out.
    Bound(usize, usize),
    Position(usize),
    Placeholder(UniverseIndex, usize),
}

/// The type `u8`.
pub const BYTE: Make = Make::Type(Type::Uint(UintTy::U8));

/// The type `u32`.
pub const WORD: Make = Make::Type(Type::Uint(UintTy::U32));

/// Terms by their names.
#[derive(Drop)]
pub struct Names {
    alloc: Global,
    terms: Vec<(Name, GenericArg)>,
}

impl Names {
    pub fn new(alloc: Global) -> Names {
        Names {
            alloc,
            terms: Vec::new(alloc),
        }
    }

    /// Gives a term a name. A name that is given again is that of the newer term.
    pub fn give(&mut self, name: Name, term: GenericArg) -> Result<(), AllocError> {
        self.terms.push((name, term))?;
        Ok(())
    }

    /// The term of that name, if there is one.
    pub fn term(&self, name: &str) -> Result<GenericArg, EvalError> {
        for (other, term) in self.terms.iter().rev() {
            if *other == name {
                return Ok(*term);
            }
        }
        Err(EvalError::NoSolution)
    }

    /// The terms of those names.
    pub fn terms(&self, names: &[Name]) -> Result<Vec<GenericArg>, EvalError> {
        let mut terms = Vec::new(self.alloc);
        for name in names {
            terms.push(self.term(name)?)?;
        }
        Ok(terms)
    }
}

impl Fixture {
    /// Makes a term, and gives it a name.
    pub fn name(&mut self, names: &mut Names, name: Name, make: Make) -> Result<(), EvalError>
        requires { IsTable self.old.cx.nodes self.old.table }
        ensures { IsTable self.new.cx.nodes self.new.table }
    {
        let term = self.made(names, make)?;
        Ok(names.give(name, term)?)
    }

    fn made(&mut self, names: &Names, make: Make) -> Result<GenericArg, EvalError>
        requires { IsTable self.old.cx.nodes self.old.table }
        ensures { IsTable self.new.cx.nodes self.new.table }
    {
        match make {
            Make::Wrap(x) => self.wrap(names.term(x)?),
            Make::AliasOf(x) => self.alias_of(names.term(x)?),
            Make::Maker(x) => self.maker(names.term(x)?),
            Make::Ladder(x, levels) => self.ladder(names.term(x)?, levels),
            Make::Nested(x, depth) => self.nested(names.term(x)?, depth),
            Make::Pair(x, y) => self.pair(names.term(x)?, names.term(y)?),
            Make::Reference(x, y) => self.reference(names.term(x)?, names.term(y)?),
            Make::Turner(sort, x, y) => self.turner(sort, names.term(x)?, names.term(y)?),
            other => self.without_parts(other),
        }
    }

    /// A term that is not made of other ones.
    fn without_parts(&mut self, make: Make) -> Result<GenericArg, EvalError>
        requires { IsTable self.old.cx.nodes self.old.table }
        ensures { IsTable self.new.cx.nodes self.new.table }
    {
        match make {
            Make::Var(kind) => self.var(kind),
            Make::RootVar(kind) => self.root_var(kind),
            Make::Type(ty) => self.plain(ty),
            Make::Region(kind) => self.region(kind),
            Make::ConstParam(number) => self.konst(ConstKind::Param(number)),
            Make::ConstPosition(var) => self.bound_const(BoundVarIndexKind::Canonical, var),
            Make::ConstBound(var) => self.bound_const(BoundVarIndexKind::Bound(0), var),
            Make::ConstPlaceholder(universe, var) => {
                let bound = BoundConst { var };
                self.konst(ConstKind::Placeholder(PlaceholderConst { universe, bound }))
            }
            _ => Err(EvalError::NoSolution),
        }
    }

    /// A new variable of the table's universe.
    fn var(&mut self, kind: VariableKind) -> Result<GenericArg, EvalError>
        requires { IsTable self.old.cx.nodes self.old.table }
        ensures { IsTable self.new.cx.nodes self.new.table }
    {
        let (cx, table) = (&mut self.cx, &mut self.table);
        match kind {
            VariableKind::Ty => Ok(table.next_ty_infer(cx)?.into()),
            VariableKind::Int => Ok(table.next_int_infer(cx)?.into()),
            VariableKind::Float => Ok(table.next_float_infer(cx)?.into()),
            VariableKind::Const => Ok(table.next_const_infer(cx)?.into()),
            VariableKind::Region => Ok(table.next_region_infer(cx)?.into()),
        }
    }

    /// A type without arguments.
    fn plain(&mut self, ty: Type) -> Result<GenericArg, EvalError>
        requires { IsTable self.old.cx.nodes self.old.table }
        ensures { IsTable self.new.cx.nodes self.new.table }
    {
        match ty {
            Type::Int(int) => self.ty(TyKind::Int(int)),
            Type::Uint(int) => self.ty(TyKind::Uint(int)),
            Type::Float(float) => self.ty(TyKind::Float(float)),
            Type::Param(number) => self.ty(TyKind::Param(number)),
            Type::Infer(infer) => self.ty(TyKind::Infer(infer)),
            Type::Bound(level, var) => self.bound(level, var),
            Type::Position(var) => self.position(var),
            Type::Placeholder(universe, var) => self.placeholder(universe, var),
        }
    }

    fn bound_const(&mut self, index: BoundVarIndexKind, var: usize) -> Result<GenericArg, EvalError>
        requires { IsTable self.old.cx.nodes self.old.table }
        ensures { IsTable self.new.cx.nodes self.new.table }
    {
        self.konst(ConstKind::Bound(index, BoundConst { var }))
    }
}
