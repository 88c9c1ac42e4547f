//! Terms by names: how each is made is data, so that a test can be a list of what it makes and sees.
use crate::making::{
    Kind, make, make_args, make_empty_env, make_env, make_nested, make_trait, make_vars,
};
use nts_model::Sort;
use nts_store::{EvalError, NodeId};
use nts_terms::{
    AliasDefId, AliasId, AliasTerm, Binder, BoundVars, ClauseKind, ConstId, ConstKind, CtorId, Cx,
    FnSig, GenericArg, GenericArgs, Predicate, PredicateKind, RegionKind, Term, TraitId, TraitRef,
    Ty, TyKind,
};
use std::alloc::{AllocError, Global};

/// The name of a term.
pub type Name = &'static str;

/// How a term is made. The names are those of terms that were made before.
#[derive(Clone, Copy)]
pub enum Make {
    /// A type without parts.
    Type(TyKind),
    Region(RegionKind),
    /// A const without parts.
    Const(ConstKind),
    /// The const of that type with these bits.
    Value(Name, u128),
    /// A constructor with these arguments.
    Ctor(CtorId, Name),
    /// An alias of types with these arguments.
    Alias(AliasId, Name),
    /// A const with these arguments that is to be evaluated.
    Unevaluated(ConstId, Name),
    /// A pointer to functions, under a binder of these variables, that take and give these types.
    Pointer(Name, Name),
    /// The predicate, under a binder of these variables, that states this.
    Under(Name, Statement),
    /// The predicate, without variables, that the trait holds for this argument.
    TraitOf(TraitId, Name),
    Args(&'static [Name]),
    Vars(&'static [Sort]),
    /// The environment of one predicate.
    Env(Name),
    EmptyEnv,
    /// A type under that many of the first constructor.
    Nested(Name, u32),
}

/// What a predicate states.
#[derive(Clone, Copy)]
pub enum Statement {
    /// The trait holds for these arguments.
    Trait(TraitId, Name),
    /// The goal that an alias of these arguments is that term.
    NormalizesTo(AliasDefId, Name, Name),
    /// The clause that an alias of these arguments is that term.
    Projection(AliasDefId, Name, Name),
    /// A type coerces to itself.
    Coerce(Name),
    /// The clause that names a feature.
    Unstable(u32),
}

/// A number that is of no store.
const UNNAMED: NodeId = NodeId { number: usize::MAX };

/// Terms by their names.
#[derive(Drop)]
pub struct Names {
    alloc: Global,
    nodes: Vec<(Name, NodeId)>,
}

impl Names {
    pub fn new(alloc: Global) -> Names {
        Names {
            alloc,
            nodes: Vec::new(alloc),
        }
    }

    /// Gives a term a name.
    pub fn give(&mut self, name: Name, node: NodeId) -> Result<(), AllocError> {
        self.nodes.push((name, node))?;
        Ok(())
    }

    /// The term of that name. What has no name is of no store.
    pub fn node(&self, name: &str) -> NodeId {
        for (other, node) in self.nodes.iter() {
            if *other == name {
                return *node;
            }
        }
        UNNAMED
    }

    fn list(&self, name: &str) -> GenericArgs {
        GenericArgs {
            node: self.node(name),
        }
    }

    fn vars(&self, name: &str) -> BoundVars {
        BoundVars {
            node: self.node(name),
        }
    }

    fn term(&self, name: &str) -> Term {
        Term {
            node: self.node(name),
        }
    }

    fn alias(&self, def_id: AliasDefId, name: &str) -> AliasTerm {
        AliasTerm {
            def_id,
            args: self.list(name),
        }
    }

    /// The terms of those names.
    pub fn args(&self, names: &[Name]) -> Result<Vec<GenericArg>, AllocError> {
        let mut args = Vec::new(self.alloc);
        for name in names {
            let node = self.node(name);
            args.push(GenericArg { node })?;
        }
        Ok(args)
    }
}

/// Makes a term.
pub fn made(cx: &mut Cx, names: &Names, how: Make) -> Result<NodeId, EvalError> {
    match kind_of(names, how) {
        Some(kind) => make(cx, kind),
        None => made_list(cx, names, how),
    }
}

/// The kind of a term; nothing for a list and what is made in other ways.
fn kind_of(names: &Names, how: Make) -> Option<Kind> {
    match how {
        Make::Type(kind) => Some(Kind::Ty(kind)),
        Make::Region(kind) => Some(Kind::Region(kind)),
        Make::Const(kind) => Some(Kind::Const(kind)),
        Make::Value(ty, bits) => {
            let ty = Ty {
                node: names.node(ty),
            };
            Some(Kind::Const(ConstKind::Value { ty, bits }))
        }
        Make::Ctor(ctor, args) => Some(Kind::Ty(TyKind::Ctor(ctor, names.list(args)))),
        Make::Alias(id, args) => {
            let alias = names.alias(AliasDefId::Ty(id), args);
            Some(Kind::Ty(TyKind::Alias(alias)))
        }
        Make::Unevaluated(id, args) => {
            let alias = names.alias(AliasDefId::Const(id), args);
            Some(Kind::Const(ConstKind::Unevaluated(alias)))
        }
        Make::Pointer(vars, args) => {
            let value = FnSig {
                inputs_and_output: names.list(args),
            };
            let vars = names.vars(vars);
            Some(Kind::Ty(TyKind::FnPtr(Binder { vars, value })))
        }
        Make::Under(vars, statement) => {
            let value = stated(names, statement);
            let vars = names.vars(vars);
            Some(Kind::Predicate(Binder { vars, value }))
        }
        _ => None,
    }
}

/// What a statement says.
fn stated(names: &Names, statement: Statement) -> PredicateKind {
    match statement {
        Statement::Trait(def_id, args) => {
            let args = names.list(args);
            PredicateKind::Clause(ClauseKind::Trait(TraitRef { def_id, args }))
        }
        Statement::NormalizesTo(id, args, term) => {
            let alias = names.alias(id, args);
            let term = names.term(term);
            PredicateKind::NormalizesTo { alias, term }
        }
        Statement::Projection(id, args, term) => {
            let alias = names.alias(id, args);
            let term = names.term(term);
            PredicateKind::Clause(ClauseKind::Projection { alias, term })
        }
        Statement::Coerce(ty) => {
            let ty = Ty {
                node: names.node(ty),
            };
            PredicateKind::Coerce { a: ty, b: ty }
        }
        Statement::Unstable(n) => PredicateKind::Clause(ClauseKind::UnstableFeature(n)),
    }
}

fn made_list(cx: &mut Cx, names: &Names, how: Make) -> Result<NodeId, EvalError> {
    match how {
        Make::Args(list) => made_args(cx, names, list),
        Make::TraitOf(id, arg) => match make_trait(cx, id, names.node(arg))? {
            Some(predicate) => Ok(predicate.node),
            None => Err(EvalError::NoSolution),
        },
        Make::Vars(sorts) => make_vars(cx, sorts),
        Make::Env(predicate) => {
            let node = names.node(predicate);
            make_env(cx, Predicate { node })
        }
        Make::EmptyEnv => make_empty_env(cx),
        Make::Nested(bottom, depth) => make_nested(cx, names.node(bottom), depth),
        _ => Err(EvalError::NoSolution),
    }
}

fn made_args(cx: &mut Cx, names: &Names, list: &[Name]) -> Result<NodeId, EvalError> {
    let args = names.args(list)?;
    make_args(cx, &args)
}
