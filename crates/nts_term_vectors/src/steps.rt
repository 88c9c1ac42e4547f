//! Tests as lists of steps, each of which declares or makes something, folds it, or sees what it is.
use crate::folding::{Fold, counts, folds, refuses};
use crate::making::{make, make_bare_trait, make_trait};
use crate::named::{Make, Name, Names, made};
use crate::reading::{
    are_one, arity, child, child_count, count, fits, flags, has_no_error, is_type_handle,
    kind_shown, label, may_be_const_type, part, sort_listed, sort_of_argument, sort_of_term,
};
use nts_model::{Label, Sort, Variance};
use nts_store::{EvalError, NodeId, binders_of};
use nts_terms::{AliasId, AliasKind, ConstId, CtorId, Cx, DefId, TraitId, Ty, are_variances};
use std::alloc::Global;
use std::process::Abort;

/// A step of a test. A term is named by its name.
pub enum Step {
    /// Makes a term, and gives it a name.
    Let(Name, Make),
    /// The trait does not take this argument, or none.
    NoTrait(TraitId, Option<Name>),
    /// Declares a constructor of a type, which gets this number.
    Ctor(CtorId),
    /// Declares a trait, which gets this number.
    Trait(TraitId, &'static [Sort]),
    /// Declares an alias of types, which gets this number.
    Alias(AliasId, &'static [Sort]),
    /// Declares a const of that type, which gets this number.
    Const(ConstId, &'static [Sort], Name),
    /// How many arguments something declared takes.
    Arity(DefId, Option<usize>),
    /// Whether a declaration takes these arguments.
    Fits(DefId, Name, bool),
    /// Whether a const of arguments of these sorts may have that type.
    IsConstType(&'static [Sort], Name, bool),
    /// Whether a constructor of these sorts may vary like this.
    Variances(&'static [Sort], &'static [Variance], bool),
    /// Whether two names are of one term.
    Is(Name, Name, bool),
    /// The store has so many terms.
    Size(usize),
    /// A term has this label, and what it shows of itself makes it again.
    Shows(Name, Label),
    /// A list has this label.
    Lists(Name, Label),
    /// So many variables are bound in the children of a term.
    Binds(Name, usize),
    /// An argument is of that sort.
    Argument(Name, Sort),
    /// A term is of that sort.
    Term(Name, Sort),
    /// A type is the same as a handle, a term and an argument.
    Handle(Name),
    /// A list has so many members.
    Count(Name, usize),
    /// A member of a list.
    Part(Name, usize, Name),
    /// A sort of a list.
    SortAt(Name, usize, Sort),
    /// Whether a bound variable has its binder outside, one names a position, and there is an inference variable that is no
    /// region.
    Flags(Name, bool, bool, bool),
    /// Whether no error stands in a term.
    NoErrors(Name, bool),
    /// Folds two terms, which gives two others, where so many variables are met.
    Folds(Fold, (Name, Name), (Name, Name), usize),
    /// A fold of arguments ends at this variable, which is the type of that number that is met.
    Refuses(Name, usize, usize),
    /// A fold goes into so many binders of a predicate, and makes so many types and consts again.
    Counts(Name, usize, usize),
}

/// Plays the steps one after the other, in a new store.
pub fn plays(rt: &impl Abort, alloc: Global, steps: &[Step]) {
    let mut cx = Cx::new(alloc);
    let mut names = Names::new(alloc);
    play_all(rt, &mut cx, &mut names, steps);
}

fn play_all(rt: &impl Abort, cx: &mut Cx, names: &mut Names, steps: &[Step]) {
    for n in 0..steps.len() {
        let played = play(cx, names, &steps[n]);
        assert!(rt; matches!(played, Ok(true)), "step {n}");
    }
}

/// Declares, makes or folds something, or sees what is there.
fn play(cx: &mut Cx, names: &mut Names, step: &Step) -> Result<bool, EvalError> {
    match step {
        Step::Let(name, how) => gives(cx, names, *name, *how),
        Step::NoTrait(id, arg) => refuses_trait(cx, names, *id, *arg),
        Step::Folds(fold, from, to, met) => {
            let from = (names.node(from.0), names.node(from.1));
            let to = (names.node(to.0), names.node(to.1));
            folds(cx, *fold, from, to, *met)
        }
        Step::Refuses(name, variable, types) => { refuses(cx, names.node(name), *variable, *types) }
        Step::Counts(name, entered, rebuilt) => { counts(cx, names.node(name), *entered, *rebuilt) }
        Step::Shows(name, its_label) => shows(cx, names.node(name), *its_label),
        _ => declares(cx, names, step),
    }
}

fn gives(cx: &mut Cx, names: &mut Names, name: Name, how: Make) -> Result<bool, EvalError> {
    let node = made(cx, names, how)?;
    names.give(name, node)?;
    Ok(true)
}

fn refuses_trait(
    cx: &mut Cx,
    names: &Names,
    id: TraitId,
    arg: Option<Name>,
) -> Result<bool, EvalError> {
    let made = match arg {
        Some(name) => make_trait(cx, id, names.node(name))?,
        None => make_bare_trait(cx, id)?,
    };
    Ok(made.is_none())
}

fn shows(cx: &mut Cx, node: NodeId, its_label: Label) -> Result<bool, EvalError> {
    match kind_shown(cx, node) {
        Some(kind) => Ok(make(cx, kind)? == node && label(cx, node) == Some(its_label)),
        None => Ok(false),
    }
}

/// Declares something, or sees what is there.
fn declares(cx: &mut Cx, names: &Names, step: &Step) -> Result<bool, EvalError> {
    match step {
        Step::Ctor(id) => declares_ctor(cx, *id),
        Step::Trait(id, sorts) => Ok(cx.declare_trait(sorts)? == *id),
        Step::Alias(id, sorts) => Ok(cx.declare_alias(sorts, AliasKind::Projection)? == *id),
        Step::Const(id, sorts, name) => declares_const(cx, *id, sorts, names.node(name)),
        Step::IsConstType(sorts, name, answer) => {
            Ok(may_be_const_type(cx, sorts, names.node(name))? == *answer)
        }
        Step::NoErrors(name, answer) => Ok(has_no_error(cx, names.node(name))? == *answer),
        _ => Ok(is_seen(cx, names, step)),
    }
}

fn declares_ctor(cx: &mut Cx, id: CtorId) -> Result<bool, EvalError> {
    Ok(cx.declare_ctor(&[Sort::Ty], &[Variance::Covariant])? == id)
}

fn declares_const(
    cx: &mut Cx,
    id: ConstId,
    sorts: &[Sort],
    node: NodeId,
) -> Result<bool, EvalError> {
    let ty = Ty { node };
    if !cx.holds(ty) || !cx.is_const_type(sorts, ty)? {
        return Err(EvalError::NoSolution);
    }
    let declared = cx.declare_const(sorts, ty)?;
    Ok(declared == id && cx.declarations.const_type(id) == Some(ty))
}

/// Sees what can be read of declarations and lists.
fn is_seen(cx: &Cx, names: &Names, step: &Step) -> bool {
    match step {
        Step::Arity(def, answer) => arity(cx, *def) == *answer,
        Step::Fits(def, name, answer) => fits(cx, *def, names.node(name)) == Some(*answer),
        Step::Variances(sorts, variances, answer) => { are_variances(sorts, variances) == *answer }
        Step::Is(x, y, answer) => are_one(cx, names.node(x), names.node(y)) == Some(*answer),
        Step::Size(size) => cx.nodes.len() == *size,
        Step::Part(list, i, name) => has_part(cx, names.node(list), *i, names.node(name)),
        _ => match name_of(step) {
            Some(name) => is_shown(cx, names.node(name), step),
            None => false,
        },
    }
}

fn has_part(cx: &Cx, list: NodeId, i: usize, node: NodeId) -> bool {
    part(cx, list, i) == Some(node) && child(cx, list, i) == Some(node)
}

/// The term that a step reads alone.
fn name_of(step: &Step) -> Option<Name> {
    match step {
        Step::Lists(name, _)
        | Step::Binds(name, _)
        | Step::Argument(name, _)
        | Step::Term(name, _)
        | Step::Handle(name)
        | Step::Count(name, _)
        | Step::SortAt(name, _, _)
        | Step::Flags(name, _, _, _) => Some(*name),
        _ => None,
    }
}

/// Sees what can be read of one term.
fn is_shown(cx: &Cx, node: NodeId, step: &Step) -> bool {
    match step {
        Step::Lists(_, its_label) => label(cx, node) == Some(*its_label),
        Step::Binds(_, binders) => binds(cx, node, *binders),
        Step::Argument(_, sort) => sort_of_argument(cx, node) == Some(*sort),
        Step::Term(_, sort) => sort_of_term(cx, node) == Some(*sort),
        Step::Handle(_) => is_type_handle(cx, node),
        Step::Count(_, n) => count(cx, node) == Some(*n) && child_count(cx, node) == Some(*n),
        Step::SortAt(_, i, sort) => sort_listed(cx, node, *i) == Some(*sort),
        Step::Flags(_, escapes, names, infers) => {
            flags(cx, node) == Some((*escapes, *names, *infers))
        }
        _ => false,
    }
}

fn binds(cx: &Cx, node: NodeId, binders: usize) -> bool {
    match label(cx, node) {
        Some(its_label) => binders_of(its_label) == binders,
        None => false,
    }
}
