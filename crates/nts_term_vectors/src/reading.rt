//! Reading terms: a function that reads a term of no store, or of another sort, answers nothing.
use crate::making::Kind;
use nts_model::{Label, Sort, TyHead};
use nts_store::{EvalError, LabelTest, NodeId, all_labels};
use nts_terms::{
    BoundVars, Const, Cx, DefId, GenericArg, GenericArgKind, GenericArgs, ParamEnv, Predicate,
    Region, Stored, Term, TermKind, Ty,
};

/// What a type, a region, a const or a predicate is.
pub fn kind_shown(cx: &Cx, node: NodeId) -> Option<Kind> {
    let (ty, region) = (Ty { node }, Region { node });
    let (ct, predicate) = (Const { node }, Predicate { node });
    if cx.holds(ty) {
        Some(Kind::Ty(ty.kind(cx)))
    } else if cx.holds(region) {
        Some(Kind::Region(region.kind(cx)))
    } else if cx.holds(ct) {
        Some(Kind::Const(ct.kind(cx)))
    } else if cx.holds(predicate) {
        Some(Kind::Predicate(predicate.kind(cx)))
    } else {
        None
    }
}

/// The sort of an argument, which is the argument of what it shows.
pub fn sort_of_argument(cx: &Cx, node: NodeId) -> Option<Sort> {
    let arg = GenericArg { node };
    if !cx.holds(arg) {
        return None;
    }
    let (sort, shown) = match arg.kind(cx) {
        GenericArgKind::Lifetime(region) => (Sort::Region, GenericArg::from(region)),
        GenericArgKind::Type(ty) => (Sort::Ty, GenericArg::from(ty)),
        GenericArgKind::Const(ct) => (Sort::Const, GenericArg::from(ct)),
    };
    if shown == arg { Some(sort) } else { None }
}

/// The sort of a term, which is the term of what it shows.
pub fn sort_of_term(cx: &Cx, node: NodeId) -> Option<Sort> {
    let term = Term { node };
    if !cx.holds(term) {
        return None;
    }
    let (sort, shown) = match term.kind(cx) {
        TermKind::Ty(ty) => (Sort::Ty, Term::from(ty)),
        TermKind::Const(ct) => (Sort::Const, Term::from(ct)),
    };
    if shown == term { Some(sort) } else { None }
}

/// How many arguments, predicates or sorts a list has.
pub fn count(cx: &Cx, node: NodeId) -> Option<usize> {
    let (args, env, vars) = (GenericArgs { node }, ParamEnv { node }, BoundVars { node });
    if cx.holds(args) {
        Some(args.len(cx))
    } else if cx.holds(env) {
        Some(env.len(cx))
    } else if cx.holds(vars) {
        Some(vars.len(cx))
    } else {
        None
    }
}

/// An argument or a predicate of a list.
pub fn part(cx: &Cx, node: NodeId, i: usize) -> Option<NodeId> {
    let (args, env) = (GenericArgs { node }, ParamEnv { node });
    if cx.holds(args) && i < args.len(cx) {
        Some(args.get(cx, i).node)
    } else if cx.holds(env) && i < env.len(cx) {
        Some(env.get(cx, i).node)
    } else {
        None
    }
}

/// A sort of a list.
pub fn sort_listed(cx: &Cx, node: NodeId, i: usize) -> Option<Sort> {
    let vars = BoundVars { node };
    if cx.holds(vars) && i < vars.len(cx) {
        Some(vars.get(cx, i))
    } else {
        None
    }
}

/// How many children a node has.
pub fn child_count(cx: &Cx, node: NodeId) -> Option<usize> {
    if cx.nodes.contains(node) {
        Some(cx.nodes.child_count(node))
    } else {
        None
    }
}

/// A child of a node.
pub fn child(cx: &Cx, node: NodeId, i: usize) -> Option<NodeId> {
    if cx.nodes.contains(node) && i < cx.nodes.child_count(node) {
        Some(cx.nodes.child(node, i))
    } else {
        None
    }
}

/// The label of a node.
pub fn label(cx: &Cx, node: NodeId) -> Option<Label> {
    if cx.nodes.contains(node) {
        Some(cx.nodes.label(node))
    } else {
        None
    }
}

/// What is known of a whole term: whether a bound variable has its binder outside, whether one names a position of a
/// canonical value, and whether there is a variable of a type or a const.
pub fn flags(cx: &Cx, node: NodeId) -> Option<(bool, bool, bool)> {
    if !cx.nodes.contains(node) {
        return None;
    }
    let x = GenericArg { node };
    let infers = cx.has_non_region_infer(x);
    if infers != cx.nodes.flags(node).has_infer {
        return None;
    }
    Some((
        cx.has_escaping_bound_vars(x),
        cx.has_canonical_bound(x),
        infers,
    ))
}

/// Whether two terms are one, by their trees and by their numbers.
pub fn are_one(cx: &Cx, x: NodeId, y: NodeId) -> Option<bool> {
    if !cx.nodes.contains(x) || !cx.nodes.contains(y) {
        return None;
    }
    let same = cx.same(GenericArg { node: x }, GenericArg { node: y });
    if same == cx.nodes.same(x, y) && same == (x == y) {
        Some(same)
    } else {
        None
    }
}

/// Whether a declaration takes these arguments.
pub fn fits(cx: &Cx, def: DefId, node: NodeId) -> Option<bool> {
    let args = GenericArgs { node };
    if cx.holds(args) {
        Some(cx.fits(def, args))
    } else {
        None
    }
}

/// How many arguments something declared takes.
pub fn arity(cx: &Cx, def: DefId) -> Option<usize> {
    match cx.declarations.sorts(def) {
        Some(sorts) => Some(sorts.len()),
        None => None,
    }
}

/// Whether a const of arguments of these sorts may have that type.
pub fn may_be_const_type(cx: &Cx, sorts: &[Sort], node: NodeId) -> Result<bool, EvalError> {
    let ty = Ty { node };
    if !cx.holds(ty) {
        return Err(EvalError::NoSolution);
    }
    Ok(cx.is_const_type(sorts, ty)?)
}

/// A test that the label of an error does not pass.
struct NoErrors;

impl LabelTest for NoErrors {
    ghost use Rattle.std.specs.Prelude.{◌≢◌};
    ghost use Rattle.nts_model.specs.declared.labels.Label.TheVariants as label;
    ghost use Rattle.nts_model.specs.declared.labels.TyHead.TheVariants as ty;

    ghost passes = { λ _ l. l ≢ label.Ty ty.Error };

    fn test(&self, label: Label) -> bool {
        label != Label::Ty(TyHead::Error)
    }
}

/// Whether no error stands in a term.
pub fn has_no_error(cx: &Cx, node: NodeId) -> Result<bool, EvalError> {
    if !cx.nodes.contains(node) {
        return Err(EvalError::NoSolution);
    }
    Ok(all_labels(cx.alloc, &cx.nodes, node, &NoErrors)?)
}

/// Whether a node of a type is one as a handle, a term and an argument.
pub fn is_type_handle(cx: &Cx, node: NodeId) -> bool {
    let ty = Ty::from_node(node);
    cx.nodes.contains(node)
        && Ty::may_have(cx.nodes.label(node))
        && Stored::node(ty) == node
        && GenericArg::from(Term::from(ty)).node == node
}
