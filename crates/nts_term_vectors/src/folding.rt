//! Folds of terms, where what a call asks is tested before it.
ghost use Rattle.std.specs.Prelude.{◌≡◌, IfOk};
ghost use Rattle.nts_store.specs.Growth.{tree_at};
ghost use Rattle.nts_terms.specs.Handles.{HoldsPredicate};

use crate::folders::{Counting, Numbering, Refusal};
use nts_folding::{TypeFoldable, fold_node};
use nts_store::{EvalError, Fault, NodeId};
use nts_terms::{
    AliasDefId, AliasId, AliasTerm, Binder, BoundVars, Cx, GenericArgs, Predicate, TraitId,
    TraitRef, Ty,
};

impl From<Refusal> for EvalError {
    fn from(e: Refusal) -> EvalError {
        match e {
            Refusal::Memory => EvalError::Memory,
            Refusal::Variable(_) => EvalError::NoSolution,
        }
    }
}

/// What is folded.
#[derive(Clone, Copy)]
pub enum Fold {
    /// Two nodes.
    Nodes,
    /// A pair of arguments and a type that there may be.
    Pair,
    /// A list of three types, of which the second one is the first given, and the others are the second.
    List,
    /// The arguments of an alias and those of a trait.
    Applied,
    /// Arguments under a binder of the second term's variables.
    Bound,
}

/// Folds two terms by a new folder, which gives two others, where so many variables are met.
pub fn folds(
    cx: &mut Cx,
    fold: Fold,
    from: (NodeId, NodeId),
    to: (NodeId, NodeId),
    met: usize,
) -> Result<bool, EvalError> {
    let mut folder = Numbering::new();
    folds_by(cx, &mut folder, fold, from, to, met)
}

fn folds_by(
    cx: &mut Cx,
    folder: &mut Numbering,
    fold: Fold,
    from: (NodeId, NodeId),
    to: (NodeId, NodeId),
    met: usize,
) -> Result<bool, EvalError> {
    let folded = folded(cx, folder, fold, from.0, from.1)?;
    Ok(folded == to && folder.met() == met && folder.inside == 0)
}

/// What two terms become.
fn folded(
    cx: &mut Cx,
    folder: &mut Numbering,
    fold: Fold,
    x: NodeId,
    y: NodeId,
) -> Result<(NodeId, NodeId), EvalError> {
    match fold {
        Fold::Nodes => folded_nodes(cx, folder, x, y),
        Fold::Pair => folded_pair(cx, folder, GenericArgs { node: x }, Ty { node: y }),
        Fold::List => folded_list(cx, folder, Ty { node: x }, Ty { node: y }),
        Fold::Applied => {
            folded_applied(cx, folder, GenericArgs { node: x }, GenericArgs { node: y })
        }
        Fold::Bound => folded_bound(cx, folder, GenericArgs { node: x }, BoundVars { node: y }),
    }
}

fn folded_nodes(
    cx: &mut Cx,
    folder: &mut Numbering,
    x: NodeId,
    y: NodeId,
) -> Result<(NodeId, NodeId), EvalError> {
    if !cx.nodes.contains(x) || !cx.nodes.contains(y) {
        return Err(EvalError::NoSolution);
    }
    let first = fold_node(cx, folder, x)?;
    Ok((first, fold_node(cx, folder, y)?))
}

fn folded_pair(
    cx: &mut Cx,
    folder: &mut Numbering,
    args: GenericArgs,
    ty: Ty,
) -> Result<(NodeId, NodeId), EvalError> {
    if !cx.holds(args) || !cx.holds(ty) {
        return Err(EvalError::NoSolution);
    }
    match (args, Some(ty)).fold_with(cx, folder)? {
        (args, Some(ty)) => Ok((args.node, ty.node)),
        (_, None) => Err(EvalError::NoSolution),
    }
}

fn folded_list(
    cx: &mut Cx,
    folder: &mut Numbering,
    a: Ty,
    b: Ty,
) -> Result<(NodeId, NodeId), EvalError> {
    if !cx.holds(a) || !cx.holds(b) {
        return Err(EvalError::NoSolution);
    }
    let list = vec![in cx.alloc; b, a, b]?;
    let folded = list.fold_with(cx, folder)?;
    of_three(&folded)
}

/// The second of three types and the last one.
fn of_three(list: &[Ty]) -> Result<(NodeId, NodeId), EvalError> {
    match list {
        [first, second, last] if first == last => Ok((second.node, last.node)),
        _ => Err(EvalError::NoSolution),
    }
}

/// The arguments of the first alias and those of the first trait.
fn folded_applied(
    cx: &mut Cx,
    folder: &mut Numbering,
    of_alias: GenericArgs,
    of_trait: GenericArgs,
) -> Result<(NodeId, NodeId), EvalError> {
    if !cx.holds(of_alias) || !cx.holds(of_trait) {
        return Err(EvalError::NoSolution);
    }
    let item = AliasDefId::Ty(AliasId { number: 0 });
    let id = TraitId { number: 0 };
    let alias = AliasTerm {
        def_id: item,
        args: of_alias,
    };
    let trait_ref = TraitRef {
        def_id: id,
        args: of_trait,
    };
    let (alias, trait_ref) = (alias, trait_ref).fold_with(cx, folder)?;
    if alias.def_id == item && trait_ref.def_id == id {
        Ok((alias.args.node, trait_ref.args.node))
    } else {
        Err(EvalError::NoSolution)
    }
}

fn folded_bound(
    cx: &mut Cx,
    folder: &mut Numbering,
    value: GenericArgs,
    vars: BoundVars,
) -> Result<(NodeId, NodeId), EvalError> {
    if !cx.holds(value) || !cx.holds(vars) {
        return Err(EvalError::NoSolution);
    }
    let (under, beside) = (Binder { vars, value }, value).fold_with(cx, folder)?;
    if under.vars == vars {
        Ok((under.value.node, beside.node))
    } else {
        Err(EvalError::NoSolution)
    }
}

/// Whether a fold of arguments ends at this variable, which is the type of that number that is met.
pub fn refuses(
    cx: &mut Cx,
    node: NodeId,
    variable: usize,
    types: usize,
) -> Result<bool, EvalError> {
    let args = GenericArgs { node };
    if !cx.holds(args) {
        return Err(EvalError::NoSolution);
    }
    let mut folder = Numbering::new();
    match args.fold_with(cx, &mut folder) {
        Err(Refusal::Variable(met)) => Ok(met == variable && folder.types == types),
        _ => Ok(false),
    }
}

/// Whether a fold that answers for nothing gives the predicate again, goes into so many binders and out of each, and makes so many
/// types and consts again.
pub fn counts(
    cx: &mut Cx,
    node: NodeId,
    entered: usize,
    rebuilt: usize,
) -> Result<bool, EvalError> {
    let predicate = Predicate { node };
    if !cx.holds(predicate) {
        return Err(EvalError::NoSolution);
    }
    let mut folder = Counting {
        entered: 0,
        inside: 0,
        rebuilt: 0,
    };
    let folded = counted(cx, &mut folder, predicate)?;
    Ok(
        folded == predicate
            && folder.entered == entered
            && folder.inside == 0
            && folder.rebuilt == rebuilt,
    )
}

/// This folder leaves each predicate as it is.
fn counted(cx: &mut Cx, folder: &mut Counting, predicate: Predicate) -> Result<Predicate, Fault>
    requires { HoldsPredicate cx.old.nodes predicate }
    ensures { IfOk result (λ p. tree_at cx.new.nodes p.node ≡ tree_at cx.old.nodes
        predicate.node) }
{
    let folded = predicate.fold_with(cx, folder)?;
    Ok(folded)
}
