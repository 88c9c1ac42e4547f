//! A handler of one's own beside a list of clauses.
use crate::clone::{add_rule_where, ask, vec_of};
use next_trait_solver::clauses::Clauses;
use next_trait_solver::delegate::Both;
use next_trait_solver::ty::{Certainty, Cx, EvalError, Goal, Sort, TyKind, UintTy, Variance};
use nts_marker::Marker;
use std::alloc::Global;

/// How sure it is that `Vec(u32)` is `Clone`, where `Vec(T)` is for each `T` that is `Sized`: `Yes`, since everything is `Sized`
/// by a handler that has no other rule.
#[tactic(auto, using(nts_asking::proofs::Asking::asking, nts_terms::proofs::Moved::growth))]
pub fn clone_of_sized(alloc: Global) -> Result<Option<Certainty>, EvalError> {
    let mut cx = Cx::new(alloc);
    let sized = cx.declare_trait(&[Sort::Ty])?;
    let clone = cx.declare_trait(&[Sort::Ty])?;
    let vec = cx.declare_ctor(&[Sort::Ty], &[Variance::Covariant])?;
    let word = cx.mk_ty(TyKind::Uint(UintTy::U32))?;
    let mut rules = Clauses::new(alloc);
    if !add_rule_where(&mut cx, &mut rules, clone, sized, vec)? {
        return Ok(None);
    }
    let Some(vec_of_word) = vec_of(&mut cx, vec, word.into())? else {
        return Ok(None);
    };
    let Some(predicate) = cx.trait_predicate(clone, &[vec_of_word.into()])? else {
        return Ok(None);
    };
    let param_env = cx.mk_env(&[])?;
    let goal = Goal {
        param_env,
        predicate,
    };
    let handler = Both {
        first: Marker {
            id: sized,
            certainty: Certainty::Yes,
        },
        second: rules,
    };
    ask(&mut cx, &handler, goal)
}
