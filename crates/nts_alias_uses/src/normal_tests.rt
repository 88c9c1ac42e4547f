//! Terms are normalized in a context.
use crate::normal::{Call, Given, sees};
use next_trait_solver::ty::EvalError;

#[test]
fn the_alias_of_a_type_is_what_its_clause_gives(rt: HostRuntime) {
    sees(&rt, rt.alloc(), Given::Type, Call::Term, Ok(true));
    sees(&rt, rt.alloc(), Given::Type, Call::Ty, Ok(true));
}

#[test]
fn a_declared_const_is_the_value_that_its_clause_gives(rt: HostRuntime) {
    sees(&rt, rt.alloc(), Given::Value, Call::Term, Ok(true));
    sees(&rt, rt.alloc(), Given::Value, Call::Const, Ok(true));
}

#[test]
fn an_alias_without_a_clause_is_nothing(rt: HostRuntime) {
    let none = Err(EvalError::NoSolution);
    sees(&rt, rt.alloc(), Given::Nothing, Call::Term, none);
    sees(&rt, rt.alloc(), Given::Nothing, Call::Ty, none);
}

#[test]
fn an_alias_is_a_subtype_of_what_its_clause_gives(rt: HostRuntime) {
    let none = Err(EvalError::NoSolution);
    sees(&rt, rt.alloc(), Given::Type, Call::Sub, Ok(true));
    sees(&rt, rt.alloc(), Given::Value, Call::Sub, Ok(true));
    sees(&rt, rt.alloc(), Given::Nothing, Call::Sub, none);
}
