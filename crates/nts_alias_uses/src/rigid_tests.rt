//! An alias and a variable: what relating the two comes to.
use crate::rigid::{Outcome, Related, sees};
use next_trait_solver::ty::{EvalError, VariableKind};
use nts_fixtures::{BYTE, Make, Name};

const GIVEN: &[(Name, Make)] = &[
    ("byte", BYTE),
    ("x", Make::Var(VariableKind::Ty)),
    ("y", Make::Var(VariableKind::Ty)),
    ("number", Make::Var(VariableKind::Int)),
    ("const", Make::Var(VariableKind::Const)),
    ("alias of byte", Make::AliasOf("byte")),
];

/// An alias of that type, or a const over it that is to be evaluated, and a term.
fn of(is_const: bool, of: Name, term: Name) -> Related {
    Related {
        given: GIVEN,
        is_const,
        of,
        term,
    }
}

/// The term becomes the alias, and nothing is left.
const RELATED: Outcome = Outcome {
    added: Ok(0),
    is_alias: true,
    has_grown: true,
};

/// There is no solution, and the table is as before.
const REFUSED: Outcome = Outcome {
    added: Err(EvalError::NoSolution),
    is_alias: false,
    has_grown: false,
};

#[test]
fn a_type_variable_becomes_the_alias(rt: HostRuntime) {
    let alloc = rt.alloc();
    sees(&rt, alloc, &of(false, "byte", "x"), RELATED);
    sees(&rt, alloc, &of(false, "y", "x"), RELATED);
}

/// The alias's argument is related as any term is: where it is an alias, that is left as a goal.
#[test]
fn an_alias_in_the_alias_is_left(rt: HostRuntime) {
    let one = Outcome {
        added: Ok(1),
        is_alias: false,
        has_grown: false,
    };
    let alloc = rt.alloc();
    sees(&rt, alloc, &of(false, "alias of byte", "x"), one);
    sees(&rt, alloc, &of(false, "x", "x"), one);
}

#[test]
fn what_is_no_such_variable_is_refused(rt: HostRuntime) {
    let alloc = rt.alloc();
    sees(&rt, alloc, &of(false, "byte", "byte"), REFUSED);
    sees(&rt, alloc, &of(false, "byte", "number"), REFUSED);
    sees(&rt, alloc, &of(false, "byte", "const"), REFUSED);
    sees(&rt, alloc, &of(true, "byte", "x"), REFUSED);
}

#[test]
fn a_const_variable_becomes_a_const_that_is_to_be_evaluated(rt: HostRuntime) {
    sees(&rt, rt.alloc(), &of(true, "byte", "const"), RELATED);
}
