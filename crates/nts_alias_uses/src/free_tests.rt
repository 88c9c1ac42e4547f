//! What leaves open what an alias is normalized to, and what does not.
use crate::free::{Asked, sees};
use next_trait_solver::ty::VariableKind;
use nts_fixtures::{BYTE, Make, Name, Type};

const VARIABLE: Make = Make::Var(VariableKind::Ty);

/// A type, and two variables of the root universe.
const GIVEN: &[(Name, Make)] = &[
    ("byte", BYTE),
    ("x", VARIABLE),
    ("y", VARIABLE),
    ("wrapped x", Make::Wrap("x")),
];

/// A variable and a placeholder of the next universe.
const LATER: &[(Name, Make)] = &[
    ("z", VARIABLE),
    ("hole", Make::Type(Type::Placeholder(1, 0))),
];

/// The alias of a type is normalized to a variable, and nothing is made equal or assumed.
fn of(of: Name, term: Name) -> Asked {
    Asked {
        given: GIVEN,
        later: LATER,
        equal: ("byte", "byte"),
        assumed: None,
        of,
        term,
    }
}

#[test]
fn a_variable_that_stands_nowhere_else(rt: HostRuntime) {
    let alloc = rt.alloc();
    sees(&rt, alloc, &of("byte", "x"), true);
    sees(&rt, alloc, &of("y", "x"), true);
    sees(&rt, alloc, &of("y", "z"), true);
    sees(&rt, alloc, &of("hole", "z"), true);
}

#[test]
fn a_variable_of_the_alias(rt: HostRuntime) {
    let alloc = rt.alloc();
    sees(&rt, alloc, &of("x", "x"), false);
    sees(&rt, alloc, &of("wrapped x", "x"), false);
}

/// What the variable's universe can't name.
#[test]
fn a_later_variable_or_placeholder(rt: HostRuntime) {
    let alloc = rt.alloc();
    sees(&rt, alloc, &of("z", "x"), false);
    sees(&rt, alloc, &of("hole", "x"), false);
}

#[test]
fn what_the_table_knows(rt: HostRuntime) {
    let alloc = rt.alloc();
    sees(&rt, alloc, &of("byte", "byte"), false);
    let mut known = of("byte", "x");
    known.equal = ("x", "byte");
    sees(&rt, alloc, &known, false);
    let mut joined = of("y", "x");
    joined.equal = ("x", "y");
    sees(&rt, alloc, &joined, false);
    // The later variable is one with an older one, whose universe can be named.
    let mut older = of("z", "y");
    older.equal = ("x", "z");
    sees(&rt, alloc, &older, true);
}

#[test]
fn what_the_environment_says(rt: HostRuntime) {
    let alloc = rt.alloc();
    let mut asked = of("byte", "x");
    asked.assumed = Some("y");
    sees(&rt, alloc, &asked, true);
    asked.assumed = Some("wrapped x");
    sees(&rt, alloc, &asked, false);
    asked.assumed = Some("z");
    sees(&rt, alloc, &asked, false);
}
