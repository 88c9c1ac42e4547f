//! Tests as lists of steps, each of which makes a term, relates two terms, or sees what became of the table.
ghost use Rattle.nts_table.specs.Tables.{IsTable};

use nts_fixtures::{Fixture, Make, Name, Names};
use nts_model::{AliasRelationDirection, Relation, Variance};
use nts_solver_relating::RelateExt;
use nts_store::EvalError;
use nts_terms::{GenericArg, Predicate, PredicateKind, Span, Term, Ty};
use nts_unify::Constraint;
use std::alloc::Global;
use std::process::Abort;

/// A step of a test. A variable and a constraint are named by their numbers, and a term by its name.
pub enum Step {
    /// Makes a term, and gives it a name.
    Let(Name, Make),
    /// Relates two terms, which leaves these goals.
    Leaves(Name, Variance, Name, &'static [Left]),
    /// Two terms can't be related.
    Refuses(Name, Variance, Name),
    /// The table has so many variables and constraints.
    Counts(usize, usize),
    /// A constraint says that the first region outlives the second one, as the leak check sees it.
    Outlives(usize, Name, Name),
    /// The first term, with values in place of its variables, is the second one.
    Resolves(Name, Name),
    /// Whether two variables are of one sub-unification class.
    Shares(usize, usize, bool),
}

/// A goal that relating leaves.
pub enum Left {
    /// The first type, which was expected, is a subtype of the second one.
    Subtype(Name, Name),
    /// The first type is a subtype of the second one, which was expected.
    SubtypeOfExpected(Name, Name),
    /// Two terms are related, of which one is an alias.
    AliasRelate(Name, Name, AliasRelationDirection),
}

/// Plays the steps one after the other, in a new table.
pub fn plays(rt: &impl Abort, alloc: Global, steps: &[Step]) {
    let mut fixture = Fixture::new(alloc).expect(rt, "memory");
    let mut names = Names::new(alloc);
    play_all(rt, &mut fixture, &mut names, steps);
}

fn play_all(rt: &impl Abort, fixture: &mut Fixture, names: &mut Names, steps: &[Step])
    requires { IsTable fixture.old.cx.nodes fixture.old.table }
{
    for n in 0..steps.len() {
        let played = play(fixture, names, &steps[n]);
        assert!(rt; matches!(played, Ok(true)), "step {n}");
    }
}

fn play(fixture: &mut Fixture, names: &mut Names, step: &Step) -> Result<bool, EvalError>
    requires { IsTable fixture.old.cx.nodes fixture.old.table }
    ensures { IsTable fixture.new.cx.nodes fixture.new.table }
{
    match step {
        Step::Let(name, make) => {
            fixture.name(names, *name, *make)?;
            Ok(true)
        }
        Step::Leaves(x, variance, y, goals) => {
            let found = related(fixture, names.term(x)?, *variance, names.term(y)?)?;
            are(fixture, names, found, goals)
        }
        Step::Refuses(x, variance, y) => {
            let found = related(fixture, names.term(x)?, *variance, names.term(y)?)?;
            Ok(found.is_none())
        }
        Step::Counts(variables, constraints) => Ok(fixture.counts() == (*variables, *constraints)),
        Step::Outlives(n, x, y) => {
            let outlives = outlives(names.term(x)?, names.term(y)?);
            Ok(fixture.constraint(*n) == Some(outlives))
        }
        Step::Resolves(x, y) => Ok(fixture.resolved(names.term(x)?)? == names.term(y)?),
        Step::Shares(a, b, answer) => Ok(fixture.shares(*a, *b) == Some(*answer)),
    }
}

/// That one region outlives another, as the leak check sees it.
fn outlives(left: GenericArg, right: GenericArg) -> Constraint {
    Constraint {
        relation: Relation::RegionOutlives,
        left: left.node,
        right: right.node,
        is_visible: true,
    }
}

/// Relates two arguments, and answers the predicates of the goals that are left, or nothing where there is no solution.
fn related(
    fixture: &mut Fixture,
    x: GenericArg,
    variance: Variance,
    y: GenericArg,
) -> Result<Option<Vec<Predicate>>, EvalError>
    requires { IsTable fixture.old.cx.nodes fixture.old.table }
    ensures { IsTable fixture.new.cx.nodes fixture.new.table }
{
    fixture.seen(x)?;
    fixture.seen(y)?;
    let (cx, table) = (&mut fixture.cx, &mut fixture.table);
    let found = table.relate(cx, fixture.env, x, variance, y, Span(0));
    if matches!(found, Err(EvalError::NoSolution)) {
        return Ok(None);
    }
    let mut predicates = Vec::new(fixture.cx.alloc);
    for goal in &found? {
        if goal.param_env != fixture.env {
            return Err(EvalError::NoSolution);
        }
        predicates.push(goal.predicate)?;
    }
    Ok(Some(predicates))
}

/// Whether goals were found, and these ones.
fn are(
    fixture: &mut Fixture,
    names: &Names,
    found: Option<Vec<Predicate>>,
    goals: &[Left],
) -> Result<bool, EvalError>
    requires { IsTable fixture.old.cx.nodes fixture.old.table }
    ensures { IsTable fixture.new.cx.nodes fixture.new.table }
{
    let Some(found) = found else {
        return Ok(false);
    };
    let mut expected = Vec::new(fixture.cx.alloc);
    for n in 0..goals.len() {
        expected.push(goal(fixture, names, &goals[n])?)?;
    }
    Ok(found == expected)
}

fn goal(fixture: &mut Fixture, names: &Names, left: &Left) -> Result<Predicate, EvalError>
    requires { IsTable fixture.old.cx.nodes fixture.old.table }
    ensures { IsTable fixture.new.cx.nodes fixture.new.table }
{
    match left {
        Left::Subtype(a, b) => subtype(fixture, names.term(a)?, names.term(b)?, true),
        Left::SubtypeOfExpected(a, b) => subtype(fixture, names.term(a)?, names.term(b)?, false),
        Left::AliasRelate(a, b, direction) => {
            alias_relate(fixture, names.term(a)?, names.term(b)?, *direction)
        }
    }
}

/// That the first type is a subtype of the second one, of which one was expected.
fn subtype(
    fixture: &mut Fixture,
    a: GenericArg,
    b: GenericArg,
    a_is_expected: bool,
) -> Result<Predicate, EvalError>
    requires { IsTable fixture.old.cx.nodes fixture.old.table }
    ensures { IsTable fixture.new.cx.nodes fixture.new.table }
{
    let (a, b) = (Ty { node: a.node }, Ty { node: b.node });
    if !fixture.cx.holds(a) || !fixture.cx.holds(b) {
        return Err(EvalError::NoSolution);
    }
    fixture.statement(PredicateKind::Subtype {
        a_is_expected,
        a,
        b,
    })
}

/// That two terms are related, of which one is an alias.
fn alias_relate(
    fixture: &mut Fixture,
    a: GenericArg,
    b: GenericArg,
    direction: AliasRelationDirection,
) -> Result<Predicate, EvalError>
    requires { IsTable fixture.old.cx.nodes fixture.old.table }
    ensures { IsTable fixture.new.cx.nodes fixture.new.table }
{
    let (a, b) = (Term { node: a.node }, Term { node: b.node });
    if !fixture.cx.holds(a) || !fixture.cx.holds(b) {
        return Err(EvalError::NoSolution);
    }
    fixture.statement(PredicateKind::AliasRelate(a, b, direction))
}
