//! What stands for goals that are added.
ghost use Rattle.std.specs.Prelude.{IfOk};
ghost use Rattle.nts_terms.specs.Handles.{HoldsTerm};
ghost use Rattle.nts_table.specs.Tables.{IsTable};

use nts_adding::replace_aliases;
use nts_fixtures::{Fixture, Make, Name, Names, Type};
use nts_model::{AliasRelationDirection, Sort};
use nts_store::EvalError;
use nts_terms::{
    ClauseKind, DefId, Goal, InferTy, Predicate, PredicateKind, Term, TraitId, TraitRef,
};
use std::alloc::Global;
use std::process::Abort;

/// What a goal says of a type, by its name.
#[derive(Clone, Copy)]
pub enum Said {
    /// That a trait holds for it.
    Holds(Name),
    /// That it is well formed.
    WellFormed(Name),
    /// That it is equal to another one.
    Equal(Name, Name),
}

/// Terms by their names; a goal, in a new table; each alias in it that gives place to a variable, with the variable, in order; and
/// what the goal says then.
pub struct Added(
    pub &'static [(Name, Make)],
    pub Said,
    pub &'static [(Name, Name)],
    pub Said,
);

/// The table's first type variable.
pub const FIRST: Make = Make::Type(Type::Infer(InferTy::TyVar(0)));

/// The second one.
pub const SECOND: Make = Make::Type(Type::Infer(InferTy::TyVar(1)));

/// Sees what stands for a goal.
pub fn adds(rt: &impl Abort, alloc: Global, case: &Added) {
    let mut fixture = Fixture::new(alloc).expect(rt, "memory");
    let mut names = Names::new(alloc);
    let Added(given, said, relations, last) = case;
    give_all(rt, &mut fixture, &mut names, given);
    let seen = stand(&mut fixture, &names, *said, relations, *last);
    assert!(rt; matches!(seen, Ok(true)));
}

fn give_all(rt: &impl Abort, fixture: &mut Fixture, names: &mut Names, given: &[(Name, Make)])
    requires { IsTable fixture.old.cx.nodes fixture.old.table }
    ensures { IsTable fixture.new.cx.nodes fixture.new.table }
{
    for n in 0..given.len() {
        let made = fixture.name(names, given[n].0, given[n].1);
        assert!(rt; made.is_ok(), "term {n}");
    }
}

/// Whether these relations and a goal that says this stand for the goal.
fn stand(
    fixture: &mut Fixture,
    names: &Names,
    said: Said,
    relations: &[(Name, Name)],
    last: Said,
) -> Result<bool, EvalError>
    requires { IsTable fixture.old.cx.nodes fixture.old.table }
    ensures { IsTable fixture.new.cx.nodes fixture.new.table }
{
    fixture.cx.declare_trait(&[Sort::Ty])?;
    let predicate = predicate(fixture, names, said)?;
    let param_env = fixture.env;
    fixture.seen(predicate)?;
    fixture.seen(param_env)?;
    let goal = Goal {
        param_env,
        predicate,
    };
    let (cx, table) = (&mut fixture.cx, &mut fixture.table);
    let (found, left) = replace_aliases(table, cx, goal)?;
    let is_last = left.predicate == self::predicate(fixture, names, last)?;
    Ok(is_last && are_relations(fixture, names, &found, relations)?)
}

fn are_relations(
    fixture: &mut Fixture,
    names: &Names,
    found: &[Goal],
    relations: &[(Name, Name)],
) -> Result<bool, EvalError>
    requires { IsTable fixture.old.cx.nodes fixture.old.table }
    ensures { IsTable fixture.new.cx.nodes fixture.new.table }
{
    if found.len() != relations.len() {
        return Ok(false);
    }
    for n in 0..found.len() {
        let (alias, variable) = relations[n];
        if found[n].predicate != predicate(fixture, names, Said::Equal(alias, variable))? {
            return Ok(false);
        }
    }
    Ok(true)
}

/// A predicate that binds nothing.
fn predicate(fixture: &mut Fixture, names: &Names, said: Said) -> Result<Predicate, EvalError>
    requires { IsTable fixture.old.cx.nodes fixture.old.table }
    ensures { IsTable fixture.new.cx.nodes fixture.new.table }
{
    match said {
        Said::Holds(x) => {
            let def_id = TraitId { number: 0 };
            let args = fixture.args(&[names.term(x)?])?;
            if !fixture.cx.fits(DefId::Trait(def_id), args) {
                return Err(EvalError::NoSolution);
            }
            let of = TraitRef { def_id, args };
            fixture.statement(PredicateKind::Clause(ClauseKind::Trait(of)))
        }
        Said::WellFormed(x) => {
            let x = term(fixture, names, x)?;
            fixture.statement(PredicateKind::Clause(ClauseKind::WellFormed(x)))
        }
        Said::Equal(x, y) => {
            let (x, y) = (term(fixture, names, x)?, term(fixture, names, y)?);
            let direction = AliasRelationDirection::Equate;
            fixture.statement(PredicateKind::AliasRelate(x, y, direction))
        }
    }
}

/// A type or const.
fn term(fixture: &Fixture, names: &Names, x: &str) -> Result<Term, EvalError>
    ensures { IfOk result (HoldsTerm fixture.now.cx.nodes) }
{
    let node = names.term(x)?.node;
    let term = Term { node };
    if !fixture.cx.holds(term) {
        return Err(EvalError::NoSolution);
    }
    Ok(term)
}
