//! Values folded by scripts, with each condition of a call tested by a public function.
ghost use Rattle.nts_table.specs.Tables.{IsTable};
ghost use Rattle.nts_normalize.specs.Calling.{IsAliasTerm, KeepsAll};

use crate::scripts::{Script, answer};
use nts_fixtures::{Fixture, table_in};
use nts_normalize::NormalizationFolder;
use nts_store::EvalError;
use nts_table::InferCtxt;
use nts_terms::{AliasTerm, Cx, GenericArg, Goal, PredicateKind, Term, UniverseIndex};
use std::process::Abort;

/// What folding a value answers, once or twice, the goals that were collected, and the universe of the table then.
#[derive(Drop)]
pub struct Folded {
    pub first: Result<GenericArg, EvalError>,
    pub again: Option<Result<GenericArg, EvalError>>,
    pub goals: Vec<Goal>,
    pub universe: UniverseIndex,
}

/// A goal that is ambiguous.
pub fn ambiguous(fixture: &mut Fixture) -> Result<Goal, EvalError>
    requires { IsTable fixture.old.cx.nodes fixture.old.table }
    ensures { IsTable fixture.new.cx.nodes fixture.new.table }
{
    let param_env = fixture.env;
    let predicate = fixture.statement(PredicateKind::Ambiguous)?;
    Ok(Goal {
        param_env,
        predicate,
    })
}

/// Folds a value by the first script, and then again by the second, if there is one, with a table in that universe that
/// has one variable.
pub fn fold(
    rt: &impl Abort,
    fixture: &mut Fixture,
    universe: UniverseIndex,
    script: Script,
    next: Option<Script>,
    x: GenericArg,
) -> Result<Folded, EvalError>
    requires { IsTable fixture.old.cx.nodes fixture.old.table }
    ensures { IsTable fixture.new.cx.nodes fixture.new.table }
{
    assert!(rt; fixture.cx.holds(x));
    let alloc = fixture.cx.alloc;
    let mut table = table_in(&fixture.cx, universe)?;
    table.next_ty_infer(&mut fixture.cx)?;
    let mut now = script;
    let normalize = move |table: &mut InferCtxt, cx: &mut Cx, alias: AliasTerm| -> Result<
        (Term, Option<Goal>),
        EvalError,
    >
        requires table { IsTable cx.old.nodes table.old }
        requires args { IsAliasTerm cx.old.nodes alias }
        ensures keeps { KeepsAll table.old cx.old alias result table.new cx.new }
    {
        let script = now;
        now = next.unwrap_or(script);
        answer(table, cx, alias, script)
    };
    let mut folder = NormalizationFolder::new(alloc, Vec::new(alloc), Vec::new(alloc), normalize);
    let first = folder.fold(&mut table, &mut fixture.cx, x);
    let again = match next {
        None => None,
        Some(_) => Some(folder.fold(&mut table, &mut fixture.cx, x)),
    };
    Ok(Folded {
        first,
        again,
        goals: folder.stalled_goals(),
        universe: table.universe(),
    })
}
