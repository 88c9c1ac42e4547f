//! Values opened and closed, with each condition of a call tested by a public function.
ghost use Rattle.nts_table.specs.Tables.{IsTable};

use nts_fixtures::{Fixture, table_in};
use nts_model::{Sort, Variance};
use nts_placeholder::{BoundVarReplacer, PlaceholderMaps, PlaceholderReplacer};
use nts_store::{EvalError, Fault};
use nts_table::InferCtxt;
use nts_terms::{CtorId, GenericArg, UniverseIndex};
use std::process::Abort;

/// A new constructor of a region, a type and a const.
pub fn declare_mixed(fixture: &mut Fixture) -> Result<CtorId, EvalError>
    requires { IsTable fixture.old.cx.nodes fixture.old.table }
    ensures { IsTable fixture.new.cx.nodes fixture.new.table }
{
    let sorts = [Sort::Region, Sort::Ty, Sort::Const];
    let kept = Variance::Covariant;
    let variances = [kept, kept, Variance::Invariant];
    Ok(fixture.cx.declare_ctor(&sorts, &variances)?)
}

/// Opens a value, in this table, by the universes that the binders have.
pub fn open(
    rt: &impl Abort,
    fixture: &mut Fixture,
    table: &mut InferCtxt,
    list: &mut Vec<Option<UniverseIndex>>,
    x: GenericArg,
) -> Result<(GenericArg, PlaceholderMaps), Fault>
    requires { IsTable fixture.old.cx.nodes fixture.old.table }
    ensures { IsTable fixture.new.cx.nodes fixture.new.table }
{
    assert!(rt; fixture.cx.holds(x));
    assert!(rt; BoundVarReplacer::may_replace(&fixture.cx, list, x));
    BoundVarReplacer::replace_bound_vars(table, &mut fixture.cx, list, x)
}

/// Closes a value by these maps, with a table in a universe past all of the placeholders.
pub fn close(
    rt: &impl Abort,
    fixture: &mut Fixture,
    maps: &PlaceholderMaps,
    list: &[Option<UniverseIndex>],
    x: GenericArg,
) -> Result<GenericArg, EvalError>
    requires { IsTable fixture.old.cx.nodes fixture.old.table }
    ensures { IsTable fixture.new.cx.nodes fixture.new.table }
{
    let table = table_in(&fixture.cx, 9)?;
    assert!(rt; fixture.cx.holds(x));
    assert!(rt; table.knows(&fixture.cx, x)?);
    let cx = &mut fixture.cx;
    Ok(PlaceholderReplacer::replace_placeholders(&table, cx, maps, list, x)?)
}
