//! Regions, and types, that outlive regions, and regions that are made equal.
ghost use Rattle.nts_table.specs.Tables.{IsTable};

use nts_fixtures::Fixture;
use nts_model::Relation;
use nts_store::EvalError;
use nts_table::is_unbound;
use nts_terms::{GenericArg, Region, Span, Ty, VisibleForLeakCheck};
use nts_unify::Constraint;

/// Records that one region outlives another.
pub fn outlives(
    fixture: &mut Fixture,
    a: GenericArg,
    b: GenericArg,
    visible: VisibleForLeakCheck,
) -> Result<bool, EvalError>
    requires { IsTable fixture.old.cx.nodes fixture.old.table }
    ensures { IsTable fixture.new.cx.nodes fixture.new.table }
{
    let (a, b) = (Region { node: a.node }, Region { node: b.node });
    fixture.seen(a)?;
    fixture.seen(b)?;
    let (cx, table) = (&fixture.cx, &mut fixture.table);
    table.sub_regions(cx, b, a, visible, Span(0))?;
    Ok(true)
}

/// Records that a type outlives a region.
pub fn type_outlives(
    fixture: &mut Fixture,
    ty: GenericArg,
    region: GenericArg,
) -> Result<bool, EvalError>
    requires { IsTable fixture.old.cx.nodes fixture.old.table }
    ensures { IsTable fixture.new.cx.nodes fixture.new.table }
{
    let (ty, region) = (Ty { node: ty.node }, Region { node: region.node });
    fixture.seen(ty)?;
    fixture.seen(region)?;
    let (cx, table) = (&fixture.cx, &mut fixture.table);
    table.register_ty_outlives(cx, ty, region, Span(0))?;
    Ok(true)
}

/// Makes two regions equal, of which none is bound.
pub fn equates_regions(
    fixture: &mut Fixture,
    a: GenericArg,
    b: GenericArg,
    visible: VisibleForLeakCheck,
) -> Result<bool, EvalError>
    requires { IsTable fixture.old.cx.nodes fixture.old.table }
    ensures { IsTable fixture.new.cx.nodes fixture.new.table }
{
    let (a, b) = (Region { node: a.node }, Region { node: b.node });
    fixture.seen(a)?;
    fixture.seen(b)?;
    let (cx, table) = (&fixture.cx, &mut fixture.table);
    if !is_unbound(cx, a) || !is_unbound(cx, b) {
        return Ok(false);
    }
    table.equate_regions(cx, a, b, visible, Span(0))?;
    Ok(true)
}

/// Whether the constraints, each once, are that the first region outlives the second one, which the leak check does not see.
pub fn tells(fixture: &mut Fixture, left: GenericArg, right: GenericArg) -> Result<bool, EvalError>
    requires { IsTable fixture.old.cx.nodes fixture.old.table }
    ensures { IsTable fixture.new.cx.nodes fixture.new.table }
{
    let only = Constraint {
        relation: Relation::RegionOutlives,
        left: left.node,
        right: right.node,
        is_visible: false,
    };
    let (cx, table) = (&mut fixture.cx, &fixture.table);
    let told = table.make_deduplicated_region_constraints(cx)?;
    Ok(is_alone(&told, only))
}

/// Whether a constraint is the only one.
fn is_alone(told: &[Constraint], only: Constraint) -> bool {
    told.len() == 1 && told[0] == only
}
