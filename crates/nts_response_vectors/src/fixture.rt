//! Responses and states that are written down by hand, and put into a table.
ghost use Rattle.std.specs.Prelude.{◌≡◌, All, OnErr};
ghost use Rattle.nts_model.specs.Terms.Trees.{IsClosed};
ghost use Rattle.nts_store.specs.Growth.{tree_at};
ghost use Rattle.nts_table.specs.Tables.{IsTable};
ghost use Rattle.nts_canonical.specs.Building.{IsArgOf};

use nts_answering::make_canonical_state;
use nts_applying::{instantiate_and_apply_query_response, instantiate_canonical_state};
use nts_canonical::{Canonical, CanonicalVarKind};
use nts_certainty::{Certainty, GoalSource};
use nts_fixtures::Fixture;
use nts_model::BoundVarIndexKind;
use nts_response::{
    CanonicalResponse, CanonicalState, ExternalConstraintsData, Response, State, response_fits,
    state_fits,
};
use nts_store::EvalError;
use nts_terms::{
    BoundRegion, GenericArg, Goal, RegionKind, Span, UniverseIndex, VisibleForLeakCheck,
};
use std::alloc::Global;
use std::process::Abort;

/// A position of a region.
pub fn region_at(fixture: &mut Fixture, var: usize) -> Result<GenericArg, EvalError>
    requires { IsTable fixture.old.cx.nodes fixture.old.table }
    ensures { IsTable fixture.new.cx.nodes fixture.new.table }
{
    let index = BoundVarIndexKind::Canonical;
    fixture.region(RegionKind::ReBound(index, BoundRegion { var }))
}

/// A certain response of these kinds, with these values alone.
pub fn certain(
    alloc: Global,
    max_universe: UniverseIndex,
    kinds: &[CanonicalVarKind],
    values: &[GenericArg],
) -> Result<CanonicalResponse, EvalError> {
    let external_constraints = ExternalConstraintsData {
        region_constraints: Vec::new(alloc),
        opaque_types: Vec::new(alloc),
        normalization_nested_goals: Vec::new(alloc),
    };
    let value = Response {
        certainty: Certainty::Yes,
        var_values: values.to_vec(alloc)?,
        external_constraints,
    };
    Ok(Canonical {
        value,
        max_universe,
        var_kinds: kinds.to_vec(alloc)?,
    })
}

/// Sees that a response that fits these originals is applied, and leaves no goals.
pub fn applies(
    rt: &impl Abort,
    fixture: &mut Fixture,
    originals: &[GenericArg],
    response: &CanonicalResponse,
) -> Result<(), EvalError>
    requires { IsTable fixture.old.cx.nodes fixture.old.table }
    ensures { IsTable fixture.new.cx.nodes fixture.new.table }
{
    let goals = apply(rt, fixture, originals, response)?;
    assert!(rt; goals.is_empty());
    Ok(())
}

/// Applies a response that fits these originals.
pub fn apply(
    rt: &impl Abort,
    fixture: &mut Fixture,
    originals: &[GenericArg],
    response: &CanonicalResponse,
) -> Result<Vec<(GoalSource, Goal)>, EvalError>
    requires { IsTable fixture.old.cx.nodes fixture.old.table }
    ensures table { IsTable fixture.new.cx.nodes fixture.new.table }
    ensures err { OnErr result (fixture.new.table ≡ fixture.old.table) }
{
    are_originals(rt, fixture, originals);
    assert!(rt; response_fits(&fixture.cx, originals, response)?);
    let (goals, certainty) = instantiate_and_apply_query_response(
        &mut fixture.table,
        &mut fixture.cx,
        fixture.env,
        originals,
        response,
        VisibleForLeakCheck::Yes,
        Span(0),
    )?;
    assert!(rt; matches!(certainty, Certainty::Yes));
    Ok(goals)
}

/// Puts a state of the root into the table, which fits these originals: of these kinds, with these values, and the value
/// at that place as its payload.
pub fn instantiate(
    rt: &impl Abort,
    fixture: &mut Fixture,
    originals: &mut Vec<GenericArg>,
    kinds: &[CanonicalVarKind],
    values: &[GenericArg],
    place: usize,
) -> Result<GenericArg, EvalError>
    requires { IsTable fixture.old.cx.nodes fixture.old.table }
    ensures table { IsTable fixture.new.cx.nodes fixture.new.table }
    ensures err { OnErr result (fixture.new.table ≡ fixture.old.table) }
{
    let alloc = fixture.cx.alloc;
    assert!(rt; place < values.len());
    let value = State {
        var_values: values.to_vec(alloc)?,
        payload: values[place],
    };
    let state = Canonical {
        value,
        max_universe: 0,
        var_kinds: kinds.to_vec(alloc)?,
    };
    are_originals(rt, fixture, originals);
    assert!(rt; state_fits(&fixture.cx, originals, &state)?);
    instantiate_canonical_state(
        &mut fixture.table,
        &mut fixture.cx,
        Span(0),
        fixture.env,
        originals,
        state,
    )
}

/// The state of one value and a payload, as it is in the table.
pub fn state(
    fixture: &mut Fixture,
    value: GenericArg,
    payload: GenericArg,
) -> Result<CanonicalState<GenericArg>, EvalError>
    requires { IsTable fixture.old.cx.nodes fixture.old.table }
    ensures { IsTable fixture.new.cx.nodes fixture.new.table }
{
    fixture.seen(value)?;
    fixture.seen(payload)?;
    let (cx, table) = (&mut fixture.cx, &fixture.table);
    Ok(make_canonical_state(table, cx, &[value], 0, payload)?)
}

/// Sees that each is a closed argument of the table.
fn are_originals(rt: &impl Abort, fixture: &Fixture, originals: &[GenericArg])
    ensures args { All (IsArgOf fixture.now.cx.nodes fixture.now.table.entries) originals.now }
    ensures closed { All (λ o. IsClosed (tree_at fixture.now.cx.nodes o.node)) originals.now }
{
    let (cx, table) = (&fixture.cx, &fixture.table);
    for i in 0..originals.len() {
        assert!(rt; cx.holds(originals[i]));
        assert!(rt; table.knows(cx, originals[i]).expect(rt, "memory"));
        assert!(rt; !cx.has_escaping_bound_vars(originals[i]));
    }
}
