//! A response applied to a table.
ghost use Rattle.std.specs.Prelude.{◌≡◌, ◌≢◌, ◌↔◌, ◌+◌, ◌≤◌, ◌<◌, Err, map, All, length, IfOk, OnOk, OnErr};
ghost use Rattle.nts_model.specs.Answers.Responses.{RefusesResponse};
ghost use Rattle.nts_model.specs.Tables.Passing.{BringsOnly};
ghost use Rattle.nts_model.specs.Terms.Trees.{IsClosed};
ghost use Rattle.nts_theory.proofs.Responses.Applied.{FailsToEqual};
ghost use Rattle.nts_store.specs.Growth.{tree_at, AllIn};
ghost use Rattle.nts_store.specs.declared.fault.EvalError.TheVariants.{NoSolution};
ghost use Rattle.nts_terms.specs.Rest.{Grows};
ghost use Rattle.nts_unify.specs.Reading.{content_of};
ghost use Rattle.nts_unify.specs.Recording.{is_visible};
ghost use Rattle.nts_table.specs.Frames.{ChangesEntries};
ghost use Rattle.nts_table.specs.Tables.{IsTable};
ghost use Rattle.nts_canonical.specs.Forms.{trees_of};
ghost use Rattle.nts_canonical.specs.Building.{IsArgOf};
ghost use Rattle.nts_response.specs.Forms.{findings_at, response_at};
ghost use Rattle.nts_response.specs.Applicable.{IsApplicable, IsResponseApplied, IsResponseReady, IsPut};

use crate::choosing::choose_values;
use crate::equating::equate_values;
use crate::opening::opened_goals;
use crate::recording::record_constraints;
use crate::registering::register_hidden;
use nts_candidates::nts_certainty::{Certainty, GoalSource};
use nts_canonical::{fill_hidden, nodes_of};
use nts_response::{CanonicalResponse, Response};
use nts_store::{EvalError, NodeId};
use nts_table::InferCtxt;
use nts_terms::{Cx, GenericArg, Goal, ParamEnv, Span, VisibleForLeakCheck};

/// Puts what a response found out into a table, with these values in place of its positions: the originals are made equal
/// to its values, its constraints are recorded, its hidden types are registered, and its open goals are answered.
fn put(
    table: &mut InferCtxt,
    cx: &mut Cx,
    originals: &[GenericArg],
    chosen: &[NodeId],
    response: &Response,
    visible: VisibleForLeakCheck,
    span: Span,
) -> Result<Vec<(GoalSource, Goal)>, EvalError>
    requires table { IsTable cx.old.nodes table.old }
    requires originals { All (IsArgOf cx.old.nodes table.old.entries) originals.now }
    requires chosen { AllIn cx.old.nodes chosen.now }
    requires ready { IsResponseReady cx.old.nodes (content_of cx.old.nodes table.old.entries)
        (map (tree_at cx.old.nodes) chosen.now) response.now }
    requires long { length originals.now ≡ length response.now.var_values.items }
    ensures put { IfOk result (λ g. IsPut cx.old.nodes cx.new.nodes table.old.entries
        table.new.entries (trees_of cx.old.nodes originals.now)
        (map (tree_at cx.old.nodes) chosen.now) (findings_at cx.old.nodes response.now)
        (is_visible visible) g.items) }
    ensures no { result ≡ Err NoSolution → FailsToEqual (map (tree_at cx.old.nodes) chosen.now)
        (trees_of cx.old.nodes response.now.var_values.items) (trees_of cx.old.nodes originals.now)
        (content_of cx.old.nodes table.old.entries) }
    ensures universe { OnOk result (table.new.entries.universe ≡ table.old.entries.universe) }
    ensures changes { ChangesEntries table.old table.new }
    ensures table { IsTable cx.new.nodes table.new }
    ensures grows { Grows cx.old cx.new }
    ensures full { result ≢ Err EvalError.Full }
{
    equate_values(table, cx, chosen, &response.var_values, originals)?;
    let found = &response.external_constraints;
    record_constraints(table, cx, chosen, &found.region_constraints, visible, span)?;
    let alloc = cx.alloc;
    let hidden = fill_hidden(alloc, &mut cx.nodes, chosen, &found.opaque_types)?;
    let goals = opened_goals(
        alloc,
        &mut cx.nodes,
        chosen,
        &found.normalization_nested_goals,
    )?;
    register_hidden(table, cx, &hidden, span)?;
    Ok(goals)
}

/// Applies a response: its universes are created, values are chosen for its positions, and what it found out is put into the
/// table. After an error some of that may stay.
fn apply(
    table: &mut InferCtxt,
    cx: &mut Cx,
    originals: &[GenericArg],
    response: &CanonicalResponse,
    visible: VisibleForLeakCheck,
    span: Span,
) -> Result<(Vec<(GoalSource, Goal)>, Certainty), EvalError>
    requires table { IsTable cx.old.nodes table.old }
    requires originals { All (IsArgOf cx.old.nodes table.old.entries) originals.now }
    requires closed { All (λ o. IsClosed (tree_at cx.old.nodes o.node)) originals.now }
    requires fits { IsApplicable cx.old.nodes (trees_of cx.old.nodes originals.now) response.now }
    requires room { table.old.entries.universe + response.now.max_universe ≤ u32.MAX }
    ensures applied { IfOk result (λ p. IsResponseApplied cx.old.nodes cx.new.nodes
        table.old.entries table.new.entries (trees_of cx.old.nodes originals.now)
        (response_at cx.old.nodes response.now) (is_visible visible) p.0.items) }
    ensures labels { OnOk result (BringsOnly (trees_of cx.old.nodes originals.now)
        (content_of cx.old.nodes table.old.entries) (content_of cx.new.nodes table.new.entries)) }
    ensures certainty { IfOk result (λ p. p.1 ≡ response.now.value.certainty) }
    ensures no { result ≡ Err NoSolution →
        RefusesResponse (content_of cx.old.nodes table.old.entries)
        (trees_of cx.old.nodes originals.now) (response_at cx.old.nodes response.now) }
    ensures universe { OnOk result
        (table.new.entries.universe ≡ table.old.entries.universe + response.now.max_universe) }
    ensures changes { ChangesEntries table.old table.new }
    ensures table { IsTable cx.new.nodes table.new }
    ensures grows { Grows cx.old cx.new }
    ensures full { result ≢ Err EvalError.Full }
{
    cx.terms_are_formed();
    let universe = table.universe();
    table.create_universes(response.max_universe)?;
    let value = &response.value;
    let chosen = choose_values(
        table,
        cx,
        universe,
        &response.var_kinds,
        &value.var_values,
        originals,
    )?;
    let chosen = nodes_of(cx.alloc, &chosen)?;
    let goals = put(table, cx, originals, &chosen, value, visible, span)?;
    cx.terms_are_formed();
    Ok((goals, value.certainty))
}

/// Applies a response to the originals of its query, which it has a value each for. Universes are created for those of the
/// response, and for each of its positions an original, a new variable or a placeholder is chosen. Then, with what was
/// chosen in place of the positions, each original is made equal to its value, the region constraints are recorded,
/// and the hidden types are registered, where one that gives place becomes a duplicate. Answered are the goals that
/// the response leaves open, of the store and of the table, and its certainty. The originals are closed terms, as those of
/// a query are, which are leaves.
///
/// The leaves that come to the table are those of the originals, variables, regions that stay themselves, and placeholders
/// of universes above the root. The leak check sees a constraint between regions if it saw it in the query and `visible`
/// says so, and each one that a type outlives a region. `NoSolution` comes where no solution of the table makes the
/// originals equal to the values, and `Full` where the table has not so many universes left. After any error the table is
/// as before.
pub fn instantiate_and_apply_query_response(
    table: &mut InferCtxt,
    cx: &mut Cx,
    _param_env: ParamEnv,
    originals: &[GenericArg],
    response: &CanonicalResponse,
    visible: VisibleForLeakCheck,
    span: Span,
) -> Result<(Vec<(GoalSource, Goal)>, Certainty), EvalError>
    requires table { IsTable cx.old.nodes table.old }
    requires originals { All (IsArgOf cx.old.nodes table.old.entries) originals.now }
    requires closed { All (λ o. IsClosed (tree_at cx.old.nodes o.node)) originals.now }
    requires fits { IsApplicable cx.old.nodes (trees_of cx.old.nodes originals.now) response.now }
    ensures applied { IfOk result (λ p. IsResponseApplied cx.old.nodes cx.new.nodes
        table.old.entries table.new.entries (trees_of cx.old.nodes originals.now)
        (response_at cx.old.nodes response.now) (is_visible visible) p.0.items) }
    ensures labels { OnOk result (BringsOnly (trees_of cx.old.nodes originals.now)
        (content_of cx.old.nodes table.old.entries) (content_of cx.new.nodes table.new.entries)) }
    ensures certainty { IfOk result (λ p. p.1 ≡ response.now.value.certainty) }
    ensures no { result ≡ Err NoSolution →
        RefusesResponse (content_of cx.old.nodes table.old.entries)
        (trees_of cx.old.nodes originals.now) (response_at cx.old.nodes response.now) }
    ensures full { (result ≡ Err
        EvalError.Full) ↔ (u32.MAX < table.old.entries.universe + response.now.max_universe) }
    ensures universe { OnOk result
        (table.new.entries.universe ≡ table.old.entries.universe + response.now.max_universe) }
    ensures err { OnErr result (table.new ≡ table.old) }
    ensures changes { ChangesEntries table.old table.new }
    ensures table { IsTable cx.new.nodes table.new }
    ensures grows { Grows cx.old cx.new }
{
    if table
        .universe()
        .checked_add(response.max_universe)
        .is_none()
    {
        return Err(EvalError::Full);
    }
    let snapshot = table.start_snapshot()?;
    let applied = apply(table, cx, originals, response, visible, span);
    table.commit_if_ok(snapshot, applied)
}
