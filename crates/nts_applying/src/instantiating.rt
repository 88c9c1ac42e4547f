//! Canonical states put into a table.
ghost use Rattle.std.specs.Prelude.{◌≡◌, ◌≢◌, ◌↔◌, ◌+◌, ◌≤◌, ◌<◌, Err, map, drop, All, length, IfOk, OnOk, OnErr, IsOkUnless};
ghost use Rattle.nts_model.specs.Answers.Responses.{RefusesResponse};
ghost use Rattle.nts_model.specs.Terms.Trees.{IsClosed};
ghost use Rattle.nts_model.specs.Derivations.Handlers.{NamesFresh};
ghost use Rattle.nts_store.specs.Growth.{tree_at};
ghost use Rattle.nts_store.specs.declared.fault.EvalError.TheVariants.{NoSolution};
ghost use Rattle.nts_terms.specs.Handles.{HoldsArg};
ghost use Rattle.nts_unify.specs.Reading.{content_of};
ghost use Rattle.nts_table.specs.Tables.{IsTable};
ghost use Rattle.nts_canonical.specs.Forms.{kind_of_var, trees_of};
ghost use Rattle.nts_canonical.specs.Building.{IsArgOf};
ghost use Rattle.nts_response.specs.Applied.{StepKeeps, KeepsFrame, PositionsHaveSorts};
ghost use Rattle.nts_response.specs.States.{state_at};
ghost use Rattle.nts_response.specs.Instantiated.{values_alone, AreValuesFor, AreValuesEquated, state_sorts, IsInstantiable, IsInstantiated, RefusesState, AddsMissing};

use crate::choosing::choose_values;
use crate::equating::equate_values;
use nts_canonical::nts_folding::TypeFoldable;
use nts_canonical::{Canonical, CanonicalVarKind, instantiate_canonical, nodes_of};
use nts_response::{CanonicalState, State};
use nts_store::{EvalError, Fault};
use nts_table::InferCtxt;
use nts_terms::{Cx, GenericArg, ParamEnv, Span, UniverseIndex};

/// Puts the values of a canonical state into a table, and answers its payload as it is there. First a new variable is made for
/// each value that has no original, of its sort. Then universes are created for those of the state, for each of its positions
/// an original, a new variable or a placeholder is chosen, and with what was chosen in place of the positions each
/// original is made equal to its value, and the payload is answered. The new originals stand behind the others then.
///
/// `NoSolution` comes where no solution of the table makes the originals equal to the values, and `Full` where the table
/// has not so many universes left. After any error the table and the originals are as before.
pub fn instantiate_canonical_state<T: TypeFoldable>(
    table: &mut InferCtxt,
    cx: &mut Cx,
    span: Span,
    _param_env: ParamEnv,
    orig_values: &mut Vec<GenericArg>,
    state: CanonicalState<T>,
) -> Result<T, EvalError>
    requires table { IsTable cx.old.nodes table.old }
    requires originals { All (IsArgOf cx.old.nodes table.old.entries) orig_values.old.items }
    requires closed { All (λ o. IsClosed (tree_at cx.old.nodes o.node)) orig_values.old.items }
    requires payload { T.holds cx.old.nodes state.value.payload }
    requires positions { NamesFresh (state_sorts state) (T.tree cx.old.nodes state.value.payload) }
    requires fits { IsInstantiable cx.old.nodes (trees_of cx.old.nodes orig_values.old.items)
        state }
    ensures instantiated { IfOk result (λ p. IsInstantiated cx.old.nodes cx.new.nodes
        table.old.entries table.new.entries orig_values.old.items orig_values.new.items
        (state_at T.tree cx.old.nodes state) (T.tree cx.new.nodes p)) }
    ensures payload { IfOk result (T.holds cx.new.nodes) }
    ensures originals { OnOk result (All (IsArgOf cx.new.nodes table.new.entries)
        orig_values.new.items) }
    ensures no { result ≡ Err NoSolution → RefusesState (content_of cx.old.nodes table.old.entries)
        (trees_of cx.old.nodes orig_values.old.items) (state_at T.tree cx.old.nodes state) }
    ensures full { (result ≡ Err
        EvalError.Full) ↔ (u32.MAX < table.old.entries.universe + state.max_universe) }
    ensures universe { OnOk result
        (table.new.entries.universe ≡ table.old.entries.universe + state.max_universe) }
    ensures err { OnErr result ((table.new ≡ table.old) ×
        (orig_values.new.items ≡ orig_values.old.items)) }
    ensures keeps { KeepsFrame cx.old cx.new table.old table.new }
{
    if table.universe().checked_add(state.max_universe).is_none() {
        return Err(EvalError::Full);
    }
    let snapshot = table.start_snapshot()?;
    let instantiated = instantiate(table, cx, orig_values, state, span);
    let (originals, payload) = table.commit_if_ok(snapshot, instantiated)?;
    *orig_values = originals;
    Ok(payload)
}

/// Instantiates a state: answered are the originals with those that were missing, and the payload. After an error some of what
/// was done to the table may stay.
fn instantiate<T: TypeFoldable>(
    table: &mut InferCtxt,
    cx: &mut Cx,
    orig_values: &[GenericArg],
    state: CanonicalState<T>,
    span: Span,
) -> Result<(Vec<GenericArg>, T), EvalError>
    requires table { IsTable cx.old.nodes table.old }
    requires originals { All (IsArgOf cx.old.nodes table.old.entries) orig_values.now }
    requires closed { All (λ o. IsClosed (tree_at cx.old.nodes o.node)) orig_values.now }
    requires payload { T.holds cx.old.nodes state.value.payload }
    requires positions { NamesFresh (state_sorts state) (T.tree cx.old.nodes state.value.payload) }
    requires fits { IsInstantiable cx.old.nodes (trees_of cx.old.nodes orig_values.now) state }
    requires room { table.old.entries.universe + state.max_universe ≤ u32.MAX }
    ensures instantiated { IfOk result (λ r. IsInstantiated cx.old.nodes cx.new.nodes
        table.old.entries table.new.entries orig_values.now r.0.items
        (state_at T.tree cx.old.nodes state) (T.tree cx.new.nodes r.1)) }
    ensures payload { IfOk result (λ r. T.holds cx.new.nodes r.1) }
    ensures originals { IfOk result (λ r. All (IsArgOf cx.new.nodes table.new.entries) r.0.items) }
    ensures no { result ≡ Err NoSolution → RefusesState (content_of cx.old.nodes table.old.entries)
        (trees_of cx.old.nodes orig_values.now) (state_at T.tree cx.old.nodes state) }
    ensures full { result ≢ Err EvalError.Full }
    ensures universe { OnOk result
        (table.new.entries.universe ≡ table.old.entries.universe + state.max_universe) }
    ensures keeps { KeepsFrame cx.old cx.new table.old table.new }
{
    let Canonical {
        value,
        max_universe,
        var_kinds,
    } = state;
    let State {
        var_values,
        payload,
    } = value;
    let originals = with_missing(table, cx, orig_values, &var_values, span)?;
    let chosen = equated(table, cx, &originals, max_universe, &var_kinds, &var_values)?;
    let payload = Canonical {
        value: payload,
        max_universe,
        var_kinds,
    };
    let payload = instantiate_canonical(cx, payload, &chosen)?;
    Ok((originals, payload))
}

/// Applies values to as many originals: universes are created, for each position of these kinds an original, a new variable or
/// a placeholder is chosen, and with what was chosen in place of the positions each original is made equal to its value.
/// Answered is what was chosen. After an error some of that may stay.
fn equated(
    table: &mut InferCtxt,
    cx: &mut Cx,
    originals: &[GenericArg],
    max_universe: UniverseIndex,
    kinds: &[CanonicalVarKind],
    values: &[GenericArg],
) -> Result<Vec<GenericArg>, EvalError>
    requires table { IsTable cx.old.nodes table.old }
    requires originals { All (IsArgOf cx.old.nodes table.old.entries) originals.now }
    requires closed { All (λ o. IsClosed (tree_at cx.old.nodes o.node)) originals.now }
    requires fits { AreValuesFor cx.old.nodes (trees_of cx.old.nodes originals.now) max_universe
        kinds.now values.now }
    requires room { table.old.entries.universe + max_universe ≤ u32.MAX }
    ensures equated { IfOk result (λ r. AreValuesEquated (content_of cx.old.nodes table.old.entries)
        (content_of cx.new.nodes table.new.entries) (trees_of cx.old.nodes originals.now)
        (values_alone (trees_of cx.old.nodes values.now) (map kind_of_var kinds.now) max_universe)
        (trees_of cx.new.nodes r.items)) }
    ensures args { IfOk result (λ r. All (IsArgOf cx.new.nodes table.new.entries) r.items) }
    ensures sorts { IfOk result (λ r. PositionsHaveSorts (map kind_of_var kinds.now)
        (trees_of cx.new.nodes r.items)) }
    ensures originals { OnOk result (All (IsArgOf cx.new.nodes table.new.entries) originals.now) }
    ensures no { result ≡ Err NoSolution →
        RefusesResponse (content_of cx.old.nodes table.old.entries)
        (trees_of cx.old.nodes originals.now) (values_alone (trees_of cx.old.nodes values.now)
        (map kind_of_var kinds.now) max_universe) }
    ensures full { result ≢ Err EvalError.Full }
    ensures universe { OnOk result
        (table.new.entries.universe ≡ table.old.entries.universe + max_universe) }
    ensures hidden { OnOk result (table.new.entries.hidden ≡ table.old.entries.hidden) }
    ensures keeps { KeepsFrame cx.old cx.new table.old table.new }
{
    cx.terms_are_formed();
    let universe = table.universe();
    table.create_universes(max_universe)?;
    let chosen = choose_values(table, cx, universe, kinds, values, originals)?;
    let nodes = nodes_of(cx.alloc, &chosen)?;
    equate_values(table, cx, &nodes, values, originals)?;
    cx.terms_are_formed();
    Ok(chosen)
}

/// The originals, and behind them a new variable for each value that has none of them, of its sort.
fn with_missing(
    table: &mut InferCtxt,
    cx: &mut Cx,
    orig_values: &[GenericArg],
    values: &[GenericArg],
    span: Span,
) -> Result<Vec<GenericArg>, Fault>
    requires table { IsTable cx.old.nodes table.old }
    requires originals { All (IsArgOf cx.old.nodes table.old.entries) orig_values.now }
    requires closed { All (λ o. IsClosed (tree_at cx.old.nodes o.node)) orig_values.now }
    requires values { All (HoldsArg cx.old.nodes) values.now }
    requires long { length orig_values.now ≤ length values.now }
    ensures added { IfOk result (λ r. AddsMissing cx.old cx.new table.old table.new orig_values.now
        (drop (length orig_values.now) values.now) r.items) }
    ensures keeps { StepKeeps cx.old cx.new table.old table.new }
    ensures memory { IsOkUnless result Fault.Memory }
{
    let missing = &values[orig_values.len()..];
    let mut originals = orig_values.to_vec(cx.alloc)?;
    for i in 0..missing.len() {
        let value = table.fresh_var_for_kind_with_span(cx, missing[i], span)?;
        originals.push(value)?;
    }
    Ok(originals)
}
