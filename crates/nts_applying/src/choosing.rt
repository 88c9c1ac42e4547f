//! What is chosen for the positions of a response where it is applied.
ghost use Rattle.std.specs.Prelude.{◌≡◌, All, length, map, IfOk, IsOkUnless};
ghost use Rattle.nts_model.specs.Tables.Levels.{AreCurrent};
ghost use Rattle.nts_model.specs.Answers.Applying.{ChoosesAll};
ghost use Rattle.nts_store.specs.Growth.{tree_at};
ghost use Rattle.nts_terms.specs.Handles.{HoldsArg};
ghost use Rattle.nts_unify.specs.Reading.{content_of};
ghost use Rattle.nts_table.specs.Tables.{IsTable};
ghost use Rattle.nts_canonical.specs.Forms.{kind_of_var, trees_of};
ghost use Rattle.nts_canonical.specs.Building.{IsArgOf};
ghost use Rattle.nts_response.specs.Applied.{StepKeeps, content_within, IsOriginal, IsChoosable, IsMadeForPosition, HasSort, PositionsHaveSorts, if_root, original_named};
ghost use Rattle.nts_response.specs.Placing.{ArePlaced, IsPlacedNext, JoinsNew};

use crate::guessing::guesses;
use nts_canonical::{CanonicalVarKind, universe_of, value_in};
use nts_store::Fault;
use nts_table::InferCtxt;
use nts_terms::{Cx, GenericArg, UniverseIndex};

/// What stands for the positions of these kinds where a response is applied, in their order: what is guessed, a new
/// variable, or a placeholder. `universe` is the table's before those of the response were made: each universe of a kind
/// is counted from it, and a placeholder of the root is the original at its position. A new type variable is of one sub root
/// with the one at the earlier position that its kind names.
pub(crate) fn choose_values(
    table: &mut InferCtxt,
    cx: &mut Cx,
    universe: UniverseIndex,
    kinds: &[CanonicalVarKind],
    values: &[GenericArg],
    originals: &[GenericArg],
) -> Result<Vec<GenericArg>, Fault>
    requires table { IsTable cx.old.nodes table.old }
    requires values { All (HoldsArg cx.old.nodes) values.now }
    requires originals { All (IsOriginal cx.old.nodes (content_within cx.old.nodes table.old.entries
        universe)) originals.now }
    requires current { AreCurrent (content_within cx.old.nodes table.old.entries universe) }
    requires long { length originals.now ≡ length values.now }
    requires kinds { All (λ k. IsChoosable universe table.old.entries.universe
        (trees_of cx.old.nodes originals.now) (kind_of_var k)) kinds.now }
    ensures chosen { IfOk result (λ r. ChoosesAll (content_within cx.old.nodes table.old.entries
        universe) (trees_of cx.old.nodes values.now) (trees_of cx.old.nodes originals.now) 0
        (map kind_of_var kinds.now) (trees_of cx.new.nodes r.items)
        (content_of cx.old.nodes table.old.entries) (content_of cx.new.nodes table.new.entries)) }
    ensures args { IfOk result (λ r. All (IsArgOf cx.new.nodes table.new.entries) r.items) }
    ensures placed { IfOk result (λ r. JoinsNew (ArePlaced (map kind_of_var kinds.now)
        (trees_of cx.new.nodes r.items)) (content_of cx.old.nodes table.old.entries)
        (content_of cx.new.nodes table.new.entries)) }
    ensures sorts { IfOk result (λ r. PositionsHaveSorts (map kind_of_var kinds.now)
        (trees_of cx.new.nodes r.items)) }
    ensures keeps { StepKeeps cx.old cx.new table.old table.new }
    ensures memory { IsOkUnless result Fault.Memory }
{
    let guessed = guesses(table, cx, universe, kinds, values, originals)?;
    let mut chosen = Vec::with_capacity(cx.alloc, kinds.len())?;
    for i in 0..kinds.len() {
        let value = match guessed[i] {
            Some(original) => original,
            None => choose_value(table, cx, universe, kinds[i], originals, &chosen)?,
        };
        chosen.push(value)?;
    }
    Ok(chosen)
}

/// What stands for a position of that kind where nothing is guessed, and these are the values of the earlier positions.
fn choose_value(
    table: &mut InferCtxt,
    cx: &mut Cx,
    universe: UniverseIndex,
    kind: CanonicalVarKind,
    originals: &[GenericArg],
    chosen: &[GenericArg],
) -> Result<GenericArg, Fault>
    requires table { IsTable cx.old.nodes table.old }
    requires originals { All (IsArgOf cx.old.nodes table.old.entries) originals.now }
    requires chosen { All (IsArgOf cx.old.nodes table.old.entries) chosen.now }
    requires kind { IsChoosable universe table.old.entries.universe
        (trees_of cx.old.nodes originals.now) (kind_of_var kind) }
    ensures made { IfOk result (λ r. IsMadeForPosition universe
        (trees_of cx.old.nodes originals.now) (kind_of_var kind) (tree_at cx.new.nodes r.node)
        (content_of cx.old.nodes table.old.entries) (content_of cx.new.nodes table.new.entries)) }
    ensures arg { IfOk result (IsArgOf cx.new.nodes table.new.entries) }
    ensures placed { IfOk result (λ r. JoinsNew (IsPlacedNext (kind_of_var kind)
        (trees_of cx.old.nodes chosen.now) (tree_at cx.new.nodes r.node))
        (content_of cx.old.nodes table.old.entries) (content_of cx.new.nodes table.new.entries)) }
    ensures sort { IfOk result (λ r. HasSort (kind_of_var kind) (tree_at cx.new.nodes r.node)) }
    ensures keeps { StepKeeps cx.old cx.new table.old table.new }
    ensures memory { IsOkUnless result Fault.Memory }
{
    if let Some(n) = named_original(kind) {
        return Ok(originals[n]);
    }
    // The sum is at most this, and so it is no overflow.
    let _current = table.universe();
    let universe = universe + universe_of(kind);
    let value = value_in(table, cx, kind, universe, chosen)?;
    Ok(value)
}

/// The position of the original that a placeholder of the root names.
fn named_original(kind: CanonicalVarKind) -> Option<usize>
    ensures { result ≡ original_named (kind_of_var kind) }
{
    match kind {
        CanonicalVarKind::PlaceholderTy(p) => position_in_root(p.universe, p.bound.var),
        CanonicalVarKind::PlaceholderRegion(p) => position_in_root(p.universe, p.bound.var),
        CanonicalVarKind::PlaceholderConst(p) => position_in_root(p.universe, p.bound.var),
        _ => None,
    }
}

/// The position, where the universe is the root.
fn position_in_root(universe: UniverseIndex, position: usize) -> Option<usize>
    ensures { result ≡ if_root universe position }
{
    if universe == 0 {
        return Some(position);
    }
    None
}
