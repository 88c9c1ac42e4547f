//! A table for a canonical input.
ghost use Rattle.std.specs.Prelude.{◌≡◌, ◌≤◌, ℕ, List, [], map, All, IfOk, OnOk, OnErr, IsOkUnless};
ghost use Rattle.std.specs.Prelude.{slice_get};
ghost use Rattle.nts_model.specs.Terms.Substitutions.{leaf_tree, filled};
ghost use Rattle.nts_model.specs.Tables.Resolving.{Knows};
ghost use Rattle.nts_model.specs.Canonical.Inputs.{HaveKinds};
ghost use Rattle.nts_terms.specs.Modes.{mode_of};
ghost use Rattle.nts_canonical.specs.SubRoots.{sub_root_in};
ghost use Rattle.nts_store.specs.Growth.{tree_at, Extends};
ghost use Rattle.nts_terms.specs.Handles.{HoldsArg};
ghost use Rattle.nts_unify.specs.Reading.{content_of, IsHiddenType};
ghost use Rattle.nts_unify.specs.declared.contents.HiddenType.{HiddenType};
ghost use Rattle.nts_table.specs.Tables.{IsTable};
ghost use Rattle.nts_canonical.specs.Forms.{kind_of_var, form_of, query_tree, trees_of, HoldsQuery};
ghost use Rattle.nts_canonical.specs.Kinds.{AreInputKinds, value_leaves, made_variables};
ghost use Rattle.nts_model.specs.Answers.Responses.{universe_of_kind};
ghost use Rattle.nts_canonical.specs.Replaced.{AreLeafArgs};
ghost use Rattle.nts_canonical.specs.Building.{kinds_of, values_of, made_entries, type_variable_of, IsInputOf, IsPositionValue, IsArgOf, stored_hidden, RegistersAll};
ghost use Rattle.nts_terms.specs.Rest.{Grows};
ghost use Rattle.nts_table.specs.Frames.{ChangesEntries};

use crate::queries::instantiate_query;
use crate::types::{CanonicalInput, CanonicalVarKind, QueryInput};
use nts_model::{Constant, FreeRegion, Label, Leaf, VariableKind};
use nts_store::{Fault, Nodes};
use nts_table::InferCtxt;
use nts_terms::{AliasTerm, Cx, GenericArg, Span, Ty, UniverseIndex};
use std::alloc::AllocError;

/// A table for a canonical input, in its mode: a new variable stands for each position that is a
/// variable, and a placeholder for each other one, type variables share sub roots as the kinds say, and the
/// hidden types of the input are registered, where of one alias the last stays. Answered are the table, the
/// query with these values in its positions, and the values in the order of positions.
pub fn build_with_canonical(
    cx: &mut Cx,
    input: &CanonicalInput,
) -> Result<(InferCtxt, QueryInput, Vec<GenericArg>), Fault>
    requires { IsInputOf cx.old.nodes input.now }
    ensures values { IfOk result (λ r. trees_of cx.new.nodes r.2.items ≡ values_of input.now) }
    ensures query { IfOk result (λ r. query_tree cx.new.nodes r.1 ≡ filled (values_of input.now)
        (query_tree cx.old.nodes input.now.canonical.value)) }
    ensures entries { IfOk result (λ r. r.0.entries ≡ made_entries
        (kinds_of input.now) r.0.entries.hidden.lookup) }
    ensures kinds { IfOk result (λ r. HaveKinds (form_of cx.old.nodes input.now) (value_leaves 0
        (kinds_of input.now)) (sub_root_in r.0.entries)) }
    ensures hidden { IfOk result (λ r. (ds : List HiddenType) ×
        RegistersAll cx.new.nodes (content_of cx.new.nodes r.0.entries) []
        r.1.predefined_opaques_in_body.items r.0.entries.hidden.lookup ds) }
    ensures mode { IfOk result (λ r. mode_of r.0.mode ≡ mode_of input.now.typing_mode) }
    ensures saved { IfOk result (λ r. r.0.saved ≡ []) }
    ensures table { IfOk result (λ r. IsTable cx.new.nodes r.0) }
    ensures args { IfOk result (λ r. All (IsArgOf cx.new.nodes r.0.entries) r.2.items) }
    ensures holds { IfOk result (λ r. HoldsQuery cx.new.nodes r.1) }
    ensures knows { IfOk result (λ r. Knows (content_of cx.new.nodes r.0.entries)
        (query_tree cx.new.nodes r.1)) }
    ensures grows { Grows cx.old cx.new }
    ensures memory { IsOkUnless result Fault.Memory }
{
    let mode = input.typing_mode.clone()?;
    let mut table = InferCtxt::new(cx.alloc, mode);
    let values = make_values(&mut table, cx, &input.canonical.var_kinds)?;
    let query = instantiate_query(cx, &input.canonical, values.as_slice())?;
    register_hidden(&mut table, cx, &query.predefined_opaques_in_body)?;
    Ok((table, query, values))
}

/// The value of a position of that kind: a new variable, or the placeholder, in the universe that
/// `universe_map` answers for the kind's. Those of integers and floats are of the root.
/// That universe is one of the table's. `var_values` are the values of the earlier positions: a new type variable is of one sub-unification class
/// with the value at its `sub_root`, where that is a type variable.
pub fn instantiate_canonical_var<F: Fn(UniverseIndex) -> UniverseIndex>(
    table: &mut InferCtxt,
    cx: &mut Cx,
    kind: CanonicalVarKind,
    _span: Span,
    var_values: &[GenericArg],
    universe_map: F,
) -> Result<GenericArg, Fault>
    requires table { IsTable cx.old.nodes table.old }
    requires values { All (IsArgOf cx.old.nodes table.old.entries) var_values.now }
    requires callable { F.IsAlwaysCallable universe_map }
    requires named { (u : ℕ) → F.post universe_map (universe_of_kind (kind_of_var kind)) u →
        u ≤ table.old.entries.universe }
    ensures value { IfOk result (λ r. (u : ℕ) ×
        F.post universe_map (universe_of_kind (kind_of_var kind)) u ×
        IsPositionValue (kind_of_var kind) u (trees_of cx.old.nodes var_values.now)
        table.old.entries table.new.entries (tree_at cx.new.nodes r.node)) }
    ensures holds { IfOk result (HoldsArg cx.new.nodes) }
    ensures changes { ChangesEntries table.old table.new }
    ensures table { IsTable cx.new.nodes table.new }
    ensures grows { Grows cx.old cx.new }
    ensures err { OnErr result (table.new ≡ table.old) }
    ensures memory { IsOkUnless result Fault.Memory }
{
    let universe = universe_map(universe_of(kind));
    value_in(table, cx, kind, universe, var_values)
}

/// The universe of a kind.
pub fn universe_of(kind: CanonicalVarKind) -> UniverseIndex
    ensures { result ≡ universe_of_kind (kind_of_var kind) }
{
    match kind {
        CanonicalVarKind::Ty { ui, .. } => ui,
        CanonicalVarKind::Int => 0,
        CanonicalVarKind::Float => 0,
        CanonicalVarKind::Const(ui) => ui,
        CanonicalVarKind::Region(ui) => ui,
        CanonicalVarKind::PlaceholderTy(p) => p.universe,
        CanonicalVarKind::PlaceholderRegion(p) => p.universe,
        CanonicalVarKind::PlaceholderConst(p) => p.universe,
    }
}

/// The value of a position of that kind in that universe, which is one of the table's: a new variable, or the placeholder.
/// Those of integers and floats are of the root. `var_values` are the values of the earlier positions.
pub fn value_in(
    table: &mut InferCtxt,
    cx: &mut Cx,
    kind: CanonicalVarKind,
    universe: UniverseIndex,
    var_values: &[GenericArg],
) -> Result<GenericArg, Fault>
    requires table { IsTable cx.old.nodes table.old }
    requires values { All (IsArgOf cx.old.nodes table.old.entries) var_values.now }
    requires named { universe ≤ table.old.entries.universe }
    ensures value { IfOk result (λ r. IsPositionValue (kind_of_var kind) universe
        (trees_of cx.old.nodes var_values.now) table.old.entries table.new.entries
        (tree_at cx.new.nodes r.node)) }
    ensures holds { IfOk result (HoldsArg cx.new.nodes) }
    ensures changes { ChangesEntries table.old table.new }
    ensures table { IsTable cx.new.nodes table.new }
    ensures grows { Grows cx.old cx.new }
    ensures err { OnErr result (table.new ≡ table.old) }
    ensures memory { IsOkUnless result Fault.Memory }
{
    match kind {
        CanonicalVarKind::Ty { sub_root, .. } => {
            let other = type_variable_at(&cx.nodes, var_values, sub_root);
            table.variable_in_universe(cx, VariableKind::Ty, universe, other)
        }
        CanonicalVarKind::Int => table.variable_in_universe(cx, VariableKind::Int, 0, None),
        CanonicalVarKind::Float => table.variable_in_universe(cx, VariableKind::Float, 0, None),
        CanonicalVarKind::Const(_) => {
            table.variable_in_universe(cx, VariableKind::Const, universe, None)
        }
        CanonicalVarKind::Region(_) => {
            table.variable_in_universe(cx, VariableKind::Region, universe, None)
        }
        CanonicalVarKind::PlaceholderTy(p) => {
            let name = Constant::Placeholder(universe, p.bound.var);
            Ok(leaf_arg(&mut cx.nodes, Leaf::TyConstant(name))?)
        }
        CanonicalVarKind::PlaceholderRegion(p) => {
            let name = FreeRegion::Placeholder(universe, p.bound.var);
            Ok(leaf_arg(&mut cx.nodes, Leaf::Region(name))?)
        }
        CanonicalVarKind::PlaceholderConst(p) => {
            let name = Constant::Placeholder(universe, p.bound.var);
            Ok(leaf_arg(&mut cx.nodes, Leaf::ConstConstant(name))?)
        }
    }
}

/// The type variable that is the value at a position, if it is one.
fn type_variable_at(nodes: &Nodes, values: &[GenericArg], position: usize) -> Option<usize>
    requires { All (HoldsArg nodes.now) values.now }
    ensures { result ≡ type_variable_of (slice_get (trees_of nodes.now values.now) position) }
{
    let value = values.get(position)?;
    match nodes.label(value.node) {
        Label::Leaf(Leaf::Variable(VariableKind::Ty, n)) => Some(n),
        _ => None,
    }
}

/// A leaf as an argument.
pub(crate) fn leaf_arg(nodes: &mut Nodes, leaf: Leaf) -> Result<GenericArg, AllocError>
    ensures tree { IfOk result (λ r. tree_at nodes.new r.node ≡ leaf_tree leaf) }
    ensures holds { IfOk result (HoldsArg nodes.new) }
    ensures extends { Extends nodes.old nodes.new }
{
    let node = nodes.make(Label::Leaf(leaf), &[])?;
    Ok(GenericArg { node })
}

/// The values of kinds, in their order.
fn make_values(
    table: &mut InferCtxt,
    cx: &mut Cx,
    kinds: &[CanonicalVarKind],
) -> Result<Vec<GenericArg>, Fault>
    requires table { IsTable cx.old.nodes table.old }
    requires empty { table.old.entries.variables ≡ [] }
    requires kinds { AreInputKinds (map kind_of_var kinds.now) }
    ensures values { IfOk result (λ v. AreLeafArgs cx.new.nodes v.items (value_leaves 0
        (map kind_of_var kinds.now))) }
    ensures entries { OnOk result (table.new.entries ≡ record table.old.entries {
      variables =
          made_variables [] (map kind_of_var kinds.now);
    }) }
    ensures changes { ChangesEntries table.old table.new }
    ensures table { IsTable cx.new.nodes table.new }
    ensures grows { Grows cx.old cx.new }
    ensures memory { IsOkUnless result Fault.Memory }
{
    let mut values = Vec::with_capacity(cx.alloc, kinds.len())?;
    for i in 0..kinds.len() {
        let kind = kinds[i];
        let value = value_in(table, cx, kind, universe_of(kind), values.as_slice())?;
        values.push(value)?;
    }
    Ok(values)
}

/// Registers hidden types in their order.
fn register_hidden(
    table: &mut InferCtxt,
    cx: &mut Cx,
    hidden: &[(AliasTerm, Ty)],
) -> Result<(), Fault>
    requires table { IsTable cx.old.nodes table.old }
    requires hidden { All (λ h. IsHiddenType cx.old.nodes
        (content_of cx.old.nodes table.old.entries) (stored_hidden h)) hidden.now }
    ensures registered { OnOk result ((ds : List HiddenType) ×
        RegistersAll cx.new.nodes (content_of cx.new.nodes table.old.entries)
        table.old.entries.hidden.lookup hidden.now table.new.entries.hidden.lookup ds) }
    ensures entries { OnOk result (table.new.entries ≡ record table.old.entries {
      hidden = record
          table.old.entries.hidden { lookup = table.new.entries.hidden.lookup };
    }) }
    ensures changes { ChangesEntries table.old table.new }
    ensures table { IsTable cx.new.nodes table.new }
    ensures grows { Grows cx.old cx.new }
    ensures memory { IsOkUnless result Fault.Memory }
{
    for i in 0..hidden.len() {
        let (alias, ty) = hidden[i];
        table.register_hidden_type_in_storage(cx, alias, ty, Span(0))?;
    }
    Ok(())
}
