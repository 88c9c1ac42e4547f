//! The leaves of the value that a variable gets for a term.
ghost use Rattle.std.specs.Prelude.{◌≡◌, ◌≢◌, ◌<◌, ◌≤◌, length, OnOk, IfOk, Some, None, Err, true, false};
ghost use Rattle.nts_model.specs.declared.labels.VariableKind.TheVariants as kind;
ghost use Rattle.nts_model.specs.Tables.Contents.{kind_at};
ghost use Rattle.nts_model.specs.Tables.Resolving.{Knows};
ghost use Rattle.nts_model.specs.Terms.Trees.{IsBoundBelow};
ghost use Rattle.nts_model.specs.Terms.Placeholders.{CanName};
ghost use Rattle.nts_model.specs.Tables.Levels.{term_level, region_level};
ghost use Rattle.nts_store.specs.Growth.{tree_at, IsIn, Extends};
ghost use Rattle.nts_unify.specs.Reading.{content_of, IsLawful};
ghost use Rattle.nts_relating.specs.Relating.{Generalized, IsOpen, IsRegionOf, IsSettledByFlags};
ghost use Rattle.nts_unify.specs.Entries.{KeepsHidden};

use indexmap::IndexSet;
use nts_model::{BoundVarIndexKind, Constant, FreeRegion, Label, Leaf, Relation, VariableKind};
use nts_store::{EvalError, NodeId, Nodes, TypeFlags};
use nts_unify::nts_terms::UniverseIndex;
use nts_unify::{Constraint, InferCtxtInner, add_variable, join, join_regions, region_number};

/// What a value is made for: a variable, the universe that bounds its leaves, and how many binders
/// stand around the part that is walked. A value that is closed is made under none.
#[derive(Clone, Copy)]
pub struct Target {
    pub variable: usize,
    pub universe: UniverseIndex,
    pub binders: usize,
}

/// Whether a term is its own value: it has no variable and no placeholder, and no bound variable
/// passes the binders.
pub fn is_settled(flags: TypeFlags, binders: usize) -> bool
    ensures { result ≡ true → IsSettledByFlags flags binders }
{
    if flags.has_infer || flags.has_region_infer || flags.has_placeholder {
        return false;
    }
    match flags.escaping {
        None => true,
        Some(level) => level < binders,
    }
}

/// Whether a label may stand in the value: a placeholder is of a universe that the target's can name,
/// and a bound variable does not pass the binders.
pub fn is_allowed(target: Target, label: Label) -> bool
    ensures named { result ≡ true → CanName target.universe (term_level label) }
    ensures bound { result ≡ true → IsBoundBelow target.binders label }
    ensures no { result ≡ false → CanName target.universe (term_level label) →
        IsBoundBelow target.binders label → ⊥ }
{
    match label {
        Label::Leaf(Leaf::TyConstant(Constant::Placeholder(u, _))) => u <= target.universe,
        Label::Leaf(Leaf::ConstConstant(Constant::Placeholder(u, _))) => u <= target.universe,
        Label::Bound(_, BoundVarIndexKind::Bound(level), _) => level < target.binders,
        _ => true,
    }
}

/// A term for a variable without value: itself, or a fresh variable where the universe cannot name it.
/// The two are joined, which brings the variable down to the universe; `moved` holds those that came
/// down, so that each further term that names one gets its own.
pub fn name_variable(
    nodes: &mut Nodes,
    table: &mut InferCtxtInner,
    moved: &mut IndexSet<usize>,
    target: Target,
    t: NodeId,
    y: usize,
) -> Result<NodeId, EvalError>
    requires within { IsIn nodes.old t }
    requires knows { Knows (content_of nodes.old table.old.entries) (tree_at nodes.old t) }
    requires lawful { IsLawful nodes.old table.old.entries }
    requires open { IsOpen nodes.old table.old.entries (tree_at nodes.old t) y }
    requires other { y ≢ target.variable }
    requires known { target.variable < length table.old.entries.variables }
    requires named { target.universe ≤ table.old.entries.universe }
    ensures extends { Extends nodes.old nodes.new }
    ensures changes { KeepsHidden table.old table.new }
    ensures within { IfOk result (λ r. IsIn nodes.new r) }
    ensures lawful { OnOk result (IsLawful nodes.new table.new.entries) }
    ensures generalized { IfOk result (λ r. Generalized (content_of nodes.old table.old.entries)
        (content_of nodes.new table.new.entries) target.variable target.universe target.binders
        (tree_at nodes.old t) (tree_at nodes.new r)) }
    ensures full { result ≢ Err EvalError.Full }
    ensures no { result ≢ Err EvalError.NoSolution }
{
    let variable = table.variable(y);
    let kind = variable.kind;
    if variable.universe <= target.universe && !moved.contains(&y) {
        return Ok(nodes.make(Label::Leaf(Leaf::Variable(kind, y)), &[])?);
    }
    moved.insert(y)?;
    let number = table.variable_count();
    let fresh = add_variable(nodes, table, kind, target.universe, None)?;
    join(table, y, number)?;
    Ok(fresh)
}

/// A term for a free region: itself, or its root where it is a variable, or a fresh variable where the
/// universe cannot name it. The two are made equal.
pub fn name_region(
    nodes: &mut Nodes,
    table: &mut InferCtxtInner,
    moved: &mut IndexSet<usize>,
    target: Target,
    t: NodeId,
) -> Result<NodeId, EvalError>
    requires lawful { IsLawful nodes.old table.old.entries }
    requires region { IsRegionOf nodes.old table.old.entries t }
    requires known { target.variable < length table.old.entries.variables }
    requires named { target.universe ≤ table.old.entries.universe }
    requires no_region { kind_at (content_of nodes.old table.old.entries) target.variable ≢ Some
        kind.Region }
    ensures extends { Extends nodes.old nodes.new }
    ensures changes { KeepsHidden table.old table.new }
    ensures within { IfOk result (λ r. IsIn nodes.new r) }
    ensures lawful { OnOk result (IsLawful nodes.new table.new.entries) }
    ensures generalized { IfOk result (λ r. Generalized (content_of nodes.old table.old.entries)
        (content_of nodes.new table.new.entries) target.variable target.universe target.binders
        (tree_at nodes.old t) (tree_at nodes.new r)) }
    ensures full { result ≢ Err EvalError.Full }
    ensures no { result ≢ Err EvalError.NoSolution }
{
    let label = nodes.label(t);
    if let Some(n) = region_number(label) {
        let root = table.root(n);
        if table.variable(root).universe <= target.universe && !moved.contains(&root) {
            return Ok(nodes.make(Label::Leaf(Leaf::Variable(VariableKind::Region, root)), &[])?);
        }
        moved.insert(root)?;
        let number = table.variable_count();
        let fresh = add_variable(nodes, table, VariableKind::Region, target.universe, None)?;
        join_regions(table, root, number)?;
        return Ok(fresh);
    }
    if !is_beyond(label, target.universe) {
        return Ok(t);
    }
    let fresh = add_variable(nodes, table, VariableKind::Region, target.universe, None)?;
    table.constrain(Constraint {
        relation: Relation::Equal,
        left: fresh,
        right: t,
        is_visible: true,
    })?;
    Ok(fresh)
}

/// Whether a label is a placeholder region that the universe cannot name.
fn is_beyond(label: Label, universe: UniverseIndex) -> bool
    ensures named { result ≡ false → CanName universe (region_level label) }
    ensures beyond { result ≡ true → CanName universe (region_level label) → ⊥ }
{
    match label {
        Label::Leaf(Leaf::Region(FreeRegion::Placeholder(u, _))) => universe < u,
        _ => false,
    }
}
