//! A term that stands for another by a variance: aliases, and what may vary, give place to fresh variables, which owe goals.
ghost use Rattle.std.specs.Prelude.{◌≡◌, ◌≢◌, ℕ, ◌+◌, ◌++◌, ◌∷◌, [], ◌^◌, ◌<◌, ◌≤◌, length, List, OnOk, OnErr, IfOk, IfSome, Some, None, Err, true, false};
ghost use Rattle.nts_model.specs.declared.labels.VariableKind.TheVariants as kinds;
ghost use Rattle.nts_model.specs.Terms.Trees.{children, is_alias, node, row_length, shape, AllFit, IsClosedUnder, Meets, variable_tree};
ghost use Rattle.nts_model.specs.Tables.Resolving.{IsInfer};
ghost use Rattle.nts_model.specs.Tables.Contents.{kind_at};
ghost use Rattle.nts_variance_model.specs.Variances.Forms.{over};
ghost use Rattle.nts_store.specs.Growth.{tree_at, trees_at, IsIn, AllIn, Extends};
ghost use Rattle.nts_terms.specs.Signatures.{variances_in};
ghost use Rattle.nts_unify.specs.Entries.{KeepsHidden, added, constrained};
ghost use Rattle.nts_unify.specs.Reading.{content_of, IsLawful};
ghost use Rattle.nts_relating.specs.Relating.{IsRegionOf};
ghost use Rattle.nts_variance.specs.declared.vary_walk.Task.TheVariants as tasks;
ghost use Rattle.nts_variance.specs.Steps.{enter, stacked, part_place};
ghost use Rattle.nts_variance.specs.Parts.{closed_alias, form_of_tree, parts_of};
ghost use Rattle.nts_variance.specs.Terms.{step_at, pairs_at, IsPart};
ghost use Rattle.nts_variance.specs.Varying.{pair_in, owed_pairs, constraint_of_pair, with_owed, fresh, IsMadeAgain, ArePartsPushed, IsWalk, IsTurn, IsVaried, WalkRefuses};

use crate::along::Relating;
use crate::looking::look_at;
use crate::parts::{holder, variance_of_part};
use crate::variance::{opposite, times};
use nts_model::{ConstHead, Label, Relation, TyHead, VariableKind, Variance};
use nts_store::{EvalError, NodeId, Nodes, TypeFlags, binders_of};
use nts_terms::{Declarations, UniverseIndex};
use nts_unify::{Constraint, InferCtxtInner, add_variable};
use std::alloc::Global;

/// What a term is made for: the variable that is to stand for it, the universe that bounds what is fresh, and whether what is
/// made stands right in the pair.
#[derive(Clone, Copy)]
pub struct Target {
    pub variable: usize,
    pub universe: UniverseIndex,
    pub is_turned: bool,
}

/// A part of the term, how many binders stand around it, how it varies with the whole, whether a goal around it says all that it
/// owes, and whether it is of an invariant part behind whose variables something may hide: so far as is known.
#[derive(Clone, Copy)]
pub struct Spot {
    pub term: NodeId,
    pub binders: usize,
    pub variance: Variance,
    pub is_quiet: bool,
    pub is_searched: bool,
}

/// What is left to do. A term may be nested very deep, so this stands on the heap.
#[derive(Clone, Copy)]
pub enum Task {
    /// Make what stands for a part.
    Enter(Spot),
    /// Make the node again over what was made last for its parts.
    Build(NodeId),
    /// What was made last owes the part a goal.
    Owe(Spot),
}

/// A walk under way: what is left to do, what was made, the newest last, and the goals that are owed.
#[derive(Drop)]
pub struct Walk {
    pub tasks: Vec<Task>,
    pub made: Vec<NodeId>,
    pub goals: Vec<Relating>,
}

/// What a part is.
#[derive(Clone, Copy)]
pub enum Look {
    /// This term stands for it.
    Made(NodeId),
    /// A type variable that may vary, with this value, which is copied; the variable is owed the copy.
    Value(NodeId),
    /// A variable with this value, which takes its place.
    Through(NodeId),
    /// A node that is to be made again over what stands for its parts.
    Node,
}

/// A term that stands for another, and the goals that this owes.
#[derive(Drop)]
pub struct Varied {
    pub made: NodeId,
    pub goals: Vec<Relating>,
}

/// Whether the node is an alias that no escaping bound variable keeps as it is.
pub fn is_closed_alias(label: Label, flags: TypeFlags) -> bool
    ensures { result ≡ closed_alias label flags.escaping }
{
    let is_alias = matches!(
        label,
        Label::Ty(TyHead::Alias(_)) | Label::Const(ConstHead::Unevaluated(_))
    );
    is_alias && flags.escaping.is_none()
}

/// The pair of what was made and a part, in their order.
fn pair_of(target: Target, variance: Variance, made: NodeId, term: NodeId) -> Relating
    ensures { result ≡ pair_in target.is_turned variance made term }
{
    if target.is_turned {
        return Relating {
            variance: opposite(variance),
            left: term,
            right: made,
        };
    }
    Relating {
        variance,
        left: made,
        right: term,
    }
}

/// A fresh variable for a part: for an alias, or for a type variable that may vary. It owes a goal unless one around says it all.
pub fn make_fresh(
    nodes: &mut Nodes,
    table: &mut InferCtxtInner,
    goals: &mut Vec<Relating>,
    target: Target,
    spot: Spot,
    kind: VariableKind,
    sub_link: Option<usize>,
) -> Result<NodeId, EvalError>
    requires named { target.universe ≤ table.old.entries.universe }
    requires linked { IfSome sub_link (λ m. m < length table.old.entries.variables) }
    ensures extends { Extends nodes.old nodes.new }
    ensures changes { KeepsHidden table.old table.new }
    ensures within { IfOk result (λ r. IsIn nodes.new r) }
    ensures tree { IfOk result (λ r. tree_at nodes.new r ≡ variable_tree kind
        (length table.old.entries.variables)) }
    ensures entries { OnOk result (table.new.entries ≡ added table.old.entries
        (fresh kind target.universe sub_link)) }
    ensures lawful { IsLawful nodes.old table.old.entries →
        OnOk result (IsLawful nodes.new table.new.entries) }
    ensures goals { IfOk result (λ r. goals.new.items ≡ goals.old.items ++ owed_pairs
        target.is_turned spot r) }
    ensures full { result ≢ Err EvalError.Full }
    ensures no { result ≢ Err EvalError.NoSolution }
{
    let made = add_variable(nodes, table, kind, target.universe, sub_link)?;
    if !spot.is_quiet {
        goals.push(pair_of(target, spot.variance, made, spot.term))?;
    }
    Ok(made)
}

/// A fresh region variable for a free region that may vary. What it owes is recorded, unless a goal around says it.
pub fn make_region(
    nodes: &mut Nodes,
    table: &mut InferCtxtInner,
    target: Target,
    spot: Spot,
) -> Result<NodeId, EvalError>
    requires lawful { IsLawful nodes.old table.old.entries }
    requires region { IsRegionOf nodes.old table.old.entries spot.term }
    requires named { target.universe ≤ table.old.entries.universe }
    ensures extends { Extends nodes.old nodes.new }
    ensures changes { KeepsHidden table.old table.new }
    ensures within { IfOk result (λ r. IsIn nodes.new r) }
    ensures tree { IfOk result (λ r. tree_at nodes.new r ≡ variable_tree kinds.Region
        (length table.old.entries.variables)) }
    ensures entries { IfOk result (λ r. table.new.entries ≡ with_owed target.is_turned spot r
        (added table.old.entries (fresh kinds.Region target.universe None))) }
    ensures lawful { OnOk result (IsLawful nodes.new table.new.entries) }
    ensures full { result ≢ Err EvalError.Full }
    ensures no { result ≢ Err EvalError.NoSolution }
{
    let made = add_variable(nodes, table, VariableKind::Region, target.universe, None)?;
    if spot.is_quiet {
        return Ok(made);
    }
    let pair = pair_of(target, spot.variance, made, spot.term);
    record_regions(table, pair)?;
    Ok(made)
}

/// Records what a pair of free regions says.
pub fn record_regions(table: &mut InferCtxtInner, pair: Relating) -> Result<(), EvalError>
    ensures entries { OnOk result (table.new.entries ≡ constrained table.old.entries
        (constraint_of_pair pair)) }
    ensures changes { KeepsHidden table.old table.new }
    ensures err { OnErr result (table.new ≡ table.old) }
    ensures full { result ≢ Err EvalError.Full }
    ensures no { result ≢ Err EvalError.NoSolution }
{
    let (relation, left, right) = match pair.variance {
        Variance::Invariant => (Relation::Equal, pair.left, pair.right),
        Variance::Covariant => (Relation::RegionOutlives, pair.left, pair.right),
        Variance::Contravariant => (Relation::RegionOutlives, pair.right, pair.left),
    };
    table.constrain(Constraint {
        relation,
        left,
        right,
        is_visible: true,
    })?;
    Ok(())
}

/// What is left to do for a node: first its parts from left to right, and then the node.
fn push_parts(
    nodes: &Nodes,
    declarations: &Declarations,
    tasks: &mut Vec<Task>,
    spot: Spot,
) -> Result<(), EvalError>
    requires within { IsIn nodes.now spot.term }
    requires again { IsMadeAgain (tree_at nodes.now spot.term) }
    requires closed { IsClosedUnder spot.binders (tree_at nodes.now spot.term) }
    requires room { spot.binders + spot.term.number < 2 ^ 64 }
    ensures pushed { OnOk result (ArePartsPushed (variances_in declarations.now) nodes.now spot
        tasks.old.items tasks.new.items) }
    ensures full { result ≢ Err EvalError.Full }
    ensures no { result ≢ Err EvalError.NoSolution }
{
    let label = nodes.label(spot.term);
    let row = holder(nodes, spot.term);
    tasks.push(Task::Build(spot.term))?;
    let count = nodes.child_count(row);
    let is_searched = spot.variance == Variance::Invariant && !nodes.flags(spot.term).has_alias;
    let mut i = count;
    while i > 0 {
        i -= 1;
        let argument = variance_of_part(declarations, label, i, count);
        tasks.push(Task::Enter(Spot {
            term: nodes.child(row, i),
            binders: spot.binders + binders_of(label),
            variance: times(spot.variance, argument),
            is_quiet: spot.is_quiet,
            is_searched,
        }))?;
    }
    Ok(())
}

/// Makes what stands for a part, or leaves what it stands on to be made first.
fn enter(
    alloc: Global,
    nodes: &mut Nodes,
    declarations: &Declarations,
    table: &mut InferCtxtInner,
    walk: &mut Walk,
    target: Target,
    spot: Spot,
) -> Result<(), EvalError>
    requires walk { IsWalk nodes.old table.old.entries target.universe target.variable
        (walk.old.tasks.items ++ tasks.Enter spot ∷ []) walk.old.made.items walk.old.goals.items }
    ensures extends { Extends nodes.old nodes.new }
    ensures changes { KeepsHidden table.old table.new }
    ensures turn { OnOk result (IsTurn (variances_in declarations.now) target.is_turned
        target.universe target.variable nodes.old nodes.new table.old.entries table.new.entries
        (walk.old.tasks.items ++ tasks.Enter spot ∷ []) walk.new.tasks.items walk.old.made.items
        walk.new.made.items walk.old.goals.items walk.new.goals.items) }
    ensures full { result ≢ Err EvalError.Full }
    ensures no { result ≡ Err EvalError.NoSolution →
        WalkRefuses (variances_in declarations.now) target.universe target.variable
        (content_of nodes.old table.old.entries) (stacked (step_at nodes.old)
        (walk.old.tasks.items ++ tasks.Enter spot ∷ []))
        (stacked (tree_at nodes.old) walk.old.made.items)
        (pairs_at nodes.old walk.old.goals.items) }
{
    match look_at(alloc, nodes, table, &mut walk.goals, target, spot) {
        Err(error) => Err(error),
        Ok(Look::Made(made)) => {
            walk.made.push(made)?;
            Ok(())
        }
        Ok(Look::Value(term)) => {
            let copied = Task::Enter(Spot {
                term,
                binders: 0,
                variance: spot.variance,
                is_quiet: true,
                is_searched: false,
            });
            if spot.is_quiet {
                walk.tasks.push(copied)?;
                return Ok(());
            }
            walk.tasks.push(Task::Owe(spot))?;
            walk.tasks.push(copied)?;
            Ok(())
        }
        Ok(Look::Through(term)) => {
            walk.tasks.push(Task::Enter(Spot {
                term,
                binders: 0,
                is_searched: false,
                ..spot
            }))?;
            Ok(())
        }
        Ok(Look::Node) => push_parts(nodes, declarations, &mut walk.tasks, spot),
    }
}

/// Makes a node again over what was made last for its parts. The table stays as it is.
fn build(
    nodes: &mut Nodes,
    table: &InferCtxtInner,
    walk: &mut Walk,
    target: Target,
    term: NodeId,
) -> Result<(), EvalError>
    requires walk { IsWalk nodes.old table.now.entries target.universe target.variable
        (walk.old.tasks.items ++ tasks.Build term ∷ []) walk.old.made.items walk.old.goals.items }
    ensures extends { Extends nodes.old nodes.new }
    ensures turn { (declared : ℕ → List Variance) →
        OnOk result (IsTurn declared target.is_turned target.universe target.variable nodes.old
        nodes.new table.now.entries table.now.entries
        (walk.old.tasks.items ++ tasks.Build term ∷ []) walk.new.tasks.items walk.old.made.items
        walk.new.made.items walk.old.goals.items walk.new.goals.items) }
    ensures full { result ≢ Err EvalError.Full }
    ensures no { result ≢ Err EvalError.NoSolution }
{
    // The nodes of a store are formed, which says what parts this one has.
    nodes.terms_are_formed();
    let label = nodes.label(term);
    let row = holder(nodes, term);
    let first = walk.made.len() - nodes.child_count(row);
    let parts = walk.made.split_off(first)?;
    let whole = build_over(nodes, term, label, &parts)?;
    walk.made.push(whole)?;
    Ok(())
}

/// The node over other parts.
fn build_over(
    nodes: &mut Nodes,
    term: NodeId,
    label: Label,
    parts: &[NodeId],
) -> Result<NodeId, EvalError>
    requires within { IsIn nodes.old term }
    requires parts_within { AllIn nodes.old parts.now }
    requires is { tree_at nodes.old term ≡ over (form_of_tree (tree_at nodes.old term))
        (parts_of (tree_at nodes.old term)) }
    requires label { tree_at nodes.old term ≡ node label (children (tree_at nodes.old term)) }
    requires formed { Meets (shape label) (children (tree_at nodes.old term)) }
    requires fit { AllFit (part_place (form_of_tree (tree_at nodes.old term)))
        (trees_at nodes.old parts.now) }
    requires long { row_length (trees_at nodes.old parts.now) ≡ row_length
        (parts_of (tree_at nodes.old term)) }
    ensures extends { Extends nodes.old nodes.new }
    ensures within { IfOk result (λ r. IsIn nodes.new r) }
    ensures tree { IfOk result (λ r. tree_at nodes.new r ≡ over (form_of_tree
        (tree_at nodes.old term)) (trees_at nodes.old parts.now)) }
    ensures full { result ≢ Err EvalError.Full }
    ensures no { result ≢ Err EvalError.NoSolution }
{
    if let Label::Const(ConstHead::Value(_)) = label {
        return Ok(nodes.make(label, parts)?);
    }
    let arguments = nodes.make(Label::List(nts_model::ListHead::Args), parts)?;
    if let Label::Ty(TyHead::FnPtr) = label {
        let sorts = nodes.child(term, 0);
        return Ok(nodes.make(label, &[sorts, arguments])?);
    }
    Ok(nodes.make(label, &[arguments])?)
}

/// Does one task.
fn step(
    alloc: Global,
    nodes: &mut Nodes,
    declarations: &Declarations,
    table: &mut InferCtxtInner,
    walk: &mut Walk,
    target: Target,
    task: Task,
) -> Result<(), EvalError>
    requires walk { IsWalk nodes.old table.old.entries target.universe target.variable
        (walk.old.tasks.items ++ task ∷ []) walk.old.made.items walk.old.goals.items }
    ensures extends { Extends nodes.old nodes.new }
    ensures changes { KeepsHidden table.old table.new }
    ensures turn { OnOk result (IsTurn (variances_in declarations.now) target.is_turned
        target.universe target.variable nodes.old nodes.new table.old.entries table.new.entries
        (walk.old.tasks.items ++ task ∷ []) walk.new.tasks.items walk.old.made.items
        walk.new.made.items walk.old.goals.items walk.new.goals.items) }
    ensures full { result ≢ Err EvalError.Full }
    ensures no { result ≡ Err EvalError.NoSolution →
        WalkRefuses (variances_in declarations.now) target.universe target.variable
        (content_of nodes.old table.old.entries) (stacked (step_at nodes.old)
        (walk.old.tasks.items ++ task ∷ [])) (stacked (tree_at nodes.old) walk.old.made.items)
        (pairs_at nodes.old walk.old.goals.items) }
{
    match task {
        Task::Enter(spot) => enter(alloc, nodes, declarations, table, walk, target, spot),
        Task::Build(term) => build(nodes, table, walk, target, term),
        Task::Owe(spot) => {
            let last = walk.made.len() - 1;
            let made = walk.made[last];
            walk.goals
                .push(pair_of(target, spot.variance, made, spot.term))?;
            Ok(())
        }
    }
}

/// A term that stands for another by a variance: a fresh variable stands in it for each alias without escaping bound variables,
/// and for each type variable and free region that may vary. A type variable with a value that may vary gives place to a copy of
/// the value, and one goal says all that this owes; in the copy the variables that may not vary stand for what they stood for.
pub fn vary(
    alloc: Global,
    nodes: &mut Nodes,
    declarations: &Declarations,
    table: &mut InferCtxtInner,
    target: Target,
    variance: Variance,
    term: NodeId,
) -> Result<Varied, EvalError>
    requires lawful { IsLawful nodes.old table.old.entries }
    requires part { IsPart nodes.old (content_of nodes.old table.old.entries)
        (record {
          term = term;
          binders = 0;
          variance = variance;
          is_quiet = false;
          is_searched =
              false;
        }) }
    requires node { IsInfer (tree_at nodes.old term) → ⊥ }
    requires known { target.variable < length table.old.entries.variables }
    requires named { target.universe ≤ table.old.entries.universe }
    requires no_region { kind_at (content_of nodes.old table.old.entries) target.variable ≢ Some
        kinds.Region }
    ensures extends { Extends nodes.old nodes.new }
    ensures changes { KeepsHidden table.old table.new }
    ensures varied { IfOk result (λ r. IsVaried (variances_in declarations.now) target.is_turned
        target.universe target.variable nodes.old nodes.new table.old.entries table.new.entries
        variance term r.made r.goals.items) }
    ensures full { result ≢ Err EvalError.Full }
    ensures no { result ≡ Err EvalError.NoSolution →
        WalkRefuses (variances_in declarations.now) target.universe target.variable
        (content_of nodes.old table.old.entries) (enter variance false
        (tree_at nodes.old term) ∷ []) [] [] }
{
    let mut walk = Walk {
        tasks: Vec::new(alloc),
        made: Vec::new(alloc),
        goals: Vec::new(alloc),
    };
    walk.tasks.push(Task::Enter(Spot {
        term,
        binders: 0,
        variance,
        is_quiet: false,
        is_searched: false,
    }))?;
    while let Some(task) = walk.tasks.pop() {
        match step(alloc, nodes, declarations, table, &mut walk, target, task) {
            Err(error) => return Err(error),
            Ok(()) => {}
        }
    }
    let Walk { made, goals, .. } = walk;
    let made = made[0];
    Ok(Varied { made, goals })
}
