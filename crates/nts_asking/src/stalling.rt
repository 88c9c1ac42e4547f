//! A goal at the root, and what is kept of it where it stalls.
ghost use Rattle.std.specs.Prelude.{◌≡◌, [], List, All, map, filter, IfOk, IsOkUnless};
ghost use Rattle.std.specs.List.{filter_map};
ghost use Rattle.nts_model.specs.Terms.Trees.{Tree, any_label, is_infer};
ghost use Rattle.nts_model.specs.Terms.Substitutions.{leaf_tree};
ghost use Rattle.nts_model.specs.Tables.Resolving.{deeply_resolved};
ghost use Rattle.nts_store.specs.Growth.{tree_at};
ghost use Rattle.nts_terms.specs.Handles.{HoldsArg};
ghost use Rattle.nts_terms.specs.Rest.{Grows};
ghost use Rattle.nts_unify.specs.Reading.{content_of, LinksDescend};
ghost use Rattle.nts_canonical.specs.Forms.{input_of, trees_of};
ghost use Rattle.nts_canonical.specs.SubRoots.{sub_root_in};
ghost use Rattle.nts_meaning.specs.Evaluation.{IsPosed};
ghost use Rattle.nts_asking.specs.Stalling.{stalling, number_of_label, number_of_tree, MayStall, Keeps};

use crate::query::query_of;
use crate::stalled::GoalStalledOn;
use nts_certainty::{Certainty, HasChanged};
use nts_meaning::resolve_goal;
use nts_model::{Label, Leaf, VariableKind};
use nts_store::Fault;
use nts_table::InferCtxt;
use nts_terms::{Cx, GenericArg, Goal};

/// A goal as it is asked at the root, and what it may wait for.
#[derive(Drop)]
pub struct Asked {
    /// The goal, its variables resolved.
    pub goal: Goal,
    /// Its variables that may get values: those of types, integers, floats and consts.
    pub vars: Vec<GenericArg>,
    /// The numbers of its type variables.
    pub types: Vec<usize>,
}

/// A goal of the table, its variables resolved, and those that it may wait for.
pub fn asked_goal(table: &InferCtxt, cx: &mut Cx, goal: Goal) -> Result<Asked, Fault>
    requires posed { IsPosed cx.old.nodes table.now goal }
    ensures posed { IfOk result (λ x. IsPosed cx.new.nodes table.now x.goal) }
    ensures env { IfOk result (λ x. tree_at cx.new.nodes x.goal.param_env.node ≡ deeply_resolved
        (content_of cx.old.nodes table.now.entries) (tree_at cx.old.nodes goal.param_env.node)) }
    ensures predicate { IfOk result (λ x. tree_at cx.new.nodes x.goal.predicate.node ≡
        deeply_resolved (content_of cx.old.nodes table.now.entries)
        (tree_at cx.old.nodes goal.predicate.node)) }
    ensures stalls { IfOk result (MayStall cx.new.nodes table.now.entries) }
    ensures grows { Grows cx.old cx.new }
    ensures memory { IsOkUnless result Fault.Memory }
{
    let asked = resolve_goal(table, cx, goal)?;
    let vars = stalling_vars(table, cx, asked)?;
    let types = type_numbers(cx, &vars)?;
    Ok(Asked {
        goal: asked,
        vars,
        types,
    })
}

/// The variables that a goal may wait for.
fn stalling_vars(table: &InferCtxt, cx: &mut Cx, goal: Goal) -> Result<Vec<GenericArg>, Fault>
    requires posed { IsPosed cx.old.nodes table.now goal }
    ensures vars { IfOk result (λ v. trees_of cx.new.nodes v.items ≡ map leaf_tree
        (stalling (input_of cx.old.nodes table.now.entries goal []))) }
    ensures held { IfOk result (λ v. All (λ x. HoldsArg cx.new.nodes x) v.items) }
    ensures grows { Grows cx.old cx.new }
    ensures memory { IsOkUnless result Fault.Memory }
{
    // Most goals have no variable, and need no walk.
    if !cx.has_non_region_infer(goal.param_env) && !cx.has_non_region_infer(goal.predicate) {
        return Ok(Vec::new(cx.alloc));
    }
    let (leaves, _) = query_of(table, cx, goal)?;
    open_args(cx, &leaves)
}

/// Those of the arguments in which a variable stands that is no region.
fn open_args(cx: &Cx, args: &[GenericArg]) -> Result<Vec<GenericArg>, Fault>
    ensures args { IfOk result (λ v. v.items ≡ filter (λ a. any_label is_infer
        (tree_at cx.now.nodes a.node)) args.now) }
    ensures memory { IsOkUnless result Fault.Memory }
{
    let open = args
        .iter()
        .copied()
        .filter(|a| is_open(cx, *a))
        .collect(cx.alloc)?;
    Ok(open)
}

fn is_open(cx: &Cx, arg: GenericArg) -> bool
    ensures { result ≡ any_label is_infer (tree_at cx.now.nodes arg.node) }
{
    cx.nodes.contains(arg.node) && cx.nodes.flags(arg.node).has_infer
}

/// The numbers of those of the arguments that are type variables.
fn type_numbers(cx: &Cx, args: &[GenericArg]) -> Result<Vec<usize>, Fault>
    ensures numbers { IfOk result (λ v. v.items ≡ filter_map (λ a. number_of_tree
        (tree_at cx.now.nodes a.node)) args.now) }
    ensures memory { IsOkUnless result Fault.Memory }
{
    let numbers = args
        .iter()
        .copied()
        .filter_map(|a| type_number(cx, a))
        .collect(cx.alloc)?;
    Ok(numbers)
}

fn type_number(cx: &Cx, arg: GenericArg) -> Option<usize>
    ensures { result ≡ number_of_tree (tree_at cx.now.nodes arg.node) }
{
    if !cx.nodes.contains(arg.node) {
        return None;
    }
    number_of_label(cx.nodes.label(arg.node))
}

fn number_of_label(label: Label) -> Option<usize>
    ensures { result ≡ number_of_label label }
{
    match label {
        Label::Leaf(Leaf::Variable(VariableKind::Ty, n)) => Some(n),
        _ => None,
    }
}

/// What is kept of a goal that was asked and answered so: nothing, unless it is in doubt and nothing changed. Then it is the
/// variables that it may wait for, and the sub roots of its type variables. No hidden type stands in a query. It takes no memory.
pub fn keep_stalled(
    table: &InferCtxt,
    asked: Asked,
    certainty: Certainty,
    has_changed: HasChanged,
) -> Option<GoalStalledOn>
    requires { LinksDescend table.now.entries }
    ensures { (ts : List Tree) → MayStall ts table.now.entries asked → Keeps ts table.now.entries
        asked.goal certainty has_changed result }
{
    match has_changed {
        HasChanged::Yes => None,
        HasChanged::No => {
            let roots = sub_roots_of(table, asked.types);
            GoalStalledOn::new(0, asked.vars, roots, certainty)
        }
    }
}

/// The sub roots of variables, in the place of their numbers.
fn sub_roots_of(table: &InferCtxt, mut types: Vec<usize>) -> Vec<usize>
    requires { LinksDescend table.now.entries }
    ensures { result.items ≡ map (sub_root_in table.now.entries) types.items }
{
    put_sub_roots(table, &mut types);
    types
}

fn put_sub_roots(table: &InferCtxt, types: &mut [usize])
    requires { LinksDescend table.now.entries }
    ensures { types.new ≡ map (sub_root_in table.now.entries) types.old }
{
    for i in 0..types.len() {
        types[i] = sub_root(table, types[i]);
    }
}

/// The sub root of a variable. One that the table lacks is its own.
fn sub_root(table: &InferCtxt, n: usize) -> usize
    requires { LinksDescend table.now.entries }
    ensures { result ≡ sub_root_in table.now.entries n }
{
    if n < table.variable_count() {
        table.sub_unification_table_root_var(n)
    } else {
        n
    }
}
