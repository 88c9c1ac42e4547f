//! Whether a goal that normalizes an alias to a variable leaves open what the alias is.
ghost use Rattle.std.specs.Prelude.{◌≡◌, ◌↔◌, None, IsTrue, IfOk, IsOkUnless};
ghost use Rattle.nts_model.specs.Tables.Resolving.{deeply_resolved};
ghost use Rattle.nts_store.specs.Growth.{tree_at};
ghost use Rattle.nts_terms.specs.Rest.{Grows};
ghost use Rattle.nts_unify.specs.Reading.{content_of};
ghost use Rattle.nts_meaning.specs.Evaluation.{IsPosed};
ghost use Rattle.nts_nested_goals.specs.Unconstrained.{Spares, variable_universe, term_universe, universe_at, IsFullyUnconstrained};

use nts_meaning::resolve_goal;
use nts_model::{Constant, Label, Leaf, VariableKind};
use nts_store::{EvalError, LabelTest, all_labels};
use nts_table::InferCtxt;
use nts_terms::{Cx, Goal, PredicateKind, UniverseIndex};
use nts_unify::{is_same, named_variable};

/// The universe of a type or const variable of the table.
fn variable_universe(table: &InferCtxt, kind: VariableKind, n: usize) -> Option<UniverseIndex>
    ensures { result ≡ variable_universe (universe_at table.now.entries) kind n }
{
    match kind {
        VariableKind::Ty | VariableKind::Const => {
            if n < table.variable_count() {
                Some(table.variable(n).universe)
            } else {
                None
            }
        }
        _ => None,
    }
}

/// The universe of a type or const variable, or of a placeholder of a type or const.
fn term_universe(table: &InferCtxt, label: Label) -> Option<UniverseIndex>
    ensures { result ≡ term_universe (universe_at table.now.entries) label }
{
    match label {
        Label::Leaf(Leaf::Variable(kind, n)) => variable_universe(table, kind, n),
        Label::Leaf(
            Leaf::TyConstant(Constant::Placeholder(universe, _))
            | Leaf::ConstConstant(Constant::Placeholder(universe, _)),
        ) => Some(universe),
        _ => None,
    }
}

/// A label asks nothing of a variable.
#[derive(Drop)]
struct Spared<'a> {
    table: &'a InferCtxt,
    variable: Label,
    universe: UniverseIndex,
}

impl LabelTest for Spared<'_> {
    ghost passes = { λ s l. Spares (universe_at s.table.now.entries) s.variable s.universe l };

    fn test(&self, label: Label) -> bool {
        if is_same(label, self.variable) {
            return false;
        }
        match term_universe(self.table, label) {
            None => true,
            Some(universe) => universe <= self.universe,
        }
    }
}

/// Whether a goal normalizes an alias to a variable of which nothing else is asked.
pub fn is_fully_unconstrained(table: &InferCtxt, cx: &mut Cx, goal: Goal) -> Result<bool, EvalError>
    requires goal { IsPosed cx.old.nodes table.now goal }
    ensures answer { IfOk result (λ b. IsTrue b ↔ (let c = content_of cx.old.nodes
        table.now.entries in IsFullyUnconstrained c
        (deeply_resolved c (tree_at cx.old.nodes goal.param_env.node))
        (deeply_resolved c (tree_at cx.old.nodes goal.predicate.node)))) }
    ensures grows { Grows cx.old cx.new }
    ensures memory { IsOkUnless result EvalError.Memory }
{
    let asked = resolve_goal(table, cx, goal)?;
    let PredicateKind::NormalizesTo { alias, term } = asked.predicate.kind(cx).value else {
        return Ok(false);
    };
    let variable = cx.nodes.label(term.node);
    let Some((kind, n)) = named_variable(variable) else {
        return Ok(false);
    };
    let Some(universe) = variable_universe(table, kind, n) else {
        return Ok(false);
    };
    let test = Spared {
        table,
        variable,
        universe,
    };
    if !all_labels(cx.alloc, &cx.nodes, asked.param_env.node, &test)? {
        return Ok(false);
    }
    let spared = all_labels(cx.alloc, &cx.nodes, alias.args.node, &test)?;
    Ok(spared)
}
