//! What a term is normalized by: the goal that an alias is equal to a new variable.
ghost use Rattle.std.specs.Prelude.{◌≡◌, ◌≢◌, Ok, Err, IfOk, OnErr};
ghost use Rattle.nts_model.specs.Terms.Trees.{any_term, kind_of};
ghost use Rattle.nts_model.specs.Tables.Resolving.{deeply_resolved};
ghost use Rattle.nts_model.specs.Derivations.Related.{IsAlias};
ghost use Rattle.nts_store.specs.Growth.{tree_at};
ghost use Rattle.nts_terms.specs.Rest.{Grows};
ghost use Rattle.nts_unify.specs.Reading.{content_of};
ghost use Rattle.nts_table.specs.Tables.{IsTable, IsSide};
ghost use Rattle.nts_meaning.specs.Evaluation.{Runs};
ghost use Rattle.nts_adding.specs.Adding.{ArePosedIn};
ghost use Rattle.nts_nested_goals.specs.Related.{IsEnvOf, KeepsState, AddsEqualToNew};

use crate::adding::add_all;
use crate::state::EvalState;
use nts_adding::equal_to_new;
use nts_certainty::GoalSource;
use nts_store::EvalError;
use nts_table::{InferCtxt, eager_resolve_vars};
use nts_terms::{Cx, ParamEnv, Term};

/// Adds the goal that an alias is equal to a new variable, and answers this. After an error the goals are as before, and variables may
/// be left in the table.
pub fn add_equal(
    table: &mut InferCtxt,
    cx: &mut Cx,
    state: &mut EvalState,
    env: ParamEnv,
    alias: Term,
) -> Result<Term, EvalError>
    requires table { IsTable cx.old.nodes table.old }
    requires before { ArePosedIn cx.old.nodes table.old state.old.nested_goals.items }
    requires env { IsEnvOf cx.old table.old env }
    requires alias { IsSide any_term cx.old.nodes table.old alias.node }
    requires is { IsAlias (tree_at cx.old.nodes alias.node) }
    ensures runs { Runs cx.old cx.new table.old table.new }
    ensures adds { IfOk result (λ v. AddsEqualToNew cx.old cx.new table.old.entries
        table.new.entries state.old state.new env alias.node v.node) }
    ensures side { IfOk result (λ v. IsSide any_term cx.new.nodes table.new v.node) }
    ensures kind { IfOk result (λ v. kind_of (tree_at cx.new.nodes v.node)
        ≡ kind_of (tree_at cx.old.nodes alias.node)) }
    ensures posed { ArePosedIn cx.new.nodes table.new state.new.nested_goals.items }
    ensures no { result ≢ Err EvalError.NoSolution }
    ensures full { result ≢ Err EvalError.Full }
    ensures goals { OnErr result (state.new.nested_goals.items ≡ state.old.nested_goals.items) }
    ensures kept { KeepsState state.old state.new }
{
    let (variable, goals) = equal_to_new(table, cx, env, alias)?;
    add_all(table, cx, state, GoalSource::TypeRelating, &goals)?;
    Ok(variable)
}

/// A term as the table knows it.
pub fn resolved(table: &InferCtxt, cx: &mut Cx, term: Term) -> Result<Term, EvalError>
    requires table { IsTable cx.old.nodes table.now }
    requires term { IsSide any_term cx.old.nodes table.now term.node }
    ensures grows { Grows cx.old cx.new }
    ensures side { IfOk result (λ r. IsSide any_term cx.new.nodes table.now r.node) }
    ensures kind { IfOk result (λ r. kind_of (tree_at cx.new.nodes r.node)
        ≡ kind_of (tree_at cx.old.nodes term.node)) }
    ensures tree { IfOk result (λ r. tree_at cx.new.nodes r.node ≡ deeply_resolved
        (content_of cx.old.nodes table.now.entries) (tree_at cx.old.nodes term.node)) }
    ensures no { result ≢ Err EvalError.NoSolution }
{
    let value = eager_resolve_vars(table, cx, term)?;
    Ok(value)
}
