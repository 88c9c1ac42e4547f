//! An alias that is related with a variable, and the goals that this leaves.
ghost use Rattle.std.specs.Prelude.{◌≡◌, ◌≢◌, Err, OnOk, OnErr};
ghost use Rattle.nts_model.specs.Terms.Trees.{is, arguments, any_term};
ghost use Rattle.nts_store.specs.Growth.{tree_at};
ghost use Rattle.nts_terms.specs.declared.handles.DefId.TheVariants as defs;
ghost use Rattle.nts_terms.specs.Handles.{alias_head};
ghost use Rattle.nts_terms.specs.Signatures.{AreDeclared};
ghost use Rattle.nts_unify.specs.Reading.{content_of};
ghost use Rattle.nts_table.specs.Tables.{IsTable, IsSide};
ghost use Rattle.nts_adding.specs.Rigid.{MayBecome, IsNewAlias, RefusesRigidly};
ghost use Rattle.nts_meaning.specs.Evaluation.{Runs};
ghost use Rattle.nts_adding.specs.Adding.{ArePosedIn};
ghost use Rattle.nts_nested_goals.specs.Related.{IsEnvOf, AddsRelatedRigidly, KeepsState};

use crate::adding::push_added;
use crate::state::EvalState;
use nts_adding::relate_rigid_alias;
use nts_model::Variance;
use nts_store::EvalError;
use nts_table::InferCtxt;
use nts_terms::{AliasTerm, Cx, ParamEnv, Term};

/// Relates an alias with a variable, and puts what stands for the goals that are left behind those of the state. After an error both
/// are as before.
pub fn relate_rigid_and_push(
    table: &mut InferCtxt,
    cx: &mut Cx,
    state: &mut EvalState,
    env: ParamEnv,
    alias: AliasTerm,
    variance: Variance,
    term: Term,
) -> Result<(), EvalError>
    requires table { IsTable cx.old.nodes table.old }
    requires before { ArePosedIn cx.old.nodes table.old state.old.nested_goals.items }
    requires env { IsEnvOf cx.old table.old env }
    requires alias { IsSide (is arguments) cx.old.nodes table.old alias.args.node }
    requires term { IsSide any_term cx.old.nodes table.old term.node }
    ensures runs { Runs cx.old cx.new table.old table.new }
    ensures declared { OnOk result (AreDeclared cx.old.declarations (defs.Alias alias.def_id)
        (tree_at cx.old.nodes alias.args.node)) }
    ensures was { OnOk result (MayBecome (content_of cx.old.nodes table.old.entries)
        (alias_head alias.def_id) (tree_at cx.old.nodes term.node)) }
    ensures is { OnOk result (IsNewAlias cx.old.declarations alias.def_id table.old.entries
        (content_of cx.new.nodes table.new.entries) (tree_at cx.old.nodes term.node)) }
    ensures related { OnOk result (AddsRelatedRigidly cx.old cx.new table.old table.new state.old
        state.new env variance alias term.node) }
    ensures posed { ArePosedIn cx.new.nodes table.new state.new.nested_goals.items }
    ensures no { result ≡ Err EvalError.NoSolution → RefusesRigidly cx.old.declarations
        cx.old.nodes table.old.entries alias term.node }
    ensures full { result ≢ Err EvalError.Full }
    ensures goals { OnErr result (state.new.nested_goals.items ≡ state.old.nested_goals.items) }
    ensures err { OnErr result (table.new ≡ table.old) }
    ensures kept { KeepsState state.old state.new }
{
    let span = state.span;
    let snapshot = table.start_snapshot()?;
    let added = relate_rigid_alias(table, cx, env, alias, variance, term, span);
    let pushed = push_added(state, added);
    table.commit_if_ok(snapshot, pushed)
}
