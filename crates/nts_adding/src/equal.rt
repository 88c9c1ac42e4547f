//! An alias that is to be equal to a new variable.
ghost use Rattle.std.specs.Prelude.{◌≡◌, ◌≢◌, All, Err, IfOk};
ghost use Rattle.nts_model.specs.Terms.Trees.{any_term, kind_of};
ghost use Rattle.nts_model.specs.Tables.Resolving.{Knows};
ghost use Rattle.nts_model.specs.Derivations.Related.{IsAlias};
ghost use Rattle.nts_store.specs.Growth.{tree_at};
ghost use Rattle.nts_terms.specs.Handles.{HoldsEnv};
ghost use Rattle.nts_unify.specs.Reading.{content_of};
ghost use Rattle.nts_table.specs.Tables.{IsTable, IsSide};
ghost use Rattle.nts_meaning.specs.Evaluation.{Runs, IsPosed};
ghost use Rattle.nts_adding.specs.Equal.{IsEqualToNew};

use nts_model::Variance;
use nts_solver_relating::goals_of;
use nts_store::EvalError;
use nts_table::InferCtxt;
use nts_terms::{Cx, Goal, ParamEnv, Span, Term};
use nts_variance::Relating;

/// A new variable of the kind of an alias, and the goal that the two are equal: a list of one.
///
/// It is `Memory` where a growth was refused; then the variable may be left in the table, and nothing else.
pub fn equal_to_new(
    table: &mut InferCtxt,
    cx: &mut Cx,
    env: ParamEnv,
    alias: Term,
) -> Result<(Term, Vec<Goal>), EvalError>
    requires table { IsTable cx.old.nodes table.old }
    requires env { HoldsEnv cx.old.nodes env }
    requires known { Knows (content_of cx.old.nodes table.old.entries)
        (tree_at cx.old.nodes env.node) }
    requires alias { IsSide any_term cx.old.nodes table.old alias.node }
    requires is { IsAlias (tree_at cx.old.nodes alias.node) }
    ensures runs { Runs cx.old cx.new table.old table.new }
    ensures equal { IfOk result (λ r. IsEqualToNew cx.old.nodes cx.new.nodes table.old.entries
        table.new.entries env alias.node r.0.node r.1.items) }
    ensures side { IfOk result (λ r. IsSide any_term cx.new.nodes table.new r.0.node) }
    ensures kind { IfOk result (λ r. kind_of (tree_at cx.new.nodes r.0.node)
        ≡ kind_of (tree_at cx.old.nodes alias.node)) }
    ensures posed { IfOk result (λ r. All (IsPosed cx.new.nodes table.new) r.1.items) }
    ensures no { result ≢ Err EvalError.NoSolution }
    ensures full { result ≢ Err EvalError.Full }
{
    let variable = table.fresh_var_for_kind_with_span(cx, alias.into(), Span(0))?;
    let pairs = [Relating {
        variance: Variance::Invariant,
        left: alias.node,
        right: variable.node,
    }];
    let goals = goals_of(cx.alloc, &mut cx.nodes, env, &pairs)?;
    let term = Term {
        node: variable.node,
    };
    Ok((term, goals))
}
