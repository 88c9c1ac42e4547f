//! Terms as a table knows them.
ghost use Rattle.std.specs.Prelude.{◌≡◌, true, IfOk, IsOkUnless};
ghost use Rattle.nts_model.specs.Terms.Trees.{kind_of};
ghost use Rattle.nts_store.specs.Growth.{tree_at, IsIn};
ghost use Rattle.nts_unify.specs.Reading.{content_of};
ghost use Rattle.nts_table.specs.Tables.{IsTable};
ghost use Rattle.nts_table.specs.Resolution.{IsResolved};
ghost use Rattle.nts_model.specs.Tables.Resolving.{deeply_resolved};
ghost use Rattle.nts_meaning.specs.Evaluation.{IsPosed};
ghost use Rattle.nts_table.specs.Tables.{IsTermIn};
ghost use Rattle.nts_terms.specs.Rest.{Grows};

use nts_store::{Fault, NodeId};
use nts_table::{InferCtxt, resolve_nodes};
use nts_terms::{Cx, Goal, ParamEnv, Predicate};

/// Whether a term is its own value, whatever a table knows.
fn has_no_variable(cx: &Cx, t: NodeId) -> bool
    requires { IsIn cx.now.nodes t }
    ensures { result ≡ true → IsResolved true (tree_at cx.now.nodes t) }
{
    let flags = cx.nodes.flags(t);
    !flags.has_infer && !flags.has_region_infer
}

/// A term with all its variables replaced by values and roots.
pub fn resolve_term(table: &InferCtxt, cx: &mut Cx, t: NodeId) -> Result<NodeId, Fault>
    requires table { IsTable cx.old.nodes table.now }
    requires term { IsTermIn cx.old.nodes table.now t }
    ensures grows { Grows cx.old cx.new }
    ensures term { IfOk result (λ r. IsTermIn cx.new.nodes table.now r) }
    ensures kind { IfOk result (λ r. kind_of (tree_at cx.new.nodes r) ≡ kind_of
        (tree_at cx.old.nodes t)) }
    ensures tree { IfOk result (λ r. tree_at cx.new.nodes r ≡ deeply_resolved
        (content_of cx.old.nodes table.now.entries) (tree_at cx.old.nodes t)) }
    ensures memory { IsOkUnless result Fault.Memory }
{
    // Most terms have no variable, and need no walk.
    if has_no_variable(cx, t) {
        return Ok(t);
    }
    let alloc = cx.alloc;
    let resolved = resolve_nodes(alloc, &mut cx.nodes, table, t, true)?;
    Ok(resolved)
}

/// A goal with all its variables replaced by values and roots.
pub fn resolve_goal(table: &InferCtxt, cx: &mut Cx, goal: Goal) -> Result<Goal, Fault>
    requires { IsPosed cx.old.nodes table.now goal }
    ensures grows { Grows cx.old cx.new }
    ensures posed { IfOk result (λ g. IsPosed cx.new.nodes table.now g) }
    ensures env { IfOk result (λ g. tree_at cx.new.nodes g.param_env.node ≡ deeply_resolved
        (content_of cx.old.nodes table.now.entries) (tree_at cx.old.nodes goal.param_env.node)) }
    ensures predicate { IfOk result (λ g. tree_at cx.new.nodes g.predicate.node ≡ deeply_resolved
        (content_of cx.old.nodes table.now.entries) (tree_at cx.old.nodes goal.predicate.node)) }
    ensures memory { IsOkUnless result Fault.Memory }
{
    let env = resolve_term(table, cx, goal.param_env.node)?;
    let predicate = resolve_term(table, cx, goal.predicate.node)?;
    Ok(Goal {
        param_env: ParamEnv { node: env },
        predicate: Predicate { node: predicate },
    })
}
