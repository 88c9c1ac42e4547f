//! Goals that say of a type or a region that it outlives a region.
ghost use Rattle.std.specs.Prelude.{◌≡◌, ◌↔◌, IsTrue, All, IfOk, IfSome, IsNone, OnOk, IsOkUnless, List};
ghost use Rattle.nts_model.specs.Terms.Trees.{Tree};
ghost use Rattle.nts_store.specs.Growth.{tree_at};
ghost use Rattle.nts_terms.specs.Kinds.{StatementFits, tree_of_statement};
ghost use Rattle.nts_terms.specs.Handles.{HoldsGoal, HoldsEnv};
ghost use Rattle.nts_terms.specs.Rest.{Grows};
ghost use Rattle.nts_canonical.specs.Building.{IsArgOf};
ghost use Rattle.nts_canonical.specs.Forms.{trees_of};
ghost use Rattle.nts_unify.specs.Reading.{content_of};
ghost use Rattle.nts_model.specs.Derivations.Related.{Constraint};
ghost use Rattle.nts_theory.specs.Outliving.{SaysOutlives};
ghost use Rattle.nts_theory.specs.Telling.{SaysRecorded};
ghost use Rattle.nts_meaning.specs.Answering.{verdict_at};
ghost use Rattle.nts_meaning.specs.Evaluation.{IsPosed};
ghost use Rattle.nts_trying.specs.Found.{Found};
ghost use Rattle.nts_trying.specs.Outliving.{AreSidesIn, IsClosedEnv, SaysWhatOutlives, IsOutlivesGoal, constraint_at, HoldsIn};

use crate::candidate::record_outlives;
use crate::kinds::statements_are_closed;
use nts_certainty::Certainty;
use nts_meaning::boxed_response;
use nts_model::Relation;
use nts_response::CanonicalResponse;
use nts_store::{Fault, NodeId};
use nts_table::InferCtxt;
use nts_terms::{ClauseKind, Cx, GenericArg, Goal, ParamEnv, PredicateKind};

/// Two terms, of which the left one is said to outlive the right one, a region.
#[derive(Clone, Copy)]
pub struct Outlives {
    pub relation: Relation,
    pub left: NodeId,
    pub right: NodeId,
}

/// What a statement says that outlives what.
fn outlives_of(statement: PredicateKind) -> Option<Outlives>
    ensures found { IfSome result (λ o. (ts : List Tree) → SaysOutlives (constraint_at ts o)
        (tree_of_statement ts statement)) }
    ensures none { IsNone result → (ts : List Tree) (x : Constraint) → SaysOutlives x
        (tree_of_statement ts statement) → ⊥ }
    ensures sides { IfSome result (λ o. (ts : List Tree) → StatementFits ts statement →
        AreSidesIn ts o) }
{
    let PredicateKind::Clause(clause) = statement else {
        return None;
    };
    match clause {
        ClauseKind::TypeOutlives(left, right) => Some(Outlives {
            relation: Relation::TypeOutlives,
            left: left.node,
            right: right.node,
        }),
        ClauseKind::RegionOutlives(left, right) => Some(Outlives {
            relation: Relation::RegionOutlives,
            left: left.node,
            right: right.node,
        }),
        _ => None,
    }
}

/// Whether no bound variable of an environment is without its binder.
pub(crate) fn is_closed_env(cx: &Cx, env: ParamEnv) -> bool
    requires { HoldsEnv cx.now.nodes env }
    ensures { IsTrue result ↔ IsClosedEnv (tree_at cx.now.nodes env.node) }
{
    if cx.nodes.flags(env.node).escaping.is_some() {
        return false;
    }
    statements_are_closed(cx, env)
}

/// What a goal says that outlives what, where it binds nothing and has no alias, and neither it nor its environment has a bound
/// variable that is without its binder.
#[inline(never)]
pub fn outlives_in(cx: &Cx, goal: Goal) -> Option<Outlives>
    requires { HoldsGoal cx.now.nodes goal }
    ensures { SaysWhatOutlives cx.now.nodes goal result }
{
    let predicate = goal.predicate.kind(cx);
    let outlives = outlives_of(predicate.value)?;
    if predicate.vars.len(cx) != 0 {
        return None;
    }
    let says = cx.nodes.flags(goal.predicate.node);
    if says.has_alias {
        return None;
    }
    if cx.nodes.flags(outlives.left).escaping.is_some() {
        return None;
    }
    if cx.nodes.flags(outlives.right).escaping.is_some() {
        return None;
    }
    if !is_closed_env(cx, goal.param_env) {
        return None;
    }
    cx.terms_are_formed();
    Some(outlives)
}

/// Records what a goal says that outlives what, and answers yes with all that the table knows then.
#[inline(never)]
pub fn answer_outlives(
    table: &mut InferCtxt,
    cx: &mut Cx,
    goal: Goal,
    outlives: Outlives,
    values: &[GenericArg],
) -> Result<Box<CanonicalResponse>, Fault>
    requires posed { IsPosed cx.old.nodes table.old goal }
    requires outlives { IsOutlivesGoal cx.old.nodes goal outlives }
    requires values { All (IsArgOf cx.old.nodes table.old.entries) values.now }
    ensures grows { Grows cx.old cx.new }
    ensures found { IfOk result (λ r. Found (HoldsIn (constraint_at cx.old.nodes outlives))
        cx.old.nodes cx.new.nodes table.old goal values.now r.value) }
    ensures told { IfOk result (λ r. SaysRecorded (constraint_at cx.old.nodes outlives)
        (content_of cx.old.nodes table.old.entries) (tree_at cx.old.nodes goal.param_env.node)
        (tree_at cx.old.nodes goal.predicate.node) (trees_of cx.old.nodes values.now)
        (verdict_at cx.new.nodes r.value)) }
    ensures memory { IsOkUnless result Fault.Memory }
{
    cx.terms_are_formed();
    record_outlives(table, cx, outlives.relation, outlives.left, outlives.right)?;
    let response = boxed_response(table, cx, values, Certainty::Yes)?;
    Ok(response)
}
