//! Goals that bind variables.
ghost use Rattle.std.specs.Prelude.{◌≡◌, ◌+◌, IfOk, OnOk, IfSome, IsNone, IsOkUnless, Err};
ghost use Rattle.nts_model.specs.Terms.Trees.{IsClosedUnder};
ghost use Rattle.nts_model.specs.Tables.Resolving.{Knows};
ghost use Rattle.nts_model.specs.Derivations.Related.{unbound};
ghost use Rattle.nts_model.specs.Derivations.Rules.{opened};
ghost use Rattle.nts_model.specs.Refutation.Opening.{placeholder_in};
ghost use Rattle.nts_store.specs.Growth.{tree_at};
ghost use Rattle.nts_terms.specs.Handles.{Holds, HoldsPredicate};
ghost use Rattle.nts_terms.specs.Rest.{Grows};
ghost use Rattle.nts_unify.specs.Entries.{moved};
ghost use Rattle.nts_unify.specs.Reading.{content_of};
ghost use Rattle.nts_table.specs.Tables.{IsTable, IsTermIn};
ghost use Rattle.nts_meaning.specs.Evaluation.{Goes, IsPosed};
ghost use Rattle.nts_trying.specs.Opening.{a_statement, IsOpenedTo, CannotOpen};

use nts_model::{Label, ListHead};
use nts_placeholder::BoundVarReplacer;
use nts_store::{Fault, NodeId};
use nts_table::InferCtxt;
use nts_terms::{Cx, Goal, Predicate, Stored};

/// What a predicate states, behind its binder.
#[derive(Clone, Copy)]
struct Statement {
    node: NodeId,
}

impl Stored for Statement {
    ghost place = { a_statement };

    ghost id = { λ s. s.node };

    fn node(self) -> NodeId {
        self.node
    }

    fn from_node(node: NodeId) -> Statement {
        Statement { node }
    }

    fn may_have(label: Label) -> bool {
        matches!(label, Label::Clause(_) | Label::Predicate(_))
    }
}

/// A goal with placeholders of a new universe in place of the variables that it binds; one that binds nothing as it is. `None`
/// where a variable escapes from it: the table is as before. After an error the table may be of a new universe, and is else as
/// before.
#[inline(never)]
pub fn enter_forall(table: &mut InferCtxt, cx: &mut Cx, goal: Goal) -> Result<Option<Goal>, Fault>
    requires posed { IsPosed cx.old.nodes table.old goal }
    ensures grows { Grows cx.old cx.new }
    ensures goes { Goes cx.old.nodes cx.new.nodes table.old table.new }
    ensures posed { IfOk result (λ o. IfSome o (IsPosed cx.new.nodes table.new)) }
    ensures opened { IfOk result (λ o. IfSome o (IsOpenedTo cx.old.nodes cx.new.nodes table.old
        table.new goal)) }
    ensures left { IfOk result (λ o. IsNone o → table.new ≡ table.old) }
    ensures unopened { IfOk result (λ o. IsNone o → CannotOpen (tree_at cx.old.nodes
        goal.predicate.node)) }
    ensures full { result ≡ Err Fault.Full → table.old.entries.universe ≡ u32.MAX }
{
    cx.terms_are_formed();
    let predicate = goal.predicate.kind(cx);
    if predicate.vars.len(cx) == 0 {
        return Ok(Some(goal));
    }
    // A goal of which a variable escapes is answered nowhere.
    if cx.nodes.flags(goal.predicate.node).escaping.is_some() {
        return Ok(None);
    }
    let statement = Statement {
        node: cx.nodes.child(goal.predicate.node, 1),
    };
    let statement = open_statement(table, cx, statement)?;
    let opened = without_binder(table, cx, statement)?;
    cx.terms_are_formed();
    Ok(Some(Goal {
        param_env: goal.param_env,
        predicate: opened,
    }))
}

/// The predicate that binds nothing and states this.
fn without_binder(table: &InferCtxt, cx: &mut Cx, statement: Statement) -> Result<Predicate, Fault>
    requires table { IsTable cx.old.nodes table.now }
    requires holds { Holds a_statement cx.old.nodes statement.node }
    requires knows { Knows (content_of cx.old.nodes table.now.entries) (tree_at cx.old.nodes
        statement.node) }
    requires closed { IsClosedUnder 0 (tree_at cx.old.nodes statement.node) }
    ensures grows { Grows cx.old cx.new }
    ensures tree { IfOk result (λ p. tree_at cx.new.nodes p.node ≡ unbound (tree_at cx.old.nodes
        statement.node)) }
    ensures holds { IfOk result (HoldsPredicate cx.new.nodes) }
    ensures knows { IfOk result (λ p. Knows (content_of cx.new.nodes table.now.entries) (tree_at
        cx.new.nodes p.node)) }
    ensures memory { IsOkUnless result Fault.Memory }
{
    let vars = cx.mk_bound_vars(&[])?;
    let children = [vars.node, statement.node];
    let node = cx.nodes.make(Label::List(ListHead::Binder), &children)?;
    Ok(Predicate { node })
}

/// What a predicate states with placeholders of a new universe in place of the variables of the binder around it.
fn open_statement(
    table: &mut InferCtxt,
    cx: &mut Cx,
    statement: Statement,
) -> Result<Statement, Fault>
    requires table { IsTable cx.old.nodes table.old }
    requires holds { Holds a_statement cx.old.nodes statement.node }
    requires levels { IsClosedUnder 1 (tree_at cx.old.nodes statement.node) }
    requires knows { Knows (content_of cx.old.nodes table.old.entries) (tree_at cx.old.nodes
        statement.node) }
    ensures grows { Grows cx.old cx.new }
    ensures goes { Goes cx.old.nodes cx.new.nodes table.old table.new }
    ensures entries { OnOk result (table.new.entries ≡ moved table.old.entries
        (table.old.entries.universe + 1)) }
    ensures tree { IfOk result (λ r. tree_at cx.new.nodes r.node ≡ opened (placeholder_in
        (table.old.entries.universe + 1)) 0 (tree_at cx.old.nodes statement.node)) }
    ensures holds { IfOk result (λ r. Holds a_statement cx.new.nodes r.node) }
    ensures knows { IfOk result (λ r. Knows (content_of cx.new.nodes table.new.entries) (tree_at
        cx.new.nodes r.node)) }
    ensures full { result ≡ Err Fault.Full → table.old.entries.universe ≡ u32.MAX }
{
    cx.terms_are_formed();
    let universe = table.create_next_universe()?;
    let mut universes = Vec::new(cx.alloc);
    universes.push(Some(universe))?;
    let (opened, _) = BoundVarReplacer::replace_bound_vars(table, cx, &mut universes, statement)?;
    Ok(opened)
}
