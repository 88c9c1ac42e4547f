//! The region constraints of a table, as a caller asks for them.
ghost use Rattle.std.specs.Prelude.{◌≡◌, ◌<◌, List, length, map, slice_get, Some, IfOk, OnOk, IsOkUnless};
ghost use Rattle.nts_store.specs.Growth.{Extends};
ghost use Rattle.nts_unify.specs.Reading.{content_of, recorded_of, IsConstraint, AreConstraints};
ghost use Rattle.nts_table.specs.Tables.{IsTable};
ghost use Rattle.nts_model.specs.Tables.Recording.{resolved_constraint, resolved_constraints, AreNews};
ghost use Rattle.nts_table.specs.Deduplicated.{said, SidesIn, AllSidesIn, TellsConstraint};
ghost use Rattle.nts_terms.specs.Rest.{Grows};

use crate::infer_ctxt::InferCtxt;
use crate::resolver::resolve_nodes;
use indexmap::IndexSet;
use nts_model::Relation;
use nts_store::{Fault, NodeId, Nodes};
use nts_terms::Cx;
use nts_unify::Constraint;

/// What a constraint says, whoever sees it.
#[derive(Clone, Copy, PartialEq, Eq, Hash)]
struct Said {
    relation: Relation,
    left: NodeId,
    right: NodeId,
}

impl InferCtxt {
    /// The recorded region constraints in their order, with values and roots for their variables. One
    /// whose sides are one is left out, and so is one that repeats an earlier one: whether the leak
    /// check sees it is as it was recorded first.
    pub fn make_deduplicated_region_constraints(
        &self,
        cx: &mut Cx,
    ) -> Result<Vec<Constraint>, Fault>
        requires table { IsTable cx.old.nodes self.now }
        ensures news { IfOk result (λ v. AreNews (resolved_constraints
            (content_of cx.old.nodes self.now.entries)) (map (recorded_of cx.new.nodes) v.items)) }
        ensures sides { IfOk result (λ v. AreConstraints cx.new.nodes
            (content_of cx.new.nodes self.now.entries) v.items) }
        ensures grows { Grows cx.old cx.new }
        ensures memory { IsOkUnless result Fault.Memory }
    {
        let mut told = Vec::new(cx.alloc);
        let mut seen = IndexSet::new(cx.alloc);
        for i in 0..self.constraint_count() {
            let constraint = self.resolved_constraint(cx, i)?;
            tell(&cx.nodes, &mut seen, &mut told, constraint)?;
        }
        Ok(told)
    }

    fn resolved_constraint(&self, cx: &mut Cx, i: usize) -> Result<Constraint, Fault>
        requires table { IsTable cx.old.nodes self.now }
        requires has { i < length self.now.entries.constraints }
        ensures resolved { IfOk result (λ r. (x : Constraint) →
            slice_get self.now.entries.constraints i ≡ Some x →
            recorded_of cx.new.nodes r ≡ resolved_constraint
            (content_of cx.old.nodes self.now.entries) (recorded_of cx.old.nodes x)) }
        ensures sides { IfOk result (λ r. IsConstraint cx.new.nodes
            (content_of cx.new.nodes self.now.entries) r) }
        ensures grows { Grows cx.old cx.new }
        ensures memory { IsOkUnless result Fault.Memory }
    {
        let constraint = self.constraint(i);
        let left = resolve_nodes(cx.alloc, &mut cx.nodes, self, constraint.left, true)?;
        let right = resolve_nodes(cx.alloc, &mut cx.nodes, self, constraint.right, true)?;
        Ok(Constraint {
            left,
            right,
            ..constraint
        })
    }
}

/// Adds a constraint to those told, if it says something new.
fn tell(
    nodes: &Nodes,
    seen: &mut IndexSet<Said>,
    told: &mut Vec<Constraint>,
    constraint: Constraint,
) -> Result<(), Fault>
    requires sides { SidesIn nodes.now constraint }
    requires told { AllSidesIn nodes.now told.old.items }
    requires seen { seen.old.keys ≡ map said told.old.items }
    ensures seen { OnOk result (seen.new.keys ≡ map said told.new.items) }
    ensures tells { OnOk result (TellsConstraint nodes.now told.old.items told.new.items
        constraint) }
    ensures memory { IsOkUnless result Fault.Memory }
{
    // Equal terms of one store have one number, so numbers tell whether two constraints are the same.
    nodes.terms_are_formed();
    let terms = nodes.len();
    prove!(constraint.left.number < terms);
    if nodes.same(constraint.left, constraint.right) {
        return Ok(());
    }
    let is_new = seen.insert(Said {
        relation: constraint.relation,
        left: constraint.left,
        right: constraint.right,
    })?;
    if is_new {
        told.push(constraint)?;
    }
    Ok(())
}
