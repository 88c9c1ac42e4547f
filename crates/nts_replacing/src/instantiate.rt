//! Values in place of the bound variables of a canonical value.
ghost use Rattle.std.specs.Prelude.{◌≡◌, List, map, IfOk, refl};
ghost use Rattle.nts_store.specs.nts_model.specs.Terms.Trees.{Tree};
ghost use Rattle.nts_store.specs.Growth.{tree_at, IsIn, AllIn, Extends};
ghost use Rattle.nts_store.specs.Kept.{AllIn-kept, map-kept};
ghost use Rattle.nts_store.specs.Filled.{HasValues, kind_of-filled};
ghost use Rattle.nts_store.specs.nts_model.specs.Terms.Substitutions.{filled};

use crate::replacement::{Replacer, Step, replace};
use nts_store::nts_model::{BoundVarIndexKind, Label};
use nts_store::{NodeId, Nodes};
use std::alloc::{AllocError, Global};

#[derive(Drop)]
struct Filler<'a> {
    values: &'a [NodeId],
}

impl Replacer for Filler<'_> {
    ghost Meaning = { List Tree };

    ghost meaning = { λ ts s. map (tree_at ts) s.values.now };

    ghost ready = { λ ts s. AllIn ts s.values.now };

    ghost covers = { HasValues };

    ghost image = { filled };

    ghost ready_kept = { λ a b s h e. AllIn-kept a b s.values.now h e };

    ghost meaning_kept = { λ a b s h e. map-kept a b s.values.now h e };

    ghost image_empty = { λ m. refl };

    ghost image_more = { λ m a b. refl };

    ghost covers_more = { λ m a b h. h };

    ghost kind_kept = { kind_of-filled };

    fn step(&self, nodes: &mut Nodes, t: NodeId) -> Result<Step, AllocError> {
        // Most terms hold no such variable, and are left alone without a walk.
        if !nodes.flags(t).has_canonical {
            return Ok(Step::Done(t));
        }
        let Label::Bound(_, BoundVarIndexKind::Canonical, position) = nodes.label(t) else {
            return Ok(Step::Down(t));
        };
        Ok(Step::Done(self.values[position]))
    }
}

/// The term with the values in place of the bound variables that name positions among them.
pub fn instantiate_canonical(
    alloc: Global,
    nodes: &mut Nodes,
    values: &[NodeId],
    t: NodeId,
) -> Result<NodeId, AllocError>
    requires within { IsIn nodes.old t }
    requires values { AllIn nodes.old values.now }
    requires positions { HasValues (map (tree_at nodes.old) values.now) (tree_at nodes.old t) }
    ensures extends { Extends nodes.old nodes.new }
    ensures within { IfOk result (IsIn nodes.new) }
    ensures tree { IfOk result (λ r. tree_at nodes.new r ≡ filled
        (map (tree_at nodes.old) values.now) (tree_at nodes.old t)) }
{
    // Most terms hold no such variable, and then nothing is allocated for a walk.
    if !nodes.flags(t).has_canonical {
        return Ok(t);
    }
    replace(alloc, nodes, &Filler { values }, t)
}
