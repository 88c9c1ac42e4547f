//! What types a const may be declared with.
ghost use Rattle.std.specs.Prelude.{◌↔◌, IfOk, IsOkUnless, IsTrue};
ghost use Rattle.nts_store.specs.Growth.{tree_at};
ghost use Rattle.nts_terms.specs.Handles.{HoldsTy};
ghost use Rattle.nts_terms.specs.ConstTypes.{IsConstType, MayStandInConst};

use crate::cx::Cx;
use crate::handles::Ty;
use nts_model::{BoundVarIndexKind, FreeRegion, Label, Leaf, Sort};
use nts_store::{Fault, LabelTest, all_labels};

#[derive(Drop)]
struct OfArguments<'a> {
    sorts: &'a [Sort],
}

impl LabelTest for OfArguments<'_> {
    ghost passes = { λ s l. MayStandInConst s.sorts.now l };

    fn test(&self, label: Label) -> bool {
        match label {
            Label::Leaf(Leaf::Region(FreeRegion::Static)) => true,
            Label::Leaf(Leaf::Region(FreeRegion::Erased)) => true,
            Label::Leaf(Leaf::Region(FreeRegion::Error)) => true,
            Label::Leaf(_) => false,
            Label::Bound(sort, BoundVarIndexKind::Canonical, i) => match self.sorts.get(i) {
                Some(its_sort) => *its_sort == sort,
                None => false,
            },
            _ => true,
        }
    }
}

impl Cx {
    /// Whether a const with arguments of these sorts may be declared with that type.
    pub fn is_const_type(&self, sorts: &[Sort], ty: Ty) -> Result<bool, Fault>
        requires { HoldsTy self.now.nodes ty }
        ensures is { IfOk result (λ b. IsTrue b ↔ IsConstType sorts.now
            (tree_at self.now.nodes ty.node)) }
        ensures memory { IsOkUnless result Fault.Memory }
    {
        if self.nodes.flags(ty.node).escaping.is_some() {
            return Ok(false);
        }
        let test = OfArguments { sorts };
        Ok(all_labels(self.alloc, &self.nodes, ty.node, &test)?)
    }
}
