//! A term that is nested very deep, and that shares very much.
ghost use Rattle.std.specs.Prelude.{◌≡◌, Some, IfOk};
ghost use Rattle.nts_model.specs.declared.labels.Sort.TheVariants as sort;
ghost use Rattle.nts_model.specs.declared.labels.TyHead.TheVariants as ty;
ghost use Rattle.nts_model.specs.declared.labels.ListHead.TheVariants as list;
ghost use Rattle.nts_model.specs.declared.labels.Label.TheVariants as label;
ghost use Rattle.nts_model.specs.Terms.Trees.{empty, more, node, of_sort, kind_of};
ghost use Rattle.nts_store.specs.Growth.{tree_at, IsIn, Extends};

use nts_model::{BoundVarIndexKind, IntTy, Label, ListHead, Sort, TyHead};
use nts_replacing::instantiate_canonical;
use nts_store::{NodeId, Nodes};
use std::alloc::{AllocError, Global};
use std::process::Abort;

fn doubled(nodes: &mut Nodes, inner: NodeId) -> Result<NodeId, AllocError>
    requires within { IsIn nodes.old inner }
    requires kind { kind_of (tree_at nodes.old inner) ≡ Some (of_sort sort.Ty) }
    ensures extends { Extends nodes.old nodes.new }
    ensures within { IfOk result (IsIn nodes.new) }
    ensures tree { IfOk result (λ r. tree_at nodes.new r ≡ node (label.Ty (ty.Ctor 1))
        (more (node (label.List list.Args)
        (more (tree_at nodes.old inner) (more (tree_at nodes.old inner) empty))) empty)) }
{
    let arguments = nodes.make(Label::List(ListHead::Args), &[inner, inner])?;
    nodes.make(Label::Ty(TyHead::Ctor(1)), &[arguments])
}

/// The tree is 100,000 levels deep and has the variable 2^100,000 times, and the store has each of its nodes once.
#[test]
fn replaces_what_is_deep_and_shared(rt: HostRuntime) {
    let mut nodes = Nodes::new(rt.alloc());
    see_the_bottom(&rt, rt.alloc(), &mut nodes);
}

fn see_the_bottom(rt: &impl Abort, alloc: Global, nodes: &mut Nodes) {
    let value = nodes
        .make(Label::Ty(TyHead::Int(IntTy::I32)), &[])
        .expect(rt, "memory");
    let mut deep = nodes
        .make(Label::Bound(Sort::Ty, BoundVarIndexKind::Canonical, 0), &[])
        .expect(rt, "memory");
    let mut expected = value;
    for _ in 0..100_000u32 {
        deep = doubled(nodes, deep).expect(rt, "memory");
        expected = doubled(nodes, expected).expect(rt, "memory");
    }
    let filled = instantiate_canonical(alloc, nodes, &[value], deep).expect(rt, "memory");
    assert_eq!(rt; filled.number, expected.number);
    assert!(rt; filled.number != deep.number);
}
