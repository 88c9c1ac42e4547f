//! Each call of a table by itself. A test makes the store and the table, and hands them to a function
//! that calls and looks: what owns them is left at one place alone.
ghost use Rattle.nts_terms.specs.Handles.{HoldsTy};
ghost use Rattle.nts_table.specs.Frames.{ChangesEntries};
ghost use Rattle.nts_table.specs.Tables.{IsTable};

use crate::fixture::empty_knows;
use crate::steps::Step::{
    Counts, EquatesRegions, InUniverse, Joins, Let, OpenIn, Outlives, Root, RootNumber, StaysType,
    SubRoot, TooMany, TypeOutlives, Universe, Universes,
};
use crate::steps::{Step, plays};
use nts_fixtures::Make::Var;
use nts_model::{Sort, VariableKind};
use nts_store::Fault;
use nts_table::InferCtxt;
use nts_terms::VisibleForLeakCheck::{No, Yes};
use nts_terms::{Cx, InferTy, RegionKind, Span, Ty, TyKind, TypingMode};
use std::process::Abort;

#[test]
fn new_variables(rt: HostRuntime) {
    let mut cx = Cx::new(rt.alloc());
    let mut table = InferCtxt::new(rt.alloc(), TypingMode::PostAnalysis);
    see_variables(&rt, &mut cx, &mut table);
}

fn see_variables(rt: &impl Abort, cx: &mut Cx, table: &mut InferCtxt)
    requires { IsTable cx.old.nodes table.old }
{
    let ty = see_first_two(rt, cx, table);
    see_fresh_like(rt, cx, table, ty);
    see_fresh_args(rt, cx, table);
    assert!(rt; table.variable_count() == 6);
}

/// A type variable and a region variable. The first one is answered.
fn see_first_two(rt: &impl Abort, cx: &mut Cx, table: &mut InferCtxt) -> Ty
    requires { IsTable cx.old.nodes table.old }
    ensures table { IsTable cx.new.nodes table.new }
    ensures ty { HoldsTy cx.new.nodes result }
{
    let ty = table.next_ty_infer(cx).expect(rt, "memory");
    let region = table.next_region_infer(cx).expect(rt, "memory");
    assert!(rt; matches!(ty.kind(cx), TyKind::Infer(InferTy::TyVar(0))));
    assert!(rt; matches!(region.kind(cx), RegionKind::ReVar(1)));
    ty
}

/// Two arguments, which a table without variables does not know.
fn see_fresh_args(rt: &impl Abort, cx: &mut Cx, table: &mut InferCtxt)
    requires { IsTable cx.old.nodes table.old }
{
    let args = table
        .fresh_args_for_item(cx, &[Sort::Ty, Sort::Region])
        .expect(rt, "memory");
    assert!(rt; args.len(cx) == 2);
    assert!(rt; table.knows(cx, args).expect(rt, "memory"));
    assert!(rt; !empty_knows(cx, args).expect(rt, "memory"));
}

/// A variable of a const, and one of the kind of a type.
fn see_fresh_like(rt: &impl Abort, cx: &mut Cx, table: &mut InferCtxt, ty: Ty)
    requires table { IsTable cx.old.nodes table.old }
    requires ty { HoldsTy cx.old.nodes ty }
    ensures { IsTable cx.new.nodes table.new }
{
    let like = table
        .fresh_var_for_kind_with_span(cx, ty.into(), Span(0))
        .expect(rt, "memory");
    assert!(rt; !table.is_changed_arg(cx, like));
    let nodes = table.fresh_nodes(cx, &[Sort::Const]);
    assert!(rt; nodes.expect(rt, "memory").len() == 1);
}

/// The universes of two variables, with a new universe between them, and then many universes at once, up to
/// the last one.
#[test]
fn universes(rt: HostRuntime) {
    const STEPS: &[Step] = &[
        Let("ty", Var(VariableKind::Ty)),
        Universe,
        InUniverse(1),
        Let("region", Var(VariableKind::Region)),
        Counts(2, 0),
        OpenIn(VariableKind::Ty, 0, 0),
        OpenIn(VariableKind::Region, 1, 1),
        RootNumber(VariableKind::Ty, 0, 0),
        Universes(3),
        InUniverse(4),
        Universes(0),
        InUniverse(4),
        TooMany(u32::MAX - 3),
        InUniverse(4),
        Universes(u32::MAX - 4),
        InUniverse(u32::MAX),
    ];
    plays(&rt, rt.alloc(), STEPS);
}

#[test]
fn sub_unification(rt: HostRuntime) {
    const STEPS: &[Step] = &[
        Let("low", Var(VariableKind::Ty)),
        Let("high", Var(VariableKind::Ty)),
        Joins(0, 1),
        SubRoot(1, 0),
    ];
    plays(&rt, rt.alloc(), STEPS);
}

#[test]
fn resolving(rt: HostRuntime) {
    const STEPS: &[Step] = &[
        Let("ty", Var(VariableKind::Ty)),
        Let("region", Var(VariableKind::Region)),
        StaysType("ty"),
        Root(VariableKind::Ty, 0, "ty"),
        Root(VariableKind::Region, 1, "region"),
    ];
    plays(&rt, rt.alloc(), STEPS);
}

/// What outlives itself is not recorded. Two regions are made equal, and a type outlives them.
#[test]
fn constraints(rt: HostRuntime) {
    const STEPS: &[Step] = &[
        Let("ty", Var(VariableKind::Ty)),
        Let("a", Var(VariableKind::Region)),
        Let("b", Var(VariableKind::Region)),
        Outlives("a", "a", Yes),
        Counts(3, 0),
        Outlives("b", "a", No),
        EquatesRegions("a", "b", No),
        Counts(3, 1),
        RootNumber(VariableKind::Region, 2, 1),
        TypeOutlives("ty", "b"),
        Counts(3, 2),
    ];
    plays(&rt, rt.alloc(), STEPS);
}

#[test]
fn probing(rt: HostRuntime) {
    let mut table = InferCtxt::new(rt.alloc(), TypingMode::PostAnalysis);
    let moved = table
        .probe(
            |inner: &mut InferCtxt| -> Result<u32, Fault>
                ensures changes { ChangesEntries inner.old inner.new }
            { inner.create_next_universe() },
        )
        .expect(&rt, "memory");
    assert!(rt; moved.expect(&rt, "no universe") == 1 && table.universe() == 0);
}
