//! Calls of the table that the other tests do not make.
ghost use Rattle.std.specs.Prelude.{◌≡◌, length};
ghost use Rattle.nts_table.specs.Tables.{IsTable};

use crate::fixture::uint;
use crate::steps::Step::{
    Changed, EquatesRegions, Known, Let, Outlives, Relates, RelatesTypes, Resolves, Tells,
};
use crate::steps::{Step, plays};
use nts_equating::relate_nodes;
use nts_fixtures::Make::{Region, Var};
use nts_fixtures::{BYTE, Fixture};
use nts_model::{UintTy, VariableKind};
use nts_solver_relating::RelateExt;
use nts_store::EvalError;
use nts_table::InferCtxt;
use nts_terms::RegionKind::ReStatic;
use nts_terms::VisibleForLeakCheck::{No, Yes};
use nts_terms::{AliasDefId, AliasKind, AliasTerm, Span, TraitId, TraitRef, TypingMode};
use std::process::Abort;

#[test]
fn related(rt: HostRuntime) {
    const STEPS: &[Step] = &[
        Let("ty", Var(VariableKind::Ty)),
        Let("byte", BYTE),
        RelatesTypes("ty", "byte"),
        Known(0, 0, "byte"),
    ];
    plays(&rt, rt.alloc(), STEPS);
}

#[test]
fn read_back(rt: HostRuntime) {
    const STEPS: &[Step] = &[
        Let("ty", Var(VariableKind::Ty)),
        Let("byte", BYTE),
        Changed("ty", false),
        Relates("ty", "byte"),
        Changed("ty", true),
        Resolves("ty", "byte"),
    ];
    plays(&rt, rt.alloc(), STEPS);
}

#[test]
fn refused(rt: HostRuntime) {
    let mut fixture = Fixture::new(rt.alloc()).expect(&rt, "memory");
    equate_nodes(&mut fixture).expect(&rt, "memory");
    let apart = equate_two(&mut fixture);
    assert!(rt; apart == Err(EvalError::NoSolution));
}

/// Makes a type one with itself, by its node.
fn equate_nodes(fixture: &mut Fixture) -> Result<(), EvalError>
    requires { IsTable fixture.old.cx.nodes fixture.old.table }
    ensures { IsTable fixture.new.cx.nodes fixture.new.table }
{
    let byte = uint(fixture, UintTy::U8)?;
    fixture.seen(byte)?;
    let alloc = fixture.cx.alloc;
    let (nodes, table) = (&mut fixture.cx.nodes, &mut fixture.table);
    relate_nodes(alloc, nodes, table, byte.node, byte.node)
}

/// Makes two types of integers one.
fn equate_two(fixture: &mut Fixture) -> Result<(), EvalError>
    requires { IsTable fixture.old.cx.nodes fixture.old.table }
{
    let byte = uint(fixture, UintTy::U8)?;
    let word = uint(fixture, UintTy::U32)?;
    if fixture.seen(byte).is_err() || fixture.seen(word).is_err() {
        return Err(EvalError::Full);
    }
    let (cx, table) = (&mut fixture.cx, &mut fixture.table);
    table.eq_structurally_relating_aliases(cx, fixture.env, byte, word, Span(0))
}

#[test]
fn heads_of_traits(rt: HostRuntime) {
    let mut fixture = Fixture::new(rt.alloc()).expect(&rt, "memory");
    see_traits(&rt, &mut fixture).expect(&rt, "memory");
}

fn see_traits(rt: &impl Abort, fixture: &mut Fixture) -> Result<(), EvalError>
    requires { IsTable fixture.old.cx.nodes fixture.old.table }
{
    let clone = fixture.cx.declare_trait(&[])?;
    let copy = fixture.cx.declare_trait(&[])?;
    equate_traits(fixture, clone, clone)?;
    let apart = equate_traits(fixture, clone, copy);
    assert!(rt; matches!(apart, Err(EvalError::NoSolution)));
    Ok(())
}

/// Makes two traits without arguments one.
fn equate_traits(fixture: &mut Fixture, x: TraitId, y: TraitId) -> Result<(), EvalError>
    requires { IsTable fixture.old.cx.nodes fixture.old.table }
    ensures { IsTable fixture.new.cx.nodes fixture.new.table }
{
    let args = fixture.args(&[])?;
    fixture.seen(args)?;
    let (cx, table) = (&mut fixture.cx, &mut fixture.table);
    let x = TraitRef { def_id: x, args };
    let y = TraitRef { def_id: y, args };
    table.eq_structurally_relating_aliases(cx, fixture.env, x, y, Span(0))
}

#[test]
fn heads_of_aliases(rt: HostRuntime) {
    let mut fixture = Fixture::new(rt.alloc()).expect(&rt, "memory");
    equate_alias(&mut fixture).expect(&rt, "memory");
}

/// Makes an alias without arguments one with itself.
fn equate_alias(fixture: &mut Fixture) -> Result<(), EvalError>
    requires { IsTable fixture.old.cx.nodes fixture.old.table }
{
    let item = fixture.declare_alias(&[], AliasKind::Projection)?;
    let def_id = AliasDefId::Ty(item);
    let args = fixture.args(&[])?;
    fixture.seen(args)?;
    let alias = AliasTerm { def_id, args };
    let (cx, table) = (&mut fixture.cx, &mut fixture.table);
    table.eq_structurally_relating_aliases(cx, fixture.env, alias, alias, Span(0))
}

#[test]
fn each_constraint_once(rt: HostRuntime) {
    const STEPS: &[Step] = &[
        Let("a", Var(VariableKind::Region)),
        Let("b", Var(VariableKind::Region)),
        Let("fixed", Region(ReStatic)),
        Outlives("fixed", "a", No),
        Outlives("b", "a", Yes),
        Outlives("fixed", "b", Yes),
        EquatesRegions("a", "b", Yes),
        Tells("fixed", "a"),
    ];
    plays(&rt, rt.alloc(), STEPS);
}

#[test]
fn snapshots(rt: HostRuntime) {
    let mut table = InferCtxt::new(rt.alloc(), TypingMode::PostAnalysis);
    see_snapshots(&rt, &mut table);
}

fn see_snapshots(rt: &impl Abort, table: &mut InferCtxt) {
    assert!(rt; matches!(table.typing_mode(), TypingMode::PostAnalysis));
    let outer = table.start_snapshot().expect(rt, "memory");
    see_committed(rt, table);
    see_tried(rt, table);
    table.rollback_to(outer);
    assert!(rt; table.universe() == 0);
}

/// Makes a universe before a snapshot and one in it, and commits it.
fn see_committed(rt: &impl Abort, table: &mut InferCtxt)
    ensures { length table.new.saved ≡ length table.old.saved }
{
    table.create_next_universe().expect(rt, "memory");
    let inner = table.start_snapshot().expect(rt, "memory");
    table.create_next_universe().expect(rt, "memory");
    table.commit(inner);
    assert!(rt; table.universe() == 2);
}

/// Makes a universe where something failed, and one where it did not.
fn see_tried(rt: &impl Abort, table: &mut InferCtxt)
    ensures { length table.new.saved ≡ length table.old.saved }
{
    assert!(rt; tried(rt, table, Err(7)) == Err(7));
    assert!(rt; table.universe() == 2);
    assert!(rt; tried(rt, table, Ok(7)) == Ok(7));
    assert!(rt; table.universe() == 3);
}

/// Makes a universe in a snapshot, which ends so.
fn tried(rt: &impl Abort, table: &mut InferCtxt, ends: Result<usize, usize>) -> Result<usize, usize>
    ensures { length table.new.saved ≡ length table.old.saved }
{
    let snapshot = table.start_snapshot().expect(rt, "memory");
    table.create_next_universe().expect(rt, "memory");
    table.commit_if_ok(snapshot, ends)
}
