//! The limits that a caller of the library sets: steps, rounds, and what is left of a depth after an overflow.
ghost use Rattle.nts_delegate.specs.Clauses.{AreClausesReady};

use nts_program::{Program, obey};
use std::alloc::Global;
use std::process::Abort;

/// A step of a test.
enum Step {
    /// A line that is taken, and is no goal.
    Tell(&'static [u8]),
    /// A goal, and what is printed for it.
    Ask(&'static [u8], &'static [u8]),
    /// How many steps an evaluation takes from now on.
    Steps(usize),
    /// How many rounds.
    Rounds(usize),
    /// By what a depth is divided.
    Division(usize),
}

/// Obeys a line that is no goal.
fn tell(rt: &impl Abort, program: &mut Program, line: &[u8])
    requires { AreClausesReady program.old.cx.nodes program.old.clauses }
    ensures { AreClausesReady program.new.cx.nodes program.new.clauses }
{
    let answer = obey(program, line).expect(rt, "a line that is taken");
    assert!(rt; answer.is_none());
}

/// Asks a goal, of which this is the answer.
fn ask(rt: &impl Abort, program: &mut Program, goal: &[u8], answer: &[u8])
    requires { AreClausesReady program.old.cx.nodes program.old.clauses }
    ensures { AreClausesReady program.new.cx.nodes program.new.clauses }
{
    let seen = obey(program, goal).expect(rt, "a goal that is taken");
    let seen = seen.expect(rt, "an answer");
    let mut text = Vec::new(program.alloc);
    assert!(rt; program.write_answer(&mut text, &seen).is_ok());
    assert!(rt; text.as_slice() == answer);
}

/// Sets a limit, and answers whether it is one that may be set: up to 64, or up to 16 for what a depth is divided by.
fn sets(program: &mut Program, step: &Step) -> bool
    requires { AreClausesReady program.old.cx.nodes program.old.clauses }
    ensures { AreClausesReady program.new.cx.nodes program.new.clauses }
{
    match step {
        Step::Steps(count) if *count > 0 && *count <= 64 => program.cx.set_step_limit(*count),
        Step::Rounds(count) if *count > 0 && *count <= 64 => program.cx.set_round_limit(*count),
        Step::Division(by) if *by > 0 && *by <= 16 => program.cx.set_depth_division(*by),
        _ => return false,
    }
    true
}

fn play(rt: &impl Abort, program: &mut Program, step: &Step)
    requires { AreClausesReady program.old.cx.nodes program.old.clauses }
    ensures { AreClausesReady program.new.cx.nodes program.new.clauses }
{
    match step {
        Step::Tell(line) => tell(rt, program, line),
        Step::Ask(goal, answer) => ask(rt, program, goal, answer),
        _ => assert!(rt; sets(program, step)),
    }
}

fn play_all(rt: &impl Abort, program: &mut Program, steps: &[Step])
    requires { AreClausesReady program.old.cx.nodes program.old.clauses }
{
    for n in 0..steps.len() {
        play(rt, program, &steps[n]);
    }
}

/// Plays the steps one after the other, in a new program.
fn plays(rt: &impl Abort, alloc: Global, steps: &[Step]) {
    let mut program = Program::new(alloc);
    play_all(rt, &mut program, steps);
}

/// Eight conditions, each of which tells the variable of the one before it: each step proves one of them, and one step more sees
/// that nothing changed.
#[test]
fn steps(rt: HostRuntime) {
    plays(&rt, rt.alloc(), STEPS);
}

const STEPS: &[Step] = &[
    Step::Tell(b"trait N(type, type)"),
    Step::Tell(b"trait G(type)"),
    Step::Tell(b"impl N(u8, u16)"),
    Step::Tell(b"impl N(u16, u32)"),
    Step::Tell(b"impl N(u32, u64)"),
    Step::Tell(b"impl N(u64, u128)"),
    Step::Tell(b"impl N(u128, usize)"),
    Step::Tell(b"impl N(usize, i8)"),
    Step::Tell(b"impl N(i8, i16)"),
    Step::Tell(b"impl N(i16, i32)"),
    Step::Tell(
        b"impl G(u8) <- N(?X7, ?X8), N(?X6, ?X7), N(?X5, ?X6), N(?X4, ?X5), N(?X3, ?X4), N(?X2, ?X3), N(?X1, ?X2), N(u8, ?X1)",
    ),
    Step::Ask(b"goal G(u8)", b"maybe overflow\n"),
    Step::Steps(9),
    Step::Ask(b"goal G(u8)", b"yes\n"),
];

/// A type in a type, whose condition changes nothing: one step is enough.
#[test]
fn one_step(rt: HostRuntime) {
    plays(&rt, rt.alloc(), ONE_STEP);
}

const ONE_STEP: &[Step] = &[
    Step::Tell(b"trait Clone(type)"),
    Step::Tell(b"type Vec(type)"),
    Step::Tell(b"impl Clone(u32)"),
    Step::Tell(b"impl Clone(Vec(?T)) <- Clone(?T)"),
    Step::Steps(1),
    Step::Ask(b"goal Clone(Vec(u32))", b"yes\n"),
];

/// A cycle that is refuted in its third round, since what the first one found has no rule; and one that holds in its first.
#[test]
fn rounds(rt: HostRuntime) {
    plays(&rt, rt.alloc(), ROUNDS);
}

const ROUNDS: &[Step] = &[
    Step::Tell(b"trait Auto(type) coinductive"),
    Step::Tell(b"trait Is(type)"),
    Step::Tell(b"type W(type, type)"),
    Step::Tell(b"type List"),
    Step::Tell(b"impl Auto(W(?X, u32)) <- Auto(W(?X, ?Y)), Is(?Y)"),
    Step::Tell(b"impl Is(u8)"),
    Step::Tell(b"impl Auto(List) <- Auto(List)"),
    Step::Rounds(2),
    Step::Ask(b"goal Auto(W(u32, ?y))", b"maybe overflow\n"),
    Step::Rounds(3),
    Step::Ask(b"goal Auto(W(u32, ?y))", b"no\n"),
    Step::Rounds(1),
    Step::Ask(b"goal Auto(List)", b"yes\n"),
];

/// A condition that grows for ever, in a depth that is divided by one; and a depth that later conditions have a half or all of.
#[test]
fn division(rt: HostRuntime) {
    plays(&rt, rt.alloc(), DIVISION);
}

const DIVISION: &[Step] = &[
    Step::Tell(b"trait L(type)"),
    Step::Tell(b"trait C(type)"),
    Step::Tell(b"trait A(type)"),
    Step::Tell(b"type W(type)"),
    Step::Tell(b"impl L(W(?X)) <- L(W(W(?X)))"),
    Step::Tell(b"impl C(W(?T)) <- C(?T)"),
    Step::Tell(b"impl A(u8) <- L(W(u8)), C(W(W(W(u8))))"),
    Step::Tell(b"depth 8"),
    Step::Ask(b"goal L(W(u8))", b"maybe overflow\n"),
    Step::Ask(b"goal A(u8)", b"maybe overflow\n"),
    Step::Division(2),
    Step::Ask(b"goal A(u8)", b"no\n"),
    Step::Division(1),
    Step::Ask(b"goal L(W(u8))", b"maybe overflow\n"),
    Step::Ask(b"goal A(u8)", b"no\n"),
];
