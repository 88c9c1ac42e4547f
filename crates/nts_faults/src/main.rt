//! The program `nts_faults`: a call that is refused memory leaves the content of the table as it was.
//!
//! A line of standard input names a row. It is set up, one call is made, and what can be read of the table is compared
//! with what could be before: `NAME: done`, `NAME: no, as before` where there is no solution, and `NAME: memory, as
//! before`, which ends with status 3, and else `NAME: WRONG`, with 4. Where the setting up is refused memory, or the second
//! look at the table, nothing is printed, and the status is 3 too. `examples/faults.sh` runs each row with each allocation
//! refused in turn.
#![tactic(auto)]

mod asking;
mod context;

ghost use Rattle.std.specs.Prelude.{OnOk};
ghost use Rattle.nts_table.specs.Tables.{IsTable};

use asking::{Rule, ask, ask_outlives};
use nts_fault_rows::{Called, content_of, fill};
use nts_fixtures::Fixture;
use nts_model::UintTy;
use nts_store::EvalError;
use std::alloc::Global;
use std::io;
use std::process::ExitCode;

/// How a run ends.
#[derive(Clone, Copy)]
enum End {
    Done,
    No,
    Memory,
    Wrong,
}

impl End {
    /// What is said of it.
    fn word(&self) -> &'static str {
        match self {
            End::Done => "done",
            End::No => "no, as before",
            End::Memory => "memory, as before",
            End::Wrong => "WRONG: another error, or another table",
        }
    }

    fn code(&self) -> u8 {
        match self {
            End::Done | End::No => 0,
            End::Memory => 3,
            End::Wrong => 4,
        }
    }
}

/// Makes the call of a row, in a table that is filled.
fn call(fixture: &mut Fixture, row: &str) -> Result<Called, EvalError>
    requires { IsTable fixture.old.cx.nodes fixture.old.table }
    ensures { OnOk result (IsTable fixture.new.cx.nodes fixture.new.table) }
{
    let alias = fill(fixture)?;
    let variable = fixture.ty_var()?;
    match row {
        "fact" => ask(fixture, Rule::Fact, variable),
        "condition" => ask(fixture, Rule::Condition, variable),
        "refused" => {
            let byte = fixture.uint(UintTy::U8)?;
            let wrapped = fixture.wrap(byte)?;
            ask(fixture, Rule::Condition, wrapped)
        }
        "outlives" => ask_outlives(fixture, variable),
        "relate" => nts_fault_rows::relate(fixture),
        "equate" => nts_fault_rows::equate(fixture),
        "canonicalize" => nts_fault_rows::canonicalize(fixture),
        "instantiate" => nts_fault_rows::instantiate(fixture),
        "apply" => nts_fault_rows::apply(fixture),
        "open" => nts_fault_rows::open(fixture),
        "hide" => nts_fault_rows::hide(fixture, alias, variable),
        "context" => context::context(fixture),
        _ => Err(EvalError::NoSolution),
    }
}

/// Looks at the table again, after a call.
fn end_of(fixture: &Fixture, called: &Called) -> Result<End, EvalError>
    requires { IsTable fixture.now.cx.nodes fixture.now.table }
{
    let same = called.before == content_of(fixture)?;
    Ok(match called.answer {
        Ok(()) => End::Done,
        Err(EvalError::Memory) if same => End::Memory,
        Err(EvalError::NoSolution) if same => End::No,
        Err(_) => End::Wrong,
    })
}

/// Makes the call of a row in a table that has nothing, and looks at it again.
fn run_in(fixture: &mut Fixture, row: &str) -> Result<End, EvalError>
    requires { IsTable fixture.old.cx.nodes fixture.old.table }
{
    let called = call(fixture, row)?;
    end_of(fixture, &called)
}

/// Makes the call of a row in a table of its own.
fn run(alloc: Global, row: &str) -> Result<End, EvalError> {
    let mut fixture = Fixture::new(alloc)?;
    run_in(&mut fixture, row)
}

/// Reads the name of a row, and prints how its run ends: what it answers is the status.
fn answer(rt: &HostRuntime) -> io::Result<u8> {
    let alloc = rt.alloc();
    let Some(row) = rt.lines(alloc).next() else {
        return Ok(1);
    };
    let row = row?;
    match run(alloc, row.as_str()) {
        Ok(end) => {
            println!(rt; "{row}: {}", end.word())?;
            Ok(end.code())
        }
        Err(EvalError::Memory) => Ok(3),
        Err(_) => Ok(1),
    }
}

fn main(rt: HostRuntime) -> ExitCode {
    match answer(&rt) {
        Ok(code) => ExitCode::from(code),
        Err(_) => ExitCode::from(3),
    }
}
