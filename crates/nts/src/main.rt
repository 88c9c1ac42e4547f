//! The program `nts`: declarations and goals come in as lines of text, and the answers go out.
//!
//! What a line may say is told in `docs/TEXT.md` of the repository, and what a run does by the
//! contract of `nts_program::run`.
#![tactic(auto)]

#[cfg(test)]
mod failing_tests;
#[cfg(test)]
mod limit_tests;

use nts_program::{Status, run};
use std::io::{self, BufWriter};
use std::process::ExitCode;

fn main(rt: HostRuntime) -> ExitCode {
    let alloc = rt.alloc();
    let status = match BufWriter::new(alloc, io::writer(&rt)) {
        Ok(mut output) => run(alloc, rt.reader(), &mut output),
        Err(_) => Status::OutOfMemory,
    };
    ExitCode::from(status.code())
}
