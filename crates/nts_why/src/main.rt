//! The program `nts_why`: it reads the text of `nts` and prints the same answers, and behind each answer that is not yes it tells
//! why no candidate made it yes.
//!
//! What a line may say, and how the reasons are written, is told in `docs/TEXT.md` of the repository, and what a run does by the
//! contract of `nts_reasons::run`.
#![tactic(auto)]

use nts_program::Status;
use nts_reasons::run;
use std::io::{self, BufWriter};
use std::process::ExitCode;

fn main(rt: HostRuntime) -> ExitCode {
    let alloc = rt.alloc();
    let status = match BufWriter::new(alloc, io::writer(&rt)) {
        Ok(mut output) => run(alloc, rt.reader(), &mut output),
        Err(_) => Status::OutOfMemory,
    };
    ExitCode::from(status.code())
}
