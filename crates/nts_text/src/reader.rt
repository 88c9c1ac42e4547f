//! Lines of input.

ghost use Rattle.std.specs.Prelude.{◌≡◌, ◌<◌, ◌↔◌, length, IsTrue, IfSome, IfOk, OnOk};
ghost use Rattle.std.specs.Io.BufRead.{DropsThrough};
ghost use Rattle.nts_text.specs.Input.{without_last, first_line};

use std::io::{BufRead, ErrorKind};
use thiserror::Error;

/// Why a line was not read.
#[derive(Clone, Copy, Debug, PartialEq, Eq, Error)]
pub enum ReadError {
    #[error("out of memory")]
    Memory,
    #[error("the input can't be read")]
    Failed,
}

/// Drops the last byte if it is this one.
fn drop_last(line: &mut Vec<u8>, byte: u8)
    ensures { line.new.items ≡ without_last byte line.old.items }
{
    if !line.is_empty() && line[line.len() - 1] == byte {
        line.truncate(line.len() - 1);
    }
}

/// Reads the next line in the place of what `line` holds, without its line feed and without a
/// carriage return before that or before the end of the input. The result says if there was one.
pub fn next_line<R: BufRead>(reader: &mut R, line: &mut Vec<u8>) -> Result<bool, ReadError>
    ensures line { OnOk result (IfSome (R.remaining reader.old) (λ xs.
        line.new.items ≡ first_line xs)) }
    ensures found { IfOk result (λ more. IfSome (R.remaining reader.old) (λ xs.
        IsTrue more ↔ (0 < length xs))) }
    ensures rest { OnOk result (DropsThrough (R.remaining reader.old) (R.remaining reader.new) 10) }
{
    line.clear();
    match reader.read_until(b'\n', line) {
        Ok(count) => {
            drop_last(line, b'\n');
            drop_last(line, b'\r');
            Ok(count > 0)
        }
        Err(error) => match error.kind() {
            ErrorKind::OutOfMemory => Err(ReadError::Memory),
            _ => Err(ReadError::Failed),
        },
    }
}
