//! Writing answers.
ghost use Rattle.std.specs.Prelude.{◌≡◌, ◌≤◌, length, take, false, IfOk, IfErr, OnOk};
ghost use Rattle.std.specs.Io.KnownBytes.{Appends};
ghost use Rattle.nts_wording.specs.Growing.{Begins, refusal_line};
ghost use Rattle.nts_wording.specs.Statuses.{is_refusal};

use crate::status::Stop;
use itoa::Buffer;
use nts_text::Refusal;
use std::io::{ErrorKind, Write};

/// Writes some of these bytes, and answers how many: none after an interruption.
#[tactic(auto, using(crate::proofs::Growths::writes))]
fn put_some<W: Write>(output: &mut W, bytes: &[u8]) -> Result<usize, Stop>
    ensures bound { IfOk result (λ n. n ≤ length bytes.now) }
    ensures fault { IfErr result (λ s. is_refusal s ≡ false) }
    ensures some { IfOk result (λ n. Appends (W.contents output.old) (W.contents output.new)
        (take n bytes.now)) }
    ensures begins { Begins (W.contents output.old) (W.contents output.new) }
{
    match output.write(bytes) {
        Ok(0) => Err(Stop::Failed),
        Ok(count) => Ok(count),
        Err(error) => {
            if error.kind() == ErrorKind::Interrupted {
                Ok(0)
            } else {
                Err(Stop::from(error))
            }
        }
    }
}

/// Writes all of these bytes. Whatever happens, what was written before stays.
#[tactic(auto, using(crate::proofs::Growths::writes))]
pub(crate) fn put<W: Write>(output: &mut W, bytes: &[u8]) -> Result<(), Stop>
    ensures fault { IfErr result (λ s. is_refusal s ≡ false) }
    ensures all { OnOk result (Appends (W.contents output.old) (W.contents output.new) bytes.now) }
    ensures begins { Begins (W.contents output.old) (W.contents output.new) }
{
    let mut written = 0;
    'turns: for _ in 0..u64::MAX {
        if written == bytes.len() {
            return Ok(());
        }
        written += put_some(output, &bytes[written..])?;
    }
    Err(Stop::Failed)
}

/// Writes an answer and lets it out, so that whoever waits for it has it before the next line is read. Whatever happens, what was
/// written before stays.
#[tactic(auto, using(crate::proofs::Growths::writes))]
pub fn put_answer<W: Write>(output: &mut W, bytes: &[u8]) -> Result<(), Stop>
    ensures fault { IfErr result (λ s. is_refusal s ≡ false) }
    ensures all { OnOk result (Appends (W.contents output.old) (W.contents output.new) bytes.now) }
    ensures begins { Begins (W.contents output.old) (W.contents output.new) }
{
    put(output, bytes)?;
    output.flush()?;
    Ok(())
}

/// Writes why a line is refused. It takes no memory.
#[tactic(auto, using(crate::proofs::Growths::writes))]
pub fn put_refusal<W: Write>(output: &mut W, number: u64, refusal: Refusal) -> Result<(), Stop>
    ensures fault { IfErr result (λ s. is_refusal s ≡ false) }
    ensures said { OnOk result (Appends (W.contents output.old) (W.contents output.new)
        (refusal_line number refusal)) }
    ensures begins { Begins (W.contents output.old) (W.contents output.new) }
{
    let mut digits = Buffer::new();
    put(output, b"line ")?;
    put(output, digits.format(number).as_bytes())?;
    put(output, b": ")?;
    put(output, refusal.words().as_bytes())?;
    put(output, b"\n")
}
