//! A run over all lines of an input.
ghost use Rattle.std.specs.Prelude.{◌≡◌, OnOk, IfErr};
ghost use Rattle.nts_delegate.specs.Clauses.{AreClausesReady};
ghost use Rattle.nts_text.specs.Lines.{IsPassedOver};
ghost use Rattle.nts_wording.specs.Growing.{Begins, IsStopTold};
ghost use Rattle.nts_wording.specs.Statuses.{status_of};
ghost use Rattle.nts_wording.specs.declared.status.Status.TheVariants.{Done, Refused};
ghost use Rattle.nts_program.specs.nts_declaring.specs.Heads.{HeadsFit};
ghost use Rattle.nts_reasons.specs.Obeying.{HasLines};
ghost use Rattle.nts_reasons.specs.Running.{IsToldLine, AnswersAll, StopsAtRefusal};

use crate::explainer::Explainer;
use nts_program::{Status, Stop};
use nts_text::next_line;
use nts_wording::put_refusal;
use std::alloc::Global;
use std::io::{BufRead, BufReader, Read, Write};

/// Handles the lines of the input in order, and writes the answers with their reasons, each before the next line is read. Whatever
/// happens, what was written before stays.
#[tactic(auto, using(nts_wording::proofs::Growths::writes))]
pub fn run<R: Read + Drop, W: Write>(alloc: Global, input: R, output: &mut W) -> Status
    ensures done { result ≡ Done → AnswersAll (R.remaining input) (W.contents output.old)
        (W.contents output.new) }
    ensures refused { result ≡ Refused → StopsAtRefusal (R.remaining input) (W.contents output.old)
        (W.contents output.new) }
    ensures begins { Begins (W.contents output.old) (W.contents output.new) }
{
    let status = match run_input(alloc, input, output) {
        Ok(()) => Status::Done,
        Err(stop) => stop.status(),
    };
    match output.flush() {
        Ok(()) => status,
        Err(_) => Status::Failed,
    }
}

#[tactic(auto, using(nts_wording::proofs::Growths::writes))]
fn run_input<R: Read + Drop, W: Write>(alloc: Global, input: R, output: &mut W) -> Result<(), Stop>
    ensures done { OnOk result (AnswersAll (R.remaining input) (W.contents output.old)
        (W.contents output.new)) }
    ensures refused { IfErr result (λ s. status_of s ≡ Refused →
        StopsAtRefusal (R.remaining input) (W.contents output.old) (W.contents output.new)) }
    ensures begins { Begins (W.contents output.old) (W.contents output.new) }
{
    let mut reader = BufReader::new(alloc, input)?;
    run_lines(alloc, &mut reader, output)
}

#[tactic(auto, using(nts_wording::proofs::Growths::writes))]
fn run_lines<R: BufRead, W: Write>(
    alloc: Global,
    reader: &mut R,
    output: &mut W,
) -> Result<(), Stop>
    ensures done { OnOk result (AnswersAll (R.remaining reader.old) (W.contents output.old)
        (W.contents output.new)) }
    ensures refused { IfErr result (λ s. status_of s ≡ Refused →
        StopsAtRefusal (R.remaining reader.old) (W.contents output.old) (W.contents output.new)) }
    ensures begins { Begins (W.contents output.old) (W.contents output.new) }
{
    let mut explainer = Explainer::new(alloc);
    let mut line = Vec::new(alloc);
    'lines: for number in 1..u64::MAX {
        if !next_line(reader, &mut line)? {
            return Ok(());
        }
        handle_line(&mut explainer, &line, number, output)?;
    }
    Err(Stop::Failed)
}

/// Does what a line says, and writes its answer with the reasons, or why it is refused.
#[tactic(auto, using(nts_wording::proofs::Growths::writes))]
fn handle_line<W: Write>(
    explainer: &mut Explainer,
    line: &[u8],
    number: u64,
    output: &mut W,
) -> Result<(), Stop>
    requires ready { AreClausesReady explainer.old.program.cx.nodes explainer.old.program.clauses }
    requires heads { HeadsFit explainer.old.program.cx explainer.old.program.clauses }
    requires lines { HasLines explainer.old }
    ensures ready { OnOk result (AreClausesReady explainer.new.program.cx.nodes
        explainer.new.program.clauses) }
    ensures heads { OnOk result (HeadsFit explainer.new.program.cx
        explainer.new.program.clauses) }
    ensures lines { OnOk result (HasLines explainer.new) }
    ensures answered { OnOk result (IsToldLine number line.now explainer.old explainer.new
        (W.contents output.old) (W.contents output.new)) }
    ensures refused { IfErr result (λ s. status_of s ≡ Refused → IsPassedOver line.now → ⊥) }
    ensures told { IfErr result (IsStopTold (W.contents output.old)
        (W.contents output.new) number) }
    ensures begins { Begins (W.contents output.old) (W.contents output.new) }
    ensures passed { OnOk result (IsPassedOver line.now → output.new ≡ output.old) }
{
    match explainer.obey(line, number) {
        Ok(Some(asked)) => explainer.tell(output, &asked),
        Ok(None) => Ok(()),
        Err(Stop::Refused(refusal)) => {
            put_refusal(output, number, refusal)?;
            Err(Stop::Refused(refusal))
        }
        Err(stop) => Err(stop),
    }
}
