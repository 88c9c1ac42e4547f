//! What a line does.
ghost use Rattle.std.specs.Prelude.{◌≡◌, IsNone, IfOk, OnOk, OnErr};
ghost use Rattle.nts_delegate.specs.Clauses.{AreClausesReady};
ghost use Rattle.nts_declaring.specs.Declaring.{IsInStep};
ghost use Rattle.nts_declaring.specs.Heads.{HeadsFit};
ghost use Rattle.nts_text.specs.Lines.{IsPassedOver};
ghost use Rattle.nts_program.specs.Obeying.{Follows, IsObeyed};

use crate::answer::ask;
use nts_declaring::Program;
use nts_text::{Command, read_command};
use nts_wording::{Answer, Stop};

/// Does what a line says. The result is its answer, if it asks for one.
pub fn obey(program: &mut Program, line: &[u8]) -> Result<Option<Answer>, Stop>
    requires ready { AreClausesReady program.old.cx.nodes program.old.clauses }
    ensures ready { OnOk result (AreClausesReady program.new.cx.nodes program.new.clauses) }
    ensures passed { IfOk result (λ o. IsPassedOver line.now → IsNone o) }
    ensures refused { OnErr result (IsPassedOver line.now → ⊥) }
    ensures obeyed { IfOk result (IsObeyed line.now program.old program.new) }
    ensures step { OnOk result (IsInStep program.old → IsInStep program.new) }
    ensures heads { OnOk result (HeadsFit program.old.cx program.old.clauses →
        HeadsFit program.new.cx program.new.clauses) }
{
    match read_command(program.alloc, line, &mut program.names, &mut program.scope)? {
        Some(command) => follow(program, &command),
        None => Ok(None),
    }
}

/// Does what a command says, likewise. Its names are those that are declared, and its variables those of the last line.
#[tactic(auto, using(nts_declaring::proofs::Values::keeping, nts_declaring::proofs::HeadsKept::heads_grown))]
pub fn follow(program: &mut Program, command: &Command) -> Result<Option<Answer>, Stop>
    requires ready { AreClausesReady program.old.cx.nodes program.old.clauses }
    ensures ready { OnOk result (AreClausesReady program.new.cx.nodes program.new.clauses) }
    ensures names { program.new.names ≡ program.old.names }
    ensures scope { program.new.scope ≡ program.old.scope }
    ensures heads { OnOk result (HeadsFit program.old.cx program.old.clauses →
        HeadsFit program.new.cx program.new.clauses) }
    ensures follows { IfOk result (Follows program.old program.new command.now) }
{
    match command {
        Command::Goal(nodes) => {
            let (env, mode) = (program.env, program.mode);
            let answer = ask(&mut program.cx, &program.clauses, env, mode, nodes)?;
            Ok(Some(answer))
        }
        _ => {
            program.declare(command)?;
            Ok(None)
        }
    }
}
