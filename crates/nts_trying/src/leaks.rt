//! The handler's leak check.
ghost use Rattle.std.specs.Prelude.{◌≡◌, ◌⊎◌, Ok, Err, IfOk, IfErr};
ghost use Rattle.nts_unify.specs.Reading.{content_of};
ghost use Rattle.nts_table.specs.Tables.{IsTable};
ghost use Rattle.nts_terms.specs.Rest.{Grows};

use nts_certainty::Certainty;
use nts_delegate::GoalHandler;
use nts_store::EvalError;
use nts_table::InferCtxt;
use nts_terms::Cx;

/// What a run in the table answered; or that there is no solution, where the handler's leak check says of what the run found that
/// nothing which the root names meets its region constraints. After an error of the run nothing is checked.
#[inline(never)]
pub fn check_leaks<H: GoalHandler>(
    table: &InferCtxt,
    cx: &mut Cx,
    handler: &H,
    ran: Result<Certainty, EvalError>,
) -> Result<Certainty, EvalError>
    requires table { IsTable cx.old.nodes table.now }
    requires ready { H.ready cx.old.nodes handler.now }
    ensures ok { IfOk result (λ y. ran ≡ Ok y) }
    ensures err { IfErr ran (λ e. result ≡ Err e) }
    ensures leaks { result ≡ Err EvalError.NoSolution → ran ≡ Err EvalError.NoSolution ⊎
        (H.handler cx.old.nodes handler.now).leaks (content_of cx.old.nodes table.now.entries) 0 }
    ensures full { result ≡ Err EvalError.Full → ran ≡ Err EvalError.Full }
    ensures grows { Grows cx.old cx.new }
{
    let certainty = ran?;
    handler.leak_check(cx, table, 0)?;
    Ok(certainty)
}
