//! What a handler offers.
ghost use Rattle.std.specs.Prelude.{◌≡◌, IfOk, IsOkUnless};
ghost use Rattle.nts_candidates.specs.Offered.{candidates_of};
ghost use Rattle.nts_delegate.specs.Candidates.{IsAskedIn, AreCandidates};
ghost use Rattle.nts_delegate.specs.Relevant.{LeavesOut};
ghost use Rattle.nts_store.specs.Growth.{tree_at};
ghost use Rattle.nts_terms.specs.Modes.{mode_of};
ghost use Rattle.nts_terms.specs.Rest.{Grows};

use nts_candidates::CandidateData;
use nts_delegate::GoalHandler;
use nts_store::Fault;
use nts_terms::{Cx, Goal, TypingMode};

/// The candidates of a goal that can be met at all. What a handler needs to find them stands on the machine's stack no longer than
/// this call, and not while goals below are asked.
#[inline(never)]
pub fn relevant_candidates<H: GoalHandler>(
    cx: &mut Cx,
    handler: &H,
    mode: &TypingMode,
    goal: Goal,
) -> Result<Vec<CandidateData>, Fault>
    requires ready { H.ready cx.old.nodes handler.now }
    requires goal { IsAskedIn cx.old.nodes goal }
    ensures candidates { IfOk result (λ cs. AreCandidates cx.new.nodes goal cs.items) }
    ensures offered { IfOk result (λ cs. LeavesOut ((H.handler cx.new.nodes handler.now).offers
        (mode_of mode.now) (tree_at cx.new.nodes goal.param_env.node)
        (tree_at cx.new.nodes goal.predicate.node)) (candidates_of cx.new.nodes cs.items)) }
    ensures grows { Grows cx.old cx.new }
    ensures memory { IsOkUnless result Fault.Memory }
{
    handler.relevant_candidates(cx, mode, goal)
}
