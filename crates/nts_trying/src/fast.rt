//! What a handler answers at once.
ghost use Rattle.std.specs.Prelude.{IfSome};
ghost use Rattle.nts_terms.specs.Handles.{HoldsGoal};
ghost use Rattle.nts_trying.specs.Fast.{IsFastAnswer};

use crate::kinds::is_candidates_goal;
use nts_certainty::Certainty;
use nts_delegate::GoalHandler;
use nts_terms::{Cx, Goal};

/// What the handler answers at once of a goal that its candidates would answer, where the store has fast paths.
#[inline(never)]
pub fn fast_answer<H: GoalHandler>(cx: &Cx, handler: &H, goal: Goal) -> Option<Certainty>
    requires ready { H.ready cx.now.nodes handler.now }
    requires goal { HoldsGoal cx.now.nodes goal }
    ensures { IfSome result (IsFastAnswer (H.handler cx.now.nodes handler.now) cx.now goal) }
{
    if cx.disable_trait_solver_fast_paths() {
        return None;
    }
    let Some(certainty) = handler.compute_goal_fast_path(cx, goal) else {
        return None;
    };
    if !is_candidates_goal(cx, goal) {
        return None;
    }
    Some(certainty)
}
