//! Trying: what is answered at once, whether a goal has candidates, how its binder is opened, what a candidate equates, records and
//! adds, the steps in which goals are asked, and the one response for those of several candidates.
#![tactic(auto)]

mod aliases;
mod asked;
mod binder;
mod candidate;
mod equalities;
mod fast;
mod kinds;
mod leaks;
mod lesser;
mod merged;
mod normal;
mod offered;
mod outlives;
mod own;
mod relating;
mod steps;
mod subtypes;

pub use aliases::is_open_to_normalizing;
pub use asked::{asks, asks_all, keep_asked};
pub use binder::enter_forall;
pub use candidate::{Trial, equate, record_constraints};
pub use equalities::may_ask;
pub use fast::fast_answer;
pub use kinds::{GoalRow, goal_kind, goal_row};
pub use leaks::check_leaks;
pub use lesser::way_goals;
pub use merged::{keep_response, merge_responses};
pub use normal::{EquatedAlias, equated_in};
pub use offered::relevant_candidates;
pub use outlives::{Outlives, answer_outlives};
pub use own::{Judged, OwnGoal, judge};
pub use relating::{Begun, begin_relating, needs_relating};
pub use steps::{AvailableDepth, Step, depth_below};
pub use subtypes::{TypePair, relate_types};
