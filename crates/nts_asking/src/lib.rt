//! Asking: a goal's query, its first table, what a cycle back to it is answered, the rounds in which it is evaluated, what its
//! answer changes, what is kept of a goal that stalls, and whether it may help to ask
//! it again.
#![tactic(auto)]

mod admission;
mod applying;
mod cycles;
mod query;
mod round;
mod stalled;
mod stalling;

pub use admission::{is_asked, is_root_term, is_settled_env};
pub use applying::apply_answer;
pub use cycles::answer_cycle;
pub use query::{boxed_query, keeps_constraints, query_of, query_table};
pub use round::{
    Ended, Round, end_round, first_round, last_answer, next_round, overflow_answer, push_query,
};
pub use stalled::{GoalStalledOn, is_still_stalled, still_stalled};
pub use stalling::{Asked, asked_goal, keep_stalled};
