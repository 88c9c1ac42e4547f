//! What a candidate comes to.
use nts_certainty::Certainty;
use nts_certainty::nts_terms::Goal;

/// Why a candidate does not serve a goal, or that it does. Equations and conditions are counted from 0.
#[derive(Clone, Copy, Debug)]
pub enum Reason {
    /// The equation of this number can't be met together with those before it.
    Equation(usize),
    /// The condition of this number is not certain, once those before it were asked: so certain it is, or it has no solution.
    Condition {
        number: usize,
        /// The condition with what was known of its variables. Those that were made for the candidate are in no table afterwards.
        goal: Goal,
        certainty: Option<Certainty>,
    },
    /// The handler's leak check says that what was found can't be.
    Leak,
    /// All that the candidate asks for holds. It is as certain as it says itself.
    Holds(Certainty),
}
