//! The terms of goals, by which entries are looked up.
ghost use Rattle.std.specs.Prelude.{◌≡◌};
ghost use Rattle.nts_search.specs.Indexed.{input_terms};

use nts_response::nts_canonical::CanonicalInput;
use nts_store::NodeId;

/// The terms of a goal. Terms with equal trees have one number, so goals of the same terms have equal ones.
#[derive(Clone, Copy, PartialEq, Eq, Hash, Debug)]
pub struct GoalTerms {
    pub environment: NodeId,
    pub predicate: NodeId,
}

impl GoalTerms {
    /// The terms of an input's goal.
    pub fn of(input: &CanonicalInput) -> GoalTerms
        ensures { result ≡ input_terms input.now }
    {
        let goal = input.canonical.value.goal;
        GoalTerms {
            environment: goal.param_env.node,
            predicate: goal.predicate.node,
        }
    }
}
