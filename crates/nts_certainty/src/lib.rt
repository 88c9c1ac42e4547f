//! What an evaluation answers: certainties, and how they are joined; where goals come from, what
//! changed, and when a goal must be asked again.
//!
//! A goal may be asked first in the erased mode, which knows no hidden types. Its answer comes with a condition: which
//! hidden types it would have looked at. The condition, the mode of the goal and the hidden types of the goal above decide
//! whether the answer stands.
#![tactic(auto)]

mod certainty;
mod decision;
mod reruns;
mod rigid;
mod sources;

pub use certainty::{Certainty, MaybeCause, MaybeInfo, OpaqueTypesJank};
pub use decision::{AccessedOpaques, RerunDecision, should_rerun_after_erased_canonicalization};
pub use nts_terms;
pub use nts_terms::nts_model;
pub use reruns::{RerunCondition, is_listed};
pub use rigid::opaque_type_is_rigid;
pub use sources::{GoalSource, HasChanged, PathKind};
