//! Responses: what queries answer, as canonical values.
#![tactic(auto)]

mod cloning;
mod fitting;
mod same;
mod telling;
mod types;
mod unconstrained;

pub use cloning::clone_response;
pub use fitting::{response_fits, state_fits};
pub use nts_candidates;
pub use nts_candidates::nts_certainty;
pub use nts_canonical;
pub use nts_canonical::{nts_folding, nts_table};
pub use same::same_response;
pub use telling::{
    has_no_inference_or_external_constraints, has_only_region_constraints, is_identity,
    is_identity_modulo_regions,
};
pub use types::{CanonicalResponse, CanonicalState, ExternalConstraintsData, Response, State};
pub use unconstrained::response_no_constraints_raw;
