//! Canonical inputs, responses and states, under one name.
pub use nts_canonical::{
    Canonical, CanonicalInput, CanonicalVarKind, QueryInput, build_with_canonical,
    instantiate_canonical, instantiate_canonical_var, same_input,
};
pub use nts_canonicalizer::canonicalize_goal;
pub use nts_explaining::nts_answering::{canonicalize_response, make_canonical_state};
pub use nts_explaining::nts_applying::{
    instantiate_and_apply_query_response, instantiate_canonical_state,
};
pub use nts_response::{
    CanonicalResponse, CanonicalState, ExternalConstraintsData, Response, State, clone_response,
    has_no_inference_or_external_constraints, is_identity, response_fits,
    response_no_constraints_raw, same_response, state_fits,
};
