//! The same response once more.
ghost use Rattle.std.specs.Prelude.{◌≡◌, IfOk, IsOkUnless};
ghost use Rattle.nts_response.specs.Forms.{response_parts, found_in};

use crate::types::{CanonicalResponse, ExternalConstraintsData, Response};
use nts_canonical::Canonical;
use nts_store::Fault;

impl ExternalConstraintsData {
    /// The same once more.
    pub fn clone(&self) -> Result<ExternalConstraintsData, Fault>
        ensures same { IfOk result (λ r. found_in r ≡ found_in self.now) }
        ensures memory { IsOkUnless result Fault.Memory }
    {
        let region_constraints = self.region_constraints.clone()?;
        let opaque_types = self.opaque_types.clone()?;
        let normalization_nested_goals = self.normalization_nested_goals.clone()?;
        Ok(ExternalConstraintsData {
            region_constraints,
            opaque_types,
            normalization_nested_goals,
        })
    }
}

impl Response {
    /// The same once more.
    pub fn clone(&self) -> Result<Response, Fault>
        ensures same { IfOk result (λ r. response_parts r ≡ response_parts self.now) }
        ensures memory { IsOkUnless result Fault.Memory }
    {
        let var_values = self.var_values.clone()?;
        let external_constraints = self.external_constraints.clone()?;
        Ok(Response {
            certainty: self.certainty,
            var_values,
            external_constraints,
        })
    }
}

/// The same canonical response once more.
pub fn clone_response(response: &CanonicalResponse) -> Result<CanonicalResponse, Fault>
    ensures value { IfOk result (λ r. response_parts r.value ≡ response_parts response.now.value) }
    ensures kinds { IfOk result (λ r. r.var_kinds.items ≡ response.now.var_kinds.items) }
    ensures universe { IfOk result (λ r. r.max_universe ≡ response.now.max_universe) }
    ensures memory { IsOkUnless result Fault.Memory }
{
    let value = response.value.clone()?;
    let var_kinds = response.var_kinds.clone()?;
    Ok(Canonical {
        value,
        max_universe: response.max_universe,
        var_kinds,
    })
}
