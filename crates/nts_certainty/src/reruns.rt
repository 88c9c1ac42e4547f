//! When a goal is asked again, since what it was answered rests on hidden types.
ghost use Rattle.std.specs.Prelude.{◌≡◌, IfOk, OnOk, OnErr, IsOkUnless};
ghost use Rattle.nts_terms.specs.nts_model.specs.Derivations.Handlers.{any_infer, in_storage};
ghost use Rattle.nts_theory.specs.Erased.Accessing.{is_in, united, joined_accesses};
ghost use Rattle.nts_terms.specs.Modes.{numbers_of};
ghost use Rattle.nts_certainty.specs.Accesses.{access_of};

use nts_terms::AliasId;
use nts_terms::nts_store::Fault;
use std::alloc::AllocError;

/// When a goal must be asked again, since its answer rests on hidden types.
#[derive(Drop)]
pub enum RerunCondition {
    Never,
    /// Where one of these has a hidden type, or may get one.
    OpaqueInStorage(Vec<AliasId>),
    /// Where a hidden type is a type variable.
    AnyOpaqueHasInferAsHidden,
    /// Where either is.
    OpaqueInStorageOrAnyOpaqueHasInferAsHidden(Vec<AliasId>),
    Always,
}

impl RerunCondition {
    /// Makes it the least condition above itself and another one: a goal is asked again wherever either says so. `Memory`
    /// where a growth was refused, and then it is as it was.
    pub fn join(&mut self, other: &RerunCondition) -> Result<(), Fault>
        ensures joined { OnOk result (access_of self.new ≡ joined_accesses (access_of self.old)
            (access_of other.now)) }
        ensures err { OnErr result (self.new ≡ self.old) }
        ensures memory { IsOkUnless result Fault.Memory }
    {
        let joined = self.joined(other)?;
        *self = joined;
        Ok(())
    }

    /// The same condition once more.
    pub fn clone(&self) -> Result<RerunCondition, Fault>
        ensures same { IfOk result (λ c. access_of c ≡ access_of self.now) }
        ensures memory { IsOkUnless result Fault.Memory }
    {
        Ok(match self {
            RerunCondition::Never => RerunCondition::Never,
            RerunCondition::OpaqueInStorage(ids) => RerunCondition::OpaqueInStorage(ids.clone()?),
            RerunCondition::AnyOpaqueHasInferAsHidden => RerunCondition::AnyOpaqueHasInferAsHidden,
            RerunCondition::OpaqueInStorageOrAnyOpaqueHasInferAsHidden(ids) => {
                RerunCondition::OpaqueInStorageOrAnyOpaqueHasInferAsHidden(ids.clone()?)
            }
            RerunCondition::Always => RerunCondition::Always,
        })
    }

    #[tactic(auto, using(crate::proofs::Joining::both_first))]
    fn joined(&self, other: &RerunCondition) -> Result<RerunCondition, Fault>
        ensures joined { IfOk result (λ c. access_of c ≡ joined_accesses (access_of self.now)
            (access_of other.now)) }
        ensures memory { IsOkUnless result Fault.Memory }
    {
        match self {
            RerunCondition::Never => other.clone(),
            RerunCondition::OpaqueInStorage(ids) => other.behind(ids),
            RerunCondition::AnyOpaqueHasInferAsHidden => Ok(other.clone()?.with_infer()),
            RerunCondition::OpaqueInStorageOrAnyOpaqueHasInferAsHidden(ids) => {
                Ok(other.behind(ids)?.with_infer())
            }
            RerunCondition::Always => Ok(RerunCondition::Always),
        }
    }

    /// Also where a hidden type is a type variable.
    fn with_infer(self) -> RerunCondition
        ensures { access_of result ≡ joined_accesses any_infer (access_of self) }
    {
        match self {
            RerunCondition::Never | RerunCondition::AnyOpaqueHasInferAsHidden => {
                RerunCondition::AnyOpaqueHasInferAsHidden
            }
            RerunCondition::OpaqueInStorage(ids)
            | RerunCondition::OpaqueInStorageOrAnyOpaqueHasInferAsHidden(ids) => {
                RerunCondition::OpaqueInStorageOrAnyOpaqueHasInferAsHidden(ids)
            }
            RerunCondition::Always => RerunCondition::Always,
        }
    }

    /// Also where one of these has a hidden type. They stand first.
    fn behind(&self, ids: &Vec<AliasId>) -> Result<RerunCondition, Fault>
        ensures joined { IfOk result (λ c. access_of c ≡ joined_accesses (in_storage
            (numbers_of ids.now.items)) (access_of self.now)) }
        ensures memory { IsOkUnless result Fault.Memory }
    {
        Ok(match self {
            RerunCondition::Never => RerunCondition::OpaqueInStorage(ids.clone()?),
            RerunCondition::OpaqueInStorage(more) => {
                RerunCondition::OpaqueInStorage(united(ids, more)?)
            }
            RerunCondition::AnyOpaqueHasInferAsHidden => {
                RerunCondition::OpaqueInStorageOrAnyOpaqueHasInferAsHidden(ids.clone()?)
            }
            RerunCondition::OpaqueInStorageOrAnyOpaqueHasInferAsHidden(more) => {
                RerunCondition::OpaqueInStorageOrAnyOpaqueHasInferAsHidden(united(ids, more)?)
            }
            RerunCondition::Always => RerunCondition::Always,
        })
    }
}

/// The first list, and behind it what it lacks of the second.
fn united(first: &Vec<AliasId>, second: &[AliasId]) -> Result<Vec<AliasId>, AllocError>
    ensures { IfOk result (λ ids. numbers_of ids.items ≡ united (numbers_of first.now.items)
        (numbers_of second.now)) }
{
    let mut ids = first.clone()?;
    for i in 0..second.len() {
        if !is_listed(&ids, second[i]) {
            ids.push(second[i])?;
        }
    }
    Ok(ids)
}

/// Whether an id is in a list.
pub fn is_listed(ids: &[AliasId], id: AliasId) -> bool
    ensures { result ≡ is_in (numbers_of ids.now) id.number }
{
    for i in 0..ids.len() {
        if ids[i].number == id.number {
            return true;
        }
    }
    false
}
