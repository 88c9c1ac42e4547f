//! Conditions and modes as data.
use nts_certainty::RerunCondition;
use nts_terms::{AliasId, TypingMode};
use std::alloc::{AllocError, Global};

/// A condition, with the numbers of aliases.
#[derive(Clone, Copy)]
pub enum Condition {
    Never,
    Ids(&'static [usize]),
    /// A hidden type that is a type variable.
    Open,
    IdsOrOpen(&'static [usize]),
    Always,
}

/// A mode, with the numbers of the aliases that it lists.
#[derive(Clone, Copy)]
pub enum Mode {
    Coherence,
    Analysis(&'static [usize]),
    Borrowck(&'static [usize]),
    PostAnalysis,
    Erased,
}

pub fn condition_of(alloc: Global, condition: Condition) -> Result<RerunCondition, AllocError> {
    Ok(match condition {
        Condition::Never => RerunCondition::Never,
        Condition::Ids(numbers) => RerunCondition::OpaqueInStorage(ids_of(alloc, numbers)?),
        Condition::Open => RerunCondition::AnyOpaqueHasInferAsHidden,
        Condition::IdsOrOpen(numbers) => {
            let ids = ids_of(alloc, numbers)?;
            RerunCondition::OpaqueInStorageOrAnyOpaqueHasInferAsHidden(ids)
        }
        Condition::Always => RerunCondition::Always,
    })
}

pub fn mode_of(alloc: Global, mode: Mode) -> Result<TypingMode, AllocError> {
    Ok(match mode {
        Mode::Coherence => TypingMode::Coherence,
        Mode::Analysis(numbers) => TypingMode::Analysis {
            defining_opaque_types_and_generators: ids_of(alloc, numbers)?,
        },
        Mode::Borrowck(numbers) => TypingMode::Borrowck {
            defining_opaque_types: ids_of(alloc, numbers)?,
        },
        Mode::PostAnalysis => TypingMode::PostAnalysis,
        Mode::Erased => TypingMode::ErasedNotCoherence,
    })
}

pub fn ids_of(alloc: Global, numbers: &[usize]) -> Result<Vec<AliasId>, AllocError> {
    let mut ids = Vec::new(alloc);
    for number in numbers {
        ids.push(AliasId { number: *number })?;
    }
    Ok(ids)
}

/// Whether a condition is this one.
pub fn is(found: &RerunCondition, wanted: Condition) -> bool {
    match (found, wanted) {
        (RerunCondition::Never, Condition::Never) => true,
        (RerunCondition::OpaqueInStorage(ids), Condition::Ids(numbers)) => are(ids, numbers),
        (RerunCondition::AnyOpaqueHasInferAsHidden, Condition::Open) => true,
        (
            RerunCondition::OpaqueInStorageOrAnyOpaqueHasInferAsHidden(ids),
            Condition::IdsOrOpen(numbers),
        ) => are(ids, numbers),
        (RerunCondition::Always, Condition::Always) => true,
        _ => false,
    }
}

fn are(ids: &[AliasId], numbers: &[usize]) -> bool {
    if ids.len() != numbers.len() {
        return false;
    }
    for i in 0..ids.len() {
        if ids[i].number != numbers[i] {
            return false;
        }
    }
    true
}
