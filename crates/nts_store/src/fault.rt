//! Why a call gives up.
ghost use Rattle.std.specs.Prelude.{◌≡◌};
ghost use Rattle.nts_store.specs.declared.fault.Fault.TheVariants.{Memory};
ghost use Rattle.nts_store.specs.Errors.{error_of};

use std::alloc::{AllocError, AllocFailed};
use thiserror::Error;

/// Something that a call needed was refused.
#[derive(Clone, Copy, Debug, PartialEq, Eq, Error)]
pub enum Fault {
    /// A growth was refused.
    #[error("out of memory")]
    Memory,
    /// A universe past the last one was asked for.
    #[error("no universe is left")]
    Full,
}

impl<T: Drop> From<AllocFailed<T>> for Fault {
    ghost from_gives = { λ _ e. e ≡ Memory };

    fn from(_e: AllocFailed<T>) -> Fault {
        Fault::Memory
    }
}

impl From<AllocError> for Fault {
    ghost from_gives = { λ _ e. e ≡ Memory };

    fn from(_e: AllocError) -> Fault {
        Fault::Memory
    }
}

/// Why an evaluation has no answer.
#[derive(Clone, Copy, Debug, PartialEq, Eq, Error)]
pub enum EvalError {
    /// No solution exists.
    #[error("no solution")]
    NoSolution,
    /// A growth was refused.
    #[error("out of memory")]
    Memory,
    /// A universe past the last one was asked for.
    #[error("no universe is left")]
    Full,
}

impl<T: Drop> From<AllocFailed<T>> for EvalError {
    ghost use Rattle.nts_store.specs.declared.fault.EvalError.TheVariants.{Memory};

    ghost from_gives = { λ _ e. e ≡ Memory };

    fn from(_e: AllocFailed<T>) -> EvalError {
        EvalError::Memory
    }
}

impl From<AllocError> for EvalError {
    ghost use Rattle.nts_store.specs.declared.fault.EvalError.TheVariants.{Memory};

    ghost from_gives = { λ _ e. e ≡ Memory };

    fn from(_e: AllocError) -> EvalError {
        EvalError::Memory
    }
}

impl From<Fault> for EvalError {
    ghost from_gives = { λ f e. e ≡ error_of f };

    fn from(f: Fault) -> EvalError {
        match f {
            Fault::Memory => EvalError::Memory,
            Fault::Full => EvalError::Full,
        }
    }
}
