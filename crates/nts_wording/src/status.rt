//! How a run ends, and why it ends early.
ghost use Rattle.std.specs.Prelude.{◌≡◌, ◌<◌, false};
ghost use Rattle.nts_wording.specs.declared.status.Stop.TheVariants.{Memory};
ghost use Rattle.nts_wording.specs.Statuses.{code_of, is_refusal, stop_of_text, stop_of_read, status_of};

use nts_store::Fault;
use nts_text::{ReadError, Refusal, TextError};
use std::alloc::{AllocError, AllocFailed};
use std::io::{self, ErrorKind};
use thiserror::Error;

/// How a run ended.
#[derive(Clone, Copy, Debug, PartialEq, Eq)]
pub enum Status {
    /// At the end of the input.
    Done,
    /// At a read or a write that failed.
    Failed,
    /// At a line that was refused.
    Refused,
    /// At a growth that was refused.
    OutOfMemory,
}

impl Status {
    /// The exit status of the process.
    pub fn code(self) -> u8
        ensures code { result ≡ code_of self }
        ensures few { result < 4 }
    {
        match self {
            Status::Done => 0,
            Status::Failed => 1,
            Status::Refused => 2,
            Status::OutOfMemory => 3,
        }
    }
}

/// Why a run ends before the end of its input.
#[derive(Clone, Copy, Debug, PartialEq, Eq, Error)]
pub enum Stop {
    #[error("out of memory")]
    Memory,
    #[error("the input or the output failed")]
    Failed,
    #[error("{0}")]
    Refused(Refusal),
}

impl Stop {
    /// The status of a run that ends so.
    pub fn status(self) -> Status
        ensures { result ≡ status_of self }
    {
        match self {
            Stop::Memory => Status::OutOfMemory,
            Stop::Failed => Status::Failed,
            Stop::Refused(_) => Status::Refused,
        }
    }
}

impl From<AllocError> for Stop {
    ghost from_gives = { λ _ s. s ≡ Memory };

    fn from(_error: AllocError) -> Stop {
        Stop::Memory
    }
}

impl<T: Drop> From<AllocFailed<T>> for Stop {
    ghost from_gives = { λ _ s. s ≡ Memory };

    fn from(_error: AllocFailed<T>) -> Stop {
        Stop::Memory
    }
}

impl From<Fault> for Stop {
    ghost from_gives = { λ _ s. s ≡ Memory };

    fn from(_fault: Fault) -> Stop {
        Stop::Memory
    }
}

impl From<TextError> for Stop {
    ghost from_gives = { λ e s. s ≡ stop_of_text e };

    fn from(error: TextError) -> Stop {
        match error {
            TextError::Memory => Stop::Memory,
            TextError::Refused(refusal) => Stop::Refused(refusal),
        }
    }
}

impl From<ReadError> for Stop {
    ghost from_gives = { λ e s. s ≡ stop_of_read e };

    fn from(error: ReadError) -> Stop {
        match error {
            ReadError::Memory => Stop::Memory,
            ReadError::Failed => Stop::Failed,
        }
    }
}

impl From<io::Error> for Stop {
    ghost from_gives = { λ _ s. is_refusal s ≡ false };

    fn from(error: io::Error) -> Stop {
        match error.kind() {
            ErrorKind::OutOfMemory => Stop::Memory,
            _ => Stop::Failed,
        }
    }
}
