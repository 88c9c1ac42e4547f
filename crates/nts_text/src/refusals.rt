//! Why a line is refused.

ghost use Rattle.std.specs.Prelude.{◌≡◌, Some};
ghost use Rattle.nts_text.specs.Reasons.{words_of};
ghost use Rattle.nts_text.specs.declared.refusals.TextError.TheVariants.{Memory};

use std::alloc::{AllocError, AllocFailed};
use std::fmt;
use thiserror::Error;

/// Why a line is refused. A line has one reason: of those that stand in it, the first of these
/// rows, and of the reasons about names, which share the last row, the leftmost.
#[derive(Clone, Copy, Debug, PartialEq, Eq)]
pub enum Refusal {
    UnknownCommand,
    Syntax,
    NumberOutOfRange,
    UnknownName,
    NameDeclaredTwice,
    WrongArguments,
    ParameterInAClause,
    VariableInAnEnvironment,
    AliasIsRigid,
}

impl Refusal {
    /// How the reason is printed.
    pub fn words(self) -> &'static str
        ensures { result.now ≡ words_of self }
    {
        match self {
            Refusal::UnknownCommand => "unknown command",
            Refusal::Syntax => "syntax",
            Refusal::NumberOutOfRange => "number out of range",
            Refusal::UnknownName => "unknown name",
            Refusal::NameDeclaredTwice => "name declared twice",
            Refusal::WrongArguments => "wrong arguments",
            Refusal::ParameterInAClause => "parameter in a clause",
            Refusal::VariableInAnEnvironment => "variable in an environment",
            Refusal::AliasIsRigid => "alias is rigid",
        }
    }
}

impl fmt::Display for Refusal {
    ghost output = { λ r. Some (words_of r) };

    fn fmt<W: fmt::Write>(&self, f: &mut fmt::Formatter<W>) -> fmt::Result {
        f.write_str(self.words())
    }
}

/// Why a line is not taken: memory ran out, or the line itself is at fault.
#[derive(Clone, Copy, Debug, PartialEq, Eq, Error)]
pub enum TextError {
    #[error("out of memory")]
    Memory,
    #[error("{0}")]
    Refused(Refusal),
}

impl From<AllocError> for TextError {
    ghost from_gives = { λ _ e. e ≡ Memory };

    fn from(_error: AllocError) -> TextError {
        TextError::Memory
    }
}

impl<T: Drop> From<AllocFailed<T>> for TextError {
    ghost from_gives = { λ _ e. e ≡ Memory };

    fn from(_error: AllocFailed<T>) -> TextError {
        TextError::Memory
    }
}
