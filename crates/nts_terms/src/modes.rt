//! In which mode goals are asked, and what stands beside them.
ghost use Rattle.std.specs.Prelude.{◌≡◌, ◌↔◌, IsTrue, IfOk, IsOkUnless};
ghost use Rattle.nts_terms.specs.Modes.{mode_of};

use crate::handles::AliasId;
use nts_store::Fault;

/// What a goal may know of hidden types.
#[derive(PartialEq, Eq, Drop)]
pub enum TypingMode {
    /// Whether impls overlap: an answer must hold for all that may be added.
    Coherence,
    Analysis {
        defining_opaque_types_and_generators: Vec<AliasId>,
    },
    Borrowck {
        defining_opaque_types: Vec<AliasId>,
    },
    PostBorrowckAnalysis {
        defined_opaque_types: Vec<AliasId>,
    },
    PostAnalysis,
    ErasedNotCoherence,
}

impl TypingMode {
    /// The same mode once more.
    pub fn clone(&self) -> Result<TypingMode, Fault>
        ensures same { IfOk result (λ m. mode_of m ≡ mode_of self.now) }
        ensures memory { IsOkUnless result Fault.Memory }
    {
        Ok(match self {
            TypingMode::Coherence => TypingMode::Coherence,
            TypingMode::Analysis {
                defining_opaque_types_and_generators: ids,
            } => TypingMode::Analysis {
                defining_opaque_types_and_generators: ids.clone()?,
            },
            TypingMode::Borrowck {
                defining_opaque_types: ids,
            } => TypingMode::Borrowck {
                defining_opaque_types: ids.clone()?,
            },
            TypingMode::PostBorrowckAnalysis {
                defined_opaque_types: ids,
            } => TypingMode::PostBorrowckAnalysis {
                defined_opaque_types: ids.clone()?,
            },
            TypingMode::PostAnalysis => TypingMode::PostAnalysis,
            TypingMode::ErasedNotCoherence => TypingMode::ErasedNotCoherence,
        })
    }

    /// Whether two modes are one: of one kind, with the same opaque types in the same order.
    pub fn same(&self, other: &TypingMode) -> bool
        ensures { IsTrue result ↔ (mode_of self.now ≡ mode_of other.now) }
    {
        self == other
    }
}

/// Whether the leak check sees a region constraint.
#[derive(Clone, Copy, PartialEq, Eq)]
pub enum VisibleForLeakCheck {
    Yes,
    No,
}

/// A place in the user's text, which is passed through and has no meaning.
#[derive(Clone, Copy, PartialEq, Eq)]
pub struct Span(pub u64);

/// A universe by its number. The root is 0, and a universe can name each one up to itself.
pub type UniverseIndex = u32;
