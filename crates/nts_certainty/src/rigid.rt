//! Which opaque types stand for themselves alone.
ghost use Rattle.std.specs.Prelude.{◌≢◌, ◌↔◌, IsTrue};
ghost use Rattle.nts_terms.specs.nts_model.specs.Derivations.Rules.{erased};
ghost use Rattle.nts_terms.specs.Modes.{mode_of};
ghost use Rattle.nts_certainty.specs.Deciding.{IsRigidIn};

use crate::reruns::is_listed;
use nts_terms::{AliasId, TypingMode};

/// Whether an opaque type stands for itself alone in this mode, since no rule may look behind it: in the analysis, and where
/// borrows are checked, one that the mode does not list. In coherence and after the analysis none does. It is not to be asked
/// in the erased mode, which knows no hidden types.
pub fn opaque_type_is_rigid(mode: &TypingMode, def_id: AliasId) -> bool
    requires { mode_of mode.now ≢ erased }
    ensures { IsTrue result ↔ IsRigidIn (mode_of mode.now) def_id.number }
{
    match mode {
        TypingMode::Coherence | TypingMode::PostAnalysis | TypingMode::ErasedNotCoherence => false,
        TypingMode::Analysis {
            defining_opaque_types_and_generators: listed,
        } => !is_listed(listed, def_id),
        TypingMode::Borrowck {
            defining_opaque_types: listed,
        }
        | TypingMode::PostBorrowckAnalysis {
            defined_opaque_types: listed,
        } => !is_listed(listed, def_id),
    }
}
