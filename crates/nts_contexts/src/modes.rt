//! What the mode of a context says of opaque types.
ghost use Rattle.std.specs.Prelude.{◌≢◌, ◌↔◌, IsTrue};
ghost use Rattle.nts_model.specs.Derivations.Rules.{erased};
ghost use Rattle.nts_terms.specs.Modes.{mode_of};
ghost use Rattle.nts_certainty.specs.Deciding.{IsRigidIn};

use crate::context::EvalCtxt;
use nts_certainty::opaque_type_is_rigid;
use nts_delegate::GoalHandler;
use nts_terms::AliasId;

impl<H: GoalHandler> EvalCtxt<'_, H> {
    /// Whether an opaque type stands for itself alone here, since no rule may look behind it: in the analysis, and where borrows
    /// are checked, one that the mode of the table does not list. In coherence and after the analysis none does. It is not to be
    /// asked in the erased mode.
    pub fn opaque_type_is_rigid(&self, def_id: AliasId) -> bool
        requires mode { mode_of self.now.table.now.mode ≢ erased }
        ensures rigid { IsTrue result ↔ IsRigidIn (mode_of self.now.table.now.mode) def_id.number }
    {
        opaque_type_is_rigid(self.table.typing_mode(), def_id)
    }
}
