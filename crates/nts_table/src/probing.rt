//! Trying something out.
ghost use Rattle.std.specs.Prelude.{◌≡◌, IfOk, IsOkUnless};
ghost use Rattle.std.specs.Fn.{FnOnceReturnsAtMut};
ghost use Rattle.nts_table.specs.Tables.{Table};
ghost use Rattle.nts_table.specs.Probing.{ProbeAnswers};

use crate::infer_ctxt::InferCtxt;
use nts_store::Fault;

impl InferCtxt {
    /// What `f` answers, which ends the snapshots that it starts. Afterwards the table is as before.
    pub fn probe<R, F: FnOnce(&mut InferCtxt) -> R>(&mut self, f: F) -> Result<R, Fault>
        requires callable { F.IsAlwaysCallable f }
        requires ends { (t u : Table) (r : R) → FnOnceReturnsAtMut F.FnOnce f t r u →
            u.saved ≡ t.saved }
        requires mode { (t u : Table) (r : R) → FnOnceReturnsAtMut F.FnOnce f t r u →
            u.mode ≡ t.mode }
        ensures answered { IfOk result (λ r. ProbeAnswers (λ t u.
            FnOnceReturnsAtMut F.FnOnce f t r u) self.old.entries) }
        ensures same { self.new ≡ self.old }
        ensures memory { IsOkUnless result Fault.Memory }
    {
        let snapshot = self.start_snapshot()?;
        let result = f(self);
        self.rollback_to(snapshot);
        Ok(result)
    }
}
