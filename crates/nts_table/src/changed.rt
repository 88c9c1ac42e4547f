//! Whether something became known of a variable.
ghost use Rattle.std.specs.Prelude.{◌≡◌, true, false};
ghost use Rattle.nts_store.specs.Growth.{tree_at};
ghost use Rattle.nts_terms.specs.Handles.{HoldsArg};
ghost use Rattle.nts_unify.specs.Unchanged.{IsUnchanged};

use crate::infer_ctxt::InferCtxt;
use nts_terms::{Cx, GenericArg};
use nts_unify::{State, named_variable};

impl InferCtxt {
    /// Whether the argument is a variable that the table lacks, or of which more is known than that it
    /// is the root of its class.
    pub fn is_changed_arg(&self, cx: &Cx, arg: GenericArg) -> bool
        requires { HoldsArg cx.now.nodes arg }
        ensures unchanged { result ≡ false →
            IsUnchanged self.now.entries (tree_at cx.now.nodes arg.node) }
        ensures changed { result ≡ true →
            IsUnchanged self.now.entries (tree_at cx.now.nodes arg.node) → ⊥ }
    {
        match named_variable(cx.nodes.label(arg.node)) {
            None => false,
            Some((kind, n)) => {
                if n >= self.variable_count() {
                    return true;
                }
                let variable = self.variable(n);
                variable.kind != kind || !matches!(variable.state, State::Unset)
            }
        }
    }
}
