//! Whether arguments are of the sorts that were declared.
ghost use Rattle.std.specs.Prelude.{◌≡◌, ◌↔◌, Some, IsTrue};
ghost use Rattle.nts_model.specs.Terms.Trees.{children, kind_of, of_sort};
ghost use Rattle.nts_store.specs.Growth.{tree_at};
ghost use Rattle.nts_terms.specs.Handles.{HoldsArg, HoldsArgs};
ghost use Rattle.nts_terms.specs.Signatures.{HaveSorts, AreDeclared};

use crate::cx::Cx;
use crate::handles::{DefId, GenericArg, GenericArgs};
use nts_model::Sort;
use nts_store::sort_of;

impl Cx {
    /// Whether that is declared, and takes arguments of just these sorts.
    pub fn fits(&self, def: DefId, args: GenericArgs) -> bool
        requires { HoldsArgs self.now.nodes args }
        ensures { IsTrue result ↔ AreDeclared self.now.declarations def
            (tree_at self.now.nodes args.node) }
    {
        match self.declarations.sorts(def) {
            Some(sorts) => self.have_sorts(args, sorts),
            None => false,
        }
    }

    fn have_sorts(&self, args: GenericArgs, sorts: &[Sort]) -> bool
        requires { HoldsArgs self.now.nodes args }
        ensures { IsTrue result ↔ HaveSorts sorts.now
            (children (tree_at self.now.nodes args.node)) }
    {
        if args.len(self) != sorts.len() {
            return false;
        }
        for (i, sort) in sorts.iter().enumerate() {
            if !self.has_sort(args.get(self, i), *sort) {
                return false;
            }
        }
        true
    }

    #[tactic(auto, using(crate::proofs::Places::sort_tests))]
    fn has_sort(&self, arg: GenericArg, sort: Sort) -> bool
        requires { HoldsArg self.now.nodes arg }
        ensures { IsTrue result ↔ (kind_of (tree_at self.now.nodes arg.node) ≡ Some
            (of_sort sort)) }
    {
        match sort_of(self.nodes.label(arg.node)) {
            Some(its_sort) => its_sort == sort,
            None => false,
        }
    }
}
