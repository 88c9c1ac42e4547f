//! What all handles share, and the tests of terms.
ghost use Rattle.std.specs.Prelude.{◌≡◌, ◌↔◌, ◌≢◌, true, false, Some, IsTrue};
ghost use Rattle.nts_model.specs.Terms.Trees.{Place, is, any_term, any_argument, arguments, environment, bound_predicate, sort_list, FitsPlace, a_type, a_region, a_const, kind_of_label, any_label, is_infer, is_canonical, IsClosed};
ghost use Rattle.nts_store.specs.declared.nodes.NodeId.{NodeId};
ghost use Rattle.nts_store.specs.Growth.{tree_at, IsIn};
ghost use Rattle.nts_terms.specs.Handles.{Holds};

use crate::cx::Cx;
use crate::handles::{
    BoundVars, Const, GenericArg, GenericArgs, ParamEnv, Predicate, Region, Term, Ty,
};
use nts_model::{Label, ListHead, Sort};
use nts_store::{NodeId, sort_of};

/// A handle of a term of a store.
pub trait Stored: Copy {
    ghost place: { Place };

    ghost id: { Self → NodeId };

    /// The number in the store.
    fn node(self) -> NodeId
        ensures { result ≡ id self };

    /// The handle of a number. It stands for something only where the number's node is of the kind.
    fn from_node(node: NodeId) -> Self
        ensures { id result ≡ node };

    /// Whether a node with this label is what such a handle stands for.
    fn may_have(label: Label) -> bool
        ensures { IsTrue result ↔ FitsPlace place (Some (kind_of_label label)) };
}

impl Stored for Ty {
    ghost place = { a_type };

    ghost id = { λ t. t.node };

    fn node(self) -> NodeId {
        self.node
    }

    fn from_node(node: NodeId) -> Ty {
        Ty { node }
    }

    #[tactic(auto, using(crate::proofs::Places::sort_tests))]
    fn may_have(label: Label) -> bool {
        matches!(sort_of(label), Some(Sort::Ty))
    }
}

impl Stored for Region {
    ghost place = { a_region };

    ghost id = { λ r. r.node };

    fn node(self) -> NodeId {
        self.node
    }

    fn from_node(node: NodeId) -> Region {
        Region { node }
    }

    #[tactic(auto, using(crate::proofs::Places::sort_tests))]
    fn may_have(label: Label) -> bool {
        matches!(sort_of(label), Some(Sort::Region))
    }
}

impl Stored for Const {
    ghost place = { a_const };

    ghost id = { λ c. c.node };

    fn node(self) -> NodeId {
        self.node
    }

    fn from_node(node: NodeId) -> Const {
        Const { node }
    }

    #[tactic(auto, using(crate::proofs::Places::sort_tests))]
    fn may_have(label: Label) -> bool {
        matches!(sort_of(label), Some(Sort::Const))
    }
}

impl Stored for Term {
    ghost place = { any_term };

    ghost id = { λ t. t.node };

    fn node(self) -> NodeId {
        self.node
    }

    fn from_node(node: NodeId) -> Term {
        Term { node }
    }

    #[tactic(auto, using(crate::proofs::Places::sort_tests))]
    fn may_have(label: Label) -> bool {
        matches!(sort_of(label), Some(Sort::Ty | Sort::Const))
    }
}

impl Stored for GenericArg {
    ghost place = { any_argument };

    ghost id = { λ a. a.node };

    fn node(self) -> NodeId {
        self.node
    }

    fn from_node(node: NodeId) -> GenericArg {
        GenericArg { node }
    }

    #[tactic(auto, using(crate::proofs::Places::sort_tests))]
    fn may_have(label: Label) -> bool {
        sort_of(label).is_some()
    }
}

impl Stored for GenericArgs {
    ghost place = { is arguments };

    ghost id = { λ a. a.node };

    fn node(self) -> NodeId {
        self.node
    }

    fn from_node(node: NodeId) -> GenericArgs {
        GenericArgs { node }
    }

    #[tactic(auto, using(crate::proofs::Places::list_tests))]
    fn may_have(label: Label) -> bool {
        matches!(label, Label::List(ListHead::Args))
    }
}

impl Stored for Predicate {
    ghost place = { is bound_predicate };

    ghost id = { λ p. p.node };

    fn node(self) -> NodeId {
        self.node
    }

    fn from_node(node: NodeId) -> Predicate {
        Predicate { node }
    }

    #[tactic(auto, using(crate::proofs::Places::list_tests))]
    fn may_have(label: Label) -> bool {
        matches!(label, Label::List(ListHead::Binder))
    }
}

impl Stored for ParamEnv {
    ghost place = { is environment };

    ghost id = { λ e. e.node };

    fn node(self) -> NodeId {
        self.node
    }

    fn from_node(node: NodeId) -> ParamEnv {
        ParamEnv { node }
    }

    #[tactic(auto, using(crate::proofs::Places::list_tests))]
    fn may_have(label: Label) -> bool {
        matches!(label, Label::List(ListHead::Env))
    }
}

impl Stored for BoundVars {
    ghost place = { is sort_list };

    ghost id = { λ v. v.node };

    fn node(self) -> NodeId {
        self.node
    }

    fn from_node(node: NodeId) -> BoundVars {
        BoundVars { node }
    }

    #[tactic(auto, using(crate::proofs::Places::list_tests))]
    fn may_have(label: Label) -> bool {
        matches!(label, Label::List(ListHead::Sorts))
    }
}

impl Cx {
    /// Whether a handle is of this store, and stands for what its type says.
    pub fn holds<T: Stored>(&self, x: T) -> bool
        ensures { IsTrue result ↔ Holds T.place self.now.nodes (T.id x) }
    {
        let node = x.node();
        self.nodes.contains(node) && T::may_have(self.nodes.label(node))
    }

    /// Whether two terms have equal trees: exactly if they have one number.
    pub fn same<T: Stored>(&self, a: T, b: T) -> bool
        requires a_in { IsIn self.now.nodes (T.id a) }
        requires b_in { IsIn self.now.nodes (T.id b) }
        ensures tree { IsTrue result ↔ (tree_at self.now.nodes (T.id a) ≡ tree_at self.now.nodes
            (T.id b)) }
        ensures one { IsTrue result ↔ (T.id a ≡ T.id b) }
    {
        self.nodes.same(a.node(), b.node())
    }

    /// Whether some bound variable of a term has its binder outside of the term.
    #[tactic(auto, using(nts_store::proofs::Escaping::closed_by_facts, nts_store::proofs::Escaping::open_by_facts))]
    pub fn has_escaping_bound_vars<T: Stored>(&self, x: T) -> bool
        requires { IsIn self.now.nodes (T.id x) }
        ensures yes { result ≡ true → ¬ IsClosed (tree_at self.now.nodes (T.id x)) }
        ensures no { result ≡ false → IsClosed (tree_at self.now.nodes (T.id x)) }
    {
        self.nodes.flags(x.node()).escaping.is_some()
    }

    /// Whether some bound variable of a term names a position of a canonical value.
    pub fn has_canonical_bound<T: Stored>(&self, x: T) -> bool
        requires { IsIn self.now.nodes (T.id x) }
        ensures { result ≡ any_label is_canonical (tree_at self.now.nodes (T.id x)) }
    {
        self.nodes.flags(x.node()).has_canonical
    }

    /// Whether a term has an inference variable that is no region.
    pub fn has_non_region_infer<T: Stored>(&self, x: T) -> bool
        requires { IsIn self.now.nodes (T.id x) }
        ensures { result ≡ any_label is_infer (tree_at self.now.nodes (T.id x)) }
    {
        self.nodes.flags(x.node()).has_infer
    }
}
