//! What can be related.
ghost use Rattle.std.specs.Prelude.{◌≡◌};
ghost use Rattle.nts_model.specs.Terms.Trees.{Place, is, any_term, any_argument, arguments, a_type, a_region, a_const};
ghost use Rattle.nts_store.specs.declared.nodes.NodeId.{NodeId};

use nts_store::NodeId;
use nts_terms::{AliasTerm, Const, DefId, GenericArg, Region, Term, TraitRef, Ty};

/// What can be related: two terms of one sort, or two lists of arguments of one alias or trait.
pub trait Relate: Copy {
    ghost use Rattle.std.specs.Prelude.{Option};
    ghost use Rattle.nts_terms.specs.declared.handles.DefId.{DefId};
    ghost use Rattle.nts_solver_relating.specs.RelatedPlaces.{AreSides};

    ghost place: { Place };

    ghost id: { Self → NodeId };

    ghost head: { Self → Option DefId };

    /// The term that is related.
    fn node(self) -> NodeId
        ensures { result ≡ id self };

    /// What the arguments are of, which must be one on both sides.
    fn def(self) -> Option<DefId>
        ensures { result ≡ head self };

    /// Terms of a sort are related, or lists of arguments.
    ghost sides: { AreSides place };
}

impl Relate for Ty {
    ghost use Rattle.std.specs.Prelude.{None};
    ghost use Rattle.nts_solver_relating.specs.RelatedPlaces.{types};

    ghost place = { a_type };

    ghost id = { λ x. x.node };

    ghost head = { λ x. None };

    fn node(self) -> NodeId {
        self.node
    }

    fn def(self) -> Option<DefId> {
        None
    }

    ghost sides = { types };
}

impl Relate for Region {
    ghost use Rattle.std.specs.Prelude.{None};
    ghost use Rattle.nts_solver_relating.specs.RelatedPlaces.{regions};

    ghost place = { a_region };

    ghost id = { λ x. x.node };

    ghost head = { λ x. None };

    fn node(self) -> NodeId {
        self.node
    }

    fn def(self) -> Option<DefId> {
        None
    }

    ghost sides = { regions };
}

impl Relate for Const {
    ghost use Rattle.std.specs.Prelude.{None};
    ghost use Rattle.nts_solver_relating.specs.RelatedPlaces.{consts};

    ghost place = { a_const };

    ghost id = { λ x. x.node };

    ghost head = { λ x. None };

    fn node(self) -> NodeId {
        self.node
    }

    fn def(self) -> Option<DefId> {
        None
    }

    ghost sides = { consts };
}

impl Relate for Term {
    ghost use Rattle.std.specs.Prelude.{None};
    ghost use Rattle.nts_solver_relating.specs.RelatedPlaces.{terms};

    ghost place = { any_term };

    ghost id = { λ x. x.node };

    ghost head = { λ x. None };

    fn node(self) -> NodeId {
        self.node
    }

    fn def(self) -> Option<DefId> {
        None
    }

    ghost sides = { terms };
}

impl Relate for GenericArg {
    ghost use Rattle.std.specs.Prelude.{None};
    ghost use Rattle.nts_solver_relating.specs.RelatedPlaces.{all_arguments};

    ghost place = { any_argument };

    ghost id = { λ x. x.node };

    ghost head = { λ x. None };

    fn node(self) -> NodeId {
        self.node
    }

    fn def(self) -> Option<DefId> {
        None
    }

    ghost sides = { all_arguments };
}

impl Relate for AliasTerm {
    ghost use Rattle.std.specs.Prelude.{Some};
    ghost use Rattle.nts_terms.specs.declared.handles.DefId.TheVariants as defs;
    ghost use Rattle.nts_solver_relating.specs.RelatedPlaces.{lists};

    ghost place = { is arguments };

    ghost id = { λ x. x.args.node };

    ghost head = { λ x. Some (defs.Alias x.def_id) };

    fn node(self) -> NodeId {
        self.args.node
    }

    fn def(self) -> Option<DefId> {
        Some(DefId::Alias(self.def_id))
    }

    ghost sides = { lists };
}

impl Relate for TraitRef {
    ghost use Rattle.std.specs.Prelude.{Some};
    ghost use Rattle.nts_terms.specs.declared.handles.DefId.TheVariants as defs;
    ghost use Rattle.nts_solver_relating.specs.RelatedPlaces.{lists};

    ghost place = { is arguments };

    ghost id = { λ x. x.args.node };

    ghost head = { λ x. Some (defs.Trait x.def_id) };

    fn node(self) -> NodeId {
        self.args.node
    }

    fn def(self) -> Option<DefId> {
        Some(DefId::Trait(self.def_id))
    }

    ghost sides = { lists };
}
