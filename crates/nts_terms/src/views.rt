//! Reading the kinds of terms off their nodes.
ghost use Rattle.std.specs.Prelude.{◌≡◌, ◌↔◌, IsTrue, List, [], ◌∷◌};
ghost use Rattle.nts_model.specs.Terms.Trees.{Tree, node, more, empty, children, sort_of_leaf, shape, Meets, Place, is, arguments, bound_predicate, sort_list, statement, a_result, HavePlaces};
ghost use Rattle.nts_model.specs.Derivations.Sequents.{HasClosedStatement};
ghost use Rattle.nts_model.specs.declared.labels.Sort.TheVariants as sort;
ghost use Rattle.nts_model.specs.declared.labels.ListHead.TheVariants as list;
ghost use Rattle.nts_model.specs.declared.labels.Label.TheVariants as label;
ghost use Rattle.nts_store.specs.Growth.{tree_at, IsIn};
ghost use Rattle.nts_terms.specs.Handles.{Holds, HoldsTy, HoldsRegion, HoldsConst, HoldsTerm, HoldsArg, HoldsArgs, HoldsPredicate, HoldsResult, alias_head};
ghost use Rattle.nts_terms.specs.Kinds.{IsOne, AreTwo, one, two, tree_of_ty, TyFits, tree_of_region, tree_of_const, ConstFits, tree_of_clause, ClauseFits, tree_of_statement, StatementFits, tree_of_predicate, PredicateFits, node_of_term, TermFits, node_of_argument, ArgumentFits};

use crate::cx::Cx;
use crate::handles::{
    AliasDefId, AliasId, AliasTerm, Binder, BoundConst, BoundRegion, BoundTy, BoundVars, Const,
    ConstId, CtorId, FnSig, GenericArg, GenericArgs, PlaceholderConst, PlaceholderRegion,
    PlaceholderType, Predicate, Region, Term, TraitId, TraitRef, Ty,
};
use crate::kinds::{
    ClauseKind, ConstKind, GenericArgKind, InferTy, PredicateKind, RegionKind, TermKind, TyKind,
};
use nts_model::{
    AliasHead, ClauseHead, ConstHead, Constant, FreeRegion, Label, Leaf, ListHead, PredicateHead,
    Sort, TyHead, VariableKind,
};
use nts_store::{NodeId, Nodes, sort_of};

/// The child of a term that has one.
#[tactic(auto, using(crate::proofs::Places::counts))]
fn only_child(nodes: &Nodes, t: NodeId) -> NodeId
    requires within { IsIn nodes.now t }
    requires one { IsOne (children (tree_at nodes.now t)) }
    ensures within { IsIn nodes.now result }
    ensures is { children (tree_at nodes.now t) ≡ one nodes.now result }
    ensures holds { (p : Place) → HavePlaces (p ∷ []) (children (tree_at nodes.now t)) →
        Holds p nodes.now result }
{
    nodes.child(t, 0)
}

/// The children of a term that has two.
#[tactic(auto, using(crate::proofs::Places::counts))]
fn both_children(nodes: &Nodes, t: NodeId) -> (NodeId, NodeId)
    requires within { IsIn nodes.now t }
    requires two { AreTwo (children (tree_at nodes.now t)) }
    ensures is { children (tree_at nodes.now t) ≡ two nodes.now result.0 result.1 }
    ensures holds { (p q : Place) → HavePlaces (p ∷ q ∷ []) (children (tree_at nodes.now t)) →
        Holds p nodes.now result.0 × Holds q nodes.now result.1 }
{
    (nodes.child(t, 0), nodes.child(t, 1))
}

impl Ty {
    /// What the type is.
    #[tactic(auto, using(crate::proofs::Places::places))]
    pub fn kind(self, cx: &Cx) -> TyKind
        requires { HoldsTy cx.now.nodes self }
        ensures tree { tree_at cx.now.nodes self.node ≡ tree_of_ty cx.now.nodes result }
        ensures fits { TyFits cx.now.nodes result }
    {
        let nodes = &cx.nodes;
        match nodes.label(self.node) {
            Label::Leaf(leaf) => ty_of_leaf(leaf),
            Label::Bound(_, index, var) => TyKind::Bound(index, BoundTy { var }),
            Label::Ty(TyHead::Ctor(number)) => {
                let args = GenericArgs {
                    node: only_child(nodes, self.node),
                };
                TyKind::Ctor(CtorId { number }, args)
            }
            Label::Ty(TyHead::Int(int)) => TyKind::Int(int),
            Label::Ty(TyHead::Uint(uint)) => TyKind::Uint(uint),
            Label::Ty(TyHead::Float(float)) => TyKind::Float(float),
            Label::Ty(TyHead::FnPtr) => {
                let (vars, args) = both_children(nodes, self.node);
                TyKind::FnPtr(Binder {
                    vars: BoundVars { node: vars },
                    value: FnSig {
                        inputs_and_output: GenericArgs { node: args },
                    },
                })
            }
            Label::Ty(TyHead::Alias(number)) => {
                let args = GenericArgs {
                    node: only_child(nodes, self.node),
                };
                let def_id = AliasDefId::Ty(AliasId { number });
                TyKind::Alias(AliasTerm { def_id, args })
            }
            Label::Ty(TyHead::Error) => TyKind::Error,
            Label::Const(_) => unreachable!(),
            Label::Clause(_) => unreachable!(),
            Label::Predicate(_) => unreachable!(),
            Label::List(_) => unreachable!(),
        }
    }
}

/// A type that is a leaf.
fn ty_of_leaf(leaf: Leaf) -> TyKind
    requires { sort_of_leaf leaf ≡ sort.Ty }
    ensures tree { (ts : List Tree) → tree_of_ty ts result ≡ node (label.Leaf leaf) empty }
    ensures fits { (ts : List Tree) → TyFits ts result }
{
    match leaf {
        Leaf::Variable(VariableKind::Ty, n) => TyKind::Infer(InferTy::TyVar(n)),
        Leaf::Variable(VariableKind::Int, n) => TyKind::Infer(InferTy::IntVar(n)),
        Leaf::Variable(VariableKind::Float, n) => TyKind::Infer(InferTy::FloatVar(n)),
        Leaf::Variable(VariableKind::Const, _) => unreachable!(),
        Leaf::Variable(VariableKind::Region, _) => unreachable!(),
        Leaf::TyConstant(Constant::Param(n)) => TyKind::Param(n),
        Leaf::TyConstant(Constant::Placeholder(universe, var)) => {
            TyKind::Placeholder(PlaceholderType {
                universe,
                bound: BoundTy { var },
            })
        }
        Leaf::ConstConstant(_) => unreachable!(),
        Leaf::Region(_) => unreachable!(),
    }
}

impl Region {
    /// What the region is.
    #[tactic(auto, using(crate::proofs::Places::places))]
    pub fn kind(self, cx: &Cx) -> RegionKind
        requires { HoldsRegion cx.now.nodes self }
        ensures { tree_at cx.now.nodes self.node ≡ tree_of_region result }
    {
        match cx.nodes.label(self.node) {
            Label::Leaf(Leaf::Region(FreeRegion::Static)) => RegionKind::ReStatic,
            Label::Leaf(Leaf::Region(FreeRegion::EarlyParam(n))) => RegionKind::ReEarlyParam(n),
            Label::Leaf(Leaf::Region(FreeRegion::LateParam(n))) => RegionKind::ReLateParam(n),
            Label::Leaf(Leaf::Region(FreeRegion::Placeholder(universe, var))) => {
                let bound = BoundRegion { var };
                RegionKind::RePlaceholder(PlaceholderRegion { universe, bound })
            }
            Label::Leaf(Leaf::Region(FreeRegion::Erased)) => RegionKind::ReErased,
            Label::Leaf(Leaf::Region(FreeRegion::Error)) => RegionKind::ReError,
            Label::Leaf(Leaf::Variable(VariableKind::Region, n)) => RegionKind::ReVar(n),
            Label::Bound(_, index, var) => RegionKind::ReBound(index, BoundRegion { var }),
            Label::Leaf(Leaf::Variable(_, _)) => unreachable!(),
            Label::Leaf(Leaf::TyConstant(_)) => unreachable!(),
            Label::Leaf(Leaf::ConstConstant(_)) => unreachable!(),
            Label::Ty(_) => unreachable!(),
            Label::Const(_) => unreachable!(),
            Label::Clause(_) => unreachable!(),
            Label::Predicate(_) => unreachable!(),
            Label::List(_) => unreachable!(),
        }
    }
}

impl Const {
    /// What the const is.
    #[tactic(auto, using(crate::proofs::Places::places))]
    pub fn kind(self, cx: &Cx) -> ConstKind
        requires { HoldsConst cx.now.nodes self }
        ensures tree { tree_at cx.now.nodes self.node ≡ tree_of_const cx.now.nodes result }
        ensures fits { ConstFits cx.now.nodes result }
    {
        let nodes = &cx.nodes;
        match nodes.label(self.node) {
            Label::Leaf(Leaf::ConstConstant(Constant::Param(n))) => ConstKind::Param(n),
            Label::Leaf(Leaf::ConstConstant(Constant::Placeholder(universe, var))) => {
                let bound = BoundConst { var };
                ConstKind::Placeholder(PlaceholderConst { universe, bound })
            }
            Label::Leaf(Leaf::Variable(VariableKind::Const, n)) => ConstKind::Infer(n),
            Label::Bound(_, index, var) => ConstKind::Bound(index, BoundConst { var }),
            Label::Const(ConstHead::Unevaluated(number)) => {
                let args = GenericArgs {
                    node: only_child(nodes, self.node),
                };
                let def_id = AliasDefId::Const(ConstId { number });
                ConstKind::Unevaluated(AliasTerm { def_id, args })
            }
            Label::Const(ConstHead::Value(bits)) => {
                let ty = Ty {
                    node: only_child(nodes, self.node),
                };
                ConstKind::Value { ty, bits }
            }
            Label::Const(ConstHead::Error) => ConstKind::Error,
            Label::Leaf(Leaf::Variable(_, _)) => unreachable!(),
            Label::Leaf(Leaf::TyConstant(_)) => unreachable!(),
            Label::Leaf(Leaf::Region(_)) => unreachable!(),
            Label::Ty(_) => unreachable!(),
            Label::Clause(_) => unreachable!(),
            Label::Predicate(_) => unreachable!(),
            Label::List(_) => unreachable!(),
        }
    }
}

impl Term {
    /// Which of the two the term is.
    #[tactic(auto, using(crate::proofs::Places::sorts))]
    pub fn kind(self, cx: &Cx) -> TermKind
        requires { HoldsTerm cx.now.nodes self }
        ensures same { node_of_term result ≡ self.node }
        ensures fits { TermFits cx.now.nodes result }
    {
        match sort_of(cx.nodes.label(self.node)) {
            Some(Sort::Ty) => TermKind::Ty(Ty { node: self.node }),
            Some(Sort::Const) => TermKind::Const(Const { node: self.node }),
            Some(Sort::Region) => unreachable!(),
            None => unreachable!(),
        }
    }
}

impl GenericArg {
    /// Which of the three the argument is.
    #[tactic(auto, using(crate::proofs::Places::sorts))]
    pub fn kind(self, cx: &Cx) -> GenericArgKind
        requires { HoldsArg cx.now.nodes self }
        ensures same { node_of_argument result ≡ self.node }
        ensures fits { ArgumentFits cx.now.nodes result }
    {
        match sort_of(cx.nodes.label(self.node)) {
            Some(Sort::Region) => GenericArgKind::Lifetime(Region { node: self.node }),
            Some(Sort::Ty) => GenericArgKind::Type(Ty { node: self.node }),
            Some(Sort::Const) => GenericArgKind::Const(Const { node: self.node }),
            None => unreachable!(),
        }
    }
}

impl Predicate {
    /// What the predicate states of the variables of its binder.
    pub fn kind(self, cx: &Cx) -> Binder<PredicateKind>
        requires { HoldsPredicate cx.now.nodes self }
        ensures tree { tree_at cx.now.nodes self.node ≡ tree_of_predicate cx.now.nodes result }
        ensures fits { PredicateFits cx.now.nodes result }
    {
        let nodes = &cx.nodes;
        let (vars, body) = binder_children(nodes, self.node);
        Binder {
            vars: BoundVars { node: vars },
            value: statement_kind(nodes, body),
        }
    }

    /// Whether no bound variable names the binder, if that binds nothing.
    pub fn has_closed_statement(self, cx: &Cx) -> bool
        requires { HoldsPredicate cx.now.nodes self }
        ensures { IsTrue result ↔ HasClosedStatement (tree_at cx.now.nodes self.node) }
    {
        let nodes = &cx.nodes;
        let (vars, body) = binder_children(nodes, self.node);
        if nodes.child_count(vars) != 0 {
            return true;
        }
        nodes.flags(body).escaping.is_none()
    }
}

/// The sorts that a predicate binds, and the node of what it states of them.
#[tactic(auto, using(crate::proofs::Places::places))]
fn binder_children(nodes: &Nodes, t: NodeId) -> (NodeId, NodeId)
    requires { Holds (is bound_predicate) nodes.now t }
    ensures tree { tree_at nodes.now t ≡ node (label.List list.Binder)
        (two nodes.now result.0 result.1) }
    ensures vars { Holds (is sort_list) nodes.now result.0 }
    ensures body { Holds (is statement) nodes.now result.1 }
{
    match nodes.label(t) {
        Label::List(ListHead::Binder) => both_children(nodes, t),
        Label::List(ListHead::Args) => unreachable!(),
        Label::List(ListHead::Env) => unreachable!(),
        Label::List(ListHead::Sorts) => unreachable!(),
        Label::List(ListHead::Sort(_)) => unreachable!(),
        Label::Leaf(_) => unreachable!(),
        Label::Bound(_, _, _) => unreachable!(),
        Label::Ty(_) => unreachable!(),
        Label::Const(_) => unreachable!(),
        Label::Clause(_) => unreachable!(),
        Label::Predicate(_) => unreachable!(),
    }
}

/// What a node under a binder states.
#[tactic(auto, using(crate::proofs::Places::places))]
fn statement_kind(nodes: &Nodes, t: NodeId) -> PredicateKind
    requires { Holds (is statement) nodes.now t }
    ensures tree { tree_at nodes.now t ≡ tree_of_statement nodes.now result }
    ensures fits { StatementFits nodes.now result }
{
    match nodes.label(t) {
        Label::Clause(head) => PredicateKind::Clause(clause_kind(nodes, t, head)),
        Label::Predicate(head) => goal_kind(nodes, t, head),
        Label::Leaf(_) => unreachable!(),
        Label::Bound(_, _, _) => unreachable!(),
        Label::Ty(_) => unreachable!(),
        Label::Const(_) => unreachable!(),
        Label::List(_) => unreachable!(),
    }
}

/// What a node with this label states, which is no clause.
#[tactic(auto, using(crate::proofs::Places::places))]
fn goal_kind(nodes: &Nodes, t: NodeId, head: PredicateHead) -> PredicateKind
    requires within { IsIn nodes.now t }
    requires labelled { tree_at nodes.now t ≡ node (label.Predicate head)
        (children (tree_at nodes.now t)) }
    requires formed { Meets (shape (label.Predicate head)) (children (tree_at nodes.now t)) }
    ensures tree { tree_at nodes.now t ≡ tree_of_statement nodes.now result }
    ensures fits { StatementFits nodes.now result }
{
    match head {
        PredicateHead::Subtype(a_is_expected) => {
            let (a, b) = both_children(nodes, t);
            PredicateKind::Subtype {
                a_is_expected,
                a: Ty { node: a },
                b: Ty { node: b },
            }
        }
        PredicateHead::Coerce => {
            let (a, b) = both_children(nodes, t);
            PredicateKind::Coerce {
                a: Ty { node: a },
                b: Ty { node: b },
            }
        }
        PredicateHead::DynCompatible(number) => PredicateKind::DynCompatible(TraitId { number }),
        PredicateHead::ConstEquate => {
            let (a, b) = both_children(nodes, t);
            PredicateKind::ConstEquate(Const { node: a }, Const { node: b })
        }
        PredicateHead::NormalizesTo(head) => {
            let (alias, term) = alias_and_result(nodes, t, head);
            PredicateKind::NormalizesTo { alias, term }
        }
        PredicateHead::AliasRelate(direction) => {
            let (a, b) = both_children(nodes, t);
            PredicateKind::AliasRelate(Term { node: a }, Term { node: b }, direction)
        }
        PredicateHead::Ambiguous => PredicateKind::Ambiguous,
    }
}

/// What a node with this label states, which is a clause.
#[tactic(auto, using(crate::proofs::Places::places))]
fn clause_kind(nodes: &Nodes, t: NodeId, head: ClauseHead) -> ClauseKind
    requires within { IsIn nodes.now t }
    requires labelled { tree_at nodes.now t ≡ node (label.Clause head)
        (children (tree_at nodes.now t)) }
    requires formed { Meets (shape (label.Clause head)) (children (tree_at nodes.now t)) }
    ensures tree { tree_at nodes.now t ≡ tree_of_clause nodes.now result }
    ensures fits { ClauseFits nodes.now result }
{
    match head {
        ClauseHead::Trait(number) => ClauseKind::Trait(trait_ref(nodes, t, TraitId { number })),
        ClauseHead::HostEffect(number) => {
            ClauseKind::HostEffect(trait_ref(nodes, t, TraitId { number }))
        }
        ClauseHead::Projection(head) => {
            let (alias, term) = alias_and_result(nodes, t, head);
            ClauseKind::Projection { alias, term }
        }
        ClauseHead::TypeOutlives => {
            let (ty, region) = both_children(nodes, t);
            ClauseKind::TypeOutlives(Ty { node: ty }, Region { node: region })
        }
        ClauseHead::RegionOutlives => {
            let (a, b) = both_children(nodes, t);
            ClauseKind::RegionOutlives(Region { node: a }, Region { node: b })
        }
        ClauseHead::ConstArgHasType => {
            let (ct, ty) = both_children(nodes, t);
            ClauseKind::ConstArgHasType(Const { node: ct }, Ty { node: ty })
        }
        ClauseHead::WellFormed => {
            let node = only_child(nodes, t);
            ClauseKind::WellFormed(Term { node })
        }
        ClauseHead::ConstEvaluatable => {
            let node = only_child(nodes, t);
            ClauseKind::ConstEvaluatable(Const { node })
        }
        ClauseHead::UnstableFeature(n) => ClauseKind::UnstableFeature(n),
    }
}

/// The trait with the arguments that a node has as its child.
#[tactic(auto, using(crate::proofs::Places::places))]
fn trait_ref(nodes: &Nodes, t: NodeId, def_id: TraitId) -> TraitRef
    requires within { IsIn nodes.now t }
    requires formed { HavePlaces (is arguments ∷ []) (children (tree_at nodes.now t)) }
    ensures def { result.def_id ≡ def_id }
    ensures args { children (tree_at nodes.now t) ≡ one nodes.now result.args.node }
    ensures holds { HoldsArgs nodes.now result.args }
{
    let node = only_child(nodes, t);
    let args = GenericArgs { node };
    TraitRef { def_id, args }
}

/// The alias with its arguments and what it stands for, which a node has as its children.
#[tactic(auto, using(crate::proofs::Places::places))]
fn alias_and_result(nodes: &Nodes, t: NodeId, head: AliasHead) -> (AliasTerm, Term)
    requires within { IsIn nodes.now t }
    requires formed { HavePlaces (is arguments ∷ a_result head ∷ [])
        (children (tree_at nodes.now t)) }
    ensures def { alias_head result.0.def_id ≡ head }
    ensures children { children (tree_at nodes.now t) ≡ two nodes.now result.0.args.node
        result.1.node }
    ensures alias { HoldsArgs nodes.now result.0.args }
    ensures term { HoldsResult nodes.now result.0 result.1 }
{
    let (args, term) = both_children(nodes, t);
    let args = GenericArgs { node: args };
    let def_id = AliasDefId::of_head(head);
    (AliasTerm { def_id, args }, Term { node: term })
}
