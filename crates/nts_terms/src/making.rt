//! Making terms.
ghost use Rattle.std.specs.Prelude.{◌≡◌, ◌↔◌, List, All, IfOk, IfSome, IsSome, OnErr, IsOkUnless};
ghost use Rattle.nts_model.specs.declared.labels.Label.TheVariants as label;
ghost use Rattle.nts_model.specs.Terms.Trees.{node, empty, shape, Meets, Place, is, a_type, a_const, statement};
ghost use Rattle.nts_store.specs.Growth.{tree_at, trees_at, IsIn, AllIn, Extends, IsTheOne};
ghost use Rattle.nts_terms.specs.Handles.{Holds, HoldsArg, HoldsTy, HoldsRegion, HoldsConst, HoldsPredicate};
ghost use Rattle.nts_terms.specs.Kinds.{tree_of_infer, tree_of_ty, TyFits, tree_of_region, tree_of_const, ConstFits, tree_of_clause, ClauseFits, tree_of_statement, StatementFits, tree_of_predicate, PredicateFits, tree_of_args, tree_of_trait};
ghost use Rattle.nts_terms.specs.Signatures.{TyIsDeclared, ConstIsDeclared, StatementIsDeclared, AreDeclared};
ghost use Rattle.nts_terms.specs.declared.handles.DefId.TheVariants as def;
ghost use Rattle.nts_terms.specs.Rest.{Grows};

use crate::cx::Cx;
use crate::handles::{Binder, Const, DefId, GenericArg, Predicate, Region, TraitId, TraitRef, Ty};
use crate::kinds::{ClauseKind, ConstKind, InferTy, PredicateKind, RegionKind, TyKind};
use nts_model::{
    ClauseHead, ConstHead, Constant, FreeRegion, Label, Leaf, ListHead, PredicateHead, Sort,
    TyHead, VariableKind,
};
use nts_store::{Fault, NodeId};

impl Cx {
    /// The term with that label and these children: the only one with this tree.
    fn make(&mut self, label: Label, children: &[NodeId]) -> Result<NodeId, Fault>
        requires within { AllIn self.old.nodes children.now }
        requires formed { Meets (shape label) (trees_at self.old.nodes children.now) }
        ensures within { IfOk result (IsIn self.new.nodes) }
        ensures tree { IfOk result (λ n. tree_at self.new.nodes n ≡ node label
            (trees_at self.old.nodes children.now)) }
        ensures one { IfOk result (λ n. IsTheOne self.new.nodes n) }
        ensures grows { Grows self.old self.new }
        ensures err { OnErr result (self.new.nodes ≡ self.old.nodes) }
        ensures memory { IsOkUnless result Fault.Memory }
    {
        Ok(self.nodes.make(label, children)?)
    }

    /// The type of that kind.
    pub fn mk_ty(&mut self, kind: TyKind) -> Result<Ty, Fault>
        requires parts { TyFits self.old.nodes kind }
        requires declared { TyIsDeclared self.old.declarations self.old.nodes kind }
        ensures tree { IfOk result (λ t. tree_at self.new.nodes t.node ≡ tree_of_ty self.old.nodes
            kind) }
        ensures one { IfOk result (λ t. IsTheOne self.new.nodes t.node) }
        ensures holds { IfOk result (λ t. HoldsTy self.new.nodes t) }
        ensures grows { Grows self.old self.new }
        ensures err { OnErr result (self.new.nodes ≡ self.old.nodes) }
        ensures memory { IsOkUnless result Fault.Memory }
    {
        Ok(Ty {
            node: self.make_ty(kind)?,
        })
    }

    fn make_ty(&mut self, kind: TyKind) -> Result<NodeId, Fault>
        requires { TyFits self.old.nodes kind }
        ensures tree { IfOk result (λ n. tree_at self.new.nodes n ≡ tree_of_ty self.old.nodes
            kind) }
        ensures one { IfOk result (λ n. IsTheOne self.new.nodes n) }
        ensures holds { IfOk result (λ n. Holds a_type self.new.nodes n) }
        ensures grows { Grows self.old self.new }
        ensures err { OnErr result (self.new.nodes ≡ self.old.nodes) }
        ensures memory { IsOkUnless result Fault.Memory }
    {
        let label = match kind {
            TyKind::Ctor(ctor, args) => {
                let head = TyHead::Ctor(ctor.number);
                return self.make(Label::Ty(head), &[args.node]);
            }
            TyKind::FnPtr(sig) => {
                let children = [sig.vars.node, sig.value.inputs_and_output.node];
                return self.make(Label::Ty(TyHead::FnPtr), &children);
            }
            TyKind::Alias(alias) => return self.make(alias.def_id.label(), &[alias.args.node]),
            TyKind::Int(int) => Label::Ty(TyHead::Int(int)),
            TyKind::Uint(uint) => Label::Ty(TyHead::Uint(uint)),
            TyKind::Float(float) => Label::Ty(TyHead::Float(float)),
            TyKind::Error => Label::Ty(TyHead::Error),
            TyKind::Infer(InferTy::TyVar(n)) => Label::Leaf(Leaf::Variable(VariableKind::Ty, n)),
            TyKind::Infer(InferTy::IntVar(n)) => Label::Leaf(Leaf::Variable(VariableKind::Int, n)),
            TyKind::Infer(InferTy::FloatVar(n)) => {
                Label::Leaf(Leaf::Variable(VariableKind::Float, n))
            }
            TyKind::Param(n) => Label::Leaf(Leaf::TyConstant(Constant::Param(n))),
            TyKind::Placeholder(p) => {
                Label::Leaf(Leaf::TyConstant(Constant::Placeholder(p.universe, p.bound.var)))
            }
            TyKind::Bound(index, bound) => Label::Bound(Sort::Ty, index, bound.var),
        };
        self.make(label, &[])
    }

    /// The region of that kind.
    pub fn mk_region(&mut self, kind: RegionKind) -> Result<Region, Fault>
        ensures tree { IfOk result (λ r. tree_at self.new.nodes r.node ≡ tree_of_region kind) }
        ensures one { IfOk result (λ r. IsTheOne self.new.nodes r.node) }
        ensures holds { IfOk result (λ r. HoldsRegion self.new.nodes r) }
        ensures grows { Grows self.old self.new }
        ensures err { OnErr result (self.new.nodes ≡ self.old.nodes) }
        ensures memory { IsOkUnless result Fault.Memory }
    {
        let label = match kind {
            RegionKind::ReStatic => Label::Leaf(Leaf::Region(FreeRegion::Static)),
            RegionKind::ReEarlyParam(n) => Label::Leaf(Leaf::Region(FreeRegion::EarlyParam(n))),
            RegionKind::ReLateParam(n) => Label::Leaf(Leaf::Region(FreeRegion::LateParam(n))),
            RegionKind::ReBound(index, bound) => Label::Bound(Sort::Region, index, bound.var),
            RegionKind::ReVar(n) => Label::Leaf(Leaf::Variable(VariableKind::Region, n)),
            RegionKind::RePlaceholder(p) => {
                Label::Leaf(Leaf::Region(FreeRegion::Placeholder(p.universe, p.bound.var)))
            }
            RegionKind::ReErased => Label::Leaf(Leaf::Region(FreeRegion::Erased)),
            RegionKind::ReError => Label::Leaf(Leaf::Region(FreeRegion::Error)),
        };
        let node = self.nodes.make(label, &[])?;
        Ok(Region { node })
    }

    /// The const of that kind.
    pub fn mk_const(&mut self, kind: ConstKind) -> Result<Const, Fault>
        requires parts { ConstFits self.old.nodes kind }
        requires declared { ConstIsDeclared self.old.declarations self.old.nodes kind }
        ensures tree { IfOk result (λ c. tree_at self.new.nodes c.node ≡ tree_of_const
            self.old.nodes kind) }
        ensures one { IfOk result (λ c. IsTheOne self.new.nodes c.node) }
        ensures holds { IfOk result (λ c. HoldsConst self.new.nodes c) }
        ensures grows { Grows self.old self.new }
        ensures err { OnErr result (self.new.nodes ≡ self.old.nodes) }
        ensures memory { IsOkUnless result Fault.Memory }
    {
        Ok(Const {
            node: self.make_const(kind)?,
        })
    }

    fn make_const(&mut self, kind: ConstKind) -> Result<NodeId, Fault>
        requires { ConstFits self.old.nodes kind }
        ensures tree { IfOk result (λ n. tree_at self.new.nodes n ≡ tree_of_const self.old.nodes
            kind) }
        ensures one { IfOk result (λ n. IsTheOne self.new.nodes n) }
        ensures holds { IfOk result (λ n. Holds a_const self.new.nodes n) }
        ensures grows { Grows self.old self.new }
        ensures err { OnErr result (self.new.nodes ≡ self.old.nodes) }
        ensures memory { IsOkUnless result Fault.Memory }
    {
        let label = match kind {
            ConstKind::Param(n) => Label::Leaf(Leaf::ConstConstant(Constant::Param(n))),
            ConstKind::Infer(n) => Label::Leaf(Leaf::Variable(VariableKind::Const, n)),
            ConstKind::Bound(index, bound) => Label::Bound(Sort::Const, index, bound.var),
            ConstKind::Placeholder(p) => {
                Label::Leaf(Leaf::ConstConstant(Constant::Placeholder(p.universe, p.bound.var)))
            }
            ConstKind::Unevaluated(alias) => {
                return self.make(alias.def_id.label(), &[alias.args.node]);
            }
            ConstKind::Value { ty, bits } => {
                return self.make(Label::Const(ConstHead::Value(bits)), &[ty.node]);
            }
            ConstKind::Error => Label::Const(ConstHead::Error),
        };
        self.make(label, &[])
    }

    /// The predicate that states this of the variables of its binder.
    #[tactic(auto, using(crate::proofs::Moved::growth))]
    pub fn mk_predicate(&mut self, predicate: Binder<PredicateKind>) -> Result<Predicate, Fault>
        requires parts { PredicateFits self.old.nodes predicate }
        requires declared { StatementIsDeclared self.old.declarations self.old.nodes
            predicate.value }
        ensures tree { IfOk result (λ p. tree_at self.new.nodes p.node ≡ tree_of_predicate
            self.old.nodes predicate) }
        ensures one { IfOk result (λ p. IsTheOne self.new.nodes p.node) }
        ensures holds { IfOk result (λ p. HoldsPredicate self.new.nodes p) }
        ensures grows { Grows self.old self.new }
        ensures memory { IsOkUnless result Fault.Memory }
    {
        let statement = self.make_statement(predicate.value)?;
        let children = [predicate.vars.node, statement];
        let node = self.nodes.make(Label::List(ListHead::Binder), &children)?;
        Ok(Predicate { node })
    }

    /// That a trait holds for these arguments, of no bound variables; or nothing exactly where the trait is not declared, or
    /// takes arguments of other sorts.
    #[tactic(auto, using(crate::proofs::Moved::growth))]
    pub fn trait_predicate(
        &mut self,
        id: TraitId,
        args: &[GenericArg],
    ) -> Result<Option<Predicate>, Fault>
        requires { All (λ a. HoldsArg self.old.nodes a) args.now }
        ensures fits { IfOk result (λ o. IsSome o ↔ AreDeclared self.old.declarations (def.Trait id)
            (tree_of_args self.old.nodes args.now)) }
        ensures tree { IfOk result (λ o. IfSome o (λ p. tree_at self.new.nodes p.node ≡
            tree_of_trait self.old.nodes id args.now)) }
        ensures one { IfOk result (λ o. IfSome o (λ p. IsTheOne self.new.nodes p.node)) }
        ensures holds { IfOk result (λ o. IfSome o (HoldsPredicate self.new.nodes)) }
        ensures grows { Grows self.old self.new }
        ensures memory { IsOkUnless result Fault.Memory }
    {
        let args = self.mk_args(args)?;
        if !self.fits(DefId::Trait(id), args) {
            return Ok(None);
        }
        let vars = self.mk_bound_vars(&[])?;
        let value = PredicateKind::Clause(ClauseKind::Trait(TraitRef { def_id: id, args }));
        Ok(Some(self.mk_predicate(Binder { vars, value })?))
    }

    fn make_statement(&mut self, kind: PredicateKind) -> Result<NodeId, Fault>
        requires { StatementFits self.old.nodes kind }
        ensures tree { IfOk result (λ n. tree_at self.new.nodes n ≡ tree_of_statement self.old.nodes
            kind) }
        ensures holds { IfOk result (λ n. Holds (is statement) self.new.nodes n) }
        ensures grows { Grows self.old self.new }
        ensures memory { IsOkUnless result Fault.Memory }
    {
        let (head, a, b) = match kind {
            PredicateKind::Clause(clause) => return self.make_clause(clause),
            PredicateKind::DynCompatible(id) => {
                let label = Label::Predicate(PredicateHead::DynCompatible(id.number));
                return self.make(label, &[]);
            }
            PredicateKind::Ambiguous => {
                return self.make(Label::Predicate(PredicateHead::Ambiguous), &[]);
            }
            PredicateKind::Subtype {
                a_is_expected,
                a,
                b,
            } => { (PredicateHead::Subtype(a_is_expected), a.node, b.node) }
            PredicateKind::Coerce { a, b } => (PredicateHead::Coerce, a.node, b.node),
            PredicateKind::ConstEquate(a, b) => (PredicateHead::ConstEquate, a.node, b.node),
            PredicateKind::NormalizesTo { alias, term } => {
                (
                    PredicateHead::NormalizesTo(alias.def_id.head()),
                    alias.args.node,
                    term.node,
                )
            }
            PredicateKind::AliasRelate(a, b, direction) => {
                (PredicateHead::AliasRelate(direction), a.node, b.node)
            }
        };
        self.make(Label::Predicate(head), &[a, b])
    }

    fn make_clause(&mut self, kind: ClauseKind) -> Result<NodeId, Fault>
        requires { ClauseFits self.old.nodes kind }
        ensures tree { IfOk result (λ n. tree_at self.new.nodes n ≡ tree_of_clause self.old.nodes
            kind) }
        ensures holds { IfOk result (λ n. Holds (is statement) self.new.nodes n) }
        ensures grows { Grows self.old self.new }
        ensures memory { IsOkUnless result Fault.Memory }
    {
        match kind {
            ClauseKind::Trait(r) => {
                let head = ClauseHead::Trait(r.def_id.number);
                self.make(Label::Clause(head), &[r.args.node])
            }
            ClauseKind::HostEffect(r) => {
                let head = ClauseHead::HostEffect(r.def_id.number);
                self.make(Label::Clause(head), &[r.args.node])
            }
            ClauseKind::Projection { alias, term } => {
                let head = ClauseHead::Projection(alias.def_id.head());
                self.make(Label::Clause(head), &[alias.args.node, term.node])
            }
            ClauseKind::TypeOutlives(ty, region) => {
                let head = ClauseHead::TypeOutlives;
                self.make(Label::Clause(head), &[ty.node, region.node])
            }
            ClauseKind::RegionOutlives(a, b) => {
                let head = ClauseHead::RegionOutlives;
                self.make(Label::Clause(head), &[a.node, b.node])
            }
            ClauseKind::ConstArgHasType(ct, ty) => {
                let head = ClauseHead::ConstArgHasType;
                self.make(Label::Clause(head), &[ct.node, ty.node])
            }
            ClauseKind::WellFormed(term) => {
                let head = ClauseHead::WellFormed;
                self.make(Label::Clause(head), &[term.node])
            }
            ClauseKind::ConstEvaluatable(ct) => {
                let head = ClauseHead::ConstEvaluatable;
                self.make(Label::Clause(head), &[ct.node])
            }
            ClauseKind::UnstableFeature(n) => {
                let head = ClauseHead::UnstableFeature(n);
                self.make(Label::Clause(head), &[])
            }
        }
    }
}
