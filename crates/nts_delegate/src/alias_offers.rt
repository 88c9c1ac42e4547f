//! What clauses offer for goals about aliases.
ghost use Rattle.std.specs.Prelude.{◌≡◌, Some, false, map, IfOk, IsOkUnless};
ghost use Rattle.nts_model.specs.Derivations.Related.{alias_label};
ghost use Rattle.nts_model.specs.Terms.Trees.{children, row_length, IsRow};
ghost use Rattle.nts_store.specs.Growth.{tree_at, IsIn};
ghost use Rattle.nts_terms.specs.Handles.{HoldsArgs, HoldsResult, HoldsTerm, alias_head};
ghost use Rattle.nts_terms.specs.Kinds.{tree_of_alias};
ghost use Rattle.nts_terms.specs.Rest.{Grows};
ghost use Rattle.nts_candidates.specs.Offered.{candidate_of, candidates_of};
ghost use Rattle.nts_delegate.specs.Candidates.{IsAskedIn, IsCandidate, AreCandidates};
ghost use Rattle.nts_delegate.specs.Clauses.{HoldsNormClause};
ghost use Rattle.nts_delegate.specs.ClauseHandlers.{alias_asked, normalization_of, projection_of, as_it_stands, projected};
ghost use Rattle.nts_delegate.specs.AliasOffers.{IsNormalOffer};

use crate::alias_table::NormClause;
use crate::clauses::Clauses;
use crate::offer::{asked_of, pairs_of};
use nts_candidates::nts_certainty::{Certainty, GoalSource, RerunCondition};
use nts_candidates::{CandidateData, CandidateGoal, Equation, EquationKind};
use nts_model::{AliasRelationDirection, ConstHead, Label, TyHead};
use nts_store::Fault;
use nts_terms::{
    AliasDefId, AliasTerm, Binder, ClauseKind, Cx, GenericArg, Goal, PredicateKind, Term,
};
use std::alloc::Global;

impl Clauses {
    ghost use Rattle.nts_delegate.specs.Clauses.{AreClausesReady, said_of};
    ghost use Rattle.nts_delegate.specs.ClauseHandlers.{alias_offers, normal_offers, offers_of_clauses, asked_row, alias_clauses_in_store, rigid_in};
    ghost use Rattle.nts_delegate.specs.Offers.{IsTraits};

    /// What is offered for a goal about an alias: where it normalizes the alias, what a rigid alias or the
    /// alias's clauses offer, and for a projection that the alias is related with the term.
    #[inline(never)]
    pub(crate) fn offers_of_alias(
        &self,
        cx: &mut Cx,
        goal: Goal,
    ) -> Result<Vec<CandidateData>, Fault>
        requires ready { AreClausesReady cx.old.nodes self.now }
        requires goal { IsAskedIn cx.old.nodes goal }
        ensures offered { IfOk result (λ cs. candidates_of cx.new.nodes cs.items ≡
            alias_offers (alias_clauses_in_store cx.new.nodes self.now) (rigid_in self.now)
            (tree_at cx.new.nodes goal.param_env.node) (tree_at cx.new.nodes goal.predicate.node)) }
        ensures candidates { IfOk result (λ cs. AreCandidates cx.new.nodes goal cs.items) }
        ensures same { IsTraits cx.old.nodes goal → cx.new ≡ cx.old }
        ensures grows { Grows cx.old cx.new }
        ensures memory { IsOkUnless result Fault.Memory }
    {
        match goal.predicate.kind(cx).value {
            PredicateKind::NormalizesTo { alias, term } => {
                self.normal_offers(cx, goal, alias, term)
            }
            PredicateKind::Clause(ClauseKind::Projection { alias, term }) => {
                let mut found = Vec::new(self.alloc);
                found.push(offer_projected(self.alloc, cx, goal, alias, term)?)?;
                Ok(found)
            }
            _ => Ok(Vec::new(self.alloc)),
        }
    }

    /// What is offered where a goal normalizes an alias.
    fn normal_offers(
        &self,
        cx: &mut Cx,
        goal: Goal,
        alias: AliasTerm,
        term: Term,
    ) -> Result<Vec<CandidateData>, Fault>
        requires ready { AreClausesReady cx.old.nodes self.now }
        requires goal { IsAskedIn cx.old.nodes goal }
        requires args { HoldsArgs cx.old.nodes alias.args }
        requires term { HoldsResult cx.old.nodes alias term }
        requires asked { normalization_of (tree_at cx.old.nodes goal.predicate.node) ≡ Some
            (alias_asked cx.old.nodes alias term) }
        ensures offered { IfOk result (λ cs. candidates_of cx.new.nodes cs.items ≡
            normal_offers (alias_clauses_in_store cx.new.nodes self.now) (rigid_in self.now)
            (tree_at cx.new.nodes goal.param_env.node)
            (normalization_of (tree_at cx.new.nodes goal.predicate.node))) }
        ensures candidates { IfOk result (λ cs. AreCandidates cx.new.nodes goal cs.items) }
        ensures grows { Grows cx.old cx.new }
        ensures memory { IsOkUnless result Fault.Memory }
    {
        if !self.aliases.is_rigid(alias.def_id) {
            return self.clause_offers(cx, goal, alias, term);
        }
        let mut found = Vec::new(self.alloc);
        found.push(offer_rigid(self.alloc, cx, goal, alias, term)?)?;
        Ok(found)
    }

    /// What each clause of the alias offers, if it takes as many arguments.
    fn clause_offers(
        &self,
        cx: &Cx,
        goal: Goal,
        alias: AliasTerm,
        term: Term,
    ) -> Result<Vec<CandidateData>, Fault>
        requires ready { AreClausesReady cx.now.nodes self.now }
        requires goal { IsAskedIn cx.now.nodes goal }
        requires args { HoldsArgs cx.now.nodes alias.args }
        requires term { HoldsResult cx.now.nodes alias term }
        requires asked { normalization_of (tree_at cx.now.nodes goal.predicate.node) ≡ Some
            (alias_asked cx.now.nodes alias term) }
        ensures offered { IfOk result (λ cs. candidates_of cx.now.nodes cs.items ≡
            offers_of_clauses (tree_at cx.now.nodes goal.param_env.node)
            (asked_row (alias_asked cx.now.nodes alias term))
            (alias_clauses_in_store cx.now.nodes self.now (alias_head alias.def_id))) }
        ensures candidates { IfOk result (λ cs. AreCandidates cx.now.nodes goal cs.items) }
        ensures memory { IsOkUnless result Fault.Memory }
    {
        let mut found = Vec::new(self.alloc);
        for clause in self.aliases.of_alias(alias.def_id) {
            if alias.args.len(cx) == clause.head.len(cx) {
                found.push(normal_offer(self.alloc, cx, clause, goal, alias, term)?)?;
            }
        }
        Ok(found)
    }
}

/// What a clause offers for a goal that normalizes its alias: its head's arguments are the goal's, its result is the goal's
/// term, and its body is to be proved.
fn normal_offer(
    alloc: Global,
    cx: &Cx,
    clause: &NormClause,
    goal: Goal,
    alias: AliasTerm,
    term: Term,
) -> Result<CandidateData, Fault>
    requires args { HoldsArgs cx.now.nodes alias.args }
    requires term { HoldsResult cx.now.nodes alias term }
    requires clause { HoldsNormClause cx.now.nodes clause.now }
    requires row { IsRow (children (tree_at cx.now.nodes clause.now.head.node)) }
    requires long { row_length (children (tree_at cx.now.nodes alias.args.node)) ≡ row_length
        (children (tree_at cx.now.nodes clause.now.head.node)) }
    ensures offer { IfOk result (IsNormalOffer cx.now.nodes goal
        (alias_asked cx.now.nodes alias term) clause.now) }
    ensures memory { IsOkUnless result Fault.Memory }
{
    let mut equations = pairs_of(alloc, cx, alias.args, clause.head)?;
    equations.push(Equation {
        kind: EquationKind::Related,
        lhs: GenericArg { node: term.node },
        rhs: GenericArg {
            node: clause.result.node,
        },
    })?;
    Ok(CandidateData {
        fresh: Vec::from_slice(alloc, &clause.fresh)?,
        equations,
        region_constraints: Vec::new(alloc),
        hidden_types: Vec::new(alloc),
        goals: asked_of(alloc, goal, &clause.body)?,
        certainty: Certainty::Yes,
        accesses: RerunCondition::Never,
    })
}

/// What is offered for a rigid alias: the goal's term is to be the alias as it stands.
fn offer_rigid(
    alloc: Global,
    cx: &mut Cx,
    goal: Goal,
    alias: AliasTerm,
    term: Term,
) -> Result<CandidateData, Fault>
    requires goal { IsAskedIn cx.old.nodes goal }
    requires args { HoldsArgs cx.old.nodes alias.args }
    requires term { HoldsResult cx.old.nodes alias term }
    requires asked { normalization_of (tree_at cx.old.nodes goal.predicate.node) ≡ Some
        (alias_asked cx.old.nodes alias term) }
    ensures offered { IfOk result (λ d. candidate_of cx.new.nodes d ≡ as_it_stands
        (alias_asked cx.old.nodes alias term)) }
    ensures candidate { IfOk result (IsCandidate cx.new.nodes goal) }
    ensures grows { Grows cx.old cx.new }
    ensures memory { IsOkUnless result Fault.Memory }
{
    let stands = alias_term(cx, alias)?;
    let mut equations = Vec::new(alloc);
    equations.push(Equation {
        kind: EquationKind::Structural,
        lhs: GenericArg { node: term.node },
        rhs: GenericArg { node: stands.node },
    })?;
    Ok(CandidateData {
        fresh: Vec::new(alloc),
        equations,
        region_constraints: Vec::new(alloc),
        hidden_types: Vec::new(alloc),
        goals: Vec::new(alloc),
        certainty: Certainty::Yes,
        accesses: RerunCondition::Never,
    })
}

/// What is offered for a projection: the goal that its alias is related with its term.
fn offer_projected(
    alloc: Global,
    cx: &mut Cx,
    goal: Goal,
    alias: AliasTerm,
    term: Term,
) -> Result<CandidateData, Fault>
    requires goal { IsAskedIn cx.old.nodes goal }
    requires args { HoldsArgs cx.old.nodes alias.args }
    requires term { HoldsResult cx.old.nodes alias term }
    requires asked { projection_of (tree_at cx.old.nodes goal.predicate.node) ≡ Some
        (alias_asked cx.old.nodes alias term) }
    ensures offered { IfOk result (λ d. candidate_of cx.new.nodes d ≡ projected
        (tree_at cx.old.nodes goal.param_env.node) (alias_asked cx.old.nodes alias term)) }
    ensures candidate { IfOk result (IsCandidate cx.new.nodes goal) }
    ensures grows { Grows cx.old cx.new }
    ensures memory { IsOkUnless result Fault.Memory }
{
    let lhs = alias_term(cx, alias)?;
    let vars = cx.mk_bound_vars(&[])?;
    let value = PredicateKind::AliasRelate(lhs, term, AliasRelationDirection::Equate);
    let predicate = cx.mk_predicate(Binder { vars, value })?;
    let mut goals = Vec::new(alloc);
    goals.push(CandidateGoal {
        source: GoalSource::Misc,
        goal: Goal {
            param_env: goal.param_env,
            predicate,
        },
    })?;
    Ok(CandidateData {
        fresh: Vec::new(alloc),
        equations: Vec::new(alloc),
        region_constraints: Vec::new(alloc),
        hidden_types: Vec::new(alloc),
        goals,
        certainty: Certainty::Yes,
        accesses: RerunCondition::Never,
    })
}

/// An alias as a term.
fn alias_term(cx: &mut Cx, alias: AliasTerm) -> Result<Term, Fault>
    requires { HoldsArgs cx.old.nodes alias.args }
    ensures tree { IfOk result (λ t. tree_at cx.new.nodes t.node ≡ tree_of_alias cx.old.nodes
        alias) }
    ensures holds { IfOk result (HoldsTerm cx.new.nodes) }
    ensures grows { Grows cx.old cx.new }
    ensures memory { IsOkUnless result Fault.Memory }
{
    let label = label_of_alias(alias.def_id);
    let node = cx.nodes.make(label, &[alias.args.node])?;
    Ok(Term { node })
}

/// The label of a type or a const that is the alias.
fn label_of_alias(alias: AliasDefId) -> Label
    ensures { result ≡ alias_label (alias_head alias) }
{
    match alias {
        AliasDefId::Ty(id) => Label::Ty(TyHead::Alias(id.number)),
        AliasDefId::Const(id) => Label::Const(ConstHead::Unevaluated(id.number)),
    }
}
