//! A handler made of a list of clauses.
ghost use Rattle.std.specs.Prelude.{◌≡◌, ◌<◌, ◌++◌, ◌∷◌, ℕ, [], false, List, Option, Some, length, map, IfOk, OnOk, OnErr, IsOkUnless};
ghost use Rattle.nts_model.specs.Terms.Trees.{Tree, row_length, children, IsRow};
ghost use Rattle.nts_store.specs.Growth.{tree_at, Extends};
ghost use Rattle.nts_terms.specs.Handles.{HoldsArgs};
ghost use Rattle.nts_terms.specs.Kinds.{tree_of_statement, StatementFits, tree_of_clause, ClauseFits};
ghost use Rattle.nts_delegate.specs.Offers.{read_trait, trait_of, trait_read, HoldsTrait};
ghost use Rattle.nts_terms.specs.Rest.{Grows};
ghost use Rattle.nts_model.specs.declared.labels.TyHead.{TyHead};
ghost use Rattle.nts_delegate.specs.Candidates.{IsAskedIn, AreCandidates};
ghost use Rattle.nts_delegate.specs.ClauseHandlers.{clause_tree, offers_of_clauses};
ghost use Rattle.nts_delegate.specs.Clauses.{head_of_clause, AreClauses, IsIndexed};
ghost use Rattle.nts_delegate.specs.Places.{IsIndexOf, may_be_built_by, places_from};
ghost use Rattle.nts_candidates.specs.Offered.{candidates_of};
ghost use Rattle.nts_delegate.specs.Relevant.{built_by_label, first_built_by, LeavesOut};

use crate::alias_table::AliasTable;
use crate::delegate::GoalHandler;
use crate::head_index::HeadIndex;
use crate::offer::{joined, offer_of};
use nts_candidates::CandidateData;
use nts_model::{Label, Sort, TyHead};
use nts_store::Fault;
use nts_terms::{
    AliasTerm, ClauseKind, Const, Cx, GenericArgs, Goal, ParamEnv, Predicate, PredicateKind, Term,
    TraitId, TraitRef, TypingMode,
};
use std::alloc::{AllocError, Global};

/// A rule for a trait: the head holds where the body does. Its terms name its variables as canonical
/// bound variables.
#[derive(Drop)]
pub struct Clause {
    /// The sorts of its variables.
    pub fresh: Vec<Sort>,
    pub trait_id: TraitId,
    pub head: GenericArgs,
    pub body: Vec<Predicate>,
}

/// The clauses of a trait, which are found by what the first argument of the head is built by.
#[derive(Drop)]
struct TraitClauses {
    clauses: Vec<Clause>,
    heads: HeadIndex,
    is_coinductive: bool,
}

impl TraitClauses {
    /// None yet. It takes no memory.
    fn new(alloc: Global) -> TraitClauses
        ensures clauses { result.clauses.items ≡ [] }
        ensures index { IsIndexOf result.heads [] }
        ensures coinductive { result.is_coinductive ≡ false }
    {
        TraitClauses {
            clauses: Vec::new(alloc),
            heads: HeadIndex::new(alloc),
            is_coinductive: false,
        }
    }

    /// One more clause, the first argument of which is built so.
    fn add(&mut self, alloc: Global, head: Option<TyHead>, clause: Clause) -> Result<(), AllocError>
        ensures clauses { OnOk result
            (self.new.clauses.items ≡ self.old.clauses.items ++ clause ∷ []) }
        ensures index { OnOk result ((hs : List (Option TyHead)) → IsIndexOf self.old.heads hs →
            length self.old.clauses.items ≡ length hs →
            IsIndexOf self.new.heads (hs ++ head ∷ [])) }
        ensures err_clauses { OnErr result (self.new.clauses.items ≡ self.old.clauses.items) }
        ensures err_index { OnErr result ((hs : List (Option TyHead)) →
            IsIndexOf self.old.heads hs → IsIndexOf self.new.heads hs) }
        ensures coinductive { self.new.is_coinductive ≡ self.old.is_coinductive }
    {
        let place = self.clauses.len();
        self.clauses.reserve(1)?;
        self.heads.note(alloc, head, place)?;
        self.clauses.push(clause)?;
        Ok(())
    }
}

/// A handler made of clauses, in the order in which they were added: of traits, and of aliases that they normalize.
/// A goal of a projection has one candidate: that its alias is related with its term.
#[derive(Drop)]
pub struct Clauses {
    pub(crate) alloc: Global,
    traits: Vec<TraitClauses>,
    pub(crate) aliases: AliasTable,
}

impl Clauses {
    ghost use Rattle.nts_delegate.specs.Clauses.{HoldsClause, AreClausesReady, clauses_of, coinductive_of, SaysNothingOfAliases};
    ghost use Rattle.nts_delegate.specs.Adding.{KeepsClauses, AddsClause, MakesCoinductive};

    /// No clauses. It takes no memory.
    pub fn new(alloc: Global) -> Self
        ensures clauses { (i : ℕ) → clauses_of result i ≡ [] }
        ensures coinductive { (i : ℕ) → coinductive_of result i ≡ false }
        ensures aliases { SaysNothingOfAliases result }
        ensures ready { (ts : List Tree) → AreClausesReady ts result }
    {
        Clauses {
            alloc,
            traits: Vec::new(alloc),
            aliases: AliasTable::new(alloc),
        }
    }

    /// One more clause, after all others of its trait, with terms of the store.
    pub fn add_clause(&mut self, cx: &Cx, clause: Clause) -> Result<(), Fault>
        ensures added { OnOk result (AddsClause self.old self.new clause) }
        ensures err { OnErr result (KeepsClauses self.old self.new) }
        ensures ready { AreClausesReady cx.now.nodes self.old → HoldsClause cx.now.nodes clause →
            AreClausesReady cx.now.nodes self.new }
        ensures memory { IsOkUnless result Fault.Memory }
    {
        let head = head_of_clause(cx, &clause);
        let entry = self.entry(clause.trait_id)?;
        self.traits[entry].add(self.alloc, head, clause)?;
        Ok(())
    }

    /// Makes a trait coinductive: a cycle through conditions of its impls holds.
    pub fn set_coinductive(&mut self, id: TraitId) -> Result<(), Fault>
        ensures made { OnOk result (MakesCoinductive self.old self.new id.number) }
        ensures err { OnErr result (KeepsClauses self.old self.new) }
        ensures ready { (ts : List Tree) → AreClausesReady ts self.old →
            AreClausesReady ts self.new }
        ensures memory { IsOkUnless result Fault.Memory }
    {
        let entry = self.entry(id)?;
        self.traits[entry].is_coinductive = true;
        Ok(())
    }

    /// The place of a trait, which is made where there is none.
    fn entry(&mut self, id: TraitId) -> Result<usize, Fault>
        ensures is { IfOk result (λ i. i ≡ id.number) }
        ensures within { IfOk result (λ i. i < length self.new.traits.items) }
        ensures same { KeepsClauses self.old self.new }
        ensures ready { (ts : List Tree) → AreClausesReady ts self.old →
            AreClausesReady ts self.new }
        ensures memory { IsOkUnless result Fault.Memory }
    {
        while self.traits.len() <= id.number {
            self.traits.push(TraitClauses::new(self.alloc))?;
        }
        Ok(id.number)
    }

    /// The clauses of a trait.
    fn of_trait(&self, id: TraitId) -> &[Clause]
        ensures { result.now ≡ clauses_of self.now id.number }
    {
        match self.traits.get(id.number) {
            Some(entry) => &entry.clauses,
            None => &[],
        }
    }
}

impl GoalHandler for Clauses {
    ghost use Rattle.nts_delegate.specs.Candidates.{IsAskedIn, AreCandidates};
    ghost use Rattle.nts_delegate.specs.Clauses.{AreClausesReady, coinductive_of};
    ghost use Rattle.nts_delegate.specs.ClausesKept.{AreClausesReady-kept};
    ghost use Rattle.nts_delegate.specs.ClauseHandlers.{handler_of};
    ghost use Rattle.nts_delegate.specs.ClausesLawful.{IsLawfulHandler-handler_of, AreOffered-handler_of, MeansSame-kept};
    ghost use Rattle.nts_candidates.specs.Offered.{candidates_of};
    ghost use Rattle.nts_delegate.specs.Relevant.{LeavesOut};
    ghost use Rattle.nts_terms.specs.Modes.{mode_of};
    ghost use Rattle.nts_delegate.specs.Offers.{AreOffers, IsTraits};
    ghost use Rattle.nts_store.specs.Growth.{tree_at};

    ghost ready = { AreClausesReady };

    ghost handler = { handler_of };

    fn candidates(
        &self,
        cx: &mut Cx,
        mode: &TypingMode,
        goal: Goal,
    ) -> Result<Vec<CandidateData>, Fault>
        requires ready { AreClausesReady cx.old.nodes self.now }
        requires goal { IsAskedIn cx.old.nodes goal }
        ensures offers { IsTraits cx.old.nodes goal → IfOk result (λ cs. AreOffers cx.new.nodes
            goal self.now cs.items) }
        ensures offered { IfOk result (λ cs. candidates_of cx.new.nodes cs.items ≡
            (handler_of cx.new.nodes self.now).offers (mode_of mode.now)
            (tree_at cx.new.nodes goal.param_env.node) (tree_at cx.new.nodes goal.predicate.node)) }
        ensures same { IsTraits cx.old.nodes goal → cx.new ≡ cx.old }
        ensures candidates { IfOk result (λ cs. AreCandidates cx.new.nodes goal cs.items) }
        ensures grows { Grows cx.old cx.new }
        ensures memory { IsOkUnless result Fault.Memory }
    {
        let _ = mode;
        let found = self.offers_of_alias(cx, goal)?;
        let more = self.offers(cx, goal)?;
        Ok(joined(found, more)?)
    }

    fn relevant_candidates(
        &self,
        cx: &mut Cx,
        mode: &TypingMode,
        goal: Goal,
    ) -> Result<Vec<CandidateData>, Fault>
        requires ready { AreClausesReady cx.old.nodes self.now }
        requires goal { IsAskedIn cx.old.nodes goal }
        ensures candidates { IfOk result (λ cs. AreCandidates cx.new.nodes goal cs.items) }
        ensures offered { IfOk result (λ cs. LeavesOut ((handler_of cx.new.nodes self.now).offers
            (mode_of mode.now) (tree_at cx.new.nodes goal.param_env.node)
            (tree_at cx.new.nodes goal.predicate.node)) (candidates_of cx.new.nodes cs.items)) }
        ensures same { IsTraits cx.old.nodes goal → cx.new ≡ cx.old }
        ensures grows { Grows cx.old cx.new }
        ensures memory { IsOkUnless result Fault.Memory }
    {
        let _ = mode;
        let found = self.offers_of_alias(cx, goal)?;
        let more = self.relevant_offers(cx, goal)?;
        Ok(joined(found, more)?)
    }

    fn trait_is_coinductive(&self, id: TraitId) -> bool
        ensures set { result ≡ coinductive_of self.now id.number }
        ensures meaning { (ts : List Tree) → result ≡ (handler_of ts self.now).is_coinductive
            id.number }
    {
        match self.traits.get(id.number) {
            Some(entry) => entry.is_coinductive,
            None => false,
        }
    }

    fn trait_is_dyn_compatible(&self, id: TraitId) -> bool {
        let _ = id;
        true
    }

    fn may_use_unstable_feature(&self, env: ParamEnv, symbol: u32) -> bool {
        let _ = (env, symbol);
        false
    }

    fn evaluate_const(
        &self,
        cx: &mut Cx,
        env: ParamEnv,
        uv: AliasTerm,
    ) -> Result<Option<Const>, Fault> {
        let _ = (cx.alloc, env, uv);
        Ok(None)
    }

    fn well_formed_goals(
        &self,
        cx: &mut Cx,
        env: ParamEnv,
        term: Term,
    ) -> Result<Option<Vec<Goal>>, Fault> {
        let _ = (cx.alloc, env, term);
        Ok(None)
    }

    ghost lawful = { λ ts s f r. IsLawfulHandler-handler_of ts s f r };

    ghost offered = { λ ts s f r. AreOffered-handler_of ts s f r };

    ghost handler_kept = { λ a b s r e. MeansSame-kept a b s r e };

    ghost ready_kept = { λ a b s h e. AreClausesReady-kept a b s h e };
}

impl Clauses {
    ghost use Rattle.nts_delegate.specs.Candidates.{IsAskedIn, AreCandidates};
    ghost use Rattle.nts_delegate.specs.ClauseHandlers.{clauses_in_store, offers_by};
    ghost use Rattle.nts_delegate.specs.Clauses.{AreClausesReady};
    ghost use Rattle.nts_candidates.specs.Offered.{candidates_of};
    ghost use Rattle.nts_delegate.specs.Offers.{trait_of, AreOffers};
    ghost use Rattle.nts_delegate.specs.Relevant.{LeavesOut};

    /// What each clause of the goal's trait offers, if it takes as many arguments.
    #[inline(never)]
    fn offers(&self, cx: &Cx, goal: Goal) -> Result<Vec<CandidateData>, Fault>
        requires ready { AreClausesReady cx.now.nodes self.now }
        requires goal { IsAskedIn cx.now.nodes goal }
        ensures offers { IfOk result (λ cs. AreOffers cx.now.nodes goal self.now cs.items) }
        ensures candidates { IfOk result (λ cs. AreCandidates cx.now.nodes goal cs.items) }
        ensures memory { IsOkUnless result Fault.Memory }
    {
        let mut found = Vec::new(self.alloc);
        let Some(trait_ref) = trait_of_statement(goal.predicate.kind(cx).value) else {
            return Ok(found);
        };
        for clause in self.of_trait(trait_ref.def_id) {
            if trait_ref.args.len(cx) == clause.head.len(cx) {
                found.push(offer_of(self.alloc, cx, clause, goal, trait_ref.args)?)?;
            }
        }
        Ok(found)
    }

    /// What those clauses offer for which the first argument of the goal may be the one of the head.
    #[inline(never)]
    fn relevant_offers(&self, cx: &Cx, goal: Goal) -> Result<Vec<CandidateData>, Fault>
        requires ready { AreClausesReady cx.now.nodes self.now }
        requires goal { IsAskedIn cx.now.nodes goal }
        ensures offered { IfOk result (λ cs.
            LeavesOut (offers_by (clauses_in_store cx.now.nodes self.now)
            (tree_at cx.now.nodes goal.param_env.node) (trait_of (tree_at cx.now.nodes
            goal.predicate.node))) (candidates_of cx.now.nodes cs.items)) }
        ensures candidates { IfOk result (λ cs. AreCandidates cx.now.nodes goal cs.items) }
        ensures memory { IsOkUnless result Fault.Memory }
    {
        let Some(trait_ref) = trait_of_statement(goal.predicate.kind(cx).value) else {
            return Ok(Vec::new(self.alloc));
        };
        let Some(head) = first_head(cx, trait_ref.args) else {
            return self.offers(cx, goal);
        };
        let Some(of_trait) = self.traits.get(trait_ref.def_id.number) else {
            return Ok(Vec::new(self.alloc));
        };
        offers_at(self.alloc, cx, of_trait, head, goal, trait_ref)
    }
}

/// What the clauses at the places that an index leads to offer, if they take as many arguments.
fn offers_at(
    alloc: Global,
    cx: &Cx,
    of_trait: &TraitClauses,
    head: TyHead,
    goal: Goal,
    trait_ref: TraitRef,
) -> Result<Vec<CandidateData>, Fault>
    requires clauses { AreClauses cx.now.nodes of_trait.now.clauses.items }
    requires indexed { IsIndexed cx.now.nodes (Some of_trait.now) }
    requires goal { IsAskedIn cx.now.nodes goal }
    requires args { HoldsArgs cx.now.nodes trait_ref.args }
    requires asked { trait_of (tree_at cx.now.nodes goal.predicate.node) ≡ read_trait cx.now.nodes
        (Some trait_ref) }
    requires first { first_built_by (children (tree_at cx.now.nodes trait_ref.args.node)) ≡ Some
        head }
    ensures offered { IfOk result (λ cs. LeavesOut (offers_of_clauses (tree_at cx.now.nodes
        goal.param_env.node) (children (tree_at cx.now.nodes trait_ref.args.node))
        (map (clause_tree cx.now.nodes) of_trait.now.clauses.items))
        (candidates_of cx.now.nodes cs.items)) }
    ensures candidates { IfOk result (λ cs. AreCandidates cx.now.nodes goal cs.items) }
    ensures memory { IsOkUnless result Fault.Memory }
{
    match of_trait.heads.listed_places_of(head) {
        Some(places) => offers_from(alloc, cx, of_trait, head, places, goal, trait_ref),
        None => {
            let places = of_trait.heads.places_of(alloc, head)?;
            offers_from(alloc, cx, of_trait, head, &places, goal, trait_ref)
        }
    }
}

/// What the clauses at these places offer, if they take as many arguments.
fn offers_from(
    alloc: Global,
    cx: &Cx,
    of_trait: &TraitClauses,
    head: TyHead,
    places: &[usize],
    goal: Goal,
    trait_ref: TraitRef,
) -> Result<Vec<CandidateData>, Fault>
    requires clauses { AreClauses cx.now.nodes of_trait.now.clauses.items }
    requires places { places.now ≡ places_from (may_be_built_by head) 0
        (map (head_of_clause cx.now.nodes) of_trait.now.clauses.items) }
    requires goal { IsAskedIn cx.now.nodes goal }
    requires args { HoldsArgs cx.now.nodes trait_ref.args }
    requires asked { trait_of (tree_at cx.now.nodes goal.predicate.node) ≡ read_trait cx.now.nodes
        (Some trait_ref) }
    requires first { first_built_by (children (tree_at cx.now.nodes trait_ref.args.node)) ≡ Some
        head }
    ensures offered { IfOk result (λ cs. LeavesOut (offers_of_clauses (tree_at cx.now.nodes
        goal.param_env.node) (children (tree_at cx.now.nodes trait_ref.args.node))
        (map (clause_tree cx.now.nodes) of_trait.now.clauses.items))
        (candidates_of cx.now.nodes cs.items)) }
    ensures candidates { IfOk result (λ cs. AreCandidates cx.now.nodes goal cs.items) }
    ensures memory { IsOkUnless result Fault.Memory }
{
    let mut found = Vec::with_capacity(alloc, places.len())?;
    for place in places {
        let clause = &of_trait.clauses[*place];
        if trait_ref.args.len(cx) == clause.head.len(cx) {
            found.push(offer_of(alloc, cx, clause, goal, trait_ref.args)?)?;
        }
    }
    Ok(found)
}

/// What the first of these arguments is built by.
fn first_head(cx: &Cx, args: GenericArgs) -> Option<TyHead>
    requires { HoldsArgs cx.now.nodes args }
    ensures { result ≡ first_built_by (children (tree_at cx.now.nodes args.node)) }
{
    if args.len(cx) == 0 {
        return None;
    }
    let first = args.get(cx, 0);
    built_by(cx.nodes.label(first.node))
}

/// What a type with this label is built by. A leaf or an alias may stand for any type.
fn built_by(label: Label) -> Option<TyHead>
    ensures { result ≡ built_by_label label }
{
    match label {
        Label::Ty(TyHead::Alias(_)) => None,
        Label::Ty(head) => Some(head),
        _ => None,
    }
}

/// What the first argument of a clause's head is built by, if it is of the store.
fn head_of_clause(cx: &Cx, clause: &Clause) -> Option<TyHead>
    ensures { HoldsArgs cx.now.nodes clause.now.head →
        result ≡ head_of_clause cx.now.nodes clause.now }
{
    if !cx.holds(clause.head) {
        return None;
    }
    first_head(cx, clause.head)
}

/// The trait and the arguments that a trait's goal is about.
pub fn trait_of_statement(kind: PredicateKind) -> Option<TraitRef>
    ensures is { (ts : List Tree) → trait_read (tree_of_statement ts kind) ≡ read_trait ts result }
    ensures holds { (ts : List Tree) → StatementFits ts kind → HoldsTrait ts result }
{
    match kind {
        PredicateKind::Clause(clause) => trait_of_clause(clause),
        PredicateKind::Subtype { .. } => None,
        PredicateKind::Coerce { .. } => None,
        PredicateKind::DynCompatible(_) => None,
        PredicateKind::ConstEquate(_, _) => None,
        PredicateKind::NormalizesTo { .. } => None,
        PredicateKind::AliasRelate(_, _, _) => None,
        PredicateKind::Ambiguous => None,
    }
}

fn trait_of_clause(kind: ClauseKind) -> Option<TraitRef>
    ensures is { (ts : List Tree) → trait_read (tree_of_clause ts kind) ≡ read_trait ts result }
    ensures holds { (ts : List Tree) → ClauseFits ts kind → HoldsTrait ts result }
{
    match kind {
        ClauseKind::Trait(trait_ref) => Some(trait_ref),
        ClauseKind::HostEffect(_) => None,
        ClauseKind::Projection { .. } => None,
        ClauseKind::TypeOutlives(_, _) => None,
        ClauseKind::RegionOutlives(_, _) => None,
        ClauseKind::ConstArgHasType(_, _) => None,
        ClauseKind::WellFormed(_) => None,
        ClauseKind::ConstEvaluatable(_) => None,
        ClauseKind::UnstableFeature(_) => None,
    }
}
