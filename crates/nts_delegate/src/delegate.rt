//! What offers the rules of traits.
ghost use Rattle.std.specs.Prelude.{◌≡◌, ◌≢◌, All, List, Err, IfOk, IfSome, option_map, IsOkUnless};
ghost use Rattle.nts_model.specs.declared.labels.Sort.TheVariants as sort;
ghost use Rattle.nts_model.specs.Terms.Trees.{Tree};
ghost use Rattle.nts_store.specs.Growth.{Extends};
ghost use Rattle.nts_terms.specs.Rest.{Grows};

use nts_candidates::CandidateData;
use nts_candidates::nts_certainty::Certainty;
use nts_store::{EvalError, Fault};
use nts_table::InferCtxt;
use nts_terms::{
    AliasDefId, AliasTerm, Const, Cx, Goal, ParamEnv, Term, TraitId, TraitRef, TypingMode,
    UniverseIndex,
};

/// What a handler says of an item that a trait lists, for a use of the trait.
#[derive(Clone, Copy, PartialEq, Eq, Debug)]
pub enum FetchEligibleAssocItemResponse {
    /// An impl has the item.
    Found,
    /// None has it, or which one does is not known.
    NotFound,
    /// None has it in the erased mode, and one may have it in another.
    NotFoundBecauseErased,
}

/// What offers the rules of traits as data.
pub trait GoalHandler {
    ghost use Rattle.std.specs.Prelude.{◌≡◌};
    ghost use Rattle.nts_model.specs.Derivations.Handlers.{Handler, IsLawfulHandler};
    ghost use Rattle.nts_model.specs.Refutation.Coherence.{RulesAreOffered};
    ghost use Rattle.nts_store.specs.Growth.{tree_at};
    ghost use Rattle.nts_store.specs.Formed.{AreFormed};
    ghost use Rattle.nts_delegate.specs.Candidates.{IsAskedIn, AreCandidates};
    ghost use Rattle.nts_candidates.specs.Offered.{candidates_of, certainty_of};
    ghost use Rattle.nts_delegate.specs.Relevant.{LeavesOut};
    ghost use Rattle.nts_terms.specs.Modes.{mode_of};
    ghost use Rattle.nts_delegate.specs.SameHandlers.{MeansSame};
    ghost use Rattle.nts_table.specs.nts_unify.specs.Reading.{content_of};
    ghost use Rattle.nts_table.specs.Tables.{IsTable};
    ghost use Rattle.nts_terms.specs.Handles.{HoldsEnv, HoldsArgs, HoldsTerm, HoldsConst, HoldsGoal, IsAliasOf};
    ghost use Rattle.nts_terms.specs.Kinds.{tree_of_alias};
    ghost use Rattle.nts_delegate.specs.Judging.{makes_objects, allows_in, evaluates_in, well_formed_in, predicates_read, IsGoalIn};

    /// The handler's own terms are of a store of these trees.
    ghost ready: { List Tree → Self → Type 0 };

    /// What the handler means, where a store has these trees: its rules, its offers, its coinductive traits, what it judges, and what
    /// it may answer at once.
    ghost handler: { List Tree → Self → Handler };

    /// The ways in which a goal may hold, in the order in which they are tried.
    fn candidates(
        &self,
        cx: &mut Cx,
        mode: &TypingMode,
        goal: Goal,
    ) -> Result<Vec<CandidateData>, Fault>
        requires ready { ready cx.old.nodes self.now }
        requires goal { IsAskedIn cx.old.nodes goal }
        ensures candidates { IfOk result (λ cs. AreCandidates cx.new.nodes goal cs.items) }
        ensures offered { IfOk result (λ cs. candidates_of cx.new.nodes cs.items ≡
            (handler cx.new.nodes self.now).offers (mode_of mode.now)
            (tree_at cx.new.nodes goal.param_env.node) (tree_at cx.new.nodes goal.predicate.node)) }
        ensures grows { Grows cx.old cx.new }
        ensures memory { IsOkUnless result Fault.Memory };

    /// The ways that can be met at all, which the engine asks for: `candidates` in the same order, but a handler may leave out
    /// those with an equation between two types that are built differently. So it may have an index of its rules.
    fn relevant_candidates(
        &self,
        cx: &mut Cx,
        mode: &TypingMode,
        goal: Goal,
    ) -> Result<Vec<CandidateData>, Fault>
        requires ready { ready cx.old.nodes self.now }
        requires goal { IsAskedIn cx.old.nodes goal }
        ensures candidates { IfOk result (λ cs. AreCandidates cx.new.nodes goal cs.items) }
        ensures offered { IfOk result (λ cs. LeavesOut ((handler cx.new.nodes self.now).offers
            (mode_of mode.now) (tree_at cx.new.nodes goal.param_env.node)
            (tree_at cx.new.nodes goal.predicate.node)) (candidates_of cx.new.nodes cs.items)) }
        ensures grows { Grows cx.old cx.new }
        ensures memory { IsOkUnless result Fault.Memory }
    {
        self.candidates(cx, mode, goal)
    }

    /// Whether a cycle through conditions of this trait's impls holds.
    fn trait_is_coinductive(&self, id: TraitId) -> bool
        ensures meaning { (ts : List Tree) →
            result ≡ (handler ts self.now).is_coinductive id.number };

    /// Whether objects can be made of a trait: the traits of which they can are a fixed set.
    fn trait_is_dyn_compatible(&self, id: TraitId) -> bool
        ensures meaning { (ts : List Tree) →
            result ≡ makes_objects (handler ts self.now) id.number };

    /// Whether an environment allows an unstable feature. Where it does, each instance of it does.
    fn may_use_unstable_feature(&self, env: ParamEnv, symbol: u32) -> bool
        ensures meaning { (ts : List Tree) → ready ts self.now → HoldsEnv ts env →
            result ≡ allows_in (handler ts self.now) (tree_at ts env.node) symbol };

    /// What a const that is to be evaluated is evaluated as in an environment, if it can be. The same then goes for instances.
    fn evaluate_const(
        &self,
        cx: &mut Cx,
        env: ParamEnv,
        uv: AliasTerm,
    ) -> Result<Option<Const>, Fault>
        requires ready { ready cx.old.nodes self.now }
        requires env { HoldsEnv cx.old.nodes env }
        requires alias { IsAliasOf sort.Const uv.def_id }
        requires args { HoldsArgs cx.old.nodes uv.args }
        ensures value { IfOk result (λ o. option_map (λ v. tree_at cx.new.nodes v.node) o ≡
            evaluates_in (handler cx.new.nodes self.now) (tree_at cx.new.nodes env.node)
            (tree_of_alias cx.new.nodes uv)) }
        ensures holds { IfOk result (λ o. IfSome o (HoldsConst cx.new.nodes)) }
        ensures grows { Grows cx.old cx.new }
        ensures memory { IsOkUnless result Fault.Memory };

    /// The goals by which a term is well formed in an environment, or `None` where that is not known. They are goals of that
    /// environment, about no other terms than it and the term name, of any kind but `NormalizesTo` and `ConstEquate`. The same then
    /// goes for instances.
    fn well_formed_goals(
        &self,
        cx: &mut Cx,
        env: ParamEnv,
        term: Term,
    ) -> Result<Option<Vec<Goal>>, Fault>
        requires ready { ready cx.old.nodes self.now }
        requires env { HoldsEnv cx.old.nodes env }
        requires term { HoldsTerm cx.old.nodes term }
        ensures named { IfOk result (λ o. option_map (λ gs. predicates_read cx.new.nodes gs.items)
            o ≡ well_formed_in (handler cx.new.nodes self.now) (tree_at cx.new.nodes env.node)
            (tree_at cx.new.nodes term.node)) }
        ensures goals { IfOk result (λ o. IfSome o (λ gs. All (IsGoalIn cx.new.nodes env)
            gs.items)) }
        ensures grows { Grows cx.old cx.new }
        ensures memory { IsOkUnless result Fault.Memory };

    /// What a goal is answered at once, without a query, if the handler knows: its fast path. It is asked for each goal that is added
    /// in an evaluation, with its variables resolved. A yes says that the goal has a proof by the handler's rules that rests on
    /// nothing, in every mode: then the goal is done. A doubt comes only where a variable of a type, a number or a const stands in
    /// the goal: then it waits for the next step. A handler that has no fast path says nothing, as this body does.
    fn compute_goal_fast_path(&self, cx: &Cx, goal: Goal) -> Option<Certainty>
        requires ready { ready cx.now.nodes self.now }
        requires goal { HoldsGoal cx.now.nodes goal }
        ensures known { IfSome result (λ c. (handler cx.now.nodes self.now).at_once
            (tree_at cx.now.nodes goal.param_env.node) (tree_at cx.now.nodes goal.predicate.node)
            (certainty_of c)) }
    {
        let _ = (cx.alloc, goal);
        None
    }

    /// Whether an impl has an item of a trait, for a use of the trait. The engine never asks, and nothing rests on the answer.
    fn fetch_eligible_assoc_item(
        &self,
        trait_ref: TraitRef,
        def_id: AliasDefId,
    ) -> FetchEligibleAssocItemResponse {
        let _ = (trait_ref, def_id);
        FetchEligibleAssocItemResponse::NotFound
    }

    /// Whether what this universe names can meet the region constraints of a table: `NoSolution` where nothing can, and then the
    /// candidate after which the table stands so fails. The engine asks for the root, whatever mode it is in. A handler that
    /// leaves the judgement to who asked says nothing, as this body does.
    fn leak_check(
        &self,
        cx: &mut Cx,
        table: &InferCtxt,
        max_input_universe: UniverseIndex,
    ) -> Result<(), EvalError>
        requires ready { ready cx.old.nodes self.now }
        requires table { IsTable cx.old.nodes table.now }
        ensures leaks { result ≡ Err EvalError.NoSolution → (handler cx.old.nodes self.now).leaks
            (content_of cx.old.nodes table.now.entries) max_input_universe }
        ensures grows { Grows cx.old cx.new }
        ensures full { result ≢ Err EvalError.Full }
    {
        let _ = (cx.alloc, table.universe(), max_input_universe);
        Ok(())
    }

    /// The handler keeps the laws: candidates commute with plain renaming, their instances are rules, rules are closed
    /// under instances, candidates keep the environment and have no foreign leaves, sorts or sources, what is judged is kept under
    /// instances, and what is answered at once holds.
    ghost lawful: { (ts : List Tree) (s : Self) → AreFormed ts → ready ts s → IsLawfulHandler (handler ts s) };

    /// In coherence each rule for an instance of a goal is one of a candidate that is offered for the goal, and that asks for
    /// nothing beyond the rule.
    ghost offered: { (ts : List Tree) (s : Self) → AreFormed ts → ready ts s → RulesAreOffered (handler ts s) };

    /// A store that grows keeps what the handler means.
    ghost handler_kept: { (a b : List Tree) (s : Self) → ready a s → Extends a b → MeansSame (handler b s) (handler a s) };

    /// A store that grows keeps the handler's terms.
    ghost ready_kept: { (a b : List Tree) (s : Self) → ready a s → Extends a b → ready b s };
}
