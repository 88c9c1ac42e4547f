//! Two handlers as one.
ghost use Rattle.std.specs.Prelude.{◌≡◌, ◌||◌, List, IfOk, IsOkUnless};
ghost use Rattle.nts_model.specs.Terms.Trees.{Tree};
ghost use Rattle.nts_store.specs.Growth.{tree_at};
ghost use Rattle.nts_terms.specs.Rest.{Grows};

use crate::delegate::{FetchEligibleAssocItemResponse, GoalHandler};
use crate::offer::joined;
use nts_candidates::CandidateData;
use nts_store::{EvalError, Fault};
use nts_table::InferCtxt;
use nts_terms::{
    AliasDefId, AliasTerm, Const, Cx, Goal, ParamEnv, Term, TraitId, TraitRef, TypingMode,
    UniverseIndex,
};

/// The rules of two handlers, as one handler: it offers the candidates of the first, and then those of the second. A trait is
/// coinductive if it is for one of them, and a leak is one for one of them. Of goals of the engine's own kinds the second judges
/// alone. It has no fast path: what has a proof by the rules of one may have none by those of both. So a caller who has rules of his own for some traits writes a handler for these alone,
/// and puts it beside `Clauses`.
#[derive(Drop)]
pub struct Both<A: GoalHandler + Drop, B: GoalHandler + Drop> {
    pub first: A,
    pub second: B,
}

impl<A: GoalHandler + Drop, B: GoalHandler + Drop> GoalHandler for Both<A, B> {
    ghost use Rattle.nts_delegate.specs.Both.{either, IsLawfulHandler-either, RulesAreOffered-either, MeansSame-either};

    ghost ready = { λ ts s. A.ready ts s.first × B.ready ts s.second };

    ghost handler = { λ ts s. either (A.handler ts s.first) (B.handler ts s.second) };

    fn candidates(
        &self,
        cx: &mut Cx,
        mode: &TypingMode,
        goal: Goal,
    ) -> Result<Vec<CandidateData>, Fault> {
        let found = self.first.candidates(cx, mode, goal)?;
        let more = self.second.candidates(cx, mode, goal)?;
        Ok(joined(found, more)?)
    }

    fn relevant_candidates(
        &self,
        cx: &mut Cx,
        mode: &TypingMode,
        goal: Goal,
    ) -> Result<Vec<CandidateData>, Fault> {
        let found = self.first.relevant_candidates(cx, mode, goal)?;
        let more = self.second.relevant_candidates(cx, mode, goal)?;
        Ok(joined(found, more)?)
    }

    fn trait_is_coinductive(&self, id: TraitId) -> bool {
        let first = self.first.trait_is_coinductive(id);
        let second = self.second.trait_is_coinductive(id);
        first || second
    }

    fn trait_is_dyn_compatible(&self, id: TraitId) -> bool {
        self.second.trait_is_dyn_compatible(id)
    }

    fn may_use_unstable_feature(&self, env: ParamEnv, symbol: u32) -> bool {
        self.second.may_use_unstable_feature(env, symbol)
    }

    fn evaluate_const(
        &self,
        cx: &mut Cx,
        env: ParamEnv,
        uv: AliasTerm,
    ) -> Result<Option<Const>, Fault> {
        self.second.evaluate_const(cx, env, uv)
    }

    fn well_formed_goals(
        &self,
        cx: &mut Cx,
        env: ParamEnv,
        term: Term,
    ) -> Result<Option<Vec<Goal>>, Fault> {
        self.second.well_formed_goals(cx, env, term)
    }

    fn fetch_eligible_assoc_item(
        &self,
        trait_ref: TraitRef,
        def_id: AliasDefId,
    ) -> FetchEligibleAssocItemResponse {
        self.second.fetch_eligible_assoc_item(trait_ref, def_id)
    }

    fn leak_check(
        &self,
        cx: &mut Cx,
        table: &InferCtxt,
        max_input_universe: UniverseIndex,
    ) -> Result<(), EvalError> {
        self.first.leak_check(cx, table, max_input_universe)?;
        self.second.leak_check(cx, table, max_input_universe)
    }

    ghost lawful = { λ ts s f r. IsLawfulHandler-either (A.handler ts s.first) (B.handler ts s.second) (A.lawful ts s.first f r.0) (B.lawful ts s.second f r.1) };

    ghost offered = { λ ts s f r. RulesAreOffered-either (A.handler ts s.first) (B.handler ts s.second) (A.offered ts s.first f r.0) (B.offered ts s.second f r.1) };

    ghost handler_kept = { λ a b s r e. MeansSame-either (A.handler_kept a b s.first r.0 e) (B.handler_kept a b s.second r.1 e) };

    ghost ready_kept = { λ a b s h e. (A.ready_kept a b s.first h.0 e, B.ready_kept a b s.second h.1 e) };
}
