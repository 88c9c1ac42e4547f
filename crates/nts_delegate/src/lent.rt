//! What is lent as a handler.
use crate::delegate::{FetchEligibleAssocItemResponse, GoalHandler};
use nts_candidates::CandidateData;
use nts_candidates::nts_certainty::Certainty;
use nts_store::{EvalError, Fault};
use nts_table::InferCtxt;
use nts_terms::{
    AliasDefId, AliasTerm, Const, Cx, Goal, ParamEnv, Term, TraitId, TraitRef, TypingMode,
    UniverseIndex,
};

/// A handler that is lent.
impl<H: GoalHandler> GoalHandler for &H {
    ghost ready = { λ ts s. H.ready ts s.now };

    ghost handler = { λ ts s. H.handler ts s.now };

    fn candidates(
        &self,
        cx: &mut Cx,
        mode: &TypingMode,
        goal: Goal,
    ) -> Result<Vec<CandidateData>, Fault> {
        (**self).candidates(cx, mode, goal)
    }

    fn relevant_candidates(
        &self,
        cx: &mut Cx,
        mode: &TypingMode,
        goal: Goal,
    ) -> Result<Vec<CandidateData>, Fault> {
        (**self).relevant_candidates(cx, mode, goal)
    }

    fn trait_is_coinductive(&self, id: TraitId) -> bool {
        (**self).trait_is_coinductive(id)
    }

    fn trait_is_dyn_compatible(&self, id: TraitId) -> bool {
        (**self).trait_is_dyn_compatible(id)
    }

    fn may_use_unstable_feature(&self, env: ParamEnv, symbol: u32) -> bool {
        (**self).may_use_unstable_feature(env, symbol)
    }

    fn evaluate_const(
        &self,
        cx: &mut Cx,
        env: ParamEnv,
        uv: AliasTerm,
    ) -> Result<Option<Const>, Fault> {
        (**self).evaluate_const(cx, env, uv)
    }

    fn well_formed_goals(
        &self,
        cx: &mut Cx,
        env: ParamEnv,
        term: Term,
    ) -> Result<Option<Vec<Goal>>, Fault> {
        (**self).well_formed_goals(cx, env, term)
    }

    fn compute_goal_fast_path(&self, cx: &Cx, goal: Goal) -> Option<Certainty> {
        (**self).compute_goal_fast_path(cx, goal)
    }

    fn fetch_eligible_assoc_item(
        &self,
        trait_ref: TraitRef,
        def_id: AliasDefId,
    ) -> FetchEligibleAssocItemResponse {
        (**self).fetch_eligible_assoc_item(trait_ref, def_id)
    }

    fn leak_check(
        &self,
        cx: &mut Cx,
        table: &InferCtxt,
        max_input_universe: UniverseIndex,
    ) -> Result<(), EvalError> {
        (**self).leak_check(cx, table, max_input_universe)
    }

    ghost lawful = { λ ts s f r. H.lawful ts s.now f r };

    ghost offered = { λ ts s f r. H.offered ts s.now f r };

    ghost handler_kept = { λ a b s r e. H.handler_kept a b s.now r e };

    ghost ready_kept = { λ a b s h e. H.ready_kept a b s.now h e };
}
