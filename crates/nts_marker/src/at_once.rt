//! A trait that holds of everything, and is answered at once.
ghost use Rattle.std.specs.Prelude.{◌≡◌};
ghost use Rattle.nts_certainty.specs.declared.certainty.Certainty.TheVariants as certainty;

use crate::marker::{Marker, marks};
use nts_certainty::Certainty;
use nts_delegate::{Both, CandidateData, FetchEligibleAssocItemResponse, GoalHandler};
use nts_store::{EvalError, Fault};
use nts_table::InferCtxt;
use nts_terms::{
    AliasDefId, AliasTerm, Const, Cx, Goal, ParamEnv, Term, TraitId, TraitRef, TypingMode,
    UniverseIndex,
};

/// One trait that holds of everything, and the rules of another handler. Goals of the trait that are added in an evaluation are
/// answered at once, by a fast path: yes, unless a variable of a type, a number or a const stands in the goal. Then the goal waits.
/// All else is as in the other handler.
#[derive(Drop)]
pub struct AtOnce<C: GoalHandler + Drop> {
    pub id: TraitId,
    pub rules: C,
}

impl<C: GoalHandler + Drop> AtOnce<C> {
    /// The fact of the trait, and then the other rules.
    fn offers(&self) -> Both<Marker, &C>
        ensures of_trait { result.first.id ≡ self.now.id }
        ensures holds { result.first.certainty ≡ certainty.Yes }
        ensures others { result.second.now ≡ self.now.rules }
    {
        let id = self.id;
        let certainty = Certainty::Yes;
        Both {
            first: Marker { id, certainty },
            second: &self.rules,
        }
    }
}

impl<C: GoalHandler + Drop> GoalHandler for AtOnce<C> {
    ghost use Rattle.nts_marker.specs.Answering.{answering};
    ghost use Rattle.nts_marker.specs.AnsweringLaws.{IsLawfulHandler-answering, RulesAreOffered-answering, MeansSame-answering};

    ghost ready = { λ ts s. C.ready ts s.rules };

    ghost handler = { λ ts s. answering s.id.number (C.handler ts s.rules) };

    fn candidates(
        &self,
        cx: &mut Cx,
        mode: &TypingMode,
        goal: Goal,
    ) -> Result<Vec<CandidateData>, Fault> {
        self.offers().candidates(cx, mode, goal)
    }

    fn relevant_candidates(
        &self,
        cx: &mut Cx,
        mode: &TypingMode,
        goal: Goal,
    ) -> Result<Vec<CandidateData>, Fault> {
        self.offers().relevant_candidates(cx, mode, goal)
    }

    fn trait_is_coinductive(&self, id: TraitId) -> bool {
        self.rules.trait_is_coinductive(id)
    }

    fn trait_is_dyn_compatible(&self, id: TraitId) -> bool {
        self.rules.trait_is_dyn_compatible(id)
    }

    fn may_use_unstable_feature(&self, env: ParamEnv, symbol: u32) -> bool {
        self.rules.may_use_unstable_feature(env, symbol)
    }

    fn evaluate_const(
        &self,
        cx: &mut Cx,
        env: ParamEnv,
        uv: AliasTerm,
    ) -> Result<Option<Const>, Fault> {
        self.rules.evaluate_const(cx, env, uv)
    }

    fn well_formed_goals(
        &self,
        cx: &mut Cx,
        env: ParamEnv,
        term: Term,
    ) -> Result<Option<Vec<Goal>>, Fault> {
        self.rules.well_formed_goals(cx, env, term)
    }

    fn compute_goal_fast_path(&self, cx: &Cx, goal: Goal) -> Option<Certainty> {
        if !marks(self.id, cx, goal) {
            return None;
        }
        if cx.has_non_region_infer(goal.predicate) {
            return Some(Certainty::AMBIGUOUS);
        }
        Some(Certainty::Yes)
    }

    fn fetch_eligible_assoc_item(
        &self,
        trait_ref: TraitRef,
        def_id: AliasDefId,
    ) -> FetchEligibleAssocItemResponse {
        self.rules.fetch_eligible_assoc_item(trait_ref, def_id)
    }

    fn leak_check(
        &self,
        cx: &mut Cx,
        table: &InferCtxt,
        max_input_universe: UniverseIndex,
    ) -> Result<(), EvalError> {
        self.rules.leak_check(cx, table, max_input_universe)
    }

    ghost lawful = { λ ts s f r. IsLawfulHandler-answering s.id.number (C.handler ts s.rules) (C.lawful ts s.rules f r) };

    ghost offered = { λ ts s f r. RulesAreOffered-answering s.id.number (C.handler ts s.rules) (C.offered ts s.rules f r) };

    ghost handler_kept = { λ a b s r e. MeansSame-answering s.id.number (C.handler_kept a b s.rules r e) };

    ghost ready_kept = { λ a b s h e. C.ready_kept a b s.rules h e };
}
