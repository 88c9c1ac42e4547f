//! The clauses of an environment before the rules of another handler.
ghost use Rattle.std.specs.Prelude.{◌≡◌};

use crate::assumptions::Assumptions;
use crate::projections::AssumedProjections;
use nts_candidates::CandidateData;
use nts_delegate::{Both, FetchEligibleAssocItemResponse, GoalHandler};
use nts_store::{EvalError, Fault};
use nts_table::InferCtxt;
use nts_terms::{
    AliasDefId, AliasTerm, Const, Cx, Goal, ParamEnv, Term, TraitId, TraitRef, TypingMode,
    UniverseIndex,
};

/// A handler by which the environment of a goal is assumed: it offers the environment's clauses of the goal's trait, or those that
/// say what the alias is that the goal normalizes, and then what the other handler offers, as a list of clauses. All else is as in
/// that one.
#[derive(Drop)]
pub struct Assembly<C: GoalHandler + Drop> {
    rules: Both<Assumptions, Both<AssumedProjections, C>>,
}

impl<C: GoalHandler + Drop> Assembly<C> {
    /// The environment's clauses, and then these. It takes no memory.
    pub fn new(clauses: C) -> Self
        ensures { result.rules.second.second ≡ clauses }
    {
        Assembly {
            rules: Both {
                first: Assumptions,
                second: Both {
                    first: AssumedProjections,
                    second: clauses,
                },
            },
        }
    }
}

impl<C: GoalHandler + Drop> GoalHandler for Assembly<C> {
    ghost use Rattle.nts_assembly.specs.Assembling.{assembled, IsLawfulHandler-assembled, RulesAreOffered-assembled, MeansSame-assembled};

    ghost ready = { λ ts s. C.ready ts s.rules.second.second };

    ghost handler = { λ ts s. assembled (C.handler ts s.rules.second.second) };

    fn candidates(
        &self,
        cx: &mut Cx,
        mode: &TypingMode,
        goal: Goal,
    ) -> Result<Vec<CandidateData>, Fault> {
        self.rules.candidates(cx, mode, goal)
    }

    fn relevant_candidates(
        &self,
        cx: &mut Cx,
        mode: &TypingMode,
        goal: Goal,
    ) -> Result<Vec<CandidateData>, Fault> {
        self.rules.relevant_candidates(cx, mode, goal)
    }

    fn trait_is_coinductive(&self, id: TraitId) -> bool {
        self.rules.trait_is_coinductive(id)
    }

    fn trait_is_dyn_compatible(&self, id: TraitId) -> bool {
        self.rules.trait_is_dyn_compatible(id)
    }

    fn may_use_unstable_feature(&self, env: ParamEnv, symbol: u32) -> bool {
        self.rules.may_use_unstable_feature(env, symbol)
    }

    fn evaluate_const(
        &self,
        cx: &mut Cx,
        env: ParamEnv,
        uv: AliasTerm,
    ) -> Result<Option<Const>, Fault> {
        self.rules.evaluate_const(cx, env, uv)
    }

    fn well_formed_goals(
        &self,
        cx: &mut Cx,
        env: ParamEnv,
        term: Term,
    ) -> Result<Option<Vec<Goal>>, Fault> {
        self.rules.well_formed_goals(cx, env, term)
    }

    fn fetch_eligible_assoc_item(
        &self,
        trait_ref: TraitRef,
        def_id: AliasDefId,
    ) -> FetchEligibleAssocItemResponse {
        self.rules.fetch_eligible_assoc_item(trait_ref, def_id)
    }

    fn leak_check(
        &self,
        cx: &mut Cx,
        table: &InferCtxt,
        max_input_universe: UniverseIndex,
    ) -> Result<(), EvalError> {
        self.rules.leak_check(cx, table, max_input_universe)
    }

    ghost lawful = { λ ts s f r. IsLawfulHandler-assembled (C.handler ts s.rules.second.second) (C.lawful ts s.rules.second.second f r) };

    ghost offered = { λ ts s f r. RulesAreOffered-assembled (C.handler ts s.rules.second.second) (C.offered ts s.rules.second.second f r) };

    ghost handler_kept = { λ a b s r e. MeansSame-assembled (C.handler_kept a b s.rules.second.second r e) };

    ghost ready_kept = { λ a b s h e. C.ready_kept a b s.rules.second.second h e };
}
