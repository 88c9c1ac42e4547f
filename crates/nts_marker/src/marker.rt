//! A trait that holds of everything.
ghost use Rattle.std.specs.Prelude.{◌≡◌, ℕ, ◌∷◌, [], false, List};
ghost use Rattle.nts_model.specs.Terms.Trees.{Tree};
ghost use Rattle.nts_store.specs.Growth.{tree_at};
ghost use Rattle.nts_terms.specs.Handles.{HoldsGoal};
ghost use Rattle.nts_candidates.specs.Offered.{candidate_of, certainty_of};
ghost use Rattle.nts_marker.specs.Marking.{marks, fact};

use nts_certainty::{Certainty, RerunCondition};
use nts_delegate::{CandidateData, GoalHandler};
use nts_store::Fault;
use nts_terms::{
    AliasTerm, ClauseKind, Const, Cx, Goal, ParamEnv, PredicateKind, Term, TraitId, TypingMode,
};
use std::alloc::Global;

/// Offers, for each goal of one trait, a candidate that asks for nothing, and is so sure. It has no rules for other traits.
#[derive(Clone, Copy)]
pub struct Marker {
    pub id: TraitId,
    pub certainty: Certainty,
}

/// A candidate that asks for nothing.
fn bare(alloc: Global, certainty: Certainty) -> CandidateData
    ensures tree { (ts : List Tree) → candidate_of ts result ≡ fact (certainty_of certainty) }
    ensures hidden { result.hidden_types.items ≡ [] }
    ensures equations { result.equations.items ≡ [] }
    ensures constraints { result.region_constraints.items ≡ [] }
    ensures goals { result.goals.items ≡ [] }
    ensures accesses { result.accesses ≡ RerunCondition.Never }
{
    CandidateData {
        fresh: Vec::new(alloc),
        equations: Vec::new(alloc),
        region_constraints: Vec::new(alloc),
        hidden_types: Vec::new(alloc),
        goals: Vec::new(alloc),
        certainty,
        accesses: RerunCondition::Never,
    }
}

/// Whether a goal is one of the trait.
pub(crate) fn marks(id: TraitId, cx: &Cx, goal: Goal) -> bool
    requires { HoldsGoal cx.now.nodes goal }
    ensures { result ≡ marks id.number (tree_at cx.now.nodes goal.predicate.node) }
{
    match goal.predicate.kind(cx).value {
        PredicateKind::Clause(ClauseKind::Trait(of)) => of.def_id.number == id.number,
        _ => false,
    }
}

impl GoalHandler for Marker {
    ghost use Rattle.nts_candidates.specs.Offered.{certainty_of};
    ghost use Rattle.nts_marker.specs.Marking.{marking};
    ghost use Rattle.nts_marker.specs.MarkerLaws.{IsLawfulHandler-marking, RulesAreOffered-marking, MeansSame-itself};

    ghost ready = { λ ts s. Unit {0} };

    ghost handler = { λ ts s. marking s.id.number (certainty_of s.certainty) };

    fn candidates(
        &self,
        cx: &mut Cx,
        mode: &TypingMode,
        goal: Goal,
    ) -> Result<Vec<CandidateData>, Fault> {
        let _ = mode;
        let mut found = Vec::new(cx.alloc);
        if marks(self.id, cx, goal) {
            found.push(bare(cx.alloc, self.certainty))?;
        }
        Ok(found)
    }

    fn trait_is_coinductive(&self, id: TraitId) -> bool {
        let _ = id;
        false
    }

    fn trait_is_dyn_compatible(&self, id: TraitId) -> bool {
        let _ = id;
        false
    }

    fn may_use_unstable_feature(&self, env: ParamEnv, symbol: u32) -> bool {
        let _ = (env, symbol);
        false
    }

    fn evaluate_const(
        &self,
        cx: &mut Cx,
        env: ParamEnv,
        uv: AliasTerm,
    ) -> Result<Option<Const>, Fault> {
        let _ = (cx.alloc, env, uv);
        Ok(None)
    }

    fn well_formed_goals(
        &self,
        cx: &mut Cx,
        env: ParamEnv,
        term: Term,
    ) -> Result<Option<Vec<Goal>>, Fault> {
        let _ = (cx.alloc, env, term);
        Ok(None)
    }

    ghost lawful = { λ ts s f r. IsLawfulHandler-marking s.id.number (certainty_of s.certainty) };

    ghost offered = { λ ts s f r. RulesAreOffered-marking s.id.number (certainty_of s.certainty) };

    ghost handler_kept = { λ a b s r e. MeansSame-itself (marking s.id.number (certainty_of s.certainty)) };

    ghost ready_kept = { λ a b s h e. tt };
}
