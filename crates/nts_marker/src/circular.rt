//! A trait that holds where it holds.
ghost use Rattle.std.specs.Prelude.{◌≡◌, IfOk, IsOkUnless};
ghost use Rattle.nts_delegate.specs.Candidates.{IsAskedIn, IsCandidate};
ghost use Rattle.nts_candidates.specs.Offered.{candidate_of};
ghost use Rattle.nts_store.specs.Growth.{tree_at};
ghost use Rattle.nts_marker.specs.Circling.{again};

use crate::marker::marks;
use nts_certainty::{Certainty, GoalSource, RerunCondition};
use nts_delegate::{CandidateData, CandidateGoal, GoalHandler};
use nts_store::Fault;
use nts_terms::{AliasTerm, Const, Cx, Goal, ParamEnv, Term, TraitId, TypingMode};

/// Offers, for each goal of one trait, a candidate that asks for the goal itself, as relating would: by an inductive step. So each
/// goal of it is a cycle, which has no solution outside of coherence, and is in doubt there. It has no rules for other traits.
#[derive(Clone, Copy)]
pub struct Circular {
    pub id: TraitId,
}

/// A candidate that asks for the goal itself.
fn itself(cx: &Cx, goal: Goal) -> Result<CandidateData, Fault>
    requires { IsAskedIn cx.now.nodes goal }
    ensures candidate { IfOk result (IsCandidate cx.now.nodes goal) }
    ensures tree { IfOk result (λ c. candidate_of cx.now.nodes c ≡ again
        (tree_at cx.now.nodes goal.param_env.node) (tree_at cx.now.nodes goal.predicate.node)) }
    ensures memory { IsOkUnless result Fault.Memory }
{
    let source = GoalSource::TypeRelating;
    let mut goals = Vec::new(cx.alloc);
    goals.push(CandidateGoal { source, goal })?;
    Ok(CandidateData {
        fresh: Vec::new(cx.alloc),
        equations: Vec::new(cx.alloc),
        region_constraints: Vec::new(cx.alloc),
        hidden_types: Vec::new(cx.alloc),
        goals,
        certainty: Certainty::Yes,
        accesses: RerunCondition::Never,
    })
}

impl GoalHandler for Circular {
    ghost use Rattle.nts_marker.specs.Circling.{circling};
    ghost use Rattle.nts_marker.specs.CircularLaws.{IsLawfulHandler-circling, RulesAreOffered-circling};
    ghost use Rattle.nts_marker.specs.MarkerLaws.{MeansSame-itself};

    ghost ready = { λ ts s. Unit {0} };

    ghost handler = { λ ts s. circling s.id.number };

    fn candidates(
        &self,
        cx: &mut Cx,
        mode: &TypingMode,
        goal: Goal,
    ) -> Result<Vec<CandidateData>, Fault> {
        let _ = mode;
        let mut found = Vec::new(cx.alloc);
        if marks(self.id, cx, goal) {
            found.push(itself(cx, goal)?)?;
        }
        Ok(found)
    }

    fn trait_is_coinductive(&self, id: TraitId) -> bool {
        let _ = id;
        false
    }

    fn trait_is_dyn_compatible(&self, id: TraitId) -> bool {
        let _ = id;
        false
    }

    fn may_use_unstable_feature(&self, env: ParamEnv, symbol: u32) -> bool {
        let _ = (env, symbol);
        false
    }

    fn evaluate_const(
        &self,
        cx: &mut Cx,
        env: ParamEnv,
        uv: AliasTerm,
    ) -> Result<Option<Const>, Fault> {
        let _ = (cx.alloc, env, uv);
        Ok(None)
    }

    fn well_formed_goals(
        &self,
        cx: &mut Cx,
        env: ParamEnv,
        term: Term,
    ) -> Result<Option<Vec<Goal>>, Fault> {
        let _ = (cx.alloc, env, term);
        Ok(None)
    }

    ghost lawful = { λ ts s f r. IsLawfulHandler-circling s.id.number };

    ghost offered = { λ ts s f r. RulesAreOffered-circling s.id.number };

    ghost handler_kept = { λ a b s r e. MeansSame-itself (circling s.id.number) };

    ghost ready_kept = { λ a b s h e. tt };
}
