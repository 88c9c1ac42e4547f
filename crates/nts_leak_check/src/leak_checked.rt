//! A handler that checks for leaks.
ghost use Rattle.std.specs.Prelude.{◌≡◌, ◌<◌, All, map, Some, None, IfSome, IsTrue};
ghost use Rattle.nts_store.specs.Growth.{tree_at, IsIn};
ghost use Rattle.nts_unify.specs.Reading.{recorded_of};
ghost use Rattle.nts_leak_check.specs.Leaking.{IsRigid, HasRigidRegion, EquatesRigid, AreSidesIn, OneEquatesRigid};

use nts_certainty::Certainty;
use nts_delegate::{CandidateData, FetchEligibleAssocItemResponse, GoalHandler};
use nts_model::{FreeRegion, Label, Leaf, Relation};
use nts_store::{EvalError, Fault, NodeId};
use nts_table::{Constraint, InferCtxt};
use nts_terms::{
    AliasDefId, AliasTerm, Const, Cx, Goal, ParamEnv, Term, TraitId, TraitRef, TypingMode,
    UniverseIndex,
};

/// The rules of a handler, with a leak check: a candidate fails after which a constraint makes two regions one that each stand for
/// themselves: `'static`, or a region that a binder bound which was opened since. So `for<'a> T('a)` does not hold by
/// `impl T('static)`. Each constraint is looked at alone.
#[derive(Drop)]
pub struct LeakChecked<H: GoalHandler + Drop> {
    pub rules: H,
}

impl<H: GoalHandler + Drop> GoalHandler for LeakChecked<H> {
    ghost use Rattle.nts_leak_check.specs.Leaking.{checking};
    ghost use Rattle.nts_leak_check.specs.LeakLaws.{IsLawfulHandler-checking, RulesAreOffered-checking, MeansSame-checking};

    ghost ready = { λ ts s. H.ready ts s.rules };

    ghost handler = { λ ts s. checking (H.handler ts s.rules) };

    fn candidates(
        &self,
        cx: &mut Cx,
        mode: &TypingMode,
        goal: Goal,
    ) -> Result<Vec<CandidateData>, Fault> {
        self.rules.candidates(cx, mode, goal)
    }

    fn relevant_candidates(
        &self,
        cx: &mut Cx,
        mode: &TypingMode,
        goal: Goal,
    ) -> Result<Vec<CandidateData>, Fault> {
        self.rules.relevant_candidates(cx, mode, goal)
    }

    fn trait_is_coinductive(&self, id: TraitId) -> bool {
        self.rules.trait_is_coinductive(id)
    }

    fn trait_is_dyn_compatible(&self, id: TraitId) -> bool {
        self.rules.trait_is_dyn_compatible(id)
    }

    fn may_use_unstable_feature(&self, env: ParamEnv, symbol: u32) -> bool {
        self.rules.may_use_unstable_feature(env, symbol)
    }

    fn evaluate_const(
        &self,
        cx: &mut Cx,
        env: ParamEnv,
        uv: AliasTerm,
    ) -> Result<Option<Const>, Fault> {
        self.rules.evaluate_const(cx, env, uv)
    }

    fn well_formed_goals(
        &self,
        cx: &mut Cx,
        env: ParamEnv,
        term: Term,
    ) -> Result<Option<Vec<Goal>>, Fault> {
        self.rules.well_formed_goals(cx, env, term)
    }

    fn compute_goal_fast_path(&self, cx: &Cx, goal: Goal) -> Option<Certainty> {
        self.rules.compute_goal_fast_path(cx, goal)
    }

    fn fetch_eligible_assoc_item(
        &self,
        trait_ref: TraitRef,
        def_id: AliasDefId,
    ) -> FetchEligibleAssocItemResponse {
        self.rules.fetch_eligible_assoc_item(trait_ref, def_id)
    }

    fn leak_check(
        &self,
        cx: &mut Cx,
        table: &InferCtxt,
        max_input_universe: UniverseIndex,
    ) -> Result<(), EvalError> {
        self.rules.leak_check(cx, table, max_input_universe)?;
        let constraints = table.make_deduplicated_region_constraints(cx)?;
        if one_equates_rigid(cx, &constraints, max_input_universe) {
            return Err(EvalError::NoSolution);
        }
        Ok(())
    }

    ghost lawful = { λ ts s f r. IsLawfulHandler-checking (H.handler ts s.rules) (H.lawful ts s.rules f r) };

    ghost offered = { λ ts s f r. RulesAreOffered-checking (H.handler ts s.rules) (H.offered ts s.rules f r) };

    ghost handler_kept = { λ a b s r e. MeansSame-checking (H.handler_kept a b s.rules r e) };

    ghost ready_kept = { λ a b s h e. H.ready_kept a b s.rules h e };
}

/// Whether one of these constraints makes two regions one that each stand for themselves, and are not one.
fn one_equates_rigid(cx: &Cx, constraints: &[Constraint], universe: UniverseIndex) -> bool
    requires { All (AreSidesIn cx.now.nodes) constraints.now }
    ensures { IsTrue result → OneEquatesRigid universe (map (recorded_of cx.now.nodes)
        constraints.now) }
{
    for constraint in constraints {
        if equates_rigid(cx, *constraint, universe) {
            return true;
        }
    }
    false
}

/// Whether a constraint makes two regions one that each stand for themselves, and are not one.
fn equates_rigid(cx: &Cx, constraint: Constraint, universe: UniverseIndex) -> bool
    requires { AreSidesIn cx.now.nodes constraint }
    ensures { IsTrue result → EquatesRigid universe (recorded_of cx.now.nodes constraint) }
{
    if constraint.relation != Relation::Equal {
        return false;
    }
    let left = rigid_region(cx, constraint.left, universe);
    let right = rigid_region(cx, constraint.right, universe);
    match (left, right) {
        (Some(left), Some(right)) => left != right,
        _ => false,
    }
}

/// The region that a term is, if that stands for itself as seen from the universe.
fn rigid_region(cx: &Cx, term: NodeId, universe: UniverseIndex) -> Option<FreeRegion>
    requires { IsIn cx.now.nodes term }
    ensures { IfSome result (HasRigidRegion universe (tree_at cx.now.nodes term)) }
{
    match cx.nodes.label(term) {
        Label::Leaf(Leaf::Region(region)) => rigid(region, universe),
        _ => None,
    }
}

/// A region, if it stands for itself as seen from the universe: what the universe names may be any region that it names.
fn rigid(region: FreeRegion, universe: UniverseIndex) -> Option<FreeRegion>
    ensures { IfSome result (λ r. (r ≡ region) × IsRigid universe region) }
{
    match region {
        FreeRegion::Static => Some(region),
        FreeRegion::Placeholder(of, _) => { if universe < of { Some(region) } else { None } }
        _ => None,
    }
}
