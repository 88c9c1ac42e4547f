//! A handler that offers no rules, and judges.
ghost use Rattle.std.specs.Prelude.{◌≡◌, List, IfOk, IsOkUnless};
ghost use Rattle.nts_model.specs.Terms.Trees.{Tree};
ghost use Rattle.nts_store.specs.Growth.{tree_at};
ghost use Rattle.nts_terms.specs.Handles.{HoldsTerm, HoldsPredicate};
ghost use Rattle.nts_terms.specs.Kinds.{tree_of_alias};
ghost use Rattle.nts_terms.specs.Rest.{Grows};
ghost use Rattle.nts_marker.specs.Judgement.{is_constant, is_constructor, allowed};

use nts_delegate::{CandidateData, GoalHandler};
use nts_store::Fault;
use nts_terms::{
    AliasDefId, AliasTerm, Binder, ClauseKind, Const, ConstId, ConstKind, CtorId, Cx, Goal,
    ParamEnv, Predicate, PredicateKind, Term, TermKind, TraitId, TyKind, TypingMode,
};

/// Offers no rules, and judges: objects can be made of one trait, each environment allows one
/// unstable feature, each const of one definition is an error, and each type of one constructor is
/// well formed where an unstable feature is allowed.
#[derive(Clone, Copy)]
pub struct Judge {
    pub objects: TraitId,
    pub feature: u32,
    pub constant: ConstId,
    pub formed: CtorId,
    /// The feature by which a type of the constructor is well formed.
    pub needs: u32,
}

/// Whether a const is of the definition.
fn is_constant(id: ConstId, uv: AliasTerm) -> bool
    ensures { (ts : List Tree) → result ≡ is_constant id.number (tree_of_alias ts uv) }
{
    match uv.def_id {
        AliasDefId::Const(of) => of.number == id.number,
        AliasDefId::Ty(_) => false,
    }
}

/// Whether a term is a type of the constructor.
fn is_constructor(id: CtorId, cx: &Cx, term: Term) -> bool
    requires { HoldsTerm cx.now.nodes term }
    ensures { result ≡ is_constructor id.number (tree_at cx.now.nodes term.node) }
{
    let ty = match term.kind(cx) {
        TermKind::Ty(ty) => ty,
        TermKind::Const(_) => return false,
    };
    match ty.kind(cx) {
        TyKind::Ctor(of, _) => of.number == id.number,
        _ => false,
    }
}

/// That a feature is allowed.
fn allowed(cx: &mut Cx, feature: u32) -> Result<Predicate, Fault>
    ensures tree { IfOk result (λ p. tree_at cx.new.nodes p.node ≡ allowed feature) }
    ensures holds { IfOk result (λ p. HoldsPredicate cx.new.nodes p) }
    ensures grows { Grows cx.old cx.new }
    ensures memory { IsOkUnless result Fault.Memory }
{
    let vars = cx.mk_bound_vars(&[])?;
    let value = PredicateKind::Clause(ClauseKind::UnstableFeature(feature));
    cx.mk_predicate(Binder { vars, value })
}

impl GoalHandler for Judge {
    ghost use Rattle.nts_marker.specs.Judgement.{judging};
    ghost use Rattle.nts_marker.specs.JudgeLaws.{IsLawfulHandler-judging, RulesAreOffered-judging};
    ghost use Rattle.nts_marker.specs.MarkerLaws.{MeansSame-itself};

    ghost ready = { λ ts s. Unit {0} };

    ghost handler = { λ ts s.
        judging s.objects.number s.feature s.constant.number s.formed.number s.needs };

    fn candidates(
        &self,
        cx: &mut Cx,
        mode: &TypingMode,
        goal: Goal,
    ) -> Result<Vec<CandidateData>, Fault> {
        let _ = mode;
        let _ = goal;
        Ok(Vec::new(cx.alloc))
    }

    fn trait_is_coinductive(&self, id: TraitId) -> bool {
        let _ = id;
        false
    }

    fn trait_is_dyn_compatible(&self, id: TraitId) -> bool {
        id.number == self.objects.number
    }

    fn may_use_unstable_feature(&self, env: ParamEnv, symbol: u32) -> bool {
        let _ = env;
        symbol == self.feature
    }

    fn evaluate_const(
        &self,
        cx: &mut Cx,
        env: ParamEnv,
        uv: AliasTerm,
    ) -> Result<Option<Const>, Fault> {
        let _ = env;
        if !is_constant(self.constant, uv) {
            return Ok(None);
        }
        let error = cx.mk_const(ConstKind::Error)?;
        Ok(Some(error))
    }

    fn well_formed_goals(
        &self,
        cx: &mut Cx,
        env: ParamEnv,
        term: Term,
    ) -> Result<Option<Vec<Goal>>, Fault> {
        if !is_constructor(self.formed, cx, term) {
            return Ok(None);
        }
        let predicate = allowed(cx, self.needs)?;
        let mut goals = Vec::new(cx.alloc);
        goals.push(Goal {
            param_env: env,
            predicate,
        })?;
        Ok(Some(goals))
    }

    ghost lawful = { λ ts s f r. IsLawfulHandler-judging
        s.objects.number s.feature s.constant.number s.formed.number s.needs };

    ghost offered = { λ ts s f r. RulesAreOffered-judging
        s.objects.number s.feature s.constant.number s.formed.number s.needs };

    ghost handler_kept = { λ a b s r e. MeansSame-itself
        (judging s.objects.number s.feature s.constant.number s.formed.number s.needs) };

    ghost ready_kept = { λ a b s h e. tt };
}
