//! What an environment says that aliases are, as a handler.
ghost use Rattle.std.specs.Prelude.{◌≡◌, true, List, IfOk, IfSome, IsOkUnless, option_map};
ghost use Rattle.nts_model.specs.Terms.Trees.{Tree, children, row_length, IsRow};
ghost use Rattle.nts_store.specs.Growth.{tree_at};
ghost use Rattle.nts_terms.specs.Handles.{HoldsArgs, HoldsPredicate, alias_head};
ghost use Rattle.nts_terms.specs.Kinds.{tree_of_clause, tree_of_statement, ClauseFits, StatementFits};
ghost use Rattle.nts_terms.specs.Rest.{Grows};
ghost use Rattle.nts_delegate.specs.ClauseHandlers.{normalization_read, projection_read};
ghost use Rattle.nts_assembly.specs.Projections.{same_alias, fits_alias};
ghost use Rattle.nts_assembly.specs.ProjectionRows.{HoldsSaid, said_in, IsResultOfRow};

use crate::assumptions::{add_offer, position, position_args, sorts_of};
use nts_candidates::nts_certainty::{Certainty, RerunCondition};
use nts_candidates::{CandidateData, Equation, EquationKind};
use nts_delegate::{GoalHandler, pairs_of};
use nts_store::Fault;
use nts_terms::{
    AliasDefId, AliasTerm, ClauseKind, Const, Cx, GenericArg, Goal, ParamEnv, Predicate,
    PredicateKind, Term, TraitId, TypingMode,
};

/// Offers, for a goal that normalizes an alias, a candidate for each clause in the goal's environment that says what this
/// alias is, in order: fresh variables for what the clause binds, its arguments and its term, and no goals. It has no other
/// rules.
#[derive(Clone, Copy)]
pub struct AssumedProjections;

/// What a predicate says that an alias is.
#[derive(Clone, Copy)]
pub(crate) struct AliasIs {
    pub(crate) alias: AliasTerm,
    pub(crate) term: Term,
}

/// What a goal says that an alias normalizes to.
fn normalization_said(kind: PredicateKind) -> Option<AliasIs>
    ensures is { (ts : List Tree) → normalization_read (tree_of_statement ts kind) ≡
        option_map (said_in ts) result }
    ensures holds { (ts : List Tree) → StatementFits ts kind → IfSome result (HoldsSaid ts) }
{
    match kind {
        PredicateKind::NormalizesTo { alias, term } => Some(AliasIs { alias, term }),
        PredicateKind::Clause(_) => None,
        PredicateKind::Subtype { .. } => None,
        PredicateKind::Coerce { .. } => None,
        PredicateKind::DynCompatible(_) => None,
        PredicateKind::ConstEquate(_, _) => None,
        PredicateKind::AliasRelate(_, _, _) => None,
        PredicateKind::Ambiguous => None,
    }
}

/// What a predicate says that the projection of an alias is.
fn projection_said(kind: PredicateKind) -> Option<AliasIs>
    ensures is { (ts : List Tree) → projection_read (tree_of_statement ts kind) ≡
        option_map (said_in ts) result }
    ensures holds { (ts : List Tree) → StatementFits ts kind → IfSome result (HoldsSaid ts) }
{
    match kind {
        PredicateKind::Clause(clause) => projection_of_clause(clause),
        PredicateKind::Subtype { .. } => None,
        PredicateKind::Coerce { .. } => None,
        PredicateKind::DynCompatible(_) => None,
        PredicateKind::ConstEquate(_, _) => None,
        PredicateKind::NormalizesTo { .. } => None,
        PredicateKind::AliasRelate(_, _, _) => None,
        PredicateKind::Ambiguous => None,
    }
}

fn projection_of_clause(kind: ClauseKind) -> Option<AliasIs>
    ensures is { (ts : List Tree) → projection_read (tree_of_clause ts kind) ≡
        option_map (said_in ts) result }
    ensures holds { (ts : List Tree) → ClauseFits ts kind → IfSome result (HoldsSaid ts) }
{
    match kind {
        ClauseKind::Projection { alias, term } => Some(AliasIs { alias, term }),
        ClauseKind::Trait(_) => None,
        ClauseKind::HostEffect(_) => None,
        ClauseKind::TypeOutlives(_, _) => None,
        ClauseKind::RegionOutlives(_, _) => None,
        ClauseKind::ConstArgHasType(_, _) => None,
        ClauseKind::WellFormed(_) => None,
        ClauseKind::ConstEvaluatable(_) => None,
        ClauseKind::UnstableFeature(_) => None,
    }
}

/// Whether two aliases are one.
fn is_same_alias(a: AliasDefId, b: AliasDefId) -> bool
    ensures { result ≡ same_alias (alias_head a) (alias_head b) }
{
    match (a, b) {
        (AliasDefId::Ty(a), AliasDefId::Ty(b)) => a.number == b.number,
        (AliasDefId::Const(a), AliasDefId::Const(b)) => a.number == b.number,
        (AliasDefId::Ty(_), AliasDefId::Const(_)) => false,
        (AliasDefId::Const(_), AliasDefId::Ty(_)) => false,
    }
}

/// Whether what is said of an alias is about the one that is asked for, with as many arguments.
fn takes(cx: &Cx, asked: AliasIs, said: AliasIs) -> bool
    requires asked { HoldsArgs cx.now.nodes asked.alias.args }
    requires said { HoldsArgs cx.now.nodes said.alias.args }
    ensures is { result ≡ fits_alias (said_in cx.now.nodes asked) (said_in cx.now.nodes said) }
    ensures asked { IsRow (children (tree_at cx.now.nodes asked.alias.args.node)) }
    ensures said { IsRow (children (tree_at cx.now.nodes said.alias.args.node)) }
    ensures long { result ≡ true →
        row_length (children (tree_at cx.now.nodes asked.alias.args.node)) ≡
        row_length (children (tree_at cx.now.nodes said.alias.args.node)) }
{
    let asked_len = asked.alias.args.len(cx);
    let said_len = said.alias.args.len(cx);
    is_same_alias(said.alias.def_id, asked.alias.def_id) && asked_len == said_len
}

/// What a predicate of the environment offers for a goal that normalizes an alias, if it says what this alias is.
fn result_of_row(
    cx: &mut Cx,
    row: Predicate,
    asked: AliasIs,
) -> Result<Option<CandidateData>, Fault>
    requires row { HoldsPredicate cx.old.nodes row }
    requires asked { HoldsSaid cx.old.nodes asked }
    ensures offer { IfOk result (λ o. IsResultOfRow cx.new.nodes (said_in cx.old.nodes asked)
        (tree_at cx.old.nodes row.node) o) }
    ensures grows { Grows cx.old cx.new }
    ensures memory { IsOkUnless result Fault.Memory }
{
    let clause = row.kind(cx);
    let Some(said) = projection_said(clause.value) else {
        return Ok(None);
    };
    if !takes(cx, asked, said) {
        return Ok(None);
    }
    let fresh = sorts_of(cx.alloc, cx, clause.vars)?;
    let head = position_args(cx, said.alias.args)?;
    let term = position(cx, said.term.node)?;
    let mut equations = pairs_of(cx.alloc, cx, asked.alias.args, head)?;
    equations.push(Equation {
        kind: EquationKind::Related,
        lhs: GenericArg {
            node: asked.term.node,
        },
        rhs: GenericArg { node: term },
    })?;
    Ok(Some(CandidateData {
        fresh,
        equations,
        region_constraints: Vec::new(cx.alloc),
        hidden_types: Vec::new(cx.alloc),
        goals: Vec::new(cx.alloc),
        certainty: Certainty::Yes,
        accesses: RerunCondition::Never,
    }))
}

impl GoalHandler for AssumedProjections {
    ghost use Rattle.nts_assembly.specs.Projections.{equating};
    ghost use Rattle.nts_assembly.specs.EquatingLawful.{IsLawfulHandler-equating};
    ghost use Rattle.nts_assembly.specs.EquatingOffers.{RulesAreOffered-equating, MeansSame-equating};

    ghost ready = { λ ts s. Unit {0} };

    ghost handler = { λ ts s. equating };

    fn candidates(
        &self,
        cx: &mut Cx,
        mode: &TypingMode,
        goal: Goal,
    ) -> Result<Vec<CandidateData>, Fault> {
        let _ = mode;
        let mut found = Vec::new(cx.alloc);
        let Some(asked) = normalization_said(goal.predicate.kind(cx).value) else {
            return Ok(found);
        };
        for i in 0..goal.param_env.len(cx) {
            let row = goal.param_env.get(cx, i);
            let offer = result_of_row(cx, row, asked)?;
            add_offer(&mut found, offer)?;
        }
        Ok(found)
    }

    fn trait_is_coinductive(&self, id: TraitId) -> bool {
        let _ = id;
        false
    }

    fn trait_is_dyn_compatible(&self, id: TraitId) -> bool {
        let _ = id;
        false
    }

    fn may_use_unstable_feature(&self, env: ParamEnv, symbol: u32) -> bool {
        let _ = (env, symbol);
        false
    }

    fn evaluate_const(
        &self,
        cx: &mut Cx,
        env: ParamEnv,
        uv: AliasTerm,
    ) -> Result<Option<Const>, Fault> {
        let _ = (cx.alloc, env, uv);
        Ok(None)
    }

    fn well_formed_goals(
        &self,
        cx: &mut Cx,
        env: ParamEnv,
        term: Term,
    ) -> Result<Option<Vec<Goal>>, Fault> {
        let _ = (cx.alloc, env, term);
        Ok(None)
    }

    ghost lawful = { λ ts s f r. IsLawfulHandler-equating };

    ghost offered = { λ ts s f r. RulesAreOffered-equating };

    ghost handler_kept = { λ a b s r e. MeansSame-equating };

    ghost ready_kept = { λ a b s h e. tt };
}
