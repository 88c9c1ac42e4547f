//! The clauses of an environment as a handler.
ghost use Rattle.std.specs.Prelude.{◌≡◌, ◌++◌, true, IfOk, OnOk, IsOkUnless};
ghost use Rattle.nts_model.specs.Terms.Trees.{children, row_length, IsRow};
ghost use Rattle.nts_store.specs.Growth.{tree_at, IsIn};
ghost use Rattle.nts_terms.specs.Handles.{HoldsArgs, HoldsPredicate, HoldsVars};
ghost use Rattle.nts_terms.specs.Rest.{Grows};
ghost use Rattle.nts_assembly.specs.Assumptions.{positioned, sorts_in, fits_trait};
ghost use Rattle.nts_assembly.specs.EnvironmentRows.{one_or_none, IsOfferOfRow};

use nts_candidates::CandidateData;
use nts_candidates::nts_certainty::{Certainty, RerunCondition};
use nts_delegate::{GoalHandler, pairs_of, trait_of_statement};
use nts_model::{BoundVarIndexKind, Label, Sort};
use nts_store::{Fault, NodeId, Nodes, is_closed_under};
use nts_table::nts_replacing::{Place, ReplacerUnder, replace_under};
use nts_terms::{
    AliasTerm, BoundVars, Const, Cx, GenericArgs, Goal, ParamEnv, Predicate, Term, TraitId,
    TraitRef, TypingMode,
};
use std::alloc::{AllocError, Global};

/// Offers, for a goal of a trait, a candidate for each clause of that trait in the goal's environment, in order: fresh
/// variables for what the clause binds, the clause's arguments, and no goals. It has no other rules.
#[derive(Clone, Copy)]
pub struct Assumptions;

/// Puts positions in place of what the binder around a term binds.
#[derive(Drop)]
struct Placer;

impl ReplacerUnder for Placer {
    ghost use Rattle.std.specs.Prelude.{refl};
    ghost use Rattle.nts_assembly.specs.Assumptions.{positioned};
    ghost use Rattle.nts_assembly.specs.PositionedTerms.{kind_positioned};

    ghost Meaning = { Unit {0} };

    ghost meaning = { λ s. tt };

    ghost covers = { λ m d t. Unit {0} };

    ghost image = { λ m d t. positioned d t };

    ghost image_empty = { λ m d. refl };

    ghost image_more = { λ m d a b. refl };

    ghost covers_more = { λ m d a b h. (tt, tt) };

    ghost kind_kept = { λ m d t h. kind_positioned d t };

    fn step(&self, nodes: &mut Nodes, place: Place) -> Result<Option<NodeId>, AllocError> {
        match nodes.label(place.node) {
            Label::Bound(sort, BoundVarIndexKind::Bound(d), var) if d == place.depth => {
                let label = Label::Bound(sort, BoundVarIndexKind::Canonical, var);
                Ok(Some(nodes.make(label, &[])?))
            }
            _ if is_closed_under(nodes, place.depth, place.node) => Ok(Some(place.node)),
            _ => Ok(None),
        }
    }
}

/// The term with positions in place of what the binder around it binds.
pub(crate) fn position(cx: &mut Cx, node: NodeId) -> Result<NodeId, Fault>
    requires { IsIn cx.old.nodes node }
    ensures tree { IfOk result (λ n. tree_at cx.new.nodes n ≡ positioned 0
        (tree_at cx.old.nodes node)) }
    ensures within { IfOk result (λ n. IsIn cx.new.nodes n) }
    ensures grows { Grows cx.old cx.new }
    ensures memory { IsOkUnless result Fault.Memory }
{
    Ok(replace_under(cx.alloc, &mut cx.nodes, &Placer, node)?)
}

/// The arguments with positions in place of what the binder around them binds.
pub(crate) fn position_args(cx: &mut Cx, args: GenericArgs) -> Result<GenericArgs, Fault>
    requires { HoldsArgs cx.old.nodes args }
    ensures tree { IfOk result (λ r. tree_at cx.new.nodes r.node ≡ positioned 0
        (tree_at cx.old.nodes args.node)) }
    ensures holds { IfOk result (λ r. HoldsArgs cx.new.nodes r) }
    ensures grows { Grows cx.old cx.new }
    ensures memory { IsOkUnless result Fault.Memory }
{
    let node = position(cx, args.node)?;
    Ok(GenericArgs { node })
}

/// The sorts that a binder lists.
pub(crate) fn sorts_of(alloc: Global, cx: &Cx, vars: BoundVars) -> Result<Vec<Sort>, AllocError>
    requires { HoldsVars cx.now.nodes vars }
    ensures { IfOk result (λ ss. ss.items ≡ sorts_in (children (tree_at cx.now.nodes vars.node))) }
{
    let mut sorts = Vec::new(alloc);
    for i in 0..vars.len(cx) {
        sorts.push(vars.get(cx, i))?;
    }
    Ok(sorts)
}

/// Whether a goal of a trait is one that a clause of a trait is about.
fn takes(cx: &Cx, asked: TraitRef, of: TraitRef) -> bool
    requires asked { HoldsArgs cx.now.nodes asked.args }
    requires args { HoldsArgs cx.now.nodes of.args }
    ensures is { result ≡ fits_trait asked.def_id.number
        (children (tree_at cx.now.nodes asked.args.node))
        (of.def_id.number, tree_at cx.now.nodes of.args.node) }
    ensures row { result ≡ true → IsRow (children (tree_at cx.now.nodes of.args.node)) }
    ensures long { result ≡ true → row_length (children (tree_at cx.now.nodes asked.args.node)) ≡
        row_length (children (tree_at cx.now.nodes of.args.node)) }
{
    of.def_id.number == asked.def_id.number && asked.args.len(cx) == of.args.len(cx)
}

/// What a predicate of the environment offers for a goal of a trait with these arguments, if it is a clause of that trait
/// that takes as many.
fn offer_of_row(
    cx: &mut Cx,
    row: Predicate,
    asked: TraitRef,
) -> Result<Option<CandidateData>, Fault>
    requires row { HoldsPredicate cx.old.nodes row }
    requires args { HoldsArgs cx.old.nodes asked.args }
    ensures offer { IfOk result (λ o. IsOfferOfRow cx.new.nodes asked.def_id.number
        (children (tree_at cx.old.nodes asked.args.node)) (tree_at cx.old.nodes row.node) o) }
    ensures grows { Grows cx.old cx.new }
    ensures memory { IsOkUnless result Fault.Memory }
{
    let said = row.kind(cx);
    let Some(of) = trait_of_statement(said.value) else {
        return Ok(None);
    };
    if !takes(cx, asked, of) {
        return Ok(None);
    }
    let fresh = sorts_of(cx.alloc, cx, said.vars)?;
    let head = position_args(cx, of.args)?;
    let equations = pairs_of(cx.alloc, cx, asked.args, head)?;
    Ok(Some(CandidateData {
        fresh,
        equations,
        region_constraints: Vec::new(cx.alloc),
        hidden_types: Vec::new(cx.alloc),
        goals: Vec::new(cx.alloc),
        certainty: Certainty::Yes,
        accesses: RerunCondition::Never,
    }))
}

/// One more candidate, if there is one.
pub(crate) fn add_offer(
    found: &mut Vec<CandidateData>,
    offer: Option<CandidateData>,
) -> Result<(), AllocError>
    ensures { OnOk result (found.new.items ≡ found.old.items ++ one_or_none offer) }
{
    if let Some(offer) = offer {
        found.push(offer)?;
    }
    Ok(())
}

impl GoalHandler for Assumptions {
    ghost use Rattle.nts_assembly.specs.Assumptions.{assuming};
    ghost use Rattle.nts_assembly.specs.Assumed.{IsLawfulHandler-assuming};
    ghost use Rattle.nts_assembly.specs.AssumedOffers.{RulesAreOffered-assuming, MeansSame-assuming};

    ghost ready = { λ ts s. Unit {0} };

    ghost handler = { λ ts s. assuming };

    fn candidates(
        &self,
        cx: &mut Cx,
        mode: &TypingMode,
        goal: Goal,
    ) -> Result<Vec<CandidateData>, Fault> {
        let _ = mode;
        let mut found = Vec::new(cx.alloc);
        let Some(asked) = trait_of_statement(goal.predicate.kind(cx).value) else {
            return Ok(found);
        };
        for i in 0..goal.param_env.len(cx) {
            let row = goal.param_env.get(cx, i);
            let offer = offer_of_row(cx, row, asked)?;
            add_offer(&mut found, offer)?;
        }
        Ok(found)
    }

    fn trait_is_coinductive(&self, id: TraitId) -> bool {
        let _ = id;
        false
    }

    fn trait_is_dyn_compatible(&self, id: TraitId) -> bool {
        let _ = id;
        false
    }

    fn may_use_unstable_feature(&self, env: ParamEnv, symbol: u32) -> bool {
        let _ = (env, symbol);
        false
    }

    fn evaluate_const(
        &self,
        cx: &mut Cx,
        env: ParamEnv,
        uv: AliasTerm,
    ) -> Result<Option<Const>, Fault> {
        let _ = (cx.alloc, env, uv);
        Ok(None)
    }

    fn well_formed_goals(
        &self,
        cx: &mut Cx,
        env: ParamEnv,
        term: Term,
    ) -> Result<Option<Vec<Goal>>, Fault> {
        let _ = (cx.alloc, env, term);
        Ok(None)
    }

    ghost lawful = { λ ts s f r. IsLawfulHandler-assuming };

    ghost offered = { λ ts s f r. RulesAreOffered-assuming };

    ghost handler_kept = { λ a b s r e. MeansSame-assuming };

    ghost ready_kept = { λ a b s h e. tt };
}
