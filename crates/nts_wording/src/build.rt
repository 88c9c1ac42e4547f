//! Terms of the predicates that a line says.
ghost use Rattle.std.specs.Prelude.{◌≡◌, All, IsTrue, IfOk, IfSome, OnOk, Some, List, reverse, slice_get};
ghost use Rattle.nts_model.specs.Terms.Trees.{Tree};
ghost use Rattle.nts_store.specs.Growth.{Extends, tree_at};
ghost use Rattle.nts_terms.specs.Kinds.{tree_of_ty, ClauseFits};
ghost use Rattle.nts_terms.specs.Signatures.{StatementIsDeclared};
ghost use Rattle.nts_terms.specs.declared.kinds.TyKind.TheVariants as ty;
ghost use Rattle.nts_wording.specs.Fitting.{IsDeclaredPredicate};
ghost use Rattle.nts_wording.specs.Meaning.{tree_at_place, BindsFirst, TakesArguments, TakesLast, MakesArgument, MakesStatement, AreSaid, States, AreClausePositions};
ghost use Rattle.nts_terms.specs.Handles.{HoldsArg, HoldsArgs, HoldsPredicate, HoldsResult};
ghost use Rattle.nts_terms.specs.declared.handles.AliasDefId.TheVariants as alias_def;
ghost use Rattle.nts_terms.specs.Rest.{Grows};

use crate::status::Stop;
use crate::variables::LineVariables;
use nts_model::{BoundVarIndexKind, Sort};
use nts_terms::{
    AliasDefId, AliasId, AliasTerm, Binder, BoundRegion, BoundTy, ClauseKind, Const, CtorId, Cx,
    DefId, GenericArg, GenericArgKind, GenericArgs, Predicate, PredicateKind, Region, RegionKind,
    Term, TraitId, TraitRef, Ty, TyKind,
};
use nts_text::{Refusal, Resolved};
use std::alloc::{AllocError, Global};

/// The terms that the variables of a line stand for, each at the variable's place.
#[derive(Clone, Copy)]
pub struct Terms<'a> {
    /// The variables of the line.
    pub variables: &'a LineVariables,
    /// What they stand for.
    pub values: &'a [GenericArg],
}

impl Terms<'_> {
    fn of_type(self, number: usize) -> Option<GenericArg>
        ensures value { IfSome result (λ a. (ts : List Tree) →
            tree_at ts a.node ≡ tree_at_place ts self.entry.values.now
            (slice_get self.entry.variables.now.types.items number)) }
    {
        self.at(*self.variables.types.get(number)?)
    }

    fn of_region(self, number: usize) -> Option<GenericArg>
        ensures value { IfSome result (λ a. (ts : List Tree) →
            tree_at ts a.node ≡ tree_at_place ts self.entry.values.now
            (slice_get self.entry.variables.now.regions.items number)) }
    {
        self.at(*self.variables.regions.get(number)?)
    }

    fn at(self, place: usize) -> Option<GenericArg>
        ensures value { IfSome result (λ a. slice_get self.entry.values.now place ≡ Some a) }
    {
        Some(*self.values.get(place)?)
    }
}

/// What a predicate states, under a binder: a trait with its arguments, what outlives a region, or what an
/// alias normalizes to.
#[derive(Drop)]
pub struct BoundClause {
    /// The sorts of the variables that the binder binds, the last one first.
    pub binds: Vec<Sort>,
    pub clause: ClauseKind,
}

/// What is answered where terms don't fit, though the names of the line do.
pub const MISFIT: Stop = Stop::Refused(Refusal::WrongArguments);

/// The number of a parameter, if there are so many.
fn parameter(number: usize) -> Result<u32, Stop>
    ensures { IfOk result (λ n. n ≡ number) }
{
    u32::try_from(number).map_err(|_| Stop::Memory)
}

/// What the predicates of these nodes state, with their binders, in order.
#[tactic(auto, using(crate::proofs::Stores::growing))]
pub fn bound_clauses(
    cx: &mut Cx,
    nodes: &[Resolved],
    terms: Terms<'_>,
) -> Result<Vec<BoundClause>, Stop>
    ensures said { IfOk result (λ rs. AreSaid cx.new.nodes terms.entry.variables.now
        terms.entry.values.now nodes.now rs.items) }
    ensures grows { Grows cx.old cx.new }
{
    let alloc = cx.alloc;
    let mut made = Vec::new(alloc);
    let mut found = Vec::new(alloc);
    // From the last node to the first, so that arguments are made before what takes them.
    let mut at = nodes.len();
    while at > 0 {
        at -= 1;
        let node = nodes[at];
        match node {
            Resolved::Binds(sort) => bind_first(&mut found, sort)?,
            Resolved::Trait { .. }
            | Resolved::TypeOutlives
            | Resolved::RegionOutlives
            | Resolved::Normalizes { .. } => {
                let clause = statement(cx, &mut made, node)?;
                found.push(BoundClause {
                    binds: Vec::new(alloc),
                    clause,
                })?;
            }
            _ => {
                let argument = argument(cx, &mut made, terms, node)?;
                made.push(argument)?;
            }
        }
    }
    found.reverse();
    Ok(found)
}

/// What a predicate states, whose arguments were made last.
#[tactic(auto, using(crate::proofs::Stores::growing))]
fn statement(cx: &mut Cx, made: &mut Vec<GenericArg>, node: Resolved) -> Result<ClauseKind, Stop>
    ensures makes { IfOk result (MakesStatement cx.new.nodes node made.old made.new) }
    ensures grows { Grows cx.old cx.new }
{
    match node {
        Resolved::Trait { number, arguments } => {
            let args = take_args(cx, made, arguments)?;
            let def_id = TraitId { number };
            Ok(ClauseKind::Trait(TraitRef { def_id, args }))
        }
        Resolved::TypeOutlives => {
            let ty = take_type(cx, made)?;
            let region = take_region(cx, made)?;
            Ok(ClauseKind::TypeOutlives(ty, region))
        }
        Resolved::RegionOutlives => {
            let longer = take_region(cx, made)?;
            let shorter = take_region(cx, made)?;
            Ok(ClauseKind::RegionOutlives(longer, shorter))
        }
        Resolved::Normalizes { number, arguments } => {
            let args = take_args(cx, made, arguments)?;
            let value = take_type(cx, made)?;
            let def_id = AliasDefId::Ty(AliasId { number });
            Ok(ClauseKind::Projection {
                alias: AliasTerm { def_id, args },
                term: value.into(),
            })
        }
        _ => Err(MISFIT),
    }
}

/// The argument that was made last, which is a type.
fn take_type(cx: &Cx, made: &mut Vec<GenericArg>) -> Result<Ty, Stop>
    ensures { IfOk result (λ t. TakesLast made.old made.new t.node) }
{
    let last = made.pop().ok_or(MISFIT)?;
    if !cx.holds(last) {
        return Err(MISFIT);
    }
    match last.kind(cx) {
        GenericArgKind::Type(ty) => Ok(ty),
        _ => Err(MISFIT),
    }
}

/// The argument that was made last, which is a region.
fn take_region(cx: &Cx, made: &mut Vec<GenericArg>) -> Result<Region, Stop>
    ensures { IfOk result (λ r. TakesLast made.old made.new r.node) }
{
    let last = made.pop().ok_or(MISFIT)?;
    if !cx.holds(last) {
        return Err(MISFIT);
    }
    match last.kind(cx) {
        GenericArgKind::Lifetime(region) => Ok(region),
        _ => Err(MISFIT),
    }
}

/// Binds a variable more by the binder of the last predicate, before the others that it binds.
fn bind_first(found: &mut Vec<BoundClause>, sort: Sort) -> Result<(), Stop>
    ensures { OnOk result (BindsFirst sort found.old.items found.new.items) }
{
    let Some(mut last) = found.pop() else {
        return Err(MISFIT);
    };
    last.binds.push(sort)?;
    found.push(last)?;
    Ok(())
}

/// The argument of a node, whose own arguments were made last.
#[tactic(auto, using(crate::proofs::Stores::growing))]
fn argument(
    cx: &mut Cx,
    made: &mut Vec<GenericArg>,
    terms: Terms<'_>,
    node: Resolved,
) -> Result<GenericArg, Stop>
    ensures makes { IfOk result (MakesArgument cx.new.nodes terms.entry.variables.now
        terms.entry.values.now node made.old made.new) }
    ensures grows { Grows cx.old cx.new }
{
    match node {
        Resolved::Binds(_)
        | Resolved::Trait { .. }
        | Resolved::TypeOutlives
        | Resolved::RegionOutlives
        | Resolved::Normalizes { .. } => Err(MISFIT),
        Resolved::BoundType(var) => {
            let kind = TyKind::Bound(BoundVarIndexKind::Bound(0), BoundTy { var });
            Ok(cx.mk_ty(kind)?.into())
        }
        Resolved::BoundRegion(var) => {
            let kind = RegionKind::ReBound(BoundVarIndexKind::Bound(0), BoundRegion { var });
            Ok(cx.mk_region(kind)?.into())
        }
        Resolved::Ctor { number, arguments } => {
            let args = take_args(cx, made, arguments)?;
            constructed(cx, CtorId { number }, args)
        }
        Resolved::Alias { number, arguments } => {
            let args = take_args(cx, made, arguments)?;
            aliased(cx, AliasId { number }, args)
        }
        Resolved::TypeVariable(number) => terms.of_type(number).ok_or(MISFIT),
        Resolved::RegionVariable(number) => terms.of_region(number).ok_or(MISFIT),
        Resolved::Int(int) => Ok(cx.mk_ty(TyKind::Int(int))?.into()),
        Resolved::Uint(uint) => Ok(cx.mk_ty(TyKind::Uint(uint))?.into()),
        Resolved::TypeParam(number) => { Ok(cx.mk_ty(TyKind::Param(parameter(number)?))?.into()) }
        Resolved::RegionParam(number) => {
            Ok(
                cx.mk_region(RegionKind::ReEarlyParam(parameter(number)?))?
                    .into(),
            )
        }
        Resolved::Static => Ok(cx.mk_region(RegionKind::ReStatic)?.into()),
    }
}

/// Whether all of these are arguments of this store.
fn are_held(cx: &Cx, args: &[GenericArg]) -> bool
    ensures { IsTrue result → All (λ a. HoldsArg cx.now.nodes a) args.now }
{
    args.iter().all(|arg| cx.holds(*arg))
}

/// The list of so many of the arguments that were made last, the last one first.
#[tactic(auto, using(crate::proofs::Stores::growing))]
fn take_args(cx: &mut Cx, made: &mut Vec<GenericArg>, count: usize) -> Result<GenericArgs, Stop>
    ensures takes { IfOk result (TakesArguments cx.new.nodes made.old made.new count) }
    ensures holds { IfOk result (λ a. HoldsArgs cx.new.nodes a) }
    ensures grows { Grows cx.old cx.new }
{
    if count == 1 {
        return take_one(cx, made);
    }
    let mut args = Vec::new(cx.alloc);
    'taking: while args.len() < count {
        args.push(made.pop().ok_or(MISFIT)?)?;
    }
    if !are_held(cx, &args) {
        return Err(MISFIT);
    }
    Ok(cx.mk_args(&args)?)
}

/// The list of the argument that was made last alone, as most lists are. No other one is made for it.
#[tactic(auto, using(crate::proofs::Stores::growing))]
fn take_one(cx: &mut Cx, made: &mut Vec<GenericArg>) -> Result<GenericArgs, Stop>
    ensures takes { IfOk result (TakesArguments cx.new.nodes made.old made.new 1) }
    ensures holds { IfOk result (λ a. HoldsArgs cx.new.nodes a) }
    ensures grows { Grows cx.old cx.new }
{
    let arg = made.pop().ok_or(MISFIT)?;
    let args = [arg];
    if !are_held(cx, &args) {
        return Err(MISFIT);
    }
    Ok(cx.mk_args(&args)?)
}

/// A declared type with its arguments.
#[tactic(auto, using(crate::proofs::Stores::growing))]
fn constructed(cx: &mut Cx, ctor: CtorId, args: GenericArgs) -> Result<GenericArg, Stop>
    requires { HoldsArgs cx.old.nodes args }
    ensures tree { IfOk result (λ a. tree_at cx.new.nodes a.node ≡ tree_of_ty cx.old.nodes
        (ty.Ctor ctor args)) }
    ensures holds { IfOk result (HoldsArg cx.new.nodes) }
    ensures grows { Grows cx.old cx.new }
{
    if !cx.fits(DefId::Ctor(ctor), args) {
        return Err(MISFIT);
    }
    Ok(cx.mk_ty(TyKind::Ctor(ctor, args))?.into())
}

/// An alias of types with its arguments.
#[tactic(auto, using(crate::proofs::Stores::growing))]
fn aliased(cx: &mut Cx, alias: AliasId, args: GenericArgs) -> Result<GenericArg, Stop>
    requires { HoldsArgs cx.old.nodes args }
    ensures tree { IfOk result (λ a. tree_at cx.new.nodes a.node ≡ tree_of_ty cx.old.nodes
        (ty.Alias (record { def_id = alias_def.Ty alias; args = args }))) }
    ensures holds { IfOk result (HoldsArg cx.new.nodes) }
    ensures grows { Grows cx.old cx.new }
{
    let def_id = AliasDefId::Ty(alias);
    if !cx.fits(DefId::Alias(def_id), args) {
        return Err(MISFIT);
    }
    Ok(cx.mk_ty(TyKind::Alias(AliasTerm { def_id, args }))?.into())
}

/// The sorts of a binder, the first one first.
fn in_order(alloc: Global, binds: &[Sort]) -> Result<Vec<Sort>, AllocError>
    ensures { IfOk result (λ v. v.items ≡ reverse binds.now) }
{
    binds.iter().rev().copied().collect(alloc)
}

/// Whether a statement is of this store, and a trait's arguments are of the sorts that were declared.
pub fn clause_fits(cx: &Cx, clause: ClauseKind) -> bool
    ensures parts { IsTrue result → ClauseFits cx.now.nodes clause }
    ensures declared { IsTrue result → StatementIsDeclared cx.now.declarations cx.now.nodes
        (PredicateKind.Clause clause) }
{
    match clause {
        ClauseKind::Trait(trait_ref) => {
            cx.holds(trait_ref.args) && cx.fits(DefId::Trait(trait_ref.def_id), trait_ref.args)
        }
        ClauseKind::TypeOutlives(ty, region) => cx.holds(ty) && cx.holds(region),
        ClauseKind::RegionOutlives(longer, shorter) => cx.holds(longer) && cx.holds(shorter),
        ClauseKind::Projection { alias, term } => {
            cx.holds(alias.args)
                && cx.fits(DefId::Alias(alias.def_id), alias.args)
                && may_be(cx, alias, term)
        }
        // No text says anything else.
        _ => false,
    }
}

/// Whether a term is of this store and of the sort of the alias.
fn may_be(cx: &Cx, alias: AliasTerm, term: Term) -> bool
    ensures { IsTrue result → HoldsResult cx.now.nodes alias term }
{
    let node = term.node;
    match alias.def_id {
        AliasDefId::Ty(_) => cx.holds(Ty { node }),
        AliasDefId::Const(_) => cx.holds(Const { node }),
    }
}

/// The predicate that states this, under its binder.
#[tactic(auto, using(crate::proofs::Stores::growing))]
pub fn predicate_of(cx: &mut Cx, bound: &BoundClause) -> Result<Predicate, Stop>
    ensures states { IfOk result (States cx.new.nodes bound.now) }
    ensures holds { IfOk result (λ p. HoldsPredicate cx.new.nodes p) }
    ensures declared { IfOk result (λ p. IsDeclaredPredicate cx.new.declarations
        (tree_at cx.new.nodes p.node)) }
    ensures grows { Grows cx.old cx.new }
{
    let sorts = in_order(cx.alloc, &bound.binds)?;
    let vars = cx.mk_bound_vars(&sorts)?;
    if !clause_fits(cx, bound.clause) {
        return Err(MISFIT);
    }
    let value = PredicateKind::Clause(bound.clause);
    Ok(cx.mk_predicate(Binder { vars, value })?)
}

/// The variables of a clause: the places of a canonical value, of these sorts.
#[tactic(auto, using(crate::proofs::Stores::growing))]
pub fn positions(cx: &mut Cx, sorts: &[Sort]) -> Result<Vec<GenericArg>, Stop>
    ensures positions { IfOk result (λ vs. (ts : List Tree) → Extends cx.new.nodes ts →
        AreClausePositions ts sorts.now vs.items) }
    ensures grows { Grows cx.old cx.new }
{
    let mut values = Vec::new(cx.alloc);
    for (var, sort) in sorts.iter().enumerate() {
        let value = match sort {
            Sort::Ty => cx
                .mk_ty(TyKind::Bound(BoundVarIndexKind::Canonical, BoundTy { var }))?
                .into(),
            Sort::Region => {
                let kind = RegionKind::ReBound(BoundVarIndexKind::Canonical, BoundRegion { var });
                cx.mk_region(kind)?.into()
            }
            Sort::Const => return Err(MISFIT),
        };
        values.push(value)?;
    }
    Ok(values)
}
