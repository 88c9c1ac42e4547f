//! Goals about aliases, and clauses that normalize them.
ghost use Rattle.std.specs.Prelude.{IfOk, IsTrue};
ghost use Rattle.nts_delegate.specs.Clauses.{AreClausesReady};
ghost use Rattle.nts_store.specs.Growth.{tree_at};
ghost use Rattle.nts_terms.specs.declared.handles.DefId.TheVariants as defs;
ghost use Rattle.nts_terms.specs.Handles.{HoldsArgs, HoldsPredicate, HoldsResult};
ghost use Rattle.nts_terms.specs.Kinds.{StatementFits};
ghost use Rattle.nts_terms.specs.Rest.{Grows};
ghost use Rattle.nts_terms.specs.Signatures.{AreDeclared, StatementIsDeclared};

use crate::steps::{Condition, condition_of};
use nts_delegate::{Clauses, NormClause};
use nts_fixtures::{Name, Names};
use nts_model::{AliasRelationDirection, Sort};
use nts_store::EvalError;
use nts_terms::{
    AliasDefId, AliasId, AliasTerm, Binder, ClauseKind, Const, Cx, DefId, Predicate, PredicateKind,
    Term, Ty,
};
use std::process::Abort;

/// What a goal says of the alias of the number 0.
#[derive(Clone, Copy)]
pub enum Aliased {
    /// Of the first type it normalizes to the second one.
    Normalizes(Name, Name),
    /// Of the first type it is the second one.
    Projects(Name, Name),
    /// The first term, which may be such an alias, is equal to the second one.
    Equal(Name, Name),
}

/// That the alias of the number 0 of the first type normalizes to the second one, for all that positions of these sorts stand for, if
/// that holds.
pub struct Norm(
    pub &'static [Sort],
    pub Name,
    pub Name,
    pub Option<Condition>,
);

/// Tells what the alias of the number 0 normalizes to.
#[tactic(auto, using(nts_asking::proofs::Asking::asking))]
pub fn normalize_all(
    rt: &impl Abort,
    cx: &mut Cx,
    names: &Names,
    clauses: &mut Clauses,
    norms: &[Norm],
)
    requires { AreClausesReady cx.old.nodes clauses.old }
    ensures ready { AreClausesReady cx.new.nodes clauses.new }
    ensures grows { Grows cx.old cx.new }
{
    for n in 0..norms.len() {
        let told = normalize(cx, names, clauses, &norms[n]);
        assert!(rt; told.is_ok(), "clause {n}");
    }
}

#[tactic(auto, using(nts_asking::proofs::Asking::asking))]
fn normalize(
    cx: &mut Cx,
    names: &Names,
    clauses: &mut Clauses,
    norm: &Norm,
) -> Result<(), EvalError>
    requires { AreClausesReady cx.old.nodes clauses.old }
    ensures ready { AreClausesReady cx.new.nodes clauses.new }
    ensures grows { Grows cx.old cx.new }
{
    let Norm(fresh, of, result, condition) = norm;
    let alias = alias_of(cx, names, *of)?;
    let result = term_of(names, *result)?;
    let mut body = Vec::new(cx.alloc);
    if let Some(condition) = condition {
        body.push(condition_of(cx, names, *condition)?)?;
    }
    let clause = NormClause {
        fresh: fresh.to_vec(cx.alloc)?,
        alias: alias.def_id,
        head: alias.args,
        result,
        body,
    };
    if !Clauses::norm_clause_fits(cx, &clause)? {
        return Err(EvalError::NoSolution);
    }
    if !clauses.add_norm_clause(clause)? {
        return Err(EvalError::NoSolution);
    }
    Ok(())
}

/// What a goal says as a predicate that binds nothing.
pub fn alias_statement(cx: &mut Cx, names: &Names, says: Aliased) -> Result<Predicate, EvalError>
    ensures holds { IfOk result (HoldsPredicate cx.new.nodes) }
    ensures grows { Grows cx.old cx.new }
{
    let value = statement_of(cx, names, says)?;
    let vars = cx.mk_bound_vars(&[])?;
    if !statement_fits(cx, value) {
        return Err(EvalError::NoSolution);
    }
    Ok(cx.mk_predicate(Binder { vars, value })?)
}

fn statement_of(cx: &mut Cx, names: &Names, says: Aliased) -> Result<PredicateKind, EvalError>
    ensures { Grows cx.old cx.new }
{
    let statement = match says {
        Aliased::Normalizes(of, term) => {
            let alias = alias_of(cx, names, of)?;
            let term = term_of(names, term)?;
            PredicateKind::NormalizesTo { alias, term }
        }
        Aliased::Projects(of, term) => {
            let alias = alias_of(cx, names, of)?;
            let term = term_of(names, term)?;
            PredicateKind::Clause(ClauseKind::Projection { alias, term })
        }
        Aliased::Equal(left, right) => {
            let (left, right) = (term_of(names, left)?, term_of(names, right)?);
            PredicateKind::AliasRelate(left, right, AliasRelationDirection::Equate)
        }
    };
    Ok(statement)
}

fn alias_of(cx: &mut Cx, names: &Names, of: Name) -> Result<AliasTerm, EvalError>
    ensures { Grows cx.old cx.new }
{
    let args = names.terms(&[of])?;
    if !args.iter().all(|arg| cx.holds(*arg)) {
        return Err(EvalError::NoSolution);
    }
    let def_id = AliasDefId::Ty(AliasId { number: 0 });
    let args = cx.mk_args(&args)?;
    Ok(AliasTerm { def_id, args })
}

fn term_of(names: &Names, name: Name) -> Result<Term, EvalError> {
    let arg = names.term(name)?;
    Ok(Term { node: arg.node })
}

/// Whether a statement about an alias is of this store, and the alias takes such arguments.
fn statement_fits(cx: &Cx, statement: PredicateKind) -> bool
    ensures parts { IsTrue result → StatementFits cx.now.nodes statement }
    ensures declared { IsTrue result → StatementIsDeclared cx.now.declarations cx.now.nodes
        statement }
{
    match statement {
        PredicateKind::NormalizesTo { alias, term } => alias_fits(cx, alias, term),
        PredicateKind::Clause(ClauseKind::Projection { alias, term }) => {
            alias_fits(cx, alias, term)
        }
        PredicateKind::AliasRelate(left, right, _) => cx.holds(left) && cx.holds(right),
        _ => false,
    }
}

fn alias_fits(cx: &Cx, alias: AliasTerm, term: Term) -> bool
    ensures args { IsTrue result → HoldsArgs cx.now.nodes alias.args }
    ensures result { IsTrue result → HoldsResult cx.now.nodes alias term }
    ensures declared { IsTrue result → AreDeclared cx.now.declarations (defs.Alias alias.def_id)
        (tree_at cx.now.nodes alias.args.node) }
{
    let AliasTerm { def_id, args } = alias;
    if !cx.holds(args) || !cx.fits(DefId::Alias(def_id), args) {
        return false;
    }
    let node = term.node;
    match def_id {
        AliasDefId::Ty(_) => cx.holds(Ty { node }),
        AliasDefId::Const(_) => cx.holds(Const { node }),
    }
}
