//! Tests as lists of steps: what there is, which rules hold, and what is asked of them.
ghost use Rattle.std.specs.Prelude.{IfOk};
ghost use Rattle.nts_delegate.specs.Clauses.{AreClausesReady};
ghost use Rattle.nts_table.specs.Tables.{IsTable};
ghost use Rattle.nts_terms.specs.Handles.{HoldsPredicate};
ghost use Rattle.nts_terms.specs.Rest.{Grows};

use crate::aliases::{Aliased, Norm, alias_statement, normalize_all};
use crate::asking::{Asked, ask_all};
use nts_asking::GoalStalledOn;
use nts_assembly::Assembly;
use nts_certainty::Certainty;
use nts_delegate::{Clause, Clauses};
use nts_fixtures::{Fixture, Make, Name, Names};
use nts_leak_check::LeakChecked;
use nts_marker::{AtOnce, Circular, Judge, Marker};
use nts_model::Sort;
use nts_store::EvalError;
use nts_table::InferCtxt;
use nts_terms::{
    AliasDefId, AliasId, Binder, ClauseKind, ConstId, Cx, DefId, GenericArgKind, Predicate,
    PredicateKind, TraitId, TraitRef, Ty, TypingMode,
};
use std::alloc::Global;
use std::process::Abort;

/// What there is before rules are told.
pub enum Given {
    /// A term of this name.
    Let(Name, Make),
    /// A trait over parameters of these sorts. The first one has the number 0.
    Trait(&'static [Sort]),
    /// A const of that type, which takes no arguments.
    Const(Name),
    /// One more universe.
    Universe,
    /// Goals are asked without short cuts.
    NoFastPaths,
    /// Goals may be nested so deep.
    Depth(usize),
}

/// The trait of this number, and the names of its arguments.
#[derive(Clone, Copy)]
pub struct Of(pub usize, pub &'static [Name]);

/// What is to hold where a rule does.
#[derive(Clone, Copy)]
pub enum Condition {
    /// A trait holds.
    Holds(Of),
    /// The alias of the number 0 of the first type is the second one.
    AliasIs(Name, Name),
}

/// That a trait holds, for all that positions of these sorts stand for, if that does.
pub struct Rule(pub &'static [Sort], pub Of, pub Option<Condition>);

/// By which handler goals are asked.
pub enum By {
    /// A list of clauses.
    Clauses,
    /// The same, and the environment.
    Assembly,
    /// A list of clauses, and what the alias of the number 0 normalizes to.
    Aliases(&'static [Norm]),
    /// A list of clauses, and the alias of the number 0 is rigid.
    Rigid,
    /// A list of clauses, with a leak check.
    LeakChecked,
    /// The trait of the number 0 is so sure.
    Marker(Certainty),
    /// The trait of the number 0 holds where it holds.
    Circular,
    /// A list of clauses, and the trait of the number 0 holds of everything, and is answered at once.
    AtOnce,
    /// Objects can be made of the trait of the number 0, the feature 7 is allowed, the const of the number 0 is an error, and a
    /// wrapped type is well formed where the feature of this number is allowed.
    Judge(u32),
}

/// A part of a test: a handler, its rules, and what is asked.
pub struct Part(pub By, pub &'static [Rule], pub &'static [Asked]);

/// Plays the parts one after the other, in a new table.
pub fn plays(rt: &impl Abort, alloc: Global, mode: TypingMode, given: &[Given], parts: &[Part]) {
    let mut fixture = Fixture::new(alloc).expect(rt, "memory");
    fixture.table = InferCtxt::new(alloc, mode);
    let mut names = Names::new(alloc);
    give_all(rt, &mut fixture, &mut names, given);
    play_all(rt, &mut fixture, &names, parts);
}

fn give_all(rt: &impl Abort, fixture: &mut Fixture, names: &mut Names, given: &[Given])
    requires { IsTable fixture.old.cx.nodes fixture.old.table }
    ensures { IsTable fixture.new.cx.nodes fixture.new.table }
{
    for n in 0..given.len() {
        let set = give(fixture, names, &given[n]);
        assert!(rt; set.is_ok(), "what is given, {n}");
    }
}

fn play_all(rt: &impl Abort, fixture: &mut Fixture, names: &Names, parts: &[Part])
    requires { IsTable fixture.old.cx.nodes fixture.old.table }
{
    let mut kept = None;
    for n in 0..parts.len() {
        play(rt, fixture, names, &mut kept, &parts[n]);
    }
}

fn give(fixture: &mut Fixture, names: &mut Names, given: &Given) -> Result<(), EvalError>
    requires { IsTable fixture.old.cx.nodes fixture.old.table }
    ensures { IsTable fixture.new.cx.nodes fixture.new.table }
{
    match given {
        Given::Let(name, make) => fixture.name(names, *name, *make)?,
        Given::Trait(sorts) => {
            fixture.cx.declare_trait(sorts)?;
        }
        Given::Const(name) => {
            let ty = Ty {
                node: names.term(name)?.node,
            };
            let cx = &mut fixture.cx;
            if !cx.holds(ty) || !cx.is_const_type(&[], ty)? {
                return Err(EvalError::NoSolution);
            }
            cx.declare_const(&[], ty)?;
        }
        Given::Universe => {
            fixture.universe()?;
        }
        Given::NoFastPaths => fixture.cx.set_disable_fast_paths(true),
        Given::Depth(limit) => fixture.cx.set_recursion_limit(*limit),
    }
    Ok(())
}

#[tactic(auto, using(nts_asking::proofs::Asking::asking))]
fn play(
    rt: &impl Abort,
    fixture: &mut Fixture,
    names: &Names,
    kept: &mut Option<GoalStalledOn>,
    part: &Part,
)
    requires { IsTable fixture.old.cx.nodes fixture.old.table }
    ensures { IsTable fixture.new.cx.nodes fixture.new.table }
{
    let Part(by, rules, asked) = part;
    let formed = fixture.one;
    let (cx, table) = (&mut fixture.cx, &mut fixture.table);
    let mut clauses = Clauses::new(cx.alloc);
    tell_all(rt, cx, names, &mut clauses, rules);
    let id = TraitId { number: 0 };
    match by {
        By::Clauses => ask_all(rt, table, cx, names, kept, &clauses, asked),
        By::Assembly => {
            let assembly = Assembly::new(clauses);
            ask_all(rt, table, cx, names, kept, &assembly, asked)
        }
        By::Aliases(norms) => {
            normalize_all(rt, cx, names, &mut clauses, norms);
            ask_all(rt, table, cx, names, kept, &clauses, asked)
        }
        By::Rigid => {
            let made = clauses.set_rigid(AliasDefId::Ty(AliasId { number: 0 }));
            assert!(rt; made.is_ok(), "memory");
            ask_all(rt, table, cx, names, kept, &clauses, asked)
        }
        By::LeakChecked => {
            let checked = LeakChecked { rules: clauses };
            ask_all(rt, table, cx, names, kept, &checked, asked)
        }
        By::Marker(certainty) => {
            let marker = Marker {
                id,
                certainty: *certainty,
            };
            ask_all(rt, table, cx, names, kept, &marker, asked)
        }
        By::Circular => ask_all(rt, table, cx, names, kept, &Circular { id }, asked),
        By::AtOnce => {
            let known = AtOnce { id, rules: clauses };
            ask_all(rt, table, cx, names, kept, &known, asked)
        }
        By::Judge(needs) => {
            let judge = Judge {
                objects: id,
                feature: 7,
                constant: ConstId { number: 0 },
                formed,
                needs: *needs,
            };
            ask_all(rt, table, cx, names, kept, &judge, asked)
        }
    }
}

#[tactic(auto, using(nts_asking::proofs::Asking::asking))]
fn tell_all(rt: &impl Abort, cx: &mut Cx, names: &Names, clauses: &mut Clauses, rules: &[Rule])
    requires { AreClausesReady cx.old.nodes clauses.old }
    ensures ready { AreClausesReady cx.new.nodes clauses.new }
    ensures grows { Grows cx.old cx.new }
{
    for n in 0..rules.len() {
        let told = tell(cx, names, clauses, &rules[n]);
        assert!(rt; told.is_ok(), "rule {n}");
    }
}

#[tactic(auto, using(nts_asking::proofs::Asking::asking))]
fn tell(cx: &mut Cx, names: &Names, clauses: &mut Clauses, rule: &Rule) -> Result<(), EvalError>
    requires { AreClausesReady cx.old.nodes clauses.old }
    ensures ready { AreClausesReady cx.new.nodes clauses.new }
    ensures grows { Grows cx.old cx.new }
{
    let Rule(fresh, Of(id, head), condition) = rule;
    let head = names.terms(head)?;
    if !head.iter().all(|arg| cx.holds(*arg)) {
        return Err(EvalError::NoSolution);
    }
    let mut body = Vec::new(cx.alloc);
    if let Some(condition) = condition {
        body.push(condition_of(cx, names, *condition)?)?;
    }
    let clause = Clause {
        fresh: fresh.to_vec(cx.alloc)?,
        trait_id: TraitId { number: *id },
        head: cx.mk_args(&head)?,
        body,
    };
    if !Clauses::clause_fits(cx, &clause)? {
        return Err(EvalError::NoSolution);
    }
    Ok(clauses.add_clause(cx, clause)?)
}

/// That a condition holds.
pub fn condition_of(
    cx: &mut Cx,
    names: &Names,
    condition: Condition,
) -> Result<Predicate, EvalError>
    ensures holds { IfOk result (HoldsPredicate cx.new.nodes) }
    ensures grows { Grows cx.old cx.new }
{
    match condition {
        Condition::Holds(of) => predicate_of(cx, names, &[], of),
        Condition::AliasIs(of, term) => alias_statement(cx, names, Aliased::Projects(of, term)),
    }
}

/// That a trait holds, under a binder of variables of these sorts.
pub fn predicate_of(
    cx: &mut Cx,
    names: &Names,
    bound: &[Sort],
    of: Of,
) -> Result<Predicate, EvalError>
    ensures holds { IfOk result (HoldsPredicate cx.new.nodes) }
    ensures grows { Grows cx.old cx.new }
{
    let Of(number, args) = of;
    let args = names.terms(args)?;
    if !args.iter().all(|arg| cx.holds(*arg)) {
        return Err(EvalError::NoSolution);
    }
    let def_id = TraitId { number };
    let args = cx.mk_args(&args)?;
    let vars = cx.mk_bound_vars(bound)?;
    if !cx.holds(args) || !cx.fits(DefId::Trait(def_id), args) {
        return Err(EvalError::NoSolution);
    }
    let value = PredicateKind::Clause(ClauseKind::Trait(TraitRef { def_id, args }));
    Ok(cx.mk_predicate(Binder { vars, value })?)
}

/// That the first term outlives the second one, which is a region.
pub fn outlives_of(
    cx: &mut Cx,
    names: &Names,
    left: &str,
    right: &str,
) -> Result<Predicate, EvalError>
    ensures holds { IfOk result (HoldsPredicate cx.new.nodes) }
    ensures grows { Grows cx.old cx.new }
{
    let (left, right) = (names.term(left)?, names.term(right)?);
    if !cx.holds(left) || !cx.holds(right) {
        return Err(EvalError::NoSolution);
    }
    let outlives = match (left.kind(cx), right.kind(cx)) {
        (GenericArgKind::Type(ty), GenericArgKind::Lifetime(region)) => {
            ClauseKind::TypeOutlives(ty, region)
        }
        (GenericArgKind::Lifetime(a), GenericArgKind::Lifetime(b)) => {
            ClauseKind::RegionOutlives(a, b)
        }
        _ => return Err(EvalError::NoSolution),
    };
    let vars = cx.mk_bound_vars(&[])?;
    let value = PredicateKind::Clause(outlives);
    Ok(cx.mk_predicate(Binder { vars, value })?)
}

/// That the first type can be coerced to the second one, or is a subtype of it.
pub fn types_of(
    cx: &mut Cx,
    names: &Names,
    coerced: bool,
    a: &str,
    b: &str,
) -> Result<Predicate, EvalError>
    ensures holds { IfOk result (HoldsPredicate cx.new.nodes) }
    ensures grows { Grows cx.old cx.new }
{
    let (a, b) = (names.term(a)?, names.term(b)?);
    if !cx.holds(a) || !cx.holds(b) {
        return Err(EvalError::NoSolution);
    }
    let (GenericArgKind::Type(a), GenericArgKind::Type(b)) = (a.kind(cx), b.kind(cx)) else {
        return Err(EvalError::NoSolution);
    };
    let value = if coerced {
        PredicateKind::Coerce { a, b }
    } else {
        PredicateKind::Subtype {
            a_is_expected: false,
            a,
            b,
        }
    };
    let vars = cx.mk_bound_vars(&[])?;
    Ok(cx.mk_predicate(Binder { vars, value })?)
}
