//! Calls that work on terms, each set up on its own.
ghost use Rattle.std.specs.Prelude.{All, OnOk};
ghost use Rattle.nts_store.specs.Filled.{HasValues};
ghost use Rattle.nts_terms.specs.Handles.{HoldsArg};
ghost use Rattle.nts_table.specs.Tables.{IsTable};
ghost use Rattle.nts_terms.specs.Rest.{Grows};
ghost use Rattle.nts_canonical.specs.Forms.{query_tree, trees_of, HoldsQuery};

use crate::content::{Content, content_of};
use nts_applying::instantiate_and_apply_query_response;
use nts_canonical::{Canonical, CanonicalVarKind, QueryInput, instantiate_canonical};
use nts_canonicalizer::canonicalize_goal;
use nts_certainty::Certainty;
use nts_fixtures::Fixture;
use nts_model::{Sort, UintTy, VariableKind, Variance};
use nts_placeholder::BoundVarReplacer;
use nts_response::{CanonicalResponse, ExternalConstraintsData, Response, response_fits};
use nts_solver_relating::RelateExt;
use nts_store::{EvalError, Fault};
use nts_terms::{
    AliasDefId, AliasId, AliasTerm, ClauseKind, Cx, DefId, GenericArg, Goal, PredicateKind, Span,
    TraitRef, Ty, TypingMode, UniverseIndex, VisibleForLeakCheck,
};

/// What a call answered, and what could be read of the table before it.
#[derive(Drop)]
pub struct Called {
    pub before: Content,
    pub answer: Result<(), EvalError>,
}

/// Relates two references of distinct regions, one over a variable: it gets a value, and a constraint is recorded.
pub fn relate(fixture: &mut Fixture) -> Result<Called, EvalError>
    requires { IsTable fixture.old.cx.nodes fixture.old.table }
    ensures { OnOk result (IsTable fixture.new.cx.nodes fixture.new.table) }
{
    let a = fixture.root_var(VariableKind::Region)?;
    let b = fixture.root_var(VariableKind::Region)?;
    let variable = fixture.ty_var()?;
    let word = fixture.uint(UintTy::U32)?;
    let inner = fixture.wrap(word)?;
    let x = fixture.reference(a, variable)?;
    let y = fixture.reference(b, inner)?;
    fixture.seen(x)?;
    fixture.seen(y)?;
    let before = content_of(fixture)?;
    let (cx, table) = (&mut fixture.cx, &mut fixture.table);
    let related = table.relate(cx, fixture.env, x, Variance::Covariant, y, Span(0));
    let answer = related.map(|_| ());
    Ok(Called { before, answer })
}

/// Makes two pairs one, with a variable in each.
pub fn equate(fixture: &mut Fixture) -> Result<Called, EvalError>
    requires { IsTable fixture.old.cx.nodes fixture.old.table }
    ensures { OnOk result (IsTable fixture.new.cx.nodes fixture.new.table) }
{
    let a = fixture.ty_var()?;
    let b = fixture.ty_var()?;
    let word = fixture.uint(UintTy::U32)?;
    let wrapped = fixture.wrap(b)?;
    let x = fixture.pair(a, word)?;
    let y = fixture.pair(wrapped, b)?;
    fixture.seen(x)?;
    fixture.seen(y)?;
    let before = content_of(fixture)?;
    let (cx, table) = (&mut fixture.cx, &mut fixture.table);
    let answer = table.eq_structurally_relating_aliases(cx, fixture.env, x, y, Span(0));
    Ok(Called { before, answer })
}

/// A goal about a type, by a trait of its own.
fn goal_about(fixture: &mut Fixture, x: GenericArg) -> Result<Goal, EvalError>
    requires { IsTable fixture.old.cx.nodes fixture.old.table }
    ensures { IsTable fixture.new.cx.nodes fixture.new.table }
{
    let def_id = fixture.cx.declare_trait(&[Sort::Ty])?;
    let args = fixture.args(&[x])?;
    if !fixture.cx.fits(DefId::Trait(def_id), args) {
        return Err(EvalError::NoSolution);
    }
    let value = PredicateKind::Clause(ClauseKind::Trait(TraitRef { def_id, args }));
    let predicate = fixture.statement(value)?;
    Ok(Goal {
        param_env: fixture.env,
        predicate,
    })
}

/// Makes the canonical input of a goal with two variables.
pub fn canonicalize(fixture: &mut Fixture) -> Result<Called, EvalError>
    requires { IsTable fixture.old.cx.nodes fixture.old.table }
    ensures { OnOk result (IsTable fixture.new.cx.nodes fixture.new.table) }
{
    let a = fixture.ty_var()?;
    let b = fixture.ty_var()?;
    let pair = fixture.pair(a, b)?;
    let goal = goal_about(fixture, pair)?;
    fixture.seen(goal.param_env)?;
    fixture.seen(goal.predicate)?;
    let before = content_of(fixture)?;
    let mode = TypingMode::PostAnalysis;
    let (cx, table) = (&mut fixture.cx, &fixture.table);
    let answer = match canonicalize_goal(table, cx, goal, &[], mode) {
        Ok(_) => Ok(()),
        Err(fault) => Err(fault.into()),
    };
    Ok(Called { before, answer })
}

/// Puts the originals of a goal into its canonical input.
pub fn instantiate(fixture: &mut Fixture) -> Result<Called, EvalError>
    requires { IsTable fixture.old.cx.nodes fixture.old.table }
    ensures { OnOk result (IsTable fixture.new.cx.nodes fixture.new.table) }
{
    let a = fixture.ty_var()?;
    let wrapped = fixture.wrap(a)?;
    let goal = goal_about(fixture, wrapped)?;
    fixture.seen(goal.param_env)?;
    fixture.seen(goal.predicate)?;
    let before = content_of(fixture)?;
    let mode = TypingMode::PostAnalysis;
    let (cx, table) = (&mut fixture.cx, &fixture.table);
    let (originals, input) = canonicalize_goal(table, cx, goal, &[], mode)?;
    let answer = match filled_query(cx, input.canonical, &originals) {
        Ok(_) => Ok(()),
        Err(fault) => Err(fault.into()),
    };
    Ok(Called { before, answer })
}

/// The query with values in place of its positions.
fn filled_query(
    cx: &mut Cx,
    canonical: Canonical<QueryInput>,
    values: &[GenericArg],
) -> Result<QueryInput, Fault>
    requires holds { HoldsQuery cx.old.nodes canonical.value }
    requires values { All (HoldsArg cx.old.nodes) values.now }
    requires positions { HasValues (trees_of cx.old.nodes values.now)
        (query_tree cx.old.nodes canonical.value) }
    ensures { Grows cx.old cx.new }
{
    instantiate_canonical(cx, canonical, values)
}

/// A certain response with a new universe: a variable is the constructor over a new one.
fn response_of(fixture: &mut Fixture) -> Result<CanonicalResponse, EvalError>
    requires { IsTable fixture.old.cx.nodes fixture.old.table }
    ensures { IsTable fixture.new.cx.nodes fixture.new.table }
{
    let alloc = fixture.cx.alloc;
    let position = fixture.position(0)?;
    let wrapped = fixture.wrap(position)?;
    let kinds = [CanonicalVarKind::Ty { ui: 0, sub_root: 0 }];
    let value = Response {
        certainty: Certainty::Yes,
        var_values: [wrapped].to_vec(alloc)?,
        external_constraints: ExternalConstraintsData {
            region_constraints: Vec::new(alloc),
            opaque_types: Vec::new(alloc),
            normalization_nested_goals: Vec::new(alloc),
        },
    };
    Ok(Canonical {
        value,
        max_universe: 1,
        var_kinds: kinds.to_vec(alloc)?,
    })
}

/// Applies a response to a variable.
pub fn apply(fixture: &mut Fixture) -> Result<Called, EvalError>
    requires { IsTable fixture.old.cx.nodes fixture.old.table }
    ensures { OnOk result (IsTable fixture.new.cx.nodes fixture.new.table) }
{
    let x = fixture.root_var(VariableKind::Ty)?;
    let response = response_of(fixture)?;
    apply_to(fixture, x, &response)
}

/// Applies a response to a variable that it fits.
fn apply_to(
    fixture: &mut Fixture,
    x: GenericArg,
    response: &CanonicalResponse,
) -> Result<Called, EvalError>
    requires { IsTable fixture.old.cx.nodes fixture.old.table }
    ensures { OnOk result (IsTable fixture.new.cx.nodes fixture.new.table) }
{
    fixture.seen(x)?;
    if fixture.cx.has_escaping_bound_vars(x) || !response_fits(&fixture.cx, &[x], response)? {
        return Err(EvalError::NoSolution);
    }
    let before = content_of(fixture)?;
    let (cx, table) = (&mut fixture.cx, &mut fixture.table);
    let applied = instantiate_and_apply_query_response(
        table,
        cx,
        fixture.env,
        &[x],
        response,
        VisibleForLeakCheck::Yes,
        Span(0),
    );
    let answer = applied.map(|_| ());
    Ok(Called { before, answer })
}

/// Opens a type that is bound by the outer one of two binders.
pub fn open(fixture: &mut Fixture) -> Result<Called, EvalError>
    requires { IsTable fixture.old.cx.nodes fixture.old.table }
    ensures { OnOk result (IsTable fixture.new.cx.nodes fixture.new.table) }
{
    let (outer, inner) = (fixture.bound(1, 0)?, fixture.bound(0, 2)?);
    let x = fixture.pair(outer, inner)?;
    let mut list = vec![in fixture.cx.alloc; None, None]?;
    open_in(fixture, &mut list, x)
}

/// Opens the binders of this list in a term.
fn open_in(
    fixture: &mut Fixture,
    list: &mut Vec<Option<UniverseIndex>>,
    x: GenericArg,
) -> Result<Called, EvalError>
    requires { IsTable fixture.old.cx.nodes fixture.old.table }
    ensures { OnOk result (IsTable fixture.new.cx.nodes fixture.new.table) }
{
    if !fixture.cx.holds(x) || !BoundVarReplacer::may_replace(&fixture.cx, list, x) {
        return Err(EvalError::NoSolution);
    }
    let before = content_of(fixture)?;
    let (cx, table) = (&mut fixture.cx, &mut fixture.table);
    let answer = match BoundVarReplacer::replace_bound_vars(table, cx, list, x) {
        Ok(_) => Ok(()),
        Err(fault) => Err(fault.into()),
    };
    Ok(Called { before, answer })
}

/// Registers another hidden type of an alias, or one of an alias that hides none.
pub fn hide(fixture: &mut Fixture, alias: AliasId, of: GenericArg) -> Result<Called, EvalError>
    requires { IsTable fixture.old.cx.nodes fixture.old.table }
    ensures { OnOk result (IsTable fixture.new.cx.nodes fixture.new.table) }
{
    let word = fixture.uint(UintTy::U32)?;
    let args = fixture.args(&[of])?;
    let ty = Ty { node: word.node };
    fixture.seen(args)?;
    fixture.seen(ty)?;
    let before = content_of(fixture)?;
    let key = AliasTerm {
        def_id: AliasDefId::Ty(alias),
        args,
    };
    let (cx, table) = (&mut fixture.cx, &mut fixture.table);
    let answer = match table.register_hidden_type_in_storage(cx, key, ty, Span(0)) {
        Ok(_) => Ok(()),
        Err(fault) => Err(fault.into()),
    };
    Ok(Called { before, answer })
}
