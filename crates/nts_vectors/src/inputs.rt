//! Goals and their canonical inputs, with each condition of a call tested by a public function.
ghost use Rattle.std.specs.Prelude.{◌≡◌, [], All, IfOk};
ghost use Rattle.nts_model.specs.Terms.Substitutions.{filled};
ghost use Rattle.nts_store.specs.Filled.{HasValues};
ghost use Rattle.nts_terms.specs.Handles.{HoldsArg};
ghost use Rattle.nts_table.specs.Tables.{IsTable};
ghost use Rattle.nts_terms.specs.Rest.{Grows};
ghost use Rattle.nts_canonical.specs.Forms.{query_tree, trees_of, HoldsQuery};
ghost use Rattle.nts_canonical.specs.Building.{IsInputOf};

use nts_canonical::{
    Canonical, CanonicalInput, CanonicalVarKind, QueryInput, build_with_canonical,
    instantiate_canonical, instantiate_canonical_var, same_input,
};
use nts_canonicalizer::canonicalize_goal;
use nts_fixtures::Fixture;
use nts_model::Sort;
use nts_solver_relating::RelateExt;
use nts_store::{EvalError, Fault};
use nts_table::{InferCtxt, eager_resolve_vars};
use nts_terms::{
    AliasDefId, AliasId, AliasTerm, ClauseKind, Cx, DefId, GenericArg, Goal, ParamEnv, Predicate,
    PredicateKind, Span, TraitId, TraitRef, Ty, TypingMode,
};
use std::process::Abort;

/// Another table, in the place of this one.
pub fn another_table(fixture: &mut Fixture)
    ensures { IsTable fixture.new.cx.nodes fixture.new.table }
{
    fixture.table = InferCtxt::new(fixture.cx.alloc, TypingMode::PostAnalysis);
}

/// A new trait.
pub fn declare(fixture: &mut Fixture, sorts: &[Sort]) -> Result<TraitId, EvalError>
    requires { IsTable fixture.old.cx.nodes fixture.old.table }
    ensures { IsTable fixture.new.cx.nodes fixture.new.table }
{
    Ok(fixture.cx.declare_trait(sorts)?)
}

/// Makes two arguments one.
pub fn equate(fixture: &mut Fixture, x: GenericArg, y: GenericArg) -> Result<(), EvalError>
    requires { IsTable fixture.old.cx.nodes fixture.old.table }
    ensures { IsTable fixture.new.cx.nodes fixture.new.table }
{
    fixture.seen(x)?;
    fixture.seen(y)?;
    let (cx, table) = (&mut fixture.cx, &mut fixture.table);
    table.eq_structurally_relating_aliases(cx, fixture.env, x, y, Span(0))
}

/// An argument with values of values in place of its variables.
pub fn resolved(fixture: &mut Fixture, x: GenericArg) -> Result<GenericArg, EvalError>
    requires { IsTable fixture.old.cx.nodes fixture.old.table }
    ensures { IsTable fixture.new.cx.nodes fixture.new.table }
{
    fixture.seen(x)?;
    Ok(eager_resolve_vars(&fixture.table, &mut fixture.cx, x)?)
}

/// Makes one sub-unification class of those of two variables.
pub fn join(rt: &impl Abort, fixture: &mut Fixture, a: usize, b: usize)
    requires { IsTable fixture.old.cx.nodes fixture.old.table }
    ensures { IsTable fixture.new.cx.nodes fixture.new.table }
{
    assert!(rt; a < fixture.table.variable_count());
    assert!(rt; b < fixture.table.variable_count());
    fixture
        .table
        .sub_unify_ty_vids_raw(a, b)
        .expect(rt, "memory");
}

/// The predicate that a trait holds for arguments.
pub fn trait_holds(
    rt: &impl Abort,
    fixture: &mut Fixture,
    id: TraitId,
    args: &[GenericArg],
) -> Result<Predicate, EvalError>
    requires { IsTable fixture.old.cx.nodes fixture.old.table }
    ensures { IsTable fixture.new.cx.nodes fixture.new.table }
{
    let args = fixture.args(args)?;
    assert!(rt; fixture.cx.fits(DefId::Trait(id), args));
    let value = PredicateKind::Clause(ClauseKind::Trait(TraitRef { def_id: id, args }));
    fixture.statement(value)
}

/// The environment of one predicate.
pub fn env_of(
    rt: &impl Abort,
    fixture: &mut Fixture,
    predicate: Predicate,
) -> Result<ParamEnv, EvalError>
    requires { IsTable fixture.old.cx.nodes fixture.old.table }
    ensures { IsTable fixture.new.cx.nodes fixture.new.table }
{
    assert!(rt; fixture.cx.holds(predicate));
    Ok(fixture.cx.mk_env(&[predicate])?)
}

/// The originals and the canonical input of a goal.
pub fn canonical(
    fixture: &mut Fixture,
    param_env: ParamEnv,
    predicate: Predicate,
) -> Result<(Vec<GenericArg>, CanonicalInput), EvalError>
    requires { IsTable fixture.old.cx.nodes fixture.old.table }
    ensures { IsTable fixture.new.cx.nodes fixture.new.table }
{
    fixture.seen(param_env)?;
    fixture.seen(predicate)?;
    let goal = Goal {
        param_env,
        predicate,
    };
    let mode = TypingMode::PostAnalysis;
    let (cx, table) = (&mut fixture.cx, &fixture.table);
    Ok(canonicalize_goal(table, cx, goal, &[], mode)?)
}

/// Tests that an input without hidden types is of the store.
fn held(rt: &impl Abort, cx: &Cx, input: &CanonicalInput)
    ensures { HoldsQuery cx.now.nodes input.now.canonical.value }
{
    let query = &input.canonical.value;
    assert!(rt; cx.holds(query.goal.param_env));
    assert!(rt; cx.holds(query.goal.predicate));
    assert!(rt; query.predefined_opaques_in_body.is_empty());
}

/// Whether two inputs without hidden types are one.
pub fn same(rt: &impl Abort, cx: &Cx, a: &CanonicalInput, b: &CanonicalInput) -> bool {
    held(rt, cx, a);
    held(rt, cx, b);
    same_input(cx, a, b)
}

/// The goal of the canonical input of a goal, with the originals in place of its positions.
pub fn there_and_back(
    fixture: &mut Fixture,
    param_env: ParamEnv,
    predicate: Predicate,
) -> Result<Goal, EvalError>
    requires { IsTable fixture.old.cx.nodes fixture.old.table }
    ensures { IsTable fixture.new.cx.nodes fixture.new.table }
{
    fixture.seen(param_env)?;
    fixture.seen(predicate)?;
    let goal = Goal {
        param_env,
        predicate,
    };
    let mode = TypingMode::PostAnalysis;
    let (cx, table) = (&mut fixture.cx, &fixture.table);
    let (originals, input) = canonicalize_goal(table, cx, goal, &[], mode)?;
    let query = filled_query(&mut fixture.cx, input.canonical, &originals)?;
    Ok(query.goal)
}

/// The originals and the canonical input of a goal in the empty environment, where this alias over a
/// type hides another one.
pub fn with_hidden(
    fixture: &mut Fixture,
    predicate: Predicate,
    id: AliasId,
    of: GenericArg,
    ty: GenericArg,
) -> Result<(Vec<GenericArg>, CanonicalInput), EvalError>
    requires { IsTable fixture.old.cx.nodes fixture.old.table }
    ensures { IsTable fixture.new.cx.nodes fixture.new.table }
{
    let param_env = fixture.env;
    let args = fixture.args(&[of])?;
    let ty = Ty { node: ty.node };
    fixture.seen(param_env)?;
    fixture.seen(predicate)?;
    fixture.seen(args)?;
    fixture.seen(ty)?;
    let def_id = AliasDefId::Ty(id);
    let hidden = [(AliasTerm { def_id, args }, ty)];
    let goal = Goal {
        param_env,
        predicate,
    };
    let mode = TypingMode::PostAnalysis;
    let (cx, table) = (&mut fixture.cx, &fixture.table);
    Ok(canonicalize_goal(table, cx, goal, &hidden, mode)?)
}

/// A table for the canonical input of a goal in the empty environment, where this alias over a type hides
/// two types one after the other. It takes the place of this one. Answered are the values, the
/// originals of what was made, and whether it has the same canonical input.
pub fn rebuilt(
    fixture: &mut Fixture,
    predicate: Predicate,
    id: AliasId,
    of: GenericArg,
    hidden: [GenericArg; 2],
) -> Result<(Vec<GenericArg>, Vec<GenericArg>, bool), EvalError>
    requires { IsTable fixture.old.cx.nodes fixture.old.table }
    ensures { IsTable fixture.new.cx.nodes fixture.new.table }
{
    let param_env = fixture.env;
    let args = fixture.args(&[of])?;
    let first = Ty {
        node: hidden[0].node,
    };
    let second = Ty {
        node: hidden[1].node,
    };
    fixture.seen(param_env)?;
    fixture.seen(predicate)?;
    fixture.seen(args)?;
    fixture.seen(first)?;
    fixture.seen(second)?;
    let def_id = AliasDefId::Ty(id);
    let alias = AliasTerm { def_id, args };
    let goal = Goal {
        param_env,
        predicate,
    };
    let mode = TypingMode::PostAnalysis;
    let hidden = [(alias, first), (alias, second)];
    let (cx, table) = (&mut fixture.cx, &fixture.table);
    let (_, input) = canonicalize_goal(table, cx, goal, &hidden, mode)?;
    build(fixture, &input)
}

fn build(
    fixture: &mut Fixture,
    input: &CanonicalInput,
) -> Result<(Vec<GenericArg>, Vec<GenericArg>, bool), EvalError>
    requires table { IsTable fixture.old.cx.nodes fixture.old.table }
    requires input { IsInputOf fixture.old.cx.nodes input.now }
    ensures { IsTable fixture.new.cx.nodes fixture.new.table }
{
    let (table, query, values) = build_with_canonical(&mut fixture.cx, input)?;
    let (originals, again) = canonicalize_goal(
        &table,
        &mut fixture.cx,
        query.goal,
        &query.predefined_opaques_in_body,
        TypingMode::PostAnalysis,
    )?;
    let same = same_input(&fixture.cx, input, &again);
    fixture.table = table;
    Ok((values, originals, same))
}

/// The value of a kind, where the universes are moved up by one, but not above the current one, and
/// the positions have these values.
pub fn value_of(
    fixture: &mut Fixture,
    kind: CanonicalVarKind,
    values: &[GenericArg],
) -> Result<GenericArg, EvalError>
    requires { IsTable fixture.old.cx.nodes fixture.old.table }
    ensures { IsTable fixture.new.cx.nodes fixture.new.table }
{
    for value in values {
        fixture.seen(*value)?;
    }
    let current = fixture.table.universe();
    let (cx, table) = (&mut fixture.cx, &mut fixture.table);
    let moved = |u: u32| u.saturating_add(1).min(current);
    Ok(instantiate_canonical_var(table, cx, kind, Span(0), values, moved)?)
}

/// The query with values in place of its positions, as the folder of any value makes it.
fn filled_query(
    cx: &mut Cx,
    canonical: Canonical<QueryInput>,
    values: &[GenericArg],
) -> Result<QueryInput, Fault>
    requires holds { HoldsQuery cx.old.nodes canonical.value }
    requires values { All (HoldsArg cx.old.nodes) values.now }
    requires positions { HasValues (trees_of cx.old.nodes values.now)
        (query_tree cx.old.nodes canonical.value) }
    ensures tree { IfOk result (λ q. query_tree cx.new.nodes q ≡ filled
        (trees_of cx.old.nodes values.now) (query_tree cx.old.nodes canonical.value)) }
    ensures holds { IfOk result (HoldsQuery cx.new.nodes) }
    ensures grows { Grows cx.old cx.new }
{
    let query = instantiate_canonical(cx, canonical, values)?;
    Ok(query)
}
