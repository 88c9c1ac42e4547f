//! A goal as a query: its canonical input, and what of its run is kept.
ghost use Rattle.std.specs.Prelude.{◌≡◌, IfOk, IsOkUnless};
ghost use Rattle.nts_terms.specs.Rest.{Grows};
ghost use Rattle.nts_meaning.specs.Evaluation.{IsPosed};
ghost use Rattle.nts_meaning.specs.Answering.{is_kept, IsQueryInput, IsQueryOf};
ghost use Rattle.nts_meaning.specs.Rounds.{BeginsQuery};

use nts_canonical::{CanonicalInput, build_with_canonical};
use nts_certainty::{Certainty, MaybeCause};
use nts_meaning::nts_canonicalizer::canonicalize_goal;
use nts_store::Fault;
use nts_table::InferCtxt;
use nts_terms::{Cx, GenericArg, Goal};

/// The canonical input of a goal of the table, in its mode, and the leaves of the goal.
#[inline(never)]
pub fn query_of(
    table: &InferCtxt,
    cx: &mut Cx,
    goal: Goal,
) -> Result<(Vec<GenericArg>, CanonicalInput), Fault>
    requires posed { IsPosed cx.old.nodes table.now goal }
    ensures query { IfOk result (IsQueryOf cx.old.nodes cx.new.nodes table.now goal) }
    ensures grows { Grows cx.old cx.new }
    ensures memory { IsOkUnless result Fault.Memory }
{
    cx.terms_are_formed();
    let mode = table.typing_mode().clone()?;
    let query = canonicalize_goal(table, cx, goal, &[], mode)?;
    cx.terms_are_formed();
    Ok(query)
}

/// The same, with the input behind a box.
#[inline(never)]
pub fn boxed_query(
    table: &InferCtxt,
    cx: &mut Cx,
    goal: Goal,
) -> Result<(Vec<GenericArg>, Box<CanonicalInput>), Fault>
    requires posed { IsPosed cx.old.nodes table.now goal }
    ensures query { IfOk result (λ r. IsQueryOf cx.old.nodes cx.new.nodes table.now goal
        (r.0, r.1.value)) }
    ensures grows { Grows cx.old cx.new }
    ensures memory { IsOkUnless result Fault.Memory }
{
    let (originals, input) = query_of(table, cx, goal)?;
    let input = Box::new(cx.alloc, input)?;
    Ok((originals, input))
}

/// A table for the query of an input, behind a box; the query's goal there, and the terms that stand for the positions.
#[inline(never)]
pub fn query_table(
    cx: &mut Cx,
    input: &CanonicalInput,
) -> Result<(Box<InferCtxt>, Goal, Vec<GenericArg>), Fault>
    requires { IsQueryInput cx.old.nodes input.now }
    ensures begins { IfOk result (λ r. BeginsQuery cx.old.nodes cx.new.nodes input.now r.0.value r.1
        r.2.items) }
    ensures grows { Grows cx.old cx.new }
    ensures memory { IsOkUnless result Fault.Memory }
{
    let (table, query, values) = build_with_canonical(cx, input)?;
    let goal = query.goal;
    let table = Box::new(cx.alloc, table)?;
    Ok((table, goal, values))
}

/// Whether what was found out on the way to an answer of that certainty is kept.
#[inline(never)]
pub fn keeps_constraints(certainty: Certainty) -> bool
    ensures { result ≡ is_kept certainty }
{
    let Certainty::Maybe(info) = certainty else {
        return true;
    };
    match info.cause {
        MaybeCause::Ambiguity => true,
        MaybeCause::Overflow {
            keep_constraints,
            ..
        } => keep_constraints,
    }
}
