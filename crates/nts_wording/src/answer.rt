//! The answer to a goal, and what it tells of the goal's variables.
ghost use Rattle.std.specs.Prelude.{All, IfOk};
ghost use Rattle.nts_unify.specs.Reading.{content_of};
ghost use Rattle.nts_table.specs.Tables.{IsTable};
ghost use Rattle.nts_wording.specs.Found.{AreResolved, IsFoundIn, IsOf, IsKnownValue};
ghost use Rattle.nts_terms.specs.Rest.{Grows};

use crate::status::Stop;
use crate::variables::LineVariables;
use nts_table::{InferCtxt, eager_resolve_vars};
use nts_terms::{Cx, GenericArg};
use nts_unify::Constraint;

/// What a goal that holds says of its variables.
#[derive(Drop)]
pub struct Found {
    /// The variables of the goal.
    pub variables: LineVariables,
    /// Their values, each at its variable's place.
    pub values: Vec<GenericArg>,
    /// What holds of regions, in the order in which it was found.
    pub facts: Vec<Constraint>,
}

/// The answer to a goal.
#[derive(Drop)]
pub enum Answer {
    /// The goal holds.
    Yes(Found),
    /// The goal has no solution.
    No,
    /// Not enough is known of the goal's variables.
    Ambiguity,
    /// The goal goes on too deep, or comes back to itself.
    Overflow,
}

/// What the table knows of the variables of a goal that holds.
#[tactic(auto, using(crate::proofs::Telling::telling))]
pub fn answer_of(
    table: &InferCtxt,
    cx: &mut Cx,
    variables: LineVariables,
    values: &[GenericArg],
) -> Result<Answer, Stop>
    requires table { IsTable cx.old.nodes table.now }
    requires values { All (λ v. IsKnownValue cx.old.nodes table.now v) values.now }
    ensures variables { IfOk result (IsOf variables) }
    ensures found { IfOk result (IsFoundIn cx.old.nodes cx.new.nodes
        (content_of cx.old.nodes table.now.entries) values.now) }
    ensures grows { Grows cx.old cx.new }
{
    let values = resolved_values(table, cx, values)?;
    let facts = table.make_deduplicated_region_constraints(cx)?;
    Ok(Answer::Yes(Found {
        variables,
        values,
        facts,
    }))
}

/// The values with each variable replaced by what the table knows of it.
#[tactic(auto, using(crate::proofs::Telling::telling))]
fn resolved_values(
    table: &InferCtxt,
    cx: &mut Cx,
    values: &[GenericArg],
) -> Result<Vec<GenericArg>, Stop>
    requires table { IsTable cx.old.nodes table.now }
    requires values { All (λ v. IsKnownValue cx.old.nodes table.now v) values.now }
    ensures resolved { IfOk result (λ vs. AreResolved cx.old.nodes cx.new.nodes
        (content_of cx.old.nodes table.now.entries) values.now vs.items) }
    ensures grows { Grows cx.old cx.new }
{
    let mut found = Vec::new(cx.alloc);
    for value in values {
        found.push(eager_resolve_vars(table, cx, *value)?)?;
    }
    Ok(found)
}
