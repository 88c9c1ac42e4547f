//! Posing a goal.
ghost use Rattle.std.specs.Prelude.{◌≡◌, All, List, length, map, IfOk};
ghost use Rattle.nts_model.specs.Terms.Trees.{Tree};
ghost use Rattle.nts_store.specs.Growth.{Extends};
ghost use Rattle.nts_table.specs.Tables.{IsTable};
ghost use Rattle.nts_meaning.specs.Evaluation.{AreOfSorts};
ghost use Rattle.nts_declaring.specs.Posing.{IsTypingMode, IsPosedLine};
ghost use Rattle.nts_wording.specs.Found.{IsKnownValue};
ghost use Rattle.nts_wording.specs.Fitting.{IsDeclaredPredicate};
ghost use Rattle.nts_wording.specs.Meaning.{AreVariablesFrom};
ghost use Rattle.nts_store.specs.Growth.{tree_at};
ghost use Rattle.nts_terms.specs.Rest.{Grows};

use nts_model::Sort;
use nts_store::NodeId;
use nts_table::InferCtxt;
use nts_terms::{Cx, GenericArg, Goal, ParamEnv, TypingMode};
use nts_text::{Mode, Resolved};
use nts_wording::{LineVariables, Stop, Terms, goal_of};
use std::alloc::{AllocError, Global};

/// What a goal may know of hidden types in this mode: there are none.
fn typing_mode(alloc: Global, mode: Mode) -> TypingMode
    ensures { IsTypingMode mode result }
{
    match mode {
        Mode::Coherence => TypingMode::Coherence,
        Mode::Analysis => TypingMode::Analysis {
            defining_opaque_types_and_generators: Vec::new(alloc),
        },
        Mode::PostAnalysis => TypingMode::PostAnalysis,
    }
}

/// The goal that a line asks, in a table of its own.
#[derive(Drop)]
pub struct Posed {
    /// The variables of the line.
    pub variables: LineVariables,
    /// A table that knows nothing but variables, one for each of the line's.
    pub table: InferCtxt,
    /// What the line's variables stand for, each at the variable's place.
    pub values: Vec<GenericArg>,
    pub goal: Goal,
}

/// The goal that these nodes say in this environment, or in the empty one, of new variables in a new table.
#[tactic(auto, using(crate::proofs::Values::posing))]
pub fn pose(
    cx: &mut Cx,
    env: Option<ParamEnv>,
    mode: Mode,
    nodes: &[Resolved],
) -> Result<Posed, Stop>
    ensures posed { IfOk result (IsPosedLine mode env nodes.now cx.new.nodes) }
    ensures declared { IfOk result (λ p. IsDeclaredPredicate cx.new.declarations
        (tree_at cx.new.nodes p.goal.predicate.node)) }
    ensures grows { Grows cx.old cx.new }
{
    let mut variables = LineVariables::new(cx.alloc);
    variables.see(nodes)?;
    let mut table = InferCtxt::new(cx.alloc, typing_mode(cx.alloc, mode));
    let values = fresh_values(&mut table, cx, &variables.sorts)?;
    let terms = Terms {
        variables: &variables,
        values: &values,
    };
    let goal = goal_of(cx, env, nodes, terms)?;
    Ok(Posed {
        variables,
        table,
        values,
        goal,
    })
}

/// New variables of these sorts.
fn fresh_values(table: &mut InferCtxt, cx: &mut Cx, sorts: &[Sort]) -> Result<Vec<GenericArg>, Stop>
    requires table { IsTable cx.old.nodes table.old }
    ensures grows { Grows cx.old cx.new }
    ensures table { IsTable cx.new.nodes table.new }
    ensures values { IfOk result (λ vs. All (λ v. IsKnownValue cx.new.nodes table.new v) vs.items) }
    ensures sorts { IfOk result (λ vs. AreOfSorts sorts.now (map (tree_at cx.new.nodes) (map
        (λ v. v.node) vs.items))) }
    ensures variables { IfOk result (λ vs. (ts : List Tree) → Extends cx.new.nodes ts →
        AreVariablesFrom (length table.old.entries.variables) ts sorts.now vs.items) }
    ensures mode { table.new.mode ≡ table.old.mode }
{
    let nodes = table.fresh_nodes(cx, sorts)?;
    let values = arguments_of(cx.alloc, &nodes)?;
    Ok(values)
}

/// Terms of variables, as arguments.
fn arguments_of(alloc: Global, nodes: &[NodeId]) -> Result<Vec<GenericArg>, AllocError>
    ensures { IfOk result (λ vs. vs.items ≡ map (λ n. record { node = n }) nodes.now) }
{
    nodes
        .iter()
        .map(|node| GenericArg { node: *node })
        .collect(alloc)
}
