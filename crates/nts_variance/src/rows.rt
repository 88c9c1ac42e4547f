//! Two lists of arguments related, with goals alone left: argument by argument, and no argument varies.
ghost use Rattle.std.specs.Prelude.{◌≡◌, ◌≢◌, OnOk, OnErr, IfOk, Err};
ghost use Rattle.nts_store.specs.Growth.{tree_at, Extends};
ghost use Rattle.nts_terms.specs.Signatures.{variances_in};
ghost use Rattle.nts_unify.specs.Entries.{KeepsHidden};
ghost use Rattle.nts_unify.specs.Reading.{content_of, IsLawful};
ghost use Rattle.nts_variance.specs.Rows.{IsListOf, RowsRelate, RefusesRows};

use crate::along::Relating;
use crate::equating::relate_pair;
use nts_model::Variance;
use nts_store::{EvalError, NodeId, Nodes};
use nts_terms::Declarations;
use nts_unify::InferCtxtInner;
use std::alloc::Global;

/// Relates the arguments of two lists one after another. After an error the table may have grown.
fn relate_arguments(
    alloc: Global,
    nodes: &mut Nodes,
    declarations: &Declarations,
    table: &mut InferCtxtInner,
    left: NodeId,
    right: NodeId,
) -> Result<Vec<Relating>, EvalError>
    requires lawful { IsLawful nodes.old table.old.entries }
    requires left { IsListOf nodes.old (content_of nodes.old table.old.entries) left }
    requires right { IsListOf nodes.old (content_of nodes.old table.old.entries) right }
    ensures extends { Extends nodes.old nodes.new }
    ensures changes { KeepsHidden table.old table.new }
    ensures lawful { OnOk result (IsLawful nodes.new table.new.entries) }
    ensures related { IfOk result (λ gs. RowsRelate (variances_in declarations.now) nodes.old
        nodes.new table.old.entries table.new.entries (tree_at nodes.old left)
        (tree_at nodes.old right) gs.items) }
    ensures full { result ≢ Err EvalError.Full }
    ensures no { result ≡ Err EvalError.NoSolution →
        RefusesRows (variances_in declarations.now) (content_of nodes.old table.old.entries)
        (tree_at nodes.old left) (tree_at nodes.old right) }
{
    let count = nodes.child_count(left);
    if nodes.child_count(right) != count {
        return Err(EvalError::NoSolution);
    }
    let mut goals: Vec<Relating> = Vec::new(alloc);
    let mut i = 0;
    while i < count {
        let pair = Relating {
            variance: Variance::Invariant,
            left: nodes.child(left, i),
            right: nodes.child(right, i),
        };
        match relate_pair(alloc, nodes, declarations, table, pair) {
            Err(error) => return Err(error),
            Ok(more) => goals.extend_from_slice(&more)?,
        }
        i += 1;
    }
    Ok(goals)
}

/// Relates two lists of arguments of the store and the table, for calls that relate two aliases, or two trait references, of one
/// head: no argument of theirs varies, and nothing is asked of the two as a whole. What rests on aliases in the arguments is left as
/// goals, and all else is done.
///
/// Under each later table in which the goals are answered the arguments are related; and each settled solution in which they settle
/// goes on to one of the table in which the goals settle. It is `NoSolution` where the lists are not of one length or the arguments
/// settle in none, and `Memory` where a growth was refused. After an error the table is as before.
pub fn relate_rows(
    alloc: Global,
    nodes: &mut Nodes,
    declarations: &Declarations,
    table: &mut InferCtxtInner,
    left: NodeId,
    right: NodeId,
) -> Result<Vec<Relating>, EvalError>
    requires lawful { IsLawful nodes.old table.old.entries }
    requires left { IsListOf nodes.old (content_of nodes.old table.old.entries) left }
    requires right { IsListOf nodes.old (content_of nodes.old table.old.entries) right }
    ensures extends { Extends nodes.old nodes.new }
    ensures changes { KeepsHidden table.old table.new }
    ensures lawful { IsLawful nodes.new table.new.entries }
    ensures related { IfOk result (λ gs. RowsRelate (variances_in declarations.now) nodes.old
        nodes.new table.old.entries table.new.entries (tree_at nodes.old left)
        (tree_at nodes.old right) gs.items) }
    ensures err { OnErr result (table.new ≡ table.old) }
    ensures full { result ≢ Err EvalError.Full }
    ensures no { result ≡ Err EvalError.NoSolution →
        RefusesRows (variances_in declarations.now) (content_of nodes.old table.old.entries)
        (tree_at nodes.old left) (tree_at nodes.old right) }
{
    let snapshot = table.start_snapshot()?;
    let related = relate_arguments(alloc, nodes, declarations, table, left, right);
    table.commit_if_ok(snapshot, related)
}
