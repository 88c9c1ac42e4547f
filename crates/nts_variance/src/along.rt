//! A variable related with a term by a variance.
ghost use Rattle.std.specs.Prelude.{◌≡◌, ◌≢◌, ◌∷◌, [], IfOk, Some, Err};
ghost use Rattle.nts_variance_model.specs.Variances.Leaving.{Refuses};
ghost use Rattle.nts_model.specs.declared.labels.Sort.{Sort};
ghost use Rattle.nts_model.specs.declared.labels.VariableKind.{VariableKind};
ghost use Rattle.nts_model.specs.Terms.Trees.{kind_of, of_sort, variable_tree};
ghost use Rattle.nts_model.specs.Tables.Contents.{kind_at};
ghost use Rattle.nts_model.specs.Tables.Resolving.{IsInfer, Knows};
ghost use Rattle.nts_model.specs.Derivations.Related.{IsAlias};
ghost use Rattle.nts_store.specs.Growth.{tree_at, IsIn, Extends};
ghost use Rattle.nts_terms.specs.Signatures.{variances_in};
ghost use Rattle.nts_unify.specs.Entries.{KeepsHidden};
ghost use Rattle.nts_unify.specs.Reading.{content_of, IsLawful};
ghost use Rattle.nts_unify.specs.Joining.{IsBindable};
ghost use Rattle.nts_variance.specs.Walking.{sides};
ghost use Rattle.nts_variance.specs.Pairs.{IsBound};

use crate::vary_walk::{Target, Varied, vary};
use nts_model::Variance;
use nts_relating::bind;
use nts_store::{EvalError, NodeId, Nodes};
use nts_terms::Declarations;
use nts_unify::InferCtxtInner;
use std::alloc::Global;

/// Two terms that are to be related by a variance: the goal of a pair.
#[derive(Clone, Copy, PartialEq, Eq, Hash)]
pub struct Relating {
    pub variance: Variance,
    pub left: NodeId,
    pub right: NodeId,
}

/// A variable that is related with a term: it stands left in the pair, or right where the pair is turned.
#[derive(Clone, Copy)]
pub struct Side {
    pub variable: usize,
    pub is_turned: bool,
}

/// Relates a variable that has no value, and is no region, with a term by a variance: the variable is made one with what stands
/// for the term, and the goals that this owes are handed out.
/// The term is neither an inference variable nor an alias without escaping bound variables: for such a pair the caller leaves a
/// goal.
///
/// Under each later table in which the goals are answered the two are related, and each settled solution in which they settle
/// goes on to one of the table in which the goals settle. It is `NoSolution` where they settle in none, and `Memory` where a
/// growth was refused. After an error the table may have grown: the caller goes back to a snapshot.
pub fn bind_along(
    alloc: Global,
    nodes: &mut Nodes,
    declarations: &Declarations,
    table: &mut InferCtxtInner,
    side: Side,
    variance: Variance,
    term: NodeId,
) -> Result<Vec<Relating>, EvalError>
    requires lawful { IsLawful nodes.old table.old.entries }
    requires open { IsBindable table.old.entries side.variable }
    requires within { IsIn nodes.old term }
    requires knows { Knows (content_of nodes.old table.old.entries) (tree_at nodes.old term) }
    requires sort { (s : Sort) × (kind_of (tree_at nodes.old term) ≡ Some (of_sort s)) }
    requires node { IsInfer (tree_at nodes.old term) → ⊥ }
    requires rigid { IsAlias (tree_at nodes.old term) → ⊥ }
    ensures extends { Extends nodes.old nodes.new }
    ensures changes { KeepsHidden table.old table.new }
    ensures bound { (k : VariableKind) →
        kind_at (content_of nodes.old table.old.entries) side.variable ≡ Some k →
        IfOk result (λ gs. IsBound (variances_in declarations.now) side.is_turned nodes.old
        nodes.new table.old.entries table.new.entries variance k side.variable term gs.items) }
    ensures full { result ≢ Err EvalError.Full }
    ensures no { (k : VariableKind) →
        kind_at (content_of nodes.old table.old.entries) side.variable ≡ Some k →
        result ≡ Err EvalError.NoSolution →
        Refuses (variances_in declarations.now) (content_of nodes.old table.old.entries)
        (sides side.is_turned variance (variable_tree k side.variable)
        (tree_at nodes.old term) ∷ []) }
{
    // The nodes of a store are formed.
    nodes.terms_are_formed();
    if nodes.flags(term).escaping.is_some() {
        return Err(EvalError::NoSolution);
    }
    let target = Target {
        variable: side.variable,
        universe: table.variable(side.variable).universe,
        is_turned: side.is_turned,
    };
    match vary(alloc, nodes, declarations, table, target, variance, term) {
        Err(error) => Err(error),
        Ok(Varied { made, goals }) => match bind(alloc, nodes, table, side.variable, made) {
            Err(error) => Err(error),
            Ok(()) => Ok(goals),
        },
    }
}
