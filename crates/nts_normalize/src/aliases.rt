//! Aliases among terms, and the variables that are made for their answers.
ghost use Rattle.std.specs.Prelude.{◌≡◌, ◌↔◌, ◌≤◌, true, false, IfSome, IsNone, IsTrue, IfOk, IsOkUnless};
ghost use Rattle.nts_model.specs.Terms.Trees.{variable_of};
ghost use Rattle.nts_model.specs.Tables.Resolving.{Knows};
ghost use Rattle.nts_store.specs.Growth.{tree_at, IsIn};
ghost use Rattle.nts_terms.specs.Handles.{HoldsTerm, HoldsResult};
ghost use Rattle.nts_terms.specs.Kinds.{tree_of_alias};
ghost use Rattle.nts_terms.specs.Rest.{Grows};
ghost use Rattle.nts_unify.specs.Reading.{content_of};
ghost use Rattle.nts_table.specs.Tables.{IsTable};
ghost use Rattle.nts_normalize.specs.Calling.{IsAliasTerm};
ghost use Rattle.nts_normalize.specs.Normalizing.{is_alias_tree, NamesVariables};
ghost use Rattle.nts_normalize.specs.Naming.{IsNamedBy};

use nts_model::Label;
use nts_store::{Fault, LabelTest, all_labels};
use nts_table::{InferCtxt, eager_resolve_vars};
use nts_terms::{AliasTerm, ConstKind, Cx, Term, TermKind, TyKind, UniverseIndex};
use nts_unify::named_variable;

/// The alias that a term is.
pub(crate) fn alias_of(cx: &Cx, t: Term) -> Option<AliasTerm>
    requires { HoldsTerm cx.now.nodes t }
    ensures alias { IfSome result (λ a. tree_at cx.now.nodes t.node ≡ tree_of_alias cx.now.nodes
        a) }
    ensures holds { IfSome result (λ a. IsAliasTerm cx.now.nodes a × HoldsResult cx.now.nodes a t) }
    ensures is { IfSome result (λ a. is_alias_tree (tree_at cx.now.nodes t.node) ≡ true) }
    ensures none { IsNone result → is_alias_tree (tree_at cx.now.nodes t.node) ≡ false }
{
    match t.kind(cx) {
        TermKind::Ty(ty) => match ty.kind(cx) {
            TyKind::Alias(alias) => Some(alias),
            _ => None,
        },
        TermKind::Const(ct) => match ct.kind(cx) {
            ConstKind::Unevaluated(alias) => Some(alias),
            _ => None,
        },
    }
}

/// A universe that names a variable, if the table has it.
#[derive(Drop)]
struct NamedBy<'a> {
    table: &'a InferCtxt,
    universe: UniverseIndex,
}

impl LabelTest for NamedBy<'_> {
    ghost passes = { λ s l. IsNamedBy s.universe s.table.now.entries (variable_of l) };

    fn test(&self, label: Label) -> bool {
        match named_variable(label) {
            None => true,
            Some((_, n)) => {
                n >= self.table.variable_count() || self.table.variable(n).universe <= self.universe
            }
        }
    }
}

/// Whether the universe names each variable that is left of a term under the values of the table.
pub(crate) fn names_variables(
    table: &InferCtxt,
    cx: &mut Cx,
    universe: UniverseIndex,
    t: Term,
) -> Result<bool, Fault>
    requires table { IsTable cx.old.nodes table.now }
    requires holds { HoldsTerm cx.old.nodes t }
    requires known { Knows (content_of cx.old.nodes table.now.entries)
        (tree_at cx.old.nodes t.node) }
    ensures answer { IfOk result (λ b. IsTrue b ↔ NamesVariables universe
        (content_of cx.old.nodes table.now.entries) (tree_at cx.old.nodes t.node)) }
    ensures grows { Grows cx.old cx.new }
    ensures memory { IsOkUnless result Fault.Memory }
{
    let known = eager_resolve_vars(table, cx, t)?;
    let test = NamedBy { table, universe };
    let named = all_labels(cx.alloc, &cx.nodes, known.node, &test)?;
    Ok(named)
}
