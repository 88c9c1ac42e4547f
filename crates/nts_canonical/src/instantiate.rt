//! Values in place of the positions of a canonical value.
ghost use Rattle.std.specs.Prelude.{◌≡◌, ◌↔◌, List, All, Some, map, IfOk, IsOkUnless, IsTrue, refl};
ghost use Rattle.std.proofs.Common.{◌∙◌};
ghost use Rattle.nts_model.specs.declared.labels.BoundVarIndexKind.TheVariants as index;
ghost use Rattle.nts_model.specs.declared.labels.Label.TheVariants as label;
ghost use Rattle.nts_model.specs.Terms.Trees.{Tree, kind_of, of_sort};
ghost use Rattle.nts_model.specs.Terms.Substitutions.{filled, position_of};
ghost use Rattle.nts_store.specs.declared.fault.Fault.TheVariants.{Memory};
ghost use Rattle.nts_store.specs.Growth.{tree_at, IsIn, AllIn};
ghost use Rattle.nts_store.specs.Kept.{AllIn-kept, map-kept};
ghost use Rattle.nts_store.specs.Filled.{HasValue, HasValues};
ghost use Rattle.nts_terms.specs.Handles.{HoldsArg};
ghost use Rattle.nts_terms.specs.Rest.{Grows};
ghost use Rattle.nts_canonical.specs.Forms.{trees_of};
ghost use Rattle.nts_canonical.specs.Mapping.{AnswersImage, same_state};

use crate::queries::{fill, nodes_of};
use crate::types::Canonical;
use nts_folding::{TermFolder, TypeFoldable};
use nts_model::{BoundVarIndexKind, Label, Sort};
use nts_store::{Fault, LabelTest, NodeId, Nodes, all_labels, sort_of};
use nts_terms::{Cx, GenericArg, Stored};

/// The value with value i in place of the bound variable that names position i. With the originals of a
/// goal as values, its canonical query is the goal again (`nts_model::originals_give_input`). Each term that it
/// is folded into is walked by nodes, which goes into a shared one once.
pub fn instantiate_canonical<T: TypeFoldable>(
    cx: &mut Cx,
    canonical: Canonical<T>,
    values: &[GenericArg],
) -> Result<T, Fault>
    requires holds { T.holds cx.old.nodes canonical.value }
    requires values { All (HoldsArg cx.old.nodes) values.now }
    requires positions { HasValues (trees_of cx.old.nodes values.now)
        (T.tree cx.old.nodes canonical.value) }
    ensures tree { IfOk result (λ r. T.tree cx.new.nodes r ≡ filled
        (trees_of cx.old.nodes values.now) (T.tree cx.old.nodes canonical.value)) }
    ensures holds { IfOk result (T.holds cx.new.nodes) }
    ensures grows { Grows cx.old cx.new }
    ensures memory { IsOkUnless result Fault.Memory }
{
    let values = nodes_of(cx.alloc, values)?;
    let value = fill_value(cx, canonical.value, &values)?;
    Ok(value)
}

fn fill_value<T: TypeFoldable>(cx: &mut Cx, value: T, values: &[NodeId]) -> Result<T, Fault>
    requires holds { T.holds cx.old.nodes value }
    requires values { AllIn cx.old.nodes values.now }
    requires positions { HasValues (map (tree_at cx.old.nodes) values.now)
        (T.tree cx.old.nodes value) }
    ensures tree { IfOk result (λ r. T.tree cx.new.nodes r ≡ filled
        (map (tree_at cx.old.nodes) values.now) (T.tree cx.old.nodes value)) }
    ensures holds { IfOk result (T.holds cx.new.nodes) }
    ensures grows { Grows cx.old cx.new }
    ensures memory { IsOkUnless result Fault.Memory }
{
    let mut filler = Filler { values };
    let value = value.fold_with(cx, &mut filler)?;
    Ok(value)
}

/// Puts values in place of positions. Values have no positions of their own, and bind nothing that
/// stands outside of them, so that binders do not matter.
#[derive(Drop)]
struct Filler<'a> {
    values: &'a [NodeId],
}

impl TermFolder for Filler<'_> {
    type Error = Fault;

    ghost Meaning = { List Tree };

    ghost meaning = { λ ts s. map (tree_at ts) s.values.now };

    ghost ready = { λ ts s. AllIn ts s.values.now };

    ghost answers = { AnswersImage HasValues filled same_state };

    ghost fails = { λ s o e. e ≡ Memory };

    ghost keeps = { λ s t. t ≡ s };

    ghost keeps_refl = { λ s. refl };

    ghost keeps_trans = { λ s t u a b. b ∙ a };

    ghost ready_kept = { λ a b s h e. AllIn-kept a b s.values.now h e };

    ghost memory_fails = { λ m e h. h };

    ghost meaning_kept = { λ a b s h e. map-kept a b s.values.now h e };

    #[tactic(auto, using(crate::proofs::Serving::serving))]
    fn fold_term<T: Stored>(&mut self, cx: &mut Cx, t: T) -> Result<Option<T>, Fault> {
        let node = t.node();
        // Most terms hold no such variable, and are left alone without a walk.
        if !cx.nodes.flags(node).has_canonical {
            return Ok(Some(t));
        }
        let served = Served {
            nodes: &cx.nodes,
            values: self.values,
        };
        if !all_labels(cx.alloc, &cx.nodes, node, &served)? {
            return Ok(None);
        }
        let filled = fill(cx.alloc, &mut cx.nodes, self.values, t)?;
        Ok(Some(filled))
    }
}

/// Whether a label that is a position has a value of its sort.
#[derive(Drop)]
struct Served<'a> {
    nodes: &'a Nodes,
    values: &'a [NodeId],
}

impl LabelTest for Served<'_> {
    ghost passes = { λ s l. HasValue (position_of l) (map (tree_at s.nodes.now) s.values.now) l };

    fn test(&self, label: Label) -> bool {
        match label {
            Label::Bound(sort, BoundVarIndexKind::Canonical, position) => has_value(
                self.nodes,
                self.values,
                position,
                sort,
            ),
            Label::Bound(_, BoundVarIndexKind::Bound(_), _) => true,
            Label::Leaf(_) => true,
            Label::Ty(_) => true,
            Label::Const(_) => true,
            Label::Clause(_) => true,
            Label::Predicate(_) => true,
            Label::List(_) => true,
        }
    }
}

/// Whether one of the values stands at that position, and has that sort.
fn has_value(nodes: &Nodes, values: &[NodeId], position: usize, sort: Sort) -> bool
    ensures { IsTrue result ↔ HasValue (Some position) (map (tree_at nodes.now) values.now)
        (label.Bound sort index.Canonical position) }
{
    match values.get(position) {
        Some(value) => nodes.contains(*value) && is_of_sort(nodes, *value, sort),
        None => false,
    }
}

#[tactic(auto, using(nts_terms::proofs::Places::sort_tests))]
fn is_of_sort(nodes: &Nodes, t: NodeId, sort: Sort) -> bool
    requires { IsIn nodes.now t }
    ensures { IsTrue result ↔ (kind_of (tree_at nodes.now t) ≡ Some (of_sort sort)) }
{
    match sort_of(nodes.label(t)) {
        Some(its_sort) => its_sort == sort,
        None => false,
    }
}
