//! Values of any form that can be folded: what a table knows of them, their leaves, and positions in place of these.
ghost use Rattle.std.specs.Prelude.{◌≡◌, List, [], IfOk, IsOkUnless, refl};
ghost use Rattle.std.proofs.Common.{◌∙◌};
ghost use Rattle.nts_model.specs.declared.labels.Leaf.{Leaf};
ghost use Rattle.nts_model.specs.Tables.Contents.{Content};
ghost use Rattle.nts_model.specs.Tables.Resolving.{Knows, deeply_resolved};
ghost use Rattle.nts_model.specs.Canonical.Numbered.{seen};
ghost use Rattle.nts_model.specs.Answers.Responses.{is_fixed, positioned};
ghost use Rattle.nts_store.specs.declared.fault.Fault.TheVariants.{Memory};
ghost use Rattle.nts_terms.specs.Rest.{Grows};
ghost use Rattle.nts_unify.specs.Reading.{content_of};
ghost use Rattle.nts_unify.specs.Lawful.{content_of-extended};
ghost use Rattle.nts_canonical.specs.nts_table.specs.Tables.{IsTable};
ghost use Rattle.nts_canonical.specs.nts_table.specs.TableLaws.{IsTable-extended};
ghost use Rattle.nts_canonical.specs.Mapping.{AnswersImage, IsAny, itself, same_state};

use crate::collecting::{Staying, collect};
use crate::leaves::Leaves;
use crate::numbering::numbered;
use nts_canonical::nts_folding::{TermFolder, TypeFoldable};
use nts_canonical::nts_table::{InferCtxt, eager_resolve_vars};
use nts_store::Fault;
use nts_terms::{Cx, Stored};

/// The value with each variable replaced by its value, through values of values, or by the first variable of its class.
pub fn resolve_value<T: TypeFoldable>(table: &InferCtxt, cx: &mut Cx, value: T) -> Result<T, Fault>
    requires table { IsTable cx.old.nodes table.now }
    requires holds { T.holds cx.old.nodes value }
    requires knows { Knows (content_of cx.old.nodes table.now.entries) (T.tree cx.old.nodes value) }
    ensures tree { IfOk result (λ r. T.tree cx.new.nodes r ≡ deeply_resolved
        (content_of cx.old.nodes table.now.entries) (T.tree cx.old.nodes value)) }
    ensures knows { IfOk result (λ r. Knows (content_of cx.new.nodes table.now.entries)
        (T.tree cx.new.nodes r)) }
    ensures holds { IfOk result (T.holds cx.new.nodes) }
    ensures grows { Grows cx.old cx.new }
    ensures memory { IsOkUnless result Fault.Memory }
{
    let mut resolver = Resolver { table };
    let resolved = value.fold_with(cx, &mut resolver)?;
    Ok(resolved)
}

/// The value, and its leaves in the order of first sight. 'static, the erased and the error region are none.
pub fn leaves_of_value<T: TypeFoldable>(cx: &mut Cx, value: T) -> Result<(T, Leaves), Fault>
    requires holds { T.holds cx.old.nodes value }
    ensures tree { IfOk result (λ r. T.tree cx.new.nodes r.0 ≡ T.tree cx.old.nodes value) }
    ensures leaves { IfOk result (λ r. r.1 ≡ seen is_fixed [] (T.tree cx.old.nodes value)) }
    ensures holds { IfOk result (λ r. T.holds cx.new.nodes r.0) }
    ensures grows { Grows cx.old cx.new }
    ensures memory { IsOkUnless result Fault.Memory }
{
    let mut reader = Reader {
        leaves: Leaves::new(cx.alloc),
    };
    let value = value.fold_with(cx, &mut reader)?;
    Ok((value, reader.leaves))
}

/// The value with positions in place of its leaves, which are among these.
pub fn position_value<T: TypeFoldable>(cx: &mut Cx, leaves: &Leaves, value: T) -> Result<T, Fault>
    requires holds { T.holds cx.old.nodes value }
    ensures tree { IfOk result (λ r. T.tree cx.new.nodes r ≡ positioned leaves.now
        (T.tree cx.old.nodes value)) }
    ensures holds { IfOk result (T.holds cx.new.nodes) }
    ensures grows { Grows cx.old cx.new }
    ensures memory { IsOkUnless result Fault.Memory }
{
    let mut positioner = Positioner { leaves };
    let positioned = value.fold_with(cx, &mut positioner)?;
    Ok(positioned)
}

/// Replaces terms by what the table knows of them.
#[derive(Drop)]
struct Resolver<'a> {
    table: &'a InferCtxt,
}

impl TermFolder for Resolver<'_> {
    type Error = Fault;

    ghost Meaning = { Content };

    ghost meaning = { λ ts s. content_of ts s.table.now.entries };

    ghost ready = { λ ts s. IsTable ts s.table.now };

    ghost answers = { AnswersImage Knows deeply_resolved same_state };

    ghost fails = { λ s o e. e ≡ Memory };

    ghost keeps = { λ s t. t ≡ s };

    ghost keeps_refl = { λ s. refl };

    ghost keeps_trans = { λ s t u a b. b ∙ a };

    ghost ready_kept = { λ a b s h e. IsTable-extended e h };

    ghost memory_fails = { λ m e h. h };

    ghost meaning_kept = { λ a b s h e. content_of-extended e h.now };

    fn fold_term<T: Stored>(&mut self, cx: &mut Cx, t: T) -> Result<Option<T>, Fault> {
        if !self.table.knows(cx, t)? {
            return Ok(None);
        }
        let resolved = eager_resolve_vars(self.table, cx, t)?;
        Ok(Some(resolved))
    }
}

/// Sees the leaves of terms, and leaves the terms as they are.
#[derive(Drop)]
struct Reader {
    leaves: Leaves,
}

impl TermFolder for Reader {
    type Error = Fault;

    ghost Meaning = { List Leaf };

    ghost meaning = { λ ts s. s.leaves };

    ghost ready = { λ ts s. Unit {0} };

    ghost answers = { AnswersImage IsAny itself (seen is_fixed) };

    ghost fails = { λ s o e. e ≡ Memory };

    ghost keeps = { λ s t. Unit {0} };

    ghost keeps_refl = { λ s. tt };

    ghost keeps_trans = { λ s t u a b. tt };

    ghost ready_kept = { λ a b s h e. tt };

    ghost memory_fails = { λ m e h. h };

    ghost meaning_kept = { λ a b s h e. refl };

    fn fold_term<T: Stored>(&mut self, cx: &mut Cx, t: T) -> Result<Option<T>, Fault> {
        collect(
            cx.alloc,
            &cx.nodes,
            Staying::FixedRegions,
            &mut self.leaves,
            t.node(),
        )?;
        Ok(Some(t))
    }
}

/// Puts positions in place of leaves.
#[derive(Drop)]
struct Positioner<'a> {
    leaves: &'a Leaves,
}

impl TermFolder for Positioner<'_> {
    type Error = Fault;

    ghost Meaning = { List Leaf };

    ghost meaning = { λ ts s. s.leaves.now };

    ghost ready = { λ ts s. Unit {0} };

    ghost answers = { AnswersImage IsAny positioned same_state };

    ghost fails = { λ s o e. e ≡ Memory };

    ghost keeps = { λ s t. t ≡ s };

    ghost keeps_refl = { λ s. refl };

    ghost keeps_trans = { λ s t u a b. b ∙ a };

    ghost ready_kept = { λ a b s h e. tt };

    ghost memory_fails = { λ m e h. h };

    ghost meaning_kept = { λ a b s h e. refl };

    fn fold_term<T: Stored>(&mut self, cx: &mut Cx, t: T) -> Result<Option<T>, Fault> {
        let placed = numbered(
            cx.alloc,
            &mut cx.nodes,
            Staying::FixedRegions,
            self.leaves,
            t,
        )?;
        Ok(Some(placed))
    }
}
