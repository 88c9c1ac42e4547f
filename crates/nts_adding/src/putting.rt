//! A folder that puts variables in the places of aliases.
ghost use Rattle.std.specs.Prelude.{◌≡◌, true, false, IfOk, IfSome, OnErr, IsOkUnless, List, [], option_map};
ghost use Rattle.nts_model.specs.Terms.Trees.{kind_of, is_alias};
ghost use Rattle.nts_model.specs.Derivations.Related.{IsAlias};
ghost use Rattle.nts_model.specs.Tables.Resolving.{Knows};
ghost use Rattle.nts_store.specs.Growth.{tree_at, IsIn};
ghost use Rattle.nts_terms.specs.Handles.{HoldsArg, HoldsPredicate};
ghost use Rattle.nts_terms.specs.Rest.{Grows};
ghost use Rattle.nts_unify.specs.Reading.{content_of};
ghost use Rattle.nts_table.specs.Tables.{IsTable};
ghost use Rattle.nts_table.specs.Frames.{ChangesEntries};
ghost use Rattle.nts_folding.specs.Folding.{StaysHere, StaysMade};
ghost use Rattle.nts_adding.specs.Putting.{Standing, Puts, PutsVariables};
ghost use Rattle.nts_adding.specs.Walking.{IsFolderReady, standing_of, IsFolderReady-kept, standing_of-kept, FailsForWant, FolderKeeps, FolderKeeps-refl, FolderKeeps-trans};

use nts_folding::{TypeFoldable, TypeFolder};
use nts_model::{ConstHead, Label, TyHead, Variance};
use nts_store::{Fault, NodeId};
use nts_table::InferCtxt;
use nts_terms::{Const, Cx, GenericArg, Predicate, Region, Span, Term, Ty, TypingMode};
use nts_variance::Relating;
use std::alloc::Global;
use std::mem;

/// Puts a new variable in the place of each outermost alias from which no bound variable escapes.
#[derive(Drop)]
pub(crate) struct AliasFolder {
    /// The table of the fold that is under way, and an empty one at other times.
    table: InferCtxt,
    /// Each alias with the variable that was put in its place, in order: the two are to be equal.
    puts: Vec<Relating>,
}

/// Whether the term is an alias from which no bound variable escapes.
pub fn is_closed_alias(cx: &Cx, t: GenericArg) -> bool
    requires { HoldsArg cx.now.nodes t }
    ensures yes { result ≡ true → IsAlias (tree_at cx.now.nodes t.node) }
    ensures no { result ≡ false → IsAlias (tree_at cx.now.nodes t.node) → ⊥ }
{
    // The nodes of a store are formed.
    cx.terms_are_formed();
    is_alias(cx.nodes.label(t.node)) && !cx.has_escaping_bound_vars(t)
}

fn is_alias(label: Label) -> bool
    ensures { result ≡ is_alias label }
{
    matches!(
        label,
        Label::Ty(TyHead::Alias(_)) | Label::Const(ConstHead::Unevaluated(_))
    )
}

impl AliasFolder {
    fn new(alloc: Global) -> AliasFolder
        ensures { result.puts.items ≡ [] }
    {
        AliasFolder {
            table: InferCtxt::new(alloc, TypingMode::PostAnalysis),
            puts: Vec::new(alloc),
        }
    }

    /// What stands for a term, or nothing where its parts are to be folded.
    fn put(&mut self, cx: &mut Cx, t: GenericArg) -> Result<Option<GenericArg>, Fault>
        requires holds { HoldsArg cx.old.nodes t }
        requires ready { IsFolderReady cx.old.nodes self.old }
        ensures grows { Grows cx.old cx.new }
        ensures ready { IsFolderReady cx.new.nodes self.new }
        ensures keeps { FolderKeeps self.old self.new }
        ensures within { IfOk result (λ o. IfSome o (λ r. IsIn cx.new.nodes r.node)) }
        ensures kind { IfOk result (λ o. IfSome o (λ r. kind_of (tree_at cx.new.nodes r.node) ≡
            kind_of (tree_at cx.old.nodes t.node))) }
        ensures puts { IfOk result (λ o. Puts (standing_of cx.old.nodes self.old)
            (tree_at cx.old.nodes t.node) (option_map (λ r. tree_at cx.new.nodes r.node) o)
            (standing_of cx.new.nodes self.new)) }
        ensures memory { IsOkUnless result Fault.Memory }
    {
        if !cx.nodes.flags(t.node).has_alias {
            return Ok(Some(t));
        }
        if !is_closed_alias(cx, t) {
            return Ok(None);
        }
        let variable = self.table.fresh_var_for_kind_with_span(cx, t, Span(0))?;
        self.puts.push(Relating {
            variance: Variance::Invariant,
            left: t.node,
            right: variable.node,
        })?;
        Ok(Some(variable))
    }
}

impl TypeFolder for AliasFolder {
    type Error = Fault;

    ghost Meaning = { Standing };

    ghost meaning = { standing_of };

    ghost ready = { IsFolderReady };

    ghost answers = { Puts };

    ghost enters = { StaysHere };

    ghost leaves = { StaysHere };

    ghost rebuilds = { StaysMade };

    ghost fails = { FailsForWant };

    ghost keeps = { FolderKeeps };

    ghost keeps_refl = { FolderKeeps-refl };

    ghost keeps_trans = { FolderKeeps-trans };

    ghost ready_kept = { IsFolderReady-kept };

    ghost memory_fails = { λ m e h. h };

    ghost meaning_kept = { standing_of-kept };

    fn fold_ty(&mut self, cx: &mut Cx, t: Ty) -> Result<Option<Ty>, Fault> {
        let found = self.put(cx, t.into())?;
        Ok(found.map(|r| Ty { node: r.node }))
    }

    fn fold_region(&mut self, cx: &mut Cx, t: Region) -> Result<Option<Region>, Fault> {
        let found = self.put(cx, t.into())?;
        Ok(found.map(|r| Region { node: r.node }))
    }

    fn fold_const(&mut self, cx: &mut Cx, t: Const) -> Result<Option<Const>, Fault> {
        let found = self.put(cx, t.into())?;
        Ok(found.map(|r| Const { node: r.node }))
    }

    fn fold_predicate(&mut self, cx: &mut Cx, t: Predicate) -> Result<Option<Predicate>, Fault> {
        if cx.nodes.flags(t.node).has_alias {
            return Ok(None);
        }
        Ok(Some(t))
    }

    fn enter_binder(&mut self) -> Result<(), Fault> {
        Ok(())
    }

    fn leave_binder(&mut self) {}

    fn rebuilt(&mut self, cx: &mut Cx, t: Term) -> Result<Term, Fault> {
        Ok(t)
    }
}

/// The predicate with a new variable in the place of each outermost alias from which no bound variable escapes, and each of these
/// aliases with its variable, in order. After an error some variables may stay.
fn fold_aliases(
    table: &mut InferCtxt,
    cx: &mut Cx,
    predicate: Predicate,
) -> Result<(Predicate, Vec<Relating>), Fault>
    requires table { IsTable cx.old.nodes table.old }
    requires holds { HoldsPredicate cx.old.nodes predicate }
    requires knows { Knows (content_of cx.old.nodes table.old.entries)
        (tree_at cx.old.nodes predicate.node) }
    ensures table { IsTable cx.new.nodes table.new }
    ensures changes { ChangesEntries table.old table.new }
    ensures grows { Grows cx.old cx.new }
    ensures holds { IfOk result (λ r. HoldsPredicate cx.new.nodes r.0) }
    ensures puts { IfOk result (λ r. PutsVariables cx.old.nodes cx.new.nodes table.old.entries
        table.new.entries predicate.node r.0.node r.1.items) }
    ensures memory { IsOkUnless result Fault.Memory }
{
    let mut folder = AliasFolder::new(cx.alloc);
    mem::swap(table, &mut folder.table);
    let folded = predicate.fold_with(cx, &mut folder);
    mem::swap(table, &mut folder.table);
    let AliasFolder { puts, .. } = folder;
    Ok((folded?, puts))
}

/// The same; after an error the table is as before.
pub(crate) fn put_variables(
    table: &mut InferCtxt,
    cx: &mut Cx,
    predicate: Predicate,
) -> Result<(Predicate, Vec<Relating>), Fault>
    requires table { IsTable cx.old.nodes table.old }
    requires holds { HoldsPredicate cx.old.nodes predicate }
    requires knows { Knows (content_of cx.old.nodes table.old.entries)
        (tree_at cx.old.nodes predicate.node) }
    ensures table { IsTable cx.new.nodes table.new }
    ensures changes { ChangesEntries table.old table.new }
    ensures grows { Grows cx.old cx.new }
    ensures holds { IfOk result (λ r. HoldsPredicate cx.new.nodes r.0) }
    ensures puts { IfOk result (λ r. PutsVariables cx.old.nodes cx.new.nodes table.old.entries
        table.new.entries predicate.node r.0.node r.1.items) }
    ensures err { OnErr result (table.new ≡ table.old) }
    ensures memory { IsOkUnless result Fault.Memory }
{
    let snapshot = table.start_snapshot()?;
    let put = fold_aliases(table, cx, predicate);
    table.commit_if_ok(snapshot, put)
}
