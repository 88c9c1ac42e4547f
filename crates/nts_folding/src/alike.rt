//! Folders that take each sort alike, and do not mind binders.
ghost use Rattle.std.specs.Prelude.{◌≡◌, List, Option, IfOk, IfErr, IfSome, Some, None, option_map};
ghost use Rattle.std.specs.Allocator.{alloc_error};
ghost use Rattle.nts_model.specs.Terms.Trees.{Tree};
ghost use Rattle.nts_terms.specs.nts_store.specs.Growth.{tree_at, Extends};
ghost use Rattle.nts_terms.specs.Handles.{Holds};
ghost use Rattle.nts_terms.specs.Rest.{Grows};
ghost use Rattle.nts_folding.specs.Folding.{StaysHere, StaysMade};

use crate::fold::TypeFolder;
use nts_terms::{Const, Cx, Predicate, Region, Stored, Term, Ty};
use std::alloc::AllocError;

/// A way to fold terms of each sort alike, whatever binders stand around them. What was made again stays.
/// Its members are those of a `TypeFolder`, which it is.
pub trait TermFolder {
    type Error: From<AllocError> + Drop;

    ghost Meaning: { Type 0 };

    ghost meaning: { List Tree → Self → Meaning };

    ghost ready: { List Tree → Self → Type 0 };

    ghost answers: { Meaning → Tree → Option Tree → Meaning → Type 0 };

    ghost fails: { Meaning → Option Tree → Self.Error → Type 0 };

    ghost keeps: { Self → Self → Type 0 };

    /// What stands for a term, or `None` to fold its children.
    fn fold_term<T: Stored>(&mut self, cx: &mut Cx, t: T) -> Result<Option<T>, Self::Error>
        requires holds { Holds T.place cx.old.nodes (T.id t) }
        requires ready { ready cx.old.nodes self.old }
        ensures grows { Grows cx.old cx.new }
        ensures ready { ready cx.new.nodes self.new }
        ensures keeps { keeps self.old self.new }
        ensures holds { IfOk result (λ o. IfSome o (λ r. Holds T.place cx.new.nodes (T.id r))) }
        ensures answers { IfOk result (λ o. answers (meaning cx.old.nodes self.old)
            (tree_at cx.old.nodes (T.id t)) (option_map (λ r. tree_at cx.new.nodes (T.id r)) o)
            (meaning cx.new.nodes self.new)) }
        ensures err { IfErr result (fails (meaning cx.old.nodes self.old)
            (Some (tree_at cx.old.nodes (T.id t)))) };

    ghost keeps_refl: { (s : Self) → keeps s s };

    ghost keeps_trans: { (s t u : Self) → keeps s t → keeps t u → keeps s u };

    ghost ready_kept: { (a b : List Tree) (s : Self) → ready a s → Extends a b → ready b s };

    ghost memory_fails: { (m : Meaning) (e : Self.Error) → Self.Error.from_gives alloc_error e → fails m None e };

    ghost meaning_kept: { (a b : List Tree) (s : Self) → ready a s → Extends a b → meaning b s ≡ meaning a s };
}

impl<F: TermFolder> TypeFolder for F {
    type Error = F::Error;

    ghost Meaning = { F.TermFolder.Meaning };

    ghost meaning = { F.TermFolder.meaning };

    ghost ready = { F.TermFolder.ready };

    ghost answers = { F.TermFolder.answers };

    ghost enters = { StaysHere };

    ghost leaves = { StaysHere };

    ghost rebuilds = { StaysMade };

    ghost fails = { F.TermFolder.fails };

    ghost keeps = { F.TermFolder.keeps };

    ghost keeps_refl = { F.TermFolder.keeps_refl };

    ghost keeps_trans = { F.TermFolder.keeps_trans };

    ghost ready_kept = { F.TermFolder.ready_kept };

    ghost memory_fails = { F.TermFolder.memory_fails };

    ghost meaning_kept = { F.TermFolder.meaning_kept };

    fn fold_ty(&mut self, cx: &mut Cx, t: Ty) -> Result<Option<Ty>, F::Error> {
        self.fold_term(cx, t)
    }

    fn fold_region(&mut self, cx: &mut Cx, t: Region) -> Result<Option<Region>, F::Error> {
        self.fold_term(cx, t)
    }

    fn fold_const(&mut self, cx: &mut Cx, t: Const) -> Result<Option<Const>, F::Error> {
        self.fold_term(cx, t)
    }

    fn fold_predicate(&mut self, cx: &mut Cx, t: Predicate) -> Result<Option<Predicate>, F::Error> {
        self.fold_term(cx, t)
    }

    fn enter_binder(&mut self) -> Result<(), F::Error> {
        Ok(())
    }

    fn leave_binder(&mut self) {}

    fn rebuilt(&mut self, _cx: &mut Cx, t: Term) -> Result<Term, F::Error> {
        Ok(t)
    }
}
