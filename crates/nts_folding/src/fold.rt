//! One walk over terms, for all folders.
ghost use Rattle.std.specs.Prelude.{◌≡◌, ◌++◌, ◌∷◌, [], List, Option, IfOk, IfErr, IfSome, OnOk, None, Some, option_map};
ghost use Rattle.std.specs.Allocator.{alloc_error};
ghost use Rattle.nts_model.specs.Terms.Trees.{Tree, node, children, kind_of, kind_of_label, shape, Meets, binders};
ghost use Rattle.nts_terms.specs.nts_store.specs.Growth.{tree_at, trees_at, IsIn, AllIn, Extends};
ghost use Rattle.nts_terms.specs.Handles.{HoldsTy, HoldsRegion, HoldsConst, HoldsTerm, HoldsPredicate};
ghost use Rattle.nts_folding.specs.Folding.{MayAnswer, AtBinder, Starts, HandsOver, ComesBack, Walk, Stops, CannotMake};
ghost use Rattle.nts_terms.specs.Rest.{Grows};

use nts_model::{Label, ListHead, Sort};
use nts_replacing::{Task, push_node};
use nts_terms::nts_store::{NodeId, binders_of, sort_of};
use nts_terms::{Const, Cx, Predicate, Region, Term, Ty};
use std::alloc::AllocError;

/// A way to fold terms. It may have a state, which it changes on the way.
///
/// A walk asks the hook of a type, region, const or predicate what stands for it. Where the hook
/// answers `None`, the walk folds the children from left to right, and makes the node again. No hook
/// folds children itself.
pub trait TypeFolder {
    /// Why a walk ends before its end.
    type Error: From<AllocError> + Drop;

    /// The folder's states, whatever store its terms are in.
    ghost Meaning: { Type 0 };

    ghost meaning: { List Tree → Self → Meaning };

    /// The folder may be used with a store of these trees.
    ghost ready: { List Tree → Self → Type 0 };

    /// What stands for a node, or that its children are folded.
    ghost answers: { Meaning → Tree → Option Tree → Meaning → Type 0 };

    ghost enters: { Meaning → Meaning → Type 0 };

    ghost leaves: { Meaning → Meaning → Type 0 };

    /// What stands for a type or const that was made again.
    ghost rebuilds: { Meaning → Tree → Tree → Meaning → Type 0 };

    /// At which errors a walk may end where a hook is handed this term, or none at a binder.
    ghost fails: { Meaning → Option Tree → Self.Error → Type 0 };

    /// What a folder keeps of itself, whether a hook answers or fails.
    ghost keeps: { Self → Self → Type 0 };

    /// What stands for a type, or `None` to fold its children.
    fn fold_ty(&mut self, cx: &mut Cx, t: Ty) -> Result<Option<Ty>, Self::Error>
        requires holds { HoldsTy cx.old.nodes t }
        requires ready { ready cx.old.nodes self.old }
        ensures grows { Grows cx.old cx.new }
        ensures ready { ready cx.new.nodes self.new }
        ensures keeps { keeps self.old self.new }
        ensures holds { IfOk result (λ o. IfSome o (HoldsTy cx.new.nodes)) }
        ensures answers { IfOk result (λ o. answers (meaning cx.old.nodes self.old)
            (tree_at cx.old.nodes t.node) (option_map (λ r. tree_at cx.new.nodes r.node) o)
            (meaning cx.new.nodes self.new)) }
        ensures err { IfErr result (fails (meaning cx.old.nodes self.old)
            (Some (tree_at cx.old.nodes t.node))) };

    /// What stands for a region, or `None` to leave it.
    fn fold_region(&mut self, cx: &mut Cx, t: Region) -> Result<Option<Region>, Self::Error>
        requires holds { HoldsRegion cx.old.nodes t }
        requires ready { ready cx.old.nodes self.old }
        ensures grows { Grows cx.old cx.new }
        ensures ready { ready cx.new.nodes self.new }
        ensures keeps { keeps self.old self.new }
        ensures holds { IfOk result (λ o. IfSome o (HoldsRegion cx.new.nodes)) }
        ensures answers { IfOk result (λ o. answers (meaning cx.old.nodes self.old)
            (tree_at cx.old.nodes t.node) (option_map (λ r. tree_at cx.new.nodes r.node) o)
            (meaning cx.new.nodes self.new)) }
        ensures err { IfErr result (fails (meaning cx.old.nodes self.old)
            (Some (tree_at cx.old.nodes t.node))) };

    /// What stands for a const, or `None` to fold its children.
    fn fold_const(&mut self, cx: &mut Cx, t: Const) -> Result<Option<Const>, Self::Error>
        requires holds { HoldsConst cx.old.nodes t }
        requires ready { ready cx.old.nodes self.old }
        ensures grows { Grows cx.old cx.new }
        ensures ready { ready cx.new.nodes self.new }
        ensures keeps { keeps self.old self.new }
        ensures holds { IfOk result (λ o. IfSome o (HoldsConst cx.new.nodes)) }
        ensures answers { IfOk result (λ o. answers (meaning cx.old.nodes self.old)
            (tree_at cx.old.nodes t.node) (option_map (λ r. tree_at cx.new.nodes r.node) o)
            (meaning cx.new.nodes self.new)) }
        ensures err { IfErr result (fails (meaning cx.old.nodes self.old)
            (Some (tree_at cx.old.nodes t.node))) };

    /// What stands for a predicate, or `None` to fold its children.
    fn fold_predicate(
        &mut self,
        cx: &mut Cx,
        t: Predicate,
    ) -> Result<Option<Predicate>, Self::Error>
        requires holds { HoldsPredicate cx.old.nodes t }
        requires ready { ready cx.old.nodes self.old }
        ensures grows { Grows cx.old cx.new }
        ensures ready { ready cx.new.nodes self.new }
        ensures keeps { keeps self.old self.new }
        ensures holds { IfOk result (λ o. IfSome o (HoldsPredicate cx.new.nodes)) }
        ensures answers { IfOk result (λ o. answers (meaning cx.old.nodes self.old)
            (tree_at cx.old.nodes t.node) (option_map (λ r. tree_at cx.new.nodes r.node) o)
            (meaning cx.new.nodes self.new)) }
        ensures err { IfErr result (fails (meaning cx.old.nodes self.old)
            (Some (tree_at cx.old.nodes t.node))) };

    /// Called before the children of a binder are folded.
    fn enter_binder(&mut self) -> Result<(), Self::Error>
        ensures ready { (ts : List Tree) → ready ts self.old → ready ts self.new }
        ensures keeps { keeps self.old self.new }
        ensures enters { OnOk result ((ts : List Tree) → ready ts self.old →
            enters (meaning ts self.old) (meaning ts self.new)) }
        ensures err { (ts : List Tree) → ready ts self.old →
            IfErr result (fails (meaning ts self.old) None) };

    /// Called after they were folded.
    fn leave_binder(&mut self)
        ensures ready { (ts : List Tree) → ready ts self.old → ready ts self.new }
        ensures keeps { keeps self.old self.new }
        ensures leaves { (ts : List Tree) → ready ts self.old →
            leaves (meaning ts self.old) (meaning ts self.new) };

    /// What stands for a type or const that was made again, after its children were folded.
    fn rebuilt(&mut self, cx: &mut Cx, t: Term) -> Result<Term, Self::Error>
        requires holds { HoldsTerm cx.old.nodes t }
        requires ready { ready cx.old.nodes self.old }
        ensures grows { Grows cx.old cx.new }
        ensures ready { ready cx.new.nodes self.new }
        ensures keeps { keeps self.old self.new }
        ensures within { IfOk result (λ r. IsIn cx.new.nodes r.node) }
        ensures kind { IfOk result (λ r. kind_of (tree_at cx.new.nodes r.node) ≡ kind_of
            (tree_at cx.old.nodes t.node)) }
        ensures rebuilds { IfOk result (λ r. rebuilds (meaning cx.old.nodes self.old)
            (tree_at cx.old.nodes t.node) (tree_at cx.new.nodes r.node)
            (meaning cx.new.nodes self.new)) }
        ensures err { IfErr result (fails (meaning cx.old.nodes self.old)
            (Some (tree_at cx.old.nodes t.node))) };

    ghost keeps_refl: { (s : Self) → keeps s s };

    ghost keeps_trans: { (s t u : Self) → keeps s t → keeps t u → keeps s u };

    ghost ready_kept: { (a b : List Tree) (s : Self) → ready a s → Extends a b → ready b s };

    ghost memory_fails: { (m : Meaning) (e : Self.Error) → Self.Error.from_gives alloc_error e → fails m None e };

    ghost meaning_kept: { (a b : List Tree) (s : Self) → ready a s → Extends a b → meaning b s ≡ meaning a s };
}

/// The term that the folder makes of a term.
pub fn fold_node<F: TypeFolder>(cx: &mut Cx, folder: &mut F, t: NodeId) -> Result<NodeId, F::Error>
    requires within { IsIn cx.old.nodes t }
    requires ready { F.ready cx.old.nodes folder.old }
    ensures grows { Grows cx.old cx.new }
    ensures ready { F.ready cx.new.nodes folder.new }
    ensures keeps { F.keeps folder.old folder.new }
    ensures within { IfOk result (IsIn cx.new.nodes) }
    ensures walk { IfOk result (λ r. Walk F.answers F.enters F.leaves F.rebuilds
        (F.meaning cx.old.nodes folder.old) (tree_at cx.old.nodes t) (tree_at cx.new.nodes r)
        (F.meaning cx.new.nodes folder.new)) }
    ensures err { IfErr result (Stops F.answers F.enters F.leaves F.rebuilds F.fails
        (F.meaning cx.old.nodes folder.old) (tree_at cx.old.nodes t)) }
{
    let mut tasks = Vec::new(cx.alloc);
    let mut found = Vec::new(cx.alloc);
    walk(cx, folder, t, &mut tasks, &mut found)
}

/// Folds a term, with nothing to do and nothing found yet.
fn walk<F: TypeFolder>(
    cx: &mut Cx,
    folder: &mut F,
    t: NodeId,
    tasks: &mut Vec<Task>,
    found: &mut Vec<NodeId>,
) -> Result<NodeId, F::Error>
    requires within { IsIn cx.old.nodes t }
    requires ready { F.ready cx.old.nodes folder.old }
    requires idle { tasks.old.items ≡ [] }
    requires empty { found.old.items ≡ [] }
    ensures grows { Grows cx.old cx.new }
    ensures ready { F.ready cx.new.nodes folder.new }
    ensures keeps { F.keeps folder.old folder.new }
    ensures within { IfOk result (IsIn cx.new.nodes) }
    ensures walk { IfOk result (λ r. Walk F.answers F.enters F.leaves F.rebuilds
        (F.meaning cx.old.nodes folder.old) (tree_at cx.old.nodes t) (tree_at cx.new.nodes r)
        (F.meaning cx.new.nodes folder.new)) }
    ensures err { IfErr result (Stops F.answers F.enters F.leaves F.rebuilds F.fails
        (F.meaning cx.old.nodes folder.old) (tree_at cx.old.nodes t)) }
{
    push(tasks, Task::Enter(t))?;
    while let Some(task) = tasks.pop() {
        match task {
            Task::Enter(term) => {
                match start(cx, folder, term)? {
                    Some(answer) => push(found, answer)?,
                    None => push_node(&cx.nodes, term, tasks)?,
                }
            }
            Task::Build(_, label, count) => {
                let first = found.len().saturating_sub(count);
                let made = finish(cx, folder, label, &found[first..])?;
                found.truncate(first);
                push(found, made)?;
            }
        }
    }
    Ok(found[0])
}

/// The list with one more at its end.
pub(crate) fn push<T: Drop>(list: &mut Vec<T>, x: T) -> Result<(), AllocError>
    ensures { OnOk result (list.new.items ≡ list.old.items ++ x ∷ []) }
{
    list.push(x)?;
    Ok(())
}

/// What stands for a term, or `None` where its children are to be folded next.
fn start<F: TypeFolder>(cx: &mut Cx, folder: &mut F, t: NodeId) -> Result<Option<NodeId>, F::Error>
    requires within { IsIn cx.old.nodes t }
    requires ready { F.ready cx.old.nodes folder.old }
    ensures grows { Grows cx.old cx.new }
    ensures ready { F.ready cx.new.nodes folder.new }
    ensures keeps { F.keeps folder.old folder.new }
    ensures within { IfOk result (λ o. IfSome o (IsIn cx.new.nodes)) }
    ensures starts { IfOk result (λ o. Starts F.answers F.enters (F.meaning cx.old.nodes folder.old)
        (tree_at cx.old.nodes t) (option_map (tree_at cx.new.nodes) o)
        (F.meaning cx.new.nodes folder.new)) }
    ensures err { IfErr result (Stops F.answers F.enters F.leaves F.rebuilds F.fails
        (F.meaning cx.old.nodes folder.old) (tree_at cx.old.nodes t)) }
{
    let label = cx.nodes.label(t);
    let answer = ask(cx, folder, t, label)?;
    if answer.is_none() {
        enter(folder, label)?;
    }
    Ok(answer)
}

/// What the hook of a term's sort answers.
fn ask<F: TypeFolder>(
    cx: &mut Cx,
    folder: &mut F,
    t: NodeId,
    label: Label,
) -> Result<Option<NodeId>, F::Error>
    requires within { IsIn cx.old.nodes t }
    requires label { tree_at cx.old.nodes t ≡ node label (children (tree_at cx.old.nodes t)) }
    requires ready { F.ready cx.old.nodes folder.old }
    ensures grows { Grows cx.old cx.new }
    ensures ready { F.ready cx.new.nodes folder.new }
    ensures keeps { F.keeps folder.old folder.new }
    ensures within { IfOk result (λ o. IfSome o (IsIn cx.new.nodes)) }
    ensures kind { IfOk result (λ o. IfSome o (λ r. kind_of (tree_at cx.new.nodes r) ≡ Some
        (kind_of_label label))) }
    ensures asks { IfOk result (λ o. MayAnswer F.answers (kind_of_label label)
        (F.meaning cx.old.nodes folder.old) (tree_at cx.old.nodes t)
        (option_map (tree_at cx.new.nodes) o) (F.meaning cx.new.nodes folder.new)) }
    ensures err { IfErr result (F.fails (F.meaning cx.old.nodes folder.old)
        (Some (tree_at cx.old.nodes t))) }
{
    match sort_of(label) {
        Some(Sort::Ty) => Ok(folder.fold_ty(cx, Ty { node: t })?.map(|r| r.node)),
        Some(Sort::Region) => Ok(folder.fold_region(cx, Region { node: t })?.map(|r| r.node)),
        Some(Sort::Const) => Ok(folder.fold_const(cx, Const { node: t })?.map(|r| r.node)),
        None => {
            if label == Label::List(ListHead::Binder) {
                return Ok(
                    folder
                        .fold_predicate(cx, Predicate { node: t })?
                        .map(|r| r.node),
                );
            }
            Ok(None)
        }
    }
}

fn enter<F: TypeFolder>(folder: &mut F, label: Label) -> Result<(), F::Error>
    ensures ready { (ts : List Tree) → F.ready ts folder.old → F.ready ts folder.new }
    ensures keeps { F.keeps folder.old folder.new }
    ensures enters { OnOk result ((ts : List Tree) → F.ready ts folder.old →
        AtBinder F.enters (binders label) (F.meaning ts folder.old) (F.meaning ts folder.new)) }
    ensures err { (ts : List Tree) → F.ready ts folder.old →
        IfErr result (F.fails (F.meaning ts folder.old) None) }
{
    if binders_of(label) > 0 {
        return folder.enter_binder();
    }
    Ok(())
}

fn leave<F: TypeFolder>(folder: &mut F, label: Label)
    ensures ready { (ts : List Tree) → F.ready ts folder.old → F.ready ts folder.new }
    ensures keeps { F.keeps folder.old folder.new }
    ensures leaves { (ts : List Tree) → F.ready ts folder.old →
        AtBinder F.leaves (binders label) (F.meaning ts folder.old) (F.meaning ts folder.new) }
{
    if binders_of(label) > 0 {
        folder.leave_binder();
    }
}

/// What stands for the node with these children, which were folded.
fn finish<F: TypeFolder>(
    cx: &mut Cx,
    folder: &mut F,
    label: Label,
    children: &[NodeId],
) -> Result<NodeId, F::Error>
    requires within { AllIn cx.old.nodes children.now }
    requires formed { Meets (shape label) (trees_at cx.old.nodes children.now) }
    requires ready { F.ready cx.old.nodes folder.old }
    ensures grows { Grows cx.old cx.new }
    ensures ready { F.ready cx.new.nodes folder.new }
    ensures keeps { F.keeps folder.old folder.new }
    ensures within { IfOk result (IsIn cx.new.nodes) }
    ensures comes_back { IfOk result (λ r. ComesBack F.leaves F.rebuilds label
        (F.meaning cx.old.nodes folder.old) (trees_at cx.old.nodes children.now)
        (tree_at cx.new.nodes r) (F.meaning cx.new.nodes folder.new)) }
    ensures err { IfErr result (CannotMake F.leaves F.fails label
        (F.meaning cx.old.nodes folder.old) (trees_at cx.old.nodes children.now)) }
{
    leave(folder, label);
    let node = cx.nodes.make(label, children)?;
    hand_over(cx, folder, label, node)
}

/// What stands for a node that was made again.
fn hand_over<F: TypeFolder>(
    cx: &mut Cx,
    folder: &mut F,
    label: Label,
    made: NodeId,
) -> Result<NodeId, F::Error>
    requires within { IsIn cx.old.nodes made }
    requires label { tree_at cx.old.nodes made ≡ node label (children (tree_at cx.old.nodes made)) }
    requires ready { F.ready cx.old.nodes folder.old }
    ensures grows { Grows cx.old cx.new }
    ensures ready { F.ready cx.new.nodes folder.new }
    ensures keeps { F.keeps folder.old folder.new }
    ensures within { IfOk result (IsIn cx.new.nodes) }
    ensures kind { IfOk result (λ r. kind_of (tree_at cx.new.nodes r) ≡ Some
        (kind_of_label label)) }
    ensures hands { IfOk result (λ r. HandsOver F.rebuilds (kind_of_label label)
        (F.meaning cx.old.nodes folder.old) (tree_at cx.old.nodes made) (tree_at cx.new.nodes r)
        (F.meaning cx.new.nodes folder.new)) }
    ensures err { IfErr result (F.fails (F.meaning cx.old.nodes folder.old)
        (Some (tree_at cx.old.nodes made))) }
{
    match sort_of(label) {
        Some(Sort::Ty | Sort::Const) => Ok(folder.rebuilt(cx, Term { node: made })?.node),
        _ => Ok(made),
    }
}
