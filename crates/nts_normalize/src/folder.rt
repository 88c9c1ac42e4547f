//! The folder, which asks its closure for each alias.
ghost use Rattle.std.specs.Prelude.{◌≡◌, ◌⊎◌, ◌↔◌, ◌++◌, Some, true, false, List, All, length, IfOk, IfErr, OnErr, OnOk, IfSome, IsTrue, IsOkUnless, option_map};
ghost use Rattle.nts_model.specs.Terms.Trees.{kind_of, any_label, is_alias, IsClosed, IsClosedUnder};
ghost use Rattle.nts_model.specs.Tables.Resolving.{Knows, deeply_resolved};
ghost use Rattle.nts_store.specs.Growth.{tree_at, IsIn};
ghost use Rattle.nts_terms.specs.Handles.{HoldsTerm, HoldsGoal, HoldsResult};
ghost use Rattle.nts_terms.specs.Kinds.{tree_of_alias};
ghost use Rattle.nts_terms.specs.Rest.{Grows};
ghost use Rattle.nts_unify.specs.Reading.{content_of};
ghost use Rattle.nts_table.specs.Tables.{IsTable};
ghost use Rattle.nts_table.specs.Frames.{ChangesEntries};
ghost use Rattle.nts_terms.specs.declared.handles.Goal.{Goal};
ghost use Rattle.nts_placeholder.specs.Closing.{mapped, closed_by};
ghost use Rattle.nts_placeholder.specs.Escaping.{escapes};
ghost use Rattle.nts_placeholder.specs.Universes.{RunsOut};
ghost use Rattle.nts_normalize.specs.Calling.{IsNormalizer, IsAliasTerm, IsAnswerIn, tree_of_goal};
ghost use Rattle.nts_normalize.specs.Normalizing.{Standing, Skips, Enters, LeavesStanding, Rebuilds, Asks, OpensAlias, IsLeftOut, IsAnsweredUnder, IsReplacedUnder, FailsToNormalize, FailsToAsk, FailsUnder, IsNormalized, StopsNormalizing, is_alias_tree, collected};
ghost use Rattle.nts_normalize.specs.Walking.{IsFolderReady, FolderKeeps, FolderGoes, standing_of, standing_with, IsFolderReady-kept, standing_of-kept, FolderKeeps-refl, FolderKeeps-trans};

use crate::aliases::{alias_of, names_variables};
use nts_folding::{TypeFoldable, TypeFolder};
use nts_placeholder::{BoundVarReplacer, PlaceholderMaps, PlaceholderReplacer};
use nts_store::{EvalError, Fault};
use nts_table::InferCtxt;
use nts_terms::{
    AliasTerm, Const, Cx, Goal, Predicate, Region, Stored, Term, Ty, TypingMode, UniverseIndex,
};
use std::alloc::{AllocError, Global};
use std::mem;

/// Puts what a closure answers of an alias in the alias's place.
///
/// The closure is handed the table, the store and an alias whose arguments were normalized before. It
/// answers a term of the alias's sort, and perhaps a goal that it left ambiguous, or an error, which ends the fold.
#[derive(Drop)]
pub struct NormalizationFolder<F> {
    /// The table of the fold that is under way, and an empty one at other times.
    table: InferCtxt,
    universes: Vec<Option<UniverseIndex>>,
    stalled_goals: Vec<Goal>,
    normalize: F,
}

impl<F> NormalizationFolder<F>
where
    F: FnMut(&mut InferCtxt, &mut Cx, AliasTerm) -> Result<(Term, Option<Goal>), EvalError> + Drop,
{
    /// A folder below binders with these universes, the innermost last, that has collected these goals.
    pub fn new(
        alloc: Global,
        universes: Vec<Option<UniverseIndex>>,
        stalled_goals: Vec<Goal>,
        normalize: F,
    ) -> Self
        ensures universes { result.universes ≡ universes }
        ensures goals { result.stalled_goals ≡ stalled_goals }
        ensures normalize { result.normalize ≡ normalize }
    {
        NormalizationFolder {
            table: InferCtxt::new(alloc, TypingMode::PostAnalysis),
            universes,
            stalled_goals,
            normalize,
        }
    }

    /// The goals that were left ambiguous, in the order in which they were met.
    pub fn stalled_goals(self) -> Vec<Goal>
        ensures { result ≡ self.stalled_goals }
    {
        let NormalizationFolder { stalled_goals, .. } = self;
        stalled_goals
    }

    /// The value with what the closure answers in place of its aliases.
    ///
    /// Arguments are normalized before their alias, and each alias makes one universe. One from which bound
    /// variables escape is opened first, and what the closure answers is closed again; it stays, and the goal is dropped,
    /// where the closure left a goal ambiguous and the answer has a variable that was made for it. After a
    /// refusal, for want of memory, at an alias for which no universe is left, or of the closure, the universes
    /// of the folder are as before; the table is not rolled back.
    pub fn fold<T: TypeFoldable>(
        &mut self,
        table: &mut InferCtxt,
        cx: &mut Cx,
        value: T,
    ) -> Result<T, EvalError>
        requires table { IsTable cx.old.nodes table.old }
        requires goals { All (HoldsGoal cx.old.nodes) self.old.stalled_goals.items }
        requires normalizer { IsNormalizer F.FnMut }
        requires holds { T.holds cx.old.nodes value }
        ensures normalized { IfOk result (λ r. IsNormalized F.FnMut
            (standing_with cx.old.nodes table.old
            self.old) (T.tree cx.old.nodes value) (T.tree cx.new.nodes r) (standing_with cx.new.nodes
            table.new self.new)) }
        ensures holds { IfOk result (T.holds cx.new.nodes) }
        ensures goals { All (HoldsGoal cx.new.nodes) self.new.stalled_goals.items }
        ensures table { IsTable cx.new.nodes table.new }
        ensures changes { ChangesEntries table.old table.new }
        ensures collects { (more : List Goal) ×
            (self.new.stalled_goals.items ≡ self.old.stalled_goals.items ++ more) }
        ensures grows { Grows cx.old cx.new }
        ensures err { IfErr result (StopsNormalizing F.FnMut (standing_with cx.old.nodes table.old
            self.old) (T.tree cx.old.nodes value)) }
        ensures universes_err { OnErr result (self.new.universes.items ≡ self.old.universes.items) }
    {
        let before = Vec::from_slice(cx.alloc, &self.universes)?;
        mem::swap(table, &mut self.table);
        let folded = value.fold_with(cx, self);
        mem::swap(table, &mut self.table);
        if folded.is_err() {
            self.universes = before;
        }
        folded
    }

    /// What stands for an alias whose arguments were normalized.
    fn replace(&mut self, cx: &mut Cx, t: Term, alias: AliasTerm) -> Result<Term, EvalError>
        requires ready { IsFolderReady F.FnMut cx.old.nodes self.old }
        requires holds { HoldsTerm cx.old.nodes t }
        requires alias { tree_at cx.old.nodes t.node ≡ tree_of_alias cx.old.nodes alias }
        requires is { is_alias_tree (tree_at cx.old.nodes t.node) ≡ true }
        requires args { IsAliasTerm cx.old.nodes alias × HoldsResult cx.old.nodes alias t }
        ensures goes { FolderGoes F.FnMut cx.old cx.new self.old self.new }
        ensures within { IfOk result (λ r. IsIn cx.new.nodes r.node) }
        ensures kind { IfOk result (λ r. kind_of (tree_at cx.new.nodes r.node) ≡ kind_of
            (tree_at cx.old.nodes t.node)) }
        ensures rebuilds { IfOk result (λ r. Rebuilds F.FnMut (standing_of cx.old.nodes self.old)
            (tree_at
            cx.old.nodes t.node) (tree_at cx.new.nodes r.node) (standing_of cx.new.nodes self.new)) }
        ensures err { IfErr result (FailsToNormalize F.FnMut (standing_of cx.old.nodes self.old)
            (Some (tree_at
            cx.old.nodes t.node))) }
    {
        if cx.has_escaping_bound_vars(t) {
            if BoundVarReplacer::may_replace(cx, &self.universes, t) {
                return self.replace_under(cx, t);
            }
            return Ok(t);
        }
        let (term, goal) = self.ask(cx, alias)?;
        self.collect(goal)?;
        Ok(term)
    }

    /// What stands for an alias that names binders around the value: it is opened, and the answer is closed.
    fn replace_under(&mut self, cx: &mut Cx, t: Term) -> Result<Term, EvalError>
        requires ready { IsFolderReady F.FnMut cx.old.nodes self.old }
        requires holds { HoldsTerm cx.old.nodes t }
        requires is { is_alias_tree (tree_at cx.old.nodes t.node) ≡ true }
        requires open { IsClosed (tree_at cx.old.nodes t.node) → ⊥ }
        requires listed { IsClosedUnder (length self.old.universes.items)
            (tree_at cx.old.nodes t.node) }
        ensures goes { FolderGoes F.FnMut cx.old cx.new self.old self.new }
        ensures within { IfOk result (λ r. IsIn cx.new.nodes r.node) }
        ensures kind { IfOk result (λ r. kind_of (tree_at cx.new.nodes r.node) ≡ kind_of
            (tree_at cx.old.nodes t.node)) }
        ensures replaced { IfOk result (λ r. IsReplacedUnder F.FnMut
            (standing_of cx.old.nodes self.old) (tree_at
            cx.old.nodes t.node) (tree_at cx.new.nodes r.node) (standing_of cx.new.nodes self.new)) }
        ensures err { IfErr result (λ e. (e ≡ EvalError.Memory) ⊎ FailsUnder F.FnMut (standing_of
            cx.old.nodes self.old) (tree_at cx.old.nodes t.node) e) }
    {
        let (alias, maps) = self.open(cx, t)?;
        self.replace_opened(cx, t, alias, &maps)
    }

    /// What stands for an alias that is opened: the answer to it closed, or the alias where that is left out.
    fn replace_opened(
        &mut self,
        cx: &mut Cx,
        t: Term,
        alias: AliasTerm,
        maps: &PlaceholderMaps,
    ) -> Result<Term, EvalError>
        requires ready { IsFolderReady F.FnMut cx.old.nodes self.old }
        requires holds { HoldsTerm cx.old.nodes t }
        requires args { IsAliasTerm cx.old.nodes alias }
        requires sort { kind_of (tree_of_alias cx.old.nodes alias) ≡ kind_of
            (tree_at cx.old.nodes t.node) }
        ensures goes { FolderGoes F.FnMut cx.old cx.new self.old self.new }
        ensures within { IfOk result (λ r. IsIn cx.new.nodes r.node) }
        ensures kind { IfOk result (λ r. kind_of (tree_at cx.new.nodes r.node) ≡ kind_of
            (tree_at cx.old.nodes t.node)) }
        ensures ends { IfOk result (λ r. IsAnsweredUnder F.FnMut (standing_of cx.old.nodes self.old)
            (tree_at cx.old.nodes t.node) (tree_of_alias cx.old.nodes alias) (mapped maps.now) (tree_at
            cx.new.nodes r.node) (standing_of cx.new.nodes self.new)) }
        ensures err { IfErr result (λ e. (e ≡ EvalError.Memory) ⊎ FailsToAsk F.FnMut (standing_of
            cx.old.nodes self.old) (tree_of_alias cx.old.nodes alias) e) }
    {
        let universe = self.table.universe();
        let (term, goal) = self.ask(cx, alias)?;
        if self.is_left_out(cx, universe, term, goal)? {
            return Ok(t);
        }
        let closed = self.close(cx, maps, term)?;
        self.collect(goal)?;
        Ok(closed)
    }

    /// The alias with placeholders in place of the bound variables that escape from it.
    fn open(&mut self, cx: &mut Cx, t: Term) -> Result<(AliasTerm, PlaceholderMaps), EvalError>
        requires ready { IsFolderReady F.FnMut cx.old.nodes self.old }
        requires holds { HoldsTerm cx.old.nodes t }
        requires is { is_alias_tree (tree_at cx.old.nodes t.node) ≡ true }
        requires listed { IsClosedUnder (length self.old.universes.items)
            (tree_at cx.old.nodes t.node) }
        ensures goes { FolderGoes F.FnMut cx.old cx.new self.old self.new }
        ensures args { IfOk result (λ r. IsAliasTerm cx.new.nodes r.0) }
        ensures sort { IfOk result (λ r. kind_of (tree_of_alias cx.new.nodes r.0) ≡ kind_of
            (tree_at cx.old.nodes t.node)) }
        ensures opens { IfOk result (λ r. OpensAlias F.FnMut (standing_of cx.old.nodes self.old)
            (tree_at
            cx.old.nodes t.node) (tree_of_alias cx.new.nodes r.0) (mapped r.1) (standing_of cx.new.nodes
            self.new)) }
        ensures err { IfErr result (λ e. (e ≡ EvalError.Memory) ⊎ ((e ≡ EvalError.Full) ×
            RunsOut (escapes
            (tree_at cx.old.nodes t.node)) self.old.universes.items self.old.table.entries.universe u32.MAX)) }
    {
        let (opened, maps) = BoundVarReplacer::replace_bound_vars(
            &mut self.table,
            cx,
            &mut self.universes,
            t,
        )?;
        match alias_of(cx, opened) {
            Some(alias) => Ok((alias, maps)),
            None => unreachable!(),
        }
    }

    /// Whether the answer to an alias under binders is left out.
    fn is_left_out(
        &self,
        cx: &mut Cx,
        universe: UniverseIndex,
        term: Term,
        goal: Option<Goal>,
    ) -> Result<bool, Fault>
        requires ready { IsFolderReady F.FnMut cx.old.nodes self.now }
        requires holds { HoldsTerm cx.old.nodes term }
        requires known { Knows (content_of cx.old.nodes self.now.table.entries)
            (tree_at cx.old.nodes term.node) }
        ensures grows { Grows cx.old cx.new }
        ensures left_out { IfOk result (λ b. IsTrue b ↔ IsLeftOut universe (content_of cx.old.nodes
            self.now.table.entries) (tree_at cx.old.nodes term.node) (option_map (tree_of_goal
            cx.old.nodes) goal)) }
        ensures memory { IsOkUnless result Fault.Memory }
    {
        if goal.is_none() {
            return Ok(false);
        }
        let named = names_variables(&self.table, cx, universe, term)?;
        Ok(!named)
    }

    /// The term under the values of the table, with bound variables in place of the placeholders that the maps list.
    fn close(&self, cx: &mut Cx, maps: &PlaceholderMaps, term: Term) -> Result<Term, Fault>
        requires ready { IsFolderReady F.FnMut cx.old.nodes self.now }
        requires holds { HoldsTerm cx.old.nodes term }
        requires known { Knows (content_of cx.old.nodes self.now.table.entries)
            (tree_at cx.old.nodes term.node) }
        ensures grows { Grows cx.old cx.new }
        ensures within { IfOk result (λ r. IsIn cx.new.nodes r.node) }
        ensures tree { IfOk result (λ r. tree_at cx.new.nodes r.node ≡ closed_by (mapped maps.now)
            self.now.universes.items 0 (deeply_resolved (content_of cx.old.nodes self.now.table.entries)
            (tree_at cx.old.nodes term.node))) }
        ensures kind { IfOk result (λ r. kind_of (tree_at cx.new.nodes r.node) ≡ kind_of
            (tree_at cx.old.nodes term.node)) }
        ensures memory { IsOkUnless result Fault.Memory }
    {
        PlaceholderReplacer::replace_placeholders(&self.table, cx, maps, &self.universes, term)
    }

    /// What the closure answers of an alias, in one more universe.
    fn ask(&mut self, cx: &mut Cx, alias: AliasTerm) -> Result<(Term, Option<Goal>), EvalError>
        requires ready { IsFolderReady F.FnMut cx.old.nodes self.old }
        requires args { IsAliasTerm cx.old.nodes alias }
        ensures goes { FolderGoes F.FnMut cx.old cx.new self.old self.new }
        ensures answer { IfOk result (IsAnswerIn cx.new.nodes self.new.table alias) }
        ensures asks { IfOk result (λ r. Asks F.FnMut (standing_of cx.old.nodes self.old)
            (tree_of_alias
            cx.old.nodes alias) (tree_at cx.new.nodes r.0.node) (option_map (tree_of_goal cx.new.nodes) r.1)
            (standing_of cx.new.nodes self.new)) }
        ensures universes { self.new.universes ≡ self.old.universes }
        ensures err { IfErr result (λ e. (e ≡ EvalError.Memory) ⊎ FailsToAsk F.FnMut (standing_of
            cx.old.nodes self.old) (tree_of_alias cx.old.nodes alias) e) }
    {
        self.table.create_next_universe()?;
        (self.normalize)(&mut self.table, cx, alias)
    }

    /// Collects a goal that was left ambiguous.
    fn collect(&mut self, goal: Option<Goal>) -> Result<(), AllocError>
        ensures goals { OnOk result
            (self.new.stalled_goals.items ≡ self.old.stalled_goals.items ++ collected goal) }
        ensures goals_err { OnErr result
            (self.new.stalled_goals.items ≡ self.old.stalled_goals.items) }
        ensures table { self.new.table ≡ self.old.table }
        ensures universes { self.new.universes ≡ self.old.universes }
        ensures normalize { self.new.normalize ≡ self.old.normalize }
    {
        if let Some(goal) = goal {
            self.stalled_goals.push(goal)?;
        }
        Ok(())
    }
}

/// The term, if no alias stands in it: then it stays as it is.
fn without_alias<T: Stored>(cx: &Cx, t: T) -> Option<T>
    requires { IsIn cx.now.nodes (T.id t) }
    ensures same { IfSome result (λ r. r ≡ t) }
    ensures none { IfSome result (λ r. any_label is_alias (tree_at cx.now.nodes (T.id t)) ≡ false) }
{
    if cx.nodes.flags(t.node()).has_alias {
        None
    } else {
        Some(t)
    }
}

impl<F> TypeFolder for NormalizationFolder<F>
where
    F: FnMut(&mut InferCtxt, &mut Cx, AliasTerm) -> Result<(Term, Option<Goal>), EvalError> + Drop,
{
    type Error = EvalError;

    ghost Meaning = { Standing F };

    ghost meaning = { standing_of };

    ghost ready = { IsFolderReady F.FnMut };

    ghost answers = { Skips };

    ghost enters = { Enters };

    ghost leaves = { LeavesStanding };

    ghost rebuilds = { Rebuilds F.FnMut };

    ghost fails = { FailsToNormalize F.FnMut };

    ghost keeps = { FolderKeeps };

    ghost keeps_refl = { FolderKeeps-refl };

    ghost keeps_trans = { FolderKeeps-trans };

    ghost ready_kept = { λ a b s h e. IsFolderReady-kept F.FnMut a b s h e };

    ghost memory_fails = { λ m e h. h };

    ghost meaning_kept = { λ a b s h e. standing_of-kept F.FnMut a b s h e };

    fn fold_ty(&mut self, cx: &mut Cx, t: Ty) -> Result<Option<Ty>, EvalError> {
        Ok(without_alias(cx, t))
    }

    fn fold_region(&mut self, cx: &mut Cx, t: Region) -> Result<Option<Region>, EvalError> {
        Ok(without_alias(cx, t))
    }

    fn fold_const(&mut self, cx: &mut Cx, t: Const) -> Result<Option<Const>, EvalError> {
        Ok(without_alias(cx, t))
    }

    fn fold_predicate(
        &mut self,
        cx: &mut Cx,
        t: Predicate,
    ) -> Result<Option<Predicate>, EvalError> {
        Ok(without_alias(cx, t))
    }

    fn enter_binder(&mut self) -> Result<(), EvalError> {
        self.universes.push(None)?;
        Ok(())
    }

    fn leave_binder(&mut self) {
        let _ = self.universes.pop();
    }

    fn rebuilt(&mut self, cx: &mut Cx, t: Term) -> Result<Term, EvalError> {
        match alias_of(cx, t) {
            None => Ok(t),
            Some(alias) => self.replace(cx, t, alias),
        }
    }
}
