//! Making variables, and what is known of them.
ghost use Rattle.std.specs.Prelude.{List, ◌≡◌, ◌≢◌, ◌↔◌, ◌<◌, ◌≤◌, ◌+◌, length, IfOk, OnOk, OnErr, Some, IfSome, IsOkUnless};
ghost use Rattle.nts_model.specs.declared.labels.VariableKind.TheVariants as kind;
ghost use Rattle.nts_model.specs.Terms.Trees.{Tree, variable_tree};
ghost use Rattle.nts_store.specs.Growth.{tree_at, IsIn, Extends};
ghost use Rattle.nts_terms.specs.Handles.{HoldsTy, HoldsConst, HoldsRegion, HoldsArg};
ghost use Rattle.nts_unify.specs.Entries.{added, moved};
ghost use Rattle.nts_table.specs.Tables.{Table};
ghost use Rattle.nts_table.specs.Tables.{IsTable};
ghost use Rattle.nts_table.specs.Making.{unset_variable, new_variable, IsAddedTo};
ghost use Rattle.nts_terms.specs.Rest.{Grows};
ghost use Rattle.nts_table.specs.Frames.{ChangesEntries};

use crate::infer_ctxt::InferCtxt;
use nts_model::VariableKind;
use nts_store::{Fault, NodeId};
use nts_terms::{Const, Cx, GenericArg, Region, Ty, UniverseIndex};
use nts_unify::add_variable;

impl InferCtxt {
    /// A new type variable of the current universe.
    pub fn next_ty_infer(&mut self, cx: &mut Cx) -> Result<Ty, Fault>
        requires table { IsTable cx.old.nodes self.old }
        ensures tree { IfOk result (λ t. tree_at cx.new.nodes t.node ≡ variable_tree kind.Ty
            (length self.old.entries.variables)) }
        ensures holds { IfOk result (λ t. HoldsTy cx.new.nodes t) }
        ensures entries { OnOk result (self.new.entries ≡ added self.old.entries
            (new_variable self.old.entries kind.Ty)) }
        ensures changes { ChangesEntries self.old self.new }
        ensures table { IsTable cx.new.nodes self.new }
        ensures grows { Grows cx.old cx.new }
        ensures err { OnErr result (self.new ≡ self.old) }
        ensures memory { IsOkUnless result Fault.Memory }
    {
        let node = self.add_variable(cx, VariableKind::Ty, self.universe(), None)?;
        Ok(Ty { node })
    }

    /// A new variable of integer types, in the root universe.
    pub fn next_int_infer(&mut self, cx: &mut Cx) -> Result<Ty, Fault>
        requires table { IsTable cx.old.nodes self.old }
        ensures tree { IfOk result (λ t. tree_at cx.new.nodes t.node ≡ variable_tree kind.Int
            (length self.old.entries.variables)) }
        ensures holds { IfOk result (λ t. HoldsTy cx.new.nodes t) }
        ensures entries { OnOk result (self.new.entries ≡ added self.old.entries
            (unset_variable kind.Int 0)) }
        ensures changes { ChangesEntries self.old self.new }
        ensures table { IsTable cx.new.nodes self.new }
        ensures grows { Grows cx.old cx.new }
        ensures err { OnErr result (self.new ≡ self.old) }
        ensures memory { IsOkUnless result Fault.Memory }
    {
        let node = self.add_variable(cx, VariableKind::Int, 0, None)?;
        Ok(Ty { node })
    }

    /// A new variable of float types, in the root universe.
    pub fn next_float_infer(&mut self, cx: &mut Cx) -> Result<Ty, Fault>
        requires table { IsTable cx.old.nodes self.old }
        ensures tree { IfOk result (λ t. tree_at cx.new.nodes t.node ≡ variable_tree kind.Float
            (length self.old.entries.variables)) }
        ensures holds { IfOk result (λ t. HoldsTy cx.new.nodes t) }
        ensures entries { OnOk result (self.new.entries ≡ added self.old.entries
            (unset_variable kind.Float 0)) }
        ensures changes { ChangesEntries self.old self.new }
        ensures table { IsTable cx.new.nodes self.new }
        ensures grows { Grows cx.old cx.new }
        ensures err { OnErr result (self.new ≡ self.old) }
        ensures memory { IsOkUnless result Fault.Memory }
    {
        let node = self.add_variable(cx, VariableKind::Float, 0, None)?;
        Ok(Ty { node })
    }

    /// A new variable of consts, of the current universe.
    pub fn next_const_infer(&mut self, cx: &mut Cx) -> Result<Const, Fault>
        requires table { IsTable cx.old.nodes self.old }
        ensures tree { IfOk result (λ t. tree_at cx.new.nodes t.node ≡ variable_tree kind.Const
            (length self.old.entries.variables)) }
        ensures holds { IfOk result (λ t. HoldsConst cx.new.nodes t) }
        ensures entries { OnOk result (self.new.entries ≡ added self.old.entries
            (new_variable self.old.entries kind.Const)) }
        ensures changes { ChangesEntries self.old self.new }
        ensures table { IsTable cx.new.nodes self.new }
        ensures grows { Grows cx.old cx.new }
        ensures err { OnErr result (self.new ≡ self.old) }
        ensures memory { IsOkUnless result Fault.Memory }
    {
        let node = self.add_variable(cx, VariableKind::Const, self.universe(), None)?;
        Ok(Const { node })
    }

    /// A new region variable of the current universe.
    pub fn next_region_infer(&mut self, cx: &mut Cx) -> Result<Region, Fault>
        requires table { IsTable cx.old.nodes self.old }
        ensures tree { IfOk result (λ r. tree_at cx.new.nodes r.node ≡ variable_tree kind.Region
            (length self.old.entries.variables)) }
        ensures holds { IfOk result (λ r. HoldsRegion cx.new.nodes r) }
        ensures entries { OnOk result (self.new.entries ≡ added self.old.entries
            (new_variable self.old.entries kind.Region)) }
        ensures changes { ChangesEntries self.old self.new }
        ensures table { IsTable cx.new.nodes self.new }
        ensures grows { Grows cx.old cx.new }
        ensures err { OnErr result (self.new ≡ self.old) }
        ensures memory { IsOkUnless result Fault.Memory }
    {
        let node = self.add_variable(cx, VariableKind::Region, self.universe(), None)?;
        Ok(Region { node })
    }

    /// A new variable of that kind and universe, which is one of the table's. Where another variable is named, the two are of one
    /// sub-unification class.
    pub fn variable_in_universe(
        &mut self,
        cx: &mut Cx,
        kind: VariableKind,
        universe: UniverseIndex,
        sub_root_of: Option<usize>,
    ) -> Result<GenericArg, Fault>
        requires table { IsTable cx.old.nodes self.old }
        requires named { universe ≤ self.old.entries.universe }
        requires within { IfSome sub_root_of (λ n. n < length self.old.entries.variables) }
        ensures tree { IfOk result (λ r. tree_at cx.new.nodes r.node ≡ variable_tree kind
            (length self.old.entries.variables)) }
        ensures holds { IfOk result (λ r. HoldsArg cx.new.nodes r) }
        ensures entries { OnOk result (IsAddedTo self.old.entries self.new.entries
            (unset_variable kind universe) sub_root_of) }
        ensures changes { ChangesEntries self.old self.new }
        ensures table { IsTable cx.new.nodes self.new }
        ensures grows { Grows cx.old cx.new }
        ensures err { OnErr result (self.new ≡ self.old) }
        ensures memory { IsOkUnless result Fault.Memory }
    {
        let sub_link = match sub_root_of {
            Some(other) => Some(self.inner.sub_root(other)),
            None => None,
        };
        let node = self.add_variable(cx, kind, universe, sub_link)?;
        Ok(GenericArg { node })
    }

    /// A new variable of which nothing more is known than its sub-unification class, as a term.
    pub(crate) fn add_variable(
        &mut self,
        cx: &mut Cx,
        kind: VariableKind,
        universe: UniverseIndex,
        sub_link: Option<usize>,
    ) -> Result<NodeId, Fault>
        requires table { IsTable cx.old.nodes self.old }
        requires named { universe ≤ self.old.entries.universe }
        requires linked { IfSome sub_link (λ m. m < length self.old.entries.variables) }
        ensures within { IfOk result (λ r. IsIn cx.new.nodes r) }
        ensures tree { IfOk result (λ r. tree_at cx.new.nodes r ≡ variable_tree kind
            (length self.old.entries.variables)) }
        ensures entries { OnOk result (self.new.entries ≡ added self.old.entries
            (record (unset_variable kind universe) { sub_link = sub_link })) }
        ensures changes { ChangesEntries self.old self.new }
        ensures table { IsTable cx.new.nodes self.new }
        ensures grows { Grows cx.old cx.new }
        ensures err { OnErr result (self.new ≡ self.old) }
        ensures memory { IsOkUnless result Fault.Memory }
    {
        let node = add_variable(&mut cx.nodes, &mut self.inner, kind, universe, sub_link)?;
        Ok(node)
    }

    /// One more universe, which becomes the current one. `Full` comes where there is none.
    pub fn create_next_universe(&mut self) -> Result<UniverseIndex, Fault>
        ensures number { IfOk result (λ u. u ≡ self.old.entries.universe + 1) }
        ensures entries { OnOk result (self.new.entries ≡ moved self.old.entries
            (self.old.entries.universe + 1)) }
        ensures table { (ts : List Tree) → IsTable ts self.old → IsTable ts self.new }
        ensures changes { ChangesEntries self.old self.new }
        ensures err { OnErr result (self.new ≡ self.old) }
        ensures full { result ≡ Err Fault.Full → self.old.entries.universe ≡ u32.MAX }
    {
        match self.universe().checked_add(1) {
            None => Err(Fault::Full),
            Some(next) => {
                self.inner.move_to(next)?;
                Ok(next)
            }
        }
    }

    /// That many more universes, in one step; the last of them becomes the current one. `Full` comes exactly where there
    /// are not so many.
    pub fn create_universes(&mut self, count: UniverseIndex) -> Result<(), Fault>
        ensures entries { OnOk result (self.new.entries ≡ moved self.old.entries
            (self.old.entries.universe + count)) }
        ensures table { (ts : List Tree) → IsTable ts self.old → IsTable ts self.new }
        ensures changes { ChangesEntries self.old self.new }
        ensures err { OnErr result (self.new ≡ self.old) }
        ensures full { (result ≡ Err Fault.Full) ↔ (u32.MAX < self.old.entries.universe + count) }
    {
        match self.universe().checked_add(count) {
            None => Err(Fault::Full),
            Some(last) => {
                self.inner.move_to(last)?;
                Ok(())
            }
        }
    }
}
