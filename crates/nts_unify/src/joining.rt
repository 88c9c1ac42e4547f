//! Two variables without values made one.
ghost use Rattle.std.specs.Prelude.{◌≡◌, ◌≢◌, ◌<◌, length, List, OnOk};
ghost use Rattle.nts_model.specs.Terms.Trees.{Tree};
ghost use Rattle.nts_unify.specs.Reading.{IsLawful};
ghost use Rattle.nts_unify.specs.Joining.{Joins, RegionsJoin, CanJoin, CanJoinRegions};
ghost use Rattle.nts_unify.specs.Equating.{RegionsLinked};
ghost use Rattle.nts_unify.specs.Entries.{KeepsHidden};

use crate::contents::{State, Variable};
use crate::inner::InferCtxtInner;
use std::alloc::AllocError;

/// Makes one variable of two of a kind that is no region. The root is the lower number, in the lower
/// universe. Their sub roots are joined too, which only matters for type variables.
pub fn join(table: &mut InferCtxtInner, x: usize, y: usize) -> Result<(), AllocError>
    requires { CanJoin table.old.entries x y }
    ensures joined { OnOk result ((ts : List Tree) → IsLawful ts table.old.entries →
        Joins ts table.old.entries table.new.entries x y) }
    ensures changes { KeepsHidden table.old table.new }
{
    table.join_sub_roots(x, y)?;
    let low = x.min(y);
    let high = x.max(y);
    let root = table.variable(low);
    let linked = table.variable(high);
    let universe = root.universe.min(linked.universe);
    table.set(low, Variable { universe, ..root })?;
    let state = State::Link(low);
    table.bind(high, Variable { state, ..linked })?;
    Ok(())
}

/// Makes one region variable of two. The root is the lower number, in the lower universe.
pub fn join_regions(table: &mut InferCtxtInner, x: usize, y: usize) -> Result<(), AllocError>
    requires { CanJoinRegions table.old.entries x y }
    ensures joined { OnOk result ((ts : List Tree) → IsLawful ts table.old.entries →
        RegionsJoin ts table.old.entries table.new.entries x y) }
    ensures changes { KeepsHidden table.old table.new }
{
    table.link_regions(x, y)?;
    Ok(())
}

impl InferCtxtInner {
    /// Links one root to the other. After an error the universe may be changed.
    pub fn link_regions(&mut self, r: usize, s: usize) -> Result<(), AllocError>
        requires within_r { r < length self.old.entries.variables }
        requires within_s { s < length self.old.entries.variables }
        requires apart { r ≡ s → ⊥ }
        ensures linked { OnOk result (RegionsLinked self.old.entries self.new.entries r s) }
        ensures changes { KeepsHidden self.old self.new }
    {
        let low = r.min(s);
        let high = r.max(s);
        let root = self.variable(low);
        let linked = self.variable(high);
        let universe = root.universe.min(linked.universe);
        self.set(low, Variable { universe, ..root })?;
        let state = State::Link(low);
        self.set(high, Variable { state, ..linked })
    }
}
