//! The variables of a line.
ghost use Rattle.std.specs.Prelude.{◌≡◌, ◌<◌, ◌+◌, [], length, All, OnOk};
ghost use Rattle.nts_wording.specs.Meaning.{HasOwnPlaces, HasPlace, KeepsPlaces};

use nts_model::Sort;
use nts_text::Resolved;
use std::alloc::{AllocError, Global};

/// The variables of a line, those of types and those of regions together, in order of first sight.
#[derive(Drop)]
pub struct LineVariables {
    /// The sorts of all.
    pub sorts: Vec<Sort>,
    /// The place of each type variable among all, by its number.
    pub types: Vec<usize>,
    /// The place of each region variable among all, by its number.
    pub regions: Vec<usize>,
}

impl LineVariables {
    /// No variables. It takes no memory.
    pub fn new(alloc: Global) -> Self
        ensures own { HasOwnPlaces result }
        ensures types { result.types.items ≡ [] }
        ensures regions { result.regions.items ≡ [] }
    {
        LineVariables {
            sorts: Vec::new(alloc),
            types: Vec::new(alloc),
            regions: Vec::new(alloc),
        }
    }

    /// Adds the variables that these nodes are the first to name.
    pub fn see(&mut self, nodes: &[Resolved]) -> Result<(), AllocError>
        ensures own { HasOwnPlaces self.old → HasOwnPlaces self.new }
        ensures placed { OnOk result (All (HasPlace self.new) nodes.now) }
        ensures kept { KeepsPlaces self.old self.new }
    {
        for node in nodes {
            self.see_one(*node)?;
        }
        Ok(())
    }

    /// Adds the variable that this node names, and those with lower numbers.
    fn see_one(&mut self, node: Resolved) -> Result<(), AllocError>
        ensures own { HasOwnPlaces self.old → HasOwnPlaces self.new }
        ensures placed { OnOk result (HasPlace self.new node) }
        ensures kept { KeepsPlaces self.old self.new }
    {
        match node {
            Resolved::TypeVariable(number) => self.add_types(number),
            Resolved::RegionVariable(number) => self.add_regions(number),
            _ => Ok(()),
        }
    }

    /// Adds variables of types, until the one of this number has a place.
    fn add_types(&mut self, number: usize) -> Result<(), AllocError>
        ensures own { HasOwnPlaces self.old → HasOwnPlaces self.new }
        ensures placed { OnOk result (number < length self.new.types.items) }
        ensures kept { KeepsPlaces self.old self.new }
    {
        'adding: while self.types.len() <= number {
            self.add_type()?;
        }
        Ok(())
    }

    /// Adds variables of regions, until the one of this number has a place.
    fn add_regions(&mut self, number: usize) -> Result<(), AllocError>
        ensures own { HasOwnPlaces self.old → HasOwnPlaces self.new }
        ensures placed { OnOk result (number < length self.new.regions.items) }
        ensures kept { KeepsPlaces self.old self.new }
    {
        'adding: while self.regions.len() <= number {
            self.add_region()?;
        }
        Ok(())
    }

    /// Adds a variable of a type, at the next place.
    #[tactic(auto, using(crate::proofs::Places::placed))]
    fn add_type(&mut self) -> Result<(), AllocError>
        ensures own { HasOwnPlaces self.old → HasOwnPlaces self.new }
        ensures added { OnOk result
            (length self.new.types.items ≡ length self.old.types.items + 1) }
        ensures kept { KeepsPlaces self.old self.new }
    {
        let place = self.sorts.len();
        self.sorts.push(Sort::Ty)?;
        self.types.push(place)?;
        Ok(())
    }

    /// Adds a variable of a region, at the next place.
    #[tactic(auto, using(crate::proofs::Places::placed))]
    fn add_region(&mut self) -> Result<(), AllocError>
        ensures own { HasOwnPlaces self.old → HasOwnPlaces self.new }
        ensures added { OnOk result
            (length self.new.regions.items ≡ length self.old.regions.items + 1) }
        ensures kept { KeepsPlaces self.old self.new }
    {
        let place = self.sorts.len();
        self.sorts.push(Sort::Region)?;
        self.regions.push(place)?;
        Ok(())
    }
}
