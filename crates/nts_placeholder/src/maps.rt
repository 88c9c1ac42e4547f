//! Which bound variable each placeholder was made for.
ghost use Rattle.std.specs.Prelude.{◌≡◌, ◌⊎◌, Some, None, OnOk, OnErr};
ghost use Rattle.nts_model.specs.declared.labels.Sort.{Sort};
ghost use Rattle.nts_placeholder.specs.declared.maps.Placeholder.{Placeholder};
ghost use Rattle.nts_placeholder.specs.Closing.{mapped};

use indexmap::IndexMap;
use nts_model::{DebruijnIndex, Sort};
use nts_terms::UniverseIndex;
use std::alloc::{AllocError, Global};

/// A placeholder of one sort: a variable of a universe.
#[derive(Clone, Copy, PartialEq, Eq, Hash, Debug)]
pub struct Placeholder {
    pub universe: UniverseIndex,
    pub var: usize,
}

/// A bound variable of one sort: a variable of the binder that lies so many binders out.
#[derive(Clone, Copy, PartialEq, Eq, Hash, Debug)]
pub struct BoundVar {
    pub level: DebruijnIndex,
    pub var: usize,
}

/// The placeholders that were made, by sort, and the bound variable that each was made for, with its
/// level as it is outside of the value.
#[derive(Drop)]
pub struct PlaceholderMaps {
    pub regions: IndexMap<Placeholder, BoundVar>,
    pub types: IndexMap<Placeholder, BoundVar>,
    pub consts: IndexMap<Placeholder, BoundVar>,
}

impl PlaceholderMaps {
    /// Maps of nothing. They take no memory.
    pub fn new(alloc: Global) -> Self
        ensures { (s : Sort) (p : Placeholder) → mapped result s p ≡ None }
    {
        PlaceholderMaps {
            regions: IndexMap::new(alloc),
            types: IndexMap::new(alloc),
            consts: IndexMap::new(alloc),
        }
    }

    /// The bound variable of a placeholder of a sort.
    pub fn bound_var(&self, sort: Sort, placeholder: Placeholder) -> Option<BoundVar>
        ensures { result ≡ mapped self.now sort placeholder }
    {
        match sort {
            Sort::Ty => self.types.get(&placeholder).copied(),
            Sort::Region => self.regions.get(&placeholder).copied(),
            Sort::Const => self.consts.get(&placeholder).copied(),
        }
    }

    /// Lists a placeholder of a sort with its bound variable.
    pub fn insert(
        &mut self,
        sort: Sort,
        placeholder: Placeholder,
        bound: BoundVar,
    ) -> Result<(), AllocError>
        ensures own { OnOk result (mapped self.new sort placeholder ≡ Some bound) }
        ensures others { OnOk result ((s : Sort) (p : Placeholder) → ((s ≡ sort) ×
            (p ≡ placeholder)) ⊎ (mapped self.new s p ≡ mapped self.old s p)) }
        ensures err { OnErr result ((s : Sort) (p : Placeholder) →
            mapped self.new s p ≡ mapped self.old s p) }
    {
        match sort {
            Sort::Ty => self.types.insert(placeholder, bound)?,
            Sort::Region => self.regions.insert(placeholder, bound)?,
            Sort::Const => self.consts.insert(placeholder, bound)?,
        };
        Ok(())
    }
}
