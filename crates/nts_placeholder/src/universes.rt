//! Universes for the open entries of a list.
ghost use Rattle.std.specs.Prelude.{◌≡◌, ◌+◌, ◌<◌, true, length, IfOk, IfSome, Err};
ghost use Rattle.nts_model.specs.declared.labels.Sort.{Sort};
ghost use Rattle.nts_placeholder.specs.declared.maps.BoundVar.{BoundVar};
ghost use Rattle.nts_placeholder.specs.Closing.{entry_of};
ghost use Rattle.nts_placeholder.specs.Escaping.{is_among};
ghost use Rattle.nts_placeholder.specs.Opening.{universe_at};
ghost use Rattle.nts_placeholder.specs.Universes.{filled_universes, open_before, IsReach};

use crate::escaping::Escaping;
use nts_store::Fault;
use nts_terms::UniverseIndex;
use std::alloc::Global;

/// A list of universes, and how many of them were new.
#[derive(Drop)]
pub struct Filled {
    pub universes: Vec<Option<UniverseIndex>>,
    pub count: UniverseIndex,
}

/// The place after the last open entry that one of the bound variables names, or the first place.
pub(crate) fn reach_of(universes: &[Option<UniverseIndex>], found: &[Escaping]) -> usize
    requires { (s : Sort) (b : BoundVar) → is_among found.now s b ≡ true →
        b.level < length universes.now }
    ensures { IsReach universes.now (is_among found.now) result }
{
    let mut end = 0;
    for i in 0..found.len() {
        let entry = universes.len() - found[i].bound.level - 1;
        if entry >= end && universes[entry].is_none() {
            end = entry + 1;
        }
    }
    end
}

/// The list with new universes for the open entries before a place. `Full` comes where there are not
/// so many.
pub(crate) fn fill(
    alloc: Global,
    universes: &[Option<UniverseIndex>],
    end: usize,
    universe: UniverseIndex,
) -> Result<Filled, Fault>
    ensures list { IfOk result (λ f. f.universes.items ≡ filled_universes universe end
        universes.now) }
    ensures count { IfOk result (λ f. f.count ≡ open_before end universes.now) }
    ensures full { result ≡ Err Fault.Full → u32.MAX < universe + open_before end universes.now }
{
    let mut list = Vec::new(alloc);
    let mut last = universe;
    for i in 0..universes.len() {
        if i < end && universes[i].is_none() {
            last = match last.checked_add(1) {
                Some(next) => next,
                None => return Err(Fault::Full),
            };
            list.push(Some(last))?;
        } else {
            list.push(universes[i])?;
        }
    }
    Ok(Filled {
        universes: list,
        count: last - universe,
    })
}

/// The universe of an entry, the root where there is none.
pub(crate) fn universe_of_entry(universes: &[Option<UniverseIndex>], entry: usize) -> UniverseIndex
    requires { entry < length universes.now }
    ensures { result ≡ universe_at universes.now entry }
{
    universes[entry].unwrap_or(0)
}

/// The first entry of a universe.
pub(crate) fn entry_of_universe(
    universes: &[Option<UniverseIndex>],
    universe: UniverseIndex,
) -> Option<usize>
    ensures first { result ≡ entry_of universes.now universe }
    ensures within { IfSome result (λ e. e < length universes.now) }
{
    let mut i = 0;
    while i < universes.len() {
        if universes[i] == Some(universe) {
            return Some(i);
        }
        i += 1;
    }
    None
}
