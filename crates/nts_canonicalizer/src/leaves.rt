//! Leaves in the order of first sight, each once.
ghost use Rattle.std.specs.Prelude.{◌≡◌, [], IfOk, OnOk};
ghost use Rattle.nts_model.specs.Canonical.Numbered.{added, number, same, AreDistinct};

use indexmap::IndexSet;
use nts_model::Leaf;
use std::alloc::{AllocError, Global};
use std::marker::Model;

/// So many leaves at most are searched in a list. Of more, a table tells the place of each.
const LISTED: usize = 16;

/// Leaves in the order in which they were first added, each once. A caller sees the list of them.
#[derive(Drop)]
pub struct Leaves {
    alloc: Global,
    found: Found,
}

#[derive(Drop)]
enum Found {
    Listed(Vec<Leaf>),
    Hashed(IndexSet<Leaf>),
}

impl Model for Leaves {
    ghost use Rattle.std.specs.Prelude.{List};
    ghost use Rattle.nts_model.specs.declared.labels.Leaf.{Leaf};

    ghost Value = { List Leaf };

    ghost use Rattle.std.specs.Coded.{coded_list};
    ghost use Rattle.nts_model.specs.contracts.labels.Leaf as leaf_row;

    ghost coded = { coded_list leaf_row.the_row.coded };

    ghost use Rattle.nts_canonicalizer.specs.LeafLists.{leaves_found, AreFoundOnce};

    ghost view = { λ c. leaves_found c.found };

    ghost invariant = { λ c. AreFoundOnce c.found };
}

impl Leaves {
    /// No leaves. It takes no memory.
    pub fn new(alloc: Global) -> Leaves
        ensures { result ≡ [] }
    {
        Leaves {
            alloc,
            found: Found::Listed(Vec::new(alloc)),
        }
    }

    /// The leaves, in order.
    pub fn as_slice(&self) -> &[Leaf]
        ensures { result.now ≡ self.now }
    {
        match &self.found {
            Found::Listed(list) => list,
            Found::Hashed(set) => set.as_slice(),
        }
    }

    /// The place of a leaf, or the next one where it is not among them.
    pub fn number(&self, leaf: Leaf) -> usize
        ensures { result ≡ number self.now leaf }
    {
        match &self.found {
            Found::Listed(list) => place_in(list, leaf),
            Found::Hashed(set) => set.get_index_of(&leaf).unwrap_or(set.len()),
        }
    }

    /// Adds a leaf at the end, where it is not among them.
    pub fn add(&mut self, leaf: Leaf) -> Result<(), AllocError>
        ensures { OnOk result (self.new ≡ added self.old leaf) }
    {
        match &mut self.found {
            Found::Listed(list) => {
                if place_in(list, leaf) < list.len() {
                    return Ok(());
                }
                if list.len() < LISTED {
                    list.push(leaf)?;
                    return Ok(());
                }
                let set = with_one_more(self.alloc, list, leaf)?;
                self.found = Found::Hashed(set);
                Ok(())
            }
            Found::Hashed(set) => {
                set.insert(leaf)?;
                Ok(())
            }
        }
    }
}

/// The place of a leaf in a list, or its length.
fn place_in(list: &[Leaf], leaf: Leaf) -> usize
    ensures { result ≡ number list.now leaf }
{
    for i in 0..list.len() {
        if is_one(leaf, list[i]) {
            return i;
        }
    }
    list.len()
}

fn is_one(a: Leaf, b: Leaf) -> bool
    ensures { result ≡ same a b }
{
    a == b
}

/// The table of these leaves and one more.
fn with_one_more(alloc: Global, list: &[Leaf], leaf: Leaf) -> Result<IndexSet<Leaf>, AllocError>
    requires { AreDistinct list.now }
    ensures { IfOk result (λ s. s.keys ≡ added list.now leaf) }
{
    let mut set = IndexSet::new(alloc);
    for it in list {
        set.insert(*it)?;
    }
    set.insert(leaf)?;
    Ok(set)
}
