//! The lines that the impls of a trait stand on.
ghost use Rattle.std.specs.Prelude.{◌≡◌, ◌<◌, ℕ, [], length, IfOk, OnOk, OnErr};

use std::alloc::{AllocError, Global};

/// The numbers of the lines of impls, for each trait in the order in which the impls were added.
#[derive(Drop)]
pub struct ImplLines {
    alloc: Global,
    traits: Vec<Vec<u64>>,
}

impl ImplLines {
    ghost use Rattle.nts_declaring.specs.ImplLines.{lines_of, NotesLine, KeepsLines};

    /// No impls. It takes no memory.
    pub fn new(alloc: Global) -> Self
        ensures { (i : ℕ) → lines_of result i ≡ [] }
    {
        ImplLines {
            alloc,
            traits: Vec::new(alloc),
        }
    }

    /// Notes the line of one more impl of a trait, behind all others of it.
    pub fn note(&mut self, trait_number: usize, line: u64) -> Result<(), AllocError>
        ensures noted { OnOk result (NotesLine self.old self.new trait_number line) }
        ensures err { OnErr result (KeepsLines self.old self.new) }
    {
        let entry = self.entry(trait_number)?;
        self.traits[entry].push(line)?;
        Ok(())
    }

    /// The place of a trait, which is made where there is none.
    fn entry(&mut self, trait_number: usize) -> Result<usize, AllocError>
        ensures is { IfOk result (λ i. i ≡ trait_number) }
        ensures within { IfOk result (λ i. i < length self.new.traits.items) }
        ensures same { KeepsLines self.old self.new }
    {
        while self.traits.len() <= trait_number {
            self.traits.push(Vec::new(self.alloc))?;
        }
        Ok(trait_number)
    }

    /// The lines of the impls of a trait, in the order in which they were added.
    pub fn of_trait(&self, trait_number: usize) -> &[u64]
        ensures { result.now ≡ lines_of self.now trait_number }
    {
        match self.traits.get(trait_number) {
            Some(lines) => lines,
            None => &[],
        }
    }
}
