//! An index of a list by what the types that stand in it are built by.
ghost use Rattle.std.specs.Prelude.{◌≡◌, ◌⊎◌, ℕ, ◌<◌, ◌≤◌, ◌++◌, ◌∷◌, [], false, List, Option, length, slice_index, IsTrue, IfOk, IfSome, OnOk, OnErr, if◌then◌else◌};
ghost use Rattle.nts_model.specs.declared.labels.TyHead.{TyHead};
ghost use Rattle.nts_delegate.specs.Places.{same_head, may_be_built_by, places_at, places_from, AreMerged, IsIndexOf};

use nts_model::TyHead;
use std::alloc::{AllocError, Global};
use std::collections::HashMap;

/// The places of a list, by what the types are built by that stand there.
#[derive(Drop)]
pub struct HeadIndex {
    /// In order, the places of the types that are built by this.
    by_head: HashMap<TyHead, Vec<usize>>,
    /// In order, the places where a type stands that is not built, and may stand for any.
    blanket: Vec<usize>,
}

impl HeadIndex {
    /// The index of an empty list. It takes no memory.
    pub fn new(alloc: Global) -> HeadIndex
        ensures { IsIndexOf result [] }
    {
        HeadIndex {
            by_head: HashMap::new(alloc),
            blanket: Vec::new(alloc),
        }
    }

    /// Takes in what stands at the end of the list, the length of which is the place.
    pub fn note(
        &mut self,
        alloc: Global,
        head: Option<TyHead>,
        place: usize,
    ) -> Result<(), AllocError>
        ensures noted { OnOk result ((hs : List (Option TyHead)) → IsIndexOf self.old hs →
            place ≡ length hs → IsIndexOf self.new (hs ++ head ∷ [])) }
        ensures err { OnErr result ((hs : List (Option TyHead)) → IsIndexOf self.old hs →
            IsIndexOf self.new hs) }
    {
        match head {
            Some(head) => note_built(&mut self.by_head, alloc, head, place),
            None => {
                self.blanket.push(place)?;
                Ok(())
            }
        }
    }

    /// The places, in order, of the types that are built by this.
    fn built_by(&self, head: TyHead) -> &[usize]
        ensures { result.now ≡ places_at self.now.by_head head }
    {
        match self.by_head.get(&head) {
            Some(places) => places,
            None => &[],
        }
    }

    /// The places, in order, of the types that are built by this and of those that are not built, if all stand in one list.
    pub fn listed_places_of(&self, head: TyHead) -> Option<&[usize]>
        ensures { (hs : List (Option TyHead)) → IsIndexOf self.now hs →
            IfSome result (λ places. places.now ≡ places_from (may_be_built_by head) 0 hs) }
    {
        let built = self.built_by(head);
        if self.blanket.is_empty() {
            return Some(built);
        }
        if built.is_empty() {
            return Some(&self.blanket);
        }
        None
    }

    /// The same places in a list of their own.
    pub fn places_of(&self, alloc: Global, head: TyHead) -> Result<Vec<usize>, AllocError>
        ensures { (hs : List (Option TyHead)) → IsIndexOf self.now hs →
            IfOk result (λ places. places.items ≡ places_from (may_be_built_by head) 0 hs) }
    {
        let built = self.built_by(head);
        merged(alloc, built, &self.blanket)
    }
}

/// One place more of the types that are built by this.
fn note_built(
    by_head: &mut HashMap<TyHead, Vec<usize>>,
    alloc: Global,
    head: TyHead,
    place: usize,
) -> Result<(), AllocError>
    ensures noted { OnOk result ((k : TyHead) →
        places_at by_head.new k ≡ (if same_head head k then places_at by_head.old k ++ place ∷ []
        else places_at by_head.old k)) }
    ensures err { OnErr result ((k : TyHead) → places_at by_head.new k ≡ places_at by_head.old k) }
{
    if let Some(places) = by_head.get_mut(&head) {
        places.push(place)?;
        return Ok(());
    }
    let mut places = Vec::new(alloc);
    places.push(place)?;
    by_head.insert(head, places)?;
    Ok(())
}

/// The places of two lists as one, in order.
fn merged(alloc: Global, built: &[usize], blanket: &[usize]) -> Result<Vec<usize>, AllocError>
    ensures { (zs : List ℕ) → AreMerged built.now blanket.now zs →
        IfOk result (λ places. places.items ≡ zs) }
{
    let mut places = Vec::new(alloc);
    let mut i = 0;
    let mut j = 0;
    while i < built.len() || j < blanket.len() {
        if is_next(built, i, blanket, j) {
            places.push(built[i])?;
            i += 1;
        } else {
            places.push(blanket[j])?;
            j += 1;
        }
    }
    Ok(places)
}

/// Whether the next place of the first list, if there is one left, stands before that of the second.
fn is_next(built: &[usize], i: usize, blanket: &[usize], j: usize) -> bool
    requires { (i < length built.now) ⊎ (j < length blanket.now) }
    ensures yes { IsTrue result → (i < length built.now) × (j < length blanket.now →
        slice_index built.now i < slice_index blanket.now j) }
    ensures no { result ≡ false → (j < length blanket.now) × (i < length built.now →
        slice_index blanket.now j ≤ slice_index built.now i) }
{
    if i >= built.len() {
        return false;
    }
    j >= blanket.len() || built[i] < blanket[j]
}
