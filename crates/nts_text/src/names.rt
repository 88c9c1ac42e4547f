//! The names that lines declare, and those that they only use.

ghost use Rattle.std.specs.Prelude.{◌≡◌, ◌≢◌, ◌<◌, ◌++◌, ◌∷◌, [], None, Some, Err, true, false, ℕ, List, vec_len, map, IfSome, IfOk, IfErr, OnOk, IsNone};
ghost use Rattle.std.specs.List.{list_all};
ghost use Rattle.indexmap.specs.IndexMap.{values};
ghost use Rattle.indexmap.specs.IndexSet.{index_set_len};
ghost use Rattle.nts_text.specs.Spelled.{type_names, region_names, IsNumberOf, Lengthens};
ghost use Rattle.nts_text.specs.Names.{is_numbered, IsNameOf};
ghost use Rattle.nts_text.specs.declared.names.Declared.{Declared};
ghost use Rattle.nts_text.specs.declared.refusals.TextError.TheVariants.{Memory, Refused};
ghost use Rattle.nts_text.specs.declared.refusals.Refusal.TheVariants.{NameDeclaredTwice};

use crate::refusals::{Refusal, TextError};
use indexmap::{IndexMap, IndexSet};
use nts_model::{IntTy, Sort, UintTy};
use std::alloc::{AllocError, Global};
use std::mem;

/// What a name stands for. Types, traits and aliases have numbers of their own, from 0 on.
#[derive(Clone, Copy, PartialEq, Eq)]
pub enum Declared {
    Int(IntTy),
    Uint(UintTy),
    Type(usize),
    Trait(usize),
    Alias { number: usize, is_rigid: bool },
}

/// A declared type, trait or alias: its name and the sorts of its arguments.
#[derive(Drop)]
pub struct Signature {
    pub name: Vec<u8>,
    pub sorts: Vec<Sort>,
}

/// The names that are declared, beside those of the known types.
#[derive(Drop)]
pub struct NameTable {
    pub numbers: IndexMap<Vec<u8>, Declared>,
    pub types: Vec<Signature>,
    pub traits: Vec<Signature>,
    pub aliases: Vec<Signature>,
    ghost numbered: { list_all (is_numbered (vec_len types) (vec_len traits) (vec_len aliases)) (values numbers) ≡ true },
}

/// The integer type of this name.
pub fn known_type(name: &[u8]) -> Option<Declared>
    ensures found { IfSome result (λ d. IsNameOf d name.now) }
    ensures none { IsNone result → (d : Declared) → IsNameOf d name.now → ⊥ }
{
    match name {
        b"i8" => Some(Declared::Int(IntTy::I8)),
        b"i16" => Some(Declared::Int(IntTy::I16)),
        b"i32" => Some(Declared::Int(IntTy::I32)),
        b"i64" => Some(Declared::Int(IntTy::I64)),
        b"i128" => Some(Declared::Int(IntTy::I128)),
        b"isize" => Some(Declared::Int(IntTy::Isize)),
        b"u8" => Some(Declared::Uint(UintTy::U8)),
        b"u16" => Some(Declared::Uint(UintTy::U16)),
        b"u32" => Some(Declared::Uint(UintTy::U32)),
        b"u64" => Some(Declared::Uint(UintTy::U64)),
        b"u128" => Some(Declared::Uint(UintTy::U128)),
        b"usize" => Some(Declared::Uint(UintTy::Usize)),
        _ => None,
    }
}

impl NameTable {
    ghost use Rattle.nts_text.specs.NameTable.{declared_as, signatures, IsNameTaken, KeepsOthers, NameStandsFor};

    /// No names but those of the known types.
    pub fn new(alloc: Global) -> Self
        ensures empty { (name : List ℕ) → declared_as result name ≡ None }
        ensures types { result.types.items ≡ [] }
        ensures traits { result.traits.items ≡ [] }
        ensures aliases { result.aliases.items ≡ [] }
    {
        NameTable {
            numbers: IndexMap::new(alloc),
            types: Vec::new(alloc),
            traits: Vec::new(alloc),
            aliases: Vec::new(alloc),
        }
    }

    /// What a name stands for, if it is known or declared.
    pub fn lookup(&self, name: &[u8]) -> Option<Declared>
        ensures found { IfSome result (NameStandsFor self.now name.now) }
        ensures unknown { IsNone result → IsNameTaken self.now name.now → ⊥ }
        ensures numbered { IfSome result (λ d. is_numbered (vec_len self.now.types)
            (vec_len self.now.traits) (vec_len self.now.aliases) d ≡ true) }
    {
        match known_type(name) {
            Some(known) => Some(known),
            None => self.numbers.get(name).copied(),
        }
    }

    /// Declares a type, and answers its number. Where memory runs out no name changes its meaning.
    pub fn declare_type(
        &mut self,
        alloc: Global,
        name: &[u8],
        sorts: Vec<Sort>,
    ) -> Result<usize, TextError>
        ensures taken { IfErr result (λ e. e ≢ Memory → (e ≡ Refused NameDeclaredTwice) ×
            IsNameTaken self.old name.now) }
        ensures kept { result ≡ Err (Refused NameDeclaredTwice) → self.new ≡ self.old }
        ensures free { OnOk result (IsNameTaken self.old name.now → ⊥) }
        ensures declared { IfOk result (λ n. declared_as self.new name.now ≡ Some
            (Declared.Type n)) }
        ensures others { KeepsOthers self.old self.new name.now }
        ensures number { IfOk result (λ n. n ≡ vec_len self.old.types) }
        ensures listed { OnOk result (signatures self.new.types.items ≡ signatures
            self.old.types.items ++ (name.now, sorts.items) ∷ []) }
        ensures traits { self.new.traits ≡ self.old.traits }
        ensures aliases { self.new.aliases ≡ self.old.aliases }
    {
        if self.lookup(name).is_some() {
            return Err(TextError::Refused(Refusal::NameDeclaredTwice));
        }
        let number = self.types.len();
        let key = Vec::from_slice(alloc, name)?;
        let name = Vec::from_slice(alloc, name)?;
        self.types.push(Signature { name, sorts })?;
        self.numbers.insert(key, Declared::Type(number))?;
        Ok(number)
    }

    /// Declares a trait, and answers its number. Where memory runs out no name changes its meaning.
    pub fn declare_trait(
        &mut self,
        alloc: Global,
        name: &[u8],
        sorts: Vec<Sort>,
    ) -> Result<usize, TextError>
        ensures taken { IfErr result (λ e. e ≢ Memory → (e ≡ Refused NameDeclaredTwice) ×
            IsNameTaken self.old name.now) }
        ensures kept { result ≡ Err (Refused NameDeclaredTwice) → self.new ≡ self.old }
        ensures free { OnOk result (IsNameTaken self.old name.now → ⊥) }
        ensures declared { IfOk result (λ n. declared_as self.new name.now ≡ Some
            (Declared.Trait n)) }
        ensures others { KeepsOthers self.old self.new name.now }
        ensures number { IfOk result (λ n. n ≡ vec_len self.old.traits) }
        ensures listed { OnOk result (signatures self.new.traits.items ≡ signatures
            self.old.traits.items ++ (name.now, sorts.items) ∷ []) }
        ensures types { self.new.types ≡ self.old.types }
        ensures aliases { self.new.aliases ≡ self.old.aliases }
    {
        if self.lookup(name).is_some() {
            return Err(TextError::Refused(Refusal::NameDeclaredTwice));
        }
        let number = self.traits.len();
        let key = Vec::from_slice(alloc, name)?;
        let name = Vec::from_slice(alloc, name)?;
        self.traits.push(Signature { name, sorts })?;
        self.numbers.insert(key, Declared::Trait(number))?;
        Ok(number)
    }

    /// Declares an alias of types, rigid or not, and answers its number. Where memory runs out no name changes
    /// its meaning.
    pub fn declare_alias(
        &mut self,
        alloc: Global,
        name: &[u8],
        sorts: Vec<Sort>,
        is_rigid: bool,
    ) -> Result<usize, TextError>
        ensures taken { IfErr result (λ e. e ≢ Memory → (e ≡ Refused NameDeclaredTwice) ×
            IsNameTaken self.old name.now) }
        ensures kept { result ≡ Err (Refused NameDeclaredTwice) → self.new ≡ self.old }
        ensures free { OnOk result (IsNameTaken self.old name.now → ⊥) }
        ensures declared { IfOk result (λ n. declared_as self.new name.now ≡ Some
            (Declared.Alias n is_rigid)) }
        ensures others { KeepsOthers self.old self.new name.now }
        ensures number { IfOk result (λ n. n ≡ vec_len self.old.aliases) }
        ensures listed { OnOk result (signatures self.new.aliases.items ≡ signatures
            self.old.aliases.items ++ (name.now, sorts.items) ∷ []) }
        ensures types { self.new.types ≡ self.old.types }
        ensures traits { self.new.traits ≡ self.old.traits }
    {
        if self.lookup(name).is_some() {
            return Err(TextError::Refused(Refusal::NameDeclaredTwice));
        }
        let number = self.aliases.len();
        let key = Vec::from_slice(alloc, name)?;
        let name = Vec::from_slice(alloc, name)?;
        self.aliases.push(Signature { name, sorts })?;
        self.numbers
            .insert(key, Declared::Alias { number, is_rigid })?;
        Ok(number)
    }
}

/// Names that are used without a declaration, with their marks, numbered in order of first sight.
#[derive(Drop)]
pub struct Spellings {
    pub types: IndexSet<Vec<u8>>,
    pub regions: IndexSet<Vec<u8>>,
}

impl Spellings {
    /// No names.
    pub fn new(alloc: Global) -> Self
        ensures types { type_names result ≡ [] }
        ensures regions { region_names result ≡ [] }
    {
        Spellings {
            types: IndexSet::new(alloc),
            regions: IndexSet::new(alloc),
        }
    }

    /// The number of a type's name, which is new if the name is.
    #[tactic(auto, using(crate::proofs::SpellingLemmas::spelling))]
    pub fn type_number(&mut self, alloc: Global, name: &[u8]) -> Result<usize, AllocError>
        ensures number { IfOk result (λ n. IsNumberOf (type_names self.new) n name.now) }
        ensures kept { Lengthens (type_names self.old) (type_names self.new) }
        ensures others { self.new.regions ≡ self.old.regions }
    {
        let (number, _) = self.types.insert_full(Vec::from_slice(alloc, name)?)?;
        Ok(number)
    }

    /// The number of a region's name, which is new if the name is.
    #[tactic(auto, using(crate::proofs::SpellingLemmas::spelling))]
    pub fn region_number(&mut self, alloc: Global, name: &[u8]) -> Result<usize, AllocError>
        ensures number { IfOk result (λ n. IsNumberOf (region_names self.new) n name.now) }
        ensures kept { Lengthens (region_names self.old) (region_names self.new) }
        ensures others { self.new.types ≡ self.old.types }
    {
        let (number, _) = self.regions.insert_full(Vec::from_slice(alloc, name)?)?;
        Ok(number)
    }
}

/// The variables of one line, and the parameters of all lines so far.
#[derive(Drop)]
pub struct Scope {
    pub variables: Spellings,
    pub parameters: Spellings,
}

impl Scope {
    /// No variables and no parameters.
    pub fn new(alloc: Global) -> Self
        ensures types { type_names result.parameters ≡ [] }
        ensures regions { region_names result.parameters ≡ [] }
    {
        Scope {
            variables: Spellings::new(alloc),
            parameters: Spellings::new(alloc),
        }
    }

    /// Forgets the variables of the line before. Parameters stay.
    pub fn begin_line(&mut self, alloc: Global)
        ensures types { type_names self.new.variables ≡ [] }
        ensures regions { region_names self.new.variables ≡ [] }
        ensures parameters { self.new.parameters ≡ self.old.parameters }
    {
        self.variables = Spellings::new(alloc);
    }
}

/// The names that binders bind, with their marks. A name's number is its place in its binder's list.
#[derive(Drop)]
pub struct Bounds {
    /// The names that the binder of the predicate at hand binds.
    pub here: IndexSet<Vec<u8>>,
    /// Those of the next predicate's binder, as far as it is read.
    pub next: IndexSet<Vec<u8>>,
}

impl Bounds {
    ghost use Rattle.nts_text.specs.Binders.{bound_names, nothing_bound, with_bound, predicate_begun};
    ghost use Rattle.nts_text.specs.Spelled.{HasNoNumber};

    /// No names.
    pub fn new(alloc: Global) -> Self
        ensures { bound_names result ≡ nothing_bound }
    {
        Bounds {
            here: IndexSet::new(alloc),
            next: IndexSet::new(alloc),
        }
    }

    /// Adds a name to those of the next predicate's binder. Answers whether it was none of them.
    #[tactic(auto, using(crate::proofs::SpellingLemmas::spelling))]
    pub fn bind(&mut self, alloc: Global, name: &[u8]) -> Result<bool, AllocError>
        ensures bound { IfOk result (λ new. new ≡ true →
            bound_names self.new ≡ with_bound (bound_names self.old) name.now) }
        ensures new { IfOk result (λ new. new ≡ true →
            HasNoNumber (bound_names self.old).next name.now) }
        ensures twice { IfOk result (λ new. new ≡ false →
            (n : ℕ) × IsNumberOf (bound_names self.old).next n name.now) }
    {
        let (_, is_new) = self.next.insert_full(Vec::from_slice(alloc, name)?)?;
        Ok(is_new)
    }

    /// Begins the next predicate.
    pub fn begin_predicate(&mut self, alloc: Global)
        ensures { bound_names self.new ≡ predicate_begun (bound_names self.old) }
    {
        self.here = mem::replace(&mut self.next, IndexSet::new(alloc));
    }

    /// The number of a name that the binder of the predicate at hand binds.
    pub fn number(&self, name: &[u8]) -> Option<usize>
        ensures found { IfSome result (λ n. IsNumberOf (bound_names self.now).here n name.now) }
        ensures none { IsNone result → HasNoNumber (bound_names self.now).here name.now }
    {
        self.here.get_index_of(name)
    }
}
