//! What is declared, by number.
ghost use Rattle.std.specs.Prelude.{IsTrue, ◌↔◌, ◌≡◌, ◌++◌, ◌∷◌, [], length, slice_get, IfOk, OnOk, OnErr, IsOkUnless, MatchOption, Some, None};
ghost use Rattle.nts_terms.specs.Signatures.{AreVariancesOf, IsVarianceOf};

use crate::cx::Cx;
use crate::handles::{AliasDefId, AliasId, ConstId, CtorId, DefId, TraitId, Ty};
use nts_model::{Sort, Variance};
use nts_store::Fault;
use std::alloc::Global;
use std::marker::Model;

/// What a declared alias of types is.
#[derive(Clone, Copy, PartialEq, Eq)]
pub enum AliasKind {
    Projection,
    Opaque,
}

#[derive(Drop)]
struct CtorSignature {
    sorts: Vec<Sort>,
    variances: Vec<Variance>,
}

impl Model for CtorSignature {
    ghost use Rattle.nts_terms.specs.Signatures.{CtorSorts};

    ghost Value = { CtorSorts };

    ghost view = { λ c. record { sorts = c.sorts.items; variances = c.variances.items } };
}

#[derive(Drop)]
struct TraitSignature {
    sorts: Vec<Sort>,
}

impl Model for TraitSignature {
    ghost use Rattle.std.specs.Prelude.{List};
    ghost use Rattle.nts_model.specs.declared.labels.Sort.{Sort};

    ghost Value = { List Sort };

    ghost view = { λ t. t.sorts.items };
}

#[derive(Drop)]
struct AliasSignature {
    sorts: Vec<Sort>,
    kind: AliasKind,
}

impl Model for AliasSignature {
    ghost use Rattle.nts_terms.specs.Signatures.{AliasSorts};

    ghost Value = { AliasSorts };

    ghost view = { λ a. record { sorts = a.sorts.items; kind = a.kind } };
}

#[derive(Drop)]
struct ConstSignature {
    sorts: Vec<Sort>,
    ty: Ty,
}

impl Model for ConstSignature {
    ghost use Rattle.nts_terms.specs.Signatures.{ConstSorts};

    ghost Value = { ConstSorts };

    ghost view = { λ c. record { sorts = c.sorts.items; ty = c.ty } };
}

/// The declared constructors, traits, aliases and consts. A caller sees the lists of what each takes.
#[derive(Drop)]
pub struct Declarations {
    alloc: Global,
    ctors: Vec<CtorSignature>,
    traits: Vec<TraitSignature>,
    aliases: Vec<AliasSignature>,
    consts: Vec<ConstSignature>,
}

impl Model for Declarations {
    ghost use Rattle.nts_terms.specs.Signatures.{Declared};

    ghost Value = { Declared };

    ghost view = { λ d. record { ctors = d.ctors.items; traits = d.traits.items; aliases = d.aliases.items; consts = d.consts.items } };
}

impl Declarations {
    ghost use Rattle.nts_terms.specs.Signatures.{nothing_declared, declared_sorts, type_of, variances_in, variance_or_invariant};

    /// Nothing declared. It takes no memory.
    pub(crate) fn new(alloc: Global) -> Self
        ensures { result ≡ nothing_declared }
    {
        Declarations {
            alloc,
            ctors: Vec::new(alloc),
            traits: Vec::new(alloc),
            aliases: Vec::new(alloc),
            consts: Vec::new(alloc),
        }
    }

    /// The type that a const was declared with; `None` for a number that isn't declared.
    pub fn const_type(&self, def: ConstId) -> Option<Ty>
        ensures { result ≡ type_of self.now def }
    {
        match self.consts.get(def.number) {
            Some(signature) => Some(signature.ty),
            None => None,
        }
    }

    /// How the argument of a constructor at a place varies with the whole. What is not declared is invariant.
    pub fn variance_of(&self, def: CtorId, place: usize) -> Variance
        ensures { result ≡ variance_or_invariant (slice_get (variances_in self.now def.number)
            place) }
    {
        match self.ctors.get(def.number) {
            Some(signature) => match signature.variances.get(place) {
                Some(variance) => *variance,
                None => Variance::Invariant,
            },
            None => Variance::Invariant,
        }
    }

    /// The sorts that something declared takes; `None` for a number that isn't declared.
    pub fn sorts(&self, def: DefId) -> Option<&[Sort]>
        ensures { MatchOption result (declared_sorts self.now def ≡ None) (λ s.
            declared_sorts self.now def ≡ Some s.now) }
    {
        match def {
            DefId::Ctor(c) => match self.ctors.get(c.number) {
                Some(ctor) => Some(ctor.sorts.as_slice()),
                None => None,
            },
            DefId::Trait(t) => match self.traits.get(t.number) {
                Some(signature) => Some(signature.sorts.as_slice()),
                None => None,
            },
            DefId::Alias(AliasDefId::Ty(a)) => match self.aliases.get(a.number) {
                Some(alias) => Some(alias.sorts.as_slice()),
                None => None,
            },
            DefId::Alias(AliasDefId::Const(c)) => match self.consts.get(c.number) {
                Some(ct) => Some(ct.sorts.as_slice()),
                None => None,
            },
        }
    }
}

fn may_vary(sort: Sort, variance: Variance) -> bool
    ensures { IsTrue result ↔ IsVarianceOf sort variance }
{
    sort != Sort::Const || variance == Variance::Invariant
}

/// Whether a constructor with arguments of these sorts may be declared with these variances: there is one for each, and a
/// const's is invariant.
pub fn are_variances(sorts: &[Sort], variances: &[Variance]) -> bool
    ensures { IsTrue result ↔ AreVariancesOf sorts.now variances.now }
{
    if sorts.len() != variances.len() {
        return false;
    }
    for (i, sort) in sorts.iter().enumerate() {
        if !may_vary(*sort, variances[i]) {
            return false;
        }
    }
    true
}

impl Cx {
    ghost use Rattle.nts_store.specs.Growth.{tree_at};
    ghost use Rattle.nts_terms.specs.Handles.{HoldsTy};
    ghost use Rattle.nts_terms.specs.ConstTypes.{IsConstType};
    ghost use Rattle.nts_terms.specs.Signatures.{with_ctor, with_trait, with_alias, with_const};

    /// A new constructor, which takes arguments of these sorts that vary with the whole like this. A const doesn't vary.
    /// `are_variances` is the test.
    pub fn declare_ctor(&mut self, sorts: &[Sort], variances: &[Variance]) -> Result<CtorId, Fault>
        requires variances { AreVariancesOf sorts.now variances.now }
        ensures number { IfOk result (λ c. c.number ≡ length self.old.declarations.ctors) }
        ensures declared { OnOk result (self.new ≡ record self.old {
          declarations = with_ctor
              self.old.declarations sorts.now variances.now;
        }) }
        ensures err { OnErr result (self.new ≡ self.old) }
        ensures memory { IsOkUnless result Fault.Memory }
    {
        let number = self.declarations.ctors.len();
        let sorts = sorts.to_vec(self.alloc)?;
        let variances = variances.to_vec(self.alloc)?;
        self.declarations
            .ctors
            .push(CtorSignature { sorts, variances })?;
        Ok(CtorId { number })
    }

    /// A new trait, which takes arguments of these sorts.
    pub fn declare_trait(&mut self, sorts: &[Sort]) -> Result<TraitId, Fault>
        ensures number { IfOk result (λ t. t.number ≡ length self.old.declarations.traits) }
        ensures declared { OnOk result (self.new ≡ record self.old {
          declarations = with_trait
              self.old.declarations sorts.now;
        }) }
        ensures err { OnErr result (self.new ≡ self.old) }
        ensures memory { IsOkUnless result Fault.Memory }
    {
        let number = self.declarations.traits.len();
        let sorts = sorts.to_vec(self.alloc)?;
        self.declarations.traits.push(TraitSignature { sorts })?;
        Ok(TraitId { number })
    }

    /// A new alias of types, which takes arguments of these sorts.
    pub fn declare_alias(&mut self, sorts: &[Sort], kind: AliasKind) -> Result<AliasId, Fault>
        ensures number { IfOk result (λ a. a.number ≡ length self.old.declarations.aliases) }
        ensures declared { OnOk result (self.new ≡ record self.old {
          declarations = with_alias
              self.old.declarations sorts.now kind;
        }) }
        ensures err { OnErr result (self.new ≡ self.old) }
        ensures memory { IsOkUnless result Fault.Memory }
    {
        let number = self.declarations.aliases.len();
        let sorts = sorts.to_vec(self.alloc)?;
        self.declarations
            .aliases
            .push(AliasSignature { sorts, kind })?;
        Ok(AliasId { number })
    }

    /// A new const, which takes arguments of these sorts and has this type. In the type, argument i is
    /// the canonical bound variable i of its sort. `is_const_type` is the test.
    pub fn declare_const(&mut self, sorts: &[Sort], ty: Ty) -> Result<ConstId, Fault>
        requires holds { HoldsTy self.old.nodes ty }
        requires ty { IsConstType sorts.now (tree_at self.old.nodes ty.node) }
        ensures number { IfOk result (λ c. c.number ≡ length self.old.declarations.consts) }
        ensures declared { OnOk result (self.new ≡ record self.old {
          declarations = with_const
              self.old.declarations sorts.now ty;
        }) }
        ensures err { OnErr result (self.new ≡ self.old) }
        ensures memory { IsOkUnless result Fault.Memory }
    {
        let number = self.declarations.consts.len();
        let sorts = sorts.to_vec(self.alloc)?;
        self.declarations.consts.push(ConstSignature { sorts, ty })?;
        Ok(ConstId { number })
    }
}
