//! A folder with a state that may give up, and one that looks at binders.
use nts_folding::TypeFolder;
use nts_model::BoundVarIndexKind;
use nts_store::Fault;
use nts_terms::{BoundTy, Const, Cx, InferTy, Predicate, Region, Term, Ty, TyKind};
use std::alloc::AllocError;

/// Why a term was refused.
#[derive(Drop)]
pub enum Refusal {
    Memory,
    Variable(usize),
}

impl From<AllocError> for Refusal {
    fn from(_e: AllocError) -> Refusal {
        Refusal::Memory
    }
}

impl From<Fault> for Refusal {
    fn from(_e: Fault) -> Refusal {
        Refusal::Memory
    }
}

/// Puts the first two positions in place of two type variables, in the order in which it meets them, and as many more as there
/// are binders around. It refuses a third one, and counts the types that it sees.
#[derive(Drop)]
pub struct Numbering {
    pub first: Option<usize>,
    pub second: Option<usize>,
    pub inside: usize,
    pub types: usize,
}

impl Numbering {
    pub fn new() -> Numbering {
        Numbering {
            first: None,
            second: None,
            inside: 0,
            types: 0,
        }
    }

    fn number(&mut self, variable: usize) -> Result<usize, Refusal> {
        let place = place_in(self.first, self.second, variable);
        match place {
            0 => self.first = Some(variable),
            1 => self.second = Some(variable),
            _ => return Err(Refusal::Variable(variable)),
        }
        Ok(place)
    }

    /// How many variables it has met.
    pub fn met(&self) -> usize {
        match (self.first, self.second) {
            (_, Some(_)) => 2,
            (Some(_), None) => 1,
            (None, None) => 0,
        }
    }
}

/// The place of a number among two that there may be; 2 where it is none of them.
fn place_in(first: Option<usize>, second: Option<usize>, number: usize) -> usize {
    match (first, second) {
        (None, _) => 0,
        (Some(one), _) if one == number => 0,
        (_, None) => 1,
        (_, Some(two)) if two == number => 1,
        _ => 2,
    }
}

impl TypeFolder for Numbering {
    ghost use Rattle.std.specs.Prelude.{⊤, refl};

    type Error = Refusal;

    ghost Meaning = { Unit {0} };

    ghost meaning = { λ ts s. tt };

    ghost ready = { λ ts s. ⊤ };

    ghost answers = { λ s x o t. ⊤ };

    ghost enters = { λ s t. ⊤ };

    ghost leaves = { λ s t. ⊤ };

    ghost rebuilds = { λ s x y t. ⊤ };

    ghost fails = { λ s o e. ⊤ };

    ghost keeps = { λ s t. ⊤ };

    ghost keeps_refl = { λ s. tt };

    ghost keeps_trans = { λ s t u a b. tt };

    ghost ready_kept = { λ a b s h e. tt };

    ghost memory_fails = { λ m e h. tt };

    ghost meaning_kept = { λ a b s h e. refl };

    fn fold_ty(&mut self, cx: &mut Cx, t: Ty) -> Result<Option<Ty>, Refusal> {
        self.types = self.types.saturating_add(1);
        let TyKind::Infer(InferTy::TyVar(variable)) = t.kind(cx) else {
            return Ok(None);
        };
        let var = self.number(variable)?.saturating_add(self.inside);
        let position = TyKind::Bound(BoundVarIndexKind::Canonical, BoundTy { var });
        Ok(Some(cx.mk_ty(position)?))
    }

    fn fold_region(&mut self, _cx: &mut Cx, _t: Region) -> Result<Option<Region>, Refusal> {
        Ok(None)
    }

    fn fold_const(&mut self, _cx: &mut Cx, _t: Const) -> Result<Option<Const>, Refusal> {
        Ok(None)
    }

    fn fold_predicate(
        &mut self,
        _cx: &mut Cx,
        _t: Predicate,
    ) -> Result<Option<Predicate>, Refusal> {
        Ok(None)
    }

    fn enter_binder(&mut self) -> Result<(), Refusal> {
        self.inside = self.inside.saturating_add(1);
        Ok(())
    }

    fn leave_binder(&mut self) {
        self.inside = self.inside.saturating_sub(1);
    }

    fn rebuilt(&mut self, _cx: &mut Cx, t: Term) -> Result<Term, Refusal> {
        Ok(t)
    }
}

/// Counts the binders that it goes into, those that it is in, and the types and consts made again.
#[derive(Drop)]
pub struct Counting {
    pub entered: usize,
    pub inside: usize,
    pub rebuilt: usize,
}

impl TypeFolder for Counting {
    ghost use Rattle.std.specs.Prelude.{◌≡◌, ⊤, None, refl};

    type Error = Fault;

    ghost Meaning = { Unit {0} };

    ghost meaning = { λ ts s. tt };

    ghost ready = { λ ts s. ⊤ };

    ghost answers = { λ s x o t. o ≡ None };

    ghost enters = { λ s t. ⊤ };

    ghost leaves = { λ s t. ⊤ };

    ghost rebuilds = { λ s x y t. y ≡ x };

    ghost fails = { λ s o e. ⊤ };

    ghost keeps = { λ s t. ⊤ };

    ghost keeps_refl = { λ s. tt };

    ghost keeps_trans = { λ s t u a b. tt };

    ghost ready_kept = { λ a b s h e. tt };

    ghost memory_fails = { λ m e h. tt };

    ghost meaning_kept = { λ a b s h e. refl };

    fn fold_ty(&mut self, _cx: &mut Cx, _t: Ty) -> Result<Option<Ty>, Fault> {
        Ok(None)
    }

    fn fold_region(&mut self, _cx: &mut Cx, _t: Region) -> Result<Option<Region>, Fault> {
        Ok(None)
    }

    fn fold_const(&mut self, _cx: &mut Cx, _t: Const) -> Result<Option<Const>, Fault> {
        Ok(None)
    }

    fn fold_predicate(&mut self, _cx: &mut Cx, _t: Predicate) -> Result<Option<Predicate>, Fault> {
        Ok(None)
    }

    fn enter_binder(&mut self) -> Result<(), Fault> {
        self.entered = self.entered.saturating_add(1);
        self.inside = self.inside.saturating_add(1);
        Ok(())
    }

    fn leave_binder(&mut self) {
        self.inside = self.inside.saturating_sub(1);
    }

    fn rebuilt(&mut self, _cx: &mut Cx, t: Term) -> Result<Term, Fault> {
        self.rebuilt = self.rebuilt.saturating_add(1);
        Ok(t)
    }
}
