//! What a closure answers in a test, with each condition of its answer tested by a public function.
ghost use Rattle.std.specs.Prelude.{IfOk};
ghost use Rattle.nts_table.specs.Tables.{IsTable};
ghost use Rattle.nts_normalize.specs.Calling.{IsAliasTerm, IsAnswerIn, KeepsAll};

use nts_model::UintTy;
use nts_store::EvalError;
use nts_table::InferCtxt;
use nts_terms::{AliasDefId, AliasTerm, CtorId, Cx, DefId, Goal, Term, Ty, TyKind};

/// An answer to an alias.
#[derive(Clone, Copy)]
pub enum Script {
    /// `u8`.
    Word,
    /// The constructor over the arguments of the alias.
    Wrapped(CtorId),
    /// A variable that is made for the answer, and a goal.
    Fresh(Goal),
    /// This type, and a goal.
    Known(Ty, Goal),
    /// No solution.
    Refuse,
}

/// What the closure answers by a script.
pub fn answer(
    table: &mut InferCtxt,
    cx: &mut Cx,
    alias: AliasTerm,
    script: Script,
) -> Result<(Term, Option<Goal>), EvalError>
    requires table { IsTable cx.old.nodes table.old }
    requires args { IsAliasTerm cx.old.nodes alias }
    ensures keeps { KeepsAll table.old cx.old alias result table.new cx.new }
{
    match script {
        Script::Word => {
            let ty = cx.mk_ty(TyKind::Uint(UintTy::U8))?;
            checked(table, cx, alias, ty, None)
        }
        Script::Wrapped(ctor) => {
            if !cx.fits(DefId::Ctor(ctor), alias.args) {
                return Err(EvalError::NoSolution);
            }
            let ty = cx.mk_ty(TyKind::Ctor(ctor, alias.args))?;
            checked(table, cx, alias, ty, None)
        }
        Script::Fresh(goal) => {
            let ty = table.next_ty_infer(cx)?;
            checked(table, cx, alias, ty, Some(goal))
        }
        Script::Known(ty, goal) => checked(table, cx, alias, ty, Some(goal)),
        Script::Refuse => Err(EvalError::NoSolution),
    }
}

/// The answer, if it is one that the folder takes.
fn checked(
    table: &InferCtxt,
    cx: &Cx,
    alias: AliasTerm,
    ty: Ty,
    goal: Option<Goal>,
) -> Result<(Term, Option<Goal>), EvalError>
    ensures { IfOk result (IsAnswerIn cx.now.nodes table.now alias) }
{
    let AliasDefId::Ty(_) = alias.def_id else {
        return Err(EvalError::NoSolution);
    };
    if !cx.holds(ty) || !table.knows(cx, ty)? {
        return Err(EvalError::NoSolution);
    }
    if let Some(goal) = goal {
        if !cx.holds(goal.param_env) || !cx.holds(goal.predicate) {
            return Err(EvalError::NoSolution);
        }
    }
    Ok((Term::from(ty), goal))
}
