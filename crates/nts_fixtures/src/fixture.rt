//! A store, what is declared in it, and a table of it.
ghost use Rattle.std.specs.Prelude.{IfOk};
ghost use Rattle.nts_table.specs.Tables.{IsTable};

use nts_model::{Sort, Variance};
use nts_store::EvalError;
use nts_table::InferCtxt;
use nts_terms::{AliasId, AliasKind, CtorId, Cx, ParamEnv, TypingMode};
use std::alloc::Global;

/// A store and a table, and the empty environment. Declared are constructors of a type, of two types, and of a region and a
/// type, and an alias of a type.
#[derive(Drop)]
pub struct Fixture {
    pub cx: Cx,
    pub table: InferCtxt,
    pub env: ParamEnv,
    pub one: CtorId,
    pub two: CtorId,
    pub borrow: CtorId,
    pub item: AliasId,
}

impl Fixture {
    pub fn new(alloc: Global) -> Result<Fixture, EvalError>
        ensures { IfOk result (λ f. IsTable f.cx.nodes f.table) }
    {
        let mut cx = Cx::new(alloc);
        let kept = Variance::Covariant;
        let one = cx.declare_ctor(&[Sort::Ty], &[kept])?;
        let two = cx.declare_ctor(&[Sort::Ty, Sort::Ty], &[kept, kept])?;
        let borrow = cx.declare_ctor(&[Sort::Region, Sort::Ty], &[kept, kept])?;
        let item = cx.declare_alias(&[Sort::Ty], AliasKind::Projection)?;
        let env = cx.mk_env(&[])?;
        let table = InferCtxt::new(alloc, TypingMode::PostAnalysis);
        Ok(Fixture {
            cx,
            table,
            env,
            one,
            two,
            borrow,
            item,
        })
    }

    /// A new alias of arguments of these sorts.
    pub fn declare_alias(&mut self, sorts: &[Sort], kind: AliasKind) -> Result<AliasId, EvalError>
        requires { IsTable self.old.cx.nodes self.old.table }
        ensures { IsTable self.new.cx.nodes self.new.table }
    {
        Ok(self.cx.declare_alias(sorts, kind)?)
    }
}
