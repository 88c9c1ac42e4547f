//! Two values of the table related by a variance, or made equal.
ghost use Rattle.std.specs.Prelude.{◌≡◌, ◌≢◌, OnOk, OnErr, IfOk, Err};
ghost use Rattle.nts_terms.specs.Signatures.{variances_in};
ghost use Rattle.nts_model.specs.Tables.Equations.{AreRelated, AreUnrelated};
ghost use Rattle.nts_model.specs.Tables.Passing.{BringsLabelsOf};
ghost use Rattle.nts_store.specs.Growth.{tree_at};
ghost use Rattle.nts_unify.specs.Reading.{content_of};
ghost use Rattle.nts_table.specs.Tables.{Table, IsTable, IsSide, RelatingKeeps};
ghost use Rattle.nts_solver_relating.specs.Sides.{SolverRelatingKeeps, IsRelatedIn, RefusesIn, ArePlainIn, AreMadeEqualIn, AreUnrelatedIn};

use crate::nodes::relate_by;
use crate::related::Relate;
use nts_equating::relate_nodes;
use nts_model::Variance;
use nts_store::EvalError;
use nts_table::InferCtxt;
use nts_terms::{Cx, Goal, ParamEnv, Span};

/// What a table does with two values. The calls stand in a trait, since relating is a layer of its own above the table.
pub trait RelateExt {
    ghost seen: { Self → Table };

    /// Relates two values of the store and the table by a variance, and answers the goals that are left, in this environment: of
    /// pairs with an alias without escaping bound variables, and of pairs that vary and have a type variable on both sides, or one
    /// that had no value before and has one now. Consts do not vary, and neither do the arguments of aliases and trait references,
    /// which are related one by one, without a goal for the alias.
    ///
    /// Under each later table in which the goals are answered the two are related; and each settled solution in which they settle
    /// goes on to one of the table in which the goals settle. Invariantly, where no alias stands in the two, they are made equal, and
    /// no goal is left. It is `NoSolution` where they are of two aliases or traits, or where they settle in no settled solution, and
    /// `Memory` where a growth was refused. After an error the table is as before.
    fn relate<T: Relate>(
        &mut self,
        cx: &mut Cx,
        env: ParamEnv,
        lhs: T,
        variance: Variance,
        rhs: T,
        span: Span,
    ) -> Result<Vec<Goal>, EvalError>
        requires table { IsTable cx.old.nodes (seen self.old) }
        requires left { IsSide T.place cx.old.nodes (seen self.old) (T.id lhs) }
        requires right { IsSide T.place cx.old.nodes (seen self.old) (T.id rhs) }
        ensures keeps { SolverRelatingKeeps cx.old cx.new (seen self.old) (seen self.new) }
        ensures heads { OnOk result (T.head lhs ≡ T.head rhs) }
        ensures related { IfOk result (λ gs. IsRelatedIn (variances_in cx.old.declarations)
            cx.old.nodes cx.new.nodes (seen self.old).entries (seen self.new).entries env variance
            (T.id lhs) (T.id rhs) gs.items) }
        ensures equal { ArePlainIn variance cx.old.nodes (seen self.old).entries (T.id lhs)
            (T.id rhs) → IfOk result (λ gs. AreMadeEqualIn cx.old.nodes cx.new.nodes
            (seen self.old).entries (seen self.new).entries (T.id lhs) (T.id rhs) gs.items) }
        ensures no { result ≡ Err EvalError.NoSolution → T.head lhs ≡ T.head rhs →
            RefusesIn (variances_in cx.old.declarations) cx.old.nodes
            (seen self.old).entries variance (T.id lhs) (T.id rhs) }
        ensures unequal { ArePlainIn variance cx.old.nodes (seen self.old).entries (T.id lhs)
            (T.id rhs) → result ≡ Err EvalError.NoSolution → T.head lhs ≡ T.head rhs →
            AreUnrelatedIn cx.old.nodes (seen self.old).entries (T.id lhs) (T.id rhs) }
        ensures err { OnErr result (seen self.new ≡ seen self.old) }
        ensures full { result ≢ Err EvalError.Full };

    /// Makes two values one, with aliases taken as they stand. It is `NoSolution` where they are of two aliases or traits, or where no
    /// solution of the table makes them equal, and `Memory` where a growth was refused. After an error the table is as before.
    fn eq_structurally_relating_aliases<T: Relate>(
        &mut self,
        cx: &mut Cx,
        env: ParamEnv,
        lhs: T,
        rhs: T,
        span: Span,
    ) -> Result<(), EvalError>
        requires table { IsTable cx.old.nodes (seen self.old) }
        requires left { IsSide T.place cx.old.nodes (seen self.old) (T.id lhs) }
        requires right { IsSide T.place cx.old.nodes (seen self.old) (T.id rhs) }
        ensures heads { OnOk result (T.head lhs ≡ T.head rhs) }
        ensures related { OnOk result (AreRelated (content_of cx.old.nodes (seen self.old).entries)
            (content_of cx.new.nodes (seen self.new).entries) (tree_at cx.old.nodes (T.id lhs))
            (tree_at cx.old.nodes (T.id rhs))) }
        ensures labels { OnOk result (BringsLabelsOf
            (content_of cx.old.nodes (seen self.old).entries)
            (content_of cx.new.nodes (seen self.new).entries) (tree_at cx.old.nodes (T.id lhs))
            (tree_at cx.old.nodes (T.id rhs))) }
        ensures no { result ≡ Err EvalError.NoSolution → T.head lhs ≡ T.head rhs →
            AreUnrelated (content_of cx.old.nodes (seen self.old).entries)
            (tree_at cx.old.nodes (T.id lhs)) (tree_at cx.old.nodes (T.id rhs)) }
        ensures keeps { RelatingKeeps cx.old cx.new (seen self.old) (seen self.new) }
        ensures err { OnErr result (seen self.new ≡ seen self.old) }
        ensures full { result ≢ Err EvalError.Full };
}

impl RelateExt for InferCtxt {
    ghost seen = { λ t. t };

    fn relate<T: Relate>(
        &mut self,
        cx: &mut Cx,
        env: ParamEnv,
        lhs: T,
        variance: Variance,
        rhs: T,
        _span: Span,
    ) -> Result<Vec<Goal>, EvalError> {
        if lhs.def() != rhs.def() {
            return Err(EvalError::NoSolution);
        }
        let alloc = cx.alloc;
        relate_by(
            alloc,
            &mut cx.nodes,
            &cx.declarations,
            self,
            env,
            variance,
            lhs.node(),
            rhs.node(),
        )
    }

    fn eq_structurally_relating_aliases<T: Relate>(
        &mut self,
        cx: &mut Cx,
        _env: ParamEnv,
        lhs: T,
        rhs: T,
        _span: Span,
    ) -> Result<(), EvalError> {
        if lhs.def() != rhs.def() {
            return Err(EvalError::NoSolution);
        }
        relate_nodes(cx.alloc, &mut cx.nodes, self, lhs.node(), rhs.node())
    }
}
