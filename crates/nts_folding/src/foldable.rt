//! The values that a folder maps.
ghost use Rattle.std.specs.Prelude.{◌≡◌, [], List, All, map, IfOk, IfErr, IfSome, option_map};
ghost use Rattle.nts_model.specs.Terms.Trees.{Tree, empty, more, a_type, a_region, a_const, any_term, any_argument, is, arguments, bound_predicate, environment, sort_list};
ghost use Rattle.nts_model.specs.Derivations.Related.{pair};
ghost use Rattle.nts_terms.specs.nts_store.specs.Growth.{tree_at, Extends};
ghost use Rattle.nts_terms.specs.Handles.{Holds, HoldsTy, HoldsRegion, HoldsConst, HoldsTerm, HoldsArg, HoldsArgs, HoldsPredicate, HoldsEnv, HoldsVars};
ghost use Rattle.nts_folding.specs.FoldLaws.{Holds-kept};
ghost use Rattle.nts_folding.specs.Folding.{Walk, Stops};
ghost use Rattle.nts_terms.specs.Rest.{Grows};

use crate::fold::{TypeFolder, fold_node, push};
use nts_terms::{
    AliasTerm, Binder, BoundVars, Const, Cx, GenericArg, GenericArgs, Goal, ParamEnv, Predicate,
    Region, Stored, Term, TraitRef, Ty,
};

/// A value that holds terms. It is seen as a tree, which a folder maps.
pub trait TypeFoldable: Drop {
    /// Its terms are of the store.
    ghost holds: { List Tree → Self → Type 0 };

    ghost tree: { List Tree → Self → Tree };

    /// The value that the folder makes of this one. Its terms are folded in order.
    fn fold_with<F: TypeFolder>(self, cx: &mut Cx, folder: &mut F) -> Result<Self, F::Error>
        requires holds { holds cx.old.nodes self }
        requires ready { F.ready cx.old.nodes folder.old }
        ensures grows { Grows cx.old cx.new }
        ensures ready { F.ready cx.new.nodes folder.new }
        ensures keeps { F.keeps folder.old folder.new }
        ensures holds { IfOk result (holds cx.new.nodes) }
        ensures walk { IfOk result (λ r. Walk F.answers F.enters F.leaves F.rebuilds
            (F.meaning cx.old.nodes folder.old) (tree cx.old.nodes self) (tree cx.new.nodes r)
            (F.meaning cx.new.nodes folder.new)) }
        ensures err { IfErr result (Stops F.answers F.enters F.leaves F.rebuilds F.fails
            (F.meaning cx.old.nodes folder.old) (tree cx.old.nodes self)) };

    ghost holds_kept: { (a b : List Tree) (x : Self) → holds a x → Extends a b → holds b x };

    ghost tree_kept: { (a b : List Tree) (x : Self) → holds a x → Extends a b → tree b x ≡ tree a x };
}

/// The handle that the folder makes of a handle.
fn fold_handle<T: Stored, F: TypeFolder>(cx: &mut Cx, folder: &mut F, x: T) -> Result<T, F::Error>
    requires holds { Holds T.place cx.old.nodes (T.id x) }
    requires ready { F.ready cx.old.nodes folder.old }
    ensures grows { Grows cx.old cx.new }
    ensures ready { F.ready cx.new.nodes folder.new }
    ensures keeps { F.keeps folder.old folder.new }
    ensures holds { IfOk result (λ r. Holds T.place cx.new.nodes (T.id r)) }
    ensures walk { IfOk result (λ r. Walk F.answers F.enters F.leaves F.rebuilds
        (F.meaning cx.old.nodes folder.old) (tree_at cx.old.nodes (T.id x)) (tree_at cx.new.nodes
        (T.id r)) (F.meaning cx.new.nodes folder.new)) }
    ensures err { IfErr result (Stops F.answers F.enters F.leaves F.rebuilds F.fails
        (F.meaning cx.old.nodes folder.old) (tree_at cx.old.nodes (T.id x))) }
{
    let node = fold_node(cx, folder, x.node())?;
    Ok(T::from_node(node))
}

impl TypeFoldable for Ty {
    ghost holds = { HoldsTy };

    ghost tree = { λ ts x. tree_at ts x.node };

    ghost holds_kept = { λ a b x h e. Holds-kept a_type a b x.node h e };

    ghost tree_kept = { λ a b x h e. e.kept x.node h.within };

    fn fold_with<F: TypeFolder>(self, cx: &mut Cx, folder: &mut F) -> Result<Ty, F::Error> {
        fold_handle(cx, folder, self)
    }
}

impl TypeFoldable for Region {
    ghost holds = { HoldsRegion };

    ghost tree = { λ ts x. tree_at ts x.node };

    ghost holds_kept = { λ a b x h e. Holds-kept a_region a b x.node h e };

    ghost tree_kept = { λ a b x h e. e.kept x.node h.within };

    fn fold_with<F: TypeFolder>(self, cx: &mut Cx, folder: &mut F) -> Result<Region, F::Error> {
        fold_handle(cx, folder, self)
    }
}

impl TypeFoldable for Const {
    ghost holds = { HoldsConst };

    ghost tree = { λ ts x. tree_at ts x.node };

    ghost holds_kept = { λ a b x h e. Holds-kept a_const a b x.node h e };

    ghost tree_kept = { λ a b x h e. e.kept x.node h.within };

    fn fold_with<F: TypeFolder>(self, cx: &mut Cx, folder: &mut F) -> Result<Const, F::Error> {
        fold_handle(cx, folder, self)
    }
}

impl TypeFoldable for Term {
    ghost holds = { HoldsTerm };

    ghost tree = { λ ts x. tree_at ts x.node };

    ghost holds_kept = { λ a b x h e. Holds-kept any_term a b x.node h e };

    ghost tree_kept = { λ a b x h e. e.kept x.node h.within };

    fn fold_with<F: TypeFolder>(self, cx: &mut Cx, folder: &mut F) -> Result<Term, F::Error> {
        fold_handle(cx, folder, self)
    }
}

impl TypeFoldable for GenericArg {
    ghost holds = { HoldsArg };

    ghost tree = { λ ts x. tree_at ts x.node };

    ghost holds_kept = { λ a b x h e. Holds-kept any_argument a b x.node h e };

    ghost tree_kept = { λ a b x h e. e.kept x.node h.within };

    fn fold_with<F: TypeFolder>(self, cx: &mut Cx, folder: &mut F) -> Result<GenericArg, F::Error> {
        fold_handle(cx, folder, self)
    }
}

impl TypeFoldable for GenericArgs {
    ghost holds = { HoldsArgs };

    ghost tree = { λ ts x. tree_at ts x.node };

    ghost holds_kept = { λ a b x h e. Holds-kept (is arguments) a b x.node h e };

    ghost tree_kept = { λ a b x h e. e.kept x.node h.within };

    fn fold_with<F: TypeFolder>(
        self,
        cx: &mut Cx,
        folder: &mut F,
    ) -> Result<GenericArgs, F::Error> {
        fold_handle(cx, folder, self)
    }
}

impl TypeFoldable for Predicate {
    ghost holds = { HoldsPredicate };

    ghost tree = { λ ts x. tree_at ts x.node };

    ghost holds_kept = { λ a b x h e. Holds-kept (is bound_predicate) a b x.node h e };

    ghost tree_kept = { λ a b x h e. e.kept x.node h.within };

    fn fold_with<F: TypeFolder>(self, cx: &mut Cx, folder: &mut F) -> Result<Predicate, F::Error> {
        fold_handle(cx, folder, self)
    }
}

impl TypeFoldable for ParamEnv {
    ghost holds = { HoldsEnv };

    ghost tree = { λ ts x. tree_at ts x.node };

    ghost holds_kept = { λ a b x h e. Holds-kept (is environment) a b x.node h e };

    ghost tree_kept = { λ a b x h e. e.kept x.node h.within };

    fn fold_with<F: TypeFolder>(self, cx: &mut Cx, folder: &mut F) -> Result<ParamEnv, F::Error> {
        fold_handle(cx, folder, self)
    }
}

impl TypeFoldable for BoundVars {
    ghost holds = { HoldsVars };

    ghost tree = { λ ts x. tree_at ts x.node };

    ghost holds_kept = { λ a b x h e. Holds-kept (is sort_list) a b x.node h e };

    ghost tree_kept = { λ a b x h e. e.kept x.node h.within };

    fn fold_with<F: TypeFolder>(self, cx: &mut Cx, folder: &mut F) -> Result<BoundVars, F::Error> {
        fold_handle(cx, folder, self)
    }
}

/// A value under a binder. It is seen as a node that binds variables, so that the folder enters the binder
/// before the value is folded and leaves it afterwards. It is no predicate, and the folder is not asked for it.
impl<T: TypeFoldable> TypeFoldable for Binder<T> {
    ghost use Rattle.nts_folding.specs.Folding.{tree_of_binder};

    ghost holds = { λ ts b. HoldsVars ts b.vars × T.holds ts b.value };

    ghost tree = { λ ts b. tree_of_binder (tree_at ts b.vars.node) (T.tree ts b.value) };

    ghost holds_kept = { λ a b x h e. (Holds-kept (is sort_list) a b x.vars.node h.0 e, T.holds_kept a b x.value h.1 e) };

    ghost use Rattle.nts_folding.specs.FoldLaws.{same_binder};

    ghost tree_kept = { λ a b x h e. same_binder (e.kept x.vars.node h.0.within) (T.tree_kept a b x.value h.1 e) };

    fn fold_with<F: TypeFolder>(self, cx: &mut Cx, folder: &mut F) -> Result<Binder<T>, F::Error> {
        let Binder { vars, value } = self;
        folder.enter_binder()?;
        let vars = vars.fold_with(cx, folder)?;
        let value = value.fold_with(cx, folder)?;
        folder.leave_binder();
        Ok(Binder { vars, value })
    }
}

/// An alias over its arguments, which alone are folded. It is seen as what a projection says of it, but
/// for the result, so that no folder is asked for the alias itself.
impl TypeFoldable for AliasTerm {
    ghost use Rattle.nts_folding.specs.Folding.{tree_of_alias_args};

    ghost holds = { λ ts a. HoldsArgs ts a.args };

    ghost tree = { tree_of_alias_args };

    ghost holds_kept = { λ a b x h e. Holds-kept (is arguments) a b x.args.node h e };

    ghost use Rattle.nts_folding.specs.FoldLaws.{same_statement};

    ghost tree_kept = { λ a b x h e. same_statement (e.kept x.args.node h.within) };

    fn fold_with<F: TypeFolder>(self, cx: &mut Cx, folder: &mut F) -> Result<AliasTerm, F::Error> {
        let args = self.args.fold_with(cx, folder)?;
        Ok(AliasTerm {
            def_id: self.def_id,
            args,
        })
    }
}

/// A trait over its arguments, which alone are folded. It is seen as the statement that it holds.
impl TypeFoldable for TraitRef {
    ghost use Rattle.nts_folding.specs.Folding.{tree_of_trait_ref};

    ghost holds = { λ ts r. HoldsArgs ts r.args };

    ghost tree = { tree_of_trait_ref };

    ghost holds_kept = { λ a b x h e. Holds-kept (is arguments) a b x.args.node h e };

    ghost use Rattle.nts_folding.specs.FoldLaws.{same_statement};

    ghost tree_kept = { λ a b x h e. same_statement (e.kept x.args.node h.within) };

    fn fold_with<F: TypeFolder>(self, cx: &mut Cx, folder: &mut F) -> Result<TraitRef, F::Error> {
        let args = self.args.fold_with(cx, folder)?;
        Ok(TraitRef {
            def_id: self.def_id,
            args,
        })
    }
}

impl TypeFoldable for Goal {
    ghost holds = { λ ts g. HoldsEnv ts g.param_env × HoldsPredicate ts g.predicate };

    ghost tree = { λ ts g. pair (tree_at ts g.param_env.node) (tree_at ts g.predicate.node) };

    ghost holds_kept = { λ a b g h e. (Holds-kept (is environment) a b g.param_env.node h.0 e, Holds-kept (is bound_predicate) a b g.predicate.node h.1 e) };

    ghost tree_kept = { λ a b g h e. same_pair (e.kept g.param_env.node h.0.within) (e.kept g.predicate.node h.1.within) };

    ghost use Rattle.nts_folding.specs.FoldLaws.{same_pair};

    fn fold_with<F: TypeFolder>(self, cx: &mut Cx, folder: &mut F) -> Result<Goal, F::Error> {
        let param_env = self.param_env.fold_with(cx, folder)?;
        let predicate = self.predicate.fold_with(cx, folder)?;
        Ok(Goal {
            param_env,
            predicate,
        })
    }
}

impl<A: TypeFoldable, B: TypeFoldable> TypeFoldable for (A, B) {
    ghost holds = { λ ts x. A.holds ts x.0 × B.holds ts x.1 };

    ghost tree = { λ ts x. pair (A.tree ts x.0) (B.tree ts x.1) };

    ghost holds_kept = { λ a b x h e. (A.holds_kept a b x.0 h.0 e, B.holds_kept a b x.1 h.1 e) };

    ghost tree_kept = { λ a b x h e. same_pair (A.tree_kept a b x.0 h.0 e) (B.tree_kept a b x.1 h.1 e) };

    ghost use Rattle.nts_folding.specs.FoldLaws.{same_pair};

    fn fold_with<F: TypeFolder>(self, cx: &mut Cx, folder: &mut F) -> Result<(A, B), F::Error> {
        let (a, b) = self;
        let first = a.fold_with(cx, folder)?;
        let second = b.fold_with(cx, folder)?;
        Ok((first, second))
    }
}

impl<T: TypeFoldable> TypeFoldable for Option<T> {
    ghost use Rattle.nts_folding.specs.Folding.{tree_of_option};

    ghost holds = { λ ts o. IfSome o (T.holds ts) };

    ghost tree = { λ ts o. tree_of_option (option_map (T.tree ts) o) };

    ghost use Rattle.nts_folding.specs.FoldLaws.{option_holds, option_same};

    ghost holds_kept = { λ a b o h e. option_holds (T.holds a) (T.holds b) (λ x k. T.holds_kept a b x k e) o h };

    ghost tree_kept = { λ a b o h e. option_same (T.holds a) (T.tree a) (T.tree b) (λ x k. T.tree_kept a b x k e) o h };

    fn fold_with<F: TypeFolder>(self, cx: &mut Cx, folder: &mut F) -> Result<Option<T>, F::Error> {
        match self {
            Some(x) => Ok(Some(x.fold_with(cx, folder)?)),
            None => Ok(None),
        }
    }
}

impl<T: TypeFoldable> TypeFoldable for Vec<T> {
    ghost use Rattle.nts_folding.specs.Folding.{tree_of_list};

    ghost holds = { λ ts v. All (T.holds ts) v.items };

    ghost tree = { λ ts v. tree_of_list (map (T.tree ts) v.items) };

    ghost use Rattle.nts_folding.specs.FoldLaws.{list_holds, list_same};

    ghost holds_kept = { λ a b v h e. list_holds (T.holds a) (T.holds b) (λ x k. T.holds_kept a b x k e) v.items h };

    ghost tree_kept = { λ a b v h e. list_same (T.holds a) (T.tree a) (T.tree b) (λ x k. T.tree_kept a b x k e) v.items h };

    fn fold_with<F: TypeFolder>(self, cx: &mut Cx, folder: &mut F) -> Result<Vec<T>, F::Error> {
        let mut folded = Vec::new(cx.alloc);
        for x in self {
            let value = x.fold_with(cx, folder)?;
            push(&mut folded, value)?;
        }
        Ok(folded)
    }
}
