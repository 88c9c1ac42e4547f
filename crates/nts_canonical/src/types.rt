//! Canonical values, and what their positions stand for.
ghost use Rattle.std.specs.Prelude.{IfOk, IsOkUnless};
ghost use Rattle.nts_canonical.specs.Alike.{IsInputCopy};

use nts_folding::{TypeFoldable, TypeFolder};
use nts_store::Fault;
use nts_terms::{
    AliasTerm, Cx, Goal, PlaceholderConst, PlaceholderRegion, PlaceholderType, Ty, TypingMode,
    UniverseIndex,
};

/// What a position of a canonical value stands for.
#[derive(Clone, Copy)]
pub enum CanonicalVarKind {
    /// A type variable of that universe. `sub_root` is the first position with the same root of its
    /// sub-unification class.
    Ty { ui: UniverseIndex, sub_root: usize },
    /// An integer variable.
    Int,
    /// A float variable.
    Float,
    /// A const variable of that universe.
    Const(UniverseIndex),
    /// A region variable of that universe.
    Region(UniverseIndex),
    PlaceholderTy(PlaceholderType),
    PlaceholderRegion(PlaceholderRegion),
    PlaceholderConst(PlaceholderConst),
}

/// A value in which canonical bound variables name positions, and what these stand for.
#[derive(Drop)]
pub struct Canonical<V> {
    pub value: V,
    /// The greatest universe of a position.
    pub max_universe: UniverseIndex,
    pub var_kinds: Vec<CanonicalVarKind>,
}

/// A goal with the hidden types of the table in which it is asked.
#[derive(Drop)]
pub struct QueryInput {
    pub goal: Goal,
    pub predefined_opaques_in_body: Vec<(AliasTerm, Ty)>,
}

/// A query is folded as its goal and the list of its hidden types. Of an alias the arguments alone are folded.
impl TypeFoldable for QueryInput {
    ghost use Rattle.nts_canonical.specs.Forms.{HoldsQuery};
    ghost use Rattle.nts_canonical.specs.Folds.{tree_of_query, HoldsQuery-kept, tree_of_query-kept};

    ghost holds = { HoldsQuery };

    ghost tree = { tree_of_query };

    ghost holds_kept = { HoldsQuery-kept };

    ghost tree_kept = { tree_of_query-kept };

    fn fold_with<F: TypeFolder>(self, cx: &mut Cx, folder: &mut F) -> Result<QueryInput, F::Error> {
        let goal = self.goal.fold_with(cx, folder)?;
        let predefined_opaques_in_body = self.predefined_opaques_in_body.fold_with(cx, folder)?;
        Ok(QueryInput {
            goal,
            predefined_opaques_in_body,
        })
    }
}

/// A canonical goal, and what it may know of hidden types.
#[derive(Drop)]
pub struct CanonicalInput {
    pub canonical: Canonical<QueryInput>,
    pub typing_mode: TypingMode,
}

impl CanonicalInput {
    /// The same input once more.
    pub fn clone(&self) -> Result<CanonicalInput, Fault>
        ensures copy { IfOk result (IsInputCopy self.now) }
        ensures memory { IsOkUnless result Fault.Memory }
    {
        let query = &self.canonical.value;
        let value = QueryInput {
            goal: query.goal,
            predefined_opaques_in_body: query.predefined_opaques_in_body.clone()?,
        };
        let var_kinds = self.canonical.var_kinds.clone()?;
        let canonical = Canonical {
            value,
            max_universe: self.canonical.max_universe,
            var_kinds,
        };
        let typing_mode = self.typing_mode.clone()?;
        Ok(CanonicalInput {
            canonical,
            typing_mode,
        })
    }
}
