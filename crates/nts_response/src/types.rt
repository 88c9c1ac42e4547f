//! What a query answers, and states of an evaluation.
use nts_candidates::RegionConstraint;
use nts_candidates::nts_certainty::{Certainty, GoalSource};
use nts_canonical::Canonical;
use nts_canonical::nts_folding::{TypeFoldable, TypeFolder};
use nts_terms::{AliasTerm, Cx, GenericArg, Goal, Ty, VisibleForLeakCheck};

/// What a query found out beside the values: region constraints, each with whether the leak check sees it,
/// hidden types, and the goals that it left open.
#[derive(Drop)]
pub struct ExternalConstraintsData {
    pub region_constraints: Vec<(RegionConstraint, VisibleForLeakCheck)>,
    pub opaque_types: Vec<(AliasTerm, Ty)>,
    pub normalization_nested_goals: Vec<(GoalSource, Goal)>,
}

/// What a query answers: how sure it is, a value for each position of its input, and what else it found out.
#[derive(Drop)]
pub struct Response {
    pub certainty: Certainty,
    pub var_values: Vec<GenericArg>,
    pub external_constraints: ExternalConstraintsData,
}

/// A response whose leaves are positions.
pub type CanonicalResponse = Canonical<Response>;

/// What stood at one place of an evaluation: values for the originals of its query, and what is told of them.
#[derive(Drop)]
pub struct State<T> {
    pub var_values: Vec<GenericArg>,
    pub payload: T,
}

/// A state whose leaves are positions.
pub type CanonicalState<T> = Canonical<State<T>>;

/// A state is folded as the list of its values, and then its payload.
impl<T: TypeFoldable> TypeFoldable for State<T> {
    ghost use Rattle.std.specs.Prelude.{All};
    ghost use Rattle.nts_terms.specs.Handles.{HoldsArg};
    ghost use Rattle.nts_canonical.specs.nts_folding.specs.FoldLaws.{same_pair};
    ghost use Rattle.nts_canonical.specs.Folds.{AreHeld-kept};
    ghost use Rattle.nts_response.specs.StateTrees.{tree_of_state, values_same};

    ghost holds = { λ ts s. All (HoldsArg ts) s.var_values.items × T.holds ts s.payload };

    ghost tree = { tree_of_state T.tree };

    ghost holds_kept = { λ a b s h e. (AreHeld-kept a b s.var_values.items h.0 e, T.holds_kept a b s.payload h.1 e) };

    ghost tree_kept = { λ a b s h e. same_pair (values_same a b s.var_values.items h.0 e) (T.tree_kept a b s.payload h.1 e) };

    fn fold_with<F: TypeFolder>(self, cx: &mut Cx, folder: &mut F) -> Result<State<T>, F::Error> {
        let State {
            var_values,
            payload,
        } = self;
        let var_values = var_values.fold_with(cx, folder)?;
        let payload = payload.fold_with(cx, folder)?;
        Ok(State {
            var_values,
            payload,
        })
    }
}
