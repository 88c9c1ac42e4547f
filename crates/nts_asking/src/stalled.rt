//! What is kept of a goal that stalled.
ghost use Rattle.std.specs.Prelude.{◌≡◌, ◌↔◌, All, IsTrue, None, Some, IfOk, IfSome, IsOkUnless};
ghost use Rattle.nts_store.specs.Growth.{tree_at};
ghost use Rattle.nts_terms.specs.Handles.{HoldsArg};
ghost use Rattle.nts_certainty.specs.declared.certainty.Certainty.TheVariants as certainty;
ghost use Rattle.nts_certainty.specs.declared.certainty.MaybeInfo.{MaybeInfo};
ghost use Rattle.nts_unify.specs.Unchanged.{IsUnchanged};
ghost use Rattle.nts_asking.specs.Stalled.{IsCopyOf, IsOwnSubRoot, StillStalls, IsNotStalled};

use nts_certainty::{Certainty, MaybeInfo};
use nts_store::Fault;
use nts_table::InferCtxt;
use nts_terms::{Cx, GenericArg};

/// What is kept of a goal that stalled, so that it is asked again only where that can help. It is kept of a doubt: no value of
/// this type is of a yes.
#[derive(Debug, Drop)]
pub struct GoalStalledOn {
    /// How many hidden types the table had.
    pub num_opaques: usize,
    /// The variables of the goal that may get values.
    pub stalled_vars: Vec<GenericArg>,
    /// The sub roots of its type variables.
    pub sub_roots: Vec<usize>,
    /// The doubt.
    pub stalled_certainty: MaybeInfo,
}

impl GoalStalledOn {
    /// What is kept of a goal that was answered so; of a yes nothing is. It takes no memory.
    pub fn new(
        num_opaques: usize,
        stalled_vars: Vec<GenericArg>,
        sub_roots: Vec<usize>,
        stalled_certainty: Certainty,
    ) -> Option<GoalStalledOn>
        ensures yes { stalled_certainty ≡ certainty.Yes → result ≡ None }
        ensures maybe { (info : MaybeInfo) → stalled_certainty ≡ certainty.Maybe info → result ≡
            Some (record {
              num_opaques = num_opaques;
              stalled_vars = stalled_vars;
              sub_roots = sub_roots;
              stalled_certainty = info;
            }) }
    {
        match stalled_certainty {
            Certainty::Yes => None,
            Certainty::Maybe(info) => Some(GoalStalledOn {
                num_opaques,
                stalled_vars,
                sub_roots,
                stalled_certainty: info,
            }),
        }
    }

    /// Whether its variables are arguments of this store.
    pub fn is_of_store(&self, cx: &Cx) -> bool
        ensures { IsTrue result ↔ All (λ a. HoldsArg cx.now.nodes a) self.now.stalled_vars.items }
    {
        self.stalled_vars.iter().all(|var| cx.holds(*var))
    }

    /// The same once more.
    pub fn clone(&self) -> Result<GoalStalledOn, Fault>
        ensures same { IfOk result (IsCopyOf self.now) }
        ensures memory { IsOkUnless result Fault.Memory }
    {
        Ok(GoalStalledOn {
            num_opaques: self.num_opaques,
            stalled_vars: self.stalled_vars.clone()?,
            sub_roots: self.sub_roots.clone()?,
            stalled_certainty: self.stalled_certainty,
        })
    }
}

/// Whether a goal that stalled would only stall again: short cuts are on, the table has as many hidden types, none of the
/// variables is known any better, and each sub root is still one. A variable or a root that the table lacks is none. It takes no
/// memory.
pub fn is_still_stalled(table: &InferCtxt, cx: &Cx, stalled: &GoalStalledOn) -> bool
    requires { All (λ a. HoldsArg cx.now.nodes a) stalled.now.stalled_vars.items }
    ensures { IsTrue result ↔ StillStalls cx.now table.now stalled.now }
{
    !cx.disable_trait_solver_fast_paths()
        && table.num_opaque_types() == stalled.num_opaques
        && are_unchanged(table, cx, &stalled.stalled_vars)
        && are_roots(table, &stalled.sub_roots)
}

/// What was kept of a goal, where that only stalls again, and else nothing: then the goal is to be asked. It takes no memory.
pub fn still_stalled(
    table: &InferCtxt,
    cx: &Cx,
    stalled_on: Option<GoalStalledOn>,
) -> Option<GoalStalledOn>
    requires { IfSome stalled_on (λ s. All (λ a. HoldsArg cx.now.nodes a) s.stalled_vars.items) }
    ensures stalls { IfSome result (λ s. (stalled_on ≡ Some s) × StillStalls cx.now table.now s) }
    ensures asked { result ≡ None → IsNotStalled cx.now table.now stalled_on }
{
    match stalled_on {
        Some(kept) if is_still_stalled(table, cx, &kept) => Some(kept),
        _ => None,
    }
}

fn are_unchanged(table: &InferCtxt, cx: &Cx, vars: &[GenericArg]) -> bool
    requires { All (λ a. HoldsArg cx.now.nodes a) vars.now }
    ensures { IsTrue result ↔ All (λ a. IsUnchanged table.now.entries (tree_at cx.now.nodes a.node))
        vars.now }
{
    for i in 0..vars.len() {
        if table.is_changed_arg(cx, vars[i]) {
            return false;
        }
    }
    true
}

fn are_roots(table: &InferCtxt, roots: &[usize]) -> bool
    ensures { IsTrue result ↔ All (IsOwnSubRoot table.now.entries) roots.now }
{
    for i in 0..roots.len() {
        if !is_own_root(table, roots[i]) {
            return false;
        }
    }
    true
}

fn is_own_root(table: &InferCtxt, n: usize) -> bool
    ensures { IsTrue result ↔ IsOwnSubRoot table.now.entries n }
{
    n < table.variable_count() && table.variable(n).sub_link.is_none()
}
