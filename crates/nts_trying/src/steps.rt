//! Goals that were added are evaluated in steps, until a step changes nothing.
ghost use Rattle.std.specs.Prelude.{ℕ, ◌≡◌, ◌<◌, ◌≤◌, ◌/◌, ◌+◌, ◌-◌, true, false, Some, IfSome, IsNone, ◌↔◌, OnOk, []};
ghost use Rattle.nts_certainty.specs.declared.certainty.Certainty.TheVariants as certainty;
ghost use Rattle.nts_certainty.specs.declared.sources.HasChanged.TheVariants as changes;
ghost use Rattle.nts_certainty.specs.Certainties.{both};
ghost use Rattle.nts_trying.specs.declared.steps.AvailableDepth.TheVariants as available;
ghost use Rattle.nts_trying.specs.Stepping.{left_after, bound_of};

use nts_certainty::{Certainty, GoalSource, HasChanged};
use nts_meaning::Evaluated;
use nts_terms::Goal;
use std::alloc::{AllocError, Global};

/// How deep the goals of a context may be nested.
#[derive(Clone, Copy)]
pub enum AvailableDepth {
    /// A root context: its goals are at this depth.
    Root(usize),
    /// A goal at this depth: its goals are below.
    Below(usize),
}

/// The depth of a goal below one of the given depth, if it is not nested too deep. Once a goal below
/// that one overflowed, its later goals get a part of its depth, as the division says, where that is less.
pub fn depth_below(depth: usize, has_overflowed: bool, division: usize) -> Option<usize>
    ensures too_deep { IsNone result ↔ (depth ≡ 0) }
    ensures less { IfSome result (λ below. below < depth) }
    ensures next { has_overflowed ≡ false → IfSome result (λ below. below ≡ depth - 1) }
    ensures divided { has_overflowed ≡ true → 0 < division → depth / division < depth →
        result ≡ Some (depth / division) }
    ensures undivided { division ≤ 1 → IfSome result (λ below. below + 1 ≡ depth) }
{
    if depth == 0 {
        return None;
    }
    if has_overflowed && division > 0 {
        let part = depth / division;
        if part < depth {
            return Some(part);
        }
    }
    Some(depth - 1)
}

impl AvailableDepth {
    /// The depth of the next goal, if it is not nested too deep.
    pub fn next(self, has_overflowed: bool, division: usize) -> Option<usize>
        ensures too_deep { IsNone result ↔ (bound_of self ≡ 0) }
        ensures within { IfSome result (λ n. n < bound_of self) }
        ensures whole { has_overflowed ≡ false → IfSome result (λ n. n + 1 ≡ bound_of self) }
        ensures root { (n : ℕ) → self ≡ available.Root n → result ≡ Some n }
        ensures divided { (n : ℕ) → self ≡ available.Below n → has_overflowed ≡ true →
            0 < division → n / division < n → result ≡ Some (n / division) }
        ensures undivided { division ≤ 1 → IfSome result (λ n. n + 1 ≡ bound_of self) }
    {
        match self {
            AvailableDepth::Root(depth) => Some(depth),
            AvailableDepth::Below(depth) => depth_below(depth, has_overflowed, division),
        }
    }
}

/// What one step over the goals comes to.
#[derive(Drop)]
pub struct Step {
    /// The goals that are not proved yet.
    pub left: Vec<(GoalSource, Goal)>,
    /// How sure all of them are.
    pub certainty: Certainty,
    /// Whether something was found out of a variable.
    pub has_changed: bool,
}

impl Step {
    /// A step that has not asked a goal yet.
    pub fn new(alloc: Global) -> Step
        ensures left { result.left.items ≡ [] }
        ensures certainty { result.certainty ≡ certainty.Yes }
        ensures unchanged { result.has_changed ≡ false }
    {
        Step {
            left: Vec::new(alloc),
            certainty: Certainty::Yes,
            has_changed: false,
        }
    }

    /// Notes the answer to a goal. A goal that is not certain is left for the next step.
    pub fn note(&mut self, added: (GoalSource, Goal), answer: Evaluated) -> Result<(), AllocError>
        ensures left { OnOk result (self.new.left.items ≡ left_after self.old.left.items added
            answer.certainty) }
        ensures certainty { OnOk result (self.new.certainty ≡ both self.old.certainty
            answer.certainty) }
        ensures changed { OnOk result
            ((self.new.has_changed ≡ false) ↔ ((self.old.has_changed ≡ false) ×
            (answer.has_changed ≡ changes.No))) }
    {
        if answer.has_changed == HasChanged::Yes {
            self.has_changed = true;
        }
        if answer.certainty != Certainty::Yes {
            self.left.push(added)?;
        }
        self.certainty = self.certainty.and(answer.certainty);
        Ok(())
    }
}
