//! The context: terms, declarations and limits.
ghost use Rattle.std.specs.Prelude.{◌≡◌, ◌≤◌, [], false};
ghost use Rattle.nts_store.specs.Formed.{AreFormed};
ghost use Rattle.nts_terms.specs.Signatures.{nothing_declared};

use crate::declarations::Declarations;
use nts_store::Nodes;
use std::alloc::Global;

/// The store of terms, what is declared, and the limits of evaluations.
pub struct Cx {
    pub alloc: Global,
    pub nodes: Nodes,
    pub declarations: Declarations,
    recursion_limit: usize,
    step_limit: usize,
    round_limit: usize,
    depth_division: usize,
    disable_fast_paths: bool,
}

// Written out, it is a call where a store is let go. A derived one is proved again in each function that lets one go.
impl Drop for Cx {
    fn drop(self) {
        let Cx {
            alloc: _,
            nodes: _,
            declarations: _,
            recursion_limit: _,
            step_limit: _,
            round_limit: _,
            depth_division: _,
            disable_fast_paths: _,
        } = self;
    }
}

impl Cx {
    /// Each node of the store has the children of its label. It does nothing: a proof that rests on this calls it.
    pub fn terms_are_formed(&self)
        ensures { AreFormed self.now.nodes }
    {
        self.nodes.terms_are_formed();
    }

    /// An empty store with nothing declared. It takes no memory.
    pub fn new(alloc: Global) -> Self
        ensures nodes { result.nodes ≡ [] }
        ensures declarations { result.declarations ≡ nothing_declared }
        ensures limit { result.recursion_limit ≡ 128 }
        ensures steps { result.step_limit ≡ 8 }
        ensures rounds { result.round_limit ≡ 8 }
        ensures division { result.depth_division ≡ 4 }
        ensures fast_paths { result.disable_fast_paths ≡ false }
    {
        Cx {
            alloc,
            nodes: Nodes::new(alloc),
            declarations: Declarations::new(alloc),
            recursion_limit: 128,
            step_limit: 8,
            round_limit: 8,
            depth_division: 4,
            disable_fast_paths: false,
        }
    }

    /// How deep an evaluation may nest goals.
    pub fn recursion_limit(&self) -> usize
        ensures { result ≡ self.now.recursion_limit }
    {
        self.recursion_limit
    }

    /// How deep evaluations may nest goals from now on: 128 at first. A goal that is nested deeper is answered overflow.
    pub fn set_recursion_limit(&mut self, limit: usize)
        ensures { self.new ≡ record self.old { recursion_limit = limit } }
    {
        self.recursion_limit = limit;
    }

    /// How many times an evaluation goes over a list of goals at most: 8 at first.
    pub fn step_limit(&self) -> usize
        ensures { result ≡ self.now.step_limit }
    {
        self.step_limit
    }

    /// From 1 to 64. An evaluation that needs more steps answers overflow.
    pub fn set_step_limit(&mut self, limit: usize)
        requires low { 1 ≤ limit }
        requires high { limit ≤ 64 }
        ensures { self.new ≡ record self.old { step_limit = limit } }
    {
        self.step_limit = limit;
    }

    /// How many rounds the head of a cycle is evaluated in at most: 8 at first.
    pub fn round_limit(&self) -> usize
        ensures { result ≡ self.now.round_limit }
    {
        self.round_limit
    }

    /// From 1 to 64. The head of a cycle that needs more rounds is answered overflow.
    pub fn set_round_limit(&mut self, limit: usize)
        requires low { 1 ≤ limit }
        requires high { limit ≤ 64 }
        ensures { self.new ≡ record self.old { round_limit = limit } }
    {
        self.round_limit = limit;
    }

    /// By what the depth of a goal's further goals is divided once a goal below it was nested too deep: 4 at first.
    pub fn depth_division(&self) -> usize
        ensures { result ≡ self.now.depth_division }
    {
        self.depth_division
    }

    /// From 1 to 16. With 1 they have as much depth as if nothing had overflowed.
    pub fn set_depth_division(&mut self, division: usize)
        requires low { 1 ≤ division }
        requires high { division ≤ 16 }
        ensures { self.new ≡ record self.old { depth_division = division } }
    {
        self.depth_division = division;
    }

    /// Whether evaluations skip the short cuts.
    pub fn disable_trait_solver_fast_paths(&self) -> bool
        ensures { result ≡ self.now.disable_fast_paths }
    {
        self.disable_fast_paths
    }

    /// Whether evaluations skip the short cuts from now on. With and without them an answer is held to the same promises.
    pub fn set_disable_fast_paths(&mut self, disable: bool)
        ensures { self.new ≡ record self.old { disable_fast_paths = disable } }
    {
        self.disable_fast_paths = disable;
    }
}
