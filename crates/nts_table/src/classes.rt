//! What is known of the classes of variables.
ghost use Rattle.std.specs.Prelude.{◌≡◌, ◌<◌, length, List, OnOk, OnErr, IsOkUnless};
ghost use Rattle.nts_model.specs.Terms.Trees.{Tree};
ghost use Rattle.nts_unify.specs.Reading.{LinksDescend};
ghost use Rattle.nts_table.specs.Tables.{IsTable};
ghost use Rattle.nts_unify.specs.Roots.{IsRoot, IsSubRoot, SubRootsJoin};
ghost use Rattle.nts_table.specs.Classes.{HasOpenUniverse, HasUniverse};
ghost use Rattle.nts_table.specs.Frames.{ChangesVariables};

use crate::infer_ctxt::InferCtxt;
use nts_store::Fault;
use nts_terms::UniverseIndex;

impl InferCtxt {
    /// The universe of the root of a type variable, or nothing where the variable has a value.
    pub fn universe_of_ty(&self, vid: usize) -> Option<UniverseIndex>
        requires within { vid < length self.now.entries.variables }
        requires descends { LinksDescend self.now.entries }
        ensures { HasOpenUniverse self.now.entries vid result }
    {
        match self.probe_variable(vid) {
            Ok(_) => None,
            Err(root) => Some(self.variable(root).universe),
        }
    }

    /// The universe of the root of a const variable, or nothing where the variable has a value.
    pub fn universe_of_ct(&self, ct: usize) -> Option<UniverseIndex>
        requires within { ct < length self.now.entries.variables }
        requires descends { LinksDescend self.now.entries }
        ensures { HasOpenUniverse self.now.entries ct result }
    {
        self.universe_of_ty(ct)
    }

    /// The universe of the root of a region variable, which has no value.
    pub fn universe_of_lt(&self, vid: usize) -> Option<UniverseIndex>
        requires within { vid < length self.now.entries.variables }
        requires descends { LinksDescend self.now.entries }
        ensures { HasUniverse self.now.entries vid result }
    {
        let root = self.root(vid);
        Some(self.variable(root).universe)
    }

    /// The root of a type variable: the lowest number of its class.
    pub fn root_ty_var(&self, var: usize) -> usize
        requires within { var < length self.now.entries.variables }
        requires descends { LinksDescend self.now.entries }
        ensures { IsRoot self.now.entries var result }
    {
        self.root(var)
    }

    /// The root of a const variable: the lowest number of its class.
    pub fn root_const_var(&self, ct: usize) -> usize
        requires within { ct < length self.now.entries.variables }
        requires descends { LinksDescend self.now.entries }
        ensures { IsRoot self.now.entries ct result }
    {
        self.root(ct)
    }

    /// The root of a type variable's sub-unification class: the lowest number of it.
    pub fn sub_unification_table_root_var(&self, vid: usize) -> usize
        requires within { vid < length self.now.entries.variables }
        requires descends { LinksDescend self.now.entries }
        ensures { IsSubRoot self.now.entries vid result }
    {
        self.inner.sub_root(vid)
    }

    /// Makes one sub-unification class of two.
    pub fn sub_unify_ty_vids_raw(&mut self, a: usize, b: usize) -> Result<(), Fault>
        requires within_a { a < length self.old.entries.variables }
        requires within_b { b < length self.old.entries.variables }
        requires descends { LinksDescend self.old.entries }
        ensures joined { OnOk result (SubRootsJoin self.old.entries self.new.entries a b) }
        ensures table { (ts : List Tree) → IsTable ts self.old → IsTable ts self.new }
        ensures changes { ChangesVariables self.old self.new }
        ensures err { OnErr result (self.new ≡ self.old) }
        ensures memory { IsOkUnless result Fault.Memory }
    {
        self.inner.join_sub_roots(a, b)?;
        Ok(())
    }
}
