//! Hidden types of aliases.
ghost use Rattle.std.specs.Prelude.{◌≡◌, true, false, IfOk, OnOk, OnErr, IsOkUnless, map, drop};
ghost use Rattle.nts_model.specs.declared.labels.Sort.TheVariants as sort;
ghost use Rattle.nts_model.specs.Tables.Resolving.{Knows};
ghost use Rattle.nts_store.specs.Growth.{tree_at, Extends};
ghost use Rattle.nts_terms.specs.Handles.{HoldsTy, HoldsArgs, IsAliasOf};
ghost use Rattle.nts_unify.specs.Entries.{duplicated};
ghost use Rattle.nts_unify.specs.Reading.{content_of, IsHiddenType};
ghost use Rattle.nts_table.specs.Tables.{IsTable};
ghost use Rattle.nts_table.specs.Registering.{Registers, IsPlace, pair_of};
ghost use Rattle.nts_terms.specs.Rest.{Grows};
ghost use Rattle.nts_table.specs.Frames.{ChangesEntries};

use crate::infer_ctxt::InferCtxt;
use crate::resolver::resolve_nodes;
use nts_store::{Fault, Nodes};
use nts_terms::{AliasDefId, AliasTerm, Cx, Span, Ty};
use nts_unify::HiddenType;
use std::alloc::{AllocError, Global};

impl InferCtxt {
    /// Registers the type that is hidden behind an alias of types. The first type that was hidden behind it, its
    /// arguments compared under the table's values, is answered, and the new one takes its place.
    pub fn register_hidden_type_in_storage(
        &mut self,
        cx: &mut Cx,
        key: AliasTerm,
        ty: Ty,
        _span: Span,
    ) -> Result<Option<Ty>, Fault>
        requires table { IsTable cx.old.nodes self.old }
        requires of_types { IsAliasOf sort.Ty key.def_id }
        requires args { HoldsArgs cx.old.nodes key.args }
        requires args_known { Knows (content_of cx.old.nodes self.old.entries)
            (tree_at cx.old.nodes key.args.node) }
        requires ty { HoldsTy cx.old.nodes ty }
        requires ty_known { Knows (content_of cx.old.nodes self.old.entries)
            (tree_at cx.old.nodes ty.node) }
        ensures registered { IfOk result (Registers cx.old.nodes
            (content_of cx.old.nodes self.old.entries) self.old.entries.hidden.lookup
            (record { alias = key.def_id; args = key.args; ty = ty })
            self.new.entries.hidden.lookup) }
        ensures entries { OnOk result (self.new.entries ≡ record self.old.entries {
          hidden = record
              self.old.entries.hidden { lookup = self.new.entries.hidden.lookup };
        }) }
        ensures changes { ChangesEntries self.old self.new }
        ensures table { IsTable cx.new.nodes self.new }
        ensures grows { Grows cx.old cx.new }
        ensures err { OnErr result (self.new ≡ self.old) }
        ensures memory { IsOkUnless result Fault.Memory }
    {
        let hidden = HiddenType {
            alias: key.def_id,
            args: key.args,
            ty,
        };
        match self.place_of_hidden(cx.alloc, &mut cx.nodes, hidden)? {
            Some(place) => {
                let old = self.hidden_type(place);
                self.inner.replace(place, HiddenType { ty, ..old })?;
                Ok(Some(old.ty))
            }
            None => {
                self.inner.register(hidden)?;
                Ok(None)
            }
        }
    }

    /// Adds a type that is hidden behind an alias of types to the duplicates, after those that are there. What is
    /// registered stays.
    pub fn add_duplicate_opaque_type(
        &mut self,
        cx: &Cx,
        key: AliasTerm,
        ty: Ty,
        _span: Span,
    ) -> Result<(), Fault>
        requires table { IsTable cx.now.nodes self.old }
        requires of_types { IsAliasOf sort.Ty key.def_id }
        requires args { HoldsArgs cx.now.nodes key.args }
        requires args_known { Knows (content_of cx.now.nodes self.old.entries)
            (tree_at cx.now.nodes key.args.node) }
        requires ty { HoldsTy cx.now.nodes ty }
        requires ty_known { Knows (content_of cx.now.nodes self.old.entries)
            (tree_at cx.now.nodes ty.node) }
        ensures added { OnOk result (self.new.entries ≡ duplicated self.old.entries
            (record { alias = key.def_id; args = key.args; ty = ty })) }
        ensures changes { ChangesEntries self.old self.new }
        ensures table { IsTable cx.now.nodes self.new }
        ensures err { OnErr result (self.new ≡ self.old) }
        ensures memory { IsOkUnless result Fault.Memory }
    {
        let hidden = HiddenType {
            alias: key.def_id,
            args: key.args,
            ty,
        };
        self.inner.add_duplicate(hidden)?;
        Ok(())
    }

    /// The duplicates in the order of adding, each behind its alias.
    pub fn clone_duplicate_opaque_types(&self) -> Result<Vec<(AliasTerm, Ty)>, Fault>
        ensures duplicates { IfOk result (λ v.
            v.items ≡ map pair_of self.now.entries.hidden.duplicates) }
        ensures memory { IsOkUnless result Fault.Memory }
    {
        pairs_of(self.inner.allocator(), self.inner.duplicates())
    }

    /// The hidden types that are registered, in the order of registering, each behind its alias.
    pub fn clone_opaque_types_lookup_table(&self) -> Result<Vec<(AliasTerm, Ty)>, Fault>
        ensures lookup { IfOk result (λ v. v.items ≡ map pair_of self.now.entries.hidden.lookup) }
        ensures memory { IsOkUnless result Fault.Memory }
    {
        pairs_of(self.inner.allocator(), self.inner.hidden_types())
    }

    /// The hidden types that are registered from the given place on, none if it is past their end.
    pub fn clone_opaque_types_added_since(
        &self,
        entries: usize,
    ) -> Result<Vec<(AliasTerm, Ty)>, Fault>
        ensures since { IfOk result (λ v. v.items ≡ map pair_of
            (drop entries self.now.entries.hidden.lookup)) }
        ensures memory { IsOkUnless result Fault.Memory }
    {
        let hidden = self.inner.hidden_types();
        let start = entries.min(hidden.len());
        pairs_of(self.inner.allocator(), &hidden[start..])
    }

    /// The place of the first type that is hidden behind the same alias.
    fn place_of_hidden(
        &self,
        alloc: Global,
        nodes: &mut Nodes,
        hidden: HiddenType,
    ) -> Result<Option<usize>, AllocError>
        requires table { IsTable nodes.old self.now }
        requires hidden { IsHiddenType nodes.old (content_of nodes.old self.now.entries) hidden }
        ensures place { IfOk result (IsPlace nodes.old (content_of nodes.old self.now.entries)
            self.now.entries.hidden.lookup hidden) }
        ensures extends { Extends nodes.old nodes.new }
    {
        let args = resolve_nodes(alloc, nodes, self, hidden.args.node, true)?;
        for i in 0..self.num_opaque_types() {
            let old = self.hidden_type(i);
            let old_args = resolve_nodes(alloc, nodes, self, old.args.node, true)?;
            if is_one_alias(old.alias, hidden.alias, nodes.same(old_args, args)) {
                return Ok(Some(i));
            }
        }
        Ok(None)
    }
}

/// Each hidden type with its alias, in order.
fn pairs_of(alloc: Global, hidden: &[HiddenType]) -> Result<Vec<(AliasTerm, Ty)>, Fault>
    ensures pairs { IfOk result (λ v. v.items ≡ map pair_of hidden.now) }
    ensures memory { IsOkUnless result Fault.Memory }
{
    let mut pairs = Vec::with_capacity(alloc, hidden.len())?;
    for i in 0..hidden.len() {
        let HiddenType { alias, args, ty } = hidden[i];
        let key = AliasTerm {
            def_id: alias,
            args,
        };
        pairs.push((key, ty))?;
    }
    Ok(pairs)
}

/// Whether two aliases are one, where their arguments are.
fn is_one_alias(a: AliasDefId, b: AliasDefId, same_args: bool) -> bool
    ensures yes { result ≡ true → (a ≡ b) × (same_args ≡ true) }
    ensures no { result ≡ false → a ≡ b → same_args ≡ true → ⊥ }
{
    same_args && a == b
}
