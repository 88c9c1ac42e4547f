//! New variables of given sorts.
ghost use Rattle.std.specs.Prelude.{◌≡◌, length, IfOk, OnOk, OnErr, IsOkUnless};
ghost use Rattle.nts_model.specs.declared.labels.Label.TheVariants as labels;
ghost use Rattle.nts_model.specs.declared.labels.ListHead.TheVariants as heads;
ghost use Rattle.nts_model.specs.Terms.Trees.{node, kind_of, variable_tree};
ghost use Rattle.nts_store.specs.Growth.{tree_at, trees_at, IsIn, AllIn, Extends};
ghost use Rattle.nts_terms.specs.Handles.{HoldsArg, HoldsArgs};
ghost use Rattle.nts_unify.specs.Entries.{added};
ghost use Rattle.nts_table.specs.Tables.{IsTable};
ghost use Rattle.nts_table.specs.Making.{new_variable};
ghost use Rattle.nts_table.specs.Fresh.{variable_kind, with_fresh, fresh_row, IsFreshLike};
ghost use Rattle.nts_terms.specs.Rest.{Grows};
ghost use Rattle.nts_table.specs.Frames.{ChangesEntries};

use crate::infer_ctxt::InferCtxt;
use nts_model::{Label, ListHead, Sort, VariableKind};
use nts_store::{Fault, NodeId};
use nts_terms::{Cx, GenericArg, GenericArgKind, GenericArgs, Span};

impl InferCtxt {
    /// New variables of these sorts, in their order.
    pub fn fresh_nodes(&mut self, cx: &mut Cx, sorts: &[Sort]) -> Result<Vec<NodeId>, Fault>
        requires table { IsTable cx.old.nodes self.old }
        ensures trees { IfOk result (λ v. trees_at cx.new.nodes v.items ≡ fresh_row
            (length self.old.entries.variables) sorts.now) }
        ensures within { IfOk result (λ v. AllIn cx.new.nodes v.items) }
        ensures entries { OnOk result (self.new.entries ≡ with_fresh self.old.entries sorts.now) }
        ensures changes { ChangesEntries self.old self.new }
        ensures table { IsTable cx.new.nodes self.new }
        ensures grows { Grows cx.old cx.new }
        ensures err { OnErr result (self.new ≡ self.old) }
        ensures memory { IsOkUnless result Fault.Memory }
    {
        let snapshot = self.start_snapshot()?;
        let nodes = self.add_fresh(cx, sorts);
        self.commit_if_ok(snapshot, nodes)
    }

    /// A list of new variables of these sorts, as arguments of what is declared with them.
    pub fn fresh_args_for_item(&mut self, cx: &mut Cx, sorts: &[Sort]) -> Result<GenericArgs, Fault>
        requires table { IsTable cx.old.nodes self.old }
        ensures tree { IfOk result (λ a. tree_at cx.new.nodes a.node ≡ node (labels.List heads.Args)
            (fresh_row (length self.old.entries.variables) sorts.now)) }
        ensures holds { IfOk result (λ a. HoldsArgs cx.new.nodes a) }
        ensures entries { OnOk result (self.new.entries ≡ with_fresh self.old.entries sorts.now) }
        ensures changes { ChangesEntries self.old self.new }
        ensures table { IsTable cx.new.nodes self.new }
        ensures grows { Grows cx.old cx.new }
        ensures err { OnErr result (self.new ≡ self.old) }
        ensures memory { IsOkUnless result Fault.Memory }
    {
        let snapshot = self.start_snapshot()?;
        let args = self.add_fresh_args(cx, sorts);
        self.commit_if_ok(snapshot, args)
    }

    fn add_fresh_args(&mut self, cx: &mut Cx, sorts: &[Sort]) -> Result<GenericArgs, Fault>
        requires table { IsTable cx.old.nodes self.old }
        ensures tree { IfOk result (λ a. tree_at cx.new.nodes a.node ≡ node (labels.List heads.Args)
            (fresh_row (length self.old.entries.variables) sorts.now)) }
        ensures holds { IfOk result (λ a. HoldsArgs cx.new.nodes a) }
        ensures entries { OnOk result (self.new.entries ≡ with_fresh self.old.entries sorts.now) }
        ensures changes { ChangesEntries self.old self.new }
        ensures table { IsTable cx.new.nodes self.new }
        ensures grows { Grows cx.old cx.new }
        ensures memory { IsOkUnless result Fault.Memory }
    {
        let nodes = self.add_fresh(cx, sorts)?;
        let node = cx.nodes.make(Label::List(ListHead::Args), &nodes)?;
        Ok(GenericArgs { node })
    }

    /// As `fresh_nodes`, but some variables may stay after an error.
    fn add_fresh(&mut self, cx: &mut Cx, sorts: &[Sort]) -> Result<Vec<NodeId>, Fault>
        requires table { IsTable cx.old.nodes self.old }
        ensures trees { IfOk result (λ v. trees_at cx.new.nodes v.items ≡ fresh_row
            (length self.old.entries.variables) sorts.now) }
        ensures within { IfOk result (λ v. AllIn cx.new.nodes v.items) }
        ensures entries { OnOk result (self.new.entries ≡ with_fresh self.old.entries sorts.now) }
        ensures changes { ChangesEntries self.old self.new }
        ensures table { IsTable cx.new.nodes self.new }
        ensures grows { Grows cx.old cx.new }
        ensures memory { IsOkUnless result Fault.Memory }
    {
        let mut nodes = Vec::with_capacity(cx.alloc, sorts.len())?;
        for sort in sorts {
            nodes.push(self.fresh_node(cx, *sort)?)?;
        }
        Ok(nodes)
    }

    /// A new variable of that sort.
    pub(crate) fn fresh_node(&mut self, cx: &mut Cx, sort: Sort) -> Result<NodeId, Fault>
        requires table { IsTable cx.old.nodes self.old }
        ensures within { IfOk result (λ r. IsIn cx.new.nodes r) }
        ensures tree { IfOk result (λ r. tree_at cx.new.nodes r ≡ variable_tree (variable_kind sort)
            (length self.old.entries.variables)) }
        ensures entries { OnOk result (self.new.entries ≡ added self.old.entries
            (new_variable self.old.entries (variable_kind sort))) }
        ensures changes { ChangesEntries self.old self.new }
        ensures table { IsTable cx.new.nodes self.new }
        ensures grows { Grows cx.old cx.new }
        ensures err { OnErr result (self.new ≡ self.old) }
        ensures memory { IsOkUnless result Fault.Memory }
    {
        self.add_variable(cx, kind_of_sort(sort), self.universe(), None)
    }
}

impl InferCtxt {
    /// A new variable of the argument's sort: for a type a type variable.
    pub fn fresh_var_for_kind_with_span(
        &mut self,
        cx: &mut Cx,
        arg: GenericArg,
        _span: Span,
    ) -> Result<GenericArg, Fault>
        requires table { IsTable cx.old.nodes self.old }
        requires holds { HoldsArg cx.old.nodes arg }
        ensures fresh { IfOk result (λ r. IsFreshLike (kind_of (tree_at cx.old.nodes arg.node))
            (tree_at cx.new.nodes r.node) self.old.entries self.new.entries) }
        ensures holds { IfOk result (λ r. HoldsArg cx.new.nodes r) }
        ensures changes { ChangesEntries self.old self.new }
        ensures table { IsTable cx.new.nodes self.new }
        ensures grows { Grows cx.old cx.new }
        ensures err { OnErr result (self.new ≡ self.old) }
        ensures memory { IsOkUnless result Fault.Memory }
    {
        let sort = match arg.kind(cx) {
            GenericArgKind::Lifetime(_) => Sort::Region,
            GenericArgKind::Type(_) => Sort::Ty,
            GenericArgKind::Const(_) => Sort::Const,
        };
        let node = self.fresh_node(cx, sort)?;
        Ok(GenericArg { node })
    }
}

fn kind_of_sort(sort: Sort) -> VariableKind
    ensures { result ≡ variable_kind sort }
{
    match sort {
        Sort::Ty => VariableKind::Ty,
        Sort::Region => VariableKind::Region,
        Sort::Const => VariableKind::Const,
    }
}
