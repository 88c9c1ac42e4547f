//! Whether canonical inputs are one.
ghost use Rattle.std.specs.Prelude.{◌≡◌, ◌↔◌, map, IsTrue};
ghost use Rattle.nts_canonical.specs.Forms.{kind_of_var, hidden_pairs, query_tree, IsHidden, AreHidden, HoldsQuery};
ghost use Rattle.nts_canonical.specs.Alike.{AreOneInput, AreOnePair};

use crate::types::{CanonicalInput, CanonicalVarKind, QueryInput};
use nts_store::Nodes;
use nts_terms::{AliasTerm, Cx, Ty};

/// Whether two canonical inputs of one store are one: the same form and the same mode. Those of two goals
/// have the same form exactly where the goals are alike (`nts_model::forms_tell_inputs`).
pub fn same_input(cx: &Cx, a: &CanonicalInput, b: &CanonicalInput) -> bool
    requires left { HoldsQuery cx.now.nodes a.now.canonical.value }
    requires right { HoldsQuery cx.now.nodes b.now.canonical.value }
    ensures { IsTrue result ↔ AreOneInput cx.now.nodes a.now b.now }
{
    if !same_query(&cx.nodes, &a.canonical.value, &b.canonical.value) {
        return false;
    }
    if !same_kinds(&a.canonical.var_kinds, &b.canonical.var_kinds) {
        return false;
    }
    a.canonical.max_universe == b.canonical.max_universe && a.typing_mode.same(&b.typing_mode)
}

fn same_query(nodes: &Nodes, a: &QueryInput, b: &QueryInput) -> bool
    requires left { HoldsQuery nodes.now a.now }
    requires right { HoldsQuery nodes.now b.now }
    ensures { IsTrue result ↔ (query_tree nodes.now a.now ≡ query_tree nodes.now b.now) }
{
    if !nodes.same(a.goal.param_env.node, b.goal.param_env.node) {
        return false;
    }
    if !nodes.same(a.goal.predicate.node, b.goal.predicate.node) {
        return false;
    }
    same_hidden(
        nodes,
        &a.predefined_opaques_in_body,
        &b.predefined_opaques_in_body,
    )
}

fn same_hidden(nodes: &Nodes, a: &[(AliasTerm, Ty)], b: &[(AliasTerm, Ty)]) -> bool
    requires left { AreHidden nodes.now a.now }
    requires right { AreHidden nodes.now b.now }
    ensures { IsTrue result ↔ (hidden_pairs nodes.now a.now ≡ hidden_pairs nodes.now b.now) }
{
    if a.len() != b.len() {
        return false;
    }
    for i in 0..a.len() {
        if !same_pair(nodes, a[i], b[i]) {
            return false;
        }
    }
    true
}

/// Whether two hidden types of one store are one, of one alias.
pub fn same_pair(nodes: &Nodes, a: (AliasTerm, Ty), b: (AliasTerm, Ty)) -> bool
    requires left { IsHidden nodes.now a }
    requires right { IsHidden nodes.now b }
    ensures { IsTrue result ↔ AreOnePair nodes.now a b }
{
    if a.0.def_id != b.0.def_id {
        return false;
    }
    if !nodes.same(a.0.args.node, b.0.args.node) {
        return false;
    }
    nodes.same(a.1.node, b.1.node)
}

/// Whether the kinds of two lists of positions are the same, in order.
pub fn same_kinds(a: &[CanonicalVarKind], b: &[CanonicalVarKind]) -> bool
    ensures { IsTrue result ↔ (map kind_of_var a.now ≡ map kind_of_var b.now) }
{
    if a.len() != b.len() {
        return false;
    }
    for i in 0..a.len() {
        if !same_kind(a[i], b[i]) {
            return false;
        }
    }
    true
}

fn same_kind(a: CanonicalVarKind, b: CanonicalVarKind) -> bool
    ensures { IsTrue result ↔ (kind_of_var a ≡ kind_of_var b) }
{
    match (a, b) {
        (
            CanonicalVarKind::Ty { ui, sub_root },
            CanonicalVarKind::Ty {
                ui: other,
                sub_root: its_root,
            },
        ) => ui == other && sub_root == its_root,
        (CanonicalVarKind::Int, CanonicalVarKind::Int) => true,
        (CanonicalVarKind::Float, CanonicalVarKind::Float) => true,
        (CanonicalVarKind::Const(ui), CanonicalVarKind::Const(other)) => ui == other,
        (CanonicalVarKind::Region(ui), CanonicalVarKind::Region(other)) => ui == other,
        (CanonicalVarKind::PlaceholderTy(p), CanonicalVarKind::PlaceholderTy(q)) => {
            p.universe == q.universe && p.bound.var == q.bound.var
        }
        (CanonicalVarKind::PlaceholderRegion(p), CanonicalVarKind::PlaceholderRegion(q)) => {
            p.universe == q.universe && p.bound.var == q.bound.var
        }
        (CanonicalVarKind::PlaceholderConst(p), CanonicalVarKind::PlaceholderConst(q)) => {
            p.universe == q.universe && p.bound.var == q.bound.var
        }
        _ => false,
    }
}
