//! The variable or the placeholder that a label names.
ghost use Rattle.std.specs.Prelude.{◌≡◌, MatchOption, None};
ghost use Rattle.nts_model.specs.declared.labels.Leaf.TheVariants as leaves;
ghost use Rattle.nts_model.specs.declared.labels.Label.TheVariants as labels;
ghost use Rattle.nts_model.specs.Terms.Placeholders.{leaf_level};
ghost use Rattle.nts_model.specs.Terms.Trees.{variable_of};

use nts_model::{Constant, FreeRegion, Label, Leaf, VariableKind};
use nts_terms::UniverseIndex;

/// The kind and the number of the variable that a label names, if it names one.
pub fn named_variable(label: Label) -> Option<(VariableKind, usize)>
    ensures { MatchOption result (variable_of label ≡ None) (λ v. label ≡ labels.Leaf
        (leaves.Variable v.0 v.1)) }
{
    match label {
        Label::Leaf(Leaf::Variable(kind, n)) => Some((kind, n)),
        _ => None,
    }
}

/// The universe of the placeholder that a label is, if it is one.
pub fn placeholder_universe(label: Label) -> Option<UniverseIndex>
    ensures { result ≡ leaf_level label }
{
    match label {
        Label::Leaf(
            Leaf::Region(FreeRegion::Placeholder(u, _))
            | Leaf::TyConstant(Constant::Placeholder(u, _))
            | Leaf::ConstConstant(Constant::Placeholder(u, _)),
        ) => Some(u),
        _ => None,
    }
}
