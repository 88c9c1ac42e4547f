//! The words of leaves.
ghost use Rattle.std.specs.Prelude.{◌≡◌, option_copied, map, slice_get};
ghost use Rattle.nts_model.specs.Terms.Trees.{node};
ghost use Rattle.nts_text.specs.Names.{word_of_int, word_of_uint};
ghost use Rattle.nts_wording.specs.Printing.{leaf_name, type_name, is_region_leaf};
ghost use Rattle.nts_wording.specs.Pieces.{names_in};
ghost use Rattle.nts_store.specs.declared.nodes.NodeId.{NodeId};
ghost use Rattle.nts_wording.specs.Answers.{relation_word, node_of};

use indexmap::{IndexMap, IndexSet};
use nts_model::{Constant, FreeRegion, IntTy, Leaf, Relation, UintTy, VariableKind};
use nts_store::NodeId;
use nts_terms::GenericArg;
use nts_text::{Scope, Signature};

/// The name of a leaf, if it has one.
pub fn leaf_name<'a>(
    known: &'a IndexMap<NodeId, Vec<u8>>,
    scope: &'a Scope,
    term: NodeId,
    leaf: Leaf,
) -> Option<&'a [u8]>
    ensures { option_copied result ≡ leaf_name scope.now.parameters
        (names_in known.now.entries) term leaf }
{
    match leaf {
        Leaf::Variable(_, _) => match known.get(&term) {
            Some(name) => Some(name.as_slice()),
            None => None,
        },
        Leaf::TyConstant(Constant::Param(number)) => {
            spelling(&scope.parameters.types, number as usize)
        }
        Leaf::TyConstant(Constant::Placeholder(_, _)) => None,
        Leaf::ConstConstant(_) => None,
        Leaf::Region(FreeRegion::EarlyParam(number)) => {
            spelling(&scope.parameters.regions, number as usize)
        }
        Leaf::Region(FreeRegion::Static) => Some(b"'static"),
        Leaf::Region(_) => None,
    }
}

/// The value at this place.
pub fn value_at(values: &[GenericArg], place: usize) -> Option<NodeId>
    ensures { result ≡ node_of (slice_get values.now place) }
{
    Some(values.get(place)?.node)
}

/// The name with this number, if there is one.
pub fn spelling(names: &IndexSet<Vec<u8>>, number: usize) -> Option<&[u8]>
    ensures { option_copied result ≡ slice_get (map (λ v. v.items) names.now.keys) number }
{
    match names.get_index(number) {
        Some(name) => Some(name.as_slice()),
        None => None,
    }
}

/// Whether a leaf is a region: one without a value, or a variable for one.
pub fn is_region_leaf(leaf: Leaf) -> bool
    ensures { result ≡ is_region_leaf leaf }
{
    matches!(
        leaf,
        Leaf::Region(_) | Leaf::Variable(VariableKind::Region, _)
    )
}

/// The name of what is declared with this number, and no text where nothing is.
pub fn type_name(declared: &[Signature], number: usize) -> &[u8]
    ensures { result.now ≡ type_name declared.now number }
{
    match declared.get(number) {
        Some(signature) => &signature.name,
        None => b"",
    }
}

/// How a relation of two terms is written.
pub fn relation_word(relation: Relation) -> &'static [u8]
    ensures { result.now ≡ relation_word relation }
{
    match relation {
        Relation::Equal => b" == ",
        Relation::RegionOutlives | Relation::TypeOutlives => b": ",
    }
}

/// The name of a signed integer type.
pub fn int_name(int: IntTy) -> &'static [u8]
    ensures { result.now ≡ word_of_int int }
{
    match int {
        IntTy::I8 => b"i8",
        IntTy::I16 => b"i16",
        IntTy::I32 => b"i32",
        IntTy::I64 => b"i64",
        IntTy::I128 => b"i128",
        IntTy::Isize => b"isize",
    }
}

/// The name of an unsigned integer type.
pub fn uint_name(uint: UintTy) -> &'static [u8]
    ensures { result.now ≡ word_of_uint uint }
{
    match uint {
        UintTy::U8 => b"u8",
        UintTy::U16 => b"u16",
        UintTy::U32 => b"u32",
        UintTy::U64 => b"u64",
        UintTy::U128 => b"u128",
        UintTy::Usize => b"usize",
    }
}
