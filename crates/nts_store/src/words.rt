//! By what number the shape of a node is hashed: it is made in a few steps, and most shapes differ in it.
ghost use Rattle.std.specs.Prelude.{◌≡◌};
ghost use Rattle.nts_store.specs.Words as words;

use crate::nodes::NodeId;
use nts_model::{
    AliasHead, BoundVarIndexKind, ClauseHead, ConstHead, Constant, FreeRegion, Label, Leaf,
    ListHead, PredicateHead, TyHead, VariableKind,
};

/// An odd number whose bits look random.
const MULTIPLIER: u64 = 0x9e37_79b9_7f4a_7c15;

/// How many words there are.
const WORDS: u128 = 0x1_0000_0000_0000_0000;

/// The word of a label, with the numbers of terms in it.
pub(crate) fn word_of(label: Label, terms: &[NodeId]) -> u64
    ensures { result ≡ words.with_all (words.label_word label) terms.now }
{
    let mut word = label_word(label);
    for term in terms {
        word = with_number(word, term.number);
    }
    word
}

fn with_number(word: u64, number: usize) -> u64
    ensures { result ≡ words.with_number word number }
{
    word.wrapping_mul(MULTIPLIER).wrapping_add(number as u64)
}

fn label_word(label: Label) -> u64
    ensures { result ≡ words.label_word label }
{
    match label {
        Label::Leaf(leaf) => leaf_word(leaf),
        Label::Bound(_, BoundVarIndexKind::Bound(depth), number) => {
            with_number(with_number(11, depth), number)
        }
        Label::Bound(_, BoundVarIndexKind::Canonical, number) => with_number(12, number),
        Label::Ty(head) => ty_word(head),
        Label::Const(head) => const_word(head),
        Label::Clause(head) => clause_word(head),
        Label::Predicate(head) => predicate_word(head),
        Label::List(head) => list_word(head),
    }
}

fn leaf_word(leaf: Leaf) -> u64
    ensures { result ≡ words.leaf_word leaf }
{
    match leaf {
        Leaf::Variable(VariableKind::Ty, number) => with_number(7, number),
        Leaf::Variable(_, number) => with_number(8, number),
        Leaf::Region(region) => region_word(region),
        Leaf::TyConstant(constant) => constant_word(9, constant),
        Leaf::ConstConstant(constant) => constant_word(10, constant),
    }
}

fn region_word(region: FreeRegion) -> u64
    ensures { result ≡ words.region_word region }
{
    match region {
        FreeRegion::Static => 1,
        FreeRegion::EarlyParam(number) => with_number(2, number as usize),
        FreeRegion::LateParam(number) => with_number(3, number as usize),
        FreeRegion::Placeholder(universe, number) => {
            with_number(with_number(4, universe as usize), number)
        }
        FreeRegion::Erased => 5,
        FreeRegion::Error => 6,
    }
}

fn constant_word(word: u64, constant: Constant) -> u64
    ensures { result ≡ words.constant_word word constant }
{
    match constant {
        Constant::Param(number) => with_number(word, number as usize),
        Constant::Placeholder(universe, number) => {
            with_number(with_number(word, universe as usize), number)
        }
    }
}

fn ty_word(head: TyHead) -> u64
    ensures { result ≡ words.ty_word head }
{
    match head {
        TyHead::Ctor(number) => with_number(13, number),
        TyHead::Int(_) => 14,
        TyHead::Uint(_) => 15,
        TyHead::Float(_) => 16,
        TyHead::FnPtr => 17,
        TyHead::Alias(number) => with_number(18, number),
        TyHead::Error => 19,
    }
}

fn const_word(head: ConstHead) -> u64
    ensures { result ≡ words.const_word head }
{
    match head {
        ConstHead::Unevaluated(number) => with_number(20, number),
        ConstHead::Value(value) => with_number(21, (value % WORDS) as usize),
        ConstHead::Error => 22,
    }
}

fn clause_word(head: ClauseHead) -> u64
    ensures { result ≡ words.clause_word head }
{
    match head {
        ClauseHead::Trait(number) => with_number(23, number),
        ClauseHead::HostEffect(number) => with_number(24, number),
        ClauseHead::Projection(AliasHead::Ty(number)) => with_number(25, number),
        ClauseHead::Projection(AliasHead::Const(number)) => with_number(26, number),
        ClauseHead::TypeOutlives => 27,
        ClauseHead::RegionOutlives => 28,
        ClauseHead::ConstArgHasType => 29,
        ClauseHead::WellFormed => 30,
        ClauseHead::ConstEvaluatable => 31,
        ClauseHead::UnstableFeature(number) => with_number(32, number as usize),
    }
}

fn predicate_word(head: PredicateHead) -> u64
    ensures { result ≡ words.predicate_word head }
{
    match head {
        PredicateHead::Subtype(_) => 33,
        PredicateHead::Coerce => 34,
        PredicateHead::DynCompatible(number) => with_number(35, number),
        PredicateHead::ConstEquate => 36,
        PredicateHead::NormalizesTo(AliasHead::Ty(number)) => with_number(37, number),
        PredicateHead::NormalizesTo(AliasHead::Const(number)) => with_number(38, number),
        PredicateHead::AliasRelate(_) => 39,
        PredicateHead::Ambiguous => 40,
    }
}

fn list_word(head: ListHead) -> u64
    ensures { result ≡ words.list_word head }
{
    match head {
        ListHead::Args => 41,
        ListHead::Env => 42,
        ListHead::Sorts => 43,
        ListHead::Sort(_) => 44,
        ListHead::Binder => 45,
    }
}
