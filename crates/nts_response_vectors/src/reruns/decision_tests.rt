//! What conditions decide, mode by mode.
ghost use Rattle.std.specs.Prelude.{All};
ghost use Rattle.nts_terms.specs.Handles.{HoldsTy};

use crate::reruns::conditions::Condition::{Always, Ids, IdsOrOpen, Never, Open};
use crate::reruns::conditions::Mode::{Analysis, Borrowck, Coherence, Erased, PostAnalysis};
use crate::reruns::conditions::{Condition, Mode, condition_of, ids_of, mode_of};
use nts_certainty::RerunDecision::{EagerlyPropagateToParent, No, Yes};
use nts_certainty::{
    AccessedOpaques, RerunCondition, RerunDecision, opaque_type_is_rigid,
    should_rerun_after_erased_canonicalization,
};
use nts_model::UintTy;
use nts_store::EvalError;
use nts_terms::{AliasDefId, AliasId, AliasTerm, Cx, InferTy, Ty, TyKind, TypingMode};
use std::alloc::Global;
use std::process::Abort;

/// What is known of the hidden types above: nothing, that an alias of this number hides a byte, or that it hides a type
/// variable.
#[derive(Clone, Copy)]
enum Above {
    Nothing,
    Byte(usize),
    Variable(usize),
}

use Above::{Byte, Nothing, Variable};

/// A condition in a mode, and what it decides.
struct Case(Condition, Mode, Above, RerunDecision);

fn decide(rt: &impl Abort, alloc: Global, cases: &[Case]) {
    let mut cx = Cx::new(alloc);
    decide_in(rt, &mut cx, cases);
}

fn decide_in(rt: &impl Abort, cx: &mut Cx, cases: &[Case]) {
    for n in 0..cases.len() {
        let Case(condition, mode, above, wanted) = &cases[n];
        let found = decision(cx, *condition, *mode, *above);
        assert!(rt; found == Ok(*wanted), "case {n}");
    }
}

fn decision(
    cx: &mut Cx,
    condition: Condition,
    mode: Mode,
    above: Above,
) -> Result<RerunDecision, EvalError> {
    let rerun = condition_of(cx.alloc, condition)?;
    let mode = mode_of(cx.alloc, mode)?;
    match above {
        Above::Nothing => Ok(decided(cx, rerun, &mode, &[])),
        Above::Byte(number) => {
            let alias = alias(cx, number)?;
            let byte = cx.mk_ty(TyKind::Uint(UintTy::U8))?;
            Ok(decided(cx, rerun, &mode, &[(alias, byte)]))
        }
        Above::Variable(number) => {
            let alias = alias(cx, number)?;
            let variable = cx.mk_ty(TyKind::Infer(InferTy::TyVar(0)))?;
            Ok(decided(cx, rerun, &mode, &[(alias, variable)]))
        }
    }
}

fn decided(
    cx: &Cx,
    rerun: RerunCondition,
    mode: &TypingMode,
    above: &[(AliasTerm, Ty)],
) -> RerunDecision
    requires { All (λ p. HoldsTy cx.now.nodes p.1) above.now }
{
    should_rerun_after_erased_canonicalization(cx, &AccessedOpaques { rerun }, mode, above)
}

/// The alias of types of this number, without arguments.
fn alias(cx: &mut Cx, number: usize) -> Result<AliasTerm, EvalError> {
    let args = cx.mk_args(&[])?;
    let def_id = AliasDefId::Ty(AliasId { number });
    Ok(AliasTerm { def_id, args })
}

#[test]
fn nothing_stands(rt: HostRuntime) {
    const CASES: &[Case] = &[
        Case(Never, Coherence, Nothing, No),
        Case(Never, PostAnalysis, Nothing, No),
        Case(Never, Erased, Nothing, No),
    ];
    decide(&rt, rt.alloc(), CASES);
}

#[test]
fn behind_the_analysis(rt: HostRuntime) {
    const CASES: &[Case] = &[
        Case(Always, PostAnalysis, Nothing, Yes),
        Case(Open, PostAnalysis, Nothing, No),
        Case(Ids(&[]), PostAnalysis, Nothing, Yes),
        Case(IdsOrOpen(&[]), PostAnalysis, Nothing, Yes),
    ];
    decide(&rt, rt.alloc(), CASES);
}

#[test]
fn in_coherence_and_erased(rt: HostRuntime) {
    const CASES: &[Case] = &[
        Case(Ids(&[]), Coherence, Nothing, Yes),
        Case(Ids(&[]), Erased, Nothing, EagerlyPropagateToParent),
    ];
    decide(&rt, rt.alloc(), CASES);
}

#[test]
fn ids_that_the_mode_lists(rt: HostRuntime) {
    const CASES: &[Case] = &[
        Case(Ids(&[]), Analysis(&[3, 4]), Nothing, No),
        Case(Ids(&[5]), Analysis(&[3, 4]), Nothing, No),
        Case(Ids(&[5, 4]), Analysis(&[3, 4]), Nothing, Yes),
    ];
    decide(&rt, rt.alloc(), CASES);
}

#[test]
fn ids_in_the_borrow_checker(rt: HostRuntime) {
    const CASES: &[Case] = &[
        Case(IdsOrOpen(&[3]), Borrowck(&[3]), Nothing, Yes),
        Case(IdsOrOpen(&[5]), Borrowck(&[3]), Nothing, No),
    ];
    decide(&rt, rt.alloc(), CASES);
}

#[test]
fn an_alias_with_a_hidden_type(rt: HostRuntime) {
    const CASES: &[Case] = &[
        Case(Ids(&[8]), Analysis(&[]), Byte(8), Yes),
        Case(Ids(&[9]), Analysis(&[]), Byte(8), No),
        Case(Open, Analysis(&[]), Byte(8), No),
    ];
    decide(&rt, rt.alloc(), CASES);
}

#[test]
fn a_hidden_type_that_is_open(rt: HostRuntime) {
    const CASES: &[Case] = &[
        Case(Open, Analysis(&[]), Variable(8), Yes),
        Case(Open, Borrowck(&[]), Variable(8), No),
    ];
    decide(&rt, rt.alloc(), CASES);
}

#[test]
fn opaque_types_that_are_rigid(rt: HostRuntime) {
    let listed = AliasId { number: 3 };
    let other = AliasId { number: 4 };
    assert!(rt; !opaque_type_is_rigid(&TypingMode::Coherence, other));
    assert!(rt; !opaque_type_is_rigid(&TypingMode::PostAnalysis, other));
    let ids = ids_of(rt.alloc(), &[3]).expect(&rt, "memory");
    let mode = TypingMode::Analysis {
        defining_opaque_types_and_generators: ids,
    };
    assert!(rt; !opaque_type_is_rigid(&mode, listed));
    assert!(rt; opaque_type_is_rigid(&mode, other));
}
