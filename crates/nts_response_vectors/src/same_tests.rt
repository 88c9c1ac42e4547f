//! Whether responses are one, case by case.
ghost use Rattle.nts_response.specs.Forms.{HoldsResponse};

use nts_canonical::CanonicalVarKind;
use nts_certainty::Certainty;
use nts_response::{CanonicalResponse, clone_response, response_no_constraints_raw, same_response};
use nts_terms::Cx;
use std::process::Abort;

#[test]
fn a_response_is_itself_and_its_clone_and_no_other_one(rt: HostRuntime) {
    let mut cx = Cx::new(rt.alloc());
    let response = nothing_found(&rt, &mut cx);
    let mut copy = clone_response(&response).expect(&rt, "memory");
    see_copies(&rt, &cx, &response, &mut copy);
}

/// The certain response that says nothing of one type variable.
fn nothing_found(rt: &impl Abort, cx: &mut Cx) -> CanonicalResponse
    ensures { HoldsResponse cx.new.nodes result.value }
{
    let mut kinds = Vec::new(cx.alloc);
    let kind = CanonicalVarKind::Ty { ui: 0, sub_root: 0 };
    kinds.push(kind).expect(rt, "memory");
    response_no_constraints_raw(cx, 1, kinds, Certainty::Yes).expect(rt, "memory")
}

/// A response and its clone, which is changed.
fn see_copies(rt: &impl Abort, cx: &Cx, response: &CanonicalResponse, copy: &mut CanonicalResponse)
    requires response { HoldsResponse cx.now.nodes response.now.value }
    requires copy { HoldsResponse cx.now.nodes copy.old.value }
{
    assert!(rt; same_response(cx, response, response));
    assert!(rt; same_response(cx, response, copy));
    copy.max_universe = 2;
    assert!(rt; !same_response(cx, response, copy));
    copy.max_universe = 1;
    copy.value.certainty = Certainty::AMBIGUOUS;
    assert!(rt; !same_response(cx, copy, response));
    copy.value.certainty = Certainty::Yes;
    assert!(rt; copy.var_kinds.len() == 1);
    copy.var_kinds[0] = CanonicalVarKind::Ty { ui: 1, sub_root: 0 };
    assert!(rt; !same_response(cx, response, copy));
}
