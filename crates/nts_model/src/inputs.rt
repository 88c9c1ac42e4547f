//! What is true of canonical inputs.
ghost use Rattle.nts_model.specs.Canonical.Inputs.{FormsTellInputs, OriginalsGiveInput, OriginalsAreLeaves, MakingGivesForm};

/// Two inputs have equal canonical forms exactly where they are alike: where a renaming of leaves that
/// keeps sorts maps the one to the other, and keeps the partition of type variables by sub root.
pub fn forms_tell_inputs()
    ensures equal_where_alike { FormsTellInputs }
{}

/// The originals of an input are its leaves, each once, and with them in place of positions a canonical
/// form is the input.
pub fn originals_give_input()
    ensures given_back { OriginalsGiveInput }
    ensures leaves { OriginalsAreLeaves }
{}

/// An input that is made of a canonical form, with leaves of the form's kinds, has that form.
pub fn making_gives_form()
    ensures same_form { MakingGivesForm }
{}
