//! Hidden types of a response, registered in a table.
ghost use Rattle.std.specs.Prelude.{◌≡◌, All, OnOk, IsOkUnless};
ghost use Rattle.nts_unify.specs.Reading.{content_of, IsHiddenType};
ghost use Rattle.nts_terms.specs.Rest.{Grows};
ghost use Rattle.nts_table.specs.Frames.{ChangesEntries};
ghost use Rattle.nts_table.specs.Tables.{IsTable};
ghost use Rattle.nts_canonical.specs.Building.{stored_hidden};
ghost use Rattle.nts_response.specs.Registered.{RegistersHidden, TakesAll};

use nts_store::Fault;
use nts_table::InferCtxt;
use nts_terms::{AliasTerm, Cx, Span, Ty};

/// Registers hidden types in their order. A type that gives place to one of them becomes a duplicate, behind the alias of
/// the one that takes its place.
pub(crate) fn register_hidden(
    table: &mut InferCtxt,
    cx: &mut Cx,
    hidden: &[(AliasTerm, Ty)],
    span: Span,
) -> Result<(), Fault>
    requires table { IsTable cx.old.nodes table.old }
    requires hidden { All (λ h. IsHiddenType cx.old.nodes
        (content_of cx.old.nodes table.old.entries) (stored_hidden h)) hidden.now }
    ensures registered { OnOk result (TakesAll cx.new.nodes
        (content_of cx.new.nodes table.old.entries) table.old.entries.hidden hidden.now
        table.new.entries.hidden) }
    ensures entries { OnOk result (table.new.entries ≡ record table.old.entries
        { hidden = table.new.entries.hidden }) }
    ensures changes { ChangesEntries table.old table.new }
    ensures table { IsTable cx.new.nodes table.new }
    ensures grows { Grows cx.old cx.new }
    ensures memory { IsOkUnless result Fault.Memory }
{
    for i in 0..hidden.len() {
        register_one(table, cx, hidden[i], span)?;
    }
    Ok(())
}

/// Registers one, likewise.
fn register_one(
    table: &mut InferCtxt,
    cx: &mut Cx,
    hidden: (AliasTerm, Ty),
    span: Span,
) -> Result<(), Fault>
    requires table { IsTable cx.old.nodes table.old }
    requires hidden { IsHiddenType cx.old.nodes (content_of cx.old.nodes table.old.entries)
        (stored_hidden hidden) }
    ensures registered { OnOk result (RegistersHidden cx.old.nodes
        (content_of cx.old.nodes table.old.entries) table.old.entries.hidden
        (stored_hidden hidden) table.new.entries.hidden) }
    ensures entries { OnOk result (table.new.entries ≡ record table.old.entries
        { hidden = table.new.entries.hidden }) }
    ensures changes { ChangesEntries table.old table.new }
    ensures table { IsTable cx.new.nodes table.new }
    ensures grows { Grows cx.old cx.new }
    ensures memory { IsOkUnless result Fault.Memory }
{
    let (key, ty) = hidden;
    if let Some(older) = table.register_hidden_type_in_storage(cx, key, ty, span)? {
        table.add_duplicate_opaque_type(cx, key, older, span)?;
    }
    Ok(())
}
