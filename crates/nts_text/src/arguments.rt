//! The sorts of the arguments that a node is given.
ghost use Rattle.std.specs.Prelude.{◌≡◌, ◌<◌, ◌++◌, vec_len, reverse, OnOk};
ghost use Rattle.nts_text.specs.Resolution.{alias_sorts, argument_sorts, IsDeclared};

use crate::names::NameTable;
use crate::resolver::Resolved;
use nts_model::Sort;
use std::alloc::AllocError;

/// The sorts on the sides of a colon.
const TYPE_AND_REGION: [Sort; 2] = [Sort::Ty, Sort::Region];

const TWO_REGIONS: [Sort; 2] = [Sort::Region, Sort::Region];

/// Adds sorts to those that are wanted, the first one last.
fn want_all(wanted: &mut Vec<Sort>, sorts: &[Sort]) -> Result<(), AllocError>
    ensures { OnOk result (wanted.new.items ≡ wanted.old.items ++ reverse sorts.now) }
{
    let mut at = sorts.len();
    while at > 0 {
        at -= 1;
        wanted.push(sorts[at])?;
    }
    Ok(())
}

/// The sorts of an alias's arguments.
fn alias_sorts(names: &NameTable, number: usize) -> &[Sort]
    requires { number < vec_len names.now.aliases }
    ensures { result.now ≡ alias_sorts names.now number }
{
    &names.aliases[number].sorts
}

/// Adds the sorts of a node's arguments to those that are wanted, the first one last.
pub fn want_arguments(
    wanted: &mut Vec<Sort>,
    names: &NameTable,
    node: Resolved,
) -> Result<(), AllocError>
    requires { IsDeclared names.now node }
    ensures { OnOk result (wanted.new.items ≡ wanted.old.items ++ reverse
        (argument_sorts names.now node)) }
{
    match node {
        Resolved::Trait { number, .. } => want_all(wanted, &names.traits[number].sorts),
        Resolved::Ctor { number, .. } => want_all(wanted, &names.types[number].sorts),
        Resolved::Alias { number, .. } => want_all(wanted, alias_sorts(names, number)),
        Resolved::Normalizes { number, .. } => {
            wanted.push(Sort::Ty)?;
            want_all(wanted, alias_sorts(names, number))
        }
        Resolved::TypeOutlives => want_all(wanted, &TYPE_AND_REGION),
        Resolved::RegionOutlives => want_all(wanted, &TWO_REGIONS),
        _ => Ok(()),
    }
}
