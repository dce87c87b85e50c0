//! The names of cases, no two of which may be the same.

ghost use Rattle.std.specs.Prelude.{◌≡◌, IsErrOf, OnOk, false, true};
ghost use Rattle.amber_case_text.specs.Names.{has_name};

use crate::fault::Why;
use std::collections::BTreeSet;

/// Adds the name of one more case, which is refused where an earlier one has it.
pub(crate) fn add_name(names: &mut BTreeSet<String>, name: String) -> Result<(), Why>
    ensures repeated { IsErrOf result Why.Repeated → has_name names.old name ≡ true }
    ensures new { OnOk result (has_name names.old name ≡ false) }
    ensures known { OnOk result (has_name names.new name ≡ true) }
{
    match names.insert(name) {
        Ok(true) => Ok(()),
        Ok(false) => Err(Why::Repeated),
        Err(_) => Err(Why::NoMemory),
    }
}
