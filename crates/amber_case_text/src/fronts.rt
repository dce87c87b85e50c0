//! The file of a case each of whose fronts is a run. Rests on `Case`.

ghost use Rattle.std.specs.Prelude.{◌≡◌, OnErr, OnOk, None, Some};
ghost use Rattle.amber_case_text.specs.Fronts.{HasNoFailures};

use crate::case::Case;
use crate::fault::Why;

/// Says that each front of the file of this name is a run. The case gives the file, and no call fails in it.
pub(crate) fn set_fronts(case: &mut Case, name: String) -> Result<(), Why>
    ensures set { OnOk result (case.new.fronts ≡ Some name) }
    ensures once { OnOk result (case.old.fronts ≡ None) }
    ensures alone { OnOk result (HasNoFailures case.new) }
    ensures kept { OnErr result (case.new ≡ case.old) }
{
    if case.fronts.is_some() || !case.keep.is_empty() || case.has_failing_calls() {
        return Err(Why::Fronts);
    }
    if case.file(name.as_str()).is_none() {
        return Err(Why::NoFile);
    }
    case.fronts = Some(name);
    Ok(())
}
