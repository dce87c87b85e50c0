//! The files of the scans, which stand in the order of the operators. Over `Flow` and `Files` of
//! `amber_rows`.

ghost use Rattle.std.specs.Prelude.{◌≡◌, ◌≤◌, count_by, length, option_map, take};
ghost use Rattle.amber_rows.specs.Kinds.{is_scan};
ghost use Rattle.amber_rows.specs.Lists.{first_list, first_of};
ghost use Rattle.amber_meaning.specs.ScanFiles.{files_left};

use amber_rows::{FileBytes, Files, Flow, Operator};

/// How many of these operators are scans.
fn scans_in(operators: &[Operator]) -> usize
    ensures { result ≡ count_by (λ operator. is_scan operator.what) operators.now }
{
    operators
        .iter()
        .filter(|operator| operator.what.is_scan())
        .count()
}

/// The file that is next after the first `before` operators, that of the next scan, if there is one.
pub fn shared_file_after<'a>(flow: &Flow, files: &'a Files, before: usize) -> Option<&'a FileBytes>
    requires { before ≤ length flow.now }
    ensures { option_map (λ file. file.now) result
        ≡ first_of (files_left files.now (take before flow.now)) }
{
    let operators = flow.get();
    let scans = scans_in(&operators[..before]);
    let files = files.get();
    if scans < files.len() {
        Some(&files[scans])
    } else {
        None
    }
}

/// The bytes of that file; none where there is no file.
pub fn file_after<'a>(flow: &Flow, files: &'a Files, before: usize) -> &'a [u8]
    requires { before ≤ length flow.now }
    ensures { result.now ≡ first_list (files_left files.now (take before flow.now)) }
{
    match shared_file_after(flow, files, before) {
        Some(file) => file.get(),
        None => &[],
    }
}
