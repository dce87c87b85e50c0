//! The files of a workflow's scans, in the order of the operators, each with the right header.
//! Rests on `load`, `has_header` and `FileBytes`.

ghost use Rattle.std.specs.Prelude.{◌≡◌, ◌≤◌, ◌<◌, ◌^◌, length, true, IfErr, IfOk};
ghost use Rattle.amber_io.specs.Folder.{Told};
ghost use Rattle.amber_io.specs.World.{LoadsOnly};
ghost use Rattle.amber_rows.specs.Record.{has_header};
ghost use Rattle.amber_course.specs.Loaded.{AreInputs};
ghost use Rattle.amber_course.specs.Course.{IsScanFile, loaded_for, require_header, scan_file, scans_of};
ghost use Rattle.amber_course.specs.Steps.{Follows, Judges, Names};

use crate::failure::{Failure, Reason};
use crate::inputs::Inputs;
use crate::loading::load;
use amber_io::Outside;
use amber_rows::{Bytes, FileBytes, Files, Flow, Schema, What, has_header};
use std::alloc::Global;

// How many bytes the files of all scans may have together.
const MOST_SCANNED: u64 = 1 << 25;

// A scan's file, where it begins with the names of the scan's columns.
fn with_header(alloc: Global, op: u32, columns: &Schema, bytes: Bytes) -> Result<Bytes, Failure>
    ensures { Judges result (require_header op columns.now bytes) }
{
    let right = has_header(alloc, columns, bytes.get())?;
    if !right {
        return Err(Failure::BadFlow {
            op,
            why: Reason::Header,
        });
    }
    Ok(bytes)
}

// The file of a scan, which has at most `most` bytes.
fn load_scan<W: Outside>(
    alloc: Global,
    op: u32,
    most: u64,
    name: &str,
    columns: &Schema,
    outside: &mut W,
) -> Result<Bytes, Failure>
    requires { most < 2 ^ 63 }
    ensures course { Follows result (scan_file op most name.now columns.now) (W.world outside.old)
        (W.world outside.new) }
    ensures few { IfOk result (λ bytes. length bytes ≤ most) }
    ensures headed { IfOk result (λ bytes. has_header columns.now bytes ≡ true) }
    ensures named { IfErr result (λ failure. Names failure (λ file. file ≡ name.now)) }
    ensures only { LoadsOnly (W.world outside.old) (W.world outside.new) }
    ensures held { W.held outside.new ≡ W.held outside.old }
{
    let bytes = load(alloc, name, most, outside)?;
    with_header(alloc, op, columns, bytes)
}

// The files of a workflow's scans, in the order of the operators.
fn load_files<W: Outside>(alloc: Global, flow: &Flow, outside: &mut W) -> Result<Files, Failure>
    ensures course { Follows result (scans_of flow.now) (W.world outside.old)
        (W.world outside.new) }
    ensures inputs { IfOk result
        (λ files. AreInputs (record { flow = flow.now; files = files })) }
    ensures named { Told (W.world outside.old).files
        (λ files. IfErr result (λ failure. Names failure (IsScanFile flow.now files))) }
    ensures only { LoadsOnly (W.world outside.old) (W.world outside.new) }
    ensures held { W.held outside.new ≡ W.held outside.old }
{
    let mut files = Vec::new(alloc);
    let mut left = MOST_SCANNED;
    let operators = flow.get();
    for (i, operator) in operators.iter().enumerate() {
        if let What::Scan { file } = &operator.what {
            let op = i as u32 + 1;
            let bytes = load_scan(alloc, op, left, file.get(), &operator.schema, outside)?;
            left -= bytes.len() as u64;
            files.push(FileBytes::new(alloc, bytes)?)?;
        }
    }
    Ok(Files::new(files))
}

/// A workflow with the files of its scans.
pub(crate) fn load_scans<W: Outside>(
    alloc: Global,
    flow: Flow,
    outside: &mut W,
) -> Result<Inputs, Failure>
    ensures course { Follows result (loaded_for flow) (W.world outside.old)
        (W.world outside.new) }
    ensures flow { IfOk result (λ inputs. inputs.flow ≡ flow) }
    ensures named { Told (W.world outside.old).files
        (λ files. IfErr result (λ failure. Names failure (IsScanFile flow files))) }
    ensures only { LoadsOnly (W.world outside.old) (W.world outside.new) }
    ensures held { W.held outside.new ≡ W.held outside.old }
{
    let files = load_files(alloc, &flow, outside)?;
    Ok(Inputs::new(flow, files))
}
