//! The headers of the scans' files. Over `Flow` and `Files` of `amber_rows`, and `file_after`.

ghost use Rattle.std.specs.Prelude.{◌≡◌, IfOk};
ghost use Rattle.amber_meaning.specs.Plain.{wrong_header};
ghost use Rattle.amber_meaning.specs.ScanFiles.{is_headed};

use crate::scan_files::file_after;
use amber_rows::{Files, Flow, Operator, has_header};
use std::alloc::{AllocError, Global};

/// Whether an operator is no scan, or this file begins with the names of its columns.
fn is_headed(alloc: Global, operator: &Operator, file: &[u8]) -> Result<bool, AllocError>
    ensures { IfOk result
        (λ headed. headed ≡ is_headed operator.now.what operator.now.schema file.now) }
{
    if !operator.what.is_scan() {
        return Ok(true);
    }
    has_header(alloc, &operator.schema, file)
}

/// The number of the first scan whose file does not begin with the names of its columns, if there is one.
pub fn wrong_header(alloc: Global, flow: &Flow, files: &Files) -> Result<Option<u32>, AllocError>
    ensures { IfOk result (λ found. found ≡ wrong_header 1 files.now flow.now) }
{
    let operators = flow.get();
    for (i, operator) in operators.iter().enumerate() {
        let file = file_after(flow, files, i);
        let headed = is_headed(alloc, operator, file)?;
        if !headed {
            return Ok(Some(i as u32 + 1));
        }
    }
    Ok(None)
}
