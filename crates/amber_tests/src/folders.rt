//! What a folder gives and keeps, whichever folder it is. For the tests of `memory` and `real`.

use amber_io::{Folder, IoErr};
use std::alloc::{AllocError, Global};

// Appends to a text the first bytes of a file, or that they could not be loaded; and a `;`.
fn append_loaded<F: Folder>(
    alloc: Global,
    text: &mut String,
    folder: &mut F,
    name: &str,
    most: u64,
) -> Result<(), AllocError> {
    let bytes = match folder.load(alloc, name, most) {
        Ok(bytes) => bytes,
        Err(IoErr::Failed) => return text.push_str("failed;"),
        Err(IoErr::NoMemory) => return Err(AllocError),
    };
    text.push_str(&String::from_utf8_lossy(alloc, bytes.as_slice())?)?;
    text.push_str(";")
}

/// What these loads give one after the other: each is of a file's first bytes, at most a given number.
pub fn loaded<F: Folder>(
    alloc: Global,
    folder: &mut F,
    loads: &[(&str, u64)],
) -> Result<String, AllocError> {
    let mut text = String::new(alloc);
    for (name, most) in loads {
        append_loaded(alloc, &mut text, folder, name, *most)?;
    }
    Ok(text)
}
