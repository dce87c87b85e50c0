//! What is expected of texts and rows. A test fails by what was found, not by its line.

use crate::written::rows_text;
use amber_rows::Row;
use std::alloc::Global;
use std::test::Fail;

/// Expects a text.
pub fn expect_text(found: String, want: &str) -> Result<(), Fail> {
    if found.as_str() == want {
        return Ok(());
    }
    Err(Fail::new(found))
}

/// Expects the bytes of a text.
pub fn expect_bytes(alloc: Global, found: &[u8], want: &str) -> Result<(), Fail> {
    expect_text(String::from_utf8_lossy(alloc, found)?, want)
}

/// Expects rows in this order, each with a `/` and a blank after it.
pub fn expect_rows(alloc: Global, found: &[Row], want: &str) -> Result<(), Fail> {
    expect_text(rows_text(alloc, found)?, want)
}
