//! What is expected of texts. A test fails by what was found, not by its line.

use std::test::Fail;

/// Expects a text.
pub fn expect_text(found: String, want: &str) -> Result<(), Fail> {
    if found.as_str() == want {
        return Ok(());
    }
    Err(Fail::new(found))
}
