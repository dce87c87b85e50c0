//! One run of a case, and what it is given. Over `Case` of `amber_case_text`.

use amber_case_text::{Case, CaseText};
use std::alloc::{AllocError, Global};

/// Where the file is cut of which each front is a run.
#[derive(Clone, Copy)]
pub struct Cut<'a> {
    pub file: &'a str,
    pub length: usize,
}

/// A run of a case: its words, and what else tells it from the others.
#[derive(Clone, Copy)]
pub struct CaseRun<'a> {
    pub case: &'a Case,
    pub words: &'a [String],
    /// How many bytes a failing call keeps.
    pub keep: u64,
    pub cut: Option<Cut<'a>>,
}

impl CaseRun<'_> {
    /// The bytes that the run is given in the file of this name, whose text this is.
    pub fn given_bytes(
        &self,
        alloc: Global,
        name: &str,
        text: &CaseText,
    ) -> Result<Vec<u8>, AllocError> {
        let mut bytes = text.bytes(alloc, 0, b"")?;
        match self.cut {
            Some(cut) if cut.file == name => bytes.truncate(cut.length),
            _ => {}
        }
        Ok(bytes)
    }

    /// Says of a difference in which run of its case it was found, where there are several.
    pub fn append_place(&self, alloc: Global, found: &mut String) -> Result<(), AllocError> {
        if self.case.words.len() > 1 {
            append_words(found, self.words)?;
        }
        if self.case.keep.len() > 1 {
            let keep = self.keep;
            found.push_str(&format!(in alloc; ", where failures keep {keep}")?)?;
        }
        if let Some(Cut { file, length }) = self.cut {
            found.push_str(&format!(in alloc; ", where {file} is cut at {length} bytes")?)?;
        }
        Ok(())
    }
}

// Says after which words a difference was found.
fn append_words(found: &mut String, words: &[String]) -> Result<(), AllocError> {
    found.push_str(", after the words")?;
    for word in words {
        found.push_str(" ")?;
        found.push_str(word)?;
    }
    Ok(())
}
