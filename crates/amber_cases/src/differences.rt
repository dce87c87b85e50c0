//! How what a run of a case has given differs from what the case expects. Over `CaseRun`.

use crate::case_run::CaseRun;
use amber_case_text::{CaseText, Left, compare_answer, compare_bytes};
use amber_io::{MemFolder, MemSink};
use std::alloc::{AllocError, Global};

/// What a run has given.
#[derive(Drop)]
pub struct Given {
    pub status: u8,
    pub folder: MemFolder,
    pub out: MemSink,
}

/// What differs first: in the answer, or else in a file.
pub fn difference(
    alloc: Global,
    run: CaseRun<'_>,
    given: &Given,
) -> Result<Option<String>, AllocError> {
    if let Some(found) = answer_difference(alloc, run, given)? {
        return Ok(Some(found));
    }
    for after in run.case.after.iter() {
        let name = after.name.as_str();
        if let Some(found) = left_difference(alloc, run, name, &after.left, given)? {
            return Ok(Some(found));
        }
    }
    unchanged_difference(alloc, run, given)
}

// How the answer differs from the first one that is right, where it is none of those that are.
fn answer_difference(
    alloc: Global,
    run: CaseRun<'_>,
    given: &Given,
) -> Result<Option<String>, AllocError> {
    for text in &run.case.out {
        if one_difference(alloc, run, text, given)?.is_none() {
            return Ok(None);
        }
    }
    match run.case.out.first() {
        Some(text) => one_difference(alloc, run, text, given),
        None => one_difference(alloc, run, &CaseText::new(alloc), given),
    }
}

fn one_difference(
    alloc: Global,
    run: CaseRun<'_>,
    text: &CaseText,
    given: &Given,
) -> Result<Option<String>, AllocError> {
    let found = given.out.bytes();
    let wanted = text.bytes(alloc, run.keep, found)?;
    match compare_answer(run.case.status, given.status, &wanted, found) {
        Ok(()) => Ok(None),
        Err(difference) => Ok(Some(format!(in alloc; "{difference}")?)),
    }
}

// How the files differ that a case gives and of whose end it says nothing: they stay as they are.
fn unchanged_difference(
    alloc: Global,
    run: CaseRun<'_>,
    given: &Given,
) -> Result<Option<String>, AllocError> {
    for file in run.case.files.iter() {
        let name = file.name.as_str();
        if run.case.left(name).is_none() {
            let wanted = run.given_bytes(alloc, name, &file.text)?;
            let found = file_difference(alloc, name, &wanted, given.folder.read(name))?;
            if found.is_some() {
                return Ok(found);
            }
        }
    }
    Ok(None)
}

// How a file differs from what is expected of it.
fn left_difference(
    alloc: Global,
    run: CaseRun<'_>,
    name: &str,
    left: &Left,
    given: &Given,
) -> Result<Option<String>, AllocError> {
    let held = given.folder.read(name);
    match left {
        Left::Text(text) => {
            let wanted = text.bytes(alloc, run.keep, held.unwrap_or(b""))?;
            file_difference(alloc, name, &wanted, held)
        }
        Left::Unchanged => match run.case.file(name) {
            Some(text) => {
                let wanted = run.given_bytes(alloc, name, text)?;
                file_difference(alloc, name, &wanted, held)
            }
            None => absent_difference(alloc, name, held),
        },
        Left::Absent => absent_difference(alloc, name, held),
    }
}

fn absent_difference(
    alloc: Global,
    name: &str,
    held: Option<&[u8]>,
) -> Result<Option<String>, AllocError> {
    match held {
        Some(_) => Ok(Some(format!(in alloc; "the file {name} is there")?)),
        None => Ok(None),
    }
}

fn file_difference(
    alloc: Global,
    name: &str,
    wanted: &[u8],
    held: Option<&[u8]>,
) -> Result<Option<String>, AllocError> {
    let Some(held) = held else {
        return Ok(Some(format!(in alloc; "the file {name} is not there")?));
    };
    match compare_bytes(wanted, held) {
        Ok(()) => Ok(None),
        Err(line) => Ok(Some(format!(in alloc; "in the file {name} {line}")?)),
    }
}
