//! The runs of a case, and what is asked of the logs that they leave. Over `CaseRun`, on the folder and the sink in memory of
//! `amber_io`.

use crate::case_run::{CaseRun, Cut};
use crate::differences::{Given, difference};
use crate::left_log::left_log;
use crate::recovered::recover_difference;
use crate::replayed::replay_difference;
use crate::session_call::call_session;
use amber_case_text::Case;
use amber_io::{Fails, MemFolder, MemSink, NamedFiles, Numbers};
use amber_mail::OpenGate;
use amber_run::{Printed, Status, amber};
use std::alloc::{AllocError, Global};
use std::thread::Threads;

// Runs the top call, or a session: this is the one place that calls them.
fn call<R: Threads + Sync>(
    rt: &R,
    alloc: Global,
    words: &[String],
    mut folder: MemFolder,
    mut out: MemSink,
) -> Given {
    let status = match words {
        [form, words @ ..] if form.as_str() == "session" => {
            call_session(rt, alloc, words, &mut folder, &mut out)
        }
        _ => call_amber(rt, alloc, words, &mut folder, &mut out),
    };
    Given {
        status: status.code(),
        folder,
        out,
    }
}

fn call_amber<R: Threads + Sync>(
    rt: &R,
    alloc: Global,
    words: &[String],
    folder: &mut MemFolder,
    out: &mut MemSink,
) -> Status {
    let mut printed = Printed::new();
    amber(rt, alloc, words, folder, out, &mut printed, &OpenGate)
}

/// What differs first in the runs of a case: one for each of its words and of the numbers of bytes that
/// a failing call keeps, or of the fronts of a file.
pub fn try_case<R: Threads + Sync>(
    rt: &R,
    alloc: Global,
    case: &Case,
) -> Result<Option<String>, AllocError> {
    for words in case.words.iter() {
        let run = CaseRun {
            case,
            words: words.as_slice(),
            keep: 0,
            cut: None,
        };
        if let Some(difference) = try_words(rt, alloc, run)? {
            return Ok(Some(difference));
        }
    }
    Ok(None)
}

// What differs first in the runs that differ from this one in no word.
fn try_words<R: Threads + Sync>(
    rt: &R,
    alloc: Global,
    run: CaseRun<'_>,
) -> Result<Option<String>, AllocError> {
    if let Some(file) = &run.case.fronts {
        return try_fronts(rt, alloc, run, file.as_str());
    }
    if run.case.keep.is_empty() {
        return try_run(rt, alloc, run);
    }
    for keep in run.case.keep.iter() {
        let run = CaseRun { keep: *keep, ..run };
        if let Some(difference) = try_run(rt, alloc, run)? {
            return Ok(Some(difference));
        }
    }
    Ok(None)
}

// What differs first in the runs over the fronts of this file, from no byte to the whole of it.
fn try_fronts<R: Threads + Sync>(
    rt: &R,
    alloc: Global,
    run: CaseRun<'_>,
    file: &str,
) -> Result<Option<String>, AllocError> {
    let Some(text) = run.case.file(file) else {
        return Ok(None);
    };
    let whole = text.bytes(alloc, 0, b"")?.len();
    for length in 0..=whole {
        let cut = Some(Cut { file, length });
        let run = CaseRun { cut, ..run };
        if let Some(difference) = try_run(rt, alloc, run)? {
            return Ok(Some(difference));
        }
    }
    Ok(None)
}

fn try_run<R: Threads + Sync>(
    rt: &R,
    alloc: Global,
    run: CaseRun<'_>,
) -> Result<Option<String>, AllocError> {
    let folder = folder_of(alloc, run)?;
    let sink = MemSink::new(alloc, fails_of(alloc, run)?);
    let mut given = call(rt, alloc, run.words, folder, sink);
    let mut found = difference(alloc, run, &given)?;
    if found.is_none() && given.status == 0 && !run.case.has_failing_calls() {
        found = again_difference(rt, alloc, run.words, &mut given)?;
    }
    if let Some(found) = &mut found {
        run.append_place(alloc, found)?;
    }
    Ok(found)
}

// How what the log of a run that ended well tells, or else a run that is recovered from it, differs from the run.
fn again_difference<R: Threads + Sync>(
    rt: &R,
    alloc: Global,
    words: &[String],
    given: &mut Given,
) -> Result<Option<String>, AllocError> {
    let Some(left) = left_log(words) else {
        return Ok(None);
    };
    let Given {
        status: _,
        folder,
        out,
    } = given;
    let found = replay_difference(rt, alloc, left, folder, out.bytes())?;
    if found.is_some() {
        return Ok(found);
    }
    recover_difference(rt, alloc, left, folder, out.bytes())
}

// The folder in memory that a run is given.
fn folder_of(alloc: Global, run: CaseRun<'_>) -> Result<MemFolder, AllocError> {
    let mut files = Vec::new(alloc);
    for file in run.case.files.iter() {
        let bytes = run.given_bytes(alloc, file.name.as_str(), &file.text)?;
        files.push((file.name.clone()?, bytes))?;
    }
    let fails = fails_of(alloc, run)?;
    Ok(MemFolder::new(alloc, NamedFiles::new(files), fails))
}

// What fails in a run.
fn fails_of(alloc: Global, run: CaseRun<'_>) -> Result<Fails, AllocError> {
    let case = run.case;
    Ok(Fails {
        loads: numbers(alloc, case.loads.as_slice())?,
        writes: numbers(alloc, case.writes.as_slice())?,
        puts: numbers(alloc, case.puts.as_slice())?,
        keep: run.keep,
    })
}

fn numbers(alloc: Global, of: &[u64]) -> Result<Numbers, AllocError> {
    Ok(Numbers::new(Vec::from_slice(alloc, of)?))
}
