//! What a session needs before its first line, and the lines that report its input. Tests `amber_course`.

use crate::expected::{expect_bytes, expect_text};
use amber_course::{
    Failure, InputFault, SessionJob, error_line, prepare_session, read_session_words, refuse_input,
};
use amber_io::{Fails, FolderAndSink, MemFolder, MemSink, NamedFiles, Numbers};
use std::alloc::{AllocError, Global};
use std::test::Fail;

const WORKFLOW: &str = r#"{"operators":[
{"id":"o","kind":"scan","file":"o.csv","columns":[["id","int"],["item","text"]]},
{"id":"s","kind":"sink","input":"o"}]}"#;

// Nothing fails.
fn no_fails(alloc: Global) -> Fails {
    Fails {
        loads: Numbers::new(Vec::new(alloc)),
        writes: Numbers::new(Vec::new(alloc)),
        puts: Numbers::new(Vec::new(alloc)),
        keep: 0,
    }
}

// A folder with a workflow and the file of its scan.
fn folder(alloc: Global) -> Result<MemFolder, AllocError> {
    let mut files = Vec::new(alloc);
    for (name, text) in [("w.json", WORKFLOW), ("o.csv", "id,item\n1,nut\n")] {
        let bytes = Vec::from_slice(alloc, text.as_bytes())?;
        files.push((String::from_str(alloc, name)?, bytes))?;
    }
    Ok(MemFolder::new(alloc, NamedFiles::new(files), no_fails(alloc)))
}

// The job of a session with these words.
fn prepared(alloc: Global, words: &[&str]) -> Result<SessionJob, Failure> {
    let mut owned = Vec::new(alloc);
    for word in words {
        owned.push(String::from_str(alloc, word)?)?;
    }
    let mut folder = folder(alloc)?;
    let mut out = MemSink::new(alloc, no_fails(alloc));
    let mut outside = FolderAndSink::new(&mut folder, &mut out);
    let words = read_session_words(alloc, owned.as_slice())?;
    prepare_session(alloc, words, &mut outside)
}

// What a job is to do.
fn shown(alloc: Global, job: SessionJob) -> Result<String, AllocError> {
    let (flow, files) = job.inputs.into_parts();
    let operators = flow.get().len();
    let scans = files.get().len();
    format!(in alloc;
        "{} on {} by {}: {operators} {scans}",
        job.log.get(),
        job.threads,
        job.batch_size
    )
}

#[test]
fn a_session_is_prepared(rt: HostRuntime) -> Result<(), Fail> {
    match prepared(rt.alloc(), &["w.json", "log", "4", "64"]) {
        Ok(job) => expect_text(shown(rt.alloc(), job)?, "log on 4 by 64: 2 1"),
        Err(_) => Err(Fail::new(String::from_str(rt.alloc(), "refused")?)),
    }
}

// The lines of words that are refused, one after the other.
fn told(alloc: Global, calls: &[&[&str]]) -> Result<String, AllocError> {
    let mut lines = String::new(alloc);
    for words in calls {
        match prepared(alloc, words) {
            Ok(_) => lines.push_str("none\n")?,
            Err(failure) => lines.push_str(error_line(alloc, &failure)?.get())?,
        }
    }
    Ok(lines)
}

#[test]
fn a_session_is_refused(rt: HostRuntime) -> Result<(), Fail> {
    let calls: [&[&str]; 5] = [
        &["w.json", "w.json", "4", "64"],
        &["w.json", "log", "65", "64"],
        &["w.json", "log", "4"],
        &["w.json", "o.csv", "4", "64"],
        &["v.json", "log", "4", "64"],
    ];
    expect_text(
        told(rt.alloc(), &calls)?,
        "error 1 usage\nerror 1 usage\nerror 1 usage\nerror 2 flow 1 LogName\nerror 4 read v.json\n",
    )
}

#[test]
fn faults_of_the_input_are_told(rt: HostRuntime) -> Result<(), Fail> {
    let alloc = rt.alloc();
    let mut folder = folder(alloc)?;
    let mut out = MemSink::new(alloc, no_fails(alloc));
    {
        let mut outside = FolderAndSink::new(&mut folder, &mut out);
        assert!(rt; refuse_input(&mut outside, InputFault::Unread).code() == 4);
        assert!(rt; refuse_input(&mut outside, InputFault::Large).code() == 9);
    }
    expect_bytes(
        alloc,
        out.bytes(),
        "error 4 read input\nerror 9 large input\n",
    )
}
