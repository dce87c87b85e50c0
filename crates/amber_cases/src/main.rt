//! `amber_cases`: tries the cases of a folder on the top call, and prints of each whether all came as it
//! expects, or what differs first.
//!
//! The cases are those of the files `*.cases` of the folder that the only word names, or of the folder
//! where the program runs, in the order of their names. `docs/ADDING_CASES.md` has their format.
#![tactic(auto)]

mod case_run;
mod differences;
mod left_log;
mod recovered;
mod replayed;
mod report;
mod session_call;
mod trial;

use amber_case_text::Reader;
use report::{Counts, tell_broken, tell_case};
use std::process::ExitCode;
use std::rt::{Env, Files};
use std::thread::Threads;
use std::{env, fs, io};
use trial::try_case;

fn main(rt: HostRuntime) -> io::Result<ExitCode> {
    let folder = folder(&rt)?;
    let mut counts = Counts {
        good: 0,
        wrong: 0,
        broken: 0,
    };
    try_folder(&rt, folder.as_str(), &mut counts)?;
    let Counts {
        good,
        wrong,
        broken,
    } = counts;
    println!(rt; "{good} as expected, {wrong} WRONG, {broken} BROKEN")?;
    if wrong == 0 && broken == 0 {
        Ok(ExitCode::SUCCESS)
    } else {
        Ok(ExitCode::FAILURE)
    }
}

// The folder of the cases.
fn folder<R: Env + AllocGlobal>(rt: &R) -> io::Result<String> {
    match env::args(rt)?.nth(1) {
        Some(folder) => Ok(folder),
        None => Ok(String::from_str(rt.alloc(), ".")?),
    }
}

// The names of the files of cases, in order.
fn case_files<R: Files + AllocGlobal + Clone + Drop>(
    rt: &R,
    folder: &str,
) -> io::Result<Vec<String>> {
    let mut names = Vec::new(rt.alloc());
    for entry in fs::read_dir(rt, folder)? {
        let name = String::from_str(rt.alloc(), entry?.file_name())?;
        if name.ends_with(".cases") {
            names.push(name)?;
        }
    }
    names.sort()?;
    Ok(names)
}

// Tries the cases of a folder.
fn try_folder<R: Files + Print + Threads + Sync + AllocGlobal + Clone + Drop>(
    rt: &R,
    folder: &str,
    counts: &mut Counts,
) -> io::Result<()> {
    let mut reader = Reader::new(rt.alloc());
    for name in case_files(rt, folder)? {
        try_file(rt, &mut reader, folder, &name, counts)?;
    }
    Ok(())
}

// Tries the cases of a file of a folder.
fn try_file<R: Files + Print + Threads + Sync + AllocGlobal + Clone + Drop>(
    rt: &R,
    reader: &mut Reader,
    folder: &str,
    name: &str,
    counts: &mut Counts,
) -> io::Result<()> {
    let path = format!(in rt.alloc(); "{folder}/{name}")?;
    let bytes = fs::read(rt, path.as_str())?;
    match str::from_utf8(bytes.as_slice()) {
        Ok(text) => try_cases(rt, reader, name, text, counts),
        Err(_) => tell_broken(rt, counts, name, "it is no text"),
    }
}

// Tries the cases of a text.
fn try_cases<R: Print + Threads + Sync + AllocGlobal>(
    rt: &R,
    reader: &mut Reader,
    name: &str,
    text: &str,
    counts: &mut Counts,
) -> io::Result<()> {
    let cases = match reader.read(text) {
        Ok(cases) => cases,
        Err(broken) => return tell_broken(rt, counts, name, broken),
    };
    for case in &cases {
        let difference = try_case(rt, rt.alloc(), case)?;
        tell_case(rt, counts, &case.name, difference)?;
    }
    Ok(())
}
