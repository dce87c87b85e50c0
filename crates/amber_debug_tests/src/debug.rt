//! A debugger whose runs are short: the numbers of a file that are 2 or more. Tests `amber_debug`, over
//! `query`.

ghost use Rattle.std.specs.Prelude.{◌≡◌, ◌≤◌, ◌^◌, [], IfOk};

use crate::expected::expect_text;
use crate::query::{files_of, query};
use amber_debug::{DebugErr, Debugger, Done, HomeErr, NoMemory};
use amber_log::Command;
use amber_mail::OpenGate;
use std::alloc::Global;
use std::test::Fail;
use std::thread::Threads;

// A debugger of the query over this file, with 400 rows in a batch and at most `most` steps.
fn started<R: Threads + Sync>(
    rt: &R,
    alloc: Global,
    file: &str,
    most: u64,
) -> Result<Debugger, HomeErr>
    requires { most ≤ 2 ^ 40 }
    ensures { IfOk result (λ d. d.log.items ≡ []) }
{
    let flow = query(alloc)?;
    let files = files_of(alloc, file)?;
    Debugger::start(rt, alloc, flow, files, 400, 1, most)
}

// What a command wrote and replied.
fn done_text(alloc: Global, done: &Done) -> Result<String, NoMemory> {
    let mut all = Vec::from_slice(alloc, done.item.get())?;
    all.extend_from_slice(done.reply.get())?;
    String::from_utf8_lossy(alloc, &all)
}

// What a command that was not done wrote, or why it was not done.
fn undone_text(alloc: Global, error: &DebugErr) -> Result<String, NoMemory> {
    match error {
        DebugErr::Long { item } => String::from_utf8_lossy(alloc, item.get()),
        DebugErr::Spent => String::from_str(alloc, "spent"),
        DebugErr::NoMemory => String::from_str(alloc, "no memory"),
    }
}

// What a run to the end writes and replies.
fn end_text<R: Threads + Sync>(
    rt: &R,
    alloc: Global,
    debugger: &mut Debugger,
) -> Result<String, NoMemory>
    requires { debugger.old.log.items ≡ [] }
{
    match debugger.command(rt, alloc, &Command::End, &OpenGate) {
        Ok(done) => done_text(alloc, &done),
        Err(error) => undone_text(alloc, &error),
    }
}

// Why a run cannot begin.
fn refusal(alloc: Global, error: HomeErr) -> Result<String, NoMemory> {
    match error {
        HomeErr::Header(op) => format!(in alloc; "header {op}"),
        HomeErr::NoMemory => String::from_str(alloc, "no memory"),
    }
}

// What a run to the end over this file writes and replies, or why it cannot begin.
fn told<R: Threads + Sync>(
    rt: &R,
    alloc: Global,
    file: &str,
    most: u32,
) -> Result<String, NoMemory> {
    match started(rt, alloc, file, u64::from(most)) {
        Ok(mut debugger) => end_text(rt, alloc, &mut debugger),
        Err(error) => refusal(alloc, error),
    }
}

const NUMBERS: &str = "n\n2\n3\n4\n5\n6\n";

// Files, how many steps there may be, and what comes of them.
const RUNS: [(&str, u32, &str); 5] = [
    (
        NUMBERS,
        30,
        "end\nw 0\ng 5 5\nf\nw 1\nt 0 0\ng 5 5\nf\nw 2\nt 1 0\ng 5 0\nf\ncut\nrows 5\nn\n2\n3\n4\n5\n6\n",
    ),
    (
        NUMBERS,
        29,
        "end\nw 0\ng 5 5\nf\nw 1\nt 0 0\ng 5 5\nf\nw 2\nt 1 0\ng 5 0\nlong\n",
    ),
    (NUMBERS, 3, "end\nw 0\ng 2 1\nlong\n"),
    (NUMBERS, 0, "end\nlong\n"),
    ("m\n3\n", 9, "header 1"),
];

#[test]
fn a_run_is_as_long_as_its_steps(rt: HostRuntime) -> Result<(), Fail> {
    for (file, most, want) in RUNS {
        expect_text(told(&rt, rt.alloc(), file, most)?, want)?;
    }
    Ok(())
}
