//! A home that is rebuilt from a log, and goes on from there; and the transcript of a log whose run was too long. Tests `rebuild`
//! and `recover` of `amber_recover`.

ghost use Rattle.std.specs.Prelude.{◌≤◌, length, IfOk};
ghost use Rattle.std.specs.List.{flat_map};
ghost use Rattle.amber_log.specs.Grammar.{IsLog};
ghost use Rattle.amber_log.specs.LogText.{item_lines};

use crate::expected::expect_text;
use crate::home_calls::{answer, run_leg, shown, stops, written};
use crate::query::{files_of, query};
use amber_course::log_of;
use amber_home::Home;
use amber_log::Log;
use amber_recover::{RebuildErr, rebuild, recover};
use amber_rows::Bytes;
use std::alloc::Global;
use std::test::Fail;
use std::thread::Threads;

// The log of a short text.
fn read(alloc: Global, log: &str) -> Result<Log, Fail>
    ensures text { IfOk result IsLog }
    ensures few { IfOk result (λ log. length (flat_map item_lines log.items) ≤ 4096) }
{
    let bytes = Bytes::new(Vec::from_slice(alloc, log.as_bytes())?);
    if bytes.len() > 4096 {
        return Err(Fail::new("long"));
    }
    match log_of(alloc, &bytes) {
        Ok(log) => Ok(log),
        Err(_) => Err(Fail::new("log")),
    }
}

// The home that a log of the query over this file leads to.
fn rebuilt<R: Threads + Sync>(rt: &R, alloc: Global, file: &str, log: &str) -> Result<Home, Fail> {
    let flow = query(alloc)?;
    let files = files_of(alloc, file)?;
    let log = read(alloc, log)?;
    match rebuild(rt, alloc, flow, files, &log, 10_000, 1) {
        Ok(home) => Ok(home),
        Err(_) => Err(Fail::new("rebuild")),
    }
}

// What it shows, and what comes of it.
fn gone_on<R: Threads + Sync>(rt: &R, alloc: Global, home: &mut Home) -> Result<String, Fail> {
    let stopped = stops(alloc, home)?;
    let filter = shown(alloc, home)?;
    let entries = written(alloc, home)?;
    let ended = run_leg(rt, alloc, home, true)?;
    let told = answer(alloc, home)?;
    Ok(format!(in alloc; "{stopped}{filter}{entries}\nended {ended}\n{told}")?)
}

// The filter was stopped at its second row, which was the third of its batch.
#[test]
fn a_home_goes_on_from_a_log(rt: HostRuntime) -> Result<(), Fail> {
    let alloc = rt.alloc();
    let log = "amber 1 400\ndo count 2 2\nrun\nw 0\ng 4 4\nf\nw 1\nt 0 0\na 2\ng 3 2\np\ncut\n";
    let mut home = rebuilt(&rt, alloc, "n\n2\n1\n3\n4\n", log)?;
    expect_text(
        gone_on(&rt, alloc, &mut home)?,
        "stop count big 2\ninspect big filter\nconstant 2\nworker 0 taken 3 rest 1 out 2 pending 0 ready\nw 0 g 4 4 f 0 0 w 1 t 0 0 a 2 0 g 3 2 p 0 0 \nended true\nrows 3\nn\n2\n3\n4\n",
    )
}

// What a log of the query over these numbers tells, where there may be so many steps.
fn told<R: Threads + Sync>(rt: &R, alloc: Global, log: &str, most: u32) -> Result<String, Fail> {
    let flow = query(alloc)?;
    let files = files_of(alloc, "n\n2\n3\n4\n5\n6\n")?;
    let log = read(alloc, log)?;
    match recover(rt, alloc, flow, files, &log, u64::from(most), 1) {
        Ok(recovered) => Ok(String::from_utf8_lossy(alloc, recovered.printed.get())?),
        Err(RebuildErr::Illegal { line }) => Ok(format!(in alloc; "illegal {line}")?),
        Err(_) => Err(Fail::new("recover")),
    }
}

// The last leg was closed since all 29 steps were made, so it has no reply. Where there may be more it cannot have been.
#[test]
fn a_log_of_a_run_that_was_too_long_is_told(rt: HostRuntime) -> Result<(), Fail> {
    let alloc = rt.alloc();
    let log =
        "amber 1 400\ndo count 2 3\nrun\nw 0\ng 5 5\nf\nw 1\nt 0 0\na 3\ng 3 3\np\ncut\ndo inspect 2\nend\nw 1\ng 2 2\nf\nw 2\nt 1 0\ng 5 0\nlong\n";
    expect_text(
        told(&rt, alloc, log, 29)?,
        "ok break count big 3\nstop count big 3\ninspect big filter\nconstant 2\nworker 0 taken 3 rest 2 out 3 pending 0 ready\n",
    )?;
    expect_text(told(&rt, alloc, log, 30)?, "illegal 21")
}
