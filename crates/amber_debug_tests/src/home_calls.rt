//! Calls of a home that are made where they may be, and what they give as texts. Over `Home` of `amber_home`.

ghost use Rattle.std.specs.Prelude.{◌≡◌, ◌<◌, ◌≤◌, false, true};
ghost use Rattle.amber_log.specs.Grammar.{ends_over};
ghost use Rattle.amber_home.specs.HomeState.{counts_in, has_crew, is_done_at_rest, is_open};

use crate::journals::entries_text;
use crate::query::{files_of, query, query_by};
use amber_home::{Counts, Home, NoMemory, Phase};
use amber_leg::leg;
use amber_log::{Close, Command, Item, Leg, fits};
use amber_mail::{Gate, OpenGate};
use amber_meaning::Answer;
use amber_report::{answer_lines, inspect_lines, stop_lines};
use amber_rows::Bytes;
use std::alloc::Global;
use std::test::Fail;
use std::thread::Threads;

/// The home of the query over this file, with 400 rows in a batch and at most 30 steps. Where the file's lines begin is noted
/// by one thread.
pub fn home_over<R: Threads + Sync>(rt: &R, alloc: Global, file: &str) -> Result<Home, Fail> {
    home_of(rt, alloc, file, 400, 30)
}

/// The same with so many rows in a batch, 1 to 400, and at most so many steps.
pub fn home_of<R: Threads + Sync>(
    rt: &R,
    alloc: Global,
    file: &str,
    batch: u32,
    most: u32,
) -> Result<Home, Fail>
    requires some { 0 < batch }
    requires few { batch ≤ 400 }
{
    let flow = query(alloc)?;
    let files = files_of(alloc, file)?;
    let home = Home::new(rt, alloc, flow, files, batch, u64::from(most), 1)?;
    Ok(home)
}

/// The home of the query with so many workers for the scan, with 10 rows in a batch and at most 10,000,000 steps: so many that a
/// round has as many slices as it ever has.
pub fn home_with<R: Threads + Sync>(
    rt: &R,
    alloc: Global,
    file: &str,
    scans: u32,
) -> Result<Home, Fail>
    requires some { 0 < scans }
    requires few { scans ≤ 16 }
{
    let flow = query_by(alloc, scans)?;
    let files = files_of(alloc, file)?;
    let home = Home::new(rt, alloc, flow, files, 10, 10_000_000, 1)?;
    Ok(home)
}

// ---- whether a call may be made

// Whether the workers are there.
fn are_there(home: &Home) -> bool
    ensures { result ≡ has_crew home.now.phase }
{
    matches!(home.phase(), Phase::Resting | Phase::Open { .. })
}

/// Whether a leg is open whose counts are armed.
pub fn is_armed(home: &Home) -> bool
    ensures open { result ≡ true → is_open home.now.phase ≡ true }
    ensures armed { result ≡ true → counts_in home.now.phase ≡ Counts.Armed }
    ensures there { result ≡ true → has_crew home.now.phase ≡ true }
{
    match home.phase() {
        Phase::Open {
            to_end: _,
            counts: Counts::Armed,
        } => true,
        _ => false,
    }
}

// Whether a command or a leg may come.
fn may_go_on(home: &Home) -> bool
    ensures resting { result ≡ true → home.now.phase ≡ Phase.Resting }
    ensures open { result ≡ true → ends_over false home.now.log.items ≡ false }
{
    matches!(home.phase(), Phase::Resting) && !home.closed()
}

// ---- the calls: whether they were made

/// Does a command at rest.
pub fn apply(alloc: Global, home: &mut Home, command: &Command) -> Result<bool, NoMemory>
    requires { is_done_at_rest command.now ≡ true }
{
    if !may_go_on(home) || !fits(home.flow(), command) {
        return Ok(false);
    }
    home.apply(alloc, command)?;
    Ok(true)
}

/// Opens a leg up to a stop, and arms its counts.
pub fn open_leg(alloc: Global, home: &mut Home) -> Result<bool, NoMemory> {
    if !may_go_on(home) {
        return Ok(false);
    }
    home.open_leg(false);
    home.arm_leg(alloc)?;
    Ok(true)
}

/// One step of the leg that is open, whose counts are armed, or one hold.
pub fn step(alloc: Global, home: &mut Home) -> Result<bool, NoMemory> {
    if !is_armed(home) || !home.are_running() || home.most() <= home.steps() {
        return Ok(false);
    }
    let stops = home.stops(alloc)?;
    if !stops.get().is_empty() {
        return Ok(false);
    }
    home.home_step()?;
    Ok(true)
}

/// Hands units to a worker of each operator in the leg that is open, whose counts are armed, where it needs one.
pub fn feed(home: &mut Home) -> Result<bool, NoMemory> {
    if !is_armed(home) {
        return Ok(false);
    }
    home.feed(0)?;
    Ok(true)
}

/// Lets whoever was paused go on in the leg that is open, whose counts are armed, where nobody is held.
pub fn resume(home: &mut Home) -> Result<bool, NoMemory> {
    if !is_armed(home) || !home.are_loose() {
        return Ok(false);
    }
    home.resume()?;
    Ok(true)
}

/// Disarms the counts of the leg that is open.
pub fn disarm_leg(home: &mut Home) -> bool {
    if !is_armed(home) {
        return false;
    }
    home.disarm_leg();
    true
}

/// Closes the leg that is open, whose counts were disarmed, where a stop stands.
pub fn close_leg(alloc: Global, home: &mut Home) -> Result<bool, NoMemory> {
    match home.phase() {
        Phase::Open {
            to_end: false,
            counts: Counts::Disarmed,
        } => {
            let stops = home.stops(alloc)?;
            if stops.get().is_empty() {
                return Ok(false);
            }
            home.close_leg(alloc, Close::Cut)?;
            Ok(true)
        }
        _ => Ok(false),
    }
}

/// Runs a leg, up to a stop or to the end, on one thread.
pub fn run_leg<R: Threads + Sync>(
    rt: &R,
    alloc: Global,
    home: &mut Home,
    to_end: bool,
) -> Result<bool, Fail> {
    run_leg_on(rt, alloc, home, to_end, 1, &OpenGate)
}

/// The same on so many threads, 1 to 64, each turn passing a gate.
pub fn run_leg_on<R: Threads + Sync, G: Gate + Sync>(
    rt: &R,
    alloc: Global,
    home: &mut Home,
    to_end: bool,
    threads: u32,
    gate: &G,
) -> Result<bool, Fail>
    requires some { 0 < threads }
    requires few { threads ≤ 64 }
{
    if !may_go_on(home) {
        return Ok(false);
    }
    leg(rt, alloc, home, to_end, threads, gate)?;
    Ok(true)
}

// ---- what is shown

/// The numbers of a home.
pub fn numbers(alloc: Global, home: &Home) -> Result<String, NoMemory> {
    if !are_there(home) {
        return format!(in alloc; "no workers");
    }
    let operators = home.flow().get().len();
    let files = home.files().get().len();
    let items = home.log().items.get().len();
    let most = home.most();
    let steps = home.steps();
    format!(in alloc; "operators {operators} files {files} items {items} most {most} steps {steps}")
}

// Lines as a text.
fn text_of(alloc: Global, lines: &Bytes) -> Result<String, NoMemory> {
    String::from_utf8_lossy(alloc, lines.get())
}

/// The stops that are shown.
pub fn stops(alloc: Global, home: &Home) -> Result<String, NoMemory> {
    if !are_there(home) {
        return Ok(String::new(alloc));
    }
    let stops = home.stops(alloc)?;
    let lines = stop_lines(alloc, home.flow(), &stops)?;
    text_of(alloc, &lines)
}

// What each worker has written down in a leg that stands in the log.
fn parts_text(alloc: Global, leg: &Leg) -> Result<String, NoMemory> {
    let mut told = String::new(alloc);
    for part in leg.parts.get() {
        let worker = part.worker;
        let entries = entries_text(alloc, part.entries.get())?;
        told.push_str(&format!(in alloc; "w {worker} {entries}")?)?;
    }
    Ok(told)
}

/// What each worker has written down in the last leg; nothing where a command came after it.
pub fn written(alloc: Global, home: &Home) -> Result<String, NoMemory> {
    match home.log().items.get().last() {
        Some(Item::Run(leg) | Item::End(leg)) => parts_text(alloc, leg),
        _ => Ok(String::new(alloc)),
    }
}

/// What the filter shows.
pub fn shown(alloc: Global, home: &Home) -> Result<String, NoMemory> {
    shown_at(alloc, home, 2)
}

/// What one of the first two operators shows.
pub fn shown_at(alloc: Global, home: &Home, op: u32) -> Result<String, NoMemory>
    requires some { 1 ≤ op }
    requires there { op ≤ 2 }
{
    if !are_there(home) || home.flow().get().len() < 2 {
        return Ok(String::new(alloc));
    }
    let shown = home.inspect(alloc, op)?;
    let lines = inspect_lines(alloc, home.flow(), &shown)?;
    text_of(alloc, &lines)
}

/// After how many rows the filter pauses, 0 where it does not, and whether a condition is in force anywhere.
pub fn in_force(alloc: Global, home: &Home) -> Result<String, NoMemory> {
    if !are_there(home) {
        return Ok(String::new(alloc));
    }
    let rows = home.pause_at(2).unwrap_or(0);
    let condition = home.has_condition();
    format!(in alloc; "pause {rows} condition {condition}")
}

/// Whether all have finished.
pub fn finished(home: &Home) -> bool {
    are_there(home) && home.have_finished()
}

// An answer as it is printed.
fn printed(alloc: Global, home: &Home, answer: &Answer) -> Result<String, NoMemory> {
    let lines = answer_lines(alloc, home.flow(), answer)?;
    text_of(alloc, &lines)
}

/// The answer; nothing where somebody has not finished.
pub fn answer(alloc: Global, home: &Home) -> Result<String, NoMemory> {
    if !are_there(home) || !home.have_finished() {
        return Ok(String::new(alloc));
    }
    let answer = home.answer(alloc)?;
    printed(alloc, home, &answer)
}

/// The same, taken out of the home.
pub fn take_answer(alloc: Global, home: &mut Home) -> Result<String, NoMemory> {
    match home.phase() {
        Phase::Resting => {
            if !home.have_finished() {
                return Ok(String::new(alloc));
            }
            let answer = home.take_answer(alloc)?;
            printed(alloc, home, &answer)
        }
        _ => Ok(String::new(alloc)),
    }
}
