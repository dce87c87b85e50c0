//! Workers that are driven under mail: where a drive ends, what it passes and notes, and when its looks are made. Tests
//! `Worker::drive`.

ghost use Rattle.std.specs.Prelude.{◌≡◌, ◌≤◌, false};

use crate::both_ends::fill;
use crate::ends::{last_end, links, push_row};
use crate::expected::expect_text;
use crate::fed::{BATCH, JOINED, watch_from};
use crate::keeping::{CountingGate, KeepingMail, SendingMail};
use crate::told::{drive, drive_under, drive_with};
use crate::workers::worker_of;
use amber_flow::read_flow;
use amber_link::{NoMemory, Out};
use amber_mail::{Control, Mail, OpenGate, RingMail, SilentMail, mail_rings};
use amber_worker::Worker;
use std::alloc::Global;
use std::test::Fail;
use std::thread;

const FILTERED: &str = r#"{"operators":[
{"id":"s","kind":"scan","file":"s.csv","columns":[["k","int"]]},
{"id":"f","kind":"filter","input":"s","column":"k","op":">=","constant":0},
{"id":"o","kind":"sink","input":"f"}]}"#;

// How many rows a full batch of its sender has.
const FULL: u32 = 400;

// A filter, and the end of its sender, with the rows from 1 on, the end after them, all of it waiting to be sent.
fn filter_before(alloc: Global, rows: u32) -> Result<(Worker, Out), Fail> {
    let (mut senders, ins) = links(alloc, 1, FULL)?;
    let (outs, _into) = links(alloc, 1, FULL)?;
    let flow = read_flow(alloc, FILTERED.as_bytes())?;
    let filter = worker_of(alloc, &flow, 1, FULL, outs, ins)?;
    let mut out = last_end(FULL, &mut senders)?;
    fill(alloc, &mut out, rows)?;
    out.end()?;
    Ok((filter, out))
}

// The same, where it was sent.
fn filter_over(alloc: Global, rows: u32) -> Result<Worker, Fail> {
    let (filter, mut out) = filter_before(alloc, rows)?;
    out.send();
    Ok(filter)
}

// It takes the batch and a row, and then it is paused: between two rows.
#[test]
fn a_drive_ends_at_its_pause(rt: HostRuntime) -> Result<(), Fail> {
    let alloc = rt.alloc();
    let mut filter = filter_over(alloc, 400)?;
    let text = drive_under(alloc, &mut filter, "--p", 1000)?;
    expect_text(text, "3 paused | t 0 0 g 1 0 p 0 0 | 1 399 0 1")?;
    let again = drive(alloc, &mut filter, 1000)?;
    expect_text(again, "1 paused | t 0 0 g 1 0 p 0 0 | 1 399 0 1")?;
    filter.begin();
    let end = drive(alloc, &mut filter, 1000)?;
    assert!(rt; filter.turned() == 802);
    expect_text(end, "802 ended | g 399 400 t 0 1 f 0 0 | 400 0 400 0")
}

// Each row from 2 on meets the condition. The one before which the worker is held is dropped, and the next one holds it;
// that one is waved on as a leg begins, and does not hold it twice.
#[test]
fn a_row_holds_a_worker(rt: HostRuntime) -> Result<(), Fail> {
    let alloc = rt.alloc();
    let mut filter = filter_over(alloc, 3)?;
    filter.begin();
    watch_from(&mut filter, 1, 2)?;
    let first = drive(alloc, &mut filter, 100)?;
    expect_text(first, "5 held | t 0 0 g 2 1 h 0 0 | 2 1 1 1")?;
    assert!(rt; filter.drop_held().is_some() && filter.drop_held().is_none());
    let second = drive(alloc, &mut filter, 100)?;
    expect_text(second, "2 held | t 0 0 g 2 1 h 0 0 g 1 0 h 0 0 | 3 0 1 1")?;
    filter.begin();
    let end = drive(alloc, &mut filter, 100)?;
    expect_text(end, "3 ended | g 0 1 f 0 0 | 3 0 2 0")
}

// ---- many matches

// Sends so many rows of one key, and then the end.
fn deliver_times(alloc: Global, mut out: Out, times: u32) -> Result<(), NoMemory>
    requires made { out.kept.made ≡ 0 }
    requires open { out.kept.ended ≡ false }
{
    for number in 0..times {
        push_row(alloc, &mut out, &[7, i64::from(number)])?;
    }
    out.end()?;
    out.send();
    Ok(())
}

// A join in whose rings so many rows of the build side stand, and one row of the probe side that matches them all.
fn join_over(alloc: Global, matches: u32) -> Result<Worker, Fail> {
    let (mut senders, ins) = links(alloc, 2, BATCH)?;
    let (outs, _into) = links(alloc, 1, BATCH)?;
    let flow = read_flow(alloc, JOINED.as_bytes())?;
    let join = worker_of(alloc, &flow, 2, BATCH, outs, ins)?;
    deliver_times(alloc, last_end(BATCH, &mut senders)?, 1)?;
    deliver_times(alloc, last_end(BATCH, &mut senders)?, matches)?;
    Ok(join)
}

// The pause comes at the third look. Before it two of the matches were emitted, and nothing was taken.
#[test]
fn a_pause_waits_for_no_match(rt: HostRuntime) -> Result<(), Fail> {
    let alloc = rt.alloc();
    let mut join = join_over(alloc, 100_000)?;
    let before = drive(alloc, &mut join, 100_004)?;
    expect_text(
        before,
        "100004 moved | t 0 0 g 65536 0 t 0 1 g 34464 0 t 1 0 g 1 0 | 100001 0 0 100000",
    )?;
    join.begin();
    let paused = drive_under(alloc, &mut join, "--p", 1_000_000)?;
    expect_text(paused, "3 paused | g 0 2 p 0 0 | 100001 0 2 99998")
}

// ---- gates, notes and looks

// The turns of a leg are numbered through its drives, from 0.
#[test]
fn each_turn_passes_the_gate_with_its_number(rt: HostRuntime) -> Result<(), Fail> {
    let alloc = rt.alloc();
    let mut filter = filter_over(alloc, 3)?;
    let gate = CountingGate::new(1);
    drive_with(alloc, &mut filter, &mut SilentMail::new(), &gate, 4)?;
    drive_with(alloc, &mut filter, &mut SilentMail::new(), &gate, 100)?;
    assert!(rt; gate.passes() == 9 && gate.astray() == 0);
    filter.begin();
    let next = CountingGate::new(1);
    drive_with(alloc, &mut filter, &mut SilentMail::new(), &next, 100)?;
    assert!(rt; next.passes() == 1 && next.astray() == 0);
    Ok(())
}

// What a filter notes over rows from 1 on that is held before the one of this number.
fn notes_of(alloc: Global, rows: u32, watched: i64) -> Result<String, Fail> {
    let mut filter = filter_over(alloc, rows)?;
    watch_from(&mut filter, 1, watched)?;
    let mut mail = KeepingMail::new(alloc, 0);
    drive_with(alloc, &mut filter, &mut mail, &OpenGate, 1000)?;
    Ok(mail.into_notes())
}

// Rows emitted are noted at the powers of two and at the multiples of 64.
#[test]
fn a_drive_notes_what_its_turns_come_to(rt: HostRuntime) -> Result<(), Fail> {
    let alloc = rt.alloc();
    for (rows, watched, want) in [
        (
            200,
            900,
            "emitted 1 emitted 2 emitted 4 emitted 8 emitted 16 emitted 32 emitted 64 emitted 128 emitted 192 finished 0 ",
        ),
        (3, 2, "emitted 1 held 0 "),
        (0, 1, "finished 0 "),
    ] {
        expect_text(notes_of(alloc, rows, watched)?, want)?;
    }
    Ok(())
}

// At the third look the batch is sent. The turn behind that look takes it, and none of its rows.
#[test]
fn a_look_is_made_before_its_turn_alone(rt: HostRuntime) -> Result<(), Fail> {
    let alloc = rt.alloc();
    let (mut filter, out) = filter_before(alloc, 3)?;
    let mut mail = SendingMail::new(out, 3);
    let text = drive_with(alloc, &mut filter, &mut mail, &OpenGate, 3)?;
    expect_text(text, "3 moved | t 0 0 | 0 3 0 0")
}

// A worker, and its mail, at which no look was made, as both are sent to a thread.
#[derive(Drop)]
struct Lent {
    worker: Worker,
    mail: RingMail,
    ghost unread: { ⟦<RingMail as Mail>⟧.looks mail ≡ 0 },
}

// Drives a worker to its end, and hands it back. Whether memory sufficed.
fn drive_there(lent: Lent) -> (Worker, bool) {
    let Lent {
        mut worker,
        mut mail,
    } = lent;
    if worker.is_armed() || worker.steps() > 1 << 30 {
        return (worker, false);
    }
    let done = worker.drive(None, &mut mail, &OpenGate, 10_000).is_ok();
    (worker, done)
}

// Its links and its mail go with it. This thread tells it to give its hand back, of which there is none.
#[test]
fn a_worker_is_driven_by_another_thread(rt: HostRuntime) -> Result<(), Fail> {
    let alloc = rt.alloc();
    let (mut post, mail) = mail_rings(alloc)?;
    let lent = Lent {
        worker: filter_over(alloc, 400)?,
        mail,
    };
    let Ok(child) = thread::spawn(&rt, move || drive_there(lent)) else {
        return Err(Fail::new("no thread"));
    };
    let told = post.push(Control::Return).is_ok();
    let (mut filter, done) = child.join(&rt);
    assert!(rt; told && done);
    let text = drive(alloc, &mut filter, 1)?;
    expect_text(text, "1 ended | t 0 0 g 400 400 t 0 1 f 0 0 | 400 0 400 0")
}
