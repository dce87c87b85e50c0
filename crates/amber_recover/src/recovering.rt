//! A run that is recovered from its log: its home, its transcript, or both. Over `Home` of `amber_home`, `redo_item` and
//! `tell_item`.

ghost use Rattle.std.specs.Prelude.{◌≡◌, ◌++◌, ◌≤◌, ◌<◌, ◌+◌, ◌^◌, [], IfOk, None, false, if◌then◌else◌, length};
ghost use Rattle.std.specs.List.{flat_map};
ghost use Rattle.amber_log.specs.Grammar.{AreItems, IsBatch, IsItem, IsLog, ends_over};
ghost use Rattle.amber_log.specs.LogText.{item_lines};
ghost use Rattle.amber_meaning.specs.Legal.{query_over};
ghost use Rattle.amber_meaning.specs.Plain.{scan_count};
ghost use Rattle.amber_meaning.specs.Transcript.{reply_of, transcript_of};
ghost use Rattle.amber_home.specs.HomeState.{query_of, rest_state};
ghost use Rattle.amber_home.specs.declared.phase.Phase.TheVariants as phase;
ghost use Rattle.amber_recover.specs.Recovering.{StartsOrNames, JudgesLines, Recovers, bad_behind_head};
ghost use Rattle.amber_recover.specs.Redone.{HasRedoneItem, bad_in_item};

use crate::error::RebuildErr;
use crate::items::redo_item;
use crate::replies::tell_item;
use amber_home::Home;
use amber_log::{Item, Log, item_length};
use amber_meaning::wrong_header;
use amber_rows::{Bytes, Files, Flow};
use std::alloc::{AllocError, Global};
use std::thread::Threads;

// The home of a run that has not begun, with batches of this size.
fn start<R: Threads + Sync>(
    rt: &R,
    alloc: Global,
    flow: Flow,
    files: Files,
    batch: u32,
    most: u64,
    threads: u32,
) -> Result<Home, RebuildErr>
    requires one_each { length files ≡ scan_count flow }
    requires batch { IsBatch batch }
    requires steps { most ≤ 2 ^ 40 }
    ensures begins { IfOk result (λ home. home ≡ record {
      flow = flow;
      files = files;
      most = most;
      log = record { batch = batch; items = [] };
      phase = phase.Resting;
      parts = [];
      alone = 0;
      turned = home.turned;
    }) }
    ensures header { StartsOrNames result flow files }
{
    if let Some(op) = wrong_header(alloc, &flow, &files)? {
        return Err(RebuildErr::Header(op));
    }
    Ok(Home::start_checked(rt, alloc, flow, files, batch, most, threads)?)
}

// Does an item again, and adds its reply where replies are told.
fn do_item(
    alloc: Global,
    home: &mut Home,
    item: &Item,
    line: u64,
    tells: bool,
    text: &mut Vec<u8>,
) -> Result<Option<u64>, AllocError>
    requires resting { home.old.phase ≡ phase.Resting }
    requires fresh { home.old.parts ≡ [] }
    requires open { ends_over false home.old.log.items ≡ false }
    requires text { IsItem item.now }
    requires few { line + length (item_lines item.now) < 2 ^ 33 }
    ensures found { IfOk result (λ bad. bad ≡ bad_in_item home.old line item.now) }
    ensures done { IfOk result (λ bad. bad ≡ None → HasRedoneItem item.now home.old home.new) }
    ensures silent { IfOk result (λ bad. bad ≡ None → tells ≡ false
        → home.new.phase ≡ phase.Resting) }
    ensures told { IfOk result (λ bad. bad ≡ None → text.new.items ≡ text.old.items
        ++ (if tells then reply_of (query_of home.old) (rest_state home.old) item.now else [])) }
{
    if tells {
        tell_item(alloc, home, item, line, text)
    } else {
        redo_item(alloc, home, item, line)
    }
}

// Does the items of a log again, one after the other, and gives their replies where these are told, which leaves the
// workers of a leg to the end without their rows.
fn redo_items(
    alloc: Global,
    home: &mut Home,
    items: &[Item],
    tells: bool,
) -> Result<Vec<u8>, RebuildErr>
    requires resting { home.old.phase ≡ phase.Resting }
    requires fresh { home.old.parts ≡ [] }
    requires empty { home.old.log.items ≡ [] }
    requires text { AreItems false items.now }
    requires few { length (flat_map item_lines items.now) < 2 ^ 32 }
    ensures judges { JudgesLines result (bad_behind_head (query_of home.old) items.now) }
    ensures done { IfOk result (λ text. home.new ≡ record home.old {
      log = record home.old.log { items = items.now };
      phase = home.new.phase;
      alone = home.new.alone;
      turned = home.new.turned;
    }) }
    ensures silent { IfOk result (λ text. tells ≡ false → home.new.phase ≡ phase.Resting) }
    ensures rests { IfOk result (λ text. ends_over false items.now ≡ false
        → home.new.phase ≡ phase.Resting) }
    ensures told { IfOk result (λ text. text.items
        ≡ (if tells then transcript_of (query_of home.old) items.now else [])) }
{
    let mut text = Vec::new(alloc);
    let mut line = 2;
    for item in items {
        if let Some(line) = do_item(alloc, home, item, line, tells, &mut text)? {
            return Err(RebuildErr::Illegal { line });
        }
        line += item_length(item);
    }
    Ok(text)
}

/// The home of exactly this log: of the run of a workflow over the files of its scans with at most `most` steps, 2^40 or
/// fewer, which rests behind the last item. Each line is judged before it is done again. Where the lines of the files begin
/// is noted on so many threads, 0 counted as 1; the log's lines are done on this one.
///
/// # Errors
///
/// `Header` with the first scan whose file does not begin with the names of its columns. `Illegal` with the first line up to
/// which the log is no beginning of one that this run may write.
pub fn rebuild<R: Threads + Sync>(
    rt: &R,
    alloc: Global,
    flow: Flow,
    files: Files,
    log: &Log,
    most: u64,
    threads: u32,
) -> Result<Home, RebuildErr>
    requires one_each { length files ≡ scan_count flow }
    requires steps { most ≤ 2 ^ 40 }
    requires text { IsLog log.now }
    requires few { length (flat_map item_lines log.now.items) < 2 ^ 32 }
    ensures home { IfOk result (λ home. home ≡ record {
      flow = flow;
      files = files;
      most = most;
      log = log.now;
      phase = phase.Resting;
      parts = [];
      alone = home.alone;
      turned = home.turned;
    }) }
    ensures recovers { Recovers result
        (record { flow = flow; files = files; most = most; log = log.now }) }
{
    let mut home = start(rt, alloc, flow, files, log.batch, most, threads)?;
    redo_items(alloc, &mut home, log.items.get(), false)?;
    Ok(home)
}

/// A run that was recovered from its log.
#[derive(Drop)]
pub struct Recovered {
    /// The home behind the last item. After a leg to the end its workers may have given their rows away.
    pub home: Home,
    /// The transcript: what the run has printed.
    pub printed: Bytes,
}

/// The home of exactly this log, as by `rebuild`, with its transcript, as by `replay`. The log is done again once for both,
/// and refused as there.
pub fn recover<R: Threads + Sync>(
    rt: &R,
    alloc: Global,
    flow: Flow,
    files: Files,
    log: &Log,
    most: u64,
    threads: u32,
) -> Result<Recovered, RebuildErr>
    requires one_each { length files ≡ scan_count flow }
    requires steps { most ≤ 2 ^ 40 }
    requires text { IsLog log.now }
    requires few { length (flat_map item_lines log.now.items) < 2 ^ 32 }
    ensures home { IfOk result (λ made. made.home ≡ record {
      flow = flow;
      files = files;
      most = most;
      log = log.now;
      phase = made.home.phase;
      parts = [];
      alone = made.home.alone;
      turned = made.home.turned;
    }) }
    ensures rests { IfOk result (λ made. ends_over false log.now.items ≡ false
        → made.home.phase ≡ phase.Resting) }
    ensures transcript { IfOk result (λ made. made.printed
        ≡ transcript_of (query_over flow files log.now.batch most) log.now.items) }
    ensures recovers { Recovers result
        (record { flow = flow; files = files; most = most; log = log.now }) }
{
    let mut home = start(rt, alloc, flow, files, log.batch, most, threads)?;
    let printed = Bytes::new(redo_items(alloc, &mut home, log.items.get(), true)?);
    Ok(Recovered { home, printed })
}

/// The transcript of a log: what its run has printed, the reply to each item behind that to the one before. The log is done
/// again as by `rebuild`, and refused as there. It is `recover` whose home is let go.
pub fn replay<R: Threads + Sync>(
    rt: &R,
    alloc: Global,
    flow: Flow,
    files: Files,
    log: &Log,
    most: u64,
    threads: u32,
) -> Result<Bytes, RebuildErr>
    requires one_each { length files ≡ scan_count flow }
    requires steps { most ≤ 2 ^ 40 }
    requires text { IsLog log.now }
    requires few { length (flat_map item_lines log.now.items) < 2 ^ 32 }
    ensures transcript { IfOk result (λ text. text
        ≡ transcript_of (query_over flow files log.now.batch most) log.now.items) }
    ensures recovers { Recovers result
        (record { flow = flow; files = files; most = most; log = log.now }) }
{
    let Recovered { home: _, printed } = recover(rt, alloc, flow, files, log, most, threads)?;
    Ok(printed)
}
