//! What is read of a log with one more line. Over `Reading` and `Line` of `amber_log`.

ghost use Rattle.std.specs.Prelude.{◌≡◌, ◌++◌, ◌∷◌, [], length, IfOk, Some, false, MatchOption, ℕ, Ok, Err};
ghost use Rattle.amber_log.specs.ReadLines.{with_leg, finish, part_of, start, step, step_at, step_inside, step_opened, step_outside};
ghost use Rattle.amber_log.specs.Grammar.{is_go};
ghost use Rattle.amber_log.specs.declared.line.Line.TheVariants as one;
ghost use Rattle.amber_log.specs.declared.reading.Place.TheVariants as place;
ghost use Rattle.amber_journal.specs.ReadBack.{reading_at};

use amber_log::{Close, Entries, Entry, Item, Items, Leg, Line, Log, Part, Parts, Place, Reading};
use std::alloc::{AllocError, Global};

/// After the head.
pub fn start(alloc: Global, line: Line) -> Option<Reading>
    ensures { result ≡ start line }
{
    match line {
        Line::Head(batch) => Some(Reading {
            batch,
            items: Items::new(Vec::new(alloc)),
            place: Place::Outside,
        }),
        Line::Do(_) | Line::Run | Line::End | Line::Worker(_) | Line::Entry(_) | Line::Close(_) =>
            None,
    }
}

/// What was read so far, in its parts.
fn reading_at(batch: u32, items: Items, place: Place) -> Reading
    ensures { result ≡ reading_at batch items place }
{
    Reading {
        batch,
        items,
        place,
    }
}

/// After an item: a command, or the start of a leg.
fn step_outside(batch: u32, mut items: Items, line: Line) -> Result<Option<Reading>, AllocError>
    ensures { IfOk result (λ next. next
        ≡ step_outside (reading_at batch items place.Outside) line) }
{
    let place = match line {
        Line::Do(command) => {
            items.push(Item::Do(command))?;
            Place::Outside
        }
        Line::Run => Place::Opened { end: false },
        Line::End => Place::Opened { end: true },
        Line::Head(_) | Line::Worker(_) | Line::Entry(_) | Line::Close(_) => return Ok(None),
    };
    Ok(Some(reading_at(batch, items, place)))
}

/// After the end of a leg of these parts.
fn with_leg(batch: u32, mut items: Items, end: bool, leg: Leg) -> Result<Reading, AllocError>
    ensures { IfOk result (λ next. next
        ≡ with_leg (reading_at batch items place.Outside) end leg.parts leg.close) }
{
    let over = end || leg.close == Close::Long;
    items.push(if end { Item::End(leg) } else { Item::Run(leg) })?;
    let place = if over { Place::Over } else { Place::Outside };
    Ok(reading_at(batch, items, place))
}

/// After the line of a worker, whose part has no entry yet.
fn begin_part(alloc: Global, end: bool, parts: Parts, worker: u32) -> Place
    ensures { result ≡ place.Inside end parts worker [] false }
{
    Place::Inside {
        end,
        parts,
        worker,
        entries: Entries::new(Vec::new(alloc)),
        gone: false,
    }
}

/// After the start of a leg: a worker's part begins, or the leg ends.
fn step_opened(
    alloc: Global,
    batch: u32,
    items: Items,
    end: bool,
    line: Line,
) -> Result<Option<Reading>, AllocError>
    ensures { IfOk result (λ next. next
        ≡ step_opened (reading_at batch items (place.Opened end)) end line) }
{
    let parts = Parts::new(Vec::new(alloc));
    match line {
        Line::Worker(worker) => {
            let place = begin_part(alloc, end, parts, worker);
            Ok(Some(reading_at(batch, items, place)))
        }
        Line::Close(close) => {
            let next = with_leg(batch, items, end, Leg { parts, close })?;
            Ok(Some(next))
        }
        Line::Head(_) | Line::Do(_) | Line::Run | Line::End | Line::Entry(_) => Ok(None),
    }
}

/// Whether an entry takes or emits rows.
fn is_go(entry: Entry) -> bool
    ensures { result ≡ is_go entry }
{
    match entry {
        Entry::Go { .. } => true,
        Entry::Take { .. }
        | Entry::Grant { .. }
        | Entry::Back { .. }
        | Entry::Pause
        | Entry::Resume
        | Entry::Hold
        | Entry::Finish => false,
    }
}

/// The parts with one more.
fn with_part(parts: Parts, worker: u32, entries: Entries) -> Result<Parts, AllocError>
    ensures { IfOk result (λ more. more ≡ parts ++ part_of worker entries ∷ []) }
{
    let mut parts = parts.into_vec();
    parts.push(Part { worker, entries })?;
    Ok(Parts::new(parts))
}

/// The entries with one more.
fn with_entry(entries: Entries, entry: Entry) -> Result<Entries, AllocError>
    ensures { IfOk result (λ more. more ≡ entries ++ entry ∷ []) }
{
    let mut entries = entries.into_vec();
    entries.push(entry)?;
    Ok(Entries::new(entries))
}

/// The part of a worker.
#[derive(Drop)]
struct OpenPart {
    end: bool,
    parts: Parts,
    worker: u32,
    entries: Entries,
    gone: bool,
}

/// After one more entry of a worker's part.
fn step_entry(
    batch: u32,
    items: Items,
    part: OpenPart,
    entry: Entry,
) -> Result<Option<Reading>, AllocError>
    ensures { IfOk result (λ next. next
        ≡ step_inside (reading_at batch items place.Outside) part.end part.parts part.worker
        part.entries part.gone (one.Entry entry)) }
{
    let goes = is_go(entry);
    if part.gone && goes {
        return Ok(None);
    }
    let entries = with_entry(part.entries, entry)?;
    let place = Place::Inside {
        end: part.end,
        parts: part.parts,
        worker: part.worker,
        entries,
        gone: goes,
    };
    Ok(Some(reading_at(batch, items, place)))
}

/// After a line of the part at hand: one more entry, a part of a worker of greater number, or the end.
fn step_inside(
    alloc: Global,
    batch: u32,
    items: Items,
    part: OpenPart,
    line: Line,
) -> Result<Option<Reading>, AllocError>
    ensures { IfOk result (λ next. next
        ≡ step_inside (reading_at batch items place.Outside) part.end part.parts part.worker
        part.entries part.gone line) }
{
    match line {
        Line::Entry(entry) => step_entry(batch, items, part, entry),
        Line::Worker(next) => {
            if part.entries.get().is_empty() || next <= part.worker {
                return Ok(None);
            }
            let parts = with_part(part.parts, part.worker, part.entries)?;
            let place = begin_part(alloc, part.end, parts, next);
            Ok(Some(reading_at(batch, items, place)))
        }
        Line::Close(close) => {
            if part.entries.get().is_empty() {
                return Ok(None);
            }
            let parts = with_part(part.parts, part.worker, part.entries)?;
            let next = with_leg(batch, items, part.end, Leg { parts, close })?;
            Ok(Some(next))
        }
        Line::Head(_) | Line::Do(_) | Line::Run | Line::End => Ok(None),
    }
}

/// What is read with one more line, where that line may stand there.
#[tactic(auto, unfolding(amber_log::specs::ReadLines::step))]
pub fn step(alloc: Global, reading: Reading, line: Line) -> Result<Option<Reading>, AllocError>
    ensures { IfOk result (λ next. next ≡ step reading line) }
{
    let Reading {
        batch,
        items,
        place,
    } = reading;
    match place {
        Place::Outside => step_outside(batch, items, line),
        Place::Over => Ok(None),
        Place::Opened { end } => step_opened(alloc, batch, items, end, line),
        Place::Inside {
            end,
            parts,
            worker,
            entries,
            gone,
        } => {
            let part = OpenPart {
                end,
                parts,
                worker,
                entries,
                gone,
            };
            step_inside(alloc, batch, items, part, line)
        }
    }
}

/// The log, where no line is left. A leg may not be open.
#[tactic(auto, unfolding(amber_log::specs::ReadLines::finish))]
pub fn finish(reading: Reading) -> Option<Log>
    ensures { MatchOption result
        ((number : ℕ) → finish number reading ≡ Err number)
        (λ log. (number : ℕ) → finish number reading ≡ Ok log) }
{
    let Reading {
        batch,
        items,
        place,
    } = reading;
    match place {
        Place::Outside | Place::Over => Some(Log { batch, items }),
        Place::Opened { .. } | Place::Inside { .. } => None,
    }
}
