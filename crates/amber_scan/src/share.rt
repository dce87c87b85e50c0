//! The records of a scan that one worker takes. Rests on `Records` of `amber_cut`.

ghost use Rattle.std.specs.Prelude.{◌≡◌, ◌≤◌, ◌<◌, ◌+◌, ◌-◌, ◌^◌, ◌⊎◌, ◌∷◌, [], false, true, length, slice_index_or, IfOk, IfSome, IsOk, MatchOption, OnErr, OnOk};
ghost use Rattle.std.specs.Arc.{arc_value};
ghost use Rattle.amber_rows.specs.Lists.{is_empty};
ghost use Rattle.amber_rows.specs.Record.{row_of};
ghost use Rattle.amber_rows.specs.Shares.{share_of};
ghost use Rattle.amber_scan.specs.Shares.{Suits, scanned_number, scanned_of, scanned_record};
ghost use Rattle.amber_scan.specs.declared.share.Scanned.{Scanned as OneScanned};

use amber_cut::Records;
use amber_rows::{Row, RowFault, Schema, Value};
use std::alloc::{AllocError, Global};
use std::collections::VecDeque;
use std::marker::Model;
use std::sync::Arc;

/// A record of a scan's file: its number, from 1 after the header, and its row or why it is none.
#[derive(Drop)]
pub struct Scanned {
    pub number: u64,
    pub what: Result<Row, RowFault>,
}

impl Clone for Scanned {
    ghost is_clone = { λ a copy. copy ≡ a };

    fn clone(&self) -> Result<Self, AllocError> {
        let what = match &self.what {
            Ok(row) => Ok(row.clone()?),
            Err(fault) => Err(*fault),
        };
        Ok(Scanned {
            number: self.number,
            what,
        })
    }
}

// Room for the cells of a row: those of one that is done with, if there is one.
fn cells_of(alloc: Global, used: Option<Row>) -> Vec<Value> {
    match used {
        Some(row) => row.into_inner(),
        None => Vec::new(alloc),
    }
}

// How many records stand after the header.
fn count(records: &Records) -> usize
    ensures { result ≡ length records.now - 1 }
{
    records.len().saturating_sub(1)
}

// The record after the header before which so many others stand, typed by these columns in the room of cells that are
// done with, with its number; none where there is none.
#[inline(always)]
fn scan_record(
    alloc: Global,
    records: &Records,
    columns: &Schema,
    before: usize,
    room: Vec<Value>,
) -> Result<Option<Scanned>, AllocError>
    requires { length columns.now < 2 ^ 32 }
    ensures few { length records.now - 1 < 2 ^ 64 }
    ensures next { IfOk result (λ next. MatchOption next (length records.now - 1 ≤ before)
        (λ one. (before < length records.now - 1) × (one ≡ scanned_record (before + 1)
        (row_of columns.now (slice_index_or records.now (before + 1) []))))) }
{
    if count(records) <= before {
        return Ok(None);
    }
    let number = before + 1;
    let what = records.typed(alloc, number, room, columns)?;
    Ok(Some(Scanned {
        number: number as u64,
        what,
    }))
}

/// The records of one worker that it has not taken yet. They are typed when they are read ahead or taken.
pub struct Share {
    alloc: Global,
    // Those of the file, the header first, for all workers of the scan.
    records: Arc<Records, Global>,
    columns: Schema,
    // How many records of the file after the header stand before the next one that is to be typed.
    before: usize,
    // How many places further the one after that stands.
    step: usize,
    // Those that are typed already.
    ahead: VecDeque<Scanned>,
}

impl Drop for Share {
    fn drop(self) {
        let Share {
            alloc: _,
            records: _,
            columns: _,
            before: _,
            step: _,
            ahead: _,
        } = self;
    }
}

impl Model for Share {
    ghost use Rattle.std.specs.Prelude.{◌<◌, ◌≤◌, ◌^◌, ◌++◌, All, drop, length};
    ghost use Rattle.std.specs.Arc.{arc_value};
    ghost use Rattle.amber_scan.specs.Shares.{ShareState, Suits, every, scanned_of};

    ghost Value = { ShareState };

    ghost view = { λ a. record {
      left = a.ahead.items
          ++ every a.step 0 (drop a.before (scanned_of a.columns (arc_value a.records)));
      ready = length a.ahead.items;
      columns = a.columns;
    } };

    ghost invariant = { λ a. (0 < a.step) × (length a.columns < 2 ^ 32)
        × (length a.ahead.items ≤ a.before)
        × All (λ one. Suits a.columns one.what) a.ahead.items };
}

impl Share {
    // The share of a worker, from 0, of so many: its records are the one after as many others, and each that stands as
    // many places further as there are workers.
    pub(crate) fn new(
        alloc: Global,
        records: Arc<Records, Global>,
        columns: Schema,
        worker: u32,
        workers: u32,
    ) -> Self
        requires one { worker < workers }
        requires columns { length columns < 2 ^ 32 }
        ensures left { result.left
            ≡ share_of scanned_number workers worker (scanned_of columns (arc_value records)) }
        ensures columns { result.columns ≡ columns }
    {
        Share {
            alloc,
            records,
            columns,
            before: worker as usize,
            step: workers as usize,
            ahead: VecDeque::new(alloc),
        }
    }

    /// Takes the first record that is left, and answers `None` exactly where none is left. Where it wants memory none
    /// is taken. What was read ahead takes no memory. Any other row is typed over the cells of a row that is done with,
    /// if there is one: where that has a cell for each column, a text takes no memory that fits where a text was. What
    /// it holds means nothing.
    pub fn next(&mut self, used: Option<Row>) -> Result<Option<Scanned>, AllocError>
        ensures took { IfOk result (λ next. MatchOption next
            ((self.old.left ≡ []) × (self.new.left ≡ []))
            (λ one. self.old.left ≡ one ∷ self.new.left)) }
        ensures suits { IfOk result
            (λ next. IfSome next (λ one. Suits self.old.columns one.what)) }
        ensures columns { self.new.columns ≡ self.old.columns }
        ensures ready { OnOk result (self.new.ready ≡ self.old.ready - 1) }
        ensures sure { 0 < self.old.ready → IsOk result }
        ensures err { OnErr result (self.new ≡ self.old) }
    {
        if let Some(one) = self.ahead.pop_front() {
            return Ok(Some(one));
        }
        let before = self.before;
        let room = cells_of(self.alloc, used);
        match scan_record(self.alloc, &self.records, &self.columns, before, room)? {
            Some(one) => {
                self.before = before.saturating_add(self.step);
                Ok(Some(one))
            }
            None => Ok(None),
        }
    }

    // Reads one record more ahead, and answers whether there was one.
    fn read_one(&mut self) -> Result<bool, AllocError>
        ensures left { self.new.left ≡ self.old.left }
        ensures columns { self.new.columns ≡ self.old.columns }
        ensures found { IfOk result
            (λ found. found ≡ true → self.new.ready ≡ self.old.ready + 1) }
        ensures none { IfOk result
            (λ found. found ≡ false → self.new.ready ≡ length self.new.left) }
        ensures more { self.old.ready ≤ self.new.ready }
    {
        self.ahead.reserve(1)?;
        let room = cells_of(self.alloc, None);
        let Some(one) = scan_record(self.alloc, &self.records, &self.columns, self.before, room)?
        else {
            return Ok(false);
        };
        self.ahead.push_back_reserved(one);
        self.before = self.before.saturating_add(self.step);
        Ok(true)
    }

    /// Reads the next `count` records, or all that are left, so that they are given without memory. They are left as
    /// before.
    pub fn read_ahead(&mut self, count: usize) -> Result<(), AllocError>
        ensures left { self.new.left ≡ self.old.left }
        ensures columns { self.new.columns ≡ self.old.columns }
        ensures ready { OnOk result
            ((count ≤ self.new.ready) ⊎ (self.new.ready ≡ length self.new.left)) }
        ensures more { self.old.ready ≤ self.new.ready }
    {
        'records: while self.ahead.len() < count {
            if !self.read_one()? {
                return Ok(());
            }
        }
        Ok(())
    }

    /// The record at a place, from 0, of those that were read ahead. It is not taken.
    pub fn at(&self, place: usize) -> &Scanned
        requires { place < self.now.ready }
        ensures { (d : OneScanned) → result.now ≡ slice_index_or self.now.left place d }
    {
        &self.ahead[place]
    }

    /// Takes the first record that is left, which was read ahead. It takes no memory.
    pub fn take_ready(&mut self) -> Scanned
        requires { 0 < self.old.ready }
        ensures took { self.old.left ≡ result ∷ self.new.left }
        ensures suits { Suits self.old.columns result.what }
        ensures columns { self.new.columns ≡ self.old.columns }
        ensures ready { self.new.ready ≡ self.old.ready - 1 }
    {
        let Some(one) = self.ahead.pop_front() else {
            unreachable!()
        };
        one
    }

    /// Whether no record is left.
    pub fn is_empty(&self) -> bool
        ensures { result ≡ is_empty self.now.left }
    {
        self.ahead.is_empty() && count(&self.records) <= self.before
    }

    /// How many records are left.
    pub fn left(&self) -> u64
        ensures { result ≡ length self.now.left }
    {
        let records = count(&self.records);
        if records <= self.before {
            return self.ahead.len() as u64;
        }
        let unread = (records - self.before - 1) / self.step + 1;
        (self.ahead.len() + unread) as u64
    }
}

/// A copy has its records in common with the share, and copies those that were read ahead.
impl Clone for Share {
    ghost is_clone = { λ a copy. (copy.left ≡ a.left) × (copy.columns ≡ a.columns) };

    fn clone(&self) -> Result<Self, AllocError> {
        Ok(Share {
            alloc: self.alloc,
            records: self.records.clone()?,
            columns: self.columns.clone()?,
            before: self.before,
            step: self.step,
            ahead: self.ahead.clone()?,
        })
    }
}
