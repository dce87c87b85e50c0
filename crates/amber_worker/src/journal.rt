//! The journal of a worker: what it did since the journal was handed out. Over `Entry` of `amber_log`.

ghost use Rattle.std.specs.Prelude.{◌≡◌, ◌+◌, ◌^◌, ◌<◌, ◌≤◌, ◌∷◌, ◌++◌, [], All, OnErr, OnOk, false, true};
ghost use Rattle.amber_worker.specs.Fields.{rows_moved};
ghost use Rattle.amber_worker.specs.Steps.{gone_on, with_go};

use amber_log::{Entries, Entry};
use std::alloc::{AllocError, Global};
use std::marker::Model;
use std::mem;

// Adds rows that were taken and emitted to an entry that speaks of rows, and says whether it does.
fn add_go(entry: &mut Entry, rows: u64, outs: u64) -> bool
    requires few { rows_moved entry.old + rows + outs < 2 ^ 64 }
    ensures added { result ≡ true → gone_on entry.old rows outs ≡ entry.new ∷ [] }
    ensures other { result ≡ false → gone_on entry.old rows outs
        ≡ entry.old ∷ Entry.Go rows outs ∷ [] }
    ensures same { result ≡ false → entry.new ≡ entry.old }
{
    match entry {
        Entry::Go {
            rows: before,
            outs: given,
        } => {
            *before += rows;
            *given += outs;
            true
        }
        Entry::Take { .. }
        | Entry::Grant { .. }
        | Entry::Back { .. }
        | Entry::Pause
        | Entry::Resume
        | Entry::Hold
        | Entry::Finish => false,
    }
}

// Entries, with how many more fit without memory, and whether room for one is kept whatever else is written.
pub(crate) struct Journal {
    entries: Vec<Entry>,
    reserved: bool,
}

impl Drop for Journal {
    fn drop(self) {
        let Journal {
            entries: _,
            reserved: _,
        } = self;
    }
}

impl Model for Journal {
    ghost use Rattle.std.specs.Prelude.{◌≡◌, ◌-◌, ◌<◌, true, vec_capacity, vec_len};
    ghost use Rattle.amber_worker.specs.Journals.{JournalState};

    ghost Value = { JournalState };

    ghost view = { λ a. record {
      entries = a.entries.items;
      spare = vec_capacity a.entries - vec_len a.entries;
      reserved = a.reserved;
    } };

    ghost invariant = { λ a. a.reserved ≡ true → vec_len a.entries < vec_capacity a.entries };
}

impl Journal {
    // Nothing was done.
    pub fn new(alloc: Global) -> Journal
        ensures entries { result.entries ≡ [] }
        ensures reserved { result.reserved ≡ false }
    {
        Journal {
            entries: Vec::new(alloc),
            reserved: false,
        }
    }

    // What was done.
    pub fn entries(&self) -> &[Entry]
        ensures { result.now ≡ self.now.entries }
    {
        self.entries.as_slice()
    }

    // Makes room for so many entries, and one that is kept.
    #[inline(always)]
    pub fn reserve(&mut self, entries: u32) -> Result<(), AllocError>
        ensures items { self.new.entries ≡ self.old.entries }
        ensures reserved { self.new.reserved ≡ self.old.reserved }
        ensures ok { OnOk result (entries < self.new.spare) }
    {
        self.entries.reserve(entries as usize + 1)
    }

    // Writes an entry, where there is room for one more than that.
    #[inline(always)]
    pub fn push(&mut self, entry: Entry)
        requires { 1 < self.old.spare }
        ensures items { self.new.entries ≡ self.old.entries ++ entry ∷ [] }
        ensures reserved { self.new.reserved ≡ self.old.reserved }
        ensures spare { self.old.spare ≡ self.new.spare + 1 }
    {
        self.entries.push_reserved(entry);
    }

    // Notes rows that were taken and emitted, in one entry with those just before them.
    pub fn note_go(&mut self, rows: u64, outs: u64)
        requires room { 1 < self.old.spare }
        requires few { All (λ one. rows_moved one + rows + outs < 2 ^ 64) self.old.entries }
        ensures items { self.new.entries ≡ with_go self.old.entries rows outs }
        ensures reserved { self.new.reserved ≡ self.old.reserved }
    {
        let count = self.entries.len();
        if count == 0 {
            self.entries.push_reserved(Entry::Go { rows, outs });
            return;
        }
        if add_go(&mut self.entries[count - 1], rows, outs) {
            return;
        }
        self.entries.push_reserved(Entry::Go { rows, outs });
    }

    // Keeps room for an entry from now on.
    pub fn keep_room(&mut self) -> Result<(), AllocError>
        ensures items { self.new.entries ≡ self.old.entries }
        ensures ok { OnOk result (self.new.reserved ≡ true) }
        ensures err { OnErr result (self.new.reserved ≡ self.old.reserved) }
    {
        self.entries.reserve(1)?;
        self.reserved = true;
        Ok(())
    }

    // Writes an entry into the room that was kept for it.
    pub fn use_room(&mut self, entry: Entry)
        requires { self.old.reserved ≡ true }
        ensures items { self.new.entries ≡ self.old.entries ++ entry ∷ [] }
        ensures reserved { self.new.reserved ≡ false }
    {
        self.reserved = false;
        self.entries.push_reserved(entry);
    }

    // Keeps room no longer.
    pub fn drop_room(&mut self)
        ensures items { self.new.entries ≡ self.old.entries }
        ensures reserved { self.new.reserved ≡ false }
    {
        self.reserved = false;
    }

    // Nothing was done; the room stays.
    pub fn clear(&mut self)
        ensures items { self.new.entries ≡ [] }
        ensures reserved { self.new.reserved ≡ self.old.reserved }
    {
        self.entries.clear();
    }

    // Hands out what was done. No room is kept then.
    pub fn take(&mut self, alloc: Global) -> Entries
        ensures given { result ≡ self.old.entries }
        ensures items { self.new.entries ≡ [] }
        ensures reserved { self.new.reserved ≡ false }
    {
        self.reserved = false;
        Entries::new(mem::replace(&mut self.entries, Vec::new(alloc)))
    }
}
