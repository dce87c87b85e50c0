//! A line of a log done again, whole or not at all. Rests on `stepping`, `standing` and `emitting`.

ghost use Rattle.std.specs.Prelude.{IfNone, IfOk, IfSome, None, Option, OnErr, OnOk, [], false, length, slice_index_or, true, ◌+◌, ◌++◌, ◌<◌, ◌^◌, ◌≡◌, ◌≤◌, ◌∷◌};
ghost use Rattle.std.specs.List.{list_any};
ghost use Rattle.amber_link.specs.Sides.{comes_next, have_builders_ended, may_come};
ghost use Rattle.amber_link.specs.declared.upstreams.Upstream.{Upstream as OneUpstream};
ghost use Rattle.amber_log.specs.Grammar.{AreEntries};
ghost use Rattle.amber_worker.specs.AtPosition.{IsLookedAt};
ghost use Rattle.amber_worker.specs.Fields.{rows_moved};
ghost use Rattle.amber_worker.specs.Redoable.{TakesAt, claims_again, finishes_again, holds_again, is_through, pauses_again, resumes_again};
ghost use Rattle.amber_worker.specs.Redoing.{AnswersRedone, Redoes, entry_steps, hand_before, log_line, units_of};
ghost use Rattle.amber_worker.specs.WorkerState.{WorkerState, steps_made};
ghost use Rattle.amber_worker.specs.declared.redoing.Armed.{Armed as OneArmed};

use super::Worker;
use crate::counting::Dealing;
use crate::redoing::{Armed, Redone, hand_of, lacks_units, left_by};
use crate::redone_rows::RowsLine;
use amber_link::{have_built, have_ended, next_place};
use amber_log::Entry;
use std::alloc::AllocError;

impl Worker {
    // Whether it may pause.
    fn pauses_again(&self) -> bool
        ensures { result ≡ pauses_again self.now }
    {
        !self.finished && !self.flags.paused
    }

    // Whether it may go on after a pause.
    fn resumes_again(&self) -> bool
        ensures { result ≡ resumes_again self.now }
    {
        self.flags.paused && !self.finished && !self.flags.held
    }

    // Whether the next row holds it.
    fn holds_again(&self, armed: Option<Armed>) -> bool
        ensures { result ≡ holds_again armed self.now }
    {
        !self.stands_still() && self.must_hold() && !lacks_units(armed, 1)
    }

    // Whether it may claim units.
    fn claims_again(&self, armed: Option<Armed>) -> bool
        ensures { result ≡ claims_again armed self.now }
    {
        armed.is_some() && !self.finished
    }

    // Whether nothing holds it back, and nothing is at hand.
    fn is_through(&self) -> bool
        ensures { result ≡ is_through self.now }
    {
        !self.stands_still() && !self.has_pending() && !self.has_rest()
    }

    // Whether nothing more can come.
    fn finishes_again(&self) -> bool
        ensures { result ≡ finishes_again self.now }
    {
        self.is_through() && have_ended(self.ins.as_slice())
    }

    // Writes an entry into the journal that moves no more rows than were taken and emitted.
    fn note(&mut self, entry: Entry) -> Result<(), AllocError>
        requires few { rows_moved entry ≤ self.old.taken + self.old.emitted }
        ensures ok { OnOk result (self.new
            ≡ record self.old { journal = self.old.journal ++ entry ∷ [] }) }
        ensures err { OnErr result (self.new ≡ self.old) }
    {
        self.journal.reserve(1)?;
        self.journal.push(entry);
        Ok(())
    }

    // Pauses, where that may come.
    fn redo_pause(&mut self) -> Result<bool, AllocError>
        ensures ok { IfOk result (λ done. (armed : Option OneArmed)
            → Redoes (log_line Entry.Pause armed) self.old self.new done) }
        ensures err { OnErr result (self.new ≡ self.old) }
    {
        if !self.pauses_again() {
            return Ok(false);
        }
        self.note(Entry::Pause)?;
        self.flags.paused = true;
        Ok(true)
    }

    // Goes on after a pause, where that may come.
    fn redo_resume(&mut self) -> Result<bool, AllocError>
        ensures ok { IfOk result (λ done. (armed : Option OneArmed)
            → Redoes (log_line Entry.Resume armed) self.old self.new done) }
        ensures err { OnErr result (self.new ≡ self.old) }
    {
        if !self.resumes_again() {
            return Ok(false);
        }
        self.note(Entry::Resume)?;
        self.flags.paused = false;
        Ok(true)
    }

    // Stands before the next row, where that may come.
    fn redo_hold(&mut self, armed: Option<Armed>) -> Result<bool, AllocError>
        ensures ok { IfOk result (Redoes (log_line Entry.Hold armed) self.old self.new) }
        ensures err { OnErr result (self.new ≡ self.old) }
    {
        if !self.holds_again(armed) {
            return Ok(false);
        }
        self.note(Entry::Hold)?;
        self.flags.held = true;
        Ok(true)
    }

    // Claims units, where that may come.
    fn redo_grant(&mut self, n: u64, armed: Option<Armed>) -> Result<bool, AllocError>
        requires some { 0 < n }
        ensures ok { IfOk result (Redoes (log_line (Entry.Grant n) armed) self.old self.new) }
        ensures err { OnErr result (self.new ≡ self.old) }
    {
        if !self.claims_again(armed) {
            return Ok(false);
        }
        self.note(Entry::Grant { n })?;
        Ok(true)
    }

    // Gives the whole hand back, where that may come.
    fn redo_back(&mut self, n: u64, armed: Option<Armed>) -> Result<bool, AllocError>
        requires some { 0 < n }
        ensures ok { IfOk result (Redoes (log_line (Entry.Back n) armed) self.old self.new) }
        ensures err { OnErr result (self.new ≡ self.old) }
    {
        if hand_of(armed) != u128::from(n) {
            return Ok(false);
        }
        self.note(Entry::Back { n })?;
        Ok(true)
    }

    // Finishes, where that may come.
    fn redo_finish(&mut self) -> Result<bool, AllocError>
        requires unarmed { self.old.seat ≡ None }
        requires few { steps_made self.old < 2 ^ 40 }
        ensures ok { IfOk result (λ done. (armed : Option OneArmed)
            → Redoes (log_line Entry.Finish armed) self.old self.new done) }
        ensures err { OnErr result (self.new ≡ self.old) }
    {
        self.show_short();
        if !self.finishes_again() {
            return Ok(false);
        }
        self.finish(None, Dealing::Nothing)?;
        Ok(true)
    }

    // The place of the sender with this number, where this is the number of its next batch and that may be taken. None
    // is taken, but more may be known.
    fn next_from(&mut self, from: u32, number: u64) -> Option<usize>
        ensures looked { IsLookedAt self.old self.new }
        ensures none { IfNone result (list_any
            (comes_next (have_builders_ended self.new.ins) from number) self.new.ins ≡ false) }
        ensures there { IfSome result (λ place. place < length self.new.ins) }
        ensures next { IfSome result (λ place. (d : OneUpstream) → comes_next
            (have_builders_ended self.new.ins) from number
            (slice_index_or self.new.ins place d) ≡ true) }
    {
        let built = have_built(self.ins.as_slice());
        next_place(self.ins.as_mut_slice(), from, number, built)
    }

    // Takes the batch that comes next of the sender at a place.
    fn take_next_of(&mut self, place: usize) -> Result<(), AllocError>
        requires unarmed { self.old.seat ≡ None }
        requires few { steps_made self.old < 2 ^ 40 }
        requires through { is_through self.old ≡ true }
        requires there { place < length self.old.ins }
        requires next { (d : OneUpstream) → may_come (have_builders_ended self.old.ins)
            (slice_index_or self.old.ins place d) ≡ true }
        ensures ok { OnOk result (TakesAt place self.old self.new) }
        ensures err { OnErr result (self.new ≡ self.old) }
    {
        self.return_used();
        self.pass_used();
        self.take_from(None, Dealing::Nothing, place)
    }

    // Takes the batch with this number of a sender, where that may come.
    fn redo_take(&mut self, from: u32, number: u64) -> Result<bool, AllocError>
        requires unarmed { self.old.seat ≡ None }
        requires few { steps_made self.old < 2 ^ 40 }
        ensures ok { IfOk result (λ done. (armed : Option OneArmed)
            → Redoes (log_line (Entry.Take from number) armed) self.old self.new done) }
        ensures err { OnErr result (IsLookedAt self.old self.new) }
    {
        self.show_short();
        if !self.is_through() {
            return Ok(false);
        }
        let Some(place) = self.next_from(from, number) else {
            return Ok(false);
        };
        self.take_next_of(place)?;
        Ok(true)
    }

    // Takes rows and emits rows, where that may come.
    fn redo_go(&mut self, rows: u64, outs: u64, armed: Option<Armed>) -> Result<bool, AllocError>
        requires unarmed { self.old.seat ≡ None }
        requires few { steps_made self.old + (rows + outs) ≤ 2 ^ 40 }
        requires follows { AreEntries false (self.old.journal ++ Entry.Go rows outs ∷ []) }
        ensures ok { IfOk result (Redoes (log_line (Entry.Go rows outs) armed) self.old self.new) }
        ensures err { OnErr result (self.new ≡ self.old) }
    {
        if self.stands_still() {
            return Ok(false);
        }
        self.redo_line(RowsLine { rows, outs, armed })
    }

    // Does what an entry says, where that may come.
    fn redo_entry(&mut self, entry: &Entry, armed: Option<Armed>) -> Result<bool, AllocError>
        requires unarmed { self.old.seat ≡ None }
        requires follows { AreEntries false (self.old.journal ++ entry.now ∷ []) }
        requires few { steps_made self.old + entry_steps entry.now ≤ 2 ^ 40 }
        ensures ok { IfOk result (Redoes (log_line entry.now armed) self.old self.new) }
        ensures err { OnErr result (IsLookedAt self.old self.new) }
    {
        match entry {
            Entry::Take { from, batch } => self.redo_take(*from, *batch),
            Entry::Go { rows, outs } => self.redo_go(*rows, *outs, armed),
            Entry::Grant { n } => self.redo_grant(*n, armed),
            Entry::Back { n } => self.redo_back(*n, armed),
            Entry::Pause => self.redo_pause(),
            Entry::Resume => self.redo_resume(),
            Entry::Hold => self.redo_hold(armed),
            Entry::Finish => self.redo_finish(),
        }
    }

    /// Does a line of a log, whole or not at all. `armed` is there exactly where a count is armed for the operator, and
    /// has the hand before the line. Done says that the line met its rule, and what is in hand then. After Illegal and if
    /// memory runs out the worker is as before, but may know of more batches that have come.
    pub fn redo(&mut self, entry: &Entry, armed: Option<Armed>) -> Result<Redone, AllocError>
        requires unarmed { self.old.seat ≡ None }
        requires follows { AreEntries false (self.old.journal ++ entry.now ∷ []) }
        requires units { hand_before armed + units_of entry.now < 2 ^ 128 }
        requires few { steps_made self.old + entry_steps entry.now ≤ 2 ^ 40 }
        ensures answers { IfOk result (AnswersRedone (log_line entry.now armed) self.old self.new) }
        ensures err { OnErr result (IsLookedAt self.old self.new) }
    {
        if self.redo_entry(entry, armed)? {
            let hand = left_by(entry, armed);
            return Ok(Redone::Done { hand });
        }
        Ok(Redone::Illegal)
    }
}
