//! A gate and mails that keep what they are handed, or act on a look. Over `amber_mail` and `Out` of `amber_link`.

ghost use Rattle.std.specs.Prelude.{None, false, true, ◌≡◌};

use amber_link::Out;
use amber_mail::{Control, Gate, Mail, Note};
use amber_worker::NoMemory;
use std::alloc::Global;
use std::sync::atomic::{AtomicU64, Ordering};

/// A gate that counts its passes, and those that are out of order: of another worker, or not the next turn of a leg.
#[derive(Drop)]
pub struct CountingGate {
    who: u32,
    passes: AtomicU64,
    astray: AtomicU64,
}

impl CountingGate {
    /// For the first turns of this worker in a leg.
    pub fn new(who: u32) -> CountingGate {
        CountingGate {
            who,
            passes: AtomicU64::new(0),
            astray: AtomicU64::new(0),
        }
    }

    /// How many passes there were.
    pub fn passes(&self) -> u64 {
        self.passes.load(Ordering::SeqCst)
    }

    /// How many of them were out of order.
    pub fn astray(&self) -> u64 {
        self.astray.load(Ordering::SeqCst)
    }
}

impl Gate for CountingGate {
    fn pass(&self, who: u32, turn: u64) {
        let next = self.passes.fetch_add(1, Ordering::SeqCst);
        if who != self.who || turn != next {
            self.astray.fetch_add(1, Ordering::SeqCst);
        }
    }
}

/// A mail that claims at one look, says nothing at any other, and keeps the notes as a text.
#[derive(Drop)]
pub struct KeepingMail {
    alloc: Global,
    looked: u64,
    claims: u64,
    notes: String,
}

impl KeepingMail {
    /// One that claims at the look of this number, from 1.
    pub fn new(alloc: Global, claims: u64) -> KeepingMail
        ensures { ⟦<KeepingMail as Mail>⟧.looks result ≡ 0 }
    {
        KeepingMail {
            alloc,
            looked: 0,
            claims,
            notes: String::new(alloc),
        }
    }

    /// Its notes.
    pub fn into_notes(self) -> String {
        let KeepingMail {
            alloc: _,
            looked: _,
            claims: _,
            notes,
        } = self;
        notes
    }

    // Appends a note, as a word and a number.
    fn keep(&mut self, note: Note) -> Result<(), NoMemory>
        ensures { self.new.looked ≡ self.old.looked }
    {
        let (word, number) = match note {
            Note::Starved => ("starved", 0),
            Note::Able => ("able", 0),
            Note::Held => ("held", 0),
            Note::Emitted(rows) => ("emitted", rows),
            Note::Finished => ("finished", 0),
        };
        let text = format!(in self.alloc; "{word} {number} ")?;
        self.notes.push_str(text.as_str())
    }
}

impl Mail for KeepingMail {
    ghost looks = { λ mail. mail.looked };

    ghost pauses = { λ _. 0 };

    ghost plan = { λ _. None };

    ghost deals = { λ _. true };

    fn look(&mut self) -> Option<Control> {
        self.looked += 1;
        if self.looked == self.claims {
            Some(Control::Claim)
        } else {
            None
        }
    }

    fn may_deal(&self) -> bool {
        true
    }

    fn is_heard(&self) -> bool {
        true
    }

    fn note(&mut self, note: Note) {
        // A text that lacks a note is not the one that is expected.
        let _ = self.keep(note);
    }
}

/// A mail that says nothing, and sends what waits in an outbox at one look.
#[derive(Drop)]
pub struct SendingMail {
    looked: u64,
    sends: u64,
    out: Out,
}

impl SendingMail {
    /// One that sends at the look of this number, from 1.
    pub fn new(out: Out, sends: u64) -> SendingMail
        ensures { ⟦<SendingMail as Mail>⟧.looks result ≡ 0 }
    {
        SendingMail {
            looked: 0,
            sends,
            out,
        }
    }
}

impl Mail for SendingMail {
    ghost looks = { λ mail. mail.looked };

    ghost pauses = { λ _. 0 };

    ghost plan = { λ _. None };

    ghost deals = { λ _. false };

    fn look(&mut self) -> Option<Control> {
        self.looked += 1;
        if self.looked == self.sends {
            self.out.send();
        }
        None
    }

    fn may_deal(&self) -> bool {
        false
    }

    fn is_heard(&self) -> bool {
        false
    }

    fn note(&mut self, _note: Note) {}
}
