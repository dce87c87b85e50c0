//! A mail over two rings, of 64 slots each: one for the controls and one for the notes. Its two
//! ends may be held by two threads. Rests on the rings of `rtrb`; whether one is empty or full is
//! said as far as its end knows.

ghost use Rattle.std.specs.Prelude.{◌≡◌, ◌+◌, ◌<◌, ◌≤◌, ◌^◌, true, None, [], ◌∷◌, ◌++◌, IfErr, IfNone, IfOk, IsOk, IsSome, OnErr, OnOk, if◌then◌else◌, length, option_to_list};
ghost use mathlib.Core.List.{IsPrefix};
ghost use Rattle.amber_mail.specs.Controls.{is_pause};
ghost use Rattle.amber_mail.specs.Rings.{AreMailEnds, HandsNoteOn, SameMail, SamePost, free_note_slots, free_slots, heard_notes, pauses_taken, sent_controls, sent_notes, taken_controls, waiting_controls, waiting_notes};

use crate::mail::{Control, Mail, Note};
use rtrb::{Consumer, Producer, PushError, RingBuffer};
use std::alloc::{AllocError, Global};

// How many controls wait at most, and how many notes.
const SLOTS: usize = 64;

/// The coordinator's end.
#[derive(Drop)]
pub struct Post {
    controls: Producer<Control>,
    notes: Consumer<Note>,
}

/// The worker's end.
#[derive(Drop)]
pub struct RingMail {
    controls: Consumer<Control>,
    notes: Producer<Note>,
    looked: u64,
}

/// The two ends of a new mail.
pub fn mail_rings(alloc: Global) -> Result<(Post, RingMail), AllocError>
    ensures ends { IfOk result (λ ends. AreMailEnds ends.0 ends.1) }
    ensures looks { IfOk result (λ ends. ⟦<RingMail as Mail>⟧.looks ends.1 ≡ 0) }
    ensures pauses { IfOk result (λ ends. ⟦<RingMail as Mail>⟧.pauses ends.1 ≡ 0) }
    ensures plan { IfOk result (λ ends. ⟦<RingMail as Mail>⟧.plan ends.1 ≡ None) }
    ensures none_sent { IfOk result (λ ends. sent_controls ends.0 ≡ []) }
    ensures none_noted { IfOk result (λ ends. sent_notes ends.1 ≡ []) }
    ensures free { IfOk result (λ ends. free_slots ends.0 ≡ 64) }
    ensures free_notes { IfOk result (λ ends. free_note_slots ends.1 ≡ 64) }
{
    let (orders, controls) = RingBuffer::new(alloc, SLOTS)?;
    let (notes, heard) = RingBuffer::new(alloc, SLOTS)?;
    Ok((
        Post {
            controls: orders,
            notes: heard,
        },
        RingMail {
            controls,
            notes,
            looked: 0,
        },
    ))
}

impl Post {
    /// Tells the worker something. The control comes back where no free slot is known.
    pub fn push(&mut self, control: Control) -> Result<(), Control>
        ensures post { SamePost self.old self.new }
        ensures ok { OnOk result (sent_controls self.new ≡ sent_controls self.old ++ control ∷ []) }
        ensures back { IfErr result (λ back. back ≡ control) }
        ensures full { OnErr result (free_slots self.new ≡ 0) }
        ensures err { OnErr result (sent_controls self.new ≡ sent_controls self.old) }
        ensures room { free_slots self.old ≤ free_slots self.new + 1 }
        ensures succeeds { 0 < free_slots self.old → IsOk result }
        ensures heard { heard_notes self.new ≡ heard_notes self.old }
        ensures waiting { waiting_notes self.new ≡ waiting_notes self.old }
    {
        match self.controls.push(control) {
            Ok(()) => Ok(()),
            Err(PushError::Full(back)) => Err(back),
        }
    }

    /// The first note that was not heard yet. `None` where none is known to wait.
    pub fn hear(&mut self) -> Option<Note>
        ensures post { SamePost self.old self.new }
        ensures heard { heard_notes self.new ≡ heard_notes self.old ++ option_to_list result }
        ensures first { IsPrefix (waiting_notes self.old)
            (option_to_list result ++ waiting_notes self.new) }
        ensures none { IfNone result (waiting_notes self.new ≡ []) }
        ensures succeeds { 0 < length (waiting_notes self.old) → IsSome result }
        ensures sent { sent_controls self.new ≡ sent_controls self.old }
        ensures free { free_slots self.new ≡ free_slots self.old }
    {
        match self.notes.pop() {
            Ok(note) => Some(note),
            Err(_) => None,
        }
    }
}

impl RingMail {
    /// Counts looks from here on. Nothing else changes.
    pub fn count_looks_anew(&mut self)
        ensures looks { ⟦<RingMail as Mail>⟧.looks self.new ≡ 0 }
        ensures pauses { ⟦<RingMail as Mail>⟧.pauses self.new
            ≡ ⟦<RingMail as Mail>⟧.pauses self.old }
        ensures mail { SameMail self.old self.new }
        ensures taken { taken_controls self.new ≡ taken_controls self.old }
        ensures waiting { waiting_controls self.new ≡ waiting_controls self.old }
        ensures noted { sent_notes self.new ≡ sent_notes self.old }
        ensures room { free_note_slots self.new ≡ free_note_slots self.old }
    {
        self.looked = 0;
    }
}

impl Mail for RingMail {
    ghost looks = { λ mail. mail.looked };

    ghost pauses = { pauses_taken };

    ghost plan = { λ _. None };

    ghost deals = { λ _. true };

    /// The first control that was not taken yet. `None` where none is known to wait.
    // A plan is never told, so what the trait says of plans is nothing here.
    #[inline]
    fn look(&mut self) -> Option<Control>
        requires { ⟦<RingMail as Mail>⟧.looks self.old + 1 < 2 ^ 64 }
        ensures looks { ⟦<RingMail as Mail>⟧.looks self.new
            ≡ ⟦<RingMail as Mail>⟧.looks self.old + 1 }
        ensures pauses { ⟦<RingMail as Mail>⟧.pauses self.new
            ≡ (if is_pause result then ⟦<RingMail as Mail>⟧.pauses self.old + 1
            else ⟦<RingMail as Mail>⟧.pauses self.old) }
        ensures mail { SameMail self.old self.new }
        ensures taken { taken_controls self.new
            ≡ taken_controls self.old ++ option_to_list result }
        ensures first { IsPrefix (waiting_controls self.old)
            (option_to_list result ++ waiting_controls self.new) }
        ensures none { IfNone result (waiting_controls self.new ≡ []) }
        ensures succeeds { 0 < length (waiting_controls self.old) → IsSome result }
        ensures notes { sent_notes self.new ≡ sent_notes self.old }
        ensures free { free_note_slots self.new ≡ free_note_slots self.old }
    {
        self.looked += 1;
        match self.controls.pop() {
            Ok(control) => Some(control),
            Err(_) => None,
        }
    }

    fn may_deal(&self) -> bool {
        true
    }

    fn is_heard(&self) -> bool {
        true
    }

    /// Hands a note on, or drops it where no free slot is known.
    fn note(&mut self, note: Note)
        ensures looks { ⟦<RingMail as Mail>⟧.looks self.new ≡ ⟦<RingMail as Mail>⟧.looks self.old }
        ensures pauses { ⟦<RingMail as Mail>⟧.pauses self.new
            ≡ ⟦<RingMail as Mail>⟧.pauses self.old }
        ensures mail { SameMail self.old self.new }
        ensures taken { taken_controls self.new ≡ taken_controls self.old }
        ensures waiting { waiting_controls self.new ≡ waiting_controls self.old }
        ensures noted { HandsNoteOn self.old note self.new }
        ensures room { free_note_slots self.old ≤ free_note_slots self.new + 1 }
        ensures succeeds { 0 < free_note_slots self.old
            → sent_notes self.new ≡ sent_notes self.old ++ note ∷ [] }
    {
        let _ = self.notes.push(note);
    }
}
