//! Where a worker looks before each turn of a drive: whether all are to pause. What else it is told waits until the drive is over,
//! and what it has done is noted then. Over `RingMail` of `amber_mail` and `Signals`.

ghost use Rattle.std.specs.Prelude.{◌≡◌, ◌≤◌, ◌++◌, [], IfNone, None, false, option_to_list};
ghost use Rattle.amber_mail.specs.Rings.{taken_controls, waiting_controls};

use crate::signals::Signals;
use amber_mail::{Control, Mail, Note, RingMail};
use amber_worker::{Turn, Worker};

/// A worker's end of a mail, with the signals of the round.
#[derive(Drop)]
pub(crate) struct PauseMail<'a> {
    ring: RingMail,
    signals: &'a Signals,
    looked: u64,
    paused: u64,
    ghost within: { paused ≤ looked },
}

impl<'a> PauseMail<'a> {
    /// A mail over this end.
    pub fn new(ring: RingMail, signals: &'a Signals) -> PauseMail<'a> {
        PauseMail {
            ring,
            signals,
            looked: 0,
            paused: 0,
        }
    }

    /// The end.
    pub fn into_ring(self) -> RingMail {
        let PauseMail {
            ring,
            signals: _,
            looked: _,
            paused: _,
        } = self;
        ring
    }

    /// Counts looks from here on.
    pub fn count_looks_anew(&mut self)
        ensures looks { ⟦<PauseMail<'a> as Mail>⟧.looks self.new ≡ 0 }
    {
        self.looked = 0;
        self.paused = 0;
    }

    /// Notes how a worker stands whose last turn came to this: how many rows it has emitted, and whether it is held, has no unit,
    /// or has finished.
    pub fn note_stand(&mut self, worker: &Worker, last: Option<Turn>)
        ensures looks { ⟦<PauseMail<'a> as Mail>⟧.looks self.new
            ≡ ⟦<PauseMail<'a> as Mail>⟧.looks self.old }
    {
        self.ring.note(Note::Emitted(worker.emitted()));
        match last {
            Some(Turn::Held) => self.ring.note(Note::Held),
            Some(Turn::Starved) => self.ring.note(Note::Starved),
            Some(Turn::Ended) => self.ring.note(Note::Finished),
            Some(Turn::Moved | Turn::Idle | Turn::Paused) | None => {}
        }
    }

    /// What the worker was told, if it was told anything, and has not heard of yet.
    pub fn take_told(&mut self) -> Option<Control>
        ensures taken { taken_controls self.new.ring
            ≡ taken_controls self.old.ring ++ option_to_list result }
        ensures none { IfNone result (waiting_controls self.new.ring ≡ []) }
    {
        self.ring.count_looks_anew();
        self.ring.look()
    }
}

impl Mail for PauseMail<'_> {
    ghost looks = { λ mail. mail.looked };

    ghost pauses = { λ mail. mail.paused };

    ghost plan = { λ _. None };

    ghost deals = { λ _. false };

    #[inline(always)]
    fn look(&mut self) -> Option<Control> {
        self.looked += 1;
        if self.signals.is_pausing() {
            self.paused += 1;
            Some(Control::Pause)
        } else {
            None
        }
    }

    #[inline(always)]
    fn may_deal(&self) -> bool {
        false
    }

    #[inline(always)]
    fn is_heard(&self) -> bool {
        false
    }

    #[inline(always)]
    fn note(&mut self, _note: Note) {}
}
