//! What a drive of a worker comes to, and what it notes for whoever hears of it. Over `Turn`, and `Mail` of `amber_mail`.

ghost use Rattle.std.specs.Prelude.{◌≡◌};
ghost use Rattle.amber_worker.specs.Driving.{stops};

use crate::turn::Turn;
use amber_mail::{Mail, Note};

/// What a drive of a worker came to.
#[derive(Clone, Copy, PartialEq, Eq)]
pub struct Drove {
    /// How many turns were made.
    pub turns: u32,
    /// What the last of them came to; nothing where none was made.
    pub last: Option<Turn>,
}

// Whether no other turn is made after such a one.
#[inline(always)]
pub(crate) fn stops(turn: Turn) -> bool
    ensures { result ≡ stops turn }
{
    match turn {
        Turn::Held | Turn::Paused | Turn::Ended => true,
        Turn::Moved | Turn::Idle | Turn::Starved => false,
    }
}

// What was noted already in a drive. Notes are hints, of which nothing is said.
pub(crate) struct Noted {
    starved: bool,
    finished: bool,
    emitted: u64,
}

impl Drop for Noted {
    fn drop(self) {
        let Noted {
            starved: _,
            finished: _,
            emitted: _,
        } = self;
    }
}

impl Noted {
    // Nothing was noted, and so many rows had been emitted.
    #[inline(always)]
    pub fn nothing(emitted: u64) -> Noted {
        Noted {
            starved: false,
            finished: false,
            emitted,
        }
    }

    // Notes what a turn came to: that the worker is held or has finished, that it has no unit, once until it has one
    // again, and how many rows it has emitted where that is a power of two or a multiple of 64.
    #[inline(always)]
    pub fn note<M: Mail>(&mut self, mail: &mut M, turn: Turn, finished: bool, emitted: u64)
        ensures looks { M.looks mail.new ≡ M.looks mail.old }
        ensures pauses { M.pauses mail.new ≡ M.pauses mail.old }
        ensures plan { M.plan mail.new ≡ M.plan mail.old }
    {
        if !mail.is_heard() {
            return;
        }
        let starved = turn == Turn::Starved;
        if starved != self.starved {
            mail.note(if starved { Note::Starved } else { Note::Able });
            self.starved = starved;
        }
        if emitted != self.emitted {
            self.emitted = emitted;
            if emitted % 64 == 0 || emitted.is_power_of_two() {
                mail.note(Note::Emitted(emitted));
            }
        }
        if turn == Turn::Held {
            mail.note(Note::Held);
        }
        if finished && !self.finished {
            self.finished = true;
            mail.note(Note::Finished);
        }
    }
}
