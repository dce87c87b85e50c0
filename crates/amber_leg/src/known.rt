//! What the coordinator of a round knows of one worker, and what it has yet to tell it. Over what `Worker` tells of itself, and
//! `Post` of `amber_mail`. What is known is what was seen or noted: hints, on which no clause rests.

use amber_mail::{Control, Note, Post};
use amber_principal::Need;
use amber_worker::Worker;

// How many notes of a worker are heard before those of the next one.
const NOTES: u32 = 64;

// What a worker has yet to be told.
#[derive(Clone, Copy)]
struct Unsent {
    give: bool,
    claim: bool,
}

/// What is known of a worker, and what it has yet to be told.
#[derive(Clone, Copy)]
pub(crate) struct Known {
    pub op: u32,
    /// How many rows it has emitted.
    pub emitted: u64,
    pub need: Need,
    /// Whether it is held before a row.
    pub held: bool,
    // Whether it was asked to give its units back, and has not been told to claim since.
    asked: bool,
    unsent: Unsent,
}

impl Known {
    /// What is known of a worker before its first turn of a round.
    pub fn new(worker: &Worker) -> Known {
        Known {
            op: worker.op(),
            emitted: worker.emitted(),
            need: if worker.is_finished() {
                Need::Finished
            } else {
                Need::Able
            },
            held: worker.is_held(),
            asked: false,
            unsent: Unsent {
                give: false,
                claim: false,
            },
        }
    }

    fn take_in(&mut self, note: Note) {
        match note {
            Note::Starved => self.need = Need::Starved,
            Note::Able => self.need = Need::Able,
            Note::Held => self.held = true,
            Note::Emitted(rows) => self.emitted = rows,
            Note::Finished => self.need = Need::Finished,
        }
    }

    /// Sees how the worker stands.
    pub fn see(&mut self, worker: &Worker) {
        self.emitted = worker.emitted();
        self.held = worker.is_held();
        self.need = if worker.is_finished() {
            Need::Finished
        } else if worker.needs_unit() {
            Need::Starved
        } else {
            Need::Able
        };
    }

    /// Hears what the worker has noted. The answer is whether it has noted anything.
    pub fn hear(&mut self, post: &mut Post) -> bool {
        let mut any = false;
        'notes: for _ in 0..NOTES {
            let Some(note) = post.hear() else {
                return any;
            };
            any = true;
            self.take_in(note);
        }
        any
    }

    /// It is to give its units back, where it was not asked already.
    pub fn ask_back(&mut self) {
        if !self.asked {
            self.asked = true;
            self.unsent.give = true;
        }
    }

    /// It is to claim what it was granted: then it has units.
    pub fn let_claim(&mut self) {
        self.asked = false;
        self.unsent.claim = true;
        self.need = Need::Able;
    }

    /// What the worker is to be told next, if anything, which is told then: to give its units back comes before a claim.
    pub fn take_control(&mut self) -> Option<Control> {
        if self.unsent.give {
            self.unsent.give = false;
            return Some(Control::Return);
        }
        if self.unsent.claim {
            self.unsent.claim = false;
            return Some(Control::Claim);
        }
        None
    }

    /// It is to be told this again, since its mail had no room for it.
    pub fn keep_control(&mut self, control: Control) {
        match control {
            Control::Pause => {}
            Control::Claim => self.unsent.claim = true,
            Control::Return => self.unsent.give = true,
        }
    }
}
