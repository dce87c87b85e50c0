//! Mails whose answers are known before: one that follows a plan, and one that never says anything.
//! Both drop every note. Rests on the definitions of `specs/Controls`.

ghost use Rattle.std.specs.Prelude.{◌≡◌, ◌≤◌, Some, [], false, true};
ghost use Rattle.amber_mail.specs.Controls.{answer_at};

use crate::mail::{Control, Mail, Note, is_pause};
use std::marker::Model;

/// What looks are to be answered by, from the first on. It is seen as that list.
#[derive(Drop)]
pub struct Plan {
    answers: Vec<Option<Control>>,
}

impl Model for Plan {
    ghost use Rattle.std.specs.Prelude.{List, Option};
    ghost use Rattle.amber_mail.specs.declared.mail.Control.{Control};

    ghost Value = { List (Option Control) };

    ghost view = { λ plan. plan.answers.items };
}

impl Plan {
    /// The plan of these answers.
    pub fn new(inner: Vec<Option<Control>>) -> Plan
        ensures { result ≡ inner.items }
    {
        Plan { answers: inner }
    }

    // What the look is answered by before which so many were made.
    fn answer_at(&self, made: usize) -> Option<Control>
        ensures { result ≡ answer_at self.now made }
    {
        match self.answers.get(made) {
            Some(answer) => *answer,
            None => None,
        }
    }
}

/// A mail whose looks are answered as a plan says, and past its end by nothing. For tests, and for
/// a worker that is driven alone.
#[derive(Drop)]
pub struct PlannedMail {
    plan: Plan,
    looked: usize,
    paused: usize,
    ghost within: { paused ≤ looked },
}

impl PlannedMail {
    /// A mail at which no look was made.
    pub fn new(plan: Plan) -> PlannedMail
        ensures plan { ⟦<PlannedMail as Mail>⟧.plan result ≡ Some plan }
        ensures looks { ⟦<PlannedMail as Mail>⟧.looks result ≡ 0 }
        ensures pauses { ⟦<PlannedMail as Mail>⟧.pauses result ≡ 0 }
    {
        PlannedMail {
            plan,
            looked: 0,
            paused: 0,
        }
    }
}

impl Mail for PlannedMail {
    ghost looks = { λ mail. mail.looked };

    ghost pauses = { λ mail. mail.paused };

    ghost plan = { λ mail. Some mail.plan };

    ghost deals = { λ _. true };

    fn look(&mut self) -> Option<Control> {
        let answer = self.plan.answer_at(self.looked);
        self.looked += 1;
        if is_pause(answer) {
            self.paused += 1;
        }
        answer
    }

    fn may_deal(&self) -> bool {
        true
    }

    fn is_heard(&self) -> bool {
        false
    }

    fn note(&mut self, _note: Note) {}
}

/// A mail that never says anything. It takes no memory.
#[derive(Clone, Copy)]
pub struct SilentMail {
    looked: u64,
}

impl SilentMail {
    /// A mail at which no look was made.
    #[inline(always)]
    pub fn new() -> SilentMail
        ensures plan { ⟦<SilentMail as Mail>⟧.plan result ≡ Some [] }
        ensures looks { ⟦<SilentMail as Mail>⟧.looks result ≡ 0 }
        ensures pauses { ⟦<SilentMail as Mail>⟧.pauses result ≡ 0 }
    {
        SilentMail { looked: 0 }
    }
}

impl Mail for SilentMail {
    ghost looks = { λ mail. mail.looked };

    ghost pauses = { λ _. 0 };

    ghost plan = { λ _. Some [] };

    ghost deals = { λ _. false };

    #[inline(always)]
    fn look(&mut self) -> Option<Control> {
        self.looked += 1;
        None
    }

    #[inline(always)]
    fn may_deal(&self) -> bool {
        false
    }

    #[inline(always)]
    fn is_heard(&self) -> bool {
        false
    }

    #[inline(always)]
    fn note(&mut self, _note: Note) {}
}
