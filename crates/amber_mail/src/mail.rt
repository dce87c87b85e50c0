//! What a worker is told, what it says, and where it looks. Rests on nothing but the definitions of
//! `specs/Controls`.

ghost use Rattle.std.specs.Prelude.{◌≡◌, ◌+◌, ◌<◌, ◌^◌, ℕ, Bool, List, None, Option, IfSome, false, if◌then◌else◌};
ghost use Rattle.amber_mail.specs.Controls.{answer_at, is_pause};

/// What a coordinator tells a worker.
#[derive(Clone, Copy, PartialEq, Eq)]
pub enum Control {
    /// To stand still.
    Pause,
    /// To claim what was allotted to it of a count.
    Claim,
    /// To give its whole hand of units back.
    Return,
}

/// What a worker says to the coordinator. It is a hint: no clause rests on its truth.
#[derive(Clone, Copy, PartialEq, Eq)]
pub enum Note {
    /// It has no unit left and could do with some.
    Starved,
    /// It can go on with what it has.
    Able,
    /// It stands still.
    Held,
    /// It emitted so many rows.
    Emitted(u64),
    /// It will make no turn any more.
    Finished,
}

/// Where a worker looks for a control before each turn, and where it leaves its notes.
pub trait Mail {
    ghost use Rattle.amber_mail.specs.declared.mail.Control.{Control};

    // How many looks were made.
    ghost looks: { Self → ℕ };

    // How many of them were answered by a pause.
    ghost pauses: { Self → ℕ };

    // The answers of all looks from the first on, where they are told. After the last of them there
    // is no control.
    ghost plan: { Self → Option (List (Option Control)) };

    // Whether a look may be answered by a claim or a return.
    ghost deals: { Self → Bool };

    /// The next control, if there is one.
    fn look(&mut self) -> Option<Control>
        requires { looks self.old + 1 < 2 ^ 64 }
        ensures looks { looks self.new ≡ looks self.old + 1 }
        ensures pauses { pauses self.new
            ≡ (if is_pause result then pauses self.old + 1 else pauses self.old) }
        ensures plan { plan self.new ≡ plan self.old }
        ensures planned { IfSome (plan self.old)
            (λ answers. result ≡ answer_at answers (looks self.old)) }
        ensures plain { deals self.old ≡ false → is_pause result ≡ false → result ≡ None };

    /// Whether a look may be answered by a claim or a return. Where it may not no turn deals with units.
    fn may_deal(&self) -> bool
        ensures { result ≡ deals self.now };

    /// Whether somebody may hear its notes. Where nobody does none needs to be made.
    fn is_heard(&self) -> bool;

    /// Hands a note on, or drops it where there is no room.
    fn note(&mut self, note: Note)
        ensures looks { looks self.new ≡ looks self.old }
        ensures pauses { pauses self.new ≡ pauses self.old }
        ensures plan { plan self.new ≡ plan self.old };
}

/// Whether a look was answered by a pause.
#[inline]
pub fn is_pause(answer: Option<Control>) -> bool
    ensures { result ≡ is_pause answer }
{
    match answer {
        Some(Control::Pause) => true,
        Some(Control::Claim | Control::Return) => false,
        None => false,
    }
}
