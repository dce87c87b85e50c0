//! The flags that hold a worker back, or let it on: held, waved on, paused.

ghost use Rattle.std.specs.Prelude.{◌≡◌, ℕ};
ghost use Rattle.amber_meaning.specs.State.{restraint_released};
ghost use Rattle.amber_worker.specs.Fields.{no_flags, restraint_of};

// Whether a worker stands before a row that meets its operator's condition, whether it may emit the
// next row although it meets the condition, and whether it is paused.
#[derive(Clone, Copy)]
pub(crate) struct Flags {
    pub held: bool,
    pub waved: bool,
    pub paused: bool,
}

impl Flags {
    // No flag is raised.
    pub fn lowered() -> Flags
        ensures { result ≡ no_flags }
    {
        Flags {
            held: false,
            waved: false,
            paused: false,
        }
    }

    // A leg begins: pauses end, and a held row may go.
    pub fn release(&mut self)
        ensures { (hand : ℕ) → restraint_of hand self.new ≡ restraint_released (restraint_of hand self.old) }
    {
        *self = Flags {
            held: false,
            waved: self.held || self.waved,
            paused: false,
        };
    }
}
