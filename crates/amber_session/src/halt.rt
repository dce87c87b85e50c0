//! Why a session ended early. Rests on `Failure` and on `InputFault`.

ghost use Rattle.std.specs.Prelude.{◌≡◌};

use amber_course::{Failure, InputFault};

/// Why a session ended early: a failure that has its own line, or a fault of the input.
#[derive(Drop)]
pub enum Halt {
    Failure(Failure),
    Input(InputFault),
}

impl From<Failure> for Halt {
    ghost use Rattle.amber_session.specs.declared.halt.Halt.TheVariants as halt;

    ghost from_gives = { λ failure h. h ≡ halt.Failure failure };

    fn from(failure: Failure) -> Halt {
        Halt::Failure(failure)
    }
}
