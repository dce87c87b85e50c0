//! The gate of a session's workers: it holds nobody, and tells now and then that they are at work. Rests on `Screen`.

use amber_mail::Gate;
use amber_terminal::Screen;

// After so many turns of a worker it is told that it is at work.
const TURNS: u64 = 1 << 21;

/// A gate at which nobody waits.
#[derive(Drop)]
pub(crate) struct WorkGate<'a, 'r, R> {
    screen: &'a Screen<'r, R>,
}

impl<'a, 'r, R> WorkGate<'a, 'r, R> {
    /// A gate that tells on this screen.
    pub fn new(screen: &'a Screen<'r, R>) -> WorkGate<'a, 'r, R> {
        WorkGate { screen }
    }
}

impl<R: Eprint> Gate for WorkGate<'_, '_, R> {
    #[inline(always)]
    fn pass(&self, _who: u32, turn: u64) {
        if turn % TURNS == TURNS - 1 {
            self.screen.tell_work();
        }
    }
}
