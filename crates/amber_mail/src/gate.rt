//! Gates: what each turn of a worker passes. No contract speaks of what they do: only that a pass
//! is safe and returns. Rests on the atomics of std.

use std::sync::atomic::{AtomicBool, Ordering};
use std::thread::yield_now;

/// What a worker passes before each turn. It promises nothing: a gate may hold a thread for a
/// while.
pub trait Gate {
    /// `who` is the worker's running number, and `turn` the turns that it made since its leg began.
    fn pass(&self, who: u32, turn: u64);
}

/// A gate at which nobody waits.
#[derive(Clone, Copy)]
pub struct OpenGate;

impl Gate for OpenGate {
    #[inline(always)]
    fn pass(&self, _who: u32, _turn: u64) {}
}

// One of the two whom a `MeetGate` has meet.
#[derive(Drop)]
struct Guest {
    who: u32,
    came: AtomicBool,
    left: AtomicBool,
}

impl Guest {
    fn new(who: u32) -> Guest {
        Guest {
            who,
            came: AtomicBool::new(false),
            left: AtomicBool::new(false),
        }
    }
}

/// A gate for tests, at which the first pass of each of two workers waits until the other's has
/// begun. Every wait has a limit, so that each pass returns, and every other pass returns at once.
/// That a pass is safe and returns is proved; for whom it waits is only tested.
#[derive(Drop)]
pub struct MeetGate {
    one: Guest,
    other: Guest,
    limit: u64,
}

impl MeetGate {
    /// For the workers `a` and `b`. A wait looks at most `limit` times for the other. Where both
    /// are one worker, nobody meets.
    pub fn new(a: u32, b: u32, limit: u64) -> MeetGate {
        MeetGate {
            one: Guest::new(a),
            other: Guest::new(b),
            limit,
        }
    }

    /// Whether each of the two has made its first pass, and found the other within the limit. No
    /// contract speaks of the answer.
    pub fn met(&self) -> bool {
        self.one.left.load(Ordering::SeqCst) && self.other.left.load(Ordering::SeqCst)
    }

    // A pass of `guest`, which waits where it is the first. One that reaches the limit never counts
    // as having left.
    fn meet(&self, guest: &Guest, host: &Guest) {
        if guest.came.swap(true, Ordering::SeqCst) {
            return;
        }
        for _ in 0..self.limit {
            if host.came.load(Ordering::SeqCst) {
                guest.left.store(true, Ordering::SeqCst);
                return;
            }
            yield_now();
        }
    }
}

impl Gate for MeetGate {
    fn pass(&self, who: u32, _turn: u64) {
        if who == self.one.who {
            self.meet(&self.one, &self.other);
        } else if who == self.other.who {
            self.meet(&self.other, &self.one);
        }
    }
}
