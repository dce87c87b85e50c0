//! What all threads of a round see: how many drivers have come home or rest, and whether all workers are to pause. Rests on the
//! atomics of std. No clause says when a thread sees what another has done.

use std::sync::atomic::{AtomicBool, AtomicUsize, Ordering};

/// The signals of a round.
#[derive(Drop)]
pub(crate) struct Signals {
    drivers: usize,
    home: AtomicUsize,
    resting: AtomicUsize,
    pause: AtomicBool,
}

impl Signals {
    /// So many drivers are out, none of them rests, and nobody is to pause.
    pub fn new(drivers: usize) -> Signals {
        Signals {
            drivers,
            home: AtomicUsize::new(0),
            resting: AtomicUsize::new(0),
            pause: AtomicBool::new(false),
        }
    }

    /// A driver has come home.
    pub fn come_home(&self) {
        self.home.fetch_add(1, Ordering::SeqCst);
    }

    /// Whether so many drivers have.
    pub fn have_come_home(&self, drivers: usize) -> bool {
        drivers <= self.home.load(Ordering::SeqCst)
    }

    // Whether none of the drivers moves: each has come home, or rests.
    fn do_all_rest(&self) -> bool {
        let home = self.home.load(Ordering::SeqCst);
        let resting = self.resting.load(Ordering::SeqCst);
        self.drivers <= home.saturating_add(resting)
    }

    /// All workers are to pause.
    pub fn pause(&self) {
        self.pause.store(true, Ordering::SeqCst);
    }

    /// Whether they are.
    #[inline(always)]
    pub fn is_pausing(&self) -> bool {
        self.pause.load(Ordering::SeqCst)
    }
}

/// A driver that rests as long as it moves nothing: for how many looks it has, 0 where it does not rest.
#[derive(Drop)]
pub(crate) struct Rest<'a> {
    signals: &'a Signals,
    looks: u32,
}

impl<'a> Rest<'a> {
    /// A driver that does not rest.
    pub fn new(signals: &'a Signals) -> Rest<'a> {
        Rest { signals, looks: 0 }
    }

    /// It has moved nothing. The answer is for how many looks it has rested.
    pub fn look(&mut self) -> u32 {
        if self.looks == 0 {
            self.signals.resting.fetch_add(1, Ordering::SeqCst);
        }
        self.looks = self.looks.saturating_add(1);
        self.looks
    }

    /// It goes on, or comes home.
    pub fn end(&mut self) {
        if 0 < self.looks {
            self.signals.resting.fetch_sub(1, Ordering::SeqCst);
        }
        self.looks = 0;
    }

    /// Whether all drivers rest, this one for more than so many looks.
    pub fn is_over(&self, looks: u32) -> bool {
        looks < self.looks && self.signals.do_all_rest()
    }
}
