//! The way back of a link: lists of rows that the receiver is done with, for the sender to write over. What they hold
//! means nothing, so nothing is said of them: every end of a way back looks the same. Rests on the ring of `rtrb`.

use amber_rows::Row;
use rtrb::{Consumer, Producer, RingBuffer};
use std::alloc::{AllocError, Global};
use std::marker::Model;

/// The end of a way back into which lists are given.
pub struct Giver {
    ring: Producer<Vec<Row>>,
}

impl Drop for Giver {
    fn drop(self) {
        let Giver { ring: _ } = self;
    }
}

impl Model for Giver {
    ghost Value = { Unit {0} };

    ghost view = { λ _. tt };
}

/// The end of a way back out of which lists are taken.
pub struct Getter {
    ring: Consumer<Vec<Row>>,
}

impl Drop for Getter {
    fn drop(self) {
        let Getter { ring: _ } = self;
    }
}

impl Model for Getter {
    ghost Value = { Unit {0} };

    ghost view = { λ _. tt };
}

/// A way back that holds so many lists at most.
pub(crate) fn way_back(alloc: Global, slots: usize) -> Result<(Giver, Getter), AllocError> {
    let (producer, consumer) = RingBuffer::new(alloc, slots)?;
    Ok((Giver { ring: producer }, Getter { ring: consumer }))
}

impl Giver {
    /// Gives a list back, and drops it where there is no slot.
    pub(crate) fn give(&mut self, rows: Vec<Row>) {
        if !self.ring.is_full() {
            self.ring.push_reserved(rows);
        }
    }
}

impl Getter {
    /// The list that was given back first, if one is there.
    pub(crate) fn get(&mut self) -> Option<Vec<Row>> {
        self.ring.pop().ok()
    }
}
