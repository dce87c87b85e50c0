//! What was read of a log's text, and where its reader stands. Rests on `Items`, `Parts` and `Entries`.

use crate::entry::Entries;
use crate::leg::Parts;
use crate::log::Items;

/// Where a reader of a log's text stands.
#[derive(Drop)]
pub enum Place {
    /// After the head or an item, and another item may follow.
    Outside,
    /// After the last item.
    Over,
    /// After the line that opens a leg, whether or not to the end of the workflow.
    Opened {
        end: bool,
    },
    /// Inside a worker's part of a leg, after the parts of other workers and some entries of its own;
    /// `gone` says whether the last of these takes or emits rows.
    Inside {
        end: bool,
        parts: Parts,
        worker: u32,
        entries: Entries,
        gone: bool,
    },
}

/// What was read of a log's text so far.
#[derive(Drop)]
pub struct Reading {
    pub batch: u32,
    pub items: Items,
    pub place: Place,
}
