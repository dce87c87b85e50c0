//! What a seat knows of the ledger. No value of a view is ever made: contracts alone read it.

use std::collections::LinkedList;

/// Whose seat it is.
pub enum Role {
    /// The one who divides the units.
    Chief,
    /// The worker of this number.
    Worker(u32),
    /// A worker's seat that the chief took in.
    Spent,
}

/// One step on a word of the board, and for which worker it was made.
pub enum Step {
    /// The chief made the seat of this worker.
    Split(u32),
    /// The chief took the unassigned units.
    Draw,
    /// The chief allotted this many units to this worker.
    Grant(u32, u64),
    /// The chief made its hand unassigned.
    PutBack,
    /// The chief took back what this worker had not claimed.
    Sweep(u32),
    /// The chief saw this worker's count.
    Watch(u32),
    /// The chief took in this worker's seat.
    Join(u32),
    /// This worker claimed its allotment.
    Claim(u32),
    /// This worker counted a unit.
    Count(u32),
    /// This worker made its hand unassigned.
    GiveBack(u32),
}

/// How many units a worker had counted when its seat was taken in.
pub struct Kept {
    /// The worker's number.
    pub worker: u32,
    /// The units that it had counted.
    pub count: u64,
}

/// What one seat knows.
pub struct View {
    /// Whose seat it is.
    pub role: Role,
    /// The units in the seat's hand.
    pub hand: u64,
    /// The units that this seat counted. It is 0 in the chief's view.
    pub mine: u64,
    /// The chief's: what all units add up to.
    pub target: u64,
    /// The chief's: how many workers' seats were made.
    pub made: u32,
    /// The chief's: for each worker the count that it saw last.
    pub seen: LinkedList<u64>,
    /// The chief's: the workers whose seats it took in, the last one first.
    pub kept: LinkedList<Kept>,
    /// Each step that this seat made, the last one first.
    pub done: LinkedList<Step>,
}

/// What a board is made for.
#[derive(Clone, Copy)]
pub struct Terms {
    /// What all units add up to.
    pub target: u64,
    /// How many workers there are.
    pub workers: u32,
}
