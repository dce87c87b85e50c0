//! What one call of `turn` of a worker comes to.

/// What a turn of a worker came to.
#[derive(Clone, Copy, PartialEq, Eq)]
pub enum Turn {
    /// It did one step: it took a row or a batch, emitted a row, or finished.
    Moved,
    /// It can do nothing until a batch comes.
    Idle,
    /// A count is armed, and it has no unit for what comes next.
    Starved,
    /// It stands before a row that meets its operator's condition.
    Held,
    /// It is paused.
    Paused,
    /// It had finished before.
    Ended,
}
