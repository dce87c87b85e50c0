//! What a count asks for. It rests on nothing.

ghost use Rattle.std.specs.Prelude.{◌≡◌, ◌+◌, ◌-◌, ◌==◌, ◌≤◌};

/// How many rows a count asks for, and how many rows its operator had emitted when it was armed.
#[derive(Clone, Copy)]
pub struct Target {
    pub target: u64,
    pub since: u64,
}

impl Target {
    /// Whether it has counted just what it asks for, where so many rows were emitted.
    pub fn is_reached(self, rows: u64) -> bool
        ensures { result ≡ (rows == self.target + self.since) }
    {
        self.since <= rows && rows - self.since == self.target
    }

    /// How many rows are left to it, where so many were emitted.
    pub fn left(self, rows: u64) -> u64
        requires since { self.since ≤ rows }
        requires within { rows ≤ self.target + self.since }
        ensures { result ≡ self.target + self.since - rows }
    {
        self.target - (rows - self.since)
    }
}
