//! Where a run is: at rest, within a leg, with its workers here or away, over, or spent.

ghost use Rattle.std.specs.Prelude.{◌≡◌};
ghost use Rattle.amber_home.specs.HomeState.{is_open, runs_to_end};

/// How the counts of a leg stand.
#[derive(Clone, Copy, PartialEq, Eq)]
pub enum Counts {
    /// No count has its board yet.
    Unarmed,
    /// Each count that is in force is counted on a board, on which each worker of its operator has a seat.
    Armed,
    /// The boards are closed, and no hand holds a unit.
    Disarmed,
}

/// Where a run is.
#[derive(Clone, Copy, PartialEq, Eq)]
pub enum Phase {
    /// At rest between two commands.
    Resting,
    /// Within a leg, up to a stop or to the end.
    Open { to_end: bool, counts: Counts },
    /// Within a leg whose workers are away; its counts are armed.
    Lent { to_end: bool },
    /// Within a leg whose workers have come back, with batches that are still on their way from one to another.
    Unsettled { to_end: bool },
    /// Within a leg of a log that is done again, part by part. Whether every hand is empty so far.
    Redoing { to_end: bool, empty: bool },
    /// The workers were asked to give their answer away, and are no longer there.
    Over,
    /// Memory ran out inside a leg, and nothing can follow.
    Spent,
}

impl Phase {
    // Whether a leg is open.
    pub(crate) fn is_open(self) -> bool
        ensures { result ≡ is_open self }
    {
        matches!(self, Phase::Open { .. })
    }

    // Whether it is within a leg that is one to the end.
    pub(crate) fn runs_to_end(self) -> bool
        ensures { result ≡ runs_to_end self }
    {
        match self {
            Phase::Open { to_end, .. } | Phase::Lent { to_end } => to_end,
            Phase::Unsettled { to_end } | Phase::Redoing { to_end, .. } => to_end,
            Phase::Resting | Phase::Over | Phase::Spent => false,
        }
    }
}
