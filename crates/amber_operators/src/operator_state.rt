//! What a worker keeps for its operator. Rests on the states of `amber_ops`, `amber_join` and `amber_group`.

use amber_group::GroupState;
use amber_join::JoinState;
use amber_ops::{FilterState, ProjectState};

/// What a worker does with a row that suits its columns.
pub enum OperatorState {
    /// Passes it on.
    Scan,
    /// Passes it on where the condition holds.
    Filter(FilterState),
    /// Gives a row of these columns alone.
    Project(ProjectState),
    /// Keeps it if it is of the build side; else gives it before each build row with equal keys.
    Join(JoinState),
    /// Feeds it to its groups, whose rows it gives at the end.
    Group(GroupState),
    /// Keeps it for the answer.
    Sink,
}

impl Drop for OperatorState {
    fn drop(self) {
        match self {
            OperatorState::Scan => {}
            OperatorState::Filter(_) => {}
            OperatorState::Project(_) => {}
            OperatorState::Join(_) => {}
            OperatorState::Group(_) => {}
            OperatorState::Sink => {}
        }
    }
}
