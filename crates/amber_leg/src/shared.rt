//! What the drivers of a round share. Over `Budget` and `Signals`.

use crate::budget::Budget;
use crate::signals::Signals;
use amber_board::Board;
use amber_mail::Gate;

/// What the drivers of a round share, whichever threads they are on.
#[derive(Drop)]
pub(crate) struct Shared<'a, G: Gate> {
    /// The boards of the workers' operators, by the workers' numbers.
    pub boards: &'a [Option<&'a Board>],
    /// Those of all operators, in the places of their chiefs.
    pub all: &'a [Option<&'a Board>],
    /// What is passed before each turn.
    pub gate: &'a G,
    pub budget: Budget,
    pub signals: Signals,
}
