//! The workers of a leg with the boards of its counts and their chiefs, while they are away from their home. Over `Worker` and
//! `LentBoards`.

use amber_board::ChiefSeat;
use amber_boards::LentBoards;
use amber_worker::Worker;

/// The workers of a leg, in the order of their numbers, the boards of the counts that are armed in it, and the seats of the
/// chiefs of these boards: by the numbers of the operators, none where an operator has no board.
#[derive(Drop)]
pub struct Crew {
    pub workers: Vec<Worker>,
    pub boards: LentBoards,
    pub chiefs: Vec<Option<ChiefSeat>>,
}
