//! Boards that are away, while others have the seats of their chiefs. Over `Counter` of `counter`.

ghost use Rattle.std.specs.Prelude.{None, ◌≡◌, option_map, slice_index_or};
ghost use Rattle.amber_boards.specs.Boards.{board_at};

use crate::counter::{Counter, find_board};
use crate::target::Target;
use amber_board::Board;
use std::alloc::Global;
use std::marker::Model;

/// The boards of a leg without the seats of their chiefs, seen as `Boards` are.
#[derive(Drop)]
pub struct LentBoards {
    pub(crate) alloc: Global,
    pub(crate) counters: Vec<Option<Counter>>,
    // What their counts ask for.
    pub(crate) targets: Vec<Option<Target>>,
}

impl Model for LentBoards {
    ghost use Rattle.std.specs.Prelude.{List, Option};
    ghost use Rattle.amber_boards.specs.Boards.{CounterState, KeepsTargets};

    ghost Value = { List (Option CounterState) };

    ghost view = { λ a. a.counters.items };

    ghost invariant = { λ a. KeepsTargets a.targets.items a.counters.items };
}

impl LentBoards {
    /// The board of an operator's count, where there is one.
    pub fn board_at(&self, op: u32) -> Option<&Board>
        ensures { option_map (λ board. board.now) result
            ≡ option_map (λ counter. counter.board) (board_at self.now op) }
    {
        find_board(self.counters.as_slice(), op)
    }

    /// The board at a place among those of all operators, which is one less than its operator's number, where there is one.
    pub fn board_in(&self, place: usize) -> Option<&Board>
        ensures { option_map (λ board. board.now) result
            ≡ option_map (λ counter. counter.board) (slice_index_or self.now place None) }
    {
        match self.counters.get(place) {
            Some(Some(counter)) => Some(counter.board()),
            Some(None) | None => None,
        }
    }
}
