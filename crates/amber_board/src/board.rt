//! How a board is made, with all its seats, and how it is closed. Rests on the steps of `kinds` and the words
//! of `words`.

ghost use Rattle.std.specs.Prelude.{◌≡◌, ◌+◌, ◌^◌, ◌<◌, ◌≤◌, ◌==◌, if◌then◌else◌, [], All, IfOk, length, sum, sum_by, vec_len};
ghost use Rattle.amber_board.specs.declared.TheConstants.{LARGEST_TARGET, MOST_WORKERS};
ghost use Rattle.amber_board.specs.declared.view.Role.TheVariants.{Chief};
ghost use Rattle.amber_board.specs.Ledger.{first_view};
ghost use Rattle.amber_board.specs.Moves.{after_split, new_seat, after_join};
ghost use Rattle.amber_board.specs.Opening.{AreDealt, IsMade, all_unassigned, all_with, splits_after};
ghost use Rattle.amber_board.specs.Seats.{IsChiefOf, IsSeatOf, chief_view, work_view, target_of, board_workers};

use crate::kinds::{TakeIn, WithHand, WithNothing};
use crate::types::{Board, ChiefSeat, Totals, WorkSeat};
use crate::view::{Terms, View};
use crate::words::{PLACES, UNASSIGNED, WORDS};
use crate::{LARGEST_TARGET, MOST_WORKERS, NoMemory};
use atomic_table::{Seat, Table};
use std::alloc::Global;

impl Board {
    /// A board with all units unassigned, its chief's seat, and the workers' seats in the order of their numbers.
    /// `target` is 1 to 2^40, and `workers` 1 to 16.
    pub fn new(
        alloc: Global,
        target: u64,
        workers: u32,
    ) -> Result<(Board, ChiefSeat, Vec<WorkSeat>), NoMemory>
        requires target { (1 ≤ target) × (target ≤ LARGEST_TARGET) }
        requires workers { (1 ≤ workers) × (workers ≤ MOST_WORKERS) }
        ensures { IfOk result
            (λ made. IsMade made.0 made.1 made.2.items (all_unassigned target workers)) }
    {
        let (board, mut chief) = Board::open(alloc, target, workers)?;
        let seats = board.deal(alloc, &mut chief, workers, 0)?;
        Ok((board, chief, seats))
    }

    /// The same with all units in the hand of `worker`, which is one of the workers.
    pub fn for_one(
        alloc: Global,
        target: u64,
        workers: u32,
        worker: u32,
    ) -> Result<(Board, ChiefSeat, Vec<WorkSeat>), NoMemory>
        requires target { (1 ≤ target) × (target ≤ LARGEST_TARGET) }
        requires workers { (1 ≤ workers) × (workers ≤ MOST_WORKERS) }
        requires worker { worker < workers }
        ensures { IfOk result
            (λ made. IsMade made.0 made.1 made.2.items (all_with worker target workers)) }
    {
        let (board, mut chief) = Board::open(alloc, target, workers)?;
        chief.take_unassigned(&board);
        let seats = board.deal(alloc, &mut chief, workers, worker)?;
        Ok((board, chief, seats))
    }

    // The board and its chief, before there is a worker's seat.
    fn open(alloc: Global, target: u64, workers: u32) -> Result<(Board, ChiefSeat), NoMemory>
        requires target { target ≤ LARGEST_TARGET }
        requires workers { workers ≤ MOST_WORKERS }
        ensures { IfOk result (λ made. (target_of made.0 ≡ target)
            × (board_workers made.0 ≡ workers)
            × (made.1.seat.table_id ≡ made.0.table.shared.table_id)
            × (chief_view made.1 ≡ first_view made.0.table.shared.key)) }
    {
        let mut words = [0u64; WORDS];
        words[0] = target;
        words[UNASSIGNED] = target;
        let (table, seat) = Table::of_words(alloc, &words, &Terms { target, workers })?;
        let chief = ChiefSeat {
            seat,
            hand: 0,
            target,
            workers: 0,
            seen: [0; PLACES],
        };
        Ok((Board { table }, chief))
    }

    // The workers' seats. The one at `favoured` takes what the chief has in hand.
    #[tactic(auto, using(crate::proofs::Splits::splits_none))]
    fn deal(
        &self,
        alloc: Global,
        chief: &mut ChiefSeat,
        workers: u32,
        favoured: u32,
    ) -> Result<Vec<WorkSeat>, NoMemory>
        requires table { chief.old.seat.table_id ≡ self.now.table.shared.table_id }
        requires workers { (workers ≡ board_workers self.now) × (workers ≤ MOST_WORKERS) }
        requires favoured { favoured < workers }
        requires none { (chief_view chief.old).made ≡ 0 }
        ensures table { chief.new.seat.table_id ≡ chief.old.seat.table_id }
        ensures chief { IfOk result
            (λ _. ((chief_view chief.new).target ≡ (chief_view chief.old).target)
            × ((chief_view chief.new).seen ≡ (chief_view chief.old).seen)
            × ((chief_view chief.new).made ≡ workers) × ((chief_view chief.new).hand ≡ 0)) }
        ensures did { IfOk result
            (λ _. (chief_view chief.new).done ≡ splits_after (chief_view chief.old).done workers) }
        ensures all { IfOk result (λ seats. vec_len seats ≡ workers) }
        ensures seats { IfOk result
            (λ seats. AreDealt self.now seats.items
            (λ w. if w == favoured then (chief_view chief.old).hand else 0)) }
    {
        let mut seats = Vec::new(alloc);
        for number in 0..workers {
            seats.push(self.next_seat(chief, number == favoured))?;
        }
        Ok(seats)
    }

    // The seat of the next worker, with what the chief has in hand or with nothing.
    fn next_seat(&self, chief: &mut ChiefSeat, with_hand: bool) -> WorkSeat
        requires table { chief.old.seat.table_id ≡ self.now.table.shared.table_id }
        requires room { ((chief_view chief.old).made < board_workers self.now)
            × ((chief_view chief.old).made < MOST_WORKERS) }
        ensures table { (chief.new.seat.table_id ≡ chief.old.seat.table_id)
            × (result.seat.table_id ≡ chief.old.seat.table_id) }
        ensures chief { chief_view chief.new
            ≡ after_split (chief_view chief.old)
            (if with_hand then 0 else (chief_view chief.old).hand) }
        ensures seat { work_view result
            ≡ new_seat (chief_view chief.old).made
            (if with_hand then (chief_view chief.old).hand else 0) }
    {
        if with_hand {
            self.seat_with_hand(chief)
        } else {
            self.seat_with_nothing(chief)
        }
    }

    fn seat_with_nothing(&self, chief: &mut ChiefSeat) -> WorkSeat
        requires table { chief.old.seat.table_id ≡ self.now.table.shared.table_id }
        requires room { ((chief_view chief.old).made < board_workers self.now)
            × ((chief_view chief.old).made < MOST_WORKERS) }
        ensures table { (chief.new.seat.table_id ≡ chief.old.seat.table_id)
            × (result.seat.table_id ≡ chief.old.seat.table_id) }
        ensures chief { chief_view chief.new
            ≡ after_split (chief_view chief.old) (chief_view chief.old).hand }
        ensures seat { work_view result ≡ new_seat (chief_view chief.old).made 0 }
    {
        let seat = self.table.shared.split_seat::<WithNothing>(&mut chief.seat);
        let number = chief.workers;
        chief.workers += 1;
        WorkSeat {
            seat,
            number,
            hand: 0,
            mine: 0,
        }
    }

    fn seat_with_hand(&self, chief: &mut ChiefSeat) -> WorkSeat
        requires table { chief.old.seat.table_id ≡ self.now.table.shared.table_id }
        requires room { ((chief_view chief.old).made < board_workers self.now)
            × ((chief_view chief.old).made < MOST_WORKERS) }
        ensures table { (chief.new.seat.table_id ≡ chief.old.seat.table_id)
            × (result.seat.table_id ≡ chief.old.seat.table_id) }
        ensures chief { chief_view chief.new ≡ after_split (chief_view chief.old) 0 }
        ensures seat { work_view result
            ≡ new_seat (chief_view chief.old).made (chief_view chief.old).hand }
    {
        let seat = self.table.shared.split_seat::<WithHand>(&mut chief.seat);
        let number = chief.workers;
        let hand = chief.hand;
        chief.workers += 1;
        chief.hand = 0;
        WorkSeat {
            seat,
            number,
            hand,
            mine: 0,
        }
    }
}

// Takes in a worker's seat, and says how many units it counted.
fn take_in(board: &Board, chief: &mut Seat<(), View>, worker: WorkSeat) -> u64
    requires chief { (chief.old.table_id ≡ board.now.table.shared.table_id)
        × (chief.old.me.0.role ≡ Chief) }
    requires worker { (worker.seat.table_id ≡ board.now.table.shared.table_id)
        × ((work_view worker).hand ≡ 0) }
    ensures chief { (chief.new.table_id ≡ chief.old.table_id) × (chief.new.id ≡ chief.old.id) }
    ensures joined { chief.new.me.0 ≡ after_join chief.old.me.0 (work_view worker) }
    ensures counted { (result ≡ (work_view worker).mine) × (result ≤ 2 ^ 40) }
{
    let WorkSeat {
        seat,
        number: _,
        hand: _,
        mine,
    } = worker;
    board.table.shared.join_seat::<TakeIn>(chief, seat);
    mine
}

// Takes in the seats of all workers, and says how many units they counted.
fn take_all(board: &Board, chief: &mut Seat<(), View>, seats: Vec<WorkSeat>) -> u64
    requires chief { (chief.old.table_id ≡ board.now.table.shared.table_id)
        × (chief.old.me.0.role ≡ Chief) × (chief.old.me.0.kept ≡ []) }
    requires seats { All (IsSeatOf board.now) seats.items }
    requires few { vec_len seats ≤ MOST_WORKERS }
    requires empty { All (λ seat. (work_view seat).hand ≡ 0) seats.items }
    ensures chief { (chief.new.table_id ≡ chief.old.table_id) × (chief.new.me.0.role ≡ Chief) }
    ensures same { (chief.new.me.0.target ≡ chief.old.me.0.target)
        × (chief.new.me.0.made ≡ chief.old.me.0.made)
        × (chief.new.me.0.seen ≡ chief.old.me.0.seen) }
    ensures kept { (length chief.new.me.0.kept ≡ vec_len seats)
        × (sum_by (λ k. k.count) chief.new.me.0.kept ≡ result) }
    ensures counted { result ≡ sum_by (λ seat. (work_view seat).mine) seats.items }
{
    let mut counted = 0;
    for worker in seats {
        counted += take_in(board, chief, worker);
    }
    counted
}

/// Ends a board, when every seat of it is at hand and every hand is empty.
/// After a hit all units are counted. Takes no memory.
pub fn close(board: Board, chief: ChiefSeat, seats: Vec<WorkSeat>) -> Totals
    requires chief { IsChiefOf board chief }
    requires seats { All (IsSeatOf board) seats.items }
    requires all { vec_len seats ≡ board_workers board }
    requires chief_empty { (chief_view chief).hand ≡ 0 }
    requires empty { All (λ seat. (work_view seat).hand ≡ 0) seats.items }
    ensures counted { result.counted ≡ sum_by (λ seat. (work_view seat).mine) seats.items }
    ensures total { result.unassigned + result.counted ≡ target_of board }
    ensures hit { sum (chief_view chief).seen ≡ target_of board
        → (result.counted ≡ target_of board) × (result.unassigned ≡ 0) }
{
    let ChiefSeat {
        mut seat,
        hand: _,
        target,
        workers: _,
        seen: _,
    } = chief;
    let counted = take_all(&board, &mut seat, seats);
    let Board { table } = board;
    table.close_with(seat).free();
    Totals {
        unassigned: target - counted,
        counted,
    }
}
