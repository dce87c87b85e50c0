//! The ledger: what is granted, claimed and counted, also by workers side by side. Tests `amber_board`.

ghost use Rattle.std.specs.Prelude.{◌≡◌, All, length};
ghost use Rattle.amber_board.specs.Seats.{IsChiefOf, IsSeatOf, chief_view, work_view, board_workers};

use crate::seats::{all_empty, claim_and_count, count_times};
use amber_board::{Board, ChiefSeat, WorkSeat, close};
use std::test::Fail;
use std::thread;
use std::thread::Threads;

/// The turns that each side makes beside the others.
const TURNS: u32 = 4000;

const WORKERS: u32 = 4;

const TARGET: u64 = 20_000;

// A worker's bounded turns: it claims, counts a few units, and now and then gives its hand back.
fn labour(board: &Board, seat: &mut WorkSeat)
    requires { IsSeatOf board.now seat.old }
    ensures { IsSeatOf board.now seat.new }
{
    for turn in 0..TURNS {
        seat.claim(board);
        let few = seat.hand().min(3);
        count_times(board, seat, few);
        if turn % 64 == 63 {
            seat.give_back(board);
        }
    }
}

// The chief's bounded turns: it draws, grants a little, sweeps and watches.
fn divide(board: &Board, chief: &mut ChiefSeat)
    requires own { IsChiefOf board.now chief.old }
    requires workers { board_workers board.now ≡ WORKERS }
    ensures { IsChiefOf board.now chief.new }
{
    for turn in 0..TURNS {
        let worker = turn % WORKERS;
        chief.draw(board);
        let share = chief.hand().min(5);
        chief.grant(board, worker, share);
        chief.put_back(board);
        chief.watch(board, worker);
        if turn % 7 == 0 {
            chief.sweep(board, (turn + 1) % WORKERS);
        }
    }
}

fn side_by_side<R: Threads + Sync>(
    rt: &R,
    board: &Board,
    chief: &mut ChiefSeat,
    seats: &mut [WorkSeat],
)
    requires chief { IsChiefOf board.now chief.old }
    requires workers { board_workers board.now ≡ WORKERS }
    requires seats { All (IsSeatOf board.now) seats.old }
    ensures chief { IsChiefOf board.now chief.new }
    ensures seats { All (IsSeatOf board.now) seats.new }
{
    thread::join_mut(
        rt,
        &mut ||
            requires { IsChiefOf board.now chief.now × (board_workers board.now ≡ WORKERS) }
            ensures { IsChiefOf board.entry.now chief.exit.now }
        { divide(board, chief) },
        &mut ||
            requires { All (IsSeatOf board.now) seats.now }
            ensures { (length seats.exit.now ≡ length seats.entry.now)
                × All (IsSeatOf board.entry.now) seats.exit.now }
        { thread::for_each_mut(rt, seats, 4, &|_, seat| labour(board, seat)) },
    );
}

// What nobody has claimed goes to worker 0, and each worker counts all that it has.
fn finish(board: &Board, chief: &mut ChiefSeat, seats: &mut [WorkSeat])
    requires chief { IsChiefOf board.now chief.old }
    requires workers { board_workers board.now ≡ WORKERS }
    requires seats { All (IsSeatOf board.now) seats.old }
    ensures chief { IsChiefOf board.now chief.new × ((chief_view chief.new).hand ≡ 0) }
    ensures seats { All (IsSeatOf board.now) seats.new }
    ensures hands { All (λ seat. (work_view seat).hand ≡ 0) seats.new }
{
    collect(board, chief);
    for seat in seats.iter_mut() {
        seat.claim(board);
        let all = seat.hand();
        count_times(board, seat, all);
    }
    watch_all(board, chief);
}

fn collect(board: &Board, chief: &mut ChiefSeat)
    requires chief { IsChiefOf board.now chief.old }
    requires workers { board_workers board.now ≡ WORKERS }
    ensures chief { IsChiefOf board.now chief.new × ((chief_view chief.new).hand ≡ 0) }
{
    chief.draw(board);
    for worker in 0..WORKERS {
        chief.sweep(board, worker);
    }
    chief.grant(board, 0, chief.hand());
}

fn watch_all(board: &Board, chief: &mut ChiefSeat)
    requires chief { IsChiefOf board.now chief.old }
    requires workers { board_workers board.now ≡ WORKERS }
    ensures chief { IsChiefOf board.now chief.new
        × ((chief_view chief.new).hand ≡ (chief_view chief.old).hand) }
{
    for worker in 0..WORKERS {
        chief.watch(board, worker);
    }
}

// All turns side by side, and then what is left.
fn count_all<R: Threads + Sync>(
    rt: &R,
    board: &Board,
    chief: &mut ChiefSeat,
    seats: &mut [WorkSeat],
)
    requires chief { IsChiefOf board.now chief.old }
    requires workers { board_workers board.now ≡ WORKERS }
    requires seats { All (IsSeatOf board.now) seats.old }
    ensures chief { IsChiefOf board.now chief.new × ((chief_view chief.new).hand ≡ 0) }
    ensures seats { All (IsSeatOf board.now) seats.new }
    ensures hands { All (λ seat. (work_view seat).hand ≡ 0) seats.new }
{
    side_by_side(rt, board, chief, seats);
    finish(board, chief, seats);
}

#[test]
fn four_workers_count_all_units_beside_a_chief_who_divides_them(
    rt: HostRuntime,
) -> Result<(), Fail> {
    let (board, mut chief, mut seats) = Board::new(rt.alloc(), TARGET, WORKERS)?;
    count_all(&rt, &board, &mut chief, &mut seats);
    let hit = chief.hit();
    let totals = close(board, chief, seats);
    assert!(rt; hit && totals.unassigned == 0 && totals.counted == TARGET);
    Ok(())
}

#[test]
fn one_worker_gives_back_what_it_does_not_count(rt: HostRuntime) -> Result<(), Fail> {
    let (board, mut chief, mut seats) = Board::for_one(rt.alloc(), 3, 2, 1)?;
    assert!(rt; seats[0].hand() == 0 && seats[1].hand() == 3);
    seats[1].count(&board);
    seats[1].give_back(&board);
    chief.draw(&board);
    let drawn = chief.hand();
    chief.put_back(&board);
    let totals = close(board, chief, seats);
    assert!(rt; drawn == 2 && totals.unassigned == 2 && totals.counted == 1);
    Ok(())
}

#[test]
fn units_go_round_and_a_hit_comes_at_the_target(rt: HostRuntime) -> Result<(), Fail> {
    let (board, mut chief, mut seats) = Board::new(rt.alloc(), 5, 2)?;
    chief.draw(&board);
    assert!(rt; chief.hand() == 5);
    chief.grant(&board, 0, 3);
    chief.grant(&board, 1, 2);
    let claimed = claim_and_count(&board, &mut seats[0]);
    chief.sweep(&board, 1);
    let seen = chief.watch(&board, 0);
    assert!(rt; claimed == 3 && seen == 3 && chief.hand() == 2 && !chief.hit());
    chief.grant(&board, 0, 2);
    let claimed = claim_and_count(&board, &mut seats[0]);
    let seen = chief.watch(&board, 0);
    assert!(rt; claimed == 2 && seen == 5 && chief.hit());
    let left = claim_and_count(&board, &mut seats[1]);
    assert!(rt; left == 0 && all_empty(&seats));
    let totals = close(board, chief, seats);
    assert!(rt; totals.unassigned == 0 && totals.counted == 5);
    Ok(())
}

#[test]
fn a_board_that_is_closed_at_once_has_all_units_unassigned(rt: HostRuntime) -> Result<(), Fail> {
    let (board, chief, seats) = Board::new(rt.alloc(), 1, 1)?;
    let totals = close(board, chief, seats);
    assert!(rt; totals.unassigned == 1 && totals.counted == 0);
    Ok(())
}
