//! What a worker does with its seat on the board of a count. Over `WorkSeat` of `amber_board` and `Journal`.

ghost use Rattle.std.specs.Prelude.{◌≡◌, ◌+◌, ◌<◌, ◌≤◌, ◌==◌, ◌&&◌, IfSome, is_some};
ghost use Rattle.std.specs.Option.{option_copied};
ghost use Rattle.amber_board.specs.Seats.{work_view};
ghost use Rattle.amber_worker.specs.Counting.{Claims, CountsOne, DealsUnits, GivesBack, IsBoardOf, hand_in, with_back, with_grant};

use crate::journal::Journal;
use amber_board::{Board, WorkSeat};
use amber_log::Entry;

// What a worker does with its hand of units before a turn.
#[derive(Clone, Copy)]
pub(crate) enum Dealing {
    // Nothing.
    Nothing,
    // It claims what was allotted to it.
    Claims,
    // It gives its whole hand back.
    Returns,
}

// The units in hand; none where there is no seat.
pub(crate) fn hand_of(seat: &Option<WorkSeat>) -> u64
    ensures { result ≡ hand_in seat.now }
{
    match seat {
        None => 0,
        Some(seat) => seat.hand(),
    }
}

// Counts a unit of the hand, where there is a seat.
#[inline(always)]
pub(crate) fn count_one(seat: &mut Option<WorkSeat>, board: Option<&Board>)
    requires own { IsBoardOf (option_copied board) seat.old }
    requires unit { IfSome seat.old (λ one. 0 < (work_view one).hand) }
    ensures own { IsBoardOf (option_copied board.entry) seat.new }
    ensures counts { CountsOne seat.old seat.new }
{
    let Some(seat) = seat else {
        return;
    };
    let Some(board) = board else { unreachable!() };
    seat.count(board);
}

// Claims the allotment, where there is a seat, and says how many units it had.
fn claim_all(seat: &mut Option<WorkSeat>, board: Option<&Board>) -> u64
    requires { IsBoardOf (option_copied board) seat.old }
    ensures own { IsBoardOf (option_copied board.entry) seat.new }
    ensures claims { Claims result seat.old seat.new }
{
    let Some(seat) = seat else {
        return 0;
    };
    let Some(board) = board else { unreachable!() };
    seat.claim(board)
}

// Gives the whole hand back, where there is a seat.
pub(crate) fn give_all(seat: &mut Option<WorkSeat>, board: Option<&Board>)
    requires { IsBoardOf (option_copied board) seat.old }
    ensures own { IsBoardOf (option_copied board.entry) seat.new }
    ensures gives { GivesBack seat.old seat.new }
{
    let Some(seat) = seat else {
        return;
    };
    let Some(board) = board else { unreachable!() };
    seat.give_back(board);
}

// Notes that units were claimed, where there were any.
fn note_grant(journal: &mut Journal, units: u64)
    requires { 1 < journal.old.spare }
    ensures items { journal.new.entries ≡ with_grant units journal.old.entries }
    ensures spare { journal.old.spare ≤ journal.new.spare + 1 }
    ensures reserved { journal.new.reserved ≡ journal.old.reserved }
{
    if units != 0 {
        journal.push(Entry::Grant { n: units });
    }
}

// Notes that units were given back, where there were any.
fn note_back(journal: &mut Journal, units: u64)
    requires { 1 < journal.old.spare }
    ensures items { journal.new.entries ≡ with_back units journal.old.entries }
    ensures spare { journal.old.spare ≤ journal.new.spare + 1 }
    ensures reserved { journal.new.reserved ≡ journal.old.reserved }
{
    if units != 0 {
        journal.push(Entry::Back { n: units });
    }
}

// Deals with the hand so, and writes it down.
#[inline(always)]
pub(crate) fn deal(
    how: Dealing,
    seat: &mut Option<WorkSeat>,
    journal: &mut Journal,
    board: Option<&Board>,
)
    requires own { IsBoardOf (option_copied board) seat.old }
    requires room { 2 < journal.old.spare }
    ensures own { IsBoardOf (option_copied board.entry) seat.new }
    ensures deals { DealsUnits how
        (record { seat = seat.old; journal = journal.old.entries })
        (record { seat = seat.new; journal = journal.new.entries }) }
    ensures spare { 1 < journal.new.spare }
    ensures reserved { journal.new.reserved ≡ journal.old.reserved }
{
    match how {
        Dealing::Nothing => {}
        Dealing::Claims => {
            let units = claim_all(seat, board);
            note_grant(journal, units);
        }
        Dealing::Returns => {
            let units = hand_of(seat);
            give_all(seat, board);
            note_back(journal, units);
        }
    }
}

// Whether a count is armed, and no unit is in hand.
#[inline(always)]
pub(crate) fn is_starved(seat: &Option<WorkSeat>) -> bool
    ensures { result ≡ (is_some seat.now && (hand_in seat.now == 0)) }
{
    match seat {
        None => false,
        Some(seat) => seat.hand() == 0,
    }
}
