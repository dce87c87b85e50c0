//! Units that a principal divides among the workers of an operator. Over `Principal` of `amber_principal` and `Desk`.

ghost use Rattle.std.specs.Prelude.{All, drop, ◌≡◌};
ghost use Rattle.std.specs.Option.{option_copied};
ghost use Rattle.amber_leg.specs.Coordinating.{AreLedOn, IsLedOn};

use crate::desk::{Desk, op_at};
use amber_board::{Board, ChiefSeat};
use amber_principal::{Need, Order, PLACES, Principal};

// The needs of so many workers; there are no others.
fn needs_among(found: &[Need; PLACES], workers: u32) -> [Need; PLACES]
    ensures absent { All (λ need. need ≡ Need.Absent) (drop workers result) }
{
    let mut needs = [Need::Absent; PLACES];
    'places: for place in 0..PLACES.min(workers as usize) {
        needs[place] = found[place];
    }
    needs
}

// A round of an operator's principal, where it has a board.
fn divide(
    chief: &mut Option<ChiefSeat>,
    board: Option<&Board>,
    found: &[Need; PLACES],
) -> Option<Order>
    requires led { IsLedOn (option_copied board) chief.old }
    ensures led { IsLedOn (option_copied board.entry) chief.new }
{
    let Some(seat) = chief else {
        return None;
    };
    let Some(board) = board else { unreachable!() };
    let workers = seat.workers();
    let needs = needs_among(found, workers);
    Some(Principal::new(workers).round(seat, board, &needs))
}

/// Divides the units of each operator of which a worker has none.
pub(crate) fn divide_all(
    desk: &mut Desk,
    chiefs: &mut [Option<ChiefSeat>],
    boards: &[Option<&Board>],
)
    requires led { AreLedOn boards.now chiefs.old }
    ensures led { AreLedOn boards.now chiefs.new }
{
    'operators: for place in 0..chiefs.len() {
        let op = op_at(place);
        if desk.is_starved(op) {
            let needs = desk.needs_of(op);
            if let Some(order) = divide(&mut chiefs[place], boards[place], &needs) {
                desk.follow(op, &order);
            }
        }
    }
}
