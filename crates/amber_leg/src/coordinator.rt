//! The coordinator beside the workers of a round: it hears what they note, has all paused as soon as a stop is seen, and has
//! units divided among those that need some. Over `Desk`, `divide_all` and `Shared`.

ghost use Rattle.amber_leg.specs.Coordinating.{AreLedOn};

use crate::desk::Desk;
use crate::dividing::divide_all;
use crate::shared::Shared;
use crate::signals::Rest;
use amber_board::{Board, ChiefSeat};
use amber_mail::Gate;
use std::thread::yield_now;

// After so many turns the coordinator ends in any case.
const TURNS: u32 = 1_048_576;

/// Hears what the workers have noted: all are to be paused where a stop is seen, and else units are divided. Each board's
/// chief leads it still, with no unit in hand, whatever was heard. The answer is whether anything was.
pub(crate) fn attend(
    desk: &mut Desk,
    chiefs: &mut [Option<ChiefSeat>],
    boards: &[Option<&Board>],
) -> bool
    requires led { AreLedOn boards.now chiefs.old }
    ensures led { AreLedOn boards.now chiefs.new }
{
    let heard = desk.hear();
    if desk.is_due() {
        desk.pause_all();
    }
    if !desk.is_pausing() {
        divide_all(desk, chiefs, boards);
    }
    heard
}

/// The coordinator's driver goes on where anything came of the coordinator's turn, and else rests and lets other threads go on.
pub(crate) fn rest_or_go_on(rest: &mut Rest<'_>, came: bool) {
    if came {
        rest.end();
    } else {
        let _looks = rest.look();
        yield_now();
    }
}

/// Turns of the coordinator, until so many drivers have come home, or for 1,048,576 turns.
pub(crate) fn coordinate<G: Gate>(
    desk: &mut Desk,
    chiefs: &mut [Option<ChiefSeat>],
    shared: &Shared<'_, G>,
    rest: &mut Rest<'_>,
    drivers: usize,
)
    requires led { AreLedOn shared.now.all.now chiefs.old }
    ensures led { AreLedOn shared.now.all.now chiefs.new }
{
    'turns: for _ in 0..TURNS {
        if shared.signals.have_come_home(drivers) {
            return;
        }
        let heard = attend(desk, chiefs, shared.all);
        let told = desk.tell(shared.gate, &shared.signals);
        rest_or_go_on(rest, heard || told);
    }
}
