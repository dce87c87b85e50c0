//! Five units for two workers, divided round by round. Tests `amber_principal`.

ghost use Rattle.std.specs.Prelude.{◌≡◌, All, drop};

use crate::seats::{all_empty, claim_and_count};
use amber_board::{Board, close};
use amber_principal::{Need, Order, Principal, Seen};
use std::test::Fail;

// What two workers need.
fn needs(first: Need, second: Need) -> [Need; 16]
    ensures { All (λ need. need ≡ Need.Absent) (drop 2 result) }
{
    let mut needs = [Need::Absent; 16];
    needs[0] = first;
    needs[1] = second;
    needs
}

// Of all workers the first two.
fn first_two(two: [bool; 2]) -> [bool; 16] {
    let mut all = [false; 16];
    all[0] = two[0];
    all[1] = two[1];
    all
}

// Whether a round asks the first two workers for this, and nobody else for anything.
fn asks(order: &Order, seen: Seen, claim: [bool; 2], give: [bool; 2]) -> bool {
    order.seen == seen && order.claim == first_two(claim) && order.give == first_two(give)
}

#[test]
fn units_are_divided_until_the_target_is_hit(rt: HostRuntime) -> Result<(), Fail> {
    let (board, mut chief, mut seats) = Board::new(rt.alloc(), 5, 2)?;
    let mut principal = Principal::new(2);
    let order = principal.round(&mut chief, &board, &needs(Need::Starved, Need::Starved));
    let claimed = claim_and_count(&board, &mut seats[0]);
    assert!(rt; asks(&order, Seen::Open, [true, true], [false, false]) && claimed == 3);
    let order = principal.round(&mut chief, &board, &needs(Need::Starved, Need::Finished));
    let claimed = claim_and_count(&board, &mut seats[0]);
    assert!(rt; asks(&order, Seen::Open, [true, false], [false, false]) && claimed == 2);
    let order = principal.round(&mut chief, &board, &needs(Need::Starved, Need::Able));
    let claimed = claim_and_count(&board, &mut seats[1]);
    assert!(rt; asks(&order, Seen::Hit, [false, false], [false, false]) && claimed == 0);
    assert!(rt; all_empty(&seats));
    let totals = close(board, chief, seats);
    assert!(rt; totals.unassigned == 0 && totals.counted == 5);
    Ok(())
}

#[test]
fn a_round_in_which_nobody_is_starved_moves_nothing(rt: HostRuntime) -> Result<(), Fail> {
    let (board, mut chief, seats) = Board::new(rt.alloc(), 1, 1)?;
    let mut principal = Principal::new(1);
    let order = principal.round(&mut chief, &board, &[Need::Absent; 16]);
    let totals = close(board, chief, seats);
    assert!(rt; asks(&order, Seen::Open, [false, false], [false, false]));
    assert!(rt; totals.unassigned == 1 && totals.counted == 0);
    Ok(())
}
