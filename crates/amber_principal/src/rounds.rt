//! One round of the principal: watching, and dividing where somebody is starved. Rests on `divide`, and on
//! `ChiefSeat` of `amber_board`.

ghost use Rattle.std.specs.Prelude.{◌≡◌, ◌≤◌, ◌-◌, if◌then◌else◌, ◌<◌, ◌==◌, ◌↔◌, [], ◌∷◌, All, drop, false, map, not, replicate, slice_index_or, sum};
ghost use Rattle.std.specs.List.{list_any};
ghost use Rattle.amber_board.specs.Ledger.{IsExact};
ghost use Rattle.amber_board.specs.Seats.{IsChiefOf, chief_view, board_workers};
ghost use Rattle.amber_board.specs.declared.view.Step.TheVariants.{Draw, Grant, Sweep};
ghost use Rattle.amber_principal.specs.Rounds.{IsRound, grants_after, sweeps_after, watches_after};
ghost use Rattle.amber_principal.specs.Shares.{is_able, is_in_need};

use crate::PLACES;
use crate::dividing::{Need, divide};
use amber_board::{Board, ChiefSeat};
use std::marker::Model;

/// Whether all units of the target were seen counted.
#[derive(Clone, Copy, PartialEq, Eq)]
pub enum Seen {
    /// Every unit is counted.
    Hit,
    /// Not yet, as far as was seen.
    Open,
}

/// What a round found, and what the workers are asked to do, by their places.
#[derive(Clone, Copy)]
pub struct Order {
    /// Whether the target is reached.
    pub seen: Seen,
    /// Who is to claim: those who were granted units.
    pub claim: [bool; PLACES],
    /// Who is to give back what it does not use.
    pub give: [bool; PLACES],
}

/// The principal of one operator, seen as the number of its workers.
#[derive(Drop)]
pub struct Principal {
    workers: u32,
}

impl Model for Principal {
    ghost use Rattle.std.specs.Prelude.{ℕ};

    ghost Value = { ℕ };

    ghost view = { λ a. a.workers };
}

// Watches each worker, in order.
fn watch_all(seat: &mut ChiefSeat, board: &Board, workers: u32)
    requires own { IsChiefOf board.now seat.old }
    requires workers { workers ≡ board_workers board.now }
    ensures own { IsChiefOf board.now seat.new }
    ensures hand { (chief_view seat.new).hand ≡ (chief_view seat.old).hand }
    ensures steps { (chief_view seat.new).done ≡ watches_after (chief_view seat.old).done workers }
{
    for worker in 0..workers {
        seat.watch(board, worker);
    }
}

// Takes back what a worker has not claimed, but for one that is starved.
fn sweep_other(seat: &mut ChiefSeat, board: &Board, needs: &[Need; PLACES], worker: u32)
    requires own { IsChiefOf board.now seat.old }
    requires worker { (worker < board_workers board.now) × (worker < 16) }
    ensures own { IsChiefOf board.now seat.new }
    ensures seen { (chief_view seat.new).seen ≡ (chief_view seat.old).seen }
    ensures steps { (chief_view seat.new).done
        ≡ (if is_in_need (slice_index_or needs.now worker Need.Absent) then
        (chief_view seat.old).done
        else Sweep worker ∷ (chief_view seat.old).done) }
{
    if !needs[worker as usize].is_starved() {
        seat.sweep(board, worker);
    }
}

// Takes the unassigned units, and what those that are not starved have not claimed.
fn recall(seat: &mut ChiefSeat, board: &Board, needs: &[Need; PLACES], workers: u32)
    requires own { IsChiefOf board.now seat.old }
    requires workers { (workers ≡ board_workers board.now) × (workers ≤ 16) }
    ensures own { IsChiefOf board.now seat.new }
    ensures seen { (chief_view seat.new).seen ≡ (chief_view seat.old).seen }
    ensures steps { (chief_view seat.new).done
        ≡ sweeps_after needs.now (Draw ∷ (chief_view seat.old).done) workers }
{
    seat.draw(board);
    for worker in 0..workers {
        sweep_other(seat, board, needs, worker);
    }
}

// Grants a worker its share of the units in hand, where that is not 0.
fn grant_share(seat: &mut ChiefSeat, board: &Board, worker: u32, share: u64)
    requires own { IsChiefOf board.now seat.old }
    requires worker { worker < board_workers board.now }
    requires has { share ≤ (chief_view seat.old).hand }
    ensures own { IsChiefOf board.now seat.new }
    ensures seen { (chief_view seat.new).seen ≡ (chief_view seat.old).seen }
    ensures hand { (chief_view seat.new).hand ≡ (chief_view seat.old).hand - share }
    ensures steps { (chief_view seat.new).done ≡ (if share == 0 then (chief_view seat.old).done
        else Grant worker share ∷ (chief_view seat.old).done) }
{
    if share != 0 {
        seat.grant(board, worker, share);
    }
}

// Grants each worker its share of the units in hand.
fn grant_all(seat: &mut ChiefSeat, board: &Board, shares: &[u64; PLACES], workers: u32)
    requires own { IsChiefOf board.now seat.old }
    requires workers { (workers ≡ board_workers board.now) × (workers ≤ 16) }
    requires all { sum shares.now ≡ (chief_view seat.old).hand }
    requires none { sum (drop workers shares.now) ≡ 0 }
    ensures own { IsChiefOf board.now seat.new }
    ensures seen { (chief_view seat.new).seen ≡ (chief_view seat.old).seen }
    ensures hand { (chief_view seat.new).hand ≡ 0 }
    ensures steps { (chief_view seat.new).done
        ≡ grants_after shares.now (chief_view seat.old).done workers }
{
    for worker in 0..workers {
        grant_share(seat, board, worker, shares[worker as usize]);
    }
}

// Who has a share.
fn sharers(shares: &[u64; PLACES]) -> [bool; PLACES]
    ensures { result ≡ map (λ share. not (share == 0)) shares.now }
{
    shares.map(|share| share != 0)
}

// Who is able.
fn able(needs: &[Need; PLACES]) -> [bool; PLACES]
    ensures { result ≡ map is_able needs.now }
{
    needs.map(|need| need.is_able())
}

// Whether anyone is starved.
fn is_anyone_starved(needs: &[Need; PLACES]) -> bool
    ensures { result ≡ list_any is_in_need needs.now }
{
    needs.iter().any(|need| need.is_starved())
}

// An answer that asks nobody for anything.
fn idle(seen: Seen) -> Order
    ensures seen { result.seen ≡ seen }
    ensures claim { result.claim ≡ replicate 16 false }
    ensures give { result.give ≡ replicate 16 false }
{
    Order {
        seen,
        claim: [false; PLACES],
        give: [false; PLACES],
    }
}

impl Principal {
    /// The principal of an operator with this many workers.
    pub fn new(workers: u32) -> Self
        ensures { result ≡ workers }
    {
        Principal { workers }
    }

    /// Watches every worker, and where the target is not reached and somebody is starved, calls all units back that nobody
    /// claimed, but for those of starved workers, and divides them. The chief's hand is empty before and after.
    /// Takes no memory.
    pub fn round(&mut self, seat: &mut ChiefSeat, board: &Board, needs: &[Need; PLACES]) -> Order
        requires own { IsChiefOf board.now seat.old }
        requires workers { self.old ≡ board_workers board.now }
        requires empty { (chief_view seat.old).hand ≡ 0 }
        requires absent { All (λ need. need ≡ Need.Absent) (drop self.old needs.now) }
        ensures own { IsChiefOf board.now seat.new }
        ensures workers { self.new ≡ self.old }
        ensures empty { (chief_view seat.new).hand ≡ 0 }
        ensures hit { (result.seen ≡ Seen.Hit)
            ↔ (sum (chief_view seat.new).seen ≡ (chief_view seat.new).target) }
        ensures exact { result.seen ≡ Seen.Hit → IsExact (chief_view seat.new) }
        ensures round { IsRound needs.now (chief_view seat.old) (chief_view seat.new) result }
    {
        watch_all(seat, board, self.workers);
        if seat.hit() {
            return idle(Seen::Hit);
        }
        if !is_anyone_starved(needs) {
            return idle(Seen::Open);
        }
        recall(seat, board, needs, self.workers);
        let shares = divide(seat.hand(), needs);
        grant_all(seat, board, &shares, self.workers);
        Order {
            seen: Seen::Open,
            claim: sharers(&shares),
            give: able(needs),
        }
    }
}
