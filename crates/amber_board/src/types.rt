//! The board, and the seats through which the chief and the workers step on it. They keep the `Rule` of
//! `rule`.

ghost use Rattle.std.specs.Prelude.{◌≡◌, ◌^◌, ◌<◌, ◌≤◌, [], All};
ghost use Rattle.amber_board.specs.declared.view.Role.TheVariants.{Chief, Worker};

use crate::rule::Rule;
use crate::view::{Terms, View};
use crate::words::PLACES;
use atomic_table::{Seat, Table};
use std::alloc::Global;

/// The words of a ledger. Any thread may step on them through a `&`, each by its own seat.
#[derive(Drop)]
pub struct Board {
    pub(crate) table: Table<(), View, Terms, Rule, Global>,
    ghost words: { table.shared.table_id.words ≡ 152 },
    ghost slots: { table.shared.table_id.slots ≡ 0 },
}

/// The seat of the one who divides the units and watches the counts.
#[derive(Drop)]
pub struct ChiefSeat {
    pub(crate) seat: Seat<(), View>,
    pub(crate) hand: u64,
    pub(crate) target: u64,
    pub(crate) workers: u32,
    pub(crate) seen: [u64; PLACES],
    ghost is_chief: { seat.me.0.role ≡ Chief },
    ghost in_hand: { seat.me.0.hand ≡ hand },
    ghost aim: { seat.me.0.target ≡ target },
    ghost made: { seat.me.0.made ≡ workers },
    ghost remembered: { seat.me.0.seen ≡ seen },
    ghost none_kept: { seat.me.0.kept ≡ [] },
    ghost no_slots: { seat.me.1 ≡ [] },
    ghost few: { workers ≤ 16 },
    ghost at_most: { All (λ n. n ≤ 2 ^ 40) seen },
}

/// The seat of one worker, who claims units and counts them.
#[derive(Drop)]
pub struct WorkSeat {
    pub(crate) seat: Seat<(), View>,
    pub(crate) number: u32,
    pub(crate) hand: u64,
    pub(crate) mine: u64,
    ghost is_worker: { seat.me.0.role ≡ Worker number },
    ghost in_hand: { seat.me.0.hand ≡ hand },
    ghost counted: { seat.me.0.mine ≡ mine },
    ghost no_slots: { seat.me.1 ≡ [] },
    ghost few: { number < 16 },
    ghost at_most: { mine ≤ 2 ^ 40 },
}

/// Where the units of a closed board are. The two add up to its target.
#[derive(Clone, Copy, PartialEq, Eq)]
pub struct Totals {
    /// The units that no worker counted.
    pub unassigned: u64,
    /// The units that the workers counted.
    pub counted: u64,
}
