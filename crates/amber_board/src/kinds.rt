//! The kinds of step: what each makes of the `View` of the seat that makes it.

ghost use Rattle.std.specs.Prelude.{◌≡◌, ℕ, ◌+◌, ◌^◌, ◌≤◌};
ghost use Rattle.amber_board.specs.Ledger.{count_word, worker_number_of};
ghost use Rattle.amber_board.specs.Moves.{drawn, after_grant, put_back_of, swept, after_watch, after_claim, counted_one, given_back, after_split, new_seat, after_join, spent_view};

use crate::view::View;
use atomic_table::{Join, Play, Split};

/// The chief makes a seat for the next worker, with no unit.
pub(crate) struct WithNothing;

impl Split<View> for WithNothing {
    ghost left = { λ v. after_split v v.hand };

    ghost right = { λ v. new_seat v.made 0 };
}

/// The chief makes a seat for the next worker, with all that it has in hand.
pub(crate) struct WithHand;

impl Split<View> for WithHand {
    ghost left = { λ v. after_split v 0 };

    ghost right = { λ v. new_seat v.made v.hand };
}

/// On the unassigned units. Each kind says on which word its step is made.
pub(crate) struct Draw;

impl Play<(), View> for Draw {
    ghost then = { λ step me n after. (step.word ≡ 1) × (after.0 ≡ drawn me.0 n) × (after.1 ≡ me.1)
        × (me.0.hand + n ≤ 2 ^ 40) × (me.0.made ≡ 0 → me.0.hand + n ≡ me.0.target) };
}

/// On the allotment of the worker whose word it is. The next two know the worker in the same way: a sweep by
/// its allotment, a watch by its count.
pub(crate) struct Grant;

impl Play<(), View> for Grant {
    ghost then = { λ step me n after.
        ((w : ℕ) → step.word ≡ 2 + w → after.0 ≡ after_grant me.0 w step.first)
        × (after.1 ≡ me.1) };
}

pub(crate) struct Sweep;

impl Play<(), View> for Sweep {
    ghost then = { λ step me n after. ((w : ℕ) → step.word ≡ 2 + w → after.0 ≡ swept me.0 w n)
        × (after.1 ≡ me.1) × (me.0.hand + n ≤ 2 ^ 40) };
}

pub(crate) struct Watch;

impl Play<(), View> for Watch {
    ghost then = { λ step me n after.
        ((w : ℕ) → step.word ≡ count_word w → after.0 ≡ after_watch me.0 w n) × (after.1 ≡ me.1)
        × (n ≤ 2 ^ 40) };
}

/// On the unassigned units.
pub(crate) struct PutBack;

impl Play<(), View> for PutBack {
    ghost then = { λ step me n after. (step.word ≡ 1) × (after.0 ≡ put_back_of me.0)
        × (after.1 ≡ me.1) };
}

/// On the worker's own allotment.
pub(crate) struct Claim;

impl Play<(), View> for Claim {
    ghost then = { λ step me n after. (step.word ≡ 2 + worker_number_of me.0.role)
        × (after.0 ≡ after_claim me.0 (worker_number_of me.0.role) n) × (after.1 ≡ me.1)
        × (me.0.hand + n ≤ 2 ^ 40) };
}

/// On the worker's own count.
pub(crate) struct Count;

impl Play<(), View> for Count {
    ghost then = { λ step me n after. (step.word ≡ count_word (worker_number_of me.0.role))
        × (after.0 ≡ counted_one me.0 (worker_number_of me.0.role)) × (after.1 ≡ me.1)
        × (me.0.mine + 1 ≤ 2 ^ 40) };
}

/// On the unassigned units.
pub(crate) struct GiveBack;

impl Play<(), View> for GiveBack {
    ghost then = { λ step me n after. (step.word ≡ 1)
        × (after.0 ≡ given_back me.0 (worker_number_of me.0.role)) × (after.1 ≡ me.1) };
}

/// The chief takes in a worker's seat.
pub(crate) struct TakeIn;

impl Join<View> for TakeIn {
    ghost both = { after_join };

    ghost spent = { spent_view };
}
