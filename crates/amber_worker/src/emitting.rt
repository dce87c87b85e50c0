//! Pending rows that go to their receivers, many at a time and without memory. Rests on `Pending`, `Route` and
//! `Downstream` of `amber_link`.

ghost use Rattle.std.specs.Prelude.{All, false, length, true, ◌+◌, ◌<◌, ◌^◌, ◌≡◌, ◌≤◌, ℕ};
ghost use Rattle.amber_link.specs.Links.{has_some};
ghost use Rattle.amber_worker.specs.Emitting.{EmitsMany, side_of};
ghost use Rattle.amber_worker.specs.Links.{EmitsFirst, IsSoundRoute};

use crate::links::receiver_place;
use crate::route::Route;
use amber_link::{Downstream, push_at};
use amber_operators::Pending;

// Hands the first of these rows on to the receiver to which it goes, if there is one. There is room for it.
fn emit_next(route: &Route, pending: &mut Pending, outs: &mut [Downstream])
    requires some { has_some pending.old ≡ true }
    requires routed { IsSoundRoute route.now }
    requires room { All (λ one. 1 < one.link.kept.room) outs.old }
    requires few { All (λ one. one.link.kept.made < 2 ^ 40) outs.old }
    requires open { All (λ one. one.link.kept.ended ≡ false) outs.old }
    ensures emits { EmitsFirst route.now (side_of pending.old outs.old) (side_of pending.new outs.new) }
    ensures room { (n : ℕ) → All (λ one. n + 1 < one.link.kept.room) outs.old
        → All (λ one. n < one.link.kept.room) outs.new }
    ensures open { All (λ one. one.link.kept.ended ≡ false) outs.new }
    ensures few { (n : ℕ) → All (λ one. one.link.kept.made ≤ n) outs.old → All
        (λ one. one.link.kept.made ≤ n + 1) outs.new }
{
    let Some(row) = pending.pop_front() else {
        unreachable!()
    };
    if let Some(i) = receiver_place(outs, route.number_to(&row)) {
        push_at(outs, i, row);
    }
}

// Hands so many of these rows on, one after the other. There is room for them at each receiver.
pub(crate) fn emit_many(route: &Route, pending: &mut Pending, outs: &mut [Downstream], rows: u64)
    requires some { rows ≤ length pending.old }
    requires small { rows ≤ 2 ^ 40 }
    requires routed { IsSoundRoute route.now }
    requires room { All (λ one. rows < one.link.kept.room) outs.old }
    requires few { All (λ one. one.link.kept.made + rows ≤ 2 ^ 40) outs.old }
    requires open { All (λ one. one.link.kept.ended ≡ false) outs.old }
    ensures emits { EmitsMany route.now rows (side_of pending.old outs.old) (side_of pending.new outs.new) }
    ensures open { All (λ one. one.link.kept.ended ≡ false) outs.new }
    ensures few { (n : ℕ) → All (λ one. one.link.kept.made ≤ n) outs.old → All
        (λ one. one.link.kept.made ≤ n + rows) outs.new }
{
    for _ in 0..rows {
        emit_next(route, pending, outs);
    }
}
