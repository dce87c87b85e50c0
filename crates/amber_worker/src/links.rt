//! What a worker does with its links. Rests on `Route` and `Pending`, and on `Downstream` and `Upstream` of `amber_link`.

ghost use Rattle.std.specs.Prelude.{All, ◌≡◌, ◌==◌, ◌+◌, ◌^◌, ◌<◌, ◌≤◌, ℕ, Bool, false, true, is_ok, length, map, slice_index_or, IfNone, IfOk, IfSome, OnErr, OnOk};
ghost use Rattle.std.specs.List.{list_any};
ghost use Rattle.amber_link.specs.Links.{has_some};
ghost use Rattle.amber_link.specs.Sides.{AreEnded, have_builders_ended, without_room};
ghost use Rattle.amber_link.specs.declared.downstreams.Downstream.{Downstream as OneDownstream};
ghost use Rattle.amber_worker.specs.Links.{AreEndsOf, EmitsFirst, IsFirstPlace, IsSoundRoute, Passes};
ghost use Rattle.amber_worker.specs.declared.route.Route.{Route as OneRoute};

use crate::route::Route;
use amber_link::{
    Downstream, Upstream, end_all, give_back, place_of, place_to, push_at, reserve_at,
    reserve_ends, settle_at, take_back,
};
use amber_operators::Pending;
use amber_rows::Row;
use std::alloc::AllocError;

// The place of a receiver, if there is one. Where the numbers of the receivers follow one another it is known by the
// first of them, without a search.
pub(crate) fn receiver_place(outs: &[Downstream], number: u32) -> Option<usize>
    ensures none { IfNone result (list_any (λ one. one.to == number) outs.now ≡ false) }
    ensures there { IfSome result (λ place. place < length outs.now) }
    ensures own { IfSome result
        (λ place. (d : OneDownstream) → (slice_index_or outs.now place d).to ≡ number) }
{
    if let Some(first) = outs.first() {
        let place = number.wrapping_sub(first.to()) as usize;
        if place < outs.len() && outs[place].to() == number {
            return Some(place);
        }
    }
    place_to(outs, number)
}

// The place of the receiver to which the first of these rows goes, if there is one, with room for the row.
pub(crate) fn first_place(
    route: &Route,
    pending: &Pending,
    outs: &mut [Downstream],
) -> Result<Option<usize>, AllocError>
    requires some { has_some pending.now ≡ true }
    requires routed { IsSoundRoute route.now }
    requires open { All (λ one. one.link.kept.ended ≡ false) outs.old }
    ensures place { IfOk result (IsFirstPlace route.now
        (record { pending = pending.now; outs = map without_room outs.new })) }
    ensures there { IfOk result (λ place. IfSome place (λ i. i < length outs.new)) }
    ensures room { IfOk result (λ place. IfSome place (λ i. (d : OneDownstream)
        → 1 < (slice_index_or outs.new i d).link.kept.room)) }
    ensures same { map without_room outs.new ≡ map without_room outs.old }
    ensures open { All (λ one. one.link.kept.ended ≡ false) outs.new }
    ensures made { (n : ℕ) → All (λ one. one.link.kept.made ≤ n) outs.old → All
        (λ one. one.link.kept.made ≤ n) outs.new }
{
    let Some(next) = pending.front() else {
        unreachable!()
    };
    let number = route.number_to(next);
    let place = receiver_place(outs, number);
    if let Some(i) = place {
        reserve_at(outs, i)?;
    }
    Ok(place)
}

// Hands the first of these rows on to the receiver at this place, if there is one.
pub(crate) fn emit_first(place: Option<usize>, pending: &mut Pending, outs: &mut [Downstream])
    requires some { has_some pending.old ≡ true }
    requires there { IfSome place (λ i. i < length outs.old) }
    requires room { IfSome place (λ i. (d : OneDownstream)
        → 1 < (slice_index_or outs.old i d).link.kept.room) }
    requires few { All (λ one. one.link.kept.made < 2 ^ 40) outs.old }
    requires open { All (λ one. one.link.kept.ended ≡ false) outs.old }
    ensures emits { (to : OneRoute)
        → IsFirstPlace to (record { pending = pending.old; outs = map without_room outs.old }) place
        → EmitsFirst to
        (record { pending = pending.old; outs = map without_room outs.old })
        (record { pending = pending.new; outs = map without_room outs.new }) }
    ensures open { All (λ one. one.link.kept.ended ≡ false) outs.new }
    ensures few { (n : ℕ) → All (λ one. one.link.kept.made ≤ n) outs.old → All
        (λ one. one.link.kept.made ≤ n + 1) outs.new }
{
    let Some(row) = pending.pop_front() else {
        unreachable!()
    };
    if let Some(i) = place {
        push_at(outs, i, row);
    }
}

// Ends all streams.
pub(crate) fn end_streams(outs: &mut [Downstream]) -> Result<(), AllocError>
    requires few { All (λ one. one.link.kept.made < 2 ^ 40) outs.old }
    requires open { All (λ one. one.link.kept.ended ≡ false) outs.old }
    ensures ends { OnOk result
        (AreEnded (map without_room outs.old) (map without_room outs.new)) }
    ensures ended { OnOk result (All (λ one. one.link.kept.ended ≡ true) outs.new) }
    ensures err { OnErr result (map without_room outs.new ≡ map without_room outs.old) }
{
    reserve_ends(outs)?;
    end_all(outs);
    Ok(())
}

// Moves the batches that were made for a receiver into its inbox of this sender.
pub(crate) fn settle_into(
    outs: &mut [Downstream],
    ins: &mut [Upstream],
    from: u32,
    to: u32,
) -> Result<(), AllocError>
    requires sends { list_any (λ one. one.to == to) outs.old ≡ true }
    requires receives { list_any (λ one. one.from == from) ins.old ≡ true }
    requires joined { AreEndsOf from to outs.old ins.old }
    ensures passes { Passes (is_ok result) (record { from = from; to = to })
        (record { outs = map without_room outs.old; ins = ins.old })
        (record { outs = map without_room outs.new; ins = ins.new }) }
    ensures taken { (n : ℕ) → All (λ one. one.taken ≤ n) ins.old → All
        (λ one. one.taken ≤ n) ins.new }
    ensures built { have_builders_ended ins.new ≡ have_builders_ended ins.old }
    ensures made { (n : ℕ) → All (λ one. one.link.kept.made ≤ n) outs.old → All
        (λ one. one.link.kept.made ≤ n) outs.new }
    ensures ended { (b : Bool) → All (λ one. one.link.kept.ended ≡ b) outs.old → All
        (λ one. one.link.kept.ended ≡ b) outs.new }
{
    let Some(j) = place_to(outs, to) else {
        unreachable!()
    };
    let k = place_of(ins, from);
    settle_at(outs, j, ins, k)
}

// A list of rows that a receiver is done with, if one has come back.
pub(crate) fn rows_back(outs: &mut Vec<Downstream>) -> Option<Vec<Row>>
    ensures { outs.new.items ≡ outs.old.items }
{
    take_back(outs.as_mut_slice())
}

// Gives a list of rows that are done with back to a sender.
pub(crate) fn give_rows_back(ins: &mut Vec<Upstream>, from: u32, rows: Vec<Row>)
    ensures { ins.new.items ≡ ins.old.items }
{
    give_back(ins.as_mut_slice(), from, rows);
}
