//! What goes from one worker to another, for whoever holds both. Rests on `settle_into` of `links`.

ghost use Rattle.std.specs.Prelude.{true, is_ok, OnOk, ◌≡◌, ◌==◌};
ghost use Rattle.std.specs.List.{list_any};
ghost use Rattle.amber_worker.specs.AtPosition.{HasSameEnds};
ghost use Rattle.amber_worker.specs.Links.{Passes};
ghost use Rattle.amber_worker.specs.Pairs.{AreJoined, AreSettledAt, Offers, OffersAll, PassesOn, StaysAt};

use super::Worker;
use crate::links::settle_into;
use std::alloc::AllocError;

// The ends of the link of two workers are settled.
fn pass_batches(from: &mut Worker, to: &mut Worker) -> Result<(), AllocError>
    requires sends { list_any (λ one. one.to == to.old.number) from.old.outs ≡ true }
    requires receives { list_any (λ one. one.from == from.old.number) to.old.ins ≡ true }
    requires joined { AreJoined from.old to.old }
    ensures passes { Passes (is_ok result)
        (record { from = from.old.number; to = to.old.number })
        (record { outs = from.old.outs; ins = to.old.ins })
        (record { outs = from.new.outs; ins = to.new.ins }) }
    ensures from { from.new ≡ record from.old { outs = from.new.outs } }
    ensures to { to.new ≡ record to.old { ins = to.new.ins } }
{
    let sender = from.number;
    let receiver = to.number;
    settle_into(
        from.outs.as_mut_slice(),
        to.ins.as_mut_slice(),
        sender,
        receiver,
    )
}

/// Moves the batches that a worker has made for another one into the other's inbox, after those
/// that wait there. If memory runs out none is lost.
pub fn settle_workers(from: &mut Worker, to: &mut Worker) -> Result<(), AllocError>
    requires sends { list_any (λ one. one.to == to.old.number) from.old.outs ≡ true }
    requires receives { list_any (λ one. one.from == from.old.number) to.old.ins ≡ true }
    requires joined { AreJoined from.old to.old }
    ensures passes { PassesOn from.old to.old from.new to.new }
    ensures settled { OnOk result (AreSettledAt from.new to.new) }
    ensures from_stays { StaysAt from.old from.new }
    ensures to_stays { StaysAt to.old to.new }
    ensures from_ends { HasSameEnds from.old from.new }
    ensures to_ends { HasSameEnds to.old to.new }
    ensures offers { Offers from.old to.old }
    ensures all { OnOk result (OffersAll from.new to.new) }
{
    pass_batches(from, to)
}
