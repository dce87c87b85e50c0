//! A leg as an item of the log. Over `Dataflow::take_parts`, which hands out what the workers did.

ghost use Rattle.std.specs.Prelude.{◌≡◌, ◌∷◌, ◌++◌, [], OnErr, OnOk};
ghost use Rattle.amber_dataflow.specs.Dataflow.{AreAllThere, handed_out, leg_parts};
ghost use Rattle.amber_log.specs.Grammar.{is_last};
ghost use Rattle.amber_home.specs.HomeState.{item_of_leg};

use amber_dataflow::Dataflow;
use amber_log::{Close, Item, Items, Leg, Parts};
use std::alloc::{AllocError, Global};

// A leg as an item, up to a stop or to the end.
fn item_of_leg(to_end: bool, parts: Parts, close: Close) -> Item
    ensures { result ≡ item_of_leg to_end parts close }
{
    let leg = Leg { parts, close };
    if to_end {
        Item::End(leg)
    } else {
        Item::Run(leg)
    }
}

/// Appends a leg to the items, with what the workers have done, which they hand out.
pub(crate) fn push_leg(
    alloc: Global,
    to_end: bool,
    close: Close,
    items: &mut Items,
    dataflow: &mut Dataflow,
) -> Result<(), AllocError>
    requires { AreAllThere dataflow.old }
    ensures items { OnOk result
        (items.new ≡ items.old ++ item_of_leg to_end (leg_parts dataflow.old) close ∷ []) }
    ensures dataflow { OnOk result (dataflow.new ≡ handed_out dataflow.old) }
    ensures flow { dataflow.new.flow ≡ dataflow.old.flow }
    ensures err { OnErr result (items.new ≡ items.old) }
{
    let parts = dataflow.take_parts(alloc)?;
    items.push(item_of_leg(to_end, parts, close))
}

/// Whether nothing may follow an item: a leg to the end, or one that was closed as too long.
pub(crate) fn is_last(item: &Item) -> bool
    ensures { result ≡ is_last item.now }
{
    match item {
        Item::Do(_) => false,
        Item::Run(leg) => matches!(leg.close, Close::Long),
        Item::End(_) => true,
    }
}
