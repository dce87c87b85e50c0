//! The workers to which one worker sends, each with its end of the link. Rests on `Out` of `ends`.

ghost use Rattle.std.specs.Prelude.{◌≡◌, ◌≢◌, ◌==◌, ◌+◌, ◌^◌, ◌<◌, ◌≤◌, ℕ, Bool, All, true, false, length, map, slice_index_or, take, IfNone, IfSome, OnErr, OnOk};
ghost use Rattle.std.specs.List.{list_any};
ghost use Rattle.amber_link.specs.Links.{has_some};
ghost use Rattle.amber_link.specs.Sides.{AreEnded, CanSendNoMore, HandsOn, HaveSentOn, without_room};
ghost use Rattle.amber_link.specs.declared.downstreams.Downstream.{Downstream as OneDownstream};

use crate::ends::Out;
use amber_rows::Row;
use std::alloc::AllocError;
use std::mem;

/// What a worker keeps of one to which it sends: its running number, and the end of the link.
pub struct Downstream {
    to: u32,
    pub(crate) link: Out,
}

impl Drop for Downstream {
    fn drop(self) {
        let Downstream { to: _, link: _ } = self;
    }
}

impl Downstream {
    /// A receiver by its running number.
    pub fn new(to: u32, link: Out) -> Self
        ensures { result ≡ record { to = to; link = link } }
    {
        Downstream { to, link }
    }

    /// The running number of the receiver.
    pub fn to(&self) -> u32
        ensures { result ≡ self.now.to }
    {
        self.to
    }
}

/// Whether there is this receiver.
pub fn has_receiver(outs: &[Downstream], to: u32) -> bool
    ensures { result ≡ list_any (λ one. one.to == to) outs.now }
{
    outs.iter().any(|one| one.to == to)
}

/// The place of a receiver, if there is one.
pub fn place_to(outs: &[Downstream], to: u32) -> Option<usize>
    ensures none { IfNone result (list_any (λ one. one.to == to) outs.now ≡ false) }
    ensures there { IfSome result (λ place. place < length outs.now) }
    ensures own { IfSome result
        (λ place. (d : OneDownstream) → (slice_index_or outs.now place d).to ≡ to) }
{
    for (i, one) in outs.iter().enumerate() {
        if one.to == to {
            return Some(i);
        }
    }
    None
}

/// The running number of the receiver at a place, if a batch waits to be sent to it.
pub fn waiting_at(outs: &[Downstream], place: usize) -> Option<u32>
    requires { place < length outs.now }
    ensures none { IfNone result ((d : OneDownstream)
        → has_some (slice_index_or outs.now place d).link.kept.waiting ≡ false) }
    ensures some { IfSome result
        (λ to. (d : OneDownstream) → (slice_index_or outs.now place d).to ≡ to) }
    ensures waits { IfSome result (λ _. (d : OneDownstream)
        → has_some (slice_index_or outs.now place d).link.kept.waiting ≡ true) }
{
    let one = &outs[place];
    if one.link.is_sent() {
        return None;
    }
    Some(one.to)
}

/// Makes room for one row and the end, for the receiver at this place.
#[inline(always)]
pub fn reserve_at(outs: &mut [Downstream], place: usize) -> Result<(), AllocError>
    requires there { place < length outs.old }
    requires open { (d : OneDownstream) → (slice_index_or outs.old place d).link.kept.ended ≡ false }
    ensures same { map without_room outs.new ≡ map without_room outs.old }
    ensures still_open { (b : Bool) → All (λ one. one.link.kept.ended ≡ b) outs.old
        → All (λ one. one.link.kept.ended ≡ b) outs.new }
    ensures made { (n : ℕ) → All (λ one. one.link.kept.made ≤ n) outs.old
        → All (λ one. one.link.kept.made ≤ n) outs.new }
    ensures ok { OnOk result ((d : OneDownstream)
        → 1 < (slice_index_or outs.new place d).link.kept.room) }
{
    outs[place].link.reserve(1)
}

/// Pushes a row for the receiver at this place, where there is room.
#[inline(always)]
pub fn push_at(outs: &mut [Downstream], place: usize, row: Row)
    requires there { place < length outs.old }
    requires room { (d : OneDownstream) → 1 < (slice_index_or outs.old place d).link.kept.room }
    requires few { All (λ one. one.link.kept.made < 2 ^ 40) outs.old }
    requires open { All (λ one. one.link.kept.ended ≡ false) outs.old }
    ensures hands_on { HandsOn place row (map without_room outs.old) (map without_room outs.new) }
    ensures open { All (λ one. one.link.kept.ended ≡ false) outs.new }
    ensures few { (n : ℕ) → All (λ one. one.link.kept.made ≤ n) outs.old
        → All (λ one. one.link.kept.made ≤ n + 1) outs.new }
    ensures room { (n : ℕ) → All (λ one. n + 1 < one.link.kept.room) outs.old
        → All (λ one. n < one.link.kept.room) outs.new }
    ensures others { (k : ℕ) (d : OneDownstream) → k ≢ place
        → slice_index_or outs.new k d ≡ slice_index_or outs.old k d }
    ensures less { (d : OneDownstream) → (slice_index_or outs.old place d).link.kept.room
        ≡ (slice_index_or outs.new place d).link.kept.room + 1 }
{
    outs[place].link.push_reserved(row);
}

/// Makes room for so many rows and the end, for each receiver.
pub fn reserve_rows(outs: &mut [Downstream], rows: u64) -> Result<(), AllocError>
    requires open { All (λ one. one.link.kept.ended ≡ false) outs.old }
    ensures same { map without_room outs.new ≡ map without_room outs.old }
    ensures open { All (λ one. one.link.kept.ended ≡ false) outs.new }
    ensures ok { OnOk result (All (λ one. rows < one.link.kept.room) outs.new) }
{
    for one in outs.iter_mut() {
        one.link.reserve(rows)?;
    }
    Ok(())
}

/// Makes room for as many rows and the end, for each receiver, as stand at its place.
pub fn reserve_each(outs: &mut [Downstream], rows: &[u64]) -> Result<(), AllocError>
    requires one_each { length rows.now ≡ length outs.old }
    requires open { All (λ one. one.link.kept.ended ≡ false) outs.old }
    ensures same { map without_room outs.new ≡ map without_room outs.old }
    ensures open { All (λ one. one.link.kept.ended ≡ false) outs.new }
    ensures ok { OnOk result ((k : ℕ) (d : OneDownstream) → k < length rows.now
        → slice_index_or rows.now k 0 < (slice_index_or outs.new k d).link.kept.room) }
{
    for (i, one) in outs.iter_mut().enumerate() {
        one.link.reserve(rows[i])?;
    }
    Ok(())
}

/// Makes room for the end of all streams.
pub fn reserve_ends(outs: &mut [Downstream]) -> Result<(), AllocError>
    requires open { All (λ one. one.link.kept.ended ≡ false) outs.old }
    ensures same { map without_room outs.new ≡ map without_room outs.old }
    ensures ok { OnOk result (All (λ one. 0 < one.link.kept.room) outs.new) }
{
    for one in outs.iter_mut() {
        one.link.reserve(0)?;
    }
    Ok(())
}

/// Ends all streams, where there is room.
pub fn end_all(outs: &mut [Downstream])
    requires room { All (λ one. 0 < one.link.kept.room) outs.old }
    requires few { All (λ one. one.link.kept.made < 2 ^ 40) outs.old }
    requires open { All (λ one. one.link.kept.ended ≡ false) outs.old }
    ensures ends { AreEnded (map without_room outs.old) (map without_room outs.new) }
    ensures ended { All (λ one. one.link.kept.ended ≡ true) outs.new }
{
    for one in outs.iter_mut() {
        one.link.end_reserved();
    }
}

/// Sends what waits to each receiver in turn, as far as free slots of its ring are known. A full
/// ring keeps no other receiver waiting. It takes no memory, and does not wait for a receiver.
pub fn send_all(outs: &mut [Downstream])
    ensures forwards { HaveSentOn outs.old outs.new }
    ensures sent { All CanSendNoMore outs.new }
{
    for one in outs.iter_mut() {
        one.link.send();
    }
}

/// A list of rows that one of the receivers is done with, if one has come back. What they hold means nothing.
pub fn take_back(outs: &mut [Downstream]) -> Option<Vec<Row>>
    ensures { outs.new ≡ outs.old }
{
    for i in 0..outs.len() {
        if let Some(rows) = outs[i].link.take_back() {
            return Some(rows);
        }
    }
    None
}

/// Puts a list of rows that one of the receivers is done with, if one has come back, in the place of a list, which is
/// lent for a later batch to that receiver. What the lists hold means nothing.
pub fn trade_back(outs: &mut [Downstream], list: &mut Vec<Row>)
    ensures { outs.new ≡ outs.old }
{
    for i in 0..outs.len() {
        if let Some(rows) = outs[i].link.take_back() {
            outs[i].link.lend(mem::replace(list, rows));
            return;
        }
    }
}
