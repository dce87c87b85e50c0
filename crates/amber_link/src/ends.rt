//! The two ends of one link: what waits to be sent, what goes through the ring, what waits to be taken. Rests
//! on `Outbox` of `outbox`, and on the ring of `rtrb`.

ghost use Rattle.std.specs.Prelude.{◌≡◌, ◌==◌, ◌+◌, ◌^◌, ◌<◌, ◌≤◌, [], ◌∷◌, ◌++◌, drop, false, true, not, IfErr, IfNone, IfOk, IsOk, IsSome, OnErr, OnOk, length, option_to_list};
ghost use Rattle.rtrb.specs.Ring.{known_free, known_items, received, sent};
ghost use Rattle.amber_link.specs.Links.{AreLinked, AreSettled, Forwards, GivesBatches, IsWhole, SameIn, SameOut, come, has_some, starts_empty, waiting, IsSentTo};
ghost use Rattle.std.specs.VecDeque.{deque_capacity, deque_len};
ghost use Rattle.amber_link.specs.Outgoing.{Adds, EndsStream};

use crate::back::{Getter, Giver, way_back};
use crate::outbox::Outbox;
use amber_rows::{Batch, Row};
use rtrb::{Consumer, Producer, RingBuffer};
use std::alloc::{AllocError, Global};
use std::collections::VecDeque;

// How many batches a ring takes.
const SLOTS: usize = 8;
// For how many pushes room is made at once.
const ROWS_AHEAD: u64 = 64;

/// The end of a link into which rows are pushed.
pub struct Out {
    ring: Producer<Batch>,
    kept: Outbox,
    back: Getter,
}

impl Drop for Out {
    fn drop(self) {
        let Out {
            ring: _,
            kept: _,
            back: _,
        } = self;
    }
}

/// The end of a link of which batches are taken.
pub struct In {
    ring: Consumer<Batch>,
    inbox: VecDeque<Batch>,
    back: Giver,
}

impl Drop for In {
    fn drop(self) {
        let In {
            ring: _,
            inbox: _,
            back: _,
        } = self;
    }
}

/// Whether all batches that waited were sent.
#[derive(Clone, Copy, PartialEq, Eq)]
pub enum Sent {
    All,
    /// No free slot of the ring was known any more.
    Kept,
}

/// A link whose batches have `batch_size` rows, 1 to 65,536.
pub fn link(alloc: Global, batch_size: u32) -> Result<(Out, In), AllocError>
    requires some { 0 < batch_size }
    requires few { batch_size ≤ 65536 }
    ensures linked { IfOk result (λ ends. AreLinked ends.0 ends.1) }
    ensures out { IfOk result
        (λ ends. ends.0.kept
        ≡ record { batch_size = batch_size; made = 0; ended = false; waiting = []; partial = []; room = 0 }) }
    ensures none_sent { IfOk result (λ ends. sent ends.0.ring ≡ []) }
    ensures none_came { IfOk result (λ ends. received ends.1.ring ≡ []) }
    ensures none_known { IfOk result (λ ends. waiting ends.1 ≡ []) }
{
    let (producer, consumer) = RingBuffer::new(alloc, SLOTS)?;
    let (giver, getter) = way_back(alloc, SLOTS)?;
    let out = Out {
        ring: producer,
        kept: Outbox::new(alloc, batch_size),
        back: getter,
    };
    let into = In {
        ring: consumer,
        inbox: VecDeque::new(alloc),
        back: giver,
    };
    Ok((out, into))
}

// For how many rows room is made where it is asked for so many: for several pushes at once, but for none where only the end
// is to come.
fn ahead_of(rows: u64) -> u64
    ensures { rows ≤ result }
{
    if rows == 0 { 0 } else { rows.max(ROWS_AHEAD) }
}

impl Out {
    /// Makes room, so that `rows` pushes and an end after them are not refused. Where it makes room for a push it does so for
    /// 64, so that a caller may ask before each.
    #[inline(always)]
    pub fn reserve(&mut self, rows: u64) -> Result<(), AllocError>
        requires open { self.old.kept.ended ≡ false }
        ensures ring { self.new.ring ≡ self.old.ring }
        ensures only { self.new.kept ≡ record self.old.kept { room = self.new.kept.room } }
        ensures more { self.old.kept.room ≤ self.new.kept.room }
        ensures ok { OnOk result (rows < self.new.kept.room) }
        ensures err { OnErr result (self.new ≡ self.old) }
    {
        if rows < self.kept.room() {
            return Ok(());
        }
        self.kept.reserve(ahead_of(rows))
    }

    /// Pushes a row for which there is room.
    #[inline(always)]
    pub fn push_reserved(&mut self, row: Row)
        requires room { 1 < self.old.kept.room }
        requires few { self.old.kept.made < 2 ^ 40 }
        requires open { self.old.kept.ended ≡ false }
        ensures ring { self.new.ring ≡ self.old.ring }
        ensures adds { Adds self.old.kept row self.new.kept }
        ensures made { self.new.kept.made ≤ self.old.kept.made + 1 }
        ensures room { self.old.kept.room ≡ self.new.kept.room + 1 }
    {
        self.kept.push_reserved(row);
    }

    /// Ends the stream of rows, for which there is room: those that are left are the last batch.
    pub fn end_reserved(&mut self)
        requires room { 0 < self.old.kept.room }
        requires few { self.old.kept.made < 2 ^ 40 }
        requires open { self.old.kept.ended ≡ false }
        ensures ring { self.new.ring ≡ self.old.ring }
        ensures closes { EndsStream self.old.kept self.new.kept }
    {
        self.kept.end_reserved();
    }

    /// Pushes a row. It comes back where memory runs out.
    pub fn push(&mut self, row: Row) -> Result<(), Row>
        requires few { self.old.kept.made < 2 ^ 40 }
        requires open { self.old.kept.ended ≡ false }
        ensures ring { self.new.ring ≡ self.old.ring }
        ensures ok { OnOk result (Adds self.old.kept row self.new.kept) }
        ensures back { IfErr result (λ back. back ≡ row) }
        ensures err { OnErr result (self.new ≡ self.old) }
        ensures succeeds { 1 < self.old.kept.room → IsOk result }
        ensures room { self.old.kept.room ≤ self.new.kept.room + 1 }
        ensures made { self.new.kept.made ≤ self.old.kept.made + 1 }
    {
        if self.kept.room() > 1 {
            self.push_reserved(row);
            return Ok(());
        }
        if self.reserve(1).is_err() {
            return Err(row);
        }
        self.push_reserved(row);
        Ok(())
    }

    /// Ends the stream of rows: those that are left are the last batch.
    pub fn end(&mut self) -> Result<(), AllocError>
        requires few { self.old.kept.made < 2 ^ 40 }
        requires open { self.old.kept.ended ≡ false }
        ensures ring { self.new.ring ≡ self.old.ring }
        ensures ok { OnOk result (EndsStream self.old.kept self.new.kept) }
        ensures err { OnErr result (self.new ≡ self.old) }
        ensures succeeds { 0 < self.old.kept.room → IsOk result }
    {
        if self.kept.room() == 0 {
            self.reserve(0)?;
        }
        self.end_reserved();
        Ok(())
    }

    /// Sends the batches that wait, in their order, until none waits or no free slot of the ring is known.
    pub fn send(&mut self) -> Sent
        ensures forwards { Forwards self.old self.new }
        ensures sent { IsSentTo result self.new }
    {
        while !self.kept.is_empty() {
            if self.ring.is_full() {
                return Sent::Kept;
            }
            let Some(batch) = self.kept.pop() else {
                unreachable!()
            };
            self.ring.push_reserved(batch);
        }
        Sent::All
    }

    /// A list of rows that the receiver is done with, if one has come back. What they hold means nothing.
    pub fn take_back(&mut self) -> Option<Vec<Row>>
        ensures { self.new ≡ self.old }
    {
        self.back.get()
    }

    /// Keeps a list for a later batch, or drops it. What it holds means nothing.
    pub fn lend(&mut self, list: Vec<Row>)
        ensures { self.new ≡ self.old }
    {
        self.kept.lend(list);
    }

    /// Whether no batch waits to be sent.
    pub fn is_sent(&self) -> bool
        ensures { has_some self.now.kept.waiting ≡ not result }
    {
        self.kept.is_empty()
    }
}

impl In {
    /// Takes the first batch that waits, of those in the inbox, and else of those in the ring. `None` where the inbox has none
    /// and none is known to be in the ring.
    pub fn take(&mut self) -> Option<Batch>
        ensures gives { GivesBatches self.old (option_to_list result) self.new }
        ensures none { IfNone result ((self.old.inbox.items ≡ [])
            × (known_items self.new.ring ≡ [])) }
        ensures inbox { self.new.inbox.items ≡ drop 1 self.old.inbox.items }
        ensures known { has_some (waiting self.old) ≡ true → IsSome result }
    {
        if let Some(batch) = self.inbox.pop_front() {
            return Some(batch);
        }
        match self.ring.pop() {
            Ok(batch) => Some(batch),
            Err(_) => None,
        }
    }

    /// Looks for a batch, and says whether one is known to wait. Nothing is taken.
    pub fn look(&mut self) -> bool
        ensures gives { GivesBatches self.old [] self.new }
        ensures found { result ≡ has_some (waiting self.new) }
        ensures inbox { self.new.inbox.items ≡ self.old.inbox.items }
    {
        if !self.inbox.is_empty() {
            return true;
        }
        self.ring.slots() != 0
    }

    /// Takes the first batch that waits.
    pub fn take_known(&mut self) -> Batch
        requires { has_some (waiting self.old) ≡ true }
        ensures gives { GivesBatches self.old (result ∷ []) self.new }
        ensures inbox { self.new.inbox.items ≡ drop 1 self.old.inbox.items }
    {
        match self.inbox.pop_front() {
            Some(batch) => batch,
            None => self.ring.pop_known(),
        }
    }

    /// Gives back a list of rows that are done with, and drops it where the way back is full.
    pub fn give_back(&mut self, rows: Vec<Row>)
        ensures { self.new ≡ self.old }
    {
        self.back.give(rows);
    }

    /// Whether the first batch that waits has no row.
    pub fn starts_empty(&self) -> bool
        requires { has_some (waiting self.now) ≡ true }
        ensures { result ≡ starts_empty (waiting self.now) }
    {
        match self.inbox.front() {
            Some(batch) => batch.rows.is_empty(),
            None => self.ring.peek_known().rows.is_empty(),
        }
    }
}

// Moves what is in the ring into the inbox, which has room for it.
fn drain(into: &mut In)
    requires room { length (waiting into.old) ≤ deque_capacity into.old.inbox }
    ensures gives { GivesBatches into.old [] into.new }
    ensures inbox { into.new.inbox.items ≡ waiting into.old }
    ensures known { known_items into.new.ring ≡ [] }
    ensures came { received into.new.ring ≡ come into.old }
    ensures slots { deque_capacity into.new.inbox ≡ deque_capacity into.old.inbox }
{
    while into.ring.cached_slots() > 0 {
        let batch = into.ring.pop_known();
        into.inbox.push_back_reserved(batch);
    }
}

// Moves one batch through the ring, where that is empty.
fn carry(out: &mut Out, into: &mut In, batch: Batch)
    requires linked { AreLinked out.old into.old }
    requires even { received into.old.ring ≡ sent out.old.ring }
    requires known { known_items into.old.ring ≡ [] }
    requires room { deque_len into.old.inbox < deque_capacity into.old.inbox }
    ensures linked { AreLinked out.new into.new }
    ensures out { SameOut out.old out.new }
    ensures kept { out.new.kept ≡ out.old.kept }
    ensures sent { sent out.new.ring ≡ sent out.old.ring ++ batch ∷ [] }
    ensures even { received into.new.ring ≡ sent out.new.ring }
    ensures known { known_items into.new.ring ≡ [] }
    ensures into { SameIn into.old into.new }
    ensures inbox { into.new.inbox.items ≡ into.old.inbox.items ++ batch ∷ [] }
    ensures slots { deque_capacity into.new.inbox ≡ deque_capacity into.old.inbox }
{
    out.ring.slots_beside(&mut into.ring);
    out.ring.push_reserved(batch);
    into.ring.slots_beside(&mut out.ring);
    let carried = into.ring.pop_known();
    into.inbox.push_back_reserved(carried);
}

/// Moves all that the sender has sent or kept into the inbox, through the ring.
pub fn settle(out: &mut Out, into: &mut In) -> Result<(), AllocError>
    requires { AreLinked out.old into.old }
    ensures linked { AreLinked out.new into.new }
    ensures forwards { Forwards out.old out.new }
    ensures gives { GivesBatches into.old [] into.new }
    ensures whole { IsWhole out.old into.old }
    ensures ok { OnOk result (AreSettled out.new into.new) }
    ensures inbox_on_err { OnErr result (into.new.inbox.items ≡ into.old.inbox.items) }
    ensures out_on_err { OnErr result (out.new.kept ≡ out.old.kept) }
{
    let known = into.ring.slots_beside(&mut out.ring);
    let Some(count) = known.checked_add(out.kept.len()) else {
        return Err(AllocError);
    };
    into.inbox.reserve(count)?;
    drain(into);
    while let Some(batch) = out.kept.pop() {
        carry(out, into, batch);
    }
    Ok(())
}
