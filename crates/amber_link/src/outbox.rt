//! The outbox of a link: rows that are pushed become batches, which wait to be sent. Rests on `Batch` of
//! `amber_rows`.

ghost use Rattle.std.specs.Prelude.{◌≡◌, ◌+◌, ◌*◌, ◌^◌, ◌<◌, ◌≤◌, [], ◌∷◌, ◌++◌, false, not, IfOk, IsOk, OnErr, OnOk, length, vec_capacity, vec_len, min, is_some, option_to_list};
ghost use Rattle.std.specs.VecDeque.{deque_capacity, deque_len};
ghost use Rattle.amber_link.specs.Links.{has_some};
ghost use Rattle.amber_link.specs.Outgoing.{Outgoing, with_end, with_row};
ghost use Rattle.amber_link.specs.Rooms.{AreSpare};

use amber_rows::{Batch, Row, Rows};
use std::alloc::{AllocError, Global};
use std::collections::VecDeque;
use std::marker::Model;
use std::mem;

// No memory holds as many rows as this.
const MOST_ROWS: u64 = 1 << 40;
// How many lists that were lent are kept at most.
const MOST_SPARE: usize = 8;

// How many batches this many rows fill at most, with one for those that are left.
fn batches_for(batch_size: u64, rows: u64) -> u64
    requires some { 0 < batch_size }
    requires few { rows < 2 ^ 48 }
    ensures enough { rows ≤ batch_size * result }
    ensures some { 0 < result }
    ensures few { result ≤ rows + 1 }
{
    if rows <= batch_size {
        1
    } else {
        rows / batch_size + 1
    }
}

// Makes empty lists of rows, so that `wanted` of them are spare.
fn reserve_spares(
    alloc: Global,
    spare: &mut Vec<Vec<Row>>,
    batch_size: usize,
    wanted: usize,
) -> Result<(), AllocError>
    requires { AreSpare batch_size spare.old.items }
    ensures spare { AreSpare batch_size spare.new.items }
    ensures more { vec_len spare.old ≤ vec_len spare.new }
    ensures enough { OnOk result (wanted ≤ vec_len spare.new) }
{
    for _ in spare.len()..wanted {
        spare.push(Vec::with_capacity(alloc, batch_size)?)?;
    }
    Ok(())
}

// Keeps an empty list of rows as a spare one, or drops it where there is no space for it or it takes no batch.
fn keep_list(spare: &mut Vec<Vec<Row>>, batch_size: usize, list: Vec<Row>)
    requires spare { AreSpare batch_size spare.old.items }
    requires empty { list.items ≡ [] }
    ensures spare { AreSpare batch_size spare.new.items }
    ensures more { vec_len spare.old ≤ vec_len spare.new }
{
    if list.capacity() < batch_size || spare.len() >= MOST_SPARE {
        return;
    }
    let _ = spare.push(list);
}

// An empty list of rows, a spare one if there is any.
fn next_list(alloc: Global, spare: &mut Vec<Vec<Row>>, batch_size: usize) -> Vec<Row>
    requires { AreSpare batch_size spare.old.items }
    ensures empty { result.items ≡ [] }
    ensures none_held { vec_len result ≡ 0 }
    ensures spare { AreSpare batch_size spare.new.items }
    ensures large { 0 < vec_len spare.old → batch_size ≤ vec_capacity result }
    ensures fewer { 0 < vec_len spare.old → vec_len spare.old ≡ vec_len spare.new + 1 }
    ensures none { vec_len spare.old ≡ 0 → vec_len spare.new ≡ 0 }
{
    match spare.pop() {
        Some(list) => list,
        None => Vec::new(alloc),
    }
}

// Makes a batch of the rows. The next list takes their place.
fn cut(waiting: &mut VecDeque<Batch>, partial: &mut Vec<Row>, next: Vec<Row>, seq: u64, last: bool)
    requires { deque_len waiting.old < deque_capacity waiting.old }
    ensures made { waiting.new.items
        ≡ waiting.old.items ++ record { seq = seq; rows = partial.old.items; last = last } ∷ [] }
    ensures longer { deque_len waiting.new ≡ deque_len waiting.old + 1 }
    ensures slots { deque_capacity waiting.new ≡ deque_capacity waiting.old }
    ensures left { partial.new ≡ next }
{
    let rows = Rows::new(mem::replace(partial, next));
    waiting.push_back_reserved(Batch { seq, rows, last });
}

/// The rows and batches of one receiver that were not sent yet.
pub struct Outbox {
    alloc: Global,
    batch_size: u32,
    made: u64,
    ended: bool,
    waiting: VecDeque<Batch>,
    partial: Vec<Row>,
    room: u64,
    spare: Vec<Vec<Row>>,
}

impl Drop for Outbox {
    fn drop(self) {
        let Outbox {
            alloc: _,
            batch_size: _,
            made: _,
            ended: _,
            waiting: _,
            partial: _,
            room: _,
            spare: _,
        } = self;
    }
}

impl Model for Outbox {
    ghost use Rattle.std.specs.Prelude.{length, vec_capacity, vec_len};
    ghost use Rattle.std.specs.VecDeque.{deque_capacity, deque_len};
    ghost use Rattle.amber_link.specs.Outgoing.{Outgoing};
    ghost use Rattle.amber_link.specs.Rooms.{AreSpare, HasRoom};

    ghost Value = { Outgoing };

    ghost view = { λ a. record { batch_size = a.batch_size; made = a.made; ended = a.ended; waiting = a.waiting.items; partial = a.partial.items; room = a.room } };

    ghost invariant = { λ a. HasRoom
        (record { batch_size = a.batch_size; room = a.room; held = vec_len a.partial; capacity = vec_capacity a.partial; spares = vec_len a.spare; waiting = deque_len a.waiting; slots = deque_capacity a.waiting }) × AreSpare a.batch_size a.spare.items };
}

impl Outbox {
    /// Nothing was made for this receiver.
    pub(crate) fn new(alloc: Global, batch_size: u32) -> Self
        requires { 0 < batch_size }
        ensures { result ≡ record {
          batch_size = batch_size;
          made = 0;
          ended = false;
          waiting = [];
          partial = [];
          room = 0;
        } }
    {
        Outbox {
            alloc,
            batch_size,
            made: 0,
            ended: false,
            waiting: VecDeque::new(alloc),
            partial: Vec::new(alloc),
            room: 0,
            spare: Vec::new(alloc),
        }
    }

    /// Whether no batch waits to be sent.
    pub(crate) fn is_empty(&self) -> bool
        ensures { has_some self.now.waiting ≡ not result }
    {
        self.waiting.is_empty()
    }

    /// The first batch that waits to be sent.
    pub(crate) fn pop(&mut self) -> Option<Batch>
        ensures batch { self.old.waiting ≡ option_to_list result ++ self.new.waiting }
        ensures found { has_some self.old.waiting ≡ is_some result }
        ensures only { self.new ≡ record self.old { waiting = self.new.waiting } }
    {
        self.waiting.pop_front()
    }

    /// For how many rows and the end there is room.
    #[inline(always)]
    pub(crate) fn room(&self) -> u64
        ensures { result ≡ self.now.room }
    {
        self.room
    }

    /// How many batches wait to be sent.
    pub(crate) fn len(&self) -> usize
        ensures { result ≡ length self.now.waiting }
    {
        self.waiting.len()
    }

    /// Makes room for `rows` rows and the end.
    pub(crate) fn reserve(&mut self, rows: u64) -> Result<(), AllocError>
        ensures only { self.new ≡ record self.old { room = self.new.room } }
        ensures more { self.old.room ≤ self.new.room }
        ensures ok { OnOk result (rows < self.new.room) }
        ensures err { OnErr result (self.new ≡ self.old) }
    {
        if rows > MOST_ROWS {
            return Err(AllocError);
        }
        let batch_size = u64::from(self.batch_size);
        let held = self.partial.len() as u64;
        let batches = batches_for(batch_size, held + rows);
        let most = batch_size.min(held + rows);
        self.partial.reserve((most - held) as usize)?;
        let spares = (batches - 1) as usize;
        reserve_spares(
            self.alloc,
            &mut self.spare,
            self.batch_size as usize,
            spares,
        )?;
        self.waiting.reserve((batches + 1) as usize)?;
        self.room = self.room.max(rows + 1);
        Ok(())
    }

    /// Keeps a list for a later batch, or drops it. What it holds means nothing.
    pub(crate) fn lend(&mut self, mut list: Vec<Row>)
        ensures { self.new ≡ self.old }
    {
        list.clear();
        keep_list(&mut self.spare, self.batch_size as usize, list);
    }

    /// Appends a row, for which there is room; a full batch waits to be sent.
    #[inline(always)]
    pub(crate) fn push_reserved(&mut self, row: Row)
        requires room { 1 < self.old.room }
        requires few { self.old.made < 2 ^ 40 }
        ensures { self.new ≡ with_row row self.old }
    {
        self.room -= 1;
        self.partial.push_reserved(row);
        if self.partial.len() != self.batch_size as usize {
            return;
        }
        let next = next_list(self.alloc, &mut self.spare, self.batch_size as usize);
        cut(&mut self.waiting, &mut self.partial, next, self.made, false);
        self.made += 1;
    }

    /// The rows that are left are the last batch, for which there is room.
    pub(crate) fn end_reserved(&mut self)
        requires room { 0 < self.old.room }
        requires few { self.old.made < 2 ^ 40 }
        ensures { self.new ≡ with_end self.old }
    {
        let next = Vec::new(self.alloc);
        cut(&mut self.waiting, &mut self.partial, next, self.made, true);
        self.made += 1;
        self.room = 0;
        self.ended = true;
    }
}
