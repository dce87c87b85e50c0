//! The workers that send to one worker, each with its end of the link. Rests on `In` of `ends`.

ghost use Rattle.std.specs.Prelude.{◌≡◌, ◌≢◌, ◌==◌, ◌+◌, ◌^◌, ◌<◌, ◌≤◌, ◌∷◌, [], ℕ, All, true, false, length, slice_index_or, take, IfNone, IfSome};
ghost use Rattle.std.specs.List.{list_any};
ghost use Rattle.amber_link.specs.Links.{GivesBatches, has_some, starts_empty, waiting};
ghost use Rattle.amber_link.specs.Sides.{AreLooked, IsLooked, IsTaken, comes_next, have_all_ended, have_builders_ended, may_come};
ghost use Rattle.amber_link.specs.declared.upstreams.Upstream.{Upstream as OneUpstream};

use crate::ends::In;
use amber_rows::{Batch, Row};

/// What a worker keeps of one that sends to it: its running number, whether it is of the build side of a join, how many of
/// its batches were taken, whether the last was, and the end of the link.
pub struct Upstream {
    from: u32,
    builds: bool,
    taken: u64,
    ended: bool,
    pub(crate) link: In,
}

impl Drop for Upstream {
    fn drop(self) {
        let Upstream {
            from: _,
            builds: _,
            taken: _,
            ended: _,
            link: _,
        } = self;
    }
}

/// A batch that was taken, its sender, whether that is of the build side, and its `seq`.
#[derive(Drop)]
pub struct Found {
    pub from: u32,
    pub builds: bool,
    pub seq: u64,
    pub batch: Batch,
}

impl Upstream {
    /// Nothing was taken of this sender.
    pub fn new(from: u32, builds: bool, link: In) -> Self
        ensures { result ≡ record {
          from = from;
          builds = builds;
          taken = 0;
          ended = false;
          link = link;
        } }
    {
        Upstream {
            from,
            builds,
            taken: 0,
            ended: false,
            link,
        }
    }

    /// The running number of the sender.
    pub fn from(&self) -> u32
        ensures { result ≡ self.now.from }
    {
        self.from
    }

    // Whether a batch may be taken, where the build side has ended or not. Nothing is taken, but more batches may be known
    // than before.
    fn is_ready(&mut self, built: bool) -> bool
        ensures looked { IsLooked self.old self.new }
        ensures ready { result ≡ may_come built self.new }
    {
        if self.ended || !(self.builds || built) {
            return false;
        }
        self.link.look()
    }

    // Whether it is the sender with this number, and this is the number of its next batch, which may be taken, where the
    // build side has ended or not. Nothing is taken, but more batches may be known than before.
    fn comes_next(&mut self, built: bool, from: u32, number: u64) -> bool
        ensures looked { IsLooked self.old self.new }
        ensures next { result ≡ comes_next built from number self.new }
    {
        if self.from != from || self.taken != number {
            return false;
        }
        self.is_ready(built)
    }

    // Takes the first batch that waits.
    fn take(&mut self) -> Batch
        requires waits { has_some (waiting self.old.link) ≡ true }
        requires few { self.old.taken + 1 < 2 ^ 64 }
        ensures gives { GivesBatches self.old.link (result ∷ []) self.new.link }
        ensures is { self.new ≡ record self.old {
          taken = self.old.taken + 1;
          ended = result.last;
          link = self.new.link;
        } }
        ensures empty { starts_empty (waiting self.old.link) ≡ (length result.rows == 0) }
    {
        let batch = self.link.take_known();
        self.taken += 1;
        self.ended = batch.last;
        batch
    }
}

/// The place of a sender.
pub fn place_of(ins: &[Upstream], from: u32) -> usize
    requires { list_any (λ one. one.from == from) ins.now ≡ true }
    ensures there { result < length ins.now }
    ensures own { (d : OneUpstream) → (slice_index_or ins.now result d).from ≡ from }
    ensures first { list_any (λ one. one.from == from) (take result ins.now) ≡ false }
{
    for (i, one) in ins.iter().enumerate() {
        if one.from == from {
            return i;
        }
    }
    unreachable!()
}

/// Whether the last batches of all senders of the build side were taken.
pub fn have_built(ins: &[Upstream]) -> bool
    ensures { result ≡ have_builders_ended ins.now }
{
    ins.iter().all(|one| !one.builds || one.ended)
}

/// Whether the last batches of all senders were taken.
pub fn have_ended(ins: &[Upstream]) -> bool
    ensures { result ≡ have_all_ended ins.now }
{
    ins.iter().all(|one| one.ended)
}

/// The place of a sender from which a batch may be taken, where the build side has ended or not. Nothing is
/// taken, but more batches may be known than before.
pub fn ready_place(ins: &mut [Upstream], built: bool) -> Option<usize>
    ensures looked { AreLooked ins.old ins.new }
    ensures none { IfNone result (list_any (may_come built) ins.new ≡ false) }
    ensures some { IfSome result (λ _. list_any (may_come built) ins.new ≡ true) }
    ensures there { IfSome result (λ i. i < length ins.new) }
    ensures ready { IfSome result
        (λ i. (d : OneUpstream) → may_come built (slice_index_or ins.new i d) ≡ true) }
{
    for i in 0..ins.len() {
        if ins[i].is_ready(built) {
            return Some(i);
        }
    }
    None
}

/// The place of the sender with this number, where this is the number of its next batch and that may be taken. Nothing
/// is taken, but more batches may be known than before.
pub fn next_place(ins: &mut [Upstream], from: u32, number: u64, built: bool) -> Option<usize>
    ensures looked { AreLooked ins.old ins.new }
    ensures none { IfNone result (list_any (comes_next built from number) ins.new ≡ false) }
    ensures there { IfSome result (λ i. i < length ins.new) }
    ensures next { IfSome result (λ i. (d : OneUpstream)
        → comes_next built from number (slice_index_or ins.new i d) ≡ true) }
{
    for i in 0..ins.len() {
        if ins[i].comes_next(built, from, number) {
            return Some(i);
        }
    }
    None
}

/// Whether the first batch that waits of the sender at this place has no row.
pub fn is_empty_at(ins: &[Upstream], i: usize) -> bool
    requires there { i < length ins.now }
    requires waits { (d : OneUpstream) → has_some (waiting (slice_index_or ins.now i d).link) ≡ true }
    ensures { (d : OneUpstream) → starts_empty (waiting (slice_index_or ins.now i d).link) ≡ result }
{
    ins[i].link.starts_empty()
}

/// Takes the first batch of the sender at this place.
pub fn take_at(ins: &mut [Upstream], i: usize) -> Found
    requires there { i < length ins.old }
    requires ready { (d : OneUpstream)
        → may_come (have_builders_ended ins.old) (slice_index_or ins.old i d) ≡ true }
    requires few { All (λ one. one.taken + 1 < 2 ^ 64) ins.old }
    ensures taken { (one : OneUpstream) × (one.from ≡ result.from) × (one.taken ≡ result.seq)
        × (one.builds ≡ result.builds) × IsTaken ins.old one result.batch ins.new }
    ensures others { (place : ℕ) (d : OneUpstream) → place ≢ i
        → slice_index_or ins.new place d ≡ slice_index_or ins.old place d }
    ensures empty { (d : OneUpstream) → starts_empty (waiting (slice_index_or ins.old i d).link)
        ≡ (length result.batch.rows == 0) }
    ensures few { (n : ℕ) → All (λ one. one.taken ≤ n) ins.old
        → All (λ one. one.taken ≤ n + 1) ins.new }
{
    let one = &mut ins[i];
    let from = one.from;
    let builds = one.builds;
    let seq = one.taken;
    let batch = one.take();
    Found {
        from,
        builds,
        seq,
        batch,
    }
}

/// Gives back a list of rows that are done with to the sender with this number, and drops it where there is none or its
/// way back is full.
pub fn give_back(ins: &mut [Upstream], from: u32, rows: Vec<Row>)
    ensures { ins.new ≡ ins.old }
{
    for i in 0..ins.len() {
        if ins[i].from == from {
            ins[i].link.give_back(rows);
            return;
        }
    }
}
