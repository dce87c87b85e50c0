//! A leg of a log that is done again, part by part, by the workers of the home.

ghost use Rattle.std.specs.Prelude.{IfOk, OnErr, [], true, ◌&&◌, ◌++◌, ◌<◌, ◌==◌, ◌≡◌, ◌∷◌};
ghost use Rattle.amber_log.specs.Grammar.{AreParts};
ghost use Rattle.amber_log.specs.ReadLines.{part_of};
ghost use Rattle.amber_rows.specs.Topology.{crew_of};
ghost use Rattle.amber_home.specs.HomeState.{is_open, runs_to_end, spent_at};
ghost use Rattle.amber_home.specs.Redoing.{ClosesRedone, EndsRedoing, RedoesPart, TellsClose, may_redo};

use super::Home;
use crate::phase::{Counts, Phase};
use crate::stopping::are_within;
use amber_dataflow::{PartRedone, empty_hands, redo_entries};
use amber_log::{Close, Entry};
use std::alloc::{AllocError, Global};
use std::mem;

// Whether all hands are empty, where those so far are or not and this is in one more.
fn are_empty(empty: bool, hand: u128) -> bool
    ensures { result ≡ (empty && (hand == 0)) }
{
    empty && hand == 0
}

impl Home {
    // The workers are ready to do a leg again. The answer is whether no hand holds a unit.
    fn bring_out(&mut self) -> bool
        requires within { may_redo self.old.phase ≡ true }
        ensures { self.new ≡ record self.old {
          phase = Phase.Redoing (runs_to_end self.old.phase) result;
        } }
    {
        if let Phase::Redoing { empty, .. } = self.phase {
            return empty;
        }
        self.dataflow.lend_to(&mut self.back);
        self.phase = Phase::Redoing {
            to_end: self.phase.runs_to_end(),
            empty: true,
        };
        true
    }

    /// A worker does again what a part of a log's leg says, one entry after the other, each of which meets its rule within
    /// the steps. Where one does not the answer is its place in the part, from 0 on, and the run cannot go on; nor can it
    /// after running out of memory.
    pub fn redo_part(&mut self, worker: u32, entries: &[Entry]) -> Result<Option<u64>, AllocError>
        requires within { may_redo self.old.phase ≡ true }
        requires there { worker < crew_of self.old.flow }
        requires next { AreParts 0 (self.old.parts ++ part_of worker entries.now ∷ []) }
        ensures ok { IfOk result (RedoesPart worker entries.now self.old self.new) }
        ensures err { OnErr result (self.new ≡ spent_at self.old) }
    {
        let empty = self.bring_out();
        let to_end = self.phase.runs_to_end();
        self.phase = Phase::Spent;
        let op = self.dataflow.flow().op_of(worker);
        let counted = self.arms.count_at(op).is_some();
        let crew = self.back.as_mut_slice();
        match redo_entries(crew, worker as usize, entries, counted, self.most)? {
            PartRedone::Illegal { place } => Ok(Some(place)),
            PartRedone::Done { hand } => {
                self.phase = Phase::Redoing {
                    to_end,
                    empty: are_empty(empty, hand),
                };
                Ok(None)
            }
        }
    }

    // The workers are settled again. The answer is whether every hand is empty and no count has counted more rows than it
    // asks for. Where that is not so the run cannot go on.
    fn end_redoing(&mut self, alloc: Global) -> Result<bool, AllocError>
        requires within { may_redo self.old.phase ≡ true }
        ensures ok { IfOk result (EndsRedoing self.old self.new) }
        ensures err { OnErr result (self.new ≡ spent_at self.old) }
    {
        let empty = self.bring_out();
        let to_end = self.phase.runs_to_end();
        self.phase = Phase::Spent;
        if !empty {
            return Ok(false);
        }
        empty_hands(alloc, self.back.as_mut_slice())?;
        let workers = mem::replace(&mut self.back, Vec::new(alloc));
        self.dataflow.take_back(workers)?;
        if !are_within(&self.arms, &self.dataflow) {
            return Ok(false);
        }
        self.phase = Phase::Open {
            to_end,
            counts: Counts::Disarmed,
        };
        Ok(true)
    }

    // Whether the leg that is open may be closed so.
    fn may_close(&self, alloc: Global, close: Close) -> Result<bool, AllocError>
        requires within { is_open self.now.phase ≡ true }
        ensures { IfOk result (TellsClose self.now close) }
    {
        if self.phase.runs_to_end() {
            let finished = self.have_finished();
            return Ok(match close {
                Close::Cut => finished,
                Close::Long => !finished && self.steps() == self.most(),
            });
        }
        let none = self.stops(alloc)?.get().is_empty();
        Ok(match close {
            Close::Cut => !none,
            Close::Long => none && self.steps() == self.most(),
        })
    }

    /// Closes a leg that was done again as the log says. The answer is whether it may be closed so: every hand is empty, no
    /// count has counted more rows than it asks for, and a stop stands, or to the end all have finished; the steps are within
    /// those of the run. Where it may not, and after running out of memory, the run cannot go on.
    pub fn close_redone(&mut self, alloc: Global, close: Close) -> Result<bool, AllocError>
        requires within { may_redo self.old.phase ≡ true }
        ensures ok { IfOk result (ClosesRedone close self.old self.new) }
        ensures err { OnErr result (self.new ≡ spent_at self.old) }
    {
        if !self.end_redoing(alloc)? {
            return Ok(false);
        }
        match self.may_close(alloc, close) {
            Ok(true) => {
                self.close_leg(alloc, close)?;
                Ok(true)
            }
            Ok(false) => {
                self.give_up();
                Ok(false)
            }
            Err(error) => {
                self.give_up();
                Err(error)
            }
        }
    }
}
