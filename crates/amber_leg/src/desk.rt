//! What the coordinator of a round knows of all workers, and what it is to look out for. Over `Known` of `known`. All of it is
//! hints, on which no clause rests.

use crate::known::Known;
use crate::signals::Signals;
use amber_mail::{Control, Gate, Post, RingMail, mail_rings};
use amber_principal::{Need, Order, PLACES, Seen};
use amber_worker::Worker;
use std::alloc::{AllocError, Global};

/// What the coordinator of a round has before it.
#[derive(Drop)]
pub(crate) struct Desk {
    // By the numbers of the workers.
    workers: Vec<Known>,
    // The ends of their mails, where they are driven by other threads.
    posts: Vec<Post>,
    // The rows that the operators' pauses ask for, by the operators' numbers, from 1 on.
    pauses: Vec<Option<u64>>,
    // Whether all are to be paused.
    pausing: bool,
    // How much the workers were told.
    told: u64,
}

/// The number of the operator that stands at a place among all.
pub(crate) fn op_at(place: usize) -> u32 {
    u32::try_from(place).unwrap_or(u32::MAX).saturating_add(1)
}

impl Desk {
    /// A desk for these workers, who have no mails.
    pub fn open(
        alloc: Global,
        pauses: Vec<Option<u64>>,
        workers: &[Worker],
    ) -> Result<Desk, AllocError> {
        let mut known = Vec::with_capacity(alloc, workers.len())?;
        'workers: for worker in workers {
            known.push(Known::new(worker))?;
        }
        Ok(Desk {
            workers: known,
            posts: Vec::new(alloc),
            pauses,
            pausing: false,
            told: 0,
        })
    }

    /// Mails for all workers, whose ends are handed out, by their numbers.
    pub fn open_mails(&mut self, alloc: Global) -> Result<Vec<Option<RingMail>>, AllocError> {
        let mut ends = Vec::with_capacity(alloc, self.workers.len())?;
        'workers: for _ in 0..self.workers.len() {
            let (post, end): (Post, RingMail) = mail_rings(alloc)?;
            self.posts.push(post)?;
            ends.push(Some(end))?;
        }
        Ok(ends)
    }

    /// Sees how the worker of this number stands.
    pub fn see(&mut self, number: usize, worker: &Worker) {
        if let Some(known) = self.workers.get_mut(number) {
            known.see(worker);
        }
    }

    /// Hears what all workers have noted. The answer is whether one has noted anything.
    pub fn hear(&mut self) -> bool {
        let mut any = false;
        'workers: for (worker, post) in self.workers.iter_mut().zip(self.posts.iter_mut()) {
            any |= worker.hear(post);
        }
        any
    }

    // How many rows an operator's workers have emitted.
    fn emitted_by(&self, op: u32) -> u64 {
        let mut rows = 0u64;
        'workers: for worker in self.workers.iter() {
            if worker.op == op {
                rows = rows.saturating_add(worker.emitted);
            }
        }
        rows
    }

    // Whether an operator has emitted as many rows as its pause asks for.
    fn is_pause_due(&self) -> bool {
        'operators: for place in 0..self.pauses.len() {
            if let Some(rows) = self.pauses[place] {
                if rows <= self.emitted_by(op_at(place)) {
                    return true;
                }
            }
        }
        false
    }

    /// Whether all are to be paused: a worker is held, or a pause is due.
    pub fn is_due(&self) -> bool {
        self.workers.iter().any(|worker| worker.held) || self.is_pause_due()
    }

    /// Whether all are to be paused, or were.
    pub fn is_pausing(&self) -> bool {
        self.pausing
    }

    /// All are to be paused.
    pub fn pause_all(&mut self) {
        self.pausing = true;
    }

    /// What an operator's workers need, by their places; nothing is known of those that there are not.
    pub fn needs_of(&self, op: u32) -> [Need; PLACES] {
        let mut needs = [Need::Absent; PLACES];
        let mut place = 0usize;
        'workers: for worker in self.workers.iter() {
            if worker.op == op && place < PLACES {
                needs[place] = worker.need;
                place += 1;
            }
        }
        needs
    }

    /// Whether one of an operator's workers has no unit.
    pub fn is_starved(&self, op: u32) -> bool {
        self.workers
            .iter()
            .any(|worker| worker.op == op && worker.need.is_starved())
    }

    /// Does by an order for an operator's workers.
    pub fn follow(&mut self, op: u32, order: &Order) {
        if order.seen == Seen::Hit {
            self.pause_all();
            return;
        }
        let mut place = 0usize;
        'workers: for worker in self.workers.iter_mut() {
            if worker.op == op && place < PLACES {
                if order.give[place] {
                    worker.ask_back();
                }
                if order.claim[place] {
                    worker.let_claim();
                }
                place += 1;
            }
        }
    }

    // Has all paused, where they are to be and were not told yet. The answer is whether they were told now.
    fn tell_pause<G: Gate>(&mut self, gate: &G, who: u32, signals: &Signals) -> bool {
        if !self.pausing || signals.is_pausing() {
            return false;
        }
        signals.pause();
        gate.pass(who, self.told);
        self.told = self.told.saturating_add(1);
        true
    }

    /// What the worker of this number is to be told next, if anything, which is told then.
    pub fn take_control(&mut self, number: usize) -> Option<Control> {
        self.workers.get_mut(number)?.take_control()
    }

    // Tells a worker what it is to be told next, and passes the gate then. The answer is whether it was told anything.
    fn tell_next<G: Gate>(&mut self, number: usize, gate: &G, who: u32) -> bool {
        let Some(worker) = self.workers.get_mut(number) else {
            return false;
        };
        let Some(post) = self.posts.get_mut(number) else {
            return false;
        };
        let Some(control) = worker.take_control() else {
            return false;
        };
        if post.push(control).is_err() {
            worker.keep_control(control);
            return false;
        }
        gate.pass(who, self.told);
        self.told = self.told.saturating_add(1);
        true
    }

    /// Tells each worker what it is to be told next, by its mail. The coordinator passes the gate as the number behind the last
    /// worker's, after whatever was told. The answer is whether anything was.
    pub fn tell<G: Gate>(&mut self, gate: &G, signals: &Signals) -> bool {
        let who = u32::try_from(self.workers.len()).unwrap_or(u32::MAX);
        let mut any = self.tell_pause(gate, who, signals);
        'workers: for number in 0..self.workers.len() {
            any |= self.tell_next(number, gate, who);
        }
        any
    }
}
