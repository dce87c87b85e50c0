//! The workers of a workflow by their numbers, and which of them send to which. Over `Flow`.

ghost use Rattle.std.specs.Prelude.{◌≡◌, ◌+◌, ◌<◌, ◌≤◌, ◌++◌, ◌∷◌, [], if◌then◌else◌, IfNone, IfOk, IfSome, OnOk, length};
ghost use Rattle.amber_rows.specs.Topology as crew;
ghost use Rattle.amber_rows.specs.Topology.{crew_of, first_worker_of, follower_of, op_of, reader_of, receivers_of, senders_of, what_at, worker_count};

use crate::column::Cols;
use crate::flow::{Flow, Operator, What};
use std::alloc::{AllocError, Global};

// How many workers these operators have together.
#[tactic(auto, unfolding(crate::specs::Topology::crew_of))]
fn workers_in(operators: &[Operator]) -> u32
    requires { crew_of operators.now ≤ 128 }
    ensures { result ≡ crew_of operators.now }
{
    operators.iter().map(|operator| operator.workers).sum()
}

// Appends a number, if it is wanted.
fn push_if(numbers: &mut Vec<u32>, number: u32, wanted: bool) -> Result<(), AllocError>
    ensures { OnOk result (numbers.new.items
        ≡ numbers.old.items ++ (if wanted then number ∷ [] else [])) }
{
    if wanted {
        numbers.push(number)?;
    }
    Ok(())
}

impl Flow {
    /// How many workers the operators have together: 1 to 128.
    #[tactic(auto, unfolding(crate::specs::Topology::crew_of))]
    pub fn workers(&self) -> u32
        ensures { result ≡ crew_of self.now }
    {
        workers_in(self.get())
    }

    /// The running number of an operator's first worker. Workers count from 0, those of operator 1 first.
    pub fn first_worker(&self, op: u32) -> u32
        requires some { 0 < op }
        requires there { op ≤ length self.now }
        ensures first { result ≡ first_worker_of self.now op }
        ensures few { result ≤ 128 }
    {
        workers_in(&self.get()[..op as usize - 1])
    }

    /// The number of the operator of a worker with this running number.
    pub fn op_of(&self, worker: u32) -> u32
        requires { worker < crew_of self.now }
        ensures { result ≡ op_of self.now worker }
    {
        let operators = self.get();
        let mut left = worker;
        for (i, operator) in operators.iter().enumerate() {
            if left < operator.workers {
                return i as u32 + 1;
            }
            left -= operator.workers;
        }
        operators.len() as u32 + 1
    }

    // What the operator of a worker does.
    fn kind_of(&self, worker: u32) -> &What
        requires { worker < crew_of self.now }
        ensures { result.now ≡ what_at self.now (op_of self.now worker) }
    {
        &self.get()[self.op_of(worker) as usize - 1].what
    }

    /// The number of the operator that reads from this one, if there is one.
    pub fn reader(&self, op: u32) -> Option<u32>
        ensures none { IfNone result (reader_of self.now op ≡ 0) }
        ensures some { IfSome result (λ reader. reader ≡ reader_of self.now op) }
        ensures there { IfSome result (λ reader. (0 < reader) × (reader ≤ length self.now)) }
    {
        let operators = self.get();
        for (i, operator) in operators.iter().enumerate() {
            if operator.what.reads(op) {
                return Some(i as u32 + 1);
            }
        }
        None
    }

    /// How many workers an operator has: 1 to 16.
    pub fn worker_count(&self, op: u32) -> u32
        requires some { 0 < op }
        requires there { op ≤ length self.now }
        ensures count { result ≡ worker_count self.now op }
        ensures some { 0 < result }
        ensures few { result ≤ 16 }
    {
        self.get()[op as usize - 1].workers
    }

    /// The worker that follows a sender from whose operator another one reads, where that one has no keys.
    pub fn follower(&self, sender: u32) -> u32
        requires there { sender < crew_of self.now }
        requires read { 0 < reader_of self.now (op_of self.now sender) }
        ensures { result ≡ follower_of self.now sender }
    {
        let op = self.op_of(sender);
        let Some(reader) = self.reader(op) else {
            unreachable!()
        };
        let place = (sender - self.first_worker(op)) % self.worker_count(reader);
        self.first_worker(reader) + place
    }

    /// Whether one worker sends to another.
    pub fn sends_to(&self, sender: u32, worker: u32) -> bool
        requires sender { sender < crew_of self.now }
        requires worker { worker < crew_of self.now }
        ensures { result ≡ crew.sends_to self.now sender worker }
    {
        let kind = self.kind_of(worker);
        if !kind.reads(self.op_of(sender)) {
            return false;
        }
        kind.is_keyed() || self.follower(sender) == worker
    }

    /// The running numbers of the workers that send to this one, rising.
    pub fn senders(&self, alloc: Global, worker: u32) -> Result<Cols, AllocError>
        requires { worker < crew_of self.now }
        ensures { IfOk result (λ senders. senders ≡ senders_of self.now worker) }
    {
        let mut found = Vec::new(alloc);
        for sender in 0..self.workers() {
            let sends = self.sends_to(sender, worker);
            push_if(&mut found, sender, sends)?;
        }
        Ok(Cols::new(found))
    }

    /// The running numbers of the workers to which this one sends, rising.
    pub fn receivers(&self, alloc: Global, worker: u32) -> Result<Cols, AllocError>
        requires { worker < crew_of self.now }
        ensures { IfOk result (λ receivers. receivers ≡ receivers_of self.now worker) }
    {
        let mut found = Vec::new(alloc);
        for receiver in 0..self.workers() {
            let sends = self.sends_to(worker, receiver);
            push_if(&mut found, receiver, sends)?;
        }
        Ok(Cols::new(found))
    }
}
