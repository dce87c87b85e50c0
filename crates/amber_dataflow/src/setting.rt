//! Between legs the workers are given another constant or another condition, or begin a leg. Over `Worker::set`,
//! `Worker::watch_for` and `Worker::begin` of `amber_worker`.

ghost use Rattle.std.specs.Prelude.{All, [], ◌≡◌, ℕ, IfOk, None, OnOk, Some, false, length, map, replicate};
ghost use Rattle.amber_worker.specs.AtPosition.{KeepsUnder};
ghost use Rattle.amber_worker.specs.WorkerState.{is_armed};
ghost use Rattle.amber_dataflow.specs.AtWork.{KeepsPosition, worker_state_at};
ghost use Rattle.amber_dataflow.specs.Dataflow.{worker_begun, worker_resumed, worker_set, worker_watching};

use amber_rows::{Cond, Value};
use amber_worker::Worker;
use std::alloc::{AllocError, Global};

/// This many copies of a value.
pub(crate) fn copies_of(
    alloc: Global,
    value: &Value,
    count: usize,
) -> Result<Vec<Value>, AllocError>
    ensures { IfOk result (λ copies. copies.items ≡ replicate count value.now) }
{
    let mut copies = Vec::new(alloc);
    'copies: for _ in 0..count {
        copies.push(value.clone()?)?;
    }
    Ok(copies)
}

// Puts a value in place of a worker's constant, where it is a worker of this operator.
fn set_worker(op: u32, value: Value, worker: &mut Worker)
    ensures { worker.new ≡ worker_set op value worker.old }
{
    if worker.op() == op {
        worker.set(value);
    }
}

/// Puts a value in place of the constant of each of an operator's workers.
pub(crate) fn set_workers(op: u32, value: &Value, mut copies: Vec<Value>, crew: &mut [Worker])
    requires { copies.items ≡ replicate (length crew.old) value.now }
    ensures { crew.new ≡ map (worker_set op value.now) crew.old }
{
    for worker in crew.iter_mut() {
        if let Some(copy) = copies.pop() {
            set_worker(op, copy, worker);
        }
    }
}

/// This many copies of a condition.
pub(crate) fn conditions_of(
    alloc: Global,
    cond: &Cond,
    count: usize,
) -> Result<Vec<Cond>, AllocError>
    ensures { IfOk result (λ copies. copies.items ≡ replicate count cond.now) }
{
    let mut copies = Vec::new(alloc);
    'copies: for _ in 0..count {
        copies.push(cond.clone()?)?;
    }
    Ok(copies)
}

// Puts a condition in place of a worker's, where it is a worker of this operator.
fn watch_worker(op: u32, when: Option<Cond>, worker: &mut Worker)
    requires { worker.old.journal ≡ [] }
    ensures { worker.new ≡ worker_watching op when worker.old }
{
    if worker.op() == op {
        worker.watch_for(when);
    }
}

/// Puts a condition in place of that of each of an operator's workers.
pub(crate) fn watch_workers(op: u32, cond: &Cond, mut copies: Vec<Cond>, crew: &mut [Worker])
    requires copies { copies.items ≡ replicate (length crew.old) cond.now }
    requires rest { All (λ worker. worker.journal ≡ []) crew.old }
    ensures { crew.new ≡ map (worker_watching op (Some cond.now)) crew.old }
{
    for worker in crew.iter_mut() {
        if let Some(copy) = copies.pop() {
            watch_worker(op, Some(copy), worker);
        }
    }
}

/// Takes back the condition of each of an operator's workers.
pub(crate) fn unwatch_workers(op: u32, crew: &mut [Worker])
    requires { All (λ worker. worker.journal ≡ []) crew.old }
    ensures { crew.new ≡ map (worker_watching op None) crew.old }
{
    for worker in crew.iter_mut() {
        watch_worker(op, None, worker);
    }
}

// A worker begins a leg. To the end no condition is in force any more.
fn begin_worker(to_end: bool, worker: &mut Worker)
    ensures { worker.new ≡ worker_begun to_end worker.old }
{
    worker.begin();
    if to_end {
        worker.watch_for(None);
    }
}

/// Each worker begins a leg: pauses end, a held row may go, and nothing was done since.
pub(crate) fn begin_all(to_end: bool, crew: &mut [Worker])
    ensures { crew.new ≡ map (worker_begun to_end) crew.old }
{
    for worker in crew.iter_mut() {
        begin_worker(to_end, worker);
    }
}

// A worker goes on, that was paused.
fn resume_worker(worker: &mut Worker) -> Result<(), AllocError>
    requires { worker.old.restraint.held ≡ false }
    ensures resumed { OnOk result (worker.new ≡ worker_resumed worker.old) }
    ensures keeps { OnOk result (KeepsUnder (is_armed worker.old) worker.old worker.new) }
{
    if worker.is_paused() {
        worker.resume()?;
    }
    Ok(())
}

/// Each worker goes on that was paused.
pub(crate) fn resume_all(crew: &mut [Worker]) -> Result<(), AllocError>
    requires { All (λ worker. worker.restraint.held ≡ false) crew.old }
    ensures resumed { OnOk result (crew.new ≡ map worker_resumed crew.old) }
    ensures keeps { OnOk result ((worker : ℕ) → KeepsPosition
        (worker_state_at crew.old worker) (worker_state_at crew.new worker)) }
{
    'workers: for number in 0..crew.len() {
        resume_worker(&mut crew[number])?;
    }
    Ok(())
}
