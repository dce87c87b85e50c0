//! Whether a stop stands at an operator, whether anybody is held or paused, and what a close takes away of the stops.
//! Over `InForce`, which has the counts and the pauses, and what `Dataflow` tells of its workers.

ghost use Rattle.std.specs.Prelude.{◌≡◌, ◌<◌, ◌≤◌, ℕ, false, length, true};
ghost use Rattle.amber_dataflow.specs.Dataflow.{AreAllThere, is_held, is_paused, rows_emitted};
ghost use Rattle.amber_rows.specs.Topology.{crew_of};
ghost use Rattle.amber_home.specs.Leg.{closed_arms, count_at, cut_arms, is_stopped};
ghost use Rattle.amber_home.specs.Redoing.{NoneIsOver, is_over};

use crate::in_force::InForce;
use amber_dataflow::Dataflow;
use amber_log::Close;

/// Whether the pause or the count of an operator stands.
pub(crate) fn is_stopped(arms: &InForce, dataflow: &Dataflow, op: u32) -> bool
    requires workers { AreAllThere dataflow.now }
    requires some { 0 < op }
    requires within { op ≤ length dataflow.now.flow }
    ensures { result ≡ is_stopped arms.now dataflow.now op }
{
    let rows = dataflow.rows_emitted(op);
    match arms.at(op) {
        None => false,
        Some(armed) => armed.is_paused(rows) || armed.is_counted(rows),
    }
}

/// Whether any worker is held.
pub(crate) fn any_held(dataflow: &Dataflow) -> bool
    requires workers { AreAllThere dataflow.now }
    ensures some { result ≡ true → (worker : ℕ)
        × (worker < crew_of dataflow.now.flow) × (is_held dataflow.now worker ≡ true) }
    ensures none { result ≡ false → (worker : ℕ) → is_held dataflow.now worker ≡ false }
{
    'workers: for worker in 0..dataflow.flow().workers() {
        if dataflow.is_held(worker) {
            return true;
        }
    }
    false
}

/// Whether any worker is paused.
pub(crate) fn any_paused(dataflow: &Dataflow) -> bool
    requires workers { AreAllThere dataflow.now }
    ensures some { result ≡ true → (worker : ℕ)
        × (worker < crew_of dataflow.now.flow) × (is_paused dataflow.now worker ≡ true) }
    ensures none { result ≡ false → (worker : ℕ) → is_paused dataflow.now worker ≡ false }
{
    'workers: for worker in 0..dataflow.flow().workers() {
        if dataflow.is_paused(worker) {
            return true;
        }
    }
    false
}

// Whether the count of an operator has counted more rows than it asks for.
fn is_over(arms: &InForce, dataflow: &Dataflow, op: u32) -> bool
    requires workers { AreAllThere dataflow.now }
    requires some { 0 < op }
    requires within { op ≤ length dataflow.now.flow }
    ensures { result ≡ is_over (count_at arms.now op) (rows_emitted dataflow.now op) }
{
    match arms.count_at(op) {
        None => false,
        Some(count) => {
            u128::from(count.target) + u128::from(count.since)
                < u128::from(dataflow.rows_emitted(op))
        }
    }
}

/// Whether no count has counted more rows than it asks for.
pub(crate) fn are_within(arms: &InForce, dataflow: &Dataflow) -> bool
    requires workers { AreAllThere dataflow.now }
    requires arms { length arms.now ≡ length dataflow.now.flow }
    ensures none { result ≡ true → NoneIsOver arms.now dataflow.now }
    ensures some { result ≡ false → (op : ℕ)
        × (is_over (count_at arms.now op) (rows_emitted dataflow.now op) ≡ true) }
{
    let count = dataflow.flow().get().len() as u32;
    'operators: for before in 0..count {
        if is_over(arms, dataflow, before + 1) {
            return false;
        }
    }
    true
}

// Takes away the pauses and the counts that stand.
fn end_stops(arms: &mut InForce, dataflow: &Dataflow)
    requires workers { AreAllThere dataflow.now }
    requires arms { length arms.old ≡ length dataflow.now.flow }
    ensures { arms.new ≡ cut_arms arms.old dataflow.now }
{
    let count = dataflow.flow().get().len() as u32;
    for before in 0..count {
        arms.end_stops(before + 1, dataflow.rows_emitted(before + 1));
    }
}

/// Takes away what a close takes away.
pub(crate) fn close_arms(to_end: bool, close: Close, arms: &mut InForce, dataflow: &Dataflow)
    requires workers { AreAllThere dataflow.now }
    requires arms { length arms.old ≡ length dataflow.now.flow }
    ensures { arms.new ≡ closed_arms to_end close arms.old dataflow.now }
{
    if to_end {
        return;
    }
    match close {
        Close::Cut => end_stops(arms, dataflow),
        Close::Long => {}
    }
}
