//! Moving batches on: what a worker has made goes into the inboxes of those to which it sends. Over
//! `settle_workers` of `amber_worker`, which does so for two of them.

ghost use Rattle.std.specs.Prelude.{◌≡◌, ◌≢◌, ◌<◌, ◌==◌, ℕ, OnOk, length, slice_index_or, true};
ghost use Rattle.std.specs.List.{list_any};
ghost use Rattle.amber_link.specs.declared.downstreams.Downstream.{Downstream};
ghost use Rattle.amber_dataflow.specs.AtWork.{IsJoinedCrew, StayPut, worker_state_at};
ghost use Rattle.amber_dataflow.specs.Passing.{AreAllSettled, AreSameBesides, Come, IsSettledAt, MayPass, PassedOn, Settled, SettledStay};

use amber_worker::{Worker, settle_workers};
use std::alloc::AllocError;

/// Moves the batches that a worker has made for another one, to which it sends, into that one's
/// inbox.
pub(crate) fn pass_between(crew: &mut [Worker], from: usize, to: usize) -> Result<(), AllocError>
    requires { MayPass crew.old from to }
    ensures { OnOk result (PassedOn crew.old from to crew.new) }
{
    let (senders, receivers) = crew.split_at_mut(to);
    settle_workers(&mut senders[from], &mut receivers[0])
}

// The same of workers that stand somewhere. A receiver stands after its senders.
fn pass_on(crew: &mut [Worker], from: usize, to: usize) -> Result<(), AllocError>
    requires crew { IsJoinedCrew crew.old }
    requires there { from < length crew.old }
    requires sends { list_any (λ one. one.to == to) (worker_state_at crew.old from).outs ≡ true }
    ensures { OnOk result (PassedOn crew.old from to crew.new) }
{
    pass_between(crew, from, to)
}

// Moves on what waits for the receiver at a place.
fn pass_waiting(crew: &mut [Worker], number: usize, place: usize) -> Result<(), AllocError>
    requires crew { IsJoinedCrew crew.old }
    requires there { number < length crew.old }
    requires within { place < length (worker_state_at crew.old number).outs }
    requires come { (to : ℕ)
        → list_any (λ one. one.to == to) (worker_state_at crew.old number).outs ≡ true
        → Come crew.old number to }
    ensures put { OnOk result (StayPut crew.old crew.new) }
    ensures settled { OnOk result ((to : ℕ) → ((d : Downstream)
        → (slice_index_or (worker_state_at crew.old number).outs place d).to ≡ to)
        → Settled crew.new number to) }
    ensures come { OnOk result ((to : ℕ)
        → list_any (λ one. one.to == to) (worker_state_at crew.old number).outs ≡ true
        → Come crew.new number to) }
    ensures others { OnOk result (SettledStay crew.old crew.new) }
    ensures aside { OnOk result (AreSameBesides crew.old crew.new) }
{
    match crew[number].waiting_at(place) {
        None => Ok(()),
        Some(to) => pass_on(crew, number, to as usize),
    }
}

// Moves on all that a worker has made.
fn settle_outputs(crew: &mut [Worker], number: usize) -> Result<(), AllocError>
    requires crew { IsJoinedCrew crew.old }
    requires there { number < length crew.old }
    requires come { (to : ℕ)
        → list_any (λ one. one.to == to) (worker_state_at crew.old number).outs ≡ true
        → Come crew.old number to }
    ensures put { OnOk result (StayPut crew.old crew.new) }
    ensures settled { OnOk result ((to : ℕ)
        → list_any (λ one. one.to == to) (worker_state_at crew.old number).outs ≡ true
        → Settled crew.new number to) }
    ensures others { OnOk result (SettledStay crew.old crew.new) }
    ensures aside { OnOk result (AreSameBesides crew.old crew.new) }
{
    'receivers: for place in 0..crew[number].receivers() {
        pass_waiting(crew, number, place)?;
    }
    Ok(())
}

// Moves the batches that were made for a worker into its inboxes.
fn settle_inputs(crew: &mut [Worker], number: usize) -> Result<(), AllocError>
    requires crew { IsJoinedCrew crew.old }
    requires there { number < length crew.old }
    ensures put { OnOk result (StayPut crew.old crew.new) }
    ensures settled { OnOk result ((from : ℕ)
        → list_any (λ one. one.from == from) (worker_state_at crew.old number).ins ≡ true
        → Settled crew.new from number) }
    ensures others { OnOk result (SettledStay crew.old crew.new) }
    ensures aside { OnOk result (AreSameBesides crew.old crew.new) }
{
    'senders: for place in 0..crew[number].senders() {
        let from = crew[number].sender_at(place);
        pass_on(crew, from as usize, number)?;
    }
    Ok(())
}

/// Moves on all that a worker has made, and all that was made for it.
pub(crate) fn settle_worker(crew: &mut [Worker], number: usize) -> Result<(), AllocError>
    requires crew { IsJoinedCrew crew.old }
    requires there { number < length crew.old }
    requires come { (to : ℕ)
        → list_any (λ one. one.to == to) (worker_state_at crew.old number).outs ≡ true
        → Come crew.old number to }
    ensures { OnOk result (IsSettledAt crew.old crew.new number) }
{
    settle_outputs(crew, number)?;
    settle_inputs(crew, number)
}

/// Moves on all that any worker has made.
pub(crate) fn settle_all(crew: &mut [Worker]) -> Result<(), AllocError>
    requires { IsJoinedCrew crew.old }
    ensures put { OnOk result (StayPut crew.old crew.new) }
    ensures settled { OnOk result (AreAllSettled (length crew.old) crew.new) }
    ensures aside { OnOk result (AreSameBesides crew.old crew.new) }
{
    'workers: for number in 0..crew.len() {
        settle_inputs(crew, number)?;
    }
    Ok(())
}
