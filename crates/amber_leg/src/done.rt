//! The steps that each worker made in the round before, by its number. Over what `Worker` tells
//! of its steps.

use amber_worker::Worker;
use std::alloc::AllocError;

/// Before a round: for each worker the steps that it has made in all so far. The list keeps its
/// room.
pub(crate) fn begin_round(done: &mut Vec<u64>, workers: &[Worker]) -> Result<(), AllocError> {
    done.clear();
    'workers: for worker in workers {
        done.push(worker.steps())?;
    }
    Ok(())
}

/// Behind the round: for each worker the steps that it has made since.
pub(crate) fn end_round(done: &mut [u64], workers: &[Worker]) {
    'workers: for number in 0..done.len().min(workers.len()) {
        done[number] = workers[number].steps().saturating_sub(done[number]);
    }
}
