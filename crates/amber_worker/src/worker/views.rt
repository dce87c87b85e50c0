//! What a worker shows, and what it gives for the answer. Rests on `view_parts` and `given`.

ghost use Rattle.std.specs.Prelude.{IfOk, ◌≡◌};
ghost use Rattle.amber_rows.specs.Order.{sort_rows};
ghost use Rattle.amber_worker.specs.Steps.{AreKeysBehind, AreKeysOf};
ghost use Rattle.amber_worker.specs.AtPosition.{IsGivenOf, IsViewOf};

use super::Worker;
use crate::given::{Given, final_keys, given_of};
use crate::view_parts::{first_copy, stand_of};
use amber_meaning::WorkerView;
use amber_operators::{Gains, OperatorState, extra_of};
use std::alloc::{AllocError, Global};

impl Worker {
    /// What the worker shows.
    pub fn view(&self) -> Result<WorkerView, AllocError>
        ensures { IfOk result (λ view. IsViewOf self.now view) }
    {
        Ok(WorkerView {
            taken: self.taken,
            rest: self.rest.left(),
            out: self.emitted,
            pending: self.gains.pending.len(),
            stand: stand_of(self.finished, self.flags),
            next: first_copy(&self.gains.pending)?,
            extra: extra_of(&self.operator_state, &self.gains),
        })
    }

    /// What the worker gives for the answer: a scan the records with a fault of those that it took,
    /// a finished group the keys that have no row, a sink the rows that it took.
    pub fn given(&self) -> Result<Given, AllocError>
        ensures { IfOk result (IsGivenOf self.now) }
    {
        let keys = final_keys(self.alloc, self.finished, &self.operator_state)?;
        let refused = self.gains.refused.clone()?;
        let kept = self.gains.kept.clone()?;
        given_of(self.op, keys, refused, kept)
    }

    /// The same, where nothing more is asked of the worker: nothing is copied.
    pub fn into_given(self) -> Result<Given, AllocError>
        ensures { IfOk result (IsGivenOf self) }
    {
        let Worker {
            alloc,
            op,
            number: _,
            operator_state,
            columns: _,
            build_columns: _,
            building: _,
            rest: _,
            taken: _,
            emitted: _,
            batches: _,
            gains,
            when: _,
            seat: _,
            flags: _,
            finished,
            ins: _,
            outs: _,
            route: _,
            journal: _,
            turned: _,
        } = self;
        gains_given(alloc, op, finished, &operator_state, gains)
    }
}

// What is given of what a worker has gained.
fn gains_given(
    alloc: Global,
    op: u32,
    finished: bool,
    operator_state: &OperatorState,
    gains: Gains,
) -> Result<Given, AllocError>
    ensures refused { IfOk result (λ given. AreKeysBehind op gains.refused.items
        (AreKeysOf finished operator_state.now) given.refused) }
    ensures rows { IfOk result (λ given. given.rows ≡ sort_rows gains.kept.items) }
{
    let keys = final_keys(alloc, finished, operator_state)?;
    let Gains { refused, kept, .. } = gains;
    given_of(op, keys, refused, kept)
}
