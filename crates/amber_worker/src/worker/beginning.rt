//! A worker before it has done anything. Rests on `WorkerTask` and `WorkerEnds` of `new_worker`.

ghost use Rattle.std.specs.Prelude.{◌≡◌};
ghost use Rattle.amber_worker.specs.Fields.{AreFew};
ghost use Rattle.amber_worker.specs.Made.{fresh_fields, fresh_worker};

use super::Worker;
use crate::flags::Flags;
use crate::journal::Journal;
use crate::new_worker::{WorkerEnds, WorkerTask};
use amber_operators::{Gains, Pending, Rest, UsedRows};
use amber_scan::Share;
use std::alloc::{AllocError, Global};
use std::collections::VecDeque;

impl Worker {
    // A worker that has done nothing, with this task and these ends.
    pub(super) fn fresh(
        alloc: Global,
        number: u32,
        share: Option<Share>,
        task: WorkerTask,
        ends: WorkerEnds,
    ) -> Worker
        requires few { AreFew (fresh_fields share task ends) }
        ensures { result ≡ fresh_worker number share task ends }
    {
        let rest = Rest {
            share,
            from: 0,
            rows: VecDeque::new(alloc),
        };
        let gains = Gains {
            pending: Pending::new(alloc),
            refused: Vec::new(alloc),
            kept: Vec::new(alloc),
            done: UsedRows::new(alloc),
            free: UsedRows::new(alloc),
        };
        Worker {
            alloc,
            op: task.op,
            number,
            operator_state: task.operator_state,
            columns: task.columns,
            build_columns: task.build_columns,
            building: task.building,
            rest,
            taken: 0,
            emitted: 0,
            batches: 0,
            gains,
            when: None,
            seat: None,
            flags: Flags::lowered(),
            finished: false,
            ins: ends.ins,
            outs: ends.outs,
            route: task.route,
            journal: Journal::new(alloc),
            turned: 0,
        }
    }
}
