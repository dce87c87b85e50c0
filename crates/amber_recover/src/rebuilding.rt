//! A worker that is rebuilt from the log of its home alone. Over `rebuild`, `into_worker` of `amber_home`, and copies of the
//! workflow and the files.

ghost use Rattle.std.specs.Prelude.{◌≡◌, ◌<◌, [], IfOk, None};
ghost use Rattle.amber_dataflow.specs.Replacing.{StandsFor};
ghost use Rattle.amber_home.specs.HomeState.{query_of, rest_state};
ghost use Rattle.amber_meaning.specs.State.{position_at};
ghost use Rattle.amber_rows.specs.Topology.{crew_of};

use crate::copying::{copy_of_files, copy_of_flow};
use crate::counting::have_few_lines;
use crate::error::RebuildErr;
use crate::recovering::rebuild;
use amber_home::Home;
use amber_worker::Worker;
use std::alloc::{AllocError, Global};
use std::thread::Threads;

/// A worker as it stands in a home that rests behind this one's log, from the log alone: the log is done again as by
/// `rebuild`, on this thread, and the worker is taken out of what comes of it. It may take the place of the worker with its
/// number by `Home::replace`.
///
/// # Errors
///
/// Memory ran out. So it is answered of a log of 2^32 lines or more too, which takes more memory than there is.
pub fn rebuild_worker<R: Threads + Sync>(
    rt: &R,
    alloc: Global,
    home: &Home,
    worker: u32,
) -> Result<Worker, AllocError>
    requires there { worker < crew_of home.now.flow }
    ensures rest { IfOk result (λ made. made.journal ≡ []) }
    ensures unarmed { IfOk result (λ made. made.seat ≡ None) }
    ensures stands { IfOk result (λ made. StandsFor (query_of home.now) (rest_state home.now)
        (position_at (rest_state home.now).positions) worker made) }
{
    let log = home.log();
    if !have_few_lines(log.items.get()) {
        return Err(AllocError);
    }
    let flow = copy_of_flow(alloc, home.flow())?;
    let files = copy_of_files(alloc, home.files())?;
    match rebuild(rt, alloc, flow, files, log, home.most(), 1) {
        Ok(made) => Ok(made.into_worker(worker)),
        Err(RebuildErr::NoMemory) => Err(AllocError),
        // The files of a home begin with the names of their columns, and its log is legal.
        Err(RebuildErr::Header(_)) => unreachable!(),
        Err(RebuildErr::Illegal { line: _ }) => unreachable!(),
    }
}
