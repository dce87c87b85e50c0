//! The workers of a run that has not begun. Over `deal_all` of `shares`, and `link_crew` of `linking`.

ghost use Rattle.std.specs.Prelude.{◌≡◌, ◌<◌, ◌≤◌, ℕ, [], IfOk, IfSome, None, is_some, length};
ghost use Rattle.amber_meaning.specs.Legal.{query_over};
ghost use Rattle.amber_meaning.specs.Plain.{wrong_header};
ghost use Rattle.amber_meaning.specs.Position.{origin};
ghost use Rattle.amber_meaning.specs.State.{start_of};
ghost use Rattle.amber_dataflow.specs.AtWork.{AreAtWork, worker_state_at};
ghost use Rattle.amber_rows.specs.Topology.{crew_of, op_of, what_at};
ghost use Rattle.amber_rows.specs.Kinds.{is_scan};
ghost use Rattle.amber_rows.specs.Columns.{columns_at};
ghost use Rattle.amber_dataflow.specs.Start.{AreEnds, AreNew, share_of_worker, web_of};

use crate::linking::{Ends, link_crew};
use crate::shares::deal_all;
use amber_link::{In, Out};
use amber_rows::{Files, Flow};
use amber_scan::Share;
use amber_worker::Worker;
use std::alloc::{AllocError, Global};
use std::thread::Threads;

// Makes the workers, each of its share and of its ends.
fn make_crew(
    alloc: Global,
    flow: &Flow,
    batch_size: u32,
    mut shares: Vec<Option<Share>>,
    mut outs: Vec<Ends<Out>>,
    mut ins: Vec<Ends<In>>,
) -> Result<Vec<Worker>, AllocError>
    requires some { 0 < batch_size }
    requires few { batch_size ≤ 65536 }
    requires all { length shares.items ≡ crew_of flow.now }
    requires dealt { (worker : ℕ) → worker < crew_of flow.now
        → is_some (share_of_worker shares.items worker)
        ≡ is_scan (what_at flow.now (op_of flow.now worker)) }
    requires typed { (worker : ℕ) → worker < crew_of flow.now
        → IfSome (share_of_worker shares.items worker)
        (λ share. share.columns ≡ columns_at flow.now (op_of flow.now worker)) }
    requires ends { AreEnds (web_of flow.now batch_size) outs.items ins.items }
    ensures { IfOk result (λ crew. AreNew (record {
      flow = flow.now;
      batch_size = batch_size;
      shares = shares.items;
      outs = outs.items;
      ins = ins.items;
    }) crew.items) }
{
    let mut crew = Vec::new(alloc);
    'workers: for worker in 0..flow.workers() {
        let place = worker as usize;
        let share = shares[place].take();
        let own_outs = outs[place].take(alloc);
        let own_ins = ins[place].take(alloc);
        crew.push(Worker::new(alloc, flow, worker, batch_size, share, own_outs, own_ins)?)?;
    }
    Ok(crew)
}

// The workers of a workflow over the files of its scans, which were checked, at the start of a run, in the
// order of their numbers. Where the lines of the files begin is noted on so many threads.
pub(crate) fn start_crew<R: Threads + Sync>(
    rt: &R,
    alloc: Global,
    flow: &Flow,
    files: &Files,
    batch_size: u32,
    threads: u32,
) -> Result<Vec<Worker>, AllocError>
    requires some { 0 < batch_size }
    requires few { batch_size ≤ 65536 }
    requires headers { wrong_header 1 files.now flow.now ≡ None }
    ensures start { IfOk result (λ crew. (most : ℕ) → AreAtWork
        (query_over flow.now files.now batch_size most) (start_of flow.now) crew.items
        (λ _. origin)) }
    ensures journals { IfOk result (λ crew. (worker : ℕ)
        → (worker_state_at crew.items worker).journal ≡ []) }
    ensures unarmed { IfOk result (λ crew. (worker : ℕ)
        → (worker_state_at crew.items worker).seat ≡ None) }
{
    let _operators = flow.get();
    let shares = deal_all(rt, alloc, flow, files, threads)?;
    let (outs, ins) = link_crew(alloc, flow, batch_size)?;
    make_crew(alloc, flow, batch_size, shares, outs, ins)
}
