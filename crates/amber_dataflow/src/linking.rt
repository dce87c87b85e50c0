//! The links between the workers of a workflow, before anything went through them. Over `link` of
//! `amber_link`.

ghost use Rattle.std.specs.Prelude.{◌≡◌, ◌∷◌, ◌++◌, ◌<◌, ◌≤◌, [], IfOk, OnOk, length, replicate};
ghost use Rattle.amber_rows.specs.Topology.{crew_of, sends_to};
ghost use Rattle.amber_dataflow.specs.Start.{AreEnds, GivesEnds, web_of};

use amber_link::{In, Out, link};
use amber_rows::Flow;
use std::alloc::{AllocError, Global};
use std::marker::Model;
use std::mem;

/// The ends of a worker's links, those to its receivers or those with its senders, by the rising numbers of
/// these workers. They are seen as their list.
#[derive(Drop)]
pub(crate) struct Ends<E: Drop> {
    ends: Vec<E>,
}

impl<E: Drop> Model for Ends<E> {
    ghost use Rattle.std.specs.Prelude.{List};

    ghost Value = { List E };

    ghost view = { λ a. a.ends.items };
}

impl<E: Drop> Ends<E> {
    /// Of no links.
    pub(crate) fn new(alloc: Global) -> Self
        ensures { result ≡ [] }
    {
        Ends {
            ends: Vec::new(alloc),
        }
    }

    /// Appends an end to the others.
    pub(crate) fn push(&mut self, end: E) -> Result<(), AllocError>
        ensures { OnOk result (self.new ≡ self.old ++ end ∷ []) }
    {
        self.ends.push(end)?;
        Ok(())
    }

    /// Hands out the ends, and keeps none.
    pub(crate) fn take(&mut self, alloc: Global) -> Vec<E>
        ensures taken { result.items ≡ self.old }
        ensures rest { self.new ≡ [] }
    {
        mem::replace(&mut self.ends, Vec::new(alloc))
    }
}

// For this many workers, with no senders yet.
fn no_ins(alloc: Global, workers: u32) -> Result<Vec<Ends<In>>, AllocError>
    ensures { IfOk result (λ ins. ins.items ≡ replicate workers []) }
{
    let mut ins = Vec::with_capacity(alloc, workers as usize)?;
    for _ in 0..workers {
        ins.push(Ends::new(alloc))?;
    }
    Ok(ins)
}

// Links a worker with all of its receivers. Each of these gets its end after those of earlier
// senders.
fn link_sender(
    alloc: Global,
    flow: &Flow,
    sender: u32,
    batch_size: u32,
    ins: &mut [Ends<In>],
) -> Result<Ends<Out>, AllocError>
    requires some { 0 < batch_size }
    requires few { batch_size ≤ 65536 }
    requires there { sender < crew_of flow.now }
    requires all { length ins.old ≡ crew_of flow.now }
    ensures gives { IfOk result (λ outs. GivesEnds (record {
      sends = sends_to flow.now sender;
      batch_size = batch_size;
      count = crew_of flow.now;
      before = ins.old;
    }) outs ins.new) }
{
    let mut outs = Ends::new(alloc);
    'receivers: for receiver in 0..flow.workers() {
        if flow.sends_to(sender, receiver) {
            let (out, into) = link(alloc, batch_size)?;
            outs.push(out)?;
            ins[receiver as usize].push(into)?;
        }
    }
    Ok(outs)
}

/// Links all workers of a workflow: the ends of each to its receivers, and of each with its
/// senders.
pub(crate) fn link_crew(
    alloc: Global,
    flow: &Flow,
    batch_size: u32,
) -> Result<(Vec<Ends<Out>>, Vec<Ends<In>>), AllocError>
    requires some { 0 < batch_size }
    requires few { batch_size ≤ 65536 }
    ensures { IfOk result (λ ends. AreEnds (web_of flow.now batch_size) ends.0.items ends.1.items) }
{
    let count = flow.workers();
    let mut ins = no_ins(alloc, count)?;
    let mut outs = Vec::new(alloc);
    'senders: for sender in 0..count {
        outs.push(link_sender(alloc, flow, sender, batch_size, ins.as_mut_slice())?)?;
    }
    Ok((outs, ins))
}
