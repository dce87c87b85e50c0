//! Loads: all bytes of a file, where they are few enough, and the workflow in a file.
//! Rests on `Outside` and on `read_flow`.

ghost use Rattle.std.specs.Prelude.{◌≡◌, ◌<◌, ◌≤◌, ◌^◌, length, IfErr, IfOk};
ghost use Rattle.amber_io.specs.World.{LoadsOnly};
ghost use Rattle.amber_flow.specs.Workflow.{workflow_of};
ghost use Rattle.amber_course.specs.Course.{flow_read, load_of, workflow_in};
ghost use Rattle.amber_course.specs.Steps.{Follows, IsBounded, IsMissing, IsOversized, Judges, Names};

use crate::failure::{Failure, Reason};
use amber_flow::{FlowErr, read_flow};
use amber_io::{IoErr, Outside};
use amber_rows::{Bytes, Flow, Text};
use std::alloc::Global;

// How many bytes a workflow or a script may have.
pub(crate) const MOST_TEXT: u64 = 1 << 20;

// The failure for a file that could not be read.
fn unread(alloc: Global, name: &str) -> Failure
    ensures { IsMissing result name.now }
{
    match Text::new(alloc, name) {
        Ok(name) => Failure::ReadFault { name },
        Err(_) => Failure::NoMemory,
    }
}

// The failure for a file that is too large.
fn oversized(alloc: Global, name: &str) -> Failure
    ensures { IsOversized result name.now }
{
    match Text::new(alloc, name) {
        Ok(name) => Failure::TooLarge { name },
        Err(_) => Failure::NoMemory,
    }
}

// The first bytes of a file, where they are no more than it may have.
fn bounded(alloc: Global, name: &str, most: u64, bytes: Vec<u8>) -> Result<Bytes, Failure>
    ensures { IsBounded result name.now most bytes.items }
{
    if bytes.len() as u64 > most {
        return Err(oversized(alloc, name));
    }
    Ok(Bytes::new(bytes))
}

/// All bytes of a file, which has at most `most`.
pub fn load<W: Outside>(
    alloc: Global,
    name: &str,
    most: u64,
    outside: &mut W,
) -> Result<Bytes, Failure>
    requires { most < 2 ^ 63 }
    ensures course { Follows result (load_of most name.now) (W.world outside.old)
        (W.world outside.new) }
    ensures few { IfOk result (λ bytes. length bytes ≤ most) }
    ensures named { IfErr result (λ failure. Names failure (λ file. file ≡ name.now)) }
    ensures only { LoadsOnly (W.world outside.old) (W.world outside.new) }
    ensures held { W.held outside.new ≡ W.held outside.old }
{
    match outside.load(alloc, name, most + 1) {
        Ok(bytes) => bounded(alloc, name, most, bytes),
        Err(IoErr::Failed) => Err(unread(alloc, name)),
        Err(IoErr::NoMemory) => Err(Failure::NoMemory),
    }
}

// The workflow that the bytes of a file are.
fn read(alloc: Global, bytes: &Bytes) -> Result<Flow, Failure>
    ensures { Judges result (flow_read (workflow_of bytes.now)) }
{
    match read_flow(alloc, bytes.get()) {
        Ok(flow) => Ok(flow),
        Err(FlowErr::Bad { op, why }) => Err(Failure::BadFlow {
            op,
            why: Reason::Flow(why),
        }),
        Err(FlowErr::NoMemory) => Err(Failure::NoMemory),
    }
}

/// The workflow in a file.
pub fn load_flow<W: Outside>(alloc: Global, name: &str, outside: &mut W) -> Result<Flow, Failure>
    ensures course { Follows result (workflow_in name.now) (W.world outside.old)
        (W.world outside.new) }
    ensures named { IfErr result (λ failure. Names failure (λ file. file ≡ name.now)) }
    ensures only { LoadsOnly (W.world outside.old) (W.world outside.new) }
    ensures held { W.held outside.new ≡ W.held outside.old }
{
    let bytes = load(alloc, name, MOST_TEXT, outside)?;
    read(alloc, &bytes)
}
