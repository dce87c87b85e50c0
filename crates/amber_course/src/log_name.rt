//! The log of a run against the files of its scans: none of them may be the log.
//! Rests on `load_flow`.

ghost use Rattle.std.specs.Prelude.{◌≡◌, IfErr, IfOk};
ghost use Rattle.amber_io.specs.World.{LoadsOnly};
ghost use Rattle.amber_course.specs.Course.{apart_from, log_scan, is_scan_of, run_flow};
ghost use Rattle.amber_course.specs.Steps.{Follows, Judges, Names};

use crate::failure::{Failure, Reason};
use crate::loading::load_flow;
use amber_io::Outside;
use amber_rows::{Flow, What};
use std::alloc::Global;

// Whether an operator is a scan of this file.
fn is_scan_of(what: &What, log: &str) -> bool
    ensures { result ≡ is_scan_of log.now what.now }
{
    match what {
        What::Scan { file } => file.get() == log,
        _ => false,
    }
}

// The first scan that reads the log.
fn log_scan(flow: &Flow, log: &str) -> Option<u32>
    ensures { result ≡ log_scan 1 log.now flow.now }
{
    let operators = flow.get();
    for (i, operator) in operators.iter().enumerate() {
        if is_scan_of(&operator.what, log) {
            return Some(i as u32 + 1);
        }
    }
    None
}

// A workflow, where none of its scans reads the log.
fn apart_from(flow: Flow, log: &str) -> Result<Flow, Failure>
    ensures flow { Judges result (apart_from flow (log_scan 1 log.now flow)) }
    ensures same { IfOk result (λ kept. kept ≡ flow) }
{
    match log_scan(&flow, log) {
        Some(op) => Err(Failure::BadFlow {
            op,
            why: Reason::LogName,
        }),
        None => Ok(flow),
    }
}

/// The workflow in a file, where none of its scans reads the log.
pub(crate) fn load_run_flow<W: Outside>(
    alloc: Global,
    workflow: &str,
    log: &str,
    outside: &mut W,
) -> Result<Flow, Failure>
    ensures course { Follows result (run_flow workflow.now log.now) (W.world outside.old)
        (W.world outside.new) }
    ensures named { IfErr result (λ failure. Names failure (λ file. file ≡ workflow.now)) }
    ensures only { LoadsOnly (W.world outside.old) (W.world outside.new) }
    ensures held { W.held outside.new ≡ W.held outside.old }
{
    let flow = load_flow(alloc, workflow, outside)?;
    apart_from(flow, log)
}
