//! The job of `plain`: the sequential answer is computed and printed.
//! Rests on `plain_checked` and on `answer_lines`.

ghost use Rattle.std.specs.Prelude.{◌≡◌, length, None};
ghost use Rattle.amber_meaning.specs.Plain.{scan_count, wrong_header};
ghost use Rattle.amber_run.specs.Answering.{IsAnswer, Works};
ghost use Rattle.amber_run.specs.Outcome.{WroteNothing};
ghost use Rattle.amber_recorder.specs.Writing.{Counted};

use amber_course::{Failure, Inputs, Job, put_output};
use amber_io::Outside;
use amber_meaning::Answer;
use amber_plain::{LimitErr, plain_checked};
use amber_report::answer_lines;
use amber_rows::{Files, Flow, Rows};
use std::alloc::Global;

// How many rows all operators may give together.
const MOST_ROWS: u64 = 1 << 40;

// The sequential answer, where the rows are few enough.
fn query(alloc: Global, flow: &Flow, files: &Files) -> Result<Answer, Failure>
    requires one_each { length files.now ≡ scan_count flow.now }
    requires headers { wrong_header 1 files.now flow.now ≡ None }
    ensures { IsAnswer result flow.now files.now }
{
    match plain_checked(alloc, flow, files, MOST_ROWS) {
        Ok(answer) => Ok(answer),
        Err(LimitErr::Long) => Err(Failure::Long),
        Err(LimitErr::NoMemory) => Err(Failure::NoMemory),
    }
}

/// Prints the sequential answer, and gives back its rows.
pub(crate) fn do_plain<W: Outside>(
    alloc: Global,
    inputs: Inputs,
    outside: &mut W,
) -> Result<Option<Rows>, Failure>
    ensures works { Works result (Job.Plain inputs) (W.world outside.old)
        (W.world outside.new) }
    ensures counted { Counted result (W.world outside.old) (W.world outside.new) }
    ensures idle { WroteNothing result (W.world outside.old) (W.world outside.new) }
    ensures held { W.held outside.new ≡ W.held outside.old }
{
    let (flow, files) = inputs.into_parts();
    let answer = query(alloc, &flow, &files)?;
    let text = answer_lines(alloc, &flow, &answer)?;
    put_output(outside, text.get())?;
    Ok(Some(answer.rows))
}
