//! `amber`: hands its words to the top call, over the system's files and the standard output, and ends
//! with the status as its exit code.
#![tactic(auto)]

use amber_io::{RealFolder, RealSink};
use amber_mail::OpenGate;
use amber_run::{Printed, Status, amber};
use amber_terminal::{Screen, TerminalSink};
use std::io::{ErrorKind, IsTerminal};
use std::process::ExitCode;
use std::rt::{Env, Files};
use std::thread::Threads;
use std::{env, io, mem};

const VERSION: &str = "amber 0.1.0\n";

// It follows `error 1 usage`, on the standard error.
const USAGE_HINT: &str = "amber: `amber --help` prints the forms of a call\n";

const HELP: &str = "amber answers queries over CSV files.

  amber plain WORKFLOW   prints the answer of the workflow in the file WORKFLOW
  amber run WORKFLOW SCRIPT LOG THREADS BATCH
                         does the commands of the script, one after the other, then runs to the end,
                         and prints the replies, of which the last is the answer; what was done is
                         written into the file LOG. THREADS, 1 to 64, is on how many threads the workers
                         of the run work side by side: how far each is at a stop may depend on it, but
                         not the answer where the script has no set and no drop. BATCH, the rows of a
                         batch, is 1 to 65536
  amber replay WORKFLOW LOG
                         prints what the run or the session printed that has written the file LOG, which
                         is only read
  amber recover WORKFLOW SCRIPT OLDLOG LOG THREADS
                         goes on with a run that was cut off: prints what the log OLDLOG, which is only
                         read, tells, does what is left of the script, and runs to the end; all of that
                         is written into the file LOG
  amber debug WORKFLOW LOG [THREADS BATCH]
                         a session: reads commands from the standard input, one a line, and answers
                         each before it reads the next; `amber debug --help` tells more
  amber commands WORKFLOW LOG
                         prints the commands of a log, one a line, as a script; `amber commands --help`
                         tells more
  amber --help           prints this text
  amber --version        prints the version

A script has a command a line; blank lines, and lines that begin with #, are ignored. OP is the id of
an operator, W the number of one of its workers, from 0. A word with blanks stands in double quotes. A
script may be empty.

  run                    runs until something stops it, and says what
  pause OP N             asks to stop once OP has emitted N rows since the start
  break count OP N       asks to stop once OP has emitted N rows from here on, and not one more
  break when OP COLUMN CMP VALUE
                         asks to stop before each row of OP whose COLUMN compares so with VALUE;
                         CMP is one of = != < <= > >=
  inspect OP             shows how far the workers of OP are
  set OP VALUE           changes the constant of the filter OP, for the rows that it takes from then on
  drop OP W              drops the row that the held worker W of OP is about to emit
  lose OP W              throws the worker W of OP away, and builds it again from the log
  clear OP               takes back what was asked to stop at OP

A workflow is a JSON text with a list of operators: scans of CSV files, filters, projections, joins,
groups and a sink. The answer is the number of the sink's rows, the columns' names, and the rows in their
order. Records that are no rows are skipped and reported before it.

LOG is made anew: what stood in that file is gone. It is none of the files that are read, under whatever
path or link; such a run ends with 5 and leaves the file as it was.

WORKFLOW, SCRIPT and the input of a session have at most 1 MiB each, and the files of all scans at most
32 MiB together. A query's operators give at most 2^40 rows together, and a run makes at most 2^40 steps.

Whatever is refused is reported in one line on the standard output, unless that failed: `error`, the exit
code, a word for what was refused, and then what it was, as in `error 4 read orders.csv` or
`error 2 flow 1 Header`, which names an operator by its number. The exit code is

   0  all was done and printed
   1  the words are no form of a call
   2  the workflow was refused, or the header of a scan's file
   3  the script was refused
   4  a file was not there, or it or the input of a session could not be read
   5  the log could not be written
   6  the output could not be written
   7  a log that was read was refused: to be replayed, to go on from, or to print its commands
   8  the work went past its limit
   9  a file, or the input of a session, was too large
  10  memory ran out
  70  the launcher could not build the program
";

fn main(rt: HostRuntime) -> ExitCode {
    let terminal = rt.stderr().is_terminal();
    match words(&rt) {
        Ok(words) => ExitCode::from(answer(&rt, words.as_slice(), terminal).code()),
        Err(error) => ExitCode::from(no_words(&rt, error.kind(), terminal).code()),
    }
}

// The words after the program's name.
fn words<R: Env + AllocGlobal>(rt: &R) -> io::Result<Vec<String>> {
    Ok(env::args(rt)?.skip(1).collect(rt.alloc())?)
}

// The words could not be read: memory ran out, or one of them is no text, which no form has.
fn no_words<R: Files + Print + Eprint + Threads + Sync + AllocGlobal>(
    rt: &R,
    kind: ErrorKind,
    terminal: bool,
) -> Status {
    if kind == ErrorKind::OutOfMemory {
        let _ = rt.print("error 10 memory\n");
        return Status::NoMemory;
    }
    call(rt, &[], terminal)
}

fn answer<R: Files + Print + Eprint + Threads + Sync + AllocGlobal>(
    rt: &R,
    words: &[String],
    terminal: bool,
) -> Status {
    if let [word] = words {
        match word.as_str() {
            "--help" => return show(rt, HELP),
            "--version" => return show(rt, VERSION),
            _ => {}
        }
    }
    call(rt, words, terminal)
}

fn show<R: Print>(rt: &R, text: &str) -> Status {
    match rt.print(text) {
        Ok(()) => Status::Ok,
        Err(_) => Status::OutFault,
    }
}

// The top call. At a terminal it is told on the standard error what a refusal means.
fn call<R: Files + Print + Eprint + Threads + Sync + AllocGlobal>(
    rt: &R,
    words: &[String],
    terminal: bool,
) -> Status {
    let screen = Screen::new(rt, terminal, None);
    let mut folder = RealFolder::new(rt.alloc(), rt);
    let mut out = TerminalSink::new(RealSink::new(rt), &screen);
    let mut printed = Printed::new();
    let status = amber(
        rt,
        rt.alloc(),
        words,
        &mut folder,
        &mut out,
        &mut printed,
        &OpenGate,
    );
    // The program ends, and the system takes the rows back faster than they could be freed one by one.
    mem::forget(printed);
    if status == Status::Usage {
        let _ = rt.eprint(USAGE_HINT);
    }
    status
}
