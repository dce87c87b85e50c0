//! `amber debug`: a session over the system's files, the standard input and the standard output. Its words are the workflow, the
//! log, and perhaps the number of threads and the rows of a batch. At a terminal it tells on the standard error what helps whoever
//! types: a prompt, what a refusal means, which operators there are, and that a long leg is at work. Elsewhere nothing is told.
#![tactic(auto)]

mod gate;
mod operators;
mod source;

use crate::gate::WorkGate;
use crate::operators::{columns_text, flow_in, operators_text};
use crate::source::LineSource;
use amber_io::{Folder, RealFolder, RealSink};
use amber_session::{Status, run_session};
use amber_terminal::{Operators, Screen, TerminalSink};
use std::alloc::AllocError;
use std::io::{ErrorKind, IsTerminal};
use std::process::ExitCode;
use std::rt::{Env, Files};
use std::thread::Threads;
use std::{env, io};

// The threads and the rows of a batch, where they are not said.
const THREADS: &str = "4";

const BATCH: &str = "400";

const VERSION: &str = "amber 0.1.0\n";

const FORM: &str = "amber debug WORKFLOW LOG [THREADS BATCH]\n";

const NO_LOG: &str =
    "LOG is a file that holds something else than a log: name another, or remove it first.\n";

const HELP: &str = "amber debug WORKFLOW LOG [THREADS BATCH]

A session: reads commands from the standard input, one a line, and answers each before it reads the next.
The end of input runs to the end and prints the answer. What was done is written into the file LOG, which
is made anew: what stood in that file is gone. THREADS, 1 to 64, is 4 where it is left out, and BATCH, 1
to 65536, is 400. The commands are those of a script, see `amber --help`, among them `lose OP W`, which
throws a worker away and builds it again from the log; a line that is no command is told to be `refused`,
with its number and the reason, and the session goes on. Exit codes are those of `amber run`.

At a terminal a prompt stands before each line, `help` shows the commands, and a sentence tells what a
refusal means. Lines can be edited, and earlier ones come back, where `rlwrap` is installed. Nothing can
be typed into a run that goes on. Ctrl-C ends the program: a run that goes on is lost, and nothing before
it. `quit` is no command.

A session that was cut off is gone on with by two calls:

  amber commands WORKFLOW LOG >SCRIPT
  amber recover WORKFLOW SCRIPT LOG NEWLOG THREADS

The first prints what was typed; the second prints the same replies again, does what was added to SCRIPT,
and runs to the end. A new session over LOG would make LOG anew.
";

fn main(rt: HostRuntime) -> ExitCode {
    let terminal = rt.stdin().is_terminal() && rt.stderr().is_terminal();
    match words(&rt) {
        Ok(words) => ExitCode::from(answer(&rt, words.as_slice(), terminal).code()),
        Err(error) => ExitCode::from(no_words(&rt, error.kind(), terminal).code()),
    }
}

// `--help` and `--version`, as the only word, are answered here.
fn answer<R: Files + Input + Print + Eprint + Threads + Sync + AllocGlobal>(
    rt: &R,
    words: &[String],
    terminal: bool,
) -> Status {
    if let [word] = words {
        match word.as_str() {
            "--help" => return show(rt, HELP),
            "--version" => return show(rt, VERSION),
            _ => {}
        }
    }
    debug(rt, words, terminal)
}

fn show<R: Print>(rt: &R, text: &str) -> Status {
    match rt.print(text) {
        Ok(()) => Status::Ok,
        Err(_) => Status::OutFault,
    }
}

// The words after the program's name, with those that were left out.
fn words<R: Env + AllocGlobal>(rt: &R) -> io::Result<Vec<String>> {
    let mut words: Vec<String> = env::args(rt)?.skip(1).collect(rt.alloc())?;
    if words.len() == 2 {
        words.push(String::from_str(rt.alloc(), THREADS)?)?;
        words.push(String::from_str(rt.alloc(), BATCH)?)?;
    }
    Ok(words)
}

// The words could not be read: memory ran out, or one of them is no text, which no session has.
fn no_words<R: Files + Input + Print + Eprint + Threads + Sync + AllocGlobal>(
    rt: &R,
    kind: ErrorKind,
    terminal: bool,
) -> Status {
    if kind == ErrorKind::OutOfMemory {
        let _ = rt.print("error 10 memory\n");
        return Status::NoMemory;
    }
    debug(rt, &[], terminal)
}

// What is told of the operators of the workflow that is named; nothing where there is none.
fn overview<R: Files + AllocGlobal>(rt: &R, words: &[String]) -> Result<Operators, AllocError> {
    let workflow = match words.first() {
        Some(workflow) => workflow.as_str(),
        None => "",
    };
    let flow = flow_in(rt, rt.alloc(), workflow);
    Ok(Operators {
        names: operators_text(rt.alloc(), &flow)?,
        columns: columns_text(rt.alloc(), &flow)?,
    })
}

// Whether the file of the log holds something that is no log. Whoever types a wrong name keeps what stands there.
fn would_lose<R: Files + AllocGlobal>(rt: &R, words: &[String]) -> bool {
    let [_workflow, log, _threads, _batch] = words else {
        return false;
    };
    let mut folder = RealFolder::new(rt.alloc(), rt);
    match folder.load(rt.alloc(), log.as_str(), 8) {
        Ok(bytes) => !bytes.is_empty() && !bytes.as_slice().starts_with(b"amber 1 "),
        Err(_) => false,
    }
}

// A session. Where no memory is left for an overview of the operators, none is told.
fn debug<R: Files + Input + Print + Eprint + Threads + Sync + AllocGlobal>(
    rt: &R,
    words: &[String],
    terminal: bool,
) -> Status {
    let operators = if terminal {
        overview(rt, words).ok()
    } else {
        None
    };
    let screen = Screen::new(rt, terminal, operators);
    if terminal && would_lose(rt, words) {
        screen.tell(NO_LOG);
        return Status::LogFault;
    }
    let mut folder = RealFolder::new(rt.alloc(), rt);
    let mut source = LineSource::new(rt, &screen);
    let mut out = TerminalSink::new(RealSink::new(rt), &screen);
    let status = run_session(
        rt,
        rt.alloc(),
        words,
        &mut folder,
        &mut source,
        &mut out,
        &WorkGate::new(&screen),
    );
    if status == Status::Usage {
        screen.tell(FORM);
    }
    status
}
