//! `amber commands`: prints the commands of a log, one a line, as a script, over the system's files
//! and the standard output. So a session that was cut off can be done again, or gone on with.
#![tactic(auto)]

mod fitting;
mod laws;
mod printing;
mod refusal;
mod script;

use crate::printing::print_commands;
use amber_course::Status;
use amber_io::{FolderAndSink, RealFolder, RealSink};
use amber_terminal::{Screen, TerminalSink};
use std::io::{ErrorKind, IsTerminal};
use std::process::ExitCode;
use std::rt::{Env, Files};
use std::{env, io};

const VERSION: &str = "amber 0.1.0\n";

const FORM: &str = "amber commands WORKFLOW LOG\n";

const HELP: &str = "amber commands WORKFLOW LOG

Prints the commands of a log, one a line, as a script for the workflow in the file WORKFLOW: what
was typed into a session, or stood in the script of a run, without comments and without what was
refused. LOG is the file that `amber debug` or `amber run` has written; it is only read. What is
torn at its end, where a session was cut off, is left out.

A leg to the end has no line, since the end of a script runs to the end. So of a session that ended
it prints the script by which `amber run` does the same, and of one that was cut off all that was
done until then. In a file SCRIPT, perhaps with lines added to it, it is the script by which

  amber recover WORKFLOW SCRIPT OLDLOG LOG THREADS

goes on from that log, OLDLOG.

Exit codes are those of `amber run`, and 7 where the log is refused: `error 7 log LINE Text` where
the line cannot stand in a log, and `error 7 log LINE Illegal` where no script for the workflow may
have its command.
";

fn main(rt: HostRuntime) -> ExitCode {
    let terminal = rt.stderr().is_terminal();
    match words(&rt) {
        Ok(words) => ExitCode::from(answer(&rt, words.as_slice(), terminal).code()),
        Err(error) => ExitCode::from(no_words(&rt, error.kind(), terminal).code()),
    }
}

// The words after the program's name.
fn words<R: Env + AllocGlobal>(rt: &R) -> io::Result<Vec<String>> {
    Ok(env::args(rt)?.skip(1).collect(rt.alloc())?)
}

// The words could not be read: memory ran out, or one of them is no text, which no form has.
fn no_words<R: Files + Print + Eprint + AllocGlobal>(
    rt: &R,
    kind: ErrorKind,
    terminal: bool,
) -> Status {
    if kind == ErrorKind::OutOfMemory {
        let _ = rt.print("error 10 memory\n");
        return Status::NoMemory;
    }
    call(rt, &[], terminal)
}

// `--help` and `--version`, as the only word, are answered here.
fn answer<R: Files + Print + Eprint + AllocGlobal>(
    rt: &R,
    words: &[String],
    terminal: bool,
) -> Status {
    if let [word] = words {
        match word.as_str() {
            "--help" => return show(rt, HELP),
            "--version" => return show(rt, VERSION),
            _ => {}
        }
    }
    call(rt, words, terminal)
}

fn show<R: Print>(rt: &R, text: &str) -> Status {
    match rt.print(text) {
        Ok(()) => Status::Ok,
        Err(_) => Status::OutFault,
    }
}

// The call over the system's files and the standard output. At a terminal it is told what a refusal
// means.
fn call<R: Files + Print + Eprint + AllocGlobal>(
    rt: &R,
    words: &[String],
    terminal: bool,
) -> Status {
    let screen = Screen::new(rt, terminal, None);
    let mut folder = RealFolder::new(rt.alloc(), rt);
    let mut out = TerminalSink::new(RealSink::new(rt), &screen);
    let mut outside = FolderAndSink::new(&mut folder, &mut out);
    let status = print_commands(rt.alloc(), words, &mut outside);
    if status == Status::Usage {
        screen.tell(FORM);
    }
    status
}
