//! The standard input of a session. At a terminal a prompt stands before each line, and the line `help` is answered at once. Rests
//! on `RealSource` and on `Screen`.

ghost use Rattle.std.specs.Prelude.{◌≡◌, None};
ghost use Rattle.amber_io.specs.Real.{failed_reads};

use amber_io::{IoErr, RealSource, Source};
use amber_terminal::Screen;
use std::alloc::Global;

const PROMPT: &str = "amber> ";

const GREETING: &str = "Type `help` for the commands. The end of input (ctrl-D) runs to the end.\n";

// The commands of a session.
const HELP: &str = "\
run                    goes on until something stops the run, and says what
pause OP N             asks to stop soon after OP has emitted N rows since the start
break count OP N       asks to stop once OP has emitted N rows from here on, and not one more
break when OP COLUMN CMP VALUE
                       asks to stop before each row of OP whose COLUMN compares so with VALUE;
                       CMP is one of = != < <= > >=
inspect OP             shows how far the workers of OP are
set OP VALUE           changes the constant of the filter OP, for the rows that it takes from then on
drop OP W              drops the row that the held worker W of OP is about to emit
lose OP W              throws the worker W of OP away, and builds it again from the log
clear OP               takes back what was asked to stop at OP
help                   shows this text

The end of input (ctrl-D) runs to the end and prints the answer. There is no `quit`: ctrl-C ends the
session without an answer. Nothing can be typed into a run that goes on: ctrl-C there loses what was
done since that `run`, and nothing before it. What was cut off goes on by `amber commands` and then
`amber recover`.
";

/// The standard input, beside a screen.
#[derive(Drop)]
pub(crate) struct LineSource<'a, 'r, R> {
    real: RealSource<'r, R>,
    screen: &'a Screen<'r, R>,
    // Whether the next byte begins a line.
    at_start: bool,
    // Whether nothing was read yet.
    is_first: bool,
}

impl<'a, 'r, R: Input + Eprint> LineSource<'a, 'r, R> {
    /// The standard input of `rt`.
    pub fn new(rt: &'r R, screen: &'a Screen<'r, R>) -> LineSource<'a, 'r, R> {
        LineSource {
            real: RealSource::new(rt),
            screen,
            at_start: true,
            is_first: true,
        }
    }
}

// Whether a line asks for the commands.
fn is_help(line: &[u8]) -> bool {
    line == b"help\n".as_slice() || line == b"help\r\n".as_slice()
}

impl<R: Input + Eprint> LineSource<'_, '_, R> {
    // Puts a prompt where a line begins, and a greeting before the first one.
    fn prompt(&mut self)
        ensures { self.new.real ≡ self.old.real }
    {
        if self.is_first {
            self.is_first = false;
            self.screen.tell(GREETING);
        }
        if self.at_start {
            self.screen.tell(PROMPT);
        }
    }

    // Notes what was read: whether a line begins behind it. Behind the end of input the cursor leaves the prompt's line.
    fn note(&mut self, bytes: &[u8])
        ensures { self.new.real ≡ self.old.real }
    {
        match bytes.last() {
            Some(byte) => self.at_start = *byte == b'\n',
            None => self.screen.tell("\n"),
        }
    }
}

impl<R: Input + Eprint> Source for LineSource<'_, '_, R> {
    ghost left = { λ _. None };

    ghost faults = { λ source. failed_reads source.real };

    /// As the trait says. A terminal gives one line at a time; the line `help` is answered here, and the next one is read.
    fn read(&mut self, alloc: Global, most: u32) -> Result<Vec<u8>, IoErr> {
        for _ in 0..u64::MAX {
            self.prompt();
            let bytes = self.real.read(alloc, most)?;
            if self.at_start && self.screen.is_on() && is_help(bytes.as_slice()) {
                self.screen.tell(HELP);
            } else {
                self.note(bytes.as_slice());
                return Ok(bytes);
            }
        }
        Err(IoErr::NoMemory)
    }
}
