//! A sink beside a screen: what is put into it goes on as it is, and behind a line that refuses something the screen tells what that
//! means. Rests on `Screen` and on `sentence_of`.

ghost use Rattle.std.specs.Prelude.{◌≡◌};

use crate::screen::Screen;
use crate::sentences::sentence_of;
use amber_io::{IoErr, Sink};

// How many bytes of a line are looked at.
const LINE: usize = 96;

// The beginning of a line that may refuse something, and how much of it there is.
#[derive(Drop)]
struct Beginning {
    line: [u8; LINE],
    length: usize,
}

// Whether a line with such a beginning may refuse something.
fn may_refuse(bytes: &[u8]) -> bool {
    bytes.starts_with(b"error ") || bytes.starts_with(b"refused ")
}

// Tells what a line means, where it refuses something.
fn explain<R: Eprint>(line: &[u8], screen: &Screen<'_, R>) {
    let Some(sentence) = sentence_of(line) else {
        return;
    };
    screen.explain(sentence);
    if line.starts_with(b"refused ") {
        help(line, screen);
    } else if line.starts_with(b"error 3 ") && line.ends_with(b" Word") {
        screen.tell("`amber --help` shows the commands.\n");
    }
}

// Tells what helps to write another line in the place of one that was refused.
fn help<R: Eprint>(line: &[u8], screen: &Screen<'_, R>) {
    if line.ends_with(b" Word") {
        screen.tell("`help` shows the commands.\n");
    } else if line.ends_with(b" Column") || line.ends_with(b" Mismatch") {
        screen.tell_columns();
    } else if !line.ends_with(b" Number") {
        screen.tell_operators();
    }
}

impl Beginning {
    // Notes the next byte of the line. At its end it is told what it means.
    fn note<R: Eprint>(&mut self, byte: u8, screen: &Screen<'_, R>) {
        if byte == b'\n' {
            explain(&self.line[..self.length.min(LINE)], screen);
            self.length = 0;
            return;
        }
        if self.length < LINE {
            self.line[self.length] = byte;
            self.length += 1;
        }
    }

    // Notes a piece that was put, as far as its first line goes.
    fn note_piece<R: Eprint>(&mut self, bytes: &[u8], screen: &Screen<'_, R>) {
        if self.length == 0 && !may_refuse(bytes) {
            return;
        }
        for byte in bytes {
            self.note(*byte, screen);
            if *byte == b'\n' {
                return;
            }
        }
    }
}

/// A sink beside a screen: each piece is handed on whole and once.
#[derive(Drop)]
pub struct TerminalSink<'a, 'r, R, S: Sink> {
    sink: S,
    screen: &'a Screen<'r, R>,
    beginning: Beginning,
}

impl<'a, 'r, R: Eprint, S: Sink> TerminalSink<'a, 'r, R, S> {
    /// This sink, beside the screen.
    pub fn new(sink: S, screen: &'a Screen<'r, R>) -> TerminalSink<'a, 'r, R, S>
        ensures written { ⟦<TerminalSink<'a, 'r, R, S> as Sink>⟧.written result
            ≡ S.written sink }
        ensures faults { ⟦<TerminalSink<'a, 'r, R, S> as Sink>⟧.faults result ≡ S.faults sink }
    {
        TerminalSink {
            sink,
            screen,
            beginning: Beginning {
                line: [0; LINE],
                length: 0,
            },
        }
    }
}

impl<R: Eprint, S: Sink> Sink for TerminalSink<'_, '_, R, S> {
    ghost written = { λ one. S.written one.sink };

    ghost faults = { λ one. S.faults one.sink };

    fn put(&mut self, bytes: &[u8]) -> Result<(), IoErr> {
        self.screen.clear();
        self.sink.put(bytes)?;
        if self.screen.is_on() {
            self.beginning.note_piece(bytes, self.screen);
        }
        Ok(())
    }
}
