//! The line that reports a refusal, in its pieces, and as a text.
//! Rests on `Failure`.

ghost use Rattle.std.specs.Prelude.{◌≡◌, ◌++◌, IfOk, OnOk, codes, string_bytes};
ghost use Rattle.std.specs.Fmt.{decimal};
ghost use Rattle.amber_course.specs.Failure.{error_line_of};
ghost use Rattle.amber_course.specs.Lines.{line_bytes};

use crate::failure::Failure;
use amber_rows::Text;
use itoa::Buffer;
use std::alloc::{AllocError, Global};

/// The line that reports a refusal, in its pieces.
#[derive(Clone, Copy)]
pub(crate) enum Line<'a> {
    /// None.
    Nothing,
    /// A whole line.
    Whole(&'a str),
    /// These words and the name of a file.
    Named {
        words: &'a str,
        name: &'a str,
    },
    /// These words, a number and a reason.
    Reason {
        words: &'a str,
        number: u64,
        why: &'a str,
    },
}

impl<'a> Line<'a> {
    /// The line of a failure; a sink that failed gets none.
    pub(crate) fn of(failure: &'a Failure) -> Line<'a>
        ensures bytes { line_bytes result ≡ error_line_of failure.now }
        ensures none { failure.now ≡ Failure.OutFault → result ≡ Line.Nothing }
    {
        match failure {
            Failure::Usage => Line::Whole("error 1 usage\n"),
            Failure::BadFlow { op, why } => Line::Reason {
                words: "error 2 flow ",
                number: u64::from(*op),
                why: why.word(),
            },
            Failure::BadScript { line, why } => Line::Reason {
                words: "error 3 script ",
                number: *line,
                why: why.word(),
            },
            Failure::ReadFault { name } => Line::unread(name.get()),
            Failure::LogFault => Line::Whole("error 5 log write\n"),
            Failure::OutFault => Line::Nothing,
            Failure::BadLog { line, why } => Line::Reason {
                words: "error 7 log ",
                number: *line,
                why: why.word(),
            },
            Failure::Long => Line::Whole("error 8 long\n"),
            Failure::TooLarge { name } => Line::large(name.get()),
            Failure::NoMemory => Line::Whole("error 10 memory\n"),
        }
    }

    /// The line for a file that could not be read.
    pub(crate) fn unread(name: &'a str) -> Line<'a>
        ensures { line_bytes result ≡ codes "error 4 read " ++ (name.now ++ codes "\n") }
    {
        Line::Named {
            words: "error 4 read ",
            name,
        }
    }

    /// The line for a file that is too large.
    pub(crate) fn large(name: &'a str) -> Line<'a>
        ensures { line_bytes result ≡ codes "error 9 large " ++ (name.now ++ codes "\n") }
    {
        Line::Named {
            words: "error 9 large ",
            name,
        }
    }
}

// Adds words, a text and the end of the line.
fn push_text_line(line: &mut String, words: &str, text: &str) -> Result<(), AllocError>
    ensures { OnOk result (string_bytes line.new
        ≡ string_bytes line.old ++ (words.now ++ (text.now ++ codes "\n"))) }
{
    line.push_str(words)?;
    line.push_str(text)?;
    line.push_str("\n")
}

// A line as a text of std's.
fn written(alloc: Global, line: &Line<'_>) -> Result<String, AllocError>
    ensures { IfOk result (λ text. string_bytes text ≡ line_bytes line.now) }
{
    let mut text = String::new(alloc);
    match line {
        Line::Nothing => {}
        Line::Whole(whole) => text.push_str(whole)?,
        Line::Named { words, name } => push_text_line(&mut text, words, name)?,
        Line::Reason { words, number, why } => {
            let mut buffer = Buffer::new();
            text.push_str(words)?;
            text.push_str(buffer.format(*number))?;
            push_text_line(&mut text, " ", why)?;
        }
    }
    Ok(text)
}

/// The line of a failure, as `refuse` puts it.
pub fn error_line(alloc: Global, failure: &Failure) -> Result<Text, AllocError>
    ensures { IfOk result (λ line. line ≡ error_line_of failure.now) }
{
    let line = written(alloc, &Line::of(failure))?;
    Text::new(alloc, line.as_str())
}
