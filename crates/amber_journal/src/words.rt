//! The lines of a log, by the number of their words. Rests on `splitting` and `command_lines`.

ghost use Rattle.std.specs.Prelude.{◌≡◌, ◌^◌, IfOk, option_and_then, option_copied};
ghost use Rattle.amber_log.specs.ReadWords.{head_line, line_by, line_one, line_three, line_two, moving, parse, with_two};
ghost use Rattle.amber_log.specs.Operands.{above_zero, number};
ghost use Rattle.amber_log.specs.declared.entry.Entry.TheVariants as entry;
ghost use Rattle.amber_log.specs.declared.line.Line.TheVariants as line;
ghost use Rattle.amber_journal.specs.Parted.{words_after};

use crate::command_lines::command;
use crate::numbers::{number, number32};
use crate::splitting::next_word;
use amber_log::{Close, Entry, Line};
use std::alloc::{AllocError, Global};

/// A line of one word.
#[tactic(auto, unfolding(amber_log::specs::ReadWords::line_one))]
fn line_of_one(word: &[u8]) -> Option<Line>
    ensures { result ≡ line_one word.now }
{
    match word {
        b"run" => Some(Line::Run),
        b"end" => Some(Line::End),
        b"p" => Some(Line::Entry(Entry::Pause)),
        b"r" => Some(Line::Entry(Entry::Resume)),
        b"h" => Some(Line::Entry(Entry::Hold)),
        b"f" => Some(Line::Entry(Entry::Finish)),
        b"cut" => Some(Line::Close(Close::Cut)),
        b"long" => Some(Line::Close(Close::Long)),
        _ => None,
    }
}

/// A number of 64 bits that is not 0.
fn units(digits: &[u8]) -> Option<u64>
    ensures { result ≡ option_and_then above_zero (number (2 ^ 64) digits.now) }
{
    match number(digits, u64::MAX)? {
        0 => None,
        units => Some(units),
    }
}

/// A line of two words.
#[tactic(auto, unfolding(amber_log::specs::ReadWords::line_two))]
fn line_of_two(word: &[u8], a: &[u8]) -> Option<Line>
    ensures { result ≡ line_two word.now a.now }
{
    if word == b"w".as_slice() {
        let worker = number32(a)?;
        Some(Line::Worker(worker))
    } else if word == b"a".as_slice() {
        let n = units(a)?;
        Some(Line::Entry(Entry::Grant { n }))
    } else if word == b"b".as_slice() {
        let n = units(a)?;
        Some(Line::Entry(Entry::Back { n }))
    } else {
        None
    }
}

/// A batch is taken from a sender.
fn take(sender: &[u8], batch: &[u8]) -> Option<Line>
    ensures { result ≡ with_two (λ sender batch. line.Entry (entry.Take sender batch)) (2 ^ 32)
        (2 ^ 64) sender.now batch.now }
{
    let from = number32(sender)?;
    let batch = number(batch, u64::MAX)?;
    Some(Line::Entry(Entry::Take { from, batch }))
}

/// Rows are taken, or emitted.
fn go(rows: &[u8], outs: &[u8]) -> Option<Line>
    ensures { result ≡ option_and_then
        (λ rows. option_and_then (moving rows) (number (2 ^ 64) outs.now))
        (number (2 ^ 64) rows.now) }
{
    let rows = number(rows, u64::MAX)?;
    let outs = number(outs, u64::MAX)?;
    if rows == 0 && outs == 0 {
        None
    } else {
        Some(Line::Entry(Entry::Go { rows, outs }))
    }
}

/// The head, of version 1.
#[tactic(auto, unfolding(amber_log::specs::ReadWords::head_line))]
fn head(version: &[u8], batch: &[u8]) -> Option<Line>
    ensures { result ≡ head_line version.now batch.now }
{
    if version != b"1".as_slice() {
        return None;
    }
    match number(batch, 65_536)? {
        0 => None,
        batch => Some(Line::Head(batch as u32)),
    }
}

/// A line of three words.
#[tactic(auto, unfolding(amber_log::specs::ReadWords::line_three))]
fn line_of_three(word: &[u8], a: &[u8], b: &[u8]) -> Option<Line>
    ensures { result ≡ line_three word.now a.now b.now }
{
    if word == b"t".as_slice() {
        take(a, b)
    } else if word == b"g".as_slice() {
        go(a, b)
    } else if word == b"amber".as_slice() {
        head(a, b)
    } else {
        None
    }
}

/// A line other than a command's, by how many words it has.
#[tactic(auto, using(crate::proofs::Parted::line_by_more))]
fn line_by(word: &[u8], rest: Option<&[u8]>) -> Option<Line>
    ensures { result ≡ line_by word.now (words_after (option_copied rest.entry)) }
{
    let Some(rest) = rest else {
        return line_of_one(word);
    };
    let (a, rest) = next_word(rest);
    let Some(rest) = rest else {
        return line_of_two(word, a);
    };
    match next_word(rest) {
        (b, None) => line_of_three(word, a, b),
        (_, Some(_)) => None,
    }
}

/// The line that these bytes are, if they are one.
#[tactic(auto, unfolding(amber_log::specs::ReadWords::parse, amber_log::specs::ReadWords::line_of))]
pub fn read_line(alloc: Global, bytes: &[u8]) -> Result<Option<Line>, AllocError>
    ensures { IfOk result (λ made. made ≡ parse bytes.now) }
{
    let (word, rest) = next_word(bytes);
    if word != b"do".as_slice() {
        return Ok(line_by(word, rest));
    }
    match command(alloc, rest)? {
        None => Ok(None),
        Some(command) => Ok(Some(Line::Do(command))),
    }
}
