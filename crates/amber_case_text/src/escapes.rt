//! Texts with escapes, and words with blanks between them.

use crate::fault::{Why, push};
use std::alloc::Global;

// Where the reader of escapes stands.
#[derive(Clone, Copy)]
enum Reading {
    Plain,
    Escape,
    // At the first digit of a byte.
    Digits,
    // At the second digit, with the first one's value.
    LastDigit(u8),
}

// The value of a hexadecimal digit.
fn digit(byte: u8) -> Result<u8, Why> {
    match byte {
        b'0'..=b'9' => Ok(byte - b'0'),
        b'a'..=b'f' => Ok(byte - b'a' + 10),
        b'A'..=b'F' => Ok(byte - b'A' + 10),
        _ => Err(Why::Escape),
    }
}

// The byte that follows a backslash in this form.
fn escape(byte: u8) -> Result<u8, Why> {
    match byte {
        b'n' => Ok(b'\n'),
        b'r' => Ok(b'\r'),
        b't' => Ok(b'\t'),
        b'0' => Ok(b'\0'),
        b'\\' => Ok(b'\\'),
        b'"' => Ok(b'"'),
        _ => Err(Why::Escape),
    }
}

// Reads one byte.
fn step(bytes: &mut Vec<u8>, reading: Reading, byte: u8) -> Result<Reading, Why> {
    let whole = match reading {
        Reading::Plain if byte == b'\\' => return Ok(Reading::Escape),
        Reading::Escape if byte == b'x' => return Ok(Reading::Digits),
        Reading::Digits => return Ok(Reading::LastDigit(digit(byte)?)),
        Reading::Plain => byte,
        Reading::Escape => escape(byte)?,
        Reading::LastDigit(first) => first << 4 | digit(byte)?,
    };
    push(bytes, whole)?;
    Ok(Reading::Plain)
}

/// The bytes that a text with escapes is.
pub(crate) fn unescaped(alloc: Global, text: &str) -> Result<Vec<u8>, Why> {
    let mut bytes = Vec::new(alloc);
    let mut reading = Reading::Plain;
    for byte in text.bytes() {
        reading = step(&mut bytes, reading, byte)?;
    }
    match reading {
        Reading::Plain => Ok(bytes),
        _ => Err(Why::Escape),
    }
}

// Adds the word that is written so; `""` is the empty one.
fn add_word(alloc: Global, all: &mut Vec<String>, written: &str) -> Result<(), Why> {
    let text = if written == "\"\"" { "" } else { written };
    match String::from_utf8(unescaped(alloc, text)?) {
        Ok(word) => push(all, word),
        Err(_) => Err(Why::Escape),
    }
}

/// The words that blanks part.
pub(crate) fn words(alloc: Global, written: &str) -> Result<Vec<String>, Why> {
    let mut all = Vec::new(alloc);
    for one in written.split_whitespace() {
        add_word(alloc, &mut all, one)?;
    }
    Ok(all)
}
