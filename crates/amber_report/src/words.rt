//! Words and numbers appended to a text.

ghost use Rattle.std.specs.Prelude.{◌≡◌, [], ◌∷◌, ◌++◌, OnOk, decimal};
ghost use Rattle.std.specs.List.{flat_map, list_all};
ghost use Rattle.amber_meaning.specs.Texts.{after_blank, escaped_byte, id_at, is_bare, is_bare_byte, value_word, word_of};

use amber_rows::{Flow, Value};
use itoa::Buffer;
use std::alloc::AllocError;

/// A blank and a word.
pub fn push_word(text: &mut Vec<u8>, word: &[u8]) -> Result<(), AllocError>
    ensures { OnOk result (text.new.items ≡ text.old.items ++ after_blank word.now) }
{
    text.push(b' ')?;
    text.extend_from_slice(word)
}

/// The end of a line.
pub fn end_line(text: &mut Vec<u8>) -> Result<(), AllocError>
    ensures { OnOk result (text.new.items ≡ text.old.items ++ 10 ∷ []) }
{
    text.extend_from_slice(b"\n")
}

/// A blank and a number.
pub fn push_number(text: &mut Vec<u8>, number: u64) -> Result<(), AllocError>
    ensures { OnOk result (text.new.items ≡ text.old.items ++ after_blank (decimal number)) }
{
    let mut buffer = Buffer::new();
    push_word(text, buffer.format(number).as_bytes())
}

// Whether a byte may stand in a word without quotes.
fn is_bare_byte(byte: u8) -> bool
    ensures { result ≡ is_bare_byte byte }
{
    (33..=126).contains(&byte) && byte != b'"'
}

// Whether all these bytes may stand in a word without quotes.
fn are_bare(bytes: &[u8]) -> bool
    ensures { result ≡ list_all is_bare_byte bytes.now }
{
    bytes.iter().all(|&byte| is_bare_byte(byte))
}

// Whether a text may stand as a word without quotes.
fn is_bare(text: &[u8]) -> bool
    ensures { result ≡ is_bare text.now }
{
    match text {
        [] => false,
        [first, ..] => *first != b'#' && are_bare(text),
    }
}

// A byte between quotes.
fn push_escaped(text: &mut Vec<u8>, byte: u8) -> Result<(), AllocError>
    ensures { OnOk result (text.new.items ≡ text.old.items ++ escaped_byte byte) }
{
    match byte {
        b'"' => text.extend_from_slice(b"\\\""),
        b'\\' => text.extend_from_slice(b"\\\\"),
        b'\n' => text.extend_from_slice(b"\\n"),
        b'\r' => text.extend_from_slice(b"\\r"),
        other => text.extend_from_slice(&[other]),
    }
}

// The bytes of a text between quotes.
fn push_all_escaped(text: &mut Vec<u8>, bytes: &[u8]) -> Result<(), AllocError>
    ensures { OnOk result (text.new.items ≡ text.old.items ++ flat_map escaped_byte bytes.now) }
{
    for &byte in bytes {
        push_escaped(text, byte)?;
    }
    Ok(())
}

/// A blank and a text as one word: bare where it can be, else in quotes with escapes.
#[tactic(auto, unfolding(amber_meaning::specs::Texts::word_of))]
pub fn push_quoted(text: &mut Vec<u8>, bytes: &[u8]) -> Result<(), AllocError>
    ensures { OnOk result (text.new.items ≡ text.old.items ++ after_blank (word_of bytes.now)) }
{
    if is_bare(bytes) {
        return push_word(text, bytes);
    }
    text.extend_from_slice(b" \"")?;
    push_all_escaped(text, bytes)?;
    text.extend_from_slice(b"\"")
}

/// A blank and a value as one word.
pub fn push_value(text: &mut Vec<u8>, value: &Value) -> Result<(), AllocError>
    ensures { OnOk result (text.new.items ≡ text.old.items ++ after_blank (value_word value.now)) }
{
    match value {
        Value::Int(number) => {
            let mut buffer = Buffer::new();
            push_word(text, buffer.format(*number).as_bytes())
        }
        Value::Text(inner) => push_quoted(text, inner.get().as_bytes()),
    }
}

/// The bytes of an operator's id; none where there is no such operator.
pub fn id_of(flow: &Flow, op: u32) -> &[u8]
    ensures { result.now ≡ id_at flow.now op }
{
    match flow.operator(op) {
        Some(operator) => operator.id.get().as_bytes(),
        None => &[],
    }
}
