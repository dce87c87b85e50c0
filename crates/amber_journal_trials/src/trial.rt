//! What is read of a text, written again. Over `read_log` and `write_item` of `amber_journal`.

ghost use Rattle.amber_log.specs.Grammar.{IsLog};

use amber_journal::{LogErr, read_log, whole_items, write_head, write_item};
use amber_log::Log;
use std::alloc::{AllocError, Global};

// The bytes that each byte of a text is changed to.
const OTHERS: [u8; 8] = *b"0 1\ngf\xffA";

#[derive(Drop)]
pub struct Counts {
    pub read: u64,
    pub refused: u64,
    pub wrong: u64,
}

impl Counts {
    pub fn new() -> Self {
        Counts {
            read: 0,
            refused: 0,
            wrong: 0,
        }
    }
}

/// The text of a log.
#[tactic(auto, using(crate::proofs::Logs::item_at))]
pub fn text_of(alloc: Global, log: &Log) -> Result<Vec<u8>, AllocError>
    requires { IsLog log.now }
{
    let mut text = write_head(alloc, log.batch)?;
    let items = log.items.get();
    for item in items {
        let more = write_item(alloc, item)?;
        text.extend_from_slice(more.as_slice())?;
    }
    Ok(text)
}

// Whether what is read is the log of the whole items, if it is read.
#[tactic(auto, using(crate::proofs::Logs::log_has_text))]
fn is_same(alloc: Global, bytes: &[u8]) -> Result<Option<bool>, AllocError> {
    match read_log(alloc, bytes) {
        Err(LogErr::NoMemory) => Err(AllocError),
        Err(LogErr::Text { .. }) => Ok(None),
        Ok(log) => {
            let text = text_of(alloc, &log)?;
            let whole = &bytes[..whole_items(bytes)];
            if whole.is_empty() {
                return Ok(Some(log.batch == 400 && log.items.get().is_empty()));
            }
            Ok(Some(text.as_slice() == whole))
        }
    }
}

// Tries a text with one byte changed.
fn try_change(
    alloc: Global,
    text: &mut [u8],
    place: usize,
    byte: u8,
    counts: &mut Counts,
) -> Result<(), AllocError> {
    if place >= text.len() {
        return Ok(());
    }
    let old = text[place];
    text[place] = byte;
    match is_same(alloc, text)? {
        Some(true) => counts.read = counts.read.wrapping_add(1),
        Some(false) => counts.wrong = counts.wrong.wrapping_add(1),
        None => counts.refused = counts.refused.wrapping_add(1),
    }
    text[place] = old;
    Ok(())
}

/// Tries each beginning of a text, and each change of one byte.
pub fn try_text(alloc: Global, text: &[u8], counts: &mut Counts) -> Result<(), AllocError> {
    for end in 0..text.len() + 1 {
        if is_same(alloc, &text[..end])? != Some(true) {
            counts.wrong = counts.wrong.wrapping_add(1);
        }
    }
    let mut changed = text.to_vec(alloc)?;
    for place in 0..text.len() {
        for byte in OTHERS {
            try_change(alloc, &mut changed, place, byte, counts)?;
        }
    }
    Ok(())
}
