//! Texts of logs, made of random lines. Rests on `Dice`.

use crate::dice::Dice;
use std::alloc::{AllocError, Global};

// Adds a line.
fn add(text: &mut Vec<u8>, line: &str) -> Result<(), AllocError> {
    text.extend_from_slice(line.as_bytes())?;
    text.extend_from_slice(b"\n")
}

// Adds a line of a command.
fn add_command(alloc: Global, text: &mut Vec<u8>, dice: &mut Dice) -> Result<(), AllocError> {
    let op = dice.roll(40);
    let n = dice.roll(5000);
    let (word, before, behind) = match dice.roll(8) {
        0 => ("pause", "", ""),
        1 => ("count", "", ""),
        2 => ("set", "i-", "1"),
        3 => return add(text, &format!(in alloc; "do when {op} 2 <= t636f67")?),
        4 => ("lose", "", ""),
        5 => ("drop", "", ""),
        6 => return add(text, &format!(in alloc; "do clear {op}")?),
        _ => return add(text, &format!(in alloc; "do inspect {op}")?),
    };
    add(
        text,
        &format!(in alloc; "do {word} {op} {before}{n}{behind}")?,
    )
}

// Adds the part of a worker: a batch that is taken, rows that move, perhaps more.
fn add_part(
    alloc: Global,
    text: &mut Vec<u8>,
    dice: &mut Dice,
    worker: u64,
) -> Result<(), AllocError> {
    let n = dice.roll(900);
    let line = format!(in alloc; "w {worker}\nt {n} {n}\ng {n} 1")?;
    add(text, line.as_str())?;
    match dice.roll(4) {
        0 => add(text, "a 7\nb 3"),
        1 => add(text, "p\nr\nh"),
        2 => add(text, "f"),
        _ => Ok(()),
    }
}

// Adds a leg.
fn add_leg(alloc: Global, text: &mut Vec<u8>, dice: &mut Dice) -> Result<(), AllocError> {
    add(text, "run")?;
    for worker in 0..dice.roll(4) {
        add_part(alloc, text, dice, worker)?;
    }
    add(text, "cut")
}

/// The text of a log.
pub fn make_text(alloc: Global, dice: &mut Dice) -> Result<Vec<u8>, AllocError> {
    let mut text = Vec::new(alloc);
    let batch = dice.roll(65_536) + 1;
    let head = format!(in alloc; "amber 1 {batch}")?;
    add(&mut text, head.as_str())?;
    for _ in 0..dice.roll(6) {
        if dice.roll(2) == 0 {
            add_command(alloc, &mut text, dice)?;
        } else {
            add_leg(alloc, &mut text, dice)?;
        }
    }
    if dice.roll(2) == 0 {
        add(&mut text, "end\nw 5\nf\ncut")?;
    }
    Ok(text)
}
