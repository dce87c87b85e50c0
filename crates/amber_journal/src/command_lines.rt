//! The commands of a log, word by word. Rests on `splitting`, `numbers` and `constants`.

ghost use Rattle.std.specs.Prelude.{◌≡◌, ◌∷◌, [], None, option_copied, IfOk, MatchOption};
ghost use Rattle.amber_log.specs.ReadWords.{command_in};
ghost use Rattle.amber_log.specs.Operands.{condition_in, value_in, nothing_in, one_word, row_count_in, worker_in};
ghost use Rattle.amber_log.specs.Commands.{command_named};
ghost use Rattle.amber_journal.specs.Parted.{words_after};

use crate::constants::{comparison, constant};
use crate::numbers::{number, number32};
use crate::splitting::next_word;
use amber_log::Command;
use amber_rows::{Cond, Value};
use std::alloc::{AllocError, Global};

// That no word is left.
#[tactic(auto, using(crate::proofs::Parted::nothing_in_more))]
fn nothing(rest: Option<&[u8]>) -> Option<()>
    ensures { result ≡ nothing_in (words_after (option_copied rest.entry)) }
{
    match rest {
        None => Some(()),
        Some(_) => None,
    }
}

// The one word that is left.
#[tactic(auto, using(crate::proofs::Parted::one_word_more))]
fn one_word(rest: Option<&[u8]>) -> Option<&[u8]>
    ensures { option_copied result
        ≡ one_word (words_after (option_copied rest.entry)) }
{
    match next_word(rest?) {
        (word, None) => Some(word),
        (_, Some(_)) => None,
    }
}

// A number of rows.
fn rows(rest: Option<&[u8]>) -> Option<u64>
    ensures { result ≡ row_count_in (words_after (option_copied rest.entry)) }
{
    number(one_word(rest)?, u64::MAX)
}

// A worker's number.
fn worker(rest: Option<&[u8]>) -> Option<u32>
    ensures { result ≡ worker_in (words_after (option_copied rest.entry)) }
{
    number32(one_word(rest)?)
}

// A constant.
fn constant_behind(alloc: Global, rest: Option<&[u8]>) -> Result<Option<Value>, AllocError>
    ensures { IfOk result (λ value. value
        ≡ value_in (words_after (option_copied rest.entry))) }
{
    match one_word(rest) {
        None => Ok(None),
        Some(word) => constant(alloc, word),
    }
}

// The three words that are left.
#[tactic(auto, using(crate::proofs::Parted::condition_in_more))]
fn three_words(rest: Option<&[u8]>) -> Option<(&[u8], &[u8], &[u8])>
    ensures { MatchOption result
        (condition_in (words_after (option_copied rest.entry)) ≡ None)
        (λ p. words_after (option_copied rest.entry)
        ≡ p.0.now ∷ p.1.now ∷ p.2.now ∷ []) }
{
    let (first, rest) = next_word(rest?);
    let (second, rest) = next_word(rest?);
    match next_word(rest?) {
        (third, None) => Some((first, second, third)),
        (_, Some(_)) => None,
    }
}

// A condition: a column, a sign and a constant.
fn condition(alloc: Global, rest: Option<&[u8]>) -> Result<Option<Cond>, AllocError>
    ensures { IfOk result (λ cond. cond
        ≡ condition_in (words_after (option_copied rest.entry))) }
{
    let Some((column, sign, word)) = three_words(rest) else {
        return Ok(None);
    };
    let Some(column) = number32(column) else {
        return Ok(None);
    };
    let Some(op) = comparison(sign) else {
        return Ok(None);
    };
    match constant(alloc, word)? {
        None => Ok(None),
        Some(constant) => Ok(Some(Cond {
            column,
            op,
            constant,
        })),
    }
}

// The command of this name at this operator, and the words after it.
#[tactic(auto, unfolding(amber_log::specs::Commands::command_named))]
fn command_named(
    alloc: Global,
    name: &[u8],
    op: u32,
    rest: Option<&[u8]>,
) -> Result<Option<Command>, AllocError>
    ensures { IfOk result (λ made. made
        ≡ command_named name.now op (words_after (option_copied rest.entry))) }
{
    if name == b"pause".as_slice() {
        Ok(rows(rest).map(|n| Command::Pause { op, n }))
    } else if name == b"count".as_slice() {
        Ok(rows(rest).map(|n| Command::Count { op, n }))
    } else if name == b"when".as_slice() {
        Ok(condition(alloc, rest)?.map(|cond| Command::When { op, cond }))
    } else if name == b"clear".as_slice() {
        Ok(nothing(rest).map(|()| Command::Clear { op }))
    } else if name == b"set".as_slice() {
        Ok(constant_behind(alloc, rest)?.map(|value| Command::Set { op, value }))
    } else if name == b"drop".as_slice() {
        Ok(worker(rest).map(|worker| Command::Drop { op, worker }))
    } else if name == b"inspect".as_slice() {
        Ok(nothing(rest).map(|()| Command::Inspect { op }))
    } else if name == b"lose".as_slice() {
        Ok(worker(rest).map(|worker| Command::Lose { op, worker }))
    } else {
        Ok(None)
    }
}

/// The command of the words after `do`: its name, its operator and what it says beside.
#[tactic(auto, unfolding(amber_log::specs::ReadWords::command_in))]
pub fn command(alloc: Global, rest: Option<&[u8]>) -> Result<Option<Command>, AllocError>
    ensures { IfOk result (λ made. made
        ≡ command_in (words_after (option_copied rest.entry))) }
{
    let Some(rest) = rest else {
        return Ok(None);
    };
    let (name, rest) = next_word(rest);
    let Some(rest) = rest else {
        return Ok(None);
    };
    let (op, rest) = next_word(rest);
    match number32(op) {
        None => Ok(None),
        Some(op) => command_named(alloc, name, op, rest),
    }
}
