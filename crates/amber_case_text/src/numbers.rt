//! The numbers of a line.

use crate::fault::{Why, push};
use std::alloc::Global;

/// A number.
pub(crate) fn number(written: &str) -> Result<u64, Why> {
    match written.parse::<u64>() {
        Ok(number) => Ok(number),
        Err(_) => Err(Why::Number),
    }
}

/// At least one number, with blanks between them.
pub(crate) fn add_numbers(all: &mut Vec<u64>, written: &str) -> Result<(), Why> {
    let mut found = false;
    for one in written.split_whitespace() {
        push(all, number(one)?)?;
        found = true;
    }
    if found { Ok(()) } else { Err(Why::Number) }
}

/// A number, and all that follows what ends it.
pub(crate) fn number_and_rest<'a>(written: &'a str, end: &str) -> Result<(u64, &'a str), Why> {
    let Some((first, rest)) = written.split_once(end) else {
        return Err(Why::Number);
    };
    match number(first) {
        Ok(number) => Ok((number, rest)),
        Err(why) => Err(why),
    }
}

/// The two numbers of a range.
pub(crate) fn range(written: &str) -> Result<(u64, u64), Why> {
    let (least, rest) = number_and_rest(written, "..")?;
    Ok((least, number(rest)?))
}

/// The two numbers of a range, or one number, which is a range of its own.
pub(crate) fn range_or_number(written: &str) -> Result<(u64, u64), Why> {
    if written.contains("..") {
        return range(written);
    }
    let only = number(written)?;
    Ok((only, only))
}
