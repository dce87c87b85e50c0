//! What is printed of the cases.

use std::fmt::Display;
use std::io;

/// How many cases came as they are expected, how many did not, and how many files were broken.
#[derive(Clone, Copy)]
pub struct Counts {
    pub good: u64,
    pub wrong: u64,
    pub broken: u64,
}

/// Prints the line of a case, and counts it.
pub fn tell_case(
    rt: &impl Print,
    counts: &mut Counts,
    name: &str,
    difference: Option<String>,
) -> io::Result<()> {
    match difference {
        None => {
            counts.good = counts.good.saturating_add(1);
            println!(rt; "{name}: as expected")
        }
        Some(difference) => {
            counts.wrong = counts.wrong.saturating_add(1);
            println!(rt; "{name}: WRONG: {difference}")
        }
    }
}

/// Prints the line of a broken file, and counts it.
pub fn tell_broken(
    rt: &impl Print,
    counts: &mut Counts,
    file: &str,
    why: impl Display + Drop,
) -> io::Result<()> {
    counts.broken = counts.broken.saturating_add(1);
    println!(rt; "{file}: BROKEN: {why}")
}
