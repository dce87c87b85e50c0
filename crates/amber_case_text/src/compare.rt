//! Compares what was found with what is expected.

ghost use Rattle.std.specs.Prelude.{◌≡◌, ◌↔◌, IsOk};

use std::fmt;

/// The first line that differs, counted from 1, as it is expected and as it was found.
#[derive(Clone, Copy)]
pub struct LineDifference<'a> {
    pub line: u64,
    pub wanted: &'a [u8],
    pub found: &'a [u8],
}

/// What differs first in an answer.
#[derive(Clone, Copy)]
pub enum Difference<'a> {
    Status { wanted: u8, found: u8 },
    Output(LineDifference<'a>),
}

impl fmt::Display for LineDifference<'_> {
    fn fmt<W: fmt::Write>(&self, f: &mut fmt::Formatter<W>) -> fmt::Result {
        let line = self.line;
        let found = shown(self.found).escape_ascii();
        let wanted = shown(self.wanted).escape_ascii();
        write!(f, "line {line} is `{found}` and not `{wanted}`")
    }
}

impl fmt::Display for Difference<'_> {
    fn fmt<W: fmt::Write>(&self, f: &mut fmt::Formatter<W>) -> fmt::Result {
        match self {
            Difference::Status { wanted, found } => {
                write!(f, "the status is {found} and not {wanted}")
            }
            Difference::Output(line) => write!(f, "in the output {line}"),
        }
    }
}

// How many bytes of a line are shown.
const SHOWN: usize = 120;

// The bytes of a line that are shown.
fn shown(line: &[u8]) -> &[u8] {
    line.get(..SHOWN).unwrap_or(line)
}

// The line that begins at a place, with its line feed.
fn line_at(bytes: &[u8], start: usize) -> &[u8] {
    let rest = bytes.get(start..).unwrap_or(b"");
    for (place, byte) in rest.iter().enumerate() {
        if *byte == b'\n' {
            return rest.get(..=place).unwrap_or(rest);
        }
    }
    rest
}

// The first line that differs.
fn line_difference<'a>(wanted: &'a [u8], found: &'a [u8]) -> LineDifference<'a> {
    let mut line = 1u64;
    let mut start = 0;
    for (place, (one, other)) in wanted.iter().zip(found).enumerate() {
        if *one != *other {
            break;
        }
        if *one == b'\n' {
            line = line.saturating_add(1);
            start = place.saturating_add(1);
        }
    }
    LineDifference {
        line,
        wanted: line_at(wanted, start),
        found: line_at(found, start),
    }
}

/// Compares bytes with those that are expected.
pub fn compare_bytes<'a>(wanted: &'a [u8], found: &'a [u8]) -> Result<(), LineDifference<'a>>
    ensures { IsOk result ↔ (wanted.now ≡ found.now) }
{
    if wanted == found {
        return Ok(());
    }
    Err(line_difference(wanted, found))
}

/// Compares a status and an output with those that are expected.
pub fn compare_answer<'a>(
    wanted_status: u8,
    status: u8,
    wanted: &'a [u8],
    out: &'a [u8],
) -> Result<(), Difference<'a>>
    ensures { IsOk result ↔ ((wanted_status ≡ status) × (wanted.now ≡ out.now)) }
{
    if wanted_status != status {
        return Err(Difference::Status {
            wanted: wanted_status,
            found: status,
        });
    }
    match compare_bytes(wanted, out) {
        Ok(()) => Ok(()),
        Err(line) => Err(Difference::Output(line)),
    }
}
