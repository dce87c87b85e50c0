//! The worked example of `docs/FORMATS.md`, and texts that have every line of a log.

use amber_journal::{LogErr, read_log};
use std::io;

const EXAMPLE: &[u8] =
    b"amber 1 400\ndo count 2 3\nrun\nw 0\ng 5 5\nf\nw 1\nt 0 0\na 3\ng 3 3\np\ncut\n\
    do inspect 2\nend\nw 1\ng 2 2\nf\nw 2\nt 1 0\ng 5 0\nf\ncut\n";

// Each command but those to run, each kind of condition, and each entry.
const LINES: &[u8] = b"amber 1 400
do pause 1 1099511627776
do count 2 3
do clear 10
do inspect 2
do drop 2 0
do lose 4294967295 15
do set 2 i-7
do set 2 i-9223372036854775808
do when 1 12 = t636f67
do when 1 12 != t626967206e7574
do when 1 12 < t
do when 1 12 <= tc3a4
do when 1 12 > t0a
do when 1 12 >= t7a
run
w 7
t 0 18446744073709551615
a 3
g 3 2
b 1
p
r
g 0 1
h
long
";

/// Texts of logs that are tried beside those that are made.
pub const WRITTEN: [&[u8]; 4] = [EXAMPLE, LINES, b"amber 1 1\nend\ncut\n", b"amber 1 65536\n"];

const ZERO: &[u8] =
    b"amber 1 400\ndo count 2 3\nrun\nw 0\ng 5 5\nf\nw 1\nt 0 0\na 3\ng 03 3\np\ncut\n";

// Prints how many items are read, or the first bad line.
fn tell<R: Print + AllocGlobal>(rt: &R, what: &str, bytes: &[u8]) -> io::Result<()> {
    match read_log(rt.alloc(), bytes) {
        Ok(log) => println!(rt; "{what}: {} items", log.items.get().len()),
        Err(LogErr::Text { line }) => println!(rt; "{what}: line {line}"),
        Err(LogErr::NoMemory) => println!(rt; "{what}: no memory"),
    }
}

/// Prints what the example is read as, whole, cut and changed.
pub fn tell_example<R: Print + AllocGlobal>(rt: &R) -> io::Result<()> {
    tell(rt, "whole", EXAMPLE)?;
    tell(rt, "cut behind line 11", &EXAMPLE[..63])?;
    tell(rt, "cut inside line 12", &EXAMPLE[..65])?;
    tell(rt, "with a leading zero", ZERO)
}
