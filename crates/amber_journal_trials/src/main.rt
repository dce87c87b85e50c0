//! `amber_journal_trials`: reads back logs that were cut at each byte, or of which one byte was changed.
//!
//! Whatever is read must be the log whose text the whole items are: written again, it gives these bytes. Most
//! logs are made of random lines by a generator with a fixed seed; some are written, and have every line of a
//! log. The last lines print what the worked example of `docs/FORMATS.md` is read as, cut after its line 11
//! and inside its line 12, and with a leading zero.
#![tactic(auto)]

mod dice;
mod example;
mod making;
mod trial;

use dice::Dice;
use example::{WRITTEN, tell_example};
use making::make_text;
use std::io;
use trial::{Counts, try_text};

// How many logs are made.
const LOGS: u32 = 60;

fn main(rt: HostRuntime) -> io::Result<()> {
    let mut dice = Dice::new(17);
    let mut counts = Counts::new();
    for _ in 0..LOGS {
        let text = make_text(rt.alloc(), &mut dice)?;
        try_text(rt.alloc(), text.as_slice(), &mut counts)?;
    }
    for text in WRITTEN.iter() {
        try_text(rt.alloc(), text, &mut counts)?;
    }
    let Counts {
        read,
        refused,
        wrong,
    } = counts;
    println!(rt;
        "{LOGS} made logs and {} written ones, {wrong} WRONG",
        WRITTEN.len()
    )?;
    println!(rt; "changes are read: {}, refused: {}", read > 0, refused > 0)?;
    tell_example(&rt)
}
