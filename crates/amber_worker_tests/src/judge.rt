//! A judge of a drive: what the table of a worker's moves says that it does, from what each of its rows yields alone. It
//! shares no code with a worker.

use amber_mail::Control;
use std::alloc::{AllocError, Global};

/// What a worker comes to, one after the other: the only batch of this sender, or a row of it, of which so many rows come.
#[derive(Clone, Copy)]
pub enum Item {
    Batch(u32),
    Row(u64),
}

/// What a worker is to do: its items, which of the rows that come of them meet the condition, by their numbers from 0, and how
/// many units are allotted to it, where a count is armed.
#[derive(Clone, Copy)]
pub struct Work<'a> {
    pub items: &'a [Item],
    pub holds: &'a [u64],
    pub allotted: Option<u64>,
}

// What was done so far: items, rows made, and rows emitted; the units in hand, why it stands still, and the entries, behind
// which come the rows of `go`.
#[derive(Drop)]
struct Judging<'a> {
    alloc: Global,
    work: Work<'a>,
    place: usize,
    made: u64,
    gone: u64,
    hand: u64,
    stands: Option<&'static str>,
    go: (u64, u64),
    entries: String,
}

impl<'a> Judging<'a> {
    // Writes down the rows since the last entry, and this.
    fn write(&mut self, entry: &str) -> Result<(), AllocError> {
        let (rows, outs) = self.go;
        self.go = (0, 0);
        if rows != 0 || outs != 0 {
            let text = format!(in self.alloc; "g {rows} {outs} ")?;
            self.entries.push_str(text.as_str())?;
        }
        self.entries.push_str(entry)
    }

    // Does what it is told that has not finished, or may have a unit in hand.
    fn act(&mut self, told: Option<Control>) -> Result<(), AllocError> {
        let (free, units) = (self.stands.is_none(), self.work.allotted.unwrap_or(0));
        match told {
            Some(Control::Pause) if free => {
                self.stands = Some("paused");
                self.write("p 0 0 ")
            }
            Some(Control::Claim) if free && units > 0 => {
                self.work.allotted = Some(0);
                self.hand = self.hand.saturating_add(units);
                let entry = format!(in self.alloc; "a {units} 0 ")?;
                self.write(entry.as_str())
            }
            Some(Control::Return) if self.hand > 0 => {
                let entry = format!(in self.alloc; "b {} 0 ", self.hand)?;
                self.hand = 0;
                self.write(entry.as_str())
            }
            _ => Ok(()),
        }
    }

    // Makes the turn that comes. What it comes to.
    fn turn(&mut self) -> Result<&'static str, AllocError> {
        if let Some(word) = self.stands {
            return Ok(word);
        }
        let item = self.work.items.get(self.place).copied();
        let pending = self.gone < self.made;
        let starved = self.work.allotted.is_some() && self.hand == 0;
        if starved && (pending || matches!(item, Some(Item::Row(_)))) {
            return Ok("starved");
        }
        if pending {
            return self.emit();
        }
        self.place = self.place.saturating_add(1);
        match item {
            Some(Item::Row(yields)) => {
                self.made = self.made.saturating_add(yields);
                self.go.0 = self.go.0.saturating_add(1);
            }
            Some(Item::Batch(from)) => {
                let entry = format!(in self.alloc; "t {from} 0 ")?;
                self.write(entry.as_str())?;
            }
            None => {
                self.stands = Some("ended");
                self.write("f 0 0 ")?;
            }
        }
        Ok("moved")
    }

    // Emits the pending row, where it does not hold it.
    fn emit(&mut self) -> Result<&'static str, AllocError> {
        if self.work.holds.contains(&self.gone) {
            self.stands = Some("held");
            self.write("h 0 0 ")?;
            return Ok("held");
        }
        self.gone = self.gone.saturating_add(1);
        self.hand = self.hand.saturating_sub(1);
        self.go.1 = self.go.1.saturating_add(1);
        Ok("moved")
    }
}

/// How many turns come, one for each answer of a look, what the last comes to, and the entries: how a text of `told` begins.
pub fn judged(
    alloc: Global,
    work: Work,
    answers: &[Option<Control>],
) -> Result<String, AllocError> {
    let mut state = Judging {
        alloc,
        work,
        place: 0,
        made: 0,
        gone: 0,
        hand: 0,
        stands: None,
        go: (0, 0),
        entries: String::new(alloc),
    };
    let (mut turns, mut last) = (0u64, "none");
    for told in answers {
        state.act(*told)?;
        last = state.turn()?;
        turns = turns.saturating_add(1);
        if state.stands == Some(last) {
            break;
        }
    }
    state.write("")?;
    format!(in alloc; "{turns} {last} | {}|", state.entries)
}
