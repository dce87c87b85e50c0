//! The reader of case files. Rests on `escapes`, `numbers` and `open`; gives `Case`.

use crate::case::{After, Case, Left, NamedText, find_text};
use crate::case_text::{CaseText, Piece};
use crate::escapes::{unescaped, words};
use crate::fault::{Broken, Why, push};
use crate::fronts::set_fronts;
use crate::names::add_name;
use crate::numbers::{add_numbers, number_and_rest};
use crate::open::{braced, is_open, line_or_none, sum, whole_line};
use std::alloc::Global;
use std::collections::BTreeSet;
use std::mem;

// Where the lines of a text belong.
#[derive(Clone, Copy)]
enum Place {
    // No text has begun.
    Nowhere,
    Shared,
    File,
    Out,
    After,
}

/// Reads files of cases, one after another. What is shared, and the names of all cases, are kept from
/// file to file.
pub struct Reader {
    alloc: Global,
    shared: Vec<NamedText>,
    // The names of all cases that were read so far.
    names: BTreeSet<String>,
    // The cases of the file that is being read.
    cases: Vec<Case>,
    place: Place,
}

impl Drop for Reader {
    fn drop(self) {
        let Reader {
            alloc: _,
            shared: _,
            names: _,
            cases: _,
            place: _,
        } = self;
    }
}

impl Reader {
    /// A reader that has read nothing.
    pub fn new(alloc: Global) -> Reader {
        Reader {
            alloc,
            shared: Vec::new(alloc),
            names: BTreeSet::new(alloc),
            cases: Vec::new(alloc),
            place: Place::Nowhere,
        }
    }

    /// The cases of a file. After a line that is refused none of them is given.
    pub fn read(&mut self, text: &str) -> Result<Vec<Case>, Broken> {
        self.cases.clear();
        self.place = Place::Nowhere;
        let mut line = 0u64;
        for written in text.lines() {
            line = line.saturating_add(1);
            if let Err(why) = self.read_line(written.trim_start()) {
                return Err(Broken { line, why });
            }
        }
        if self.lacks_words() {
            let why = Why::NoWords;
            return Err(Broken { line, why });
        }
        Ok(mem::replace(&mut self.cases, Vec::new(self.alloc)))
    }

    fn read_line(&mut self, line: &str) -> Result<(), Why> {
        let (head, rest) = line.split_once(' ').unwrap_or((line, ""));
        match head {
            "" | "#" => Ok(()),
            "text" => self.begin_shared(rest),
            "case" => self.begin_case(rest),
            "file" => self.begin_file(rest),
            "out" => self.begin_out(rest),
            "after" => self.begin_after(rest),
            "words" | "status" | "loads" | "writes" | "puts" | "keep" | "fronts" => {
                self.place = Place::Nowhere;
                match self.cases.last_mut() {
                    Some(case) => read_values(case, self.alloc, head, rest),
                    None => Err(Why::NoCase),
                }
            }
            "=" => self.add_shared(rest),
            "~" => self.add_open_line(rest),
            _ => self.add_piece(read_piece(self.alloc, head, rest)?),
        }
    }

    // Whether the last case has no words.
    fn lacks_words(&self) -> bool {
        match self.cases.last() {
            Some(case) => case.words.is_empty(),
            None => false,
        }
    }

    // The name of what begins after the last case, which has to have words.
    fn next_name<'a>(&self, written: &'a str) -> Result<&'a str, Why> {
        if self.lacks_words() {
            return Err(Why::NoWords);
        }
        named(written)
    }

    fn begin_case(&mut self, rest: &str) -> Result<(), Why> {
        let name = self.next_name(rest)?;
        add_name(&mut self.names, String::from_str(self.alloc, name)?)?;
        let name = String::from_str(self.alloc, name)?;
        self.place = Place::Nowhere;
        push(&mut self.cases, Case::new(self.alloc, name))
    }

    fn begin_shared(&mut self, rest: &str) -> Result<(), Why> {
        let name = self.next_name(rest)?;
        self.place = Place::Shared;
        add_text(self.alloc, &mut self.shared, name)
    }

    fn begin_file(&mut self, rest: &str) -> Result<(), Why> {
        let (name, shared) = name_and_shared(rest);
        let name = named(name)?;
        let Some(case) = self.cases.last_mut() else {
            return Err(Why::NoCase);
        };
        add_text(self.alloc, &mut case.files, name)?;
        self.begin_text(Place::File, shared)
    }

    fn begin_out(&mut self, rest: &str) -> Result<(), Why> {
        let shared = rest.strip_prefix("= ");
        if shared.is_none() && !rest.trim().is_empty() {
            return Err(Why::Word);
        }
        let Some(case) = self.cases.last_mut() else {
            return Err(Why::NoCase);
        };
        push(&mut case.out, CaseText::new(self.alloc))?;
        self.begin_text(Place::Out, shared)
    }

    fn begin_after(&mut self, rest: &str) -> Result<(), Why> {
        let (written, shared) = name_and_shared(rest);
        let name = named(without_left(written))?;
        let left = left_of(self.alloc, written);
        match self.cases.last_mut() {
            Some(case) => add_after(self.alloc, case, name, left)?,
            None => return Err(Why::NoCase),
        }
        self.begin_text(Place::After, shared)
    }

    // A text begins, with the shared text that its first line names, where it names one.
    fn begin_text(&mut self, place: Place, shared: Option<&str>) -> Result<(), Why> {
        self.place = place;
        match shared {
            Some(name) => self.add_shared(name),
            None => Ok(()),
        }
    }

    // Adds a shared text to the text that has begun.
    fn add_shared(&mut self, name: &str) -> Result<(), Why> {
        let Some(text) = find_text(self.shared.as_slice(), name.trim()) else {
            return Err(Why::Unknown);
        };
        for piece in text.clone()?.into_pieces() {
            self.add_piece(piece)?;
        }
        Ok(())
    }

    // Adds a line with pieces in braces.
    fn add_open_line(&mut self, line: &str) -> Result<(), Why> {
        let Some((parts, behind)) = line.rsplit_once('}') else {
            return Err(Why::Number);
        };
        for part in parts.split('}') {
            self.add_open_part(part)?;
        }
        let behind = whole_line(self.alloc, behind)?;
        self.add_piece(Piece::Bytes(behind))
    }

    // Adds a piece in braces, of which the second is left out, and what stands before it.
    fn add_open_part(&mut self, part: &str) -> Result<(), Why> {
        let Some((before, written)) = part.split_once('{') else {
            return Err(Why::Number);
        };
        let before = Vec::from_slice(self.alloc, before.as_bytes())?;
        self.add_piece(Piece::Bytes(before))?;
        self.add_piece(braced(self.alloc, written)?)
    }

    // Adds a piece to the text that has begun.
    fn add_piece(&mut self, piece: Piece) -> Result<(), Why> {
        if matches!(self.place, Place::File) && is_open(&piece) {
            return Err(Why::NotExpected);
        }
        match self.open_text() {
            Some(text) => push(&mut text.pieces, piece),
            None => Err(Why::NoText),
        }
    }

    // The text that has begun.
    fn open_text(&mut self) -> Option<&mut CaseText> {
        if let Place::Shared = self.place {
            return last_text(&mut self.shared);
        }
        match self.cases.last_mut() {
            Some(case) => open_text_of(case, self.place),
            None => None,
        }
    }
}

// The text of a case that has begun there.
fn open_text_of(case: &mut Case, place: Place) -> Option<&mut CaseText> {
    match place {
        Place::File => last_text(&mut case.files),
        Place::Out => case.out.last_mut(),
        Place::After => last_left(&mut case.after),
        Place::Shared | Place::Nowhere => None,
    }
}

// The last text.
fn last_text(texts: &mut Vec<NamedText>) -> Option<&mut CaseText> {
    match texts.last_mut() {
        Some(last) => Some(&mut last.text),
        None => None,
    }
}

// The text that is expected of the last file, where one is.
fn last_left(after: &mut Vec<After>) -> Option<&mut CaseText> {
    match after.last_mut() {
        Some(
            After {
                left: Left::Text(text),
                ..
            },
        ) => Some(text),
        _ => None,
    }
}

// Adds what is expected of a file of which nothing was said so far.
fn add_after(alloc: Global, case: &mut Case, name: &str, left: Left) -> Result<(), Why> {
    if case.left(name).is_some() {
        return Err(Why::Repeated);
    }
    let name = String::from_str(alloc, name)?;
    push(&mut case.after, After { name, left })
}

// Adds a text without a piece, under a name that no earlier one has.
fn add_text(alloc: Global, texts: &mut Vec<NamedText>, name: &str) -> Result<(), Why> {
    if find_text(texts.as_slice(), name).is_some() {
        return Err(Why::Repeated);
    }
    let name = String::from_str(alloc, name)?;
    let text = CaseText::new(alloc);
    push(texts, NamedText { name, text })
}

// A name, which is not empty.
fn named(written: &str) -> Result<&str, Why> {
    let name = written.trim();
    if name.is_empty() {
        return Err(Why::NoName);
    }
    Ok(name)
}

// A name, and that of a shared text after ` = `.
fn name_and_shared(written: &str) -> (&str, Option<&str>) {
    match written.split_once(" = ") {
        Some((name, shared)) => (name, Some(shared)),
        None => (written, None),
    }
}

// A name, without what is said after it of its file.
fn without_left(written: &str) -> &str {
    let written = written.trim_end();
    match written.strip_suffix(" absent") {
        Some(name) => name,
        None => written.strip_suffix(" unchanged").unwrap_or(written),
    }
}

// What is said after a name of its file.
fn left_of(alloc: Global, written: &str) -> Left {
    let written = written.trim_end();
    if written.ends_with(" absent") {
        Left::Absent
    } else if written.ends_with(" unchanged") {
        Left::Unchanged
    } else {
        Left::Text(CaseText::new(alloc))
    }
}

// A line of a case that is no text.
fn read_values(case: &mut Case, alloc: Global, head: &str, rest: &str) -> Result<(), Why> {
    match head {
        "words" => push(&mut case.words, words(alloc, rest)?),
        "status" => match rest.trim().parse::<u8>() {
            Ok(status) => {
                case.status = status;
                Ok(())
            }
            Err(_) => Err(Why::Number),
        },
        "fronts" => set_fronts(case, String::from_str(alloc, named(rest)?)?),
        _ => read_failures(case, head, rest),
    }
}

// A line of a case that says which calls fail, or how many bytes they keep.
fn read_failures(case: &mut Case, head: &str, rest: &str) -> Result<(), Why> {
    if case.fronts.is_some() {
        return Err(Why::Fronts);
    }
    match head {
        "loads" => add_numbers(&mut case.loads, rest),
        "writes" => add_numbers(&mut case.writes, rest),
        "puts" => add_numbers(&mut case.puts, rest),
        "keep" => add_numbers(&mut case.keep, rest),
        _ => Err(Why::Word),
    }
}

// A line of a text.
fn read_piece(alloc: Global, head: &str, rest: &str) -> Result<Piece, Why> {
    match head {
        "|" => Ok(Piece::Bytes(whole_line(alloc, rest)?)),
        "\\" => Ok(Piece::Bytes(unescaped(alloc, rest)?)),
        "?" => line_or_none(alloc, rest),
        "sum" => sum(rest),
        "front" => Ok(Piece::Front),
        "*" => {
            let (times, written) = number_and_rest(rest, " ")?;
            let bytes = unescaped(alloc, written)?;
            Ok(Piece::Repeated { times, bytes })
        }
        "to" => {
            let (length, written) = number_and_rest(rest, " ")?;
            let bytes = unescaped(alloc, written)?;
            Ok(Piece::Filled { length, bytes })
        }
        _ => Err(Why::Word),
    }
}
