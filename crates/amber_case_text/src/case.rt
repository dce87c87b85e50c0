//! A case: what is given, what fails, and what is expected. Rests on `CaseText`.

ghost use Rattle.std.specs.Prelude.{◌≡◌, ◌↔◌, [], None, false};

use crate::case_text::CaseText;
use std::alloc::Global;

/// A text under a name.
pub struct NamedText {
    pub name: String,
    pub text: CaseText,
}

impl Drop for NamedText {
    fn drop(self) {
        let NamedText { name: _, text: _ } = self;
    }
}

/// What is expected of a file after a run.
pub enum Left {
    /// It has the bytes of this text.
    Text(CaseText),
    /// It is not there.
    Absent,
    /// It is as before.
    Unchanged,
}

impl Drop for Left {
    fn drop(self) {
        match self {
            Left::Text(_) => {}
            Left::Absent => {}
            Left::Unchanged => {}
        }
    }
}

/// A file after a run.
pub struct After {
    pub name: String,
    pub left: Left,
}

impl Drop for After {
    fn drop(self) {
        let After { name: _, left: _ } = self;
    }
}

/// A case: what is given, what fails, and what is expected.
pub struct Case {
    /// What the case shows.
    pub name: String,
    /// The words of each run.
    pub words: Vec<Vec<String>>,
    pub files: Vec<NamedText>,
    /// The numbers of the loads, the writes and the puts that fail.
    pub loads: Vec<u64>,
    pub writes: Vec<u64>,
    pub puts: Vec<u64>,
    /// How many bytes a failing call keeps. Each number is a run for each of the words.
    pub keep: Vec<u64>,
    /// The file of which each front is a run for each of the words, where no call fails.
    pub fronts: Option<String>,
    pub status: u8,
    /// The outputs that are right; where there is none, nothing is printed.
    pub out: Vec<CaseText>,
    pub after: Vec<After>,
}

impl Drop for Case {
    fn drop(self) {
        let Case {
            name: _,
            words: _,
            files: _,
            loads: _,
            writes: _,
            puts: _,
            keep: _,
            fronts: _,
            status: _,
            out: _,
            after: _,
        } = self;
    }
}

impl Case {
    /// A case of this name in which nothing is given.
    pub fn new(alloc: Global, name: String) -> Case
        ensures name { result.name ≡ name }
        ensures words { result.words.items ≡ [] }
        ensures files { result.files.items ≡ [] }
        ensures fronts { result.fronts ≡ None }
    {
        Case {
            name,
            words: Vec::new(alloc),
            files: Vec::new(alloc),
            loads: Vec::new(alloc),
            writes: Vec::new(alloc),
            puts: Vec::new(alloc),
            keep: Vec::new(alloc),
            fronts: None,
            status: 0,
            out: Vec::new(alloc),
            after: Vec::new(alloc),
        }
    }

    /// What is expected of the file of this name, where the case says it.
    pub fn left(&self, name: &str) -> Option<&Left> {
        for after in self.after.iter() {
            if after.name.as_str() == name {
                return Some(&after.left);
            }
        }
        None
    }

    /// Whether a call fails in the case.
    pub fn has_failing_calls(&self) -> bool
        ensures { result ≡ false ↔ ((self.now.loads.items ≡ []) × (self.now.writes.items ≡ [])
            × (self.now.puts.items ≡ [])) }
    {
        !(self.loads.is_empty() && self.writes.is_empty() && self.puts.is_empty())
    }

    /// The text of the file of this name, where the case gives one.
    pub fn file(&self, name: &str) -> Option<&CaseText> {
        find_text(self.files.as_slice(), name)
    }
}

/// The text of this name.
pub(crate) fn find_text<'a>(texts: &'a [NamedText], name: &str) -> Option<&'a CaseText> {
    for one in texts {
        if one.name.as_str() == name {
            return Some(&one.text);
        }
    }
    None
}
