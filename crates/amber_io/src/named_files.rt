//! A list of files with their names.

ghost use Rattle.std.specs.Prelude.{◌≡◌, [], map, MatchOption, OnErr, OnOk, option_map};
ghost use Rattle.std.specs.FinMap as finmap;
ghost use Rattle.amber_io.specs.Folder.{grown, files_of};
ghost use Rattle.amber_io.specs.Memory.{IsPlace, entry_bytes, lacks_name};

use std::alloc::{AllocError, Global};
use std::marker::Model;

/// Files with their names, in a list. Of two with one name the first counts.
pub struct NamedFiles {
    inner: Vec<(String, Vec<u8>)>,
}

impl Drop for NamedFiles {
    fn drop(self) {
        let NamedFiles { inner: _ } = self;
    }
}

impl Model for NamedFiles {
    ghost use Rattle.std.specs.Prelude.{ℕ, List, map};
    ghost use Rattle.amber_io.specs.Memory.{entry_bytes};

    ghost Value = { List (List ℕ × List ℕ) };

    ghost view = { λ n. map entry_bytes n.inner.items };
}

impl NamedFiles {
    /// The list of these files, each a name and its bytes.
    pub fn new(inner: Vec<(String, Vec<u8>)>) -> NamedFiles
        ensures { result ≡ map entry_bytes inner.items }
    {
        NamedFiles { inner }
    }

    /// The files, in order.
    pub fn get(&self) -> &[(String, Vec<u8>)]
        ensures { map entry_bytes result.now ≡ self.now }
    {
        self.inner.as_slice()
    }

    // The place of the first file of this name.
    fn place(&self, name: &str) -> Option<usize>
        ensures { MatchOption result (lacks_name name.now self.now) (IsPlace name.now self.now) }
    {
        for (place, file) in self.inner.iter().enumerate() {
            if name == file.0.as_str() {
                return Some(place);
            }
        }
        None
    }

    /// The bytes of the first file of this name.
    pub fn find(&self, name: &str) -> Option<&[u8]>
        ensures { option_map (λ bytes. bytes.now) result ≡ finmap.get (files_of self.now) name.now }
    {
        match self.place(name) {
            Some(place) => Some(self.inner[place].1.as_slice()),
            None => None,
        }
    }

    // Makes the first file of this name empty, or appends an empty one.
    pub(crate) fn make_empty(&mut self, alloc: Global, name: &str) -> Result<(), AllocError>
        ensures ok { OnOk result (files_of self.new
            ≡ finmap.insert (files_of self.old) name.now []) }
        ensures err { OnErr result (self.new ≡ self.old) }
    {
        match self.place(name) {
            Some(place) => self.inner[place].1.clear(),
            None => {
                let name = String::from_str(alloc, name)?;
                self.inner.push((name, Vec::new(alloc)))?;
            }
        }
        Ok(())
    }

    // Appends bytes to the first file of this name, where there is one.
    pub(crate) fn grow(&mut self, name: &str, more: &[u8]) -> Result<(), AllocError>
        ensures ok { OnOk result (files_of self.new
            ≡ grown (files_of self.old) name.now
            (finmap.get (files_of self.old) name.now) more.now) }
        ensures err { OnErr result (self.new ≡ self.old) }
    {
        match self.place(name) {
            Some(place) => {
                self.inner[place].1.extend_from_slice(more)?;
                Ok(())
            }
            None => Ok(()),
        }
    }
}
