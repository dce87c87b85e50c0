//! The folder in memory. Over `NamedFiles`; it fails as `Fails` says.

ghost use Rattle.std.specs.Prelude.{◌≡◌, ℕ, ◌≤◌, Option, Some, IsErr, IfOk, take, vec_len, option_map};
ghost use Rattle.std.specs.FinMap as finmap;
ghost use Rattle.amber_io.specs.Counts.{HasCause, next_number};
ghost use Rattle.amber_io.specs.Folder.{Named, Lacks, Gives, Creates, Extends, IsThere, files_of, with_more};
ghost use Rattle.amber_io.specs.Memory.{FailsTo, IsPlanned, left_empty, is_listed};
ghost use Rattle.amber_io.specs.MemFolder.{IsWrite, held_files, folder_plan, loads_made, writes_made, failed_loads, failed_writes};
ghost use Rattle.amber_io.specs.Real.{IsCounted};

use crate::error::IoErr;
use crate::fails::{Fails, first_bytes};
use crate::folder::Folder;
use crate::named_files::NamedFiles;
use std::alloc::Global;

/// A folder in memory, whose files are known and which fails where its plan says so.
pub struct MemFolder {
    files: NamedFiles,
    fails: Fails,
    loads_made: u64,
    writes_made: u64,
    load_faults: u64,
    write_faults: u64,
    // The folder grows on it.
    alloc: Global,
}

impl Drop for MemFolder {
    fn drop(self) {
        let MemFolder {
            files: _,
            fails: _,
            loads_made: _,
            writes_made: _,
            load_faults: _,
            write_faults: _,
            alloc: _,
        } = self;
    }
}

impl MemFolder {
    /// A folder of these files, whose loads and writes fail as `fails` says.
    pub fn new(alloc: Global, files: NamedFiles, fails: Fails) -> MemFolder
        ensures files { held_files result ≡ files_of files }
        ensures plan { folder_plan result ≡ fails }
        ensures loads_made { loads_made result ≡ 0 }
        ensures writes_made { writes_made result ≡ 0 }
        ensures load_faults { failed_loads result ≡ 0 }
        ensures write_faults { failed_writes result ≡ 0 }
    {
        MemFolder {
            files,
            fails,
            loads_made: 0,
            writes_made: 0,
            load_faults: 0,
            write_faults: 0,
            alloc,
        }
    }

    // A create that fails.
    #[tactic(auto, using(crate::proofs::Told::empty_told))]
    fn fail_create(&mut self, name: &str) -> Result<(), IoErr>
        ensures fails { IsErr result }
        ensures cause { HasCause result ⊥ (failed_writes self.old) (failed_writes self.new) }
        ensures counted { IsCounted result (failed_writes self.old) (failed_writes self.new) }
        ensures kept { FailsTo result (Some (held_files self.new))
            (left_empty (Some (held_files self.old)) name.now (folder_plan self.old).keep) }
        ensures memory { result ≡ Err IoErr.NoMemory → held_files self.new ≡ held_files self.old }
        ensures loads { failed_loads self.new ≡ failed_loads self.old }
        ensures plan { folder_plan self.new ≡ folder_plan self.old }
        ensures loads_made { loads_made self.new ≡ loads_made self.old }
        ensures made { writes_made self.new ≡ writes_made self.old }
    {
        if self.fails.keep == 0 {
            self.write_faults = self.write_faults.saturating_add(1);
            return Err(IoErr::Failed);
        }
        match self.files.make_empty(self.alloc, name) {
            Ok(()) => {
                self.write_faults = self.write_faults.saturating_add(1);
                Err(IoErr::Failed)
            }
            Err(_) => Err(IoErr::NoMemory),
        }
    }

    /// What the file of this name holds, and `None` exactly where there is none.
    pub fn read(&self, name: &str) -> Option<&[u8]>
        ensures { option_map (λ bytes. bytes.now) result
            ≡ finmap.get (held_files self.now) name.now }
    {
        self.files.find(name)
    }
}

impl Folder for MemFolder {
    ghost files = { λ folder. Some (held_files folder) };

    ghost load_faults = { failed_loads };

    ghost write_faults = { failed_writes };

    /// As the trait says; the load fails where its number is listed and the file is there.
    fn load(&mut self, alloc: Global, name: &str, most: u64) -> Result<Vec<u8>, IoErr>
        ensures same { Some (held_files self.new) ≡ Some (held_files self.old) }
        ensures gives { IfOk result
            (λ bytes. Gives (Some (held_files self.old)) name.now most bytes.items) }
        ensures short { IfOk result (λ bytes. vec_len bytes ≤ most) }
        ensures cause { HasCause result (Lacks (Some (held_files self.old)) name.now)
            (failed_loads self.old) (failed_loads self.new) }
        ensures absent { Lacks (Some (held_files self.old)) name.now
            → IsErr result × (failed_loads self.new ≡ failed_loads self.old) }
        ensures writes { failed_writes self.new ≡ failed_writes self.old }
        ensures plan { folder_plan self.new ≡ folder_plan self.old }
        ensures made { loads_made self.new ≡ next_number (loads_made self.old) }
        ensures planned { IsPlanned result (Lacks (Some (held_files self.old)) name.now)
            (record {
              listed = is_listed (folder_plan self.old).loads (loads_made self.new);
              before = failed_loads self.old;
              now = failed_loads self.new;
            }) }
    {
        self.loads_made = self.loads_made.saturating_add(1);
        let Some(bytes) = self.files.find(name) else {
            return Err(IoErr::Failed);
        };
        if self.fails.loads.contains(self.loads_made) {
            self.load_faults = self.load_faults.saturating_add(1);
            return Err(IoErr::Failed);
        }
        match Vec::from_slice(alloc, first_bytes(bytes, most)) {
            Ok(loaded) => Ok(loaded),
            Err(_) => Err(IoErr::NoMemory),
        }
    }

    /// As the trait says; the create fails where its number is listed. The file is then as before where the
    /// plan keeps no byte, and else empty.
    #[tactic(auto, using(crate::proofs::Told::empty_told))]
    fn create(&mut self, name: &str) -> Result<(), IoErr>
        ensures creates { Creates result (Some (held_files self.old)) (Some (held_files self.new))
            name.now }
        ensures cause { HasCause result ⊥ (failed_writes self.old) (failed_writes self.new) }
        ensures loads { failed_loads self.new ≡ failed_loads self.old }
        ensures write { IsWrite result self.old self.new }
        ensures kept { FailsTo result (Some (held_files self.new))
            (left_empty (Some (held_files self.old)) name.now (folder_plan self.old).keep) }
    {
        self.writes_made = self.writes_made.saturating_add(1);
        if self.fails.writes.contains(self.writes_made) {
            return self.fail_create(name);
        }
        match self.files.make_empty(self.alloc, name) {
            Ok(()) => Ok(()),
            Err(_) => Err(IoErr::NoMemory),
        }
    }

    /// As the trait says; the append fails where its number is listed, and has then appended the first `keep`
    /// bytes of its piece, or all of a shorter one.
    #[tactic(auto, using(crate::proofs::Told::more_told))]
    fn append(&mut self, name: &str, bytes: &[u8]) -> Result<(), IoErr>
        requires { IsThere (Some (held_files self.old)) name.now }
        ensures extends { Extends result (Some (held_files self.old)) (Some (held_files self.new))
            (record { name = name.now; bytes = bytes.now }) }
        ensures cause { HasCause result ⊥ (failed_writes self.old) (failed_writes self.new) }
        ensures loads { failed_loads self.new ≡ failed_loads self.old }
        ensures write { IsWrite result self.old self.new }
        ensures counted { IsCounted result (failed_writes self.old) (failed_writes self.new) }
        ensures kept { FailsTo result (Some (held_files self.new))
            (with_more (Some (held_files self.old)) name.now
            (take (folder_plan self.old).keep bytes.now)) }
    {
        self.writes_made = self.writes_made.saturating_add(1);
        let part = first_bytes(bytes, self.fails.keep);
        if !self.fails.writes.contains(self.writes_made) {
            return match self.files.grow(name, bytes) {
                Ok(()) => Ok(()),
                Err(_) => Err(IoErr::NoMemory),
            };
        }
        if self.files.grow(name, part).is_err() {
            return Err(IoErr::NoMemory);
        }
        self.write_faults = self.write_faults.saturating_add(1);
        Err(IoErr::Failed)
    }
}
