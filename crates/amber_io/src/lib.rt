//! The outside of the engine as traits: a folder of named files, a sink of bytes, and both as one; and a
//! source of bytes.
//!
//! `MemFolder`, `MemSink` and `MemSource` keep all in memory and fail where they are told to. `RealFolder`,
//! `RealSink` and `RealSource` stand on the runtime's files, its standard output and its standard input.
//!
//! # Example
//!
//! The folder has the file `o.csv` with the bytes `id,qty`, and `fails.loads` is the list of the one number 2:
//!
//! ```rust
//! let mut folder = MemFolder::new(alloc, NamedFiles::new(files), fails);
//! let first = folder.load(alloc, "o.csv", 2);
//! let second = folder.load(alloc, "o.csv", 9);
//! let third = folder.load(alloc, "o.csv", 9);
//! folder.create("log")?;
//! folder.append("log", b"head")?;
//! ```
//!
//! Then `first` is `Ok` of `id`, the first two bytes; `second` is `Err(IoErr::Failed)`, since it is the second load;
//! `third` is `Ok` of `id,qty`; and `folder.read("log")` is `head`. Over `RealFolder` the same calls go to the system's
//! files.
#![tactic(auto)]

pub use error::IoErr;
pub use fails::{Fails, Numbers};
pub use folder::Folder;
pub use mem_folder::MemFolder;
pub use mem_sink::MemSink;
pub use mem_source::MemSource;
pub use named_files::NamedFiles;
pub use outside::{FolderAndSink, Outside};
pub use real::{RealFolder, RealSink};
pub use real_source::RealSource;
pub use sink::Sink;
pub use source::Source;
pub use std::alloc::AllocError as NoMemory;

mod error;
mod fails;
mod folder;
mod mem_folder;
mod mem_sink;
mod mem_source;
mod named_files;
mod outside;
mod real;
mod real_source;
mod sink;
mod source;
