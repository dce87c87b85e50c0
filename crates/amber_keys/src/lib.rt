//! Keys: what a join and a group look rows up by, and the table that they look them up in.
//!
//! A `Key` is the list of the cells that a row has in some columns. Two keys are equal exactly where their cells
//! are, so rows that belong together are found by one look-up. A `KeyTable` has keys in the order in which they were
//! added, each with a value, and is seen as that list; inside it is an `indexmap`, which no contract names. A step on it
//! can be prepared or taken back without memory: room that was reserved stays, and the last key can be taken off.
//!
//! The lemmas in `proofs/` say how such a table follows a list of rows that grows: `FirstKeys` the keys, each where it
//! stands first, and `Tables` what stands beside each key.
//!
//! # Example
//!
//! The key of a row is its cells in the columns 3 and 2:
//!
//! ```rust
//! let columns = Cols::new(Vec::from_slice(alloc, &[3, 2])?);
//! let mut table: KeyTable<u64> = KeyTable::new(alloc);
//! table.add(Key::of(alloc, &first, &columns)?, 12)?;
//! let place = table.place_of(&Key::of(alloc, &second, &columns)?);
//! ```
//!
//! Where `first` is the row 7 `nut` -2 and `second` is 5 `nut` -2, both have the key -2 `nut`: `place` is `Some(0)`,
//! and `table.entry(0)` is that key with 12. Where `second` is 7 `bolt` -2, `place` is `None`.
#![tactic(auto)]

mod key;
mod table;

pub use key::Key;
pub use std::alloc::AllocError as NoMemory;
pub use table::KeyTable;
