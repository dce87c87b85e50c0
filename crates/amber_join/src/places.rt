//! Where the build rows with a key are. Over `KeyTable` of `amber_keys`.

ghost use Rattle.std.specs.Prelude.{◌≡◌, ◌^◌, ◌<◌, ◌-◌, ◌++◌, ◌∷◌, [], ℕ, List, IfNone, OnErr, OnOk, length, min, option_to_list};
ghost use Rattle.amber_rows.specs.Operators.{pick_cells};
ghost use Rattle.amber_rows.specs.declared.value.Value.{Value as Cell};
ghost use Rattle.amber_join.specs.Places.{table_of};

use amber_keys::{Key, KeyTable};
use std::alloc::{AllocError, Global};
use std::marker::Model;

/// Places of build rows in the order in which they came, seen as a list. There is one at least. Most keys
/// have one row, so the first place stands beside the key and not elsewhere in memory.
pub struct Places {
    first: usize,
    more: Vec<usize>,
}

impl Drop for Places {
    fn drop(self) {
        let Places { first: _, more: _ } = self;
    }
}

impl Model for Places {
    ghost use Rattle.std.specs.Prelude.{◌∷◌, List, ℕ};

    ghost Value = { List ℕ };

    ghost view = { λ a. a.first ∷ a.more.items };
}

impl Places {
    /// Appends a place.
    fn add(&mut self, place: usize) -> Result<(), AllocError>
        ensures ok { OnOk result (self.new ≡ self.old ++ place ∷ []) }
        ensures same { OnErr result (self.new ≡ self.old) }
    {
        self.more.push(place)?;
        Ok(())
    }

    // Takes the last place away, unless it is the only one.
    fn drop_last(&mut self) -> Option<usize>
        ensures last { self.old ≡ self.new ++ option_to_list result }
        ensures only { IfNone result (length self.new ≡ 1) }
        ensures some { 0 < length self.new }
    {
        self.more.pop()
    }

    /// How many places there are.
    pub fn len(&self) -> usize
        ensures { result ≡ min (length self.now) (2 ^ 64 - 1) }
    {
        self.more.len().saturating_add(1)
    }

    /// The first place, and the others.
    pub fn get(&self) -> (usize, &[usize])
        ensures { self.now ≡ result.0 ∷ result.1.now }
    {
        (self.first, self.more.as_slice())
    }
}

impl Clone for Places {
    ghost is_clone = { λ places copy. copy ≡ places };

    fn clone(&self) -> Result<Self, AllocError> {
        Ok(Places {
            first: self.first,
            more: self.more.clone()?,
        })
    }
}

/// Notes in a table where the row that comes next stands, which has this key. So a table of some rows becomes
/// that of these rows and the next one.
pub fn note(
    alloc: Global,
    table: &mut KeyTable<Places>,
    key: Key,
    place: usize,
) -> Result<(), AllocError>
    ensures ok { OnOk result ((keys : List ℕ) (rows : List (List Cell)) (row : List Cell)
        → table.old.entries ≡ table_of keys rows → key ≡ pick_cells keys row → place ≡ length rows
        → table.new.entries ≡ table_of keys (rows ++ row ∷ [])) }
    ensures same { OnErr result (table.new.entries ≡ table.old.entries) }
{
    match table.place_of(&key) {
        Some(at) => table.value_mut(at).add(place),
        None => {
            let places = Places {
                first: place,
                more: Vec::new(alloc),
            };
            table.add(key, places)
        }
    }
}

/// Forgets where the row that came last stands, which has this key. So a table of some rows becomes
/// that of these rows without the last one. It takes no memory.
pub fn forget(table: &mut KeyTable<Places>, key: &Key)
    ensures { (keys : List ℕ) (rows : List (List Cell)) (row : List Cell)
        → table.old.entries ≡ table_of keys (rows ++ row ∷ []) → key.now ≡ pick_cells keys row
        → table.new.entries ≡ table_of keys rows }
{
    let Some(at) = table.place_of(key) else {
        return;
    };
    if table.value_mut(at).drop_last().is_none() {
        table.take_last();
    }
}
