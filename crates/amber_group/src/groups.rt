//! The groups: what is kept of the rows of each key. Over `KeyTable` of `amber_keys` and `Totals`.

ghost use Rattle.std.specs.Prelude.{◌≡◌, ◌^◌, ◌<◌, ◌++◌, ◌∷◌, [], ℕ, None, Some, IsSome, OnErr, OnOk, length};
ghost use Rattle.std.specs.Map.{lookup};
ghost use Rattle.amber_rows.specs.Operators.{same_row};
ghost use Rattle.amber_keys.specs.Tables.{replaced};
ghost use Rattle.amber_group.specs.Steps.{GroupsWithin};
ghost use Rattle.amber_group.specs.Taking.{TakesIn};

use crate::totals::Totals;
use amber_keys::{Key, KeyTable};
use amber_rows::{Aggs, Row, Value};
use std::alloc::{AllocError, Global};
use std::marker::Model;
use std::mem;

/// The groups in the order in which their keys came first, seen as each key beside what is kept for it.
pub struct Groups {
    pub(crate) table: KeyTable<Totals>,
}

impl Drop for Groups {
    fn drop(self) {
        let Groups { table: _ } = self;
    }
}

impl Model for Groups {
    ghost use Rattle.std.specs.Prelude.{List};
    ghost use Rattle.amber_rows.specs.declared.value.Value.{Value as Cell};
    ghost use Rattle.amber_group.specs.declared.running.Running.{Running as One};

    ghost Value = { List (List Cell × List One) };

    ghost view = { λ a. a.table.entries };
}

impl Clone for Groups {
    ghost is_clone = { λ groups copy. copy ≡ groups };

    fn clone(&self) -> Result<Self, AllocError> {
        Ok(Groups {
            table: self.table.clone()?,
        })
    }
}

impl Groups {
    // No group.
    pub(crate) fn new(alloc: Global) -> Self
        ensures { result ≡ [] }
    {
        Groups {
            table: KeyTable::new(alloc),
        }
    }

    // How many groups there are.
    pub(crate) fn len(&self) -> usize
        ensures { result ≡ length self.now }
    {
        self.table.len()
    }

    // Takes in a row with this key: the groups of some rows become those of these rows and this one. What is
    // in `changes` before does not matter; `room` gets the cells of a key that is known, in whose room
    // another can be made.
    pub(crate) fn take_in(
        &mut self,
        alloc: Global,
        key: Key,
        aggs: &Aggs,
        row: &Row,
        changes: &mut Vec<Option<Value>>,
        room: &mut Vec<Value>,
    ) -> Result<(), AllocError>
        requires { (fed : ℕ) × (fed < 2 ^ 40) × GroupsWithin fed self.old }
        ensures ok { OnOk result (TakesIn
            (record { entries = self.old; aggs = aggs.now; key = key; row = row.now })
            self.new) }
        ensures same { OnErr result (self.new ≡ self.old) }
    {
        match self.table.place_of(&key) {
            Some(place) => {
                self.table.value_mut(place).add(row, changes)?;
                *room = key.into_cells();
                Ok(())
            }
            None => {
                let totals = Totals::of_row(alloc, aggs.get(), row, changes)?;
                self.begin(key, totals)
            }
        }
    }

    // Keeps these totals for a key that has no group.
    pub(crate) fn begin(&mut self, key: Key, totals: Totals) -> Result<(), AllocError>
        requires { lookup (same_row key) self.old ≡ None }
        ensures groups { OnOk result (self.new ≡ self.old ++ (key, totals) ∷ []) }
        ensures same { OnErr result (self.new ≡ self.old) }
    {
        self.table.add(key, totals)
    }

    // Swaps what is kept for a key that has a group with other totals.
    pub(crate) fn swap(&mut self, key: &Key, totals: &mut Totals)
        requires { IsSome (lookup (same_row key.now) self.old) }
        ensures kept { self.new ≡ replaced key.now totals.old self.old }
        ensures given { lookup (same_row key.now) self.old ≡ Some totals.new }
        ensures back { replaced key.now totals.new self.old ≡ self.old }
    {
        let Some(place) = self.table.place_of(key) else {
            unreachable!()
        };
        mem::swap(self.table.value_mut(place), totals);
    }
}
