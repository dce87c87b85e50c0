//! The last row that comes to groups: it is taken in and the rows of all groups are made, both or none of it.

ghost use Rattle.std.specs.Prelude.{◌≡◌, ◌^◌, ◌<◌, ◌++◌, ◌∷◌, [], ℕ, None, IsSome, OnErr, OnOk};
ghost use Rattle.std.specs.Map.{lookup};
ghost use Rattle.amber_rows.specs.Operators.{same_row};
ghost use Rattle.amber_keys.specs.Tables.{replaced};
ghost use Rattle.amber_group.specs.Finished.{finished_rows};
ghost use Rattle.amber_group.specs.Steps.{GroupsWithin};
ghost use Rattle.amber_group.specs.Taking.{TakesIn};

use crate::finish::add_group;
use crate::groups::Groups;
use crate::totals::Totals;
use amber_keys::Key;
use amber_rows::{Aggs, Row, Value};
use std::alloc::{AllocError, Global};
use std::collections::VecDeque;

impl Groups {
    // Takes in a row with this key, as `take_in` does, and appends the rows of all groups to `out`.
    pub(crate) fn take_last(
        &mut self,
        alloc: Global,
        key: Key,
        aggs: &Aggs,
        row: &Row,
        changes: &mut Vec<Option<Value>>,
        out: &mut VecDeque<Row>,
    ) -> Result<(), AllocError>
        requires { (fed : ℕ) × (fed < 2 ^ 40) × GroupsWithin fed self.old }
        ensures ok { OnOk result (TakesIn
            (record { entries = self.old; aggs = aggs.now; key = key; row = row.now })
            self.new) }
        ensures rows { OnOk result (out.new.items ≡ out.old.items ++ finished_rows self.new) }
        ensures groups_on_err { OnErr result (self.new ≡ self.old) }
        ensures rows_on_err { OnErr result (out.new.items ≡ out.old.items) }
    {
        match self.table.place_of(&key) {
            Some(place) => {
                let mut totals = self.table.entry(place).1.clone()?;
                totals.add(row, changes)?;
                self.change(alloc, &key, totals, out)
            }
            None => {
                let totals = Totals::of_row(alloc, aggs.get(), row, changes)?;
                self.begin_last(alloc, key, totals, out)
            }
        }
    }

    // Keeps these totals for a key that has a group, and appends the rows of all groups to `out`.
    fn change(
        &mut self,
        alloc: Global,
        key: &Key,
        mut totals: Totals,
        out: &mut VecDeque<Row>,
    ) -> Result<(), AllocError>
        requires { IsSome (lookup (same_row key.now) self.old) }
        ensures groups { OnOk result (self.new ≡ replaced key.now totals self.old) }
        ensures rows { OnOk result (out.new.items ≡ out.old.items ++ finished_rows self.new) }
        ensures groups_on_err { OnErr result (self.new ≡ self.old) }
        ensures rows_on_err { OnErr result (out.new.items ≡ out.old.items) }
    {
        self.swap(key, &mut totals);
        if let Err(error) = self.append_finished(alloc, out) {
            self.swap(key, &mut totals);
            return Err(error);
        }
        Ok(())
    }

    // Appends the rows of the groups to `out`.
    fn append_finished(&self, alloc: Global, out: &mut VecDeque<Row>) -> Result<(), AllocError>
        ensures ok { OnOk result (out.new.items ≡ out.old.items ++ finished_rows self.now) }
        ensures err { OnErr result (out.new.items ≡ out.old.items) }
    {
        let rows = self.finish(alloc)?.rows.into_inner();
        out.append(&mut VecDeque::from_vec(rows))
    }

    // Keeps these totals for a key that has no group, and appends the rows of all groups to `out`.
    fn begin_last(
        &mut self,
        alloc: Global,
        key: Key,
        totals: Totals,
        out: &mut VecDeque<Row>,
    ) -> Result<(), AllocError>
        requires { lookup (same_row key) self.old ≡ None }
        ensures groups { OnOk result (self.new ≡ self.old ++ (key, totals) ∷ []) }
        ensures rows { OnOk result (out.new.items ≡ out.old.items ++ finished_rows self.new) }
        ensures groups_on_err { OnErr result (self.new ≡ self.old) }
        ensures rows_on_err { OnErr result (out.new.items ≡ out.old.items) }
    {
        let mut rows = self.finish(alloc)?.rows.into_inner();
        let mut refused = Vec::new(alloc);
        add_group(alloc, key.row(), totals.get(), &mut rows, &mut refused)?;
        let mut rows = VecDeque::from_vec(rows);
        out.reserve(rows.len())?;
        self.begin(key, totals)?;
        let Ok(()) = out.append(&mut rows) else {
            unreachable!()
        };
        Ok(())
    }
}
