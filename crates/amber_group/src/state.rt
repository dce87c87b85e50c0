//! The state of a group, which takes in rows. Rests on `Groups`, and `Key` of `amber_keys`.

ghost use Rattle.std.specs.Prelude.{◌≡◌, ◌^◌, ◌<◌, ◌++◌, [], List, IfOk, OnErr, OnOk, length};
ghost use Rattle.amber_rows.specs.Operators.{first_keys, refused_keys};
ghost use Rattle.amber_rows.specs.declared.value.Value.{Value as Cell};
ghost use Rattle.amber_group.specs.Group.{AreRowsOf, FeedsRow, IsFedWith};
ghost use Rattle.amber_group.specs.Steps.{GroupsWithin};
ghost use Rattle.amber_group.specs.Undoing.{CanUndo, TakesBack, restored};

use crate::finish::Grouped;
use crate::groups::Groups;
use crate::undoing::Taken;
use amber_keys::Key;
use amber_rows::{Aggs, Cols, Row, Value};
use std::alloc::{AllocError, Global};
use std::collections::VecDeque;
use std::marker::Model;
use std::mem;

/// What a group keeps: the columns of its key, its aggregates, how many rows it was fed, and what it needs of
/// these. `IsFedWith` says which rows a state stands for.
pub struct GroupState {
    alloc: Global,
    keys: Cols,
    aggs: Aggs,
    fed: u64,
    groups: Groups,
    // Room that each feed uses anew.
    changes: Vec<Option<Value>>,
    // Cells of a key that is done with, in whose room `feed` makes the next one.
    room: Vec<Value>,
}

impl Drop for GroupState {
    fn drop(self) {
        let GroupState {
            alloc: _,
            keys: _,
            aggs: _,
            fed: _,
            groups: _,
            changes: _,
            room: _,
        } = self;
    }
}

impl Model for GroupState {
    ghost use Rattle.amber_group.specs.Group.{Group};
    ghost use Rattle.amber_group.specs.Steps.{GroupsWithin};

    ghost Value = { Group };

    ghost view = { λ a.
        record { keys = a.keys; aggs = a.aggs; fed = a.fed; groups = a.groups } };

    ghost invariant = { λ a. GroupsWithin a.fed a.groups };
}

impl GroupState {
    /// The state of a group by these columns with these aggregates, which was fed no row. Columns are
    /// numbered from 1.
    pub fn new(alloc: Global, keys: Cols, aggs: Aggs) -> Self
        ensures keys { result.keys ≡ keys }
        ensures aggs { result.aggs ≡ aggs }
        ensures rows { IsFedWith result [] }
    {
        GroupState {
            alloc,
            keys,
            aggs,
            fed: 0,
            groups: Groups::new(alloc),
            changes: Vec::new(alloc),
            room: Vec::new(alloc),
        }
    }

    /// Takes in a row. A column that it does not have adds nothing to an aggregate, nor does a text to a sum.
    pub fn feed(&mut self, row: &Row) -> Result<(), AllocError>
        requires { self.old.fed < 2 ^ 40 }
        ensures ok { OnOk result (FeedsRow row.now self.old self.new) }
        ensures same_on_err { OnErr result (self.new ≡ self.old) }
    {
        let room = mem::replace(&mut self.room, Vec::new(self.alloc));
        let key = Key::over(self.alloc, room, row, &self.keys)?;
        self.groups.take_in(
            self.alloc,
            key,
            &self.aggs,
            row,
            &mut self.changes,
            &mut self.room,
        )?;
        self.fed += 1;
        Ok(())
    }

    /// Takes in a row, as `feed` does, and appends the rows of all groups to `out`. If memory runs out all is
    /// as before.
    pub fn feed_last(&mut self, row: &Row, out: &mut VecDeque<Row>) -> Result<(), AllocError>
        requires { self.old.fed < 2 ^ 40 }
        ensures ok { OnOk result (FeedsRow row.now self.old self.new) }
        ensures groups { OnOk result ((made : List (List Cell))
            × (out.new.items ≡ out.old.items ++ made) × AreRowsOf self.new made) }
        ensures same_on_err { OnErr result (self.new ≡ self.old) }
        ensures out_on_err { OnErr result (out.new.items ≡ out.old.items) }
    {
        let key = Key::of(self.alloc, row, &self.keys)?;
        self.groups
            .take_last(self.alloc, key, &self.aggs, row, &mut self.changes, out)?;
        self.fed += 1;
        Ok(())
    }

    /// Takes in a row, as `feed` does, and gives what takes it out again as long as no other row
    /// has come after it. This costs a copy of what was kept for its key, so a row that stays is
    /// for `feed`.
    pub fn take(&mut self, row: &Row) -> Result<Taken, AllocError>
        requires { self.old.fed < 2 ^ 40 }
        ensures ok { OnOk result (FeedsRow row.now self.old self.new) }
        ensures back { IfOk result (λ taken. TakesBack taken self.old self.new) }
        ensures same_on_err { OnErr result (self.new ≡ self.old) }
    {
        let key = Key::of(self.alloc, row, &self.keys)?;
        let taken = self
            .groups
            .take(self.alloc, key, &self.aggs, row, &mut self.changes)?;
        self.fed += 1;
        Ok(taken)
    }

    /// Takes out the row that was taken in last. It takes no memory.
    pub fn undo(&mut self, taken: Taken)
        requires { CanUndo taken self.old }
        ensures { self.new ≡ restored taken self.old }
    {
        self.groups.undo(taken);
        self.fed -= 1;
    }

    // A copy of the groups, to go back to.
    pub(crate) fn copied_groups(&self) -> Result<Groups, AllocError>
        ensures same { IfOk result (λ groups. groups ≡ self.now.groups) }
        ensures within { IfOk result (GroupsWithin self.now.fed) }
    {
        self.groups.clone()
    }

    // Goes back to these groups, which were those of so many rows.
    pub(crate) fn go_back(&mut self, fed: u64, groups: Groups)
        requires { GroupsWithin fed groups }
        ensures { self.new ≡ record self.old { fed = fed; groups = groups } }
    {
        self.fed = fed;
        self.groups = groups;
    }

    /// A row for each key of the rows that it was fed: the key, and then its aggregates. A key with a sum
    /// that 64 bits do not hold, or with an aggregate of a column that none of its rows has, stands in
    /// `refused` instead. Keys stand in the order in which they came first.
    pub fn finish(&self, alloc: Global) -> Result<Grouped, AllocError>
        ensures rows { IfOk result (λ groups. AreRowsOf self.now groups.rows) }
        ensures refused { IfOk result
            (λ groups. (rows : List (List Cell)) → IsFedWith self.now rows → groups.refused
            ≡ refused_keys self.now.keys self.now.aggs rows) }
    {
        self.groups.finish(alloc)
    }

    /// How many rows it was fed.
    pub fn fed(&self) -> u64
        ensures { result ≡ self.now.fed }
    {
        self.fed
    }

    /// How many groups there are.
    pub fn groups(&self) -> u64
        ensures { (rows : List (List Cell)) → IsFedWith self.now rows → result
            ≡ length (first_keys self.now.keys rows) }
    {
        self.groups.len() as u64
    }
}
