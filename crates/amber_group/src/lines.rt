//! The rows of a line, which a group takes in, all or none, at the least cost, and which can be taken out again. Over
//! `GroupState`, its groups, and `several`.

ghost use Rattle.std.specs.Prelude.{◌≡◌, ◌^◌, ◌<◌, ◌≤◌, ◌+◌, ◌∷◌, [], IfOk, OnErr, OnOk, filter, length, take};
ghost use Rattle.amber_rows.specs.Suits.{suits_of};
ghost use Rattle.amber_group.specs.Feeding.{FeedsEach};
ghost use Rattle.amber_group.specs.Group.{FeedsRows};
ghost use Rattle.amber_group.specs.Lines.{CanUndoLine, TakesLineBack, restored_line};

use crate::groups::Groups;
use crate::state::GroupState;
use crate::undoing::Taken;
use amber_rows::{Row, Schema, suits};
use std::alloc::{AllocError, Global};
use std::collections::VecDeque;

/// By which the rows of a line are taken out of the groups again.
#[derive(Drop)]
pub enum TakenLine {
    /// What takes out each row, the last one first.
    Each(Vec<Taken>),
    /// How many rows had come before, and a copy of the groups as they were.
    Whole { fed: u64, groups: Groups },
}

impl GroupState {
    // Feeds a row, if it suits the columns.
    fn feed_suiting(&mut self, row: &Row, columns: &Schema) -> Result<(), AllocError>
        requires few { self.old.fed < 2 ^ 40 }
        ensures ok { OnOk result
            (FeedsRows (filter (suits_of columns.now) (row.now ∷ [])) self.old self.new) }
        ensures each { OnOk result
            (FeedsEach (filter (suits_of columns.now) (row.now ∷ [])) self.old self.new) }
        ensures same_on_err { OnErr result (self.new ≡ self.old) }
    {
        if !suits(row, columns) {
            return Ok(());
        }
        self.feed(row)
    }

    // Feeds those of the first `count` rows that suit the columns. If memory runs out some may have come.
    fn feed_some(
        &mut self,
        rows: &VecDeque<Row>,
        count: usize,
        columns: &Schema,
    ) -> Result<(), AllocError>
        requires there { count ≤ length rows.now.items }
        requires few { self.old.fed + count ≤ 2 ^ 40 }
        ensures ok { OnOk result
            (FeedsRows (filter (suits_of columns.now) (take count rows.now.items)) self.old
            self.new) }
        ensures each { OnOk result
            (FeedsEach (filter (suits_of columns.now) (take count rows.now.items)) self.old
            self.new) }
        ensures keys { self.new.keys ≡ self.old.keys }
        ensures aggs { self.new.aggs ≡ self.old.aggs }
    {
        for i in 0..count {
            self.feed_suiting(&rows[i], columns)?;
        }
        Ok(())
    }

    // Takes in those of the first `count` rows that suit the columns, beside a copy of all groups.
    fn take_beside(
        &mut self,
        rows: &VecDeque<Row>,
        count: usize,
        columns: &Schema,
    ) -> Result<TakenLine, AllocError>
        requires there { count ≤ length rows.now.items }
        requires few { self.old.fed + count ≤ 2 ^ 40 }
        ensures ok { OnOk result
            (FeedsRows (filter (suits_of columns.now) (take count rows.now.items)) self.old
            self.new) }
        ensures each { OnOk result
            (FeedsEach (filter (suits_of columns.now) (take count rows.now.items)) self.old
            self.new) }
        ensures back { IfOk result (λ taken. TakesLineBack taken self.old self.new) }
        ensures same_on_err { OnErr result (self.new ≡ self.old) }
    {
        let fed = self.fed();
        let groups = self.copied_groups()?;
        if let Err(error) = self.feed_some(rows, count, columns) {
            self.go_back(fed, groups);
            return Err(error);
        }
        Ok(TakenLine::Whole { fed, groups })
    }

    /// Takes in those of the first `count` rows that suit the columns, as `take_all` does, and gives what takes them out
    /// again as long as no other row has come after them. This costs a copy of what is kept for all keys, or for that of
    /// each row where these are fewer. If memory runs out all is as before.
    pub fn take_line(
        &mut self,
        alloc: Global,
        rows: &VecDeque<Row>,
        count: usize,
        columns: &Schema,
    ) -> Result<TakenLine, AllocError>
        requires there { count ≤ length rows.now.items }
        requires few { self.old.fed + count ≤ 2 ^ 40 }
        ensures ok { OnOk result
            (FeedsRows (filter (suits_of columns.now) (take count rows.now.items)) self.old
            self.new) }
        ensures each { OnOk result
            (FeedsEach (filter (suits_of columns.now) (take count rows.now.items)) self.old
            self.new) }
        ensures back { IfOk result (λ taken. TakesLineBack taken self.old self.new) }
        ensures same_on_err { OnErr result (self.new ≡ self.old) }
    {
        if self.groups() < count as u64 {
            return self.take_beside(rows, count, columns);
        }
        let all = self.take_all(alloc, rows, count, columns)?;
        Ok(TakenLine::Each(all))
    }

    /// Takes out the rows of the line that was taken in last. It takes no memory.
    pub fn undo_line(&mut self, taken: TakenLine)
        requires { CanUndoLine taken self.old }
        ensures { self.new ≡ restored_line taken self.old }
    {
        match taken {
            TakenLine::Each(all) => self.undo_all(all),
            TakenLine::Whole { fed, groups } => self.go_back(fed, groups),
        }
    }
}
