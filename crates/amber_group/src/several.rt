//! Several rows that a group takes in, all or none, and that can be taken out again. Over `GroupState`, and `Taken` of
//! `undoing`.

ghost use Rattle.std.specs.Prelude.{◌≡◌, ◌^◌, ◌<◌, ◌≤◌, ◌+◌, ◌∷◌, [], IfOk, OnErr, OnOk, filter, length, take, vec_capacity, vec_len};
ghost use Rattle.amber_rows.specs.Suits.{suits_of};
ghost use Rattle.amber_group.specs.Feeding.{FeedsEach};
ghost use Rattle.amber_group.specs.Group.{FeedsRows, Group};
ghost use Rattle.amber_group.specs.Undoing.{CanUndoAll, TakeAllBack, restored_all};

use crate::state::GroupState;
use crate::undoing::Taken;
use amber_rows::{Row, Schema, suits};
use std::alloc::{AllocError, Global};
use std::collections::VecDeque;

impl GroupState {
    // Takes in a row, if it suits the columns, and puts what takes it out again behind that of the rows before.
    fn take_suiting(
        &mut self,
        row: &Row,
        columns: &Schema,
        all: &mut Vec<Taken>,
    ) -> Result<(), AllocError>
        requires few { self.old.fed < 2 ^ 40 }
        requires room { vec_len all.old < vec_capacity all.old }
        ensures ok { OnOk result
            (FeedsRows (filter (suits_of columns.now) (row.now ∷ [])) self.old self.new) }
        ensures each { OnOk result
            (FeedsEach (filter (suits_of columns.now) (row.now ∷ [])) self.old self.new) }
        ensures back { OnOk result ((start : Group) → TakeAllBack all.old.items start self.old
            → TakeAllBack all.new.items start self.new) }
        ensures longer { vec_len all.new ≤ vec_len all.old + 1 }
        ensures slots { vec_capacity all.new ≡ vec_capacity all.old }
        ensures same_on_err { OnErr result (self.new ≡ self.old) }
        ensures all_on_err { OnErr result (all.new.items ≡ all.old.items) }
    {
        if !suits(row, columns) {
            return Ok(());
        }
        let taken = self.take(row)?;
        all.push_reserved(taken);
        Ok(())
    }

    /// Takes in those of the first `count` rows that suit the columns, as `feed` does with one after the other, and gives
    /// what takes them out again as long as no other row has come after them. Each costs a copy of what was kept for its
    /// key. If memory runs out all is as before.
    pub fn take_all(
        &mut self,
        alloc: Global,
        rows: &VecDeque<Row>,
        count: usize,
        columns: &Schema,
    ) -> Result<Vec<Taken>, AllocError>
        requires there { count ≤ length rows.now.items }
        requires few { self.old.fed + count ≤ 2 ^ 40 }
        ensures ok { OnOk result
            (FeedsRows (filter (suits_of columns.now) (take count rows.now.items)) self.old
            self.new) }
        ensures each { OnOk result
            (FeedsEach (filter (suits_of columns.now) (take count rows.now.items)) self.old
            self.new) }
        ensures back { IfOk result (λ all. TakeAllBack all.items self.old self.new) }
        ensures same_on_err { OnErr result (self.new ≡ self.old) }
    {
        let mut all = Vec::with_capacity(alloc, count)?;
        for i in 0..count {
            if let Err(error) = self.take_suiting(&rows[i], columns, &mut all) {
                self.undo_all(all);
                return Err(error);
            }
        }
        Ok(all)
    }

    /// Takes out the rows that were taken in last. It takes no memory.
    #[tactic(auto, unfolding(crate::specs::Undoing::restored_all, crate::specs::Undoing::CanUndoAll))]
    pub fn undo_all(&mut self, mut all: Vec<Taken>)
        requires { CanUndoAll all.items self.old }
        ensures { self.new ≡ restored_all all.items self.old }
    {
        while let Some(taken) = all.pop() {
            self.undo(taken);
        }
    }
}
