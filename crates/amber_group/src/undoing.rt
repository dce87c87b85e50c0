//! Rows that groups take in and that can be taken out again, the last one first. Over `Groups`.

ghost use Rattle.std.specs.Prelude.{◌≡◌, ◌^◌, ◌<◌, ◌-◌, ℕ, IfOk, OnErr, OnOk, length, take};
ghost use Rattle.amber_group.specs.Steps.{GroupsWithin};
ghost use Rattle.amber_group.specs.Taking.{TakesIn};
ghost use Rattle.amber_group.specs.Undoing.{CanRestore, TakesGroupsBack, restored_groups};

use crate::groups::Groups;
use crate::totals::Totals;
use amber_keys::Key;
use amber_rows::{Aggs, Row, Value};
use std::alloc::{AllocError, Global};
use std::marker::Model;

/// By which a row that a group took in is taken out of it again. It is seen as the row's key and
/// what was kept for it before, or as nothing where the row began a group.
pub struct Taken {
    before: Option<(Key, Totals)>,
}

impl Drop for Taken {
    fn drop(self) {
        let Taken { before: _ } = self;
    }
}

impl Model for Taken {
    ghost use Rattle.amber_group.specs.Undoing.{Before};

    ghost Value = { Before };

    ghost view = { λ a. a.before };
}

impl Taken {
    // The key and what was kept for it.
    fn into_before(self) -> Option<(Key, Totals)>
        ensures { result ≡ self }
    {
        let Taken { before } = self;
        before
    }
}

impl Groups {
    // Takes in a row with this key, as `take_in` does, and gives what takes it out again.
    pub(crate) fn take(
        &mut self,
        alloc: Global,
        key: Key,
        aggs: &Aggs,
        row: &Row,
        changes: &mut Vec<Option<Value>>,
    ) -> Result<Taken, AllocError>
        requires { (fed : ℕ) × (fed < 2 ^ 40) × GroupsWithin fed self.old }
        ensures ok { OnOk result (TakesIn
            (record { entries = self.old; aggs = aggs.now; key = key; row = row.now })
            self.new) }
        ensures back { IfOk result (λ taken. TakesGroupsBack taken self.old self.new) }
        ensures same { OnErr result (self.new ≡ self.old) }
    {
        match self.table.place_of(&key) {
            Some(place) => {
                let totals = self.table.entry(place).1.clone()?;
                self.table.value_mut(place).add(row, changes)?;
                Ok(Taken {
                    before: Some((key, totals)),
                })
            }
            None => {
                let totals = Totals::of_row(alloc, aggs.get(), row, changes)?;
                self.begin(key, totals)?;
                Ok(Taken { before: None })
            }
        }
    }

    // Takes out the row that was taken in last. It takes no memory.
    pub(crate) fn undo(&mut self, taken: Taken)
        requires { CanRestore taken self.old }
        ensures { self.new ≡ restored_groups taken self.old }
    {
        match taken.into_before() {
            Some((key, mut totals)) => self.swap(&key, &mut totals),
            None => self.drop_last(),
        }
    }

    // Takes away the last group.
    fn drop_last(&mut self)
        requires { 0 < length self.old }
        ensures { self.new ≡ take (length self.old - 1) self.old }
    {
        self.table.take_last();
    }
}
