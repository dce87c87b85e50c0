//! What is kept of the rows of a group for all its aggregates. Rests on `Running`.

ghost use Rattle.std.specs.Prelude.{◌≡◌, ◌+◌, ◌^◌, ◌<◌, [], ℕ, IfOk, OnErr, OnOk, map};
ghost use Rattle.amber_group.specs.Running.{running_of};
ghost use Rattle.amber_group.specs.Steps.{AreWithin, change_of, running_after};
ghost use Rattle.amber_group.specs.Totals.{blank_at};

use crate::running::Running;
use amber_rows::{Agg, Row, Value};
use std::alloc::{AllocError, Global};
use std::marker::Model;

// As many aggregates as most groups have.
const FEW: usize = 4;

/// What is kept of the rows of a group, for one aggregate after the other. Seen as the list.
pub struct Totals {
    count: usize,
    // A few lie beside the key itself, so that a row which is taken in waits for memory once less. Places
    // beyond the count mean nothing.
    few: [Running; FEW],
    // All of them, where they are more than a few.
    many: Vec<Running>,
}

impl Drop for Totals {
    fn drop(self) {
        let Totals {
            count: _,
            few: _,
            many: _,
        } = self;
    }
}

impl Model for Totals {
    ghost use Rattle.std.specs.Prelude.{List};
    ghost use Rattle.amber_group.specs.declared.running.Running.{Running as One};
    ghost use Rattle.amber_group.specs.Totals.{totals_in};

    ghost Value = { List One };

    ghost view = { λ a. totals_in a.count a.few a.many.items };
}

impl Totals {
    // What is kept of no row.
    fn new(alloc: Global, aggs: &[Agg]) -> Result<Self, AllocError>
        ensures { IfOk result (λ totals. totals ≡ map (running_of []) aggs.now) }
    {
        let mut many = Vec::new(alloc);
        if aggs.len() > FEW {
            many.reserve(aggs.len())?;
            for agg in aggs {
                many.push_reserved(Running::new(*agg));
            }
        }
        Ok(Totals {
            count: aggs.len(),
            few: [
                blank_at(aggs, 0),
                blank_at(aggs, 1),
                blank_at(aggs, 2),
                blank_at(aggs, 3),
            ],
            many,
        })
    }

    // What is kept of one row alone.
    pub(crate) fn of_row(
        alloc: Global,
        aggs: &[Agg],
        row: &Row,
        changes: &mut Vec<Option<Value>>,
    ) -> Result<Self, AllocError>
        ensures value { IfOk result
            (λ totals. totals ≡ map (running_after row.now) (map (running_of []) aggs.now)) }
        ensures within { IfOk result (AreWithin 1) }
    {
        let mut totals = Totals::new(alloc, aggs)?;
        totals.add(row, changes)?;
        Ok(totals)
    }

    // Takes in one more row. Its new best cells are made in `changes` first, whose content
    // before does not matter.
    pub(crate) fn add(
        &mut self,
        row: &Row,
        changes: &mut Vec<Option<Value>>,
    ) -> Result<(), AllocError>
        requires { (rows : ℕ) × (rows < 2 ^ 40) × AreWithin rows self.old }
        ensures ok { OnOk result (self.new ≡ map (running_after row.now) self.old) }
        ensures within { OnOk result ((rows : ℕ) → AreWithin rows self.old
            → AreWithin (rows + 1) self.new) }
        ensures same { OnErr result (self.new ≡ self.old) }
    {
        find_changes(self.get(), row, changes)?;
        if self.count <= FEW {
            settle_all(&mut self.few[..self.count], row, changes);
        } else {
            settle_all(self.many.as_mut_slice(), row, changes);
        }
        Ok(())
    }

    /// For each aggregate what is kept.
    pub fn get(&self) -> &[Running]
        ensures { result.now ≡ self.now }
    {
        if self.count <= FEW {
            &self.few[..self.count]
        } else {
            self.many.as_slice()
        }
    }
}

impl Clone for Totals {
    ghost is_clone = { λ totals copy. copy ≡ totals };

    fn clone(&self) -> Result<Self, AllocError> {
        Ok(Totals {
            count: self.count,
            few: self.few.clone()?,
            many: self.many.clone()?,
        })
    }
}

// What is kept of no row for the aggregate at a place; where there is none, it does not matter what.
fn blank_at(aggs: &[Agg], place: usize) -> Running
    ensures { result ≡ blank_at aggs.now place }
{
    match aggs.get(place) {
        Some(agg) => Running::new(*agg),
        None => Running::Count(0),
    }
}

// Makes the new best cells of a row, one for each that is kept.
fn find_changes(
    runnings: &[Running],
    row: &Row,
    changes: &mut Vec<Option<Value>>,
) -> Result<(), AllocError>
    ensures { OnOk result (changes.new.items ≡ map (change_of row.now) runnings.now) }
{
    changes.clear();
    for running in runnings {
        changes.push(running.change(row)?)?;
    }
    Ok(())
}

// Takes in one more row, whose new best cells these are.
fn settle_all(runnings: &mut [Running], row: &Row, changes: &mut Vec<Option<Value>>)
    requires changes { changes.old.items ≡ map (change_of row.now) runnings.old }
    requires within { (rows : ℕ) × (rows < 2 ^ 40) × AreWithin rows runnings.old }
    ensures value { runnings.new ≡ map (running_after row.now) runnings.old }
    ensures within { (rows : ℕ) → AreWithin rows runnings.old
        → AreWithin (rows + 1) runnings.new }
{
    for i in 0..runnings.len() {
        let change = changes[i].take();
        runnings[i].settle(row, change);
    }
}
