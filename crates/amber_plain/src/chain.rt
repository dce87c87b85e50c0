//! The way of a row through stages. Over `Stage`, and `Holder`, which takes what comes out.

ghost use Rattle.std.specs.Prelude.{◌≡◌, ◌∷◌, [], OnOk};
ghost use Rattle.amber_plain.specs.Holding.{Fills, Spends, Takes};
ghost use Rattle.amber_plain.specs.Stages.{count_through, rows_through};

use crate::holder::Holder;
use crate::limit::LimitErr;
use crate::stage::Stage;
use amber_operators::Yielded;
use amber_rows::Row;
use std::alloc::Global;

/// Stages, what stands after the last of them, and how many rows may still come.
#[derive(Drop)]
pub struct Chain {
    pub stages: Vec<Stage>,
    pub holder: Holder,
    pub left: u64,
}

impl Chain {
    /// Sends a row through the stages. What is left of it does not matter.
    pub fn send(&mut self, alloc: Global, row: &mut Row) -> Result<(), LimitErr>
        ensures moved { OnOk result (Fills self.old self.new (row.old ∷ [])) }
        ensures left { Spends result self.old.left self.new.left
            (count_through self.old.stages.items (row.old ∷ [])) }
    {
        let Chain {
            stages,
            holder,
            left,
        } = self;
        pass(alloc, row, stages.as_slice(), holder, left)
    }

    /// Sends each of these rows, one after the other.
    pub fn send_all(&mut self, alloc: Global, rows: Vec<Row>) -> Result<(), LimitErr>
        ensures moved { OnOk result (Fills self.old self.new rows.items) }
        ensures left { Spends result self.old.left self.new.left
            (count_through self.old.stages.items rows.items) }
    {
        let Chain {
            stages,
            holder,
            left,
        } = self;
        pass_all(alloc, rows, stages.as_slice(), holder, left)
    }
}

// Counts a row.
fn spend(left: &mut u64) -> Result<(), LimitErr>
    ensures { Spends result left.old left.new 1 }
{
    if *left == 0 {
        return Err(LimitErr::Long);
    }
    *left -= 1;
    Ok(())
}

/// Counts a row and sends it through stages to what stands after them.
#[cycle(pass)]
fn pass(
    alloc: Global,
    row: &mut Row,
    stages: &[Stage],
    holder: &mut Holder,
    left: &mut u64,
) -> Result<(), LimitErr>
    ensures taken { OnOk result (Takes holder.old holder.new
        (rows_through stages.now (row.old ∷ []))) }
    ensures left { Spends result left.old left.new (count_through stages.now (row.old ∷ [])) }
{
    spend(left)?;
    let Some((stage, later)) = stages.split_first() else {
        holder.take(alloc, row)?;
        return Ok(());
    };
    match stage.give(alloc, row)? {
        Yielded::Nothing => Ok(()),
        Yielded::Same => pass(alloc, row, later, holder, left),
        Yielded::Other(mut made) => pass(alloc, &mut made, later, holder, left),
        Yielded::Many(made) => pass_all(alloc, made.into_inner(), later, holder, left),
    }
}

/// The same for each of these rows, one after the other.
#[cycle(pass)]
fn pass_all(
    alloc: Global,
    rows: Vec<Row>,
    stages: &[Stage],
    holder: &mut Holder,
    left: &mut u64,
) -> Result<(), LimitErr>
    ensures taken { OnOk result (Takes holder.old holder.new
        (rows_through stages.now rows.items)) }
    ensures left { Spends result left.old left.new (count_through stages.now rows.items) }
{
    for mut row in rows {
        pass(alloc, &mut row, stages, holder, left)?;
    }
    Ok(())
}
