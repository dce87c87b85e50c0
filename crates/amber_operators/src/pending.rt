//! The rows that a worker has produced and not emitted. Rests on `Row` of `amber_rows`.

ghost use Rattle.std.specs.Prelude.{◌≡◌, ◌<◌, ◌∷◌, [], List, false, length, not, slice_index_or, IfNone, IfSome, MatchOption, Some};
ghost use Rattle.amber_rows.specs.Lists.{first_of};
ghost use Rattle.amber_link.specs.Links.{has_some};
ghost use Rattle.amber_rows.specs.declared.value.Value.{Value as Cell};

use amber_rows::Row;
use std::alloc::Global;
use std::collections::VecDeque;
use std::marker::Model;

// The row at a place, of one row and those that come after it.
fn row_behind<'a>(row: &'a Row, later: &'a VecDeque<Row>, place: usize) -> &'a Row
    requires { place < length (row.now ∷ later.now.items) }
    ensures { (d : List Cell) → result.now ≡ slice_index_or (row.now ∷ later.now.items) place d }
{
    if place == 0 {
        return row;
    }
    &later[place - 1]
}

/// The rows that are pending, seen as a list: a row that has a place of its own, and those that come after it.
pub struct Pending {
    first: Option<Row>,
    pub later: VecDeque<Row>,
}

impl Drop for Pending {
    fn drop(self) {
        let Pending { first: _, later: _ } = self;
    }
}

impl Model for Pending {
    ghost use Rattle.std.specs.Prelude.{List, ◌++◌, option_to_list};
    ghost use Rattle.amber_rows.specs.declared.value.Value.{Value as Cell};

    ghost Value = { List (List Cell) };

    ghost view = { λ a. option_to_list a.first ++ a.later.items };
}

impl Pending {
    /// No row is pending.
    pub fn new(alloc: Global) -> Pending
        ensures { result ≡ [] }
    {
        Pending {
            first: None,
            later: VecDeque::new(alloc),
        }
    }

    /// Whether no row is pending.
    #[inline(always)]
    pub fn is_empty(&self) -> bool
        ensures { has_some self.now ≡ not result }
    {
        self.first.is_none() && self.later.is_empty()
    }

    /// How many rows are pending.
    #[inline(always)]
    pub fn len(&self) -> u64
        ensures { result ≡ length self.now }
    {
        u64::from(self.first.is_some()) + self.later.len() as u64
    }

    /// The row that is emitted next, if there is one.
    #[inline(always)]
    pub fn front(&self) -> Option<&Row>
        ensures none { IfNone result (has_some self.now ≡ false) }
        ensures some { IfSome result (λ row. first_of self.now ≡ Some row.now) }
    {
        match &self.first {
            Some(row) => Some(row),
            None => self.later.front(),
        }
    }

    /// The row at a place.
    pub fn at(&self, place: usize) -> &Row
        requires { place < length self.now }
        ensures { (d : List Cell) → result.now ≡ slice_index_or self.now place d }
    {
        match &self.first {
            None => &self.later[place],
            Some(row) => row_behind(row, &self.later, place),
        }
    }

    /// Takes the row that is emitted next, if there is one.
    #[inline(always)]
    pub fn pop_front(&mut self) -> Option<Row>
        ensures { MatchOption result ((self.old ≡ []) × (self.new ≡ []))
            (λ row. self.old ≡ row ∷ self.new) }
    {
        match self.first.take() {
            Some(row) => Some(row),
            None => self.later.pop_front(),
        }
    }

    /// A row is pending, where none was.
    #[inline(always)]
    pub fn put(&mut self, row: Row)
        requires { self.old ≡ [] }
        ensures { self.new ≡ row ∷ [] }
    {
        if self.first.is_some() {
            unreachable!()
        }
        self.first = Some(row);
    }

    /// These rows are pending, where none was.
    #[inline(always)]
    pub fn fill(&mut self, rows: VecDeque<Row>)
        requires { self.old ≡ [] }
        ensures { self.new ≡ rows.items }
    {
        self.later = rows;
    }
}
