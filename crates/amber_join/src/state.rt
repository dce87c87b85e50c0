//! The state of a join, which keeps build rows and takes probe rows. Rests on `places` and `matches`.

ghost use Rattle.std.specs.Prelude.{◌≡◌, ◌++◌, ◌∷◌, [], IfErr, IfOk, OnErr, OnOk, false, length, true};
ghost use Rattle.amber_rows.specs.Operators.{first_keys, matches_of, pick_cells};
ghost use Rattle.amber_join.specs.Join.{CameLast};

use crate::matches::matches;
use crate::places::{Places, forget, note};
use amber_keys::{Key, KeyTable};
use amber_rows::{Cols, Row, Rows};
use std::alloc::{AllocError, Global};
use std::marker::Model;

/// What a join keeps: the columns by which the rows of both sides are compared, the build rows in the order
/// in which they came, and whether these are all. The state is seen as just these.
pub struct JoinState {
    alloc: Global,
    build_keys: Cols,
    probe_keys: Cols,
    rows: Vec<Row>,
    // The places of the rows with each key.
    table: KeyTable<Places>,
    sealed: bool,
}

impl Drop for JoinState {
    fn drop(self) {
        let JoinState {
            alloc: _,
            build_keys: _,
            probe_keys: _,
            rows: _,
            table: _,
            sealed: _,
        } = self;
    }
}

impl Model for JoinState {
    ghost use Rattle.amber_join.specs.Join.{Join};
    ghost use Rattle.std.specs.Prelude.{◌≡◌};
    ghost use Rattle.amber_join.specs.Places.{table_of};

    ghost Value = { Join };

    ghost view = { λ a. record {
      build_keys = a.build_keys;
      probe_keys = a.probe_keys;
      rows = a.rows.items;
      sealed = a.sealed;
    } };

    ghost invariant = { λ a. a.table.entries ≡ table_of a.build_keys a.rows.items };
}

/// By which a row that a join keeps is taken out of it again. It is seen as the row's key.
pub struct Staged {
    key: Key,
}

impl Drop for Staged {
    fn drop(self) {
        let Staged { key: _ } = self;
    }
}

impl Model for Staged {
    ghost use Rattle.std.specs.Prelude.{List};
    ghost use Rattle.amber_rows.specs.declared.value.Value.{Value as Cell};

    ghost Value = { List Cell };

    ghost view = { λ a. a.key };
}

impl JoinState {
    /// The state of a join on these columns of its two sides, with no build row. Columns are numbered from 1.
    pub fn new(alloc: Global, build_keys: Cols, probe_keys: Cols) -> Self
        ensures { result ≡ record {
          build_keys = build_keys;
          probe_keys = probe_keys;
          rows = [];
          sealed = false;
        } }
    {
        JoinState {
            alloc,
            build_keys,
            probe_keys,
            rows: Vec::new(alloc),
            table: KeyTable::new(alloc),
            sealed: false,
        }
    }

    /// Keeps a build row. It gives the row back only where memory runs out.
    pub fn build(&mut self, row: Row) -> Result<(), Row>
        requires { self.old.sealed ≡ false }
        ensures ok { OnOk result (self.new ≡ record self.old { rows = self.old.rows ++ row ∷ [] }) }
        ensures err { IfErr result (λ back. back ≡ row) }
        ensures same_on_err { OnErr result (self.new ≡ self.old) }
    {
        let Ok(key) = Key::of(self.alloc, &row, &self.build_keys) else {
            return Err(row);
        };
        if self.rows.reserve(1).is_err() {
            return Err(row);
        }
        match note(self.alloc, &mut self.table, key, self.rows.len()) {
            Ok(()) => {
                self.rows.push_reserved(row);
                Ok(())
            }
            Err(_) => Err(row),
        }
    }

    /// Keeps a build row, as `build` does, and gives what takes it out again as long as no other
    /// row has come after it. This costs room for its key, so a row that stays is for `build`.
    pub fn stage(&mut self, row: Row) -> Result<Staged, Row>
        requires { self.old.sealed ≡ false }
        ensures ok { OnOk result (self.new ≡ record self.old { rows = self.old.rows ++ row ∷ [] }) }
        ensures key { IfOk result (λ staged. staged ≡ pick_cells self.old.build_keys row) }
        ensures err { IfErr result (λ back. back ≡ row) }
        ensures same_on_err { OnErr result (self.new ≡ self.old) }
    {
        let Ok(key) = Key::of(self.alloc, &row, &self.build_keys) else {
            return Err(row);
        };
        self.build(row)?;
        Ok(Staged { key })
    }

    /// Takes out the row that was staged last, and gives it back. It takes no memory.
    pub fn unstage(&mut self, staged: Staged) -> Row
        requires { CameLast staged self.old }
        ensures row { self.old.rows ≡ self.new.rows ++ result ∷ [] }
        ensures only { self.new ≡ record self.old { rows = self.new.rows } }
    {
        forget(&mut self.table, &staged.key);
        let Some(row) = self.rows.pop() else {
            unreachable!()
        };
        row
    }

    /// Says that the build rows so far are all. From now on the join may be probed.
    pub fn seal(&mut self)
        ensures { self.new ≡ record self.old { sealed = true } }
    {
        self.sealed = true;
    }

    /// The probe row followed by each build row whose keys equal its own, in the order in which the build
    /// rows came. No row where no key is equal.
    pub fn probe(&self, alloc: Global, row: &Row) -> Result<Rows, AllocError>
        requires { self.now.sealed ≡ true }
        ensures { IfOk result
            (λ rows. rows ≡ matches_of self.now.build_keys self.now.probe_keys
            self.now.rows row.now) }
    {
        self.probe_over(alloc, row, &mut Vec::new(alloc))
    }

    /// The same, written over rows that are done with, as far as there are any. What these hold means nothing.
    pub fn probe_over(
        &self,
        alloc: Global,
        row: &Row,
        used: &mut Vec<Row>,
    ) -> Result<Rows, AllocError>
        requires { self.now.sealed ≡ true }
        ensures { IfOk result
            (λ rows. rows ≡ matches_of self.now.build_keys self.now.probe_keys
            self.now.rows row.now) }
    {
        let key = Key::of(alloc, row, &self.probe_keys)?;
        let Some(place) = self.table.place_of(&key) else {
            return Ok(Rows::new(Vec::new(alloc)));
        };
        let (_, places) = self.table.entry(place);
        let made = matches(alloc, row, self.rows.as_slice(), places, used)?;
        Ok(Rows::new(made))
    }

    /// How many different keys the build rows have.
    pub fn keys(&self) -> u64
        ensures { result ≡ length (first_keys self.now.build_keys self.now.rows) }
    {
        self.table.len() as u64
    }

    /// How many build rows there are.
    pub fn rows(&self) -> u64
        ensures { result ≡ length self.now.rows }
    {
        self.rows.len() as u64
    }
}

impl Clone for JoinState {
    ghost is_clone = { λ a copy. copy ≡ a };

    fn clone(&self) -> Result<Self, AllocError> {
        Ok(JoinState {
            alloc: self.alloc,
            build_keys: self.build_keys.clone()?,
            probe_keys: self.probe_keys.clone()?,
            rows: self.rows.clone()?,
            table: self.table.clone()?,
            sealed: self.sealed,
        })
    }
}
