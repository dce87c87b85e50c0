//! The rows that a call has printed, kept for its caller to drop. Rests on `Rows`.

ghost use Rattle.std.specs.Prelude.{◌≡◌, IfSome, IfNone, None, Some};

use amber_rows::Rows;
use std::marker::Model;

/// The rows that a call has printed, if there are some, for the caller to drop.
///
/// Freeing a million rows takes longer than printing them. A program that ends after the call may forget them, since the
/// system takes all its memory back at once; any other drops them.
pub struct Printed {
    rows: Option<Rows>,
}

impl Drop for Printed {
    fn drop(self) {
        let Printed { rows: _ } = self;
    }
}

impl Model for Printed {
    ghost use Rattle.std.specs.Prelude.{List, Option};
    ghost use Rattle.amber_rows.specs.declared.value.Value.{Value as Cell};

    ghost Value = { Option (List (List Cell)) };

    ghost view = { λ a. a.rows };
}

impl Printed {
    /// No rows yet.
    pub fn new() -> Printed
        ensures { result ≡ None }
    {
        Printed { rows: None }
    }

    // Keeps the rows of a reply, where it has some, and lets earlier ones go.
    pub(crate) fn keep(&mut self, rows: Option<Rows>)
        ensures kept { IfSome rows (λ printed. self.new ≡ Some printed) }
        ensures none { IfNone rows (self.new ≡ self.old) }
    {
        match rows {
            Some(rows) => self.rows = Some(rows),
            None => {}
        }
    }
}
