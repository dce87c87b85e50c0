//! The fact that holds of the ledger between any two steps. Over the views of all seats.

ghost use Rattle.amber_board.specs.Ledger.{Conserved, first_view};

use crate::view::{Terms, View};
use atomic_table::TableRule;

/// The conservation rule of the ledger.
pub struct Rule;

impl TableRule<(), View, Terms> for Rule {
    ghost holds = { λ terms s. Conserved terms s.words s.views };

    ghost first = { first_view };
}
