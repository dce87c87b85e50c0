//! Laws of the ledger, in every state that meets its rule. Each function does nothing; its contract is the law.

ghost use Rattle.amber_board.specs.Ledger.{CountsAreMine, SeenWasCounted};

/// A worker's word is what its seat counted, as long as the seat is out.
pub fn counts_are_mine()
    ensures { CountsAreMine }
{}

/// What the chief saw of a worker is at most what that worker counted.
pub fn seen_was_counted()
    ensures { SeenWasCounted }
{}
