//! Legs that go on. Each function does nothing; its contract is the law, stated in `specs/MovingLaws.antt`.

ghost use Rattle.amber_lines.specs.MovingLaws.{GoesJoin, OpenIsMovingAndOffering, OpenLegsGrow, WorkIsMovingAndOffering};

/// A leg was worked exactly where each worker moved by its rules and what was taken was offered.
pub fn work_is_moving_and_offering()
    ensures { WorkIsMovingAndOffering }
{}

/// The same of a leg that goes on.
pub fn open_is_moving_and_offering()
    ensures { OpenIsMovingAndOffering }
{}

/// A leg that goes on still does when one worker makes an entry that its rule allows: what a sender has for a receiver
/// only grows, so what was offered stays so. A batch that is taken has to be there.
pub fn open_legs_grow()
    ensures { OpenLegsGrow }
{}

/// Rows that a worker moved in one entry and then in another may stand as one entry, under any condition and any count.
pub fn goes_join()
    ensures { GoesJoin }
{}
