//! A count stops a run exactly at its target. Each function does nothing; its contract is the law, stated in
//! `specs/CountLaws.antt`.

ghost use Rattle.amber_laws.specs.CountLaws.{CountsCountSinceArmed, CountsStopAtTheirTarget};

/// Whatever the order in which the workers moved: where a leg up to a stop is closed no count has counted more rows than it
/// asks for. The leg's stops have one at an operator's count exactly where that count is armed and has counted all of its
/// rows, and it says how many they are.
pub fn counts_stop_at_their_target()
    ensures { CountsStopAtTheirTarget }
{}

/// What a count has counted are the rows that its operator's workers have emitted together since the command that armed it, as
/// the last one of the log that armed or cleared the operator's count.
pub fn counts_count_since_armed()
    ensures { CountsCountSinceArmed }
{}
