//! What a run answers does not depend on its schedule. Each function does nothing; its contract is the law,
//! stated in `specs/AnswerLaws.antt`.

ghost use Rattle.amber_laws.specs.AnswerLaws.{EndsReplyTheAnswer, SchedulesHaveOneAnswer, WorkersChangeNoAnswer};

/// A run whose log sets no constant and drops no row, and whose last leg has come to the end, has the answer of the
/// sequential evaluation over the same files, whatever the order in which its workers moved and wherever it stopped on
/// the way. The answer holds what was refused: a record with a fault, or a group with a sum that 64 bits do not hold, is
/// refused in every run.
pub fn schedules_have_one_answer()
    ensures { SchedulesHaveOneAnswer }
{}

/// What such a run replies to its last item is the text of that answer.
pub fn ends_reply_the_answer()
    ensures { EndsReplyTheAnswer }
{}

/// Workflows that differ in nothing but how many workers their operators have are of one sequential answer. So their
/// runs, by the laws above, have one answer too.
pub fn workers_change_no_answer()
    ensures { WorkersChangeNoAnswer }
{}
