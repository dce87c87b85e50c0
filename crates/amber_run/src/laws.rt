//! What a call answers and leaves, told in two ways, and what a replay and a recovery come to. Each function does nothing; its
//! contract is the law, stated in `specs/AnsweredByChange.antt`, `specs/Replaying.antt` and `specs/Recovering.antt`.

ghost use Rattle.amber_run.specs.AnsweredByChange.{AnswersAreOne, StopsAreOne};
ghost use Rattle.amber_run.specs.Recovering.{FrontsAreRecovered};
ghost use Rattle.amber_run.specs.Replaying.{FrontsAreReplayed};

/// What a call that stopped leaves, with a part of the failure's line, is what it leaves before the line, and then
/// that part. A sink that failed gets no line.
pub fn stops_are_one()
    ensures { StopsAreOne }
{}

/// What a call answers is the same fact, told by what is shown and has changed, or by what there is before and
/// after.
pub fn answers_are_one()
    ensures { AnswersAreOne }
{}

/// The first items of a legal log, however many, are replayed where they stand in a file: the call is not refused, and prints
/// their transcript where it ends well.
pub fn fronts_are_replayed()
    ensures { FrontsAreReplayed }
{}

/// Any beginning of the text of a legal log, whose commands are the script's first, is gone on from where it stands in a file:
/// the call is not refused for its log, and what it goes on from are the first items of that log.
pub fn fronts_are_recovered()
    ensures { FrontsAreRecovered }
{}
