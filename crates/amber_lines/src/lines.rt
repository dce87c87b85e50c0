//! Logs judged line by line. Each function does nothing; its contract is the law, stated in
//! `specs/LineLaws.antt`.

ghost use Rattle.amber_lines.specs.LineLaws.{BeginningsHaveFronts, EntriesAreTested, FirstEntriesEnter, IllegalLinesAreFirst, LegalLogsBegin, NextEntriesEnter, OpenLegsAreJudged, PartsAreBegun, WholeLogsAreJudged};

/// The test of an entry is true exactly where the worker's rule allows it and the batch that it takes is there.
pub fn entries_are_tested()
    ensures { EntriesAreTested }
{}

/// Each front of a legal beginning is a legal beginning.
pub fn beginnings_have_fronts()
    ensures { BeginningsHaveFronts }
{}

/// Each front of the lines of a legal log is a legal beginning, wherever it ends.
pub fn legal_logs_begin()
    ensures { LegalLogsBegin }
{}

/// A log that ends with a whole item is legal exactly where it is a legal beginning.
pub fn whole_logs_are_judged()
    ensures { WholeLogsAreJudged }
{}

/// A leg after a legal log is open exactly where its lines so far are a legal beginning.
pub fn open_legs_are_judged()
    ensures { OpenLegsAreJudged }
{}

/// A worker's part may begin exactly where the leg is open and the worker is one of the workflow.
pub fn parts_are_begun()
    ensures { PartsAreBegun }
{}

/// The illegal line of a log is the first up to which it is no legal beginning, and there is none exactly where the log
/// is legal.
pub fn illegal_lines_are_first()
    ensures { IllegalLinesAreFirst }
{}

/// A leg that goes on still does where a worker begins its part with an entry that it may make, within the steps.
pub fn first_entries_enter()
    ensures { FirstEntriesEnter }
{}

/// And where the worker of the last part makes one entry more that it may make.
pub fn next_entries_enter()
    ensures { NextEntriesEnter }
{}
