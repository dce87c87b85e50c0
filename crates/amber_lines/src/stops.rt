//! The stops that are kept after a leg. Each function does nothing; its contract is the law, stated in
//! `specs/KeptStops.antt`.

ghost use Rattle.amber_lines.specs.KeptStops.{CommandsKeepStops, KeptStopsWereReplied, LegsKeepTheirStops, NoStopsAtFirst};

/// Before the first leg no stops are kept.
pub fn no_stops_at_first()
    ensures { NoStopsAtFirst }
{}

/// A command changes nothing of the stops that are kept.
pub fn commands_keep_stops()
    ensures { CommandsKeepStops }
{}

/// After a leg of a legal log the stops of the state that its workers reached are kept, also those that its
/// end took away.
pub fn legs_keep_their_stops()
    ensures { LegsKeepTheirStops }
{}

/// What was replied to a leg that was cut is the text of the stops that are kept after it.
pub fn kept_stops_were_replied()
    ensures { KeptStopsWereReplied }
{}
