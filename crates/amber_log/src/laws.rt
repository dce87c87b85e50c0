//! Laws of the log's text. Each function does nothing; its contract is the law.

ghost use Rattle.amber_log.specs.Laws.{EachHasItsText, FrontsAreRead, NoItemBeginsAnother, ReadsWhatStands};
ghost use Rattle.amber_log.specs.TextLaws.{FailsAtFirstBadLine, TextsReadBack, WholeItemsAreLongest};

/// No item's text is a proper beginning of another's, so an item ends where its text does.
pub fn no_item_begins_another()
    ensures { NoItemBeginsAnother }
{}

/// A log's text that was cut off at any byte reads as the first of its items, or as the empty log.
pub fn fronts_are_read()
    ensures { FrontsAreRead }
{}

/// Reading a file line by line finds a log exactly where one stands in it, and that one.
pub fn reads_what_stands()
    ensures { ReadsWhatStands }
{}

/// Two logs of one text are the same.
pub fn each_has_its_text()
    ensures { EachHasItsText }
{}

/// Reading a file fails exactly where a line of its whole items cannot stand: the lines before it begin the
/// lines of some log, and with it they begin those of none. The number that it fails with is that line's,
/// from 1.
pub fn fails_at_first_bad_line()
    ensures { FailsAtFirstBadLine }
{}

/// What is read of a file is its longest beginning that is empty or ends with the first line, or with a line
/// that ends an item.
pub fn whole_items_are_longest()
    ensures { WholeItemsAreLongest }
{}

/// A log that has a text is what that text is read as.
pub fn texts_read_back()
    ensures { TextsReadBack }
{}
