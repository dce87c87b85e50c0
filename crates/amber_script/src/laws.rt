//! Laws of the words of a line and of the lines of a text. Each function does nothing; its contract is the law.

ghost use Rattle.amber_script.specs.Laws.{QuotesReadBack, WordsStandBetweenBlanks};
ghost use Rattle.amber_script.specs.Lines.{LinesAreEndedOrOpen, LinesBeginAnew, LinesGoOn};

/// Texts in quotes, with their escapes, are read as the words that they are.
pub fn quotes_read_back()
    ensures { QuotesReadBack }
{}

/// The words of a line without quotes are what stands between its spaces and tabs.
pub fn words_stand_between_blanks()
    ensures { WordsStandBetweenBlanks }
{}

/// The lines of a text are those that a line feed ends, and then the open one.
pub fn lines_are_ended_or_open()
    ensures { LinesAreEndedOrOpen }
{}

/// Where a text goes on, the lines that were ended stay, and the open line goes on.
pub fn lines_go_on()
    ensures { LinesGoOn }
{}

/// Behind a line feed the lines are those of another text.
pub fn lines_begin_anew()
    ensures { LinesBeginAnew }
{}
