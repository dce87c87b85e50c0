//! The sentences, by the reasons of readers and by the words of lines. Rests on `FlowWhy` and `ScriptWhy`.

use amber_flow::FlowWhy;
use amber_script::ScriptWhy;

// The reasons for which a workflow is refused.
pub(crate) const WORKFLOW_REASONS: [FlowWhy; 13] = [
    FlowWhy::Json,
    FlowWhy::Shape,
    FlowWhy::Count,
    FlowWhy::Name,
    FlowWhy::Duplicate,
    FlowWhy::Kind,
    FlowWhy::Workers,
    FlowWhy::Forward,
    FlowWhy::Column,
    FlowWhy::Mismatch,
    FlowWhy::Wide,
    FlowWhy::SinkPlace,
    FlowWhy::Readers,
];

// The reasons for which a line is no command.
pub(crate) const LINE_REASONS: [ScriptWhy; 7] = [
    ScriptWhy::Word,
    ScriptWhy::Operator,
    ScriptWhy::Kind,
    ScriptWhy::Number,
    ScriptWhy::Column,
    ScriptWhy::Mismatch,
    ScriptWhy::Worker,
];

/// Why a workflow was refused, in a sentence.
pub fn workflow_sentence(why: FlowWhy) -> &'static str {
    match why {
        FlowWhy::Json => "The workflow is no JSON text.",
        FlowWhy::Shape =>
            "A part of the workflow is missing, is unknown, or has another form than it must.",
        FlowWhy::Count => "A workflow has 2 to 32 operators, with at most 128 workers in all.",
        FlowWhy::Name => "An id is a small letter, and then up to 31 small letters, digits and _.",
        FlowWhy::Duplicate => "An id, or the name of a column, stands twice.",
        FlowWhy::Kind => "An operator is a scan, a filter, a project, a join, a group or a sink.",
        FlowWhy::Workers => "An operator has 1 to 16 workers, and a sink has one.",
        FlowWhy::Forward => "An input is the id of an operator that stands before.",
        FlowWhy::Column => "The input has no column of this name.",
        FlowWhy::Mismatch =>
            "A constant, or what is added up or joined, is of another kind than its column.",
        FlowWhy::Wide => "An operator gives 1 to 64 columns.",
        FlowWhy::SinkPlace => "A workflow has one sink, which comes last.",
        FlowWhy::Readers => "Each operator but the sink is the input of exactly one other.",
    }
}

/// Why a line of a script, or of a session, was refused, in a sentence.
pub fn line_sentence(why: ScriptWhy) -> &'static str {
    match why {
        ScriptWhy::Word => "These words are no command.",
        ScriptWhy::Operator => "There is no operator with this id.",
        ScriptWhy::Kind => "The command is not for an operator of this kind.",
        ScriptWhy::Number =>
            "A number is written in digits, without leading zeros, and is in its range.",
        ScriptWhy::Column => "The operator has no column of this name.",
        ScriptWhy::Mismatch => "The value is not of its column's kind.",
        ScriptWhy::Worker => "The operator has no worker of this number.",
    }
}

// The words of a line, up to its fourth space: the first, and what comes behind it.
fn cut(line: &[u8]) -> (&[u8], &[u8]) {
    for place in 0..line.len() {
        if line[place] == b' ' {
            return (&line[..place], &line[place + 1..]);
        }
    }
    (line, &[])
}

// The sentence of a workflow's reason, by its word.
fn of_workflow(word: &[u8]) -> Option<&'static str> {
    match word {
        b"Header" => Some(
            "The file of a scan does not begin with the names of the scan's columns.",
        ),
        b"LogName" => Some("The log is the file of the workflow or of a scan."),
        _ => {
            for why in WORKFLOW_REASONS {
                if why.word().as_bytes() == word {
                    return Some(workflow_sentence(why));
                }
            }
            None
        }
    }
}

// The sentence of a line's reason, by its word.
fn of_line(word: &[u8]) -> Option<&'static str> {
    for why in LINE_REASONS {
        if why.word().as_bytes() == word {
            return Some(line_sentence(why));
        }
    }
    None
}

// The sentence of a log's reason, by its word.
fn of_log(word: &[u8]) -> Option<&'static str> {
    match word {
        b"Text" => Some("The line is none that may stand there in a log."),
        b"Illegal" => Some("The line may not stand there in a log of this workflow."),
        b"Command" => Some("From this line on the log has other commands than the script."),
        _ => None,
    }
}

// The sentence of an error line, by the words behind `error`.
fn of_error(words: &[u8]) -> Option<&'static str> {
    let (code, about) = cut(words);
    let (_what, rest) = cut(about);
    let (_number, why) = cut(rest);
    match code {
        b"1" => Some("The words are no form of a call."),
        b"2" => of_workflow(why),
        b"3" => of_line(why),
        b"4" => Some("It is not there, or it cannot be read."),
        b"5" => Some("The log cannot be made or written, or it is one of the files that are read."),
        b"7" => of_log(why),
        b"8" => Some("The work went past 2^40 rows or steps."),
        b"9" => Some("It is larger than it may be."),
        b"10" => Some("Memory ran out."),
        _ => None,
    }
}

/// The sentence behind a line, with its line feed or without, where it reports a refusal.
pub fn sentence_of(line: &[u8]) -> Option<&'static str> {
    let text = match line.split_last() {
        Some((b'\n', text)) => text,
        _ => line,
    };
    let (first, rest) = cut(text);
    match first {
        b"error" => of_error(rest),
        b"refused" => {
            let (_number, why) = cut(rest);
            of_line(why)
        }
        _ => None,
    }
}
