//! Each reason has its sentence, which is found by the line that says it.

use crate::sentences::{
    LINE_REASONS, WORKFLOW_REASONS, line_sentence, sentence_of, workflow_sentence,
};
use std::alloc::Global;
use std::test::Fail;

// Whether the sentence of a line is this one.
fn expect_sentence(alloc: Global, line: &str, sentence: &str) -> Result<(), Fail> {
    if sentence_of(line.as_bytes()) == Some(sentence) {
        return Ok(());
    }
    Err(Fail::new(format!(in alloc; "{line} has another sentence than {sentence}")?))
}

#[test]
fn each_reason_has_its_sentence(rt: HostRuntime) -> Result<(), Fail> {
    let alloc = rt.alloc();
    for why in WORKFLOW_REASONS {
        let word = why.word();
        let line = format!(in alloc; "error 2 flow 4 {word}\n")?;
        expect_sentence(alloc, line.as_str(), workflow_sentence(why))?;
    }
    for why in LINE_REASONS {
        let word = why.word();
        let line = format!(in alloc; "error 3 script 12 {word}\n")?;
        expect_sentence(alloc, line.as_str(), line_sentence(why))?;
        let refused = format!(in alloc; "refused 12 {word}")?;
        expect_sentence(alloc, refused.as_str(), line_sentence(why))?;
    }
    Ok(())
}

#[test]
fn each_error_line_has_its_sentence(rt: HostRuntime) -> Result<(), Fail> {
    let alloc = rt.alloc();
    let lines = [
        "error 1 usage\n",
        "error 2 flow 1 Header\n",
        "error 2 flow 0 LogName\n",
        "error 4 read my orders.csv\n",
        "error 5 log write\n",
        "error 7 log 10 Text\n",
        "error 7 log 2 Illegal\n",
        "error 7 log 2 Command\n",
        "error 8 long\n",
        "error 9 large input\n",
        "error 10 memory\n",
    ];
    for line in lines {
        if sentence_of(line.as_bytes()).is_none() {
            return Err(Fail::new(format!(in alloc; "{line} has no sentence")?));
        }
    }
    if sentence_of(b"rows 3\n").is_some() || sentence_of(b"").is_some() {
        return Err(Fail::new(format!(in alloc; "a line that refuses nothing has a sentence")?));
    }
    Ok(())
}
