//! What is told at a terminal, beside the output. Rests on the standard error and on the atomics of std.

use std::sync::atomic::{AtomicBool, Ordering};

// It takes back the line on which the cursor stands.
const TAKE_BACK: &str = "\r\u{1b}[K";

/// What can be told of a workflow's operators: which there are, and their columns.
#[derive(Drop)]
pub struct Operators {
    pub names: String,
    pub columns: String,
}

/// What is told at a terminal, on the standard error; nothing where there is none. Threads may share it.
#[derive(Drop)]
pub struct Screen<'r, R> {
    rt: &'r R,
    terminal: bool,
    operators: Option<Operators>,
    // Whether a line stands that tells of work.
    at_work: AtomicBool,
}

impl<'r, R: Eprint> Screen<'r, R> {
    /// A screen on which nothing stands.
    pub fn new(rt: &'r R, terminal: bool, operators: Option<Operators>) -> Screen<'r, R> {
        Screen {
            rt,
            terminal,
            operators,
            at_work: AtomicBool::new(false),
        }
    }

    /// Whether anything is told.
    pub fn is_on(&self) -> bool {
        self.terminal
    }

    // Puts a text. Where that fails nothing is told, and nothing else changes.
    fn put(&self, text: &str) {
        if self.terminal {
            let _ = self.rt.eprint(text);
        }
    }

    /// Takes the line back that tells of work, if one stands.
    pub fn clear(&self) {
        if self.at_work.swap(false, Ordering::SeqCst) {
            self.put(TAKE_BACK);
        }
    }

    /// Tells something.
    pub fn tell(&self, text: &str) {
        self.clear();
        self.put(text);
    }

    /// Tells what a refusal means.
    pub fn explain(&self, sentence: &str) {
        self.tell(sentence);
        self.put("\n");
    }

    /// Tells which operators there are.
    pub fn tell_operators(&self) {
        if let Some(operators) = &self.operators {
            self.put(operators.names.as_str());
        }
    }

    /// Tells which columns they have.
    pub fn tell_columns(&self) {
        if let Some(operators) = &self.operators {
            self.put(operators.columns.as_str());
        }
    }

    /// Tells that a leg is at work, if that is not told already.
    pub fn tell_work(&self) {
        if self.terminal && !self.at_work.swap(true, Ordering::SeqCst) {
            self.put("at work ..");
        }
    }
}
