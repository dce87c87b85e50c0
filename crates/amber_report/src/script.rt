//! Commands as lines of a script. Over `Effect` of `amber_log`.

ghost use Rattle.std.specs.Prelude.{◌≡◌, [], ◌∷◌, ◌++◌, codes, map, OnOk};
ghost use Rattle.amber_log.specs.declared.effect.Action.TheVariants as action;
ghost use Rattle.amber_meaning.specs.Texts.{script_words, words_line};
ghost use Rattle.amber_report.specs.Scripts.{joined, script_line};

use crate::ok::{push_argument, push_words};
use crate::words::{end_line, id_of, push_word};
use amber_log::{Action, Command, Effect};
use amber_rows::Flow;
use std::alloc::AllocError;

// Words and one more, with a blank between each two.
fn push_joined(text: &mut Vec<u8>, words: &[&[u8]], last: &[u8]) -> Result<(), AllocError>
    ensures { OnOk result (text.new.items
        ≡ text.old.items ++ joined (map (λ w. w.now) words.now ++ last.now ∷ [])) }
{
    match words {
        [] => text.extend_from_slice(last),
        [first, more @ ..] => {
            text.extend_from_slice(first)?;
            push_words(text, more)?;
            push_word(text, last)
        }
    }
}

// The line of what is done at rest.
#[tactic(auto, using(crate::proofs::Scripts::effect_line))]
fn push_effect_line(text: &mut Vec<u8>, flow: &Flow, effect: &Effect<'_>) -> Result<(), AllocError>
    ensures { OnOk result (text.new.items
        ≡ text.old.items ++ words_line (script_words flow.now (action.AtRest effect.now))) }
{
    push_joined(text, effect.words.get(), id_of(flow, effect.op))?;
    push_argument(text, flow, effect.op, &effect.argument)?;
    end_line(text)
}

/// Adds the line of a command, as it stands in a script: its words with one blank between each two. That a run
/// goes to its end is no line of a script; its word is `end`.
#[tactic(auto, unfolding(crate::specs::Scripts::script_line, amber_meaning::specs::Texts::words_line))]
pub fn push_script_line(
    text: &mut Vec<u8>,
    flow: &Flow,
    command: &Command,
) -> Result<(), AllocError>
    ensures { OnOk result
        (text.new.items ≡ text.old.items ++ script_line flow.now command.now) }
{
    match command.action() {
        Action::Leg { to_end: false } => text.extend_from_slice(b"run\n"),
        Action::Leg { to_end: true } => text.extend_from_slice(b"end\n"),
        Action::AtRest(effect) => push_effect_line(text, flow, &effect),
    }
}
