//! The replies to commands that were done at once. Over `Effect` of `amber_log`.

ghost use Rattle.std.specs.Prelude.{◌≡◌, [], ◌∷◌, ◌++◌, codes, decimal, map, option_copied, IfOk, OnOk};
ghost use Rattle.std.specs.List.{flat_map};
ghost use Rattle.amber_log.specs.declared.effect.Action.TheVariants as action;
ghost use Rattle.amber_meaning.specs.Texts.{script_words, after_blank, argument_reply, drop_text, id_at, ok_text};
ghost use Rattle.amber_report.specs.Replies.{done_text, reply_text};

use crate::conditions::push_cond;
use crate::words::{end_line, id_of, push_number, push_value, push_word};
use amber_log::{Action, Argument, Command, Effect, Reply};
use amber_rows::{Bytes, Flow, Row, row_text};
use std::alloc::{AllocError, Global};

/// A blank before each word.
pub(crate) fn push_words(text: &mut Vec<u8>, words: &[&[u8]]) -> Result<(), AllocError>
    ensures { OnOk result (text.new.items
        ≡ text.old.items ++ flat_map after_blank (map (λ w. w.now) words.now)) }
{
    for word in words {
        push_word(text, word)?;
    }
    Ok(())
}

/// What a command says beside its operator.
pub(crate) fn push_argument(
    text: &mut Vec<u8>,
    flow: &Flow,
    op: u32,
    argument: &Argument<'_>,
) -> Result<(), AllocError>
    ensures { OnOk result (text.new.items
        ≡ text.old.items ++ flat_map after_blank (argument_reply flow.now op argument.now)) }
{
    match argument {
        Argument::Nothing => Ok(()),
        Argument::Rows(n) => push_number(text, *n),
        Argument::Worker(worker) => push_number(text, u64::from(*worker)),
        Argument::Constant(value) => push_value(text, value.get()),
        Argument::Condition(cond) => push_cond(text, flow, op, cond.get()),
    }
}

// The words of what is done at rest.
#[tactic(auto, using(crate::proofs::Lines::effect_words))]
fn push_effect(text: &mut Vec<u8>, flow: &Flow, effect: &Effect<'_>) -> Result<(), AllocError>
    ensures { OnOk result (text.new.items
        ≡ text.old.items ++ flat_map after_blank (script_words flow.now (action.AtRest effect.now))) }
{
    push_words(text, effect.words.get())?;
    push_word(text, id_of(flow, effect.op))?;
    push_argument(text, flow, effect.op, &effect.argument)
}

// The words of a command, as it stands in a script.
fn push_action(text: &mut Vec<u8>, flow: &Flow, action: &Action<'_>) -> Result<(), AllocError>
    ensures { OnOk result (text.new.items
        ≡ text.old.items ++ flat_map after_blank (script_words flow.now action.now)) }
{
    match action {
        Action::Leg { to_end: false } => push_word(text, b"run"),
        Action::Leg { to_end: true } => push_word(text, b"end"),
        Action::AtRest(effect) => push_effect(text, flow, effect),
    }
}

// A drop, its operator and its worker.
fn push_drop(text: &mut Vec<u8>, flow: &Flow, op: u32, worker: u32) -> Result<(), AllocError>
    ensures { OnOk result (text.new.items
        ≡ text.old.items ++ flat_map after_blank
        (codes "drop" ∷ id_at flow.now op ∷ decimal worker ∷ [])) }
{
    push_word(text, b"drop")?;
    push_word(text, id_of(flow, op))?;
    push_number(text, u64::from(worker))
}

// That a row was dropped, and which, or that there was none.
#[tactic(auto, unfolding(amber_meaning::specs::Texts::drop_text, amber_meaning::specs::Texts::words_before, amber_meaning::specs::Texts::words_line))]
fn push_dropped(
    alloc: Global,
    text: &mut Vec<u8>,
    flow: &Flow,
    op: u32,
    worker: u32,
    dropped: Option<&Row>,
) -> Result<(), AllocError>
    ensures { OnOk result (text.new.items
        ≡ text.old.items ++ drop_text flow.now op worker (option_copied dropped.entry)) }
{
    let Some(row) = dropped else {
        text.extend_from_slice(b"none")?;
        push_drop(text, flow, op, worker)?;
        return end_line(text);
    };
    text.extend_from_slice(b"ok")?;
    push_drop(text, flow, op, worker)?;
    push_word(text, row_text(alloc, row)?.as_slice())
}

// That a command was done.
#[tactic(auto, using(crate::proofs::Lines::whole_line), unfolding(amber_meaning::specs::Texts::ok_text))]
fn push_done(text: &mut Vec<u8>, flow: &Flow, command: &Command) -> Result<(), AllocError>
    ensures { OnOk result (text.new.items ≡ text.old.items ++ ok_text flow.now command.now) }
{
    text.extend_from_slice(b"ok")?;
    push_action(text, flow, &command.action())?;
    end_line(text)
}

// The reply to a command with this effect.
fn push_reply(
    alloc: Global,
    text: &mut Vec<u8>,
    flow: &Flow,
    command: &Command,
    effect: &Effect<'_>,
    dropped: Option<&Row>,
) -> Result<(), AllocError>
    ensures { OnOk result (text.new.items ≡ text.old.items
        ++ reply_text flow.now command.now (option_copied dropped.entry) effect.now) }
{
    match effect.reply {
        Reply::Done | Reply::Shown => push_done(text, flow, command),
        Reply::Dropped => match effect.drops {
            None => Ok(()),
            Some(worker) => push_dropped(alloc, text, flow, effect.op, worker, dropped),
        },
    }
}

/// The reply to a command that was done at once: `ok` and the command as a script has it. To a drop it is
/// `ok` and the row that was dropped, or `none` where nobody was held.
pub fn ok_line(
    alloc: Global,
    flow: &Flow,
    command: &Command,
    dropped: Option<&Row>,
) -> Result<Bytes, AllocError>
    ensures { IfOk result
        (λ text. text ≡ done_text flow.now command.now (option_copied dropped.entry)) }
{
    let mut text = Vec::new(alloc);
    match command.action() {
        Action::Leg { to_end: _ } => push_done(&mut text, flow, command)?,
        Action::AtRest(effect) => {
            push_reply(alloc, &mut text, flow, command, &effect, dropped)?;
        }
    }
    Ok(Bytes::new(text))
}
