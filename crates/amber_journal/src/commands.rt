//! Writes the lines of commands. Over `Effect` of `amber_log`.

ghost use Rattle.std.specs.Prelude.{◌≡◌, ◌∷◌, ◌++◌, OnOk};
ghost use Rattle.std.specs.List.{flat_map};
ghost use Rattle.amber_log.specs.Grammar.{IsCommand};
ghost use Rattle.amber_log.specs.LogText.{line_text};
ghost use Rattle.amber_log.specs.Words.{argument_words, constant_word};
ghost use Rattle.amber_log.specs.declared.effect.Argument.{Argument};
ghost use Rattle.amber_journal.specs.Written.{after_space, effect_line};
ghost use Rattle.amber_log.specs.declared.line.Line.{Line};

use crate::lines::push_number;
use amber_log::{Action, Argument, Command, Effect, sign};
use amber_rows::{Cond, Value};
use itoa::Buffer;
use std::alloc::{AllocError, Global};

/// A space and a constant.
fn push_constant(alloc: Global, out: &mut Vec<u8>, constant: &Value) -> Result<(), AllocError>
    ensures { OnOk result (out.new.items ≡ out.old.items ++ 32 ∷ constant_word constant.now) }
{
    match constant {
        Value::Int(number) => {
            let mut buffer = Buffer::new();
            out.extend_from_slice(b" i")?;
            out.extend_from_slice(buffer.format(*number).as_bytes())
        }
        Value::Text(text) => {
            let digits = hex::encode(alloc, text.get().as_bytes())?;
            out.extend_from_slice(b" t")?;
            out.extend_from_slice(digits.as_bytes())
        }
    }
}

/// A space before each: a column, a sign and a constant.
fn push_condition(alloc: Global, out: &mut Vec<u8>, cond: &Cond) -> Result<(), AllocError>
    ensures { OnOk result (out.new.items
        ≡ out.old.items ++ flat_map after_space (argument_words (Argument.Condition cond.now))) }
{
    push_number(out, u64::from(cond.column))?;
    out.push(b' ')?;
    out.extend_from_slice(sign(cond.op))?;
    push_constant(alloc, out, &cond.constant)
}

/// A space before each word that a command says beside its operator.
fn push_argument(
    alloc: Global,
    out: &mut Vec<u8>,
    argument: &Argument<'_>,
) -> Result<(), AllocError>
    ensures { OnOk result (out.new.items
        ≡ out.old.items ++ flat_map after_space (argument_words argument.now)) }
{
    match argument {
        Argument::Nothing => Ok(()),
        Argument::Rows(n) => push_number(out, *n),
        Argument::Worker(worker) => push_number(out, u64::from(*worker)),
        Argument::Constant(value) => push_constant(alloc, out, value.get()),
        Argument::Condition(cond) => push_condition(alloc, out, cond.get()),
    }
}

/// The line of what is done at rest.
#[tactic(auto, using(crate::proofs::ItemText::line_of_effect))]
fn push_effect(alloc: Global, out: &mut Vec<u8>, effect: &Effect<'_>) -> Result<(), AllocError>
    ensures { OnOk result (out.new.items ≡ out.old.items ++ effect_line effect.now) }
{
    out.extend_from_slice(b"do ")?;
    out.extend_from_slice(effect.name.get())?;
    push_number(out, u64::from(effect.op))?;
    push_argument(alloc, out, &effect.argument)?;
    out.extend_from_slice(b"\n")
}

/// The line of a command.
pub fn push_command(alloc: Global, out: &mut Vec<u8>, command: &Command) -> Result<(), AllocError>
    requires { IsCommand command.now }
    ensures { OnOk result (out.new.items ≡ out.old.items ++ line_text (Line.Do command.now)) }
{
    match command.action() {
        Action::Leg { to_end: _ } => unreachable!(),
        Action::AtRest(effect) => push_effect(alloc, out, &effect),
    }
}
