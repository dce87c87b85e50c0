//! Which commands have a text. Over `Command`.

ghost use Rattle.std.specs.Prelude.{◌≡◌, ◌<◌, ◌^◌, true};
ghost use Rattle.std.specs.Str.{is_utf8};
ghost use Rattle.amber_rows.specs.Number.{fits_i64};
ghost use Rattle.amber_log.specs.Grammar.{HasWords, IsArgument, IsNoLeg, IsCommand, IsConstant, IsKeptAsLine};

use crate::command::Command;
use crate::effect::{Action, Argument};
use amber_rows::Value;

fn fits_32(number: u32)
    ensures { number < 2 ^ 32 }
{}

fn fits_64(number: u64)
    ensures { number < 2 ^ 64 }
{}

fn fits_signed(number: i64)
    ensures { fits_i64 number ≡ true }
{}

fn is_text(text: &str)
    ensures { is_utf8 text.now ≡ true }
{}

// A constant has a text.
fn constants_have_text(constant: &Value)
    ensures { IsConstant constant.now }
{
    match constant {
        Value::Int(number) => fits_signed(*number),
        Value::Text(text) => is_text(text.get()),
    }
}

// What a command says beside its operator has a text.
fn arguments_have_text(argument: &Argument<'_>)
    ensures { IsArgument argument.now }
{
    match argument {
        Argument::Nothing => {}
        Argument::Rows(n) => fits_64(*n),
        Argument::Worker(worker) => fits_32(*worker),
        Argument::Constant(value) => constants_have_text(value.get()),
        Argument::Condition(cond) => {
            let cond = cond.get();
            fits_32(cond.column);
            constants_have_text(&cond.constant);
        }
    }
}

/// A command has a text unless it runs, so it may stand in a log. It does nothing; its
/// contract is the law.
pub fn commands_have_text(command: &Command)
    requires { IsKeptAsLine command.now }
    ensures { IsCommand command.now }
{
    match command.action() {
        Action::Leg { to_end: _ } => unreachable!(),
        Action::AtRest(effect) => {
            fits_32(effect.op);
            arguments_have_text(&effect.argument);
        }
    }
}
