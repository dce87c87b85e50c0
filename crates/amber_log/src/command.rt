//! The commands to a paused run, and what each does, beside the definitions in `specs/Commands/`.

ghost use Rattle.std.specs.Prelude.{◌≡◌};
ghost use Rattle.amber_log.specs.Effect.{done_at, no_change};
ghost use Rattle.amber_log.specs.Commands.{action_of};
ghost use Rattle.amber_log.specs.Commands.Clear.{clear};
ghost use Rattle.amber_log.specs.Commands.Count.{count};
ghost use Rattle.amber_log.specs.Commands.Drop.{drop};
ghost use Rattle.amber_log.specs.Commands.Inspect.{inspect};
ghost use Rattle.amber_log.specs.Commands.Lose.{lose};
ghost use Rattle.amber_log.specs.Commands.Pause.{pause};
ghost use Rattle.amber_log.specs.Commands.Set.{set};
ghost use Rattle.amber_log.specs.Commands.When.{stop_when};

use crate::effect::{Action, Argument, Arming, Change, Effect, Reply};
use crate::lent::{Lent, Word, Words};
use amber_rows::{Cond, Value};
use std::alloc::AllocError;
use std::marker::Model;

/// A command to a paused run. Operators and columns are numbered from 1, an operator's workers from 0.
pub enum Command {
    /// Runs until something stops the workers. A log keeps this as a leg.
    Run,
    /// Runs to the end of the workflow. A log keeps this as a leg.
    End,
    /// Stops once the operator has emitted `n` rows since the start.
    Pause { op: u32, n: u64 },
    /// Stops once the operator has emitted `n` rows from here on, and not one more.
    Count { op: u32, n: u64 },
    /// Stops at each row of the operator for which the condition holds, before it is emitted.
    When { op: u32, cond: Cond },
    /// Takes back all that was asked to stop at this operator.
    Clear { op: u32 },
    /// Changes the constant of a filter for rows that are taken from here on.
    Set { op: u32, value: Value },
    /// Drops the row that a held worker was about to emit.
    Drop { op: u32, worker: u32 },
    /// Shows how far an operator's workers are.
    Inspect { op: u32 },
    /// Loses a worker, which is then built again from the log.
    Lose { op: u32, worker: u32 },
}

impl Drop for Command {
    fn drop(self) {
        match self {
            Command::Run => {}
            Command::End => {}
            Command::Pause { op: _, n: _ } => {}
            Command::Count { op: _, n: _ } => {}
            Command::When { op: _, cond: _ } => {}
            Command::Clear { op: _ } => {}
            Command::Set { op: _, value: _ } => {}
            Command::Drop { op: _, worker: _ } => {}
            Command::Inspect { op: _ } => {}
            Command::Lose { op: _, worker: _ } => {}
        }
    }
}

impl Clone for Command {
    ghost is_clone = { λ a copy. copy ≡ a };

    fn clone(&self) -> Result<Self, AllocError> {
        match self {
            Command::Run => Ok(Command::Run),
            Command::End => Ok(Command::End),
            Command::Pause { op, n } => Ok(Command::Pause { op: *op, n: *n }),
            Command::Count { op, n } => Ok(Command::Count { op: *op, n: *n }),
            Command::When { op, cond } => Ok(Command::When {
                op: *op,
                cond: cond.clone()?,
            }),
            Command::Clear { op } => Ok(Command::Clear { op: *op }),
            Command::Set { op, value } => Ok(Command::Set {
                op: *op,
                value: value.clone()?,
            }),
            Command::Drop { op, worker } => Ok(Command::Drop {
                op: *op,
                worker: *worker,
            }),
            Command::Inspect { op } => Ok(Command::Inspect { op: *op }),
            Command::Lose { op, worker } => Ok(Command::Lose {
                op: *op,
                worker: *worker,
            }),
        }
    }
}

impl Command {
    /// What a command does. Commands are told apart only here.
    pub fn action(&self) -> Action<'_>
        ensures { result ≡ action_of self.now }
    {
        match self {
            Command::Run => Action::Leg { to_end: false },
            Command::End => Action::Leg { to_end: true },
            Command::Pause { op, n } => Action::AtRest(pause(*op, *n)),
            Command::Count { op, n } => Action::AtRest(count(*op, *n)),
            Command::When { op, cond } => Action::AtRest(stop_when(*op, cond)),
            Command::Clear { op } => Action::AtRest(clear(*op)),
            Command::Set { op, value } => Action::AtRest(set(*op, value)),
            Command::Drop { op, worker } => Action::AtRest(drop(*op, *worker)),
            Command::Inspect { op } => Action::AtRest(inspect(*op)),
            Command::Lose { op, worker } => Action::AtRest(lose(*op, *worker)),
        }
    }
}

// All stays as it is.
fn no_change<'a>() -> Arming<'a>
    ensures { result ≡ no_change }
{
    Arming {
        pause: Change::Keep,
        count: Change::Keep,
        when: Change::Keep,
        constant: None,
    }
}

// At this operator, nothing is said, changed or lost, and it is replied that it was done.
fn done_at<'a>(op: u32) -> Effect<'a>
    ensures { result ≡ done_at op }
{
    Effect {
        name: Word::new(b""),
        words: Words::new(&[]),
        op,
        argument: Argument::Nothing,
        alters: false,
        arming: no_change(),
        drops: None,
        loses: None,
        reply: Reply::Done,
    }
}

fn pause<'a>(op: u32, n: u64) -> Effect<'a>
    ensures { result ≡ pause op n }
{
    Effect {
        name: Word::new(b"pause"),
        words: Words::new(&[b"pause"]),
        argument: Argument::Rows(n),
        arming: Arming {
            pause: Change::Put(n),
            ..no_change()
        },
        ..done_at(op)
    }
}

fn count<'a>(op: u32, n: u64) -> Effect<'a>
    ensures { result ≡ count op n }
{
    Effect {
        name: Word::new(b"count"),
        words: Words::new(&[b"break", b"count"]),
        argument: Argument::Rows(n),
        arming: Arming {
            count: Change::Put(n),
            ..no_change()
        },
        ..done_at(op)
    }
}

fn stop_when(op: u32, cond: &Cond) -> Effect<'_>
    ensures { result ≡ stop_when op cond.now }
{
    Effect {
        name: Word::new(b"when"),
        words: Words::new(&[b"break", b"when"]),
        argument: Argument::Condition(Lent::new(cond)),
        arming: Arming {
            when: Change::Put(Lent::new(cond)),
            ..no_change()
        },
        ..done_at(op)
    }
}

fn clear<'a>(op: u32) -> Effect<'a>
    ensures { result ≡ clear op }
{
    Effect {
        name: Word::new(b"clear"),
        words: Words::new(&[b"clear"]),
        arming: Arming {
            pause: Change::TakeBack,
            count: Change::TakeBack,
            when: Change::TakeBack,
            ..no_change()
        },
        ..done_at(op)
    }
}

fn set(op: u32, value: &Value) -> Effect<'_>
    ensures { result ≡ set op value.now }
{
    Effect {
        name: Word::new(b"set"),
        words: Words::new(&[b"set"]),
        argument: Argument::Constant(Lent::new(value)),
        alters: true,
        arming: Arming {
            constant: Some(Lent::new(value)),
            ..no_change()
        },
        ..done_at(op)
    }
}

fn drop<'a>(op: u32, worker: u32) -> Effect<'a>
    ensures { result ≡ drop op worker }
{
    Effect {
        name: Word::new(b"drop"),
        words: Words::new(&[b"drop"]),
        argument: Argument::Worker(worker),
        alters: true,
        drops: Some(worker),
        reply: Reply::Dropped,
        ..done_at(op)
    }
}

fn inspect<'a>(op: u32) -> Effect<'a>
    ensures { result ≡ inspect op }
{
    Effect {
        name: Word::new(b"inspect"),
        words: Words::new(&[b"inspect"]),
        reply: Reply::Shown,
        ..done_at(op)
    }
}

fn lose<'a>(op: u32, worker: u32) -> Effect<'a>
    ensures { result ≡ lose op worker }
{
    Effect {
        name: Word::new(b"lose"),
        words: Words::new(&[b"lose"]),
        argument: Argument::Worker(worker),
        loses: Some(worker),
        ..done_at(op)
    }
}

/// Commands in the order in which they are given, seen as a list.
pub struct Commands {
    inner: Vec<Command>,
}

impl Drop for Commands {
    fn drop(self) {
        let Commands { inner: _ } = self;
    }
}

impl Model for Commands {
    ghost use Rattle.std.specs.Prelude.{List};
    ghost use Rattle.amber_log.specs.declared.command.Command.{Command as OneCommand};

    ghost Value = { List OneCommand };

    ghost view = { λ a. a.inner.items };
}

impl Commands {
    /// The commands of a `Vec`, in its order.
    pub fn new(inner: Vec<Command>) -> Self
        ensures { result ≡ inner.items }
    {
        Commands { inner }
    }

    /// The commands as a slice.
    pub fn get(&self) -> &[Command]
        ensures { result.now ≡ self.now }
    {
        self.inner.as_slice()
    }

    /// The commands as the `Vec` of which they were made.
    pub fn into_vec(self) -> Vec<Command>
        ensures { result.items ≡ self }
    {
        let Commands { inner } = self;
        inner
    }
}
