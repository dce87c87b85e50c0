//! What there is to say of a command that is done at rest. Rests on `Lent` for what it borrows.

use crate::lent::{Lent, Word, Words};
use amber_rows::{Cond, Value};

/// What a command says beside the operator that it names.
#[derive(Drop)]
pub enum Argument<'a> {
    Nothing,
    /// A number of rows.
    Rows(u64),
    /// One of the operator's workers.
    Worker(u32),
    Constant(Lent<'a, Value>),
    Condition(Lent<'a, Cond>),
}

/// What becomes of something that may be in force.
#[derive(Drop)]
pub enum Change<A> {
    /// It stays as it is.
    Keep,
    /// It is taken back.
    TakeBack,
    /// Another takes its place.
    Put(A),
}

/// What becomes of what is in force at an operator.
#[derive(Drop)]
pub struct Arming<'a> {
    pub pause: Change<u64>,
    pub count: Change<u64>,
    pub when: Change<Lent<'a, Cond>>,
    pub constant: Option<Lent<'a, Value>>,
}

/// What is replied.
#[derive(Clone, Copy)]
pub enum Reply {
    /// That it was done.
    Done,
    /// The row that was dropped.
    Dropped,
    /// What the operator shows.
    Shown,
}

/// What a command does that is done at rest.
#[derive(Drop)]
pub struct Effect<'a> {
    /// Its word in a log.
    pub name: Word,
    /// The words before its operator in a script.
    pub words: Words,
    pub op: u32,
    pub argument: Argument<'a>,
    /// Whether it changes what comes out.
    pub alters: bool,
    /// What it changes at its operator.
    pub arming: Arming<'a>,
    /// The worker whose held row it drops.
    pub drops: Option<u32>,
    /// The worker that it loses.
    pub loses: Option<u32>,
    pub reply: Reply,
}

/// What a command does.
#[derive(Drop)]
pub enum Action<'a> {
    /// A leg, up to a stop or to the end.
    Leg { to_end: bool },
    /// Something that is done at rest.
    AtRest(Effect<'a>),
}
