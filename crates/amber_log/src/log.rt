//! A log and its items. Rests on `Command` and `Leg`.

ghost use Rattle.std.specs.Prelude.{◌≡◌, ◌++◌, ◌∷◌, [], OnErr, OnOk};

use crate::command::Command;
use crate::leg::Leg;
use std::alloc::AllocError;
use std::marker::Model;

/// An item of a log: a command, or a leg that a command to run began.
pub enum Item {
    /// A command other than those that run.
    Do(Command),
    /// A leg that goes on until something stops the workers.
    Run(Leg),
    /// A leg that goes on to the end of the workflow.
    End(Leg),
}

impl Drop for Item {
    fn drop(self) {
        match self {
            Item::Do(_) => {}
            Item::Run(_) => {}
            Item::End(_) => {}
        }
    }
}

/// The items of a log in their order, seen as a list.
pub struct Items {
    inner: Vec<Item>,
}

impl Drop for Items {
    fn drop(self) {
        let Items { inner: _ } = self;
    }
}

impl Model for Items {
    ghost use Rattle.std.specs.Prelude.{List};
    ghost use Rattle.amber_log.specs.declared.log.Item.{Item as OneItem};

    ghost Value = { List OneItem };

    ghost view = { λ a. a.inner.items };
}

impl Items {
    /// The items of a `Vec`, in its order.
    pub fn new(inner: Vec<Item>) -> Self
        ensures { result ≡ inner.items }
    {
        Items { inner }
    }

    /// The items as a slice.
    pub fn get(&self) -> &[Item]
        ensures { result.now ≡ self.now }
    {
        self.inner.as_slice()
    }

    /// Appends an item.
    pub fn push(&mut self, item: Item) -> Result<(), AllocError>
        ensures ok { OnOk result (self.new ≡ self.old ++ item ∷ []) }
        ensures err { OnErr result (self.new ≡ self.old) }
    {
        self.inner.push(item)?;
        Ok(())
    }

    /// The items as the `Vec` of which they were made.
    pub fn into_vec(self) -> Vec<Item>
        ensures { result.items ≡ self }
    {
        let Items { inner } = self;
        inner
    }
}

/// A log: how many rows a batch has, from 1 to 65,536, and what happened.
pub struct Log {
    pub batch: u32,
    pub items: Items,
}

impl Drop for Log {
    fn drop(self) {
        let Log { batch: _, items: _ } = self;
    }
}
