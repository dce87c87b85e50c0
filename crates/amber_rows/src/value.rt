//! The cell of a row: a number or a text. Rests on `Text`.

ghost use Rattle.std.specs.Prelude.{◌≡◌, OnOk, Some};
ghost use Rattle.amber_rows.specs.RowText.{value_text};
ghost use Rattle.amber_rows.specs.declared.value.Value.TheVariants as value;

use crate::text::Text;
use std::alloc::{AllocError, Global};
use std::fmt;

/// One cell of a row: a whole number or a text. Numbers come before texts, numbers by size, texts by bytes.
#[derive(PartialEq, Eq, PartialOrd, Ord)]
pub enum Value {
    Int(i64),
    Text(Text),
}

impl Drop for Value {
    fn drop(self) {
        match self {
            Value::Int(_) => {}
            Value::Text(_) => {}
        }
    }
}

impl Value {
    /// Makes it a cell of this text, in the room of the text that it was.
    pub fn set_text(&mut self, alloc: Global, text: &str) -> Result<(), AllocError>
        ensures { OnOk result (self.new ≡ value.Text text.now) }
    {
        match self {
            Value::Text(room) => room.set(alloc, text)?,
            Value::Int(_) => *self = Value::Text(Text::new(alloc, text)?),
        }
        Ok(())
    }

    /// Makes it a cell equal to another one, in the room of the text that it was.
    pub fn set(&mut self, alloc: Global, cell: &Value) -> Result<(), AllocError>
        ensures { OnOk result (self.new ≡ cell.now) }
    {
        match cell {
            Value::Int(number) => *self = Value::Int(*number),
            Value::Text(text) => self.set_text(alloc, text.get())?,
        }
        Ok(())
    }
}

impl Clone for Value {
    ghost is_clone = { λ a copy. copy ≡ a };

    fn clone(&self) -> Result<Self, AllocError> {
        match self {
            Value::Int(number) => Ok(Value::Int(*number)),
            Value::Text(text) => Ok(Value::Text(text.clone()?)),
        }
    }
}

impl fmt::Display for Value {
    ghost output = { λ value. Some (value_text value) };

    fn fmt<W: fmt::Write>(&self, f: &mut fmt::Formatter<W>) -> fmt::Result {
        match self {
            Value::Int(number) => write!(f, "{number}"),
            Value::Text(text) => write!(f, "{text}"),
        }
    }
}
