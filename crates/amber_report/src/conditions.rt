//! Conditions as words of a line. Over `Cond` of `amber_rows`.

ghost use Rattle.std.specs.Prelude.{◌≡◌, ◌++◌, OnOk};
ghost use Rattle.std.specs.List.{flat_map};
ghost use Rattle.amber_rows.specs.Columns.{columns_at};
ghost use Rattle.amber_meaning.specs.Texts.{after_blank, column_name_at, cond_words};

use crate::words::{push_quoted, push_value, push_word};
use amber_log::sign;
use amber_rows::{Column, Cond, Flow};
use std::alloc::AllocError;

// The columns of an operator; none where there is no such operator.
fn columns_of(flow: &Flow, op: u32) -> &[Column]
    ensures { result.now ≡ columns_at flow.now op }
{
    match flow.operator(op) {
        Some(operator) => operator.schema.get(),
        None => &[],
    }
}

// The bytes of the name of an operator's column; none where there is no such column.
fn column_name(flow: &Flow, op: u32, column: u32) -> &[u8]
    ensures { result.now ≡ column_name_at flow.now op column }
{
    if column == 0 {
        return &[];
    }
    match columns_of(flow, op).get(column as usize - 1) {
        Some(found) => found.name.get().as_bytes(),
        None => &[],
    }
}

/// A blank before each: the column's name, the sign and the constant.
pub fn push_cond(text: &mut Vec<u8>, flow: &Flow, op: u32, cond: &Cond) -> Result<(), AllocError>
    ensures { OnOk result
        (text.new.items ≡ text.old.items
        ++ flat_map after_blank (cond_words flow.now op cond.now)) }
{
    push_quoted(text, column_name(flow, op, cond.column))?;
    push_word(text, sign(cond.op))?;
    push_value(text, &cond.constant)
}
