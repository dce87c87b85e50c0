//! Conditions on the columns of an operator, word by word. Over `Column` and `Cond` of `amber_rows`.

ghost use Rattle.std.specs.Prelude.{◌≡◌, ◌<◌, ◌≤◌, bytes_eq, length, position, true, IfOk, IfSome};
ghost use Rattle.amber_rows.specs.Lists.{nth};
ghost use Rattle.amber_rows.specs.Columns.{column_kind_at, kind_of};
ghost use Rattle.amber_rows.specs.Suits.{same_kind};
ghost use Rattle.amber_log.specs.Fits.{is_cell_of};
ghost use Rattle.amber_log.specs.Operands.{comparison_of};
ghost use Rattle.amber_script.specs.Answers.{AnswersWords};
ghost use Rattle.amber_script.specs.Commands.{number_of_column, condition_on, script_constant};

use crate::error::{ReadErr, ScriptWhy};
use amber_rows::{Cmp, ColKind, Column, Cond, Text, Value, read_int};

/// The comparison with this sign.
#[tactic(auto, unfolding(amber_log::specs::Operands::comparison_of))]
pub fn comparison_of(sign: &str) -> Option<Cmp>
    ensures { result ≡ comparison_of sign.now }
{
    match sign {
        "=" => Some(Cmp::Eq),
        "!=" => Some(Cmp::Ne),
        "<" => Some(Cmp::Lt),
        "<=" => Some(Cmp::Le),
        ">" => Some(Cmp::Gt),
        ">=" => Some(Cmp::Ge),
        _ => None,
    }
}

fn place_of(columns: &[Column], name: &str) -> Option<usize>
    ensures place { result ≡ position (λ column. bytes_eq column.name name.now) columns.now }
    ensures there { IfSome result (λ place. place < length columns.now) }
{
    columns.iter().position(|column| column.name.get() == name)
}

fn find_column(columns: &[Column], name: &str) -> Result<u32, ScriptWhy>
    requires { length columns.now ≤ 64 }
    ensures { result ≡ number_of_column columns.now name.now }
{
    match place_of(columns, name) {
        None => Err(ScriptWhy::Column),
        Some(place) => Ok(place as u32 + 1),
    }
}

/// The kind of the column with this number, from 1.
pub fn column_kind_at(columns: &[Column], number: u32) -> Option<ColKind>
    ensures { result ≡ column_kind_at columns.now number }
{
    if number == 0 {
        return None;
    }
    match columns.get(number as usize - 1) {
        None => None,
        Some(column) => Some(column.kind),
    }
}

/// The constant that a word is in a column of this kind.
pub fn read_constant(kind: ColKind, word: &Text) -> Result<Value, ReadErr>
    ensures constant { AnswersWords result (script_constant kind word.now) }
    ensures kind { IfOk result (λ constant. same_kind kind (kind_of constant) ≡ true) }
{
    match kind {
        ColKind::Int => {
            let number = read_int(word.get().as_bytes()).ok_or(ScriptWhy::Mismatch)?;
            Ok(Value::Int(number))
        }
        ColKind::Text => Ok(Value::Text(word.clone()?)),
    }
}

/// The condition on the column with this name, where it is compared so with the constant that a word is.
#[tactic(auto, using(crate::proofs::Fitting::is_cell))]
pub fn read_condition(columns: &[Column], name: &str, op: Cmp, word: &Text) -> Result<Cond, ReadErr>
    requires { length columns.now ≤ 64 }
    ensures condition { AnswersWords result (condition_on columns.now name.now op word.now) }
    ensures cell { IfOk result (λ cond.
        is_cell_of (nth columns.now cond.column) cond.constant ≡ true) }
{
    let column = find_column(columns, name)?;
    let kind = column_kind_at(columns, column).ok_or(ScriptWhy::Column)?;
    let constant = read_constant(kind, word)?;
    Ok(Cond {
        column,
        op,
        constant,
    })
}
