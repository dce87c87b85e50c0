//! The text of a query's answer. Over `Answer` of `amber_meaning`.

ghost use Rattle.std.specs.Prelude.{◌≡◌, [], ◌∷◌, ◌++◌, codes, length, IfOk, OnOk};
ghost use Rattle.std.specs.List.{flat_map};
ghost use Rattle.std.specs.Fmt.{decimal};
ghost use Rattle.amber_meaning.specs.Texts.{after_blank, answer_text, fault_words, refusal_text, words_line};

use crate::words::{end_line, id_of, push_number, push_word};
use amber_meaning::{Answer, Refusal};
use amber_rows::{Bytes, Flow, Row, RowFault, append_names, append_rows, row_text};
use std::alloc::{AllocError, Global};

// Why a record is no row.
fn push_fault(text: &mut Vec<u8>, fault: RowFault) -> Result<(), AllocError>
    ensures { OnOk result
        (text.new.items ≡ text.old.items ++ flat_map after_blank (fault_words fault)) }
{
    match fault {
        RowFault::Width => push_word(text, b"width"),
        RowFault::Int(column) => {
            push_word(text, b"int")?;
            push_number(text, u64::from(column))
        }
        RowFault::Utf8(column) => {
            push_word(text, b"utf8")?;
            push_number(text, u64::from(column))
        }
    }
}

// The line of a record that is no row.
#[tactic(auto, using(crate::proofs::Lines::record_line))]
fn push_record(
    text: &mut Vec<u8>,
    flow: &Flow,
    op: u32,
    number: u64,
    fault: RowFault,
) -> Result<(), AllocError>
    ensures { OnOk result (text.new.items
        ≡ text.old.items ++ refusal_text flow.now (Refusal.Record op number fault)) }
{
    text.extend_from_slice(b"refused record")?;
    push_word(text, id_of(flow, op))?;
    push_number(text, number)?;
    push_fault(text, fault)?;
    end_line(text)
}

// The line of a group whose key has no row. A key without cells adds nothing to it.
#[tactic(auto, using(crate::proofs::Lines::group_line, crate::proofs::Lines::bare_line))]
fn push_group(
    alloc: Global,
    text: &mut Vec<u8>,
    flow: &Flow,
    op: u32,
    key: &Row,
) -> Result<(), AllocError>
    ensures { OnOk result (text.new.items
        ≡ text.old.items ++ refusal_text flow.now (Refusal.Group op key.now)) }
{
    text.extend_from_slice(b"refused group")?;
    push_word(text, id_of(flow, op))?;
    if key.get().is_empty() {
        return end_line(text);
    }
    push_word(text, row_text(alloc, key)?.as_slice())
}

fn push_refusal(
    alloc: Global,
    text: &mut Vec<u8>,
    flow: &Flow,
    refusal: &Refusal,
) -> Result<(), AllocError>
    ensures { OnOk result (text.new.items ≡ text.old.items ++ refusal_text flow.now refusal.now) }
{
    match refusal {
        Refusal::Record { op, number, fault } => push_record(text, flow, *op, *number, *fault),
        Refusal::Group { op, key } => push_group(alloc, text, flow, *op, key),
    }
}

fn push_refusals(
    alloc: Global,
    text: &mut Vec<u8>,
    flow: &Flow,
    refused: &[Refusal],
) -> Result<(), AllocError>
    ensures { OnOk result (text.new.items
        ≡ text.old.items ++ flat_map (refusal_text flow.now) refused.now) }
{
    for refusal in refused {
        push_refusal(alloc, text, flow, refusal)?;
    }
    Ok(())
}

// How many rows there are.
#[tactic(auto, unfolding(amber_meaning::specs::Texts::words_line))]
fn push_count(text: &mut Vec<u8>, rows: usize) -> Result<(), AllocError>
    ensures { OnOk result (text.new.items
        ≡ text.old.items ++ words_line (codes "rows" ∷ decimal rows ∷ [])) }
{
    text.extend_from_slice(b"rows")?;
    push_number(text, rows as u64)?;
    end_line(text)
}

/// The text of an answer: a line for each refused record and group, with its operator's id; how many rows
/// there are; the columns' names as a record; the rows as records.
#[tactic(auto, unfolding(amber_meaning::specs::Texts::answer_text))]
pub fn answer_lines(alloc: Global, flow: &Flow, answer: &Answer) -> Result<Bytes, AllocError>
    ensures { IfOk result (λ text. text ≡ answer_text flow.now answer.now) }
{
    let mut text = Vec::new(alloc);
    push_refusals(alloc, &mut text, flow, answer.refused.get())?;
    push_count(&mut text, answer.rows.get().len())?;
    let text = append_names(alloc, text, &answer.columns)?;
    let text = append_rows(alloc, text, answer.rows.get())?;
    Ok(Bytes::new(text))
}
