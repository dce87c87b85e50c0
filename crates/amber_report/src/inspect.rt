//! What an operator shows of its workers and of what is in force there. Over `Inspected` of `amber_meaning`.

ghost use Rattle.std.specs.Prelude.{◌≡◌, ◌+◌, [], ◌∷◌, ◌++◌, codes, decimal, IfOk, OnOk};
ghost use Rattle.std.specs.List.{flat_map};
ghost use Rattle.amber_rows.specs.Lists.{nth};
ghost use Rattle.amber_meaning.specs.Texts.{after_blank, constant_text, count_text, extra_words, inspected_text};
ghost use Rattle.amber_meaning.specs.Texts.{kind_in, next_text, pause_text, stand_word, views_text, view_words};
ghost use Rattle.amber_meaning.specs.Kinds.{kind_word};
ghost use Rattle.amber_meaning.specs.Texts.{id_at, when_text, words_line};

use crate::conditions::push_cond;
use crate::words::{end_line, id_of, push_number, push_value, push_word};
use amber_meaning::{Counted, Extra, Inspected, Stand, Views, WorkerView};
use amber_rows::{Bytes, Cond, Flow, Row, Value, What, row_text};
use std::alloc::{AllocError, Global};

// The word of a kind of operator.
fn kind_word(what: &What) -> &'static [u8]
    ensures { result.now ≡ kind_word what.now }
{
    match what {
        What::Scan { .. } => b"scan",
        What::Filter { .. } => b"filter",
        What::Project { .. } => b"project",
        What::Join { .. } => b"join",
        What::Group { .. } => b"group",
        What::Sink { .. } => b"sink",
    }
}

// The word of an operator's kind; none where there is no such operator.
fn kind_of(flow: &Flow, op: u32) -> &'static [u8]
    ensures { result.now ≡ kind_in (nth flow.now op) }
{
    match flow.operator(op) {
        Some(operator) => kind_word(&operator.what),
        None => &[],
    }
}

// The first line: which operator, and of which kind.
#[tactic(auto, unfolding(amber_meaning::specs::Texts::words_line))]
fn push_title(text: &mut Vec<u8>, flow: &Flow, op: u32) -> Result<(), AllocError>
    ensures { OnOk result (text.new.items ≡ text.old.items
        ++ words_line (codes "inspect" ∷ id_at flow.now op ∷ kind_in (nth flow.now op) ∷ [])) }
{
    text.extend_from_slice(b"inspect")?;
    push_word(text, id_of(flow, op))?;
    push_word(text, kind_of(flow, op))?;
    end_line(text)
}

// The constant of a filter.
#[tactic(auto, unfolding(amber_meaning::specs::Texts::words_line))]
fn push_constant(text: &mut Vec<u8>, constant: &Option<Value>) -> Result<(), AllocError>
    ensures { OnOk result (text.new.items ≡ text.old.items ++ constant_text constant.now) }
{
    let Some(constant) = constant else {
        return Ok(());
    };
    text.extend_from_slice(b"constant")?;
    push_value(text, constant)?;
    end_line(text)
}

// The pause that is in force.
#[tactic(auto, unfolding(amber_meaning::specs::Texts::words_line))]
fn push_pause(text: &mut Vec<u8>, pause: Option<u64>) -> Result<(), AllocError>
    ensures { OnOk result (text.new.items ≡ text.old.items ++ pause_text pause) }
{
    let Some(n) = pause else {
        return Ok(());
    };
    text.extend_from_slice(b"pause")?;
    push_number(text, n)?;
    end_line(text)
}

// The count that is in force.
#[tactic(auto, unfolding(amber_meaning::specs::Texts::words_line))]
fn push_count(text: &mut Vec<u8>, count: Option<Counted>) -> Result<(), AllocError>
    ensures { OnOk result (text.new.items ≡ text.old.items ++ count_text count) }
{
    let Some(count) = count else {
        return Ok(());
    };
    text.extend_from_slice(b"count")?;
    push_number(text, count.counted)?;
    push_word(text, b"of")?;
    push_number(text, count.target)?;
    end_line(text)
}

// The condition that is in force.
#[tactic(auto, using(crate::proofs::Lines::whole_line))]
fn push_when(
    text: &mut Vec<u8>,
    flow: &Flow,
    op: u32,
    when: &Option<Cond>,
) -> Result<(), AllocError>
    ensures { OnOk result (text.new.items ≡ text.old.items ++ when_text flow.now op when.now) }
{
    let Some(cond) = when else {
        return Ok(());
    };
    text.extend_from_slice(b"when")?;
    push_cond(text, flow, op, cond)?;
    end_line(text)
}

// How a worker stands.
fn stand_word(stand: Stand) -> &'static [u8]
    ensures { result.now ≡ stand_word stand }
{
    match stand {
        Stand::Ready => b"ready",
        Stand::Held => b"held",
        Stand::Finished => b"finished",
    }
}

// A word and a number.
fn push_part(text: &mut Vec<u8>, word: &[u8], number: u64) -> Result<(), AllocError>
    ensures { OnOk result
        (text.new.items ≡ text.old.items ++ flat_map after_blank (word.now ∷ decimal number ∷ [])) }
{
    push_word(text, word)?;
    push_number(text, number)
}

// What a worker shows by the kind of its operator.
fn push_extra(text: &mut Vec<u8>, extra: Extra) -> Result<(), AllocError>
    ensures { OnOk result (text.new.items
        ≡ text.old.items ++ flat_map after_blank (extra_words extra)) }
{
    match extra {
        Extra::Nothing => Ok(()),
        Extra::Scan { refused } => push_part(text, b"refused", refused),
        Extra::Join { keys, built } => {
            push_part(text, b"keys", keys)?;
            push_part(text, b"built", built)
        }
        Extra::Group { groups } => push_part(text, b"groups", groups),
        Extra::Sink { kept } => push_part(text, b"kept", kept),
    }
}

// The line of a worker.
#[tactic(auto, using(crate::proofs::Lines::worker_line))]
fn push_worker(text: &mut Vec<u8>, worker: u64, view: &WorkerView) -> Result<(), AllocError>
    ensures { OnOk result (text.new.items
        ≡ text.old.items ++ words_line (view_words worker view.now)) }
{
    text.extend_from_slice(b"worker")?;
    push_number(text, worker)?;
    push_part(text, b"taken", view.taken)?;
    push_part(text, b"rest", view.rest)?;
    push_part(text, b"out", view.out)?;
    push_part(text, b"pending", view.pending)?;
    push_word(text, stand_word(view.stand))?;
    push_extra(text, view.extra)?;
    end_line(text)
}

// A worker's first pending row.
#[tactic(auto, unfolding(amber_meaning::specs::Texts::words_before))]
fn push_next(alloc: Global, text: &mut Vec<u8>, next: &Option<Row>) -> Result<(), AllocError>
    ensures { OnOk result (text.new.items ≡ text.old.items ++ next_text next.now) }
{
    let Some(row) = next else {
        return Ok(());
    };
    text.extend_from_slice(b"next")?;
    push_word(text, row_text(alloc, row)?.as_slice())
}

// The workers of an operator.
fn push_views(alloc: Global, text: &mut Vec<u8>, views: &Views) -> Result<(), AllocError>
    ensures { OnOk result (text.new.items ≡ text.old.items ++ views_text 0 views.now) }
{
    for (worker, view) in views.get().iter().enumerate() {
        push_worker(text, worker as u64, view)?;
        push_next(alloc, text, &view.next)?;
    }
    Ok(())
}

/// The reply to a command to inspect an operator: which it is; a filter's constant; what is in force; a line for
/// each worker, and after it the first of its pending rows.
#[tactic(auto, unfolding(amber_meaning::specs::Texts::inspected_text))]
pub fn inspect_lines(alloc: Global, flow: &Flow, seen: &Inspected) -> Result<Bytes, AllocError>
    ensures { IfOk result (λ text. text ≡ inspected_text flow.now seen.now) }
{
    let mut text = Vec::new(alloc);
    push_title(&mut text, flow, seen.op)?;
    push_constant(&mut text, &seen.constant)?;
    push_pause(&mut text, seen.pause)?;
    push_count(&mut text, seen.count)?;
    push_when(&mut text, flow, seen.op, &seen.when)?;
    push_views(alloc, &mut text, &seen.workers)?;
    Ok(Bytes::new(text))
}
