//! The texts and lists in a JSON value.

ghost use Rattle.std.specs.Prelude.{◌≡◌, map, ok_or, option_map, MatchResult, Ok, Err};
ghost use Rattle.serde_json.specs.Find.{as_str};
ghost use Rattle.serde_json.specs.View.{view};
ghost use Rattle.amber_rows.specs.Chain.{each};
ghost use Rattle.amber_flow.specs.Fields.{array_at, text_at, text_in, texts_at};
ghost use Rattle.amber_flow.specs.PartAnswers.{AnswersPartSeen};
ghost use Rattle.amber_flow.specs.declared.error.FlowWhy.TheVariants.{Shape};

use crate::error::{FlowWhy, ReadErr};
use serde_json::Value;
use std::alloc::Global;

/// The text at a key of an object.
pub fn text_field<'v>(object: &'v Value, key: &str) -> Result<&'v str, FlowWhy>
    ensures { MatchResult result
        (λ text. Ok text.now ≡ ok_or (text_at key.now (view object.now)) Shape)
        (λ why. Err why ≡ ok_or (text_at key.now (view object.now)) Shape) }
{
    object
        .get(key)
        .and_then(Value::as_str)
        .ok_or(FlowWhy::Shape)
}

/// The list at a key of an object.
pub fn list_field<'v>(object: &'v Value, key: &str) -> Result<&'v [Value], FlowWhy>
    ensures { MatchResult result
        (λ list. Ok (map view list.now) ≡ ok_or (array_at key.now (view object.now)) Shape)
        (λ why. Err why ≡ ok_or (array_at key.now (view object.now)) Shape) }
{
    let list = object
        .get(key)
        .and_then(Value::as_array)
        .ok_or(FlowWhy::Shape)?;
    Ok(list.as_slice())
}

/// The texts of a list, where each value is one.
fn read_texts(alloc: Global, trees: &[Value]) -> Result<Vec<&str>, ReadErr>
    ensures { AnswersPartSeen (λ texts. map (λ text. text.now) texts.items) result
        (ok_or (each as_str (map view trees.now)) Shape) }
{
    let mut texts = Vec::new(alloc);
    for tree in trees {
        texts.push(tree.as_str().ok_or(FlowWhy::Shape)?)?;
    }
    Ok(texts)
}

/// The texts of the list at a key of an object, where it has nothing else.
pub fn texts_field<'v>(alloc: Global, object: &'v Value, key: &str) -> Result<Vec<&'v str>, ReadErr>
    ensures { AnswersPartSeen (λ texts. map (λ text. text.now) texts.items) result
        (ok_or (texts_at key.now (view object.now)) Shape) }
{
    read_texts(alloc, list_field(object, key)?)
}

/// The text at an index of a list.
pub fn text_item(list: &Value, index: usize) -> Option<&str>
    ensures { option_map (λ text. text.now) result ≡ text_in index (view list.now) }
{
    list.get(index).and_then(Value::as_str)
}
