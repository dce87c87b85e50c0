//! The signs and constants of a log's commands.

ghost use Rattle.std.specs.Prelude.{◌≡◌, IfOk};
ghost use Rattle.amber_log.specs.Operands.{comparison_of, constant_of, hex_text};

use crate::numbers::signed;
use amber_rows::{Cmp, Text, Value};
use hex::FromHexError;
use std::alloc::{AllocError, Global};

/// The comparison with this sign.
#[tactic(auto, unfolding(amber_log::specs::Operands::comparison_of))]
pub fn comparison(word: &[u8]) -> Option<Cmp>
    ensures { result ≡ comparison_of word.now }
{
    match word {
        b"=" => Some(Cmp::Eq),
        b"!=" => Some(Cmp::Ne),
        b"<" => Some(Cmp::Lt),
        b"<=" => Some(Cmp::Le),
        b">" => Some(Cmp::Gt),
        b">=" => Some(Cmp::Ge),
        _ => None,
    }
}

/// The text whose UTF-8 bytes these digits are in hexadecimal, in lower case.
#[tactic(auto, unfolding(amber_log::specs::Operands::hex_text))]
fn text(alloc: Global, digits: &[u8]) -> Result<Option<Text>, AllocError>
    ensures { IfOk result (λ text. text ≡ hex_text digits.now) }
{
    let bytes = match hex::decode(alloc, digits) {
        Ok(bytes) => bytes,
        Err(FromHexError::OutOfMemory) => return Err(AllocError),
        Err(_) => return Ok(None),
    };
    let Ok(decoded) = String::from_utf8(bytes) else {
        return Ok(None);
    };
    let spelled = hex::encode(alloc, decoded.as_str().as_bytes())?;
    if spelled.as_bytes() == digits {
        Ok(Some(Text::new(alloc, decoded.as_str())?))
    } else {
        Ok(None)
    }
}

/// The constant that a word is.
#[tactic(auto, unfolding(amber_log::specs::Operands::constant_of))]
pub fn constant(alloc: Global, word: &[u8]) -> Result<Option<Value>, AllocError>
    ensures { IfOk result (λ constant. constant ≡ constant_of word.now) }
{
    match word {
        [b'i', number @ ..] => match signed(number) {
            Some(number) => Ok(Some(Value::Int(number))),
            None => Ok(None),
        },
        [b't', digits @ ..] => match text(alloc, digits)? {
            Some(text) => Ok(Some(Value::Text(text))),
            None => Ok(None),
        },
        _ => Ok(None),
    }
}
