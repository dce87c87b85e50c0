//! The numbers of a log's lines.

ghost use Rattle.std.specs.Prelude.{◌≡◌, ◌+◌, ◌^◌, ◌≤◌, IfSome};
ghost use Rattle.amber_log.specs.Operands.{number, signed_number};

use itoa::Buffer;
use std::str;

/// The number of at most `most` that these digits are; none where a log would write it otherwise.
pub fn number(digits: &[u8], most: u64) -> Option<u64>
    ensures value { result ≡ number (most + 1) digits.now }
    ensures small { IfSome result (λ n. n ≤ most) }
{
    let Ok(text) = str::from_utf8(digits) else {
        return None;
    };
    let Ok(value) = text.parse::<u64>() else {
        return None;
    };
    if value > most {
        return None;
    }
    let mut buffer = Buffer::new();
    if buffer.format(value).as_bytes() == digits {
        Some(value)
    } else {
        None
    }
}

/// The number of 32 bits that these digits are.
pub fn number32(digits: &[u8]) -> Option<u32>
    ensures { result ≡ number (2 ^ 32) digits.now }
{
    let value = number(digits, u64::from(u32::MAX))?;
    Some(value as u32)
}

/// The number of 64 bits with a sign that these bytes are. There is no `-0`.
#[tactic(auto, unfolding(amber_log::specs::Operands::signed_number))]
pub fn signed(bytes: &[u8]) -> Option<i64>
    ensures { result ≡ signed_number bytes.now }
{
    match bytes {
        [] => None,
        [b'-', digits @ ..] => match number(digits, 1 << 63) {
            None | Some(0) => None,
            Some(size) => Some(-1 - (size - 1) as i64),
        },
        _ => {
            let value = number(bytes, (1 << 63) - 1)?;
            Some(value as i64)
        }
    }
}
