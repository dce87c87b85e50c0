//! What is said to a line that is refused. Rests on `ScriptWhy`.

ghost use Rattle.std.specs.Prelude.{◌≡◌, IfOk};
ghost use Rattle.amber_session.specs.Talk.{refused_text};

use amber_course::ScriptWhy;
use itoa::Buffer;
use std::alloc::{AllocError, Global};

/// The number of the line, and the reason against it.
#[tactic(auto, unfolding(crate::specs::Talk::refused_text))]
pub(crate) fn refusal_text(
    alloc: Global,
    number: u64,
    why: ScriptWhy,
) -> Result<Vec<u8>, AllocError>
    ensures { IfOk result (λ text. text.items ≡ refused_text number why) }
{
    let mut buffer = Buffer::new();
    let mut text = Vec::new(alloc);
    text.extend_from_slice(b"refused ")?;
    text.extend_from_slice(buffer.format(number).as_bytes())?;
    text.extend_from_slice(b" ")?;
    text.extend_from_slice(why.word().as_bytes())?;
    text.extend_from_slice(b"\n")?;
    Ok(text)
}
