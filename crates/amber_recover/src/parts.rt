//! The parts of a leg, done again. Over `redo_part` of `amber_home`.

ghost use Rattle.std.specs.Prelude.{◌≡◌, ◌+◌, ◌^◌, ◌<◌, ◌++◌, ◌∷◌, [], IfOk, None, length, true};
ghost use Rattle.std.specs.List.{flat_map};
ghost use Rattle.amber_log.specs.Grammar.{AreParts};
ghost use Rattle.amber_log.specs.LogText.{part_lines};
ghost use Rattle.amber_home.specs.Redoing.{may_redo};
ghost use Rattle.amber_recover.specs.Redone.{HasDoneParts, bad_in_parts};

use amber_home::Home;
use amber_log::{Part, part_length};
use std::alloc::AllocError;

// Does again what one worker did in the leg that is open. The answer is the first line that cannot stand there, if there is
// one, where the part's first line has this number.
fn redo_part(home: &mut Home, part: &Part, line: u64) -> Result<Option<u64>, AllocError>
    requires within { may_redo home.old.phase ≡ true }
    requires next { AreParts 0 (home.old.parts ++ part.now ∷ []) }
    requires few { line + length (part_lines part.now) < 2 ^ 33 }
    ensures found { IfOk result (λ bad. bad ≡ bad_in_parts home.old line (part.now ∷ [])) }
    ensures done { IfOk result (λ bad. bad ≡ None
        → HasDoneParts (part.now ∷ []) home.old home.new) }
{
    if part.worker >= home.flow().workers() {
        return Ok(Some(line));
    }
    match home.redo_part(part.worker, part.entries.get())? {
        None => Ok(None),
        Some(place) => Ok(Some(line + 1 + place)),
    }
}

/// Does all parts of a leg again that was just opened, one after the other. The answer is the first line that cannot stand
/// there, if there is one, where the first line of the parts has this number.
pub(crate) fn redo_parts(
    home: &mut Home,
    parts: &[Part],
    line: u64,
) -> Result<Option<u64>, AllocError>
    requires within { may_redo home.old.phase ≡ true }
    requires fresh { home.old.parts ≡ [] }
    requires text { AreParts 0 parts.now }
    requires few { line + length (flat_map part_lines parts.now) < 2 ^ 33 }
    ensures found { IfOk result (λ bad. bad ≡ bad_in_parts home.old line parts.now) }
    ensures done { IfOk result (λ bad. bad ≡ None → HasDoneParts parts.now home.old home.new) }
{
    let mut next = line;
    for part in parts {
        let bad = redo_part(home, part, next)?;
        if bad.is_some() {
            return Ok(bad);
        }
        next += part_length(part);
    }
    Ok(None)
}
