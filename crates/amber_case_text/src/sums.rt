//! Numbers that add up to a number in a range.

ghost use Rattle.std.specs.Prelude.{◌≡◌, ◌<◌, ◌≤◌, ◌^◌, length, sum, IfNone, IfSome, OnOk};
ghost use Rattle.amber_case_text.specs.Sums.{HasSumWithin, HasSumBeyond};

use std::alloc::{AllocError, Global};

// What numbers add up to, where that is a number of 64 bits.
fn sum_of(numbers: &[u64]) -> Option<u64>
    ensures sum { IfSome result (λ total. total ≡ sum numbers.now) }
    ensures large { IfNone result (2 ^ 64 ≤ sum numbers.now) }
{
    let mut total = 0u64;
    for number in numbers {
        total = total.checked_add(*number)?;
    }
    Some(total)
}

/// Adds nothing, where the numbers add up to one in the range; else what no line of a text is.
pub(crate) fn add_sum(
    alloc: Global,
    all: &mut Vec<u8>,
    numbers: &[u64],
    least: u64,
    most: u64,
) -> Result<(), AllocError>
    ensures within { OnOk result (HasSumWithin least most numbers.now
        → all.new.items ≡ all.old.items) }
    ensures beyond { OnOk result (HasSumBeyond least most numbers.now
        → length all.old.items < length all.new.items) }
{
    match sum_of(numbers) {
        Some(total) if least <= total && total <= most => Ok(()),
        Some(total) => {
            all.extend_from_slice(b"{a sum of ")?;
            let sums = format!(in alloc; "{least}..{most} and not {total}}}")?;
            all.extend_from_slice(sums.as_bytes())
        }
        None => all.extend_from_slice(b"{a smaller sum}"),
    }
}
