//! Writes lines that are a fixed beginning and some numbers.

ghost use Rattle.std.specs.Prelude.{◌≡◌, [], ◌∷◌, ◌++◌, OnOk, decimal};

use itoa::Buffer;
use std::alloc::AllocError;

/// A space and a number.
pub fn push_number(out: &mut Vec<u8>, number: u64) -> Result<(), AllocError>
    ensures { OnOk result (out.new.items ≡ out.old.items ++ 32 ∷ decimal number) }
{
    let mut buffer = Buffer::new();
    out.push(b' ')?;
    out.extend_from_slice(buffer.format(number).as_bytes())
}

/// A line of these bytes.
pub fn push_line(out: &mut Vec<u8>, bytes: &[u8]) -> Result<(), AllocError>
    ensures { OnOk result (out.new.items ≡ out.old.items ++ (bytes.now ++ 10 ∷ [])) }
{
    out.extend_from_slice(bytes)?;
    out.extend_from_slice(b"\n")
}

/// A line of these bytes and a number.
pub fn push_one(out: &mut Vec<u8>, bytes: &[u8], number: u64) -> Result<(), AllocError>
    ensures { OnOk result (out.new.items
        ≡ out.old.items ++ ((bytes.now ++ 32 ∷ decimal number) ++ 10 ∷ [])) }
{
    out.extend_from_slice(bytes)?;
    push_number(out, number)?;
    out.extend_from_slice(b"\n")
}

/// A line of these bytes and two numbers.
pub fn push_two(out: &mut Vec<u8>, bytes: &[u8], first: u64, second: u64) -> Result<(), AllocError>
    ensures { OnOk result (out.new.items
        ≡ out.old.items ++ ((bytes.now ++ 32 ∷ (decimal first ++ 32 ∷ decimal second))
        ++ 10 ∷ [])) }
{
    out.extend_from_slice(bytes)?;
    push_number(out, first)?;
    push_number(out, second)?;
    out.extend_from_slice(b"\n")
}
