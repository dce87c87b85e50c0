//! The signs of comparisons, as they stand in logs, scripts and replies. Over `Cmp` of `amber_rows`.

ghost use Rattle.std.specs.Prelude.{◌≡◌};
ghost use Rattle.amber_log.specs.Words.{sign_of};

use amber_rows::Cmp;

/// The sign of a comparison, in ASCII.
pub fn sign(comparison: Cmp) -> &'static [u8]
    ensures { result.now ≡ sign_of comparison }
{
    match comparison {
        Cmp::Eq => b"=",
        Cmp::Ne => b"!=",
        Cmp::Lt => b"<",
        Cmp::Le => b"<=",
        Cmp::Gt => b">",
        Cmp::Ge => b">=",
    }
}
